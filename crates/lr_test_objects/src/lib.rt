//! Tests of objects: their calls by hand, and what callers that share one come to.
//!
//! `object`, `cache`, `nodes`, `overlay`, `device`, `turn` and `loader` are each named after what they test, and `device_edges` compares a
//! device's calls with a plain list of bytes. `alone`, `pair` and `cross` share caches between passes and threads, whose clauses say what
//! each pass knows in the end (`finish`), and `shared` runs them. `tally` is a small object.
#![tactic(auto)]

mod alone;
#[cfg(test)]
mod cache;
mod cross;
#[cfg(test)]
mod device;
#[cfg(test)]
mod device_edges;
mod finish;
#[cfg(test)]
mod loader;
#[cfg(test)]
mod nodes;
#[cfg(test)]
mod object;
#[cfg(test)]
mod overlay;
mod pair;
#[cfg(test)]
mod shared;
#[cfg(test)]
mod tally;
#[cfg(test)]
mod turn;

pub use alone::{Alone, close_at_once, look_alone};
pub use cross::{Firsts, Four, Runner, look_across};
pub use finish::{Ended, Lists};
pub use pair::{Caller, look_in_pairs};
