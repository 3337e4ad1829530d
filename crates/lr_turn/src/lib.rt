//! An object that threads share: its calls take turns, and each pass knows a beginning of its one log.
//!
//! `Shared` holds an object of `lr_object`. A caller calls it through a `Pass`, which has a number. The first pass
//! has the number 0; it is split for more, and takes them in at the end. `shared` has the calls, `pass` the token,
//! `view` what a pass knows, which contracts read as `pass.place.me.0`, `joined` the lists of all passes at the end.
//! `rule` says how the object and the count of its entries lie in a table of atomic words, and `plays` what each step
//! on it tells. `specs/Views` has what steps make of a view, `specs/Called` what a call promises and what the closed
//! log is, `specs/Kept` the rule.
#![tactic(auto)]

mod joined;
mod pass;
mod plays;
mod rule;
mod shared;
mod view;

pub use joined::Joined;
pub use pass::{Pass, PassOf};
pub use rule::{Board, Known, Place, Turn};
pub use shared::{NoMemory, Shared};
pub use view::{Own, View};
