//! Loads: the machine that brings one chunk into a host's cache.
//!
//! A load looks into the cache, asks the nodes for stripes, and asks the depot only where these don't rebuild the chunk.
//! `load` is the machine, `stage` what it keeps between a call and its reply, `stripes` rebuilds a chunk and makes its
//! stripes, `test_of_replies` tells which replies may be taken, and `laws` what follows for every load. The walk of a load
//! stands in `lr_walk`; in `specs/`, `Progress` is what contracts see of a load under way, `Held` the stripes in hand, `Seen`
//! the program's values as plain data, and `Determined` says that a load's calls rest on the replies alone.
#![tactic(auto)]

mod action;
mod laws;
mod load;
mod stage;
mod stripes;
mod test_of_replies;

pub use action::{LoadAction, LoadEnd, LoadReply};
pub use laws::loads_are_determined;
pub use load::Load;
pub use lr_walk::LoadPlace;
