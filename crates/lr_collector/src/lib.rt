//! Collections: the machine that makes the call of a job on the roots of a depot, and repeats a sweep until all is removed.
//!
//! In `specs/`, `Collection` is the walk of a job, `Progress` what contracts see of one under way, `Seen` the program's
//! values as plain data.
#![tactic(auto)]

mod collect;
mod stage;

pub use collect::{Collect, CollectAction, CollectEnd, CollectJob};
