//! The common object: a state machine that keeps a log.
//!
//! Every part that callers share (the depot, the caches, the nodes, the devices) is an object. One call is one
//! atomic step, and the log keeps what it did. `entry` holds a line of a log, `object` the trait, `id` the name of
//! an object, `recent` the edits of a list whose most recent element stands first. `specs/` has a caller's own
//! entries, logs that grow, what a call leaves of an object of a capacity, and places that a test finds in a list.
#![tactic(auto)]

mod entry;
mod id;
mod object;
mod recent;

pub use entry::Entry;
pub use id::ObjectId;
pub use object::Object;
pub use recent::{owner_of, put_first, raise};
