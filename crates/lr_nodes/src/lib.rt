//! A cache node: stripes of chunks, the most recent one first.
//!
//! The five stripes of a chunk stand on five nodes that [`place`] names. A node may drop, damage or lose what it
//! holds, and nothing here checks a stripe: its reader does. `call` has the calls and replies, `node` the object,
//! `list` the edits of its list; `specs/Machine` says what each call answers and leaves, `specs/Orderly` what holds
//! after every log.
#![tactic(auto)]

mod call;
mod laws;
mod list;
mod node;
mod placing;

pub use call::{NodeCall, NodeReply};
pub use laws::nodes_are_orderly;
pub use node::Node;
pub use placing::place;
