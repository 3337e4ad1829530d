//! The outside as the product sees it: where bytes come from, where they go, and how either fails.
//!
//! A source and a sink each tell a count of their faults, and may tell their content. Every failure that a
//! call answers shows in that count. Each module is a room: `source` and `sink` hold the traits with their
//! loops, `memory` the ones in memory, `line` a short text in place.
#![tactic(auto)]

mod line;
mod memory;
mod sink;
mod source;

pub use line::{LINE_CAPACITY, Line};
pub use memory::{MemSink, MemSource};
pub use sink::{Sink, SinkError, write_all};
pub use source::{ReadError, Source, SourceFailed, read_up_to};
