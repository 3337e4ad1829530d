//! The lines of roots, as a report and the command `roots` print them.
//!
//! `line` adds the line of one root, `part` the lines of all roots of a catalog. `specs/RootLines` says what they are.
#![tactic(auto)]

mod line;
mod part;

pub use line::put_root_line;
pub use part::put_roots;
