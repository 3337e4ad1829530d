//! The commands over a store: each is one machine driven over a depot, or a text of the depot's view.
#![tactic(auto)]

mod collecting;
mod ends;
mod laws;
mod moving;
mod outcome;
mod roots;
mod running;
mod words;

pub use collecting::collect;
pub use ends::outcome_of_refusal;
pub use laws::{commands_come_alone, done_images, equal_chunks_share_a_key, logs_tell_of_outcomes};
pub use moving::migrate;
pub use outcome::{Outcome, Refusal};
pub use roots::view_text;
pub use running::{Done, commands, outcome_of_cause, written};
pub use words::{Command, command_of};
