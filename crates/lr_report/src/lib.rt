//! The report of a run, byte for byte.
//!
//! `run` holds what was run. `text` writes its text from three parts: `devices` has the calls that each device answered,
//! `actors` the results of each actor's jobs, and `depot` what the depot's log and its last view tell. `names` collects the names that
//! the script declares, and `answers` prints how a job ended. In `specs/`, `Report` is the text of a run, and `Names` and
//! `Answers` the words in it.
#![tactic(auto)]

mod actors;
mod answers;
mod depot;
mod devices;
mod names;
mod run;
mod text;

pub use run::{OpenDevice, Opening, Run};
pub use text::report;
