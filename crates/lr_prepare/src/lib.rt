//! The setup lines of a script, run over a depot that was started: what the run of its actors begins with.
//!
//! `lines` has each kind of line, `draft` what the lines so far made, `preparing` all lines and the call of this crate, `error` why the
//! setup stops, `laws` what follows for the depot's leases and which scripts fit. In `specs/`, `Lines` says what a script's lines are to
//! the depot, `New` what they make, `Stopped` where the setup stops, `Prepared` what it gives, and `Fit` what it asks of a script.
#![tactic(auto)]

mod draft;
mod error;
mod laws;
mod lines;
mod preparing;

pub use error::SetupError;
pub use laws::{leases_are_out, scripts_fit, stops_are_told};
pub use preparing::{Prepared, Unprepared, prepare};
