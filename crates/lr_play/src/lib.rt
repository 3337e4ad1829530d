//! A script's actors, played over the parts that its setup lines gave.
//!
//! `cast` makes the actors of a script, `play` lets them play and then the after part alone, or hands them out to be stepped one by one,
//! and `laws` has what follows for their jobs. In `specs/`, `Players` says who plays, `Given` that their jobs may be given to actors,
//! `Acting` what new actors are and what they leave when they have acted, and `Played` what a play leaves.
#![tactic(auto)]

mod cast;
mod laws;
mod play;

pub use laws::jobs_may_be_given;
pub use play::{Performed, Unperformed, new_actors, perform};
