//! What follows of a run of actors from what it left: its objects, its actors with their trails, and the setup lines before them.
//!
//! In `specs/`, `Closing` is what a run left, and how its history sees it; `Headline` says what follows.
#![tactic(auto)]

mod laws;

pub use laws::{runs_are_runs, runs_are_whole, runs_find_nothing_spoiled, runs_follow, runs_serve};
