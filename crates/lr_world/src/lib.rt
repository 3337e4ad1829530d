//! Actors over the objects that they call on, on one thread.
//!
//! `world` has the world with its steps and its runs. In `specs/`, `World` says what a world is and what one step does, `Runs` in which
//! order a schedule makes the steps and what a run leaves.
#![tactic(auto)]

mod calling;
mod laws;
mod world;

pub use world::{Stepped, World};
