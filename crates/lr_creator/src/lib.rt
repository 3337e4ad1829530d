//! Creations: the machine that puts an image's chunks and its manifest.
//!
//! In `specs/`, `Creation` is the walk of a creation, `Progress` what contracts see of one under way, `Seen` the program's values as
//! plain data.
#![tactic(auto)]

mod create;
mod stage;

pub use create::{Create, CreateAction, CreateEnd, Place};
