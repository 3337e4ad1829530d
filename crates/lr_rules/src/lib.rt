//! The rules by which the depot changes a store: its state, when each call may be made, and what holds after each.
//!
//! `specs/` has the state and the calls, `proofs/` that each call keeps the depot safe whichever way its failed puts
//! and deletions come out. The code has the limits.
#![tactic(auto)]

/// The most image names of a depot.
pub const IMAGES_MAX: u32 = 1024;
