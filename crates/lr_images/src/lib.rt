//! Images over a started depot: one is created from a source, and read back.
//!
//! `drive` makes the calls of a creation, `pieces` reads the source in pieces, `creating` joins the two, `reading` reads an
//! image back, `laws` has what follows for every log. In `specs/`, `Drive` says what the depot's log makes of a creation,
//! `Created` what a creation answers, `Cat` is the walk of reading an image and what is read.
#![tactic(auto)]

mod created;
mod creating;
mod drive;
mod laws;
mod pieces;
mod reading;

pub use created::Created;
pub use creating::create;
pub use laws::{answers_are_told, created_images_denote};
pub use reading::{CatError, cat};
