//! The depot: the catalog over the store, with leases, sessions and the puts that are in doubt.
//!
//! `call` has the calls and replies, `numbered` the leases and sessions by their numbers, `doubts` the questions about
//! puts in doubt, `put` one put with all that it does to the store and to what is known, `images` the count of image
//! names. `kernel` holds all but the store and the log, with the calls that the store isn't asked for; `asking` has
//! those that it is, `serving` picks the one of a call. `depot` is the object with its start and end, `log` what is left
//! of it, `laws` what holds of every depot. In `specs/`, `Machine` has the table of calls and `Store` what each does to
//! the store.
#![tactic(auto)]

mod asking;
mod call;
mod collecting;
mod copying;
mod deletion;
mod depot;
mod doubts;
mod empty;
mod images;
mod job;
mod kernel;
mod laws;
mod log;
mod makers;
mod numbered;
mod put;
mod serving;
mod sessions;
mod settle;
mod start;

pub use call::{DepotCall, DepotNoted, DepotReply, DepotTold};
pub use depot::{Depot, StartError};
pub use laws::{
    calls_keep_the_promise, keys_last, leases_last, logs_can_be_cut, numbers_are_drawn_once,
    sessions_last, store_stays_sound,
};
pub use log::DepotLog;
pub use lr_opening::StartCause;
pub use start::DepotStart;
