//! What follows for a run from its closing logs and trails: each device's answered calls form one legal history of a plain
//! device on its image's bytes, each call once and in the order of its caller's jobs.
//!
//! Nothing here goes through the steps of a run. The parts deliver facts on logs and trails, and this crate puts them
//! together, for runs on one thread and on many. In `specs/`, `Run` is a run as its history speaks of it, `Jobs` what it sees
//! of a job, of whichever table of jobs; `Strings`, `Opened` and `Loaded` have strings, bases and pieces; `Premises` says what the
//! parts deliver, and `Histories` what follows.
#![tactic(auto)]

mod laws;

pub use laws::{
    calls_are_answered_once, calls_fit, chunks_are_fetched_on_demand, commits_are_planned,
    device_serves_each_base, ended_actors_hold_nothing, fetches_are_few, grown_logs_are_legal,
    histories_are_legal, own_trails_are_seen, premises_can_hold, used_pieces_were_loaded,
};
