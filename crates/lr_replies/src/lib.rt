//! What replies mean to an actor: it takes each one that an object gives it, whatever the others do.
//!
//! In `specs/`, `Seen` says what a history sees of an actor's jobs and trails, `Objects` what a call does to the objects of a run,
//! `Replies` what follows for the actor that made it, and `Unspoiled` which jobs end with a spoiled key.
#![tactic(auto)]

mod laws;

pub use laws::{
    ended_hold_none, jobs_are_seen, leases_stay_out, lists_gain, logs_stay_made, looks_hold_none,
    replies_are_admitted, spoiled_jobs_were_told, trails_are_seen,
};
