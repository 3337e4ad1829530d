//! The grammar of scripts, read exactly: a script, or the first line outside the grammar.
//!
//! `specs/Grammar` says what a script is: lines that lead from state to state. `specs/Lines` has one record for each
//! kind of line, `specs/Limits` each limit. `kind` tells a line's kind; `setup`, `device_jobs`, `depot_jobs`,
//! `damage_jobs`, `parts` and `schedule` read the words behind it, one function a kind, and `words` what several
//! share; `reading` keeps the state, `step` reads a line, and `parse` a whole text. A further kind of line is one
//! record, one function and one line in the table of what may come.
#![tactic(auto)]

mod copies;
mod damage_jobs;
mod depot_jobs;
mod device_jobs;
mod error;
mod kind;
mod laws;
mod limits;
mod parse;
mod parts;
mod reading;
mod schedule;
mod script;
mod setup;
mod step;
mod words;

pub use copies::copy_jobs;
pub use error::ScriptError;
pub use laws::scripts_are_within;
pub use limits::{
    ACTORS_MOST, ALL_NODES_MOST, BYTE_LAST, BYTES_MOST, CACHE_MOST, CACHES_MOST, CALL_MOST,
    CALLS_MOST, CHUNK_LAST, COUNTS_MOST, CRASH_MOST, DEVICES_MOST, HOSTS_MOST, IMAGE_MOST,
    IMAGES_MOST, JOBS_MOST, LINE_MOST, LINES_MOST, NODE_DEFAULT, NODE_MOST, NODES_DEFAULT,
    NODES_LEAST, NODES_MOST, PAIRS_MOST, ROOTS_MOST, RUNS_MOST, SEED_MOST, STRIPE_LAST,
};
pub use parse::one_reading;
pub use script::{Body, Job, Schedule, Script, Setup};
