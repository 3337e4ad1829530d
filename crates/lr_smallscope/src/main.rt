//! The program `lr_smallscope`: every sequence of up to five calls on a depot over three roots and two images.
//!
//! From each of some starts it makes all sequences of up to five calls by two callers, or four from the start with the most states. One store
//! call of a sequence may fail, with and without effect. After each call it judges the view and the store by rules of its own, counts
//! the store calls, of which there is one at most, and starts a depot on the store again. A sequence that comes to a state seen before
//! isn't made longer, and calls that are refused are made one after another in one run. For each start it prints how many states and how
//! many different stores it saw, and how many runs it made.
//!
//! `keys` has the keys of the scope, `rules` what must hold of a set of them, `store` the store, `images` the images,
//! `moves` the calls, `record` what their replies tell, `run` one sequence, `search` all of them.
#![tactic(auto)]

mod error;
mod images;
mod keys;
mod moves;
mod record;
mod rules;
mod run;
mod search;
mod store;

use error::ScopeError;
use images::{Image, Scope};
use moves::{Ask, Move};
use search::explore;
use std::process::ExitCode;

const EMPTY: &[Move] = &[];

// Image A is in root 1, and root 2 is active.
const ROTATED: &[Move] = &[
    (1, Ask::Rotate),
    (1, Ask::Begin(Image::A)),
    (1, Ask::Chunk(0)),
    (1, Ask::Manifest(0)),
    (1, Ask::Rotate),
];

// Image A is leased and withdrawn in root 1, and a creation of B puts into it; root 2 is active.
const LEASED: &[Move] = &[
    (1, Ask::Rotate),
    (1, Ask::Begin(Image::A)),
    (1, Ask::Chunk(0)),
    (1, Ask::Manifest(0)),
    (2, Ask::Open(Image::A)),
    (1, Ask::Withdraw(Image::A)),
    (2, Ask::Begin(Image::B)),
    (1, Ask::Rotate),
];

// Image A was moved from root 1 to root 2.
const MOVED: &[Move] = &[
    (1, Ask::Rotate),
    (1, Ask::Begin(Image::A)),
    (1, Ask::Chunk(0)),
    (1, Ask::Manifest(0)),
    (1, Ask::Rotate),
    (1, Ask::Migrate(Image::A)),
    (1, Ask::Chunk(0)),
    (1, Ask::Finish(0)),
];

// The starts, and how many calls are made after each.
const STARTS: &[(&str, &[Move], u32)] = &[
    ("empty", EMPTY, 5),
    ("rotated", ROTATED, 4),
    ("leased", LEASED, 5),
    ("moved", MOVED, 5),
];

// Whether all sequences from a start keep the rules. Prints what it saw.
fn search_from(
    rt: &HostRuntime,
    name: &str,
    start: &[Move],
    depth: u32,
) -> Result<bool, ScopeError> {
    let scope = Scope::make(rt.alloc())?;
    let found = explore(rt.alloc(), &scope, start, depth)?;
    let Some(broken) = found.broken else {
        println!(rt;
            "{name} states {} stores {} runs {}",
            found.states, found.stores, found.runs
        )?;
        return Ok(true);
    };
    println!(rt; "{name}: {broken:?} after {:?}", found.path)?;
    Ok(false)
}

fn search_all(rt: &HostRuntime) -> Result<bool, ScopeError> {
    for start in STARTS.iter() {
        if !search_from(rt, start.0, start.1, start.2)? {
            return Ok(false);
        }
    }
    Ok(true)
}

fn main(rt: HostRuntime) -> ExitCode {
    match search_all(&rt) {
        Ok(true) => ExitCode::SUCCESS,
        Ok(false) => ExitCode::from(1),
        Err(error) => {
            let _ = eprintln!(rt; "lr_smallscope: {error}");
            ExitCode::from(2)
        }
    }
}
