//! What is written down of an actor: its trail so far, the path of the job under way, and the counts of both.
ghost use Rattle.std.specs.Prelude.{◌≡◌, ◌+◌, ◌<◌, ◌≤◌, IfOk, vec_len, vec_capacity};
ghost use Rattle.std.specs.Bool.{OnTrue};
ghost use Rattle.lr_actors.specs.Tally.{count_of, Has};
ghost use Rattle.lr_actors.specs.Book.{IsNewBook, IsBook, TakesPlace, Noted, Finished, HasRoom, SameBook};

use crate::tally::Tally;
use crate::trail::{ActorState, Trail};
use lr_object::ObjectId;
use lr_spec::OutOfMemory;
use lr_walk::{Answer, Did, JobResult};
use std::alloc::Global;
use std::mem;

#[derive(Drop)]
pub(crate) struct Book {
    pub(crate) trail: Trail,
    pub(crate) path: Vec<Did>,
    pub(crate) tally: Tally,
    /// The steps of all paths.
    pub(crate) made: u64,
}

/// A new book, with memory for the results of so many jobs.
pub(crate) fn open(
    alloc: Global,
    jobs: usize,
    devices: u32,
    hosts: u32,
    nodes: u32,
) -> Result<Book, OutOfMemory>
    ensures { IfOk result (IsNewBook jobs devices hosts nodes) }
{
    let tally = Tally::new(alloc, devices, hosts, nodes)?;
    let results = Vec::with_capacity(alloc, jobs)?;
    Ok(Book {
        trail: Trail {
            state: ActorState::Unfinished,
            results,
            steps: 0,
        },
        path: Vec::new(alloc),
        tally,
        made: 0,
    })
}

// The place of the next entry of an object, or 0 for a call that found no memory.
fn next_place(tally: &mut Tally, object: ObjectId, memory: bool) -> u64
    requires has { Has tally.old object }
    requires few { count_of tally.old object < 18446744073709551615 }
    ensures { TakesPlace tally.old object memory result tally.new }
{
    if memory {
        return 0;
    }
    let place = tally.of(object);
    tally.raise(object);
    place
}

/// Writes down a step of the job under way.
pub(crate) fn note(book: &mut Book, object: ObjectId, memory: bool)
    requires is { IsBook book.old }
    requires has { Has book.old.tally object }
    requires few { book.old.made < 18446744073709551615 }
    requires room { vec_len book.old.path < vec_capacity book.old.path }
    ensures { Noted book.old object memory book.new }
{
    let place = next_place(&mut book.tally, object, memory);
    book.path.push_reserved(Did {
        object,
        place,
        memory,
    });
    book.made += 1;
}

/// Writes down the result of the job under way.
pub(crate) fn finish(alloc: Global, book: &mut Book, answer: Answer)
    requires is { IsBook book.old }
    requires room { vec_len book.old.trail.results < vec_capacity book.old.trail.results }
    ensures { Finished book.old answer book.new }
{
    let mut path = mem::replace(&mut book.path, Vec::new(alloc));
    path.shrink_to_fit();
    book.trail.results.push_reserved(JobResult { answer, path });
}

/// Finds memory for so many further steps of a path, whose count then still fits.
pub(crate) fn make_room(book: &mut Book, more: u64) -> bool
    ensures same { SameBook book.old book.new }
    ensures room { OnTrue result (HasRoom more book.new) }
{
    if book.made > u64::MAX - more {
        return false;
    }
    book.path.reserve(more as usize).is_ok()
}
