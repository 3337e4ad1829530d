//! The table of tasks, and what each of them is.
ghost use Rattle.std.specs.Prelude.{◌≡◌, length, IfOk};

use crate::cipher::{Counting, Sealing};
use crate::depot::{Collecting, Moving};
use crate::device::{CallsAfter, Listed, Loaded, LongCalls, PageReads, PageWrites};
use crate::digest::{Copying, Digesting};
use crate::error::BenchError;
use crate::format::{Chunking, Printing, Spelling};
use crate::image::{Creating, Restoring};
use crate::jobs::Reading;
use crate::memory::{Filled, Nothing};
use crate::script::{Parsing, Playing, Reporting};
use crate::stripe::{Encoding, Rebuilding};
use crate::turn::{Calling, call_four, call_one};
use std::alloc::Global;
use std::sync::Wait;
use std::thread::Threads;
use std::time::Instant;

/// What a task did.
#[derive(Clone, Copy, Debug, PartialEq, Eq)]
pub struct Worked {
    /// The bytes that it worked on, or the calls that it made.
    pub bytes: usize,
    /// A number that depends on its output.
    pub made: u64,
}

/// A task: it is prepared, and then works once while the clock runs.
pub trait Work: Drop {
    /// Makes what the task works on. A task says itself what its size counts.
    fn prepare(alloc: Global, size: usize) -> Result<Self, BenchError>
    where
        Self: Sized;

    fn work(&mut self, alloc: Global) -> Result<Worked, BenchError>;
}

/// So many zeros.
pub fn zeros(alloc: Global, size: usize) -> Result<Vec<u8>, BenchError>
    ensures { IfOk result (λ v. length v.items ≡ size) }
{
    Ok(vec![in alloc; 0u8; size]?)
}

/// What a task did, and in which time.
#[derive(Clone, Copy, Debug)]
pub struct Timed {
    pub bytes: usize,
    pub made: u64,
    pub seconds: f64,
}

fn measure<W: Work>(rt: &HostRuntime, size: usize) -> Result<Timed, BenchError> {
    let mut work = W::prepare(rt.alloc(), size)?;
    let start = Instant::now(rt)?;
    let worked = work.work(rt.alloc())?;
    let time = start.elapsed(rt)?;
    Ok(Timed {
        bytes: worked.bytes,
        made: worked.made,
        seconds: time.as_secs_f64(),
    })
}

/// The kinds of tasks.
#[derive(Clone, Copy, Debug, PartialEq, Eq)]
pub enum Kind {
    Parse,
    Jobs,
    Report,
    Play,
    Sha256,
    Copy,
    Counter,
    Gcm,
    Seal,
    Create,
    Cat,
    ParseManifest,
    PrintManifest,
    Encode,
    Rebuild,
    ReadPages,
    WritePages,
    LongCalls,
    ReadListed,
    WriteListed,
    LongListed,
    /// Calls of a device of which ten, 1,000 or all 16,384 pages were written before.
    AfterTen,
    AfterMore,
    AfterAll,
    Move,
    Collect,
    /// No overlay, and one of 10 GiB with pages one after another or one in each chunk.
    NoOverlay,
    FillAll,
    FillApart,
    Call,
    /// Calls of one shared node by so many threads.
    Turns(usize),
    /// Calls of four shared nodes by so many threads.
    Crossing(usize),
}

/// Does a task once.
pub fn run<T: Threads + Wait + Sync>(
    rt: &HostRuntime,
    threads: &T,
    kind: Kind,
    size: usize,
) -> Result<Timed, BenchError> {
    match kind {
        Kind::Parse => measure::<Parsing>(rt, size),
        Kind::Jobs => measure::<Reading>(rt, size),
        Kind::Report => measure::<Reporting>(rt, size),
        Kind::Play => measure::<Playing>(rt, size),
        Kind::Sha256 => measure::<Digesting>(rt, size),
        Kind::Copy => measure::<Copying>(rt, size),
        Kind::Counter => measure::<Counting>(rt, size),
        Kind::Gcm => measure::<Sealing>(rt, size),
        Kind::Seal => measure::<Chunking>(rt, size),
        Kind::Create => measure::<Creating>(rt, size),
        Kind::Cat => measure::<Restoring>(rt, size),
        Kind::ParseManifest => measure::<Spelling>(rt, size),
        Kind::PrintManifest => measure::<Printing>(rt, size),
        Kind::Encode => measure::<Encoding>(rt, size),
        Kind::Rebuild => measure::<Rebuilding>(rt, size),
        Kind::ReadPages => measure::<PageReads<Loaded>>(rt, size),
        Kind::WritePages => measure::<PageWrites<Loaded>>(rt, size),
        Kind::LongCalls => measure::<LongCalls<Loaded>>(rt, size),
        Kind::ReadListed => measure::<PageReads<Listed>>(rt, size),
        Kind::WriteListed => measure::<PageWrites<Listed>>(rt, size),
        Kind::LongListed => measure::<LongCalls<Listed>>(rt, size),
        Kind::AfterTen => measure::<CallsAfter<10>>(rt, size),
        Kind::AfterMore => measure::<CallsAfter<1_000>>(rt, size),
        Kind::AfterAll => measure::<CallsAfter<16_384>>(rt, size),
        Kind::Move => measure::<Moving>(rt, size),
        Kind::Collect => measure::<Collecting>(rt, size),
        Kind::NoOverlay => measure::<Nothing>(rt, size),
        Kind::FillAll => measure::<Filled<1>>(rt, size),
        Kind::FillApart => measure::<Filled<128>>(rt, size),
        Kind::Call => measure::<Calling>(rt, size),
        Kind::Turns(count) => call_one(rt, threads, count, size),
        Kind::Crossing(count) => call_four(rt, threads, count, size),
    }
}

/// A task's name, and its sizes without and with the clock.
pub struct Task {
    pub name: &'static str,
    pub kind: Kind,
    pub small: usize,
    pub large: usize,
}

/// The tasks. The sizes of `script`, `report` and `play` count reads, that of `jobs` counts jobs, those of `sha256`, `copy`,
/// `ctr`, `gcm`, `create` and `cat` bytes, those of `seal` to `rebuild` chunks, those of `move` and `collect` images, those of
/// `memory` pages, and the others calls.
pub static TASKS: [Task; 38] = [
    Task {
        name: "script",
        kind: Kind::Parse,
        small: 20,
        large: 20_000,
    },
    Task {
        name: "jobs",
        kind: Kind::Jobs,
        small: 20,
        large: 20_000,
    },
    Task {
        name: "report",
        kind: Kind::Report,
        small: 20,
        large: 20_000,
    },
    Task {
        name: "play",
        kind: Kind::Play,
        small: 20,
        large: 20_000,
    },
    Task {
        name: "sha256",
        kind: Kind::Sha256,
        small: 4096,
        large: 67_108_864,
    },
    Task {
        name: "copy",
        kind: Kind::Copy,
        small: 4096,
        large: 67_108_864,
    },
    Task {
        name: "ctr",
        kind: Kind::Counter,
        small: 4096,
        large: 268_435_456,
    },
    Task {
        name: "gcm",
        kind: Kind::Gcm,
        small: 4096,
        large: 67_108_864,
    },
    Task {
        name: "seal",
        kind: Kind::Seal,
        small: 1,
        large: 16,
    },
    Task {
        name: "create",
        kind: Kind::Create,
        small: 5000,
        large: 67_108_864,
    },
    Task {
        name: "cat",
        kind: Kind::Cat,
        small: 5000,
        large: 67_108_864,
    },
    Task {
        name: "parse",
        kind: Kind::ParseManifest,
        small: 3,
        large: 20_480,
    },
    Task {
        name: "print",
        kind: Kind::PrintManifest,
        small: 3,
        large: 20_480,
    },
    Task {
        name: "encode",
        kind: Kind::Encode,
        small: 1,
        large: 64,
    },
    Task {
        name: "rebuild",
        kind: Kind::Rebuild,
        small: 1,
        large: 64,
    },
    Task {
        name: "read",
        kind: Kind::ReadPages,
        small: 20,
        large: 16_384,
    },
    Task {
        name: "read_list",
        kind: Kind::ReadListed,
        small: 20,
        large: 16_384,
    },
    Task {
        name: "write",
        kind: Kind::WritePages,
        small: 20,
        large: 16_384,
    },
    Task {
        name: "write_list",
        kind: Kind::WriteListed,
        small: 20,
        large: 16_384,
    },
    Task {
        name: "long",
        kind: Kind::LongCalls,
        small: 1,
        large: 64,
    },
    Task {
        name: "long_list",
        kind: Kind::LongListed,
        small: 1,
        large: 64,
    },
    Task {
        name: "after10",
        kind: Kind::AfterTen,
        small: 10,
        large: 8_192,
    },
    Task {
        name: "after1000",
        kind: Kind::AfterMore,
        small: 10,
        large: 8_192,
    },
    Task {
        name: "after16384",
        kind: Kind::AfterAll,
        small: 10,
        large: 8_192,
    },
    Task {
        name: "move100",
        kind: Kind::Move,
        small: 1,
        large: 100,
    },
    Task {
        name: "move1000",
        kind: Kind::Move,
        small: 2,
        large: 1_000,
    },
    Task {
        name: "collect100",
        kind: Kind::Collect,
        small: 1,
        large: 100,
    },
    Task {
        name: "collect1000",
        kind: Kind::Collect,
        small: 2,
        large: 1_000,
    },
    Task {
        name: "memory_none",
        kind: Kind::NoOverlay,
        small: 0,
        large: 0,
    },
    Task {
        name: "memory_new",
        kind: Kind::FillAll,
        small: 0,
        large: 0,
    },
    Task {
        name: "memory_apart",
        kind: Kind::FillApart,
        small: 2,
        large: 20_480,
    },
    Task {
        name: "memory_all",
        kind: Kind::FillAll,
        small: 2,
        large: 16_384,
    },
    Task {
        name: "call",
        kind: Kind::Call,
        small: 32,
        large: 1_600_000,
    },
    Task {
        name: "turn1",
        kind: Kind::Turns(1),
        small: 32,
        large: 1_600_000,
    },
    Task {
        name: "turn2",
        kind: Kind::Turns(2),
        small: 32,
        large: 1_600_000,
    },
    Task {
        name: "turn4",
        kind: Kind::Turns(4),
        small: 32,
        large: 1_600_000,
    },
    Task {
        name: "cross2",
        kind: Kind::Crossing(2),
        small: 32,
        large: 1_600_000,
    },
    Task {
        name: "cross4",
        kind: Kind::Crossing(4),
        small: 32,
        large: 1_600_000,
    },
];
