//! Tasks that play a script.
ghost use Rattle.std.specs.Prelude.{◌<◌, ◌≤◌};

use crate::error::BenchError;
use crate::task::{Work, Worked};
use lr_io::{MemSink, MemSource};
use lr_origin::MemOrigin;
use lr_report::{Run, report};
use lr_script::Script;
use lr_text::{put_number, put_run};
use lr_top::{Outcome, RunRecord, top};
use std::alloc::Global;

// The lines before the image's raw length, with names as long as names may be.
const HEAD: &[u8] =
    b"script 1\nroot 1111111111111111111111111111111111111111111111111111111111111111\nhost hhhhhhhhhhhhhhhhhhhhhhhhhhhhhhhh 1024\nimage iiiiiiiiiiiiiiiiiiiiiiiiiiiiiiii aaaaaaaaaaaaaaaaaaaaaaaaaaaaaaaaaaaaaaaaaaaaaaaaaaaaaaaaaaaaaaaa ";

// The lines behind the image's and before the reads.
const DEVICE: &[u8] =
    b"\ndevice dddddddddddddddddddddddddddddddd hhhhhhhhhhhhhhhhhhhhhhhhhhhhhhhh iiiiiiiiiiiiiiiiiiiiiiiiiiiiiiii aaaaaaaaaaaaaaaaaaaaaaaaaaaaaaaaaaaaaaaaaaaaaaaaaaaaaaaaaaaaaaaa\nactor pppppppppppppppppppppppppppppppp\n";

const READ: &[u8] = b"read dddddddddddddddddddddddddddddddd ";

// Bytes of a read.
const SECTOR: u64 = 512;

// Runs of the image, and the bytes of each at most.
const RUNS: u8 = 64;

const RUN_MAX: u64 = 1_048_576;

// How many bytes each read stands behind the one before it.
const STEP: u64 = 10_757_632;

// Everything before the reads: an image of 64 runs of so many bytes each.
fn put_setup(text: &mut Vec<u8>, run: u64) -> Result<(), BenchError>
    requires { run ≤ RUN_MAX }
{
    text.extend_from_slice(HEAD)?;
    put_number(text, run * u64::from(RUNS))?;
    text.extend_from_slice(b" bytes")?;
    for byte in 0..RUNS {
        text.push(b' ')?;
        put_run(text, run, byte)?;
    }
    text.extend_from_slice(DEVICE)?;
    Ok(())
}

// Bytes of each run of the image: a sector for each read, and at most 1 MiB.
fn run_len(reads: usize) -> u64
    ensures some { 0 < result }
    ensures few { result ≤ RUN_MAX }
{
    if reads == 0 {
        return SECTOR;
    }
    if reads >= 2048 {
        return RUN_MAX;
    }
    reads as u64 * SECTOR
}

// Where a read begins in an image of so many bytes: the reads are spread over all of it.
fn offset_of(read: usize, raw: u64) -> u64
    requires { 0 < raw }
    ensures { result < raw }
{
    (read as u64).wrapping_mul(STEP) % raw
}

// The text of a script that makes so many reads of 512 bytes.
fn text_of(alloc: Global, reads: usize) -> Result<Vec<u8>, BenchError> {
    let run = run_len(reads);
    let raw = run * u64::from(RUNS);
    let mut text = Vec::new(alloc);
    put_setup(&mut text, run)?;
    for read in 0..reads {
        text.extend_from_slice(READ)?;
        put_number(&mut text, offset_of(read, raw))?;
        text.extend_from_slice(b" 512\n")?;
    }
    Ok(text)
}

/// Reading a script of so many reads.
#[derive(Drop)]
pub struct Parsing {
    text: Vec<u8>,
}

impl Work for Parsing {
    fn prepare(alloc: Global, size: usize) -> Result<Self, BenchError> {
        let text = text_of(alloc, size)?;
        Ok(Parsing { text })
    }

    fn work(&mut self, alloc: Global) -> Result<Worked, BenchError> {
        let script = match Script::parse(alloc, &self.text) {
            Ok(script) => script,
            Err(_) => return Err(BenchError::Refused),
        };
        let jobs = match script.actors.first() {
            Some(actor) => actor.1.len(),
            None => 0,
        };
        Ok(Worked {
            bytes: self.text.len(),
            made: jobs as u64,
        })
    }
}

/// Playing a script of so many reads, from its text in memory to its report there.
#[derive(Drop)]
pub struct Playing {
    size: usize,
    words: Vec<String>,
    source: MemSource,
    sink: MemSink,
}

impl Playing {
    fn play(&mut self, alloc: Global) -> Result<Run, BenchError> {
        let Outcome {
            status,
            line: _,
            run,
            origin: _,
        } = top(
            alloc,
            &self.words,
            &mut self.source,
            &mut self.sink,
            MemOrigin::new(alloc),
        );
        match run {
            RunRecord::Run(run) if status == 0 => Ok(run),
            _ => Err(BenchError::Refused),
        }
    }
}

impl Work for Playing {
    fn prepare(alloc: Global, size: usize) -> Result<Self, BenchError> {
        let text = text_of(alloc, size)?;
        let mut words = Vec::new(alloc);
        words.push(String::from_str(alloc, "play")?)?;
        Ok(Playing {
            size: text.len(),
            words,
            source: MemSource::new(text, Vec::new(alloc)),
            sink: MemSink::new(alloc, Vec::new(alloc)),
        })
    }

    fn work(&mut self, alloc: Global) -> Result<Worked, BenchError> {
        self.play(alloc)?;
        Ok(Worked {
            bytes: self.size,
            made: self.sink.bytes().len() as u64,
        })
    }
}

/// Writing the report of a run of so many reads.
#[derive(Drop)]
pub struct Reporting {
    run: Run,
}

impl Work for Reporting {
    fn prepare(alloc: Global, size: usize) -> Result<Self, BenchError> {
        let mut playing = Playing::prepare(alloc, size)?;
        let run = playing.play(alloc)?;
        Ok(Reporting { run })
    }

    fn work(&mut self, alloc: Global) -> Result<Worked, BenchError> {
        let text = report(alloc, &self.run)?;
        Ok(Worked {
            bytes: text.len(),
            made: text.len() as u64,
        })
    }
}
