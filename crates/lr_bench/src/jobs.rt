//! The task that reads scripts of the whole grammar.
use crate::error::BenchError;
use crate::task::{Work, Worked};
use lr_script::Script;
use std::alloc::Global;

// The lines before the jobs.
const HEAD: &[u8] =
    b"script 1\nhost h 4\ndevice d h a 1111111111111111111111111111111111111111111111111111111111111111\nactor p\n";

const WRITE: &[u8] = b"write d 4096";

const RUN: &[u8] = b" 1x41";

// Runs of a job: a script of 20,000 jobs then has nearly 4 MiB.
const RUNS: u32 = 38;

// The text of a script of so many writes.
fn text_of(alloc: Global, jobs: usize) -> Result<Vec<u8>, BenchError> {
    let mut text = Vec::new(alloc);
    text.extend_from_slice(HEAD)?;
    let mut line = Vec::new(alloc);
    line.extend_from_slice(WRITE)?;
    for _ in 0..RUNS {
        line.extend_from_slice(RUN)?;
    }
    line.push(b'\n')?;
    for _ in 0..jobs {
        text.extend_from_slice(&line)?;
    }
    Ok(text)
}

// The jobs of the first actor.
fn jobs_of(script: &Script) -> usize {
    match script.actors.first() {
        Some(actor) => actor.1.len(),
        None => 0,
    }
}

/// Reading a script of so many jobs by the whole grammar.
#[derive(Drop)]
pub struct Reading {
    text: Vec<u8>,
}

impl Work for Reading {
    fn prepare(alloc: Global, size: usize) -> Result<Self, BenchError> {
        Ok(Reading {
            text: text_of(alloc, size)?,
        })
    }

    fn work(&mut self, alloc: Global) -> Result<Worked, BenchError> {
        let script = match Script::parse(alloc, &self.text) {
            Ok(script) => script,
            Err(_) => return Err(BenchError::Refused),
        };
        Ok(Worked {
            bytes: self.text.len(),
            made: jobs_of(&script) as u64,
        })
    }
}
