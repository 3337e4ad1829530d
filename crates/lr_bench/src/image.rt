//! Tasks of images: one is created over a store in memory, and read back.
use crate::error::BenchError;
use crate::task::{Work, Worked};
use lr_io::{MemSink, MemSource};
use lr_origin::MemOrigin;
use lr_top::{Outcome, desk};
use std::alloc::Global;

const SALT: &str = "1111111111111111111111111111111111111111111111111111111111111111";

const TENANT: &str = "aaaaaaaaaaaaaaaaaaaaaaaaaaaaaaaaaaaaaaaaaaaaaaaaaaaaaaaaaaaaaaaa";

fn words_of(alloc: Global, command: &[&str]) -> Result<Vec<String>, BenchError> {
    let mut words = Vec::new(alloc);
    for word in command {
        words.push(String::from_str(alloc, *word)?)?;
    }
    Ok(words)
}

// So many bytes, in which no two chunks are the same.
fn raw_of(alloc: Global, size: usize) -> Result<Vec<u8>, BenchError> {
    let mut raw = Vec::new(alloc);
    for at in 0..size {
        let chunk = (at / 524_288 % 256) as u8;
        raw.push((at % 251) as u8 ^ chunk)?;
    }
    Ok(raw)
}

// Does a command over a store in memory, which comes back.
fn does(
    alloc: Global,
    words: &[String],
    source: &mut MemSource,
    sink: &mut MemSink,
    origin: MemOrigin,
) -> Result<MemOrigin, BenchError> {
    let Outcome {
        status,
        line: _,
        run: _,
        origin,
    } = desk(alloc, words, source, sink, origin);
    if status == 0 {
        Ok(origin)
    } else {
        Err(BenchError::Refused)
    }
}

// A store in memory with one root.
fn store(alloc: Global) -> Result<MemOrigin, BenchError> {
    let words = words_of(alloc, &["rotate", SALT])?;
    let mut source = MemSource::new(Vec::new(alloc), Vec::new(alloc));
    let mut sink = MemSink::new(alloc, Vec::new(alloc));
    does(alloc, &words, &mut source, &mut sink, MemOrigin::new(alloc))
}

/// Creating an image of so many bytes.
#[derive(Drop)]
pub struct Creating {
    size: usize,
    words: Vec<String>,
    source: MemSource,
    sink: MemSink,
    origin: Option<MemOrigin>,
}

impl Creating {
    fn create(&mut self, alloc: Global) -> Result<MemOrigin, BenchError> {
        let Some(origin) = self.origin.take() else {
            return Err(BenchError::Refused);
        };
        does(alloc, &self.words, &mut self.source, &mut self.sink, origin)
    }
}

impl Work for Creating {
    fn prepare(alloc: Global, size: usize) -> Result<Self, BenchError> {
        let raw = raw_of(alloc, size)?;
        Ok(Creating {
            size,
            words: words_of(alloc, &["create", "a", TENANT])?,
            source: MemSource::new(raw, Vec::new(alloc)),
            sink: MemSink::new(alloc, Vec::new(alloc)),
            origin: Some(store(alloc)?),
        })
    }

    fn work(&mut self, alloc: Global) -> Result<Worked, BenchError> {
        let origin = self.create(alloc)?;
        self.origin = Some(origin);
        Ok(Worked {
            bytes: self.size,
            made: self.sink.bytes().len() as u64,
        })
    }
}

/// Reading back an image of so many bytes.
#[derive(Drop)]
pub struct Restoring {
    size: usize,
    words: Vec<String>,
    source: MemSource,
    sink: MemSink,
    origin: Option<MemOrigin>,
}

impl Work for Restoring {
    fn prepare(alloc: Global, size: usize) -> Result<Self, BenchError> {
        let mut creating = Creating::prepare(alloc, size)?;
        let origin = creating.create(alloc)?;
        Ok(Restoring {
            size,
            words: words_of(alloc, &["cat", "a", TENANT])?,
            source: MemSource::new(Vec::new(alloc), Vec::new(alloc)),
            sink: MemSink::new(alloc, Vec::new(alloc)),
            origin: Some(origin),
        })
    }

    fn work(&mut self, alloc: Global) -> Result<Worked, BenchError> {
        let Some(origin) = self.origin.take() else {
            return Err(BenchError::Refused);
        };
        let origin = does(alloc, &self.words, &mut self.source, &mut self.sink, origin)?;
        self.origin = Some(origin);
        Ok(Worked {
            bytes: self.size,
            made: self.sink.bytes().last().map_or(0, |byte| u64::from(*byte)),
        })
    }
}
