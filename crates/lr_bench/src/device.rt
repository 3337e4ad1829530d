//! Tasks that read and write 64 MiB, page by page all over and 1 MiB after another: on a device, and on a plain list of
//! bytes with the same copies.
use crate::error::BenchError;
use crate::task::{Work, Worked};
use lr_device::{Bytes, Device, DeviceAnswer, DeviceCall, DeviceReply, DeviceStep, Room};
use lr_object::Object;
use std::alloc::Global;
use std::sync::Arc;

const LENGTH: usize = 67_108_864;

const PAGE: u32 = 4096;

const LONG: u32 = 1_048_576;

// Where the page of a turn begins. 16,384 turns have as many pages, each far from that of the turn before.
fn page_at(turn: usize) -> u64 {
    (turn % 16_384) as u64 * 7919 % 16_384 * 4096
}

// Where the range of a turn begins, where each begins at the end of the one before.
fn long_at(turn: usize) -> u64 {
    (turn % 64) as u64 * 1_048_576
}

fn letters(alloc: Global, size: u32) -> Result<Vec<u8>, BenchError> {
    Ok(vec![in alloc; b'a'; size as usize]?)
}

/// 64 MiB that are read and written.
pub trait Block: Drop {
    fn new(alloc: Global) -> Result<Self, BenchError>
    where
        Self: Sized;

    /// How many bytes were read.
    fn read(&mut self, alloc: Global, offset: u64, size: u32) -> Result<usize, BenchError>;

    fn write(&mut self, alloc: Global, offset: u64, size: u32) -> Result<(), BenchError>;
}

/// A device, whose log keeps the bytes of each call.
#[derive(Drop)]
pub struct Loaded {
    device: Device,
}

impl Loaded {
    // Plans a call that needs no chunk, and makes it.
    fn make(&mut self, alloc: Global, call: DeviceCall) -> Result<DeviceReply, BenchError> {
        if call.length() > 1_048_576 {
            return Err(BenchError::Refused);
        }
        let call = Arc::new(alloc, call)?;
        let kept = Arc::try_clone(&call)?;
        let planned = self.device.apply(alloc, 1, DeviceStep::Plan(kept));
        let DeviceAnswer::Planned { needs: _, pages } = planned else {
            return Err(BenchError::Refused);
        };
        let room = Room::make(alloc, &call, pages)?;
        let pieces = Vec::new(alloc);
        match self
            .device
            .apply(alloc, 1, DeviceStep::Commit { pieces, room })
        {
            DeviceAnswer::Committed(reply) => Ok(reply),
            _ => Err(BenchError::Refused),
        }
    }
}

impl Block for Loaded {
    fn new(alloc: Global) -> Result<Self, BenchError> {
        Ok(Loaded {
            device: Device::new(alloc, LENGTH as u64)?,
        })
    }

    fn read(&mut self, alloc: Global, offset: u64, size: u32) -> Result<usize, BenchError> {
        let call = DeviceCall::Read {
            offset,
            length: size,
        };
        match self.make(alloc, call)? {
            DeviceReply::Got(bytes) => Ok(bytes.as_slice().len()),
            _ => Err(BenchError::Refused),
        }
    }

    fn write(&mut self, alloc: Global, offset: u64, size: u32) -> Result<(), BenchError> {
        let call = DeviceCall::Write {
            offset,
            bytes: Bytes::of(letters(alloc, size)?),
        };
        match self.make(alloc, call)? {
            DeviceReply::Done => Ok(()),
            _ => Err(BenchError::Refused),
        }
    }
}

/// A plain list of bytes, with a list of all that was read and written.
#[derive(Drop)]
pub struct Listed {
    bytes: Vec<u8>,
    log: Vec<Vec<u8>>,
}

impl Block for Listed {
    fn new(alloc: Global) -> Result<Self, BenchError> {
        Ok(Listed {
            bytes: vec![in alloc; 0u8; LENGTH]?,
            log: Vec::new(alloc),
        })
    }

    fn read(&mut self, alloc: Global, offset: u64, size: u32) -> Result<usize, BenchError> {
        let Some(rest) = self.bytes.get(offset as usize..) else {
            return Err(BenchError::Refused);
        };
        let Some(part) = rest.get(..size as usize) else {
            return Err(BenchError::Refused);
        };
        let told = Vec::from_slice(alloc, part)?;
        let kept = Vec::from_slice(alloc, part)?;
        self.log.push(kept)?;
        Ok(told.len())
    }

    fn write(&mut self, alloc: Global, offset: u64, size: u32) -> Result<(), BenchError> {
        let bytes = letters(alloc, size)?;
        let Some(rest) = self.bytes.as_mut_slice().get_mut(offset as usize..) else {
            return Err(BenchError::Refused);
        };
        let Some(part) = rest.get_mut(..size as usize) else {
            return Err(BenchError::Refused);
        };
        if part.len() != bytes.len() {
            return Err(BenchError::Refused);
        }
        part.copy_from_slice(&bytes);
        self.log.push(bytes)?;
        Ok(())
    }
}

// Writes the pages of so many turns.
fn write_pages<B: Block>(alloc: Global, block: &mut B, turns: usize) -> Result<(), BenchError> {
    for turn in 0..turns {
        block.write(alloc, page_at(turn), PAGE)?;
    }
    Ok(())
}

// So many calls of so many bytes.
fn worked(calls: usize, size: u32, made: usize) -> Worked {
    Worked {
        bytes: calls.saturating_mul(size as usize),
        made: made as u64,
    }
}

/// So many reads of a page each, all over.
#[derive(Drop)]
pub struct PageReads<B: Block> {
    block: B,
    times: usize,
}

impl<B: Block> Work for PageReads<B> {
    fn prepare(alloc: Global, size: usize) -> Result<Self, BenchError> {
        let mut block = B::new(alloc)?;
        write_pages(alloc, &mut block, size)?;
        Ok(PageReads { block, times: size })
    }

    fn work(&mut self, alloc: Global) -> Result<Worked, BenchError> {
        let mut made: usize = 0;
        for turn in 0..self.times {
            let got = self.block.read(alloc, page_at(turn), PAGE)?;
            made = made.saturating_add(got);
        }
        Ok(worked(self.times, PAGE, made))
    }
}

/// So many writes of a page each, all over.
#[derive(Drop)]
pub struct PageWrites<B: Block> {
    block: B,
    times: usize,
}

impl<B: Block> Work for PageWrites<B> {
    fn prepare(alloc: Global, size: usize) -> Result<Self, BenchError> {
        Ok(PageWrites {
            block: B::new(alloc)?,
            times: size,
        })
    }

    fn work(&mut self, alloc: Global) -> Result<Worked, BenchError> {
        write_pages(alloc, &mut self.block, self.times)?;
        Ok(worked(self.times, PAGE, self.times))
    }
}

/// So many writes of 1 MiB, one after another, and then as many reads.
#[derive(Drop)]
pub struct LongCalls<B: Block> {
    block: B,
    times: usize,
}

impl<B: Block> Work for LongCalls<B> {
    fn prepare(alloc: Global, size: usize) -> Result<Self, BenchError> {
        Ok(LongCalls {
            block: B::new(alloc)?,
            times: size,
        })
    }

    fn work(&mut self, alloc: Global) -> Result<Worked, BenchError> {
        let mut made: usize = 0;
        for turn in 0..self.times {
            self.block.write(alloc, long_at(turn), LONG)?;
        }
        for turn in 0..self.times {
            let got = self.block.read(alloc, long_at(turn), LONG)?;
            made = made.saturating_add(got);
        }
        Ok(worked(self.times.saturating_mul(2), LONG, made))
    }
}

/// Reads and writes of ten pages in turn on a device of which `BEFORE` pages were written before, these ten among them.
#[derive(Drop)]
pub struct CallsAfter<const BEFORE: usize> {
    block: Loaded,
    times: usize,
}

impl<const BEFORE: usize> Work for CallsAfter<BEFORE> {
    fn prepare(alloc: Global, size: usize) -> Result<Self, BenchError> {
        let mut block = Loaded::new(alloc)?;
        write_pages(alloc, &mut block, BEFORE)?;
        Ok(CallsAfter { block, times: size })
    }

    fn work(&mut self, alloc: Global) -> Result<Worked, BenchError> {
        let mut made: usize = 0;
        for turn in 0..self.times {
            self.block.write(alloc, page_at(turn % 10), PAGE)?;
            let got = self.block.read(alloc, page_at(turn % 10), PAGE)?;
            made = made.saturating_add(got);
        }
        Ok(Worked {
            bytes: self.times.saturating_mul(2),
            made: made as u64,
        })
    }
}
