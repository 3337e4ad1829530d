//! A plain block device: a list of bytes, to which calls are made in turn.
use lr_device::{DeviceCall, DeviceReply};
use lr_spec::OutOfMemory;
use std::alloc::Global;

// Bytes of a sector.
const SECTOR: u64 = 512;

/// What was compared.
#[derive(Drop)]
pub(crate) struct Tally {
    /// Calls with their replies.
    pub(crate) calls: u64,
    /// Reads of a sector that another caller had written.
    pub(crate) crossed: u64,
    /// Scripts over a store that failed, whose actors were begun.
    pub(crate) failed: u64,
    /// Scripts that ended before their actors were begun.
    pub(crate) unbegun: u64,
}

impl Tally {
    pub(crate) fn new() -> Tally {
        Tally {
            calls: 0,
            crossed: 0,
            failed: 0,
            unbegun: 0,
        }
    }

    /// Whether this is much, of every kind.
    pub(crate) fn is_rich(&self) -> bool {
        self.calls >= 600 && self.crossed >= 50 && self.failed >= 5 && self.unbegun >= 1
    }
}

/// The bytes of a device, and who wrote each sector last: a caller's number, or 0.
#[derive(Drop)]
pub(crate) struct Plain {
    bytes: Vec<u8>,
    writers: Vec<u32>,
}

// So many places of a list from one on.
fn part<T>(list: &mut [T], from: u64, count: u64) -> Option<&mut [T]> {
    list.get_mut(from as usize..)?.get_mut(..count as usize)
}

// Whether the range is of whole sectors and isn't empty.
fn is_whole(offset: u64, length: u64) -> bool {
    offset % SECTOR == 0 && length % SECTOR == 0 && length > 0
}

// Whether one of the sectors was last written by another caller.
fn is_crossed(writers: &[u32], caller: u32) -> bool {
    writers
        .iter()
        .any(|writer| *writer != 0 && *writer != caller)
}

impl Plain {
    /// A device that begins with these bytes.
    pub(crate) fn of(alloc: Global, bytes: Vec<u8>) -> Result<Plain, OutOfMemory> {
        let writers = vec![in alloc; 0u32; bytes.len() / SECTOR as usize]?;
        Ok(Plain { bytes, writers })
    }

    // The bytes of a range of sectors and who wrote these, where the range is within the device.
    fn range(&mut self, offset: u64, length: u64) -> Option<(&mut [u8], &mut [u32])> {
        if !is_whole(offset, length) {
            return None;
        }
        let bytes = part(&mut self.bytes, offset, length)?;
        let writers = part(&mut self.writers, offset / SECTOR, length / SECTOR)?;
        Some((bytes, writers))
    }

    // Makes a write of bytes, and tells whether it is within the device.
    fn write(&mut self, caller: u32, offset: u64, written: &[u8]) -> bool {
        let Some((bytes, writers)) = self.range(offset, written.len() as u64) else {
            return false;
        };
        if bytes.len() != written.len() {
            return false;
        }
        bytes.copy_from_slice(written);
        writers.fill(caller);
        true
    }

    // Makes a write of zeros, and tells whether it is within the device.
    fn zero(&mut self, caller: u32, offset: u64, length: u64) -> bool {
        let Some((bytes, writers)) = self.range(offset, length) else {
            return false;
        };
        bytes.fill(0);
        writers.fill(caller);
        true
    }

    // Whether a read is answered so.
    fn reads(
        &mut self,
        caller: u32,
        offset: u64,
        length: u64,
        reply: &DeviceReply,
        tally: &mut Tally,
    ) -> bool {
        let Some((bytes, writers)) = self.range(offset, length) else {
            return matches!(reply, DeviceReply::Range);
        };
        if is_crossed(writers, caller) {
            tally.crossed = tally.crossed.saturating_add(1);
        }
        match reply {
            DeviceReply::Got(got) => got.as_slice() == bytes,
            _ => false,
        }
    }

    /// Makes a call, and tells whether this is its reply.
    pub(crate) fn answers(
        &mut self,
        caller: u32,
        call: &DeviceCall,
        reply: &DeviceReply,
        tally: &mut Tally,
    ) -> bool {
        tally.calls = tally.calls.saturating_add(1);
        let done = match call {
            DeviceCall::Read { offset, length } => {
                return self.reads(caller, *offset, u64::from(*length), reply, tally);
            }
            DeviceCall::Write { offset, bytes } => self.write(caller, *offset, bytes.as_slice()),
            DeviceCall::Zero { offset, length } => self.zero(caller, *offset, u64::from(*length)),
        };
        match reply {
            DeviceReply::Done => done,
            DeviceReply::Range => !done,
            DeviceReply::Got(_) => false,
        }
    }
}
