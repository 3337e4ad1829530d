//! The task that takes digests.
use crate::error::BenchError;
use crate::task::{Work, Worked};
use sha2::{Digest, Sha256};
use std::alloc::Global;

// So many bytes.
fn letters(alloc: Global, size: usize) -> Result<Vec<u8>, BenchError> {
    Ok(vec![in alloc; b'a'; size]?)
}

/// SHA-256 (FIPS 180-4) of so many bytes.
#[derive(Drop)]
pub struct Digesting {
    bytes: Vec<u8>,
}

impl Work for Digesting {
    fn prepare(alloc: Global, size: usize) -> Result<Self, BenchError> {
        Ok(Digesting {
            bytes: letters(alloc, size)?,
        })
    }

    fn work(&mut self, _: Global) -> Result<Worked, BenchError> {
        let digest = Sha256::digest(&self.bytes);
        Ok(Worked {
            bytes: self.bytes.len(),
            made: u64::from(digest[0]),
        })
    }
}

/// A plain copy of so many bytes.
#[derive(Drop)]
pub struct Copying {
    bytes: Vec<u8>,
}

impl Work for Copying {
    fn prepare(alloc: Global, size: usize) -> Result<Self, BenchError> {
        Ok(Copying {
            bytes: letters(alloc, size)?,
        })
    }

    fn work(&mut self, alloc: Global) -> Result<Worked, BenchError> {
        let copy = Vec::from_slice(alloc, &self.bytes)?;
        Ok(Worked {
            bytes: copy.len(),
            made: copy.last().map_or(0, |byte| u64::from(*byte)),
        })
    }
}
