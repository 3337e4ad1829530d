//! Tasks that seal chunks and read manifests.
use crate::error::BenchError;
use crate::task::{Work, Worked};
use lr_convergent::seal_chunk;
use lr_manifest::{CHUNK, Manifest};
use std::alloc::Global;

/// Sealing one whole chunk so many times.
#[derive(Drop)]
pub struct Chunking {
    plain: Vec<u8>,
    times: usize,
}

impl Work for Chunking {
    fn prepare(alloc: Global, size: usize) -> Result<Self, BenchError> {
        Ok(Chunking {
            plain: vec![in alloc; b'a'; CHUNK]?,
            times: size,
        })
    }

    fn work(&mut self, alloc: Global) -> Result<Worked, BenchError> {
        let mut made = 0;
        let mut bytes: usize = 0;
        for _ in 0..self.times {
            if self.plain.len() > CHUNK {
                return Err(BenchError::Refused);
            }
            let (chunk, _) = seal_chunk(alloc, &[0; 32], &self.plain)?;
            made = u64::from(chunk.name().bytes[0]);
            bytes = bytes.saturating_add(CHUNK);
        }
        Ok(Worked { bytes, made })
    }
}

// The spelling of a manifest of so many chunks, whose names, keys and tag are zeros.
fn manifest_of(alloc: Global, chunks: usize) -> Result<Vec<u8>, BenchError> {
    let Ok(count) = u32::try_from(chunks) else {
        return Err(BenchError::Refused);
    };
    let mut text = Vec::from_slice(alloc, b"LRMF\0\x01\0\0")?;
    text.extend_from_slice(&(u64::from(count) * CHUNK as u64).to_be_bytes())?;
    text.extend_from_slice(&(CHUNK as u32).to_be_bytes())?;
    text.extend_from_slice(&count.to_be_bytes())?;
    for _ in 0..count {
        text.extend_from_slice(&[0; 64])?;
    }
    text.extend_from_slice(&[0; 28])?;
    Ok(text)
}

/// Reading a manifest of so many chunks.
#[derive(Drop)]
pub struct Spelling {
    text: Vec<u8>,
}

impl Work for Spelling {
    fn prepare(alloc: Global, size: usize) -> Result<Self, BenchError> {
        Ok(Spelling {
            text: manifest_of(alloc, size)?,
        })
    }

    fn work(&mut self, alloc: Global) -> Result<Worked, BenchError> {
        let Ok(manifest) = Manifest::parse(alloc, &self.text) else {
            return Err(BenchError::Refused);
        };
        Ok(Worked {
            bytes: self.text.len(),
            made: manifest.names().len() as u64,
        })
    }
}

/// Printing a manifest of so many chunks.
#[derive(Drop)]
pub struct Printing {
    manifest: Manifest,
}

impl Work for Printing {
    fn prepare(alloc: Global, size: usize) -> Result<Self, BenchError> {
        let text = manifest_of(alloc, size)?;
        let Ok(manifest) = Manifest::parse(alloc, &text) else {
            return Err(BenchError::Refused);
        };
        Ok(Printing { manifest })
    }

    fn work(&mut self, alloc: Global) -> Result<Worked, BenchError> {
        let text = self.manifest.print(alloc)?;
        Ok(Worked {
            bytes: text.len(),
            made: text.len() as u64,
        })
    }
}
