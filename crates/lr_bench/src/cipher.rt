//! Tasks that encrypt.
ghost use Rattle.std.specs.Prelude.{◌≤◌, ◌^◌, length, IfOk};

use crate::error::BenchError;
use crate::task::{Work, Worked, zeros};
use lr_aes::AesKey;
use std::alloc::Global;

// Bytes that a cipher takes at once.
const TEXT_MAX: usize = 4_294_967_296;

// So many zeros, of at most as many bytes as a cipher takes.
fn text_of(alloc: Global, size: usize) -> Result<Vec<u8>, BenchError>
    ensures { IfOk result (λ v. length v.items ≤ 2 ^ 32) }
{
    if size > TEXT_MAX {
        return Err(BenchError::Refused);
    }
    zeros(alloc, size)
}

/// Counter mode under AES-256 (SP 800-38A) over so many bytes.
#[derive(Drop)]
pub struct Counting {
    key: AesKey,
    text: Vec<u8>,
}

impl Work for Counting {
    fn prepare(alloc: Global, size: usize) -> Result<Self, BenchError> {
        Ok(Counting {
            key: AesKey::new256(&[0; 32]),
            text: text_of(alloc, size)?,
        })
    }

    fn work(&mut self, _: Global) -> Result<Worked, BenchError> {
        self.key.ctr_xor(&[0; 16], &mut self.text);
        Ok(Worked {
            bytes: self.text.len(),
            made: self.text.last().map_or(0, |byte| u64::from(*byte)),
        })
    }
}

/// Sealing by GCM under AES-256 (SP 800-38D) of so many bytes.
#[derive(Drop)]
pub struct Sealing {
    key: AesKey,
    text: Vec<u8>,
}

impl Work for Sealing {
    fn prepare(alloc: Global, size: usize) -> Result<Self, BenchError> {
        Ok(Sealing {
            key: AesKey::new256(&[0; 32]),
            text: text_of(alloc, size)?,
        })
    }

    fn work(&mut self, alloc: Global) -> Result<Worked, BenchError> {
        let mut text = text_of(alloc, self.text.len())?;
        let tag = self.key.gcm_seal(&[0; 12], &[], &mut text);
        Ok(Worked {
            bytes: text.len(),
            made: u64::from(tag[0]),
        })
    }
}
