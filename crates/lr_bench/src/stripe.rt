//! Tasks that make and rebuild stripes.
ghost use Rattle.std.specs.Prelude.{◌≡◌, length, IfOk};

use crate::error::BenchError;
use crate::task::{Work, Worked, zeros};
use lr_manifest::CHUNK;
use lr_stripe::{Code, STRIPE};
use std::alloc::Global;

// Bytes that count up.
fn count_up(bytes: &mut [u8]) {
    for i in 0..bytes.len() {
        bytes[i] = (i % 251) as u8;
    }
}

// The chunk whose bytes count up.
fn chunk_of(alloc: Global) -> Result<Vec<u8>, BenchError>
    ensures { IfOk result (λ v. length v.items ≡ 524288) }
{
    let mut chunk = zeros(alloc, CHUNK)?;
    count_up(&mut chunk);
    Ok(chunk)
}

// All five stripes of a chunk, one after another into one buffer.
fn encode_all(chunk: &[u8], out: &mut [u8])
    requires chunk { length chunk.now ≡ 524288 }
    requires out { length out.old ≡ 131072 }
{
    for j in 0..5 {
        Code::<4, 5>::encode(chunk, j, out);
    }
}

// The same so many times. The last byte of the last stripe.
fn encode_times(times: usize, chunk: &[u8], out: &mut [u8]) -> u64
    requires chunk { length chunk.now ≡ 524288 }
    requires out { length out.old ≡ 131072 }
{
    for _ in 0..times {
        encode_all(chunk, out);
    }
    out.last().map_or(0, |byte| u64::from(*byte))
}

/// Encoding all five stripes of a chunk so many times.
#[derive(Drop)]
pub struct Encoding {
    times: usize,
}

impl Work for Encoding {
    fn prepare(_: Global, size: usize) -> Result<Self, BenchError> {
        Ok(Encoding { times: size })
    }

    fn work(&mut self, alloc: Global) -> Result<Worked, BenchError> {
        let chunk = chunk_of(alloc)?;
        let mut out = zeros(alloc, STRIPE)?;
        let made = encode_times(self.times, &chunk, &mut out);
        Ok(Worked {
            bytes: self.times.saturating_mul(CHUNK),
            made,
        })
    }
}

// The chunk of these stripes so many times, the parity stripe in place of the first one. Its first byte.
fn rebuild_times(times: usize, stripes: &[u8], out: &mut [u8]) -> u64
    requires stripes { length stripes.now ≡ 524288 }
    requires out { length out.old ≡ 524288 }
{
    for _ in 0..times {
        Code::<4, 5>::rebuild(&[4, 1, 2, 3], stripes, out);
    }
    out.first().map_or(0, |byte| u64::from(*byte))
}

/// Rebuilding a chunk so many times, the parity stripe in place of a data stripe.
#[derive(Drop)]
pub struct Rebuilding {
    times: usize,
}

impl Work for Rebuilding {
    fn prepare(_: Global, size: usize) -> Result<Self, BenchError> {
        Ok(Rebuilding { times: size })
    }

    fn work(&mut self, alloc: Global) -> Result<Worked, BenchError> {
        let stripes = chunk_of(alloc)?;
        let mut out = zeros(alloc, CHUNK)?;
        let made = rebuild_times(self.times, &stripes, &mut out);
        Ok(Worked {
            bytes: self.times.saturating_mul(CHUNK),
            made,
        })
    }
}
