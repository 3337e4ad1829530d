//! The bytes that a script says.
ghost use Rattle.std.specs.Prelude.{◌≡◌, ◌++◌, ◌-◌, OnOk, IfOk, replicate, length, map};
ghost use Rattle.std.specs.List.{range_with_len};
ghost use Rattle.lr_text.specs.Bytes.{bytes_of_runs as bytes_seen};
ghost use Rattle.lr_gen.specs.Bytes.{seed_byte};
ghost use Rattle.lr_script.specs.Seen.{body_seen};
ghost use Rattle.lr_actors.specs.Creating.{raw_of};

use lr_gen::fill;
use lr_script::Body;
use lr_spec::OutOfMemory;
use std::alloc::Global;

// Adds a byte so many times.
fn put_copies(out: &mut Vec<u8>, count: usize, byte: u8) -> Result<(), OutOfMemory>
    ensures { OnOk result (out.new.items ≡ out.old.items ++ replicate count byte) }
{
    let Some(whole) = out.len().checked_add(count) else {
        return Err(OutOfMemory);
    };
    out.resize(whole, byte)?;
    Ok(())
}

/// The bytes of runs.
pub(crate) fn bytes_of_runs(alloc: Global, runs: &[(u64, u8)]) -> Result<Vec<u8>, OutOfMemory>
    ensures { IfOk result (λ v. v.items ≡ bytes_seen runs.now) }
{
    let mut bytes = Vec::new(alloc);
    for run in runs {
        put_copies(&mut bytes, run.0 as usize, run.1)?;
    }
    Ok(bytes)
}

// The bytes of runs, and then zeros up to a length.
fn filled_runs(alloc: Global, runs: &[(u64, u8)], whole: u64) -> Result<Vec<u8>, OutOfMemory>
    ensures { IfOk result (λ v. v.items ≡ bytes_seen runs.now ++ replicate (whole - length (bytes_seen runs.now)) 0) }
{
    let mut bytes = bytes_of_runs(alloc, runs)?;
    let missing = (whole as usize).saturating_sub(bytes.len());
    put_copies(&mut bytes, missing, 0)?;
    Ok(bytes)
}

// Fills a buffer with the first bytes of a number.
fn fill_from_start(number: u32, buffer: &mut [u8])
    ensures { buffer.new ≡ map (seed_byte number) (range_with_len 0 (length buffer.old)) }
{
    fill(number, 0, buffer);
}

// So many zeros.
fn zeros(alloc: Global, count: usize) -> Result<Vec<u8>, OutOfMemory>
    ensures { IfOk result (λ v. length v.items ≡ count) }
{
    Ok(vec![in alloc; 0u8; count]?)
}

// So many bytes of a number.
fn seed_bytes(alloc: Global, number: u32, count: usize) -> Result<Vec<u8>, OutOfMemory>
    ensures { IfOk result (λ v. v.items ≡ map (seed_byte number) (range_with_len 0 count)) }
{
    let mut bytes = zeros(alloc, count)?;
    fill_from_start(number, &mut bytes);
    Ok(bytes)
}

/// The raw bytes that a body says, of this length: its runs and then zeros, or the bytes of its number.
pub fn raw_bytes(alloc: Global, body: &Body, whole: u64) -> Result<Vec<u8>, OutOfMemory>
    ensures { IfOk result (λ v. v.items ≡ raw_of whole (body_seen body.now)) }
{
    match body {
        Body::Runs(runs) => filled_runs(alloc, runs, whole),
        Body::Seed(number) => seed_bytes(alloc, *number, whole as usize),
    }
}
