//! Calls of devices: the words behind the first. Each function is false where they don't fit.
ghost use Rattle.std.specs.Prelude.{◌≡◌, ◌≤◌, ℕ, map, false, IfOk, IfSome, IfNone, IsTrue};
ghost use Rattle.lr_text.specs.Words.{run_sum};
ghost use Rattle.lr_script.specs.State.{State};
ghost use Rattle.lr_script.specs.Lines.{ReadLine, ZeroLine, WriteLine, IsRange};
ghost use Rattle.lr_script.specs.Limits.{call_most};

use crate::limits::{CALL_MOST, CALLS_MOST, RUNS_MOST};
use crate::reading::Reading;
use crate::script::Job;
use lr_spec::OutOfMemory;
use lr_text::{first, number_between, number_of, runs_of, three};
use std::alloc::Global;

// `DEVICE OFFSET LENGTH`, and room for the job and its bytes.
fn range_of(reading: &Reading, words: &[&[u8]]) -> Option<(u32, u64, u32)>
    ensures found { IfSome result (λ r. IsRange reading.now (map (λ w. w.now) words.now) r.0 r.1 r.2) }
    ensures only { IfNone result ((device offset len : ℕ) → IsRange reading.now (map (λ w. w.now) words.now) device offset len → ⊥) }
{
    let (device, offset, len) = three(words)?;
    let device = reading.device(device)?;
    let offset = number_of(offset)?;
    let len = number_between(len, 0, CALL_MOST)?;
    if u64::from(reading.called()) + len > CALLS_MOST {
        return None;
    }
    if !reading.has_job_room() {
        return None;
    }
    Some((device, offset, len as u32))
}

// The bytes of the runs.
fn sum_of(runs: &[(u64, u8)]) -> u32
    requires { run_sum runs.now ≤ call_most }
    ensures { result ≡ run_sum runs.now }
{
    let sum: u64 = runs.iter().map(|r| r.0).sum();
    sum as u32
}

/// `read DEVICE OFFSET LENGTH`
pub fn read_line(reading: &mut Reading, words: &[&[u8]]) -> Result<bool, OutOfMemory>
    ensures read { IfOk result (λ b. IsTrue b → ReadLine reading.old (map (λ w. w.now) words.now) reading.new) }
    ensures only { IfOk result (λ b. b ≡ false → (after : State) → ReadLine reading.old (map (λ w. w.now) words.now) after → ⊥) }
{
    let Some((device, offset, len)) = range_of(reading, words) else {
        return Ok(false);
    };
    reading.add_called(len);
    reading.add_job(Job::Read(device, offset, len))?;
    Ok(true)
}

/// `zero DEVICE OFFSET LENGTH`
pub fn zero_line(reading: &mut Reading, words: &[&[u8]]) -> Result<bool, OutOfMemory>
    ensures read { IfOk result (λ b. IsTrue b → ZeroLine reading.old (map (λ w. w.now) words.now) reading.new) }
    ensures only { IfOk result (λ b. b ≡ false → (after : State) → ZeroLine reading.old (map (λ w. w.now) words.now) after → ⊥) }
{
    let Some((device, offset, len)) = range_of(reading, words) else {
        return Ok(false);
    };
    reading.add_called(len);
    reading.add_job(Job::Zero(device, offset, len))?;
    Ok(true)
}

/// `write DEVICE OFFSET RUN ..`
pub fn write_line(
    alloc: Global,
    reading: &mut Reading,
    words: &[&[u8]],
) -> Result<bool, OutOfMemory>
    ensures read { IfOk result (λ b. IsTrue b → WriteLine reading.old (map (λ w. w.now) words.now) reading.new) }
    ensures only { IfOk result (λ b. b ≡ false → (after : State) → WriteLine reading.old (map (λ w. w.now) words.now) after → ⊥) }
{
    let Some((device, rest)) = first(words) else {
        return Ok(false);
    };
    let Some((offset, rest)) = first(rest) else {
        return Ok(false);
    };
    let Some(device) = reading.device(device) else {
        return Ok(false);
    };
    let Some(offset) = number_of(offset) else {
        return Ok(false);
    };
    if rest.is_empty() {
        return Ok(false);
    }
    if rest.len() > RUNS_MOST {
        return Ok(false);
    }
    let Some(runs) = runs_of(alloc, rest, CALL_MOST)? else {
        return Ok(false);
    };
    let len = sum_of(&runs);
    if u64::from(reading.called()) + u64::from(len) > CALLS_MOST {
        return Ok(false);
    }
    if !reading.has_job_room() {
        return Ok(false);
    }
    reading.add_called(len);
    reading.add_job(Job::Write(device, offset, runs))?;
    Ok(true)
}
