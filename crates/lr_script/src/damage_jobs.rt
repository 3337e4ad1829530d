//! Evictions and damage to nodes: the words behind the first. Each function is false where they don't fit.
ghost use Rattle.std.specs.Prelude.{◌≡◌, map, false, IfOk, IsTrue};
ghost use Rattle.lr_script.specs.State.{State};
ghost use Rattle.lr_script.specs.Lines.{EvictLine, DropLine, FlipLine, ForgeLine, LoseLine};

use crate::limits::{BYTE_LAST, CHUNK_LAST, STRIPE_LAST};
use crate::reading::Reading;
use crate::script::Job;
use lr_spec::OutOfMemory;
use lr_text::{four, number_between, one, three, two};

/// `evict HOST`
pub fn evict_line(reading: &mut Reading, words: &[&[u8]]) -> Result<bool, OutOfMemory>
    ensures read { IfOk result (λ b. IsTrue b → EvictLine reading.old (map (λ w. w.now) words.now) reading.new) }
    ensures only { IfOk result (λ b. b ≡ false → (after : State) → EvictLine reading.old (map (λ w. w.now) words.now) after → ⊥) }
{
    let Some(host) = one(words) else {
        return Ok(false);
    };
    let Some(host) = reading.host(host) else {
        return Ok(false);
    };
    if !reading.has_job_room() {
        return Ok(false);
    }
    reading.add_job(Job::Evict(host))?;
    Ok(true)
}

/// `drop J DEVICE INDEX`
pub fn drop_line(reading: &mut Reading, words: &[&[u8]]) -> Result<bool, OutOfMemory>
    ensures read { IfOk result (λ b. IsTrue b → DropLine reading.old (map (λ w. w.now) words.now) reading.new) }
    ensures only { IfOk result (λ b. b ≡ false → (after : State) → DropLine reading.old (map (λ w. w.now) words.now) after → ⊥) }
{
    let Some((stripe, device, index)) = three(words) else {
        return Ok(false);
    };
    let Some(stripe) = number_between(stripe, 0, STRIPE_LAST) else {
        return Ok(false);
    };
    let Some(device) = reading.device(device) else {
        return Ok(false);
    };
    let Some(index) = number_between(index, 0, CHUNK_LAST) else {
        return Ok(false);
    };
    if !reading.has_job_room() {
        return Ok(false);
    }
    reading.add_job(Job::Drop(stripe as u8, device, index as u32))?;
    Ok(true)
}

/// `flip J DEVICE INDEX AT`
pub fn flip_line(reading: &mut Reading, words: &[&[u8]]) -> Result<bool, OutOfMemory>
    ensures read { IfOk result (λ b. IsTrue b → FlipLine reading.old (map (λ w. w.now) words.now) reading.new) }
    ensures only { IfOk result (λ b. b ≡ false → (after : State) → FlipLine reading.old (map (λ w. w.now) words.now) after → ⊥) }
{
    let Some((stripe, device, index, at)) = four(words) else {
        return Ok(false);
    };
    let Some(stripe) = number_between(stripe, 0, STRIPE_LAST) else {
        return Ok(false);
    };
    let Some(device) = reading.device(device) else {
        return Ok(false);
    };
    let Some(index) = number_between(index, 0, CHUNK_LAST) else {
        return Ok(false);
    };
    let Some(at) = number_between(at, 0, BYTE_LAST) else {
        return Ok(false);
    };
    if !reading.has_job_room() {
        return Ok(false);
    }
    reading.add_job(Job::Flip(stripe as u8, device, index as u32, at as u32))?;
    Ok(true)
}

/// `forge DEVICE INDEX`
pub fn forge_line(reading: &mut Reading, words: &[&[u8]]) -> Result<bool, OutOfMemory>
    ensures read { IfOk result (λ b. IsTrue b → ForgeLine reading.old (map (λ w. w.now) words.now) reading.new) }
    ensures only { IfOk result (λ b. b ≡ false → (after : State) → ForgeLine reading.old (map (λ w. w.now) words.now) after → ⊥) }
{
    let Some((device, index)) = two(words) else {
        return Ok(false);
    };
    let Some(device) = reading.device(device) else {
        return Ok(false);
    };
    let Some(index) = number_between(index, 0, CHUNK_LAST) else {
        return Ok(false);
    };
    if !reading.has_job_room() {
        return Ok(false);
    }
    reading.add_job(Job::Forge(device, index as u32))?;
    Ok(true)
}

/// `lose NODE`
pub fn lose_line(reading: &mut Reading, words: &[&[u8]]) -> Result<bool, OutOfMemory>
    ensures read { IfOk result (λ b. IsTrue b → LoseLine reading.old (map (λ w. w.now) words.now) reading.new) }
    ensures only { IfOk result (λ b. b ≡ false → (after : State) → LoseLine reading.old (map (λ w. w.now) words.now) after → ⊥) }
{
    let Some(node) = one(words) else {
        return Ok(false);
    };
    let Some(node) = number_between(node, 0, u64::from(reading.nodes()) - 1) else {
        return Ok(false);
    };
    if !reading.has_job_room() {
        return Ok(false);
    }
    reading.add_job(Job::Lose(node as u32))?;
    Ok(true)
}
