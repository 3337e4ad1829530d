//! Calls of the depot: the words behind the first. Each function is false where they don't fit.
ghost use Rattle.std.specs.Prelude.{◌≡◌, map, false, IfOk, IsTrue};
ghost use Rattle.lr_script.specs.State.{State};
ghost use Rattle.lr_script.specs.Lines.{CreateLine, MigrateLine, WithdrawLine, RotateLine, ExpireLine, DeleteLine, SweepLine, SettleLine};

use crate::limits::IMAGES_MOST;
use crate::reading::Reading;
use crate::script::Job;
use crate::words::{ImageWords, image_of, name_of, root_of};
use lr_origin::Key;
use lr_spec::OutOfMemory;
use lr_text::{key_of, one};
use std::alloc::Global;

/// `create NAME TENANT LENGTH BODY`
pub fn create_line(
    alloc: Global,
    reading: &mut Reading,
    words: &[&[u8]],
) -> Result<bool, OutOfMemory>
    ensures read { IfOk result (λ b. IsTrue b → CreateLine reading.old (map (λ w. w.now) words.now) reading.new) }
    ensures only { IfOk result (λ b. b ≡ false → (after : State) → CreateLine reading.old (map (λ w. w.now) words.now) after → ⊥) }
{
    let Some(image) = image_of(alloc, words)? else {
        return Ok(false);
    };
    let ImageWords {
        name,
        tenant,
        len,
        body,
    } = image;
    if reading.raw() + len > IMAGES_MOST {
        return Ok(false);
    }
    if !reading.has_job_room() {
        return Ok(false);
    }
    reading.add_raw(len);
    reading.add_job(Job::Create(name, tenant, len, body))?;
    Ok(true)
}

/// `migrate IMAGE`
pub fn migrate_line(reading: &mut Reading, words: &[&[u8]]) -> Result<bool, OutOfMemory>
    ensures read { IfOk result (λ b. IsTrue b → MigrateLine reading.old (map (λ w. w.now) words.now) reading.new) }
    ensures only { IfOk result (λ b. b ≡ false → (after : State) → MigrateLine reading.old (map (λ w. w.now) words.now) after → ⊥) }
{
    let Some(image) = name_of(words) else {
        return Ok(false);
    };
    if !reading.has_job_room() {
        return Ok(false);
    }
    reading.add_job(Job::Migrate(image))?;
    Ok(true)
}

/// `withdraw IMAGE`
pub fn withdraw_line(reading: &mut Reading, words: &[&[u8]]) -> Result<bool, OutOfMemory>
    ensures read { IfOk result (λ b. IsTrue b → WithdrawLine reading.old (map (λ w. w.now) words.now) reading.new) }
    ensures only { IfOk result (λ b. b ≡ false → (after : State) → WithdrawLine reading.old (map (λ w. w.now) words.now) after → ⊥) }
{
    let Some(image) = name_of(words) else {
        return Ok(false);
    };
    if !reading.has_job_room() {
        return Ok(false);
    }
    reading.add_job(Job::Withdraw(image))?;
    Ok(true)
}

/// `rotate SALT`
pub fn rotate_line(reading: &mut Reading, words: &[&[u8]]) -> Result<bool, OutOfMemory>
    ensures read { IfOk result (λ b. IsTrue b → RotateLine reading.old (map (λ w. w.now) words.now) reading.new) }
    ensures only { IfOk result (λ b. b ≡ false → (after : State) → RotateLine reading.old (map (λ w. w.now) words.now) after → ⊥) }
{
    let Some(salt) = one(words) else {
        return Ok(false);
    };
    let Some(salt) = key_of(salt) else {
        return Ok(false);
    };
    if !reading.has_job_room() {
        return Ok(false);
    }
    reading.add_job(Job::Rotate(salt))?;
    Ok(true)
}

/// `expire ROOT`
pub fn expire_line(reading: &mut Reading, words: &[&[u8]]) -> Result<bool, OutOfMemory>
    ensures read { IfOk result (λ b. IsTrue b → ExpireLine reading.old (map (λ w. w.now) words.now) reading.new) }
    ensures only { IfOk result (λ b. b ≡ false → (after : State) → ExpireLine reading.old (map (λ w. w.now) words.now) after → ⊥) }
{
    let Some(root) = root_of(words) else {
        return Ok(false);
    };
    if !reading.has_job_room() {
        return Ok(false);
    }
    reading.add_job(Job::Expire(root))?;
    Ok(true)
}

/// `delete ROOT`
pub fn delete_line(reading: &mut Reading, words: &[&[u8]]) -> Result<bool, OutOfMemory>
    ensures read { IfOk result (λ b. IsTrue b → DeleteLine reading.old (map (λ w. w.now) words.now) reading.new) }
    ensures only { IfOk result (λ b. b ≡ false → (after : State) → DeleteLine reading.old (map (λ w. w.now) words.now) after → ⊥) }
{
    let Some(root) = root_of(words) else {
        return Ok(false);
    };
    if !reading.has_job_room() {
        return Ok(false);
    }
    reading.add_job(Job::Delete(root))?;
    Ok(true)
}

/// `sweep ROOT`
pub fn sweep_line(reading: &mut Reading, words: &[&[u8]]) -> Result<bool, OutOfMemory>
    ensures read { IfOk result (λ b. IsTrue b → SweepLine reading.old (map (λ w. w.now) words.now) reading.new) }
    ensures only { IfOk result (λ b. b ≡ false → (after : State) → SweepLine reading.old (map (λ w. w.now) words.now) after → ⊥) }
{
    let Some(root) = root_of(words) else {
        return Ok(false);
    };
    if !reading.has_job_room() {
        return Ok(false);
    }
    reading.add_job(Job::Sweep(root))?;
    Ok(true)
}

/// `settle KEY`
pub fn settle_line(reading: &mut Reading, words: &[&[u8]]) -> Result<bool, OutOfMemory>
    ensures read { IfOk result (λ b. IsTrue b → SettleLine reading.old (map (λ w. w.now) words.now) reading.new) }
    ensures only { IfOk result (λ b. b ≡ false → (after : State) → SettleLine reading.old (map (λ w. w.now) words.now) after → ⊥) }
{
    let Some(key) = one(words) else {
        return Ok(false);
    };
    let Some(key) = Key::parse(key) else {
        return Ok(false);
    };
    if !reading.has_job_room() {
        return Ok(false);
    }
    reading.add_job(Job::Settle(key))?;
    Ok(true)
}
