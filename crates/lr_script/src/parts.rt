//! Actors, the after part, its last jobs, and crash lines. Each function is false where the words don't fit.
ghost use Rattle.std.specs.Prelude.{◌≡◌, map, false, IfOk, IsTrue};
ghost use Rattle.lr_script.specs.State.{State};
ghost use Rattle.lr_script.specs.Lines.{ActorLine, AfterLine, CloseLine, CrashLine};

use crate::kind::Part;
use crate::limits::CRASH_MOST;
use crate::reading::Reading;
use crate::script::Job;
use lr_spec::OutOfMemory;
use lr_text::{ImageName, is, number_between, one, two};
use std::alloc::Global;

/// `actor NAME`
pub fn actor_line(
    alloc: Global,
    reading: &mut Reading,
    words: &[&[u8]],
) -> Result<bool, OutOfMemory>
    ensures read { IfOk result (λ b. IsTrue b → ActorLine reading.old (map (λ w. w.now) words.now) reading.new) }
    ensures only { IfOk result (λ b. b ≡ false → (after : State) → ActorLine reading.old (map (λ w. w.now) words.now) after → ⊥) }
{
    let Some(name) = one(words) else {
        return Ok(false);
    };
    if is(name, b"after") {
        return Ok(false);
    }
    if is(name, b"serial") {
        return Ok(false);
    }
    if is(name, b"rounds") {
        return Ok(false);
    }
    if reading.actor(name).is_some() {
        return Ok(false);
    }
    if !reading.has_actor_room() {
        return Ok(false);
    }
    let Some(name) = ImageName::parse(name) else {
        return Ok(false);
    };
    reading.add_actor(alloc, name)?;
    reading.enter(Part::Actors);
    Ok(true)
}

/// `after`
pub fn after_line(alloc: Global, reading: &mut Reading, words: &[&[u8]]) -> bool
    ensures read { IsTrue result → AfterLine reading.old (map (λ w. w.now) words.now) reading.new }
    ensures only { result ≡ false → (after : State) → AfterLine reading.old (map (λ w. w.now) words.now) after → ⊥ }
{
    if !words.is_empty() {
        return false;
    }
    reading.begin_after(alloc);
    reading.enter(Part::After);
    true
}

/// `close DEVICE`
pub fn close_line(reading: &mut Reading, words: &[&[u8]]) -> Result<bool, OutOfMemory>
    ensures read { IfOk result (λ b. IsTrue b → CloseLine reading.old (map (λ w. w.now) words.now) reading.new) }
    ensures only { IfOk result (λ b. b ≡ false → (after : State) → CloseLine reading.old (map (λ w. w.now) words.now) after → ⊥) }
{
    let Some(device) = one(words) else {
        return Ok(false);
    };
    let Some(device) = reading.device(device) else {
        return Ok(false);
    };
    if reading.is_closed(device) {
        return Ok(false);
    }
    if !reading.has_job_room() {
        return Ok(false);
    }
    reading.add_closed(device)?;
    reading.add_job(Job::Close(device))?;
    Ok(true)
}

/// `crash ACTOR STEPS`
pub fn crash_line(reading: &mut Reading, words: &[&[u8]]) -> Result<bool, OutOfMemory>
    ensures read { IfOk result (λ b. IsTrue b → CrashLine reading.old (map (λ w. w.now) words.now) reading.new) }
    ensures only { IfOk result (λ b. b ≡ false → (after : State) → CrashLine reading.old (map (λ w. w.now) words.now) after → ⊥) }
{
    let Some((actor, steps)) = two(words) else {
        return Ok(false);
    };
    let Some(actor) = reading.actor(actor) else {
        return Ok(false);
    };
    let Some(steps) = number_between(steps, 0, CRASH_MOST) else {
        return Ok(false);
    };
    if reading.has_crash(actor + 1) {
        return Ok(false);
    }
    reading.add_crash(actor + 1, steps)?;
    reading.enter(Part::Crashes);
    Ok(true)
}
