//! The schedule line: the words behind the first.
ghost use Rattle.std.specs.Prelude.{◌≡◌, ◌≢◌, ◌∷◌, [], ℕ, List, map, false, IfOk, IfSome, IfNone, IsTrue};
ghost use Rattle.lr_script.specs.State.{State, actor_names};
ghost use Rattle.lr_script.specs.Seen.{ScheduleSeen, schedule_seen};
ghost use Rattle.lr_script.specs.Lines.{ScheduleLine, ScheduleWords};

use crate::kind::Part;
use crate::limits::{COUNTS_MOST, PAIRS_MOST};
use crate::reading::Reading;
use crate::script::Schedule;
use lr_spec::OutOfMemory;
use lr_text::{is, number_between, one};
use std::alloc::Global;

/// `schedule serial`, `schedule rounds`, or pairs
pub fn schedule_line(
    alloc: Global,
    reading: &mut Reading,
    words: &[&[u8]],
) -> Result<bool, OutOfMemory>
    ensures read { IfOk result (λ b. IsTrue b → ScheduleLine reading.old (map (λ w. w.now) words.now) reading.new) }
    ensures only { IfOk result (λ b. b ≡ false → (after : State) → ScheduleLine reading.old (map (λ w. w.now) words.now) after → ⊥) }
{
    let Some(schedule) = schedule_of(alloc, reading, words)? else {
        return Ok(false);
    };
    reading.set_schedule(schedule);
    reading.enter(Part::End);
    Ok(true)
}

fn schedule_of(
    alloc: Global,
    reading: &Reading,
    words: &[&[u8]],
) -> Result<Option<Schedule>, OutOfMemory>
    ensures found { IfOk result (λ o. IfSome o (λ s. ScheduleWords (actor_names reading.now) (map (λ w. w.now) words.now) (schedule_seen s))) }
    ensures only { IfOk result (λ o. IfNone o ((s : ScheduleSeen) → ScheduleWords (actor_names reading.now) (map (λ w. w.now) words.now) s → ⊥)) }
{
    let Some(word) = one(words) else {
        return pairs_of(alloc, reading, words);
    };
    if is(word, b"serial") {
        return Ok(Some(Schedule::Serial));
    }
    if is(word, b"rounds") {
        return Ok(Some(Schedule::Rounds));
    }
    Ok(None)
}

fn pairs_of(
    alloc: Global,
    reading: &Reading,
    words: &[&[u8]],
) -> Result<Option<Schedule>, OutOfMemory>
    requires { (w : List ℕ) → map (λ w. w.now) words.now ≢ w ∷ [] }
    ensures found { IfOk result (λ o. IfSome o (λ s. ScheduleWords (actor_names reading.now) (map (λ w. w.now) words.now) (schedule_seen s))) }
    ensures only { IfOk result (λ o. IfNone o ((s : ScheduleSeen) → ScheduleWords (actor_names reading.now) (map (λ w. w.now) words.now) s → ⊥)) }
{
    let mut pairs = Vec::new(alloc);
    let mut left: u64 = COUNTS_MOST;
    let mut at = 0;
    while at + 2 <= words.len() {
        let name = words[at];
        let count = words[at + 1];
        let Some(actor) = reading.actor(name) else {
            return Ok(None);
        };
        let Some(count) = number_between(count, 1, left) else {
            return Ok(None);
        };
        if pairs.len() >= PAIRS_MOST {
            return Ok(None);
        }
        pairs.push((actor + 1, count as u32))?;
        left -= count;
        at += 2;
    }
    if pairs.is_empty() {
        return Ok(None);
    }
    if at == words.len() {
        return Ok(Some(Schedule::Pairs(pairs, false)));
    }
    if is(words[at], b"rounds") {
        return Ok(Some(Schedule::Pairs(pairs, true)));
    }
    Ok(None)
}
