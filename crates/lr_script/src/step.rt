//! A line: its kind by its first word, and the words behind it.
ghost use Rattle.std.specs.Prelude.{◌≡◌, [], map, true, false, IfOk, IsTrue, ◌↔◌};
ghost use Rattle.std.specs.List.{AllPass};
ghost use Rattle.lr_text.specs.Words.{split_at_byte};
ghost use Rattle.lr_script.specs.State.{State};
ghost use Rattle.lr_script.specs.Lines.{KindLine};
ghost use Rattle.lr_script.specs.Grammar.{is_text_byte, is_passed, WordsLine, CountedLine, Reads};

use crate::damage_jobs::{drop_line, evict_line, flip_line, forge_line, lose_line};
use crate::depot_jobs::{
    create_line, delete_line, expire_line, migrate_line, rotate_line, settle_line, sweep_line,
    withdraw_line,
};
use crate::device_jobs::{read_line, write_line, zero_line};
use crate::kind::{Kind, kind_of, may_come};
use crate::limits::{BYTES_MOST, LINE_MOST, LINES_MOST};
use crate::parts::{actor_line, after_line, close_line, crash_line};
use crate::reading::Reading;
use crate::schedule::schedule_line;
use crate::setup::{device_line, host_line, image_line, nodes_line, root_line, script_line};
use lr_spec::OutOfMemory;
use lr_text::{first, parts};
use std::alloc::Global;

fn kind_line(
    alloc: Global,
    reading: &mut Reading,
    kind: Kind,
    words: &[&[u8]],
) -> Result<bool, OutOfMemory>
    ensures read { IfOk result (λ b. IsTrue b → KindLine kind reading.old (map (λ w. w.now) words.now) reading.new) }
    ensures only { IfOk result (λ b. b ≡ false → (after : State) → KindLine kind reading.old (map (λ w. w.now) words.now) after → ⊥) }
{
    match kind {
        Kind::Script => Ok(script_line(reading, words)),
        Kind::Nodes => Ok(nodes_line(reading, words)),
        Kind::Host => host_line(reading, words),
        Kind::Root => root_line(reading, words),
        Kind::Image => image_line(alloc, reading, words),
        Kind::Device => device_line(reading, words),
        Kind::Actor => actor_line(alloc, reading, words),
        Kind::Read => read_line(reading, words),
        Kind::Zero => zero_line(reading, words),
        Kind::Write => write_line(alloc, reading, words),
        Kind::Create => create_line(alloc, reading, words),
        Kind::Migrate => migrate_line(reading, words),
        Kind::Withdraw => withdraw_line(reading, words),
        Kind::Rotate => rotate_line(reading, words),
        Kind::Expire => expire_line(reading, words),
        Kind::Delete => delete_line(reading, words),
        Kind::Sweep => sweep_line(reading, words),
        Kind::Settle => settle_line(reading, words),
        Kind::Evict => evict_line(reading, words),
        Kind::Drop => drop_line(reading, words),
        Kind::Flip => flip_line(reading, words),
        Kind::Forge => forge_line(reading, words),
        Kind::Lose => lose_line(reading, words),
        Kind::After => Ok(after_line(alloc, reading, words)),
        Kind::Close => close_line(reading, words),
        Kind::Crash => crash_line(reading, words),
        Kind::Schedule => schedule_line(alloc, reading, words),
        Kind::Other => Ok(false),
    }
}

fn words_line(alloc: Global, reading: &mut Reading, line: &[u8]) -> Result<bool, OutOfMemory>
    ensures read { IfOk result (λ b. IsTrue b → WordsLine reading.old (split_at_byte 32 line.now) reading.new) }
    ensures only { IfOk result (λ b. b ≡ false → (after : State) → WordsLine reading.old (split_at_byte 32 line.now) after → ⊥) }
{
    let words = parts(alloc, line, b' ')?;
    let Some((word, rest)) = first(&words) else {
        return Ok(false);
    };
    let kind = kind_of(word);
    if !may_come(reading.part(), kind) {
        return Ok(false);
    }
    kind_line(alloc, reading, kind, rest)
}

fn is_text(line: &[u8]) -> bool
    ensures { IsTrue result ↔ AllPass is_text_byte line.now }
{
    line.iter().all(|b| *b >= 32 && *b <= 126)
}

fn is_passed(line: &[u8]) -> bool
    ensures { result ≡ is_passed line.now }
{
    match line {
        [] => true,
        [first, ..] => *first == b'#',
    }
}

fn counted_line(alloc: Global, reading: &mut Reading, line: &[u8]) -> Result<bool, OutOfMemory>
    ensures read { IfOk result (λ b. IsTrue b → CountedLine (is_passed line.now) reading.old line.now reading.new) }
    ensures only { IfOk result (λ b. b ≡ false → (after : State) → CountedLine (is_passed line.now) reading.old line.now after → ⊥) }
{
    if is_passed(line) {
        return Ok(true);
    }
    words_line(alloc, reading, line)
}

/// Reads a line, without its LF. It is false where the line may not come.
pub fn step(alloc: Global, reading: &mut Reading, line: &[u8]) -> Result<bool, OutOfMemory>
    ensures read { IfOk result (λ b. IsTrue b → Reads reading.old line.now reading.new) }
    ensures only { IfOk result (λ b. b ≡ false → (after : State) → Reads reading.old line.now after → ⊥) }
{
    if line.len() > LINE_MOST {
        return Ok(false);
    }
    if reading.lines() >= LINES_MOST {
        return Ok(false);
    }
    if reading.bytes() as usize + line.len() + 1 > BYTES_MOST {
        return Ok(false);
    }
    if !is_text(line) {
        return Ok(false);
    }
    reading.count_line(line);
    counted_line(alloc, reading, line)
}
