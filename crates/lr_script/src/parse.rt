//! A script, read line by line.
ghost use Rattle.std.specs.Prelude.{◌⊎◌, ◌≡◌, ◌<◌, ◌≤◌, ◌++◌, ℕ, List, length, IfOk, IfErr};
ghost use Rattle.lr_script.specs.Seen.{ScriptSeen};
ghost use Rattle.lr_script.specs.Limits.{bytes_most};
ghost use Rattle.lr_script.specs.Grammar.{Spells, FirstOutside, IfLine};

use crate::error::ScriptError;
use crate::reading::Reading;
use crate::script::Script;
use crate::step::step;
use lr_text::cut_at;
use std::alloc::Global;

impl Script {
    /// Reads a script. `Line` names the first line, from 1, that is outside the grammar or passes a limit; where no
    /// line but comments and empty ones comes, it is the line after the last.
    pub fn parse(alloc: Global, bytes: &[u8]) -> Result<Script, ScriptError>
        ensures spelled { IfOk result (λ script. Spells bytes.now script) }
        ensures outside { IfErr result (λ e. IfLine e (FirstOutside bytes.now)) }
    {
        let mut reading = Reading::new(alloc);
        let mut rest = bytes;
        while let Some((line, behind)) = cut_at(rest, b'\n') {
            let number = reading.lines() + 1;
            if !step(alloc, &mut reading, line)? {
                return Err(ScriptError::Line(number));
            }
            rest = behind;
        }
        let number = reading.lines() + 1;
        if !rest.is_empty() {
            return Err(ScriptError::Line(number));
        }
        if !reading.has_begun() {
            return Err(ScriptError::Line(number));
        }
        Ok(reading.into_script())
    }
}

/// Bytes spell one script, or one line is the first outside: never both and never neither. A front past the limit
/// in bytes tells it.
pub fn one_reading()
    ensures script { (bytes : List ℕ) (a b : ScriptSeen) → Spells bytes a → Spells bytes b → a ≡ b }
    ensures line { (bytes : List ℕ) (m n : ℕ) → FirstOutside bytes m → FirstOutside bytes n → m ≡ n }
    ensures apart { (bytes : List ℕ) (a : ScriptSeen) (n : ℕ) → Spells bytes a → FirstOutside bytes n → ⊥ }
    ensures either { (bytes : List ℕ) → ((a : ScriptSeen) × Spells bytes a) ⊎ ((n : ℕ) × FirstOutside bytes n) }
    ensures limit { (bytes : List ℕ) (a : ScriptSeen) → Spells bytes a → length bytes ≤ bytes_most }
    ensures longer { (front behind : List ℕ) (n : ℕ) → bytes_most < length front → FirstOutside front n → FirstOutside (front ++ behind) n }
{}
