//! Runs: the word `NxHH` stands for N bytes of one value. N is a number of at least 1, and HH the value in two
//! hexadecimal digits in lower case.
ghost use Rattle.std.specs.Prelude.{◌≡◌, ◌≢◌, ◌<◌, ◌≤◌, ◌^◌, ◌++◌, ℕ, List, map, OnOk, OnErr, decimal, IfOk, IfSome, IfNone};
ghost use Rattle.lr_text.specs.Words.{run_word, hex_digit, IsRun, AreRuns};

use crate::number::number_between;
use itoa::Buffer;
use lr_spec::OutOfMemory;
use std::alloc::Global;

// The value of a lower-case hexadecimal digit.
fn hex_value(b: u8) -> Option<u8>
    ensures found { IfSome result (λ d. (d < 16) × (b ≡ hex_digit d)) }
    ensures only { IfNone result ((d : ℕ) → d < 16 → b ≢ hex_digit d) }
{
    match b {
        b'0'..=b'9' => Some(b - b'0'),
        b'a'..=b'f' => Some(b - b'a' + 10),
        _ => None,
    }
}

/// The run that a word spells: its count and its byte. `None` for a word that is no run.
pub fn run_of(word: &[u8]) -> Option<(u64, u8)>
    ensures found { IfSome result (λ r. IsRun r × (word.now ≡ run_word r)) }
    ensures only { IfNone result ((r : ℕ × ℕ) → IsRun r → word.now ≢ run_word r) }
{
    let [digits @ .., b'x', high, low] = word else {
        return None;
    };
    let count = number_between(digits, 1, u64::MAX)?;
    let high = hex_value(*high)?;
    let low = hex_value(*low)?;
    Some((count, high * 16 + low))
}

/// The runs that these words spell, whose counts add up to at most `most` bytes. `None` where a word is no run or
/// the sum is larger.
pub fn runs_of(
    alloc: Global,
    words: &[&[u8]],
    most: u64,
) -> Result<Option<Vec<(u64, u8)>>, OutOfMemory>
    ensures found { IfOk result (λ o. IfSome o (λ v. AreRuns v.items most × (map (λ w. w.now) words.now ≡ map run_word v.items))) }
    ensures only { IfOk result (λ o. IfNone o ((rs : List (ℕ × ℕ)) → AreRuns rs most → map (λ w. w.now) words.now ≢ map run_word rs)) }
{
    let mut runs = Vec::new(alloc);
    let mut left = most;
    for word in words {
        let Some(run) = run_of(word) else {
            return Ok(None);
        };
        if run.0 > left {
            return Ok(None);
        }
        left -= run.0;
        runs.push(run)?;
    }
    Ok(Some(runs))
}

// The lower-case hexadecimal digit of a value.
fn hex_glyph(d: u8) -> u8
    requires { d < 16 }
    ensures { result ≡ hex_digit d }
{
    if d < 10 { b'0' + d } else { b'a' + (d - 10) }
}

/// Adds the word `NxHH` of a count and a byte.
///
/// After an error the output is as it was.
pub fn put_run(out: &mut Vec<u8>, count: u64, byte: u8) -> Result<(), OutOfMemory>
    ensures added { OnOk result (out.new.items ≡ out.old.items ++ run_word (count, byte)) }
    ensures kept { OnErr result (out.new.items ≡ out.old.items) }
{
    let mut buffer = Buffer::new();
    let digits = buffer.format(count).as_bytes();
    out.reserve(digits.len() + 3)?;
    out.extend_from_slice(digits)?;
    out.push_reserved(b'x');
    out.push_reserved(hex_glyph(byte / 16));
    out.push_reserved(hex_glyph(byte % 16));
    Ok(())
}
