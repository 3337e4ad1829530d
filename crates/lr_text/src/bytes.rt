//! Lists of bytes, printed by their runs.
ghost use Rattle.std.specs.Prelude.{◌≡◌, ◌==◌, ◌++◌, ◌∷◌, ◌+◌, ◌<◌, ◌≤◌, List, ℕ, take, take_while, nat_le, length, slice_index, vec_len, OnOk, OnErr, IfOk};
ghost use Rattle.lr_text.specs.Bytes.{AreMaximal, maximal_runs, bytes_text, runs_text, digest_text};

use crate::key::put_key;
use crate::runs::put_run;
use lr_spec::OutOfMemory;
use sha2::{Digest, Sha256};

/// The most runs that a list of bytes prints as.
pub const RUNS_MAX: usize = 64;

// How many bytes at the front are this one.
fn front(bytes: &[u8], byte: u8) -> usize
    ensures count { result ≡ length (take_while (λ b. b == byte) bytes.now) }
    ensures within { result ≤ length bytes.now }
{
    bytes.iter().take_while(|b| **b == byte).count()
}

// The length of the first run, and the bytes behind it.
fn first_run(bytes: &[u8]) -> (usize, &[u8])
    requires { 0 < length bytes.now }
    ensures runs { maximal_runs bytes.now ≡ (result.0, slice_index bytes.now 0) ∷ maximal_runs result.1.now }
    ensures shorter { length result.1.now < length bytes.now }
{
    let n = front(bytes, bytes[0]);
    let (_, rest) = bytes.split_at(n);
    (n, rest)
}

// Whether the bytes have at most 64 maximal runs.
fn has_few_runs(bytes: &[u8]) -> bool
    ensures { result ≡ nat_le (length (maximal_runs bytes.now)) RUNS_MAX }
{
    let mut rest = bytes;
    let mut runs = 0;
    while !rest.is_empty() {
        if runs == RUNS_MAX {
            return false;
        }
        (_, rest) = first_run(rest);
        runs += 1;
    }
    true
}

// Adds the first run and, where more bytes follow, a space. The bytes behind the run.
fn put_first_run<'a>(out: &mut Vec<u8>, bytes: &'a [u8]) -> Result<&'a [u8], OutOfMemory>
    requires { 0 < length bytes.now }
    ensures text { IfOk result (λ rest. out.new.items ++ runs_text (maximal_runs rest.now) ≡ out.old.items ++ runs_text (maximal_runs bytes.now)) }
    ensures shorter { IfOk result (λ rest. length rest.now < length bytes.now) }
    ensures front { take (vec_len out.old) out.new.items ≡ out.old.items }
{
    let (n, rest) = first_run(bytes);
    put_run(out, n as u64, bytes[0])?;
    if rest.is_empty() {
        return Ok(rest);
    }
    out.push(b' ')?;
    Ok(rest)
}

// Adds the maximal runs with one space between two.
fn put_runs(out: &mut Vec<u8>, bytes: &[u8]) -> Result<(), OutOfMemory>
    ensures text { OnOk result (out.new.items ≡ out.old.items ++ runs_text (maximal_runs bytes.now)) }
    ensures front { OnErr result (take (vec_len out.old) out.new.items ≡ out.old.items) }
{
    let mut rest = bytes;
    while !rest.is_empty() {
        rest = put_first_run(out, rest)?;
    }
    Ok(())
}

// Adds `sha256 ` and the digits of the digest.
fn put_digest(out: &mut Vec<u8>, bytes: &[u8]) -> Result<(), OutOfMemory>
    ensures text { OnOk result (out.new.items ≡ out.old.items ++ digest_text bytes.now) }
    ensures front { OnErr result (take (vec_len out.old) out.new.items ≡ out.old.items) }
{
    out.extend_from_slice(b"sha256 ")?;
    put_key(out, &Sha256::digest(bytes))
}

// Adds the text of the bytes, or a front of it.
#[tactic(auto, unfolding(crate::specs::Bytes::bytes_text))]
fn put_text(out: &mut Vec<u8>, bytes: &[u8]) -> Result<(), OutOfMemory>
    ensures text { OnOk result (out.new.items ≡ out.old.items ++ bytes_text bytes.now) }
    ensures front { OnErr result (take (vec_len out.old) out.new.items ≡ out.old.items) }
{
    if has_few_runs(bytes) {
        return put_runs(out, bytes);
    }
    put_digest(out, bytes)
}

/// Adds a list of bytes: its maximal runs `NxHH` with one space between two where there are at most 64,
/// else `sha256 ` and the 64 hexadecimal digits of its SHA-256 (FIPS 180-4). The empty list adds nothing.
///
/// After an error the output is as it was. The time is linear in the bytes.
pub fn put_bytes(out: &mut Vec<u8>, bytes: &[u8]) -> Result<(), OutOfMemory>
    ensures added { OnOk result (out.new.items ≡ out.old.items ++ bytes_text bytes.now) }
    ensures kept { OnErr result (out.new.items ≡ out.old.items) }
{
    let before = out.len();
    let put = put_text(out, bytes);
    if put.is_err() {
        out.truncate(before);
    }
    put
}

/// A law: the maximal runs of a list of bytes spell it back, and no other runs that are maximal do.
pub fn runs_are_maximal()
    ensures maximal { (bytes : List ℕ) → AreMaximal (maximal_runs bytes) bytes }
    ensures alone { (bytes : List ℕ) (runs : List (ℕ × ℕ)) → AreMaximal runs bytes → runs ≡ maximal_runs bytes }
{}
