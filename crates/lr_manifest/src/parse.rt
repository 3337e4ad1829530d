//! Reading a manifest: the tests in their order, then the fields by position.
ghost use Rattle.std.specs.Prelude.{◌≡◌, ◌≤◌, ◌<◌, ◌*◌, ◌+◌, ◌++◌, ℕ, Bool, true, false, not, nat_lt, ◌||◌, ◌==◌, Option, Some, None, List, length, take, drop, IfOk, IfNone, MatchResult};
ghost use Rattle.std.specs.Int.{w16, w32, w64, from_be_bytes};
ghost use Rattle.std.specs.List.{flat_map};
ghost use Rattle.lr_manifest.specs.Manifest.{ManifestFields, IsManifest, Spells, chunk_count, first_fault, HasNoFault, is_short, lacks_magic, is_other_version, has_wrong_fields, has_other_length, Fails, AreKeys, itself, name_bytes};
ghost use Rattle.lr_manifest.specs.declared.error.ManifestError.TheVariants.{OutOfMemory as NoMemory};

use crate::error::ManifestError;
use crate::manifest::Manifest;
use crate::row::{cut_rows, front};
use byteorder::{BigEndian, ByteOrder};
use lr_spec::OutOfMemory;
use std::alloc::Global;

// The most raw bytes of an image.
const RAW_LIMIT: u64 = 10_737_418_240;

fn u16_at(bytes: &[u8], at: usize) -> u16
    requires { at + 2 ≤ length bytes.now }
    ensures { result ≡ from_be_bytes w16 (drop at bytes.now) }
{
    BigEndian::read_u16(&bytes[at..])
}

fn u32_at(bytes: &[u8], at: usize) -> u32
    requires { at + 4 ≤ length bytes.now }
    ensures { result ≡ from_be_bytes w32 (drop at bytes.now) }
{
    BigEndian::read_u32(&bytes[at..])
}

fn u64_at(bytes: &[u8], at: usize) -> u64
    requires { at + 8 ≤ length bytes.now }
    ensures { result ≡ from_be_bytes w64 (drop at bytes.now) }
{
    BigEndian::read_u64(&bytes[at..])
}

// The chunks that hold so many raw bytes.
fn count_of(raw: u64) -> u64
    requires { raw ≤ 10737418240 }
    ensures { result ≡ chunk_count raw }
{
    ((raw + 4095) / 4096 * 4096 + 524287) / 524288
}

fn is_short(bytes: &[u8]) -> bool
    ensures { result ≡ is_short bytes.now }
{
    bytes.len() < 24
}

fn lacks_magic(bytes: &[u8]) -> bool
    requires { 24 ≤ length bytes.now }
    ensures { result ≡ lacks_magic bytes.now }
{
    !(bytes[0] == 0x4c && bytes[1] == 0x52 && bytes[2] == 0x4d && bytes[3] == 0x46)
}

fn is_other_version(bytes: &[u8]) -> bool
    requires { 24 ≤ length bytes.now }
    ensures { result ≡ is_other_version bytes.now }
{
    !(u16_at(bytes, 4) == 1)
}

fn has_other_count(raw: u64, count: u32) -> bool
    ensures { result ≡ (nat_lt 10737418240 raw || not (count == chunk_count raw)) }
{
    if raw > RAW_LIMIT {
        return true;
    }
    !(count as u64 == count_of(raw))
}

fn has_wrong_fields(bytes: &[u8]) -> bool
    requires { 24 ≤ length bytes.now }
    ensures { result ≡ has_wrong_fields bytes.now }
{
    let reserved = u16_at(bytes, 6);
    let size = u32_at(bytes, 16);
    let count = has_other_count(u64_at(bytes, 8), u32_at(bytes, 20));
    !(reserved == 0) || (!(size == 524288) || count)
}

fn has_other_length(bytes: &[u8]) -> bool
    requires { 24 ≤ length bytes.now }
    ensures { result ≡ has_other_length bytes.now }
{
    let count = u32_at(bytes, 20);
    !(bytes.len() as u64 == 52 + 64 * (count as u64))
}

// The first fault, if there is one.
fn fault_of(bytes: &[u8]) -> Option<ManifestError>
    ensures first { result ≡ first_fault bytes.now }
    ensures sound { IfNone result (HasNoFault bytes.now) }
    ensures long { IfNone result (24 ≤ length bytes.now) }
    ensures whole { IfNone result (length bytes.now ≡ 52 + 64 * from_be_bytes w32 (drop 20 bytes.now)) }
{
    if is_short(bytes) {
        return Some(ManifestError::Truncated);
    }
    if lacks_magic(bytes) {
        return Some(ManifestError::Magic);
    }
    if is_other_version(bytes) {
        return Some(ManifestError::Version);
    }
    if has_wrong_fields(bytes) {
        return Some(ManifestError::Fields);
    }
    if has_other_length(bytes) {
        return Some(ManifestError::Length);
    }
    None
}

// The fields of bytes without a fault.
fn fields_of(alloc: Global, bytes: &[u8]) -> Result<Manifest, OutOfMemory>
    requires sound { HasNoFault bytes.now }
    requires long { 24 ≤ length bytes.now }
    requires whole { length bytes.now ≡ 52 + 64 * from_be_bytes w32 (drop 20 bytes.now) }
    ensures { IfOk result (λ m. Spells bytes.now m) }
{
    let count = u32_at(bytes, 20) as usize;
    let raw_len = u64_at(bytes, 8);
    let (clear, sealed) = bytes.split_at(24 + 32 * count);
    let names = cut_rows(alloc, &clear[24..], count)?;
    let nonce = front(sealed);
    let (keys, tag) = sealed[12..].split_at(32 * count);
    let keys = cut_rows(alloc, keys, count)?;
    Ok(Manifest::of(raw_len, names, nonce, keys, front(tag)))
}

impl Manifest {
    /// The manifest that the bytes spell, or the first fault that applies.
    #[tactic(auto, using(crate::proofs::Unique::complete))]
    pub fn parse(alloc: Global, bytes: &[u8]) -> Result<Manifest, ManifestError>
        ensures found { IfOk result (λ m. Spells bytes.now m) }
        ensures only { (m : ManifestFields) → Spells bytes.now m → MatchResult result (λ n. n ≡ m) (λ e. e ≡ NoMemory) }
        ensures fault { MatchResult result (λ _. first_fault bytes.now ≡ None) (λ e. Fails e (first_fault bytes.now)) }
    {
        if let Some(fault) = fault_of(bytes) {
            return Err(fault);
        }
        Ok(fields_of(alloc, bytes)?)
    }
}
