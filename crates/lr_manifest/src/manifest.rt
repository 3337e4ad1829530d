//! The value of a manifest.
ghost use Rattle.std.specs.Prelude.{◌≡◌, ◌≤◌, length, drop, IfOk};
ghost use Rattle.std.specs.Int.{w32, w64, from_be_bytes};
ghost use Rattle.lr_manifest.specs.Manifest.{ManifestFields, IsManifest, Spells};

use crate::name::Name;
use byteorder::{BigEndian, ByteOrder};
use std::marker::Model;

/// What an image is made of: the names of its chunks in order, and their keys, sealed for one tenant.
///
/// A contract sees the five fields, which keep the format's rules: a raw length of at most 10,737,418,240
/// bytes, as many names as chunks hold them, and a sealed key of 32 bytes for each.
#[derive(Drop)]
pub struct Manifest {
    raw_len: u64,
    names: Vec<Name>,
    nonce: [u8; 12],
    sealed: Vec<[u8; 32]>,
    tag: [u8; 16],
}

impl Model for Manifest {
    ghost use Rattle.lr_manifest.specs.Manifest.{ManifestFields, IsManifest};

    ghost Value = { ManifestFields };

    ghost view = { λ m. record { raw_len = m.raw_len; names = m.names.items; nonce = m.nonce; sealed = m.sealed.items; tag = m.tag } };

    ghost invariant = { λ m. IsManifest (record { raw_len = m.raw_len; names = m.names.items; nonce = m.nonce; sealed = m.sealed.items; tag = m.tag }) };
}

impl Manifest {
    /// The manifest of these fields. It takes no memory.
    pub fn of(
        raw_len: u64,
        names: Vec<Name>,
        nonce: [u8; 12],
        sealed: Vec<[u8; 32]>,
        tag: [u8; 16],
    ) -> Manifest
        requires { IsManifest (record { raw_len = raw_len; names = names.items; nonce = nonce; sealed = sealed.items; tag = tag }) }
        ensures whole { IsManifest result }
        ensures fields { result ≡ record { raw_len = raw_len; names = names.items; nonce = nonce; sealed = sealed.items; tag = tag } }
    {
        Manifest {
            raw_len,
            names,
            nonce,
            sealed,
            tag,
        }
    }

    /// Bytes of the image.
    pub fn raw_len(&self) -> u64
        ensures value { result ≡ self.now.raw_len }
        ensures within { result ≤ 10737418240 }
    {
        self.raw_len
    }

    /// The names of the chunks, in the image's order.
    pub fn names(&self) -> &[Name]
        ensures names { result.now ≡ self.now.names }
        ensures whole { IsManifest self.now }
    {
        &self.names
    }

    /// The nonce under which the keys are sealed: the number of a root in 4 bytes, then a creation number in 8,
    /// both big-endian.
    pub fn nonce(&self) -> &[u8; 12]
        ensures { result.now ≡ self.now.nonce }
    {
        &self.nonce
    }

    /// The sealed keys, one for each name.
    pub fn sealed(&self) -> &[[u8; 32]]
        ensures sealed { result.now ≡ self.now.sealed }
        ensures whole { IsManifest self.now }
    {
        &self.sealed
    }

    /// The tag of the sealed keys.
    pub fn tag(&self) -> &[u8; 16]
        ensures { result.now ≡ self.now.tag }
    {
        &self.tag
    }

    /// The root that the nonce names.
    pub fn root(&self) -> u32
        ensures { result ≡ from_be_bytes w32 self.now.nonce }
    {
        BigEndian::read_u32(&self.nonce)
    }

    /// The creation number that the nonce names.
    pub fn number(&self) -> u64
        ensures { result ≡ from_be_bytes w64 (drop 4 self.now.nonce) }
    {
        BigEndian::read_u64(&self.nonce[4..])
    }
}
