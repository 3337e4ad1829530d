//! Chunks, and nothing that takes memory.
ghost use Rattle.std.specs.Prelude.{◌≡◌, ◌≢◌, length, MatchResult};
ghost use Rattle.sha2.specs.Sha256.{sha256};
ghost use Rattle.lr_manifest.specs.Chunk.{is_named};

use crate::name::Name;
use sha2::{Digest, Sha256};
use std::marker::Model;

/// Bytes of a chunk.
pub const CHUNK: usize = 524_288;

/// 524,288 bytes under their name, which is their SHA-256 (FIPS 180-4).
///
/// A contract sees a chunk as its bytes.
#[derive(Drop)]
pub struct Chunk {
    name: Name,
    bytes: Vec<u8>,
}

impl Model for Chunk {
    ghost use Rattle.std.specs.Prelude.{◌≡◌, ℕ, List, length};
    ghost use Rattle.sha2.specs.Sha256.{sha256};

    ghost Value = { List ℕ };

    ghost view = { λ c. c.bytes.items };

    ghost invariant = { λ c. (length c.bytes.items ≡ 524288) × (c.name.bytes ≡ sha256 c.bytes.items) };
}

// The digest of bytes, as a name.
fn name_of(bytes: &[u8]) -> Name
    ensures { result.bytes ≡ sha256 bytes.now }
{
    Name {
        bytes: Sha256::digest(bytes),
    }
}

impl Chunk {
    /// The chunk of 524,288 bytes.
    pub fn of(bytes: Vec<u8>) -> Chunk
        requires { length bytes.items ≡ 524288 }
        ensures { result ≡ bytes.items }
    {
        let name = name_of(&bytes);
        Chunk { name, bytes }
    }

    /// The chunk of this name.
    ///
    /// The bytes come back exactly where they aren't 524,288 or their digest is another.
    pub fn check(name: &Name, bytes: Vec<u8>) -> Result<Chunk, Vec<u8>>
        ensures chunk { MatchResult result
            (λ c. (c ≡ bytes.items) × (length bytes.items ≡ 524288) × (sha256 bytes.items ≡ name.now.bytes))
            (λ back. (back ≡ bytes) × (length bytes.items ≡ 524288 → sha256 bytes.items ≢ name.now.bytes)) }
    {
        if bytes.len() != CHUNK {
            return Err(bytes);
        }
        let digest = name_of(&bytes);
        if digest.bytes != name.bytes {
            return Err(bytes);
        }
        Ok(Chunk {
            name: digest,
            bytes,
        })
    }

    /// The digest of the bytes.
    pub fn name(&self) -> &Name
        ensures { result.now.bytes ≡ sha256 self.now }
    {
        &self.name
    }

    /// The 524,288 bytes.
    pub fn bytes(&self) -> &[u8]
        ensures bytes { result.now ≡ self.now }
        ensures length { length result.now ≡ 524288 }
    {
        &self.bytes
    }

    /// Whether the chunk is the one of this name.
    pub fn has_name(&self, name: &Name) -> bool
        ensures { result ≡ is_named name.now self.now }
    {
        self.name.bytes == name.bytes
    }
}
