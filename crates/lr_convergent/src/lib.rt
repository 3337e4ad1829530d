//! Sealed chunks: a chunk is encrypted under a key that is the digest of a salt and its own plaintext.
//!
//! Equal plaintexts under one salt are one chunk, and under another salt another one. The name of a chunk is the
//! SHA-256 (FIPS 180-4) of its ciphertext. `range` decrypts a part of a chunk, and `piece` holds a chunk with its key, from
//! which its plaintext is read.
#![tactic(auto)]

ghost use Rattle.std.specs.Prelude.{◌≡◌, ◌≤◌, ◌++◌, ℕ, List, length, IfOk};
ghost use Rattle.sha2.specs.Sha256.{sha256};
ghost use Rattle.lr_convergent.specs.Sealed.{filled, chunk_text, sealed_key, sealed_bytes, sealed_name, sealed};

use lr_aes::AesKey;
use lr_manifest::{CHUNK, Chunk, ChunkKey};
use lr_spec::OutOfMemory;
use sha2::{Digest, Sha256};
use std::alloc::Global;

mod laws;
mod piece;
mod range;

pub use laws::{ranges_stand_alone, sealed_pieces_open};
pub use piece::{KeptPiece, Piece};

// The plaintext, and zeros to a whole chunk.
fn fill(alloc: Global, plain: &[u8]) -> Result<Vec<u8>, OutOfMemory>
    requires { length plain.now ≤ 524288 }
    ensures { IfOk result (λ v. (v.items ≡ filled 524288 plain.now) × (length v.items ≡ 524288)) }
{
    let mut buffer = Vec::with_capacity(alloc, CHUNK)?;
    buffer.extend_from_slice(plain)?;
    buffer.resize(CHUNK, 0u8)?;
    Ok(buffer)
}

// The digest of two pieces, which are not joined.
fn digest_of(salt: &[u8; 32], text: &[u8]) -> [u8; 32]
    ensures { result ≡ sha256 (salt.now ++ text.now) }
{
    let mut hasher = Sha256::new();
    hasher.update(salt.as_slice());
    hasher.update(text);
    hasher.finalize()
}

// A chunk's bytes under a key, and back.
fn turn(key: &[u8; 32], buffer: &mut [u8])
    ensures { buffer.new ≡ chunk_text key.now buffer.old }
{
    AesKey::new256(key).ctr_xor(&[0u8; 16], buffer)
}

/// Seals a plaintext of at most 524,288 bytes: the chunk of it, filled with zeros, and the chunk's key.
///
/// The one buffer of a chunk's size that it takes is the chunk's own.
pub fn seal_chunk(
    alloc: Global,
    salt: &[u8; 32],
    plain: &[u8],
) -> Result<(Chunk, ChunkKey), OutOfMemory>
    requires { length plain.now ≤ 524288 }
    ensures sealed { IfOk result (λ r. (r.1.bytes, r.0, sha256 r.0) ≡ sealed salt.now plain.now) }
{
    let mut buffer = fill(alloc, plain)?;
    let key = ChunkKey {
        bytes: digest_of(salt, &buffer),
    };
    turn(&key.bytes, &mut buffer);
    Ok((Chunk::of(buffer), key))
}

/// Decrypts a chunk under a key, into a buffer of 524,288 bytes.
pub fn decrypt_into(chunk: &Chunk, key: &ChunkKey, buffer: &mut [u8])
    requires { length buffer.old ≡ 524288 }
    ensures text { buffer.new ≡ chunk_text key.now.bytes chunk.now }
    // What was sealed comes back, filled.
    ensures restores { (salt plain : List ℕ) → chunk.now ≡ sealed_bytes salt plain → key.now.bytes ≡ sealed_key salt plain → buffer.new ≡ filled 524288 plain }
{
    buffer.copy_from_slice(chunk.bytes());
    turn(&key.bytes, buffer);
}
