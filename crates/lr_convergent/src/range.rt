//! Decrypting a part of a chunk.
ghost use Rattle.std.specs.Prelude.{◌≡◌, ◌+◌, ◌*◌, ◌≤◌, length, take, drop};
ghost use Rattle.lr_convergent.specs.Sealed.{chunk_text};

use lr_aes::AesKey;
use lr_manifest::Chunk;

/// Decrypts as many bytes of a chunk as the buffer has, from a block of 16 bytes on.
pub(crate) fn decrypt_range(chunk: &Chunk, key: &AesKey, block: usize, into: &mut [u8])
    requires { 16 * block + length into.old ≤ 524288 }
    ensures { into.new ≡ take (length into.old) (drop (16 * block) (chunk_text key.now chunk.now)) }
{
    let from = 16 * block;
    let end = from + into.len();
    into.copy_from_slice(&chunk.bytes()[from..end]);
    key.ctr_xor(&(block as u128).to_be_bytes(), into)
}
