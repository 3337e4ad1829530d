//! Sealing and opening (GCM).
ghost use Rattle.std.specs.Prelude.{◌≡◌, ◌≢◌, ◌≤◌, ◌^◌, ◌∷◌, ◌++◌, [], length, MatchResult};
ghost use Rattle.lr_aes.specs.Key.{encrypted};
ghost use Rattle.lr_aes.specs.Gcm.{gcm_text, gcm_tag};

use crate::ghash::ghash_of;
use crate::key::AesKey;

/// The tag isn't that of the text and its additional data under this key and nonce.
#[derive(Clone, Copy, Debug, PartialEq, Eq)]
pub struct BadTag;

// The nonce and a number of 32 bits.
fn counter_block(nonce: &[u8; 12], last: u8) -> [u8; 16]
    ensures { result ≡ nonce.now ++ (0 ∷ 0 ∷ 0 ∷ last ∷ []) }
{
    let mut block = [0u8; 16];
    block[..12].copy_from_slice(nonce);
    block[15] = last;
    block
}

// The tag of a cipher text.
fn tag_of(key: &AesKey, nonce: &[u8; 12], aad: &[u8], text: &[u8]) -> [u8; 16]
    requires aad { length aad.now ≤ 2 ^ 32 }
    requires text { length text.now ≤ 2 ^ 32 }
    ensures { result ≡ gcm_tag (encrypted key.now) nonce.now aad.now text.now }
{
    let mut hash_key = [0u8; 16];
    key.encrypt_block(&mut hash_key);
    let mut mask = counter_block(nonce, 1);
    key.encrypt_block(&mut mask);
    let sum = ghash_of(u128::from_be_bytes(hash_key), aad, text);
    (u128::from_be_bytes(mask) ^ sum).to_be_bytes()
}

// The plain text turned into the cipher text, and back.
fn turn_text(key: &AesKey, nonce: &[u8; 12], buffer: &mut [u8])
    requires { length buffer.old ≤ 2 ^ 32 }
    ensures { buffer.new ≡ gcm_text (encrypted key.now) nonce.now buffer.old }
{
    key.ctr_xor(&counter_block(nonce, 2), buffer)
}

impl AesKey {
    /// Seals the buffer in place and gives the tag of it and the additional data (SP 800-38D, section 7.1).
    ///
    /// A nonce may serve one buffer alone under each key. [`AesKey::gcm_open`] with this tag restores the buffer.
    pub fn gcm_seal(&self, nonce: &[u8; 12], aad: &[u8], buffer: &mut [u8]) -> [u8; 16]
        requires aad { length aad.now ≤ 2 ^ 32 }
        requires buffer { length buffer.old ≤ 2 ^ 32 }
        ensures text { buffer.new ≡ gcm_text (encrypted self.now) nonce.now buffer.old }
        ensures tag { result ≡ gcm_tag (encrypted self.now) nonce.now aad.now buffer.new }
        ensures restores { gcm_text (encrypted self.now) nonce.now buffer.new ≡ buffer.old }
    {
        turn_text(self, nonce, buffer);
        tag_of(self, nonce, aad, buffer)
    }

    /// Opens the buffer in place (SP 800-38D, section 7.2).
    ///
    /// `BadTag` comes exactly where the tag differs in any bit from that of the buffer and the additional data; the
    /// buffer then stays as it was, the cipher text.
    pub fn gcm_open(
        &self,
        nonce: &[u8; 12],
        aad: &[u8],
        buffer: &mut [u8],
        tag: &[u8; 16],
    ) -> Result<(), BadTag>
        requires aad { length aad.now ≤ 2 ^ 32 }
        requires buffer { length buffer.old ≤ 2 ^ 32 }
        ensures { MatchResult result
            (λ _. (tag.now ≡ gcm_tag (encrypted self.now) nonce.now aad.now buffer.old) × (buffer.new ≡ gcm_text (encrypted self.now) nonce.now buffer.old))
            (λ _. (tag.now ≢ gcm_tag (encrypted self.now) nonce.now aad.now buffer.old) × (buffer.new ≡ buffer.old)) }
    {
        let wanted = tag_of(self, nonce, aad, buffer);
        if *tag != wanted {
            return Err(BadTag);
        }
        turn_text(self, nonce, buffer);
        Ok(())
    }
}
