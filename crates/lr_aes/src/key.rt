//! A key with its round keys. Contracts see its own bytes alone.
ghost use Rattle.std.specs.Prelude.{◌≡◌};
ghost use Rattle.lr_aes.specs.Key.{encrypted};
ghost use Rattle.lr_aes.specs.Counter.{counter_mode};

use crate::block::encrypt_in_place;
use crate::counter::ctr_in_place;
use crate::schedule::expand;
use std::marker::Model;

/// A key of AES-128 or AES-256, with its round keys.
#[derive(Drop)]
pub struct AesKey {
    keys: [u8; 240],
    words: usize,
}

// The key's own bytes, which stand in front of the round keys.
impl Model for AesKey {
    ghost use Rattle.std.specs.Prelude.{◌*◌, ℕ, List, take};
    ghost use Rattle.lr_aes.specs.Key.{IsExpanded};

    ghost Value = { List ℕ };

    ghost view = { λ k. take (4 * k.words) k.keys };

    ghost invariant = { λ k. IsExpanded k.words k.keys };
}

impl AesKey {
    /// A key of 128 bits, for 10 rounds (FIPS 197, section 5.2).
    pub fn new128(key: &[u8; 16]) -> AesKey
        ensures { result ≡ key.now }
    {
        AesKey {
            keys: expand(key, 4),
            words: 4,
        }
    }

    /// A key of 256 bits, for 14 rounds (FIPS 197, section 5.2).
    pub fn new256(key: &[u8; 32]) -> AesKey
        ensures { result ≡ key.now }
    {
        AesKey {
            keys: expand(key, 8),
            words: 8,
        }
    }

    /// Enciphers a block in place (FIPS 197, section 5.1).
    pub fn encrypt_block(&self, block: &mut [u8; 16])
        ensures { block.new ≡ encrypted self.now block.old }
    {
        encrypt_in_place(&self.keys, self.words + 6, block)
    }

    /// Counter mode in place, from the counter `first` on (SP 800-38A, section 6.5).
    ///
    /// The counter is all 128 bits, big-endian, modulo 2^128. The same call once more restores the buffer.
    pub fn ctr_xor(&self, first: &[u8; 16], buffer: &mut [u8])
        ensures text { buffer.new ≡ counter_mode (encrypted self.now) first.now buffer.old }
        ensures twice { counter_mode (encrypted self.now) first.now buffer.new ≡ buffer.old }
    {
        ctr_in_place(&self.keys, self.words + 6, first, buffer)
    }
}
