//! The key schedule: the words of the expanded key, one after another.
ghost use Rattle.std.specs.Prelude.{◌≡◌, ◌+◌, ◌-◌, ◌*◌, ◌/◌, ◌<◌, ◌≤◌, [], ◌∷◌, ◌++◌, length, take, replicate, slice_index};
ghost use Rattle.lr_aes.specs.Cipher.{next_word, scheduled, sub_byte};
ghost use Rattle.lr_aes.specs.Key.{expanded};

use crate::tables::SBOX;

// S of a byte.
fn sub(b: u8) -> u8
    ensures { result ≡ sub_byte b }
{
    SBOX[b as usize]
}

// The powers of 2 in the field.
const ROUND_CONSTANTS: [u8; 10] = [1, 2, 4, 8, 16, 32, 64, 128, 27, 54];

fn round_constant(n: usize) -> u8
    requires { n < 10 }
    ensures { result ≡ slice_index ROUND_CONSTANTS n }
{
    ROUND_CONSTANTS[n]
}

// What word `i` takes from the bytes of the word before it, where the key has `words` words.
fn scheduled(words: usize, i: usize, a: u8, b: u8, c: u8, d: u8) -> [u8; 4]
    requires some { 1 ≤ words }
    requires later { words ≤ i }
    requires few { i / words < 11 }
    ensures { result ≡ scheduled words i (a ∷ b ∷ c ∷ d ∷ []) }
{
    if i % words == 0 {
        let first = sub(b) ^ round_constant(i / words - 1);
        return [first, sub(c), sub(d), sub(a)];
    }
    if words != 8 {
        return [a, b, c, d];
    }
    if i % words == 4 {
        [sub(a), sub(b), sub(c), sub(d)]
    } else {
        [a, b, c, d]
    }
}

// Word `i`, from the words before it.
fn next_word(w: &[u8; 240], words: usize, i: usize) -> [u8; 4]
    requires some { 1 ≤ words }
    requires later { words ≤ i }
    requires few { i / words < 11 }
    requires fits { i < 60 }
    ensures { result ≡ next_word words w.now i }
{
    let p = 4 * (i - 1);
    let q = 4 * (i - words);
    let [a, b, c, d] = scheduled(words, i, w[p], w[p + 1], w[p + 2], w[p + 3]);
    [w[q] ^ a, w[q + 1] ^ b, w[q + 2] ^ c, w[q + 3] ^ d]
}

// The key, and zeros up to the longest expanded key.
fn with_zeros(key: &[u8]) -> [u8; 240]
    requires { length key.now ≤ 240 }
    ensures { result ≡ key.now ++ replicate (240 - length key.now) 0 }
{
    let mut w = [0u8; 240];
    w[..key.len()].copy_from_slice(key);
    w
}

/// The expanded key of a key of so many words, in front; zeros stand after it.
pub fn expand(key: &[u8], words: usize) -> [u8; 240]
    requires low { 4 ≤ words }
    requires high { words ≤ 8 }
    requires key { length key.now ≡ 4 * words }
    ensures words { take (16 * (words + 7)) result ≡ expanded key.now }
    ensures long { length result ≡ 240 }
{
    let mut w = with_zeros(key);
    for i in words..4 * (words + 7) {
        let [a, b, c, d] = next_word(&w, words, i);
        w[4 * i] = a;
        w[4 * i + 1] = b;
        w[4 * i + 2] = c;
        w[4 * i + 3] = d;
    }
    w
}
