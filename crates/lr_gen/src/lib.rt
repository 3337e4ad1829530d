//! Bytes from a number: long contents that a script names in a few digits.
//!
//! `seed N` stands for the 32-bit output words of the generator PCG XSH RR 64/32 of state N and stream 2, in the order
//! in which it draws them, each as four bytes, the low byte first. `specs/Bytes` has it as a function of N and a place.
#![tactic(auto)]

ghost use Rattle.std.specs.Prelude.{◌≡◌, ◌+◌, ◌-◌, ◌*◌, ◌/◌, ◌%◌, ◌≤◌, ◌<◌, ℕ, length, slice_index, EachIndex};
ghost use Rattle.std.specs.Int.{w32, to_le_bytes};
ghost use Rattle.lr_gen.specs.Bytes.{started_at, seed_byte, after_words};

use rand_core::utils::NextWord;
use rand_pcg::Lcg64Xsh32;

// Bytes that the generator draws a word for.
const WORD_LEN: usize = 4;

// The whole words of the buffer, and the generator behind them.
fn fill_words(seed: u32, offset: u64, buffer: &mut [u8]) -> Lcg64Xsh32
    requires { offset % 4 ≡ 0 }
    ensures words { (k : ℕ) → k < 4 * (length buffer.old / 4) → slice_index buffer.new k ≡ seed_byte seed (offset + k) }
    ensures after { result ≡ after_words (offset / 4 + length buffer.old / 4) (started_at seed 2) }
{
    let mut words = Lcg64Xsh32::new(u64::from(seed), 2);
    words.advance(offset / 4);
    let count = buffer.len() / WORD_LEN;
    'words: for i in 0..count {
        let piece = words.next_word().to_le_bytes();
        buffer[4 * i] = piece[0];
        buffer[4 * i + 1] = piece[1];
        buffer[4 * i + 2] = piece[2];
        buffer[4 * i + 3] = piece[3];
    }
    words
}

// The front of a word behind the whole ones.
fn fill_rest(word: u32, from: usize, buffer: &mut [u8])
    requires behind { from ≤ length buffer.old }
    requires few { length buffer.old < from + 4 }
    ensures kept { (k : ℕ) → k < from → slice_index buffer.new k ≡ slice_index buffer.old k }
    ensures rest { (k : ℕ) → from ≤ k → k < length buffer.old → slice_index buffer.new k ≡ slice_index (to_le_bytes w32 word) (k - from) }
{
    let piece = word.to_le_bytes();
    for at in from..buffer.len() {
        buffer[at] = piece[at - from];
    }
}

/// Fills the buffer with the bytes of `seed NUMBER` from an offset on, which is a multiple of 4. It takes no memory.
pub fn fill(seed: u32, offset: u64, buffer: &mut [u8])
    requires { offset % 4 ≡ 0 }
    ensures { EachIndex buffer.new (λ k. slice_index buffer.new k ≡ seed_byte seed (offset + k)) }
{
    let mut words = fill_words(seed, offset, buffer);
    let from = buffer.len() / WORD_LEN * WORD_LEN;
    fill_rest(words.next_word(), from, buffer);
}
