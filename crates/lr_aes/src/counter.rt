//! Counter mode: the key stream is taken two blocks at a time, and added block by block.
ghost use Rattle.std.specs.Prelude.{◌≡◌, ◌+◌, ◌-◌, ◌*◌, ◌<◌, ◌≤◌, length};
ghost use Rattle.std.specs.Int.{w128, to_be_bytes};
ghost use Rattle.lr_aes.specs.Cipher.{cipher};
ghost use Rattle.lr_aes.specs.Counter.{IsCounterMode, counter_at};
ghost use Rattle.lr_aes.specs.Lanes.{HasKeys, IsAdded};

use crate::block::{Pair, encrypt_pair, lane_keys};
use std::simd::prelude::*;

// The block that the counter stands for.
#[inline(always)]
fn block_from(counter: u128) -> u8x16
    ensures { result ≡ to_be_bytes w128 counter }
{
    let low = (counter % (1 << 64)) as u64;
    let high = (counter >> 64) as u64;
    u64x2::from_array([low, high]).to_le_bytes().reverse()
}

// The counter blocks `2 * i` and `2 * i + 1` places after the first one.
#[inline(always)]
fn counters(first: &[u8; 16], i: usize) -> Pair
    ensures first { result.first ≡ counter_at first.now (2 * i) }
    ensures second { result.second ≡ counter_at first.now (2 * i + 1) }
{
    let start = u128::from_be_bytes(*first);
    let counter = start.wrapping_add(2 * i as u128);
    Pair {
        first: block_from(counter),
        second: block_from(counter.wrapping_add(1)),
    }
}

// Adds a block of the key stream to the 16 bytes from `at` on, or to those that are there.
#[inline(always)]
fn add_block(buffer: &mut [u8], at: usize, block: u8x16)
    ensures { IsAdded at block buffer.old buffer.new }
{
    if at < buffer.len() && 16 <= buffer.len() - at {
        let sum = u8x16::from_slice(&buffer[at..]) ^ block;
        sum.copy_to_slice(&mut buffer[at..]);
        return;
    }
    add_front(buffer, at, &block.to_array());
}

// The same where fewer bytes are there.
fn add_front(buffer: &mut [u8], at: usize, block: &[u8; 16])
    requires { length buffer.old < at + 16 }
    ensures { IsAdded at block.now buffer.old buffer.new }
{
    for i in at..buffer.len() {
        buffer[i] = buffer[i] ^ block[i - at];
    }
}

/// Counter mode, in place.
pub fn ctr_in_place(keys: &[u8; 240], rounds: usize, first: &[u8; 16], buffer: &mut [u8])
    requires low { 1 ≤ rounds }
    requires high { rounds < 15 }
    ensures { IsCounterMode (cipher (rounds - 1) keys.now) first.now buffer.old buffer.new }
{
    let lanes = lane_keys(keys);
    for i in 0..(buffer.len() + 31) / 32 {
        let blocks = counters(first, i);
        let stream = encrypt_pair(keys, &lanes, rounds, blocks.first, blocks.second);
        add_block(buffer, 32 * i, stream.first);
        add_block(buffer, 32 * i + 16, stream.second);
    }
}
