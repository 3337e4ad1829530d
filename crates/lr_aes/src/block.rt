//! The block cipher, a state in 16 lanes and two states side by side.
ghost use Rattle.std.specs.Prelude.{◌≡◌, ◌-◌, ◌<◌, ◌≤◌, ℕ, List, map};
ghost use Rattle.lr_field.specs.Field.{product};
ghost use Rattle.lr_aes.specs.Cipher.{shift_rows, mix_columns, round, last_round, cipher};
ghost use Rattle.lr_aes.specs.Lanes.{standard, up, key_of, HasKeys};

use crate::lanes::{in_basis, once, plain, twice};
use std::simd::prelude::*;

// ShiftRows: row r turned left by r places.
#[inline(always)]
fn rows(x: u8x16) -> u8x16
    ensures { result ≡ shift_rows x }
{
    x.swizzle::<16>([0, 5, 10, 15, 4, 9, 14, 3, 8, 13, 2, 7, 12, 1, 6, 11])
}

// Each column turned up by a byte.
#[inline(always)]
fn up_1(x: u8x16) -> u8x16
    ensures { result ≡ up 1 x }
{
    x.swizzle::<16>([1, 2, 3, 0, 5, 6, 7, 4, 9, 10, 11, 8, 13, 14, 15, 12])
}

// Each column turned up by two bytes.
#[inline(always)]
fn up_2(x: u8x16) -> u8x16
    ensures { result ≡ up 2 x }
{
    x.swizzle::<16>([2, 3, 0, 1, 6, 7, 4, 5, 10, 11, 8, 9, 14, 15, 12, 13])
}

// MixColumns, from the state and twice the state.
#[inline(always)]
fn mixed(single: u8x16, double: u8x16) -> u8x16
    ensures { (s : List ℕ) → map standard single ≡ s → map standard double ≡ map (product 2) s
        → map standard result ≡ mix_columns s }
{
    let half = up_2(single);
    up_1(single ^ double ^ half) ^ double ^ half
}

// A round, with its key.
#[inline(always)]
fn whole_round(y: u8x16, key: u8x16) -> u8x16
    ensures { (w : List ℕ) (n : ℕ) → map standard key ≡ key_of w n
        → map standard result ≡ round w n (map standard y) }
{
    let x = rows(y);
    mixed(once(x), twice(x)) ^ key
}

// The last round, with its key as plain bytes.
#[inline(always)]
fn final_round(y: u8x16, key: u8x16) -> u8x16
    ensures { (w : List ℕ) (n : ℕ) → key ≡ key_of w n → result ≡ last_round w n (map standard y) }
{
    plain(rows(y)) ^ key
}

// Round key `n` as plain bytes.
#[inline(always)]
fn plain_key(keys: &[u8; 240], n: usize) -> u8x16
    requires { n < 15 }
    ensures { result ≡ key_of keys.now n }
{
    u8x16::from_slice(&keys[16 * n..])
}

/// The round keys of the expanded key, in lanes.
pub fn lane_keys(keys: &[u8; 240]) -> [u8x16; 15]
    ensures { HasKeys result keys.now }
{
    let mut lanes = [u8x16::splat(0); 15];
    for n in 0..15usize {
        lanes[n] = in_basis(plain_key(keys, n));
    }
    lanes
}

/// Two blocks.
#[derive(Clone, Copy)]
pub struct Pair {
    pub first: u8x16,
    pub second: u8x16,
}

/// The cipher of so many rounds on two blocks, under an expanded key and its round keys in lanes.
#[inline(always)]
pub fn encrypt_pair(
    keys: &[u8; 240],
    lanes: &[u8x16; 15],
    rounds: usize,
    first: u8x16,
    second: u8x16,
) -> Pair
    requires low { 1 ≤ rounds }
    requires high { rounds < 15 }
    requires lanes { HasKeys lanes.now keys.now }
    ensures first { result.first ≡ cipher (rounds - 1) keys.now first }
    ensures second { result.second ≡ cipher (rounds - 1) keys.now second }
{
    let mut left = in_basis(first) ^ lanes[0];
    let mut right = in_basis(second) ^ lanes[0];
    for n in 1..rounds {
        let next_left = whole_round(left, lanes[n]);
        let next_right = whole_round(right, lanes[n]);
        left = next_left;
        right = next_right;
    }
    let key = plain_key(keys, rounds);
    Pair {
        first: final_round(left, key),
        second: final_round(right, key),
    }
}

/// The cipher of so many rounds, in place, under an expanded key.
pub fn encrypt_in_place(keys: &[u8; 240], rounds: usize, block: &mut [u8; 16])
    requires low { 1 ≤ rounds }
    requires high { rounds < 15 }
    ensures { block.new ≡ cipher (rounds - 1) keys.now block.old }
{
    let state = u8x16::from_array(*block);
    let pair = encrypt_pair(keys, &lane_keys(keys), rounds, state, state);
    *block = pair.first.to_array();
}
