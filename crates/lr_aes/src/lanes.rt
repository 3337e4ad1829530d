//! S of 16 bytes at once. The bytes stand in another basis of the field; there S is read from tables of 16 entries, by
//! the two halves of a byte.
ghost use Rattle.std.specs.Prelude.{◌≡◌, ◌/◌, ◌%◌, map};
ghost use Rattle.std.specs.Simd.Lanes.{Each1};
ghost use Rattle.lr_field.specs.Field.{product};
ghost use Rattle.lr_aes.specs.Cipher.{sub_byte};
ghost use Rattle.lr_aes.specs.Lanes.{IsPlace, entry, standard, upper_place, lower_place, read_at};

use crate::tables::{
    BASIS_HIGH, BASIS_LOW, INVERSES, LAST_LOWER, LAST_UPPER, ONCE_LOWER, ONCE_UPPER, QUOTIENTS,
    TWICE_LOWER, TWICE_UPPER,
};
use std::simd::prelude::*;

// What S adds last: in the other basis, the same twice, and as a plain byte.
const ONCE_ADDED: u8 = 0x5b;

const TWICE_ADDED: u8 = 0x4e;

const LAST_ADDED: u8 = 0x63;

// The entry of a table at each place.
#[inline(always)]
fn entries(table: [u8; 16], places: u8x16) -> u8x16
    requires { Each1 IsPlace places }
    ensures { result ≡ map (entry table) places }
{
    u8x16::from_array(table).swizzle_dyn(places)
}

#[inline(always)]
fn low_halves(x: u8x16) -> u8x16
    ensures { result ≡ map (λ b. b % 16) x }
{
    x & u8x16::splat(15)
}

#[inline(always)]
fn high_halves(x: u8x16) -> u8x16
    ensures { result ≡ map (λ b. b / 16) x }
{
    x >> u8x16::splat(4)
}

/// Plain bytes, brought into the other basis.
#[inline(always)]
pub fn in_basis(x: u8x16) -> u8x16
    ensures { map standard result ≡ x }
{
    entries(BASIS_LOW, low_halves(x)) ^ entries(BASIS_HIGH, high_halves(x))
}

// The two places at which S of each lane is read.
#[derive(Clone, Copy)]
struct Places {
    upper: u8x16,
    lower: u8x16,
}

#[inline(always)]
fn places_of(y: u8x16) -> Places
    ensures upper { result.upper ≡ map upper_place y }
    ensures lower { result.lower ≡ map lower_place y }
{
    let low = low_halves(y);
    let high = high_halves(y);
    let sum = high ^ low;
    let quotient = entries(QUOTIENTS, low);
    let upper = entries(INVERSES, high) ^ quotient;
    let lower = entries(INVERSES, sum) ^ quotient;
    Places {
        upper: entries(INVERSES, upper) ^ sum,
        lower: entries(INVERSES, lower) ^ high,
    }
}

// What two tables have at the places of each lane, and what is added last.
#[inline(always)]
fn read(upper: [u8; 16], lower: [u8; 16], added: u8, y: u8x16) -> u8x16
    ensures { result ≡ map (read_at upper lower added) y }
{
    let places = places_of(y);
    entries(upper, places.upper) ^ entries(lower, places.lower) ^ u8x16::splat(added)
}

/// S of each lane.
#[inline(always)]
pub fn once(y: u8x16) -> u8x16
    ensures { map standard result ≡ map sub_byte (map standard y) }
{
    read(ONCE_UPPER, ONCE_LOWER, ONCE_ADDED, y)
}

/// S of each lane, times 2 in the field.
#[inline(always)]
pub fn twice(y: u8x16) -> u8x16
    ensures { map standard result ≡ map (λ b. product 2 (sub_byte b)) (map standard y) }
{
    read(TWICE_UPPER, TWICE_LOWER, TWICE_ADDED, y)
}

/// S of each lane, as a plain byte.
#[inline(always)]
pub fn plain(y: u8x16) -> u8x16
    ensures { result ≡ map sub_byte (map standard y) }
{
    read(LAST_UPPER, LAST_LOWER, LAST_ADDED, y)
}
