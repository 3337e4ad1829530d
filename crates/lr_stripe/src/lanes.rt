//! Products of 16 bytes at once by one weight. They are read from two tables of 16 entries, by the two halves of a byte,
//! since a product is the sum of those of the halves.
ghost use Rattle.std.specs.Prelude.{◌≡◌, ◌<◌, ◌≤◌, ◌/◌, ◌%◌, ◌+◌, ℕ, map, length};
ghost use Rattle.std.specs.Simd.Lanes.{Each1};
ghost use Rattle.lr_field.specs.Field.{product};
ghost use Rattle.lr_stripe.specs.Lanes.{IsPlace, entry, HaveProducts, IsAdded};

use lr_field::mul;
use std::simd::prelude::*;

/// The products of a weight with the numbers below 16, and with 16 times these.
#[derive(Clone, Copy)]
pub(crate) struct Products {
    low: [u8; 16],
    high: [u8; 16],
}

/// The products of a weight.
pub(crate) fn products_of(weight: u8) -> Products
    ensures { HaveProducts weight result.low result.high }
{
    let mut low = [0u8; 16];
    let mut high = [0u8; 16];
    for half in 0..16u8 {
        low[half as usize] = mul(weight, half);
        high[half as usize] = mul(weight, 16 * half);
    }
    Products { low, high }
}

// The entry of a table at each place.
#[inline(always)]
fn entries(table: [u8; 16], places: u8x16) -> u8x16
    requires { Each1 IsPlace places }
    ensures { result ≡ map (entry table) places }
{
    u8x16::from_array(table).swizzle_dyn(places)
}

#[inline(always)]
fn low_halves(x: u8x16) -> u8x16
    ensures { result ≡ map (λ b. b % 16) x }
{
    x & u8x16::splat(15)
}

#[inline(always)]
fn high_halves(x: u8x16) -> u8x16
    ensures { result ≡ map (λ b. b / 16) x }
{
    x >> u8x16::splat(4)
}

/// The product of the weight with each lane.
#[inline(always)]
pub(crate) fn times(products: &Products, x: u8x16) -> u8x16
    ensures { (weight : ℕ) → HaveProducts weight products.now.low products.now.high → result ≡ map (product weight) x }
{
    entries(products.low, low_halves(x)) ^ entries(products.high, high_halves(x))
}

/// Adds the lanes to the 16 bytes from `at` on.
#[inline(always)]
pub(crate) fn add_lanes(lanes: u8x16, at: usize, out: &mut [u8])
    requires { at + 16 ≤ length out.old }
    ensures { IsAdded at lanes out.old out.new }
{
    let sum = u8x16::from_slice(&out[at..]) ^ lanes;
    sum.copy_to_slice(&mut out[at..]);
}
