//! Sums of products, 16 bytes at a time, and byte by byte where fewer are left.
ghost use Rattle.std.specs.Prelude.{◌≡◌, ◌<◌, ◌≤◌, ◌*◌, ◌/◌, ℕ, List, length, slice_index, bit_xor};
ghost use Rattle.lr_field.specs.Field.{product};
ghost use Rattle.lr_field.specs.Polynomial.{weighted};
ghost use Rattle.lr_stripe.specs.Code.{column};
ghost use Rattle.lr_stripe.specs.Lanes.{IsSummed};

use crate::lanes::{add_lanes, products_of, times};
use lr_field::mul;
use std::simd::prelude::*;

// Bytes of a group.
const GROUP: usize = 16;

// Adds the bytes of the part, in whole groups.
fn add_groups(part: &[u8], out: &mut [u8])
    requires { length part.now ≡ length out.old }
    ensures { IsSummed (λ b. b) part.now out.old (16 * (length out.old / 16)) out.new }
{
    for group in 0..out.len() / GROUP {
        let at = GROUP * group;
        let bytes = u8x16::from_slice(&part[at..]);
        add_lanes(bytes, at, out);
    }
}

// Adds the products of a weight with the bytes of the part, in whole groups.
fn add_product_groups(weight: u8, part: &[u8], out: &mut [u8])
    requires { length part.now ≡ length out.old }
    ensures { IsSummed (product weight) part.now out.old (16 * (length out.old / 16)) out.new }
{
    let products = products_of(weight);
    for group in 0..out.len() / GROUP {
        let at = GROUP * group;
        let bytes = u8x16::from_slice(&part[at..]);
        add_lanes(times(&products, bytes), at, out);
    }
}

// Adds the bytes of the part from a place on.
fn add_rest(from: usize, part: &[u8], out: &mut [u8])
    requires { length part.now ≡ length out.old }
    ensures { (old : List ℕ) → IsSummed (λ b. b) part.now old from out.old → IsSummed (λ b. b) part.now old (length old) out.new }
{
    for t in from..out.len() {
        out[t] ^= part[t];
    }
}

// Adds the products of a weight with the bytes of the part from a place on.
fn add_product_rest(weight: u8, from: usize, part: &[u8], out: &mut [u8])
    requires { length part.now ≡ length out.old }
    ensures { (old : List ℕ) → IsSummed (product weight) part.now old from out.old → IsSummed (product weight) part.now old (length old) out.new }
{
    for t in from..out.len() {
        out[t] ^= mul(weight, part[t]);
    }
}

// Adds the products of a weight with the bytes of a part. By 0 and 1 nothing is multiplied.
fn add_part(weight: u8, part: &[u8], out: &mut [u8])
    requires { length part.now ≡ length out.old }
    ensures { (t : ℕ) → t < length out.new → slice_index out.new t ≡ bit_xor (slice_index out.old t) (product weight (slice_index part.now t)) }
{
    let whole = GROUP * (out.len() / GROUP);
    match weight {
        0 => {}
        1 => {
            add_groups(part, out);
            add_rest(whole, part, out);
        }
        _ => {
            add_product_groups(weight, part, out);
            add_product_rest(weight, whole, part, out);
        }
    }
}

// At each place the sum of the products of the weights with the bytes of their parts, which lie one after another.
pub(crate) fn mix(weights: &[u8], parts: &[u8], out: &mut [u8])
    requires { length parts.now ≡ length weights.now * length out.old }
    ensures { (t : ℕ) → t < length out.new → slice_index out.new t ≡ weighted weights.now (column (length weights.now) (length out.new) t parts.now) }
{
    let len = out.len();
    out.fill(0);
    for i in 0..weights.len() {
        add_part(weights[i], &parts[len * i..len * i + len], out);
    }
}
