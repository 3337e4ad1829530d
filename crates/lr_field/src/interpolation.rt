//! The weights by which a polynomial's values at some points give its value at another one.
ghost use Rattle.std.specs.Prelude.{◌≡◌, length, bit_xor};
ghost use Rattle.lr_field.specs.Field.{inverse};
ghost use Rattle.lr_field.specs.Polynomial.{GivesValue, IsDistinct};
ghost use Rattle.lr_field.specs.Weights.{scaled, xor_sum};

use crate::arithmetic::{inv, mul};

// Takes the weights of some points over to one point more, `p`, and gives the weight of that point.
fn scale(weights: &mut [u8], points: &[u8], at: u8, p: u8) -> u8
    requires { length weights.old ≡ length points.now }
    ensures weights { weights.new ≡ scaled inverse at p points.now weights.old }
    ensures last { result ≡ bit_xor 1 (xor_sum weights.new) }
{
    let m = at ^ p;
    let mut last = 1;
    for i in 0..weights.len() {
        let w = mul(weights[i], mul(m, inv(points[i] ^ p)));
        weights[i] = w;
        last = last ^ w;
    }
    last
}

// The weights of the points, one point after another.
fn fill_weights(weights: &mut [u8], points: &[u8], at: u8)
    requires length { length weights.old ≡ length points.now }
    requires distinct { IsDistinct points.now }
    ensures { GivesValue weights.new points.now at }
{
    for k in 0..points.len() {
        let last = scale(&mut weights[..k], &points[..k], at, points[k]);
        weights[k] = last;
    }
}

/// The weights by which the values at `K` distinct points give the value at the point `at`, for every
/// polynomial with `K` coefficients: the value is the sum of the products of weights and values.
pub fn weights<const K: usize>(points: &[u8; K], at: u8) -> [u8; K]
    requires { IsDistinct points.now }
    ensures { GivesValue result points.now at }
{
    let mut w = [0u8; K];
    fill_weights(&mut w, points, at);
    w
}
