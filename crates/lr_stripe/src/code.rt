//! The code for every K and N.
ghost use Rattle.std.specs.Prelude.{◌≡◌, ◌<◌, ◌≤◌, ◌*◌, ◌+◌, ◌/◌, ◌%◌, ℕ, List, All, IfSome, length, slice_index};
ghost use Rattle.lr_field.specs.Polynomial.{IsDistinct};
ghost use Rattle.lr_stripe.specs.Code.{points, part_of, IsStripe, AreStripes};

use crate::mix::mix;
use lr_field::weights;

/// A code of `N` stripes of which any `K` give the chunk back, for 1 ≤ K < N ≤ 32.
pub struct Code<const K: usize, const N: usize> {}

// The points 0 to K-1.
fn first_points<const K: usize>() -> [u8; K]
    requires { K ≤ 32 }
    ensures { result ≡ points K }
{
    let mut all = [0u8; K];
    for i in 0..K {
        all[i] = i as u8;
    }
    all
}

// Copies part i of so many parts, which lie one after another.
fn copy_part(parts: &[u8], count: usize, i: usize, out: &mut [u8])
    requires part { i < count }
    requires parts { length parts.now ≡ count * length out.old }
    ensures { out.new ≡ part_of (length out.new) i parts.now }
{
    let len = out.len();
    out.copy_from_slice(&parts[len * i..len * i + len]);
}

// The place of an index.
fn place_of(indices: &[u8], j: u8) -> Option<usize>
    ensures within { IfSome result (λ i. i < length indices.now) }
    ensures there { IfSome result (λ i. slice_index indices.now i ≡ j) }
{
    indices.iter().position(|&index| index == j)
}

// Part j of the chunk whose stripes of these indices are given: it is stripe j, where this one is among them.
fn rebuild_part<const K: usize>(indices: &[u8; K], j: u8, stripes: &[u8], out: &mut [u8])
    requires distinct { IsDistinct indices.now }
    requires index { j < K }
    requires parts { length stripes.now ≡ K * length out.old }
    ensures { (chunk : List ℕ) → AreStripes K (length out.new) chunk indices.now stripes.now → (t : ℕ) → t < length out.new → slice_index out.new t ≡ slice_index chunk (length out.new * j + t) }
{
    if let Some(i) = place_of(indices.as_slice(), j) {
        copy_part(stripes, K, i, out);
        return;
    }
    let w = weights::<K>(indices, j);
    mix(w.as_slice(), stripes, out);
}

impl<const K: usize, const N: usize> Code<K, N> {
    /// Writes stripe `j` of a chunk of `K` parts, each as long as `out`. It takes no memory. The first `K` stripes are
    /// the parts, which are copied.
    pub fn encode(chunk: &[u8], j: u8, out: &mut [u8])
        requires some { 0 < K }
        requires fewer { K < N }
        requires limit { N ≤ 32 }
        requires index { j < N }
        requires parts { length chunk.now ≡ K * length out.old }
        ensures { IsStripe K chunk.now j out.new }
    {
        if (j as usize) < K {
            copy_part(chunk, K, j as usize, out);
            return;
        }
        let w = weights::<K>(&first_points::<K>(), j);
        mix(w.as_slice(), chunk, out);
    }

    /// Writes the chunk whose stripes of these `K` indices are given, joined in the order of the indices. It takes no
    /// memory. A part whose stripe is given is copied.
    pub fn rebuild(indices: &[u8; K], stripes: &[u8], out: &mut [u8])
        requires some { 0 < K }
        requires fewer { K < N }
        requires limit { N ≤ 32 }
        requires indices { All (λ i. i < N) indices.now }
        requires distinct { IsDistinct indices.now }
        requires parts { length stripes.now % K ≡ 0 }
        requires length { length stripes.now ≡ length out.old }
        ensures { (chunk : List ℕ) → AreStripes K (length stripes.now / K) chunk indices.now stripes.now → out.new ≡ chunk }
    {
        let len = stripes.len() / K;
        for j in 0..K {
            rebuild_part::<K>(indices, j as u8, stripes, &mut out[len * j..len * j + len]);
        }
    }
}
