//! Stripes: a chunk as N parts of which any K give it back.
//!
//! The code is that of Reed and Solomon over the field of 256 elements. Byte t of the K data stripes, which are the
//! chunk's K parts of equal length, are the values at the points 0 to K-1 of one polynomial with K coefficients;
//! stripe j has its value at the point j. `code` encodes and rebuilds for every K and N, `mix` has the sums of
//! products that both are made of, `lanes` the products of 16 bytes at once, `stripe` a stripe of the product's code of
//! 4 of 5 with its digest.
#![tactic(auto)]

mod code;
mod lanes;
mod laws;
mod mix;
mod stripe;

pub use code::Code;
pub use laws::{a_chunk_has_one_stripe, stripes_are_a_codeword, stripes_are_of_one_chunk};
pub use stripe::{STRIPE, Stripe, StripeBytes};
