//! Products and inverses, by tables that are the definition's by a test that the check computes.
ghost use Rattle.std.specs.Prelude.{◌≡◌, ◌≢◌, ◌<◌, slice_index};
ghost use Rattle.lr_field.specs.Field.{product, inverse};

use crate::tables::{EXPONENTIALS, INVERSES, LOGARITHMS};

// The exponent to which 3 is raised for `a`.
fn logarithm(a: u8) -> u8
    ensures { result ≡ slice_index LOGARITHMS a }
{
    LOGARITHMS[a as usize]
}

// The power `n` of 3.
fn exponential(n: usize) -> u8
    requires { n < 510 }
    ensures { result ≡ slice_index EXPONENTIALS n }
{
    EXPONENTIALS[n]
}

/// The product of two bytes in the field (FIPS 197, section 4.2).
#[tactic(auto, using(crate::proofs::FieldLaws::field_laws))]
pub fn mul(a: u8, b: u8) -> u8
    ensures { result ≡ product a b }
{
    if a == 0 {
        return 0;
    }
    if b == 0 {
        return 0;
    }
    exponential(logarithm(a) as usize + logarithm(b) as usize)
}

/// The inverse of a byte in the field, and 0 for 0.
pub fn inv(a: u8) -> u8
    ensures value { result ≡ inverse a }
    ensures one { a ≢ 0 → product a result ≡ 1 }
    ensures zero { a ≡ 0 → result ≡ 0 }
{
    INVERSES[a as usize]
}
