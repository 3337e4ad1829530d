//! The field of 256 elements, and interpolation over it.
//!
//! A byte stands for a polynomial over GF(2) of degree below 8; products are taken modulo
//! x^8 + x^4 + x^3 + x + 1 (FIPS 197, section 4), and the sum of two bytes is their exclusive or. A
//! polynomial over the field is given by its coefficients, the constant one first. Nothing here takes memory.
#![tactic(auto)]

mod arithmetic;
mod interpolation;
mod laws;
mod tables;

pub use arithmetic::{inv, mul};
pub use interpolation::weights;
pub use laws::{any_values_are_on_polynomial, bytes_are_a_field, values_fix_polynomial};
