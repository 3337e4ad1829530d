//! Tests of words, arithmetic, formats and the outside: values of standards and of other programs, and what no clause says.
//!
//! Each module tests the crate of its name. `plain` has the ciphers in their standards' own words, which `aes` compares
//! with the fast ones.
#![tactic(auto)]

#[cfg(test)]
mod aes;
#[cfg(test)]
mod convergent;
#[cfg(test)]
mod field;
#[cfg(test)]
mod generator;
#[cfg(test)]
mod io;
#[cfg(test)]
mod layout;
#[cfg(test)]
mod manifest;
#[cfg(test)]
mod plain;
#[cfg(test)]
mod script;
#[cfg(test)]
mod script_limits;
#[cfg(test)]
mod seal;
#[cfg(test)]
mod stripe;
#[cfg(test)]
mod text;
