//! Tests of the store: keys, stores that fail, what is known of them, and the depot's calls by hand.
//!
//! `sample` has keys and bodies, and `calls` the depot's calls in short, for the other modules. `depot`, `puts` and
//! `collection` test the depot; every other module tests the crate of its name.
#![tactic(auto)]

#[cfg(test)]
mod calls;
#[cfg(test)]
mod collection;
#[cfg(test)]
mod depot;
#[cfg(test)]
mod depotshare;
#[cfg(test)]
mod folder;
#[cfg(test)]
mod opening;
#[cfg(test)]
mod origin;
#[cfg(test)]
mod puts;
#[cfg(test)]
mod rootlines;
#[cfg(test)]
mod roots;
#[cfg(test)]
mod sample;
