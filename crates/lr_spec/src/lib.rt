//! Words that the contracts of every crate share: a count that rose, content that is told, and want of memory.
//!
//! The definitions stand in `specs/`. Nothing here may change without a look at every crate above.
#![tactic(auto)]

ghost use Rattle.std.specs.Prelude.{◌≡◌};

use std::alloc::{AllocError, AllocFailed};

/// Want of memory: the one answer that no clause ties to a cause.
///
/// The call that gives it says what it left behind.
#[derive(Clone, Copy, Debug, PartialEq, Eq)]
pub struct OutOfMemory;

impl From<AllocError> for OutOfMemory {
    fn from(_: AllocError) -> Self {
        OutOfMemory
    }
}

impl<T: Drop> From<AllocFailed<T>> for OutOfMemory {
    fn from(_: AllocFailed<T>) -> Self {
        OutOfMemory
    }
}
