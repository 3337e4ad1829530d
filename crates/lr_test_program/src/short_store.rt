//! A store that finds no memory at one of its calls.
ghost use Rattle.std.specs.Prelude.{◌≡◌, None};

use lr_origin::{Origin, OriginError, OriginFailed, Put};
use std::alloc::Global;

/// Passes each call to the store inside, but for one, counted from 1: that one finds no memory and has no effect. A deletion takes
/// no memory, so it is passed on always.
#[derive(Drop)]
pub(crate) struct ShortOrigin<O: Origin> {
    inner: O,
    left: u64,
}

impl<O: Origin> ShortOrigin<O> {
    /// A store over this one, which finds no memory at the call of this number, and at none for 0.
    pub(crate) fn new(inner: O, call: u64) -> Self {
        ShortOrigin { inner, left: call }
    }

    // Counts a call. Whether it is the one.
    fn is_short(&mut self) -> bool
        ensures { self.new.inner ≡ self.old.inner }
    {
        if self.left == 0 {
            return false;
        }
        self.left -= 1;
        self.left == 0
    }
}

impl<O: Origin> Origin for ShortOrigin<O> {
    ghost objects = { λ _. None };

    ghost faults = { λ s. O.faults s.inner };

    fn get(&mut self, alloc: Global, key: &[u8]) -> Result<Option<Vec<u8>>, OriginError> {
        if self.is_short() {
            return Err(OriginError::OutOfMemory);
        }
        self.inner.get(alloc, key)
    }

    fn put(&mut self, alloc: Global, key: &[u8], body: &[u8]) -> Result<Put, OriginError> {
        if self.is_short() {
            return Err(OriginError::OutOfMemory);
        }
        self.inner.put(alloc, key, body)
    }

    fn delete(&mut self, key: &[u8]) -> Result<(), OriginFailed> {
        let _ = self.is_short();
        self.inner.delete(key)
    }

    fn next_key(
        &mut self,
        alloc: Global,
        after: Option<&[u8]>,
    ) -> Result<Option<Vec<u8>>, OriginError> {
        if self.is_short() {
            return Err(OriginError::OutOfMemory);
        }
        self.inner.next_key(alloc, after)
    }
}
