//! A store that stops after some calls.
ghost use Rattle.std.specs.Prelude.{◌≡◌, ◌+◌, ◌≤◌, ◌<◌, ℕ, Result, Err, IfOk, IsErrOf, IsErr, OnErr, MatchBool, min};
ghost use Rattle.std.specs.FinMap as map;
ghost use Rattle.lr_spec.specs.Rose.{Rose, last_count};
ghost use Rattle.lr_spec.specs.Told.{Told};
ghost use Rattle.lr_origin.specs.Objects.{Puts, Deletes, IsNext, found, pointed};
ghost use Rattle.lr_origin.specs.Fuse.{Passes, FailsReading, FailsChange, fuse_faults};
ghost use Rattle.lr_origin.specs.declared.origin.Put.{Put as PutAnswer};
ghost use Rattle.lr_origin.specs.declared.origin.OriginError.{OriginError as PutError};
ghost use Rattle.lr_origin.specs.declared.origin.OriginFailed.{OriginFailed as DeleteError};

use crate::{Origin, OriginError, OriginFailed, Put};
use std::alloc::Global;
use std::marker::Model;

/// Passes some calls to the store inside and then fails each.
///
/// Of the puts and deletions that it fails itself, the first has its effect where `done` holds, unless the store
/// inside fails it or finds no memory for it. No later one has.
#[derive(Drop)]
pub struct FuseOrigin<O: Origin> {
    inner: O,
    calls: u64,
    done: bool,
    own: u64,
}

impl<O: Origin> Model for FuseOrigin<O> {
    ghost use Rattle.lr_origin.specs.Fuse.{Fuse};

    ghost Value = { Fuse O };

    ghost view = { λ f. record { inner = f.inner; calls = f.calls; done = f.done; own = f.own } };
}

impl<O: Origin> FuseOrigin<O> {
    pub fn new(inner: O, calls: u64, done: bool) -> Self
        ensures { result ≡ record { inner = inner; calls = calls; done = done; own = 0 } }
    {
        FuseOrigin {
            inner,
            calls,
            done,
            own: 0,
        }
    }

    pub fn into_inner(self) -> O
        ensures { result ≡ self.inner }
    {
        let FuseOrigin {
            inner,
            calls: _,
            done: _,
            own: _,
        } = self;
        inner
    }

    // Whether it passes this call.
    fn passes(&mut self) -> bool
        ensures calls { MatchBool result (self.new.calls + 1 ≡ self.old.calls) ((self.old.calls ≡ 0) × (self.new.calls ≡ 0)) }
        ensures rest { (self.new.inner ≡ self.old.inner) × (self.new.done ≡ self.old.done) × (self.new.own ≡ self.old.own) }
    {
        if self.calls == 0 {
            return false;
        }
        self.calls -= 1;
        true
    }

    // Counts a call that it fails.
    fn count(&mut self)
        ensures own { min (self.old.own + 1) last_count ≤ self.new.own }
        ensures rest { (self.new.inner ≡ self.old.inner) × (self.new.done ≡ self.old.done) × (self.new.calls ≡ self.old.calls) }
    {
        self.own = self.own.saturating_add(1);
    }
}

impl<O: Origin> Origin for FuseOrigin<O> {
    ghost objects = { λ f. O.objects f.inner };

    ghost faults = { fuse_faults O.faults };

    fn get(&mut self, alloc: Global, key: &[u8]) -> Result<Option<Vec<u8>>, OriginError>
        ensures body { IfOk result (λ body. Told (O.objects self.old.inner) (λ m. found body ≡ map.get m key.now)) }
        ensures same { O.objects self.new.inner ≡ O.objects self.old.inner }
        ensures never_falls { fuse_faults O.faults self.old ≤ fuse_faults O.faults self.new }
        ensures cause { IsErrOf result OriginError.Failed → Rose (fuse_faults O.faults self.old) (fuse_faults O.faults self.new) }
        ensures passes { 0 < self.old.calls → Passes self.old self.new }
        ensures inner { 0 < self.old.calls → IsErrOf result OriginError.Failed → Rose (O.faults self.old.inner) (O.faults self.new.inner) }
        ensures fails { self.old.calls ≡ 0 → (result ≡ Err OriginError.Failed) × FailsReading self.old self.new }
    {
        if self.passes() {
            return self.inner.get(alloc, key);
        }
        self.count();
        Err(OriginError::Failed)
    }

    fn put(&mut self, alloc: Global, key: &[u8], body: &[u8]) -> Result<Put, OriginError>
        ensures change { Told (O.objects self.old.inner) (λ m. Puts key.now body.now result m (O.objects self.new.inner)) }
        ensures never_falls { fuse_faults O.faults self.old ≤ fuse_faults O.faults self.new }
        ensures cause { IsErrOf result OriginError.Failed → Rose (fuse_faults O.faults self.old) (fuse_faults O.faults self.new) }
        ensures passes { 0 < self.old.calls → Passes self.old self.new }
        ensures inner { 0 < self.old.calls → IsErrOf result OriginError.Failed → Rose (O.faults self.old.inner) (O.faults self.new.inner) }
        ensures fails { self.old.calls ≡ 0 → (result ≡ Err OriginError.Failed) × FailsChange (λ a b. (r : Result PutAnswer PutError) × Told (O.objects a) (λ m. Puts key.now body.now r m (O.objects b)) × (IsErrOf r OriginError.Failed → Rose (O.faults a) (O.faults b))) self.old self.new }
    {
        if self.passes() {
            return self.inner.put(alloc, key, body);
        }
        self.count();
        if !self.done {
            return Err(OriginError::Failed);
        }
        self.done = false;
        let _ = self.inner.put(alloc, key, body);
        Err(OriginError::Failed)
    }

    fn delete(&mut self, key: &[u8]) -> Result<(), OriginFailed>
        ensures change { Told (O.objects self.old.inner) (λ m. Deletes key.now result m (O.objects self.new.inner)) }
        ensures never_falls { fuse_faults O.faults self.old ≤ fuse_faults O.faults self.new }
        ensures cause { OnErr result (Rose (fuse_faults O.faults self.old) (fuse_faults O.faults self.new)) }
        ensures passes { 0 < self.old.calls → Passes self.old self.new }
        ensures inner { 0 < self.old.calls → IsErr result → Rose (O.faults self.old.inner) (O.faults self.new.inner) }
        ensures fails { self.old.calls ≡ 0 → IsErr result × FailsChange (λ a b. (r : Result (Unit {0}) DeleteError) × Told (O.objects a) (λ m. Deletes key.now r m (O.objects b)) × OnErr r (Rose (O.faults a) (O.faults b))) self.old self.new }
    {
        if self.passes() {
            return self.inner.delete(key);
        }
        self.count();
        if !self.done {
            return Err(OriginFailed);
        }
        self.done = false;
        let _ = self.inner.delete(key);
        Err(OriginFailed)
    }

    fn next_key(
        &mut self,
        alloc: Global,
        after: Option<&[u8]>,
    ) -> Result<Option<Vec<u8>>, OriginError>
        ensures next { IfOk result (λ key. Told (O.objects self.old.inner) (λ m. IsNext (pointed after.entry) m (found key))) }
        ensures same { O.objects self.new.inner ≡ O.objects self.old.inner }
        ensures never_falls { fuse_faults O.faults self.old ≤ fuse_faults O.faults self.new }
        ensures cause { IsErrOf result OriginError.Failed → Rose (fuse_faults O.faults self.old) (fuse_faults O.faults self.new) }
        ensures passes { 0 < self.old.calls → Passes self.old self.new }
        ensures inner { 0 < self.old.calls → IsErrOf result OriginError.Failed → Rose (O.faults self.old.inner) (O.faults self.new.inner) }
        ensures fails { self.old.calls ≡ 0 → (result ≡ Err OriginError.Failed) × FailsReading self.old self.new }
    {
        if self.passes() {
            return self.inner.next_key(alloc, after);
        }
        self.count();
        Err(OriginError::Failed)
    }
}
