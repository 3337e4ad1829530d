//! A store that fails one call.
ghost use Rattle.std.specs.Prelude.{◌≡◌, ◌+◌, ◌≤◌, ℕ, Result, Err, IfOk, IsErrOf, IsErr, OnErr, MatchBool};
ghost use Rattle.std.specs.FinMap as map;
ghost use Rattle.lr_spec.specs.Rose.{Rose};
ghost use Rattle.lr_spec.specs.Told.{Told};
ghost use Rattle.lr_origin.specs.Objects.{Puts, Deletes, IsNext, found, pointed};
ghost use Rattle.lr_origin.specs.One.{FailsNext, PassesOne, HasFailed, FailsOne, one_faults};
ghost use Rattle.lr_origin.specs.declared.origin.Put.{Put as PutAnswer};
ghost use Rattle.lr_origin.specs.declared.origin.OriginError.{OriginError as PutError};
ghost use Rattle.lr_origin.specs.declared.origin.OriginFailed.{OriginFailed as DeleteError};

use crate::{Origin, OriginError, OriginFailed, Put};
use std::alloc::Global;
use std::marker::Model;

/// Fails exactly the call of one number, counted from 0, and passes every other one.
///
/// Where that call is a put or a deletion, it has its effect where `done` holds, unless the store inside fails it or finds no memory for it.
#[derive(Drop)]
pub struct OneOrigin<O: Origin> {
    inner: O,
    // The calls that pass before the one that fails.
    calls: u64,
    done: bool,
    own: u64,
}

impl<O: Origin> Model for OneOrigin<O> {
    ghost use Rattle.lr_origin.specs.One.{One};

    ghost Value = { One O };

    ghost view = { λ f. record { inner = f.inner; calls = f.calls; done = f.done; own = f.own } };
}

impl<O: Origin> OneOrigin<O> {
    /// Fails the call of the number `call`, with its effect where `done` holds.
    pub fn new(inner: O, call: u64, done: bool) -> Self
        ensures { result ≡ record { inner = inner; calls = call; done = done; own = 0 } }
    {
        OneOrigin {
            inner,
            calls: call,
            done,
            own: 0,
        }
    }

    /// The store inside.
    pub fn into_inner(self) -> O
        ensures { result ≡ self.inner }
    {
        let OneOrigin {
            inner,
            calls: _,
            done: _,
            own: _,
        } = self;
        inner
    }

    // Whether this call is the one that fails. It counts the call.
    fn fails(&mut self) -> bool
        ensures fails { MatchBool result (FailsNext self.old × HasFailed self.old self.new) ((FailsNext self.old → ⊥) × PassesOne self.old self.new) }
        ensures inner { self.new.inner ≡ self.old.inner }
    {
        if self.own > 0 {
            return false;
        }
        if self.calls == 0 {
            self.own = 1;
            return true;
        }
        self.calls -= 1;
        false
    }
}

impl<O: Origin> Origin for OneOrigin<O> {
    ghost objects = { λ f. O.objects f.inner };

    ghost faults = { one_faults O.faults };

    fn get(&mut self, alloc: Global, key: &[u8]) -> Result<Option<Vec<u8>>, OriginError>
        ensures body { IfOk result (λ body. Told (O.objects self.old.inner) (λ m. found body ≡ map.get m key.now)) }
        ensures same { O.objects self.new.inner ≡ O.objects self.old.inner }
        ensures never_falls { one_faults O.faults self.old ≤ one_faults O.faults self.new }
        ensures cause { IsErrOf result OriginError.Failed → Rose (one_faults O.faults self.old) (one_faults O.faults self.new) }
        ensures passes { (FailsNext self.old → ⊥) → PassesOne self.old self.new }
        ensures inner { (FailsNext self.old → ⊥) → IsErrOf result OriginError.Failed → Rose (O.faults self.old.inner) (O.faults self.new.inner) }
        ensures fails { FailsNext self.old → (result ≡ Err OriginError.Failed) × HasFailed self.old self.new × (self.new.inner ≡ self.old.inner) }
    {
        if self.fails() {
            return Err(OriginError::Failed);
        }
        self.inner.get(alloc, key)
    }

    fn put(&mut self, alloc: Global, key: &[u8], body: &[u8]) -> Result<Put, OriginError>
        ensures change { Told (O.objects self.old.inner) (λ m. Puts key.now body.now result m (O.objects self.new.inner)) }
        ensures never_falls { one_faults O.faults self.old ≤ one_faults O.faults self.new }
        ensures cause { IsErrOf result OriginError.Failed → Rose (one_faults O.faults self.old) (one_faults O.faults self.new) }
        ensures passes { (FailsNext self.old → ⊥) → PassesOne self.old self.new }
        ensures inner { (FailsNext self.old → ⊥) → IsErrOf result OriginError.Failed → Rose (O.faults self.old.inner) (O.faults self.new.inner) }
        ensures fails { FailsNext self.old → (result ≡ Err OriginError.Failed) × FailsOne (λ a b. (r : Result PutAnswer PutError) × Told (O.objects a) (λ m. Puts key.now body.now r m (O.objects b)) × (IsErrOf r OriginError.Failed → Rose (O.faults a) (O.faults b))) self.old self.new }
    {
        if self.fails() {
            if self.done {
                let _ = self.inner.put(alloc, key, body);
            }
            return Err(OriginError::Failed);
        }
        self.inner.put(alloc, key, body)
    }

    fn delete(&mut self, key: &[u8]) -> Result<(), OriginFailed>
        ensures change { Told (O.objects self.old.inner) (λ m. Deletes key.now result m (O.objects self.new.inner)) }
        ensures never_falls { one_faults O.faults self.old ≤ one_faults O.faults self.new }
        ensures cause { OnErr result (Rose (one_faults O.faults self.old) (one_faults O.faults self.new)) }
        ensures passes { (FailsNext self.old → ⊥) → PassesOne self.old self.new }
        ensures inner { (FailsNext self.old → ⊥) → IsErr result → Rose (O.faults self.old.inner) (O.faults self.new.inner) }
        ensures fails { FailsNext self.old → IsErr result × FailsOne (λ a b. (r : Result (Unit {0}) DeleteError) × Told (O.objects a) (λ m. Deletes key.now r m (O.objects b)) × OnErr r (Rose (O.faults a) (O.faults b))) self.old self.new }
    {
        if self.fails() {
            if self.done {
                let _ = self.inner.delete(key);
            }
            return Err(OriginFailed);
        }
        self.inner.delete(key)
    }

    fn next_key(
        &mut self,
        alloc: Global,
        after: Option<&[u8]>,
    ) -> Result<Option<Vec<u8>>, OriginError>
        ensures next { IfOk result (λ key. Told (O.objects self.old.inner) (λ m. IsNext (pointed after.entry) m (found key))) }
        ensures same { O.objects self.new.inner ≡ O.objects self.old.inner }
        ensures never_falls { one_faults O.faults self.old ≤ one_faults O.faults self.new }
        ensures cause { IsErrOf result OriginError.Failed → Rose (one_faults O.faults self.old) (one_faults O.faults self.new) }
        ensures passes { (FailsNext self.old → ⊥) → PassesOne self.old self.new }
        ensures inner { (FailsNext self.old → ⊥) → IsErrOf result OriginError.Failed → Rose (O.faults self.old.inner) (O.faults self.new.inner) }
        ensures fails { FailsNext self.old → (result ≡ Err OriginError.Failed) × HasFailed self.old self.new × (self.new.inner ≡ self.old.inner) }
    {
        if self.fails() {
            return Err(OriginError::Failed);
        }
        self.inner.next_key(alloc, after)
    }
}
