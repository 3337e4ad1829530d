//! The store of objects as a trait, and its answers.
ghost use Rattle.std.specs.Prelude.{◌≡◌, ◌≤◌, ℕ, Option, IfOk, IsErrOf, OnErr};
ghost use Rattle.std.specs.FinMap as map;
ghost use Rattle.lr_spec.specs.Rose.{Rose};
ghost use Rattle.lr_spec.specs.Told.{Told};
ghost use Rattle.lr_origin.specs.Objects.{Objects, Puts, Deletes, IsNext, found, pointed};

use std::alloc::{AllocError, AllocFailed, Global};

/// What a put did.
#[derive(Clone, Copy, Debug, PartialEq, Eq)]
pub enum Put {
    /// The object is new.
    Stored,
    /// There was an object under the key, and it stays.
    Present,
}

/// Why a call of an origin was not done.
#[derive(Clone, Copy, Debug, PartialEq, Eq)]
pub enum OriginError {
    /// The origin failed in this call.
    Failed,
    OutOfMemory,
}

impl From<AllocError> for OriginError {
    ghost use Rattle.lr_origin.specs.declared.origin.OriginError.TheVariants.{OutOfMemory};

    ghost from_gives = { λ _ e. e ≡ OutOfMemory };

    fn from(_: AllocError) -> Self {
        OriginError::OutOfMemory
    }
}

impl<T: Drop> From<AllocFailed<T>> for OriginError {
    ghost use Rattle.lr_origin.specs.declared.origin.OriginError.TheVariants.{OutOfMemory};

    ghost from_gives = { λ _ e. e ≡ OutOfMemory };

    fn from(_: AllocFailed<T>) -> Self {
        OriginError::OutOfMemory
    }
}

/// The origin failed to delete an object.
#[derive(Clone, Copy, Debug, PartialEq, Eq)]
pub struct OriginFailed;

/// A store of objects: bodies under keys, in the byte order of the keys.
///
/// No call changes another key than its own. A failed put or deletion has its effect or not.
pub trait Origin {
    /// The objects, where the origin tells them.
    ghost objects: { Self → Option Objects };

    /// How often the origin has failed, which never falls.
    ghost faults: { Self → ℕ };

    /// The body under a key, or `None` where there is none. It changes nothing.
    fn get(&mut self, alloc: Global, key: &[u8]) -> Result<Option<Vec<u8>>, OriginError>
        ensures body { IfOk result (λ body. Told (objects self.old) (λ m. found body ≡ map.get m key.now)) }
        ensures same { objects self.new ≡ objects self.old }
        ensures never_falls { faults self.old ≤ faults self.new }
        ensures cause { IsErrOf result OriginError.Failed → Rose (faults self.old) (faults self.new) };

    /// Stores a body under a key where there is none yet. An object that is there stays as it is.
    fn put(&mut self, alloc: Global, key: &[u8], body: &[u8]) -> Result<Put, OriginError>
        ensures change { Told (objects self.old) (λ m. Puts key.now body.now result m (objects self.new)) }
        ensures never_falls { faults self.old ≤ faults self.new }
        ensures cause { IsErrOf result OriginError.Failed → Rose (faults self.old) (faults self.new) };

    /// Removes the object under a key, where there is one.
    fn delete(&mut self, key: &[u8]) -> Result<(), OriginFailed>
        ensures change { Told (objects self.old) (λ m. Deletes key.now result m (objects self.new)) }
        ensures never_falls { faults self.old ≤ faults self.new }
        ensures cause { OnErr result (Rose (faults self.old) (faults self.new)) };

    /// The least key above `after` in byte order, or the least key of all. It changes nothing.
    fn next_key(
        &mut self,
        alloc: Global,
        after: Option<&[u8]>,
    ) -> Result<Option<Vec<u8>>, OriginError>
        ensures next { IfOk result (λ key. Told (objects self.old) (λ m. IsNext (pointed after.entry) m (found key))) }
        ensures same { objects self.new ≡ objects self.old }
        ensures never_falls { faults self.old ≤ faults self.new }
        ensures cause { IsErrOf result OriginError.Failed → Rose (faults self.old) (faults self.new) };
}
