//! The keys of a store.
ghost use Rattle.std.specs.Prelude.{◌≡◌, ◌≤◌, ◌<◌, ◌+◌, ◌^◌, ◌++◌, ◌∷◌, [], IfOk, IfErr, OnOk, vec_len};
ghost use Rattle.lr_spec.specs.Told.{Told};
ghost use Rattle.lr_origin.specs.Objects.{pointed};
ghost use Rattle.lr_opening.specs.Listing.{bytes_of, last_of, ListsAll};
ghost use Rattle.lr_opening.specs.Cause.{IsCause};

use crate::cause::StartCause;
use lr_origin::{Origin, OriginError};
use lr_spec::OutOfMemory;
use std::alloc::Global;

/// A store with this many keys isn't opened.
const KEYS_MAX: u64 = 4_294_967_296;

fn last_key(keys: &[Vec<u8>]) -> Option<&[u8]>
    ensures { pointed result ≡ last_of (bytes_of keys.now) }
{
    match keys.last() {
        Some(key) => Some(key.as_slice()),
        None => None,
    }
}

fn push_key(keys: &mut Vec<Vec<u8>>, key: Vec<u8>) -> Result<(), OutOfMemory>
    ensures bytes { OnOk result (bytes_of keys.new.items ≡ bytes_of keys.old.items ++ key.items ∷ []) }
    ensures count { OnOk result (vec_len keys.new ≡ vec_len keys.old + 1) }
{
    keys.push(key)?;
    Ok(())
}

/// All keys of a store in byte order, of which there are fewer than 4,294,967,296.
///
/// It stops where the store fails, and at that many keys.
pub(crate) fn list<O: Origin>(alloc: Global, origin: &mut O) -> Result<Vec<Vec<u8>>, StartCause>
    ensures all { IfOk result (λ keys. Told (O.objects origin.old) (λ m. ListsAll m (bytes_of keys.items))) }
    ensures few { IfOk result (λ keys. vec_len keys < 2 ^ 32) }
    ensures cause { IfErr result (λ cause. IsCause (O.objects origin.old) (O.faults origin.old) (O.faults origin.new) cause) }
    ensures same { O.objects origin.new ≡ O.objects origin.old }
    ensures never_falls { O.faults origin.old ≤ O.faults origin.new }
{
    let mut keys: Vec<Vec<u8>> = Vec::new(alloc);
    for _turn in 0..KEYS_MAX {
        match origin.next_key(alloc, last_key(&keys)) {
            Ok(Some(key)) => push_key(&mut keys, key)?,
            Ok(None) => return Ok(keys),
            Err(OriginError::Failed) => return Err(StartCause::Fault(None)),
            Err(OriginError::OutOfMemory) => return Err(StartCause::OutOfMemory),
        }
    }
    Err(StartCause::TooMany)
}
