//! The values of the listed keys, read into a catalog.
ghost use Rattle.std.specs.Prelude.{◌≡◌, ◌≤◌, ◌<◌, ◌+◌, ◌-◌, ◌^◌, ℕ, IsSome, IfOk, IfErr, IfSome, OnOk, None, length};
ghost use Rattle.std.specs.FinMap as map;
ghost use Rattle.lr_spec.specs.Told.{Told};
ghost use Rattle.lr_origin.specs.Objects.{found};
ghost use Rattle.lr_origin.specs.Text.{key_text};
ghost use Rattle.lr_roots.specs.View.{Lacks};
ghost use Rattle.lr_roots.specs.Keys.{plain};
ghost use Rattle.lr_roots.specs.Names.{AreFewer, IsNamed};
ghost use Rattle.lr_roots.specs.Sound.{Suits};
ghost use Rattle.lr_opening.specs.Listing.{bytes_of, ListsAll};
ghost use Rattle.lr_opening.specs.Reading.{HasBody, IsThere, AreListed, AreSuited, WhenRead, HaveRead, ReadsOn, first_of};
ghost use Rattle.lr_opening.specs.Cause.{IsCause};

use crate::body::kept_of;
use crate::cause::StartCause;
use lr_origin::{Key, KeyKind, Origin, OriginError};
use lr_roots::{Catalog, Kept};
use lr_spec::OutOfMemory;
use std::alloc::Global;

// What is kept of the object under a listed key, or `None` where its body isn't one of its kind. A chunk isn't got.
fn kept_at<O: Origin>(alloc: Global, origin: &mut O, key: &Key) -> Result<Option<Kept>, StartCause>
    ensures suits { IfOk result (λ kept. IfSome kept (λ x. Suits key.now (plain x))) }
    ensures body { IfOk result (λ kept. Told (O.objects origin.old) (λ m. IsSome (map.get m (key_text key.now)) → HasBody m key.now kept)) }
    ensures cause { IfErr result (λ cause. IsThere (O.objects origin.old) (key_text key.now) → IsCause (O.objects origin.old) (O.faults origin.old) (O.faults origin.new) cause) }
    ensures same { O.objects origin.new ≡ O.objects origin.old }
    ensures never_falls { O.faults origin.old ≤ O.faults origin.new }
{
    let kind = key.kind();
    if let KeyKind::Chunk(_, _) = kind {
        return Ok(Some(Kept::Empty));
    }
    match origin.get(alloc, key.as_bytes()) {
        Ok(Some(body)) => Ok(kept_of(alloc, &kind, body.as_slice())?),
        Ok(None) => Err(StartCause::Spoiled(*key)),
        Err(OriginError::Failed) => Err(StartCause::Fault(Some(*key))),
        Err(OriginError::OutOfMemory) => Err(StartCause::OutOfMemory),
    }
}

fn put_in(alloc: Global, catalog: &mut Catalog, key: Key, kept: Kept) -> Result<(), OutOfMemory>
    requires absent { Lacks catalog.old.view key }
    requires suits { Suits key (plain kept) }
    requires few { AreFewer (IsNamed catalog.old.view) (2 ^ 32 - 1) }
    ensures { OnOk result (catalog.new ≡ record { view = map.insert catalog.old.view key (plain kept); aside = None }) }
{
    catalog.prepare(alloc, key, kept)?;
    catalog.accept();
    Ok(())
}

// Reads a listed key into the catalog, and says whether the key and its body are well formed. One that is there
// already isn't read again.
fn read_key<O: Origin>(
    alloc: Global,
    origin: &mut O,
    catalog: &mut Catalog,
    text: &[u8],
) -> Result<bool, StartCause>
    requires few { AreFewer (IsNamed catalog.old.view) (2 ^ 32 - 1) }
    ensures read { IfOk result (λ well. Told (O.objects origin.old) (λ m. IsSome (map.get m text.now) → WhenRead m text.now catalog.old.view catalog.new.view well)) }
    ensures suits { OnOk result (AreSuited catalog.old.view → AreSuited catalog.new.view) }
    ensures fewer { OnOk result ((n : ℕ) → AreFewer (IsNamed catalog.old.view) n → AreFewer (IsNamed catalog.new.view) (n + 1)) }
    ensures aside { OnOk result (catalog.old.aside ≡ None → catalog.new.aside ≡ None) }
    ensures cause { IfErr result (λ cause. IsThere (O.objects origin.old) text.now → IsCause (O.objects origin.old) (O.faults origin.old) (O.faults origin.new) cause) }
    ensures same { O.objects origin.new ≡ O.objects origin.old }
    ensures never_falls { O.faults origin.old ≤ O.faults origin.new }
{
    let Some(key) = Key::parse(text) else {
        return Ok(false);
    };
    if catalog.has(&key) {
        return Ok(true);
    }
    match kept_at(alloc, origin, &key)? {
        Some(kept) => {
            put_in(alloc, catalog, key, kept)?;
            Ok(true)
        }
        None => Ok(false),
    }
}

// Remembers a malformed key, where it is the first.
fn remember(alloc: Global, malformed: &mut Option<Vec<u8>>, text: &[u8]) -> Result<(), OutOfMemory>
    ensures { OnOk result (found malformed.new ≡ first_of (found malformed.old) text.now) }
{
    if malformed.is_some() {
        return Ok(());
    }
    *malformed = Some(text.to_vec(alloc)?);
    Ok(())
}

fn read_next<O: Origin>(
    alloc: Global,
    origin: &mut O,
    catalog: &mut Catalog,
    malformed: &mut Option<Vec<u8>>,
    text: &[u8],
) -> Result<(), StartCause>
    requires few { AreFewer (IsNamed catalog.old.view) (2 ^ 32 - 1) }
    ensures read { OnOk result (Told (O.objects origin.old) (λ m. ReadsOn m text.now catalog.old.view (found malformed.old) catalog.new.view (found malformed.new))) }
    ensures suits { OnOk result (AreSuited catalog.old.view → AreSuited catalog.new.view) }
    ensures fewer { OnOk result ((n : ℕ) → AreFewer (IsNamed catalog.old.view) n → AreFewer (IsNamed catalog.new.view) (n + 1)) }
    ensures aside { OnOk result (catalog.old.aside ≡ None → catalog.new.aside ≡ None) }
    ensures cause { IfErr result (λ cause. IsThere (O.objects origin.old) text.now → IsCause (O.objects origin.old) (O.faults origin.old) (O.faults origin.new) cause) }
    ensures same { O.objects origin.new ≡ O.objects origin.old }
    ensures never_falls { O.faults origin.old ≤ O.faults origin.new }
{
    if read_key(alloc, origin, catalog, text)? {
        return Ok(());
    }
    remember(alloc, malformed, text)?;
    Ok(())
}

/// Reads the listed keys in their order into a catalog, and finds the first malformed one.
///
/// It stops where the store fails, and where the get of a key gives nothing.
pub(crate) fn read_all<O: Origin>(
    alloc: Global,
    origin: &mut O,
    keys: &[Vec<u8>],
) -> Result<(Catalog, Option<Vec<u8>>), StartCause>
    requires few { length keys.now < 2 ^ 32 }
    ensures read { IfOk result (λ read. Told (O.objects origin.old) (λ m. ListsAll m (bytes_of keys.now) → HaveRead m (bytes_of keys.now) read.0.view (found read.1))) }
    ensures suits { IfOk result (λ read. AreSuited read.0.view) }
    ensures names { IfOk result (λ read. AreFewer (IsNamed read.0.view) (2 ^ 32)) }
    ensures aside { IfOk result (λ read. read.0.aside ≡ None) }
    ensures cause { IfErr result (λ cause. AreListed (O.objects origin.old) (bytes_of keys.now) → IsCause (O.objects origin.old) (O.faults origin.old) (O.faults origin.new) cause) }
    ensures same { O.objects origin.new ≡ O.objects origin.old }
    ensures never_falls { O.faults origin.old ≤ O.faults origin.new }
{
    let mut catalog = Catalog::new(alloc);
    let mut malformed: Option<Vec<u8>> = None;
    for text in keys {
        read_next(alloc, origin, &mut catalog, &mut malformed, text.as_slice())?;
    }
    Ok((catalog, malformed))
}
