//! Reading a store into a catalog.
ghost use Rattle.std.specs.Prelude.{◌≡◌, ◌≤◌, ◌^◌, IfOk, IfErr, None};
ghost use Rattle.lr_spec.specs.Told.{Told};
ghost use Rattle.lr_roots.specs.Names.{AreFewer, IsNamed};
ghost use Rattle.lr_roots.specs.Sound.{IsSound};
ghost use Rattle.lr_origin.specs.Objects.{found};
ghost use Rattle.lr_opening.specs.Store.{Mirrors};
ghost use Rattle.lr_opening.specs.Reading.{IsForeignText};
ghost use Rattle.lr_opening.specs.Listing.{HasFewer};
ghost use Rattle.lr_opening.specs.Cause.{IsCause};

use crate::cause::StartCause;
use crate::listing::list;
use crate::reading::read_all;
use lr_origin::Origin;
use lr_roots::Catalog;
use lr_spec::OutOfMemory;
use std::alloc::Global;

// The text of the first foreign key of the view.
fn foreign_text(alloc: Global, catalog: &Catalog) -> Result<Option<Vec<u8>>, OutOfMemory>
    ensures { IfOk result (λ text. IsForeignText catalog.now.view (found text)) }
{
    match catalog.foreign() {
        Some(key) => Ok(Some(key.as_bytes().to_vec(alloc)?)),
        None => Ok(None),
    }
}

/// Opens a store: lists all keys, gets the value of each but the chunks in key order, and checks that no key is
/// foreign. The catalog has every key of the store.
///
/// It changes nothing. `Fault` and `Spoiled` stop it at once, `TooMany` at 4,294,967,296 keys. `Foreign` comes when all
/// was read: with the first key that is outside the grammar or whose body isn't one of its kind, or where there is
/// none, with the first that breaks a rule of `Catalog::foreign`.
pub fn open<O: Origin>(alloc: Global, origin: &mut O) -> Result<Catalog, StartCause>
    ensures sound { IfOk result (λ catalog. IsSound catalog.view) }
    ensures names { IfOk result (λ catalog. AreFewer (IsNamed catalog.view) (2 ^ 32)) }
    ensures whole { IfOk result (λ catalog. Told (O.objects origin.old) (λ m. Mirrors m catalog.view × HasFewer m (2 ^ 32))) }
    ensures aside { IfOk result (λ catalog. catalog.aside ≡ None) }
    ensures cause { IfErr result (λ cause. IsCause (O.objects origin.old) (O.faults origin.old) (O.faults origin.new) cause) }
    ensures same { O.objects origin.new ≡ O.objects origin.old }
    ensures never_falls { O.faults origin.old ≤ O.faults origin.new }
{
    let keys = list(alloc, origin)?;
    let (catalog, malformed) = read_all(alloc, origin, &keys)?;
    if let Some(text) = malformed {
        return Err(StartCause::Foreign(text));
    }
    match foreign_text(alloc, &catalog)? {
        Some(text) => Err(StartCause::Foreign(text)),
        None => Ok(catalog),
    }
}
