//! One deletion, with all that it does to the store and to what is known.
ghost use Rattle.std.specs.Prelude.{◌≡◌, ◌≤◌, Some, None};
ghost use Rattle.std.specs.FinMap as map;
ghost use Rattle.lr_spec.specs.Rose.{Rose};
ghost use Rattle.lr_spec.specs.Told.{Told};
ghost use Rattle.lr_origin.specs.Text.{key_text};
ghost use Rattle.lr_roots.specs.View.{Held};
ghost use Rattle.lr_roots.specs.Keys.{plain};
ghost use Rattle.lr_depot.specs.Deletion.{DeletesKey, StoresDeletion};

use lr_origin::{Key, Origin};
use lr_roots::{Catalog, Kept, Keys};

/// How a deletion ended.
#[derive(Clone, Copy, Debug, PartialEq, Eq)]
pub(crate) enum DeletionEnd {
    /// The object is gone.
    Removed,
    /// The store failed, and the deletion is in doubt.
    Fault,
    OutOfMemory,
}

/// Deletes an object whose key the view has.
///
/// The doubts keep `doubt`, which is what the view keeps of it. Its memory is taken before the store is called.
pub(crate) fn delete_key<O: Origin>(
    origin: &mut O,
    catalog: &mut Catalog,
    doubts: &mut Keys,
    key: Key,
    doubt: Kept,
) -> DeletionEnd
    requires aside { catalog.old.aside ≡ None }
    ensures known { DeletesKey (record { view = catalog.old.view; doubts = doubts.old }) key (plain doubt) result (record { view = catalog.new.view; doubts = doubts.new }) }
    ensures aside { catalog.new.aside ≡ None }
    ensures store { Told (O.objects origin.old) (λ m. StoresDeletion (key_text key) result m (O.objects origin.new)) }
    ensures never_falls { O.faults origin.old ≤ O.faults origin.new }
    ensures cause { result ≡ DeletionEnd.Fault → Rose (O.faults origin.old) (O.faults origin.new) }
{
    if doubts.insert(key, doubt).is_err() {
        return DeletionEnd::OutOfMemory;
    }
    match origin.delete(key.as_bytes()) {
        Ok(()) => {
            doubts.remove(&key);
            catalog.remove(&key);
            DeletionEnd::Removed
        }
        Err(_) => DeletionEnd::Fault,
    }
}
