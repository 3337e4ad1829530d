//! One put, with all that it does to the store and to what is known.
ghost use Rattle.std.specs.Prelude.{◌≡◌, ◌≤◌, ◌^◌, Some, None, OnOk, OnErr};
ghost use Rattle.std.specs.FinMap as map;
ghost use Rattle.lr_spec.specs.Rose.{Rose};
ghost use Rattle.lr_spec.specs.Told.{Told};
ghost use Rattle.lr_origin.specs.Text.{key_text};
ghost use Rattle.lr_roots.specs.View.{Held, Lacks, Fits};
ghost use Rattle.lr_roots.specs.Keys.{plain};
ghost use Rattle.lr_roots.specs.Names.{AreFewer, IsNamed};
ghost use Rattle.lr_rules.specs.Known.{Known};
ghost use Rattle.lr_depot.specs.Put.{PutsKey, StoresKey};

use crate::doubts::is_in_doubt;
use lr_origin::{Key, Origin, OriginError, Put};
use lr_roots::{Catalog, Kept, Keys};
use lr_spec::OutOfMemory;
use std::alloc::Global;

/// How a put ended.
#[derive(Clone, Copy, Debug, PartialEq, Eq)]
pub(crate) enum PutEnd {
    /// The object is there.
    Kept,
    /// The store failed, and the put is in doubt.
    Fault,
    /// There is an object that isn't known.
    Spoiled,
    OutOfMemory,
}

// Takes all memory of a put: the key stands aside, and its put is noted as in doubt. After an error nothing changed.
fn begin(
    catalog: &mut Catalog,
    doubts: &mut Keys,
    alloc: Global,
    key: Key,
    kept: Kept,
    doubt: Kept,
) -> Result<(), OutOfMemory>
    requires aside { catalog.old.aside ≡ None }
    requires absent { Lacks catalog.old.view key }
    requires fits { Fits key (plain kept) }
    requires few { AreFewer (IsNamed (map.insert catalog.old.view key (plain kept))) (2 ^ 32) }
    requires alike { plain doubt ≡ plain kept }
    ensures aside { OnOk result (catalog.new ≡ record { view = catalog.old.view; aside = Some (key, plain kept) }) }
    ensures noted { OnOk result (doubts.new ≡ map.insert doubts.old key (plain kept)) }
    ensures err { OnErr result ((catalog.new ≡ catalog.old) × (doubts.new ≡ doubts.old)) }
{
    catalog.prepare(alloc, key, kept)?;
    if doubts.insert(key, doubt).is_err() {
        catalog.forget();
        return Err(OutOfMemory);
    }
    Ok(())
}

/// Puts an object whose key the view hasn't. Where its put is in doubt, both answers of the store tell that it is there.
///
/// The catalog keeps `kept`, and the doubts keep `doubt`, which is the same to a contract. All memory, the doubt's too,
/// is taken before the store is called.
pub(crate) fn put_key<O: Origin>(
    origin: &mut O,
    catalog: &mut Catalog,
    doubts: &mut Keys,
    alloc: Global,
    key: Key,
    kept: Kept,
    doubt: Kept,
    body: &[u8],
) -> PutEnd
    requires aside { catalog.old.aside ≡ None }
    requires absent { Lacks catalog.old.view key }
    requires fits { Fits key (plain kept) }
    requires few { AreFewer (IsNamed (map.insert catalog.old.view key (plain kept))) (2 ^ 32) }
    requires alike { plain doubt ≡ plain kept }
    requires again { (x : Held) → map.get doubts.old key ≡ Some x → x ≡ plain kept }
    ensures known { PutsKey (record { view = catalog.old.view; doubts = doubts.old }) key (plain kept) result (record { view = catalog.new.view; doubts = doubts.new }) }
    ensures aside { catalog.new.aside ≡ None }
    ensures store { Told (O.objects origin.old) (λ m. StoresKey (map.get doubts.old key) (key_text key) body.now result m (O.objects origin.new)) }
    ensures never_falls { O.faults origin.old ≤ O.faults origin.new }
    ensures cause { result ≡ PutEnd.Fault → Rose (O.faults origin.old) (O.faults origin.new) }
{
    let again = is_in_doubt(doubts, &key);
    if begin(catalog, doubts, alloc, key, kept, doubt).is_err() {
        return PutEnd::OutOfMemory;
    }
    match origin.put(alloc, key.as_bytes(), body) {
        Ok(Put::Stored) => {
            doubts.remove(&key);
            catalog.accept();
            PutEnd::Kept
        }
        Ok(Put::Present) => {
            doubts.remove(&key);
            if again {
                catalog.accept();
                return PutEnd::Kept;
            }
            catalog.forget();
            PutEnd::Spoiled
        }
        Err(OriginError::Failed) => {
            catalog.forget();
            PutEnd::Fault
        }
        Err(OriginError::OutOfMemory) => {
            catalog.forget();
            if !again {
                doubts.remove(&key);
            }
            PutEnd::OutOfMemory
        }
    }
}
