//! The calls of a session that copies an image from one root to another.
ghost use Rattle.std.specs.Prelude.{◌≡◌, ◌≢◌, ◌≤◌, ◌↔◌, ℕ, List, [], Some, None, IsTrue, IfOk, IfErr, IsErrOf, OnOk, OnErr, MatchOption, slice_get};
ghost use Rattle.std.specs.FinMap as map;
ghost use Rattle.std.specs.Arc.{arc_value};
ghost use Rattle.lr_spec.specs.Rose.{Rose};
ghost use Rattle.lr_spec.specs.Told.{Told};
ghost use Rattle.lr_origin.specs.declared.key.KeyKind.TheVariants as kind;
ghost use Rattle.lr_depot.specs.declared.call.DepotCall.TheVariants as call;
ghost use Rattle.lr_depot.specs.declared.call.DepotNoted.TheVariants as noted;
ghost use Rattle.lr_depot.specs.Store.{StoreStep, IsFault, IsUnasked};
ghost use Rattle.lr_manifest.specs.Manifest.{ManifestFields};
ghost use Rattle.lr_rules.specs.State.{Moves};
ghost use Rattle.lr_depot.specs.Kernel.{Makers, state_of, IsReady, IsCopyPlace, IsServed};

use crate::asking::{Place, Unplaced, name_at};
use crate::call::{DepotReply, DepotTold};
use crate::doubts::is_in_doubt;
use crate::kernel::{Answer, Kernel, logged};
use crate::put::{PutEnd, put_key};
use crate::sessions::{Route, move_of};
use lr_manifest::Chunk;
use lr_origin::{Key, KeyKind, Origin, OriginError};
use lr_roots::Kept;
use std::alloc::Global;
use std::sync::Arc;

// The place of a chunk in the root that a session copies from.
fn copy_place(kernel: &Kernel, session: u64, caller: u32, index: u32) -> Result<Place, Unplaced>
    requires ready { IsReady kernel.now }
    ensures place { IfOk result (λ p. IsCopyPlace kernel.now session caller index p) }
    ensures none { IsErrOf result Unplaced.NotOut → (image : List ℕ) (from to : ℕ) (m : ManifestFields) → map.get kernel.now.sessions session ≢ Some (record { caller = caller; job = Moves image from to m }) }
    ensures past { IsErrOf result Unplaced.NoChunk → (image : List ℕ) × (from : ℕ) × (to : ℕ) × (m : ManifestFields) × (map.get kernel.now.sessions session ≡ Some (record { caller = caller; job = Moves image from to m })) × (slice_get m.names index ≡ None) }
{
    let Some((route, manifest)) = move_of(&kernel.sessions, session, caller) else {
        return Err(Unplaced::NotOut);
    };
    let Some(name) = name_at(manifest, index) else {
        return Err(Unplaced::NoChunk);
    };
    let key = Key::of(&KeyKind::Chunk(route.from, name.bytes));
    Ok(Place { key, name })
}

/// Gets a chunk of a copied image from the root that it is copied from.
pub(crate) fn copy_read<O: Origin>(
    origin: &mut O,
    kernel: &Kernel,
    alloc: Global,
    caller: u32,
    session: u64,
    index: u32,
) -> Answer
    requires ready { IsReady kernel.now }
    ensures served { IsServed kernel.now kernel.now caller (call.CopyRead session index) (noted.CopyRead session index) result }
    ensures store { (makers : Makers) → Told (O.objects origin.old) (λ m. StoreStep (state_of kernel.now makers) caller (call.CopyRead session index) result.reply m (O.objects origin.new)) }
    ensures never_falls { O.faults origin.old ≤ O.faults origin.new }
    ensures cause { IsFault result.reply → Rose (O.faults origin.old) (O.faults origin.new) }
    ensures unasked { (makers : Makers) → IsUnasked (state_of kernel.now makers) caller (call.CopyRead session index) result.reply → origin.new ≡ origin.old }
{
    let Place { key, name } = match copy_place(kernel, session, caller, index) {
        Ok(place) => place,
        Err(Unplaced::NotOut) => return logged(DepotReply::NoSession, DepotTold::NoSession),
        Err(Unplaced::NoChunk) => return logged(DepotReply::NoChunk, DepotTold::NoChunk),
    };
    let body = match origin.get(alloc, key.as_bytes()) {
        Ok(Some(body)) => body,
        Ok(None) => return logged(DepotReply::Spoiled(key), DepotTold::Spoiled(key)),
        Err(OriginError::Failed) => return logged(DepotReply::Fault(key), DepotTold::Fault(key)),
        Err(OriginError::OutOfMemory) => return Answer::no_memory(),
    };
    let Ok(chunk) = Chunk::check(&name, body) else {
        return logged(DepotReply::Spoiled(key), DepotTold::Spoiled(key));
    };
    let Ok(handle) = Arc::new(alloc, chunk) else {
        return Answer::no_memory();
    };
    logged(DepotReply::Copied(handle), DepotTold::Copied(name))
}

/// Puts the manifest of a copied image in the root that it is copied to, where the image's home is still the root that
/// it is copied from and all its chunks are there, and ends the session.
pub(crate) fn finish_migrate<O: Origin>(
    origin: &mut O,
    kernel: &mut Kernel,
    alloc: Global,
    caller: u32,
    session: u64,
) -> Answer
    requires ready { IsReady kernel.old }
    ensures served { IsServed kernel.old kernel.new caller (call.FinishMigrate session) (noted.FinishMigrate session) result }
    ensures store { (makers : Makers) → Told (O.objects origin.old) (λ m. StoreStep (state_of kernel.old makers) caller (call.FinishMigrate session) result.reply m (O.objects origin.new)) }
    ensures never_falls { O.faults origin.old ≤ O.faults origin.new }
    ensures cause { IsFault result.reply → Rose (O.faults origin.old) (O.faults origin.new) }
    ensures unasked { (makers : Makers) → IsUnasked (state_of kernel.old makers) caller (call.FinishMigrate session) result.reply → origin.new ≡ origin.old }
{
    let Some((route, manifest)) = move_of(&kernel.sessions, session, caller) else {
        return logged(DepotReply::NoSession, DepotTold::NoSession);
    };
    let Route { image, from, to } = route;
    let Some(home) = kernel.catalog.home(&image) else {
        unreachable!()
    };
    if home != from {
        return logged(
            DepotReply::Overtaken { home },
            DepotTold::Overtaken { home },
        );
    }
    let key = Key::of(&KeyKind::Manifest(to, image));
    if is_in_doubt(&kernel.doubts, &key) {
        return logged(DepotReply::Doubt(key), DepotTold::Doubt(key));
    }
    if let Some(index) = kernel.catalog.missing(to, manifest) {
        return logged(DepotReply::Missing(index), DepotTold::Missing(index));
    }
    let Ok(body) = manifest.print(alloc) else {
        return Answer::no_memory();
    };
    let (Ok(handle), Ok(doubt)) = (Arc::try_clone(manifest), Arc::try_clone(manifest)) else {
        return Answer::no_memory();
    };
    if kernel.makers.insert(key, session).is_err() {
        return Answer::no_memory();
    }
    let end = put_key(
        origin,
        &mut kernel.catalog,
        &mut kernel.doubts,
        alloc,
        key,
        Kept::Manifest(handle),
        Kept::Manifest(doubt),
        body.as_slice(),
    );
    match end {
        PutEnd::Kept => {
            kernel.makers.remove(&key);
            kernel.sessions.remove(session);
            logged(
                DepotReply::Moved { from, to },
                DepotTold::Moved { from, to },
            )
        }
        PutEnd::Fault => logged(DepotReply::Fault(key), DepotTold::Fault(key)),
        PutEnd::Spoiled => {
            kernel.makers.remove(&key);
            logged(DepotReply::Spoiled(key), DepotTold::Spoiled(key))
        }
        PutEnd::OutOfMemory => {
            kernel.makers.remove(&key);
            Answer::no_memory()
        }
    }
}
