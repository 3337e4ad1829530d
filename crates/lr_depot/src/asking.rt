//! The calls that the store is asked for: at most one call of the store each.
ghost use Rattle.std.specs.Prelude.{◌≡◌, ◌≤◌, ℕ, List, Some, None, length, slice_get, IfOk, IsErrOf};
ghost use Rattle.std.specs.FinMap as map;
ghost use Rattle.std.specs.Arc.{arc_value};
ghost use Rattle.sha2.specs.Sha256.{sha256};
ghost use Rattle.lr_spec.specs.Rose.{Rose};
ghost use Rattle.lr_spec.specs.Told.{Told};
ghost use Rattle.lr_manifest.specs.declared.name.Name.{Name as PlainName};
ghost use Rattle.lr_origin.specs.declared.key.KeyKind.TheVariants as kind;
ghost use Rattle.lr_manifest.specs.Manifest.{ManifestFields};
ghost use Rattle.lr_roots.specs.Roots.{IsHome, IsHomed};
ghost use Rattle.lr_roots.specs.Sound.{IsSound};
ghost use Rattle.lr_depot.specs.declared.call.DepotCall.TheVariants as call;
ghost use Rattle.lr_depot.specs.declared.call.DepotNoted.TheVariants as noted;
ghost use Rattle.lr_depot.specs.Store.{StoreStep, IsFault, IsUnasked};
ghost use Rattle.lr_depot.specs.Kernel.{Makers, state_of, IsReady, IsPlace, IsServed};

use crate::call::{DepotReply, DepotTold};
use crate::doubts::is_in_doubt;
use crate::kernel::{Answer, Kernel, logged};
use crate::put::{PutEnd, put_key};
use crate::sessions::{creation_of, target_of};
use lr_manifest::{Chunk, Manifest, Name};
use lr_origin::{ImageName, Key, KeyKind, Origin, OriginError, ROOTS_MAX};
use lr_roots::{Catalog, Kept};
use std::alloc::Global;
use std::sync::Arc;

/// Where a chunk is got, and its name.
#[derive(Clone, Copy)]
pub(crate) struct Place {
    pub(crate) key: Key,
    pub(crate) name: Name,
}

/// Why there is no such chunk.
#[derive(Clone, Copy, Debug, PartialEq, Eq)]
pub(crate) enum Unplaced {
    /// There is no such lease or session.
    NotOut,
    /// The index is past the names.
    NoChunk,
}

// The key of a chunk in the home of an image.
fn home_key(catalog: &Catalog, image: &ImageName, name: &Name) -> Key
    requires sound { IsSound catalog.now.view }
    requires homed { IsHomed catalog.now.view image.now }
    ensures { (r : ℕ) × IsHome catalog.now.view image.now r × (result ≡ kind.Chunk r name.now.bytes) }
{
    let Some(home) = catalog.home(image) else {
        unreachable!()
    };
    Key::of(&KeyKind::Chunk(home, name.bytes))
}

// The name at an index of a manifest.
pub(crate) fn name_at(manifest: &Manifest, index: u32) -> Option<Name>
    ensures { result ≡ slice_get manifest.now.names index }
{
    manifest.names().get(index as usize).copied()
}

// The place of a chunk in the home of its lease's image.
fn place_of(kernel: &Kernel, lease: u64, index: u32) -> Result<Place, Unplaced>
    requires ready { IsReady kernel.now }
    ensures place { IfOk result (λ p. IsPlace kernel.now lease index p) }
    ensures none { IsErrOf result Unplaced.NotOut → map.get kernel.now.leases lease ≡ None }
    ensures past { IsErrOf result Unplaced.NoChunk → (image : List ℕ) × (m : ManifestFields) × (map.get kernel.now.leases lease ≡ Some (image, m)) × (slice_get m.names index ≡ None) }
{
    let Some(entry) = kernel.leases.get(lease) else {
        return Err(Unplaced::NotOut);
    };
    let Some(name) = name_at(&entry.manifest, index) else {
        return Err(Unplaced::NoChunk);
    };
    let key = home_key(&kernel.catalog, &entry.image, &name);
    Ok(Place { key, name })
}

/// Gets a chunk of a leased image from the image's home.
pub(crate) fn fetch<O: Origin>(
    origin: &mut O,
    kernel: &Kernel,
    alloc: Global,
    caller: u32,
    lease: u64,
    index: u32,
) -> Answer
    requires ready { IsReady kernel.now }
    ensures served { IsServed kernel.now kernel.now caller (call.Fetch lease index) (noted.Fetch lease index) result }
    ensures store { (makers : Makers) → Told (O.objects origin.old) (λ m. StoreStep (state_of kernel.now makers) caller (call.Fetch lease index) result.reply m (O.objects origin.new)) }
    ensures never_falls { O.faults origin.old ≤ O.faults origin.new }
    ensures cause { IsFault result.reply → Rose (O.faults origin.old) (O.faults origin.new) }
    ensures unasked { (makers : Makers) → IsUnasked (state_of kernel.now makers) caller (call.Fetch lease index) result.reply → origin.new ≡ origin.old }
{
    let Place { key, name } = match place_of(kernel, lease, index) {
        Ok(place) => place,
        Err(Unplaced::NotOut) => return logged(DepotReply::NoLease, DepotTold::NoLease),
        Err(Unplaced::NoChunk) => return logged(DepotReply::NoChunk, DepotTold::NoChunk),
    };
    let body = match origin.get(alloc, key.as_bytes()) {
        Ok(Some(body)) => body,
        Ok(None) => return logged(DepotReply::Spoiled(key), DepotTold::Spoiled(key)),
        Err(OriginError::Failed) => return logged(DepotReply::Fault(key), DepotTold::Fault(key)),
        Err(OriginError::OutOfMemory) => return Answer::no_memory(),
    };
    let Ok(chunk) = Chunk::check(&name, body) else {
        return logged(DepotReply::Spoiled(key), DepotTold::Spoiled(key));
    };
    let Ok(handle) = Arc::new(alloc, chunk) else {
        return Answer::no_memory();
    };
    logged(DepotReply::Fetched(handle), DepotTold::Fetched(name))
}

/// Puts a chunk in the root of a session. A chunk that the view has isn't put again.
pub(crate) fn put_chunk<O: Origin>(
    origin: &mut O,
    kernel: &mut Kernel,
    alloc: Global,
    caller: u32,
    session: u64,
    chunk: Arc<Chunk>,
) -> Answer
    requires ready { IsReady kernel.old }
    ensures served { (name : PlainName) → name.bytes ≡ sha256 (arc_value chunk) → IsServed kernel.old kernel.new caller (call.PutChunk session chunk) (noted.PutChunk session name) result }
    ensures store { (makers : Makers) → Told (O.objects origin.old) (λ m. StoreStep (state_of kernel.old makers) caller (call.PutChunk session chunk) result.reply m (O.objects origin.new)) }
    ensures never_falls { O.faults origin.old ≤ O.faults origin.new }
    ensures cause { IsFault result.reply → Rose (O.faults origin.old) (O.faults origin.new) }
    ensures unasked { (makers : Makers) → IsUnasked (state_of kernel.old makers) caller (call.PutChunk session chunk) result.reply → origin.new ≡ origin.old }
{
    let Some(root) = target_of(&kernel.sessions, session, caller) else {
        return logged(DepotReply::NoSession, DepotTold::NoSession);
    };
    let body = chunk.bytes();
    let key = Key::of(&KeyKind::Chunk(root, chunk.name().bytes));
    if kernel.catalog.has(&key) {
        return logged(DepotReply::Kept, DepotTold::Kept);
    }
    let end = put_key(
        origin,
        &mut kernel.catalog,
        &mut kernel.doubts,
        alloc,
        key,
        Kept::Empty,
        Kept::Empty,
        body,
    );
    match end {
        PutEnd::Kept => logged(DepotReply::Kept, DepotTold::Kept),
        PutEnd::Fault => logged(DepotReply::Fault(key), DepotTold::Fault(key)),
        PutEnd::Spoiled => logged(DepotReply::Spoiled(key), DepotTold::Spoiled(key)),
        PutEnd::OutOfMemory => Answer::no_memory(),
    }
}

/// Puts the manifest of a creation in its root, where all its chunks are there, and ends the session.
pub(crate) fn put_manifest<O: Origin>(
    origin: &mut O,
    kernel: &mut Kernel,
    alloc: Global,
    caller: u32,
    session: u64,
    manifest: &Arc<Manifest>,
) -> Answer
    requires ready { IsReady kernel.old }
    ensures served { IsServed kernel.old kernel.new caller (call.PutManifest session manifest.now) (noted.PutManifest session manifest.now) result }
    ensures store { (makers : Makers) → Told (O.objects origin.old) (λ m. StoreStep (state_of kernel.old makers) caller (call.PutManifest session manifest.now) result.reply m (O.objects origin.new)) }
    ensures never_falls { O.faults origin.old ≤ O.faults origin.new }
    ensures cause { IsFault result.reply → Rose (O.faults origin.old) (O.faults origin.new) }
    ensures unasked { (makers : Makers) → IsUnasked (state_of kernel.old makers) caller (call.PutManifest session manifest.now) result.reply → origin.new ≡ origin.old }
{
    let Some(creation) = creation_of(&kernel.sessions, session, caller) else {
        return logged(DepotReply::NoSession, DepotTold::NoSession);
    };
    if manifest.root() != creation.root || manifest.number() != creation.number {
        return logged(DepotReply::Nonce, DepotTold::Nonce);
    }
    let key = Key::of(&KeyKind::Manifest(creation.root, creation.image));
    if is_in_doubt(&kernel.doubts, &key) {
        return logged(DepotReply::Doubt(key), DepotTold::Doubt(key));
    }
    if let Some(index) = kernel.catalog.missing(creation.root, manifest) {
        return logged(DepotReply::Missing(index), DepotTold::Missing(index));
    }
    let Ok(body) = manifest.print(alloc) else {
        return Answer::no_memory();
    };
    let (Ok(handle), Ok(doubt)) = (Arc::try_clone(manifest), Arc::try_clone(manifest)) else {
        return Answer::no_memory();
    };
    if kernel.makers.insert(key, session).is_err() {
        return Answer::no_memory();
    }
    let end = put_key(
        origin,
        &mut kernel.catalog,
        &mut kernel.doubts,
        alloc,
        key,
        Kept::Manifest(handle),
        Kept::Manifest(doubt),
        body.as_slice(),
    );
    match end {
        PutEnd::Kept => {
            kernel.makers.remove(&key);
            kernel.sessions.remove(session);
            let root = creation.root;
            logged(DepotReply::Made { root }, DepotTold::Made { root })
        }
        PutEnd::Fault => logged(DepotReply::Fault(key), DepotTold::Fault(key)),
        PutEnd::Spoiled => {
            kernel.makers.remove(&key);
            logged(DepotReply::Spoiled(key), DepotTold::Spoiled(key))
        }
        PutEnd::OutOfMemory => {
            kernel.makers.remove(&key);
            Answer::no_memory()
        }
    }
}

// The bytes of a salt.
fn salt_bytes(salt: &[u8; 32]) -> &[u8]
    ensures same { result.now ≡ salt.now }
    ensures long { length result.now ≡ 32 }
{
    salt
}

/// Puts the next root.
pub(crate) fn rotate<O: Origin>(
    origin: &mut O,
    kernel: &mut Kernel,
    alloc: Global,
    caller: u32,
    salt: [u8; 32],
) -> Answer
    requires ready { IsReady kernel.old }
    ensures served { IsServed kernel.old kernel.new caller (call.Rotate salt) (noted.Rotate salt) result }
    ensures store { (makers : Makers) → Told (O.objects origin.old) (λ m. StoreStep (state_of kernel.old makers) caller (call.Rotate salt) result.reply m (O.objects origin.new)) }
    ensures never_falls { O.faults origin.old ≤ O.faults origin.new }
    ensures cause { IsFault result.reply → Rose (O.faults origin.old) (O.faults origin.new) }
    ensures unasked { (makers : Makers) → IsUnasked (state_of kernel.old makers) caller (call.Rotate salt) result.reply → origin.new ≡ origin.old }
{
    let last = kernel.catalog.roots();
    if last >= ROOTS_MAX {
        return logged(DepotReply::RootsEnd, DepotTold::RootsEnd);
    }
    let body = salt_bytes(&salt);
    let root = last + 1;
    let key = Key::of(&KeyKind::Root(root));
    if is_in_doubt(&kernel.doubts, &key) {
        return logged(DepotReply::Doubt(key), DepotTold::Doubt(key));
    }
    let end = put_key(
        origin,
        &mut kernel.catalog,
        &mut kernel.doubts,
        alloc,
        key,
        Kept::Salt(salt),
        Kept::Salt(salt),
        body,
    );
    match end {
        PutEnd::Kept => logged(DepotReply::Rotated { root }, DepotTold::Rotated { root }),
        PutEnd::Fault => logged(DepotReply::Fault(key), DepotTold::Fault(key)),
        PutEnd::Spoiled => logged(DepotReply::Spoiled(key), DepotTold::Spoiled(key)),
        PutEnd::OutOfMemory => Answer::no_memory(),
    }
}
