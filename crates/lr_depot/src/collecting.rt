//! The calls that withdraw images and collect roots.
ghost use Rattle.std.specs.Prelude.{◌≡◌, ◌≤◌, ◌↔◌, ◌^◌, ℕ, List, [], Some, None, IsTrue, IfOk, IsSome};
ghost use Rattle.std.specs.FinMap as map;
ghost use Rattle.lr_spec.specs.Rose.{Rose};
ghost use Rattle.lr_spec.specs.Told.{Told};
ghost use Rattle.lr_manifest.specs.Manifest.{ManifestFields};
ghost use Rattle.lr_origin.specs.Text.{key_text};
ghost use Rattle.lr_origin.specs.declared.key.KeyKind.{KeyKind as Kind};
ghost use Rattle.lr_roots.specs.View.{Held, Has, Lacks, Fits, bare};
ghost use Rattle.lr_roots.specs.Keys.{plain, key_of};
ghost use Rattle.lr_roots.specs.Roots.{IsHome, IsRootState};
ghost use Rattle.lr_roots.specs.Names.{AreFewer, IsNamed, IsFirst, IsManifestOf};
ghost use Rattle.lr_rules.specs.Known.{IsItemOf};
ghost use Rattle.lr_rules.specs.State.{Session as PlainSession, IsRootOf};
ghost use Rattle.lr_depot.specs.declared.call.DepotCall.TheVariants as call;
ghost use Rattle.lr_depot.specs.declared.call.DepotNoted.TheVariants as noted;
ghost use Rattle.lr_depot.specs.Machine.{IsOwedAt, IsFirstName, IsLeast};
ghost use Rattle.lr_depot.specs.Put.{PutsKey, StoresKey};
ghost use Rattle.lr_depot.specs.Store.{StoreStep, IsFault, IsUnasked};
ghost use Rattle.lr_depot.specs.Kernel.{Makers, state_of, IsReady, IsServed};

use crate::call::{DepotReply, DepotTold};
use crate::deletion::{DeletionEnd, delete_key};
use crate::job::Job;
use crate::kernel::{Answer, Kernel, logged};
use crate::numbered::{Lease, Numbered, Session};
use crate::put::{PutEnd, put_key};
use lr_origin::{ImageName, Key, KeyKind, Origin};
use lr_roots::{Catalog, Kept, Keys, RootState};
use lr_spec::OutOfMemory;
use std::alloc::Global;
use std::sync::Arc;

// Puts an empty object whose key the view hasn't.
fn put_bare<O: Origin>(
    origin: &mut O,
    catalog: &mut Catalog,
    doubts: &mut Keys,
    alloc: Global,
    key: Key,
) -> PutEnd
    requires aside { catalog.old.aside ≡ None }
    requires absent { Lacks catalog.old.view key }
    requires fits { Fits key bare }
    requires few { AreFewer (IsNamed (map.insert catalog.old.view key bare)) (2 ^ 32) }
    requires again { (x : Held) → map.get doubts.old key ≡ Some x → x ≡ bare }
    ensures known { PutsKey (record { view = catalog.old.view; doubts = doubts.old }) key bare result (record { view = catalog.new.view; doubts = doubts.new }) }
    ensures aside { catalog.new.aside ≡ None }
    ensures store { Told (O.objects origin.old) (λ m. StoresKey (map.get doubts.old key) (key_text key) [] result m (O.objects origin.new)) }
    ensures never_falls { O.faults origin.old ≤ O.faults origin.new }
    ensures cause { result ≡ PutEnd.Fault → Rose (O.faults origin.old) (O.faults origin.new) }
{
    put_key(
        origin,
        catalog,
        doubts,
        alloc,
        key,
        Kept::Empty,
        Kept::Empty,
        b"",
    )
}

/// Withdraws an image.
pub(crate) fn withdraw<O: Origin>(
    origin: &mut O,
    kernel: &mut Kernel,
    alloc: Global,
    caller: u32,
    image: ImageName,
) -> Answer
    requires ready { IsReady kernel.old }
    ensures served { IsServed kernel.old kernel.new caller (call.Withdraw image) (noted.Withdraw image) result }
    ensures store { (makers : Makers) → Told (O.objects origin.old) (λ m. StoreStep (state_of kernel.old makers) caller (call.Withdraw image) result.reply m (O.objects origin.new)) }
    ensures never_falls { O.faults origin.old ≤ O.faults origin.new }
    ensures cause { IsFault result.reply → Rose (O.faults origin.old) (O.faults origin.new) }
    ensures unasked { (makers : Makers) → IsUnasked (state_of kernel.old makers) caller (call.Withdraw image) result.reply → origin.new ≡ origin.old }
{
    if kernel.catalog.withdrawn(&image) {
        return logged(DepotReply::NoImage, DepotTold::NoImage);
    }
    let Some(_home) = kernel.catalog.home(&image) else {
        return logged(DepotReply::NoImage, DepotTold::NoImage);
    };
    let key = Key::of(&KeyKind::Withdrawn(image));
    let end = put_bare(origin, &mut kernel.catalog, &mut kernel.doubts, alloc, key);
    match end {
        PutEnd::Kept => logged(DepotReply::Withdrawn, DepotTold::Withdrawn),
        PutEnd::Fault => logged(DepotReply::Fault(key), DepotTold::Fault(key)),
        PutEnd::Spoiled => logged(DepotReply::Spoiled(key), DepotTold::Spoiled(key)),
        PutEnd::OutOfMemory => Answer::no_memory(),
    }
}

// Whether the root is in this state.
fn is_in_state(catalog: &Catalog, root: u32, state: RootState) -> bool
    ensures { IsTrue result ↔ IsRootState catalog.now.view root (Some state) }
{
    catalog.state(root) == Some(state)
}

// Whether the image has a lease.
fn is_leased(leases: &Numbered<Lease>, image: &ImageName) -> bool
    ensures { IsTrue result ↔ ((n : ℕ) × (m : ManifestFields) × (map.get leases.now n ≡ Some (image.now, m))) }
{
    for (_, lease) in leases.iter() {
        if lease.image == *image {
            return true;
        }
    }
    false
}

// Whether the root is the home of the image.
fn is_home(catalog: &Catalog, root: u32, image: &ImageName) -> bool
    ensures { IsTrue result ↔ IsHome catalog.now.view image.now root }
{
    catalog.home(image) == Some(root)
}

// Whether the image is owed, and the root is its home.
fn is_owed_at(kernel: &Kernel, root: u32, image: &ImageName) -> bool
    ensures { (makers : Makers) → IsTrue result ↔ IsOwedAt (state_of kernel.now makers) root image.now }
{
    is_home(&kernel.catalog, root, image)
        && (!kernel.catalog.withdrawn(image) || is_leased(&kernel.leases, image))
}

// The first owed image, in byte order, whose home the root is.
fn first_owed(kernel: &Kernel, root: u32) -> Option<ImageName>
    requires ready { IsReady kernel.now }
    ensures { (makers : Makers) → IsFirstName (IsOwedAt (state_of kernel.now makers) root) result }
{
    let mut after: Option<ImageName> = None;
    // There are fewer names.
    for _turn in 0..4_294_967_296u64 {
        let Some(image) = kernel.catalog.next_image(after.as_ref()) else {
            return None;
        };
        if is_owed_at(kernel, root, &image) {
            return Some(image);
        }
        after = Some(image);
    }
    unreachable!()
}

// Whether the session rests on the root.
fn rests_on(session: &Session, root: u32) -> bool
    ensures { IsTrue result ↔ IsRootOf session.now.job root }
{
    match &session.job {
        Job::Creates { root: own, .. } => *own == root,
        Job::Moves { from, to, .. } => *from == root || *to == root,
    }
}

// The least session that rests on the root.
fn first_user(sessions: &Numbered<Session>, root: u32) -> Option<u64>
    ensures { IsLeast (λ n. (j : PlainSession) × (map.get sessions.now n ≡ Some j) × IsRootOf j.job root) result }
{
    for (number, session) in sessions.iter() {
        if rests_on(session, root) {
            return Some(*number);
        }
    }
    None
}

fn is_manifest_in(kind: &KeyKind, root: u32) -> bool
    ensures { IsTrue result ↔ IsManifestOf root kind.now }
{
    match *kind {
        KeyKind::Manifest(own, _) => own == root,
        _ => false,
    }
}

// The first manifest key of the root in doubt.
fn first_unsure(doubts: &Keys, root: u32) -> Option<&Key>
    ensures { IsFirst (λ k. Has doubts.now k × IsManifestOf root k) (key_of result) }
{
    for key in doubts.iter() {
        if is_manifest_in(&key.kind(), root) {
            return Some(key);
        }
    }
    None
}

/// Expires a retired root that nothing needs.
pub(crate) fn expire<O: Origin>(
    origin: &mut O,
    kernel: &mut Kernel,
    alloc: Global,
    caller: u32,
    root: u32,
) -> Answer
    requires ready { IsReady kernel.old }
    ensures served { IsServed kernel.old kernel.new caller (call.Expire root) (noted.Expire root) result }
    ensures store { (makers : Makers) → Told (O.objects origin.old) (λ m. StoreStep (state_of kernel.old makers) caller (call.Expire root) result.reply m (O.objects origin.new)) }
    ensures never_falls { O.faults origin.old ≤ O.faults origin.new }
    ensures cause { IsFault result.reply → Rose (O.faults origin.old) (O.faults origin.new) }
    ensures unasked { (makers : Makers) → IsUnasked (state_of kernel.old makers) caller (call.Expire root) result.reply → origin.new ≡ origin.old }
{
    if !is_in_state(&kernel.catalog, root, RootState::Retired) {
        return logged(DepotReply::NotRetired, DepotTold::NotRetired);
    }
    if let Some(image) = first_owed(kernel, root) {
        return logged(DepotReply::Serves(image), DepotTold::Serves(image));
    }
    if let Some(session) = first_user(&kernel.sessions, root) {
        return logged(DepotReply::Session(session), DepotTold::Session(session));
    }
    if let Some(key) = first_unsure(&kernel.doubts, root) {
        return logged(DepotReply::Doubt(*key), DepotTold::Doubt(*key));
    }
    let key = Key::of(&KeyKind::Expired(root));
    let end = put_bare(origin, &mut kernel.catalog, &mut kernel.doubts, alloc, key);
    match end {
        PutEnd::Kept => logged(DepotReply::Expired, DepotTold::Expired),
        PutEnd::Fault => logged(DepotReply::Fault(key), DepotTold::Fault(key)),
        PutEnd::Spoiled => logged(DepotReply::Spoiled(key), DepotTold::Spoiled(key)),
        PutEnd::OutOfMemory => Answer::no_memory(),
    }
}

/// Deletes an expired root.
pub(crate) fn delete<O: Origin>(
    origin: &mut O,
    kernel: &mut Kernel,
    alloc: Global,
    caller: u32,
    root: u32,
) -> Answer
    requires ready { IsReady kernel.old }
    ensures served { IsServed kernel.old kernel.new caller (call.Delete root) (noted.Delete root) result }
    ensures store { (makers : Makers) → Told (O.objects origin.old) (λ m. StoreStep (state_of kernel.old makers) caller (call.Delete root) result.reply m (O.objects origin.new)) }
    ensures never_falls { O.faults origin.old ≤ O.faults origin.new }
    ensures cause { IsFault result.reply → Rose (O.faults origin.old) (O.faults origin.new) }
    ensures unasked { (makers : Makers) → IsUnasked (state_of kernel.old makers) caller (call.Delete root) result.reply → origin.new ≡ origin.old }
{
    if !is_in_state(&kernel.catalog, root, RootState::Expired) {
        return logged(DepotReply::NotExpired, DepotTold::NotExpired);
    }
    let key = Key::of(&KeyKind::Deleted(root));
    let end = put_bare(origin, &mut kernel.catalog, &mut kernel.doubts, alloc, key);
    match end {
        PutEnd::Kept => logged(DepotReply::Deleted, DepotTold::Deleted),
        PutEnd::Fault => logged(DepotReply::Fault(key), DepotTold::Fault(key)),
        PutEnd::Spoiled => logged(DepotReply::Spoiled(key), DepotTold::Spoiled(key)),
        PutEnd::OutOfMemory => Answer::no_memory(),
    }
}

// What the view keeps of a chunk or manifest key, once more.
fn item_kept(catalog: &Catalog, key: &Key) -> Result<Kept, OutOfMemory>
    requires there { Has catalog.now.view key.now }
    requires item { (r : ℕ) × IsItemOf r key.now }
    requires fits { (k : Kind) (x : Held) → map.get catalog.now.view k ≡ Some x → Fits k x }
    ensures { IfOk result (λ kept. map.get catalog.now.view key.now ≡ Some (plain kept)) }
{
    let KeyKind::Manifest(root, image) = key.kind() else {
        return Ok(Kept::Empty);
    };
    let Some(manifest) = catalog.manifest(root, &image) else {
        unreachable!()
    };
    Ok(Kept::Manifest(Arc::try_clone(manifest)?))
}

/// Deletes the least chunk or manifest key of a deleted root.
pub(crate) fn sweep<O: Origin>(
    origin: &mut O,
    kernel: &mut Kernel,
    caller: u32,
    root: u32,
) -> Answer
    requires ready { IsReady kernel.old }
    ensures served { IsServed kernel.old kernel.new caller (call.Sweep root) (noted.Sweep root) result }
    ensures store { (makers : Makers) → Told (O.objects origin.old) (λ m. StoreStep (state_of kernel.old makers) caller (call.Sweep root) result.reply m (O.objects origin.new)) }
    ensures never_falls { O.faults origin.old ≤ O.faults origin.new }
    ensures cause { IsFault result.reply → Rose (O.faults origin.old) (O.faults origin.new) }
    ensures unasked { (makers : Makers) → IsUnasked (state_of kernel.old makers) caller (call.Sweep root) result.reply → origin.new ≡ origin.old }
{
    if !is_in_state(&kernel.catalog, root, RootState::Deleted) {
        return logged(DepotReply::NotDeleted, DepotTold::NotDeleted);
    }
    let Some(key) = kernel.catalog.next_key(root, None).copied() else {
        return logged(DepotReply::Swept, DepotTold::Swept);
    };
    let Ok(doubt) = item_kept(&kernel.catalog, &key) else {
        return Answer::no_memory();
    };
    match delete_key(origin, &mut kernel.catalog, &mut kernel.doubts, key, doubt) {
        DeletionEnd::Removed => logged(DepotReply::Removed(key), DepotTold::Removed(key)),
        DeletionEnd::Fault => logged(DepotReply::Fault(key), DepotTold::Fault(key)),
        DeletionEnd::OutOfMemory => Answer::no_memory(),
    }
}
