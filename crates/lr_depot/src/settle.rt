//! The call that settles a put in doubt by a look at the store.
ghost use Rattle.std.specs.Prelude.{◌≡◌, ◌≤◌, ◌↔◌, Some, None, IsTrue, IfOk, MatchOption};
ghost use Rattle.std.specs.FinMap as map;
ghost use Rattle.lr_spec.specs.Rose.{Rose};
ghost use Rattle.lr_spec.specs.Told.{Told};
ghost use Rattle.lr_opening.specs.Store.{body_of};
ghost use Rattle.lr_roots.specs.View.{Held, Lacks};
ghost use Rattle.lr_roots.specs.Keys.{plain, held_of};
ghost use Rattle.lr_depot.specs.declared.call.DepotCall.TheVariants as call;
ghost use Rattle.lr_depot.specs.declared.call.DepotNoted.TheVariants as noted;
ghost use Rattle.lr_depot.specs.Store.{StoreStep, IsFault, IsUnasked, IsBodyPut};
ghost use Rattle.lr_depot.specs.Sessions.{without_maker};
ghost use Rattle.lr_depot.specs.Kernel.{Makers, state_of, IsReady, IsServed};

use crate::call::{DepotReply, DepotTold};
use crate::kernel::{Answer, Kernel, logged};
use crate::makers::DoubtMakers;
use crate::numbered::{Numbered, Session};
use lr_manifest::{Chunk, Name};
use lr_origin::{Key, KeyKind, Origin, OriginError};
use lr_roots::Kept;
use lr_spec::OutOfMemory;
use std::alloc::Global;
use std::sync::Arc;

// What is kept of the object of a put in doubt.
fn put_in_doubt<'a>(kernel: &'a Kernel, key: &Key) -> Option<&'a Kept>
    ensures { MatchOption result
        ((x : Held) → map.get kernel.now.doubts key.now ≡ Some x → ¬ (Lacks kernel.now.catalog.view key.now))
        (λ kept. (map.get kernel.now.doubts key.now ≡ Some (plain kept.now)) × Lacks kernel.now.catalog.view key.now) }
{
    if kernel.catalog.has(key) {
        return None;
    }
    kernel.doubts.get(key)
}

// What is kept of an object, once more.
fn kept_again(kept: &Kept) -> Result<Kept, OutOfMemory>
    ensures { IfOk result (λ again. plain again ≡ plain kept.now) }
{
    match kept {
        Kept::Salt(salt) => Ok(Kept::Salt(*salt)),
        Kept::Manifest(manifest) => Ok(Kept::Manifest(Arc::try_clone(manifest)?)),
        Kept::Empty => Ok(Kept::Empty),
    }
}

// The body that was put of an object, where it isn't a chunk.
fn body_put(alloc: Global, kept: &Kept) -> Result<Vec<u8>, OutOfMemory>
    ensures { IfOk result (λ body. body.items ≡ body_of (plain kept.now)) }
{
    match kept {
        Kept::Salt(salt) => {
            let mut body = Vec::new(alloc);
            body.extend_from_slice(salt)?;
            Ok(body)
        }
        Kept::Manifest(manifest) => manifest.print(alloc),
        Kept::Empty => Ok(Vec::new(alloc)),
    }
}

// Whether the body is the one that was put: of a chunk the one that the key names, of another key the very bytes.
fn is_body_put(key: &Key, put: &[u8], body: Vec<u8>) -> bool
    ensures { (kept : Held) → put.now ≡ body_of kept → IsTrue result ↔ IsBodyPut key.now kept body.items }
{
    match key.kind() {
        KeyKind::Chunk(_, bytes) => Chunk::check(&Name { bytes }, body).is_ok(),
        _ => body.as_slice() == put,
    }
}

// Ends the session that made the put of a manifest, where it is still there.
fn end_maker(makers: &mut DoubtMakers, sessions: &mut Numbered<Session>, key: &Key)
    ensures sessions { sessions.new ≡ without_maker sessions.old key.now (map.get makers.old key.now) }
    ensures makers { makers.new ≡ map.remove makers.old key.now }
{
    let maker = makers.get(key);
    makers.remove(key);
    if let (KeyKind::Manifest(_, _), Some(session)) = (key.kind(), maker) {
        sessions.remove(session);
    }
}

/// Looks whether the object of a put in doubt is there.
pub(crate) fn settle<O: Origin>(
    origin: &mut O,
    kernel: &mut Kernel,
    alloc: Global,
    caller: u32,
    key: Key,
) -> Answer
    requires ready { IsReady kernel.old }
    ensures served { IsServed kernel.old kernel.new caller (call.Settle key) (noted.Settle key) result }
    ensures store { (makers : Makers) → Told (O.objects origin.old) (λ m. StoreStep (state_of kernel.old makers) caller (call.Settle key) result.reply m (O.objects origin.new)) }
    ensures never_falls { O.faults origin.old ≤ O.faults origin.new }
    ensures cause { IsFault result.reply → Rose (O.faults origin.old) (O.faults origin.new) }
    ensures unasked { (makers : Makers) → IsUnasked (state_of kernel.old makers) caller (call.Settle key) result.reply → origin.new ≡ origin.old }
{
    let Some(kept) = put_in_doubt(kernel, &key) else {
        return logged(DepotReply::NoDoubt, DepotTold::NoDoubt);
    };
    let (Ok(again), Ok(put)) = (kept_again(kept), body_put(alloc, kept)) else {
        return Answer::no_memory();
    };
    if kernel.catalog.prepare(alloc, key, again).is_err() {
        return Answer::no_memory();
    }
    let found = match origin.get(alloc, key.as_bytes()) {
        Ok(found) => found,
        Err(OriginError::Failed) => {
            kernel.catalog.forget();
            return logged(DepotReply::Fault(key), DepotTold::Fault(key));
        }
        Err(OriginError::OutOfMemory) => {
            kernel.catalog.forget();
            return Answer::no_memory();
        }
    };
    let Some(body) = found else {
        kernel.catalog.forget();
        kernel.doubts.remove(&key);
        kernel.makers.remove(&key);
        return logged(DepotReply::Absent, DepotTold::Absent);
    };
    if !is_body_put(&key, put.as_slice(), body) {
        kernel.catalog.forget();
        return logged(DepotReply::Spoiled(key), DepotTold::Spoiled(key));
    }
    kernel.catalog.accept();
    kernel.doubts.remove(&key);
    end_maker(&mut kernel.makers, &mut kernel.sessions, &key);
    logged(DepotReply::There, DepotTold::There)
}
