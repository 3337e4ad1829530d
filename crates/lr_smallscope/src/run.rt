//! A depot under way, and what it leaves.
use crate::error::ScopeError;
use crate::images::{IMAGES, Image, SALT, Scope, is_of, spelling};
use crate::keys::{KeySet, PARTS, Part, ROOTS, TEXTS, place};
use crate::moves::{Ask, Move, call_of};
use crate::record::Record;
use crate::rules::{Broken, first_broken, is_homed, top};
use crate::store::{Failure, ScopeStore};
use lr_depot::{Depot, DepotLog, DepotReply};
use lr_object::Object;
use lr_roots::Catalog;
use std::alloc::Global;

/// What a depot leaves: its store, how many calls that got, how many roots there are, and all that later replies hang on.
#[derive(Drop)]
pub struct Left {
    pub store: ScopeStore,
    pub calls: u64,
    pub roots: u32,
    pub state: Vec<u8>,
}

// One call through the bound.
fn serve<S: Object>(alloc: Global, object: &mut S, caller: u32, call: S::Call) -> S::Reply
    requires { S.may call }
{
    object.apply(alloc, caller, call)
}

// Whether the chunk of a leased image isn't given, though the store didn't fail.
fn is_unfetched(record: &Record, asked: Ask, reply: &DepotReply) -> bool {
    let Ask::Fetch(at) = asked else {
        return false;
    };
    let Some(lease) = record.leases.get(at) else {
        return false;
    };
    match reply {
        DepotReply::Fetched(_) | DepotReply::Fault(_) => false,
        DepotReply::NoChunk => lease.image == Image::A,
        _ => true,
    }
}

// Whether a reply refuses its call: view, store, leases and sessions stay.
fn is_refusal(reply: &DepotReply) -> bool {
    match reply {
        DepotReply::NoImage
        | DepotReply::NoLease
        | DepotReply::NoChunk
        | DepotReply::NoRoot
        | DepotReply::Taken
        | DepotReply::Doubt(_)
        | DepotReply::NoSession
        | DepotReply::Missing(_)
        | DepotReply::NotRetiredHome { .. }
        | DepotReply::Overtaken { .. }
        | DepotReply::NotRetired
        | DepotReply::Serves(_)
        | DepotReply::Session(_)
        | DepotReply::NotExpired
        | DepotReply::NotDeleted
        | DepotReply::Swept
        | DepotReply::NoDoubt
        | DepotReply::Nothing => true,
        _ => false,
    }
}

/// The keys of a view.
pub fn view(scope: &Scope, catalog: &Catalog) -> KeySet {
    let mut keys = KeySet::new();
    for (at, key) in scope.keys().iter().enumerate() {
        if catalog.has(key) {
            keys.add(at);
        }
    }
    keys
}

// Whether all manifests of an image in a view are of the image, and were made by one creation, in their root or one
// before.
fn are_manifests(scope: &Scope, catalog: &Catalog, image: Image) -> bool {
    let name = scope.name(image);
    let mut made = None;
    for root in 1..=ROOTS {
        if let Some(manifest) = catalog.manifest(root, &name) {
            let nonce = (manifest.root(), manifest.number());
            if !is_of(manifest, image) || nonce.0 == 0 || nonce.0 > root {
                return false;
            }
            if made.is_some_and(|first| first != nonce) {
                return false;
            }
            made = Some(nonce);
        }
    }
    true
}

// Whether the bodies of a root are those of their keys.
fn is_root_kept(store: &ScopeStore, root: u32) -> bool {
    PARTS.iter().all(|part| {
        let Some(text) = TEXTS.get(place(root, *part)) else {
            return false;
        };
        let Some(body) = store.kept(text) else {
            return true;
        };
        match part {
            Part::Salt => body.as_slice() == SALT.as_slice(),
            Part::Expired | Part::Deleted => body.is_empty(),
            Part::ManifestA | Part::ManifestB => true,
            Part::Chunk => body.as_slice() == [1u8].as_slice(),
        }
    })
}

// The bytes of the manifest of an image in a root that stand before the sealed keys are those of its spelling.
fn is_spelled(alloc: Global, body: &[u8], image: Image, root: u32) -> Result<bool, ScopeError> {
    for made in 1..=root {
        for number in 1..=8u64 {
            let wanted = spelling(alloc, image, made, number)?;
            if body == wanted.as_slice() {
                return Ok(true);
            }
        }
    }
    Ok(false)
}

// Whether the manifests of an image have equal bytes, which spell one of its manifests.
fn are_spelled(alloc: Global, store: &ScopeStore, image: Image) -> Result<bool, ScopeError> {
    let mut first: Option<&Vec<u8>> = None;
    for root in 1..=ROOTS {
        let Some(text) = TEXTS.get(image.place(root)) else {
            return Ok(false);
        };
        let Some(body) = store.kept(text) else {
            continue;
        };
        match first {
            None => {
                if !is_spelled(alloc, body, image, root)? {
                    return Ok(false);
                }
                first = Some(body);
            }
            Some(other) => {
                if body.as_slice() != other.as_slice() {
                    return Ok(false);
                }
            }
        }
    }
    Ok(true)
}

// The first thing that is wrong with the bodies of a store.
fn broken_body(alloc: Global, store: &ScopeStore) -> Result<Option<Broken>, ScopeError> {
    if !(1..=ROOTS).all(|root| is_root_kept(store, root)) {
        return Ok(Some(Broken::Body));
    }
    for image in IMAGES.iter() {
        if !are_spelled(alloc, store, *image)? {
            return Ok(Some(Broken::Body));
        }
    }
    Ok(None)
}

// The keys of a store.
fn held(store: &ScopeStore) -> KeySet {
    let mut keys = KeySet::new();
    for (at, text) in TEXTS.iter().enumerate() {
        if store.kept(text).is_some() {
            keys.add(at);
        }
    }
    keys
}

// How many keys a set has.
fn count(keys: &KeySet) -> usize {
    (0..TEXTS.len()).filter(|at| keys.has(*at)).count()
}

// Whether an image that must have a home has one that isn't expired.
fn is_served(record: &Record, keys: &KeySet, image: Image) -> bool {
    let owed = record.is_leased(image) || record.is_known(image) && !keys.has(image.withdrawn());
    !owed || is_homed(keys, image)
}

fn broken_keys(record: &Record, keys: &KeySet) -> Option<Broken> {
    if let Some(broken) = first_broken(keys) {
        return Some(broken);
    }
    if IMAGES.iter().all(|image| is_served(record, keys, *image)) {
        None
    } else {
        Some(Broken::Owed)
    }
}

// A view with those of the puts in doubt that a choice names.
fn outcome(record: &Record, view: &KeySet, choice: u32) -> KeySet {
    let mut keys = *view;
    let mut rest = choice;
    for doubt in record.doubts.iter() {
        if rest % 2 == 1 {
            keys.add(doubt.place);
        }
        rest /= 2;
    }
    keys
}

// The first thing that is wrong with a view, whichever of the puts in doubt were done.
fn broken_outcome(record: &Record, view: &KeySet) -> Option<Broken> {
    let mut choices = 1u32;
    for _ in record.doubts.iter() {
        choices = choices.saturating_mul(2);
    }
    for choice in 0..choices {
        if let Some(broken) = broken_keys(record, &outcome(record, view, choice)) {
            return Some(broken);
        }
    }
    None
}

fn is_in_doubt(record: &Record, at: usize) -> bool {
    record.doubts.iter().any(|doubt| doubt.place == at)
}

// Whether a key that a deletion in doubt may have removed is of a deleted root.
fn is_removable(view: &KeySet, at: usize) -> bool {
    (1..=ROOTS).any(|root| {
        view.has_part(root, Part::Deleted)
            && (at == place(root, Part::ManifestA)
                || at == place(root, Part::ManifestB)
                || at == place(root, Part::Chunk))
    })
}

// Whether view and store differ only at puts and deletions in doubt.
fn agree(record: &Record, view: &KeySet, store: &KeySet) -> bool {
    (0..TEXTS.len()).all(|at| match (view.has(at), store.has(at)) {
        (true, false) => is_removable(view, at),
        (false, true) => is_in_doubt(record, at),
        _ => true,
    })
}

// Whether the keys in doubt are those that the replies tell, no more.
fn are_doubted(record: &Record, left: &DepotLog) -> bool {
    let count = record.doubts.len() as u64;
    if left.doubt(count).is_some() {
        return false;
    }
    (0..count).all(|at| match left.doubt(at) {
        Some(key) => record.doubts.iter().any(|doubt| {
            TEXTS
                .get(doubt.place)
                .is_some_and(|text| *text == key.as_bytes())
        }),
        None => false,
    })
}

// A number of the scope in a byte.
fn byte(number: u64) -> u8 {
    if number < 255 { number as u8 } else { 255 }
}

fn image_byte(image: Image) -> u8 {
    match image {
        Image::A => 1,
        Image::B => 2,
    }
}

// The place of the session of a number, from 1, or 0.
fn session_byte(record: &Record, number: u64) -> u8 {
    match record.sessions.iter().position(|s| s.number == number) {
        Some(at) => byte(at as u64).saturating_add(1),
        None => 0,
    }
}

// The keys of view and store.
fn put_keys(state: &mut Vec<u8>, view: &KeySet, store: &KeySet) -> Result<(), ScopeError> {
    for at in 0..TEXTS.len() {
        let seen = if view.has(at) { 1 } else { 0 };
        let held = if store.has(at) { 2 } else { 0 };
        state.push(seen + held)?;
    }
    Ok(())
}

// Leases, sessions and doubts, each after their number.
fn put_record(state: &mut Vec<u8>, record: &Record) -> Result<(), ScopeError> {
    state.push(byte(record.leases.len() as u64))?;
    for lease in record.leases.iter() {
        state.push(image_byte(lease.image))?;
    }
    state.push(byte(record.sessions.len() as u64))?;
    for session in record.sessions.iter() {
        state.push(byte(session.caller as u64))?;
        state.push(image_byte(session.image))?;
        state.push(byte(session.from as u64))?;
        state.push(byte(session.to as u64))?;
    }
    state.push(byte(record.doubts.len() as u64))?;
    for doubt in record.doubts.iter() {
        state.push(byte(doubt.place as u64))?;
        state.push(session_byte(record, doubt.maker))?;
    }
    for image in IMAGES.iter() {
        state.push(if record.is_known(*image) { 1 } else { 0 })?;
    }
    Ok(())
}

// The roots in which the images' manifests were made.
fn put_origins(state: &mut Vec<u8>, scope: &Scope, catalog: &Catalog) -> Result<(), ScopeError> {
    for image in IMAGES.iter() {
        let name = scope.name(*image);
        for root in 1..=ROOTS {
            let made = match catalog.manifest(root, &name) {
                Some(manifest) => manifest.root(),
                None => 0,
            };
            state.push(byte(made as u64))?;
        }
    }
    Ok(())
}

// The first thing that is wrong with what a depot leaves, but for the bodies in the store.
fn broken_end(
    scope: &Scope,
    record: &Record,
    store: &ScopeStore,
    left: &DepotLog,
    catalog: &Catalog,
) -> Option<Broken> {
    let view = view(scope, catalog);
    let held = held(store);
    if store.len() != count(&held) {
        return Some(Broken::Foreign);
    }
    if !are_doubted(record, left) {
        return Some(Broken::Doubts);
    }
    if !agree(record, &view, &held) {
        return Some(Broken::Differs);
    }
    if !IMAGES
        .iter()
        .all(|image| are_manifests(scope, catalog, *image))
    {
        return Some(Broken::Body);
    }
    broken_outcome(record, &view).or(broken_keys(record, &held))
}

/// A depot under way, with what its replies tell.
#[derive(Drop)]
pub struct Trial {
    depot: Depot<ScopeStore>,
    record: Record,
}

impl Trial {
    // A depot over an empty store.
    fn new(alloc: Global, failure: Failure) -> Result<Trial, Broken> {
        match Depot::start(alloc, ScopeStore::new(alloc, failure)) {
            Ok(depot) => Ok(Trial {
                depot,
                record: Record::new(alloc),
            }),
            Err(_) => Err(Broken::Start),
        }
    }

    // Makes one call, and keeps what its reply tells. Whether it was refused.
    fn make(
        &mut self,
        alloc: Global,
        scope: &Scope,
        step: Move,
    ) -> Result<Result<bool, Broken>, ScopeError> {
        let (caller, asked) = step;
        let call = call_of(alloc, scope, &self.record, asked)?;
        let reply = serve(alloc, &mut self.depot, caller, call);
        if is_unfetched(&self.record, asked, &reply) {
            return Ok(Err(Broken::Unfetched));
        }
        match self.record.keep(caller, asked, &reply)? {
            Some(broken) => Ok(Err(broken)),
            None => Ok(Ok(is_refusal(&reply))),
        }
    }

    /// A depot after these calls, with one store call that fails.
    pub fn begin(
        alloc: Global,
        scope: &Scope,
        steps: &[Move],
        failure: Failure,
    ) -> Result<Result<Trial, Broken>, ScopeError> {
        let mut trial = match Trial::new(alloc, failure) {
            Ok(trial) => trial,
            Err(broken) => return Ok(Err(broken)),
        };
        for step in steps.iter() {
            if let Err(broken) = trial.make(alloc, scope, *step)? {
                return Ok(Err(broken));
            }
        }
        Ok(Ok(trial))
    }

    /// Makes calls in turn until one isn't refused. Its place, or their number.
    pub fn until_done(
        &mut self,
        alloc: Global,
        scope: &Scope,
        steps: &[Move],
    ) -> Result<Result<usize, Broken>, ScopeError> {
        for (at, step) in steps.iter().enumerate() {
            match self.make(alloc, scope, *step)? {
                Ok(true) => {}
                Ok(false) => return Ok(Ok(at)),
                Err(broken) => return Ok(Err(broken)),
            }
        }
        Ok(Ok(steps.len()))
    }

    /// Ends the depot, and judges all that it leaves but the bodies in its store.
    pub fn judge(self, alloc: Global, scope: &Scope) -> Result<Result<Left, Broken>, ScopeError> {
        let Trial { depot, record } = self;
        let (store, left, catalog) = depot.end();
        if let Some(broken) = broken_end(scope, &record, &store, &left, &catalog) {
            return Ok(Err(broken));
        }
        let view = view(scope, &catalog);
        let mut state = Vec::new(alloc);
        put_keys(&mut state, &view, &held(&store))?;
        put_record(&mut state, &record)?;
        put_origins(&mut state, scope, &catalog)?;
        Ok(Ok(Left {
            calls: store.calls(),
            roots: top(&view),
            store,
            state,
        }))
    }
}

// Whether a depot starts on the store, and sees just these keys.
fn starts(alloc: Global, scope: &Scope, store: ScopeStore, keys: &KeySet) -> bool {
    match Depot::start(alloc, store) {
        Ok(depot) => view(scope, depot.catalog()) == *keys,
        Err(_) => false,
    }
}

/// Judges the bodies of a store, and starts a depot on it.
pub fn judge_store(
    alloc: Global,
    scope: &Scope,
    store: ScopeStore,
) -> Result<Option<Broken>, ScopeError> {
    if let Some(broken) = broken_body(alloc, &store)? {
        return Ok(Some(broken));
    }
    let keys = held(&store);
    if starts(alloc, scope, store.mended(), &keys) {
        Ok(None)
    } else {
        Ok(Some(Broken::Start))
    }
}
