//! Calls of a depot in short, and what is replied.
ghost use Rattle.std.specs.Prelude.{◌≡◌};

use crate::sample::{image, key, manifest_of, manifest_of_nothing};
use lr_depot::{Depot, DepotCall, DepotReply};
use lr_manifest::{CHUNK, Chunk, Manifest};
use lr_object::Object;
use lr_origin::{Key, Origin};
use std::alloc::{AllocError, Global};
use std::sync::Arc;
use std::test::Fail;

/// The key of the chunk of 524,288 bytes of 1, in root 1.
pub const CHUNK_IN_1: &[u8] =
    b"r/0000000001/c/33a150bceb13c1a992231e65b4fad16815212fc06cdb408996d32eeb2cef9ebb";

/// The SHA-256 of 524,288 bytes of 1.
pub const NAME: [u8; 32] = [
    0x33, 0xa1, 0x50, 0xbc, 0xeb, 0x13, 0xc1, 0xa9, 0x92, 0x23, 0x1e, 0x65, 0xb4, 0xfa, 0xd1, 0x68,
    0x15, 0x21, 0x2f, 0xc0, 0x6c, 0xdb, 0x40, 0x89, 0x96, 0xd3, 0x2e, 0xeb, 0x2c, 0xef, 0x9e, 0xbb,
];

/// A call in short. An image has the chunk of 524,288 bytes of 1, and a session is followed by the creation number in the
/// nonce of its manifest; or the image is empty, and the session is followed by the root and the number.
#[derive(Clone, Copy)]
pub enum Ask {
    Open(&'static [u8]),
    Fetch(u64, u32),
    Close(u64),
    Begin(&'static [u8]),
    Chunk(u64),
    Manifest(u64, u64),
    Empty(u64, u32, u64),
    Abandon(u64),
    Rotate,
    Migrate(&'static [u8]),
    Copy(u64, u32),
    Finish(u64),
    Withdraw(&'static [u8]),
    Expire(u32),
    Delete(u32),
    Sweep(u32),
    Settle(&'static [u8]),
    Reap,
}

/// A caller, its call, and the reply: a word, and the first number that the reply tells.
pub type Step = (u32, Ask, &'static str, u64);

fn chunk(alloc: Global) -> Result<Chunk, AllocError> {
    Ok(Chunk::of(vec![in alloc; 1u8; CHUNK]?))
}

fn manifest(alloc: Global, spelling: Vec<u8>) -> Result<Arc<Manifest>, Fail> {
    Ok(Arc::new(alloc, Manifest::parse(alloc, &spelling)?)?)
}

fn call_of(alloc: Global, ask: Ask) -> Result<DepotCall, Fail> {
    match ask {
        Ask::Open(name) => Ok(DepotCall::OpenImage {
            image: image(name)?,
        }),
        Ask::Fetch(lease, index) => Ok(DepotCall::Fetch { lease, index }),
        Ask::Close(lease) => Ok(DepotCall::Close { lease }),
        Ask::Begin(name) => Ok(DepotCall::BeginCreate {
            image: image(name)?,
        }),
        Ask::Chunk(session) => Ok(DepotCall::PutChunk {
            session,
            chunk: Arc::new(alloc, chunk(alloc)?)?,
        }),
        Ask::Manifest(session, number) => Ok(DepotCall::PutManifest {
            session,
            manifest: manifest(alloc, manifest_of(alloc, 1, number, &NAME)?)?,
        }),
        Ask::Empty(session, root, number) => Ok(DepotCall::PutManifest {
            session,
            manifest: manifest(alloc, manifest_of_nothing(alloc, root, number)?)?,
        }),
        Ask::Abandon(session) => Ok(DepotCall::Abandon { session }),
        Ask::Rotate => Ok(DepotCall::Rotate { salt: [5; 32] }),
        Ask::Migrate(name) => Ok(DepotCall::BeginMigrate {
            image: image(name)?,
        }),
        Ask::Copy(session, index) => Ok(DepotCall::CopyRead { session, index }),
        Ask::Finish(session) => Ok(DepotCall::FinishMigrate { session }),
        Ask::Withdraw(name) => Ok(DepotCall::Withdraw {
            image: image(name)?,
        }),
        Ask::Expire(root) => Ok(DepotCall::Expire { root }),
        Ask::Delete(root) => Ok(DepotCall::Delete { root }),
        Ask::Sweep(root) => Ok(DepotCall::Sweep { root }),
        Ask::Settle(text) => Ok(DepotCall::Settle { key: key(text)? }),
        Ask::Reap => Ok(DepotCall::Reap),
    }
}

/// A reply in short.
pub fn short(reply: &DepotReply) -> (&'static str, u64) {
    match reply {
        DepotReply::NoImage => ("no image", 0),
        DepotReply::Opened { lease, .. } => ("opened", *lease),
        DepotReply::NoLease => ("no lease", 0),
        DepotReply::NoChunk => ("no chunk", 0),
        DepotReply::Fetched(_) => ("fetched", 0),
        DepotReply::Closed => ("closed", 0),
        DepotReply::NoRoot => ("no root", 0),
        DepotReply::Taken => ("taken", 0),
        DepotReply::Doubt(_) => ("doubt", 0),
        DepotReply::Full => ("full", 0),
        DepotReply::Began { session, .. } => ("began", *session),
        DepotReply::NoSession => ("no session", 0),
        DepotReply::Kept => ("kept", 0),
        DepotReply::Nonce => ("nonce", 0),
        DepotReply::Missing(index) => ("missing", *index as u64),
        DepotReply::Made { root } => ("made", *root as u64),
        DepotReply::Abandoned => ("abandoned", 0),
        DepotReply::RootsEnd => ("roots end", 0),
        DepotReply::Rotated { root } => ("rotated", *root as u64),
        DepotReply::NotRetiredHome { home } => ("not retired", *home as u64),
        DepotReply::Moving { session, .. } => ("moving", *session),
        DepotReply::Copied(_) => ("copied", 0),
        DepotReply::Overtaken { home } => ("overtaken", *home as u64),
        DepotReply::Moved { from, .. } => ("moved", *from as u64),
        DepotReply::Withdrawn => ("withdrawn", 0),
        DepotReply::NotRetired => ("not retired", 0),
        DepotReply::Serves(_) => ("serves", 0),
        DepotReply::Session(session) => ("session", *session),
        DepotReply::Expired => ("expired", 0),
        DepotReply::NotExpired => ("not expired", 0),
        DepotReply::Deleted => ("deleted", 0),
        DepotReply::NotDeleted => ("not deleted", 0),
        DepotReply::Removed(_) => ("removed", 0),
        DepotReply::Swept => ("swept", 0),
        DepotReply::NoDoubt => ("no doubt", 0),
        DepotReply::There => ("there", 0),
        DepotReply::Absent => ("absent", 0),
        DepotReply::Reaped => ("reaped", 0),
        DepotReply::Nothing => ("nothing", 0),
        DepotReply::Fault(_) => ("fault", 0),
        DepotReply::Spoiled(_) => ("spoiled", 0),
        DepotReply::OutOfMemory => ("out of memory", 0),
    }
}

/// The key of a reply that tells one.
pub fn told_key(reply: &DepotReply) -> Option<&Key> {
    match reply {
        DepotReply::Doubt(key) | DepotReply::Fault(key) | DepotReply::Spoiled(key) => Some(key),
        _ => None,
    }
}

/// A depot over a store that opens.
pub fn start<O: Origin + Drop>(alloc: Global, origin: O) -> Result<Depot<O>, Fail> {
    match Depot::start(alloc, origin) {
        Ok(depot) => Ok(depot),
        Err(_) => Err("the depot didn't start".into()),
    }
}

/// One call through the bound.
pub fn serve<S: Object>(alloc: Global, object: &mut S, caller: u32, call: S::Call) -> S::Reply
    requires { S.may call }
    ensures fixed { S.fixed object.new ≡ S.fixed object.old }
    ensures answers { S.answers (S.fixed object.old) (S.log object.old) caller call result }
{
    object.apply(alloc, caller, call)
}

/// Makes a call of a depot.
pub fn make_call<O: Origin>(
    alloc: Global,
    depot: &mut Depot<O>,
    caller: u32,
    asked: Ask,
) -> Result<DepotReply, Fail> {
    let call = call_of(alloc, asked)?;
    Ok(serve(alloc, depot, caller, call))
}

/// Whether a reply is the one of its step, and tells no other key.
pub fn is_of(reply: &DepotReply, step: &Step, key: &[u8]) -> bool {
    let (word, number) = short(reply);
    let (_, _, wanted, told) = step;
    word == *wanted && number == *told && told_key(reply).is_none_or(|k| k.as_bytes() == key)
}

/// Makes the calls in turn. The place of the first whose reply is another, or tells another key.
pub fn first_other<O: Origin>(
    alloc: Global,
    depot: &mut Depot<O>,
    steps: &[Step],
    key: &[u8],
) -> Result<Option<usize>, Fail> {
    for (at, step) in steps.iter().enumerate() {
        let (caller, asked, _, _) = step;
        let reply = make_call(alloc, depot, *caller, *asked)?;
        if !is_of(&reply, step, key) {
            return Ok(Some(at));
        }
    }
    Ok(None)
}
