//! The calls of the scope.
use crate::error::ScopeError;
use crate::images::{Image, SALT, Scope, manifest};
use crate::record::Record;
use lr_depot::DepotCall;
use std::alloc::Global;

/// A call in short. A lease or a session is named by its place among those that are out, a key in doubt by its place
/// among those that are.
#[derive(Clone, Copy, Debug, PartialEq, Eq)]
pub enum Ask {
    Open(Image),
    Fetch(usize),
    Close(usize),
    Begin(Image),
    Chunk(usize),
    Manifest(usize),
    Abandon(usize),
    Rotate,
    Migrate(Image),
    Copy(usize),
    Finish(usize),
    Withdraw(Image),
    Expire(u32),
    Delete(u32),
    Sweep(u32),
    Settle(usize),
    Reap,
}

/// A caller and its call.
pub type Move = (u32, Ask);

/// The call that begins a root.
pub const ROTATION: &[Move] = &[(1, Ask::Rotate)];

/// All other calls. Those that have nothing to do with a session are made by one caller alone, since no reply tells who
/// made them.
pub const MOVES: &[Move] = &[
    (1, Ask::Open(Image::A)),
    (1, Ask::Open(Image::B)),
    (1, Ask::Fetch(0)),
    (1, Ask::Close(0)),
    (1, Ask::Close(1)),
    (1, Ask::Withdraw(Image::A)),
    (1, Ask::Withdraw(Image::B)),
    (1, Ask::Expire(1)),
    (1, Ask::Expire(2)),
    (1, Ask::Delete(1)),
    (1, Ask::Delete(2)),
    (1, Ask::Sweep(1)),
    (1, Ask::Sweep(2)),
    (1, Ask::Settle(0)),
    (1, Ask::Begin(Image::A)),
    (1, Ask::Begin(Image::B)),
    (1, Ask::Chunk(0)),
    (1, Ask::Chunk(1)),
    (1, Ask::Manifest(0)),
    (1, Ask::Manifest(1)),
    (1, Ask::Abandon(0)),
    (1, Ask::Abandon(1)),
    (1, Ask::Migrate(Image::A)),
    (1, Ask::Migrate(Image::B)),
    (1, Ask::Copy(0)),
    (1, Ask::Copy(1)),
    (1, Ask::Finish(0)),
    (1, Ask::Finish(1)),
    (1, Ask::Reap),
    (2, Ask::Begin(Image::A)),
    (2, Ask::Begin(Image::B)),
    (2, Ask::Chunk(0)),
    (2, Ask::Chunk(1)),
    (2, Ask::Manifest(0)),
    (2, Ask::Manifest(1)),
    (2, Ask::Abandon(0)),
    (2, Ask::Abandon(1)),
    (2, Ask::Migrate(Image::A)),
    (2, Ask::Migrate(Image::B)),
    (2, Ask::Copy(0)),
    (2, Ask::Copy(1)),
    (2, Ask::Finish(0)),
    (2, Ask::Finish(1)),
    (2, Ask::Reap),
];

// The manifest that the session of a place is to put.
fn put_manifest(alloc: Global, record: &Record, at: usize) -> Result<DepotCall, ScopeError> {
    let Some(session) = record.session(at) else {
        return Ok(DepotCall::PutManifest {
            session: 0,
            manifest: manifest(alloc, Image::A, 1, 1)?,
        });
    };
    Ok(DepotCall::PutManifest {
        session: session.number,
        manifest: manifest(alloc, session.image, session.to, session.creation)?,
    })
}

/// The call, where these leases and sessions are out.
pub fn call_of(
    alloc: Global,
    scope: &Scope,
    record: &Record,
    asked: Ask,
) -> Result<DepotCall, ScopeError> {
    Ok(match asked {
        Ask::Open(image) => DepotCall::OpenImage {
            image: scope.name(image),
        },
        Ask::Fetch(at) => DepotCall::Fetch {
            lease: record.lease_number(at),
            index: 0,
        },
        Ask::Close(at) => DepotCall::Close {
            lease: record.lease_number(at),
        },
        Ask::Begin(image) => DepotCall::BeginCreate {
            image: scope.name(image),
        },
        Ask::Chunk(at) => DepotCall::PutChunk {
            session: record.session_number(at),
            chunk: scope.chunk()?,
        },
        Ask::Manifest(at) => put_manifest(alloc, record, at)?,
        Ask::Abandon(at) => DepotCall::Abandon {
            session: record.session_number(at),
        },
        Ask::Rotate => DepotCall::Rotate { salt: SALT },
        Ask::Migrate(image) => DepotCall::BeginMigrate {
            image: scope.name(image),
        },
        Ask::Copy(at) => DepotCall::CopyRead {
            session: record.session_number(at),
            index: 0,
        },
        Ask::Finish(at) => DepotCall::FinishMigrate {
            session: record.session_number(at),
        },
        Ask::Withdraw(image) => DepotCall::Withdraw {
            image: scope.name(image),
        },
        Ask::Expire(root) => DepotCall::Expire { root },
        Ask::Delete(root) => DepotCall::Delete { root },
        Ask::Sweep(root) => DepotCall::Sweep { root },
        Ask::Settle(at) => DepotCall::Settle {
            key: scope.key(record.doubt_place(at))?,
        },
        Ask::Reap => DepotCall::Reap,
    })
}
