//! What a creation keeps between a call and its reply, and each turn from one stage to the next.
ghost use Rattle.std.specs.Prelude.{◌≡◌, ◌≤◌, ◌+◌, ◌%◌, ◌++◌, ◌∷◌, [], length, true, IfOk, MatchResult};
ghost use Rattle.lr_manifest.specs.Manifest.{chunk_count};
ghost use Rattle.lr_convergent.specs.Sealed.{sealed_key, sealed_name};
ghost use Rattle.std.specs.Arc.{arc_value};
ghost use Rattle.sha2.specs.Sha256.{sha256};
ghost use Rattle.lr_walk.specs.Depot.{Reply, seen_reply, kept, no_session};
ghost use Rattle.lr_creator.specs.Creation.{Ending, with_memory, with_stop, no_parts, with_piece, IsPiece, nonce_of, fields_of, place_of};
ghost use Rattle.lr_creator.specs.Progress.{beginning, wanting, putting, finishing, leaving, ended, advanced, is_wanting, raw_len_of};
ghost use Rattle.lr_creator.specs.Seen.{seen_end, seen_parts, AreParts, Prepares, PreparesPiece, PreparesLeave, PreparesLast, IsKept, need_of, AdmitsAt};

use crate::create::{CreateAction, CreateEnd, Place};
use byteorder::{BigEndian, ByteOrder};
use lr_convergent::seal_chunk;
use lr_depot::{DepotCall, DepotReply};
use lr_manifest::{Chunk, ChunkKey, Manifest, Name, TenantKey};
use lr_origin::ImageName;
use lr_seal::{KeyTable, make_manifest};
use lr_spec::OutOfMemory;
use std::alloc::Global;
use std::snapshot::Snapshot;
use std::sync::Arc;

/// The pieces so far: how many bytes they have, their chunks' names and keys.
#[derive(Drop)]
pub(crate) struct Parts {
    pub(crate) raw_len: u64,
    pub(crate) names: Vec<Name>,
    pub(crate) keys: KeyTable,
}

#[derive(Drop)]
pub(crate) enum Stage {
    Begins {
        image: ImageName,
    },
    Wants {
        place: Place,
        parts: Parts,
    },
    Puts {
        place: Place,
        parts: Parts,
        name: Name,
    },
    Finishes {
        place: Place,
        manifest: Snapshot<Manifest>,
    },
    Leaves {
        session: u64,
        end: CreateEnd,
    },
    Ends {
        end: Snapshot<CreateEnd>,
    },
}

/// A stage with what is handed out next.
#[derive(Drop)]
pub(crate) struct Turn {
    pub(crate) stage: Stage,
    pub(crate) ready: Option<CreateAction>,
}

fn to_want(place: Place, parts: Parts) -> Turn
    requires { AreParts parts }
    ensures { Prepares (wanting place (seen_parts parts)) result }
{
    Turn {
        stage: Stage::Wants { place, parts },
        ready: None,
    }
}

fn to_leave(session: u64, end: CreateEnd) -> Turn
    ensures { Prepares (leaving session (seen_end end)) result }
{
    Turn {
        stage: Stage::Leaves { session, end },
        ready: Some(CreateAction::Depot(DepotCall::Abandon { session })),
    }
}

fn to_end(end: CreateEnd) -> Turn
    ensures { Prepares (ended (seen_end end)) result }
{
    let kept = Snapshot::of(&end);
    Turn {
        stage: Stage::Ends { end: kept },
        ready: Some(CreateAction::End(end)),
    }
}

// Leaves the session without memory.
fn to_leave_short(place: Place) -> Turn
    ensures { Prepares (leaving place.session with_memory) result }
{
    to_leave(place.session, CreateEnd::Memory)
}

// Leaves the session since the owner stops.
fn to_leave_stopped(place: Place) -> Turn
    ensures { Prepares (leaving place.session with_stop) result }
{
    to_leave(place.session, CreateEnd::Stopped)
}

// Seals a piece: its chunk, the chunk's name, and its key.
fn seal(
    alloc: Global,
    salt: &[u8; 32],
    plain: &[u8],
) -> Result<(Chunk, Name, ChunkKey), OutOfMemory>
    requires { length plain.now ≤ 524288 }
    ensures { IfOk result (λ r. (sha256 r.0 ≡ r.1.bytes) × ((r.1.bytes ≡ sealed_name salt.now plain.now) × (r.2.bytes ≡ sealed_key salt.now plain.now))) }
{
    let (chunk, key) = seal_chunk(alloc, salt, plain)?;
    let name = *chunk.name();
    Ok((chunk, name, key))
}

// The pieces so far, and one more.
fn add(mut parts: Parts, len: usize, name: Name, key: ChunkKey) -> Result<Parts, OutOfMemory>
    requires parts { AreParts parts }
    requires whole { parts.raw_len % 524288 ≡ 0 }
    requires len { (1 ≤ len) × (len ≤ 524288) }
    requires within { parts.raw_len + len ≤ 10737418240 }
    ensures parts { IfOk result AreParts }
    ensures added { IfOk result (λ r. seen_parts r ≡ record { raw_len = parts.raw_len + len; names = parts.names.items ++ name ∷ []; keys = parts.keys ++ key.bytes ∷ [] }) }
{
    parts.names.push(name)?;
    parts.keys.push(key)?;
    parts.raw_len += len as u64;
    Ok(parts)
}

// The chunk of this name is put.
fn put_turn(place: Place, parts: Parts, name: Name, chunk: Arc<Chunk>) -> Turn
    requires parts { AreParts parts }
    requires named { sha256 (arc_value chunk) ≡ name.bytes }
    ensures { Prepares (putting place (seen_parts parts) name) result }
{
    let session = place.session;
    Turn {
        stage: Stage::Puts { place, parts, name },
        ready: Some(CreateAction::Depot(DepotCall::PutChunk { session, chunk })),
    }
}

// Takes one piece more: its chunk is put next.
fn to_put(alloc: Global, place: Place, parts: Parts, plain: &[u8]) -> Result<Turn, OutOfMemory>
    requires parts { AreParts parts }
    requires piece { IsPiece parts.raw_len plain.now }
    ensures { IfOk result (λ turn. PreparesPiece (wanting place (seen_parts parts)) plain.now turn) }
{
    let (chunk, name, key) = seal(alloc, &place.salt, plain)?;
    let parts = add(parts, plain.len(), name, key)?;
    let chunk = Arc::new(alloc, chunk)?;
    Ok(put_turn(place, parts, name, chunk))
}

// The nonce of the creation.
fn nonce(place: Place) -> [u8; 12]
    ensures { result ≡ nonce_of place }
{
    let mut bytes = [0u8; 12];
    BigEndian::write_u32(&mut bytes[..4], place.root);
    BigEndian::write_u64(&mut bytes[4..], place.number);
    bytes
}

// All pieces were given: the manifest is put next.
fn to_finish(
    alloc: Global,
    tenant: &TenantKey,
    place: Place,
    parts: Parts,
) -> Result<Turn, OutOfMemory>
    requires parts { AreParts parts }
    ensures { IfOk result (λ turn. Prepares (finishing place (fields_of tenant.now.bytes place (seen_parts parts))) turn) }
{
    let manifest = make_manifest(
        alloc,
        parts.raw_len,
        parts.names,
        &parts.keys,
        nonce(place),
        tenant,
    )?;
    let kept = Snapshot::of(&manifest);
    let manifest = Arc::new(alloc, manifest)?;
    let session = place.session;
    Ok(Turn {
        stage: Stage::Finishes {
            place,
            manifest: kept,
        },
        ready: Some(CreateAction::Depot(DepotCall::PutManifest { session, manifest })),
    })
}

// The piece's chunk is put, or the session left.
pub(crate) fn piece_turn(
    alloc: Global,
    stage: Stage,
    plain: &[u8],
) -> (Turn, Result<(), OutOfMemory>)
    requires kept { IsKept stage }
    requires wants { is_wanting (need_of stage) ≡ true }
    requires piece { IsPiece (raw_len_of (need_of stage)) plain.now }
    ensures { MatchResult result.1 (λ _. PreparesPiece (need_of stage) plain.now result.0) (λ _. PreparesLeave (need_of stage) with_memory result.0) }
{
    let Stage::Wants { place, parts } = stage else {
        return (to_end(CreateEnd::Memory), Err(OutOfMemory));
    };
    match to_put(alloc, place, parts, plain) {
        Ok(turn) => (turn, Ok(())),
        Err(error) => (to_leave_short(place), Err(error)),
    }
}

// After the last piece, the manifest is put, or the session left.
pub(crate) fn last_turn(alloc: Global, tenant: &TenantKey, stage: Stage) -> Turn
    requires kept { IsKept stage }
    requires wants { is_wanting (need_of stage) ≡ true }
    ensures { PreparesLast tenant.now.bytes (need_of stage) result }
{
    let Stage::Wants { place, parts } = stage else {
        return to_end(CreateEnd::Memory);
    };
    match to_finish(alloc, tenant, place, parts) {
        Ok(turn) => turn,
        Err(_) => to_leave_short(place),
    }
}

// The owner stops: the session is left.
pub(crate) fn stop_turn(stage: Stage) -> Turn
    requires wants { is_wanting (need_of stage) ≡ true }
    ensures { PreparesLeave (need_of stage) with_stop result }
{
    let Stage::Wants { place, parts: _ } = stage else {
        return to_end(CreateEnd::Memory);
    };
    to_leave_stopped(place)
}

// The reply to BeginCreate.
fn begun(alloc: Global, image: ImageName, reply: DepotReply) -> Turn
    ensures { Prepares (advanced (beginning image) (seen_reply reply)) result }
{
    match reply {
        DepotReply::Began {
            session,
            root,
            salt,
            number,
        } => to_want(
            Place {
                session,
                root,
                salt,
                number,
            },
            Parts {
                raw_len: 0,
                names: Vec::new(alloc),
                keys: KeyTable::new(alloc),
            },
        ),
        DepotReply::OutOfMemory => to_end(CreateEnd::Memory),
        other => to_end(CreateEnd::Other(other)),
    }
}

// The reply to PutChunk.
fn put_one(place: Place, parts: Parts, name: Name, reply: DepotReply) -> Turn
    requires { AreParts parts }
    ensures { Prepares (advanced (putting place (seen_parts parts) name) (seen_reply reply)) result }
{
    match reply {
        DepotReply::Kept => to_want(place, parts),
        DepotReply::OutOfMemory => to_leave(place.session, CreateEnd::Memory),
        other => to_leave(place.session, CreateEnd::Other(other)),
    }
}

// The reply to PutManifest.
fn put_last(place: Place, manifest: Snapshot<Manifest>, reply: DepotReply) -> Turn
    ensures { Prepares (advanced (finishing place manifest.value) (seen_reply reply)) result }
{
    match reply {
        DepotReply::Made { root } => to_end(CreateEnd::Made { root }),
        DepotReply::OutOfMemory => to_leave(place.session, CreateEnd::Memory),
        other => to_leave(place.session, CreateEnd::Other(other)),
    }
}

// What follows a reply. No stage that wants more has asked a call.
pub(crate) fn advance(alloc: Global, stage: Stage, reply: DepotReply) -> Turn
    requires kept { IsKept stage }
    requires admitted { AdmitsAt stage (seen_reply reply) }
    ensures { Prepares (advanced (need_of stage) (seen_reply reply)) result }
{
    match stage {
        Stage::Begins { image } => begun(alloc, image, reply),
        Stage::Wants { place, parts } => to_want(place, parts),
        Stage::Puts { place, parts, name } => put_one(place, parts, name, reply),
        Stage::Finishes { place, manifest } => put_last(place, manifest, reply),
        Stage::Leaves { session: _, end } => to_end(end),
        Stage::Ends { end: _ } => to_end(CreateEnd::Memory),
    }
}
