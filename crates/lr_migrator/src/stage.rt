//! What a migration keeps between a call and its reply, and each turn from one stage to the next.
ghost use Rattle.std.specs.Prelude.{◌≡◌, ◌≤◌, ◌+◌, suc, length};
ghost use Rattle.std.specs.Arc.{arc_value};
ghost use Rattle.sha2.specs.Sha256.{sha256};
ghost use Rattle.lr_walk.specs.Depot.{seen_reply};
ghost use Rattle.lr_migrator.specs.Progress.{beginning, copying, putting, finishing, leaving, ended, copying_on, advanced};
ghost use Rattle.lr_migrator.specs.Seen.{seen_end, Prepares, IsKept, need_of, MayTake};

use crate::migrate::{MigrateAction, MigrateEnd};
use lr_depot::{DepotCall, DepotReply};
use lr_manifest::{Chunk, Manifest};
use std::snapshot::Snapshot;
use std::sync::Arc;

#[derive(Drop)]
pub(crate) enum Stage {
    Begins,
    /// The chunk of the index is read, and so many are left after it.
    Copies {
        session: u64,
        index: u32,
        left: u32,
    },
    /// The chunk that was read is put.
    Puts {
        session: u64,
        index: u32,
        left: u32,
        chunk: Snapshot<Arc<Chunk>>,
    },
    Finishes {
        session: u64,
    },
    Leaves {
        session: u64,
        end: MigrateEnd,
    },
    Ends {
        end: Snapshot<MigrateEnd>,
    },
}

/// A stage with what is handed out next.
#[derive(Drop)]
pub(crate) struct Turn {
    pub(crate) stage: Stage,
    pub(crate) ready: MigrateAction,
}

fn to_finish(session: u64) -> Turn
    ensures { Prepares (finishing session) result }
{
    Turn {
        stage: Stage::Finishes { session },
        ready: MigrateAction::Depot(DepotCall::FinishMigrate { session }),
    }
}

fn to_copy(session: u64, index: u32, left: u32) -> Turn
    requires { index + left ≤ 4294967295 }
    ensures { Prepares (copying session index left) result }
{
    Turn {
        stage: Stage::Copies {
            session,
            index,
            left,
        },
        ready: MigrateAction::Depot(DepotCall::CopyRead { session, index }),
    }
}

fn to_leave(session: u64, end: MigrateEnd) -> Turn
    ensures { Prepares (leaving session (seen_end end)) result }
{
    Turn {
        stage: Stage::Leaves { session, end },
        ready: MigrateAction::Depot(DepotCall::Abandon { session }),
    }
}

fn to_end(end: MigrateEnd) -> Turn
    ensures { Prepares (ended (seen_end end)) result }
{
    let kept = Snapshot::of(&end);
    Turn {
        stage: Stage::Ends { end: kept },
        ready: MigrateAction::End(end),
    }
}

// The chunk that was read is put.
fn to_put(session: u64, index: u32, left: u32, chunk: Arc<Chunk>) -> Turn
    requires { index + left ≤ 4294967295 }
    ensures { Prepares (putting session index left (sha256 (arc_value chunk))) result }
{
    let kept = Snapshot::of(&chunk);
    Turn {
        stage: Stage::Puts {
            session,
            index,
            left,
            chunk: kept,
        },
        ready: MigrateAction::Depot(DepotCall::PutChunk { session, chunk }),
    }
}

// How many chunks an image has.
fn count_of(manifest: &Manifest) -> u32
    ensures { result ≡ length manifest.now.names }
{
    manifest.names().len() as u32
}

// So many chunks are left, from the first one on.
fn from_first(session: u64, left: u32) -> Turn
    ensures { Prepares (copying_on session 0 left) result }
{
    if left == 0 {
        to_finish(session)
    } else {
        to_copy(session, 0, left - 1)
    }
}

// So many chunks are left after the one of this index.
fn after(session: u64, index: u32, left: u32) -> Turn
    requires { index + left ≤ 4294967295 }
    ensures { Prepares (copying_on session (suc index) left) result }
{
    if left == 0 {
        to_finish(session)
    } else {
        to_copy(session, index + 1, left - 1)
    }
}

// The reply to BeginMigrate.
fn begun(reply: DepotReply) -> Turn
    ensures { Prepares (advanced beginning (seen_reply reply)) result }
{
    match reply {
        DepotReply::Moving {
            session,
            from: _,
            to: _,
            manifest,
        } => from_first(session, count_of(&manifest)),
        DepotReply::OutOfMemory => to_end(MigrateEnd::Memory),
        other => to_end(MigrateEnd::Other(other)),
    }
}

// The reply to CopyRead.
fn read_one(session: u64, index: u32, left: u32, reply: DepotReply) -> Turn
    requires { index + left ≤ 4294967295 }
    ensures { Prepares (advanced (copying session index left) (seen_reply reply)) result }
{
    match reply {
        DepotReply::Copied(chunk) => to_put(session, index, left, chunk),
        DepotReply::OutOfMemory => to_leave(session, MigrateEnd::Memory),
        other => to_leave(session, MigrateEnd::Other(other)),
    }
}

// The reply to PutChunk.
fn put_one(
    session: u64,
    index: u32,
    left: u32,
    chunk: Snapshot<Arc<Chunk>>,
    reply: DepotReply,
) -> Turn
    requires { index + left ≤ 4294967295 }
    ensures { Prepares (advanced (putting session index left (sha256 (arc_value chunk.value))) (seen_reply reply)) result }
{
    match reply {
        DepotReply::Kept => after(session, index, left),
        DepotReply::OutOfMemory => to_leave(session, MigrateEnd::Memory),
        other => to_leave(session, MigrateEnd::Other(other)),
    }
}

// The reply to FinishMigrate.
fn finished(session: u64, reply: DepotReply) -> Turn
    ensures { Prepares (advanced (finishing session) (seen_reply reply)) result }
{
    match reply {
        DepotReply::Moved { from, to } => to_end(MigrateEnd::Moved { from, to }),
        DepotReply::OutOfMemory => to_leave(session, MigrateEnd::Memory),
        other => to_leave(session, MigrateEnd::Other(other)),
    }
}

// What follows a reply. A stage that ended has asked no call.
pub(crate) fn advance(stage: Stage, reply: DepotReply) -> Turn
    requires kept { IsKept stage }
    requires taken { MayTake stage }
    ensures { Prepares (advanced (need_of stage) (seen_reply reply)) result }
{
    match stage {
        Stage::Begins => begun(reply),
        Stage::Copies {
            session,
            index,
            left,
        } => read_one(session, index, left, reply),
        Stage::Puts {
            session,
            index,
            left,
            chunk,
        } => put_one(session, index, left, chunk, reply),
        Stage::Finishes { session } => finished(session, reply),
        Stage::Leaves { session: _, end } => to_end(end),
        Stage::Ends { end: _ } => to_end(MigrateEnd::Memory),
    }
}
