//! What a collection keeps between a call and its reply, and each turn from one stage to the next.
ghost use Rattle.std.specs.Prelude.{◌≡◌};
ghost use Rattle.lr_spec.specs.Rose.{next_count};
ghost use Rattle.lr_walk.specs.Depot.{seen_call, seen_reply};
ghost use Rattle.lr_collector.specs.declared.collect.CollectJob.TheVariants.{Sweep};
ghost use Rattle.lr_collector.specs.Collection.{call_of, end_of};
ghost use Rattle.lr_collector.specs.Progress.{asking, ended, advanced};
ghost use Rattle.lr_collector.specs.Seen.{seen_end, Prepares, need_of, MayTake};

use crate::collect::{CollectAction, CollectEnd, CollectJob};
use lr_depot::{DepotCall, DepotReply};
use std::snapshot::Snapshot;

#[derive(Drop)]
pub(crate) enum Stage {
    /// The call of the job is asked. A sweep removed so many keys.
    Asks { count: u64 },
    Ends { end: Snapshot<CollectEnd> },
}

/// A stage with what is handed out next.
#[derive(Drop)]
pub(crate) struct Turn {
    pub(crate) stage: Stage,
    pub(crate) ready: CollectAction,
}

// The call of a job.
pub(crate) fn call_of(job: &CollectJob) -> DepotCall
    ensures { seen_call result ≡ call_of job.now }
{
    match *job {
        CollectJob::Rotate { salt } => DepotCall::Rotate { salt },
        CollectJob::Withdraw { image } => DepotCall::Withdraw { image },
        CollectJob::Expire { root } => DepotCall::Expire { root },
        CollectJob::Delete { root } => DepotCall::Delete { root },
        CollectJob::Sweep { root } => DepotCall::Sweep { root },
        CollectJob::Settle { key } => DepotCall::Settle { key },
    }
}

fn to_ask(job: CollectJob, count: u64) -> Turn
    ensures { Prepares job (asking count) result }
{
    Turn {
        stage: Stage::Asks { count },
        ready: CollectAction::Depot(call_of(&job)),
    }
}

fn to_end(_job: CollectJob, end: CollectEnd) -> Turn
    ensures { Prepares _job (ended (seen_end end)) result }
{
    let kept = Snapshot::of(&end);
    Turn {
        stage: Stage::Ends { end: kept },
        ready: CollectAction::End(end),
    }
}

// One key more was removed.
fn one_more(count: u64) -> u64
    ensures { result ≡ next_count count }
{
    count.saturating_add(1)
}

// The reply to Sweep after so many keys were removed.
fn swept_once(root: u32, count: u64, reply: DepotReply) -> Turn
    ensures { Prepares (Sweep root) (advanced (Sweep root) (asking count) (seen_reply reply)) result }
{
    let job = CollectJob::Sweep { root };
    match reply {
        DepotReply::Removed(_) => to_ask(job, one_more(count)),
        DepotReply::Swept => to_end(job, CollectEnd::Swept { count }),
        DepotReply::OutOfMemory => to_end(job, CollectEnd::Memory),
        other => to_end(job, CollectEnd::Answered(other)),
    }
}

// The reply to the one call of a job.
fn answered(job: CollectJob, reply: DepotReply) -> Turn
    ensures { Prepares job (ended (end_of (seen_reply reply))) result }
{
    match reply {
        DepotReply::OutOfMemory => to_end(job, CollectEnd::Memory),
        other => to_end(job, CollectEnd::Answered(other)),
    }
}

// What follows a reply. A stage that ended has asked no call.
pub(crate) fn advance(job: CollectJob, stage: Stage, reply: DepotReply) -> Turn
    requires { MayTake stage }
    ensures { Prepares job (advanced job (need_of stage) (seen_reply reply)) result }
{
    let Stage::Asks { count } = stage else {
        return to_end(job, CollectEnd::Memory);
    };
    match job {
        CollectJob::Sweep { root } => swept_once(root, count, reply),
        other => answered(other, reply),
    }
}
