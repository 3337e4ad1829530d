//! The answer of a job that the depot ends.
ghost use Rattle.std.specs.Prelude.{◌≡◌};
ghost use Rattle.lr_walk.specs.Depot.{seen_reply};
ghost use Rattle.lr_walk.specs.Steps.{by_depot};
ghost use Rattle.lr_actors.specs.Asked.{seen_reply as job_reply};
ghost use Rattle.lr_actors.specs.Lifted.{answer_to, IsOfDepot};

use crate::action::ActorReply;
use lr_depot::DepotReply;
use lr_walk::Answer;

/// The answer of a job that a reply of the depot ends. It takes no memory.
pub(crate) fn answer_of_depot(reply: DepotReply) -> Answer
    ensures { result ≡ answer_to (seen_reply reply) }
{
    match reply {
        DepotReply::Made { root } => Answer::Created(root),
        DepotReply::Rotated { root } => Answer::Root(root),
        DepotReply::Moved { from, to } => Answer::Moved(from, to),
        DepotReply::Withdrawn => Answer::Withdrawn,
        DepotReply::Expired => Answer::Expired,
        DepotReply::Deleted => Answer::Deleted,
        DepotReply::There => Answer::There,
        DepotReply::Absent => Answer::Absent,
        DepotReply::Closed => Answer::Closed,
        DepotReply::NoImage => Answer::NoImage,
        DepotReply::NoRoot => Answer::NoRoot,
        DepotReply::Taken => Answer::Taken,
        DepotReply::Full => Answer::Full,
        DepotReply::RootsEnd => Answer::RootsEnd,
        DepotReply::Overtaken { home } => Answer::Overtaken(home),
        DepotReply::NotExpired => Answer::NotExpired,
        DepotReply::NotDeleted => Answer::NotDeleted,
        DepotReply::NoDoubt => Answer::NoDoubt,
        DepotReply::Serves(image) => Answer::Serves(image),
        DepotReply::Session(session) => Answer::Session(session),
        DepotReply::Doubt(key) => Answer::Doubt(key),
        DepotReply::NotRetiredHome { home } => Answer::NotRetiredHome(home),
        DepotReply::NotRetired => Answer::NotRetired,
        DepotReply::Fault(key) => Answer::Fault(key),
        DepotReply::Spoiled(key) => Answer::Spoiled(key),
        DepotReply::Opened { .. } => Answer::Memory,
        DepotReply::NoLease => Answer::Memory,
        DepotReply::NoChunk => Answer::Memory,
        DepotReply::Fetched(_) => Answer::Memory,
        DepotReply::Began { .. } => Answer::Memory,
        DepotReply::NoSession => Answer::Memory,
        DepotReply::Kept => Answer::Memory,
        DepotReply::Nonce => Answer::Memory,
        DepotReply::Missing(_) => Answer::Memory,
        DepotReply::Abandoned => Answer::Memory,
        DepotReply::Moving { .. } => Answer::Memory,
        DepotReply::Copied(_) => Answer::Memory,
        DepotReply::Removed(_) => Answer::Memory,
        DepotReply::Swept => Answer::Memory,
        DepotReply::Reaped => Answer::Memory,
        DepotReply::Nothing => Answer::Memory,
        DepotReply::OutOfMemory => Answer::Memory,
    }
}

/// The reply of the depot.
pub(crate) fn of_depot(reply: ActorReply) -> DepotReply
    requires { IsOfDepot (job_reply reply) }
    ensures { by_depot (seen_reply result) ≡ job_reply reply }
{
    match reply {
        ActorReply::Depot(reply) => reply,
        _ => unreachable!(),
    }
}
