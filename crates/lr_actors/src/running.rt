//! A job under way, of any kind.
ghost use Rattle.std.specs.Prelude.{◌≡◌, ◌<◌, true, false, length, Some, slice_get};
ghost use Rattle.lr_actors.specs.Places.{seen_place};
ghost use Rattle.lr_actors.specs.Asked.{seen_reply};
ghost use Rattle.lr_actors.specs.Serving as serving;
ghost use Rattle.lr_actors.specs.Singles as singles;
ghost use Rattle.lr_actors.specs.Forging as forging;
ghost use Rattle.lr_actors.specs.Collecting as collecting;
ghost use Rattle.lr_actors.specs.Migrating as migrating;
ghost use Rattle.lr_actors.specs.Creating as creating;
ghost use Rattle.lr_actors.specs.Running.{is_ready, Admits, IsAtHome, Went, HandsOut};
ghost use Rattle.lr_actors.specs.Jobs.{seen_context};
ghost use Rattle.lr_actors.specs.declared.running.Running.TheVariants.{Serves, Makes, Forges, Collects, Migrates, Creates};

use crate::action::{ActorCall, ActorReply, JobAction};
use crate::collecting::CollectingJob;
use crate::creating::CreatingJob;
use crate::forge::ForgeJob;
use crate::migrating::MigratingJob;
use crate::place::{Context, DevicePlace};
use crate::serving::DeviceJob;
use crate::single::SingleJob;
use lr_walk::Answer;

/// A job under way.
#[derive(Drop)]
pub enum Running {
    /// The call of a device, by its number.
    Serves(u32, DeviceJob),
    Makes(SingleJob),
    Forges(ForgeJob),
    Collects(CollectingJob),
    Migrates(MigratingJob),
    Creates(CreatingJob),
}

/// A job that handed out its call, or its end.
#[derive(Drop)]
pub enum JobTurn {
    Goes(Running, ActorCall),
    Ends(Answer),
}

fn hand_serving(device: u32, mut job: DeviceJob) -> JobTurn
    requires { job.ready ≡ true }
    ensures { HandsOut (Serves device job) result }
{
    match job.next() {
        JobAction::Call(call) => JobTurn::Goes(Running::Serves(device, job), call),
        JobAction::End(answer) => JobTurn::Ends(answer),
    }
}

fn hand_single(mut job: SingleJob) -> JobTurn
    requires { job.ready ≡ true }
    ensures { HandsOut (Makes job) result }
{
    match job.next() {
        JobAction::Call(call) => JobTurn::Goes(Running::Makes(job), call),
        JobAction::End(answer) => JobTurn::Ends(answer),
    }
}

fn hand_forge(mut job: ForgeJob) -> JobTurn
    requires { job.ready ≡ true }
    ensures { HandsOut (Forges job) result }
{
    match job.next() {
        JobAction::Call(call) => JobTurn::Goes(Running::Forges(job), call),
        JobAction::End(answer) => JobTurn::Ends(answer),
    }
}

fn hand_collecting(mut job: CollectingJob) -> JobTurn
    requires { job.ready ≡ true }
    ensures { HandsOut (Collects job) result }
{
    match job.next() {
        JobAction::Call(call) => JobTurn::Goes(Running::Collects(job), call),
        JobAction::End(answer) => JobTurn::Ends(answer),
    }
}

fn hand_migrating(mut job: MigratingJob) -> JobTurn
    requires { job.ready ≡ true }
    ensures { HandsOut (Migrates job) result }
{
    match job.next() {
        JobAction::Call(call) => JobTurn::Goes(Running::Migrates(job), call),
        JobAction::End(answer) => JobTurn::Ends(answer),
    }
}

fn hand_creating(mut job: CreatingJob) -> JobTurn
    requires { job.create.ready ≡ true }
    ensures { HandsOut (Creates job) result }
{
    match job.next() {
        JobAction::Call(call) => JobTurn::Goes(Running::Creates(job), call),
        JobAction::End(answer) => JobTurn::Ends(answer),
    }
}

/// The place of a device.
pub(crate) fn place_at(context: &Context, device: u32) -> &DevicePlace
    requires { device < length (seen_context context.now).devices }
    ensures { slice_get (seen_context context.now).devices device ≡ Some (seen_place result.now) }
{
    &context.devices[device as usize]
}

/// Hands out the call of a job, or its end.
pub(crate) fn hand_out(job: Running) -> JobTurn
    requires { is_ready job ≡ true }
    ensures { HandsOut job result }
{
    match job {
        Running::Serves(device, job) => hand_serving(device, job),
        Running::Makes(job) => hand_single(job),
        Running::Forges(job) => hand_forge(job),
        Running::Collects(job) => hand_collecting(job),
        Running::Migrates(job) => hand_migrating(job),
        Running::Creates(job) => hand_creating(job),
    }
}

fn take_serving(device: u32, mut job: DeviceJob, context: &Context, reply: ActorReply) -> Running
    requires handed { job.ready ≡ false }
    requires home { slice_get (seen_context context.now).devices device ≡ Some job.work.place }
    requires admitted { serving.Admits job.work job.need (seen_reply reply) }
    ensures { Went (Serves device job) (seen_reply reply) result }
{
    job.take(place_at(context, device), reply);
    Running::Serves(device, job)
}

fn take_single(mut job: SingleJob, reply: ActorReply) -> Running
    requires handed { job.ready ≡ false }
    requires admitted { singles.Admits job.single job.need (seen_reply reply) }
    ensures { Went (Makes job) (seen_reply reply) result }
{
    job.take(reply);
    Running::Makes(job)
}

fn take_forge(mut job: ForgeJob, reply: ActorReply) -> Running
    requires handed { job.ready ≡ false }
    requires admitted { forging.Admits job.need (seen_reply reply) }
    ensures { Went (Forges job) (seen_reply reply) result }
{
    job.take(reply);
    Running::Forges(job)
}

fn take_collecting(mut job: CollectingJob, reply: ActorReply) -> Running
    requires handed { job.ready ≡ false }
    requires admitted { collecting.Admits job (seen_reply reply) }
    ensures { Went (Collects job) (seen_reply reply) result }
{
    job.take(reply);
    Running::Collects(job)
}

fn take_migrating(mut job: MigratingJob, reply: ActorReply) -> Running
    requires handed { job.ready ≡ false }
    requires admitted { migrating.Admits job (seen_reply reply) }
    ensures { Went (Migrates job) (seen_reply reply) result }
{
    job.take(reply);
    Running::Migrates(job)
}

fn take_creating(mut job: CreatingJob, reply: ActorReply) -> Running
    requires handed { job.create.ready ≡ false }
    requires admitted { creating.Admits job (seen_reply reply) }
    ensures { Went (Creates job) (seen_reply reply) result }
{
    job.take(reply);
    Running::Creates(job)
}

/// A job takes the reply to its call.
pub(crate) fn take_in(job: Running, context: &Context, reply: ActorReply) -> Running
    requires handed { is_ready job ≡ false }
    requires home { IsAtHome (seen_context context.now) job }
    requires admitted { Admits job (seen_reply reply) }
    ensures { Went job (seen_reply reply) result }
{
    match job {
        Running::Serves(device, job) => take_serving(device, job, context, reply),
        Running::Makes(job) => take_single(job, reply),
        Running::Forges(job) => take_forge(job, reply),
        Running::Collects(job) => take_collecting(job, reply),
        Running::Migrates(job) => take_migrating(job, reply),
        Running::Creates(job) => take_creating(job, reply),
    }
}
