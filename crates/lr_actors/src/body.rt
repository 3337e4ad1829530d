//! The work of an actor: what it keeps, and how it goes on.
//!
//! `prepare` begins the next job, `take_reply` steps the job under way, and `crash` ends all that is left. What an actor was made
//! with stands in a `Setting`, which nothing changes.
ghost use Rattle.std.specs.Prelude.{◌≡◌, ◌<◌, ◌≤◌, ◌+◌, List, [], true, false, length, IfOk, vec_len, Some, slice_get, MatchBool, MatchOption};
ghost use Rattle.std.specs.Arc.{arc_value};
ghost use Rattle.std.specs.List.{AllByRecursion};
ghost use Rattle.lr_spec.specs.Rose.{next_count};
ghost use Rattle.lr_text.specs.Bytes.{bytes_of_runs as bytes_seen};
ghost use Rattle.lr_script.specs.Seen.{job_seen, body_seen};
ghost use Rattle.lr_walk.specs.Steps.{is_memory as is_memory_reply};
ghost use Rattle.lr_actors.specs.declared.trail.ActorState.TheVariants.{Unfinished, Crashed, Ended};
ghost use Rattle.lr_actors.specs.declared.body.Stage.TheVariants.{Idles};
ghost use Rattle.lr_actors.specs.Asked.{a_call, seen_reply, HandsCall, MayCall};
ghost use Rattle.lr_actors.specs.Running.{task_of, is_ready, Admits, steps_left};
ghost use Rattle.lr_actors.specs.Creating.{raw_of};
ghost use Rattle.lr_actors.specs.Bounds.{chunks};
ghost use Rattle.lr_actors.specs.Jobs.{seen_context, job_of, WalksJob, bound_of};
ghost use Rattle.lr_actors.specs.Begun.{IsContext, IsJob, IsBegun};
ghost use Rattle.lr_actors.specs.Accounts.{IsEnd};
ghost use Rattle.lr_actors.specs.Actor.{AreHosted, MayBeGiven, object_called, IsUnderWay, FitsCrash, reap_count, reap_at, reap_of, IsNew, Hands, Fronts, handed, Took, Passed};
ghost use Rattle.lr_actors.specs.Actor.{Admits as AdmitsReply};
ghost use Rattle.lr_actors.specs.Trailed.{jobs_seen, IsTrailOf};
ghost use Rattle.lr_actors.specs.Tally.{Has};
ghost use Rattle.lr_actors.specs.Book.{IsBook, HasRoom};
ghost use Rattle.lr_actors.specs.Body.{context_of, hosts_of, jobs_of, out_of, seen, is_busy, is_removal, IsSetting, BookFits, HasEnded, IsBetween, Next, StandsForSome, IsGoing, IsWorking, IsWholeBody, Skips, Prepares, CutsOne, Fills, AddsUnbegun, Crashes, EndsJob, IsSweep, IsNextCall, HasRoomUnless, GoesOn, Writes, Steps, Takes, IsReaped, after_reap, ReapsWithin, IsHanded};

use crate::action::{ActorCall, ActorReply};
use crate::actor::ActorAction;
use crate::begin::{Begun, begin};
use crate::book::{Book, finish, make_room, note, open};
use crate::place::Context;
use crate::running::{JobTurn, Running, hand_out, take_in};
use crate::trail::{ActorState, Trail};
use lr_cache::{CacheCall, CacheReply};
use lr_depot::{DepotCall, DepotReply};
use lr_device::{DeviceAnswer, DeviceStep};
use lr_nodes::NodeReply;
use lr_object::ObjectId;
use lr_script::{Body as Bytes, Job};
use lr_spec::OutOfMemory;
use lr_walk::Answer;
use std::alloc::Global;
use std::mem;
use std::sync::Arc;

/// What an actor was made with.
#[derive(Drop)]
pub(crate) struct Setting {
    pub(crate) alloc: Global,
    pub(crate) number: u32,
    pub(crate) jobs: Vec<Job>,
    pub(crate) crash: Option<u64>,
    pub(crate) context: Arc<Context>,
}

/// A job under way, the object that it calls, and its call until it is handed out.
#[derive(Drop)]
pub(crate) struct Working {
    pub(crate) job: Running,
    pub(crate) object: ObjectId,
    pub(crate) call: Option<ActorCall>,
}

/// What an actor does now.
#[derive(Drop)]
pub(crate) enum Stage {
    Works(Working),
    /// It begins a job that makes no step.
    Idles,
    /// After a crash it made so many of its reaps, and the next one was handed out or not.
    Reaps(u64, bool),
    Over,
}

#[derive(Drop)]
pub(crate) struct Body {
    pub(crate) setting: Setting,
    pub(crate) book: Book,
    pub(crate) stage: Stage,
}

// The object that is called.
fn object_of(call: &ActorCall) -> ObjectId
    ensures { result ≡ object_called call.now }
{
    match call {
        ActorCall::Device(n, _) => ObjectId::Device(*n),
        ActorCall::Cache(n, _) => ObjectId::Cache(*n),
        ActorCall::Node(n, _) => ObjectId::Node(*n),
        ActorCall::Depot(_) => ObjectId::Depot,
    }
}

fn hold(job: Running, call: ActorCall) -> Working
    ensures { result ≡ record { job = job; object = object_called call; call = Some call } }
{
    let object = object_of(&call);
    Working {
        job,
        object,
        call: Some(call),
    }
}

fn answers_busy(reply: &ActorReply) -> bool
    ensures { result ≡ is_busy (seen_reply reply.now) }
{
    matches!(reply, ActorReply::Cache(CacheReply::Busy { .. }))
}

fn answers_removed(reply: &ActorReply) -> bool
    ensures { result ≡ is_removal (seen_reply reply.now) }
{
    matches!(reply, ActorReply::Depot(DepotReply::Removed(_)))
}

fn answers_memory(reply: &ActorReply) -> bool
    ensures { result ≡ is_memory_reply (seen_reply reply.now) }
{
    match reply {
        ActorReply::Device(DeviceAnswer::OutOfMemory) => true,
        ActorReply::Cache(CacheReply::OutOfMemory) => true,
        ActorReply::Node(NodeReply::OutOfMemory) => true,
        ActorReply::Depot(DepotReply::OutOfMemory) => true,
        _ => false,
    }
}

fn one_more(count: u64) -> u64
    ensures { result ≡ next_count count }
{
    count.saturating_add(1)
}

// How many bytes runs have.
fn runs_len(runs: &[(u64, u8)]) -> u64
    requires { length (bytes_seen runs.now) ≤ 10737418240 }
    ensures { result ≡ length (bytes_seen runs.now) }
{
    let mut len: u64 = 0;
    for run in runs {
        len += run.0;
    }
    len
}

// How many bytes a body has.
fn raw_len(whole: u64, body: &Bytes) -> u64
    requires { length (raw_of whole (body_seen body.now)) ≤ 10737418240 }
    ensures { result ≡ length (raw_of whole (body_seen body.now)) }
{
    match body {
        Bytes::Runs(runs) => whole.max(runs_len(runs)),
        Bytes::Seed(_) => whole,
    }
}

fn chunks_of(len: u64) -> u64
    requires { len ≤ 10737418240 }
    ensures { result ≡ chunks len }
{
    len.div_ceil(524288)
}

// The most steps that a job makes.
fn bound(context: &Context, job: &Job) -> u64
    requires { IsJob (seen_context context.now) (job_of (job_seen job.now)) }
    ensures { result ≡ bound_of (job_of (job_seen job.now)) }
{
    match job {
        Job::Read(..) | Job::Zero(..) | Job::Write(..) => 44,
        Job::Create(_, _, whole, body) => chunks_of(raw_len(*whole, body)) + 3,
        Job::Migrate(_) => 40963,
        Job::Forge(..) => 5,
        _ => 1,
    }
}

// The job of the next result.
fn next_job<'a>(setting: &'a Setting, book: &Book) -> &'a Job
    requires { length book.now.trail.results.items < vec_len setting.now.jobs }
    ensures { slice_get (jobs_of setting.now) (length book.now.trail.results.items) ≡ Some (job_of (job_seen result.now)) }
{
    &setting.jobs[book.trail.results.len()]
}

// The next job ends with no step.
fn skip(setting: &Setting, book: &mut Book, answer: Answer)
    requires between { IsBetween setting.now book.old }
    requires walks { Next setting.now book.old (λ job. WalksJob (context_of setting.now) job [] answer) }
    ensures { Skips setting.now book.old book.new }
{
    finish(setting.alloc, book, answer);
}

// The next job ended with no step, or it is an idle one.
fn pass_over(setting: &Setting, book: &mut Book, answer: Answer) -> Option<Stage>
    requires setting { IsSetting setting.now }
    requires between { IsBetween setting.now book.old }
    requires crash { FitsCrash setting.now.crash Unfinished book.old.made }
    requires walks { Next setting.now book.old (λ job. WalksJob (context_of setting.now) job [] answer) }
    ensures { MatchOption result (Skips setting.now book.old book.new) (Prepares setting.now book.old book.new) }
{
    match answer {
        Answer::NoChunk => Some(Stage::Idles),
        other => {
            skip(setting, book, other);
            None
        }
    }
}

// A job that was begun hands out its call, or it has ended.
fn start(setting: &Setting, book: &mut Book, job: Running) -> Option<Stage>
    requires setting { IsSetting setting.now }
    requires between { IsBetween setting.now book.old }
    requires crash { FitsCrash setting.now.crash Unfinished book.old.made }
    requires begun { Next setting.now book.old (λ j. IsBegun (context_of setting.now) j job) }
    requires room { HasRoom (steps_left job) book.old }
    ensures { MatchOption result (Skips setting.now book.old book.new) (Prepares setting.now book.old book.new) }
{
    match hand_out(job) {
        JobTurn::Goes(job, call) => Some(Stage::Works(hold(job, call))),
        JobTurn::Ends(answer) => {
            skip(setting, book, answer);
            None
        }
    }
}

// Begins the next job. `None` where it ended with no step.
fn begin_next(setting: &Setting, book: &mut Book) -> Option<Stage>
    requires setting { IsSetting setting.now }
    requires between { IsBetween setting.now book.old }
    requires crash { FitsCrash setting.now.crash Unfinished book.old.made }
    requires more { length book.old.trail.results.items < vec_len setting.now.jobs }
    ensures { MatchOption result (Skips setting.now book.old book.new) (Prepares setting.now book.old book.new) }
{
    let job = next_job(setting, book);
    if !make_room(book, bound(&setting.context, job)) {
        return pass_over(setting, book, Answer::Memory);
    }
    match begin(setting.alloc, &setting.context, job) {
        Begun::Under(running) => start(setting, book, running),
        Begun::Over(answer) => pass_over(setting, book, answer),
    }
}

// All jobs have ended.
fn close(setting: &Setting, book: &mut Book) -> Stage
    requires setting { IsSetting setting.now }
    requires between { IsBetween setting.now book.old }
    requires crash { FitsCrash setting.now.crash Ended book.old.made }
    requires each { length book.old.trail.results.items ≡ vec_len setting.now.jobs }
    ensures { Prepares setting.now book.old book.new result }
{
    book.trail.state = ActorState::Ended;
    Stage::Over
}

/// Begins jobs until one has a call or an idle step, or all have ended.
fn prepare(setting: &Setting, book: &mut Book) -> Stage
    requires setting { IsSetting setting.now }
    requires between { IsBetween setting.now book.old }
    requires crash { FitsCrash setting.now.crash Unfinished book.old.made }
    ensures { Prepares setting.now book.old book.new result }
{
    for _ in book.trail.results.len()..setting.jobs.len() {
        if let Some(stage) = begin_next(setting, book) {
            return stage;
        }
    }
    close(setting, book)
}

// Whether the actor crashes now.
fn is_at_crash(setting: &Setting, book: &Book) -> bool
    requires { FitsCrash setting.now.crash Ended book.now.made }
    ensures { MatchBool result (FitsCrash setting.now.crash Crashed book.now.made) (FitsCrash setting.now.crash Unfinished book.now.made) }
{
    match setting.crash {
        Some(step) => step == book.made,
        None => false,
    }
}

// The result of the job under way: it is cut, or not begun where it made no step.
fn cut_one(setting: &Setting, book: &mut Book)
    requires has { HasEnded setting.now book.old }
    requires more { length book.old.trail.results.items < vec_len setting.now.jobs }
    ensures { CutsOne setting.now book.old book.new }
{
    if book.path.is_empty() {
        finish(setting.alloc, book, Answer::Unbegun);
        return;
    }
    finish(setting.alloc, book, Answer::Cut);
}

// The results of the jobs that are left: none was begun.
fn leave_rest(setting: &Setting, book: &mut Book)
    requires fits { BookFits setting.now book.old }
    requires path { book.old.path.items ≡ [] }
    requires few { length book.old.trail.results.items ≤ vec_len setting.now.jobs }
    ensures rest { AddsUnbegun setting.now book.old book.new }
    ensures each { length book.new.trail.results.items ≡ vec_len setting.now.jobs }
{
    for _ in book.trail.results.len()..setting.jobs.len() {
        finish(setting.alloc, book, Answer::Unbegun);
    }
}

/// The results of the job under way and the later ones.
pub(crate) fn fill(setting: &Setting, book: &mut Book)
    requires has { HasEnded setting.now book.old }
    requires more { length book.old.trail.results.items < vec_len setting.now.jobs }
    ensures { Fills setting.now book.old book.new }
{
    cut_one(setting, book);
    leave_rest(setting, book);
}

// The actor crashes.
fn crash(setting: &Setting, book: &mut Book) -> Stage
    requires setting { IsSetting setting.now }
    requires has { HasEnded setting.now book.old }
    requires more { length book.old.trail.results.items < vec_len setting.now.jobs }
    requires crash { FitsCrash setting.now.crash Crashed book.old.made }
    ensures { Crashes setting.now book.old book.new result }
{
    fill(setting, book);
    book.trail.state = ActorState::Crashed;
    Stage::Reaps(0, false)
}

/// With no job under way the actor has ended, crashes, or prepares what comes next.
fn settle(setting: &Setting, book: &mut Book) -> Stage
    requires setting { IsSetting setting.now }
    requires between { IsBetween setting.now book.old }
    requires crash { FitsCrash setting.now.crash Ended book.old.made }
    ensures { Prepares setting.now book.old book.new result }
{
    if book.trail.results.len() == setting.jobs.len() {
        return close(setting, book);
    }
    if is_at_crash(setting, book) {
        return crash(setting, book);
    }
    prepare(setting, book)
}

// The job under way ends.
fn end(setting: &Setting, book: &mut Book, answer: Answer) -> Stage
    requires setting { IsSetting setting.now }
    requires has { HasEnded setting.now book.old }
    requires more { length book.old.trail.results.items < vec_len setting.now.jobs }
    requires crash { FitsCrash setting.now.crash Ended book.old.made }
    requires end { IsEnd answer }
    ensures { EndsJob setting.now book.old answer book.new result }
{
    finish(setting.alloc, book, answer);
    settle(setting, book)
}

// A job that is done with, and its call.
fn give_up(_job: Running, _call: ActorCall) {}

// After a removal a sweep goes on with its call, if there is memory for a further step.
fn sweep_on(setting: &Setting, book: &mut Book, job: Running, call: ActorCall) -> Stage
    requires setting { IsSetting setting.now }
    requires has { HasEnded setting.now book.old }
    requires crash { FitsCrash setting.now.crash Unfinished book.old.made }
    requires next { Next setting.now book.old (λ j. IsNextCall (context_of setting.now) (hosts_of setting.now) j job call true) }
    requires some { StandsForSome job }
    ensures { GoesOn setting.now book.old job book.new result }
{
    if !make_room(book, 1) {
        give_up(job, call);
        return end(setting, book, Answer::Memory);
    }
    Stage::Works(hold(job, call))
}

// The job goes on with its call, if the actor doesn't crash.
fn stay(setting: &Setting, book: &mut Book, job: Running, call: ActorCall, removed: bool) -> Stage
    requires setting { IsSetting setting.now }
    requires has { HasEnded setting.now book.old }
    requires crash { FitsCrash setting.now.crash Ended book.old.made }
    requires next { Next setting.now book.old (λ j. IsNextCall (context_of setting.now) (hosts_of setting.now) j job call removed) }
    requires some { StandsForSome job }
    requires room { HasRoomUnless removed job book.old }
    ensures { GoesOn setting.now book.old job book.new result }
{
    if is_at_crash(setting, book) {
        give_up(job, call);
        return crash(setting, book);
    }
    if removed {
        return sweep_on(setting, book, job, call);
    }
    Stage::Works(hold(job, call))
}

// A job that took a reply goes on, or what comes after it is prepared.
fn go_on(setting: &Setting, book: &mut Book, job: Running, removed: bool) -> Stage
    requires setting { IsSetting setting.now }
    requires has { HasEnded setting.now book.old }
    requires crash { FitsCrash setting.now.crash Ended book.old.made }
    requires going { Next setting.now book.old (λ j. IsGoing (context_of setting.now) j job) }
    requires ready { is_ready job ≡ true }
    requires some { StandsForSome job }
    requires sweeps { removed ≡ true → IsSweep (task_of job) }
    requires room { HasRoomUnless removed job book.old }
    ensures { GoesOn setting.now book.old job book.new result }
{
    match hand_out(job) {
        JobTurn::Goes(job, call) => stay(setting, book, job, call, removed),
        JobTurn::Ends(answer) => end(setting, book, answer),
    }
}

// Writes down the step of a reply, if it is one.
fn write_down(book: &mut Book, object: ObjectId, reply: &ActorReply)
    requires is { IsBook book.old }
    requires has { Has book.old.tally object }
    requires room { HasRoom 1 book.old }
    ensures { Writes book.old object (seen_reply reply.now) book.new }
{
    book.trail.steps = one_more(book.trail.steps);
    if answers_busy(reply) {
        return;
    }
    note(book, object, answers_memory(reply));
}

// The job under way takes a reply.
fn step(setting: &Setting, book: &mut Book, working: Working, reply: ActorReply) -> Running
    requires setting { IsSetting setting.now }
    requires has { HasEnded setting.now book.old }
    requires under { Next setting.now book.old (λ j. IsUnderWay (context_of setting.now) j working.job) }
    requires working { IsWorking setting.now book.old working }
    requires admitted { Admits working.job (seen_reply reply) }
    ensures { Steps setting.now book.old working.job (seen_reply reply) book.new result }
{
    write_down(book, working.object, &reply);
    take_in(working.job, &setting.context, reply)
}

// The job under way took a reply, and what comes next is prepared.
fn take_reply(setting: &Setting, book: &mut Book, working: Working, reply: ActorReply) -> Stage
    requires setting { IsSetting setting.now }
    requires has { HasEnded setting.now book.old }
    requires crash { FitsCrash setting.now.crash Unfinished book.old.made }
    requires under { Next setting.now book.old (λ j. IsUnderWay (context_of setting.now) j working.job) }
    requires working { IsWorking setting.now book.old working }
    requires admitted { Admits working.job (seen_reply reply) }
    ensures { Takes setting.now book.old working.job (seen_reply reply) book.new result }
{
    let removed = answers_removed(&reply);
    let job = step(setting, book, working, reply);
    go_on(setting, book, job, removed)
}

// The object of a reap, by how many were made.
fn reaped_at(setting: &Setting, made: u64) -> ObjectId
    requires devices { length (context_of setting.now).devices ≤ 4294967295 }
    requires made { made < reap_count (context_of setting.now) (hosts_of setting.now) }
    ensures { result ≡ reap_at (context_of setting.now) (hosts_of setting.now) made }
{
    let devices = setting.context.devices.len() as u64;
    let hosts = setting.context.hosts as u64;
    if made < devices {
        ObjectId::Device(made as u32)
    } else if made < devices + hosts {
        ObjectId::Cache((made - devices) as u32)
    } else {
        ObjectId::Depot
    }
}

// The reap of an object.
fn reap(object: ObjectId) -> ActorCall
    ensures asked { HandsCall result (a_call (reap_of object)) }
    ensures may { MayCall result }
    ensures object { IsReaped object → object_called result ≡ object }
{
    match object {
        ObjectId::Device(n) => ActorCall::Device(n, DeviceStep::Reap),
        ObjectId::Cache(n) => ActorCall::Cache(n, CacheCall::Reap),
        ObjectId::Node(_) | ObjectId::Depot => ActorCall::Depot(DepotCall::Reap),
    }
}

// One reap more was made.
fn reaped(setting: &Setting, made: u64) -> Stage
    requires devices { length (context_of setting.now).devices ≤ 4294967295 }
    requires made { made < reap_count (context_of setting.now) (hosts_of setting.now) }
    ensures { result ≡ after_reap (context_of setting.now) (hosts_of setting.now) made }
{
    let last = setting.context.devices.len() as u64 + setting.context.hosts as u64;
    if made < last {
        Stage::Reaps(made + 1, false)
    } else {
        Stage::Over
    }
}

/// A new actor.
pub(crate) fn make(
    alloc: Global,
    number: u32,
    jobs: Vec<Job>,
    crash: Option<u64>,
    context: Arc<Context>,
) -> Result<Body, OutOfMemory>
    requires context { IsContext (seen_context (arc_value context)) }
    requires hosted { AreHosted (seen_context (arc_value context)) (arc_value context).hosts }
    requires jobs { AllByRecursion (MayBeGiven (seen_context (arc_value context)) (arc_value context).hosts) (jobs_seen jobs.items) }
    ensures whole { IfOk result IsWholeBody }
    ensures new { IfOk result (λ b. IsNew number (seen_context (arc_value context)) (arc_value context).hosts (jobs_seen jobs.items) crash (seen b)) }
{
    let Ok(devices) = u32::try_from(context.devices.len()) else {
        return Err(OutOfMemory);
    };
    let (hosts, nodes) = (context.hosts, context.nodes);
    let mut book = open(alloc, jobs.len(), devices, hosts, nodes)?;
    let setting = Setting {
        alloc,
        number,
        jobs,
        crash,
        context,
    };
    let stage = settle(&setting, &mut book);
    Ok(Body {
        setting,
        book,
        stage,
    })
}

/// A stage whose call, if it has one, was handed out, and what that is.
#[derive(Drop)]
pub(crate) struct Handed {
    pub(crate) stage: Stage,
    pub(crate) action: ActorAction,
}

/// Hands out the call of a stage, or tells an idle step or the end.
fn hand(setting: &Setting, stage: Stage) -> Handed
    requires devices { length (context_of setting.now).devices ≤ 4294967295 }
    requires made { ReapsWithin setting.now stage }
    requires out { out_of stage ≡ false }
    ensures { IsHanded setting.now stage result }
{
    match stage {
        Stage::Works(Working { job, object, call }) => {
            let Some(call) = call else {
                unreachable!();
            };
            Handed {
                stage: Stage::Works(Working {
                    job,
                    object,
                    call: None,
                }),
                action: ActorAction::Call(call),
            }
        }
        Stage::Idles => Handed {
            stage,
            action: ActorAction::Idle,
        },
        Stage::Reaps(made, _) => Handed {
            stage: Stage::Reaps(made, true),
            action: ActorAction::Call(reap(reaped_at(setting, made))),
        },
        Stage::Over => Handed {
            stage,
            action: ActorAction::Ended,
        },
    }
}

// Puts a stage in place of another.
fn put(old: &mut Stage, stage: Stage)
    ensures { old.new ≡ stage }
{
    *old = stage;
}

// A stage that is done with.
fn leave(_stage: Stage) {}

/// What an actor does next.
pub(crate) fn next(body: &mut Body) -> ActorAction
    requires whole { IsWholeBody body.old }
    requires out { (seen body.old).out ≡ false }
    ensures whole { IsWholeBody body.new }
    ensures hands { Hands (seen body.old) result }
    ensures fronts { Fronts (seen body.old) }
    ensures handed { seen body.new ≡ handed (seen body.old) }
{
    let stage = mem::replace(&mut body.stage, Stage::Over);
    let handed = hand(&body.setting, stage);
    let Handed { stage, action } = handed;
    put(&mut body.stage, stage);
    action
}

/// Takes the reply to the call handed out.
pub(crate) fn take(body: &mut Body, reply: ActorReply)
    requires whole { IsWholeBody body.old }
    requires out { (seen body.old).out ≡ true }
    requires admitted { AdmitsReply (seen body.old) (seen_reply reply) }
    ensures whole { IsWholeBody body.new }
    ensures took { Took (seen body.old) (seen_reply reply) (seen body.new) }
{
    match mem::replace(&mut body.stage, Stage::Over) {
        Stage::Works(working) => {
            let stage = take_reply(&body.setting, &mut body.book, working, reply);
            put(&mut body.stage, stage);
        }
        Stage::Reaps(made, _) => {
            let stage = reaped(&body.setting, made);
            put(&mut body.stage, stage);
        }
        Stage::Idles | Stage::Over => unreachable!(),
    }
}

/// Makes the idle step.
pub(crate) fn pass(body: &mut Body)
    requires whole { IsWholeBody body.old }
    requires idles { body.old.stage ≡ Idles }
    ensures whole { IsWholeBody body.new }
    ensures passed { Passed (seen body.old) (seen body.new) }
{
    body.book.trail.steps = one_more(body.book.trail.steps);
    let stage = end(&body.setting, &mut body.book, Answer::NoChunk);
    put(&mut body.stage, stage);
}

/// The trail, with a result for each job.
pub(crate) fn into_trail(body: Body) -> Trail
    requires { IsWholeBody body }
    ensures { IsTrailOf (seen body) result }
{
    let Body {
        setting,
        mut book,
        ..
    } = body;
    if book.trail.results.len() == setting.jobs.len() {
        return book.trail;
    }
    fill(&setting, &mut book);
    book.trail
}
