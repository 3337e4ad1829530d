//! What a device call keeps between a call and its reply, and each turn from one stage to the next.
ghost use Rattle.std.specs.Prelude.{◌≡◌, ◌⊎◌, ◌≤◌, ◌<◌, ◌+◌, ◌∷◌, ◌++◌, [], ℕ, List, length, map, drop, slice_get, Some, IfSome, IfNone, false};
ghost use Rattle.std.specs.Arc.{arc_value};
ghost use Rattle.std.specs.List.{AllByRecursion};
ghost use Rattle.lr_walk.specs.declared.trail.Answer.TheVariants.{Memory};
ghost use Rattle.lr_walk.specs.Steps.{by_device};
ghost use Rattle.lr_walk.specs.Calls.{answer_of};
ghost use Rattle.lr_walk.specs.Device.{seen_piece};
ghost use Rattle.lr_walk.specs.Device as devices;
ghost use Rattle.lr_walk.specs.declared.place.LoadPlace.{LoadPlace as Placed};
ghost use Rattle.lr_loader.specs.Seen as loader;
ghost use Rattle.lr_loader.specs.Progress as loads;
ghost use Rattle.lr_actors.specs.Places.{seen_place, IsPlace};
ghost use Rattle.lr_actors.specs.Asked.{Hands, MayBeMade, seen_reply};
ghost use Rattle.lr_actors.specs.Serving.{planning, loading, committing, dropping, ended, HasChunk, HasLease, LoadsNext, IsShort, GoesOn, Loaded, Admits, Next, asked_by};
ghost use Rattle.lr_actors.specs.Stages.{work_of, fetched_chunk, IsOfLoad, seen_left, left_after, seen_chunk, need_of, IsWork, EndsWell, GoesWell, IsLoadCall, IsWaiting, IsFetching, IsKept, IsTurn, IsFew, IsOfDevice, IsCommitted, committed_answer};

use crate::action::{ActorCall, ActorReply, JobAction};
use crate::depot_answer::answer_of_depot;
use crate::place::DevicePlace;
use lr_convergent::Piece;
use lr_device::{DeviceAnswer, DeviceCall, DeviceReply, DeviceStep, Needs, Room};
use lr_loader::{Load, LoadAction, LoadEnd, LoadPlace, LoadReply};
use lr_manifest::{Chunk, ChunkKey, Name};
use lr_walk::Answer;
use std::alloc::Global;
use std::snapshot::Snapshot;
use std::sync::Arc;

/// What a device call is of: so many nodes, the device and its place, and the call.
#[derive(Drop)]
pub(crate) struct Setting {
    pub(crate) nodes: u32,
    pub(crate) device: u32,
    pub(crate) place: Snapshot<DevicePlace>,
    pub(crate) call: Snapshot<DeviceCall>,
}

/// A load under way, the number of its chunk, and the key.
#[derive(Drop)]
pub(crate) struct Fetching {
    pub(crate) load: Load,
    pub(crate) index: u32,
    pub(crate) key: ChunkKey,
}

/// A planned call that waits for its loads: the numbers of the chunks that it needs, how many of their loads were begun,
/// the page buffers that its commit can want, and the pieces so far.
#[derive(Drop)]
pub(crate) struct Waiting {
    pub(crate) call: Arc<DeviceCall>,
    pub(crate) needs: Needs,
    pub(crate) at: u32,
    pub(crate) pages: u32,
    pub(crate) pieces: Vec<Piece>,
}

#[derive(Drop)]
pub(crate) enum Stage {
    Plans(Arc<DeviceCall>),
    Loads(Fetching, Waiting),
    Commits(u32, Snapshot<Vec<Piece>>),
    Drops(Answer),
    Ends(Snapshot<Answer>),
}

/// A stage with what is handed out next.
#[derive(Drop)]
pub(crate) struct Turn {
    pub(crate) stage: Stage,
    pub(crate) ready: JobAction,
}

/// Ends the call.
pub(crate) fn to_end(_setting: &Setting, answer: Answer) -> Turn
    ensures turn { IsTurn (work_of _setting.now) result }
    ensures need { need_of result.stage ≡ ended answer }
{
    let kept = Snapshot::of(&answer);
    Turn {
        stage: Stage::Ends(kept),
        ready: JobAction::End(answer),
    }
}

// Plans the call.
fn to_plan(setting: &Setting, call: Arc<DeviceCall>, spare: Arc<DeviceCall>) -> Turn
    requires work { IsWork (work_of setting.now) }
    requires call { arc_value call ≡ setting.now.call.value }
    requires same { arc_value spare ≡ arc_value call }
    ensures turn { IsTurn (work_of setting.now) result }
    ensures need { need_of result.stage ≡ planning }
{
    Turn {
        stage: Stage::Plans(call),
        ready: JobAction::Call(ActorCall::Device(setting.device, DeviceStep::Plan(spare))),
    }
}

/// Begins the call, or ends it for want of memory.
pub(crate) fn to_begin(alloc: Global, setting: &Setting, call: DeviceCall) -> Turn
    requires work { IsWork (work_of setting.now) }
    requires call { call ≡ setting.now.call.value }
    ensures turn { IsTurn (work_of setting.now) result }
    ensures need { (need_of result.stage ≡ planning) ⊎ (need_of result.stage ≡ ended Memory) }
{
    let Ok(call) = Arc::new(alloc, call) else {
        return to_end(setting, Answer::Memory);
    };
    let Ok(spare) = Arc::try_clone(&call) else {
        return to_end(setting, Answer::Memory);
    };
    to_plan(setting, call, spare)
}

// Drops the plan.
fn to_drop(setting: &Setting, answer: Answer) -> Turn
    ensures turn { IsTurn (work_of setting.now) result }
    ensures need { need_of result.stage ≡ dropping answer }
{
    Turn {
        stage: Stage::Drops(answer),
        ready: JobAction::Call(ActorCall::Device(setting.device, DeviceStep::Drop)),
    }
}

// The machine itself finds no memory.
fn to_drop_short(setting: &Setting) -> Turn
    ensures turn { IsTurn (work_of setting.now) result }
    ensures short { IsShort (need_of result.stage) }
{
    to_drop(setting, Answer::Memory)
}

// Makes the planned call, with all its pieces.
fn to_commit(alloc: Global, setting: &Setting, waiting: Waiting) -> Turn
    requires { IsWaiting (work_of setting.now) waiting }
    ensures turn { IsTurn (work_of setting.now) result }
    ensures next { (need_of result.stage ≡ committing waiting.pages (map seen_piece waiting.pieces.items)) ⊎ IsShort (need_of result.stage) }
{
    let Ok(room) = Room::make(alloc, &waiting.call, waiting.pages) else {
        return to_drop_short(setting);
    };
    let pages = waiting.pages;
    let pieces = waiting.pieces;
    let kept = Snapshot::of(&pieces);
    Turn {
        stage: Stage::Commits(pages, kept),
        ready: JobAction::Call(ActorCall::Device(
            setting.device,
            DeviceStep::Commit { pieces, room },
        )),
    }
}

// A load's call, as one of the job's.
fn of_load(action: LoadAction) -> JobAction
    requires { IsLoadCall (loader.seen_action action) }
    ensures hands { Hands result (asked_by (loader.seen_action action)) }
    ensures may { loader.MayBeMade action → MayBeMade result }
{
    match action {
        LoadAction::Cache(host, call) => JobAction::Call(ActorCall::Cache(host, call)),
        LoadAction::Node(node, call) => JobAction::Call(ActorCall::Node(node, call)),
        LoadAction::Depot(call) => JobAction::Call(ActorCall::Depot(call)),
        LoadAction::End(_) => unreachable!(),
    }
}

// The number of the next chunk to load.
fn next_need(needs: &Needs, at: u32) -> Option<u32>
    ensures some { IfSome result (λ i. drop at needs.now ≡ i ∷ drop (at + 1) needs.now) }
    ensures within { IfSome result (λ _. at < 3) }
    ensures none { IfNone result (drop at needs.now ≡ []) }
{
    if at >= needs.count() {
        return None;
    }
    needs.get(at)
}

// The name of a chunk of the device.
fn name_at(place: &DevicePlace, index: u32) -> Name
    requires { HasChunk (seen_place place.now) index }
    ensures { slice_get (seen_place place.now).names index ≡ Some result }
{
    match place.name(index) {
        Some(name) => name,
        None => unreachable!(),
    }
}

// Its key.
fn key_at(place: &DevicePlace, index: u32) -> ChunkKey
    requires chunk { HasChunk (seen_place place.now) index }
    requires keys { IsPlace (seen_place place.now) }
    ensures { slice_get (seen_place place.now).keys index ≡ Some result.bytes }
{
    match place.key(index) {
        Some(key) => key,
        None => unreachable!(),
    }
}

// Loads the next chunk.
fn to_load(
    alloc: Global,
    setting: &Setting,
    place: &DevicePlace,
    waiting: Waiting,
    index: u32,
) -> Turn
    requires work { IsWork (work_of setting.now) }
    requires place { seen_place place.now ≡ (work_of setting.now).place }
    requires waiting { IsWaiting (work_of setting.now) waiting }
    requires first { drop waiting.at waiting.needs ≡ index ∷ drop (waiting.at + 1) waiting.needs }
    requires within { waiting.at < 3 }
    ensures turn { IsTurn (work_of setting.now) result }
    ensures next { LoadsNext (work_of setting.now) index (left_after waiting) (need_of result.stage) }
{
    let name = name_at(place, index);
    let key = key_at(place, index);
    let mut load = Load::new(
        alloc,
        LoadPlace {
            host: place.host,
            lease: place.lease,
            index,
            name,
            nodes: setting.nodes,
        },
    );
    let ready = of_load(load.next());
    let waiting = begun(waiting);
    Turn {
        stage: Stage::Loads(Fetching { load, index, key }, waiting),
        ready,
    }
}

// One load more was begun.
fn begun(waiting: Waiting) -> Waiting
    requires { waiting.at < 3 }
    ensures { result ≡ record waiting { at = waiting.at + 1 } }
{
    let at = waiting.at + 1;
    Waiting { at, ..waiting }
}

// The next chunk is loaded, or with all pieces the call is made.
fn go_on(alloc: Global, setting: &Setting, place: &DevicePlace, waiting: Waiting) -> Turn
    requires work { IsWork (work_of setting.now) }
    requires place { seen_place place.now ≡ (work_of setting.now).place }
    requires waiting { IsWaiting (work_of setting.now) waiting }
    ensures turn { IsTurn (work_of setting.now) result }
    ensures next { GoesOn (work_of setting.now) waiting.pages (drop waiting.at waiting.needs) (map seen_piece waiting.pieces.items) (need_of result.stage) }
{
    match next_need(&waiting.needs, waiting.at) {
        Some(index) => to_load(alloc, setting, place, waiting, index),
        None => to_commit(alloc, setting, waiting),
    }
}

// The reply of a device.
fn of_device(reply: ActorReply) -> DeviceAnswer
    requires { IsOfDevice (seen_reply reply) }
    ensures { by_device (devices.seen_reply result) ≡ seen_reply reply }
{
    match reply {
        ActorReply::Device(answer) => answer,
        _ => unreachable!(),
    }
}

// A planned call waits for its loads.
fn wait(alloc: Global, call: Arc<DeviceCall>, needs: Needs, pages: u32) -> Waiting
    ensures waiting { result ≡ record { call = call; needs = needs; at = 0; pages = pages; pieces = result.pieces } }
    ensures pieces { result.pieces.items ≡ [] }
    ensures few { length needs ≤ 3 }
{
    let _ = needs.count();
    Waiting {
        call,
        needs,
        at: 0,
        pages,
        pieces: Vec::new(alloc),
    }
}

// The call is planned: its loads begin.
fn begin_loads(
    alloc: Global,
    setting: &Setting,
    place: &DevicePlace,
    call: Arc<DeviceCall>,
    needs: Needs,
    pages: u32,
) -> Turn
    requires work { IsWork (work_of setting.now) }
    requires place { seen_place place.now ≡ (work_of setting.now).place }
    requires call { arc_value call ≡ setting.now.call.value }
    requires chunks { AllByRecursion (HasChunk (work_of setting.now).place) needs }
    ensures turn { IsTurn (work_of setting.now) result }
    ensures next { GoesOn (work_of setting.now) pages needs [] (need_of result.stage) }
    ensures few { length needs ≤ 3 }
{
    let waiting = wait(alloc, call, needs, pages);
    go_on(alloc, setting, place, waiting)
}

// The reply to the Plan.
fn planned(
    alloc: Global,
    setting: &Setting,
    place: &DevicePlace,
    call: Arc<DeviceCall>,
    answer: DeviceAnswer,
) -> Turn
    requires work { IsWork (work_of setting.now) }
    requires place { seen_place place.now ≡ (work_of setting.now).place }
    requires call { arc_value call ≡ setting.now.call.value }
    requires admitted { Admits (work_of setting.now) planning (by_device (devices.seen_reply answer)) }
    ensures turn { IsTurn (work_of setting.now) result }
    ensures next { (got : List ℕ) → Next (work_of setting.now) planning (by_device (devices.seen_reply answer)) got (need_of result.stage) }
    ensures few { IsFew (by_device (devices.seen_reply answer)) }
{
    match answer {
        DeviceAnswer::Planned { needs, pages } => {
            begin_loads(alloc, setting, place, call, needs, pages)
        }
        _ => to_end(setting, Answer::Memory),
    }
}

// The piece of a chunk that was loaded.
fn hold(
    alloc: Global,
    waiting: Waiting,
    index: u32,
    chunk: Arc<Chunk>,
    key: &ChunkKey,
) -> Option<Waiting>
    ensures pieces { IfSome result (λ w. map seen_piece w.pieces.items ≡ map seen_piece waiting.pieces.items ++ record { index = index; chunk = arc_value chunk; key = key.now.bytes } ∷ []) }
    ensures rest { IfSome result (λ w. (w.call ≡ waiting.call) × (w.needs ≡ waiting.needs) × (w.at ≡ waiting.at) × (w.pages ≡ waiting.pages)) }
{
    let Ok(piece) = Piece::make(alloc, index, chunk, key) else {
        return None;
    };
    let mut waiting = waiting;
    if waiting.pieces.push(piece).is_err() {
        return None;
    }
    Some(waiting)
}

// A load brought its chunk.
fn brought(
    alloc: Global,
    setting: &Setting,
    place: &DevicePlace,
    index: u32,
    key: ChunkKey,
    waiting: Waiting,
    chunk: Arc<Chunk>,
) -> Turn
    requires work { IsWork (work_of setting.now) }
    requires place { seen_place place.now ≡ (work_of setting.now).place }
    requires waiting { IsWaiting (work_of setting.now) waiting }
    ensures turn { IsTurn (work_of setting.now) result }
    ensures next { GoesOn (work_of setting.now) waiting.pages (drop waiting.at waiting.needs) (map seen_piece waiting.pieces.items ++ record { index = index; chunk = arc_value chunk; key = key.bytes } ∷ []) (need_of result.stage) }
{
    match hold(alloc, waiting, index, chunk, &key) {
        Some(waiting) => go_on(alloc, setting, place, waiting),
        None => to_drop_short(setting),
    }
}

// A load ended so.
fn load_ended(
    alloc: Global,
    setting: &Setting,
    place: &DevicePlace,
    index: u32,
    key: ChunkKey,
    waiting: Waiting,
    end: LoadEnd,
) -> Turn
    requires work { IsWork (work_of setting.now) }
    requires place { seen_place place.now ≡ (work_of setting.now).place }
    requires waiting { IsWaiting (work_of setting.now) waiting }
    requires well { EndsWell (loader.seen_end end) }
    ensures turn { IsTurn (work_of setting.now) result }
    ensures next { (at : Placed) → at.index ≡ index → Loaded (work_of setting.now) (record { place = at; key = key.bytes }) (seen_left waiting) (loader.seen_end end) (need_of result.stage) }
{
    match end {
        LoadEnd::Chunk(chunk) => brought(alloc, setting, place, index, key, waiting, chunk),
        LoadEnd::Other(reply) => to_drop(setting, answer_of_depot(reply)),
        LoadEnd::Memory => to_drop(setting, Answer::Memory),
    }
}

// The reply to a load.
fn load_reply(reply: ActorReply) -> LoadReply
    requires { IsOfLoad (seen_reply reply) }
    ensures same { loader.seen_reply result ≡ seen_reply reply }
    ensures fetched { loader.fetched_chunk result ≡ fetched_chunk reply }
{
    match reply {
        ActorReply::Cache(reply) => LoadReply::Cache(reply),
        ActorReply::Node(reply) => LoadReply::Node(reply),
        ActorReply::Depot(reply) => LoadReply::Depot(reply),
        ActorReply::Device(_) => unreachable!(),
    }
}

// The load takes a reply, and hands out what it does next.
fn step_load(load: &mut Load, reply: ActorReply) -> LoadAction
    requires handed { load.old.ready ≡ false }
    requires admitted { loads.Admits load.old.place load.old.need (seen_reply reply) }
    requires lease { HasLease (seen_reply reply) }
    requires well { GoesWell load.old.need }
    ensures place { load.new.place ≡ load.old.place }
    ensures handed { load.new.ready ≡ false }
    ensures next { loads.Next load.old.place load.old.need (seen_reply reply) (fetched_chunk reply) load.new.need }
    ensures well { GoesWell load.new.need }
    ensures asked { loader.seen_action result ≡ loads.asked load.new.place load.new.need }
    ensures may { loader.MayBeMade result }
{
    load.take(load_reply(reply));
    load.next()
}

// A load goes on.
fn to_go_on(_setting: &Setting, fetching: Fetching, waiting: Waiting, action: LoadAction) -> Turn
    requires waiting { IsWaiting (work_of _setting.now) waiting }
    requires handed { fetching.load.ready ≡ false }
    requires index { fetching.load.place.index ≡ fetching.index }
    requires well { GoesWell fetching.load.need }
    requires asked { loader.seen_action action ≡ loads.asked fetching.load.place fetching.load.need }
    requires may { loader.MayBeMade action }
    requires call { IsLoadCall (loader.seen_action action) }
    ensures turn { IsTurn (work_of _setting.now) result }
    ensures need { need_of result.stage ≡ loading (seen_chunk fetching) fetching.load.need (seen_left waiting) }
{
    Turn {
        stage: Stage::Loads(fetching, waiting),
        ready: of_load(action),
    }
}

// The reply to a load's call.
fn load_turn(
    alloc: Global,
    setting: &Setting,
    place: &DevicePlace,
    fetching: Fetching,
    waiting: Waiting,
    reply: ActorReply,
) -> Turn
    requires work { IsWork (work_of setting.now) }
    requires place { seen_place place.now ≡ (work_of setting.now).place }
    requires waiting { IsWaiting (work_of setting.now) waiting }
    requires fetching { IsFetching (work_of setting.now) fetching }
    requires admitted { loads.Admits fetching.load.place fetching.load.need (seen_reply reply) × HasLease (seen_reply reply) }
    ensures turn { IsTurn (work_of setting.now) result }
    ensures next { Next (work_of setting.now) (loading (seen_chunk fetching) fetching.load.need (seen_left waiting)) (seen_reply reply) (fetched_chunk reply) (need_of result.stage) }
{
    let Fetching {
        mut load,
        index,
        key,
    } = fetching;
    let action = step_load(&mut load, reply);
    match action {
        LoadAction::End(end) => load_ended(alloc, setting, place, index, key, waiting, end),
        LoadAction::Cache(host, call) => to_go_on(
            setting,
            Fetching { load, index, key },
            waiting,
            LoadAction::Cache(host, call),
        ),
        LoadAction::Node(node, call) => to_go_on(
            setting,
            Fetching { load, index, key },
            waiting,
            LoadAction::Node(node, call),
        ),
        LoadAction::Depot(call) => to_go_on(
            setting,
            Fetching { load, index, key },
            waiting,
            LoadAction::Depot(call),
        ),
    }
}

// The answer of a call that got this reply.
fn answer_to(reply: DeviceReply) -> Answer
    ensures { result ≡ answer_of reply }
{
    match reply {
        DeviceReply::Range => Answer::Range,
        DeviceReply::Got(_) => Answer::Done,
        DeviceReply::Done => Answer::Done,
    }
}

// The reply to the Commit.
fn committed(setting: &Setting, answer: DeviceAnswer) -> Turn
    requires { IsCommitted (devices.seen_reply answer) }
    ensures turn { IsTurn (work_of setting.now) result }
    ensures need { need_of result.stage ≡ ended (committed_answer (devices.seen_reply answer)) }
{
    match answer {
        DeviceAnswer::Committed(reply) => to_end(setting, answer_to(reply)),
        _ => unreachable!(),
    }
}

/// What a stage needs after a reply.
pub(crate) fn advance(
    alloc: Global,
    setting: &Setting,
    place: &DevicePlace,
    stage: Stage,
    reply: ActorReply,
) -> Turn
    requires work { IsWork (work_of setting.now) }
    requires place { seen_place place.now ≡ (work_of setting.now).place }
    requires kept { IsKept (work_of setting.now) stage }
    requires admitted { Admits (work_of setting.now) (need_of stage) (seen_reply reply) }
    ensures turn { IsTurn (work_of setting.now) result }
    ensures next { Next (work_of setting.now) (need_of stage) (seen_reply reply) (fetched_chunk reply) (need_of result.stage) }
    ensures few { IsFew (seen_reply reply) }
{
    match stage {
        Stage::Plans(call) => planned(alloc, setting, place, call, of_device(reply)),
        Stage::Loads(fetching, waiting) => load_turn(
            alloc, setting, place, fetching, waiting, reply,
        ),
        Stage::Commits(_, _) => committed(setting, of_device(reply)),
        Stage::Drops(answer) => to_end(setting, answer),
        Stage::Ends(_) => unreachable!(),
    }
}
