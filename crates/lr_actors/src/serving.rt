//! The machine of a device call.
ghost use Rattle.std.specs.Prelude.{◌≡◌, ◌⊎◌, ◌≤◌, List, [], ◌++◌, true, false};
ghost use Rattle.lr_device.specs.PlainDevice.{size_of};
ghost use Rattle.lr_walk.specs.declared.trail.Answer.{Answer as Ending};
ghost use Rattle.lr_walk.specs.declared.trail.Answer.TheVariants.{Memory};
ghost use Rattle.lr_walk.specs.Steps.{Step, Reply};
ghost use Rattle.lr_actors.specs.Places.{seen_place, IsPlace};
ghost use Rattle.lr_actors.specs.Asked.{Hands, MayBeMade, seen_reply, an_end, Adds};
ghost use Rattle.lr_actors.specs.Serving.{Work, Serves, planning, ended, StandsFor, IsFront, asked, Admits, Next, Nears};
ghost use Rattle.lr_actors.specs.Stages.{fetched_chunk, IsFew, IsWell};

use crate::action::{ActorReply, JobAction};
use crate::place::DevicePlace;
use crate::turns::{Setting, Stage, advance, to_begin};
use lr_device::DeviceCall;
use lr_walk::Answer;
use std::alloc::Global;
use std::marker::Model;
use std::mem;
use std::snapshot::Snapshot;

/// A device call under way: its plan, a load for each chunk that it needs, ascending, and its commit.
///
/// A contract sees what it is of, what it needs next, and whether its call is prepared. It makes at most 44 steps, those
/// that were answered Busy not counted.
#[derive(Drop)]
pub struct DeviceJob {
    alloc: Global,
    setting: Setting,
    stage: Stage,
    ready: Option<JobAction>,
}

impl Model for DeviceJob {
    ghost use Rattle.std.specs.Prelude.{is_some};
    ghost use Rattle.lr_actors.specs.Serving.{Progress};
    ghost use Rattle.lr_actors.specs.Stages.{work_of, need_of, IsWork, IsKept, IsPrepared};

    ghost Value = { Progress };

    ghost view = { λ s. record { work = work_of s.setting; need = need_of s.stage; ready = is_some s.ready } };

    ghost invariant = { λ s. IsWork (work_of s.setting) × IsKept (work_of s.setting) s.stage × IsPrepared (work_of s.setting) s.stage s.ready };
}

impl DeviceJob {
    /// A call, of at most 1,048,576 bytes, of the device at this place, among at least 5 nodes.
    ///
    /// Where no memory is found to begin, it ends so.
    pub fn new(
        alloc: Global,
        nodes: u32,
        device: u32,
        place: &DevicePlace,
        call: DeviceCall,
    ) -> DeviceJob
        requires nodes { 5 ≤ nodes }
        requires keys { IsPlace (seen_place place.now) }
        requires small { size_of call ≤ 1048576 }
        ensures work { result.work ≡ record { nodes = nodes; device = device; place = seen_place place.now; call = call } }
        ensures need { (result.need ≡ planning) ⊎ (result.need ≡ ended Memory) }
        ensures ready { result.ready ≡ true }
        ensures stands { StandsFor result [] }
    {
        let setting = Setting {
            nodes,
            device,
            place: Snapshot::of(place),
            call: Snapshot::of(&call),
        };
        let turn = to_begin(alloc, &setting, call);
        DeviceJob {
            alloc,
            setting,
            stage: turn.stage,
            ready: Some(turn.ready),
        }
    }

    /// Hands out the prepared call, or the end. It takes no memory.
    pub fn next(&mut self) -> JobAction
        requires { self.old.ready ≡ true }
        ensures asked { Hands result (asked self.old.work self.old.need) }
        ensures may { MayBeMade result }
        ensures work { self.new.work ≡ self.old.work }
        ensures need { self.new.need ≡ self.old.need }
        ensures ready { self.new.ready ≡ false }
        // What an ended call stands for is a walk with its answer.
        ensures walk { (steps : List Step) (answer : Ending) → asked self.old.work self.old.need ≡ an_end answer → StandsFor self.old steps → Serves self.old.work steps answer }
        // What another one stands for, with the call and any reply to it, is a walk or the front of one.
        ensures front { (steps more : List Step) (reply : Reply) → Admits self.old.work self.old.need reply → Adds (asked self.old.work self.old.need) reply more → StandsFor self.old steps → IsFront self.old.work (steps ++ more) }
    {
        self.hand_out()
    }

    fn hand_out(&mut self) -> JobAction
        requires { self.old.ready ≡ true }
        ensures well { IsWell self.old.need }
        ensures asked { Hands result (asked self.old.work self.old.need) }
        ensures may { MayBeMade result }
        ensures work { self.new.work ≡ self.old.work }
        ensures need { self.new.need ≡ self.old.need }
        ensures ready { self.new.ready ≡ false }
    {
        self.ready.take().unwrap()
    }

    /// Takes the reply to the call handed out, and prepares the next one. The place is the one that the call was made with.
    pub fn take(&mut self, place: &DevicePlace, reply: ActorReply)
        requires handed { self.old.ready ≡ false }
        requires place { seen_place place.now ≡ self.old.work.place }
        requires admitted { Admits self.old.work self.old.need (seen_reply reply) }
        ensures work { self.new.work ≡ self.old.work }
        ensures ready { self.new.ready ≡ true }
        ensures next { Next self.old.work self.old.need (seen_reply reply) (fetched_chunk reply) self.new.need }
        ensures stands { (steps more : List Step) → Adds (asked self.old.work self.old.need) (seen_reply reply) more → StandsFor self.old steps → StandsFor self.new (steps ++ more) }
        ensures nears { Nears (seen_reply reply) self.old.need self.new.need }
    {
        self.go_on(place, reply);
    }

    fn go_on(&mut self, place: &DevicePlace, reply: ActorReply)
        requires handed { self.old.ready ≡ false }
        requires place { seen_place place.now ≡ self.old.work.place }
        requires admitted { Admits self.old.work self.old.need (seen_reply reply) }
        ensures work { self.new.work ≡ self.old.work }
        ensures ready { self.new.ready ≡ true }
        ensures next { Next self.old.work self.old.need (seen_reply reply) (fetched_chunk reply) self.new.need }
        ensures few { IsFew (seen_reply reply) }
    {
        let stage = mem::replace(&mut self.stage, Stage::Drops(Answer::Memory));
        let turn = advance(self.alloc, &self.setting, place, stage, reply);
        self.stage = turn.stage;
        self.ready = Some(turn.ready);
    }
}
