//! The machine of a load.
ghost use Rattle.std.specs.Prelude.{◌≡◌, ◌≤◌, ◌↔◌, List, [], true, false, IsTrue};
ghost use Rattle.lr_walk.specs.Steps.{Step, Reply};
ghost use Rattle.lr_walk.specs.Load.{Ending, Loads};
ghost use Rattle.lr_loader.specs.Progress.{start, StandsFor, IsFront, an_end, asked, Admits, Next, with_step, steps_left, Nears};
ghost use Rattle.lr_loader.specs.Seen.{seen_action, seen_reply, fetched_chunk, MayBeMade};

use crate::action::{LoadAction, LoadReply};
use crate::stage::{Stage, advance, to_look};
use crate::test_of_replies::fits;
use lr_walk::LoadPlace;
use std::alloc::Global;
use std::marker::Model;
use std::mem;

/// A load under way.
///
/// A contract sees its place, what it needs next, and whether its call is prepared. It makes at most 14 steps, those that
/// were answered Busy not counted.
#[derive(Drop)]
pub struct Load {
    alloc: Global,
    place: LoadPlace,
    stage: Stage,
    ready: Option<LoadAction>,
}

impl Model for Load {
    ghost use Rattle.std.specs.Prelude.{◌≤◌, is_some};
    ghost use Rattle.lr_loader.specs.Progress.{Progress};
    ghost use Rattle.lr_loader.specs.Seen.{need_of, IsKept, IsPrepared};

    ghost Value = { Progress };

    ghost view = { λ s. record { place = s.place; need = need_of s.stage; ready = is_some s.ready } };

    ghost invariant = { λ s. (5 ≤ s.place.nodes) × IsKept s.place.name s.stage × IsPrepared s.place s.stage s.ready };
}

impl Load {
    /// A load of the chunk at this place, where there are at least 5 nodes.
    pub fn new(alloc: Global, place: LoadPlace) -> Load
        requires { 5 ≤ place.nodes }
        ensures new { result ≡ start place }
        ensures stands { StandsFor result [] }
    {
        let turn = to_look(&place);
        Load {
            alloc,
            place,
            stage: turn.stage,
            ready: Some(turn.ready),
        }
    }

    /// Hands out the prepared call, or the end. It takes no memory.
    pub fn next(&mut self) -> LoadAction
        requires { self.old.ready ≡ true }
        ensures asked { seen_action result ≡ asked self.old.place self.old.need }
        ensures may { MayBeMade result }
        ensures place { self.new.place ≡ self.old.place }
        ensures need { self.new.need ≡ self.old.need }
        ensures ready { self.new.ready ≡ false }
        // What an ended load stands for is a walk with its answer.
        ensures walk { (steps : List Step) (end : Ending) → asked self.old.place self.old.need ≡ an_end end → StandsFor self.old steps → Loads self.old.place steps end }
        // What another one stands for, with the call and any reply to it, is a walk or the front of one.
        ensures front { (steps : List Step) (reply : Reply) → Admits self.old.place self.old.need reply → StandsFor self.old steps → IsFront self.old.place (with_step steps (asked self.old.place self.old.need) reply) }
    {
        self.hand_out()
    }

    fn hand_out(&mut self) -> LoadAction
        requires { self.old.ready ≡ true }
        ensures asked { seen_action result ≡ asked self.old.place self.old.need }
        ensures may { MayBeMade result }
        ensures place { self.new.place ≡ self.old.place }
        ensures need { self.new.need ≡ self.old.need }
        ensures ready { self.new.ready ≡ false }
    {
        self.ready.take().unwrap()
    }

    /// Whether the reply is one that may be taken: the called object gives it by its table, while the load has its claim
    /// and no other one, and a chunk that is fetched has the name asked for.
    pub fn admits(&self, reply: &LoadReply) -> bool
        ensures { IsTrue result ↔ Admits self.now.place self.now.need (seen_reply reply.now) }
    {
        fits(&self.place, &self.stage, reply)
    }

    /// Takes the reply to the call handed out, and prepares the next one.
    pub fn take(&mut self, reply: LoadReply)
        requires handed { self.old.ready ≡ false }
        requires admitted { Admits self.old.place self.old.need (seen_reply reply) }
        ensures place { self.new.place ≡ self.old.place }
        ensures ready { self.new.ready ≡ true }
        ensures next { Next self.old.place self.old.need (seen_reply reply) (fetched_chunk reply) self.new.need }
        ensures stands { (steps : List Step) → StandsFor self.old steps → StandsFor self.new (with_step steps (asked self.old.place self.old.need) (seen_reply reply)) }
        ensures nears { Nears (seen_reply reply) self.old.need self.new.need }
    {
        self.go_on(reply);
    }

    fn go_on(&mut self, reply: LoadReply)
        requires handed { self.old.ready ≡ false }
        requires admitted { Admits self.old.place self.old.need (seen_reply reply) }
        ensures place { self.new.place ≡ self.old.place }
        ensures ready { self.new.ready ≡ true }
        ensures next { Next self.old.place self.old.need (seen_reply reply) (fetched_chunk reply) self.new.need }
    {
        let stage = mem::replace(&mut self.stage, Stage::Looks);
        let turn = advance(self.alloc, &self.place, stage, reply);
        self.stage = turn.stage;
        self.ready = Some(turn.ready);
    }
}
