//! Jobs of one call: an eviction, damage to nodes, the end of a lease.
ghost use Rattle.std.specs.Prelude.{◌≡◌, ◌≤◌, ◌<◌, ◌+◌, List, [], ◌++◌, true, false};
ghost use Rattle.lr_walk.specs.declared.trail.Answer.{Answer as Ending};
ghost use Rattle.lr_walk.specs.Steps.{Step, Reply};
ghost use Rattle.lr_actors.specs.Asked.{Hands, HandsCall, MayCall, MayBeMade, seen_reply, a_call, an_end, Adds};
ghost use Rattle.lr_actors.specs.Singles.{MakesOne, IsSingle, call_of, answer_of, asking, ended, StandsFor, IsFront, asked, AdmitsOne, Admits, advanced, steps_left};

use crate::action::{ActorCall, ActorReply, JobAction};
use lr_cache::{CacheCall, CacheReply};
use lr_depot::{DepotCall, DepotReply};
use lr_manifest::Name;
use lr_nodes::{NodeCall, NodeReply};
use lr_walk::Answer;
use std::marker::Model;
use std::snapshot::Snapshot;

/// A job of one call. Hosts and nodes are told by their number, a stripe by the name of its chunk and its index.
#[derive(Clone, Copy)]
pub enum Single {
    /// A host's cache is emptied.
    Evict {
        host: u32,
    },
    /// A stripe is dropped by its node.
    Drop {
        node: u32,
        name: Name,
        index: u8,
    },
    /// A bit of a stripe's byte at a place below 131,072 is changed.
    Flip {
        node: u32,
        name: Name,
        index: u8,
        at: u32,
    },
    /// A node loses its stripes.
    Lose {
        node: u32,
    },
    /// A lease ends.
    Close {
        lease: u64,
    },
}

#[derive(Drop)]
pub(crate) enum SingleStage {
    Asks,
    Ends(Snapshot<Answer>),
}

/// A job of one call under way.
#[derive(Drop)]
pub struct SingleJob {
    single: Single,
    stage: SingleStage,
    ready: Option<JobAction>,
}

impl Model for SingleJob {
    ghost use Rattle.std.specs.Prelude.{is_some};
    ghost use Rattle.lr_actors.specs.Singles.{Progress, IsSingle};
    ghost use Rattle.lr_actors.specs.Kept.{single_need, IsPreparedSingle};

    ghost Value = { Progress };

    ghost view = { λ s. record { single = s.single; need = single_need s.stage; ready = is_some s.ready } };

    ghost invariant = { λ s. IsSingle s.single × IsPreparedSingle s.single s.stage s.ready };
}

// The call.
fn call_to_make(single: Single) -> ActorCall
    requires { IsSingle single }
    ensures hands { HandsCall result (a_call (call_of single)) }
    ensures may { MayCall result }
{
    match single {
        Single::Evict { host } => ActorCall::Cache(host, CacheCall::Evict),
        Single::Drop { node, name, index } => ActorCall::Node(node, NodeCall::Drop { name, index }),
        Single::Flip {
            node,
            name,
            index,
            at,
        } => ActorCall::Node(node, NodeCall::Flip { name, index, at }),
        Single::Lose { node } => ActorCall::Node(node, NodeCall::Lose),
        Single::Close { lease } => ActorCall::Depot(DepotCall::Close { lease }),
    }
}

// The answer of a cache or a node.
fn told(reply: ActorReply) -> Answer
    ensures { result ≡ answer_of (seen_reply reply) }
{
    match reply {
        ActorReply::Cache(CacheReply::Evicted(count)) => Answer::Evicted(count),
        ActorReply::Node(NodeReply::Dropped) => Answer::Dropped,
        ActorReply::Node(NodeReply::Flipped) => Answer::Flipped,
        ActorReply::Node(NodeReply::Lost(count)) => Answer::Lost(count),
        ActorReply::Node(NodeReply::Absent) => Answer::NoStripe,
        ActorReply::Depot(DepotReply::Closed) => Answer::Closed,
        _ => Answer::Memory,
    }
}

impl SingleJob {
    /// The job. A flip names a place within a stripe.
    pub fn new(single: Single) -> SingleJob
        requires { IsSingle single }
        ensures new { result ≡ record { single = single; need = asking; ready = true } }
        ensures stands { StandsFor result [] }
    {
        SingleJob {
            single,
            stage: SingleStage::Asks,
            ready: Some(JobAction::Call(call_to_make(single))),
        }
    }

    /// Hands out the prepared call, or the end. It takes no memory.
    pub fn next(&mut self) -> JobAction
        requires { self.old.ready ≡ true }
        ensures asked { Hands result (asked self.old.single self.old.need) }
        ensures may { MayBeMade result }
        ensures same { (self.new.single ≡ self.old.single) × (self.new.need ≡ self.old.need) }
        ensures ready { self.new.ready ≡ false }
        // What an ended job stands for is a walk with its answer.
        ensures walk { (steps : List Step) (answer : Ending) → asked self.old.single self.old.need ≡ an_end answer → StandsFor self.old steps → MakesOne self.old.single steps answer }
        // With the call and any reply to it, it is a walk.
        ensures front { (steps more : List Step) (reply : Reply) → Admits self.old.single self.old.need reply → Adds (asked self.old.single self.old.need) reply more → StandsFor self.old steps → IsFront self.old.single (steps ++ more) }
    {
        self.hand_out()
    }

    fn hand_out(&mut self) -> JobAction
        requires { self.old.ready ≡ true }
        ensures asked { Hands result (asked self.old.single self.old.need) }
        ensures may { MayBeMade result }
        ensures same { (self.new.single ≡ self.old.single) × (self.new.need ≡ self.old.need) }
        ensures ready { self.new.ready ≡ false }
    {
        self.ready.take().unwrap()
    }

    /// Takes the reply to the call handed out. It takes no memory.
    pub fn take(&mut self, reply: ActorReply)
        requires handed { self.old.ready ≡ false }
        requires admitted { Admits self.old.single self.old.need (seen_reply reply) }
        ensures single { self.new.single ≡ self.old.single }
        ensures ready { self.new.ready ≡ true }
        ensures next { self.new.need ≡ advanced (seen_reply reply) }
        ensures stands { (steps more : List Step) → Adds (asked self.old.single self.old.need) (seen_reply reply) more → StandsFor self.old steps → StandsFor self.new (steps ++ more) }
        ensures nears { steps_left self.new.need + 1 ≤ steps_left self.old.need }
    {
        self.end_by(reply);
    }

    fn end_by(&mut self, reply: ActorReply)
        ensures single { self.new.single ≡ self.old.single }
        ensures ready { self.new.ready ≡ true }
        ensures next { self.new.need ≡ advanced (seen_reply reply) }
    {
        let answer = told(reply);
        self.stage = SingleStage::Ends(Snapshot::of(&answer));
        self.ready = Some(JobAction::End(answer));
    }
}
