//! The machine of a collection.
ghost use Rattle.std.specs.Prelude.{◌≡◌, ℕ, List, [], true, false};
ghost use Rattle.lr_walk.specs.Depot.{Step, Reply, seen_reply};
ghost use Rattle.lr_collector.specs.Collection.{Ending, Collects};
ghost use Rattle.lr_collector.specs.Progress.{start, Stands, IsFront, an_end, asked, Admits, with_step, advanced};
ghost use Rattle.lr_collector.specs.Seen.{seen_action};

use crate::stage::{Stage, advance, call_of};
use lr_depot::{DepotCall, DepotReply};
use lr_origin::{ImageName, Key};
use std::alloc::Global;
use std::marker::Model;
use std::mem;

/// What a collection does.
#[derive(Clone, Copy)]
pub enum CollectJob {
    /// Begins the next root, with this salt.
    Rotate { salt: [u8; 32] },
    /// Withdraws an image.
    Withdraw { image: ImageName },
    /// Expires a retired root.
    Expire { root: u32 },
    /// Deletes an expired root.
    Delete { root: u32 },
    /// Removes all chunks and manifests of a deleted root.
    Sweep { root: u32 },
    /// Settles the put of a key that is in doubt.
    Settle { key: Key },
}

/// What a collection ends with.
#[derive(Drop)]
pub enum CollectEnd {
    /// The depot's answer.
    Answered(DepotReply),
    /// A sweep is done. The count of the keys that it removed stands still at the last value of its type.
    Swept { count: u64 },
    /// No memory was found.
    Memory,
}

/// A call on the depot, or the end.
#[derive(Drop)]
pub enum CollectAction {
    Depot(DepotCall),
    End(CollectEnd),
}

/// A collection under way.
#[derive(Drop)]
pub struct Collect {
    job: CollectJob,
    stage: Stage,
    ready: Option<CollectAction>,
}

impl Model for Collect {
    ghost use Rattle.std.specs.Prelude.{is_some};
    ghost use Rattle.lr_collector.specs.Progress.{Progress};
    ghost use Rattle.lr_collector.specs.Seen.{need_of, IsPrepared};

    ghost Value = { Progress };

    ghost view = { λ s. record { job = s.job; need = need_of s.stage; ready = is_some s.ready } };

    ghost invariant = { λ s. IsPrepared s.job s.stage s.ready };
}

impl Collect {
    /// A collection for a job.
    pub fn new(_alloc: Global, job: CollectJob) -> Collect
        ensures new { result ≡ start job }
        ensures stands { Stands result [] }
    {
        let call = call_of(&job);
        Collect {
            job,
            stage: Stage::Asks { count: 0 },
            ready: Some(CollectAction::Depot(call)),
        }
    }

    /// Hands out the prepared call, or the end. It takes no memory.
    pub fn next(&mut self) -> CollectAction
        requires { self.old.ready ≡ true }
        ensures asked { seen_action result ≡ asked self.old.job self.old.need }
        ensures ready { self.new.ready ≡ false }
        ensures same { self.new.job ≡ self.old.job }
        ensures waits { self.new.need ≡ self.old.need }
        // The steps of one that ended are a walk.
        ensures walk { (steps : List Step) (end : Ending) → asked self.old.job self.old.need ≡ an_end end → Stands self.old steps → Collects self.old.job steps end }
        // With the call handed out and any reply to it, the steps are a walk or the front of one.
        ensures front { (steps : List Step) (reply : Reply) → Admits self.old reply → Stands self.old steps → IsFront self.old (with_step steps (asked self.old.job self.old.need) reply) }
    {
        self.hand_out()
    }

    fn hand_out(&mut self) -> CollectAction
        requires { self.old.ready ≡ true }
        ensures asked { seen_action result ≡ asked self.old.job self.old.need }
        ensures ready { self.new.ready ≡ false }
        ensures same { self.new.job ≡ self.old.job }
        ensures waits { self.new.need ≡ self.old.need }
    {
        self.ready.take().unwrap()
    }

    /// Takes the reply to the call handed out. It takes no memory.
    pub fn take(&mut self, _alloc: Global, reply: DepotReply)
        requires handed { self.old.ready ≡ false }
        requires admitted { Admits self.old (seen_reply reply) }
        ensures same { self.new.job ≡ self.old.job }
        ensures next { self.new.need ≡ advanced self.old.job self.old.need (seen_reply reply) }
        ensures ready { self.new.ready ≡ true }
        ensures stands { (steps : List Step) → Stands self.old steps → Stands self.new (with_step steps (asked self.old.job self.old.need) (seen_reply reply)) }
    {
        self.go_on(reply);
    }

    fn go_on(&mut self, reply: DepotReply)
        requires handed { self.old.ready ≡ false }
        requires admitted { Admits self.old (seen_reply reply) }
        ensures same { self.new.job ≡ self.old.job }
        ensures next { self.new.need ≡ advanced self.old.job self.old.need (seen_reply reply) }
        ensures ready { self.new.ready ≡ true }
    {
        let stage = mem::replace(&mut self.stage, Stage::Asks { count: 0 });
        let turn = advance(self.job, stage, reply);
        self.stage = turn.stage;
        self.ready = Some(turn.ready);
    }
}
