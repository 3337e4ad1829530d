//! A collection as a job.
ghost use Rattle.std.specs.Prelude.{◌≡◌, ◌++◌, List, [], true, false};
ghost use Rattle.lr_walk.specs.declared.trail.Answer.{Answer as Ending};
ghost use Rattle.lr_walk.specs.Steps.{Step, Reply};
ghost use Rattle.lr_walk.specs.Depot.{seen_reply as depot_reply};
ghost use Rattle.lr_collector.specs.Progress.{start, advanced};
ghost use Rattle.lr_collector.specs.Seen.{seen_end, seen_action};
ghost use Rattle.lr_actors.specs.Asked.{Hands, MayBeMade, seen_reply, an_end, Adds};
ghost use Rattle.lr_actors.specs.Collecting.{collected, Collecting, StandsFor, IsFront, asked_by, asked, Admits};
ghost use Rattle.lr_actors.specs.Lifted.{Replies};

use crate::action::{ActorCall, ActorReply, JobAction};
use crate::depot_answer::{answer_of_depot, of_depot};
use lr_collector::{Collect, CollectAction, CollectEnd, CollectJob};
use lr_walk::Answer;
use std::alloc::Global;
use std::marker::Model;

/// A collection as a job under way. A contract sees the collection.
#[derive(Drop)]
pub struct CollectingJob {
    alloc: Global,
    collect: Collect,
}

impl Model for CollectingJob {
    ghost use Rattle.lr_collector.specs.Progress.{Progress};

    ghost Value = { Progress };

    ghost view = { λ s. s.collect };
}

// The answer of an ending.
fn answer_of(end: CollectEnd) -> Answer
    ensures { result ≡ collected (seen_end end) }
{
    match end {
        CollectEnd::Answered(reply) => answer_of_depot(reply),
        CollectEnd::Swept { count } => Answer::Swept(count),
        CollectEnd::Memory => Answer::Memory,
    }
}

// A collection's action, as the job's.
fn job_action(action: CollectAction) -> JobAction
    ensures hands { Hands result (asked_by (seen_action action)) }
    ensures may { MayBeMade result }
{
    match action {
        CollectAction::Depot(call) => JobAction::Call(ActorCall::Depot(call)),
        CollectAction::End(end) => JobAction::End(answer_of(end)),
    }
}

impl CollectingJob {
    /// The collection of a job.
    pub fn new(alloc: Global, job: CollectJob) -> CollectingJob
        ensures new { result ≡ start job }
        ensures stands { StandsFor result [] }
    {
        CollectingJob {
            alloc,
            collect: Collect::new(alloc, job),
        }
    }

    /// Hands out the prepared call, or the end. It takes no memory.
    pub fn next(&mut self) -> JobAction
        requires { self.old.ready ≡ true }
        ensures asked { Hands result (asked self.old) }
        ensures may { MayBeMade result }
        ensures same { (self.new.job ≡ self.old.job) × (self.new.need ≡ self.old.need) }
        ensures ready { self.new.ready ≡ false }
        // What an ended job stands for is a walk with its answer.
        ensures walk { (steps : List Step) (answer : Ending) → asked self.old ≡ an_end answer → StandsFor self.old steps → Collecting self.old.job steps answer }
        // What another one stands for, with the call and any reply to it, is a walk or the front of one.
        ensures front { (steps more : List Step) (reply : Reply) → Admits self.old reply → Adds (asked self.old) reply more → StandsFor self.old steps → IsFront self.old.job (steps ++ more) }
    {
        job_action(self.collect.next())
    }

    /// Takes the reply to the call handed out. It takes no memory.
    pub fn take(&mut self, reply: ActorReply)
        requires handed { self.old.ready ≡ false }
        requires admitted { Admits self.old (seen_reply reply) }
        ensures job { self.new.job ≡ self.old.job }
        ensures ready { self.new.ready ≡ true }
        ensures next { Replies (seen_reply reply) (λ told. self.new.need ≡ advanced self.old.job self.old.need told) }
        ensures stands { (steps more : List Step) → Adds (asked self.old) (seen_reply reply) more → StandsFor self.old steps → StandsFor self.new (steps ++ more) }
    {
        self.collect.take(self.alloc, of_depot(reply));
    }
}
