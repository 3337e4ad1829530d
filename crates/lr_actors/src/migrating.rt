//! A migration as a job.
ghost use Rattle.std.specs.Prelude.{◌≡◌, ◌≤◌, ◌+◌, ◌++◌, List, [], length, true, false};
ghost use Rattle.lr_walk.specs.declared.trail.Answer.{Answer as Ending};
ghost use Rattle.lr_walk.specs.Steps.{Step, Reply};
ghost use Rattle.lr_walk.specs.Depot.{seen_reply as depot_reply};
ghost use Rattle.lr_migrator.specs.Progress.{start, advanced};
ghost use Rattle.lr_migrator.specs.Seen.{seen_end, seen_action};
ghost use Rattle.lr_actors.specs.Asked.{Hands, MayBeMade, seen_reply, an_end, Adds};
ghost use Rattle.lr_actors.specs.Migrating.{migrated, Migrating, StandsFor, IsFront, asked_by, asked, Admits};
ghost use Rattle.lr_actors.specs.Lifted.{Replies};
ghost use Rattle.lr_actors.specs.Bounds.{HasFewChunks, moves_ahead};

use crate::action::{ActorCall, ActorReply, JobAction};
use crate::depot_answer::{answer_of_depot, of_depot};
use lr_depot::DepotReply;
use lr_manifest::Manifest;
use lr_migrator::{Migrate, MigrateAction, MigrateEnd};
use lr_origin::ImageName;
use lr_walk::Answer;
use std::alloc::Global;
use std::marker::Model;

/// A migration as a job under way. A contract sees the migration.
#[derive(Drop)]
pub struct MigratingJob {
    alloc: Global,
    migrate: Migrate,
}

impl Model for MigratingJob {
    ghost use Rattle.lr_migrator.specs.Progress.{Progress};

    ghost Value = { Progress };

    ghost view = { λ s. s.migrate };
}

// The answer of an ending.
fn answer_of(end: MigrateEnd) -> Answer
    ensures { result ≡ migrated (seen_end end) }
{
    match end {
        MigrateEnd::Moved { from, to } => Answer::Moved(from, to),
        MigrateEnd::Other(reply) => answer_of_depot(reply),
        MigrateEnd::Memory => Answer::Memory,
    }
}

// A migration's action, as the job's.
fn job_action(action: MigrateAction) -> JobAction
    ensures hands { Hands result (asked_by (seen_action action)) }
    ensures may { MayBeMade result }
{
    match action {
        MigrateAction::Depot(call) => JobAction::Call(ActorCall::Depot(call)),
        MigrateAction::End(end) => JobAction::End(answer_of(end)),
    }
}

// A manifest has at most 20,480 chunks.
fn is_whole(manifest: &Manifest)
    ensures { length manifest.now.names ≤ 20480 }
{
    let _ = manifest.names();
}

// .. and so has the one in a reply.
fn few_chunks(reply: &DepotReply)
    ensures { HasFewChunks (depot_reply reply.now) }
{
    match reply {
        DepotReply::Moving { manifest, .. } => is_whole(manifest),
        _ => (),
    }
}

impl MigratingJob {
    /// The migration of an image.
    pub fn new(alloc: Global, image: ImageName) -> MigratingJob
        ensures new { result ≡ start image }
        ensures stands { StandsFor result [] }
    {
        MigratingJob {
            alloc,
            migrate: Migrate::new(alloc, image),
        }
    }

    /// Hands out the prepared call, or the end. It takes no memory.
    pub fn next(&mut self) -> JobAction
        requires { self.old.ready ≡ true }
        ensures asked { Hands result (asked self.old) }
        ensures may { MayBeMade result }
        ensures same { (self.new.image ≡ self.old.image) × (self.new.need ≡ self.old.need) }
        ensures ready { self.new.ready ≡ false }
        // What an ended job stands for is a walk with its answer.
        ensures walk { (steps : List Step) (answer : Ending) → asked self.old ≡ an_end answer → StandsFor self.old steps → Migrating self.old.image steps answer }
        // What another one stands for, with the call and any reply to it, is a walk or the front of one.
        ensures front { (steps more : List Step) (reply : Reply) → Admits self.old reply → Adds (asked self.old) reply more → StandsFor self.old steps → IsFront self.old.image (steps ++ more) }
    {
        job_action(self.migrate.next())
    }

    /// Takes the reply to the call handed out. It takes no memory.
    pub fn take(&mut self, reply: ActorReply)
        requires handed { self.old.ready ≡ false }
        requires admitted { Admits self.old (seen_reply reply) }
        ensures image { self.new.image ≡ self.old.image }
        ensures ready { self.new.ready ≡ true }
        ensures next { Replies (seen_reply reply) (λ told. self.new.need ≡ advanced self.old.need told) }
        ensures stands { (steps more : List Step) → Adds (asked self.old) (seen_reply reply) more → StandsFor self.old steps → StandsFor self.new (steps ++ more) }
        ensures nears { moves_ahead self.new.need + 1 ≤ moves_ahead self.old.need }
    {
        let reply = of_depot(reply);
        few_chunks(&reply);
        self.migrate.take(self.alloc, reply);
    }
}
