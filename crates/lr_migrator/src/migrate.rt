//! The machine of a migration.
ghost use Rattle.std.specs.Prelude.{◌≡◌, ℕ, List, [], true, false};
ghost use Rattle.lr_walk.specs.Depot.{Step, Reply, seen_reply};
ghost use Rattle.lr_migrator.specs.Migration.{Ending, Migrates};
ghost use Rattle.lr_migrator.specs.Progress.{start, Stands, IsFront, an_end, asked, Admits, with_step, advanced};
ghost use Rattle.lr_migrator.specs.Seen.{seen_action};

use crate::stage::{Stage, advance};
use lr_depot::{DepotCall, DepotReply};
use lr_origin::ImageName;
use std::alloc::Global;
use std::marker::Model;
use std::mem;

/// What a migration ends with.
#[derive(Drop)]
pub enum MigrateEnd {
    /// The image is moved from one root to the other.
    Moved { from: u32, to: u32 },
    /// The depot's answer that ended it.
    Other(DepotReply),
    /// No memory was found.
    Memory,
}

/// A call on the depot, or the end.
#[derive(Drop)]
pub enum MigrateAction {
    Depot(DepotCall),
    End(MigrateEnd),
}

/// A migration under way.
#[derive(Drop)]
pub struct Migrate {
    image: ImageName,
    stage: Stage,
    ready: Option<MigrateAction>,
}

impl Model for Migrate {
    ghost use Rattle.std.specs.Prelude.{is_some};
    ghost use Rattle.lr_migrator.specs.Progress.{Progress};
    ghost use Rattle.lr_migrator.specs.Seen.{need_of, IsKept, IsPrepared};

    ghost Value = { Progress };

    ghost view = { λ s. record { image = s.image; need = need_of s.stage; ready = is_some s.ready } };

    ghost invariant = { λ s. IsKept s.stage × IsPrepared s.image s.stage s.ready };
}

impl Migrate {
    /// A migration of an image.
    pub fn new(_alloc: Global, image: ImageName) -> Migrate
        ensures new { result ≡ start image }
        ensures stands { Stands result [] }
    {
        Migrate {
            image,
            stage: Stage::Begins,
            ready: Some(MigrateAction::Depot(DepotCall::BeginMigrate { image })),
        }
    }

    /// Hands out the prepared call, or the end. It takes no memory.
    pub fn next(&mut self) -> MigrateAction
        requires { self.old.ready ≡ true }
        ensures asked { seen_action result ≡ asked self.old.image self.old.need }
        ensures ready { self.new.ready ≡ false }
        ensures same { self.new.image ≡ self.old.image }
        ensures waits { self.new.need ≡ self.old.need }
        // The steps of one that ended are a walk.
        ensures walk { (steps : List Step) (end : Ending) → asked self.old.image self.old.need ≡ an_end end → Stands self.old steps → Migrates self.old.image steps end }
        // With the call handed out and any reply to it, the steps are a walk or the front of one.
        ensures front { (steps : List Step) (reply : Reply) → Admits self.old reply → Stands self.old steps → IsFront self.old (with_step steps (asked self.old.image self.old.need) reply) }
    {
        self.hand_out()
    }

    fn hand_out(&mut self) -> MigrateAction
        requires { self.old.ready ≡ true }
        ensures asked { seen_action result ≡ asked self.old.image self.old.need }
        ensures ready { self.new.ready ≡ false }
        ensures same { self.new.image ≡ self.old.image }
        ensures waits { self.new.need ≡ self.old.need }
    {
        self.ready.take().unwrap()
    }

    /// Takes the reply to the call handed out. It takes no memory.
    pub fn take(&mut self, _alloc: Global, reply: DepotReply)
        requires handed { self.old.ready ≡ false }
        requires admitted { Admits self.old (seen_reply reply) }
        ensures same { self.new.image ≡ self.old.image }
        ensures next { self.new.need ≡ advanced self.old.need (seen_reply reply) }
        ensures ready { self.new.ready ≡ true }
        ensures stands { (steps : List Step) → Stands self.old steps → Stands self.new (with_step steps (asked self.old.image self.old.need) (seen_reply reply)) }
    {
        self.go_on(reply);
    }

    fn go_on(&mut self, reply: DepotReply)
        requires handed { self.old.ready ≡ false }
        requires admitted { Admits self.old (seen_reply reply) }
        ensures same { self.new.image ≡ self.old.image }
        ensures next { self.new.need ≡ advanced self.old.need (seen_reply reply) }
        ensures ready { self.new.ready ≡ true }
    {
        let stage = mem::replace(&mut self.stage, Stage::Begins);
        let turn = advance(stage, reply);
        self.stage = turn.stage;
        self.ready = Some(turn.ready);
    }
}
