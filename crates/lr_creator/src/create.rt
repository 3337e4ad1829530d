//! The machine of a creation.
ghost use Rattle.std.specs.Prelude.{◌≡◌, ℕ, List, [], ◌∷◌, ◌++◌, true, false, OnOk, OnErr};
ghost use Rattle.lr_walk.specs.Depot.{Step, Reply, seen_call, seen_reply};
ghost use Rattle.lr_creator.specs.Creation.{Ending, Input, piece, last, IsPiece};
ghost use Rattle.lr_creator.specs.Progress.{start, Stands, IsFront, IsDone, Asked, an_end, asked, Admits, with_step, advanced, is_wanting, raw_len_of};
ghost use Rattle.lr_creator.specs.Seen.{seen_action, is_call, Gave, Finished, LeftShort, Stopped, IsSame};

use crate::stage::{Stage, advance, last_turn, piece_turn, stop_turn};
use lr_depot::{DepotCall, DepotReply};
use lr_manifest::TenantKey;
use lr_origin::ImageName;
use lr_spec::OutOfMemory;
use std::alloc::Global;
use std::marker::Model;
use std::mem;

/// Where a creation puts its chunks: its session, the root, the root's salt, and its number.
#[derive(Clone, Copy)]
pub struct Place {
    pub session: u64,
    pub root: u32,
    pub salt: [u8; 32],
    pub number: u64,
}

/// What a creation ends with.
#[derive(Drop)]
pub enum CreateEnd {
    /// The image is made.
    Made { root: u32 },
    /// The depot's answer that ended it.
    Other(DepotReply),
    /// No memory was found.
    Memory,
    /// Its owner stopped it.
    Stopped,
}

/// A call on the depot, or the end.
#[derive(Drop)]
pub enum CreateAction {
    Depot(DepotCall),
    End(CreateEnd),
}

/// A creation under way.
#[derive(Drop)]
pub struct Create {
    image: ImageName,
    tenant: TenantKey,
    stage: Stage,
    ready: Option<CreateAction>,
}

impl Model for Create {
    ghost use Rattle.std.specs.Prelude.{is_some};
    ghost use Rattle.lr_creator.specs.Progress.{Progress};
    ghost use Rattle.lr_creator.specs.Seen.{need_of, IsKept, IsPrepared};

    ghost Value = { Progress };

    ghost view = { λ s. record { image = s.image; tenant = s.tenant.bytes; need = need_of s.stage; ready = is_some s.ready } };

    ghost invariant = { λ s. IsKept s.stage × IsPrepared s.stage s.ready };
}

impl Create {
    /// A creation of an image, whose keys are sealed for a tenant.
    pub fn new(_alloc: Global, image: ImageName, tenant: TenantKey) -> Create
        ensures new { result ≡ start image tenant.bytes }
        ensures stands { Stands result [] [] }
    {
        Create {
            image,
            tenant,
            stage: Stage::Begins { image },
            ready: Some(CreateAction::Depot(DepotCall::BeginCreate { image })),
        }
    }

    /// Whether the owner is asked for a piece, for the end of the pieces, or to stop.
    pub fn wants(&self) -> bool
        ensures wants { result ≡ is_wanting self.now.need }
        ensures ready { is_wanting self.now.need ≡ true → self.now.ready ≡ false }
    {
        matches!(self.stage, Stage::Wants { .. })
    }

    /// Hands out the prepared call, or the end. It takes no memory.
    pub fn next(&mut self) -> CreateAction
        requires { self.old.ready ≡ true }
        ensures asked { seen_action result ≡ asked self.old.need }
        ensures ready { self.new.ready ≡ false }
        ensures same { IsSame self.old self.new }
        ensures walk { (given : List Input) (steps : List Step) (end : Ending) → asked self.old.need ≡ an_end end → Stands self.old given steps → IsDone self.old given steps end }
        ensures front { (given : List Input) (steps : List Step) (reply : Reply) → Admits self.old reply → Stands self.old given steps → IsFront self.old given (with_step steps (asked self.old.need) reply) }
        ensures waits { self.new.need ≡ self.old.need }
    {
        self.hand_out()
    }

    fn hand_out(&mut self) -> CreateAction
        requires { self.old.ready ≡ true }
        ensures asked { seen_action result ≡ asked self.old.need }
        ensures ready { self.new.ready ≡ false }
        ensures same { IsSame self.old self.new }
        ensures waits { self.new.need ≡ self.old.need }
    {
        self.ready.take().unwrap()
    }

    /// Takes the reply to the call handed out. It takes no memory.
    pub fn take(&mut self, alloc: Global, reply: DepotReply)
        requires handed { self.old.ready ≡ false }
        requires admitted { Admits self.old (seen_reply reply) }
        ensures same { IsSame self.old self.new }
        ensures next { self.new.need ≡ advanced self.old.need (seen_reply reply) }
        ensures ready { self.new.ready ≡ is_call (asked self.new.need) }
        ensures stands { (given : List Input) (steps : List Step) → Stands self.old given steps → Stands self.new given (with_step steps (asked self.old.need) (seen_reply reply)) }
    {
        self.go_on(alloc, reply);
    }

    fn go_on(&mut self, alloc: Global, reply: DepotReply)
        requires handed { self.old.ready ≡ false }
        requires admitted { Admits self.old (seen_reply reply) }
        ensures same { IsSame self.old self.new }
        ensures next { self.new.need ≡ advanced self.old.need (seen_reply reply) }
        ensures ready { self.new.ready ≡ is_call (asked self.new.need) }
    {
        let stage = mem::replace(&mut self.stage, Stage::Begins { image: self.image });
        let turn = advance(alloc, stage, reply);
        self.stage = turn.stage;
        self.ready = turn.ready;
    }

    /// Gives a piece of 1 to 524,288 bytes, each but the last a whole chunk.
    ///
    /// After an error the session is left, and the creation ends without memory.
    pub fn give(&mut self, alloc: Global, plain: &[u8]) -> Result<(), OutOfMemory>
        requires wants { is_wanting self.old.need ≡ true }
        requires piece { IsPiece (raw_len_of self.old.need) plain.now }
        ensures same { IsSame self.old self.new }
        ensures ready { self.new.ready ≡ true }
        ensures gave { OnOk result (Gave self.old.need plain.now self.new.need) }
        ensures short { OnErr result (LeftShort self.old.need self.new.need) }
        ensures stands { OnOk result ((given : List Input) (steps : List Step) → Stands self.old given steps → Stands self.new (given ++ piece plain.now ∷ []) steps) }
        ensures keeps { OnErr result ((given : List Input) (steps : List Step) → Stands self.old given steps → Stands self.new given steps) }
    {
        self.take_piece(alloc, plain)
    }

    fn take_piece(&mut self, alloc: Global, plain: &[u8]) -> Result<(), OutOfMemory>
        requires wants { is_wanting self.old.need ≡ true }
        requires piece { IsPiece (raw_len_of self.old.need) plain.now }
        ensures same { IsSame self.old self.new }
        ensures ready { self.new.ready ≡ true }
        ensures gave { OnOk result (Gave self.old.need plain.now self.new.need) }
        ensures short { OnErr result (LeftShort self.old.need self.new.need) }
    {
        let stage = mem::replace(&mut self.stage, Stage::Begins { image: self.image });
        let (turn, result) = piece_turn(alloc, stage, plain);
        self.stage = turn.stage;
        self.ready = turn.ready;
        result
    }

    /// Says that the last piece was given.
    ///
    /// Where no memory is found for the manifest, the session is left, and the creation ends without memory.
    pub fn last(&mut self, alloc: Global)
        requires wants { is_wanting self.old.need ≡ true }
        ensures same { IsSame self.old self.new }
        ensures ready { self.new.ready ≡ true }
        ensures finished { Finished self.old self.new.need }
        ensures stands { (given : List Input) (steps : List Step) → Stands self.old given steps → Stands self.new (given ++ last ∷ []) steps }
    {
        self.finish(alloc);
    }

    fn finish(&mut self, alloc: Global)
        requires wants { is_wanting self.old.need ≡ true }
        ensures same { IsSame self.old self.new }
        ensures ready { self.new.ready ≡ true }
        ensures finished { Finished self.old self.new.need }
    {
        let stage = mem::replace(&mut self.stage, Stage::Begins { image: self.image });
        let turn = last_turn(alloc, &self.tenant, stage);
        self.stage = turn.stage;
        self.ready = turn.ready;
    }

    /// Stops the creation: its session is left, and it ends so.
    pub fn stop(&mut self)
        requires wants { is_wanting self.old.need ≡ true }
        ensures same { IsSame self.old self.new }
        ensures ready { self.new.ready ≡ true }
        ensures stopped { Stopped self.old.need self.new.need }
        ensures stands { (given : List Input) (steps : List Step) → Stands self.old given steps → Stands self.new given steps }
    {
        self.leave();
    }

    fn leave(&mut self)
        requires wants { is_wanting self.old.need ≡ true }
        ensures same { IsSame self.old self.new }
        ensures ready { self.new.ready ≡ true }
        ensures stopped { Stopped self.old.need self.new.need }
    {
        let stage = mem::replace(&mut self.stage, Stage::Begins { image: self.image });
        let turn = stop_turn(stage);
        self.stage = turn.stage;
        self.ready = turn.ready;
    }
}
