//! A creation as a job.
ghost use Rattle.std.specs.Prelude.{◌≡◌, ◌≤◌, ◌<◌, ◌%◌, ◌+◌, ◌++◌, List, ℕ, [], true, false, length, take};
ghost use Rattle.lr_walk.specs.declared.trail.Answer.{Answer as Ending};
ghost use Rattle.lr_walk.specs.Steps.{Step, Reply};
ghost use Rattle.lr_walk.specs.Depot.{Step as DepotStep};
ghost use Rattle.lr_creator.specs.Progress.{start, is_wanting, Progress as Creation};
ghost use Rattle.lr_creator.specs.Seen.{seen_end, seen_action};
ghost use Rattle.lr_actors.specs.Asked.{Hands, MayBeMade, seen_reply, an_end, Adds};
ghost use Rattle.lr_actors.specs.Bounds.{steps_left};
ghost use Rattle.lr_actors.specs.Creating.{created, Makes, Stands, StandsFor, IsFront, IsSteady, IsSame, EndsDone, asked_by, asked, Admits};

use crate::action::{ActorCall, ActorReply, JobAction};
use crate::depot_answer::{answer_of_depot, of_depot};
use lr_creator::{Create, CreateAction, CreateEnd};
use lr_manifest::{CHUNK, TenantKey};
use lr_origin::ImageName;
use lr_walk::Answer;
use std::alloc::Global;
use std::marker::Model;

/// A creation as a job under way: it is given the raw bytes, a chunk at a time.
///
/// A contract sees the creation, the bytes, and how many of them it was given. Of c chunks it makes at most c + 3 steps.
#[derive(Drop)]
pub struct CreatingJob {
    alloc: Global,
    create: Create,
    raw: Vec<u8>,
    given: usize,
}

impl Model for CreatingJob {
    ghost use Rattle.std.specs.Prelude.{◌≡◌, false};
    ghost use Rattle.lr_creator.specs.Progress.{is_wanting};
    ghost use Rattle.lr_actors.specs.Creating.{Progress, IsSteady};

    ghost Value = { Progress };

    ghost view = { λ s. record { create = s.create; raw = s.raw.items; given = s.given } };

    ghost invariant = { λ s. IsSteady (record { create = s.create; raw = s.raw.items; given = s.given }) × (is_wanting s.create.need ≡ false) };
}

// The answer of an ending.
fn answer_of(end: CreateEnd) -> Answer
    ensures { result ≡ created (seen_end end) }
{
    match end {
        CreateEnd::Made { root } => Answer::Created(root),
        CreateEnd::Other(reply) => answer_of_depot(reply),
        CreateEnd::Memory => Answer::Memory,
        CreateEnd::Stopped => Answer::Memory,
    }
}

// A creation's action, as the job's.
fn job_action(action: CreateAction) -> JobAction
    ensures hands { Hands result (asked_by (seen_action action)) }
    ensures may { MayBeMade result }
{
    match action {
        CreateAction::Depot(call) => JobAction::Call(ActorCall::Depot(call)),
        CreateAction::End(end) => JobAction::End(answer_of(end)),
    }
}

// The end of the next piece: a whole chunk, or what is left.
fn piece_end(given: usize, whole: usize) -> usize
    requires { given < whole }
    ensures more { given < result }
    ensures most { result ≤ given + 524288 }
    ensures within { result ≤ whole }
    ensures chunk { result < whole → result ≡ given + 524288 }
{
    if whole - given > CHUNK {
        return given + CHUNK;
    }
    whole
}

// The next piece.
fn piece_of(raw: &[u8], given: usize, to: usize) -> &[u8]
    requires from { given ≤ to }
    requires to { to ≤ length raw.now }
    ensures joined { take given raw.now ++ result.now ≡ take to raw.now }
    ensures length { given + length result.now ≡ to }
{
    &raw[given..to]
}

// Gives the next piece, and tells how many bytes were given. Where no memory is found for it, the creation leaves.
fn give_piece(alloc: Global, create: &mut Create, raw: &[u8], given: usize) -> usize
    requires wants { is_wanting create.old.need ≡ true }
    requires steady { IsSteady (record { create = create.old; raw = raw.now; given = given }) }
    requires more { given < length raw.now }
    ensures steady { IsSteady (record { create = create.new; raw = raw.now; given = result }) }
    ensures same { (create.new.image ≡ create.old.image) × (create.new.tenant ≡ create.old.tenant) }
    ensures ready { create.new.ready ≡ true }
    ensures fed { is_wanting create.new.need ≡ false }
    ensures stands { (own : List DepotStep) → Stands (record { create = create.old; raw = raw.now; given = given }) own → Stands (record { create = create.new; raw = raw.now; given = result }) own }
    ensures nears { steps_left (record { create = create.new; raw = raw.now; given = result }) ≤ steps_left (record { create = create.old; raw = raw.now; given = given }) }
{
    let to = piece_end(given, raw.len());
    let piece = piece_of(raw, given, to);
    match create.give(alloc, piece) {
        Ok(()) => to,
        Err(_) => given,
    }
}

// Says that all bytes were given.
fn give_last(alloc: Global, create: &mut Create, raw: &[u8], given: usize)
    requires wants { is_wanting create.old.need ≡ true }
    requires steady { IsSteady (record { create = create.old; raw = raw.now; given = given }) }
    requires all { given ≡ length raw.now }
    ensures steady { IsSteady (record { create = create.new; raw = raw.now; given = given }) }
    ensures same { (create.new.image ≡ create.old.image) × (create.new.tenant ≡ create.old.tenant) }
    ensures ready { create.new.ready ≡ true }
    ensures fed { is_wanting create.new.need ≡ false }
    ensures stands { (own : List DepotStep) → Stands (record { create = create.old; raw = raw.now; given = given }) own → Stands (record { create = create.new; raw = raw.now; given = given }) own }
    ensures nears { steps_left (record { create = create.new; raw = raw.now; given = given }) ≤ steps_left (record { create = create.old; raw = raw.now; given = given }) }
{
    create.last(alloc);
}

// Gives what the creation wants, and tells how many bytes were given.
fn feed(alloc: Global, create: &mut Create, raw: &[u8], given: usize) -> usize
    requires steady { IsSteady (record { create = create.old; raw = raw.now; given = given }) }
    requires ready { is_wanting create.old.need ≡ false → create.old.ready ≡ true }
    ensures steady { IsSteady (record { create = create.new; raw = raw.now; given = result }) }
    ensures same { (create.new.image ≡ create.old.image) × (create.new.tenant ≡ create.old.tenant) }
    ensures ready { create.new.ready ≡ true }
    ensures fed { is_wanting create.new.need ≡ false }
    ensures stands { (own : List DepotStep) → Stands (record { create = create.old; raw = raw.now; given = given }) own → Stands (record { create = create.new; raw = raw.now; given = result }) own }
    ensures nears { steps_left (record { create = create.new; raw = raw.now; given = result }) ≤ steps_left (record { create = create.old; raw = raw.now; given = given }) }
{
    if !create.wants() {
        return given;
    }
    if given < raw.len() {
        return give_piece(alloc, create, raw, given);
    }
    give_last(alloc, create, raw, given);
    given
}

// The creation takes the reply, and is given what it wants: tells how many bytes were given.
fn go_on(
    alloc: Global,
    create: &mut Create,
    raw: &Vec<u8>,
    given: usize,
    reply: ActorReply,
) -> usize
    requires handed { create.old.ready ≡ false }
    requires admitted { Admits (record { create = create.old; raw = raw.now.items; given = given }) (seen_reply reply) }
    requires steady { IsSteady (record { create = create.old; raw = raw.now.items; given = given }) }
    ensures steady { IsSteady (record { create = create.new; raw = raw.now.items; given = result }) }
    ensures same { (create.new.image ≡ create.old.image) × (create.new.tenant ≡ create.old.tenant) }
    ensures ready { create.new.ready ≡ true }
    ensures fed { is_wanting create.new.need ≡ false }
    ensures stands { (steps more : List Step) → Adds (asked (record { create = create.old; raw = raw.now.items; given = given })) (seen_reply reply) more → StandsFor (record { create = create.old; raw = raw.now.items; given = given }) steps → StandsFor (record { create = create.new; raw = raw.now.items; given = result }) (steps ++ more) }
    ensures nears { steps_left (record { create = create.new; raw = raw.now.items; given = result }) + 1 ≤ steps_left (record { create = create.old; raw = raw.now.items; given = given }) }
{
    create.take(alloc, of_depot(reply));
    feed(alloc, create, raw.as_slice(), given)
}

impl CreatingJob {
    /// The creation of an image of these raw bytes, at most 10,737,418,240, whose keys are sealed for a tenant.
    pub fn new(alloc: Global, image: ImageName, tenant: TenantKey, raw: Vec<u8>) -> CreatingJob
        requires { length raw.items ≤ 10737418240 }
        ensures new { result ≡ record { create = start image tenant.bytes; raw = raw.items; given = 0 } }
        ensures stands { StandsFor result [] }
    {
        CreatingJob {
            alloc,
            create: Create::new(alloc, image, tenant),
            raw,
            given: 0,
        }
    }

    /// Hands out the prepared call, or the end. It takes no memory.
    pub fn next(&mut self) -> JobAction
        requires { self.old.create.ready ≡ true }
        ensures asked { Hands result (asked self.old) }
        ensures may { MayBeMade result }
        ensures same { IsSame self.old self.new × (self.new.create.need ≡ self.old.create.need) × (self.new.given ≡ self.old.given) }
        ensures ready { self.new.create.ready ≡ false }
        // What an ended job stands for is a walk with its answer.
        ensures walk { (steps : List Step) (answer : Ending) → asked self.old ≡ an_end answer → StandsFor self.old steps → Makes self.old steps answer }
        // What another one stands for, with the call and any reply to it, is a walk or the front of one.
        ensures front { (steps more : List Step) (reply : Reply) → Admits self.old reply → Adds (asked self.old) reply more → StandsFor self.old steps → IsFront self.old (steps ++ more) }
    {
        self.hand_out()
    }

    fn hand_out(&mut self) -> JobAction
        requires { self.old.create.ready ≡ true }
        ensures asked { Hands result (asked self.old) }
        ensures may { MayBeMade result }
        ensures same { IsSame self.old self.new × (self.new.create.need ≡ self.old.create.need) × (self.new.given ≡ self.old.given) }
        ensures ready { self.new.create.ready ≡ false }
        ensures ends { EndsDone self.old.create }
    {
        job_action(self.create.next())
    }

    /// Takes the reply to the call handed out, and gives the creation what it wants.
    pub fn take(&mut self, reply: ActorReply)
        requires handed { self.old.create.ready ≡ false }
        requires admitted { Admits self.old (seen_reply reply) }
        ensures same { IsSame self.old self.new }
        ensures ready { self.new.create.ready ≡ true }
        ensures stands { (steps more : List Step) → Adds (asked self.old) (seen_reply reply) more → StandsFor self.old steps → StandsFor self.new (steps ++ more) }
        ensures nears { steps_left self.new + 1 ≤ steps_left self.old }
    {
        self.given = go_on(self.alloc, &mut self.create, &self.raw, self.given, reply);
    }
}
