//! The machine of a forging.
ghost use Rattle.std.specs.Prelude.{◌≡◌, ◌≤◌, ◌<◌, ◌+◌, ◌++◌, ◌∷◌, ℕ, List, [], true, false, length, map, IfOk, IfSome, IfNone};
ghost use Rattle.std.specs.Arc.{arc_value};
ghost use Rattle.std.specs.List.{AllByRecursion, AllZip};
ghost use Rattle.lr_stripe.specs.Code.{IsStripe};
ghost use Rattle.lr_stripe.specs.Good.{IsGood};
ghost use Rattle.lr_stripe.specs.declared.stripe.Stripe.{Stripe as KeptStripe};
ghost use Rattle.lr_walk.specs.declared.trail.Answer.{Answer as Ending};
ghost use Rattle.lr_walk.specs.Steps.{Step, Reply};
ghost use Rattle.lr_walk.specs.Stripes.{node_at};
ghost use Rattle.lr_walk.specs.Damage.{IsForged, forged_so_far};
ghost use Rattle.lr_actors.specs.Asked.{Hands, MayBeMade, seen_reply, an_end, Adds};
ghost use Rattle.lr_actors.specs.Forging.{AreZeros, Target, Forging, putting, ended, StandsFor, IsFront, asked, Admits, advanced, steps_left, Begins, need_of, IsTurn};

use crate::action::{ActorCall, ActorReply, JobAction};
use lr_manifest::{CHUNK, Chunk, Name};
use lr_nodes::{NodeCall, NodeReply};
use lr_spec::OutOfMemory;
use lr_stripe::Stripe;
use lr_walk::Answer;
use std::alloc::Global;
use std::marker::Model;
use std::mem;
use std::snapshot::Snapshot;
use std::sync::Arc;

#[derive(Drop)]
pub(crate) enum ForgeStage {
    Puts(Snapshot<Stripe>, Vec<Arc<Stripe>>, Answer),
    Ends(Snapshot<Answer>),
}

/// A stage with what is handed out next.
#[derive(Drop)]
pub(crate) struct ForgeTurn {
    pub(crate) stage: ForgeStage,
    pub(crate) ready: JobAction,
}

/// A forging under way: five stripes of a chunk of zeros are put under another chunk's name.
///
/// A contract sees the nodes and the name, what it needs next, and whether its call is prepared. It makes five steps.
#[derive(Drop)]
pub struct ForgeJob {
    nodes: u32,
    name: Name,
    stage: ForgeStage,
    ready: Option<JobAction>,
}

impl Model for ForgeJob {
    ghost use Rattle.std.specs.Prelude.{◌≤◌, is_some};
    ghost use Rattle.lr_actors.specs.Forging.{Progress, need_of, IsReady};

    ghost Value = { Progress };

    ghost view = { λ s. record { target = record { nodes = s.nodes; name = s.name }; need = need_of s.stage; ready = is_some s.ready } };

    ghost invariant = { λ s. (5 ≤ s.nodes) × IsReady (record { nodes = s.nodes; name = s.name }) s.stage s.ready };
}

// So many zeros.
fn zero_bytes(alloc: Global, size: usize) -> Result<Vec<u8>, OutOfMemory>
    ensures zeros { IfOk result (λ v. AllByRecursion (λ (b : ℕ). b ≡ 0) v.items) }
    ensures length { IfOk result (λ v. length v.items ≡ size) }
{
    let mut bytes = Vec::new(alloc);
    bytes.resize(size, 0u8)?;
    Ok(bytes)
}

// The chunk of zeros.
fn zeros(alloc: Global) -> Result<Chunk, OutOfMemory>
    ensures { IfOk result (λ c. AreZeros c) }
{
    Ok(Chunk::of(zero_bytes(alloc, CHUNK)?))
}

// The stripe of the chunk of zeros, under the name of another.
fn under(stripe: Stripe, _zeros: &Chunk, name: &Name, _index: u8) -> Stripe
    requires zeros { AreZeros _zeros.now }
    requires good { IsGood stripe stripe.name _index }
    requires bytes { IsStripe 4 _zeros.now _index stripe.bytes }
    ensures { IsForged name.now _index result }
{
    Stripe {
        name: *name,
        ..stripe
    }
}

// A forged stripe.
fn forged(alloc: Global, zeros: &Chunk, name: &Name, index: u8) -> Result<Arc<Stripe>, OutOfMemory>
    requires index { index < 5 }
    requires zeros { AreZeros zeros.now }
    ensures { IfOk result (λ s. IsForged name.now index (arc_value s)) }
{
    let made = Stripe::make(alloc, zeros, index)?;
    let stripe = under(made, zeros, name, index);
    Ok(Arc::new(alloc, stripe)?)
}

// All five forged stripes, in order.
fn forge_all(alloc: Global, name: &Name) -> Result<Vec<Arc<Stripe>>, OutOfMemory>
    ensures { IfOk result (λ v. AllZip (IsForged name.now) (0 ∷ 1 ∷ 2 ∷ 3 ∷ 4 ∷ []) (map arc_value v.items)) }
{
    let zeros = zeros(alloc)?;
    let mut stripes = Vec::new(alloc);
    stripes.push(forged(alloc, &zeros, name, 0)?)?;
    stripes.push(forged(alloc, &zeros, name, 1)?)?;
    stripes.push(forged(alloc, &zeros, name, 2)?)?;
    stripes.push(forged(alloc, &zeros, name, 3)?)?;
    stripes.push(forged(alloc, &zeros, name, 4)?)?;
    Ok(stripes)
}

// The first of the stripes, which goes.
fn take_first(stripes: &mut Vec<Arc<Stripe>>) -> Option<Arc<Stripe>>
    ensures first { IfSome result (λ s. map arc_value stripes.old.items ≡ arc_value s ∷ map arc_value stripes.new.items) }
    ensures none { IfNone result (map arc_value stripes.old.items ≡ []) }
{
    if stripes.is_empty() {
        return None;
    }
    Some(stripes.remove(0))
}

fn to_end(_nodes: u32, _name: &Name, answer: Answer) -> ForgeTurn
    ensures turn { IsTurn (record { nodes = _nodes; name = _name.now }) result }
    ensures need { need_of result.stage ≡ ended answer }
{
    let kept = Snapshot::of(&answer);
    ForgeTurn {
        stage: ForgeStage::Ends(kept),
        ready: JobAction::End(answer),
    }
}

fn to_put(
    nodes: u32,
    name: &Name,
    stripe: Arc<Stripe>,
    more: Vec<Arc<Stripe>>,
    answer: Answer,
) -> ForgeTurn
    requires { 5 ≤ nodes }
    ensures turn { IsTurn (record { nodes = nodes; name = name.now }) result }
    ensures need { need_of result.stage ≡ putting (arc_value stripe) (map arc_value more.items) answer }
{
    let node = node_of(nodes, name, stripe.index);
    ForgeTurn {
        stage: ForgeStage::Puts(Snapshot::of(&*stripe), more, answer),
        ready: JobAction::Call(ActorCall::Node(node, NodeCall::Put { stripe })),
    }
}

// The node that a stripe of the name stands on.
fn node_of(nodes: u32, name: &Name, index: u8) -> u32
    requires { 5 ≤ nodes }
    ensures { result ≡ node_at name.now index nodes }
{
    lr_nodes::place(name, index, nodes)
}

// The first stripe is put, or no memory was found for all five.
fn to_begin(alloc: Global, nodes: u32, name: &Name) -> ForgeTurn
    requires { 5 ≤ nodes }
    ensures turn { IsTurn (record { nodes = nodes; name = name.now }) result }
    ensures begins { Begins (record { nodes = nodes; name = name.now }) (need_of result.stage) }
{
    let Ok(mut stripes) = forge_all(alloc, name) else {
        return to_end(nodes, name, Answer::Memory);
    };
    match take_first(&mut stripes) {
        Some(stripe) => to_put(nodes, name, stripe, stripes, Answer::Forged),
        None => unreachable!(),
    }
}

// The answer after one more reply.
fn answer_after(answer: Answer, reply: ActorReply) -> Answer
    ensures { result ≡ forged_so_far answer (seen_reply reply) }
{
    match reply {
        ActorReply::Node(NodeReply::Kept) => answer,
        _ => Answer::Memory,
    }
}

// What the forging needs after a reply.
fn advance(nodes: u32, name: &Name, stage: ForgeStage, reply: ActorReply) -> ForgeTurn
    requires nodes { 5 ≤ nodes }
    requires admitted { Admits (need_of stage) (seen_reply reply) }
    ensures turn { IsTurn (record { nodes = nodes; name = name.now }) result }
    ensures next { need_of result.stage ≡ advanced (need_of stage) (seen_reply reply) }
{
    match stage {
        ForgeStage::Puts(_, more, answer) => { put(nodes, name, more, answer_after(answer, reply)) }
        ForgeStage::Ends(_) => unreachable!(),
    }
}

// After a put.
fn put(nodes: u32, name: &Name, mut more: Vec<Arc<Stripe>>, answer: Answer) -> ForgeTurn
    requires { 5 ≤ nodes }
    ensures turn { IsTurn (record { nodes = nodes; name = name.now }) result }
    ensures next { (stripe : KeptStripe) (so_far : Ending) (reply : Reply) → answer ≡ forged_so_far so_far reply → need_of result.stage ≡ advanced (putting stripe (map arc_value more.items) so_far) reply }
{
    match take_first(&mut more) {
        Some(stripe) => to_put(nodes, name, stripe, more, answer),
        None => to_end(nodes, name, answer),
    }
}

impl ForgeJob {
    /// A forging under the name of a chunk, among at least 5 nodes.
    ///
    /// Where no memory is found for the stripes, it ends so.
    pub fn new(alloc: Global, nodes: u32, name: Name) -> ForgeJob
        requires { 5 ≤ nodes }
        ensures target { result.target ≡ record { nodes = nodes; name = name } }
        ensures begins { Begins (record { nodes = nodes; name = name }) result.need }
        ensures ready { result.ready ≡ true }
        ensures stands { StandsFor result [] }
    {
        let turn = to_begin(alloc, nodes, &name);
        ForgeJob {
            nodes,
            name,
            stage: turn.stage,
            ready: Some(turn.ready),
        }
    }

    /// Hands out the prepared call, or the end. It takes no memory.
    pub fn next(&mut self) -> JobAction
        requires { self.old.ready ≡ true }
        ensures asked { Hands result (asked self.old.target self.old.need) }
        ensures may { MayBeMade result }
        ensures same { (self.new.target ≡ self.old.target) × (self.new.need ≡ self.old.need) }
        ensures ready { self.new.ready ≡ false }
        // What an ended forging stands for is a walk with its answer.
        ensures walk { (steps : List Step) (answer : Ending) → asked self.old.target self.old.need ≡ an_end answer → StandsFor self.old steps → Forging self.old.target steps answer }
        // What another one stands for, with the call and any reply to it, is a walk or the front of one.
        ensures front { (steps more : List Step) (reply : Reply) → Admits self.old.need reply → Adds (asked self.old.target self.old.need) reply more → StandsFor self.old steps → IsFront self.old.target (steps ++ more) }
    {
        self.hand_out()
    }

    fn hand_out(&mut self) -> JobAction
        requires { self.old.ready ≡ true }
        ensures asked { Hands result (asked self.old.target self.old.need) }
        ensures may { MayBeMade result }
        ensures same { (self.new.target ≡ self.old.target) × (self.new.need ≡ self.old.need) }
        ensures ready { self.new.ready ≡ false }
    {
        self.ready.take().unwrap()
    }

    /// Takes the reply to the call handed out. It takes no memory.
    pub fn take(&mut self, reply: ActorReply)
        requires handed { self.old.ready ≡ false }
        requires admitted { Admits self.old.need (seen_reply reply) }
        ensures target { self.new.target ≡ self.old.target }
        ensures ready { self.new.ready ≡ true }
        ensures next { self.new.need ≡ advanced self.old.need (seen_reply reply) }
        ensures stands { (steps more : List Step) → Adds (asked self.old.target self.old.need) (seen_reply reply) more → StandsFor self.old steps → StandsFor self.new (steps ++ more) }
        ensures nears { steps_left self.new.need + 1 ≤ steps_left self.old.need }
    {
        self.go_on(reply);
    }

    fn go_on(&mut self, reply: ActorReply)
        requires handed { self.old.ready ≡ false }
        requires admitted { Admits self.old.need (seen_reply reply) }
        ensures target { self.new.target ≡ self.old.target }
        ensures ready { self.new.ready ≡ true }
        ensures next { self.new.need ≡ advanced self.old.need (seen_reply reply) }
    {
        let stage = mem::replace(
            &mut self.stage,
            ForgeStage::Ends(Snapshot::of(&Answer::Memory)),
        );
        let turn = advance(self.nodes, &self.name, stage, reply);
        self.stage = turn.stage;
        self.ready = Some(turn.ready);
    }
}
