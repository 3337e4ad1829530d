//! Loads over a cache, five nodes and a depot whose answer is given.
ghost use Rattle.std.specs.Prelude.{◌≡◌, true, IfOk, IfNone, length};
ghost use Rattle.lr_nodes.specs.Machine.{May};
ghost use Rattle.lr_loader.specs.Seen.{MayBeMade};

use lr_cache::{Cache, CacheCall, CacheReply};
use lr_depot::DepotReply;
use lr_loader::{Load, LoadAction, LoadEnd, LoadPlace, LoadReply};
use lr_manifest::{CHUNK, Chunk, Name};
use lr_nodes::{Node, NodeCall, NodeReply};
use lr_object::{Object, ObjectId};
use lr_spec::OutOfMemory;
use lr_stripe::Stripe;
use std::alloc::{AllocError, Global};
use std::sync::Arc;
use std::test::Fail;

// What the load calls, how many steps it made and fetches, and at which step no memory is found.
#[derive(Drop)]
struct Around {
    cache: Cache,
    nodes: Vec<Node>,
    chunk: Arc<Chunk>,
    steps: u32,
    fetches: u32,
    short: u32,
    refusal: Option<DepotReply>,
}

// What is done to the nodes.
#[derive(Clone, Copy)]
enum Damage {
    Nothing,
    Drop(u8),
    DropTwo(u8, u8),
    FlipTwo(u8, u8),
    Forge,
    Lose(usize),
}

// So many bytes of this value.
fn filled(alloc: Global, size: usize, byte: u8) -> Result<Vec<u8>, AllocError>
    ensures { IfOk result (λ v. length v.items ≡ size) }
{
    vec![in alloc; byte; size]
}

fn chunk_of(alloc: Global, byte: u8) -> Result<Chunk, AllocError> {
    Ok(Chunk::of(filled(alloc, CHUNK, byte)?))
}

fn surroundings(alloc: Global) -> Result<Around, OutOfMemory> {
    let mut nodes = Vec::new(alloc);
    for _ in 0..5 {
        nodes.push(Node::new(alloc, 10)?)?;
    }
    Ok(Around {
        cache: Cache::new(alloc, 4)?,
        nodes,
        chunk: Arc::new(alloc, chunk_of(alloc, 0x41)?)?,
        steps: 0,
        fetches: 0,
        short: 100,
        refusal: None,
    })
}

impl Around {
    fn place(&self) -> LoadPlace
        ensures { result.nodes ≡ 5 }
    {
        LoadPlace {
            host: 0,
            lease: 1,
            index: 0,
            name: *self.chunk.name(),
            nodes: 5,
        }
    }

    fn is_short(&self) -> bool {
        self.steps == self.short
    }

    fn ask_cache(&mut self, alloc: Global, call: CacheCall) -> LoadReply {
        if self.is_short() {
            return LoadReply::Cache(CacheReply::OutOfMemory);
        }
        LoadReply::Cache(self.cache.apply(alloc, 1, call))
    }

    fn ask_depot(&mut self) -> LoadReply {
        self.fetches = self.fetches.saturating_add(1);
        if let Some(reply) = self.refusal.take() {
            return LoadReply::Depot(reply);
        }
        if self.is_short() {
            return LoadReply::Depot(DepotReply::OutOfMemory);
        }
        match Arc::try_clone(&self.chunk) {
            Ok(chunk) => LoadReply::Depot(DepotReply::Fetched(chunk)),
            Err(_) => LoadReply::Depot(DepotReply::OutOfMemory),
        }
    }
}

// A call on the node of this number.
fn ask_node(
    alloc: Global,
    nodes: &mut Vec<Node>,
    number: usize,
    call: NodeCall,
) -> Result<NodeReply, Fail>
    requires { May call }
{
    match nodes.get_mut(number) {
        Some(node) => Ok(node.apply(alloc, 1, call)),
        None => Err("no such node".into()),
    }
}

// A call on a node by the load.
fn ask_by_load(
    alloc: Global,
    around: &mut Around,
    number: u32,
    call: NodeCall,
) -> Result<LoadReply, Fail>
    requires { May call }
{
    if around.is_short() {
        return Ok(LoadReply::Node(NodeReply::OutOfMemory));
    }
    let reply = ask_node(alloc, &mut around.nodes, number as usize, call)?;
    Ok(LoadReply::Node(reply))
}

// The reply to a call of the load, or what it ends with.
fn answer(
    alloc: Global,
    around: &mut Around,
    action: LoadAction,
) -> Result<Result<LoadReply, LoadEnd>, Fail>
    requires { MayBeMade action }
{
    match action {
        LoadAction::End(end) => Ok(Err(end)),
        LoadAction::Cache(_, call) => Ok(Ok(around.ask_cache(alloc, call))),
        LoadAction::Depot(_) => Ok(Ok(around.ask_depot())),
        LoadAction::Node(number, call) => Ok(Ok(ask_by_load(alloc, around, number, call)?)),
    }
}

// One step: what the load ends with, where it ended.
fn step(alloc: Global, around: &mut Around, load: &mut Load) -> Result<Option<LoadEnd>, Fail>
    requires { load.old.ready ≡ true }
    ensures { IfOk result (λ end. IfNone end (load.new.ready ≡ true)) }
{
    let action = load.next();
    let reply = match answer(alloc, around, action)? {
        Ok(reply) => reply,
        Err(end) => return Ok(Some(end)),
    };
    around.steps = around.steps.saturating_add(1);
    if !load.admits(&reply) {
        return Err("the reply was not admitted".into());
    }
    load.take(reply);
    Ok(None)
}

// A load to its end.
fn ended(alloc: Global, around: &mut Around) -> Result<LoadEnd, Fail> {
    let mut load = Load::new(alloc, around.place());
    'steps: for _ in 0..20 {
        if let Some(end) = step(alloc, around, &mut load)? {
            return Ok(end);
        }
    }
    Err("the load didn't end".into())
}

fn is_chunk(end: &LoadEnd, byte: u8) -> bool {
    match end {
        LoadEnd::Chunk(chunk) => chunk.bytes().first() == Some(&byte),
        _ => false,
    }
}

// Puts the stripes of zeros, which are good, under the name of another chunk.
fn forge(alloc: Global, around: &mut Around) -> Result<(), Fail> {
    let zeros = chunk_of(alloc, 0)?;
    let place = around.place();
    for index in 0..5u8 {
        let stripe = Stripe {
            name: place.name,
            ..Stripe::make(alloc, &zeros, index)?
        };
        let call = NodeCall::Put {
            stripe: Arc::new(alloc, stripe)?,
        };
        let node = lr_nodes::place(&place.name, index, 5);
        let _ = ask_node(alloc, &mut around.nodes, node as usize, call)?;
    }
    Ok(())
}

fn drop_one(alloc: Global, around: &mut Around, index: u8) -> Result<(), Fail> {
    let name = *around.chunk.name();
    let node = lr_nodes::place(&name, index, 5);
    let call = NodeCall::Drop { name, index };
    let _ = ask_node(alloc, &mut around.nodes, node as usize, call)?;
    Ok(())
}

fn flip_one(alloc: Global, around: &mut Around, index: u8) -> Result<(), Fail> {
    let name = *around.chunk.name();
    let node = lr_nodes::place(&name, index, 5);
    let call = NodeCall::Flip { name, index, at: 0 };
    let _ = ask_node(alloc, &mut around.nodes, node as usize, call)?;
    Ok(())
}

fn do_damage(alloc: Global, around: &mut Around, damage: Damage) -> Result<(), Fail> {
    match damage {
        Damage::Nothing => Ok(()),
        Damage::Drop(index) => drop_one(alloc, around, index),
        Damage::DropTwo(first, second) => {
            drop_one(alloc, around, first)?;
            drop_one(alloc, around, second)
        }
        Damage::FlipTwo(first, second) => {
            flip_one(alloc, around, first)?;
            flip_one(alloc, around, second)
        }
        Damage::Forge => forge(alloc, around),
        Damage::Lose(node) => {
            let _ = ask_node(alloc, &mut around.nodes, node, NodeCall::Lose)?;
            Ok(())
        }
    }
}

// Damage, an eviction, and a load again: how often the depot was asked so far, and in how many steps the load ended.
fn after_an_eviction(
    alloc: Global,
    around: &mut Around,
    damage: Damage,
) -> Result<(u32, u32), Fail> {
    do_damage(alloc, around, damage)?;
    let _ = around.cache.apply(alloc, 1, CacheCall::Evict);
    around.steps = 0;
    let end = ended(alloc, around)?;
    if is_chunk(&end, 0x41) {
        Ok((around.fetches, around.steps))
    } else {
        Err("another end".into())
    }
}

// After each fetch all stripes are back on their nodes; a load that rebuilds the chunk puts none back.
#[test]
fn one_stripe_less_is_made_up_for(rt: HostRuntime) -> Result<(), Fail> {
    let alloc = rt.alloc();
    let mut around = surroundings(alloc)?;
    for (damage, fetches, steps) in [
        (Damage::Nothing, 1u32, 13u32),
        (Damage::Nothing, 1, 6),
        (Damage::Drop(0), 1, 7),
        (Damage::Drop(1), 2, 13),
        (Damage::Drop(1), 2, 7),
    ] {
        let made = after_an_eviction(alloc, &mut around, damage)?;
        assert_eq!(rt; made, (fetches, steps), "{fetches} {steps}");
    }
    Ok(())
}

#[test]
fn every_stripe_can_be_made_up_for(rt: HostRuntime) -> Result<(), Fail> {
    let alloc = rt.alloc();
    let mut around = surroundings(alloc)?;
    for (damage, fetches, steps) in [
        (Damage::Drop(2), 1u32, 13u32),
        (Damage::Drop(2), 1, 7),
        (Damage::Drop(4), 2, 13),
        (Damage::Drop(4), 2, 6),
        (Damage::Lose(0), 3, 13),
        (Damage::Lose(0), 3, 7),
    ] {
        let made = after_an_eviction(alloc, &mut around, damage)?;
        assert_eq!(rt; made, (fetches, steps), "{fetches} {steps}");
    }
    Ok(())
}

#[test]
fn damaged_and_forged_stripes_are_not_used(rt: HostRuntime) -> Result<(), Fail> {
    let alloc = rt.alloc();
    let mut around = surroundings(alloc)?;
    for (damage, fetches, steps) in [
        (Damage::Nothing, 1u32, 13u32),
        (Damage::DropTwo(0, 1), 2, 13),
        (Damage::FlipTwo(0, 1), 3, 13),
        (Damage::Forge, 4, 12),
    ] {
        let made = after_an_eviction(alloc, &mut around, damage)?;
        assert_eq!(rt; made, (fetches, steps), "{fetches} {steps}");
    }
    Ok(())
}

// Each call of a load answers that it finds no memory.
#[test]
fn want_of_memory_at_each_call(rt: HostRuntime) -> Result<(), Fail> {
    for (short, steps, is_there) in [
        (0u32, 1u32, false),
        (1, 13, true),
        (5, 13, true),
        (6, 8, false),
        (7, 13, true),
        (11, 13, true),
        (12, 14, true),
        (100, 13, true),
    ] {
        let mut around = surroundings(rt.alloc())?;
        around.short = short;
        let end = ended(rt.alloc(), &mut around)?;
        assert_eq!(rt; is_chunk(&end, 0x41), is_there, "short at {short}");
        assert_eq!(rt;
            matches!(end, LoadEnd::Memory),
            !is_there,
            "short at {short}"
        );
        assert_eq!(rt; around.steps, steps, "short at {short}");
    }
    Ok(())
}

// While another caller has the claim the load looks again; with the chunk in the cache it ends at once.
#[test]
fn a_busy_cache_is_asked_again(rt: HostRuntime) -> Result<(), Fail> {
    let alloc = rt.alloc();
    let mut around = surroundings(alloc)?;
    let name = *around.chunk.name();
    let _ = around.cache.apply(alloc, 2, CacheCall::Look { name });
    let mut load = Load::new(alloc, around.place());
    assert!(rt; step(alloc, &mut around, &mut load)?.is_none());
    let chunk = Arc::try_clone(&around.chunk)?;
    let _ = around.cache.apply(alloc, 2, CacheCall::Fill { chunk });
    let end = ended(alloc, &mut around)?;
    assert!(rt; is_chunk(&end, 0x41));
    assert_eq!(rt; around.fetches, 0);
    assert_eq!(rt; LoadAction::End(end).object(), None);
    Ok(())
}

// An answer of the depot that is no chunk ends the load, with its claim given up.
#[test]
fn the_depots_answer_ends_a_load(rt: HostRuntime) -> Result<(), Fail> {
    let alloc = rt.alloc();
    let mut around = surroundings(alloc)?;
    around.refusal = Some(DepotReply::NoLease);
    let end = ended(alloc, &mut around)?;
    assert!(rt; matches!(end, LoadEnd::Other(DepotReply::NoLease)));
    assert_eq!(rt; around.steps, 8);
    // The claim is gone: the next load leads, and asks the nodes.
    let mut load = Load::new(alloc, around.place());
    assert!(rt; step(alloc, &mut around, &mut load)?.is_none());
    assert_eq!(rt; load.next().object(), Some(ObjectId::Node(2)));
    Ok(())
}
