//! What a load keeps between a call and its reply, and each turn from one stage to the next.
ghost use Rattle.std.specs.Prelude.{◌≡◌, ◌⊎◌, ◌<◌, ◌≤◌, ◌+◌, ◌-◌, ◌∷◌, List, ℕ, [], length, map, vec_len, vec_capacity, ⊤};
ghost use Rattle.std.specs.Arc.{arc_value};
ghost use Rattle.lr_walk.specs.Load.{node_of, held_after};
ghost use Rattle.lr_walk.specs.Steps.{Reply, by_node};
ghost use Rattle.lr_walk.specs.Node.{found, seen_reply as nodes_reply};
ghost use Rattle.lr_walk.specs.Stripes.{is_good as passes};
ghost use Rattle.lr_stripe.specs.declared.stripe.Stripe.{Stripe as Kept};
ghost use Rattle.lr_loader.specs.Held.{AreHeld};
ghost use Rattle.lr_loader.specs.Progress.{looking, asking, fetching, putting, filling, giving, ended, Admits, Rebuilt, AfterGet, PutsFirst, IsShort, Next};
ghost use Rattle.lr_loader.specs.Seen.{seen_end, seen_reply, fetched_chunk, need_of, IsAsking, IsKept, IsTurn, IsOfNode};

use crate::action::{LoadAction, LoadEnd, LoadReply};
use crate::stripes::{make_stripes, rebuild, take_first};
use lr_cache::{CacheCall, CacheReply};
use lr_depot::{DepotCall, DepotReply};
use lr_manifest::{Chunk, Name};
use lr_nodes::{NodeCall, NodeReply};
use lr_stripe::Stripe;
use lr_walk::LoadPlace;
use std::alloc::Global;
use std::snapshot::Snapshot;
use std::sync::Arc;

#[derive(Drop)]
pub(crate) enum Stage {
    Looks,
    Asks {
        left: u8,
        held: Vec<Arc<Stripe>>,
    },
    Fetches,
    Puts {
        stripe: Snapshot<Stripe>,
        more: Vec<Arc<Stripe>>,
        chunk: Arc<Chunk>,
        spare: Arc<Chunk>,
    },
    Fills {
        chunk: Arc<Chunk>,
    },
    Gives {
        end: LoadEnd,
    },
    Ends {
        end: Snapshot<LoadEnd>,
    },
}

/// A stage with what is handed out next.
#[derive(Drop)]
pub(crate) struct Turn {
    pub(crate) stage: Stage,
    pub(crate) ready: LoadAction,
}

/// Asks the cache.
pub(crate) fn to_look(place: &LoadPlace) -> Turn
    ensures turn { IsTurn place.now result }
    ensures need { need_of result.stage ≡ looking }
{
    Turn {
        stage: Stage::Looks,
        ready: LoadAction::Cache(place.host, CacheCall::Look { name: place.name }),
    }
}

// The node that has a stripe.
fn node_at(place: &LoadPlace, index: u8) -> u32
    requires { 5 ≤ place.now.nodes }
    ensures { result ≡ node_of place.now index }
{
    lr_nodes::place(&place.name, index, place.nodes)
}

// Asks for the next stripe.
fn to_ask(place: &LoadPlace, left: u8, held: Vec<Arc<Stripe>>) -> Turn
    requires nodes { 5 ≤ place.now.nodes }
    requires asking { IsAsking place.now.name left (map arc_value held.items) (vec_capacity held) }
    ensures turn { IsTurn place.now result }
    ensures need { need_of result.stage ≡ asking left (map arc_value held.items) }
{
    let index = 4 - left;
    let node = node_at(place, index);
    Turn {
        stage: Stage::Asks { left, held },
        ready: LoadAction::Node(
            node,
            NodeCall::Get {
                name: place.name,
                index,
            },
        ),
    }
}

fn to_fetch(place: &LoadPlace) -> Turn
    ensures turn { IsTurn place.now result }
    ensures need { need_of result.stage ≡ fetching }
{
    Turn {
        stage: Stage::Fetches,
        ready: LoadAction::Depot(DepotCall::Fetch {
            lease: place.lease,
            index: place.index,
        }),
    }
}

fn to_put(
    place: &LoadPlace,
    stripe: Arc<Stripe>,
    more: Vec<Arc<Stripe>>,
    chunk: Arc<Chunk>,
    spare: Arc<Chunk>,
) -> Turn
    requires nodes { 5 ≤ place.now.nodes }
    requires same { arc_value spare ≡ arc_value chunk }
    ensures turn { IsTurn place.now result }
    ensures need { need_of result.stage ≡ putting (arc_value chunk) (arc_value stripe) (map arc_value more.items) }
{
    let node = node_at(place, stripe.index);
    Turn {
        stage: Stage::Puts {
            stripe: Snapshot::of(&*stripe),
            more,
            chunk,
            spare,
        },
        ready: LoadAction::Node(node, NodeCall::Put { stripe }),
    }
}

fn to_fill(place: &LoadPlace, chunk: Arc<Chunk>, spare: Arc<Chunk>) -> Turn
    requires { arc_value spare ≡ arc_value chunk }
    ensures turn { IsTurn place.now result }
    ensures need { need_of result.stage ≡ filling (arc_value chunk) }
{
    Turn {
        stage: Stage::Fills { chunk },
        ready: LoadAction::Cache(place.host, CacheCall::Fill { chunk: spare }),
    }
}

fn to_give_up(place: &LoadPlace, end: LoadEnd) -> Turn
    ensures turn { IsTurn place.now result }
    ensures need { need_of result.stage ≡ giving (seen_end end) }
{
    Turn {
        stage: Stage::Gives { end },
        ready: LoadAction::Cache(place.host, CacheCall::GiveUp),
    }
}

fn to_end(place: &LoadPlace, end: LoadEnd) -> Turn
    ensures turn { IsTurn place.now result }
    ensures need { need_of result.stage ≡ ended (seen_end end) }
{
    let kept = Snapshot::of(&end);
    Turn {
        stage: Stage::Ends { end: kept },
        ready: LoadAction::End(end),
    }
}

// The load itself finds no memory.
fn to_give_up_short(place: &LoadPlace) -> Turn
    ensures turn { IsTurn place.now result }
    ensures short { IsShort (need_of result.stage) }
{
    to_give_up(place, LoadEnd::Memory)
}

// The claim is the load's: the first stripe is asked.
fn to_ask_first(alloc: Global, place: &LoadPlace) -> Turn
    requires { 5 ≤ place.now.nodes }
    ensures turn { IsTurn place.now result }
    ensures need { (need_of result.stage ≡ asking 4 []) ⊎ IsShort (need_of result.stage) }
{
    let mut held = Vec::new(alloc);
    if held.reserve(4).is_err() {
        return to_give_up_short(place);
    }
    to_ask(place, 4, held)
}

// The reply to the Look.
fn looked(alloc: Global, place: &LoadPlace, reply: LoadReply) -> Turn
    requires { 5 ≤ place.now.nodes }
    ensures turn { IsTurn place.now result }
    ensures next { Next place.now looking (seen_reply reply) (fetched_chunk reply) (need_of result.stage) }
{
    match reply {
        LoadReply::Cache(CacheReply::Hit(chunk)) => to_end(place, LoadEnd::Chunk(chunk)),
        LoadReply::Cache(CacheReply::Lead) => to_ask_first(alloc, place),
        LoadReply::Cache(CacheReply::Busy { .. }) => to_look(place),
        _ => to_end(place, LoadEnd::Memory),
    }
}

// Whether a stripe is good.
fn is_good(stripe: &Stripe, name: &Name, index: u8) -> bool
    ensures { result ≡ passes name.now index stripe.now }
{
    stripe.good(name, index)
}

// The good stripes in hand after a stripe was found.
fn hold_one(
    place: &LoadPlace,
    index: u8,
    mut held: Vec<Arc<Stripe>>,
    stripe: Arc<Stripe>,
) -> Vec<Arc<Stripe>>
    requires few { vec_len held < 4 }
    requires room { 4 ≤ vec_capacity held }
    requires good { AreHeld place.now.name index (map arc_value held.items) }
    ensures held { map arc_value result.items ≡ held_after place.now index (by_node (found (arc_value stripe))) (map arc_value held.items) }
    ensures within { vec_len result ≤ 4 }
    ensures room { 4 ≤ vec_capacity result }
    ensures good { AreHeld place.now.name (index + 1) (map arc_value result.items) }
{
    if !is_good(&stripe, &place.name, index) {
        return held;
    }
    held.push_reserved(stripe);
    held
}

// The good stripes in hand after a node's reply.
fn hold(place: &LoadPlace, index: u8, held: Vec<Arc<Stripe>>, reply: NodeReply) -> Vec<Arc<Stripe>>
    requires few { vec_len held < 4 }
    requires room { 4 ≤ vec_capacity held }
    requires good { AreHeld place.now.name index (map arc_value held.items) }
    ensures held { map arc_value result.items ≡ held_after place.now index (by_node (nodes_reply reply)) (map arc_value held.items) }
    ensures within { vec_len result ≤ 4 }
    ensures room { 4 ≤ vec_capacity result }
    ensures good { AreHeld place.now.name (index + 1) (map arc_value result.items) }
{
    match reply {
        NodeReply::Found(stripe) => hold_one(place, index, held, stripe),
        _ => held,
    }
}

// All were asked, or four good ones are in hand.
fn to_rebuild(alloc: Global, place: &LoadPlace, held: Vec<Arc<Stripe>>) -> Turn
    requires { AreHeld place.now.name 5 (map arc_value held.items) }
    ensures turn { IsTurn place.now result }
    ensures next { Rebuilt place.now (map arc_value held.items) (need_of result.stage) }
{
    let Ok(found) = rebuild(alloc, &place.name, held.as_slice()) else {
        return to_give_up_short(place);
    };
    let Some(chunk) = found else {
        return to_fetch(place);
    };
    let Ok(chunk) = Arc::new(alloc, chunk) else {
        return to_give_up_short(place);
    };
    let Ok(spare) = Arc::try_clone(&chunk) else {
        return to_give_up_short(place);
    };
    to_fill(place, chunk, spare)
}

// The reply to a Get.
fn got(alloc: Global, place: &LoadPlace, left: u8, held: Vec<Arc<Stripe>>, reply: LoadReply) -> Turn
    requires nodes { 5 ≤ place.now.nodes }
    requires asking { IsAsking place.now.name left (map arc_value held.items) (vec_capacity held) }
    requires node { IsOfNode (seen_reply reply) }
    ensures turn { IsTurn place.now result }
    ensures next { AfterGet place.now left (held_after place.now (4 - left) (seen_reply reply) (map arc_value held.items)) (need_of result.stage) }
{
    let held = hold(place, 4 - left, held, of_node(reply));
    if left == 0 || held.len() >= 4 {
        return to_rebuild(alloc, place, held);
    }
    to_ask(place, left - 1, held)
}

// The stripes of a fetched chunk are put back.
fn to_put_back(alloc: Global, place: &LoadPlace, chunk: Arc<Chunk>) -> Turn
    requires { 5 ≤ place.now.nodes }
    ensures turn { IsTurn place.now result }
    ensures next { PutsFirst (arc_value chunk) (need_of result.stage) ⊎ IsShort (need_of result.stage) }
{
    let Ok(spare) = Arc::try_clone(&chunk) else {
        return to_give_up_short(place);
    };
    let Ok(mut stripes) = make_stripes(alloc, &chunk) else {
        return to_give_up_short(place);
    };
    match take_first(&mut stripes) {
        Some(stripe) => to_put(place, stripe, stripes, chunk, spare),
        None => unreachable!(),
    }
}

// The reply to the Fetch.
fn fetched(alloc: Global, place: &LoadPlace, reply: LoadReply) -> Turn
    requires { 5 ≤ place.now.nodes }
    ensures turn { IsTurn place.now result }
    ensures next { Next place.now fetching (seen_reply reply) (fetched_chunk reply) (need_of result.stage) }
{
    match reply {
        LoadReply::Depot(DepotReply::Fetched(chunk)) => to_put_back(alloc, place, chunk),
        LoadReply::Depot(DepotReply::OutOfMemory) => to_give_up(place, LoadEnd::Memory),
        LoadReply::Depot(reply) => to_give_up(place, LoadEnd::Other(reply)),
        _ => to_give_up(place, LoadEnd::Memory),
    }
}

// After a Put.
fn put(place: &LoadPlace, mut more: Vec<Arc<Stripe>>, chunk: Arc<Chunk>, spare: Arc<Chunk>) -> Turn
    requires nodes { 5 ≤ place.now.nodes }
    requires same { arc_value spare ≡ arc_value chunk }
    ensures turn { IsTurn place.now result }
    ensures next { (stripe : Kept) (reply : Reply) (got : List ℕ) → Next place.now (putting (arc_value chunk) stripe (map arc_value more.items)) reply got (need_of result.stage) }
{
    match take_first(&mut more) {
        Some(stripe) => to_put(place, stripe, more, chunk, spare),
        None => to_fill(place, chunk, spare),
    }
}

// The reply to the Fill.
fn filled(place: &LoadPlace, chunk: Arc<Chunk>, reply: LoadReply) -> Turn
    ensures turn { IsTurn place.now result }
    ensures next { Next place.now (filling (arc_value chunk)) (seen_reply reply) (fetched_chunk reply) (need_of result.stage) }
{
    match reply {
        LoadReply::Cache(CacheReply::Filled) => to_end(place, LoadEnd::Chunk(chunk)),
        _ => to_give_up(place, LoadEnd::Chunk(chunk)),
    }
}

// The reply of a node.
fn of_node(reply: LoadReply) -> NodeReply
    requires { IsOfNode (seen_reply reply) }
    ensures { by_node (nodes_reply result) ≡ seen_reply reply }
{
    match reply {
        LoadReply::Node(reply) => reply,
        _ => unreachable!(),
    }
}

/// What a stage needs after a reply.
pub(crate) fn advance(alloc: Global, place: &LoadPlace, stage: Stage, reply: LoadReply) -> Turn
    requires nodes { 5 ≤ place.now.nodes }
    requires kept { IsKept place.now.name stage }
    requires admitted { Admits place.now (need_of stage) (seen_reply reply) }
    ensures turn { IsTurn place.now result }
    ensures next { Next place.now (need_of stage) (seen_reply reply) (fetched_chunk reply) (need_of result.stage) }
{
    match stage {
        Stage::Looks => looked(alloc, place, reply),
        Stage::Asks { left, held } => got(alloc, place, left, held, reply),
        Stage::Fetches => fetched(alloc, place, reply),
        Stage::Puts {
            more,
            chunk,
            spare,
            ..
        } => put(place, more, chunk, spare),
        Stage::Fills { chunk } => filled(place, chunk, reply),
        Stage::Gives { end } => to_end(place, end),
        Stage::Ends { .. } => unreachable!(),
    }
}
