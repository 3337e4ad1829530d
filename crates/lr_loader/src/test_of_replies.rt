//! The test of the replies that a load takes.
ghost use Rattle.std.specs.Prelude.{◌≡◌, ◌≤◌, ◌-◌, ◌↔◌, List, ℕ, IsTrue, map};
ghost use Rattle.std.specs.Arc.{arc_value};
ghost use Rattle.lr_stripe.specs.declared.stripe.Stripe.{Stripe as Kept};
ghost use Rattle.lr_walk.specs.Load.{Ending};
ghost use Rattle.lr_nodes.specs.Stripes.{is_at};
ghost use Rattle.lr_loader.specs.Progress.{looking, asking, fetching, putting, filling, giving, Admits};
ghost use Rattle.lr_loader.specs.Seen.{need_of, seen_reply, IsKept};

use crate::action::LoadReply;
use crate::stage::Stage;
use lr_cache::CacheReply;
use lr_depot::DepotReply;
use lr_manifest::Name;
use lr_nodes::NodeReply;
use lr_stripe::Stripe;
use lr_walk::LoadPlace;

// The reply to the Look.
fn fits_look(place: &LoadPlace, reply: &LoadReply) -> bool
    ensures { IsTrue result ↔ Admits place.now looking (seen_reply reply.now) }
{
    match reply {
        LoadReply::Cache(CacheReply::Hit(chunk)) => chunk.has_name(&place.name),
        LoadReply::Cache(CacheReply::Lead) => true,
        LoadReply::Cache(CacheReply::Busy { .. }) => true,
        LoadReply::Cache(CacheReply::OutOfMemory) => true,
        _ => false,
    }
}

fn is_of(stripe: &Stripe, name: &Name, index: u8) -> bool
    ensures { result ≡ is_at name.now index stripe.now }
{
    stripe.name.bytes == name.bytes && stripe.index == index
}

// The reply to a Get.
fn fits_get(place: &LoadPlace, left: u8, reply: &LoadReply) -> bool
    requires { left ≤ 4 }
    ensures { (held : List Kept) → IsTrue result ↔ Admits place.now (asking left held) (seen_reply reply.now) }
{
    match reply {
        LoadReply::Node(NodeReply::Found(stripe)) => is_of(stripe, &place.name, 4 - left),
        LoadReply::Node(NodeReply::Absent) => true,
        LoadReply::Node(NodeReply::OutOfMemory) => true,
        _ => false,
    }
}

// The reply to the Fetch.
fn fits_fetch(place: &LoadPlace, reply: &LoadReply) -> bool
    ensures { IsTrue result ↔ Admits place.now fetching (seen_reply reply.now) }
{
    match reply {
        LoadReply::Depot(DepotReply::Fetched(chunk)) => chunk.has_name(&place.name),
        LoadReply::Depot(DepotReply::NoLease) => true,
        LoadReply::Depot(DepotReply::NoChunk) => true,
        LoadReply::Depot(DepotReply::Fault(_)) => true,
        LoadReply::Depot(DepotReply::Spoiled(_)) => true,
        LoadReply::Depot(DepotReply::OutOfMemory) => true,
        _ => false,
    }
}

// The reply to a Put.
fn fits_put(place: &LoadPlace, reply: &LoadReply) -> bool
    ensures { (chunk : List ℕ) (stripe : Kept) (more : List Kept) → IsTrue result ↔ Admits place.now (putting chunk stripe more) (seen_reply reply.now) }
{
    match reply {
        LoadReply::Node(NodeReply::Kept) => true,
        LoadReply::Node(NodeReply::OutOfMemory) => true,
        _ => false,
    }
}

// The reply to the Fill.
fn fits_fill(place: &LoadPlace, reply: &LoadReply) -> bool
    ensures { (chunk : List ℕ) → IsTrue result ↔ Admits place.now (filling chunk) (seen_reply reply.now) }
{
    match reply {
        LoadReply::Cache(CacheReply::Filled) => true,
        LoadReply::Cache(CacheReply::OutOfMemory) => true,
        _ => false,
    }
}

// The reply to the GiveUp.
fn fits_give_up(place: &LoadPlace, reply: &LoadReply) -> bool
    ensures { (end : Ending) → IsTrue result ↔ Admits place.now (giving end) (seen_reply reply.now) }
{
    match reply {
        LoadReply::Cache(CacheReply::Given) => true,
        _ => false,
    }
}

/// Whether the reply is one that may be taken at this stage.
pub(crate) fn fits(place: &LoadPlace, stage: &Stage, reply: &LoadReply) -> bool
    requires { IsKept place.now.name stage.now }
    ensures { IsTrue result ↔ Admits place.now (need_of stage.now) (seen_reply reply.now) }
{
    match stage {
        Stage::Looks => fits_look(place, reply),
        Stage::Asks { left, .. } => fits_get(place, *left, reply),
        Stage::Fetches => fits_fetch(place, reply),
        Stage::Puts { .. } => fits_put(place, reply),
        Stage::Fills { .. } => fits_fill(place, reply),
        Stage::Gives { .. } => fits_give_up(place, reply),
        Stage::Ends { .. } => false,
    }
}
