//! Plays a script's actors in which one call finds no memory.
ghost use Rattle.std.specs.Prelude.{◌≡◌, ℕ, [], map, IfSome};
ghost use Rattle.lr_walk.specs.Jobs.{Context as Shared};
ghost use Rattle.lr_depot.specs.Depot.{Seen, IsStart};
ghost use Rattle.lr_script.specs.Within.{IsWithin};
ghost use Rattle.lr_world.specs.World.{seen_of, seen, part_of, cast_of, IsNumber, MayBegin, IsWorld};
ghost use Rattle.lr_world.specs.Turns.{IsSomeWorld};
ghost use Rattle.lr_prepare.specs.Prepared.{IsPrepared};

use crate::drive::expect_nothing_out;
use lr_actors::{Actor, Parts, Trail};
use lr_depot::Depot;
use lr_origin::MemOrigin;
use lr_play::new_actors;
use lr_prepare::{Prepared, prepare, scripts_fit};
use lr_script::{Schedule, Script, scripts_are_within};
use lr_world::World;
use std::alloc::Global;
use std::test::Fail;

// The number of the first actor.
fn first_number(actors: &[Actor]) -> Option<u32>
    ensures { IfSome result (λ n. IsNumber (map part_of actors.now) n) }
{
    match actors.first() {
        Some(actor) => Some(actor.number()),
        None => None,
    }
}

// The actor makes so many steps. At the next one the called object finds no memory.
fn advance(world: &mut World<MemOrigin>, alloc: Global, actor: Option<u32>, steps: u32)
    requires world { IsSomeWorld world.old }
    requires known { IfSome actor (λ n. IsNumber (cast_of (seen world.old)) n) }
    ensures { (context : Shared) (hosts : ℕ) → IsWorld context hosts (seen world.old) → IsWorld context hosts (seen world.new) }
{
    let Some(actor) = actor else {
        return;
    };
    for _ in 0..steps {
        let _ = world.step(alloc, actor);
    }
    let _ = world.step_short(alloc, actor);
}

// The trail of the first of these.
fn first_trail(actors: Vec<Actor>) -> Result<Trail, Fail> {
    let mut actors = actors;
    if actors.is_empty() {
        return Err("no actor".into());
    }
    Ok(actors.remove(0).into_trail())
}

// New actors play over the parts, the first with a call after so many steps that finds no memory. Its trail; nothing is out.
fn act(
    alloc: Global,
    parts: Parts<MemOrigin>,
    actors: Vec<Actor>,
    steps: u32,
) -> Result<Trail, Fail>
    requires { (context : Shared) × (hosts : ℕ) × MayBegin context hosts (seen_of parts actors) }
{
    let actor = first_number(&actors);
    let mut world = World::new(parts, actors);
    advance(&mut world, alloc, actor, steps);
    world.run(alloc, &Schedule::Rounds);
    let (mut parts, actors) = world.end();
    expect_nothing_out(alloc, &mut parts, 2)?;
    first_trail(actors)
}

// The actors of a script whose setup lines were done.
fn cast(
    alloc: Global,
    script: &Script,
    prepared: Prepared<MemOrigin>,
    steps: u32,
) -> Result<Trail, Fail>
    requires within { IsWithin script.now }
    requires started { IsStart prepared.parts.depot.start }
    requires prepared { (depot : Seen MemOrigin) × IsPrepared script.now depot prepared.parts prepared.context }
{
    let Prepared { parts, context } = prepared;
    match new_actors(alloc, script, &parts, context) {
        Ok(actors) => act(alloc, parts, actors, steps),
        Err(_) => Err("no memory for the actors".into()),
    }
}

// Does the setup lines of a script and plays its actors.
fn begin(alloc: Global, script: &Script, depot: Depot<MemOrigin>, steps: u32) -> Result<Trail, Fail>
    requires within { IsWithin script.now }
    requires started { IsStart depot.start }
    requires fresh { depot.log ≡ [] }
{
    scripts_fit();
    match prepare(alloc, script, depot) {
        Ok(prepared) => cast(alloc, script, prepared, steps),
        Err(_) => Err("the setup stopped".into()),
    }
}

/// Plays a script's actors over a store, in rounds. The first finds no memory at its call after so many steps. Its trail, where nothing is out
/// after it.
pub(crate) fn trail_of(
    alloc: Global,
    origin: MemOrigin,
    text: &[u8],
    steps: u32,
) -> Result<Trail, Fail> {
    scripts_are_within();
    let Ok(script) = Script::parse(alloc, text) else {
        return Err("no script".into());
    };
    match Depot::start(alloc, origin) {
        Ok(depot) => begin(alloc, &script, depot, steps),
        Err(_) => Err("no depot".into()),
    }
}
