//! A script's play.
ghost use Rattle.std.specs.Prelude.{◌≡◌, ◌≤◌, ◌+◌, ◌++◌, ℕ, List, IfOk, IfErr, vec_len, vec_capacity};
ghost use Rattle.std.specs.List.{AllZip};
ghost use Rattle.lr_walk.specs.Jobs.{Context as Shared};
ghost use Rattle.lr_depot.specs.Depot.{Seen, IsStart};
ghost use Rattle.lr_script.specs.Seen.{schedule_seen};
ghost use Rattle.lr_script.specs.Within.{IsWithin};
ghost use Rattle.lr_actors.specs.declared.trail.Trail.{Trail as Told};
ghost use Rattle.lr_actors.specs.Trailed.{IsTrailOf};
ghost use Rattle.lr_world.specs.World.{seen_of, MayBegin};
ghost use Rattle.lr_world.specs.Runs.{MaySchedule};
ghost use Rattle.lr_prepare.specs.Prepared.{IsPrepared};
ghost use Rattle.lr_play.specs.Acting.{Adds};
ghost use Rattle.lr_play.specs.Played.{IsPlayed};

use crate::cast::{Cast, cast_of};
use crate::laws::jobs_may_be_given;
use lr_actors::{Actor, Context, Parts, Trail};
use lr_origin::Origin;
use lr_prepare::leases_are_out;
use lr_script::{Schedule, Script};
use lr_spec::OutOfMemory;
use lr_world::World;
use std::alloc::Global;

/// The parts after the play, and the trails: of the actors in the script's order, and then of the after part where there is one.
#[derive(Drop)]
pub struct Performed<O: Origin> {
    pub parts: Parts<O>,
    pub trails: Vec<Trail>,
}

/// No memory was found before the first step: the parts come back as they were.
#[derive(Drop)]
pub struct Unperformed<O: Origin> {
    pub parts: Parts<O>,
}

// Puts the trails of these actors behind those that are there.
pub(crate) fn trails_of(trails: &mut Vec<Trail>, actors: Vec<Actor>)
    requires { vec_len trails.old + vec_len actors ≤ vec_capacity trails.old }
    ensures trails { (more : List Told) × (trails.new.items ≡ trails.old.items ++ more) × AllZip IsTrailOf actors.items more }
    ensures len { vec_len trails.new ≡ vec_len trails.old + vec_len actors }
    ensures capacity { vec_capacity trails.new ≡ vec_capacity trails.old }
{
    let mut actors = actors;
    while !actors.is_empty() {
        let actor = actors.remove(0);
        trails.push_reserved(actor.into_trail());
    }
}

// New actors play over the parts, and their trails go behind those that are there.
pub(crate) fn act<O: Origin>(
    alloc: Global,
    schedule: &Schedule,
    parts: Parts<O>,
    actors: Vec<Actor>,
    trails: &mut Vec<Trail>,
) -> Parts<O>
    requires begin { (context : Shared) × (hosts : ℕ) × MayBegin context hosts (seen_of parts actors) }
    requires schedule { MaySchedule (schedule_seen schedule.now) (seen_of parts actors) }
    requires room { vec_len trails.old + vec_len actors ≤ vec_capacity trails.old }
    ensures never_falls { O.faults parts.depot.origin ≤ O.faults result.depot.origin }
    ensures acted { Adds (schedule_seen schedule.now) (seen_of parts actors) result trails.old.items trails.new.items }
    ensures len { vec_len trails.new ≡ vec_len trails.old + vec_len actors }
    ensures capacity { vec_capacity trails.new ≡ vec_capacity trails.old }
{
    let mut world = World::new(parts, actors);
    world.run(alloc, schedule);
    let (parts, actors) = world.end();
    trails_of(trails, actors);
    parts
}

/// A script's actors, without that of the after part, as they may begin over the parts that its setup lines gave: for one who steps them
/// one by one, where `perform` plays them in the script's order.
pub fn new_actors<O: Origin>(
    alloc: Global,
    script: &Script,
    parts: &Parts<O>,
    context: Context,
) -> Result<Vec<Actor>, OutOfMemory>
    requires within { IsWithin script.now }
    requires started { IsStart parts.now.depot.start }
    requires prepared { (depot : Seen O) × IsPrepared script.now depot parts.now context }
    ensures { IfOk result (λ actors. (shared : Shared) × (hosts : ℕ) × MayBegin shared hosts (seen_of parts.now actors)) }
{
    jobs_may_be_given();
    leases_are_out();
    let Ok(cast) = cast_of(alloc, script, context) else {
        return Err(OutOfMemory);
    };
    let Cast {
        actors,
        after: _,
        trails: _,
    } = cast;
    Ok(actors)
}

/// Plays a script over the parts that its setup lines gave: its actors in the order of its schedule, and then the after part alone.
///
/// All memory but that of the steps is taken before the first step.
pub fn perform<O: Origin>(
    alloc: Global,
    script: &Script,
    parts: Parts<O>,
    context: Context,
) -> Result<Performed<O>, Unperformed<O>>
    requires within { IsWithin script.now }
    requires started { IsStart parts.depot.start }
    requires prepared { (depot : Seen O) × IsPrepared script.now depot parts context }
    ensures played { IfOk result (λ p. (depot : Seen O) (prepared : IsPrepared script.now depot parts context) → IsPlayed script.now prepared.lines context parts p.parts p.trails.items) }
    ensures never_falls { IfOk result (λ p. O.faults parts.depot.origin ≤ O.faults p.parts.depot.origin) }
    ensures left { IfErr result (λ u. u.parts ≡ parts) }
{
    jobs_may_be_given();
    leases_are_out();
    let Ok(cast) = cast_of(alloc, script, context) else {
        return Err(Unperformed { parts });
    };
    let Cast {
        actors,
        after,
        mut trails,
    } = cast;
    let parts = act(alloc, &script.schedule, parts, actors, &mut trails);
    let parts = act(alloc, &Schedule::Serial, parts, after, &mut trails);
    Ok(Performed { parts, trails })
}
