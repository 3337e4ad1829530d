//! The actors of a script.
ghost use Rattle.std.specs.Prelude.{◌≡◌, ◌≤◌, ◌+◌, length, map, option_map, IfOk, vec_len, vec_capacity};
ghost use Rattle.std.specs.Arc.{arc_value};
ghost use Rattle.std.specs.List.{AllByRecursion};
ghost use Rattle.lr_script.specs.Limits.{actors_most};
ghost use Rattle.lr_script.specs.Seen.{jobs_seen, actors_seen};
ghost use Rattle.lr_actors.specs.Jobs.{job_of, seen_context};
ghost use Rattle.lr_actors.specs.Begun.{IsContext};
ghost use Rattle.lr_actors.specs.Actor.{AreHosted, MayBeGiven, IsNew};
ghost use Rattle.lr_play.specs.Players.{crash_of, actors_from, after_by, actors_of, after_of, players_of};
ghost use Rattle.lr_play.specs.Acting.{AreGiven, AreNew};

use lr_actors::{Actor, Context, Trail};
use lr_script::{Job, Script, copy_jobs};
use lr_spec::OutOfMemory;
use lr_text::ImageName;
use std::alloc::Global;
use std::sync::Arc;

/// Who plays a script, with room for all their trails.
#[derive(Drop)]
pub(crate) struct Cast {
    pub(crate) actors: Vec<Actor>,
    /// The actor of the after part, where there is one.
    pub(crate) after: Vec<Actor>,
    pub(crate) trails: Vec<Trail>,
}

// After how many steps the actor of this number crashes.
fn crash_of(crashes: &[(u32, u64)], number: u32) -> Option<u64>
    ensures { result ≡ crash_of crashes.now number }
{
    crashes
        .iter()
        .find(|crash| crash.0 == number)
        .map(|crash| crash.1)
}

// An actor of the same jobs.
fn actor_of(
    alloc: Global,
    number: u32,
    jobs: &[Job],
    crash: Option<u64>,
    context: &Arc<Context>,
) -> Result<Actor, OutOfMemory>
    requires context { IsContext (seen_context (arc_value context.now)) }
    requires hosted { AreHosted (seen_context (arc_value context.now)) (arc_value context.now).hosts }
    requires jobs { AllByRecursion (MayBeGiven (seen_context (arc_value context.now)) (arc_value context.now).hosts) (map job_of (jobs_seen jobs.now)) }
    ensures { IfOk result (λ a. IsNew number (seen_context (arc_value context.now)) (arc_value context.now).hosts (map job_of (jobs_seen jobs.now)) crash a) }
{
    let jobs = copy_jobs(alloc, jobs)?;
    let context = Arc::try_clone(context)?;
    Actor::new(alloc, number, jobs, crash, context)
}

// The actors in their order, counted from 1.
fn actors_of(
    alloc: Global,
    actors: &[(ImageName, Vec<Job>)],
    crashes: &[(u32, u64)],
    context: &Arc<Context>,
) -> Result<Vec<Actor>, OutOfMemory>
    requires few { length actors.now ≤ actors_most }
    requires context { IsContext (seen_context (arc_value context.now)) }
    requires hosted { AreHosted (seen_context (arc_value context.now)) (arc_value context.now).hosts }
    requires given { AreGiven (seen_context (arc_value context.now)) (arc_value context.now).hosts (actors_from crashes.now 1 (actors_seen actors.now)) }
    ensures { IfOk result (λ v. AreNew (seen_context (arc_value context.now)) (arc_value context.now).hosts (actors_from crashes.now 1 (actors_seen actors.now)) v.items) }
{
    let mut made = Vec::new(alloc);
    for (place, actor) in actors.iter().enumerate() {
        let number = place as u32 + 1;
        let crash = crash_of(crashes, number);
        made.push(actor_of(alloc, number, &actor.1, crash, context)?)?;
    }
    Ok(made)
}

// The actor of the after part, which is the next one.
fn after_of(
    alloc: Global,
    number: u32,
    after: &Option<Vec<Job>>,
    context: &Arc<Context>,
) -> Result<Vec<Actor>, OutOfMemory>
    requires context { IsContext (seen_context (arc_value context.now)) }
    requires hosted { AreHosted (seen_context (arc_value context.now)) (arc_value context.now).hosts }
    requires given { AreGiven (seen_context (arc_value context.now)) (arc_value context.now).hosts (after_by number (option_map (λ v. jobs_seen v.items) after.now)) }
    ensures { IfOk result (λ v. AreNew (seen_context (arc_value context.now)) (arc_value context.now).hosts (after_by number (option_map (λ v. jobs_seen v.items) after.now)) v.items) }
{
    let mut made = Vec::new(alloc);
    if let Some(jobs) = after {
        made.push(actor_of(alloc, number, jobs, None, context)?)?;
    }
    Ok(made)
}

/// The actors of a script, that of its after part, and room for their trails.
pub(crate) fn cast_of(alloc: Global, script: &Script, context: Context) -> Result<Cast, OutOfMemory>
    requires few { length script.now.actors ≤ actors_most }
    requires context { IsContext (seen_context context) }
    requires hosted { AreHosted (seen_context context) context.hosts }
    requires given { AreGiven (seen_context context) context.hosts (players_of script.now) }
    ensures actors { IfOk result (λ c. AreNew (seen_context context) context.hosts (actors_of script.now) c.actors.items) }
    ensures after { IfOk result (λ c. AreNew (seen_context context) context.hosts (after_of script.now) c.after.items) }
    ensures room { IfOk result (λ c. (vec_len c.trails ≡ 0) × (vec_len c.actors + vec_len c.after ≤ vec_capacity c.trails)) }
{
    let Ok(context) = Arc::new(alloc, context) else {
        return Err(OutOfMemory);
    };
    let actors = actors_of(alloc, &script.actors, &script.crashes, &context)?;
    let number = script.actors.len() as u32 + 1;
    let after = after_of(alloc, number, &script.after, &context)?;
    let trails = Vec::with_capacity(alloc, actors.len() + after.len())?;
    Ok(Cast {
        actors,
        after,
        trails,
    })
}
