//! An actor that crashes after each of its steps.
use crate::drive::{CREATE, Ended, ROTATE, expect_nothing_out, played, results, script_of};
use lr_actors::{ActorState, Trail};
use lr_origin::MemOrigin;
use lr_play::Performed;
use std::alloc::Global;
use std::test::Fail;

// The lines of an actor, and after how many steps each of its jobs ends.
type Row = (&'static [&'static str], &'static [u64]);

// A write within a page, for which the chunk is loaded in 13 steps, and a read of that page, for which none is.
const PARTIAL_WRITE: Row = (&["write d 512 512x7a", "read d 0 4096"], &[15, 17]);

const CREATION: Row = (&[CREATE], &[3]);

const MIGRATION: Row = (&[ROTATE, "migrate a"], &[1, 5]);

// What an actor came to: its state and steps, how many of its jobs ended, and how many were cut.
type Came = (ActorState, u64, usize, usize);

// So many of the results are this one.
fn count(ends: &[Ended], word: &str) -> usize {
    ends.iter().filter(|end| end.0 == word).count()
}

// The trails of a play of these lines, in which the first actor crashes after so many steps. Nothing is out after it.
fn trails_of(
    alloc: Global,
    lines: &[&'static str],
    step: u64,
    schedule: &'static str,
) -> Result<Vec<Trail>, Fail> {
    let mut text = script_of(alloc, lines)?;
    let end = format!(in alloc; "crash p {step}\n{schedule}\n")?;
    text.extend_from_slice(end.as_bytes())?;
    let Performed { mut parts, trails } = played(alloc, MemOrigin::new(alloc), &text)?;
    expect_nothing_out(alloc, &mut parts, 2)?;
    Ok(trails)
}

// What the actor of these lines comes to.
fn crashed(alloc: Global, lines: &[&'static str], step: u64) -> Result<Came, Fail> {
    let trails = trails_of(alloc, lines, step, "schedule serial")?;
    let ends = results(alloc, &trails)?;
    let cut = count(&ends, "cut");
    let begun = ends.len().saturating_sub(count(&ends, "unbegun"));
    match trails.first() {
        Some(trail) => Ok((trail.state, trail.steps, begun.saturating_sub(cut), cut)),
        None => Err("no trail".into()),
    }
}

// What the actor of a row must come to: it ends where its jobs do by then, and else at most one of them is cut.
fn expected(ends: &[u64], step: u64) -> Came {
    let done = ends.iter().filter(|end| **end <= step).count();
    if done == ends.len() {
        let last = ends.last().copied().unwrap_or(0);
        return (ActorState::Ended, last, done, 0);
    }
    let is_at_end = step == 0 || ends.contains(&step);
    (ActorState::Crashed, step, done, usize::from(!is_at_end))
}

// After a crash at each step from one to another the devices, the caches and the depot have nothing out of the actor. The first step
// after which it came to something else.
fn first_other(alloc: Global, row: Row, from: u64, to: u64) -> Result<Option<u64>, Fail> {
    let (lines, ends) = row;
    for step in from..=to {
        if crashed(alloc, lines, step)? != expected(ends, step) {
            return Ok(Some(step));
        }
    }
    Ok(None)
}

#[test]
fn after_each_step_of_a_partial_write(rt: HostRuntime) -> Result<(), Fail> {
    assert_eq!(rt; first_other(rt.alloc(), PARTIAL_WRITE, 0, 20)?, None);
    Ok(())
}

#[test]
fn after_the_end_of_a_partial_write(rt: HostRuntime) -> Result<(), Fail> {
    assert_eq!(rt; first_other(rt.alloc(), PARTIAL_WRITE, 21, 40)?, None);
    Ok(())
}

#[test]
fn long_after_the_end_of_a_partial_write(rt: HostRuntime) -> Result<(), Fail> {
    assert_eq!(rt; first_other(rt.alloc(), PARTIAL_WRITE, 41, 60)?, None);
    Ok(())
}

#[test]
fn after_each_step_of_a_creation(rt: HostRuntime) -> Result<(), Fail> {
    assert_eq!(rt; first_other(rt.alloc(), CREATION, 0, 5)?, None);
    Ok(())
}

#[test]
fn after_each_step_of_a_migration(rt: HostRuntime) -> Result<(), Fail> {
    assert_eq!(rt; first_other(rt.alloc(), MIGRATION, 0, 7)?, None);
    Ok(())
}

// Two actors read the same chunk. Whenever the one that loads it crashes, the one that waits for it goes on.
#[test]
fn while_another_actor_waits(rt: HostRuntime) -> Result<(), Fail> {
    let alloc = rt.alloc();
    let lines = ["read d 0 512", "actor q", "read d 0 512"];
    for step in 0..=13u64 {
        let trails = trails_of(alloc, &lines, step, "schedule rounds")?;
        let ends = results(alloc, &trails)?;
        assert_eq!(rt; ends.last(), Some(&("done", 0)), "after {step}");
    }
    Ok(())
}
