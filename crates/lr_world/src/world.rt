//! The world.
ghost use Rattle.std.specs.Prelude.{◌≡◌, ◌<◌, ◌||◌, ℕ, List, length, replicate, IsTrue, false, slice_get, Some};
ghost use Rattle.lr_walk.specs.Jobs.{Context};
ghost use Rattle.lr_script.specs.Seen.{Serial as serial, Pairs as pairs_seen, schedule_seen};
ghost use Rattle.lr_actors.specs.Actor as actor;
ghost use Rattle.lr_world.specs.World.{seen_of, seen, MayBegin, IsWorld, cast_of, numbers_of, IsNumber, Steps, Tells, IsFree, weight_of};
ghost use Rattle.lr_world.specs.Turns.{IsSomeWorld, TurnedBy, Turned, stepped_of, goes_on, Goes, IsAlone, Falls, LeavesActors};
ghost use Rattle.lr_world.specs.Runs.{Runs, InTurn, Round, InRounds, AllEnded, listed, IsScheduled, MaySchedule, Ends, HaveLetGo, Left, AreCounted};
ghost use Rattle.lr_world.specs.Working.{WorkedOut};
ghost use Rattle.lr_world.specs.Bounded.{StaysWithin, AreBounded};

use crate::calling::serve_or_want;
use crate::laws::laws;
use lr_actors::{Actor, ActorAction, Parts};
use lr_origin::Origin;
use lr_script::Schedule;
use std::alloc::Global;

/// Whether a step made an apply.
#[derive(Clone, Copy, Debug, PartialEq, Eq)]
pub enum Stepped {
    Event,
    /// The actor has ended, or began a job that makes no step.
    Idle,
}

// What an actor did in its turn.
#[derive(Clone, Copy)]
enum Turn {
    Event,
    Idle,
    Ended,
}

fn told(turn: Turn) -> Stepped
    ensures { result ≡ stepped_of turn }
{
    match turn {
        Turn::Event => Stepped::Event,
        Turn::Idle | Turn::Ended => Stepped::Idle,
    }
}

fn is_going(turn: Turn) -> bool
    ensures { result ≡ goes_on turn }
{
    match turn {
        Turn::Event | Turn::Idle => true,
        Turn::Ended => false,
    }
}

fn either(moved: bool, turn: Turn) -> bool
    ensures { result ≡ (moved || goes_on turn) }
{
    moved || is_going(turn)
}

/// Actors over the objects that they call on.
#[derive(Drop)]
pub struct World<O: Origin> {
    parts: Parts<O>,
    actors: Vec<Actor>,
}

impl<O: Origin> World<O> {
    /// New actors over these objects. It takes no memory.
    pub fn new(parts: Parts<O>, actors: Vec<Actor>) -> World<O>
        requires { (context : Context) × (hosts : ℕ) × MayBegin context hosts (seen_of parts actors) }
        ensures seen { seen result ≡ seen_of parts actors }
        ensures is { (context : Context) (hosts : ℕ) → MayBegin context hosts (seen_of parts actors) → IsWorld context hosts (seen result) }
    {
        lr_claims::sessions_are_ones_own();
        World { parts, actors }
    }

    // The actor at this place takes its turn. Where it is to be short, the called object finds no memory.
    fn take_turn(&mut self, alloc: Global, at: usize, short: bool) -> Turn
        requires world { IsSomeWorld self.old }
        requires at { at < length self.old.actors.items }
        ensures { Turned O.objects O.faults (seen self.old) at result (seen self.new) }
    {
        laws();
        let actor = &mut self.actors[at];
        match actor.next() {
            ActorAction::Ended => Turn::Ended,
            ActorAction::Idle => {
                actor.pass();
                Turn::Idle
            }
            ActorAction::Call(call) => {
                let number = actor.number();
                let reply = serve_or_want(&mut self.parts, alloc, number, call, short);
                actor.take(reply);
                Turn::Event
            }
        }
    }

    // The world stays one, and comes nearer to its end.
    fn turn(&mut self, alloc: Global, at: usize, short: bool) -> Turn
        requires world { IsSomeWorld self.old }
        requires at { at < length self.old.actors.items }
        ensures turned { Turned O.objects O.faults (seen self.old) at result (seen self.new) }
        ensures is { (context : Context) (hosts : ℕ) → IsWorld context hosts (seen self.old) → IsWorld context hosts (seen self.new) }
        ensures goes { Goes result (seen self.old) at (seen self.new) }
        ensures cast { cast_of (seen self.new) ≡ cast_of (seen self.old) }
        ensures others { LeavesActors at (seen self.old) (seen self.new) }
    {
        laws();
        self.take_turn(alloc, at, short)
    }

    // The place of the actor of this number.
    fn place_of(&self, number: u32) -> usize
        requires { IsNumber (cast_of (seen self.now)) number }
        ensures { (a : actor.Seen) × (slice_get self.now.actors.items result ≡ Some a) × (a.number ≡ number) }
    {
        for at in 0..self.actors.len() {
            let actor = &self.actors[at];
            if actor.number() == number {
                return at;
            }
        }
        unreachable!()
    }

    /// The actor of this number takes a step: its next call goes to its object, and the reply to it. One that has ended does
    /// nothing.
    pub fn step(&mut self, alloc: Global, actor: u32) -> Stepped
        requires world { IsSomeWorld self.old }
        requires known { IsNumber (cast_of (seen self.old)) actor }
        ensures steps { Steps O.objects O.faults (seen self.old) actor (seen self.new) }
        ensures told { Tells (seen self.old) actor result }
        ensures is { (context : Context) (hosts : ℕ) → IsWorld context hosts (seen self.old) → IsWorld context hosts (seen self.new) }
        ensures cast { cast_of (seen self.new) ≡ cast_of (seen self.old) }
    {
        let at = self.place_of(actor);
        told(self.turn(alloc, at, false))
    }

    /// As `step`, but the called object finds no memory, where the call may want some. Tests make memory want with it.
    pub fn step_short(&mut self, alloc: Global, actor: u32) -> Stepped
        requires world { IsSomeWorld self.old }
        requires known { IsNumber (cast_of (seen self.old)) actor }
        ensures steps { Steps O.objects O.faults (seen self.old) actor (seen self.new) }
        ensures told { Tells (seen self.old) actor result }
        ensures is { (context : Context) (hosts : ℕ) → IsWorld context hosts (seen self.old) → IsWorld context hosts (seen self.new) }
        ensures cast { cast_of (seen self.new) ≡ cast_of (seen self.old) }
    {
        let at = self.place_of(actor);
        told(self.turn(alloc, at, true))
    }

    // So many steps of one actor.
    fn repeat(&mut self, alloc: Global, actor: u32, count: u32)
        requires world { IsSomeWorld self.old }
        requires known { IsNumber (cast_of (seen self.old)) actor }
        ensures ran { Runs O.objects O.faults (seen self.old) (replicate count actor) (seen self.new) }
        ensures is { (context : Context) (hosts : ℕ) → IsWorld context hosts (seen self.old) → IsWorld context hosts (seen self.new) }
        ensures cast { cast_of (seen self.new) ≡ cast_of (seen self.old) }
    {
        for _ in 0..count {
            let _ = self.step(alloc, actor);
        }
    }

    // The steps of the pairs.
    fn pairs(&mut self, alloc: Global, pairs: &[(u32, u32)])
        requires world { IsSomeWorld self.old }
        requires known { (i : ℕ) (p : ℕ × ℕ) → slice_get pairs.now i ≡ Some p → IsNumber (cast_of (seen self.old)) p.0 }
        ensures ran { Runs O.objects O.faults (seen self.old) (listed pairs.now) (seen self.new) }
        ensures is { (context : Context) (hosts : ℕ) → IsWorld context hosts (seen self.old) → IsWorld context hosts (seen self.new) }
        ensures cast { cast_of (seen self.new) ≡ cast_of (seen self.old) }
    {
        for pair in pairs {
            self.repeat(alloc, pair.0, pair.1);
        }
    }

    // A turn of an actor while no other one has a claim out: it doesn't wait.
    fn turn_alone(&mut self, alloc: Global, at: usize) -> Turn
        requires world { IsSomeWorld self.old }
        requires at { at < length self.old.actors.items }
        requires alone { IsAlone (seen self.old) at }
        ensures turned { TurnedBy O.objects O.faults IsFree (seen self.old) at result (seen self.new) }
        ensures is { (context : Context) (hosts : ℕ) → IsWorld context hosts (seen self.old) → IsWorld context hosts (seen self.new) }
        ensures falls { Falls result (seen self.old) (seen self.new) }
        ensures alone { IsAlone (seen self.new) at }
        ensures cast { cast_of (seen self.new) ≡ cast_of (seen self.old) }
        ensures others { LeavesActors at (seen self.old) (seen self.new) }
    {
        laws();
        self.turn(alloc, at, false)
    }

    // The steps of one actor until it has ended.
    fn work_out(&mut self, alloc: Global, at: usize)
        requires world { IsSomeWorld self.old }
        requires at { at < length self.old.actors.items }
        requires alone { IsAlone (seen self.old) at }
        ensures worked { WorkedOut O.objects O.faults at (seen self.old) (seen self.new) }
        ensures is { (context : Context) (hosts : ℕ) → IsWorld context hosts (seen self.old) → IsWorld context hosts (seen self.new) }
    {
        let mut going = true;
        while going {
            going = is_going(self.turn_alone(alloc, at));
        }
    }

    // Each actor until it has ended, one after another.
    fn serial(&mut self, alloc: Global)
        requires world { IsSomeWorld self.old }
        requires free { MaySchedule serial (seen self.old) }
        ensures ran { (steps : List ℕ) × InTurn O.objects O.faults (seen self.old) (numbers_of (cast_of (seen self.old))) steps (seen self.new) }
        ensures ended { AllEnded (seen self.new) }
        ensures is { (context : Context) (hosts : ℕ) → IsWorld context hosts (seen self.old) → IsWorld context hosts (seen self.new) }
    {
        for at in 0..self.actors.len() {
            self.work_out(alloc, at);
        }
    }

    // A step of each actor that has not ended. Whether there was one.
    fn round(&mut self, alloc: Global) -> bool
        requires { IsSomeWorld self.old }
        ensures ran { (steps : List ℕ) × Round O.objects O.faults (seen self.old) (numbers_of (cast_of (seen self.old))) steps (seen self.new) }
        ensures falls { IsTrue result → weight_of (seen self.new) < weight_of (seen self.old) }
        ensures ended { result ≡ false → AllEnded (seen self.new) × (seen self.new ≡ seen self.old) }
        ensures is { (context : Context) (hosts : ℕ) → IsWorld context hosts (seen self.old) → IsWorld context hosts (seen self.new) }
        ensures cast { cast_of (seen self.new) ≡ cast_of (seen self.old) }
    {
        let mut moved = false;
        for at in 0..self.actors.len() {
            moved = either(moved, self.turn(alloc, at, false));
        }
        moved
    }

    // Rounds until all have ended.
    fn rounds(&mut self, alloc: Global)
        requires { IsSomeWorld self.old }
        ensures ran { (steps : List ℕ) × InRounds O.objects O.faults (numbers_of (cast_of (seen self.old))) (seen self.old) steps (seen self.new) }
        ensures ended { AllEnded (seen self.new) }
        ensures is { (context : Context) (hosts : ℕ) → IsWorld context hosts (seen self.old) → IsWorld context hosts (seen self.new) }
    {
        let mut going = true;
        while going {
            going = self.round(alloc);
        }
    }

    // The steps of the pairs, and then rounds where these follow.
    fn pairs_then(&mut self, alloc: Global, pairs: &[(u32, u32)], rounds: bool)
        requires world { IsSomeWorld self.old }
        requires may { MaySchedule (pairs_seen pairs.now rounds) (seen self.old) }
        ensures ran { (steps : List ℕ) × IsScheduled O.objects O.faults (numbers_of (cast_of (seen self.old))) (pairs_seen pairs.now rounds) (seen self.old) steps (seen self.new) }
        ensures ends { Ends (pairs_seen pairs.now rounds) (seen self.new) }
        ensures is { (context : Context) (hosts : ℕ) → IsWorld context hosts (seen self.old) → IsWorld context hosts (seen self.new) }
    {
        self.pairs(alloc, pairs);
        if !rounds {
            return;
        }
        self.rounds(alloc);
    }

    fn run_all(&mut self, alloc: Global, schedule: &Schedule)
        requires world { IsSomeWorld self.old }
        requires may { MaySchedule (schedule_seen schedule.now) (seen self.old) }
        ensures ran { (steps : List ℕ) × IsScheduled O.objects O.faults (numbers_of (cast_of (seen self.old))) (schedule_seen schedule.now) (seen self.old) steps (seen self.new) }
        ensures ends { Ends (schedule_seen schedule.now) (seen self.new) }
        ensures is { (context : Context) (hosts : ℕ) → IsWorld context hosts (seen self.old) → IsWorld context hosts (seen self.new) }
    {
        match schedule {
            Schedule::Serial => self.serial(alloc),
            Schedule::Rounds => self.rounds(alloc),
            Schedule::Pairs(pairs, rounds) => self.pairs_then(alloc, pairs.as_slice(), *rounds),
        }
    }

    /// The actors take the steps of the schedule. Under pairs without rounds some may be left unfinished; else all have ended, and no
    /// plan, claim or session of theirs is out.
    pub fn run(&mut self, alloc: Global, schedule: &Schedule)
        requires world { IsSomeWorld self.old }
        requires may { MaySchedule (schedule_seen schedule.now) (seen self.old) }
        // The steps are those of the schedule, one after another. Serially no reply is Busy.
        ensures ran { (steps : List ℕ) × IsScheduled O.objects O.faults (numbers_of (cast_of (seen self.old))) (schedule_seen schedule.now) (seen self.old) steps (seen self.new) × Runs O.objects O.faults (seen self.old) steps (seen self.new) }
        ensures ends { Ends (schedule_seen schedule.now) (seen self.new) }
        ensures freed { HaveLetGo (schedule_seen schedule.now) (seen self.new) }
        ensures is { (context : Context) (hosts : ℕ) → IsWorld context hosts (seen self.old) → IsWorld context hosts (seen self.new) }
        ensures left { Left (seen self.old) (seen self.new) }
        ensures counted { AreCounted (schedule_seen schedule.now) (seen self.old) (seen self.new) }
        // No step but Busy is made beyond the bounds of the jobs.
        ensures within { StaysWithin (seen self.old) (seen self.new) }
        ensures bounded { AreBounded (seen self.old) (seen self.new) }
    {
        laws();
        self.run_all(alloc, schedule);
    }

    /// The objects and the actors. It takes no memory.
    pub fn end(self) -> (Parts<O>, Vec<Actor>)
        ensures { seen_of result.0 result.1 ≡ seen self }
    {
        let World { parts, actors } = self;
        (parts, actors)
    }
}
