//! Migrations driven over a depot.
ghost use Rattle.std.specs.Prelude.{◌≡◌, ◌≤◌, ◌+◌, ◌⊎◌, ℕ, List, true, false, None, MatchOption};
ghost use Rattle.lr_spec.specs.Rose.{Rose};
ghost use Rattle.lr_depot.specs.Machine.{LogEntry};
ghost use Rattle.lr_walk.specs.Depot.{seen_call};
ghost use Rattle.lr_migrator.specs.Progress.{a_call, asked as asked_of};
ghost use Rattle.lr_migrator.specs.Seen.{seen_end};
ghost use Rattle.lr_desk.specs.Drive.{Carries, HasMoved, IsFaultMove, IsFaultStage, IsUnderWay, moves_left};

use lr_depot::{Depot, DepotCall};
use lr_migrator::{Migrate, MigrateAction, MigrateEnd};
use lr_object::Object;
use lr_origin::{ImageName, Origin};
use std::alloc::Global;

// One call of caller 0 on the depot, and its reply for the machine.
fn call<O: Origin>(alloc: Global, depot: &mut Depot<O>, machine: &mut Migrate, asked: DepotCall)
    requires handed { machine.old.ready ≡ false }
    requires asked { a_call (seen_call asked) ≡ asked_of machine.old.image machine.old.need }
    ensures image { machine.new.image ≡ machine.old.image }
    ensures ready { machine.new.ready ≡ true }
    ensures start { depot.new.start ≡ depot.old.start }
    ensures goes { IsUnderWay machine.new.need }
    ensures falls { IsUnderWay machine.old.need → moves_left machine.new.need + 1 ≤ moves_left machine.old.need }
    ensures drives { (base : List LogEntry) → Carries base machine.old depot.old.log → Carries base machine.new depot.new.log }
    ensures never_falls { O.faults depot.old.origin ≤ O.faults depot.new.origin }
    ensures cause { IsFaultStage machine.new.need → IsFaultStage machine.old.need ⊎ Rose (O.faults depot.old.origin) (O.faults depot.new.origin) }
{
    let reply = depot.apply(alloc, 0, asked);
    machine.take(alloc, reply);
}

// One turn of a migration over a depot: a call and its reply, or the end.
fn turn<O: Origin>(alloc: Global, depot: &mut Depot<O>, machine: &mut Migrate) -> Option<MigrateEnd>
    requires ready { machine.old.ready ≡ true }
    ensures image { machine.new.image ≡ machine.old.image }
    ensures start { depot.new.start ≡ depot.old.start }
    ensures ready { result ≡ None → machine.new.ready ≡ true }
    ensures goes { result ≡ None → IsUnderWay machine.new.need }
    ensures falls { result ≡ None → IsUnderWay machine.old.need → moves_left machine.new.need + 1 ≤ moves_left machine.old.need }
    ensures drives { (base : List LogEntry) → Carries base machine.old depot.old.log → MatchOption result (Carries base machine.new depot.new.log) (λ end. HasMoved base machine.old.image depot.new.log (seen_end end)) }
    ensures never_falls { O.faults depot.old.origin ≤ O.faults depot.new.origin }
    ensures cause { MatchOption result (IsFaultStage machine.new.need → IsFaultStage machine.old.need ⊎ Rose (O.faults depot.old.origin) (O.faults depot.new.origin)) (λ end. (IsFaultMove (seen_end end) → IsFaultStage machine.old.need) × (O.faults depot.new.origin ≡ O.faults depot.old.origin)) }
{
    match machine.next() {
        MigrateAction::End(end) => Some(end),
        MigrateAction::Depot(asked) => {
            call(alloc, depot, machine, asked);
            None
        }
    }
}

// Drives a migration that is under way to its end.
fn move_on<O: Origin>(alloc: Global, depot: &mut Depot<O>, machine: &mut Migrate) -> MigrateEnd
    requires ready { machine.old.ready ≡ true }
    requires goes { IsUnderWay machine.old.need }
    ensures start { depot.new.start ≡ depot.old.start }
    ensures walk { (base : List LogEntry) → Carries base machine.old depot.old.log → HasMoved base machine.old.image depot.new.log (seen_end result) }
    ensures never_falls { O.faults depot.old.origin ≤ O.faults depot.new.origin }
    ensures cause { IsFaultMove (seen_end result) → IsFaultStage machine.old.need ⊎ Rose (O.faults depot.old.origin) (O.faults depot.new.origin) }
{
    loop {
        if let Some(end) = turn(alloc, depot, machine) {
            return end;
        }
    }
}

/// Migrates an image over a depot: its log goes on by the migration's walk, whose entries are all of caller 0.
///
/// It ends with a fault only where the store's count of faults rose.
pub fn migrate<O: Origin>(alloc: Global, depot: &mut Depot<O>, image: ImageName) -> MigrateEnd
    ensures start { depot.new.start ≡ depot.old.start }
    ensures walk { HasMoved depot.old.log image depot.new.log (seen_end result) }
    ensures never_falls { O.faults depot.old.origin ≤ O.faults depot.new.origin }
    ensures cause { IsFaultMove (seen_end result) → Rose (O.faults depot.old.origin) (O.faults depot.new.origin) }
{
    let mut machine = Migrate::new(alloc, image);
    match turn(alloc, depot, &mut machine) {
        Some(end) => end,
        None => move_on(alloc, depot, &mut machine),
    }
}
