//! Collections driven over a depot.
ghost use Rattle.std.specs.Prelude.{◌≡◌, ◌≤◌, ◌+◌, ℕ, List, true, false, None, MatchOption};
ghost use Rattle.std.specs.FinMap as map;
ghost use Rattle.lr_spec.specs.Rose.{Rose};
ghost use Rattle.lr_depot.specs.Machine.{LogEntry};
ghost use Rattle.lr_depot.specs.Depot.{state};
ghost use Rattle.lr_walk.specs.Depot.{seen_call};
ghost use Rattle.lr_collector.specs.Progress.{a_call, asked as asked_of};
ghost use Rattle.lr_collector.specs.Seen.{seen_end};
ghost use Rattle.lr_desk.specs.Drive.{Drives, HasCollected, IsFaultEnd, IsFaultNeed, turns_left};

use lr_collector::{Collect, CollectAction, CollectEnd, CollectJob};
use lr_depot::{Depot, DepotCall};
use lr_object::Object;
use lr_origin::Origin;
use std::alloc::Global;

// One call of caller 0 on the depot, and its reply for the machine.
fn call<O: Origin>(alloc: Global, depot: &mut Depot<O>, machine: &mut Collect, asked: DepotCall)
    requires handed { machine.old.ready ≡ false }
    requires asked { a_call (seen_call asked) ≡ asked_of machine.old.job machine.old.need }
    ensures job { machine.new.job ≡ machine.old.job }
    ensures ready { machine.new.ready ≡ true }
    ensures start { depot.new.start ≡ depot.old.start }
    ensures falls { turns_left machine.new.need (map.len (state depot.new.start depot.new.log).known.view) + 1 ≤ turns_left machine.old.need (map.len (state depot.old.start depot.old.log).known.view) }
    ensures drives { (base : List LogEntry) → Drives base machine.old depot.old.log → Drives base machine.new depot.new.log }
    ensures never_falls { O.faults depot.old.origin ≤ O.faults depot.new.origin }
    ensures cause { IsFaultNeed machine.new.need → Rose (O.faults depot.old.origin) (O.faults depot.new.origin) }
{
    let reply = depot.apply(alloc, 0, asked);
    machine.take(alloc, reply);
}

// One turn of a collection over a depot: a call and its reply, or the end.
fn turn<O: Origin>(alloc: Global, depot: &mut Depot<O>, machine: &mut Collect) -> Option<CollectEnd>
    requires ready { machine.old.ready ≡ true }
    ensures job { machine.new.job ≡ machine.old.job }
    ensures start { depot.new.start ≡ depot.old.start }
    ensures ready { result ≡ None → machine.new.ready ≡ true }
    ensures falls { result ≡ None → turns_left machine.new.need (map.len (state depot.new.start depot.new.log).known.view) + 1 ≤ turns_left machine.old.need (map.len (state depot.old.start depot.old.log).known.view) }
    ensures drives { (base : List LogEntry) → Drives base machine.old depot.old.log → MatchOption result (Drives base machine.new depot.new.log) (λ end. HasCollected base machine.old.job depot.new.log (seen_end end)) }
    ensures never_falls { O.faults depot.old.origin ≤ O.faults depot.new.origin }
    ensures cause { MatchOption result (IsFaultNeed machine.new.need → Rose (O.faults depot.old.origin) (O.faults depot.new.origin)) (λ end. (IsFaultEnd (seen_end end) → IsFaultNeed machine.old.need) × (O.faults depot.new.origin ≡ O.faults depot.old.origin)) }
{
    match machine.next() {
        CollectAction::End(end) => Some(end),
        CollectAction::Depot(asked) => {
            call(alloc, depot, machine, asked);
            None
        }
    }
}

/// Makes a collection over a depot: its log goes on by the collection's walk, whose entries are all of caller 0.
///
/// It ends with a fault only where the store's count of faults rose.
pub fn collect<O: Origin>(alloc: Global, depot: &mut Depot<O>, job: CollectJob) -> CollectEnd
    ensures start { depot.new.start ≡ depot.old.start }
    ensures walk { HasCollected depot.old.log job depot.new.log (seen_end result) }
    ensures never_falls { O.faults depot.old.origin ≤ O.faults depot.new.origin }
    ensures cause { IsFaultEnd (seen_end result) → Rose (O.faults depot.old.origin) (O.faults depot.new.origin) }
{
    let mut machine = Collect::new(alloc, job);
    loop {
        if let Some(end) = turn(alloc, depot, &mut machine) {
            return end;
        }
    }
}
