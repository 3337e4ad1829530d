//! The calls of a creation on a depot.
ghost use Rattle.std.specs.Prelude.{◌≡◌, ◌≤◌, ◌+◌, ◌++◌, ◌∷◌, [], ℕ, List, length, true, false, Option, None, MatchOption, IfSome};
ghost use Rattle.lr_depot.specs.Depot.{Seen};
ghost use Rattle.lr_walk.specs.Depot.{Reply, seen_call};
ghost use Rattle.lr_creator.specs.Creation.{Ending, Input, piece, last, with_stop, IsPiece};
ghost use Rattle.lr_creator.specs.Progress.{asked as asked_of, a_call, advanced, AnswersAsked, is_wanting, raw_len_of};
ghost use Rattle.lr_creator.specs.Seen.{IsSame, is_call, seen_end};
ghost use Rattle.lr_images.specs.Drive.{Drives, Ended, HasGiven, MayEnd, IsEarly, IsUnstopped, left_of};

use lr_creator::{Create, CreateAction, CreateEnd};
use lr_depot::{Depot, DepotCall};
use lr_object::Object;
use lr_origin::Origin;
use std::alloc::Global;

// One call of caller 0 on the depot.
fn call<O: Origin>(alloc: Global, depot: &mut Depot<O>, machine: &mut Create, asked: DepotCall)
    requires handed { machine.old.ready ≡ false }
    requires asked { a_call (seen_call asked) ≡ asked_of machine.old.need }
    ensures same { IsSame machine.old machine.new }
    ensures ready { machine.new.ready ≡ is_call (asked_of machine.new.need) }
    ensures turned { (reply : Reply) × (machine.new.need ≡ advanced machine.old.need reply) × AnswersAsked (asked_of machine.old.need) reply × ((base : Seen O) (given : List Input) → Drives O.faults base machine.old given depot.old → Drives O.faults base machine.new given depot.new) }
{
    let reply = depot.apply(alloc, 0, asked);
    machine.take(alloc, reply);
}

/// One turn of a creation over a depot: a call and its reply, or the end.
fn ask<O: Origin>(alloc: Global, depot: &mut Depot<O>, machine: &mut Create) -> Option<CreateEnd>
    requires ready { machine.old.ready ≡ true }
    ensures same { IsSame machine.old machine.new }
    ensures ready { result ≡ None → machine.new.ready ≡ is_call (asked_of machine.new.need) }
    ensures falls { result ≡ None → left_of machine.new.need + 1 ≤ left_of machine.old.need }
    ensures given { result ≡ None → (n : ℕ) → HasGiven machine.old.need n → HasGiven machine.new.need n }
    ensures may { MatchOption result ((end : Ending) → MayEnd machine.new.need end → MayEnd machine.old.need end) (λ end. MayEnd machine.old.need (seen_end end)) }
    ensures drives { (base : Seen O) (given : List Input) → Drives O.faults base machine.old given depot.old → MatchOption result (Drives O.faults base machine.new given depot.new) (λ end. Ended O.faults base machine.old given depot.new (seen_end end)) }
{
    match machine.next() {
        CreateAction::End(end) => Some(end),
        CreateAction::Depot(asked) => {
            call(alloc, depot, machine, asked);
            None
        }
    }
}

/// Drives a creation until it wants more or has ended.
pub(crate) fn run_on<O: Origin>(
    alloc: Global,
    depot: &mut Depot<O>,
    machine: &mut Create,
) -> Option<CreateEnd>
    requires ready { machine.old.ready ≡ true }
    ensures same { IsSame machine.old machine.new }
    ensures wants { result ≡ None → is_wanting machine.new.need ≡ true }
    ensures given { result ≡ None → (n : ℕ) → HasGiven machine.old.need n → HasGiven machine.new.need n }
    ensures may { IfSome result (λ end. MayEnd machine.old.need (seen_end end)) }
    ensures drives { (base : Seen O) (given : List Input) → Drives O.faults base machine.old given depot.old → MatchOption result (Drives O.faults base machine.new given depot.new) (λ end. Ended O.faults base machine.old given depot.new (seen_end end)) }
{
    loop {
        match ask(alloc, depot, machine) {
            Some(end) => return Some(end),
            None => {}
        }
        if machine.wants() {
            return None;
        }
    }
}

/// Gives one piece, and drives the creation on.
pub(crate) fn put_piece<O: Origin>(
    alloc: Global,
    depot: &mut Depot<O>,
    machine: &mut Create,
    plain: &[u8],
) -> Option<CreateEnd>
    requires wants { is_wanting machine.old.need ≡ true }
    requires piece { IsPiece (raw_len_of machine.old.need) plain.now }
    ensures same { IsSame machine.old machine.new }
    ensures wants { result ≡ None → is_wanting machine.new.need ≡ true }
    ensures given { result ≡ None → raw_len_of machine.new.need ≡ raw_len_of machine.old.need + length plain.now }
    ensures early { IfSome result (λ end. IsEarly (seen_end end)) }
    ensures drives { (base : Seen O) (given : List Input) → Drives O.faults base machine.old given depot.old → MatchOption result (Drives O.faults base machine.new (given ++ piece plain.now ∷ []) depot.new) (λ end. Ended O.faults base machine.old (given ++ piece plain.now ∷ []) depot.new (seen_end end)) }
{
    match machine.give(alloc, plain) {
        Ok(()) => run_on(alloc, depot, machine),
        Err(_) => run_on(alloc, depot, machine),
    }
}

/// Says that the last piece was given, and drives the creation to its end.
pub(crate) fn put_last<O: Origin>(
    alloc: Global,
    depot: &mut Depot<O>,
    machine: &mut Create,
) -> CreateEnd
    requires wants { is_wanting machine.old.need ≡ true }
    ensures unstopped { IsUnstopped (seen_end result) }
    ensures drives { (base : Seen O) (given : List Input) → Drives O.faults base machine.old given depot.old → Ended O.faults base machine.old (given ++ last ∷ []) depot.new (seen_end result) }
{
    machine.last(alloc);
    match run_on(alloc, depot, machine) {
        Some(end) => end,
        None => CreateEnd::Memory,
    }
}

/// Stops the creation, and drives it to its end.
pub(crate) fn leave<O: Origin>(alloc: Global, depot: &mut Depot<O>, machine: &mut Create)
    requires wants { is_wanting machine.old.need ≡ true }
    ensures drives { (base : Seen O) (given : List Input) → Drives O.faults base machine.old given depot.old → Ended O.faults base machine.old given depot.new with_stop }
{
    machine.stop();
    let _end = run_on(alloc, depot, machine);
}
