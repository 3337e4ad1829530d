//! The shared object and its calls.
ghost use Rattle.std.specs.Prelude.{◌≡◌, ◌<◌, ◌≤◌, [], ◌∷◌, ◌++◌, true, false, length, IfOk, IfErr, MatchBool, Some};
ghost use Rattle.lr_object.specs.declared.entry.Entry.{Entry};
ghost use Rattle.lr_turn.specs.Views.{first_view, knowing, giving, newcomer, joining, leaving, counting, lists_of};
ghost use Rattle.lr_turn.specs.Called.{Called, AllJoined, Closes};
ghost use Rattle.lr_turn.specs.Steps.{Taken, Applied, MayCount};

use crate::joined::{Joined, remember};
use crate::pass::{Pass, PassOf};
use crate::plays::{Count, Cut, Glue, Leave, Number, Take, Tell};
use crate::rule::{Board, COUNT, Place, TURN};
use atomic_table::{Refused, Table};
use lr_object::Object;
use std::alloc::Global;
use std::hint::spin_loop;
use std::marker::Brand;
use std::snapshot::Snapshot;
use std::sync::Wait;

// How often a caller looks for the turn before it parks.
const TRIES: u32 = 100;

/// An object that many callers share. Each calls it through a pass of its own, and their calls take turns.
#[derive(Drop)]
pub struct Shared<S: Object> {
    // The object and its number of entries; a pass belongs to it where its seat is on this table.
    table: Board<S>,
    ghost sized: { (table.shared.table_id.words ≡ 2) × (table.shared.table_id.slots ≡ 1) },
}

/// There was no memory to share the object, which comes back.
#[derive(Drop)]
pub struct NoMemory<S> {
    pub state: S,
}

// The one value that comes back.
fn only<S>(refused: Refused<S, Global>) -> S
    requires { length refused.slots.items ≡ 1 }
    ensures { refused.slots.items ≡ result ∷ [] }
{
    let Refused { mut slots } = refused;
    let Some(state) = slots.pop() else {
        unreachable!()
    };
    slots.destroy_empty();
    state
}

impl<S: Object> Shared<S> {
    ghost use Rattle.lr_turn.specs.Shown.{seat_of, known_by, table_of, first_of};

    /// Shares an object, and gives the first pass. For want of memory the object comes back.
    pub fn new(alloc: Global, state: S) -> Result<(Shared<S>, Pass<S>), NoMemory<S>>
        ensures ok { IfOk result (λ t. (seat_of t.1 ≡ table_of t.0) × (t.1.number ≡ 0) × (known_by t.1 ≡ first_view (S.fixed state) (S.log state)) × (first_of t.0 ≡ state)) }
        ensures err { IfErr result (λ e. e.state ≡ state) }
    {
        let Ok(mut slots) = Vec::with_capacity(alloc, 1) else {
            return Err(NoMemory { state });
        };
        let key = Snapshot::of(&state);
        let words = [state.entries(), 0];
        slots.push_reserved(state);
        match Table::new(alloc, &words, slots, &key) {
            Ok((table, place)) => Ok((Shared { table }, PassOf { place, number: 0 })),
            Err(refused) => Err(NoMemory {
                state: only(refused),
            }),
        }
    }

    /// A pass for one more number, which is above all given out. It takes no memory.
    pub fn split(&self, first: &mut Pass<S>, number: u32) -> Pass<S>
        requires own { seat_of first.old ≡ table_of self.now }
        requires first { (first.old.number ≡ 0) × ((known_by first.old).top < number) }
        ensures first { (seat_of first.new ≡ seat_of first.old) × (first.new.number ≡ 0) × (known_by first.new ≡ giving number (known_by first.old)) }
        ensures new { (seat_of result ≡ seat_of first.old) × (result.number ≡ number) × (known_by result ≡ newcomer number (known_by first.old)) }
    {
        let place = self.cut_at(&mut first.place, number);
        PassOf { place, number }
    }

    /// Makes one call, of those that may be made while others share the object (`opens`). It waits for the turn, and
    /// what it promises holds if it returns.
    pub fn call<R: Wait>(
        &self,
        rt: &R,
        alloc: Global,
        pass: &mut Pass<S>,
        call: S::Call,
    ) -> S::Reply
        requires own { seat_of pass.old ≡ table_of self.now }
        requires may { S.may call }
        requires opens { S.opens call }
        ensures same { (seat_of pass.new ≡ seat_of pass.old) × (pass.new.number ≡ pass.old.number) }
        ensures called { Called S.shares S.logged S.answers S.enters (known_by pass.old) (known_by pass.new) pass.old.number call result }
    {
        let number = pass.number;
        self.take(rt, &mut pass.place);
        let (reply, before, after) = self.run(alloc, &mut pass.place, number, call);
        if before < after {
            self.note(&mut pass.place, after);
        }
        self.leave(&mut pass.place);
        reply
    }

    /// The number of entries now, which the pass knows from then on.
    pub fn count(&self, pass: &mut Pass<S>) -> u64
        requires { seat_of pass.old ≡ table_of self.now }
        ensures same { (seat_of pass.new ≡ seat_of pass.old) × (pass.new.number ≡ pass.old.number) }
        ensures known { known_by pass.new ≡ knowing (known_by pass.old) result }
        ensures least { (length (known_by pass.old).seen ≤ result) × ((known_by pass.old).known ≤ result) }
    {
        self.table.shared.load::<Tell>(&mut pass.place, COUNT)
    }

    /// A pass ends, and the first one takes in what it knew. It takes no memory.
    pub fn join(&self, first: &mut Pass<S>, other: Pass<S>)
        requires own { (seat_of first.old ≡ table_of self.now) × (seat_of other ≡ table_of self.now) }
        requires first { first.old.number ≡ 0 }
        ensures first { (seat_of first.new ≡ seat_of first.old) × (first.new.number ≡ 0) × (known_by first.new ≡ joining (known_by first.old) (known_by other)) }
    {
        let PassOf { place, number: _ } = other;
        self.table.shared.join_seat::<Glue>(&mut first.place, place);
    }

    /// The object, once each pass that was given out has been joined, and the lists of the entries of each. It takes
    /// no memory.
    pub fn close(self, first: Pass<S>) -> (S, Joined<S::Noted, S::Told, S::Fixed>)
        requires own { seat_of first ≡ table_of self }
        requires first { first.number ≡ 0 }
        requires joined { AllJoined (known_by first) }
        ensures fixed { ((known_by first).fixed ≡ Some (S.fixed result.0)) × (S.fixed result.0 ≡ S.fixed (first_of self)) }
        ensures start { (known_by first).start ≡ S.log (first_of self) }
        ensures log { Closes S.shares S.answers S.enters (S.fixed result.0) (known_by first) (S.log result.0) }
        ensures lists { result.1 ≡ lists_of (known_by first) }
    {
        let PassOf { place, number } = first;
        let (place, joined) = remember(place);
        (self.finish(PassOf { place, number }), joined)
    }
}

// The steps of these calls.
impl<S: Object> Shared<S> {
    // Looks for the turn so many times, and takes it where no pass has it.
    fn try_take(&self, place: &mut Place<S>) -> bool
        requires own { place.old.table_id ≡ self.now.table.shared.table_id }
        requires idle { (place.old.me.1 ≡ []) × (place.old.me.0.spent ≡ false) }
        ensures same { place.new.table_id ≡ place.old.table_id }
        ensures took { MatchBool result (Taken S.log S.fixed S.shares S.answers S.enters place.old.me place.new.me) (place.new.me ≡ place.old.me) }
    {
        for _ in 0..TRIES {
            let found = self
                .table
                .shared
                .compare_exchange::<Take>(place, TURN, 0, 1);
            if found == 0 {
                return true;
            }
            spin_loop();
        }
        false
    }

    // Parks until it has the turn. Who takes the turn here says that others may be parked.
    fn wait<R: Wait>(&self, rt: &R, place: &mut Place<S>)
        requires own { place.old.table_id ≡ self.now.table.shared.table_id }
        requires idle { (place.old.me.1 ≡ []) × (place.old.me.0.spent ≡ false) }
        ensures same { place.new.table_id ≡ place.old.table_id }
        ensures took { Taken S.log S.fixed S.shares S.answers S.enters place.old.me place.new.me }
    {
        for _ in rt.forever() {
            if self.table.shared.swap::<Take>(place, TURN, 2) == 0 {
                return;
            }
            self.table.shared.park(rt, TURN, 2);
        }
        unreachable!()
    }

    // Takes the turn, and waits for it where another pass has it.
    fn take<R: Wait>(&self, rt: &R, place: &mut Place<S>)
        requires own { place.old.table_id ≡ self.now.table.shared.table_id }
        requires idle { (place.old.me.1 ≡ []) × (place.old.me.0.spent ≡ false) }
        ensures same { place.new.table_id ≡ place.old.table_id }
        ensures took { Taken S.log S.fixed S.shares S.answers S.enters place.old.me place.new.me }
    {
        if self.try_take(place) {
            return;
        }
        self.wait(rt, place);
    }

    // The answer of the object in hand, and its number of entries before and after.
    fn run(
        &self,
        alloc: Global,
        place: &mut Place<S>,
        caller: u32,
        call: S::Call,
    ) -> (S::Reply, u64, u64)
        requires own { place.old.table_id ≡ self.now.table.shared.table_id }
        requires held { (y : S) × (place.old.me.1 ≡ (0, y) ∷ []) }
        requires may { S.may call }
        ensures same { place.new.table_id ≡ place.old.table_id }
        ensures applied { Applied S.log S.fixed S.opens S.shares S.logged S.answers S.enters place.old.me place.new.me caller call result.0 result.1 result.2 }
    {
        let state = place.slot_mut(&self.table.shared, 0);
        let before = state.entries();
        let reply = state.apply(alloc, caller, call);
        let after = state.entries();
        (reply, before, after)
    }

    // Counts the entry that the object in hand has more than was seen.
    fn note(&self, place: &mut Place<S>, entries: u64)
        requires own { place.old.table_id ≡ self.now.table.shared.table_id }
        requires turn { (place.old.me.0.spent ≡ false) × (place.old.me.0.out ≡ true) }
        requires held { (y : S) × (e : Entry S.Noted S.Told) × (place.old.me.1 ≡ (0, y) ∷ []) × (S.log y ≡ place.old.me.0.seen ++ e ∷ []) × (e.caller ≡ place.old.me.0.number) × S.shares e.call × (entries ≡ length (S.log y)) × MayCount S.answers S.enters place.old.me.0 e }
        ensures same { place.new.table_id ≡ place.old.table_id }
        ensures noted { (y : S) × (e : Entry S.Noted S.Told) × (place.old.me.1 ≡ (0, y) ∷ []) × (S.log y ≡ place.old.me.0.seen ++ e ∷ []) × (place.new.me ≡ (counting place.old.me.0 e, (0, y) ∷ [])) }
    {
        self.table.shared.store::<Count>(place, COUNT, entries);
    }

    // Gives the turn back, and wakes a caller where one may be parked.
    fn leave(&self, place: &mut Place<S>)
        requires own { place.old.table_id ≡ self.now.table.shared.table_id }
        requires turn { (place.old.me.0.spent ≡ false) × (place.old.me.0.out ≡ true) }
        requires held { (y : S) × (place.old.me.1 ≡ (0, y) ∷ []) × (S.log y ≡ place.old.me.0.seen) × (place.old.me.0.fixed ≡ Some (S.fixed y)) }
        ensures same { place.new.table_id ≡ place.old.table_id }
        ensures left { place.new.me ≡ (leaving place.old.me.0, []) }
    {
        if self.table.shared.swap::<Leave>(place, TURN, 0) == 2 {
            self.table.shared.wake_one(TURN);
        }
    }

    // Splits a seat for the number that N stands for.
    fn cut<N: Number>(&self, place: &mut Place<S>, _number: u32) -> Place<S>
        requires own { place.old.table_id ≡ self.now.table.shared.table_id }
        requires first { (place.old.me.0.spent ≡ false) × (place.old.me.0.number ≡ 0) × (place.old.me.0.top < N.number) }
        ensures first { (place.new.table_id ≡ place.old.table_id) × (place.new.me ≡ (giving N.number place.old.me.0, place.old.me.1)) }
        ensures new { (result.table_id ≡ place.old.table_id) × (result.me ≡ (newcomer N.number place.old.me.0, [])) }
    {
        self.table.shared.split_seat::<Cut<N>>(place)
    }

    // Splits a seat for a number.
    fn cut_at(&self, place: &mut Place<S>, number: u32) -> Place<S>
        requires own { place.old.table_id ≡ self.now.table.shared.table_id }
        requires first { (place.old.me.0.spent ≡ false) × (place.old.me.0.number ≡ 0) × (place.old.me.0.top < number) }
        ensures first { (place.new.table_id ≡ place.old.table_id) × (place.new.me ≡ (giving number place.old.me.0, place.old.me.1)) }
        ensures new { (result.table_id ≡ place.old.table_id) × (result.me ≡ (newcomer number place.old.me.0, [])) }
    {
        self.cut::<Brand>(place, number)
    }

    // The object.
    fn finish(self, first: Pass<S>) -> S
        requires own { first.place.table_id ≡ self.table.shared.table_id }
        requires first { first.number ≡ 0 }
        requires joined { AllJoined first.place.me.0 }
        ensures fixed { (first.place.me.0.fixed ≡ Some (S.fixed result)) × (S.fixed result ≡ S.fixed self.table.shared.key.value) }
        ensures start { first.place.me.0.start ≡ S.log self.table.shared.key.value }
        ensures log { Closes S.shares S.answers S.enters (S.fixed result) first.place.me.0 (S.log result) }
    {
        let PassOf { place, number: _ } = first;
        let Shared { table } = self;
        let mut closed = table.close_with(place);
        let state = closed.take(0);
        closed.free();
        state
    }
}
