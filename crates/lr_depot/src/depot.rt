//! The depot as an object with a log.
ghost use Rattle.std.specs.Prelude.{◌≡◌, ◌≤◌, ◌<◌, ◌+◌, ◌^◌, ℕ, Option, IsSome, IsTrue, IfOk, IfErr, Some, false, vec_len, vec_capacity};
ghost use Rattle.lr_opening.specs.Cause.{IsCause};
ghost use Rattle.lr_depot.specs.declared.call.DepotReply.{DepotReply as Reply};
ghost use Rattle.lr_depot.specs.Kernel.{places};
ghost use Rattle.lr_depot.specs.Begun.{Start};
ghost use Rattle.lr_depot.specs.Machine.{LogEntry, DepotStep};
ghost use Rattle.lr_depot.specs.Depot.{IsWhole, HasPlace, Did, KeepsStore, grown, state};
ghost use Rattle.lr_spec.specs.Told.{Told};
ghost use Rattle.lr_origin.specs.Objects.{Objects};

use crate::call::{DepotCall, DepotNoted, DepotReply, DepotTold};
use crate::doubts::keep_puts;
use crate::kernel::{Answer, Kernel};
use crate::log::DepotLog;
use crate::makers::DoubtMakers;
use crate::numbered::Numbered;
use crate::serving::{Served, serve};
use crate::start::DepotStart;
use lr_object::{Entry, Object};
use lr_opening::{StartCause, open};
use lr_origin::Origin;
use lr_roots::{Catalog, Keys};
use std::alloc::Global;
use std::marker::Model;
use std::snapshot::Snapshot;

/// Why a depot didn't start. The store comes back.
#[derive(Drop)]
pub struct StartError<O: Origin> {
    pub cause: StartCause,
    pub origin: O,
}

/// The store, what the depot holds, and the log.
#[derive(Drop)]
pub(crate) struct Body<O: Origin> {
    pub(crate) origin: O,
    pub(crate) kernel: Kernel,
    pub(crate) log: Vec<Entry<DepotNoted, DepotTold>>,
}

// Keeps what the log is to keep of a call, and gives the reply.
fn finish(
    log: &mut Vec<Entry<DepotNoted, DepotTold>>,
    caller: u32,
    call: DepotNoted,
    answer: Answer,
) -> DepotReply
    requires room { IsSome answer.told → vec_len log.old < vec_capacity log.old }
    ensures reply { result ≡ answer.reply }
    ensures log { log.new.items ≡ grown log.old.items caller call answer.told }
    ensures capacity { vec_capacity log.new ≡ vec_capacity log.old }
{
    let Answer { reply, told } = answer;
    if let Some(told) = told {
        log.push_reserved(Entry {
            caller,
            call,
            reply: told,
        });
    }
    reply
}

impl<O: Origin> Body<O> {
    // Takes the places in the log of a call, of a lease or session that it may begin, and of all that are out.
    fn take_places(&mut self) -> bool
        requires whole { (start : Start) × IsWhole O.objects O.faults start self.old }
        ensures taken { IsTrue result → vec_len self.new.log + places self.new.kernel + 2 ≤ vec_capacity self.new.log }
        ensures items { self.new.log.items ≡ self.old.log.items }
        ensures len { vec_len self.new.log ≡ vec_len self.old.log }
        ensures capacity { vec_capacity self.old.log ≤ vec_capacity self.new.log }
        ensures rest { (self.new.origin ≡ self.old.origin) × (self.new.kernel ≡ self.old.kernel) }
    {
        let places = self.kernel.places() + 2;
        self.log.reserve(places).is_ok()
    }

    // Whether the call has its place in the log, or could take one for it.
    fn make_room(&mut self, caller: u32, asked: &DepotCall) -> bool
        requires whole { (start : Start) × IsWhole O.objects O.faults start self.old }
        ensures none { (result ≡ false) → (start : Start) → IsWhole O.objects O.faults start self.old → DepotStep (state start self.old.log.items) caller asked.now DepotReply.OutOfMemory }
        ensures room { IsTrue result → (start : Start) → IsWhole O.objects O.faults start self.old → (reply : Reply) (e : LogEntry) → HasPlace start self.new caller asked.now reply e }
        ensures items { self.new.log.items ≡ self.old.log.items }
        ensures len { vec_len self.new.log ≡ vec_len self.old.log }
        ensures capacity { vec_capacity self.old.log ≤ vec_capacity self.new.log }
        ensures rest { (self.new.origin ≡ self.old.origin) × (self.new.kernel ≡ self.old.kernel) }
    {
        if self.kernel.has_place(caller, asked) {
            return true;
        }
        self.take_places()
    }

    fn apply(&mut self, alloc: Global, caller: u32, asked: DepotCall) -> DepotReply
        requires whole { (start : Start) × IsWhole O.objects O.faults start self.old }
        ensures did { (start : Start) → IsWhole O.objects O.faults start self.old → Did O.objects O.faults start self.old self.new caller asked result }
    {
        if !self.make_room(caller, &asked) {
            return DepotReply::OutOfMemory;
        }
        let Served { call, answer } = serve(
            &mut self.origin,
            &mut self.kernel,
            alloc,
            caller,
            asked,
        );
        finish(&mut self.log, caller, call, answer)
    }
}

/// The catalog over a store, with leases, sessions and the puts that are in doubt.
///
/// A contract sees the store, what the depot was started with, and the log; what it holds is what the machine makes
/// of these two. A failed put is in doubt until the same key is put again with an answer.
#[derive(Drop)]
pub struct Depot<O: Origin> {
    body: Body<O>,
    opening: Snapshot<O>,
    found: Snapshot<Catalog>,
    number: Snapshot<u64>,
}

impl<O: Origin> Model for Depot<O> {
    ghost use Rattle.std.specs.Coded.{codes};
    ghost use Rattle.lr_manifest.specs.contracts.manifest.Manifest as manifests;
    ghost use Rattle.lr_origin.specs.contracts.key.KeyKind as kinds;
    ghost use Rattle.lr_depot.specs.Depot.{Seen, IsWhole};
    ghost use Rattle.lr_depot.specs.Begun.{start_code};

    ghost Value = { Seen O };

    ghost coded = { Prim.hlevel (codes, start_code kinds.the_row.coded manifests.the_row.coded, O.code) };

    ghost view = { λ d. record { origin = d.body.origin; start = record { objects = O.objects d.opening.value; faults = O.faults d.opening.value; view = d.found.value.view; number = d.number.value }; log = d.body.log.items } };

    ghost invariant = { λ d. IsWhole O.objects O.faults (record { objects = O.objects d.opening.value; faults = O.faults d.opening.value; view = d.found.value.view; number = d.number.value }) d.body };
}

impl<O: Origin> Depot<O> {
    ghost use Rattle.lr_depot.specs.Depot.{first_state, state, IsStarted, IsEnded};
    ghost use Rattle.lr_rules.specs.Parts.{HasParts};

    /// A depot over a store, which is listed and read; chunks are not.
    ///
    /// The error hands the store back. It changes nothing.
    pub fn start(alloc: Global, origin: O) -> Result<Depot<O>, StartError<O>>
        ensures started { IfOk result (λ d. IsStarted O.objects O.faults origin d) }
        ensures cause { IfErr result (λ e. IsCause (O.objects origin) (O.faults origin) (O.faults e.origin) e.cause) }
        ensures back { IfErr result (λ e. (O.objects e.origin ≡ O.objects origin) × (O.faults origin ≤ O.faults e.origin)) }
    {
        let opening = Snapshot::of(&origin);
        let mut origin = origin;
        let catalog = match open(alloc, &mut origin) {
            Ok(catalog) => catalog,
            Err(cause) => return Err(StartError { cause, origin }),
        };
        let found = Snapshot::of(&catalog);
        let next_number = catalog.greatest_number() + 1;
        let number = Snapshot::of(&next_number);
        let kernel = Kernel {
            catalog,
            doubts: Keys::new(alloc),
            makers: DoubtMakers::new(alloc),
            leases: Numbered::new(alloc),
            sessions: Numbered::new(alloc),
            next_lease: 1,
            next_session: 1,
            next_number,
        };
        let body = Body {
            origin,
            kernel,
            log: Vec::new(alloc),
        };
        Ok(Depot {
            body,
            opening,
            found,
            number,
        })
    }

    /// The view after the calls so far: it is sound, and every owed image has a home that is active or retired. So it is of
    /// the store's objects, where the store tells them.
    pub fn catalog(&self) -> &Catalog
        ensures view { result.now.view ≡ (state self.now.start self.now.log).known.view }
        ensures kept { HasParts (state self.now.start self.now.log) }
        ensures stored { Told self.now.start.objects (λ m. (n : Objects) × (O.objects self.now.origin ≡ Some n) × KeepsStore self.now.start self.now.log n) }
    {
        &self.body.kernel.catalog
    }

    /// The store, what is left of the depot, and the view. It takes no memory.
    pub fn end(self) -> (O, DepotLog, Catalog)
        ensures ended { IsEnded O.objects O.faults self result.0 result.1 result.2 }
    {
        let Depot {
            body,
            opening: _,
            found: _,
            number: _,
        } = self;
        let Body {
            origin,
            kernel,
            log,
        } = body;
        let Kernel {
            catalog,
            mut doubts,
            ..
        } = kernel;
        keep_puts(&mut doubts, &catalog);
        (origin, DepotLog { log, doubts }, catalog)
    }
}

impl<O: Origin> Object for Depot<O> {
    ghost use Rattle.std.specs.Prelude.{MatchBool, [], ◌∷◌, ◌++◌};
    ghost use Rattle.std.specs.Bool.{OnFalse};
    ghost use Rattle.lr_spec.specs.Told.{Told};
    ghost use Rattle.lr_spec.specs.Rose.{Rose};
    ghost use Rattle.lr_depot.specs.Store.{StoreStep, IsFault, IsUnasked};
    ghost use Rattle.lr_depot.specs.Machine.{is_logged, DepotStep, Enters, IsShared, IsSharedEntry};
    ghost use Rattle.lr_depot.specs.Depot.{state, IsUnchanged};

    type Call = DepotCall;

    type Noted = DepotNoted;

    type Reply = DepotReply;

    type Told = DepotTold;

    type Fixed = DepotStart;

    ghost log = { λ d. d.log };

    ghost fixed = { λ d. d.start };

    ghost unchanged = { IsUnchanged O.objects };

    ghost may = { λ _. Unit {0} };

    ghost opens = { IsShared };

    ghost shares = { IsSharedEntry };

    ghost logged = { is_logged };

    ghost answers = { λ start log caller call reply. DepotStep (state start log) caller call reply };

    ghost enters = { λ _ _ _ call reply e. Enters call reply e };

    fn apply(&mut self, alloc: Global, caller: u32, call: DepotCall) -> DepotReply
        ensures fixed { self.new.start ≡ self.old.start }
        ensures answers { DepotStep (state self.old.start self.old.log) caller call result }
        ensures logged { MatchBool (is_logged result) ((e : LogEntry) × (self.new.log ≡ self.old.log ++ e ∷ []) × (e.caller ≡ caller) × Enters call result e × (IsShared call → IsSharedEntry e.call)) (self.new.log ≡ self.old.log) }
        ensures unlogged { OnFalse (is_logged result) (IsUnchanged O.objects self.old self.new) }
        ensures store { Told (O.objects self.old.origin) (λ m. StoreStep (state self.old.start self.old.log) caller call result m (O.objects self.new.origin)) }
        ensures never_falls { O.faults self.old.origin ≤ O.faults self.new.origin }
        ensures cause { IsFault result → Rose (O.faults self.old.origin) (O.faults self.new.origin) }
        ensures unasked { IsUnasked (state self.old.start self.old.log) caller call result → self.new.origin ≡ self.old.origin }
    {
        self.body.apply(alloc, caller, call)
    }

    fn entries(&self) -> u64 {
        self.body.log.len() as u64
    }

    fn entry(&self, at: u64) -> Option<&Entry<DepotNoted, DepotTold>> {
        self.body.log.get(at as usize)
    }
}
