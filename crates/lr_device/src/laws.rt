//! What holds of every device, whatever its callers do.
ghost use Rattle.std.specs.Prelude.{◌≡◌, ℕ, ◌+◌, ◌*◌, ◌/◌, ◌<◌, ◌≤◌, ◌↔◌, ◌++◌, Bool, List, [], true, false, None, Some, find, ◌∷◌, ◌≢◌, length, Contains, slice_index, option_map};
ghost use Rattle.lr_convergent.specs.declared.piece.KeptPiece.{KeptPiece};
ghost use Rattle.lr_object.specs.Grown.{Grown};
ghost use Rattle.lr_device.specs.declared.call.DeviceCall.{DeviceCall as Call};
ghost use Rattle.lr_device.specs.PlainDevice.{size_of, is_in_range, IsLegal};
ghost use Rattle.lr_device.specs.Demand.{demand, Wants};
ghost use Rattle.lr_device.specs.Room.{RoomSeen, Suits};
ghost use Rattle.lr_device.specs.Machine.{LogEntry, OpenPlan, run, history, AgreesWith, State, is_of, plan_of, plan_gone};
ghost use Rattle.lr_device.specs.Answers.{Answers, is_small, lacking, used_of};
ghost use Rattle.lr_device.specs.Base.{part_of, HasPiece, Agrees};
ghost use Rattle.lr_convergent.specs.Sealed.{filled};
ghost use Rattle.lr_convergent.specs.Pieces.{plain_of};
ghost use Rattle.lr_device.specs.Enters.{Enters};
ghost use Rattle.lr_device.specs.Plans.{planned};
ghost use Rattle.lr_object.specs.Own.{own_entries};

/// On every base of the device's size that agrees with the plaintexts of all pieces that were used, a log that the
/// machine makes is one legal history of a plain device.
pub fn histories_are_legal()
    ensures { (size : ℕ) (log : List LogEntry) → Grown Answers Enters size [] log → (base : List ℕ) → length base ≡ size → AgreesWith base log → IsLegal base (history log) }
{}

/// A page that is written stays written.
pub fn pages_stay_written()
    ensures { (size : ℕ) (log since : List LogEntry) (page : ℕ) → (run size log).written page ≡ true → (run size (log ++ since)).written page ≡ true }
{}

/// A room made for a plan is never too small.
pub fn rooms_suffice()
    ensures { (size : ℕ) (plan : OpenPlan) (room : RoomSeen) → Suits plan.call plan.pages room → is_small size plan room ≡ false }
{}

/// The demand of a call: the ascending chunks in which some page of its range isn't written and, for a write or a zero,
/// is covered in part only; at most three, each of them with bytes of the device. A call that gets Range has none.
pub fn demands_are_exact()
    ensures has { (size : ℕ) (written : ℕ → Bool) (call : Call) (chunk : ℕ) → Contains (demand size written call) chunk → (is_in_range size call ≡ true) × ((page : ℕ) × (page / 128 ≡ chunk) × Wants written call page) }
    ensures all { (size : ℕ) (written : ℕ → Bool) (call : Call) (chunk : ℕ) → (is_in_range size call ≡ true) × ((page : ℕ) × (page / 128 ≡ chunk) × Wants written call page) → Contains (demand size written call) chunk }
    ensures ascends { (size : ℕ) (written : ℕ → Bool) (call : Call) (i j : ℕ) → i < j → j < length (demand size written call) → slice_index (demand size written call) i < slice_index (demand size written call) j }
    ensures few { (size : ℕ) (written : ℕ → Bool) (call : Call) → size_of call ≤ 1048576 → length (demand size written call) ≤ 3 }
    ensures within { (size : ℕ) (written : ℕ → Bool) (call : Call) (chunk : ℕ) → Contains (demand size written call) chunk → 524288 * chunk < size }
{}

/// Where more pages are written, a call needs no other chunks, and the pieces that served still serve.
pub fn demands_shrink()
    ensures chunks { (size : ℕ) (was now : ℕ → Bool) (call : Call) → ((page : ℕ) → was page ≡ true → now page ≡ true) → (chunk : ℕ) → Contains (demand size now call) chunk → Contains (demand size was call) chunk }
    ensures served { (size : ℕ) (was now : ℕ → Bool) (call : Call) (pieces : List KeptPiece) → ((page : ℕ) → was page ≡ true → now page ≡ true) → lacking (demand size was call) pieces ≡ None → lacking (demand size now call) pieces ≡ None }
{}

/// A caller has at most one plan out: when it ends, the caller has none, and the others have theirs.
pub fn plans_are_single()
    ensures ended { (size : ℕ) (log : List LogEntry) → Grown Answers Enters size [] log → (caller : ℕ) → plan_of caller (plan_gone caller (run size log)) ≡ None }
    ensures others { (st : State) (caller other : ℕ) → other ≢ caller → plan_of other (plan_gone caller st) ≡ plan_of other st }
    ensures begun { (plans : List OpenPlan) (plan : OpenPlan) → find (is_of plan.caller) plans ≡ None → find (is_of plan.caller) (plans ++ plan ∷ []) ≡ Some plan }
{}

/// What a caller has planned is a function of its own entries, whatever the others do.
pub fn plans_are_ones_own()
    ensures own { (caller : ℕ) (log : List LogEntry) → planned caller log ≡ planned caller (own_entries caller log) }
    // It is the call of the plan that the machine has.
    ensures machine { (size : ℕ) (log : List LogEntry) → Grown Answers Enters size [] log → (caller : ℕ) → option_map (λ plan. plan.call) (plan_of caller (run size log)) ≡ planned caller log }
{}

/// A base agrees with a piece whose plaintext is what it has of the piece's chunk, filled; and where it agrees with all
/// pieces that a commit was given, it does with those used.
pub fn pieces_of_the_base_agree()
    ensures filled { (base : List ℕ) (piece : KeptPiece) → plain_of piece ≡ filled 524288 (part_of base piece.index) → HasPiece base piece }
    ensures used { (base : List ℕ) (needs : List ℕ) (pieces : List KeptPiece) → Agrees base pieces → Agrees base (used_of needs pieces) }
{}
