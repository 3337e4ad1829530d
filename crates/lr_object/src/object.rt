//! The trait of objects.
ghost use Rattle.std.specs.Prelude.{◌≡◌, ℕ, List, [], ◌∷◌, ◌++◌, length, Bool, MatchBool, slice_get, option_copied};
ghost use Rattle.std.specs.Bool.{OnFalse};
ghost use Rattle.lr_object.specs.declared.entry.Entry.{Entry};

use crate::entry::Entry;
use std::alloc::Global;

/// A state machine with a log.
///
/// A contract sees an object as its fixed part and its log: the state is what the machine makes of these two. Each
/// call adds one entry to the log, or it gives an unlogged reply and leaves the object as it was.
pub trait Object {
    type Call;

    /// What the log keeps of a call.
    type Noted;

    type Reply;

    /// What the log keeps of a reply.
    type Told;

    /// What the object was made with.
    type Fixed;

    /// The log.
    ghost log: { Self → List (Entry Self.Noted Self.Told) };

    /// What no call changes.
    ghost fixed: { Self → Self.Fixed };

    /// What an unlogged reply leaves: the second object is the first, as far as callers can tell.
    ghost unchanged: { Self → Self → Type 0 };

    /// The test of calls, which a call passes before it is made.
    ghost may: { Self.Call → Type 0 };

    /// The calls that are made while others share the object.
    ghost opens: { Self.Call → Type 0 };

    /// What the log keeps of such a call.
    ghost shares: { Self.Noted → Type 0 };

    /// Whether the log keeps a reply.
    ghost logged: { Self.Reply → Bool };

    /// The test of answers: run over this log, the machine gives this reply to this call of this caller, or it finds
    /// no memory for a call that takes some.
    ghost answers: { Self.Fixed → List (Entry Self.Noted Self.Told) → ℕ → Self.Call → Self.Reply → Type 0 };

    /// The test of entries: the reply is logged, and after this log the entry is one that may be kept of this call
    /// and reply.
    ghost enters: { Self.Fixed → List (Entry Self.Noted Self.Told) → ℕ → Self.Call → Self.Reply → Entry Self.Noted Self.Told → Type 0 };

    /// Makes one call for a caller.
    fn apply(&mut self, alloc: Global, caller: u32, call: Self::Call) -> Self::Reply
        requires { may call }
        ensures fixed { fixed self.new ≡ fixed self.old }
        ensures answers { answers (fixed self.old) (log self.old) caller call result }
        // One entry more, or none.
        ensures logged { MatchBool (logged result) ((e : Entry Self.Noted Self.Told) × (log self.new ≡ log self.old ++ e ∷ []) × (e.caller ≡ caller) × enters (fixed self.old) (log self.old) caller call result e × (opens call → shares e.call)) (log self.new ≡ log self.old) }
        ensures unlogged { OnFalse (logged result) (unchanged self.old self.new) };

    /// The number of entries of the log.
    fn entries(&self) -> u64
        ensures { result ≡ length (log self.now) };

    /// The entry at a place counted from 0: `None` exactly past the end.
    fn entry(&self, at: u64) -> Option<&Entry<Self::Noted, Self::Told>>
        ensures { option_copied result ≡ slice_get (log self.now) at };
}
