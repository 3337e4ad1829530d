//! A small object, and one call through the bound.
ghost use Rattle.std.specs.Prelude.{◌≡◌, length, IfSome, Some, []};
ghost use Rattle.std.specs.Option.{is_some};

use lr_object::{Entry, Object};
use std::alloc::Global;

/// It counts the calls that it logs, and has no memory for a call of 0.
#[derive(Drop)]
pub(crate) struct Tally {
    log: Vec<Entry<u32, u64>>,
}

impl Tally {
    pub(crate) fn new(alloc: Global) -> Tally
        ensures { result.log.items ≡ [] }
    {
        Tally {
            log: Vec::new(alloc),
        }
    }
}

impl Object for Tally {
    type Call = u32;

    type Noted = u32;

    type Reply = Option<u64>;

    type Told = u64;

    type Fixed = ();

    ghost log = { λ s. s.log.items };

    ghost fixed = { λ _. tt };

    ghost unchanged = { λ old new. new.log.items ≡ old.log.items };

    ghost may = { λ _. Unit {0} };

    ghost opens = { λ _. Unit {0} };

    ghost shares = { λ _. Unit {0} };

    ghost logged = { is_some };

    ghost answers = { λ _ log _ _ reply. IfSome reply (λ count. count ≡ length log) };

    ghost enters = { λ _ _ _ call reply e. (e.call ≡ call) × (reply ≡ Some e.reply) };

    fn apply(&mut self, _alloc: Global, caller: u32, call: u32) -> Option<u64> {
        if call == 0 || self.log.reserve(1).is_err() {
            return None;
        }
        let reply = self.log.len() as u64;
        self.log.push_reserved(Entry {
            caller,
            call,
            reply,
        });
        Some(reply)
    }

    fn entries(&self) -> u64 {
        self.log.len() as u64
    }

    fn entry(&self, at: u64) -> Option<&Entry<u32, u64>> {
        self.log.get(at as usize)
    }
}

/// One call through the bound.
pub(crate) fn serve<S: Object>(
    alloc: Global,
    object: &mut S,
    caller: u32,
    call: S::Call,
) -> S::Reply
    requires { S.may call }
    ensures fixed { S.fixed object.new ≡ S.fixed object.old }
    ensures answers { S.answers (S.fixed object.old) (S.log object.old) caller call result }
{
    object.apply(alloc, caller, call)
}
