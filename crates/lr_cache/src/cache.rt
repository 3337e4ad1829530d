//! The cache as an object with a log.
ghost use Rattle.std.specs.Prelude.{◌≡◌, ◌<◌, [], IfOk, length};

use crate::call::{CacheCall, CacheReply, Claim};
use crate::places::{claim_at, claim_on, place_of};
use lr_manifest::{Chunk, Name};
use lr_object::{Entry, Object, owner_of, put_first, raise};
use lr_spec::OutOfMemory;
use std::alloc::Global;
use std::marker::Model;
use std::sync::Arc;

/// A cache of so many chunks, with claims.
///
/// A contract sees its capacity and its log; what it holds is what the machine makes of these. A caller has at most
/// one claim out, for which a place of the log is kept.
#[derive(Drop)]
pub struct Cache {
    capacity: u32,
    chunks: Vec<Arc<Chunk>>,
    claims: Vec<Claim>,
    log: Vec<Entry<CacheCall, CacheReply>>,
}

impl Model for Cache {
    ghost use Rattle.std.specs.Prelude.{◌≡◌, ◌+◌, ◌<◌, ◌≤◌, map, length, vec_len, vec_capacity};
    ghost use Rattle.std.specs.Arc.{arc_value};
    ghost use Rattle.lr_cache.specs.Machine.{run};
    ghost use Rattle.lr_cache.specs.Served.{Seen};

    ghost Value = { Seen };

    ghost view = { λ s. record { capacity = s.capacity; log = s.log.items } };

    ghost invariant = { λ s. (0 < s.capacity) × (length s.chunks.items ≤ s.capacity) × (map arc_value s.chunks.items ≡ (run s.capacity s.log.items).chunks) × (s.claims.items ≡ (run s.capacity s.log.items).claims) × (vec_len s.log + vec_len s.claims ≤ vec_capacity s.log) };
}

impl Cache {
    ghost use Rattle.lr_cache.specs.declared.call.CacheCall.TheVariants.{Look, Fill, GiveUp, Evict, Reap};
    ghost use Rattle.lr_cache.specs.Machine.{run, CacheStep};
    ghost use Rattle.lr_cache.specs.Served.{Seen, Serves, Refuses};

    /// An empty cache for so many chunks, at least one.
    pub fn new(alloc: Global, capacity: u32) -> Result<Cache, OutOfMemory>
        requires { 0 < capacity }
        ensures { IfOk result (λ c. c ≡ record { capacity = capacity; log = [] }) }
    {
        Ok(Cache {
            capacity,
            chunks: Vec::new(alloc),
            claims: Vec::new(alloc),
            log: Vec::new(alloc),
        })
    }

    fn look(&mut self, caller: u32, name: Name) -> CacheReply
        ensures answered { CacheStep (run self.old.capacity self.old.log) caller (Look name) result }
        ensures kept { Serves self.old self.new caller (Look name) result }
    {
        if claim_at(self.claims.as_slice(), caller).is_some() {
            return CacheReply::Held;
        }
        if let Some(at) = place_of(self.chunks.as_slice(), &name) {
            let Ok(told) = owner_of(self.chunks.as_slice(), at) else {
                return CacheReply::OutOfMemory;
            };
            let Ok(kept) = owner_of(self.chunks.as_slice(), at) else {
                return CacheReply::OutOfMemory;
            };
            if self.log.reserve(self.claims.len() + 1).is_err() {
                return CacheReply::OutOfMemory;
            }
            raise(&mut self.chunks, at);
            self.log.push_reserved(Entry {
                caller,
                call: CacheCall::Look { name },
                reply: CacheReply::Hit(kept),
            });
            return CacheReply::Hit(told);
        }
        if let Some(at) = claim_on(self.claims.as_slice(), &name) {
            return CacheReply::Busy {
                holder: self.claims[at].caller,
            };
        }
        if self.claims.reserve(1).is_err() || self.log.reserve(self.claims.len() + 2).is_err() {
            return CacheReply::OutOfMemory;
        }
        self.claims.push_reserved(Claim { name, caller });
        self.log.push_reserved(Entry {
            caller,
            call: CacheCall::Look { name },
            reply: CacheReply::Lead,
        });
        CacheReply::Lead
    }

    fn fill(&mut self, caller: u32, chunk: Arc<Chunk>) -> CacheReply
        ensures answered { CacheStep (run self.old.capacity self.old.log) caller (Fill chunk) result }
        ensures kept { Serves self.old self.new caller (Fill chunk) result }
    {
        let Some(at) = claim_at(self.claims.as_slice(), caller) else {
            return self.refuse(caller, CacheCall::Fill { chunk });
        };
        if !chunk.has_name(&self.claims[at].name) {
            return self.refuse(caller, CacheCall::Fill { chunk });
        }
        let Ok(kept) = Arc::try_clone(&chunk) else {
            return CacheReply::OutOfMemory;
        };
        if self.chunks.reserve(1).is_err() {
            return CacheReply::OutOfMemory;
        }
        put_first(&mut self.chunks, self.capacity as usize, kept);
        self.claims.remove(at);
        self.log.push_reserved(Entry {
            caller,
            call: CacheCall::Fill { chunk },
            reply: CacheReply::Filled,
        });
        CacheReply::Filled
    }

    fn give_up(&mut self, caller: u32) -> CacheReply
        ensures answered { CacheStep (run self.old.capacity self.old.log) caller GiveUp result }
        ensures kept { Serves self.old self.new caller GiveUp result }
    {
        let Some(at) = claim_at(self.claims.as_slice(), caller) else {
            return self.refuse(caller, CacheCall::GiveUp);
        };
        self.claims.remove(at);
        self.log.push_reserved(Entry {
            caller,
            call: CacheCall::GiveUp,
            reply: CacheReply::Given,
        });
        CacheReply::Given
    }

    fn evict(&mut self, caller: u32) -> CacheReply
        ensures answered { CacheStep (run self.old.capacity self.old.log) caller Evict result }
        ensures kept { Serves self.old self.new caller Evict result }
    {
        if self.log.reserve(self.claims.len() + 1).is_err() {
            return CacheReply::OutOfMemory;
        }
        let count = self.chunks.len() as u32;
        self.chunks.truncate(0);
        self.log.push_reserved(Entry {
            caller,
            call: CacheCall::Evict,
            reply: CacheReply::Evicted(count),
        });
        CacheReply::Evicted(count)
    }

    fn reap(&mut self, caller: u32) -> CacheReply
        ensures answered { CacheStep (run self.old.capacity self.old.log) caller Reap result }
        ensures kept { Serves self.old self.new caller Reap result }
    {
        let Some(at) = claim_at(self.claims.as_slice(), caller) else {
            return CacheReply::Nothing;
        };
        self.claims.remove(at);
        self.log.push_reserved(Entry {
            caller,
            call: CacheCall::Reap,
            reply: CacheReply::Reaped,
        });
        CacheReply::Reaped
    }

    // A call of a caller that has no claim for it.
    fn refuse(&mut self, caller: u32, call: CacheCall) -> CacheReply
        requires { Refuses (run self.old.capacity self.old.log) caller call }
        ensures answered { CacheStep (run self.old.capacity self.old.log) caller call result }
        ensures kept { Serves self.old self.new caller call result }
    {
        if self.log.reserve(self.claims.len() + 1).is_err() {
            return CacheReply::OutOfMemory;
        }
        self.log.push_reserved(Entry {
            caller,
            call,
            reply: CacheReply::NoClaim,
        });
        CacheReply::NoClaim
    }
}

impl Object for Cache {
    ghost use Rattle.lr_cache.specs.Machine.{run, is_logged, CacheStep, Enters};

    type Call = CacheCall;

    type Noted = CacheCall;

    type Reply = CacheReply;

    type Told = CacheReply;

    type Fixed = u32;

    ghost log = { λ s. s.log };

    ghost fixed = { λ s. s.capacity };

    ghost unchanged = { λ old new. new ≡ old };

    ghost may = { λ _. Unit {0} };

    ghost opens = { λ _. Unit {0} };

    ghost shares = { λ _. Unit {0} };

    ghost logged = { is_logged };

    ghost answers = { λ capacity log caller call reply. CacheStep (run capacity log) caller call reply };

    ghost enters = { λ _ _ _ call reply e. Enters call reply e };

    fn apply(&mut self, _alloc: Global, caller: u32, call: CacheCall) -> CacheReply {
        match call {
            CacheCall::Look { name } => self.look(caller, name),
            CacheCall::Fill { chunk } => self.fill(caller, chunk),
            CacheCall::GiveUp => self.give_up(caller),
            CacheCall::Evict => self.evict(caller),
            CacheCall::Reap => self.reap(caller),
        }
    }

    fn entries(&self) -> u64 {
        self.log.len() as u64
    }

    fn entry(&self, at: u64) -> Option<&Entry<CacheCall, CacheReply>> {
        self.log.get(at as usize)
    }
}
