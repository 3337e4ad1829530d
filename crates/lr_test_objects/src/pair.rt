//! Two threads on one cache.
ghost use Rattle.std.specs.Prelude.{ℕ, ◌≡◌, ◌<◌, [], ◌∷◌, length, All, slice_index_or, IfSome};
ghost use Rattle.lr_test_objects.specs.Lists.{AreOwn};

use crate::finish::{Ended, finish_two, share};
use lr_cache::{Cache, CacheCall};
use lr_manifest::Name;
use lr_turn::{Pass, Shared};
use std::alloc::Global;
use std::sync::Wait;
use std::thread;
use std::thread::Threads;

/// A caller of a cache, with the name that it looks up.
#[derive(Drop)]
pub struct Caller {
    pub pass: Pass<Cache>,
    pub name: Name,
}

// Looks a chunk up, and gives the claim up.
pub(crate) fn turn<R: Wait>(
    rt: &R,
    alloc: Global,
    shared: &Shared<Cache>,
    pass: &mut Pass<Cache>,
    name: Name,
)
    requires { pass.old.place.table_id ≡ shared.now.table.shared.table_id }
    ensures { (pass.new.place.table_id ≡ pass.old.place.table_id) × (pass.new.number ≡ pass.old.number) }
{
    let _ = shared.call(rt, alloc, pass, CacheCall::Look { name });
    let _ = shared.call(rt, alloc, pass, CacheCall::GiveUp);
}

impl Caller {
    // The same so many times.
    fn turns<R: Wait>(&mut self, rt: &R, alloc: Global, shared: &Shared<Cache>, times: u32)
        requires { self.old.pass.place.table_id ≡ shared.now.table.shared.table_id }
        ensures { (self.new.pass.place.table_id ≡ self.old.pass.place.table_id) × (self.new.pass.number ≡ self.old.pass.number) }
    {
        for _ in 0..times {
            turn(rt, alloc, shared, &mut self.pass, self.name);
        }
    }
}

// Each caller in a thread of its own, where one can be had.
fn turn_all<R: Threads + Wait + Sync>(
    rt: &R,
    alloc: Global,
    shared: &Shared<Cache>,
    callers: &mut [Caller],
    times: u32,
)
    requires { All (λ x. x.pass.place.table_id ≡ shared.now.table.shared.table_id) callers.old }
    ensures len { length callers.new ≡ length callers.old }
    ensures own { All (λ x. x.pass.place.table_id ≡ shared.now.table.shared.table_id) callers.new }
    ensures number { (i : ℕ) (d : Caller) → i < length callers.old → (slice_index_or callers.new i d).pass.number ≡ (slice_index_or callers.old i d).pass.number }
{
    let threads = callers.len();
    if threads == 0 {
        return;
    }
    thread::for_each_mut(
        rt,
        callers,
        threads,
        &|_: usize, x: &mut Caller|
            requires { x.old.pass.place.table_id ≡ shared.now.table.shared.table_id }
            ensures own { x.new.pass.place.table_id ≡ shared.entry.now.table.shared.table_id }
            ensures number { x.new.pass.number ≡ x.old.pass.number }
        {
            x.turns(rt, alloc, shared, times);
        },
    );
}

/// Two threads look chunks of these names up and give the claims up, each so many times. Each list is then that of the
/// entries of its number.
pub fn look_in_pairs<R: Threads + Wait + Sync>(
    rt: &R,
    alloc: Global,
    cache: Cache,
    names: (Name, Name),
    times: u32,
) -> Option<Ended>
    requires { cache.log ≡ [] }
    ensures { IfSome result (λ e. AreOwn (0 ∷ 1 ∷ 2 ∷ []) e.cache.log e.lists) }
{
    let (shared, mut first) = share(alloc, cache)?;
    let one = Caller {
        pass: shared.split(&mut first, 1),
        name: names.0,
    };
    let two = Caller {
        pass: shared.split(&mut first, 2),
        name: names.1,
    };
    let mut callers = [one, two];
    turn_all(rt, alloc, &shared, &mut callers, times);
    let [one, two] = callers;
    let Caller { pass: one, .. } = one;
    let Caller { pass: two, .. } = two;
    Some(finish_two(shared, first, one, two))
}
