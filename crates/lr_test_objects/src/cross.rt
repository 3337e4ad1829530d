//! Four threads that call four caches in crossing order.
ghost use Rattle.std.specs.Prelude.{ℕ, ◌≡◌, ◌<◌, length, All, slice_index_or, IfSome};
ghost use Rattle.lr_test_objects.specs.Seats.{Sits, Leads, SameSeats};

use crate::finish::share;
use crate::pair::turn;
use lr_cache::Cache;
use lr_manifest::Name;
use lr_turn::{Pass, Shared};
use std::alloc::Global;
use std::sync::Wait;
use std::thread;
use std::thread::Threads;

/// Four shared caches.
#[derive(Drop)]
pub struct Four {
    pub a: Shared<Cache>,
    pub b: Shared<Cache>,
    pub c: Shared<Cache>,
    pub d: Shared<Cache>,
}

/// A caller with a pass on each of four caches, and the name that it looks up.
#[derive(Drop)]
pub struct Runner {
    pub a: Pass<Cache>,
    pub b: Pass<Cache>,
    pub c: Pass<Cache>,
    pub d: Pass<Cache>,
    pub name: Name,
    /// Whether it begins with the first cache, or with the last.
    pub forward: bool,
}

impl Runner {
    // One turn on each cache, in its order.
    fn round<R: Wait>(&mut self, rt: &R, alloc: Global, four: &Four)
        requires { Sits four.now self.old }
        ensures { SameSeats self.old self.new }
    {
        let Runner {
            a,
            b,
            c,
            d,
            name,
            forward,
        } = self;
        if *forward {
            turn(rt, alloc, &four.a, a, *name);
            turn(rt, alloc, &four.b, b, *name);
            turn(rt, alloc, &four.c, c, *name);
            turn(rt, alloc, &four.d, d, *name);
            return;
        }
        turn(rt, alloc, &four.d, d, *name);
        turn(rt, alloc, &four.c, c, *name);
        turn(rt, alloc, &four.b, b, *name);
        turn(rt, alloc, &four.a, a, *name);
    }

    // So many rounds.
    fn rounds<R: Wait>(&mut self, rt: &R, alloc: Global, four: &Four, times: u32)
        requires { Sits four.now self.old }
        ensures { SameSeats self.old self.new }
    {
        for _ in 0..times {
            self.round(rt, alloc, four);
        }
    }
}

// Each runner in a thread of its own, where one can be had.
fn run_all<R: Threads + Wait + Sync>(
    rt: &R,
    alloc: Global,
    four: &Four,
    runners: &mut [Runner],
    times: u32,
)
    requires { All (Sits four.now) runners.old }
    ensures len { length runners.new ≡ length runners.old }
    ensures same { (i : ℕ) (d : Runner) → i < length runners.old → SameSeats (slice_index_or runners.old i d) (slice_index_or runners.new i d) }
{
    let threads = runners.len();
    if threads == 0 {
        return;
    }
    thread::for_each_mut(
        rt,
        runners,
        threads,
        &|_: usize, x: &mut Runner|
            requires { Sits four.now x.old }
            ensures { SameSeats x.old x.new }
        {
            x.rounds(rt, alloc, four, times);
        },
    );
}

/// The first passes of four caches.
#[derive(Drop)]
pub struct Firsts {
    pub a: Pass<Cache>,
    pub b: Pass<Cache>,
    pub c: Pass<Cache>,
    pub d: Pass<Cache>,
}

// Four shared caches with their first passes.
fn share_four(alloc: Global, caches: (Cache, Cache, Cache, Cache)) -> Option<(Four, Firsts)>
    ensures { IfSome result (λ t. Leads t.0 0 t.1) }
{
    let (a, first_a) = share(alloc, caches.0)?;
    let (b, first_b) = share(alloc, caches.1)?;
    let (c, first_c) = share(alloc, caches.2)?;
    let (d, first_d) = share(alloc, caches.3)?;
    let firsts = Firsts {
        a: first_a,
        b: first_b,
        c: first_c,
        d: first_d,
    };
    Some((Four { a, b, c, d }, firsts))
}

impl Four {
    // A caller of one more number.
    fn runner(&self, firsts: &mut Firsts, number: u32, name: Name, forward: bool) -> Runner
        requires { (n : ℕ) × (n < number) × Leads self.now n firsts.old }
        ensures firsts { Leads self.now number firsts.new }
        ensures runner { Sits self.now result }
    {
        Runner {
            a: self.a.split(&mut firsts.a, number),
            b: self.b.split(&mut firsts.b, number),
            c: self.c.split(&mut firsts.c, number),
            d: self.d.split(&mut firsts.d, number),
            name,
            forward,
        }
    }
}

/// Four threads make so many rounds over four caches, two of them from the first cache on and two from the last. The
/// number of entries of each cache.
pub fn look_across<R: Threads + Wait + Sync>(
    rt: &R,
    alloc: Global,
    caches: (Cache, Cache, Cache, Cache),
    names: (Name, Name, Name, Name),
    times: u32,
) -> Option<(u64, u64, u64, u64)> {
    let (all, mut firsts) = share_four(alloc, caches)?;
    let one = all.runner(&mut firsts, 1, names.0, true);
    let two = all.runner(&mut firsts, 2, names.1, false);
    let three = all.runner(&mut firsts, 3, names.2, true);
    let four = all.runner(&mut firsts, 4, names.3, false);
    let mut runners = [one, two, three, four];
    run_all(rt, alloc, &all, &mut runners, times);
    let a = all.a.count(&mut firsts.a);
    let b = all.b.count(&mut firsts.b);
    let c = all.c.count(&mut firsts.c);
    let d = all.d.count(&mut firsts.d);
    Some((a, b, c, d))
}
