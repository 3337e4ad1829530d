//! Calls of cache nodes: of a bare one, and of shared ones by threads that take turns.
ghost use Rattle.std.specs.Prelude.{ℕ, ◌≡◌, ◌<◌, All, IfOk};
ghost use Rattle.lr_nodes.specs.Machine.{May};
ghost use Rattle.lr_bench.specs.Seats.{Leads, Sits};

use crate::error::BenchError;
use crate::task::{Timed, Work, Worked};
use lr_manifest::Name;
use lr_nodes::{Node, NodeCall};
use lr_object::Object;
use lr_turn::{Pass, Shared};
use std::alloc::Global;
use std::sync::Wait;
use std::thread;
use std::thread::Threads;
use std::time::Instant;

// The call that is timed. A node that holds nothing answers at once, and its log keeps the call.
fn get() -> NodeCall
    ensures { May result }
{
    NodeCall::Get {
        name: Name { bytes: [7; 32] },
        index: 0,
    }
}

/// So many calls of a node that nobody shares.
#[derive(Drop)]
pub struct Calling {
    node: Node,
    times: usize,
}

impl Work for Calling {
    fn prepare(alloc: Global, size: usize) -> Result<Self, BenchError> {
        Ok(Calling {
            node: Node::new(alloc, 1)?,
            times: size,
        })
    }

    fn work(&mut self, alloc: Global) -> Result<Worked, BenchError> {
        for _ in 0..self.times {
            let _ = self.node.apply(alloc, 1, get());
        }
        Ok(Worked {
            bytes: self.times,
            made: self.node.entries(),
        })
    }
}

// A shared node with its first pass.
fn share(alloc: Global) -> Result<(Shared<Node>, Pass<Node>), BenchError>
    ensures { IfOk result (λ t. (t.1.place.table_id ≡ t.0.table.shared.table_id) × (t.1.number ≡ 0) × (t.1.place.me.0.top ≡ 0)) }
{
    let node = Node::new(alloc, 1)?;
    match Shared::new(alloc, node) {
        Ok(both) => Ok(both),
        Err(_) => Err(BenchError::OutOfMemory),
    }
}

// So many calls through a pass.
fn call_times<R: Wait>(
    rt: &R,
    alloc: Global,
    shared: &Shared<Node>,
    pass: &mut Pass<Node>,
    times: usize,
)
    requires { pass.old.place.table_id ≡ shared.now.table.shared.table_id }
    ensures { pass.new.place.table_id ≡ pass.old.place.table_id }
{
    for _ in 0..times {
        let _ = shared.call(rt, alloc, pass, get());
    }
}

// Four passes on a node, in so many threads, each with so many calls.
fn call_all<R: Threads + Wait + Sync>(
    rt: &R,
    alloc: Global,
    shared: &Shared<Node>,
    passes: &mut [Pass<Node>],
    threads: usize,
    times: usize,
)
    requires { All (λ x. x.place.table_id ≡ shared.now.table.shared.table_id) passes.old }
{
    if threads == 0 {
        return;
    }
    thread::for_each_mut(
        rt,
        passes,
        threads,
        &|_: usize, x: &mut Pass<Node>|
            requires { x.old.place.table_id ≡ shared.now.table.shared.table_id }
        {
            call_times(rt, alloc, shared, x, times);
        },
    );
}

/// So many calls of one shared node by so many threads, and how long they took.
pub fn call_one<T: Threads + Wait + Sync>(
    rt: &HostRuntime,
    threads: &T,
    count: usize,
    times: usize,
) -> Result<Timed, BenchError> {
    let (shared, mut first) = share(rt.alloc())?;
    let one = shared.split(&mut first, 1);
    let two = shared.split(&mut first, 2);
    let three = shared.split(&mut first, 3);
    let four = shared.split(&mut first, 4);
    let mut passes = [one, two, three, four];
    let start = Instant::now(rt)?;
    call_all(threads, rt.alloc(), &shared, &mut passes, count, times / 4);
    let time = start.elapsed(rt)?;
    Ok(Timed {
        bytes: times,
        made: shared.count(&mut first),
        seconds: time.as_secs_f64(),
    })
}

// Four shared nodes.
#[derive(Drop)]
struct Nodes {
    a: Shared<Node>,
    b: Shared<Node>,
    c: Shared<Node>,
    d: Shared<Node>,
}

// A pass on each of four nodes.
#[derive(Drop)]
struct Passes {
    a: Pass<Node>,
    b: Pass<Node>,
    c: Pass<Node>,
    d: Pass<Node>,
}

// Four shared nodes with their first passes.
fn share_four(alloc: Global) -> Result<(Nodes, Passes), BenchError>
    ensures { IfOk result (λ t. Leads t.0 0 t.1) }
{
    let (a, first_a) = share(alloc)?;
    let (b, first_b) = share(alloc)?;
    let (c, first_c) = share(alloc)?;
    let (d, first_d) = share(alloc)?;
    let firsts = Passes {
        a: first_a,
        b: first_b,
        c: first_c,
        d: first_d,
    };
    Ok((Nodes { a, b, c, d }, firsts))
}

impl Nodes {
    // Passes of one more number.
    fn split(&self, firsts: &mut Passes, number: u32) -> Passes
        requires { (n : ℕ) × (n < number) × Leads self.now n firsts.old }
        ensures firsts { Leads self.now number firsts.new }
        ensures new { Sits self.now result }
    {
        Passes {
            a: self.a.split(&mut firsts.a, number),
            b: self.b.split(&mut firsts.b, number),
            c: self.c.split(&mut firsts.c, number),
            d: self.d.split(&mut firsts.d, number),
        }
    }

    // A call of each node.
    fn call_each<R: Wait>(&self, rt: &R, alloc: Global, passes: &mut Passes)
        requires { Sits self.now passes.old }
        ensures { Sits self.now passes.new }
    {
        let _ = self.a.call(rt, alloc, &mut passes.a, get());
        let _ = self.b.call(rt, alloc, &mut passes.b, get());
        let _ = self.c.call(rt, alloc, &mut passes.c, get());
        let _ = self.d.call(rt, alloc, &mut passes.d, get());
    }

    // So many calls of each node.
    fn call_times<R: Wait>(&self, rt: &R, alloc: Global, passes: &mut Passes, times: usize)
        requires { Sits self.now passes.old }
        ensures { Sits self.now passes.new }
    {
        for _ in 0..times {
            self.call_each(rt, alloc, passes);
        }
    }

    // How many entries the nodes have in all.
    fn entries(&self, passes: &mut Passes) -> u64
        requires { Sits self.now passes.old }
    {
        let a = self.a.count(&mut passes.a);
        let b = self.b.count(&mut passes.b);
        let c = self.c.count(&mut passes.c);
        let d = self.d.count(&mut passes.d);
        a.saturating_add(b).saturating_add(c).saturating_add(d)
    }
}

// So many calls of each node by each of these passes, in so many threads.
fn call_across<R: Threads + Wait + Sync>(
    rt: &R,
    alloc: Global,
    nodes: &Nodes,
    passes: &mut [Passes],
    threads: usize,
    times: usize,
)
    requires { All (Sits nodes.now) passes.old }
{
    if threads == 0 {
        return;
    }
    thread::for_each_mut(
        rt,
        passes,
        threads,
        &|_: usize, x: &mut Passes|
            requires { Sits nodes.now x.old }
        {
            nodes.call_times(rt, alloc, x, times);
        },
    );
}

/// So many calls of four shared nodes by so many threads, and how long they took.
pub fn call_four<T: Threads + Wait + Sync>(
    rt: &HostRuntime,
    threads: &T,
    count: usize,
    times: usize,
) -> Result<Timed, BenchError> {
    let (nodes, mut firsts) = share_four(rt.alloc())?;
    let one = nodes.split(&mut firsts, 1);
    let two = nodes.split(&mut firsts, 2);
    let three = nodes.split(&mut firsts, 3);
    let four = nodes.split(&mut firsts, 4);
    let mut passes = [one, two, three, four];
    let start = Instant::now(rt)?;
    call_across(threads, rt.alloc(), &nodes, &mut passes, count, times / 16);
    let time = start.elapsed(rt)?;
    Ok(Timed {
        bytes: times,
        made: nodes.entries(&mut firsts),
        seconds: time.as_secs_f64(),
    })
}
