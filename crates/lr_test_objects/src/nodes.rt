//! A node's list after each call, and where stripes stand.
ghost use Rattle.std.specs.Prelude.{IfOk};
ghost use Rattle.lr_nodes.specs.Machine.{May};

use crate::tally::serve;
use lr_manifest::Name;
use lr_nodes::{Node, NodeCall, NodeReply, place};
use lr_object::Object;
use lr_spec::OutOfMemory;
use lr_stripe::{Stripe, StripeBytes};
use std::alloc::Global;
use std::sync::Arc;
use std::test::Fail;

const NAME: Name = Name { bytes: [7; 32] };

// A call on the stripe of an index.
#[derive(Clone, Copy)]
enum Step {
    // With this byte twice.
    Put(u8, u8),
    Get(u8),
    Drop(u8),
    Flip(u8, u8),
    Lose,
}

// A call, the kind of its reply, and the index and the first byte of each stripe that is held then, the most recent one first.
type Row = (Step, &'static str, &'static [(u8, u8)]);

const ROWS: &[Row] = &[
    (Step::Get(0), "absent", &[]),
    (Step::Put(0, 10), "kept", &[(0, 10)]),
    (Step::Put(1, 11), "kept", &[(1, 11), (0, 10)]),
    (Step::Put(2, 12), "kept", &[(2, 12), (1, 11), (0, 10)]),
    (Step::Get(0), "found", &[(0, 10), (2, 12), (1, 11)]),
    (Step::Get(4), "absent", &[(0, 10), (2, 12), (1, 11)]),
    // In place of the stripe of its index: none is dropped.
    (Step::Put(1, 21), "kept", &[(1, 21), (0, 10), (2, 12)]),
    // The last one is dropped.
    (Step::Put(3, 13), "kept", &[(3, 13), (1, 21), (0, 10)]),
    (Step::Flip(1, 0), "flipped", &[(3, 13), (1, 20), (0, 10)]),
    (Step::Flip(1, 1), "flipped", &[(3, 13), (1, 20), (0, 10)]),
    (Step::Flip(1, 2), "flipped", &[(3, 13), (1, 20), (0, 10)]),
    (Step::Flip(2, 0), "absent", &[(3, 13), (1, 20), (0, 10)]),
    (Step::Drop(1), "dropped", &[(3, 13), (0, 10)]),
    (Step::Drop(1), "absent", &[(3, 13), (0, 10)]),
    (Step::Lose, "lost 2", &[]),
    (Step::Get(3), "absent", &[]),
];

// Stripes of other indices, which push those of the rows out, the least recent one first.
const OTHERS: &[u8] = &[200, 201, 202];

fn stripe_of(alloc: Global, index: u8, byte: u8) -> Result<Arc<Stripe>, OutOfMemory> {
    let stripe = Stripe {
        name: NAME,
        index,
        bytes: StripeBytes::of(vec![in alloc; byte, byte]?),
        digest: [0; 32],
    };
    Ok(Arc::new(alloc, stripe)?)
}

fn call_of(alloc: Global, step: Step) -> Result<NodeCall, OutOfMemory>
    ensures { IfOk result May }
{
    Ok(match step {
        Step::Put(index, byte) => NodeCall::Put {
            stripe: stripe_of(alloc, index, byte)?,
        },
        Step::Get(index) => NodeCall::Get { name: NAME, index },
        Step::Drop(index) => NodeCall::Drop { name: NAME, index },
        Step::Flip(index, at) => NodeCall::Flip {
            name: NAME,
            index,
            at: u32::from(at),
        },
        Step::Lose => NodeCall::Lose,
    })
}

fn make(alloc: Global, node: &mut Node, step: Step) -> Result<NodeReply, OutOfMemory> {
    let call = call_of(alloc, step)?;
    Ok(serve(alloc, node, 1, call))
}

fn kind_of(reply: &NodeReply) -> &'static str {
    match reply {
        NodeReply::Found(_) => "found",
        NodeReply::Absent => "absent",
        NodeReply::Kept => "kept",
        NodeReply::Dropped => "dropped",
        NodeReply::Flipped => "flipped",
        NodeReply::Lost(2) => "lost 2",
        NodeReply::Lost(_) => "lost",
        NodeReply::OutOfMemory => "memory",
    }
}

// The first byte of the stripe of an index, where the node has it.
fn byte_at(alloc: Global, node: &mut Node, index: u8) -> Result<Option<u8>, OutOfMemory> {
    match make(alloc, node, Step::Get(index))? {
        NodeReply::Found(stripe) => Ok(stripe.bytes.as_slice().first().copied()),
        _ => Ok(None),
    }
}

// Whether the node has just the first so many of these stripes, of the indices of the rows.
fn has_first(
    alloc: Global,
    node: &mut Node,
    held: &[(u8, u8)],
    count: usize,
) -> Result<bool, OutOfMemory> {
    for index in 0..5u8 {
        let listed = held.iter().take(count).find(|stripe| stripe.0 == index);
        if byte_at(alloc, node, index)? != listed.map(|stripe| stripe.1) {
            return Ok(false);
        }
    }
    Ok(true)
}

// A node of three stripes, and the kind of its last reply, after the rows' calls and then puts of so many others.
fn node_after(
    alloc: Global,
    rows: &[Row],
    others: usize,
) -> Result<(Node, &'static str), OutOfMemory> {
    let mut node = Node::new(alloc, 3)?;
    let mut kind = "none";
    for row in rows {
        kind = kind_of(&make(alloc, &mut node, row.0)?);
    }
    for other in OTHERS.iter().take(others) {
        make(alloc, &mut node, Step::Put(*other, 0))?;
    }
    Ok((node, kind))
}

// Whether the last of the rows' calls has its reply and leaves its list. Each stripe more that is put pushes the last one out.
fn ends_so(
    alloc: Global,
    rows: &[Row],
    kind: &str,
    held: &[(u8, u8)],
) -> Result<bool, OutOfMemory> {
    for others in 0..=3usize {
        let (mut node, last) = node_after(alloc, rows, others)?;
        if last != kind || !has_first(alloc, &mut node, held, 3 - others)? {
            return Ok(false);
        }
    }
    Ok(true)
}

#[test]
fn each_call_leaves_its_list(rt: HostRuntime) -> Result<(), Fail> {
    let alloc = rt.alloc();
    for (at, row) in ROWS.iter().enumerate() {
        let (rows, _) = ROWS.split_at(at + 1);
        assert!(rt; ends_so(alloc, rows, row.1, row.2)?, "call {at}");
    }
    Ok(())
}

#[test]
fn a_node_logs_each_call(rt: HostRuntime) -> Result<(), Fail> {
    let (node, _) = node_after(rt.alloc(), ROWS, 0)?;
    assert_eq!(rt; node.entries(), 16);
    assert!(rt; node.entry(15).is_some() && node.entry(16).is_none());
    Ok(())
}

// Whether of 256 stripes and so many more the node has the most recent 200.
fn has_most_recent(alloc: Global, more: u8) -> Result<bool, OutOfMemory> {
    let mut node = Node::new(alloc, 200)?;
    for index in 0..=255u8 {
        make(alloc, &mut node, Step::Put(index, index))?;
    }
    for index in 0..more {
        make(alloc, &mut node, Step::Put(index, index))?;
    }
    for index in 0..=255u8 {
        let recent = index < more || index - more >= 56;
        if byte_at(alloc, &mut node, index)? != recent.then_some(index) {
            return Ok(false);
        }
    }
    Ok(true)
}

#[test]
fn a_full_node_keeps_the_most_recent_stripes(rt: HostRuntime) -> Result<(), Fail> {
    for more in [0u8, 1, 199] {
        assert!(rt; has_most_recent(rt.alloc(), more)?, "{more} more");
    }
    Ok(())
}

#[test]
fn the_stripes_of_a_chunk_stand_side_by_side(rt: HostRuntime) {
    let zeros = Name { bytes: [0; 32] };
    let mut other = zeros;
    other.bytes[0] = 1;
    other.bytes[1] = 2;
    for (name, index, nodes, node) in [
        (zeros, 0u8, 5u32, 0u32),
        (zeros, 4, 5, 4),
        (zeros, 7, 5, 2),
        (other, 0, 5, 3),
        (other, 1, 5, 4),
        (other, 4, 5, 2),
        (other, 0, 7, 6),
        (other, 4, 7, 3),
        (NAME, 0, 5, 4),
    ] {
        assert!(rt; nodes > 0);
        assert_eq!(rt; place(&name, index, nodes), node);
    }
}
