//! Each kind of job, with each of its calls finding no memory in turn.
use crate::drive::{CREATE, Ended, ROTATE, add_lines, end_of, script_of};
use crate::jobs::failing;
use crate::short::trail_of;
use lr_actors::Trail;
use lr_origin::MemOrigin;
use std::alloc::Global;
use std::test::Fail;

const MEMORY: Ended = ("memory", 0);

// A kind of job, written twice.
struct Row {
    name: &'static str,
    // The first put of the second root fails without effect.
    fails: bool,
    // The lines before the two jobs, and how many steps they make.
    before: &'static [&'static str],
    begins: u32,
    jobs: [&'static str; 2],
    // How the two end where each call finds memory, and how many steps all lines make then.
    ends: (Ended, Ended),
    steps: u32,
    // For each call at which the first finds no memory, in their order, how the second then ends.
    short: &'static [Ended],
    // At how many calls the second finds no memory.
    later: usize,
}

// A read of a chunk that is nowhere yet makes 15 steps: the plan, the look into the cache, five stripes that are asked for, the fetch,
// five stripes that are put, the chunk that is put into the cache, and the commit. Where a node finds no memory, or the cache none for
// the chunk, it goes on.
const READS: &[Row] = &[Row {
    name: "read",
    fails: false,
    before: &[],
    begins: 0,
    jobs: ["read d 0 512", "read d 0 512"],
    ends: (("done", 0), ("done", 0)),
    steps: 18,
    short: &[("done", 0), ("done", 0), ("done", 0)],
    later: 2,
}];

// The second one needs no chunk, as the page is the device's own by then.
const WRITES: &[Row] = &[Row {
    name: "write",
    fails: false,
    before: &[],
    begins: 0,
    jobs: ["write d 512 512x7a", "write d 512 512x7a"],
    ends: (("done", 0), ("done", 0)),
    steps: 17,
    short: &[("done", 0), ("done", 0), ("done", 0)],
    later: 1,
}];

const ZEROS: &[Row] = &[Row {
    name: "zero",
    fails: false,
    before: &[],
    begins: 0,
    jobs: ["zero d 512 512", "zero d 512 512"],
    ends: (("done", 0), ("done", 0)),
    steps: 17,
    short: &[("done", 0), ("done", 0), ("done", 0)],
    later: 1,
}];

// Four stripes are found, so that the depot isn't asked. Where a node finds no memory, the fifth stands in.
const REBUILT: &[Row] = &[Row {
    name: "read of a chunk that is rebuilt",
    fails: false,
    before: &["read d 0 512", "evict h"],
    begins: 16,
    jobs: ["read d 0 512", "read d 0 512"],
    ends: (("done", 0), ("done", 0)),
    steps: 27,
    short: &[("done", 0), ("done", 0)],
    later: 2,
}];

const IMAGES: &[Row] = &[
    Row {
        name: "create",
        fails: false,
        before: &[],
        begins: 0,
        jobs: [CREATE, CREATE],
        ends: (("created", 1), ("taken", 0)),
        steps: 4,
        short: &[("created", 1), ("created", 1), ("created", 1)],
        later: 1,
    },
    Row {
        name: "migrate",
        fails: false,
        before: &[ROTATE],
        begins: 1,
        jobs: ["migrate a", "migrate a"],
        ends: (("moved", 2), ("not retired home", 2)),
        steps: 6,
        short: &[("moved", 2), ("moved", 2), ("moved", 2), ("moved", 2)],
        later: 1,
    },
    Row {
        name: "withdraw",
        fails: false,
        before: &[],
        begins: 0,
        jobs: ["withdraw a", "withdraw a"],
        ends: (("withdrawn", 0), ("no image", 0)),
        steps: 2,
        short: &[("withdrawn", 0)],
        later: 1,
    },
];

const ROOTS: &[Row] = &[
    Row {
        name: "rotate",
        fails: false,
        before: &[],
        begins: 0,
        jobs: [ROTATE, ROTATE],
        ends: (("root", 2), ("root", 3)),
        steps: 2,
        short: &[("root", 2)],
        later: 1,
    },
    Row {
        name: "expire",
        fails: false,
        before: &[ROTATE, "migrate a"],
        begins: 5,
        jobs: ["expire 1", "expire 1"],
        ends: (("expired", 0), ("not retired", 0)),
        steps: 7,
        short: &[("expired", 0)],
        later: 1,
    },
    Row {
        name: "delete",
        fails: false,
        before: &[ROTATE, "migrate a", "expire 1"],
        begins: 6,
        jobs: ["delete 1", "delete 1"],
        ends: (("deleted", 0), ("not expired", 0)),
        steps: 8,
        short: &[("deleted", 0)],
        later: 1,
    },
    Row {
        name: "sweep",
        fails: false,
        before: &[ROTATE, "migrate a", "expire 1", "delete 1"],
        begins: 7,
        jobs: ["sweep 1", "sweep 1"],
        ends: (("swept", 2), ("swept", 0)),
        steps: 11,
        short: &[("swept", 2), ("swept", 1), ("swept", 0)],
        later: 1,
    },
];

const SETTLING: &[Row] = &[Row {
    name: "settle",
    fails: true,
    before: &[ROTATE],
    begins: 1,
    jobs: ["settle r/0000000002/a", "settle r/0000000002/a"],
    ends: (("absent", 0), ("no doubt", 0)),
    steps: 3,
    short: &[("absent", 0)],
    later: 1,
}];

const DAMAGE: &[Row] = &[
    Row {
        name: "drop",
        fails: false,
        before: &["read d 0 512"],
        begins: 15,
        jobs: ["drop 0 d 0", "drop 0 d 0"],
        ends: (("dropped", 0), ("no stripe", 0)),
        steps: 17,
        short: &[("dropped", 0)],
        later: 1,
    },
    Row {
        name: "flip",
        fails: false,
        before: &["read d 0 512"],
        begins: 15,
        jobs: ["flip 0 d 0 0", "flip 0 d 0 0"],
        ends: (("flipped", 0), ("flipped", 0)),
        steps: 17,
        short: &[("flipped", 0)],
        later: 1,
    },
    Row {
        name: "lose",
        fails: false,
        before: &["read d 0 512"],
        begins: 15,
        jobs: ["lose 0", "lose 0"],
        ends: (("lost", 1), ("lost", 0)),
        steps: 17,
        short: &[("lost", 1)],
        later: 1,
    },
    Row {
        name: "evict",
        fails: false,
        before: &["read d 0 512"],
        begins: 15,
        jobs: ["evict h", "evict h"],
        ends: (("evicted", 1), ("evicted", 0)),
        steps: 17,
        short: &[("evicted", 1)],
        later: 1,
    },
];

// All five stripes are put, also where a node finds no memory for one.
const FORGE: &[Row] = &[Row {
    name: "forge",
    fails: false,
    before: &[],
    begins: 0,
    jobs: ["forge d 0", "forge d 0"],
    ends: (("forged", 0), ("forged", 0)),
    steps: 10,
    short: &[
        ("forged", 0),
        ("forged", 0),
        ("forged", 0),
        ("forged", 0),
        ("forged", 0),
    ],
    later: 5,
}];

// What the two jobs ended with, and how many steps were made.
type Came = (Ended, Ended, u64);

fn came_of(trail: &Trail) -> Came {
    let mut ends = trail.results.iter().rev().map(|job| end_of(&job.answer));
    let second = ends.next().unwrap_or(("no result", 0));
    let first = ends.next().unwrap_or(("no result", 0));
    (first, second, trail.steps)
}

// The store of a row.
fn store_of(alloc: Global, row: &Row) -> Result<MemOrigin, Fail> {
    if row.fails {
        failing(alloc, false)
    } else {
        Ok(MemOrigin::new(alloc))
    }
}

// What the row's two jobs come to where the call after so many steps finds no memory.
fn came(alloc: Global, row: &Row, steps: u32) -> Result<Came, Fail> {
    let mut text = script_of(alloc, row.before)?;
    add_lines(&mut text, &row.jobs)?;
    let trail = trail_of(alloc, store_of(alloc, row)?, &text, steps)?;
    Ok(came_of(&trail))
}

// .. for each call of the two jobs, and last where each finds memory.
fn all_came(alloc: Global, row: &Row) -> Result<Vec<Came>, Fail> {
    let mut all = Vec::new(alloc);
    for steps in row.begins..=row.steps {
        all.push(came(alloc, row, steps)?)?;
    }
    Ok(all)
}

// Whether one of the two found no memory, or they ended as the row says.
fn is_one(row: &Row, came: &Came) -> bool {
    came.0 == MEMORY || (came.0 == row.ends.0 && (came.1 == MEMORY || came.1 == row.ends.1))
}

// How the second ended, each time that the first found no memory.
fn shorts(alloc: Global, all: &[Came]) -> Result<Vec<Ended>, Fail> {
    let mut ends = Vec::new(alloc);
    for came in all {
        if came.0 == MEMORY {
            ends.push(came.1)?;
        }
    }
    Ok(ends)
}

// How often the second found no memory after the first was done.
fn laters(all: &[Came]) -> usize {
    all.iter()
        .filter(|came| came.0 != MEMORY && came.1 == MEMORY)
        .count()
}

// Whether in each run one of the two found no memory, or they ended as the row says.
fn are_ones(row: &Row, all: &[Came]) -> bool {
    for came in all {
        if !is_one(row, came) {
            return false;
        }
    }
    true
}

// Whether the last run is that in which each call finds memory.
fn is_last_plain(row: &Row, all: &[Came]) -> bool {
    match all.last() {
        Some(came) => {
            came.0 == row.ends.0 && came.1 == row.ends.1 && came.2 == u64::from(row.steps)
        }
        None => false,
    }
}

// Whether the second ended so, each time that the first found no memory.
fn are_short(alloc: Global, short: &[Ended], all: &[Came]) -> Result<bool, Fail> {
    let ends = shorts(alloc, all)?;
    Ok(ends.as_slice() == short)
}

// Whether the two jobs come to what the row says.
fn holds(alloc: Global, row: &Row) -> Result<bool, Fail> {
    let all = all_came(alloc, row)?;
    if !are_ones(row, &all) || !is_last_plain(row, &all) || laters(&all) != row.later {
        return Ok(false);
    }
    are_short(alloc, row.short, &all)
}

// The first row that doesn't hold.
fn first_wrong(alloc: Global, rows: &'static [Row]) -> Result<Option<&'static str>, Fail> {
    for row in rows {
        if !holds(alloc, row)? {
            return Ok(Some(row.name));
        }
    }
    Ok(None)
}

#[test]
fn reads(rt: HostRuntime) -> Result<(), Fail> {
    assert_eq!(rt; first_wrong(rt.alloc(), READS)?, None);
    Ok(())
}

#[test]
fn writes(rt: HostRuntime) -> Result<(), Fail> {
    assert_eq!(rt; first_wrong(rt.alloc(), WRITES)?, None);
    Ok(())
}

#[test]
fn zeros(rt: HostRuntime) -> Result<(), Fail> {
    assert_eq!(rt; first_wrong(rt.alloc(), ZEROS)?, None);
    Ok(())
}

#[test]
fn reads_of_a_rebuilt_chunk(rt: HostRuntime) -> Result<(), Fail> {
    assert_eq!(rt; first_wrong(rt.alloc(), REBUILT)?, None);
    Ok(())
}

#[test]
fn images(rt: HostRuntime) -> Result<(), Fail> {
    assert_eq!(rt; first_wrong(rt.alloc(), IMAGES)?, None);
    Ok(())
}

#[test]
fn roots(rt: HostRuntime) -> Result<(), Fail> {
    assert_eq!(rt; first_wrong(rt.alloc(), ROOTS)?, None);
    Ok(())
}

#[test]
fn settling(rt: HostRuntime) -> Result<(), Fail> {
    assert_eq!(rt; first_wrong(rt.alloc(), SETTLING)?, None);
    Ok(())
}

#[test]
fn damage_and_evictions(rt: HostRuntime) -> Result<(), Fail> {
    assert_eq!(rt; first_wrong(rt.alloc(), DAMAGE)?, None);
    Ok(())
}

#[test]
fn forging(rt: HostRuntime) -> Result<(), Fail> {
    assert_eq!(rt; first_wrong(rt.alloc(), FORGE)?, None);
    Ok(())
}
