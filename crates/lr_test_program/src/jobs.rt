//! Each kind of job, driven to its end.
use crate::drive::{CREATE, Ended, ROTATE, expect_nothing_out, played, results, script_of};
use crate::short_store::ShortOrigin;
use lr_origin::{Fail as FailsAt, MemOrigin, Op, Origin};
use lr_play::Performed;
use std::alloc::Global;
use std::test::Fail;

// The lines of an actor and of the after part, and how the jobs end.
type Row = (&'static str, &'static [&'static str], &'static [Ended]);

const ROWS: &[Row] = &[
    (
        "calls of a device",
        &[
            "read d 0 512",
            "write d 512 512x7a",
            "zero d 512 1024",
            "zero d 0 4096",
            "read d 8192 512",
        ],
        &[
            ("done", 0),
            ("done", 0),
            ("done", 0),
            ("done", 0),
            ("range", 0),
        ],
    ),
    (
        "damage and evictions",
        &[
            "drop 0 d 0",
            "read d 0 512",
            "drop 0 d 0",
            "drop 0 d 0",
            "flip 1 d 0 0",
            "flip 0 d 0 0",
            "forge d 0",
            "lose 0",
            "lose 0",
            "evict h",
            "evict h",
        ],
        &[
            ("no stripe", 0),
            ("done", 0),
            ("dropped", 0),
            ("no stripe", 0),
            ("flipped", 0),
            ("no stripe", 0),
            ("forged", 0),
            ("lost", 1),
            ("lost", 0),
            ("evicted", 1),
            ("evicted", 0),
        ],
    ),
    (
        "damage past the last chunk",
        &["drop 0 d 1", "flip 0 d 1 0", "forge d 1"],
        &[("no chunk", 0), ("no chunk", 0), ("no chunk", 0)],
    ),
    (
        "images and roots",
        &[
            CREATE,
            CREATE,
            "migrate a",
            ROTATE,
            "migrate a",
            "migrate b",
            "withdraw b",
            "delete 1",
            "expire 1",
            "sweep 1",
            "delete 1",
            "sweep 1",
            "settle r/0000000001/a",
            "after",
            "close d",
            "withdraw b",
            "expire 2",
        ],
        &[
            ("created", 1),
            ("taken", 0),
            ("not retired home", 1),
            ("root", 2),
            ("moved", 2),
            ("moved", 2),
            ("withdrawn", 0),
            ("not expired", 0),
            ("expired", 0),
            ("not deleted", 0),
            ("deleted", 0),
            ("swept", 4),
            ("no doubt", 0),
            ("closed", 0),
            ("no image", 0),
            ("not retired", 0),
        ],
    ),
    (
        "an eviction without damage",
        &["read d 0 512", "evict h", "read d 0 512"],
        &[("done", 0), ("evicted", 1), ("done", 0)],
    ),
    (
        "an eviction with stripe 0 dropped",
        &["read d 0 512", "drop 0 d 0", "evict h", "read d 0 512"],
        &[("done", 0), ("dropped", 0), ("evicted", 1), ("done", 0)],
    ),
    (
        "an eviction with stripe 1 dropped",
        &["read d 0 512", "drop 1 d 0", "evict h", "read d 0 512"],
        &[("done", 0), ("dropped", 0), ("evicted", 1), ("done", 0)],
    ),
    (
        "an eviction with stripe 2 dropped",
        &["read d 0 512", "drop 2 d 0", "evict h", "read d 0 512"],
        &[("done", 0), ("dropped", 0), ("evicted", 1), ("done", 0)],
    ),
    (
        "an eviction with stripe 3 dropped",
        &["read d 0 512", "drop 3 d 0", "evict h", "read d 0 512"],
        &[("done", 0), ("dropped", 0), ("evicted", 1), ("done", 0)],
    ),
    (
        "an eviction with stripe 4 dropped",
        &["read d 0 512", "drop 4 d 0", "evict h", "read d 0 512"],
        &[("done", 0), ("dropped", 0), ("evicted", 1), ("done", 0)],
    ),
    (
        "an eviction with a node lost",
        &["read d 0 512", "lose 0", "evict h", "read d 0 512"],
        &[("done", 0), ("lost", 1), ("evicted", 1), ("done", 0)],
    ),
    (
        "an eviction with two stripes dropped",
        &[
            "read d 0 512",
            "drop 0 d 0",
            "drop 1 d 0",
            "evict h",
            "read d 0 512",
        ],
        &[
            ("done", 0),
            ("dropped", 0),
            ("dropped", 0),
            ("evicted", 1),
            ("done", 0),
        ],
    ),
    (
        "an eviction with two stripes flipped",
        &[
            "read d 0 512",
            "flip 0 d 0 0",
            "flip 1 d 0 0",
            "evict h",
            "read d 0 512",
        ],
        &[
            ("done", 0),
            ("flipped", 0),
            ("flipped", 0),
            ("evicted", 1),
            ("done", 0),
        ],
    ),
    (
        "an eviction with all stripes forged",
        &["read d 0 512", "forge d 0", "evict h", "read d 0 512"],
        &[("done", 0), ("forged", 0), ("evicted", 1), ("done", 0)],
    ),
];

// Whether the play of these lines over a store ends its jobs so, and leaves nothing out.
fn ends_so<O: Origin + Drop>(
    alloc: Global,
    origin: O,
    lines: &[&str],
    ends: &[Ended],
) -> Result<bool, Fail> {
    let text = script_of(alloc, lines)?;
    let Performed { mut parts, trails } = played(alloc, origin, &text)?;
    expect_nothing_out(alloc, &mut parts, 2)?;
    let came = results(alloc, &trails)?;
    Ok(came.as_slice() == ends)
}

#[test]
fn each_kind_of_job(rt: HostRuntime) -> Result<(), Fail> {
    let alloc = rt.alloc();
    for (name, lines, ends) in ROWS {
        let holds = ends_so(alloc, MemOrigin::new(alloc), *lines, *ends)?;
        assert!(rt; holds, "{name}");
    }
    Ok(())
}

/// A store whose put of the second root fails, with or without its effect.
pub(crate) fn failing(alloc: Global, done: bool) -> Result<MemOrigin, Fail> {
    let mut fails = Vec::new(alloc);
    fails.push(FailsAt {
        op: Op::Put,
        key: Vec::from_slice(alloc, b"r/0000000002/a")?,
        nth: 1,
        done,
    })?;
    Ok(MemOrigin::failing(alloc, fails))
}

#[test]
fn a_put_in_doubt_is_settled(rt: HostRuntime) -> Result<(), Fail> {
    let alloc = rt.alloc();
    for (done, settled) in [(false, ("absent", 0u64)), (true, ("there", 0))] {
        let lines = [
            ROTATE,
            ROTATE,
            "settle r/0000000002/a",
            "settle r/0000000002/a",
        ];
        let ends = [("fault", 0), ("doubt", 0), settled, ("no doubt", 0)];
        assert!(rt; ends_so(alloc, failing(alloc, done)?, &lines, &ends)?);
    }
    Ok(())
}

// The call of the store that finds no memory, counted from 1 (the setup makes four), the lines, and how the jobs end.
type ShortRow = (&'static str, u64, &'static [&'static str], &'static [Ended]);

const MOVE: &[&str] = &[ROTATE, "migrate a", "migrate a", "evict h", "read d 0 512"];

const COLLECT: &[&str] = &[
    ROTATE,
    "migrate a",
    "expire 1",
    "expire 1",
    "delete 1",
    "delete 1",
    "sweep 1",
];

const SHORT_ROWS: &[ShortRow] = &[
    (
        "read",
        5,
        &["read d 0 512", "read d 0 512"],
        &[("memory", 0), ("done", 0)],
    ),
    (
        "write",
        5,
        &["write d 512 512x7a", "write d 512 512x7a"],
        &[("memory", 0), ("done", 0)],
    ),
    (
        "zero",
        5,
        &["zero d 512 512", "zero d 512 512"],
        &[("memory", 0), ("done", 0)],
    ),
    (
        "create: chunk",
        5,
        &[CREATE, CREATE],
        &[("memory", 0), ("created", 1)],
    ),
    (
        "create: manifest",
        6,
        &[CREATE, CREATE],
        &[("memory", 0), ("created", 1)],
    ),
    (
        "rotate",
        5,
        &[ROTATE, ROTATE, "migrate a"],
        &[("memory", 0), ("root", 2), ("moved", 2)],
    ),
    (
        "migrate: read",
        6,
        MOVE,
        &[
            ("root", 2),
            ("memory", 0),
            ("moved", 2),
            ("evicted", 0),
            ("done", 0),
        ],
    ),
    (
        "migrate: chunk",
        7,
        MOVE,
        &[
            ("root", 2),
            ("memory", 0),
            ("moved", 2),
            ("evicted", 0),
            ("done", 0),
        ],
    ),
    (
        "migrate: manifest",
        8,
        MOVE,
        &[
            ("root", 2),
            ("memory", 0),
            ("moved", 2),
            ("evicted", 0),
            ("done", 0),
        ],
    ),
    (
        "withdraw",
        5,
        &["withdraw a", "withdraw a"],
        &[("memory", 0), ("withdrawn", 0)],
    ),
    (
        "expire",
        9,
        COLLECT,
        &[
            ("root", 2),
            ("moved", 2),
            ("memory", 0),
            ("expired", 0),
            ("deleted", 0),
            ("not expired", 0),
            ("swept", 2),
        ],
    ),
    (
        "delete",
        10,
        COLLECT,
        &[
            ("root", 2),
            ("moved", 2),
            ("expired", 0),
            ("not retired", 0),
            ("memory", 0),
            ("deleted", 0),
            ("swept", 2),
        ],
    ),
    // The end of a lease asks the store for nothing.
    ("close", 5, &["after", "close d"], &[("closed", 0)]),
];

// A job that finds no memory at its call of the store says so, leaves nothing out, and does its work when it is done again.
#[test]
fn want_of_memory_at_the_store(rt: HostRuntime) -> Result<(), Fail> {
    let alloc = rt.alloc();
    for (name, call, lines, ends) in SHORT_ROWS {
        let origin = ShortOrigin::new(MemOrigin::new(alloc), *call);
        let holds = ends_so(alloc, origin, *lines, *ends)?;
        assert!(rt; holds, "{name}");
    }
    let origin = ShortOrigin::new(failing(alloc, false)?, 6);
    let lines = [ROTATE, "settle r/0000000002/a", "settle r/0000000002/a"];
    let ends = [("fault", 0), ("memory", 0), ("absent", 0)];
    assert!(rt; ends_so(alloc, origin, &lines, &ends)?);
    Ok(())
}
