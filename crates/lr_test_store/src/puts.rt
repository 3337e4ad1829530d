//! Puts of a depot that the store acknowledges, fails or finds done, and the images that they leave.
use crate::calls::{Ask, CHUNK_IN_1, Step, first_other, make_call, short, start};
use crate::sample::{
    A_IN_1, A_IN_2, NO_A, ROOT_1, ROOT_2, failing_at, image, keep, manifest_of_nothing,
};
use lr_depot::Depot;
use lr_origin::{Fail as Failing, MemOrigin, Op, Origin, OriginError, OriginFailed, Put};
use std::alloc::Global;
use std::test::Fail;

const B_IN_1: &[u8] = b"r/0000000001/m/b";

const B_IN_2: &[u8] = b"r/0000000002/m/b";

const C_IN_1: &[u8] = b"r/0000000001/m/c";

// A store with root 1 and the empty images `a`, `b` and `c`, where the first withdrawal of `b` fails without its effect,
// and that of `c` with it.
fn three_images(alloc: Global) -> Result<MemOrigin, Fail> {
    let mut fails = Vec::new(alloc);
    for (name, done) in [(b"w/b", false), (b"w/c", true)] {
        fails.push(Failing {
            op: Op::Put,
            key: Vec::from_slice(alloc, name)?,
            nth: 1,
            done,
        })?;
    }
    let mut store = MemOrigin::failing(alloc, fails);
    keep(
        alloc,
        &mut store,
        ROOT_1,
        Vec::from_slice(alloc, &[5u8; 32])?,
    )?;
    for key in [A_IN_1, B_IN_1, C_IN_1] {
        keep(alloc, &mut store, key, manifest_of_nothing(alloc, 1, 1)?)?;
    }
    Ok(store)
}

// Whether the withdrawal is replied to by this word, and is seen exactly where it was acknowledged.
fn withdraws_as<O: Origin>(
    alloc: Global,
    depot: &mut Depot<O>,
    name: &'static [u8],
    word: &str,
) -> Result<bool, Fail> {
    let reply = make_call(alloc, depot, 1, Ask::Withdraw(name))?;
    let is_seen = depot.catalog().withdrawn(&image(name)?);
    Ok(short(&reply) == (word, 0) && is_seen == (word == "withdrawn"))
}

#[test]
fn a_put_ends_as_the_store_answers(rt: HostRuntime) -> Result<(), Fail> {
    let alloc = rt.alloc();
    let mut depot = start(alloc, three_images(alloc)?)?;
    let cases: [(&'static [u8], &str); 5] = [
        (b"a", "withdrawn"),
        (b"b", "fault"),
        (b"b", "withdrawn"),
        (b"c", "fault"),
        (b"c", "withdrawn"),
    ];
    for (name, word) in cases {
        assert!(rt; withdraws_as(alloc, &mut depot, name, word)?);
    }
    let (_, left, _) = depot.end();
    assert!(rt; left.doubt(0).is_none());
    Ok(())
}

// A store of these objects, in which each put finds another one that isn't listed.
#[derive(Drop)]
struct Crowded {
    listed: MemOrigin,
}

impl Origin for Crowded {
    ghost use Rattle.std.specs.Prelude.{None};

    ghost objects = { λ _. None };

    ghost faults = { λ o. ⟦<MemOrigin as Origin>⟧.faults o.listed };

    fn get(&mut self, alloc: Global, key: &[u8]) -> Result<Option<Vec<u8>>, OriginError> {
        self.listed.get(alloc, key)
    }

    fn put(&mut self, _alloc: Global, _key: &[u8], _body: &[u8]) -> Result<Put, OriginError> {
        Ok(Put::Present)
    }

    fn delete(&mut self, key: &[u8]) -> Result<(), OriginFailed> {
        self.listed.delete(key)
    }

    fn next_key(
        &mut self,
        alloc: Global,
        after: Option<&[u8]>,
    ) -> Result<Option<Vec<u8>>, OriginError> {
        self.listed.next_key(alloc, after)
    }
}

// The put isn't in doubt.
const NO_ROTATION: &[Step] = &[
    (1, Ask::Rotate, "spoiled", 0),
    (1, Ask::Rotate, "spoiled", 0),
];

#[test]
fn an_unknown_object_is_spoiled(rt: HostRuntime) -> Result<(), Fail> {
    let alloc = rt.alloc();
    let mut depot = start(
        alloc,
        Crowded {
            listed: MemOrigin::new(alloc),
        },
    )?;
    assert_eq!(rt; first_other(alloc, &mut depot, NO_ROTATION, ROOT_1)?, None);
    assert!(rt; depot.catalog().roots() == 0);
    let (_, left, _) = depot.end();
    assert!(rt; left.doubt(0).is_none());
    Ok(())
}

const NO_WITHDRAWAL: &[Step] = &[
    (1, Ask::Withdraw(b"a"), "spoiled", 0),
    (1, Ask::Open(b"a"), "opened", 1),
];

#[test]
fn an_unknown_withdrawal_is_spoiled(rt: HostRuntime) -> Result<(), Fail> {
    let alloc = rt.alloc();
    let mut depot = start(
        alloc,
        Crowded {
            listed: three_images(alloc)?,
        },
    )?;
    assert_eq!(rt; first_other(alloc, &mut depot, NO_WITHDRAWAL, NO_A)?, None);
    assert!(rt; !depot.catalog().withdrawn(&image(b"a")?));
    let (_, left, _) = depot.end();
    assert!(rt; left.doubt(0).is_none());
    Ok(())
}

// A store with two roots, 1,020 names that are withdrawn, and one that is, with a manifest in each root. The first put of
// the manifest of `b` in root 2 fails.
fn nearly_full(alloc: Global) -> Result<MemOrigin, Fail> {
    let mut store = failing_at(alloc, Op::Put, B_IN_2, 1, false)?;
    for root in [ROOT_1, ROOT_2] {
        keep(alloc, &mut store, root, Vec::from_slice(alloc, &[5u8; 32])?)?;
    }
    for key in [A_IN_1, A_IN_2] {
        keep(alloc, &mut store, key, manifest_of_nothing(alloc, 1, 1)?)?;
    }
    keep(alloc, &mut store, NO_A, Vec::new(alloc))?;
    for number in 0..1020 {
        let key = format!(in alloc; "w/{number}")?;
        keep(alloc, &mut store, key.as_bytes(), Vec::new(alloc))?;
    }
    Ok(store)
}

// One name has two manifests and a withdrawal, one a session and a manifest in doubt, and two have sessions.
const COUNTED: &[Step] = &[
    (1, Ask::Begin(b"b"), "began", 1),
    (1, Ask::Empty(1, 2, 2), "fault", 0),
    (2, Ask::Begin(b"c"), "began", 2),
    (1, Ask::Begin(b"d"), "began", 3),
    (1, Ask::Begin(b"e"), "full", 0),
];

// The sessions of a caller end. What is in doubt still counts.
const REAPED: &[Step] = &[
    (1, Ask::Reap, "reaped", 0),
    (1, Ask::Reap, "nothing", 0),
    (1, Ask::Abandon(3), "no session", 0),
    (1, Ask::Begin(b"b"), "doubt", 0),
    (1, Ask::Begin(b"c"), "taken", 0),
    (1, Ask::Begin(b"d"), "began", 4),
    (1, Ask::Begin(b"e"), "full", 0),
    (1, Ask::Settle(B_IN_2), "absent", 0),
    (1, Ask::Begin(b"e"), "began", 5),
    (1, Ask::Begin(b"b"), "full", 0),
    (2, Ask::Abandon(2), "abandoned", 0),
];

#[test]
fn each_image_is_counted_once(rt: HostRuntime) -> Result<(), Fail> {
    let alloc = rt.alloc();
    let mut depot = start(alloc, nearly_full(alloc)?)?;
    assert_eq!(rt; first_other(alloc, &mut depot, COUNTED, B_IN_2)?, None);
    assert_eq!(rt; first_other(alloc, &mut depot, REAPED, B_IN_2)?, None);
    Ok(())
}

// A store that fails the first put of each of these keys.
fn failing_puts(alloc: Global, keys: &[&[u8]]) -> Result<MemOrigin, Fail> {
    let mut fails = Vec::new(alloc);
    for key in keys {
        fails.push(Failing {
            op: Op::Put,
            key: key.to_vec(alloc)?,
            nth: 1,
            done: false,
        })?;
    }
    Ok(MemOrigin::failing(alloc, fails))
}

const DOUBTED: &[(Ask, &str)] = &[
    (Ask::Rotate, "rotated"),
    (Ask::Begin(b"b"), "began"),
    (Ask::Begin(b"a"), "began"),
    (Ask::Empty(1, 1, 1), "fault"),
    (Ask::Rotate, "fault"),
    (Ask::Empty(2, 1, 2), "fault"),
    (Ask::Chunk(1), "fault"),
];

#[test]
fn doubts_are_in_the_order_of_their_keys(rt: HostRuntime) -> Result<(), Fail> {
    let alloc = rt.alloc();
    let keys = [CHUNK_IN_1, A_IN_1, B_IN_1, ROOT_2];
    let mut depot = start(alloc, failing_puts(alloc, &keys)?)?;
    for (asked, word) in DOUBTED {
        let reply = make_call(alloc, &mut depot, 1, *asked)?;
        assert!(rt; short(&reply).0 == *word);
    }
    let (_, left, _) = depot.end();
    for (at, key) in keys.iter().enumerate() {
        assert!(rt; left.doubt(at as u64).is_some_and(|k| k.as_bytes() == *key));
    }
    assert!(rt; left.doubt(4).is_none());
    Ok(())
}
