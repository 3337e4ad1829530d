//! Calls of a depot by hand: creations, leases, sessions, and a store whose calls fail.
use crate::calls::{
    Ask, CHUNK_IN_1, NAME, Step, first_other, is_of, make_call, serve, short, start, told_key,
};
use crate::sample::{
    A_IN_1, ROOT_1, failing_at, image, keep, key, manifest_of, manifest_of_nothing,
};
use lr_depot::{Depot, DepotCall, DepotNoted, DepotReply, DepotTold, StartCause, StartError};
use lr_object::{Entry, Object};
use lr_origin::{MemOrigin, Op, Origin, OriginError, OriginFailed, Put};
use std::alloc::Global;
use std::test::Fail;

fn is_began(entry: Option<&Entry<DepotNoted, DepotTold>>) -> bool {
    let Some(entry) = entry else {
        return false;
    };
    match &entry.reply {
        DepotTold::Began {
            session: 1,
            root: 1,
            salt,
            number: 1,
        } => *salt == [5; 32] && entry.caller == 1,
        _ => false,
    }
}

fn is_chunk_put(entry: Option<&Entry<DepotNoted, DepotTold>>) -> bool {
    let Some(entry) = entry else {
        return false;
    };
    match &entry.call {
        DepotNoted::PutChunk { session: 1, name } => name.bytes == NAME,
        _ => false,
    }
}

const BY_HAND: &[Step] = &[
    (1, Ask::Begin(b"a"), "no root", 0),
    (1, Ask::Rotate, "rotated", 1),
    (1, Ask::Begin(b"a"), "began", 1),
    (2, Ask::Begin(b"a"), "taken", 0),
    (1, Ask::Manifest(1, 1), "missing", 0),
    (1, Ask::Manifest(1, 2), "nonce", 0),
    (2, Ask::Chunk(1), "no session", 0),
    (2, Ask::Manifest(1, 1), "no session", 0),
    (2, Ask::Abandon(1), "no session", 0),
    (2, Ask::Reap, "nothing", 0),
    (1, Ask::Open(b"a"), "no image", 0),
    (1, Ask::Chunk(1), "kept", 0),
    (1, Ask::Chunk(1), "kept", 0),
    (1, Ask::Manifest(1, 1), "made", 1),
    (1, Ask::Chunk(1), "no session", 0),
    (1, Ask::Begin(b"a"), "taken", 0),
    (1, Ask::Reap, "nothing", 0),
];

#[test]
fn an_image_is_created_by_hand(rt: HostRuntime) -> Result<(), Fail> {
    let alloc = rt.alloc();
    let mut depot = start(alloc, MemOrigin::new(alloc))?;
    assert_eq!(rt; first_other(alloc, &mut depot, BY_HAND, b"")?, None);
    // A reply of nothing isn't logged.
    assert_eq!(rt; depot.entries(), 15);
    assert!(rt; is_began(depot.entry(2)));
    assert!(rt; is_chunk_put(depot.entry(10)));
    assert!(rt; depot.entry(15).is_none());
    assert!(rt; depot.catalog().salt(1) == Some(&[5u8; 32]));
    assert!(rt; depot.catalog().counts(1) == (1, 1));
    let (_, left, catalog) = depot.end();
    assert_eq!(rt; left.entries().len(), 15);
    assert!(rt; is_began(left.entries().get(2)));
    assert!(rt; left.doubt(0).is_none());
    assert!(rt; catalog.counts(1) == (1, 1));
    Ok(())
}

// Whether it is the chunk of 524,288 bytes of 1.
fn is_the_chunk(reply: &DepotReply) -> bool {
    match reply {
        DepotReply::Fetched(chunk) => {
            chunk.bytes().iter().all(|byte| *byte == 1) && chunk.name().bytes == NAME
        }
        _ => false,
    }
}

const LEASES: &[Step] = &[
    (1, Ask::Rotate, "rotated", 1),
    (1, Ask::Begin(b"a"), "began", 1),
    (1, Ask::Chunk(1), "kept", 0),
    (1, Ask::Manifest(1, 1), "made", 1),
    // The home of the image stays its first root.
    (1, Ask::Rotate, "rotated", 2),
    (1, Ask::Begin(b"a"), "taken", 0),
    (2, Ask::Open(b"a"), "opened", 1),
    (2, Ask::Open(b"a"), "opened", 2),
    (2, Ask::Fetch(1, 1), "no chunk", 0),
    (2, Ask::Fetch(3, 0), "no lease", 0),
];

const SESSIONS: &[Step] = &[
    (2, Ask::Close(1), "closed", 0),
    (2, Ask::Close(1), "no lease", 0),
    (2, Ask::Fetch(1, 0), "no lease", 0),
    (2, Ask::Fetch(2, 0), "fetched", 0),
    (2, Ask::Open(b"a"), "opened", 3),
    (1, Ask::Begin(b"b"), "began", 2),
    (2, Ask::Begin(b"c"), "began", 3),
    (2, Ask::Begin(b"d"), "began", 4),
    (1, Ask::Abandon(2), "abandoned", 0),
    (1, Ask::Abandon(2), "no session", 0),
    (1, Ask::Begin(b"b"), "began", 5),
    (2, Ask::Reap, "reaped", 0),
    (2, Ask::Chunk(3), "no session", 0),
    (2, Ask::Reap, "nothing", 0),
    (1, Ask::Chunk(5), "kept", 0),
];

#[test]
fn leases_and_sessions_come_and_go(rt: HostRuntime) -> Result<(), Fail> {
    let alloc = rt.alloc();
    let mut depot = start(alloc, MemOrigin::new(alloc))?;
    assert_eq!(rt; first_other(alloc, &mut depot, LEASES, b"")?, None);
    assert!(rt; is_the_chunk(&make_call(alloc, &mut depot, 1, Ask::Fetch(1, 0))?));
    assert_eq!(rt; first_other(alloc, &mut depot, SESSIONS, b"")?, None);
    assert!(rt; depot.catalog().counts(2) == (0, 1));
    Ok(())
}

// What is left of a key whose first call of an operation failed.
#[derive(Clone, Copy, Debug, PartialEq, Eq)]
struct Left {
    in_doubt: bool,
    in_view: bool,
    in_store: bool,
}

// Makes the calls, ends the depot, and starts another one on its store. `None` where a reply is another.
fn left_of(
    alloc: Global,
    origin: MemOrigin,
    steps: &[Step],
    text: &[u8],
) -> Result<Option<Left>, Fail> {
    let key = key(text)?;
    let mut depot = start(alloc, origin)?;
    if first_other(alloc, &mut depot, steps, text)?.is_some() {
        return Ok(None);
    }
    let (origin, left, catalog) = depot.end();
    let again = start(alloc, origin)?;
    Ok(Some(Left {
        in_doubt: left.doubt(0) == Some(&key),
        in_view: catalog.has(&key),
        in_store: again.catalog().has(&key),
    }))
}

// Makes the calls on a store that fails the first put of a key. Whether its put is in doubt, and the object is there
// where the put had its effect.
fn is_doubted(alloc: Global, key: &[u8], steps: &[Step], done: bool) -> Result<bool, Fail> {
    let origin = failing_at(alloc, Op::Put, key, 1, done)?;
    let left = Left {
        in_doubt: true,
        in_view: false,
        in_store: done,
    };
    Ok(left_of(alloc, origin, steps, key)? == Some(left))
}

const ROOT_FAILS: &[Step] = &[
    (1, Ask::Rotate, "fault", 0),
    (1, Ask::Rotate, "doubt", 0),
    (1, Ask::Begin(b"a"), "no root", 0),
];

const CHUNK_FAILS: &[Step] = &[
    (1, Ask::Rotate, "rotated", 1),
    (1, Ask::Begin(b"a"), "began", 1),
    (1, Ask::Chunk(1), "fault", 0),
    (1, Ask::Manifest(1, 1), "missing", 0),
];

const MANIFEST_FAILS: &[Step] = &[
    (1, Ask::Rotate, "rotated", 1),
    (1, Ask::Begin(b"a"), "began", 1),
    (1, Ask::Chunk(1), "kept", 0),
    (1, Ask::Manifest(1, 1), "fault", 0),
    (1, Ask::Manifest(1, 1), "doubt", 0),
    (2, Ask::Open(b"a"), "no image", 0),
    (1, Ask::Abandon(1), "abandoned", 0),
    (1, Ask::Begin(b"a"), "doubt", 0),
];

#[test]
fn a_failed_put_is_in_doubt(rt: HostRuntime) -> Result<(), Fail> {
    for done in [false, true] {
        assert!(rt; is_doubted(rt.alloc(), ROOT_1, ROOT_FAILS, done)?);
        assert!(rt; is_doubted(rt.alloc(), CHUNK_IN_1, CHUNK_FAILS, done)?);
        assert!(rt; is_doubted(rt.alloc(), A_IN_1, MANIFEST_FAILS, done)?);
    }
    Ok(())
}

const PUT_AGAIN: &[Step] = &[
    (1, Ask::Rotate, "rotated", 1),
    (1, Ask::Begin(b"a"), "began", 1),
    (1, Ask::Chunk(1), "fault", 0),
    (1, Ask::Chunk(1), "kept", 0),
    (1, Ask::Manifest(1, 1), "made", 1),
];

const GOT_AGAIN: &[Step] = &[
    (1, Ask::Rotate, "rotated", 1),
    (1, Ask::Begin(b"a"), "began", 1),
    (1, Ask::Chunk(1), "kept", 0),
    (1, Ask::Manifest(1, 1), "made", 1),
    (2, Ask::Open(b"a"), "opened", 1),
    (2, Ask::Fetch(1, 0), "fault", 0),
    (2, Ask::Fetch(1, 0), "fetched", 0),
];

#[test]
fn a_failed_call_is_made_again(rt: HostRuntime) -> Result<(), Fail> {
    let runs: [(Op, &[Step]); 2] = [(Op::Put, PUT_AGAIN), (Op::Get, GOT_AGAIN)];
    let left = Left {
        in_doubt: false,
        in_view: true,
        in_store: true,
    };
    for done in [false, true] {
        for (op, steps) in runs {
            let origin = failing_at(rt.alloc(), op, CHUNK_IN_1, 1, done)?;
            assert_eq!(rt; left_of(rt.alloc(), origin, steps, CHUNK_IN_1)?, Some(left));
        }
    }
    Ok(())
}

// A store with root 1, and in it an image `a` with this manifest.
fn store_of(alloc: Global, manifest: Vec<u8>) -> Result<MemOrigin, Fail> {
    let mut store = MemOrigin::new(alloc);
    keep(
        alloc,
        &mut store,
        ROOT_1,
        Vec::from_slice(alloc, &[5u8; 32])?,
    )?;
    keep(alloc, &mut store, A_IN_1, manifest)?;
    Ok(store)
}

const AFTER_SEVEN: &[Step] = &[
    (1, Ask::Begin(b"b"), "began", 1),
    (1, Ask::Empty(1, 1, 7), "nonce", 0),
    (1, Ask::Empty(1, 1, 8), "made", 1),
];

const LAST_NUMBER: &[Step] = &[
    (1, Ask::Begin(b"b"), "began", 1),
    (1, Ask::Empty(1, 1, 9_223_372_036_854_775_807), "made", 1),
    (1, Ask::Begin(b"c"), "full", 0),
];

const NO_NUMBER: &[Step] = &[
    (1, Ask::Open(b"a"), "opened", 1),
    (1, Ask::Begin(b"b"), "full", 0),
];

#[test]
fn creation_numbers_follow_those_of_the_store(rt: HostRuntime) -> Result<(), Fail> {
    let runs: [(u64, &[Step]); 3] = [
        (7, AFTER_SEVEN),
        (9_223_372_036_854_775_806, LAST_NUMBER),
        (9_223_372_036_854_775_807, NO_NUMBER),
    ];
    for (number, steps) in runs {
        let store = store_of(rt.alloc(), manifest_of_nothing(rt.alloc(), 1, number)?)?;
        let mut depot = start(rt.alloc(), store)?;
        assert_eq!(rt; first_other(rt.alloc(), &mut depot, steps, b"")?, None);
    }
    Ok(())
}

// Creates an empty image, whose creation is the one of this number since the start. Whether it was made.
fn is_made(alloc: Global, depot: &mut Depot<MemOrigin>, number: u64) -> Result<bool, Fail> {
    let image = image(format!(in alloc; "{number}")?.as_bytes())?;
    let began = serve(alloc, depot, 1, DepotCall::BeginCreate { image });
    let made = make_call(alloc, depot, 1, Ask::Empty(number, 1, number))?;
    Ok(short(&began) == ("began", number) && short(&made) == ("made", 1))
}

const ALL_IMAGES: &[Step] = &[
    (1, Ask::Begin(b"1024"), "taken", 0),
    (1, Ask::Begin(b"1025"), "full", 0),
];

const ONE_ROOT: &[Step] = &[(1, Ask::Rotate, "rotated", 1)];

#[test]
fn there_are_1_024_images(rt: HostRuntime) -> Result<(), Fail> {
    let alloc = rt.alloc();
    let mut depot = start(alloc, MemOrigin::new(alloc))?;
    assert_eq!(rt; first_other(alloc, &mut depot, ONE_ROOT, b"")?, None);
    for number in 1..=1024 {
        assert!(rt; is_made(alloc, &mut depot, number)?);
    }
    assert_eq!(rt; first_other(alloc, &mut depot, ALL_IMAGES, b"")?, None);
    Ok(())
}

const ALL_ROOTS: &[Step] = &[(1, Ask::Rotate, "roots end", 0)];

#[test]
fn there_are_1_000_roots(rt: HostRuntime) -> Result<(), Fail> {
    let alloc = rt.alloc();
    let mut depot = start(alloc, MemOrigin::new(alloc))?;
    for root in 1..=1000 {
        let step: Step = (1, Ask::Rotate, "rotated", root);
        let reply = make_call(alloc, &mut depot, 1, Ask::Rotate)?;
        assert!(rt; is_of(&reply, &step, b""));
    }
    assert_eq!(rt; first_other(alloc, &mut depot, ALL_ROOTS, b"")?, None);
    Ok(())
}

fn is_foreign(cause: &StartCause, text: &[u8]) -> bool {
    match cause {
        StartCause::Foreign(key) => key.as_slice() == text,
        _ => false,
    }
}

#[test]
fn a_foreign_key_hands_the_store_back(rt: HostRuntime) -> Result<(), Fail> {
    let alloc = rt.alloc();
    let mut store = MemOrigin::new(alloc);
    keep(alloc, &mut store, b"x", Vec::new(alloc))?;
    let Err(error) = Depot::start(alloc, store) else {
        return Err("the depot started".into());
    };
    let StartError { cause, mut origin } = error;
    assert!(rt; is_foreign(&cause, b"x"));
    assert!(rt; origin.get(alloc, b"x")?.is_some());
    Ok(())
}

const SPOILED: &[Step] = &[
    (1, Ask::Open(b"a"), "opened", 1),
    (1, Ask::Fetch(1, 0), "spoiled", 0),
];

#[test]
fn a_chunk_of_another_body_is_spoiled(rt: HostRuntime) -> Result<(), Fail> {
    let alloc = rt.alloc();
    let mut store = store_of(alloc, manifest_of(alloc, 1, 1, &NAME)?)?;
    keep(alloc, &mut store, CHUNK_IN_1, Vec::new(alloc))?;
    let mut depot = start(alloc, store)?;
    assert_eq!(rt; first_other(alloc, &mut depot, SPOILED, CHUNK_IN_1)?, None);
    Ok(())
}
