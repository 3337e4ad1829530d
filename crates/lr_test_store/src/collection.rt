//! Tests of migrations, withdrawals and collection by hand.
use crate::calls::{Ask, CHUNK_IN_1, Step, first_other, start};
use crate::sample::{A_IN_1, failing_at};
use lr_origin::{MemOrigin, Op};
use std::test::Fail;

const CREATION: &[Step] = &[
    (2, Ask::Rotate, "rotated", 1),
    (2, Ask::Expire(1), "not retired", 0),
    (1, Ask::Begin(b"a"), "began", 1),
    (1, Ask::Chunk(1), "kept", 0),
    (2, Ask::Rotate, "rotated", 2),
    (2, Ask::Expire(1), "session", 1),
    (1, Ask::Manifest(1, 1), "made", 1),
    (2, Ask::Expire(1), "serves", 0),
    (2, Ask::Expire(3), "not retired", 0),
];

#[test]
fn a_creation_holds_its_root_against_rotation(rt: HostRuntime) -> Result<(), Fail> {
    let alloc = rt.alloc();
    let mut depot = start(alloc, MemOrigin::new(alloc))?;
    assert_eq!(rt; first_other(alloc, &mut depot, CREATION, b"")?, None);
    assert!(rt; depot.catalog().counts(1) == (1, 1));
    Ok(())
}

const MIGRATION: &[Step] = &[
    (1, Ask::Rotate, "rotated", 1),
    (1, Ask::Begin(b"a"), "began", 1),
    (1, Ask::Chunk(1), "kept", 0),
    (1, Ask::Manifest(1, 1), "made", 1),
    (2, Ask::Migrate(b"b"), "no image", 0),
    (2, Ask::Migrate(b"a"), "not retired", 1),
    (1, Ask::Rotate, "rotated", 2),
    (2, Ask::Migrate(b"a"), "moving", 2),
    (2, Ask::Copy(2, 0), "copied", 0),
];

const OVERTAKEN: &[Step] = &[
    (2, Ask::Copy(2, 1), "no chunk", 0),
    (1, Ask::Rotate, "rotated", 3),
    (3, Ask::Migrate(b"a"), "moving", 3),
    (3, Ask::Copy(2, 0), "no session", 0),
    (3, Ask::Copy(3, 0), "copied", 0),
    (3, Ask::Finish(2), "no session", 0),
    (3, Ask::Finish(3), "missing", 0),
    (3, Ask::Chunk(3), "kept", 0),
    (3, Ask::Finish(3), "moved", 1),
    (2, Ask::Chunk(2), "kept", 0),
    (2, Ask::Finish(2), "overtaken", 3),
    (2, Ask::Abandon(2), "abandoned", 0),
    (4, Ask::Open(b"a"), "opened", 1),
    (4, Ask::Fetch(1, 0), "fetched", 0),
];

#[test]
fn a_migration_is_overtaken(rt: HostRuntime) -> Result<(), Fail> {
    let alloc = rt.alloc();
    let mut depot = start(alloc, MemOrigin::new(alloc))?;
    assert_eq!(rt; first_other(alloc, &mut depot, MIGRATION, b"")?, None);
    assert_eq!(rt; first_other(alloc, &mut depot, OVERTAKEN, b"")?, None);
    assert!(rt; depot.catalog().counts(1) == (1, 1));
    assert!(rt; depot.catalog().counts(2) == (0, 1));
    assert!(rt; depot.catalog().counts(3) == (1, 1));
    Ok(())
}

const LEASED: &[Step] = &[
    (1, Ask::Rotate, "rotated", 1),
    (1, Ask::Begin(b"a"), "began", 1),
    (1, Ask::Chunk(1), "kept", 0),
    (1, Ask::Manifest(1, 1), "made", 1),
    (2, Ask::Open(b"a"), "opened", 1),
    (1, Ask::Withdraw(b"a"), "withdrawn", 0),
    (1, Ask::Withdraw(b"a"), "no image", 0),
    (1, Ask::Open(b"a"), "no image", 0),
    (1, Ask::Rotate, "rotated", 2),
    (1, Ask::Expire(1), "serves", 0),
];

const COLLECTED: &[Step] = &[
    (2, Ask::Fetch(1, 0), "fetched", 0),
    (1, Ask::Delete(1), "not expired", 0),
    (2, Ask::Close(1), "closed", 0),
    (1, Ask::Expire(1), "expired", 0),
    (1, Ask::Expire(1), "not retired", 0),
    (1, Ask::Sweep(1), "not deleted", 0),
    (1, Ask::Delete(1), "deleted", 0),
    (1, Ask::Delete(1), "not expired", 0),
    (1, Ask::Sweep(1), "removed", 0),
    (1, Ask::Sweep(1), "removed", 0),
    (1, Ask::Sweep(1), "swept", 0),
    (1, Ask::Sweep(1), "swept", 0),
];

#[test]
fn collection_waits_for_a_lease(rt: HostRuntime) -> Result<(), Fail> {
    let alloc = rt.alloc();
    let mut depot = start(alloc, MemOrigin::new(alloc))?;
    assert_eq!(rt; first_other(alloc, &mut depot, LEASED, b"")?, None);
    assert_eq!(rt; first_other(alloc, &mut depot, COLLECTED, b"")?, None);
    assert!(rt; depot.catalog().counts(1) == (0, 0));
    Ok(())
}

const DOUBTED: &[Step] = &[
    (1, Ask::Rotate, "rotated", 1),
    (1, Ask::Settle(A_IN_1), "no doubt", 0),
    (1, Ask::Begin(b"a"), "began", 1),
    (1, Ask::Chunk(1), "kept", 0),
    (1, Ask::Manifest(1, 1), "fault", 0),
    (2, Ask::Rotate, "rotated", 2),
    (1, Ask::Abandon(2), "no session", 0),
];

const THERE: &[Step] = &[
    (2, Ask::Settle(A_IN_1), "there", 0),
    (2, Ask::Settle(A_IN_1), "no doubt", 0),
    (1, Ask::Abandon(1), "no session", 0),
    (2, Ask::Expire(1), "serves", 0),
    (2, Ask::Open(b"a"), "opened", 1),
];

const ABSENT: &[Step] = &[
    (2, Ask::Settle(A_IN_1), "absent", 0),
    (2, Ask::Open(b"a"), "no image", 0),
    (2, Ask::Expire(1), "session", 1),
    (1, Ask::Manifest(1, 1), "made", 1),
    (2, Ask::Open(b"a"), "opened", 1),
];

#[test]
fn a_manifest_in_doubt_is_settled(rt: HostRuntime) -> Result<(), Fail> {
    let runs: [(bool, &[Step]); 2] = [(false, ABSENT), (true, THERE)];
    for (done, rest) in runs {
        let alloc = rt.alloc();
        let mut depot = start(alloc, failing_at(alloc, Op::Put, A_IN_1, 1, done)?)?;
        assert_eq!(rt; first_other(alloc, &mut depot, DOUBTED, A_IN_1)?, None);
        assert_eq!(rt; first_other(alloc, &mut depot, rest, A_IN_1)?, None);
        assert!(rt; depot.catalog().counts(1) == (1, 1));
    }
    Ok(())
}

const ABANDONED: &[Step] = &[
    (1, Ask::Rotate, "rotated", 1),
    (1, Ask::Begin(b"a"), "began", 1),
    (1, Ask::Chunk(1), "kept", 0),
    (1, Ask::Manifest(1, 1), "fault", 0),
    (1, Ask::Abandon(1), "abandoned", 0),
    (2, Ask::Rotate, "rotated", 2),
    (2, Ask::Expire(1), "doubt", 0),
    (2, Ask::Settle(A_IN_1), "absent", 0),
    (2, Ask::Expire(1), "expired", 0),
];

#[test]
fn an_abandoned_manifest_in_doubt_holds_its_root(rt: HostRuntime) -> Result<(), Fail> {
    let alloc = rt.alloc();
    let mut depot = start(alloc, failing_at(alloc, Op::Put, A_IN_1, 1, false)?)?;
    assert_eq!(rt; first_other(alloc, &mut depot, ABANDONED, A_IN_1)?, None);
    Ok(())
}

const DELETION: &[Step] = &[
    (1, Ask::Rotate, "rotated", 1),
    (1, Ask::Begin(b"a"), "began", 1),
    (1, Ask::Chunk(1), "kept", 0),
    (1, Ask::Abandon(1), "abandoned", 0),
    (1, Ask::Rotate, "rotated", 2),
    (1, Ask::Expire(1), "expired", 0),
    (1, Ask::Delete(1), "deleted", 0),
    (1, Ask::Sweep(1), "fault", 0),
    (1, Ask::Settle(CHUNK_IN_1), "no doubt", 0),
    (1, Ask::Sweep(1), "removed", 0),
];

#[test]
fn a_failed_deletion_is_made_again(rt: HostRuntime) -> Result<(), Fail> {
    for done in [false, true] {
        let alloc = rt.alloc();
        let mut depot = start(alloc, failing_at(alloc, Op::Delete, CHUNK_IN_1, 1, done)?)?;
        assert_eq!(rt; first_other(alloc, &mut depot, DELETION, CHUNK_IN_1)?, None);
        let (_, left, catalog) = depot.end();
        assert!(rt; left.doubt(0).is_none());
        assert!(rt; catalog.counts(1) == (0, 0));
    }
    Ok(())
}
