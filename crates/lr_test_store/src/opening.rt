//! Stores that open, and stores that are refused or fail.

use crate::sample::{
    A_IN_1, A_IN_2, CHUNK_1, CHUNK_2, DELETED_1, EXPIRED_1, NO_A, ROOT_1, ROOT_2, failing_at,
    image, keep, manifest_of,
};
use lr_opening::{StartCause, open};
use lr_origin::{MemOrigin, Op, Origin, OriginError, OriginFailed, Put};
use std::alloc::Global;
use std::test::Fail;

// A body: so many bytes, or the manifest of one chunk with the root and the number of its nonce.
#[derive(Clone, Copy)]
enum Body {
    Bytes(usize),
    Made(u32, u64),
}

const NOTHING: Body = Body::Bytes(0);

const SALT: Body = Body::Bytes(32);

fn bytes(alloc: Global, body: Body) -> Result<Vec<u8>, Fail> {
    match body {
        Body::Bytes(count) => {
            let mut bytes = Vec::new(alloc);
            bytes.resize(count, 7)?;
            Ok(bytes)
        }
        Body::Made(root, number) => manifest_of(alloc, root, number, &[7; 32]),
    }
}

fn fill(alloc: Global, store: &mut MemOrigin, objects: &[(&[u8], Body)]) -> Result<(), Fail> {
    for (key, body) in objects {
        keep(alloc, store, key, bytes(alloc, *body)?)?;
    }
    Ok(())
}

fn is_foreign(alloc: Global, objects: &[(&[u8], Body)], foreign: &[u8]) -> Result<bool, Fail> {
    let mut store = MemOrigin::new(alloc);
    fill(alloc, &mut store, objects)?;
    match open(alloc, &mut store) {
        Err(StartCause::Foreign(key)) => Ok(key.as_slice() == foreign),
        _ => Ok(false),
    }
}

#[test]
fn the_first_malformed_key_is_foreign(rt: HostRuntime) -> Result<(), Fail> {
    let cases: [(&[(&[u8], Body)], &[u8]); 11] = [
        (&[(b"x", NOTHING)], b"x"),
        (&[(b"q", NOTHING), (b"x", NOTHING)], b"q"),
        // The second root has no first one, which counts where no key is malformed.
        (&[(ROOT_2, SALT), (b"x", NOTHING)], b"x"),
        (&[(ROOT_1, Body::Bytes(31)), (NO_A, Body::Bytes(1))], ROOT_1),
        (&[(ROOT_1, SALT), (EXPIRED_1, Body::Bytes(1))], EXPIRED_1),
        (&[(ROOT_1, SALT), (DELETED_1, Body::Bytes(1))], DELETED_1),
        (&[(ROOT_1, SALT), (NO_A, Body::Bytes(1))], NO_A),
        (&[(ROOT_1, SALT), (A_IN_1, Body::Bytes(148))], A_IN_1),
        (&[(ROOT_1, SALT), (A_IN_1, Body::Made(2, 1))], A_IN_1),
        (&[(ROOT_1, SALT), (A_IN_1, Body::Made(1, 0))], A_IN_1),
        (&[(ROOT_1, SALT), (A_IN_1, Body::Made(1, 1 << 63))], A_IN_1),
    ];
    for (objects, foreign) in cases {
        assert!(rt; is_foreign(rt.alloc(), objects, foreign)?);
    }
    Ok(())
}

#[test]
fn the_first_key_that_breaks_a_rule_is_foreign(rt: HostRuntime) -> Result<(), Fail> {
    let made = Body::Made(1, 1);
    let other = Body::Made(1, 2);
    // A root isn't there, a deleted root isn't expired, the greatest one is, manifests differ, a chunk isn't there, an
    // image has an expired home.
    let cases: [(&[(&[u8], Body)], &[u8]); 6] = [
        (&[(ROOT_2, SALT)], ROOT_2),
        (
            &[(ROOT_1, SALT), (ROOT_2, SALT), (DELETED_1, NOTHING)],
            DELETED_1,
        ),
        (&[(ROOT_1, SALT), (EXPIRED_1, NOTHING)], EXPIRED_1),
        (
            &[
                (ROOT_1, SALT),
                (ROOT_2, SALT),
                (CHUNK_1, NOTHING),
                (CHUNK_2, NOTHING),
                (A_IN_1, made),
                (A_IN_2, other),
            ],
            A_IN_2,
        ),
        (&[(ROOT_1, SALT), (A_IN_1, made)], A_IN_1),
        (
            &[
                (ROOT_1, SALT),
                (ROOT_2, SALT),
                (EXPIRED_1, NOTHING),
                (CHUNK_1, NOTHING),
                (A_IN_1, made),
            ],
            A_IN_1,
        ),
    ];
    for (objects, foreign) in cases {
        assert!(rt; is_foreign(rt.alloc(), objects, foreign)?);
    }
    Ok(())
}

#[test]
fn a_sound_store_is_opened(rt: HostRuntime) -> Result<(), Fail> {
    let alloc = rt.alloc();
    let mut store = MemOrigin::new(alloc);
    assert!(rt; open(alloc, &mut store).is_ok_and(|catalog| catalog.roots() == 0));
    let objects = [
        (ROOT_1, SALT),
        (CHUNK_1, NOTHING),
        (A_IN_1, Body::Made(1, 9_223_372_036_854_775_807)),
        (b"w/b", NOTHING),
    ];
    fill(alloc, &mut store, &objects)?;
    let Ok(catalog) = open(alloc, &mut store) else {
        return Err("the store wasn't opened".into());
    };
    let a = image(b"a")?;
    let b = image(b"b")?;
    assert!(rt; catalog.roots() == 1);
    assert!(rt; catalog.salt(1) == Some(&[7u8; 32]));
    assert!(rt; catalog.home(&a) == Some(1));
    assert!(rt; catalog.withdrawn(&b));
    assert!(rt; catalog.counts(1) == (1, 1));
    assert!(rt; catalog.greatest_number() == 9_223_372_036_854_775_807);
    Ok(())
}

fn fails_at(alloc: Global, op: Op, key: &[u8]) -> Result<MemOrigin, Fail> {
    let mut store = failing_at(alloc, op, key, 1, false)?;
    fill(alloc, &mut store, &[(b"q", NOTHING), (ROOT_1, SALT)])?;
    Ok(store)
}

#[test]
fn chunks_are_not_read(rt: HostRuntime) -> Result<(), Fail> {
    let alloc = rt.alloc();
    let mut store = failing_at(alloc, Op::Get, CHUNK_1, 1, false)?;
    fill(alloc, &mut store, &[(ROOT_1, SALT), (CHUNK_1, NOTHING)])?;
    assert!(rt; open(alloc, &mut store).is_ok_and(|catalog| catalog.counts(1) == (0, 1)));
    Ok(())
}

fn is_fault_at(cause: &StartCause, text: &[u8]) -> bool {
    match cause {
        StartCause::Fault(Some(key)) => key.as_bytes() == text,
        _ => false,
    }
}

#[test]
fn a_fault_stops_it_at_once(rt: HostRuntime) -> Result<(), Fail> {
    let alloc = rt.alloc();
    for key in [b"".as_slice(), b"q".as_slice(), ROOT_1] {
        let mut store = fails_at(alloc, Op::NextKey, key)?;
        assert!(rt; matches!(open(alloc, &mut store), Err(StartCause::Fault(None))));
    }
    let mut store = fails_at(alloc, Op::Get, ROOT_1)?;
    assert!(rt; open(alloc, &mut store).is_err_and(|cause| is_fault_at(&cause, ROOT_1)));
    Ok(())
}

fn is_spoiled_at(cause: &StartCause, text: &[u8]) -> bool {
    match cause {
        StartCause::Spoiled(key) => key.as_bytes() == text,
        _ => false,
    }
}

// It lists one key and has no object under it.
#[derive(Drop)]
struct Hollow;

impl Origin for Hollow {
    ghost use Rattle.std.specs.Prelude.{None};

    ghost objects = { λ _. None };

    ghost faults = { λ _. 0 };

    fn get(&mut self, _alloc: Global, _key: &[u8]) -> Result<Option<Vec<u8>>, OriginError> {
        Ok(None)
    }

    fn put(&mut self, _alloc: Global, _key: &[u8], _body: &[u8]) -> Result<Put, OriginError> {
        Ok(Put::Stored)
    }

    fn delete(&mut self, _key: &[u8]) -> Result<(), OriginFailed> {
        Ok(())
    }

    fn next_key(
        &mut self,
        alloc: Global,
        after: Option<&[u8]>,
    ) -> Result<Option<Vec<u8>>, OriginError> {
        match after {
            Some(_) => Ok(None),
            None => Ok(Some(ROOT_1.to_vec(alloc)?)),
        }
    }
}

#[test]
fn a_listed_key_without_an_object_is_spoiled(rt: HostRuntime) {
    assert!(rt; open(rt.alloc(), &mut Hollow).is_err_and(|cause| is_spoiled_at(&cause, ROOT_1)));
}
