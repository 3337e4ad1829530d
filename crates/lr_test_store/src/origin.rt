//! Keys good and bad, and stores in memory that fail where they are told to.

use crate::sample::{failing_at, keep};
use lr_origin::{FuseOrigin, Key, KeyKind, MemOrigin, Op, Origin, OriginError, Put};
use std::alloc::{AllocError, Global};
use std::test;

fn joined(alloc: Global, head: &[u8], tail: &[u8]) -> Result<Vec<u8>, AllocError> {
    let mut text = head.to_vec(alloc)?;
    text.extend_from_slice(tail)?;
    Ok(text)
}

#[test]
fn the_grammar_takes_these_keys(rt: HostRuntime) -> Result<(), test::Fail> {
    let hex: &[u8] = b"00112233445566778899aabbccddeeff00112233445566778899aabbccddeeff";
    let longest: &[u8] = b"0123456789abcdefghijklmnopqrstuv";
    let good: [(&[u8], &[u8]); 9] = [
        (b"r/0000000001/a", b""),
        (b"r/0000001000/e", b""),
        (b"r/0000000999/d", b""),
        (b"r/0000000020/c/", hex),
        (b"r/0000000003/m/", b"base"),
        (b"r/0000000003/m/", longest),
        (b"w/", b"a"),
        (b"w/", b"0.9_z-"),
        (b"w/", longest),
    ];
    for (head, tail) in good {
        let text = joined(rt.alloc(), head, tail)?;
        let key = Key::parse(&text);
        assert!(rt; key.is_some_and(|k| k.as_bytes() == text.as_slice()));
    }
    Ok(())
}

#[test]
fn the_grammar_refuses_these_keys(rt: HostRuntime) -> Result<(), test::Fail> {
    let upper: &[u8] = b"00112233445566778899AABBCCDDEEFF00112233445566778899AABBCCDDEEFF";
    let short: &[u8] = b"00112233445566778899aabbccddeeff00112233445566778899aabbccddeef";
    let bad: [(&[u8], &[u8]); 18] = [
        (b"", b""),
        (b"r", b""),
        (b"w/", b""),
        (b"r/0000000000/a", b""),
        (b"r/0000001001/a", b""),
        (b"r/00000000001/a", b""),
        (b"r/000000001/a", b""),
        (b"r/1000000001/a", b""),
        (b"r/000000000x/a", b""),
        (b"r/0000000001/b", b""),
        (b"r/0000000001/aa", b""),
        (b"r/0000000001/", b""),
        (b"r/0000000001/c/", upper),
        (b"r/0000000001/c/", short),
        (b"r/0000000001/m/", b""),
        (b"r/0000000001/m/", b"Base"),
        (b"w/", b".base"),
        (b"w/", b"0123456789abcdefghijklmnopqrstuvw"),
    ];
    for (head, tail) in bad {
        let text = joined(rt.alloc(), head, tail)?;
        assert!(rt; Key::parse(&text).is_none());
    }
    Ok(())
}

#[test]
fn a_key_prints_its_kind(rt: HostRuntime) {
    let key = Key::of(&KeyKind::Expired(42));
    assert!(rt; key.as_bytes() == b"r/0000000042/e".as_slice());
    assert!(rt; key.kind() == KeyKind::Expired(42));
    assert!(rt; key > Key::of(&KeyKind::Deleted(42)));
}

fn has_body(
    alloc: Global,
    store: &mut MemOrigin,
    key: &[u8],
    body: &[u8],
) -> Result<bool, test::Fail> {
    let got = store.get(alloc, key)?;
    Ok(got.is_some_and(|got| got.as_slice() == body))
}

fn has(alloc: Global, store: &mut MemOrigin, key: &[u8]) -> Result<bool, test::Fail> {
    Ok(store.get(alloc, key)?.is_some())
}

fn is_next(
    alloc: Global,
    store: &mut MemOrigin,
    after: Option<&[u8]>,
    key: &[u8],
) -> Result<bool, test::Fail> {
    let next = store.next_key(alloc, after)?;
    Ok(next.is_some_and(|next| next.as_slice() == key))
}

#[test]
fn the_second_get_of_a_key_fails(rt: HostRuntime) -> Result<(), test::Fail> {
    let alloc = rt.alloc();
    for done in [false, true] {
        let mut store = failing_at(alloc, Op::Get, b"k", 2, done)?;
        assert!(rt; store.put(alloc, b"k", b"body") == Ok(Put::Stored));
        assert!(rt; store.put(alloc, b"k", b"other") == Ok(Put::Present));
        assert!(rt; has_body(alloc, &mut store, b"k", b"body")?);
        assert!(rt; matches!(store.get(alloc, b"k"), Err(OriginError::Failed)));
        assert!(rt; has(alloc, &mut store, b"k")?);
    }
    Ok(())
}

#[test]
fn the_second_put_of_a_key_fails_with_or_without_its_effect(
    rt: HostRuntime,
) -> Result<(), test::Fail> {
    let alloc = rt.alloc();
    for done in [false, true] {
        let mut store = failing_at(alloc, Op::Put, b"k", 2, done)?;
        assert!(rt; store.put(alloc, b"k", b"") == Ok(Put::Stored));
        assert!(rt; store.delete(b"k").is_ok());
        assert!(rt; store.put(alloc, b"k", b"") == Err(OriginError::Failed));
        assert!(rt; has(alloc, &mut store, b"k")? == done);
    }
    Ok(())
}

#[test]
fn the_second_deletion_of_a_key_fails_with_or_without_its_effect(
    rt: HostRuntime,
) -> Result<(), test::Fail> {
    let alloc = rt.alloc();
    for done in [false, true] {
        let mut store = failing_at(alloc, Op::Delete, b"k", 2, done)?;
        assert!(rt; store.delete(b"k").is_ok());
        keep(alloc, &mut store, b"k", Vec::new(alloc))?;
        assert!(rt; store.delete(b"k").is_err());
        assert!(rt; has(alloc, &mut store, b"k")? != done);
    }
    Ok(())
}

#[test]
fn the_second_listing_from_the_front_fails(rt: HostRuntime) -> Result<(), test::Fail> {
    let alloc = rt.alloc();
    for done in [false, true] {
        let mut store = failing_at(alloc, Op::NextKey, b"", 2, done)?;
        keep(alloc, &mut store, b"k", Vec::new(alloc))?;
        assert!(rt; is_next(alloc, &mut store, None, b"k")?);
        assert!(rt; matches!(store.next_key(alloc, None), Err(OriginError::Failed)));
        assert!(rt; store.next_key(alloc, Some(b"k"))?.is_none());
    }
    Ok(())
}

#[test]
fn a_new_store_keeps_what_is_put(rt: HostRuntime) -> Result<(), test::Fail> {
    let alloc = rt.alloc();
    let mut store = MemOrigin::new(alloc);
    assert!(rt; store.put(alloc, b"b", b"2") == Ok(Put::Stored));
    assert!(rt; store.put(alloc, b"a", b"1") == Ok(Put::Stored));
    assert!(rt; is_next(alloc, &mut store, Some(b"a"), b"b")?);
    assert!(rt; !has(alloc, &mut store, b"c")?);
    Ok(())
}

#[test]
fn a_fuse_stops_after_its_calls(rt: HostRuntime) -> Result<(), test::Fail> {
    let alloc = rt.alloc();
    for done in [false, true] {
        let mut fuse = FuseOrigin::new(MemOrigin::new(alloc), 1, done);
        assert!(rt; fuse.put(alloc, b"a", b"") == Ok(Put::Stored));
        assert!(rt; fuse.get(alloc, b"a").is_err());
        assert!(rt; fuse.next_key(alloc, None).is_err());
        assert!(rt; fuse.delete(b"a").is_err());
        assert!(rt; fuse.put(alloc, b"b", b"") == Err(OriginError::Failed));
        let mut store = fuse.into_inner();
        assert!(rt; has(alloc, &mut store, b"a")? != done);
        assert!(rt; !has(alloc, &mut store, b"b")?);
    }
    Ok(())
}

#[test]
fn a_fuse_of_no_calls_has_the_effect_of_the_first_at_most(
    rt: HostRuntime,
) -> Result<(), test::Fail> {
    let alloc = rt.alloc();
    for done in [false, true] {
        let mut fuse = FuseOrigin::new(MemOrigin::new(alloc), 0, done);
        assert!(rt; fuse.put(alloc, b"a", b"1") == Err(OriginError::Failed));
        assert!(rt; fuse.put(alloc, b"b", b"") == Err(OriginError::Failed));
        assert!(rt; fuse.delete(b"a").is_err());
        let mut store = fuse.into_inner();
        assert!(rt; has_body(alloc, &mut store, b"a", b"1")? == done);
        assert!(rt; !has(alloc, &mut store, b"b")?);
    }
    Ok(())
}
