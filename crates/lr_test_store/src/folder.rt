//! A store in a folder of the system. The tests run in one folder, in which each has its own.

use lr_folder::DirOrigin;
use lr_origin::{MemOrigin, Origin, Put};
use std::alloc::Global;
use std::fs;
use std::os::unix::fs::symlink;
use std::test::Fail;

fn store(rt: &HostRuntime, path: &str) -> Result<DirOrigin, Fail> {
    Ok(DirOrigin::new(rt, String::from_str(rt.alloc(), path)?))
}

// All keys of a store, each with a space behind it, or nothing where a listing fails.
fn listed(alloc: Global, store: &mut DirOrigin) -> Result<Option<Vec<u8>>, Fail> {
    let mut text = Vec::new(alloc);
    let mut last: Option<Vec<u8>> = None;
    for _ in 0..100 {
        let after = match &last {
            Some(key) => Some(key.as_slice()),
            None => None,
        };
        let Ok(next) = store.next_key(alloc, after) else {
            return Ok(None);
        };
        let Some(key) = next else {
            return Ok(Some(text));
        };
        text.extend_from_slice(&key)?;
        text.push(b' ')?;
        last = Some(key);
    }
    Ok(None)
}

fn is_listed_as(alloc: Global, store: &mut DirOrigin, keys: &[u8]) -> Result<bool, Fail> {
    Ok(listed(alloc, store)?.is_some_and(|text| text.as_slice() == keys))
}

// Keys in no order, with the bodies that are put.
const OBJECTS: &[(&[u8], &[u8])] = &[
    (b"a/b", b"one"),
    (b"a0", b""),
    (b"a.c", b"two"),
    (b"a-", b"three"),
    (b"a/.tmp", b"four"),
];

// Keys that are deleted, the first of them from what was put.
const ABSENT: &[&[u8]] = &[b"a.c", b"a.c", b"a/none", b"none/b", b"a0/b"];

// Keys of a folder, of a link, of a file in a linked folder, and of no path.
const NO_FILES: &[&[u8]] = &[
    b"inner", b"link", b"other/a", b"", b"/a", b"a/", b"a//b", b"..", b"a/../b", b"./a", b".tmp",
    b".tmp/a", b"a\0b", b"a\xff",
];

#[test]
fn a_folder_keeps_objects(rt: HostRuntime) -> Result<(), Fail> {
    let alloc = rt.alloc();
    fs::create_dir(&rt, "kept")?;
    fs::create_dir(&rt, "kept/store")?;
    fs::create_dir(&rt, "kept/store/empty")?;
    fs::write(&rt, "kept/outside", "kept")?;
    symlink(&rt, "../outside", "kept/store/.tmp")?;
    let mut first = store(&rt, "kept/store")?;
    assert!(rt; is_listed_as(alloc, &mut first, b"")?);
    for (key, body) in OBJECTS {
        assert!(rt;
            first
                .put(alloc, key, body)
                .is_ok_and(|put| put == Put::Stored)
        );
        assert!(rt;
            first
                .put(alloc, key, b"other")
                .is_ok_and(|put| put == Put::Present)
        );
        let got = first.get(alloc, key);
        assert!(rt; got.is_ok_and(|got| got.is_some_and(|got| got.as_slice() == *body)));
    }
    assert!(rt; is_listed_as(alloc, &mut first, b"a- a.c a/.tmp a/b a0 ")?);
    for key in ABSENT {
        assert!(rt; first.delete(key).is_ok());
        assert!(rt; first.get(alloc, key).is_ok_and(|got| got.is_none()));
    }
    assert!(rt; is_listed_as(alloc, &mut first, b"a- a/.tmp a/b a0 ")?);
    assert!(rt; fs::read_to_string(&rt, "kept/outside")?.as_str() == "kept");

    // Another store on the folder fails while this one lives, and then finds what was kept.
    let mut second = store(&rt, "kept/store")?;
    assert!(rt; second.next_key(alloc, None).is_err());
    assert!(rt; second.get(alloc, b"a0").is_err());
    assert!(rt; second.put(alloc, b"new", b"").is_err());
    assert!(rt; second.delete(b"a0").is_err());
    drop(first);
    assert!(rt; is_listed_as(alloc, &mut second, b"a- a/.tmp a/b a0 ")?);
    assert!(rt;
        second.get(alloc, b"a/b").is_ok_and(|got| got.is_some_and(|got| got.as_slice()
            == b"one".as_slice()))
    );
    Ok(())
}

// Whether a store keeps this object.
fn keeps<O: Origin>(alloc: Global, store: &mut O, key: &[u8], body: &[u8]) -> bool {
    let is_stored = store
        .put(alloc, key, body)
        .is_ok_and(|put| put == Put::Stored);
    let got = store.get(alloc, key);
    is_stored && got.is_ok_and(|got| got.is_some_and(|got| got.as_slice() == body))
}

// The largest object is kept, in memory as well, and one byte more is a failure, in a put and in a get.
#[test]
fn objects_have_a_largest_size(rt: HostRuntime) -> Result<(), Fail> {
    let alloc = rt.alloc();
    fs::create_dir(&rt, "sized")?;
    let mut folder = store(&rt, "sized")?;
    let mut body = Vec::new(alloc);
    body.resize(4_194_304, 7)?;
    assert!(rt; keeps(alloc, &mut folder, b"full", &body));
    assert!(rt; keeps(alloc, &mut MemOrigin::new(alloc), b"full", &body));
    body.push(7)?;
    assert!(rt; folder.put(alloc, b"long", &body).is_err());
    assert!(rt; is_listed_as(alloc, &mut folder, b"full ")?);
    fs::write(&rt, "sized/long", body.as_slice())?;
    assert!(rt; folder.get(alloc, b"long").is_err());
    assert!(rt; folder.put(alloc, b"long", b"").is_err());
    Ok(())
}

// What is no file, a folder that isn't there, and keys that are no paths count as failures, and leave the rest usable.
#[test]
fn other_things_are_failures(rt: HostRuntime) -> Result<(), Fail> {
    let alloc = rt.alloc();
    fs::create_dir(&rt, "refused")?;
    for missing in ["refused/none", "", "refused/file"] {
        fs::write(&rt, "refused/file", "no folder")?;
        let mut folder = store(&rt, missing)?;
        assert!(rt; folder.get(alloc, b"a").is_err());
        assert!(rt; folder.put(alloc, b"a", b"").is_err());
        assert!(rt; folder.delete(b"a").is_err());
        assert!(rt; folder.next_key(alloc, None).is_err());
    }
    fs::create_dir(&rt, "refused/store")?;
    fs::create_dir(&rt, "refused/store/inner")?;
    symlink(&rt, "../file", "refused/store/link")?;
    fs::create_dir(&rt, "refused/other")?;
    fs::write(&rt, "refused/other/a", "one")?;
    symlink(&rt, "../other", "refused/store/other")?;
    let mut folder = store(&rt, "refused/store")?;
    for key in NO_FILES {
        assert!(rt; folder.get(alloc, key).is_err());
        assert!(rt; folder.put(alloc, key, b"").is_err());
        assert!(rt; folder.delete(key).is_err());
    }
    assert!(rt; folder.next_key(alloc, None).is_err());
    fs::remove_file(&rt, "refused/store/link")?;
    assert!(rt; folder.next_key(alloc, None).is_err());
    fs::remove_file(&rt, "refused/store/other")?;
    assert!(rt; folder.put(alloc, b"a", b"").is_ok());
    assert!(rt; is_listed_as(alloc, &mut folder, b"a ")?);
    fs::create_dir(&rt, "refused/store/.tmp")?;
    assert!(rt; folder.put(alloc, b"b", b"").is_err());
    assert!(rt; folder.next_key(alloc, None).is_err());
    fs::remove_dir(&rt, "refused/store/.tmp")?;
    assert!(rt; is_listed_as(alloc, &mut folder, b"a ")?);
    assert!(rt; folder.put(alloc, b"..", b"").is_err());
    assert!(rt; is_listed_as(alloc, &mut folder, b"a ")?);
    fs::rename(&rt, "refused/store", "refused/moved")?;
    assert!(rt; folder.put(alloc, b"b", b"").is_err());
    assert!(rt; folder.next_key(alloc, None).is_err());
    Ok(())
}
