//! Small stores, each breaking one rule, and keys that come and go.
ghost use Rattle.std.specs.Prelude.{◌^◌, IfOk, IsTrue};
ghost use Rattle.std.specs.FinMap as map;
ghost use Rattle.lr_origin.specs.declared.key.KeyKind.{KeyKind as Kind};
ghost use Rattle.lr_roots.specs.View.{Held, Fits};
ghost use Rattle.lr_roots.specs.Keys.{plain};
ghost use Rattle.lr_roots.specs.Names.{AreFewer, IsNamed};

use crate::sample::{
    A_IN_1, A_IN_2, CHUNK_1, CHUNK_2, DELETED_1, EXPIRED_1, NO_A, ROOT_1, ROOT_2, image, key,
    manifest_of,
};
use lr_manifest::Manifest;
use lr_origin::KeyKind;
use lr_roots::{Catalog, Kept, RootState};
use std::alloc::Global;
use std::sync::Arc;
use std::test::Fail;

const ROOT_3: &[u8] = b"r/0000000003/a";

const B_IN_1: &[u8] = b"r/0000000001/m/b";

const B_IN_2: &[u8] = b"r/0000000002/m/b";

const NO_C: &[u8] = b"w/c";

// A manifest of one chunk for root 1 and this number.
fn manifest(alloc: Global, number: u32) -> Result<Arc<Manifest>, Fail> {
    let bytes = manifest_of(alloc, 1, u64::from(number), &[7; 32])?;
    Ok(Arc::new(alloc, Manifest::parse(alloc, &bytes)?)?)
}

// Image `b` has another manifest in each root, every other image the same one.
fn body(alloc: Global, kind: KeyKind) -> Result<Kept, Fail>
    ensures { IfOk result (λ body. Fits kind (plain body)) }
{
    match kind {
        KeyKind::Root(root) => Ok(Kept::Salt([(root % 256) as u8; 32])),
        KeyKind::Manifest(root, image) => {
            let number = if image.as_bytes() == b"b".as_slice() {
                root
            } else {
                1
            };
            Ok(Kept::Manifest(manifest(alloc, number)?))
        }
        _ => Ok(Kept::Empty),
    }
}

fn has_room(catalog: &Catalog) -> bool
    ensures { IsTrue result → (key : Kind) (held : Held) → AreFewer (IsNamed (map.insert catalog.now.view key held)) (2 ^ 32) }
{
    if catalog.names() > 1000 {
        return false;
    }
    true
}

fn prepare(alloc: Global, catalog: &mut Catalog, text: &[u8]) -> Result<(), Fail> {
    let key = key(text)?;
    if catalog.has(&key) {
        return Ok(());
    }
    if !has_room(catalog) {
        return Err("too many names".into());
    }
    let body = body(alloc, key.kind())?;
    catalog.prepare(alloc, key, body)?;
    Ok(())
}

fn store(alloc: Global, keys: &[&[u8]]) -> Result<Catalog, Fail> {
    let mut catalog = Catalog::new(alloc);
    for text in keys {
        prepare(alloc, &mut catalog, text)?;
        catalog.accept();
    }
    Ok(catalog)
}

#[test]
fn the_first_foreign_key_is_named(rt: HostRuntime) -> Result<(), Fail> {
    let sound: [&[&[u8]]; 6] = [
        &[],
        &[ROOT_1, CHUNK_1, B_IN_1],
        &[ROOT_1, ROOT_2, CHUNK_1, CHUNK_2, A_IN_1, A_IN_2],
        &[ROOT_1, ROOT_2, EXPIRED_1, CHUNK_1, A_IN_1, NO_A],
        &[ROOT_1, ROOT_2, EXPIRED_1, DELETED_1, A_IN_1, NO_A],
        &[ROOT_1, ROOT_2, EXPIRED_1, CHUNK_1, CHUNK_2, A_IN_1, A_IN_2],
    ];
    for keys in sound {
        let catalog = store(rt.alloc(), keys)?;
        assert!(rt; catalog.foreign().is_none());
    }
    // A root below isn't there, a deleted root isn't expired, the greatest root is, the manifests of an image
    // differ, a chunk of a live root isn't there, an image has no home or an expired one.
    let broken: [(&[&[u8]], &[u8]); 9] = [
        (&[ROOT_2], ROOT_2),
        (&[ROOT_1, ROOT_3], ROOT_3),
        (&[ROOT_1, CHUNK_2], CHUNK_2),
        (&[ROOT_1, ROOT_2, DELETED_1], DELETED_1),
        (&[ROOT_1, EXPIRED_1], EXPIRED_1),
        (&[ROOT_1, ROOT_2, CHUNK_1, CHUNK_2, B_IN_1, B_IN_2], B_IN_2),
        (&[ROOT_1, A_IN_1], A_IN_1),
        (&[ROOT_1, ROOT_2, EXPIRED_1, DELETED_1, A_IN_1], A_IN_1),
        (&[ROOT_1, ROOT_2, EXPIRED_1, CHUNK_1, A_IN_1], A_IN_1),
    ];
    for (keys, foreign) in broken {
        let catalog = store(rt.alloc(), keys)?;
        assert!(rt;
            catalog
                .foreign()
                .is_some_and(|key| key.as_bytes() == foreign)
        );
    }
    Ok(())
}

#[test]
fn a_small_store_is_described(rt: HostRuntime) -> Result<(), Fail> {
    let a = image(b"a")?;
    let b = image(b"b")?;
    let keys: [&[u8]; 8] = [
        ROOT_1, ROOT_2, EXPIRED_1, CHUNK_1, A_IN_1, A_IN_2, B_IN_2, NO_C,
    ];
    let catalog = store(rt.alloc(), &keys)?;
    assert!(rt; catalog.state(1) == Some(RootState::Expired));
    assert!(rt; catalog.state(2) == Some(RootState::Active));
    assert!(rt; catalog.home(&a) == Some(2));
    assert!(rt; catalog.counts(1) == (1, 1));
    assert!(rt; catalog.names() == 3);
    assert!(rt; catalog.greatest_number() == 2);
    assert!(rt; catalog.next_image(Some(&a)) == Some(b));
    let next = catalog.next_key(1, None);
    assert!(rt; next.is_some_and(|key| key.as_bytes() == CHUNK_1));
    let last = catalog.next_key(1, next);
    assert!(rt; last.is_some_and(|key| key.as_bytes() == A_IN_1));
    assert!(rt; catalog.next_key(1, last).is_none());
    Ok(())
}

#[test]
fn keys_come_and_go(rt: HostRuntime) -> Result<(), Fail> {
    let a = image(b"a")?;
    let c = image(b"c")?;
    let made = manifest(rt.alloc(), 1)?;
    let keys: [&[u8]; 4] = [ROOT_1, CHUNK_1, A_IN_1, NO_C];
    let mut catalog = store(rt.alloc(), &keys)?;
    prepare(rt.alloc(), &mut catalog, NO_A)?;
    catalog.forget();
    assert!(rt; catalog.salt(1) == Some(&[1u8; 32]));
    assert!(rt; !catalog.withdrawn(&a));
    assert!(rt; catalog.withdrawn(&c));
    // A key that is removed, and then: whether root 1 has a salt, the first chunk of the manifest that isn't there,
    // whether the images are named.
    let removed: [(&[u8], bool, Option<u32>, bool, bool); 5] = [
        (NO_A, true, None, true, true),
        (CHUNK_1, true, Some(0), true, true),
        (NO_C, true, Some(0), true, false),
        (A_IN_1, true, Some(0), false, false),
        (ROOT_1, false, Some(0), false, false),
    ];
    for (text, salted, missing, a_named, c_named) in removed {
        catalog.remove(&key(text)?);
        assert!(rt; catalog.salt(1).is_some() == salted);
        assert!(rt; catalog.missing(1, &made) == missing);
        assert!(rt; catalog.is_named(&a) == a_named);
        assert!(rt; catalog.is_named(&c) == c_named);
    }
    Ok(())
}
