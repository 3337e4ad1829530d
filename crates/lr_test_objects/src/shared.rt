//! What the passes on shared caches come to.
use crate::alone::{close_at_once, look_alone};
use crate::cross::look_across;
use crate::pair::look_in_pairs;
use lr_cache::{Cache, CacheReply};
use lr_manifest::Name;
use lr_object::Object;
use std::test::Fail;

fn name_of(byte: u8) -> Name {
    Name { bytes: [byte; 32] }
}

// How many entries of a caller a cache has.
fn count_of(cache: &Cache, caller: u32) -> u64 {
    let mut count = 0u64;
    for at in 0..cache.entries() {
        if let Some(entry) = cache.entry(at) {
            if entry.caller == caller {
                count = count.saturating_add(1);
            }
        }
    }
    count
}

#[test]
fn a_pass_knows_its_entries_and_the_first_their_number(rt: HostRuntime) -> Result<(), Fail> {
    let alloc = rt.alloc();
    let cache = Cache::new(alloc, 1)?;
    let Some(done) = look_alone(&rt, alloc, cache, name_of(1)) else {
        panic!(rt; "no memory")
    };
    assert!(rt; matches!(done.look, CacheReply::Lead));
    assert!(rt; matches!(done.give_up, CacheReply::Given));
    assert_eq!(rt; done.count, 2);
    assert_eq!(rt; done.cache.entries(), 2);
    assert_eq!(rt; count_of(&done.cache, 1), 2);
    let Some(ended) = close_at_once(alloc, done.cache) else {
        panic!(rt; "no memory")
    };
    assert_eq!(rt; ended.cache.entries(), 2);
    Ok(())
}

#[test]
fn two_threads_share_a_cache(rt: HostRuntime) -> Result<(), Fail> {
    let alloc = rt.alloc();
    let cache = Cache::new(alloc, 1)?;
    let names = (name_of(1), name_of(2));
    let Some(ended) = look_in_pairs(&rt, alloc, cache, names, 1000) else {
        panic!(rt; "no memory")
    };
    for (caller, count) in [(0, 0), (1, 2000), (2, 2000)] {
        assert_eq!(rt; count_of(&ended.cache, caller), count);
    }
    Ok(())
}

#[test]
fn four_threads_cross_four_caches(rt: HostRuntime) -> Result<(), Fail> {
    let alloc = rt.alloc();
    let caches = (
        Cache::new(alloc, 1)?,
        Cache::new(alloc, 1)?,
        Cache::new(alloc, 1)?,
        Cache::new(alloc, 1)?,
    );
    let names = (name_of(1), name_of(2), name_of(3), name_of(4));
    let counts = look_across(&rt, alloc, caches, names, 1000);
    assert!(rt; counts == Some((8000, 8000, 8000, 8000)));
    Ok(())
}
