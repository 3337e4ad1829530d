//! One thread with two passes.
ghost use Rattle.std.specs.Prelude.{◌≡◌, [], ◌∷◌, IfSome};
ghost use Rattle.lr_test_objects.specs.Lists.{made};

use crate::finish::{Ended, Lists, share};
use lr_cache::{Cache, CacheCall, CacheReply};
use lr_manifest::Name;
use std::alloc::Global;
use std::sync::Wait;

/// The answers of one pass, what the other was told, and what both left.
#[derive(Drop)]
pub struct Alone {
    pub look: CacheReply,
    pub give_up: CacheReply,
    pub count: u64,
    pub cache: Cache,
    pub lists: Lists,
}

/// Looks a chunk up and gives the claim up through a pass of number 1, and counts through the first pass. Every entry
/// of the cache is then one of number 1.
pub fn look_alone<R: Wait>(rt: &R, alloc: Global, cache: Cache, name: Name) -> Option<Alone>
    requires { cache.log ≡ [] }
    ensures { IfSome result (λ a. made a.lists ≡ (0, []) ∷ (1, a.cache.log) ∷ []) }
{
    let (shared, mut first) = share(alloc, cache)?;
    let mut one = shared.split(&mut first, 1);
    let look = shared.call(rt, alloc, &mut one, CacheCall::Look { name });
    let give_up = shared.call(rt, alloc, &mut one, CacheCall::GiveUp);
    let count = shared.count(&mut first);
    shared.join(&mut first, one);
    let (cache, lists) = shared.close(first);
    Some(Alone {
        look,
        give_up,
        count,
        cache,
        lists,
    })
}

/// Shares a cache and takes it back, with no call in between.
pub fn close_at_once(alloc: Global, cache: Cache) -> Option<Ended>
    ensures { IfSome result (λ e. e.cache.capacity ≡ cache.capacity) }
{
    let (shared, first) = share(alloc, cache)?;
    let (cache, lists) = shared.close(first);
    Some(Ended { cache, lists })
}
