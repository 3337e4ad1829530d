//! The start and the end of a shared cache.
ghost use Rattle.std.specs.Prelude.{◌≡◌, [], ◌∷◌, IfSome};
ghost use Rattle.lr_turn.specs.Views.{first_view};
ghost use Rattle.lr_test_objects.specs.Lists.{AreOwn};

use lr_cache::{Cache, CacheCall, CacheReply};
use lr_turn::{Joined, Pass, Shared};
use std::alloc::Global;

/// The lists of the passes on a cache.
pub type Lists = Joined<CacheCall, CacheReply, u32>;

/// What a shared cache was in the end.
#[derive(Drop)]
pub struct Ended {
    pub cache: Cache,
    pub lists: Lists,
}

// A shared cache with its first pass.
pub(crate) fn share(alloc: Global, cache: Cache) -> Option<(Shared<Cache>, Pass<Cache>)>
    ensures { IfSome result (λ t. (t.1.place.table_id ≡ t.0.table.shared.table_id) × (t.1.number ≡ 0) × (t.1.place.me.0 ≡ first_view cache.capacity cache.log)) }
{
    Shared::new(alloc, cache).ok()
}

// Joins the passes of two numbers, and closes.
pub(crate) fn finish_two(
    shared: Shared<Cache>,
    mut first: Pass<Cache>,
    one: Pass<Cache>,
    two: Pass<Cache>,
) -> Ended
    requires own { (first.place.table_id ≡ shared.table.shared.table_id) × (one.place.table_id ≡ shared.table.shared.table_id) × (two.place.table_id ≡ shared.table.shared.table_id) }
    requires first { (first.number ≡ 0) × (first.place.me.0.start ≡ []) × (first.place.me.0.joined ≡ []) }
    requires given { first.place.me.0.given ≡ one.number ∷ two.number ∷ [] }
    ensures { AreOwn (0 ∷ one.number ∷ two.number ∷ []) result.cache.log result.lists }
{
    shared.join(&mut first, one);
    shared.join(&mut first, two);
    let (cache, lists) = shared.close(first);
    Ended { cache, lists }
}
