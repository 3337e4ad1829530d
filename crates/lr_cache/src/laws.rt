//! A law, as the contract of a function that does nothing: what holds after every log of a cache.
ghost use Rattle.lr_cache.specs.Orderly.{CachesAreOrderly};

/// After every log at most one claim is a caller's, at most one claim or chunk is of a name, and the chunks are at most
/// the capacity.
pub fn caches_are_orderly()
    ensures { CachesAreOrderly }
{}
