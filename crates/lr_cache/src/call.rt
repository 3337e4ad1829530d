//! Calls and replies of a cache.
use lr_manifest::{Chunk, Name};
use std::sync::Arc;

/// What a caller asks of a cache.
#[derive(Drop)]
pub enum CacheCall {
    /// Looks a chunk up.
    Look { name: Name },
    /// Puts in the chunk that the caller claimed.
    Fill { chunk: Arc<Chunk> },
    /// Ends the caller's claim without a chunk.
    GiveUp,
    /// Empties the cache; claims stay.
    Evict,
    /// Ends the claim of a caller that is gone.
    Reap,
}

/// What a cache answers.
#[derive(Drop)]
pub enum CacheReply {
    /// The caller has a claim out. Not logged.
    Held,
    /// The chunk, which goes first.
    Hit(Arc<Chunk>),
    /// There is no such chunk, and another caller has a claim on the name. Not logged.
    Busy { holder: u32 },
    /// There is neither: the claim on the name is the caller's.
    Lead,
    /// The caller has no claim, or its claim is on another name.
    NoClaim,
    /// The chunk went first, the last one was dropped where the cache was full, and the claim ended.
    Filled,
    /// The claim ended.
    Given,
    /// So many chunks went.
    Evicted(u32),
    /// The claim ended.
    Reaped,
    /// The caller has no claim. Not logged.
    Nothing,
    /// Nothing changed, and a claim stays. Not logged.
    OutOfMemory,
}

/// That a caller is after the chunk of a name.
#[derive(Clone, Copy)]
pub struct Claim {
    pub name: Name,
    pub caller: u32,
}
