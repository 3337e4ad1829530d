//! The cache of a host: whole chunks, and claims that keep two callers from fetching one chunk twice.
//!
//! A caller looks a chunk up. Where it isn't there and nobody else is after it, the caller gets a claim on its name,
//! fetches the chunk and fills it in, or gives the claim up. `call` has the calls and replies, `cache` the object,
//! `places` the searches in its lists; `specs/Machine` says what each call answers and leaves,
//! `specs/Orderly` what holds after every log.
#![tactic(auto)]

mod cache;
mod call;
mod laws;
mod places;

pub use cache::Cache;
pub use call::{CacheCall, CacheReply, Claim};
pub use laws::caches_are_orderly;
