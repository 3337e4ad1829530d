//! Tables of chunk keys, and manifests that hold them sealed under a tenant's key.
//!
//! The keys, joined, are sealed by AES-256-GCM (SP 800-38D) under the tenant's key and the manifest's nonce; everything
//! before the nonce is the additional data. [`KeyTable::unseal`] undoes [`make_manifest`].
#![tactic(auto)]

mod error;
mod laws;
mod make;
mod table;

pub use error::UnsealError;
pub use laws::{denotes_its_parts, is_denoted_by_tag, made_manifests_denote};
pub use make::make_manifest;
pub use table::KeyTable;

// The bytes of a chunk are named in two crates below, and neither stands on the other.
const _: () = prove!(lr_layout::CHUNK == lr_manifest::CHUNK as u64);
