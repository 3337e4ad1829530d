//! AES (FIPS 197), counter mode (SP 800-38A) and GCM (SP 800-38D).
//!
//! Everything works in place and takes no memory. Three rooms: the block and its key schedule (`lanes`, `block`,
//! `schedule`), counter mode (`counter`), and GCM (`ghash`, `gcm`). What a room computes is fixed by the
//! standard's definition in `specs/`; how it computes that may change without asking the others.
#![tactic(auto)]

mod block;
mod counter;
mod examples;
mod gcm;
mod ghash;
mod key;
mod lanes;
mod schedule;
mod tables;

pub use examples::definitions_meet_examples;
pub use gcm::BadTag;
pub use key::AesKey;
