//! The store of objects as the product sees it, and the keys of its objects.
//!
//! An origin keeps bodies under keys and may fail at any call. Every failure shows in its count of faults, and a
//! failed put or deletion leaves the objects with or without its effect. `origin` holds the trait, `memory` a store
//! in memory that fails where it is told to, `fuse` one that stops after some calls, `one` one that fails one call, `key` the checked keys.
#![tactic(auto)]

mod fuse;
mod key;
mod memory;
mod one;
mod origin;
mod table;
mod text;

pub use fuse::FuseOrigin;
pub use key::{Key, KeyKind, ROOTS_MAX};
pub use lr_text::ImageName;
pub use memory::{Fail, MemOrigin, Op};
pub use one::OneOrigin;
pub use origin::{Origin, OriginError, OriginFailed, Put};
