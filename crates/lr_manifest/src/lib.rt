//! Names, chunks and manifests: what the store holds of an image.
//!
//! A chunk has 524,288 bytes and is named by their SHA-256. A manifest lists the chunks of an image and holds
//! their keys, sealed for one tenant. `name` has the 32-byte words, `chunk` the chunks, `manifest` the value of
//! a manifest; `parse` reads its one spelling and `print` writes it. `row` joins lists of 32-byte words and cuts them.
#![tactic(auto)]

mod chunk;
mod error;
mod manifest;
mod name;
mod parse;
mod print;
mod row;

pub use chunk::{CHUNK, Chunk};
pub use error::ManifestError;
pub use manifest::Manifest;
pub use name::{ChunkKey, Name, TenantKey};
pub use print::clear_text;
pub use row::{Row, cut_rows, join_rows};
