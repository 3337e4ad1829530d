//! Pages and chunks: how the raw bytes of an image lie on a block device.
//!
//! A page has 4,096 bytes and a chunk 524,288. An image's raw bytes are filled with zeros to a whole number
//! of pages; these padded bytes are what a device shows.
#![tactic(auto)]

ghost use Rattle.std.specs.Prelude.{◌≡◌, ◌+◌, ◌*◌, ◌%◌, ◌<◌, ◌≤◌};
ghost use Rattle.lr_layout.specs.Padded.{padded_length, count_of_chunks};

mod span;

pub use span::{Span, span_of};

/// Bytes of a page.
pub const PAGE: u64 = 4096;

/// Bytes of a chunk.
pub const CHUNK: u64 = 524_288;

/// The most raw bytes of an image.
pub const RAW_LIMIT: u64 = 10_737_418_240;

/// Bytes of the padded bytes of an image with so many raw bytes.
pub fn padded_len(raw: u64) -> u64
    requires { raw ≤ 10737418240 }
    ensures padded { result ≡ padded_length raw }
    ensures whole { result % 4096 ≡ 0 }
    ensures least { (raw ≤ result) × (result < raw + 4096) }
{
    raw.div_ceil(PAGE) * PAGE
}

/// Chunks that hold the padded bytes of an image with so many raw bytes: none for none.
pub fn chunk_count(raw: u64) -> u32
    requires { raw ≤ 10737418240 }
    ensures count { result ≡ count_of_chunks raw }
    ensures enough { padded_length raw ≤ result * 524288 }
    ensures least { result * 524288 < padded_length raw + 524288 }
{
    padded_len(raw).div_ceil(CHUNK) as u32
}
