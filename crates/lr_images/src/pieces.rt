//! A source, read in pieces.
ghost use Rattle.std.specs.Prelude.{◌≡◌, ◌≤◌, ◌%◌};
ghost use Rattle.lr_spec.specs.Rose.{Rose};
ghost use Rattle.lr_images.specs.Created.{IsNextPiece};

use lr_io::{ReadError, Source, read_up_to};
use lr_manifest::CHUNK;
use std::alloc::Global;

/// The most bytes of an image.
pub(crate) const LIMIT: usize = 67_108_864;

/// What is read of a source at once.
#[derive(Drop)]
pub(crate) enum Read {
    /// A whole chunk. More may come.
    Whole(Vec<u8>),
    /// The bytes before the end, fewer than a chunk has.
    Last(Vec<u8>),
    /// The byte past the limit.
    Past(Vec<u8>),
    Fault,
    OutOfMemory,
}

/// Reads the next piece of a source of which so many bytes were read.
pub(crate) fn read_piece<I: Source>(alloc: Global, source: &mut I, len: usize) -> Read
    requires whole { len % 524288 ≡ 0 }
    requires within { len ≤ 67108864 }
    ensures read { IsNextPiece result len (I.left source.old) (I.left source.new) }
    ensures never_falls { I.faults source.old ≤ I.faults source.new }
    ensures cause { result ≡ Read.Fault → Rose (I.faults source.old) (I.faults source.new) }
{
    let most = CHUNK.min(LIMIT + 1 - len);
    match read_up_to(alloc, source, most - 1) {
        Ok(bytes) => {
            if bytes.len() < most {
                return Read::Last(bytes);
            }
            if len < LIMIT {
                return Read::Whole(bytes);
            }
            Read::Past(bytes)
        }
        Err(ReadError::Failed) => Read::Fault,
        Err(ReadError::OutOfMemory) => Read::OutOfMemory,
    }
}
