//! Why bytes are no manifest.
ghost use Rattle.std.specs.Prelude.{◌≡◌};
ghost use Rattle.lr_manifest.specs.declared.error.ManifestError.TheVariants.{OutOfMemory as NoMemory};

use lr_spec::OutOfMemory;
use std::alloc::AllocError;
use thiserror::Error;

/// The first fault of bytes that are no manifest, or want of memory.
#[derive(Clone, Copy, Debug, PartialEq, Eq, Error)]
pub enum ManifestError {
    /// There are fewer than 24 bytes.
    #[error("fewer than 24 bytes")]
    Truncated,
    /// The first four bytes aren't `LRMF`.
    #[error("another format")]
    Magic,
    /// The version isn't 1.
    #[error("another version")]
    Version,
    /// The reserved field isn't 0, the raw length is past its limit, the chunk size isn't 524,288 or the count
    /// isn't that of the raw length.
    #[error("a field outside its rule")]
    Fields,
    /// The bytes are fewer or more than the count says.
    #[error("another length")]
    Length,
    #[error("out of memory")]
    OutOfMemory,
}

impl From<OutOfMemory> for ManifestError {
    ghost from_gives = { λ _ e. e ≡ NoMemory };

    fn from(_: OutOfMemory) -> ManifestError {
        ManifestError::OutOfMemory
    }
}

impl From<AllocError> for ManifestError {
    ghost from_gives = { λ _ e. e ≡ NoMemory };

    fn from(_: AllocError) -> ManifestError {
        ManifestError::OutOfMemory
    }
}
