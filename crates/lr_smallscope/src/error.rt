//! Why a search came to no end.
use lr_manifest::ManifestError;
use lr_spec::OutOfMemory as NoMemory;
use std::alloc::{AllocError, AllocFailed};
use std::io;
use thiserror::Error;

/// Why a search came to no end.
#[derive(Debug, Drop, Error)]
pub enum ScopeError {
    /// A name, a key or a manifest of the scope isn't one.
    #[error("a part of the scope was refused")]
    Refused,
    #[error("out of memory")]
    OutOfMemory,
    /// The output failed.
    #[error(transparent)]
    System(#[from] io::Error),
}

impl From<NoMemory> for ScopeError {
    fn from(_: NoMemory) -> Self {
        ScopeError::OutOfMemory
    }
}

impl From<AllocError> for ScopeError {
    fn from(_: AllocError) -> Self {
        ScopeError::OutOfMemory
    }
}

impl<T: Drop> From<AllocFailed<T>> for ScopeError {
    fn from(_: AllocFailed<T>) -> Self {
        ScopeError::OutOfMemory
    }
}

impl From<ManifestError> for ScopeError {
    fn from(error: ManifestError) -> Self {
        match error {
            ManifestError::OutOfMemory => ScopeError::OutOfMemory,
            _ => ScopeError::Refused,
        }
    }
}
