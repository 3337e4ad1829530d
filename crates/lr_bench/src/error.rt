//! Why no time was told.
use lr_spec::OutOfMemory as NoMemory;
use std::alloc::{AllocError, AllocFailed};
use std::io;
use thiserror::Error;

/// Why no time was told.
#[derive(Debug, Drop, Error)]
pub enum BenchError {
    /// A word names no task.
    #[error("there is no task `{0}`")]
    Unknown(String),
    /// What a task works on was refused by the product.
    #[error("the input of a task was refused")]
    Refused,
    #[error("out of memory")]
    OutOfMemory,
    /// The clock, the words or the output failed.
    #[error(transparent)]
    System(#[from] io::Error),
}

impl From<NoMemory> for BenchError {
    fn from(_: NoMemory) -> Self {
        BenchError::OutOfMemory
    }
}

impl From<AllocError> for BenchError {
    fn from(_: AllocError) -> Self {
        BenchError::OutOfMemory
    }
}

impl<T: Drop> From<AllocFailed<T>> for BenchError {
    fn from(_: AllocFailed<T>) -> Self {
        BenchError::OutOfMemory
    }
}
