//! Why a table stays sealed.
ghost use Rattle.std.specs.Prelude.{◌≡◌};
ghost use Rattle.lr_seal.specs.declared.error.UnsealError.TheVariants.{OutOfMemory as NoMemory};

use lr_spec::OutOfMemory;
use thiserror::Error;

/// Why a manifest's keys couldn't be had.
#[derive(Clone, Copy, Debug, PartialEq, Eq, Error)]
pub enum UnsealError {
    /// The tag isn't that of the manifest under the tenant's key.
    #[error("sealed under another key, or changed")]
    Sealed,
    #[error("out of memory")]
    OutOfMemory,
}

impl From<OutOfMemory> for UnsealError {
    ghost from_gives = { λ _ e. e ≡ NoMemory };

    fn from(_: OutOfMemory) -> UnsealError {
        UnsealError::OutOfMemory
    }
}
