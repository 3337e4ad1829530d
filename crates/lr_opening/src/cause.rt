//! Why a store wasn't opened.

use lr_origin::Key;
use lr_spec::OutOfMemory;

/// Why a store wasn't opened.
#[derive(Drop)]
pub enum StartCause {
    /// The store failed: in the get of this key, or in the listing of its keys.
    Fault(Option<Key>),
    /// The get of a listed key gave nothing.
    Spoiled(Key),
    /// All was read, and this key, in its bytes, breaks a rule of a sound store.
    Foreign(Vec<u8>),
    /// There are 4,294,967,296 keys or more.
    TooMany,
    OutOfMemory,
}

impl From<OutOfMemory> for StartCause {
    ghost use Rattle.std.specs.Prelude.{◌≡◌};
    ghost use Rattle.lr_opening.specs.declared.cause.StartCause.TheVariants.{OutOfMemory as NoMemory};

    ghost from_gives = { λ _ cause. cause ≡ NoMemory };

    fn from(_: OutOfMemory) -> Self {
        StartCause::OutOfMemory
    }
}
