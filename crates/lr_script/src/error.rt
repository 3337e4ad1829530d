//! Why bytes are no script.
ghost use Rattle.std.specs.Prelude.{◌≡◌};
ghost use Rattle.lr_script.specs.declared.error.ScriptError.TheVariants.{OutOfMemory as NoMemory};

use lr_spec::OutOfMemory;
use thiserror::Error;

/// Why bytes are no script, or want of memory.
#[derive(Clone, Copy, Debug, PartialEq, Eq, Error)]
pub enum ScriptError {
    /// The number, from 1, of the first line outside the grammar or over a limit.
    #[error("line {0} is outside the grammar")]
    Line(u32),
    #[error("out of memory")]
    OutOfMemory,
}

impl From<OutOfMemory> for ScriptError {
    ghost from_gives = { λ _ e. e ≡ NoMemory };

    fn from(_: OutOfMemory) -> ScriptError {
        ScriptError::OutOfMemory
    }
}
