//! A script read from a source.
ghost use Rattle.std.specs.Prelude.{◌≡◌, ◌<◌, ◌≤◌, ◌+◌, ℕ, IfOk, IfErr, IsErrOf, Option, List};
ghost use Rattle.lr_spec.specs.Rose.{Rose};
ghost use Rattle.lr_script.specs.Limits.{bytes_most};
ghost use Rattle.lr_script.specs.Within.{IsWithin};
ghost use Rattle.lr_top.specs.Top.{IsReadAs, TakesUpTo, IsOutsideAt, HasNoLineOutside};
ghost use Rattle.lr_top.specs.Input.{IfOutside};

use lr_io::{ReadError, Source, read_up_to};
use lr_script::{BYTES_MOST, Script, ScriptError};
use std::alloc::Global;

/// Why no script was read.
#[derive(Clone, Copy, Debug, PartialEq, Eq)]
pub enum InputError {
    /// This line is the first outside the grammar.
    Outside(u32),
    /// The source failed.
    Failed,
    OutOfMemory,
}

/// Reads a script from a source, to its end or to one byte past the limit of a script.
pub fn read_script<I: Source>(alloc: Global, source: &mut I) -> Result<Script, InputError>
    ensures script { IfOk result (λ script. IsReadAs (I.left source.old) script (I.left source.new)) }
    ensures outside { IfErr result (λ e. IfOutside e (λ n. IsOutsideAt (I.left source.old) n)) }
    ensures only { IfOk result (λ _. HasNoLineOutside (I.left source.old)) }
    ensures within { IfOk result (λ script. IsWithin script) }
    ensures bounded { IfErr result (λ e. IfOutside e (λ _. TakesUpTo (I.left source.old) (bytes_most + 1) (I.left source.new))) }
    ensures cause { IsErrOf result InputError.Failed → Rose (I.faults source.old) (I.faults source.new) }
{
    let text = match read_up_to(alloc, source, BYTES_MOST as usize) {
        Ok(text) => text,
        Err(ReadError::Failed) => return Err(InputError::Failed),
        Err(ReadError::OutOfMemory) => return Err(InputError::OutOfMemory),
    };
    lr_script::scripts_are_within();
    match Script::parse(alloc, &text) {
        Ok(script) => Ok(script),
        Err(ScriptError::Line(line)) => Err(InputError::Outside(line)),
        Err(ScriptError::OutOfMemory) => Err(InputError::OutOfMemory),
    }
}
