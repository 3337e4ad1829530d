//! Where bytes come from, and the loop that reads them.
ghost use Rattle.std.specs.Prelude.{◌≡◌, ◌+◌, ◌<◌, ◌≤◌, ◌^◌, List, ℕ, Option, length, take, IfOk, OnErr, IsErrOf};
ghost use Rattle.lr_spec.specs.Rose.{Rose};
ghost use Rattle.lr_io.specs.Streams.{IsAtEnd, Takes, TakesAll};

use lr_spec::OutOfMemory;
use std::alloc::{AllocError, Global};

/// The source failed. Nothing is said of what it gives from now on.
#[derive(Clone, Copy, Debug, PartialEq, Eq)]
pub struct SourceFailed;

/// Bytes that come in.
///
/// A contract sees the bytes left, where the source tells them, and a count of its faults. Memory tells its
/// bytes; a file or a pipe tells none, and then no claim is made of what is read.
pub trait Source {
    /// The bytes left, where the source tells them.
    ghost left: { Self → Option (List ℕ) };

    /// How often the source has failed, which never falls.
    ghost faults: { Self → ℕ };

    /// Moves bytes from the front of what is left to the front of the buffer, and says how many. Nothing is said
    /// of the buffer behind them.
    ///
    /// It gives 0 for a buffer that isn't empty only where no byte is left. `SourceFailed` comes only where the
    /// count of faults rose in this call.
    fn read(&mut self, buffer: &mut [u8]) -> Result<usize, SourceFailed>
        ensures fits { IfOk result (λ n. n ≤ length buffer.old) }
        ensures takes { IfOk result (λ n. Takes (left self.old) (take n buffer.new) (left self.new)) }
        ensures end { IfOk result (λ n. n ≡ 0 → 0 < length buffer.old → IsAtEnd (left self.old)) }
        ensures never_falls { faults self.old ≤ faults self.new }
        ensures cause { OnErr result (Rose (faults self.old) (faults self.new)) };
}

/// Why the bytes of a source were not had.
#[derive(Clone, Copy, Debug, PartialEq, Eq)]
pub enum ReadError {
    /// The source failed in this call: its count of faults rose.
    Failed,
    /// No memory was left for the bytes.
    OutOfMemory,
}

impl From<SourceFailed> for ReadError {
    ghost use Rattle.lr_io.specs.declared.source.ReadError.TheVariants.{Failed};

    ghost from_gives = { λ _ e. e ≡ Failed };

    fn from(_: SourceFailed) -> Self {
        ReadError::Failed
    }
}

impl From<AllocError> for ReadError {
    ghost use Rattle.lr_io.specs.declared.source.ReadError.TheVariants.{OutOfMemory};

    ghost from_gives = { λ _ e. e ≡ OutOfMemory };

    fn from(_: AllocError) -> Self {
        ReadError::OutOfMemory
    }
}

// The most bytes that are asked for at once.
const PIECE: usize = 4096;

/// Reads a source to its end, or to one byte past the limit.
///
/// The result has at most `limit + 1` bytes, taken from the front of what was left. A result of at most `limit`
/// bytes is all of it, and the source is then at its end. `Failed` comes only where the source's count of faults
/// rose in this call. After an error nothing is said of what is left.
pub fn read_up_to<I: Source>(
    alloc: Global,
    source: &mut I,
    limit: usize,
) -> Result<Vec<u8>, ReadError>
    requires { limit < 2 ^ 32 }
    ensures takes { IfOk result (λ v. Takes (I.left source.old) v.items (I.left source.new)) }
    ensures whole { IfOk result (λ v. length v.items ≤ limit → TakesAll (I.left source.old) v.items (I.left source.new)) }
    ensures bounded { IfOk result (λ v. length v.items ≤ limit + 1) }
    ensures never_falls { I.faults source.old ≤ I.faults source.new }
    ensures cause { IsErrOf result ReadError.Failed → Rose (I.faults source.old) (I.faults source.new) }
{
    let mut bytes = Vec::new(alloc);
    let mut buffer = [0; PIECE];
    while bytes.len() <= limit {
        let want = PIECE.min(limit + 1 - bytes.len());
        let piece = &mut buffer[..want];
        let n = source.read(piece)?;
        if n == 0 {
            return Ok(bytes);
        }
        bytes.extend_from_slice(&piece[..n])?;
    }
    Ok(bytes)
}
