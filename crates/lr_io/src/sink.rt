//! Where bytes go, and the loop that writes them all.
ghost use Rattle.std.specs.Prelude.{◌≡◌, ◌<◌, ◌≤◌, List, ℕ, Option, length, take, IfOk, OnOk, OnErr, IsErrOf};
ghost use Rattle.lr_spec.specs.Rose.{Rose};
ghost use Rattle.lr_io.specs.Streams.{Appends, AppendsFront, Keeps};

use std::alloc::{AllocError, AllocFailed};

/// Why a piece was not written.
#[derive(Clone, Copy, Debug, PartialEq, Eq)]
pub enum SinkError {
    /// The sink failed in this call: its count of faults rose.
    Failed,
    /// No memory was left for the piece, which is no fault of the sink.
    OutOfMemory,
}

impl From<AllocError> for SinkError {
    ghost use Rattle.lr_io.specs.declared.sink.SinkError.TheVariants.{OutOfMemory};

    ghost from_gives = { λ _ e. e ≡ OutOfMemory };

    fn from(_: AllocError) -> Self {
        SinkError::OutOfMemory
    }
}

impl<T: Drop> From<AllocFailed<T>> for SinkError {
    ghost use Rattle.lr_io.specs.declared.sink.SinkError.TheVariants.{OutOfMemory};

    ghost from_gives = { λ _ e. e ≡ OutOfMemory };

    fn from(_: AllocFailed<T>) -> Self {
        SinkError::OutOfMemory
    }
}

/// Bytes that go out.
///
/// A contract sees the bytes written, where the sink tells them, and a count of its faults. Memory tells its
/// bytes; a file or a pipe tells none, and then no claim is made of what is written.
pub trait Sink {
    /// The bytes written, where the sink tells them.
    ghost written: { Self → Option (List ℕ) };

    /// How often the sink has failed, which never falls.
    ghost faults: { Self → ℕ };

    /// Writes bytes from the front of the piece, and says how many: at least one of a piece that isn't empty.
    ///
    /// After an error nothing was written. `Failed` comes only where the count of faults rose in this call; want
    /// of memory leaves the count as it was.
    fn write(&mut self, bytes: &[u8]) -> Result<usize, SinkError>
        ensures fits { IfOk result (λ n. n ≤ length bytes.now) }
        ensures some { IfOk result (λ n. 0 < length bytes.now → 0 < n) }
        ensures appends { IfOk result (λ n. Appends (written self.old) (take n bytes.now) (written self.new)) }
        ensures nothing { OnErr result (Keeps (written self.old) (written self.new)) }
        ensures never_falls { faults self.old ≤ faults self.new }
        ensures cause { IsErrOf result SinkError.Failed → Rose (faults self.old) (faults self.new) }
        ensures no_fault { IsErrOf result SinkError.OutOfMemory → faults self.new ≡ faults self.old };
}

/// Writes all the bytes, in as many pieces as the sink takes them.
///
/// After an error a front of the bytes was written. `Failed` comes only where the sink's count of faults rose in
/// this call.
pub fn write_all<W: Sink>(sink: &mut W, bytes: &[u8]) -> Result<(), SinkError>
    ensures all { OnOk result (Appends (W.written sink.old) bytes.now (W.written sink.new)) }
    ensures front { OnErr result (AppendsFront (W.written sink.old) bytes.now (W.written sink.new)) }
    ensures never_falls { W.faults sink.old ≤ W.faults sink.new }
    ensures cause { IsErrOf result SinkError.Failed → Rose (W.faults sink.old) (W.faults sink.new) }
{
    let mut done = 0;
    while done < bytes.len() {
        done += sink.write(&bytes[done..])?;
    }
    Ok(())
}
