//! A source and a sink in memory, which fail at chosen calls.
ghost use Rattle.std.specs.Prelude.{◌≡◌, ◌↔◌, ◌≤◌, ◌++◌, [], Some, Contains, IsErr, IsErrOf, IfOk, OnErr, length, min, take, drop, vec_len};
ghost use Rattle.lr_spec.specs.Rose.{next_count};

use crate::sink::{Sink, SinkError};
use crate::source::{Source, SourceFailed};
use std::alloc::Global;
use std::marker::Model;

/// Bytes in memory, which fail to be read at the calls with these numbers, counted from 0.
///
/// A contract sees the bytes left, the numbers of the calls that fail, and the counts of calls and of faults.
#[derive(Drop)]
pub struct MemSource {
    bytes: Vec<u8>,
    fails: Vec<u64>,
    taken: usize,
    calls: u64,
    faults: u64,
}

impl Model for MemSource {
    ghost use Rattle.std.specs.Prelude.{◌≤◌, drop, vec_len};
    ghost use Rattle.lr_io.specs.Memory.{SourceInMemory};

    ghost Value = { SourceInMemory };

    ghost view = { λ s. record { left = drop s.taken s.bytes.items; fails = s.fails.items; calls = s.calls; faults = s.faults } };

    ghost invariant = { λ s. s.taken ≤ vec_len s.bytes };
}

impl MemSource {
    /// A source that gives these bytes.
    pub fn new(bytes: Vec<u8>, fails: Vec<u64>) -> Self
        ensures { result ≡ record { left = bytes.items; fails = fails.items; calls = 0; faults = 0 } }
    {
        MemSource {
            bytes,
            fails,
            taken: 0,
            calls: 0,
            faults: 0,
        }
    }
}

impl Source for MemSource {
    ghost left = { λ s. Some s.left };

    ghost faults = { λ s. s.faults };

    /// Fails exactly at the calls with the chosen numbers. Else it gives as many bytes as are left and fit.
    fn read(&mut self, buffer: &mut [u8]) -> Result<usize, SourceFailed>
        ensures fails { IsErr result ↔ Contains self.old.fails self.old.calls }
        ensures failed { OnErr result (self.new ≡ record self.old { calls = next_count self.old.calls; faults = next_count self.old.faults }) }
        ensures count { IfOk result (λ n. n ≡ min (length buffer.old) (length self.old.left)) }
        ensures taken { IfOk result (λ n. self.new ≡ record self.old { left = drop n self.old.left; calls = next_count self.old.calls }) }
        ensures given { IfOk result (λ n. buffer.new ≡ take n self.old.left ++ drop n buffer.old) }
    {
        let call = self.calls;
        self.calls = call.saturating_add(1);
        if self.fails.contains(&call) {
            self.faults = self.faults.saturating_add(1);
            return Err(SourceFailed);
        }
        let n = buffer.len().min(self.bytes.len() - self.taken);
        buffer[..n].copy_from_slice(&self.bytes[self.taken..self.taken + n]);
        self.taken += n;
        Ok(n)
    }
}

/// Bytes kept in memory, which fail to be written at the calls with these numbers, counted from 0.
///
/// A contract sees the bytes written, the numbers of the calls that fail, and the counts of calls and of faults.
#[derive(Drop)]
pub struct MemSink {
    bytes: Vec<u8>,
    fails: Vec<u64>,
    calls: u64,
    faults: u64,
}

impl Model for MemSink {
    ghost use Rattle.lr_io.specs.Memory.{SinkInMemory};

    ghost Value = { SinkInMemory };

    ghost view = { λ s. record { written = s.bytes.items; fails = s.fails.items; calls = s.calls; faults = s.faults } };
}

impl MemSink {
    /// A sink to which nothing was written. It takes memory as it grows.
    pub fn new(alloc: Global, fails: Vec<u64>) -> Self
        ensures { result ≡ record { written = []; fails = fails.items; calls = 0; faults = 0 } }
    {
        MemSink {
            bytes: Vec::new(alloc),
            fails,
            calls: 0,
            faults: 0,
        }
    }

    /// The bytes written.
    pub fn bytes(&self) -> &[u8]
        ensures { result.now ≡ self.now.written }
    {
        &self.bytes
    }
}

impl Sink for MemSink {
    ghost written = { λ s. Some s.written };

    ghost faults = { λ s. s.faults };

    /// Fails exactly at the calls with the chosen numbers. Else it takes the whole piece, or finds no memory for
    /// it, which is no fault.
    fn write(&mut self, bytes: &[u8]) -> Result<usize, SinkError>
        ensures fails { (result ≡ Err SinkError.Failed) ↔ Contains self.old.fails self.old.calls }
        ensures failed { IsErrOf result SinkError.Failed → self.new ≡ record self.old { calls = next_count self.old.calls; faults = next_count self.old.faults } }
        ensures whole { IfOk result (λ n. n ≡ length bytes.now) }
        ensures added { IfOk result (λ _. self.new ≡ record self.old { written = self.old.written ++ bytes.now; calls = next_count self.old.calls }) }
        ensures no_memory { IsErrOf result SinkError.OutOfMemory → self.new ≡ record self.old { calls = next_count self.old.calls } }
    {
        let call = self.calls;
        self.calls = call.saturating_add(1);
        if self.fails.contains(&call) {
            self.faults = self.faults.saturating_add(1);
            return Err(SinkError::Failed);
        }
        self.bytes.extend_from_slice(bytes)?;
        Ok(bytes.len())
    }
}
