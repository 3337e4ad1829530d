//! Lists of values of 32 bytes: joined, and cut again.
ghost use Rattle.std.specs.Prelude.{◌≡◌, ◌≤◌, ◌*◌, ◌++◌, ℕ, List, length, take, IfOk, OnOk};
ghost use Rattle.std.specs.List.{flat_map, AllByRecursion};

use crate::name::{ChunkKey, Name};
use lr_spec::OutOfMemory;
use std::alloc::Global;

/// A value that is 32 bytes.
pub trait Row: Drop {
    /// Its bytes.
    ghost row_bytes: { Self → List ℕ };

    /// The value of these bytes.
    fn of_row(bytes: [u8; 32]) -> Self
        ensures { row_bytes result ≡ bytes };

    /// Its bytes.
    fn as_row(&self) -> &[u8; 32]
        ensures { result.now ≡ row_bytes self.now };
}

impl Row for [u8; 32] {
    ghost row_bytes = { λ key. key };

    fn of_row(bytes: [u8; 32]) -> [u8; 32] {
        bytes
    }

    fn as_row(&self) -> &[u8; 32] {
        self
    }
}

impl Row for Name {
    ghost row_bytes = { λ name. name.bytes };

    fn of_row(bytes: [u8; 32]) -> Name {
        Name { bytes }
    }

    fn as_row(&self) -> &[u8; 32] {
        &self.bytes
    }
}

impl Row for ChunkKey {
    ghost row_bytes = { λ key. key.bytes };

    fn of_row(bytes: [u8; 32]) -> ChunkKey {
        ChunkKey { bytes }
    }

    fn as_row(&self) -> &[u8; 32] {
        &self.bytes
    }
}

/// The first N bytes.
pub(crate) fn front<const N: usize>(bytes: &[u8]) -> [u8; N]
    requires { N ≤ length bytes.now }
    ensures { result ≡ take N bytes.now }
{
    let mut out = [0u8; N];
    out.copy_from_slice(&bytes[..N]);
    out
}

// A row's bytes at the end.
fn put_row<T: Row>(out: &mut Vec<u8>, row: &T) -> Result<(), OutOfMemory>
    ensures { OnOk result (out.new.items ≡ out.old.items ++ T.row_bytes row.now) }
{
    out.extend_from_slice(row.as_row().as_slice())?;
    Ok(())
}

/// The bytes of the rows, joined.
pub fn join_rows<T: Row>(alloc: Global, rows: &[T]) -> Result<Vec<u8>, OutOfMemory>
    ensures { IfOk result (λ v. v.items ≡ flat_map T.row_bytes rows.now) }
{
    let mut out = Vec::new(alloc);
    for row in rows {
        put_row(&mut out, row)?;
    }
    Ok(out)
}

/// So many rows, whose bytes these are, joined.
pub fn cut_rows<T: Row>(alloc: Global, bytes: &[u8], count: usize) -> Result<Vec<T>, OutOfMemory>
    requires { length bytes.now ≡ 32 * count }
    ensures joined { IfOk result (λ v. flat_map T.row_bytes v.items ≡ bytes.now) }
    ensures count { IfOk result (λ v. length v.items ≡ count) }
    ensures long { IfOk result (λ v. AllByRecursion (λ x. length (T.row_bytes x) ≡ 32) v.items) }
{
    let mut rows = Vec::with_capacity(alloc, count)?;
    for i in 0..count {
        rows.push(T::of_row(front(&bytes[32 * i..])))?;
    }
    Ok(rows)
}
