//! A short text in place.
ghost use Rattle.std.specs.Prelude.{◌≡◌, ◌+◌, ◌≤◌, ◌++◌, ◌↔◌, [], length, IsTrue};

use std::marker::Model;

/// The most bytes of a `Line`.
pub const LINE_CAPACITY: usize = 256;

/// Text of at most 256 bytes, kept in place, so that no call takes memory.
///
/// A contract sees a `Line` as its bytes.
#[derive(Drop)]
pub struct Line {
    bytes: [u8; LINE_CAPACITY],
    len: usize,
}

impl Model for Line {
    ghost use Rattle.std.specs.Prelude.{ℕ, List, take, ◌≤◌};

    ghost Value = { List ℕ };

    ghost view = { λ l. take l.len l.bytes };

    ghost invariant = { λ l. l.len ≤ 256 };
}

impl Line {
    /// The empty text.
    pub fn new() -> Line
        ensures { result ≡ [] }
    {
        Line {
            bytes: [0; LINE_CAPACITY],
            len: 0,
        }
    }

    /// This text, of at most 256 bytes.
    pub fn of(text: &[u8]) -> Line
        requires { length text.now ≤ LINE_CAPACITY }
        ensures { result ≡ text.now }
    {
        let mut bytes = [0; LINE_CAPACITY];
        bytes[..text.len()].copy_from_slice(text);
        Line {
            bytes,
            len: text.len(),
        }
    }

    /// Adds this text at the end. Both together have at most 256 bytes.
    pub fn push(&mut self, text: &[u8])
        requires { length self.old + length text.now ≤ LINE_CAPACITY }
        ensures { self.new ≡ self.old ++ text.now }
    {
        let end = self.len + text.len();
        self.bytes[self.len..end].copy_from_slice(text);
        self.len = end;
    }

    /// The bytes of the text.
    pub fn as_slice(&self) -> &[u8]
        ensures { result.now ≡ self.now }
    {
        &self.bytes[..self.len]
    }

    /// Whether the text has no bytes.
    pub fn is_empty(&self) -> bool
        ensures { IsTrue result ↔ (self.now ≡ []) }
    {
        self.len == 0
    }
}
