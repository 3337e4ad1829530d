//! The keys of the scope: of three roots, two images and one chunk.

/// The number of keys.
pub const KEYS: usize = 20;

/// The keys of the roots, each root's parts in their order, and then those of the images that are withdrawn.
pub const TEXTS: &[&[u8]] = &[
    b"r/0000000001/a",
    b"r/0000000001/e",
    b"r/0000000001/d",
    b"r/0000000001/m/a",
    b"r/0000000001/m/b",
    b"r/0000000001/c/33a150bceb13c1a992231e65b4fad16815212fc06cdb408996d32eeb2cef9ebb",
    b"r/0000000002/a",
    b"r/0000000002/e",
    b"r/0000000002/d",
    b"r/0000000002/m/a",
    b"r/0000000002/m/b",
    b"r/0000000002/c/33a150bceb13c1a992231e65b4fad16815212fc06cdb408996d32eeb2cef9ebb",
    b"r/0000000003/a",
    b"r/0000000003/e",
    b"r/0000000003/d",
    b"r/0000000003/m/a",
    b"r/0000000003/m/b",
    b"r/0000000003/c/33a150bceb13c1a992231e65b4fad16815212fc06cdb408996d32eeb2cef9ebb",
    b"w/a",
    b"w/b",
];

/// The greatest root of the scope.
pub const ROOTS: u32 = 3;

/// A part of a root.
#[derive(Clone, Copy)]
pub enum Part {
    Salt,
    Expired,
    Deleted,
    ManifestA,
    ManifestB,
    Chunk,
}

/// The parts of a root, in their order.
pub const PARTS: &[Part] = &[
    Part::Salt,
    Part::Expired,
    Part::Deleted,
    Part::ManifestA,
    Part::ManifestB,
    Part::Chunk,
];

/// The place of a root's key among the keys.
pub fn place(root: u32, part: Part) -> usize {
    let before = (root as usize).saturating_sub(1) * 6;
    match part {
        Part::Salt => before,
        Part::Expired => before + 1,
        Part::Deleted => before + 2,
        Part::ManifestA => before + 3,
        Part::ManifestB => before + 4,
        Part::Chunk => before + 5,
    }
}

/// The place of a key, if it is of the scope.
pub fn place_of(text: &[u8]) -> Option<usize> {
    TEXTS.iter().position(|key| *key == text)
}

/// A set of keys, by their places.
#[derive(Clone, Copy, PartialEq, Eq)]
pub struct KeySet {
    has: [bool; KEYS],
}

impl KeySet {
    pub fn new() -> KeySet {
        KeySet { has: [false; KEYS] }
    }

    pub fn has(&self, at: usize) -> bool {
        match self.has.get(at) {
            Some(has) => *has,
            None => false,
        }
    }

    pub fn add(&mut self, at: usize) {
        if let Some(has) = self.has.get_mut(at) {
            *has = true;
        }
    }

    /// Whether a root has a part.
    pub fn has_part(&self, root: u32, part: Part) -> bool {
        self.has(place(root, part))
    }
}
