//! The images of the scope, and what is made once for all sequences.
use crate::error::ScopeError;
use crate::keys::{Part, TEXTS, place};
use lr_manifest::{CHUNK, Chunk, Manifest};
use lr_origin::{ImageName, Key};
use std::alloc::Global;
use std::sync::Arc;

/// An image: A has the one chunk, B has none.
#[derive(Clone, Copy, Debug, PartialEq, Eq)]
pub enum Image {
    A,
    B,
}

/// The images of the scope.
pub const IMAGES: &[Image] = &[Image::A, Image::B];

impl Image {
    /// The place of its manifest's key in a root.
    pub fn place(self, root: u32) -> usize {
        match self {
            Image::A => place(root, Part::ManifestA),
            Image::B => place(root, Part::ManifestB),
        }
    }

    /// The place of the key that says that it is withdrawn.
    pub fn withdrawn(self) -> usize {
        match self {
            Image::A => 18,
            Image::B => 19,
        }
    }
}

// The SHA-256 of 524,288 bytes of 1.
const NAME: [u8; 32] = [
    0x33, 0xa1, 0x50, 0xbc, 0xeb, 0x13, 0xc1, 0xa9, 0x92, 0x23, 0x1e, 0x65, 0xb4, 0xfa, 0xd1, 0x68,
    0x15, 0x21, 0x2f, 0xc0, 0x6c, 0xdb, 0x40, 0x89, 0x96, 0xd3, 0x2e, 0xeb, 0x2c, 0xef, 0x9e, 0xbb,
];

// A manifest up to its raw length.
const HEAD: [u8; 8] = [0x4c, 0x52, 0x4d, 0x46, 0, 1, 0, 0];

// A raw length of 5,000 bytes, the size of a chunk, and one chunk.
const ONE_CHUNK: [u8; 16] = [0, 0, 0, 0, 0, 0, 0x13, 0x88, 0, 8, 0, 0, 0, 0, 0, 1];

const NO_CHUNK: [u8; 16] = [0, 0, 0, 0, 0, 0, 0, 0, 0, 8, 0, 0, 0, 0, 0, 0];

/// The salt of every root.
pub const SALT: [u8; 32] = [5; 32];

/// The bytes of an image's manifest, made by the creation of this number in this root.
pub fn spelling(
    alloc: Global,
    image: Image,
    root: u32,
    number: u64,
) -> Result<Vec<u8>, ScopeError> {
    let mut bytes = Vec::from_slice(alloc, &HEAD)?;
    match image {
        Image::A => {
            bytes.extend_from_slice(&ONE_CHUNK)?;
            bytes.extend_from_slice(&NAME)?;
        }
        Image::B => bytes.extend_from_slice(&NO_CHUNK)?,
    }
    bytes.extend_from_slice(&root.to_be_bytes())?;
    bytes.extend_from_slice(&number.to_be_bytes())?;
    if image == Image::A {
        bytes.extend_from_slice(&[9u8; 32])?;
    }
    bytes.extend_from_slice(&[3u8; 16])?;
    Ok(bytes)
}

/// What is made once: the chunk of 524,288 bytes of 1, the names of the images, and the keys.
#[derive(Drop)]
pub struct Scope {
    chunk: Arc<Chunk>,
    a: ImageName,
    b: ImageName,
    keys: Vec<Key>,
}

fn name(text: &[u8]) -> Result<ImageName, ScopeError> {
    ImageName::parse(text).ok_or(ScopeError::Refused)
}

fn keys(alloc: Global) -> Result<Vec<Key>, ScopeError> {
    let mut keys = Vec::new(alloc);
    for text in TEXTS.iter() {
        let Some(key) = Key::parse(text) else {
            return Err(ScopeError::Refused);
        };
        keys.push(key)?;
    }
    Ok(keys)
}

fn chunk(alloc: Global) -> Result<Arc<Chunk>, ScopeError> {
    let bytes = vec![in alloc; 1u8; CHUNK]?;
    Ok(Arc::new(alloc, Chunk::of(bytes))?)
}

impl Scope {
    pub fn make(alloc: Global) -> Result<Scope, ScopeError> {
        Ok(Scope {
            chunk: chunk(alloc)?,
            a: name(b"a")?,
            b: name(b"b")?,
            keys: keys(alloc)?,
        })
    }

    pub fn name(&self, image: Image) -> ImageName {
        match image {
            Image::A => self.a,
            Image::B => self.b,
        }
    }

    pub fn chunk(&self) -> Result<Arc<Chunk>, ScopeError> {
        Ok(Arc::try_clone(&self.chunk)?)
    }

    pub fn keys(&self) -> &[Key] {
        &self.keys
    }

    /// The key of a place, or the first one.
    pub fn key(&self, at: usize) -> Result<Key, ScopeError> {
        match self.keys.get(at) {
            Some(key) => Ok(*key),
            None => Err(ScopeError::Refused),
        }
    }
}

/// A manifest of an image, made by the creation of this number in this root.
pub fn manifest(
    alloc: Global,
    image: Image,
    root: u32,
    number: u64,
) -> Result<Arc<Manifest>, ScopeError> {
    let bytes = spelling(alloc, image, root, number)?;
    Ok(Arc::new(alloc, Manifest::parse(alloc, &bytes)?)?)
}

/// Whether a manifest is one of the image.
pub fn is_of(manifest: &Manifest, image: Image) -> bool {
    let names = manifest.names();
    match image {
        Image::A => names.len() == 1 && names.iter().all(|name| name.bytes == NAME),
        Image::B => names.is_empty(),
    }
}
