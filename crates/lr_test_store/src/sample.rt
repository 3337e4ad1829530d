//! Keys and bodies that several modules use.
use lr_origin::{Fail as Failing, ImageName, Key, MemOrigin, Op};
use std::alloc::Global;
use std::test::Fail;

pub const ROOT_1: &[u8] = b"r/0000000001/a";

pub const ROOT_2: &[u8] = b"r/0000000002/a";

pub const EXPIRED_1: &[u8] = b"r/0000000001/e";

pub const DELETED_1: &[u8] = b"r/0000000001/d";

pub const CHUNK_1: &[u8] =
    b"r/0000000001/c/0707070707070707070707070707070707070707070707070707070707070707";

pub const CHUNK_2: &[u8] =
    b"r/0000000002/c/0707070707070707070707070707070707070707070707070707070707070707";

pub const A_IN_1: &[u8] = b"r/0000000001/m/a";

pub const A_IN_2: &[u8] = b"r/0000000002/m/a";

pub const NO_A: &[u8] = b"w/a";

// A manifest up to its raw length.
const HEAD: [u8; 8] = [0x4c, 0x52, 0x4d, 0x46, 0, 1, 0, 0];

// A raw length of 5,000 bytes, the size of a chunk, and one chunk.
const ONE_CHUNK: [u8; 16] = [0, 0, 0, 0, 0, 0, 0x13, 0x88, 0, 8, 0, 0, 0, 0, 0, 1];

const NO_CHUNK: [u8; 16] = [0, 0, 0, 0, 0, 0, 0, 0, 0, 8, 0, 0, 0, 0, 0, 0];

// The bytes from the nonce on, with or without a key.
fn put_seal(bytes: &mut Vec<u8>, root: u32, number: u64, has_key: bool) -> Result<(), Fail> {
    bytes.extend_from_slice(&root.to_be_bytes())?;
    bytes.extend_from_slice(&number.to_be_bytes())?;
    if has_key {
        bytes.extend_from_slice(&[9u8; 32])?;
    }
    bytes.extend_from_slice(&[3u8; 16])?;
    Ok(())
}

/// The manifest of 5,000 bytes in the chunk of this name, by the root and the number of its nonce.
pub fn manifest_of(
    alloc: Global,
    root: u32,
    number: u64,
    name: &[u8; 32],
) -> Result<Vec<u8>, Fail> {
    let mut bytes = Vec::from_slice(alloc, &HEAD)?;
    bytes.extend_from_slice(&ONE_CHUNK)?;
    bytes.extend_from_slice(name)?;
    put_seal(&mut bytes, root, number, true)?;
    Ok(bytes)
}

/// The manifest of no bytes, by the root and the number of its nonce.
pub fn manifest_of_nothing(alloc: Global, root: u32, number: u64) -> Result<Vec<u8>, Fail> {
    let mut bytes = Vec::from_slice(alloc, &HEAD)?;
    bytes.extend_from_slice(&NO_CHUNK)?;
    put_seal(&mut bytes, root, number, false)?;
    Ok(bytes)
}

/// A name that is one.
pub fn image(text: &[u8]) -> Result<ImageName, Fail> {
    match ImageName::parse(text) {
        Some(image) => Ok(image),
        None => Err("a name was refused".into()),
    }
}

/// A key that is one.
pub fn key(text: &[u8]) -> Result<Key, Fail> {
    match Key::parse(text) {
        Some(key) => Ok(key),
        None => Err("a key was refused".into()),
    }
}

/// One more object of a store.
pub fn keep(alloc: Global, store: &mut MemOrigin, key: &[u8], body: Vec<u8>) -> Result<(), Fail> {
    store.insert(alloc, key.to_vec(alloc)?, body)?;
    Ok(())
}

/// A store that fails a call of an operation on a key, the first or a later one, with or without its effect.
pub fn failing_at(
    alloc: Global,
    op: Op,
    key: &[u8],
    nth: u32,
    done: bool,
) -> Result<MemOrigin, Fail> {
    let mut fails = Vec::new(alloc);
    fails.push(Failing {
        op,
        key: key.to_vec(alloc)?,
        nth,
        done,
    })?;
    Ok(MemOrigin::failing(alloc, fails))
}
