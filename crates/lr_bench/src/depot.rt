//! Tasks over a depot: images are copied to the next root, and the root that they left is collected.
use crate::error::BenchError;
use crate::task::{Work, Worked};
use lr_depot::{Depot, DepotCall, DepotReply};
use lr_manifest::{CHUNK, Chunk, Manifest};
use lr_object::Object;
use lr_origin::{ImageName, MemOrigin};
use std::alloc::Global;

// Chunks of an image, and of all images together.
const CHUNKS: usize = 3;

const ALL_CHUNKS: usize = 64;

const SALT: [u8; 32] = [5; 32];

// A manifest of three chunks up to its names.
const HEAD: [u8; 24] = [
    0x4c, 0x52, 0x4d, 0x46, 0, 1, 0, 0, 0, 0, 0, 0, 0, 0x18, 0, 0, 0, 8, 0, 0, 0, 0, 0, 3,
];

// The chunk of a number below 256: its bytes are all this number.
fn chunk_of(alloc: Global, number: usize) -> Result<Chunk, BenchError> {
    Ok(Chunk::of(vec![in alloc; (number % 256) as u8; CHUNK]?))
}

fn name_of(alloc: Global, number: usize) -> Result<ImageName, BenchError> {
    let text = format!(in alloc; "{number}")?;
    ImageName::parse(text.as_bytes()).ok_or(BenchError::Refused)
}

// The bytes of the manifest of a number, which has three of the chunks of these names.
fn spelling(alloc: Global, names: &[[u8; 32]], number: usize) -> Result<Vec<u8>, BenchError> {
    let mut bytes = Vec::from_slice(alloc, &HEAD)?;
    for at in 0..CHUNKS {
        let Some(name) = names.get(number.saturating_add(at) % ALL_CHUNKS) else {
            return Err(BenchError::Refused);
        };
        bytes.extend_from_slice(name)?;
    }
    bytes.extend_from_slice(&[0, 0, 0, 1])?;
    bytes.extend_from_slice(&(number as u64).to_be_bytes())?;
    bytes.extend_from_slice(&[9; 96])?;
    bytes.extend_from_slice(&[3; 16])?;
    Ok(bytes)
}

fn insert(
    alloc: Global,
    store: &mut MemOrigin,
    key: &str,
    body: Vec<u8>,
) -> Result<(), BenchError> {
    store.insert(alloc, Vec::from_slice(alloc, key.as_bytes())?, body)?;
    Ok(())
}

// Puts all chunks into root 1 of a store. Their names.
fn put_chunks(alloc: Global, store: &mut MemOrigin) -> Result<Vec<[u8; 32]>, BenchError> {
    let mut names = Vec::new(alloc);
    for number in 0..ALL_CHUNKS {
        let chunk = chunk_of(alloc, number)?;
        let name = chunk.name().bytes;
        let mut key = format!(in alloc; "r/0000000001/c/")?;
        for byte in name {
            key.push_str(&format!(in alloc; "{byte:02x}")?)?;
        }
        insert(alloc, store, &key, Vec::from_slice(alloc, chunk.bytes())?)?;
        names.push(name)?;
    }
    Ok(names)
}

// A store in memory with root 1 and so many images of three chunks in it.
fn store_of(alloc: Global, images: usize) -> Result<MemOrigin, BenchError> {
    let mut store = MemOrigin::new(alloc);
    insert(
        alloc,
        &mut store,
        "r/0000000001/a",
        Vec::from_slice(alloc, &SALT)?,
    )?;
    let names = put_chunks(alloc, &mut store)?;
    for number in 1..=images {
        let key = format!(in alloc; "r/0000000001/m/{number}")?;
        insert(alloc, &mut store, &key, spelling(alloc, &names, number)?)?;
    }
    Ok(store)
}

// A depot over such a store, in which root 2 has begun.
fn depot_of(alloc: Global, images: usize) -> Result<Depot<MemOrigin>, BenchError> {
    let Ok(mut depot) = Depot::start(alloc, store_of(alloc, images)?) else {
        return Err(BenchError::Refused);
    };
    match depot.apply(alloc, 1, DepotCall::Rotate { salt: SALT }) {
        DepotReply::Rotated { .. } => Ok(depot),
        _ => Err(BenchError::Refused),
    }
}

// Copies one chunk.
fn copy_one(
    alloc: Global,
    depot: &mut Depot<MemOrigin>,
    session: u64,
    index: u32,
) -> Result<(), BenchError> {
    let DepotReply::Copied(chunk) = depot.apply(alloc, 1, DepotCall::CopyRead { session, index })
    else {
        return Err(BenchError::Refused);
    };
    match depot.apply(alloc, 1, DepotCall::PutChunk { session, chunk }) {
        DepotReply::Kept => Ok(()),
        _ => Err(BenchError::Refused),
    }
}

// Moves the image of a number to root 2.
fn move_one(alloc: Global, depot: &mut Depot<MemOrigin>, number: usize) -> Result<(), BenchError> {
    let image = name_of(alloc, number)?;
    let DepotReply::Moving { session, .. } = depot.apply(
        alloc,
        1,
        DepotCall::BeginMigrate { image },
    ) else {
        return Err(BenchError::Refused);
    };
    for index in 0..3 {
        copy_one(alloc, depot, session, index)?;
    }
    match depot.apply(alloc, 1, DepotCall::FinishMigrate { session }) {
        DepotReply::Moved { .. } => Ok(()),
        _ => Err(BenchError::Refused),
    }
}

// Moves all images to root 2.
fn move_all(alloc: Global, depot: &mut Depot<MemOrigin>, images: usize) -> Result<(), BenchError> {
    for number in 1..=images {
        move_one(alloc, depot, number)?;
    }
    Ok(())
}

/// Moving so many images of three chunks to the next root.
#[derive(Drop)]
pub struct Moving {
    depot: Depot<MemOrigin>,
    images: usize,
}

impl Work for Moving {
    fn prepare(alloc: Global, size: usize) -> Result<Self, BenchError> {
        Ok(Moving {
            depot: depot_of(alloc, size)?,
            images: size,
        })
    }

    fn work(&mut self, alloc: Global) -> Result<Worked, BenchError> {
        move_all(alloc, &mut self.depot, self.images)?;
        let (manifests, _) = self.depot.catalog().counts(2);
        Ok(Worked {
            bytes: self.images.saturating_mul(8),
            made: u64::from(manifests),
        })
    }
}

/// Expiring, deleting and sweeping the root that so many images have left.
#[derive(Drop)]
pub struct Collecting {
    depot: Depot<MemOrigin>,
}

impl Work for Collecting {
    fn prepare(alloc: Global, size: usize) -> Result<Self, BenchError> {
        let mut depot = depot_of(alloc, size)?;
        move_all(alloc, &mut depot, size)?;
        Ok(Collecting { depot })
    }

    fn work(&mut self, alloc: Global) -> Result<Worked, BenchError> {
        let DepotReply::Expired = self.depot.apply(alloc, 1, DepotCall::Expire { root: 1 }) else {
            return Err(BenchError::Refused);
        };
        let DepotReply::Deleted = self.depot.apply(alloc, 1, DepotCall::Delete { root: 1 }) else {
            return Err(BenchError::Refused);
        };
        let mut removed: usize = 0;
        for _ in 0..u64::MAX {
            match self.depot.apply(alloc, 1, DepotCall::Sweep { root: 1 }) {
                DepotReply::Removed(_) => removed = removed.saturating_add(1),
                DepotReply::Swept => break,
                _ => return Err(BenchError::Refused),
            }
        }
        Ok(Worked {
            bytes: removed.saturating_add(3),
            made: removed as u64,
        })
    }
}
