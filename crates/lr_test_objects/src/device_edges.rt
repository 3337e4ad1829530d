//! Calls at the edges of sectors, pages and chunks and at the device's end, against a plain list of bytes.
ghost use Rattle.std.specs.Prelude.{◌≡◌, ◌≤◌};
ghost use Rattle.lr_device.specs.Answers.{May};

use lr_convergent::{Piece, seal_chunk};
use lr_device::{Bytes, Device, DeviceAnswer, DeviceCall, DeviceReply, DeviceStep, Needs, Room};
use lr_manifest::{Chunk, ChunkKey};
use lr_object::Object;
use lr_spec::OutOfMemory;
use std::alloc::Global;
use std::sync::Arc;
use std::test::Fail;

// Bytes of the device: a chunk and two pages.
const LENGTH: usize = 532_480;

// What a row of the table asks.
#[derive(Clone, Copy)]
enum Kind {
    Read,
    Write(u8),
    Zero,
}

// The bytes of the image: those of each sector have its number modulo 251.
fn image(alloc: Global) -> Result<Vec<u8>, OutOfMemory> {
    let mut bytes = Vec::with_capacity(alloc, LENGTH)?;
    for at in 0..LENGTH {
        bytes.push((at / 512 % 251) as u8)?;
    }
    Ok(bytes)
}

// The whole chunks of these bytes, each sealed with its key.
fn sealed(alloc: Global, bytes: &[u8]) -> Result<Vec<(Arc<Chunk>, ChunkKey)>, OutOfMemory> {
    let mut chunks = Vec::new(alloc);
    for part in bytes.chunks(524_288) {
        if part.len() != 524_288 {
            return Ok(chunks);
        }
        let (chunk, key) = seal_chunk(alloc, &[7; 32], part)?;
        chunks.push((Arc::new(alloc, chunk)?, key))?;
    }
    Ok(chunks)
}

fn pieces_for(
    alloc: Global,
    chunks: &[(Arc<Chunk>, ChunkKey)],
    needs: &Needs,
) -> Result<Vec<Piece>, OutOfMemory> {
    let mut pieces = Vec::new(alloc);
    for at in 0..needs.count() {
        let index = needs.get(at).unwrap_or(0);
        let Some((chunk, key)) = chunks.get(index as usize) else {
            return Err(OutOfMemory);
        };
        let chunk = Arc::try_clone(chunk)?;
        pieces.push(Piece::make(alloc, index, chunk, key)?)?;
    }
    Ok(pieces)
}

fn call_of(alloc: Global, kind: Kind, offset: u64, length: u32) -> Result<DeviceCall, OutOfMemory> {
    match kind {
        Kind::Read => Ok(DeviceCall::Read { offset, length }),
        Kind::Write(byte) => Ok(DeviceCall::Write {
            offset,
            bytes: Bytes::of(vec![in alloc; byte; length as usize]?),
        }),
        Kind::Zero => Ok(DeviceCall::Zero { offset, length }),
    }
}

// Plans and makes a call, with pieces of the image for what it needs.
fn serve(
    alloc: Global,
    device: &mut Device,
    chunks: &[(Arc<Chunk>, ChunkKey)],
    call: DeviceCall,
) -> Result<DeviceAnswer, OutOfMemory> {
    if call.length() > 1_048_576 {
        return Err(OutOfMemory);
    }
    let call = Arc::new(alloc, call)?;
    let kept = Arc::try_clone(&call)?;
    let DeviceAnswer::Planned { needs, pages } = device.apply(alloc, 1, DeviceStep::Plan(kept))
    else {
        return Err(OutOfMemory);
    };
    let pieces = pieces_for(alloc, chunks, &needs)?;
    let room = Room::make(alloc, &call, pages)?;
    Ok(device.apply(alloc, 1, DeviceStep::Commit { pieces, room }))
}

// What a plain list answers to the same call, which it makes: the bytes that it has there, or none where the range
// isn't whole sectors within the list.
fn listed(bytes: &mut [u8], kind: Kind, offset: usize, length: usize) -> Option<&[u8]> {
    if offset % 512 != 0 || length % 512 != 0 || length == 0 {
        return None;
    }
    let range = bytes.get_mut(offset..)?.get_mut(..length)?;
    match kind {
        Kind::Read => {}
        Kind::Write(byte) => range.fill(byte),
        Kind::Zero => range.fill(0),
    }
    Some(range)
}

// Whether the device's answer is the list's.
fn agrees(answer: &DeviceAnswer, kind: Kind, listed: Option<&[u8]>) -> bool {
    let DeviceAnswer::Committed(reply) = answer else {
        return false;
    };
    match (reply, listed) {
        (DeviceReply::Range, None) => true,
        (DeviceReply::Done, Some(_)) => !matches!(kind, Kind::Read),
        (DeviceReply::Got(got), Some(bytes)) => {
            matches!(kind, Kind::Read) && got.as_slice() == bytes
        }
        _ => false,
    }
}

// The calls of the table, one after another, on one device. Two of them need the first chunk of the image: a read across
// its end, and a write that meets its first page and its last one in part. All pages are written then.
const TABLE: [(Kind, u64, u32); 31] = [
    (Kind::Read, 0, 0),
    (Kind::Read, 100, 512),
    (Kind::Read, 512, 100),
    (Kind::Write(1), 8_192, 511),
    (Kind::Write(1), 8_192, 513),
    (Kind::Zero, 8_193, 512),
    (Kind::Read, 531_968, 1_024),
    (Kind::Read, 532_480, 512),
    (Kind::Zero, 531_968, 1_024),
    (Kind::Write(1), 532_480, 512),
    (Kind::Zero, 18_446_744_073_709_551_104, 512),
    (Kind::Write(2), 524_288, 8_192),
    (Kind::Read, 512, 524_288),
    (Kind::Write(3), 3_584, 520_192),
    (Kind::Read, 0, 532_480),
    (Kind::Write(4), 0, 512),
    (Kind::Zero, 512, 512),
    (Kind::Write(5), 3_584, 1_024),
    (Kind::Write(6), 4_096, 4_096),
    (Kind::Zero, 7_680, 512),
    (Kind::Read, 0, 12_288),
    (Kind::Read, 523_776, 1_024),
    (Kind::Zero, 523_776, 1_024),
    (Kind::Write(7), 524_288, 512),
    (Kind::Read, 520_192, 8_192),
    (Kind::Write(8), 519_680, 9_216),
    (Kind::Read, 519_168, 10_240),
    (Kind::Write(9), 531_968, 512),
    (Kind::Zero, 528_384, 3_584),
    (Kind::Read, 528_384, 4_096),
    (Kind::Read, 0, 532_480),
];

#[test]
fn calls_at_edges_are_those_of_a_plain_list(rt: HostRuntime) -> Result<(), Fail> {
    let alloc = rt.alloc();
    let mut list = image(alloc)?;
    let chunks = sealed(alloc, &list)?;
    let mut device = Device::new(alloc, LENGTH as u64)?;
    for (kind, offset, length) in TABLE {
        let call = call_of(alloc, kind, offset, length)?;
        let answer = serve(alloc, &mut device, &chunks, call)?;
        let plain = listed(&mut list, kind, offset as usize, length as usize);
        assert!(rt; agrees(&answer, kind, plain), "{length} bytes at {offset}");
    }
    Ok(())
}
