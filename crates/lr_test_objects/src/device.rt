//! Two partial writers of one page, and reads and zeros across chunks.
ghost use Rattle.std.specs.Prelude.{◌≡◌, ◌≤◌};
ghost use Rattle.lr_device.specs.Answers.{May};

use crate::tally::serve;
use lr_convergent::{Piece, seal_chunk};
use lr_device::{Bytes, Device, DeviceAnswer, DeviceCall, DeviceReply, DeviceStep, Room, answered};
use lr_object::Object;
use lr_spec::OutOfMemory;
use std::alloc::Global;
use std::sync::Arc;
use std::test::Fail;

fn write(alloc: Global, offset: u64, count: usize, byte: u8) -> Result<DeviceCall, OutOfMemory> {
    let bytes = Bytes::of(vec![in alloc; byte; count]?);
    Ok(DeviceCall::Write { offset, bytes })
}

fn read(offset: u64, length: u32) -> DeviceCall {
    DeviceCall::Read { offset, length }
}

fn zero(offset: u64, length: u32) -> DeviceCall {
    DeviceCall::Zero { offset, length }
}

fn plan(alloc: Global, device: &mut Device, caller: u32, call: DeviceCall) -> DeviceAnswer {
    if call.length() > 1_048_576 {
        return DeviceAnswer::OutOfMemory;
    }
    let Ok(call) = Arc::new(alloc, call) else {
        return DeviceAnswer::OutOfMemory;
    };
    serve(alloc, device, caller, DeviceStep::Plan(call))
}

// A commit with a room that is made for this call and so many pages.
fn commit(
    alloc: Global,
    device: &mut Device,
    caller: u32,
    pieces: Vec<Piece>,
    call: &DeviceCall,
    pages: u32,
) -> DeviceAnswer {
    let Ok(room) = Room::make(alloc, call, pages) else {
        return DeviceAnswer::OutOfMemory;
    };
    serve(alloc, device, caller, DeviceStep::Commit { pieces, room })
}

// The only need of a planned call, and its pages.
fn need(answer: &DeviceAnswer) -> Option<(u32, u32)> {
    let DeviceAnswer::Planned { needs, pages } = answer else {
        return None;
    };
    if needs.count() != 1 {
        return None;
    }
    Some((needs.get(0)?, *pages))
}

// How many needs a planned call has, and its pages.
fn counts(answer: &DeviceAnswer) -> Option<(u32, u32)> {
    let DeviceAnswer::Planned { needs, pages } = answer else {
        return None;
    };
    Some((needs.count(), *pages))
}

// Whether a read got these bytes and then only this byte.
fn got(answer: &DeviceAnswer, front: &[u8], rest: u8) -> bool {
    let DeviceAnswer::Committed(DeviceReply::Got(bytes)) = answer else {
        return false;
    };
    bytes.as_slice().starts_with(front)
        && bytes
            .as_slice()
            .iter()
            .skip(front.len())
            .all(|byte| *byte == rest)
}

fn is_done(answer: &DeviceAnswer) -> bool {
    matches!(answer, DeviceAnswer::Committed(DeviceReply::Done))
}

// The piece of a chunk whose plaintext begins with these two bytes and has this byte for the rest.
fn piece(alloc: Global, index: u32, first: u8, second: u8, rest: u8) -> Result<Piece, OutOfMemory> {
    let mut plain = vec![in alloc; rest; 524_288]?;
    if let Some(byte) = plain.first_mut() {
        *byte = first;
    }
    if let Some(byte) = plain.get_mut(1) {
        *byte = second;
    }
    if plain.len() > 524_288 {
        return Err(OutOfMemory);
    }
    let (chunk, key) = seal_chunk(alloc, &[1; 32], &plain)?;
    let chunk = Arc::new(alloc, chunk)?;
    Piece::make(alloc, index, chunk, &key)
}

fn no_pieces(alloc: Global) -> Vec<Piece> {
    Vec::new(alloc)
}

fn one_piece(alloc: Global, index: u32) -> Result<Vec<Piece>, OutOfMemory> {
    let mut pieces = Vec::new(alloc);
    pieces.push(piece(alloc, index, 0x41, 0x42, 0)?)?;
    Ok(pieces)
}

#[test]
fn two_partial_writers(rt: HostRuntime) -> Result<(), Fail> {
    let alloc = rt.alloc();
    let mut device = Device::new(alloc, 8192)?;
    let first = write(alloc, 0, 512, 0x7a)?;
    assert_eq!(rt;
        need(&plan(alloc, &mut device, 1, write(alloc, 0, 512, 0x7a)?)),
        Some((0, 1))
    );
    let second = write(alloc, 512, 512, 0x7b)?;
    assert_eq!(rt;
        need(&plan(alloc, &mut device, 2, write(alloc, 512, 512, 0x7b)?)),
        Some((0, 1))
    );
    assert!(rt;
        matches!(
            plan(alloc, &mut device, 1, read(0, 512)),
            DeviceAnswer::HasPlan
        )
    );
    let lacking = commit(alloc, &mut device, 1, no_pieces(alloc), &first, 1);
    assert!(rt; matches!(lacking, DeviceAnswer::Lacking(0)));
    let small = commit(alloc, &mut device, 1, one_piece(alloc, 0)?, &first, 0);
    assert!(rt; matches!(small, DeviceAnswer::Small));
    assert!(rt; is_done(&commit(alloc, &mut device, 2, one_piece(alloc, 0)?, &second, 1)));
    // The page is written now, so no piece is needed.
    assert!(rt; is_done(&commit(alloc, &mut device, 1, no_pieces(alloc), &first, 1)));
    let none = commit(alloc, &mut device, 1, no_pieces(alloc), &first, 1);
    assert!(rt; matches!(none, DeviceAnswer::NoPlan));
    assert_eq!(rt;
        counts(&plan(alloc, &mut device, 3, read(0, 1024))),
        Some((0, 0))
    );
    let reply = commit(alloc, &mut device, 3, no_pieces(alloc), &read(0, 1024), 0);
    assert!(rt; got(&reply, [0x7a; 512].as_slice(), 0x7b));
    assert!(rt;
        matches!(
            serve(alloc, &mut device, 1, DeviceStep::Reap),
            DeviceAnswer::Nothing
        )
    );
    // Behind the two writes the page has what the image has.
    assert_eq!(rt;
        counts(&plan(alloc, &mut device, 3, read(1024, 512))),
        Some((0, 0))
    );
    let reply = commit(alloc, &mut device, 3, no_pieces(alloc), &read(1024, 512), 0);
    assert!(rt; got(&reply, [].as_slice(), 0));
    assert_eq!(rt; device.entries(), 11);
    assert!(rt; device.entry(10).is_some() && device.entry(11).is_none());
    let overlay = device.overlay();
    assert_eq!(rt; overlay.count(), 2);
    assert!(rt; overlay.page(0).is_some());
    Ok(())
}

// Pieces of the first two chunks: 0x11 all over, and 0x41, 0x42 and then 0x22.
fn two_pieces(alloc: Global) -> Result<Vec<Piece>, OutOfMemory> {
    let mut pieces = Vec::new(alloc);
    pieces.push(piece(alloc, 1, 0x41, 0x42, 0x22)?)?;
    pieces.push(piece(alloc, 0, 0x11, 0x11, 0x11)?)?;
    Ok(pieces)
}

// The bytes of a read, planned and committed with these pieces.
fn bytes_at(
    alloc: Global,
    device: &mut Device,
    offset: u64,
    length: u32,
    pieces: Vec<Piece>,
) -> DeviceAnswer {
    let planned = plan(alloc, device, 7, read(offset, length));
    if !matches!(planned, DeviceAnswer::Planned { .. }) {
        return planned;
    }
    commit(alloc, device, 7, pieces, &read(offset, length), 0)
}

#[test]
fn calls_across_chunks(rt: HostRuntime) -> Result<(), Fail> {
    let alloc = rt.alloc();
    let mut device = Device::new(alloc, 1_056_768)?;
    // Two chunks are needed, in ascending order.
    let planned = plan(alloc, &mut device, 1, read(523_776, 1024));
    assert_eq!(rt; counts(&planned), Some((2, 0)));
    let dropped = serve(alloc, &mut device, 1, DeviceStep::Drop);
    assert!(rt; matches!(dropped, DeviceAnswer::Dropped));
    let again = serve(alloc, &mut device, 1, DeviceStep::Drop);
    assert!(rt; matches!(again, DeviceAnswer::NoPlan));
    let reply = bytes_at(alloc, &mut device, 523_776, 512, two_pieces(alloc)?);
    assert!(rt; got(&reply, [].as_slice(), 0x11));
    let reply = bytes_at(alloc, &mut device, 524_288, 512, two_pieces(alloc)?);
    assert!(rt; got(&reply, [0x41, 0x42].as_slice(), 0x22));
    // Whole pages need nothing; the ends of a range may need a chunk each.
    let call = zero(520_192, 12_288);
    assert_eq!(rt;
        counts(&plan(alloc, &mut device, 1, zero(520_192, 12_288))),
        Some((0, 3))
    );
    assert!(rt; is_done(&commit(alloc, &mut device, 1, no_pieces(alloc), &call, 3)));
    let call = write(alloc, 519_680, 13_312, 0x7c)?;
    let planned = plan(alloc, &mut device, 1, write(alloc, 519_680, 13_312, 0x7c)?);
    assert_eq!(rt; counts(&planned), Some((2, 2)));
    assert!(rt; is_done(&commit(alloc, &mut device, 1, two_pieces(alloc)?, &call, 2)));
    let reply = bytes_at(alloc, &mut device, 519_680, 13_312, no_pieces(alloc));
    assert!(rt; got(&reply, [].as_slice(), 0x7c));
    let reply = bytes_at(alloc, &mut device, 519_168, 1024, no_pieces(alloc));
    assert!(rt; got(&reply, [0x11; 512].as_slice(), 0x7c));
    // Past the end.
    let reply = bytes_at(alloc, &mut device, 1_056_768, 512, no_pieces(alloc));
    assert!(rt; matches!(reply, DeviceAnswer::Committed(DeviceReply::Range)));
    // A caller that is gone leaves its plan.
    assert_eq!(rt;
        counts(&plan(alloc, &mut device, 2, zero(0, 0))),
        Some((0, 0))
    );
    assert!(rt;
        matches!(
            serve(alloc, &mut device, 2, DeviceStep::Reap),
            DeviceAnswer::Reaped
        )
    );
    Ok(())
}

// The most bytes of a call, across three chunks, written and read back.
#[test]
fn the_largest_call_meets_three_chunks(rt: HostRuntime) -> Result<(), Fail> {
    let alloc = rt.alloc();
    let mut device = Device::new(alloc, 1_576_960)?;
    let planned = plan(alloc, &mut device, 1, read(523_776, 1_048_576));
    assert_eq!(rt; counts(&planned), Some((3, 0)));
    let dropped = serve(alloc, &mut device, 1, DeviceStep::Drop);
    assert!(rt; matches!(dropped, DeviceAnswer::Dropped));
    // Whole pages in between need nothing: the first chunk and the last one are met in part of a page.
    let call = write(alloc, 523_776, 1_048_576, 0x7d)?;
    let planned = plan(
        alloc,
        &mut device,
        1,
        write(alloc, 523_776, 1_048_576, 0x7d)?,
    );
    assert_eq!(rt; counts(&planned), Some((2, 257)));
    let mut pieces = two_pieces(alloc)?;
    pieces.push(piece(alloc, 2, 0x33, 0x33, 0x33)?)?;
    assert!(rt; is_done(&commit(alloc, &mut device, 1, pieces, &call, 257)));
    let reply = bytes_at(alloc, &mut device, 523_776, 1_048_576, no_pieces(alloc));
    assert!(rt; got(&reply, [].as_slice(), 0x7d));
    let reply = bytes_at(alloc, &mut device, 523_264, 1_024, no_pieces(alloc));
    assert!(rt; got(&reply, [0x11; 512].as_slice(), 0x7d));
    let reply = bytes_at(alloc, &mut device, 1_571_840, 1_024, no_pieces(alloc));
    assert!(rt; got(&reply, [0x7d; 512].as_slice(), 0x33));
    Ok(())
}

// The largest device and a room for the largest call.
#[test]
fn the_largest_device_and_room_are_made(rt: HostRuntime) -> Result<(), Fail> {
    let alloc = rt.alloc();
    let mut device = Device::new(alloc, 10_737_418_240)?;
    assert_eq!(rt; device.size(), 10_737_418_240);
    let call = zero(10_736_369_664, 1_048_576);
    let planned = plan(alloc, &mut device, 1, zero(10_736_369_664, 1_048_576));
    assert_eq!(rt; counts(&planned), Some((0, 256)));
    assert!(rt; is_done(&commit(alloc, &mut device, 1, no_pieces(alloc), &call, 256)));
    let reply = bytes_at(alloc, &mut device, 10_737_417_728, 512, no_pieces(alloc));
    assert!(rt; got(&reply, [].as_slice(), 0));
    Ok(())
}

// Whether the entry at a place answers a call of so many bytes.
fn answers_at(device: &Device, at: u64, length: u64) -> bool {
    let Some(entry) = device.entry(at) else {
        return false;
    };
    let Some((call, reply)) = answered(entry) else {
        return false;
    };
    call.length() == length && matches!(reply, DeviceReply::Done)
}

#[test]
fn commits_are_the_history(rt: HostRuntime) -> Result<(), Fail> {
    let alloc = rt.alloc();
    let mut device = Device::new(alloc, 8192)?;
    let planned = plan(alloc, &mut device, 1, zero(0, 4096));
    assert_eq!(rt; counts(&planned), Some((0, 1)));
    assert!(rt; is_done(&commit(alloc, &mut device, 1, no_pieces(alloc), &zero(0, 4096), 1)));
    assert_eq!(rt; device.entries(), 2);
    assert!(rt; !answers_at(&device, 0, 4096));
    assert!(rt; answers_at(&device, 1, 4096));
    Ok(())
}
