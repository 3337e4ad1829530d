//! Writes over a base.
ghost use Rattle.std.specs.Prelude.{◌≡◌, ℕ, ◌+◌, ◌-◌, ◌*◌, ◌<◌, ◌≤◌, ◌/◌, ◌%◌, List, length, slice_set, None, Some, get_or, take, drop, unwrap_or, vec_len, true, false, find, option_copied, IsSome, cond, replicate, ◌||◌};
ghost use Rattle.lr_overlay.specs.Pages.{put, over, is_written, is_placed, HasPlaces};
ghost use Rattle.lr_device.specs.Base.{is_at, HasHere};
ghost use Rattle.lr_device.specs.PlainDevice.{offset_of, size_of, is_read};
ghost use Rattle.lr_device.specs.Demand.{first_page, page_count, Wants, HasPieces, AgreesFor, bytes_of, part_start, part_count, unwritten, is_met};

use crate::call::DeviceCall;
use lr_convergent::Piece;
use lr_layout::PAGE;
use lr_overlay::Overlay;

// The first piece of a chunk.
pub(crate) fn find_piece(pieces: &[Piece], index: u32) -> Option<&Piece>
    ensures { option_copied result ≡ find (is_at index) pieces.now }
{
    pieces.iter().find(|p| p.index() == index)
}

// Fills a buffer with bytes that a page of the base has, from one of its blocks of 16 bytes on.
pub(crate) fn read_base(pieces: &[Piece], page: u32, from: usize, into: &mut [u8])
    requires piece { IsSome (find (is_at (page / 128)) pieces.now) }
    requires block { from % 16 ≡ 0 }
    requires within { from + length into.old ≤ 4096 }
    ensures { (base : List ℕ) → HasHere base pieces.now page → 4096 * page + 4096 ≤ length base → into.new ≡ take (length into.old) (drop from (take 4096 (drop (4096 * page) base))) }
{
    match find_piece(pieces, page / 128) {
        Some(piece) => piece.read((page % 128) as usize * 4096 + from, into),
        None => unreachable!(),
    }
}

// A buffer with the bytes that the page has now, or any bytes where all will be written.
fn open_page(
    pages: &mut Overlay,
    spare: &mut Vec<Box<[u8; 4096]>>,
    pieces: &[Piece],
    page: u32,
    count: usize,
) -> Box<[u8; 4096]>
    requires within { page < length pages.old.pages }
    requires placed { is_placed pages.old.leaves page ≡ true }
    requires room { is_written pages.old.pages page ≡ false → 0 < vec_len spare.old }
    requires piece { is_written pages.old.pages page ≡ false → count < 4096 → IsSome (find (is_at (page / 128)) pieces.now) }
    ensures out { pages.new.pages ≡ slice_set pages.old.pages page None }
    ensures place { pages.new.leaves ≡ pages.old.leaves }
    ensures len { length result.value ≡ 4096 }
    ensures room { vec_len spare.old ≡ vec_len spare.new + cond (is_written pages.old.pages page) 0 1 }
    ensures same { count < 4096 → (base : List ℕ) → (is_written pages.old.pages page ≡ false → HasHere base pieces.now page) → 4096 * page + 4096 ≤ length base → result.value ≡ unwrap_or (get_or pages.old.pages page None) (take 4096 (drop (4096 * page) base)) }
{
    if let Some(held) = pages.take_page(page) {
        return held;
    }
    let Some(mut fresh) = spare.pop() else {
        unreachable!();
    };
    if count < 4096 {
        has_all(&fresh);
        read_base(pieces, page, 0, fresh.as_mut_slice());
        return fresh;
    }
    has_all(&fresh);
    fresh
}

// A page has all its bytes.
fn has_all(page: &[u8; 4096])
    ensures { length page.now ≡ 4096 }
{
    let _count = page.len();
}

// Writes bytes into a buffer.
fn put_bytes(buffer: &mut [u8], from: usize, bytes: &[u8])
    requires { from + length bytes.now ≤ length buffer.old }
    ensures { buffer.new ≡ put buffer.old from bytes.now }
{
    let end = from + bytes.len();
    buffer[from..end].copy_from_slice(bytes);
}

// Writes zeros into a buffer.
fn put_zeros(buffer: &mut [u8], from: usize, count: usize)
    requires { from + count ≤ length buffer.old }
    ensures { buffer.new ≡ put buffer.old from (replicate count 0) }
{
    let end = from + count;
    buffer[from..end].fill(0);
}

// Writes bytes of a call, from one of them on, into a buffer.
fn put_part(buffer: &mut [u8], from: usize, call: &DeviceCall, first: usize, count: usize)
    requires change { is_read call.now ≡ false }
    requires bytes { first + count ≤ size_of call.now }
    requires room { from + count ≤ length buffer.old }
    ensures { buffer.new ≡ put buffer.old from (take count (drop first (bytes_of call.now))) }
{
    match call {
        DeviceCall::Read { .. } => unreachable!(),
        DeviceCall::Write { bytes, .. } => {
            let rest = &bytes.as_slice()[first..];
            put_bytes(buffer, from, &rest[..count]);
        }
        DeviceCall::Zero { .. } => put_zeros(buffer, from, count),
    }
}

// Writes a call's bytes of one page.
fn write_page(
    pages: &mut Overlay,
    spare: &mut Vec<Box<[u8; 4096]>>,
    pieces: &[Piece],
    call: &DeviceCall,
    page: u32,
)
    requires change { is_read call.now ≡ false }
    requires range { offset_of call.now + size_of call.now ≤ 10737418240 }
    requires low { first_page call.now ≤ page }
    requires high { 4096 * page < offset_of call.now + size_of call.now }
    requires within { page < length pages.old.pages }
    requires placed { is_placed pages.old.leaves page ≡ true }
    requires room { is_written pages.old.pages page ≡ false → 0 < vec_len spare.old }
    requires piece { Wants (is_written pages.old.pages) call.now page → IsSome (find (is_at (page / 128)) pieces.now) }
    ensures place { pages.new.leaves ≡ pages.old.leaves }
    ensures new { (held : List ℕ) × (pages.new.pages ≡ slice_set (slice_set pages.old.pages page None) page (Some held)) }
    ensures room { vec_len spare.old ≡ vec_len spare.new + cond (is_written pages.old.pages page) 0 1 }
    ensures written { (base : List ℕ) → (Wants (is_written pages.old.pages) call.now page → HasHere base pieces.now page) → length base ≡ 4096 * length pages.old.pages → over 4096 pages.new.pages base ≡ put (over 4096 pages.old.pages base) (offset_of call.now + part_start call.now page) (take (part_count call.now page) (drop (part_start call.now page) (bytes_of call.now))) }
{
    pages.is_whole();
    let offset = call.offset();
    let end = offset + call.length();
    let start = u64::from(page) * PAGE;
    let from = offset.max(start);
    let count = (end.min(start + PAGE) - from) as usize;
    let mut buffer = open_page(pages, spare, pieces, page, count);
    put_part(
        buffer.as_mut_slice(),
        (from - start) as usize,
        call,
        (from - offset) as usize,
        count,
    );
    pages.place(page, buffer);
}

// Writes a call's bytes over the pages that its range meets.
pub(crate) fn write_over(
    pages: &mut Overlay,
    spare: &mut Vec<Box<[u8; 4096]>>,
    pieces: &[Piece],
    call: &DeviceCall,
)
    requires change { is_read call.now ≡ false }
    requires some { 0 < size_of call.now }
    requires within { offset_of call.now + size_of call.now ≤ 4096 * length pages.old.pages }
    requires most { length pages.old.pages ≤ 2621440 }
    requires placed { HasPlaces pages.old.leaves (first_page call.now) (page_count call.now) }
    requires room { unwritten (is_written pages.old.pages) (first_page call.now) (page_count call.now) ≤ vec_len spare.old }
    requires pieces { HasPieces pieces.now (is_written pages.old.pages) call.now }
    ensures count { length pages.new.pages ≡ length pages.old.pages }
    ensures place { pages.new.leaves ≡ pages.old.leaves }
    ensures marks { (page : ℕ) → is_written pages.new.pages page ≡ (is_written pages.old.pages page || is_met call.now page) }
    ensures written { (base : List ℕ) → AgreesFor base pieces.now (is_written pages.old.pages) call.now → length base ≡ 4096 * length pages.old.pages → over 4096 pages.new.pages base ≡ put (over 4096 pages.old.pages base) (offset_of call.now) (bytes_of call.now) }
{
    pages.is_whole();
    let offset = call.offset();
    let first = (offset / PAGE) as u32;
    let end = (offset + call.length()).div_ceil(PAGE) as u32;
    for page in first..end {
        write_page(pages, spare, pieces, call, page);
    }
}
