//! One call over pages and pieces.
ghost use Rattle.std.specs.Prelude.{◌≡◌, ℕ, ◌+◌, ◌*◌, ◌≤◌, List, length, vec_len, vec_capacity, true, false, not};
ghost use Rattle.lr_overlay.specs.Pages.{over, is_written, HasPlaces};
ghost use Rattle.lr_device.specs.PlainDevice.{size_of, is_read, is_in_range, plain_reply, plain_after, reply_length, is_range};
ghost use Rattle.lr_device.specs.Demand.{first_page, page_count, HasPieces, AgreesFor, buffers, reply_size};
ghost use Rattle.lr_device.specs.Machine.{written_after};

use crate::bytes::Bytes;
use crate::call::{DeviceCall, DeviceReply};
use crate::demand::size_of_pages;
use crate::reads::{append, read_over};
use crate::writes::write_over;
use lr_convergent::Piece;
use lr_overlay::Overlay;

/// Makes a call over these pages, with pieces of the base, page buffers and a buffer for the reply's bytes.
pub(crate) fn perform(
    pages: &mut Overlay,
    spare: &mut Vec<Box<[u8; 4096]>>,
    pieces: &[Piece],
    call: &DeviceCall,
    mut out: Vec<u8>,
) -> DeviceReply
    requires pieces { is_in_range (4096 * length pages.old.pages) call.now ≡ true → HasPieces pieces.now (is_written pages.old.pages) call.now }
    requires placed { is_in_range (4096 * length pages.old.pages) call.now ≡ true → is_read call.now ≡ false → HasPlaces pages.old.leaves (first_page call.now) (page_count call.now) }
    requires room { buffers (4096 * length pages.old.pages) (is_written pages.old.pages) call.now ≤ vec_len spare.old }
    requires empty { vec_len out ≡ 0 }
    requires reply { reply_size (4096 * length pages.old.pages) call.now ≤ vec_capacity out }
    ensures count { length pages.new.pages ≡ length pages.old.pages }
    ensures place { pages.new.leaves ≡ pages.old.leaves }
    ensures marks { (page : ℕ) → is_written pages.new.pages page ≡ written_after (4096 * length pages.old.pages) (is_written pages.old.pages) call.now page }
    ensures size { reply_length result ≡ reply_size (4096 * length pages.old.pages) call.now }
    ensures range { is_range result ≡ not (is_in_range (4096 * length pages.old.pages) call.now) }
    ensures reply { (base : List ℕ) → (is_in_range (4096 * length pages.old.pages) call.now ≡ true → AgreesFor base pieces.now (is_written pages.old.pages) call.now) → length base ≡ 4096 * length pages.old.pages → result ≡ plain_reply (over 4096 pages.old.pages base) call.now }
    ensures after { (base : List ℕ) → (is_in_range (4096 * length pages.old.pages) call.now ≡ true → AgreesFor base pieces.now (is_written pages.old.pages) call.now) → length base ≡ 4096 * length pages.old.pages → over 4096 pages.new.pages base ≡ plain_after (over 4096 pages.old.pages base) call.now }
{
    pages.is_whole();
    if !call.is_in_range(size_of_pages(pages)) {
        return DeviceReply::Range;
    }
    if call.is_read() {
        read_over(pages, pieces, call, &mut out);
        return DeviceReply::Got(Bytes::of(out));
    }
    write_over(pages, spare, pieces, call);
    DeviceReply::Done
}

/// The same reply again, in a buffer that has room for its bytes.
pub(crate) fn copy_of(reply: &DeviceReply, mut out: Vec<u8>) -> DeviceReply
    requires empty { vec_len out ≡ 0 }
    requires room { reply_length reply.now ≤ vec_capacity out }
    ensures { result ≡ reply.now }
{
    match reply {
        DeviceReply::Got(bytes) => {
            append(&mut out, bytes.as_slice());
            DeviceReply::Got(Bytes::of(out))
        }
        DeviceReply::Done => DeviceReply::Done,
        DeviceReply::Range => DeviceReply::Range,
    }
}
