//! What a planned call needs: chunks of the base, page buffers, and a reply's length.
ghost use Rattle.std.specs.Prelude.{◌≡◌, ◌+◌, ◌-◌, ◌*◌, ◌<◌, ◌≤◌, length, true, false, filter, OnOk};
ghost use Rattle.std.specs.List.{list_any, range_with_len};
ghost use Rattle.lr_overlay.specs.Pages.{is_written, HasPlaces, KeepsPlaces};
ghost use Rattle.lr_layout.specs.Spans.{is_met_in_part};
ghost use Rattle.lr_device.specs.PlainDevice.{offset_of, size_of, is_read, is_in_range};
ghost use Rattle.lr_device.specs.Demand.{wants, wants_chunk, demand, buffers, reply_size, unwritten, first_page, page_count, first_chunk, chunk_count};

use crate::call::DeviceCall;
use crate::needs::Needs;
use lr_layout::{PAGE, Span, span_of};
use lr_overlay::Overlay;
use lr_spec::OutOfMemory;

// Pages of a chunk.
const PAGES: u32 = 128;

// Bytes of the device.
pub(crate) fn size_of_pages(overlay: &Overlay) -> u64
    ensures size { result ≡ 4096 * length overlay.now.pages }
    ensures within { result ≤ 10737418240 }
{
    u64::from(overlay.count()) * PAGE
}

fn is_met_in_part(offset: u64, size: u64, page: u32) -> bool
    requires { offset + size ≤ 10737418240 }
    ensures { result ≡ is_met_in_part offset size page }
{
    let from = u64::from(page) * PAGE;
    from < offset || offset + size < from + PAGE
}

// Whether the call needs what the base has of a page.
pub(crate) fn wants(overlay: &Overlay, call: &DeviceCall, page: u32) -> bool
    requires within { page < length overlay.now.pages }
    requires range { offset_of call.now + size_of call.now ≤ 10737418240 }
    ensures { result ≡ wants (is_written overlay.now.pages) call.now page }
{
    !overlay.is_written(page)
        && (call.is_read() || is_met_in_part(call.offset(), call.length(), page))
}

// Whether the call needs a page from the first to before the end.
fn wants_some(overlay: &Overlay, call: &DeviceCall, first: u32, end: u32) -> bool
    requires within { end ≤ length overlay.now.pages }
    requires range { offset_of call.now + size_of call.now ≤ 10737418240 }
    ensures { result ≡ list_any (wants (is_written overlay.now.pages) call.now) (range_with_len first (end - first)) }
{
    for page in first..end {
        if wants(overlay, call, page) {
            return true;
        }
    }
    false
}

// Whether the call needs a chunk.
fn wants_chunk(overlay: &Overlay, call: &DeviceCall, span: &Span, chunk: u32) -> bool
    requires pages { (span.now.first_page ≡ first_page call.now) × (span.now.pages ≡ page_count call.now) }
    requires within { first_page call.now + page_count call.now ≤ length overlay.now.pages }
    requires chunk { chunk < 20480 }
    requires range { offset_of call.now + size_of call.now ≤ 10737418240 }
    ensures { result ≡ wants_chunk (is_written overlay.now.pages) call.now chunk }
{
    let first = span.first_page.max(chunk * PAGES);
    let end = (span.first_page + span.pages).min(chunk * PAGES + PAGES);
    wants_some(overlay, call, first, end)
}

// The demand of a call within the device.
fn demand_within(overlay: &Overlay, call: &DeviceCall) -> Needs
    requires small { size_of call.now ≤ 1048576 }
    requires range { is_in_range (4096 * length overlay.now.pages) call.now ≡ true }
    requires most { length overlay.now.pages ≤ 2621440 }
    ensures { result ≡ filter (wants_chunk (is_written overlay.now.pages) call.now) (range_with_len (first_chunk call.now) (chunk_count call.now)) }
{
    let span = span_of(call.offset(), call.length());
    let mut needs = Needs::none();
    for chunk in span.first_chunk..span.first_chunk + span.chunks {
        if wants_chunk(overlay, call, &span, chunk) {
            needs.push(chunk);
        }
    }
    needs
}

/// The demand of a call over these pages.
pub(crate) fn demand_of(overlay: &Overlay, call: &DeviceCall) -> Needs
    requires small { size_of call.now ≤ 1048576 }
    ensures { result ≡ demand (4096 * length overlay.now.pages) (is_written overlay.now.pages) call.now }
{
    if !call.is_in_range(size_of_pages(overlay)) {
        return Needs::none();
    }
    demand_within(overlay, call)
}

// The pages from the first to before the end that aren't written.
fn count_unwritten(overlay: &Overlay, first: u32, end: u32) -> u32
    requires order { first ≤ end }
    requires within { end ≤ length overlay.now.pages }
    ensures { result ≡ unwritten (is_written overlay.now.pages) first (end - first) }
{
    let mut count = 0;
    for page in first..end {
        if !overlay.is_written(page) {
            count += 1;
        }
    }
    count
}

/// How many page buffers a commit of the call can want.
pub(crate) fn buffers_of(overlay: &Overlay, call: &DeviceCall) -> u32
    ensures { result ≡ buffers (4096 * length overlay.now.pages) (is_written overlay.now.pages) call.now }
{
    if !call.is_in_range(size_of_pages(overlay)) || call.is_read() {
        return 0;
    }
    let span = span_of(call.offset(), call.length());
    count_unwritten(overlay, span.first_page, span.first_page + span.pages)
}

/// Makes places for the pages that a commit of the call can write.
pub(crate) fn reserve_for(overlay: &mut Overlay, call: &DeviceCall) -> Result<(), OutOfMemory>
    ensures kept { overlay.new.pages ≡ overlay.old.pages }
    ensures grows { KeepsPlaces overlay.old.leaves overlay.new.leaves }
    ensures ok { OnOk result (is_in_range (4096 * length overlay.old.pages) call.now ≡ true → is_read call.now ≡ false → HasPlaces overlay.new.leaves (first_page call.now) (page_count call.now)) }
{
    if !call.is_in_range(size_of_pages(overlay)) || call.is_read() {
        return Ok(());
    }
    let span = span_of(call.offset(), call.length());
    overlay.reserve(span.first_page, span.pages)
}

/// Bytes of the reply to a call.
pub(crate) fn reply_size_of(overlay: &Overlay, call: &DeviceCall) -> u64
    ensures { result ≡ reply_size (4096 * length overlay.now.pages) call.now }
{
    if call.is_in_range(size_of_pages(overlay)) && call.is_read() {
        return call.length();
    }
    0
}
