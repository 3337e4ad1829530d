//! The pages and chunks that a range of bytes meets.
ghost use Rattle.std.specs.Prelude.{◌≡◌, ℕ, ◌+◌, ◌-◌, ◌%◌, ◌<◌, ◌≤◌, ◌↔◌};
ghost use Rattle.lr_layout.specs.Spans.{first_part, parts_met, Meets, is_met_in_part};

use crate::{CHUNK, PAGE, RAW_LIMIT};

/// The pages and chunks that a range of bytes meets: the first ones, counted from 0, and how many.
#[derive(Clone, Copy, Debug, PartialEq, Eq)]
pub struct Span {
    pub first_chunk: u32,
    pub chunks: u32,
    pub first_page: u32,
    pub pages: u32,
    /// The first page is met in part only.
    pub head_partial: bool,
    /// The last page is met in part only.
    pub tail_partial: bool,
}

/// The pages and chunks that a range of whole sectors of 512 bytes meets, which isn't empty and ends within the
/// largest device. Offset and length are bytes.
pub fn span_of(offset: u64, length: u64) -> Span
    requires sectors { (offset % 512 ≡ 0) × (length % 512 ≡ 0) }
    requires some { 0 < length }
    requires within { offset + length ≤ RAW_LIMIT }
    ensures chunks { (result.first_chunk ≡ first_part CHUNK offset) × (result.chunks ≡ parts_met CHUNK offset length) }
    ensures pages { (result.first_page ≡ first_part PAGE offset) × (result.pages ≡ parts_met PAGE offset length) }
    ensures head { result.head_partial ≡ is_met_in_part offset length result.first_page }
    ensures tail { result.tail_partial ≡ is_met_in_part offset length (result.first_page + result.pages - 1) }
    // These are the ones that have bytes of the range.
    ensures met_chunks { (chunk : ℕ) → ((result.first_chunk ≤ chunk) × (chunk < result.first_chunk + result.chunks)) ↔ Meets CHUNK offset length chunk }
    ensures met_pages { (page : ℕ) → ((result.first_page ≤ page) × (page < result.first_page + result.pages)) ↔ Meets PAGE offset length page }
{
    let end = offset + length;
    let first_page = offset / PAGE;
    let end_page = end.div_ceil(PAGE);
    let first_chunk = offset / CHUNK;
    Span {
        first_chunk: first_chunk as u32,
        chunks: (end.div_ceil(CHUNK) - first_chunk) as u32,
        first_page: first_page as u32,
        pages: (end_page - first_page) as u32,
        head_partial: first_page * PAGE < offset || end < first_page * PAGE + PAGE,
        tail_partial: (end_page - 1) * PAGE < offset || end < end_page * PAGE,
    }
}
