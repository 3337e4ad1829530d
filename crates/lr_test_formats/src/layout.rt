//! Lengths at the edges of pages and chunks, and ranges.
use lr_layout::{RAW_LIMIT, Span, chunk_count, padded_len, span_of};

#[test]
fn raw_bytes_fill_whole_pages_and_begun_chunks(rt: HostRuntime) {
    for (raw, padded, chunks) in [
        (0, 0, 0),
        (1, 4_096, 1),
        (4_096, 4_096, 1),
        (4_097, 8_192, 1),
        (5_000, 8_192, 1),
        (524_288, 524_288, 1),
        (524_289, 528_384, 2),
        (RAW_LIMIT, 10_737_418_240, 20_480),
    ] {
        assert!(rt; raw <= RAW_LIMIT);
        assert_eq!(rt; padded_len(raw), padded, "at {raw} bytes");
        assert_eq!(rt; chunk_count(raw), chunks, "at {raw} bytes");
    }
}

// A range's offset and length, then its first chunk and how many, its first page and how many, and whether the first
// and the last page are met in part only.
#[test]
fn ranges_meet_pages_and_chunks(rt: HostRuntime) {
    for (offset, length, first_chunk, chunks, first_page, pages, head_partial, tail_partial) in [
        (0, 512, 0, 1, 0, 1, true, true),
        (0, 4_096, 0, 1, 0, 1, false, false),
        (512, 3_584, 0, 1, 0, 1, true, true),
        (3_584, 1_024, 0, 1, 0, 2, true, true),
        (4_096, 8_192, 0, 1, 1, 2, false, false),
        (3_584, 4_608, 0, 1, 0, 2, true, false),
        (4_096, 4_608, 0, 1, 1, 2, false, true),
        (523_776, 1_024, 0, 2, 127, 2, true, true),
        (524_288, 524_288, 1, 1, 128, 128, false, false),
        (523_776, 1_048_576, 0, 3, 127, 257, true, true),
        (10_737_417_728, 512, 20_479, 1, 2_621_439, 1, true, true),
        (0, 10_737_418_240, 0, 20_480, 0, 2_621_440, false, false),
    ] {
        assert!(rt; offset % 512 == 0 && length % 512 == 0 && length > 0);
        assert!(rt; offset <= RAW_LIMIT && length <= RAW_LIMIT - offset);
        let met = Span {
            first_chunk,
            chunks,
            first_page,
            pages,
            head_partial,
            tail_partial,
        };
        assert_eq!(rt; span_of(offset, length), met, "{length} bytes at {offset}");
    }
}
