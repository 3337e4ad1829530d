//! Scripts by hand, at the edges of what callers may do to one another.
use crate::made::{Made, MadeBody, MadeImage};
use crate::plain::Tally;
use crate::right::is_right;
use lr_spec::OutOfMemory;
use lr_text::put_number;
use std::alloc::Global;
use std::test::Fail;

// A script over one image of seed 7.
struct Row {
    name: &'static str,
    // Pages of the image, and its bytes before it is padded.
    pages: u32,
    raw: u64,
    devices: u32,
    // The lines behind those of the image and its devices.
    lines: &'static [u8],
    // Calls that are answered.
    calls: u64,
}

const ROWS: &[Row] = &[
    Row {
        name: "a writer and a reader of one sector, a step of each in turn",
        pages: 2,
        raw: 5_000,
        devices: 1,
        lines: b"actor p\nwrite d0 512 512x41\nwrite d0 512 512x42\nactor q\nread d0 512 512\nread d0 512 512\nread d0 0 8192\nschedule rounds\n",
        calls: 5,
    },
    Row {
        name: "two writers of one page, both planned before either commits",
        pages: 1,
        raw: 1,
        devices: 1,
        lines: b"actor p\nwrite d0 0 512x41\nread d0 0 4096\nactor q\nwrite d0 512 512x42\nread d0 0 4096\nschedule p 1 q 1 rounds\n",
        calls: 4,
    },
    Row {
        name: "two devices on one image share nothing that is written",
        pages: 2,
        raw: 8_192,
        devices: 2,
        lines: b"actor p\nwrite d0 0 4096x41\nread d1 0 4096\nactor q\nread d1 0 4096\nread d0 0 4096\n",
        calls: 4,
    },
    Row {
        name: "the last sector, and past it",
        pages: 2,
        raw: 8_191,
        devices: 1,
        lines: b"actor p\nwrite d0 7680 512x41\nwrite d0 7680 1024x42\nzero d0 8192 512\nread d0 7680 512\nread d0 18446744073709551104 512\nread d0 18446744073709551615 1\n",
        calls: 6,
    },
    Row {
        name: "no image to read",
        pages: 0,
        raw: 0,
        devices: 1,
        lines: b"actor p\nread d0 0 512\nwrite d0 0 512x41\nzero d0 0 0\nforge d0 0\ndrop 4 d0 0\n",
        calls: 3,
    },
    Row {
        name: "a caller crashes between its plan and its commit, and another reads",
        pages: 1,
        raw: 4_096,
        devices: 1,
        lines: b"actor p\nwrite d0 0 512x41\nwrite d0 0 512x42\nactor q\nread d0 0 512\ncrash p 1\nschedule p 1 rounds\n",
        calls: 1,
    },
    Row {
        name: "a chunk whose stripes are all damaged is read again",
        pages: 128,
        raw: 524_288,
        devices: 1,
        lines: b"actor p\nread d0 0 512\nforge d0 0\nevict h\nread d0 523776 512\nlose 0\nlose 1\nlose 2\nlose 3\nlose 4\nevict h\nread d0 4096 512\nflip 0 d0 0 0\nflip 1 d0 0 131071\ndrop 2 d0 0\nevict h\nread d0 8192 512\n",
        calls: 4,
    },
    Row {
        name: "an image is withdrawn, moved and collected under its device",
        pages: 1,
        raw: 4_096,
        devices: 1,
        lines: b"actor p\nwrite d0 0 100x41 412x42\nread d0 0 1024\nactor o\nwithdraw i\nrotate 2222222222222222222222222222222222222222222222222222222222222222\nmigrate i\nexpire 1\ndelete 1\nsweep 1\nread d0 0 4096\nafter\nclose d0\nexpire 1\ndelete 1\nsweep 1\n",
        calls: 3,
    },
    Row {
        name: "a page's zeros before its chunk is there, and the rest of the chunk behind them",
        pages: 129,
        raw: 528_383,
        devices: 1,
        lines: b"actor p\nzero d0 4096 4096\nactor q\nread d0 3584 5120\nread d0 520192 8192\nactor r\nwrite d0 0 528384x43\nzero d0 523776 1024\nread d0 0 528384\nschedule rounds\n",
        calls: 6,
    },
];

// The lines of the image and its devices.
const HEAD: &[u8] =
    b"script 1\nroot 1111111111111111111111111111111111111111111111111111111111111111\nhost h 1\nimage i aaaaaaaaaaaaaaaaaaaaaaaaaaaaaaaaaaaaaaaaaaaaaaaaaaaaaaaaaaaaaaaa ";

const DEVICE: &[u8] = b" h i aaaaaaaaaaaaaaaaaaaaaaaaaaaaaaaaaaaaaaaaaaaaaaaaaaaaaaaaaaaaaaaa\n";

// The script of a row, over a store that doesn't fail.
fn made_of(alloc: Global, row: &Row) -> Result<Made, OutOfMemory> {
    let mut text = Vec::from_slice(alloc, HEAD)?;
    put_number(&mut text, row.raw)?;
    text.extend_from_slice(b" seed 7\n")?;
    let mut devices = Vec::new(alloc);
    for at in 0..row.devices {
        text.extend_from_slice(b"device d")?;
        put_number(&mut text, u64::from(at))?;
        text.extend_from_slice(DEVICE)?;
        devices.push(0)?;
    }
    text.extend_from_slice(row.lines)?;
    let mut images = Vec::new(alloc);
    images.push(MadeImage {
        pages: row.pages,
        raw: row.raw,
        body: MadeBody::Seed(7),
    })?;
    Ok(Made {
        text,
        images,
        devices,
        calls: None,
        done: false,
    })
}

// Each row is played right, and nothing that it asks of a device is left out.
#[test]
fn edges(rt: HostRuntime) -> Result<(), Fail> {
    for row in ROWS {
        let made = made_of(rt.alloc(), row)?;
        let mut tally = Tally::new();
        assert!(rt; is_right(rt.alloc(), &made, &mut tally)?, "{}", row.name);
        assert_eq!(rt; tally.calls, row.calls, "{}", row.name);
    }
    Ok(())
}
