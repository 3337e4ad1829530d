//! The adapters over a reader and a writer that move one byte a call, and fail at one.

use lr_edge::{StdSink, StdSource};
use lr_io::{MemSink, MemSource, ReadError, Sink, SinkError, Source, read_up_to, write_all};
use std::alloc::Global;
use std::io;
use std::io::{ErrorKind, Read, Write};
use std::test::Fail;

// Bytes in memory. Its calls are counted from 0: the one with this number fails.
#[derive(Drop)]
struct OneByte {
    bytes: Vec<u8>,
    taken: usize,
    calls: usize,
    fails: usize,
}

impl OneByte {
    fn new(bytes: Vec<u8>, fails: usize) -> OneByte {
        OneByte {
            bytes,
            taken: 0,
            calls: 0,
            fails,
        }
    }

    // Counts a call.
    fn call(&mut self) -> io::Result<()> {
        let number = self.calls;
        self.calls = number.saturating_add(1);
        if number == self.fails {
            return Err(io::Error::from(ErrorKind::BrokenPipe));
        }
        Ok(())
    }
}

impl Read for OneByte {
    fn read(&mut self, buf: &mut [u8]) -> io::Result<usize> {
        self.call()?;
        let Some(byte) = self.bytes.get(self.taken) else {
            return Ok(0);
        };
        let Some(first) = buf.first_mut() else {
            return Ok(0);
        };
        *first = *byte;
        self.taken = self.taken.saturating_add(1);
        Ok(1)
    }
}

impl Write for OneByte {
    fn write(&mut self, buf: &[u8]) -> io::Result<usize> {
        self.call()?;
        let Some(byte) = buf.first() else {
            return Ok(0);
        };
        self.bytes.push(*byte)?;
        Ok(1)
    }

    fn flush(&mut self) -> io::Result<()> {
        Ok(())
    }
}

// 10,000 bytes, each the last digit of its place.
fn digits(alloc: Global) -> Result<Vec<u8>, Fail> {
    let mut bytes = Vec::new(alloc);
    for at in 0..10_000u16 {
        bytes.push((at % 10) as u8)?;
    }
    Ok(bytes)
}

// Each call gives one byte, so the end is found by call 10,000.
#[test]
fn a_reader_of_one_byte_is_read_to_its_end_or_to_a_failing_call(
    rt: HostRuntime,
) -> Result<(), Fail> {
    let alloc = rt.alloc();
    let bytes = digits(alloc)?;
    for (limit, fails, fault) in [
        (20_000usize, 20_000usize, false),
        (9_999, 10_000, false),
        (10_000, 10_000, true),
        (20_000, 0, true),
        (20_000, 5_000, true),
    ] {
        let mut source = StdSource::new(OneByte::new(bytes.clone()?, fails));
        let read = read_up_to(alloc, &mut source, limit);
        if fault {
            assert!(rt;
                read.is_err_and(|error| error == ReadError::Failed),
                "limit {limit}"
            );
        } else {
            assert!(rt; read.is_ok_and(|read| read == bytes), "limit {limit}");
        }
    }
    Ok(())
}

#[test]
fn a_reader_goes_on_after_a_failing_call(rt: HostRuntime) -> Result<(), Fail> {
    let mut source = StdSource::new(OneByte::new(Vec::from_slice(rt.alloc(), b"ab")?, 1));
    let mut buffer = [9; 3];
    assert_eq!(rt; source.read(&mut buffer).ok(), Some(1));
    assert_eq!(rt; source.read(&mut buffer).ok(), None);
    assert_eq!(rt; source.read(&mut buffer[1..]).ok(), Some(1));
    assert_eq!(rt; buffer, [b'a', b'b', 9]);
    assert_eq!(rt; source.read(&mut buffer).ok(), Some(0));
    Ok(())
}

// A call takes one byte. After a failing one the front is written, and a writer that takes nothing has failed.
#[test]
fn a_writer_of_one_byte_takes_all_or_a_front(rt: HostRuntime) -> Result<(), Fail> {
    let alloc = rt.alloc();
    let bytes = digits(alloc)?;
    for (fails, written) in [(20_000usize, 10_000usize), (0, 0), (1, 1), (9_999, 9_999)] {
        let mut writer = OneByte::new(Vec::new(alloc), fails);
        let mut sink = StdSink::new(&mut writer);
        let done = write_all(&mut sink, &bytes);
        assert_eq!(rt;
            done,
            if written < 10_000 {
                Err(SinkError::Failed)
            } else {
                Ok(())
            }
        );
        drop(sink);
        assert!(rt; bytes.starts_with(&writer.bytes));
        assert_eq!(rt; writer.bytes.len(), written);
    }
    Ok(())
}

// It takes nothing of any piece.
#[derive(Drop)]
struct Full;

impl Write for Full {
    fn write(&mut self, _: &[u8]) -> io::Result<usize> {
        Ok(0)
    }

    fn flush(&mut self) -> io::Result<()> {
        Ok(())
    }
}

#[test]
fn a_writer_that_takes_nothing_has_failed(rt: HostRuntime) {
    let mut sink = StdSink::new(Full);
    assert_eq!(rt; sink.write(b""), Ok(0));
    assert_eq!(rt; sink.write(b"a"), Err(SinkError::Failed));
    assert_eq!(rt; write_all(&mut sink, b"ab"), Err(SinkError::Failed));
}

// The longest script and one byte more, which is as much as the program ever reads.
#[test]
fn the_longest_input_is_read_and_written(rt: HostRuntime) -> Result<(), Fail> {
    let alloc = rt.alloc();
    let bytes = vec![in alloc; 7u8; 4_194_305]?;
    let mut source = MemSource::new(bytes.clone()?, Vec::new(alloc));
    let read = read_up_to(alloc, &mut source, 4_194_304);
    assert!(rt; read.is_ok_and(|read| read == bytes));
    let mut sink = MemSink::new(alloc, Vec::new(alloc));
    assert_eq!(rt; write_all(&mut sink, &bytes), Ok(()));
    assert!(rt; sink.bytes() == bytes.as_slice());
    Ok(())
}
