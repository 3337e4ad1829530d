//! Sources and sinks in memory, each call failing in turn.

use lr_io::{Line, MemSink, MemSource, ReadError, Sink, SinkError, Source, read_up_to, write_all};
use std::alloc::{AllocError, Global};
use std::test::Fail;

// So many bytes, each the last digit of its place.
fn some_bytes(alloc: Global, count: usize) -> Result<Vec<u8>, AllocError> {
    let mut bytes = Vec::new(alloc);
    for i in 0..count {
        bytes.push((i % 10) as u8)?;
    }
    Ok(bytes)
}

// What is read of 10,000 bytes up to a limit, where one call fails: the number of bytes, or none.
fn read_count(alloc: Global, limit: u16, failing: u64) -> Result<Option<usize>, Fail> {
    let fails = vec![in alloc; failing]?;
    let mut source = MemSource::new(some_bytes(alloc, 10_000)?, fails);
    match read_up_to(alloc, &mut source, usize::from(limit)) {
        Ok(bytes) => Ok(Some(bytes.len())),
        Err(ReadError::Failed) => Ok(None),
        Err(ReadError::OutOfMemory) => Err("out of memory".into()),
    }
}

#[test]
fn a_source_is_read_to_its_end_or_to_a_failing_call(rt: HostRuntime) -> Result<(), Fail> {
    let alloc = rt.alloc();
    // 4,096 bytes a call: three calls give bytes, and the fourth tells the end.
    for (limit, failing, want) in [
        (20_000, 0, None),
        (20_000, 1, None),
        (20_000, 3, None),
        (20_000, 4, Some(10_000)),
        (10_000, 3, None),
        (9_999, 2, None),
        (9_999, 3, Some(10_000)),
        (4_096, 2, Some(4_097)),
        (0, 0, None),
        (0, 1, Some(1)),
    ] {
        let got = read_count(alloc, limit, failing)?;
        assert_eq!(rt; got, want, "limit {limit}, failing call {failing}");
    }
    Ok(())
}

#[test]
fn a_source_goes_on_after_a_failing_call(rt: HostRuntime) -> Result<(), Fail> {
    let alloc = rt.alloc();
    let mut source = MemSource::new(some_bytes(alloc, 5)?, vec![in alloc; 1u64]?);
    let mut buffer = [9; 3];
    assert_eq!(rt; source.read(&mut buffer).ok(), Some(3));
    assert_eq!(rt; buffer, [0, 1, 2]);
    assert_eq!(rt; source.read(&mut buffer).ok(), None);
    assert_eq!(rt; source.read(&mut buffer).ok(), Some(2));
    assert_eq!(rt; buffer, [3, 4, 2]);
    assert_eq!(rt; source.read(&mut buffer).ok(), Some(0));
    Ok(())
}

#[test]
fn a_sink_keeps_what_was_written_before_a_failing_call(rt: HostRuntime) -> Result<(), Fail> {
    let alloc = rt.alloc();
    for (failing, want) in [
        (0u64, b"".as_slice()),
        (1, b"one"),
        (2, b"onetwo"),
        (3, b"onetwothree"),
    ] {
        let mut sink = MemSink::new(alloc, vec![in alloc; failing]?);
        let mut failed = false;
        for piece in [b"one".as_slice(), b"two", b"three"] {
            if !failed {
                failed = write_all(&mut sink, piece).is_err();
            }
        }
        assert_eq!(rt; failed, failing < 3);
        assert_eq!(rt; sink.bytes(), want, "failing call {failing}");
    }
    Ok(())
}

#[test]
fn an_empty_piece_is_not_written_at_all(rt: HostRuntime) -> Result<(), Fail> {
    let alloc = rt.alloc();
    let mut sink = MemSink::new(alloc, vec![in alloc; 0u64]?);
    assert_eq!(rt; write_all(&mut sink, b""), Ok(()));
    assert_eq!(rt; sink.write(b""), Err(SinkError::Failed));
    assert_eq!(rt; sink.write(b"x"), Ok(1));
    Ok(())
}

#[test]
fn a_line_grows_to_its_limit(rt: HostRuntime) {
    let mut line = Line::new();
    assert!(rt; line.is_empty());
    line.push(b"script ");
    line.push(b"line 1");
    assert_eq!(rt; line.as_slice(), b"script line 1".as_slice());
    assert!(rt; !line.is_empty());
    let full = Line::of(&[b'x'; 256]);
    assert_eq!(rt; full.as_slice().len(), 256);
}
