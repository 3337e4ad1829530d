//! Each limit of a count or a sum, at it and past it.
use crate::script::{KEY, outside};
use std::alloc::Global;
use std::test::Fail;

// As many lines of front, a name of two letters, and back.
fn put_named(text: &mut Vec<u8>, count: u8, front: &[u8], back: &[u8]) -> Result<(), Fail> {
    for i in 0..count {
        text.extend_from_slice(front)?;
        text.push(b'a' + i / 26)?;
        text.push(b'a' + i % 26)?;
        text.extend_from_slice(back)?;
        text.push(b'\n')?;
    }
    Ok(())
}

fn put_lines(text: &mut Vec<u8>, count: u32, line: &[u8]) -> Result<(), Fail> {
    for _ in 0..count {
        text.extend_from_slice(line)?;
    }
    Ok(())
}

fn text_of(alloc: Global, front: &[u8]) -> Result<Vec<u8>, Fail> {
    let mut text = Vec::new(alloc);
    text.extend_from_slice(front)?;
    Ok(text)
}

#[test]
fn names(rt: HostRuntime) -> Result<(), Fail> {
    let alloc = rt.alloc();
    let mut text = text_of(alloc, b"script 1\n")?;
    put_named(&mut text, 64, b"host ", b" 1")?;
    assert_eq!(rt; outside(alloc, &text)?, 0);
    let mut devices = text_of(alloc, &text)?;
    text.extend_from_slice(b"host h 1\n")?;
    assert_eq!(rt; outside(alloc, &text)?, 66);
    let mut back = text_of(alloc, b" aa a ")?;
    back.extend_from_slice(KEY)?;
    put_named(&mut devices, 64, b"device ", &back)?;
    assert_eq!(rt; outside(alloc, &devices)?, 0);
    put_named(&mut devices, 1, b"device d", &back)?;
    assert_eq!(rt; outside(alloc, &devices)?, 130);
    let mut text = text_of(alloc, b"script 1\n")?;
    put_named(&mut text, 32, b"actor ", b"")?;
    assert_eq!(rt; outside(alloc, &text)?, 0);
    text.extend_from_slice(b"actor p\n")?;
    assert_eq!(rt; outside(alloc, &text)?, 34);
    Ok(())
}

#[test]
fn sums(rt: HostRuntime) -> Result<(), Fail> {
    let alloc = rt.alloc();
    let mut text = text_of(alloc, b"script 1\nhost a 1024\nhost b 1023\nhost c 1\n")?;
    assert_eq!(rt; outside(alloc, &text)?, 0);
    text.extend_from_slice(b"host d 1\n")?;
    assert_eq!(rt; outside(alloc, &text)?, 5);
    let mut text = text_of(alloc, b"script 1\n")?;
    let mut back = text_of(alloc, b" ")?;
    back.extend_from_slice(KEY)?;
    let mut whole = text_of(alloc, &back)?;
    whole.extend_from_slice(b" 67108864 seed 1")?;
    put_named(&mut text, 3, b"image ", &whole)?;
    text.extend_from_slice(b"actor p\n")?;
    put_named(&mut text, 1, b"create ", &whole)?;
    assert_eq!(rt; outside(alloc, &text)?, 0);
    back.extend_from_slice(b" 1 bytes")?;
    put_named(&mut text, 1, b"create ", &back)?;
    assert_eq!(rt; outside(alloc, &text)?, 7);
    let mut text = text_of(alloc, b"script 1\nhost h 1\ndevice d h a ")?;
    text.extend_from_slice(KEY)?;
    text.extend_from_slice(b"\nactor p\n")?;
    put_lines(&mut text, 254, b"read d 0 1048576\n")?;
    text.extend_from_slice(b"zero d 0 1048576\nwrite d 0 1048576x00\nread d 0 0\n")?;
    assert_eq!(rt; outside(alloc, &text)?, 0);
    text.extend_from_slice(b"zero d 0 1\n")?;
    assert_eq!(rt; outside(alloc, &text)?, 262);
    Ok(())
}

#[test]
fn counts(rt: HostRuntime) -> Result<(), Fail> {
    let alloc = rt.alloc();
    let mut text = text_of(alloc, b"script 1\nactor p\n")?;
    put_lines(&mut text, 19_999, b"sweep 1\n")?;
    text.extend_from_slice(b"after\nsweep 1\n")?;
    assert_eq!(rt; outside(alloc, &text)?, 0);
    text.extend_from_slice(b"sweep 1\n")?;
    assert_eq!(rt; outside(alloc, &text)?, 20_004);
    let mut text = text_of(alloc, b"script 1\nactor p\nschedule")?;
    put_lines(&mut text, 64, b" p 1")?;
    let mut more = text_of(alloc, &text)?;
    text.extend_from_slice(b" rounds\n")?;
    assert_eq!(rt; outside(alloc, &text)?, 0);
    more.extend_from_slice(b" p 1\n")?;
    assert_eq!(rt; outside(alloc, &more)?, 3);
    let mut text = text_of(alloc, b"script 1\nimage a ")?;
    text.extend_from_slice(KEY)?;
    text.extend_from_slice(b" 65 bytes")?;
    put_lines(&mut text, 64, b" 1x00")?;
    let mut more = text_of(alloc, &text)?;
    text.extend_from_slice(b"\n")?;
    assert_eq!(rt; outside(alloc, &text)?, 0);
    more.extend_from_slice(b" 1x00\n")?;
    assert_eq!(rt; outside(alloc, &more)?, 2);
    Ok(())
}

#[test]
fn lengths(rt: HostRuntime) -> Result<(), Fail> {
    let alloc = rt.alloc();
    let mut line = Vec::new(alloc);
    put_lines(&mut line, 4096, b"#")?;
    let mut text = text_of(alloc, b"script 1\n")?;
    text.extend_from_slice(&line)?;
    let mut more = text_of(alloc, &text)?;
    text.extend_from_slice(b"\n")?;
    assert_eq!(rt; outside(alloc, &text)?, 0);
    more.extend_from_slice(b"#\n")?;
    assert_eq!(rt; outside(alloc, &more)?, 2);
    let mut text = text_of(alloc, b"script 1\n")?;
    put_lines(&mut text, 99_999, b"\n")?;
    assert_eq!(rt; outside(alloc, &text)?, 0);
    text.extend_from_slice(b"\n")?;
    assert_eq!(rt; outside(alloc, &text)?, 100_001);
    Ok(())
}

#[test]
fn bytes_of_a_script(rt: HostRuntime) -> Result<(), Fail> {
    let alloc = rt.alloc();
    let mut line = Vec::new(alloc);
    put_lines(&mut line, 4095, b"#")?;
    line.push(b'\n')?;
    let mut text = text_of(alloc, b"script 1\n")?;
    put_lines(&mut text, 4086, b"#")?;
    text.push(b'\n')?;
    put_lines(&mut text, 1023, &line)?;
    assert_eq!(rt; text.len(), 4_194_304);
    assert_eq!(rt; outside(alloc, &text)?, 0);
    text.push(b'\n')?;
    assert_eq!(rt; outside(alloc, &text)?, 1026);
    Ok(())
}
