//! Each kind of line, good and with each of its words spoiled, and each limit at it and past it.
use lr_script::{Schedule, Script, ScriptError, Setup};
use std::alloc::Global;
use std::test::Fail;

/// A key's word.
pub const KEY: &[u8] = b"00112233445566778899aabbccddeeff00112233445566778899aabbccddeeff";

/// The number of the line that is outside, or 0 where the text is a script.
pub fn outside(alloc: Global, text: &[u8]) -> Result<u32, Fail> {
    match Script::parse(alloc, text) {
        Ok(_) => Ok(0),
        Err(ScriptError::Line(n)) => Ok(n),
        Err(ScriptError::OutOfMemory) => Err("memory".into()),
    }
}

// A line more, in which `K` stands for a key.
fn put(text: &mut Vec<u8>, line: &[u8]) -> Result<(), Fail> {
    for b in line {
        if *b == b'K' {
            text.extend_from_slice(KEY)?;
        } else {
            text.push(*b)?;
        }
    }
    text.push(b'\n')?;
    Ok(())
}

fn text_of(alloc: Global, lines: &[&[u8]]) -> Result<Vec<u8>, Fail> {
    let mut text = Vec::new(alloc);
    for line in lines {
        put(&mut text, line)?;
    }
    Ok(text)
}

// What is told of a line behind a front.
fn told(alloc: Global, front: &[&[u8]], line: &[u8]) -> Result<u32, Fail> {
    let mut text = text_of(alloc, front)?;
    put(&mut text, line)?;
    outside(alloc, &text)
}

// Each of the lines may come behind the front.
fn all_good(alloc: Global, front: &[&[u8]], lines: &[&[u8]]) -> Result<(), Fail> {
    for line in lines {
        if told(alloc, front, line)? != 0 {
            return Err(Fail::from("a good line"));
        }
    }
    Ok(())
}

// None of the lines may come behind the front: each is the line outside.
fn none_good(alloc: Global, front: &[&[u8]], lines: &[&[u8]]) -> Result<(), Fail> {
    for line in lines {
        if told(alloc, front, line)? as usize != front.len() + 1 {
            return Err(Fail::from("a bad line"));
        }
    }
    Ok(())
}

const SETUP: [&[u8]; 4] = [
    b"script 1",
    b"host h 4",
    b"image a K 5000 bytes 1x41",
    b"device d h a K",
];

#[test]
fn setup_lines(rt: HostRuntime) -> Result<(), Fail> {
    let alloc = rt.alloc();
    all_good(alloc, &[], &[b"script 1"])?;
    none_good(
        alloc,
        &[],
        &[
            b"script",
            b"script 2",
            b"script 01",
            b"script 1 1",
            b" script 1",
            b"Script 1",
            b"host h 4",
            b"script 1 ",
            b"script  1",
        ],
    )?;
    all_good(
        alloc,
        &[b"script 1"],
        &[b"nodes 5 1", b"nodes 32 256", b"nodes 5 1638"],
    )?;
    none_good(
        alloc,
        &[b"script 1"],
        &[
            b"nodes 4 1",
            b"nodes 33 1",
            b"nodes 5 0",
            b"nodes 5 4097",
            b"nodes 32 257",
            b"nodes 5",
            b"nodes 5 1 1",
            b"nodes 05 1",
            b"nodes 5 +1",
            b"script 1",
        ],
    )?;
    none_good(alloc, &[b"script 1", b"nodes 5 1"], &[b"nodes 5 1"])?;
    none_good(alloc, &SETUP, &[b"nodes 5 1"])?;
    all_good(
        alloc,
        &SETUP,
        &[
            b"host d 1",
            b"host 0.a_b-c 1024",
            b"root K",
            b"image b K 0 bytes",
            b"image b K 3 bytes 1x00 2xff",
            b"image b K 1 seed 4294967295",
            b"device e h b K",
        ],
    )?;
    none_good(
        alloc,
        &SETUP,
        &[
            b"host h 1",
            b"host g 0",
            b"host g 1025",
            b"host g",
            b"host .g 1",
            b"host G 1",
            b"host abcdefghijklmnopqrstuvwxyz0123456 1",
            b"root",
            b"root k",
            b"root K0",
            b"root K K",
            b"image b K 1",
            b"image b K 1 runs",
            b"image b K 1 bytes 2x00",
            b"image b K 1 bytes 0x00",
            b"image b K 1 bytes 1x0",
            b"image b K 1 bytes 1xFF",
            b"image b K 67108865 bytes",
            b"image b K 1 seed",
            b"image b K 1 seed 4294967296",
            b"image b K 1 seed 1 1",
            b"image b k 1 bytes",
            b"image / K 1 bytes",
            b"device d h a K",
            b"device e g a K",
            b"device e h a k",
            b"device e h A K",
            b"device E h a K",
            b"device e h a",
            b"device e h a K K",
        ],
    )?;
    Ok(())
}

const ACTOR: [&[u8]; 5] = [
    b"script 1",
    b"host h 4",
    b"device d h a K",
    b"device e h a K",
    b"actor p",
];

#[test]
fn device_jobs(rt: HostRuntime) -> Result<(), Fail> {
    let alloc = rt.alloc();
    all_good(
        alloc,
        &ACTOR,
        &[
            b"read d 0 0",
            b"read e 18446744073709551615 1048576",
            b"zero d 512 512",
            b"write d 7 1x00",
            b"write d 0 1048575xff 1x00",
        ],
    )?;
    none_good(
        alloc,
        &ACTOR,
        &[
            b"read f 0 0",
            b"read h 0 0",
            b"read d 0",
            b"read d 0 0 0",
            b"read d 18446744073709551616 1",
            b"read d 0 1048577",
            b"read d 00 1",
            b"read d x 1",
            b"zero f 0 1",
            b"zero d 0 1048577",
            b"zero d 0",
            b"write d 0",
            b"write d",
            b"write f 0 1x00",
            b"write d -1 1x00",
            b"write d 0 0x00",
            b"write d 0 1048577x00",
            b"write d 0 1048576x00 1x00",
            b"write d 0 1x0g",
            b"write d 0 1x00 ",
        ],
    )?;
    Ok(())
}

#[test]
fn depot_jobs(rt: HostRuntime) -> Result<(), Fail> {
    let alloc = rt.alloc();
    all_good(
        alloc,
        &ACTOR,
        &[
            b"create b K 5 bytes 5x41",
            b"create b K 0 seed 0",
            b"migrate a",
            b"withdraw zz",
            b"rotate K",
            b"expire 1",
            b"expire 1000",
            b"delete 7",
            b"sweep 1000",
            b"settle r/0000000001/a",
            b"settle r/0000001000/c/K",
            b"settle r/0000000002/m/a",
            b"settle w/a",
        ],
    )?;
    none_good(
        alloc,
        &ACTOR,
        &[
            b"create b K 5 bytes 6x41",
            b"create b K 67108865 bytes",
            b"create b K 5",
            b"create B K 5 bytes",
            b"create b k 5 bytes",
            b"migrate",
            b"migrate A",
            b"migrate a a",
            b"withdraw",
            b"withdraw /",
            b"rotate",
            b"rotate k",
            b"expire 0",
            b"expire 1001",
            b"expire",
            b"expire 1 1",
            b"delete 0",
            b"delete 1001",
            b"sweep 01",
            b"sweep",
            b"settle",
            b"settle r/0000000000/a",
            b"settle r/0000001001/e",
            b"settle r/1/a",
            b"settle w/A",
            b"settle r/0000000001/c/k",
            b"settle w/a w/a",
        ],
    )?;
    Ok(())
}

#[test]
fn damage_jobs(rt: HostRuntime) -> Result<(), Fail> {
    let alloc = rt.alloc();
    all_good(
        alloc,
        &ACTOR,
        &[
            b"evict h",
            b"drop 0 d 0",
            b"drop 4 e 20479",
            b"flip 4 d 20479 131071",
            b"forge e 20479",
            b"lose 0",
            b"lose 4",
        ],
    )?;
    none_good(
        alloc,
        &ACTOR,
        &[
            b"evict d",
            b"evict",
            b"evict h h",
            b"drop 5 d 0",
            b"drop 0 h 0",
            b"drop 0 d 20480",
            b"drop 0 d",
            b"drop d 0 0",
            b"flip 5 d 0 0",
            b"flip 0 f 0 0",
            b"flip 0 d 20480 0",
            b"flip 0 d 0 131072",
            b"flip 0 d 0",
            b"forge f 0",
            b"forge d 20480",
            b"forge d",
            b"lose 5",
            b"lose",
            b"lose 0 0",
            b"lose 00",
        ],
    )?;
    all_good(
        alloc,
        &[b"script 1", b"nodes 32 1", b"actor p"],
        &[b"lose 31"],
    )?;
    none_good(
        alloc,
        &[b"script 1", b"nodes 32 1", b"actor p"],
        &[b"lose 32"],
    )?;
    Ok(())
}

const AFTER: [&[u8]; 7] = [
    b"script 1",
    b"host h 4",
    b"device d h a K",
    b"actor p",
    b"actor q",
    b"after",
    b"close d",
];

#[test]
fn parts(rt: HostRuntime) -> Result<(), Fail> {
    let alloc = rt.alloc();
    all_good(
        alloc,
        &ACTOR,
        &[
            b"actor q",
            b"actor h",
            b"after",
            b"crash p 0",
            b"crash p 1000000",
            b"schedule serial",
        ],
    )?;
    none_good(
        alloc,
        &ACTOR,
        &[
            b"actor",
            b"actor p",
            b"actor after",
            b"actor serial",
            b"actor rounds",
            b"actor P",
            b"actor q q",
            b"after 1",
            b"close d",
            b"crash q 0",
            b"crash p 1000001",
            b"crash p",
            b"crash after 1",
            b"host g 4",
            b"root K",
            b"nodes 5 1",
            b"image b K 1 bytes",
            b"device f h a K",
            b"script 1",
            b"other",
        ],
    )?;
    all_good(
        alloc,
        &[b"script 1"],
        &[b"after", b"schedule rounds", b"# migrate", b""],
    )?;
    all_good(
        alloc,
        &AFTER,
        &[
            b"migrate a",
            b"withdraw a",
            b"rotate K",
            b"expire 1",
            b"delete 1",
            b"sweep 1",
            b"settle w/a",
            b"crash q 7",
            b"schedule p 1 q 2",
        ],
    )?;
    none_good(
        alloc,
        &AFTER,
        &[
            b"close d",
            b"close e",
            b"close",
            b"read d 0 1",
            b"write d 0 1x00",
            b"zero d 0 1",
            b"create b K 0 bytes",
            b"evict h",
            b"drop 0 d 0",
            b"flip 0 d 0 0",
            b"forge d 0",
            b"lose 0",
            b"actor r",
            b"after",
        ],
    )?;
    Ok(())
}

const CRASH: [&[u8]; 4] = [b"script 1", b"actor p", b"actor q", b"crash p 3"];

#[test]
fn ends(rt: HostRuntime) -> Result<(), Fail> {
    let alloc = rt.alloc();
    all_good(
        alloc,
        &CRASH,
        &[
            b"crash q 3",
            b"schedule serial",
            b"schedule rounds",
            b"schedule p 1",
            b"schedule p 1 q 2 p 3 rounds",
            b"schedule p 1000000",
            b"#crash p 3",
        ],
    )?;
    none_good(
        alloc,
        &CRASH,
        &[
            b"crash p 4",
            b"after",
            b"actor r",
            b"sweep 1",
            b"schedule",
            b"schedule p",
            b"schedule p 0",
            b"schedule r 1",
            b"schedule p 1 q",
            b"schedule p 1 serial",
            b"schedule p 1000000 q 1",
            b"schedule serial rounds",
            b"schedule rounds p 1",
            b"schedule p 1 rounds rounds",
            b"schedule p 01",
        ],
    )?;
    none_good(
        alloc,
        &[b"script 1", b"actor p", b"schedule serial"],
        &[
            b"schedule serial",
            b"crash p 1",
            b"actor q",
            b"after",
            b"sweep 1",
        ],
    )?;
    all_good(
        alloc,
        &[b"script 1", b"schedule serial"],
        &[b"", b"#", b"# \x7e"],
    )?;
    none_good(
        alloc,
        &[b"script 1", b"schedule serial"],
        &[b" ", b"#\x7f", b"#\t", b"#\x80"],
    )?;
    Ok(())
}

#[test]
fn whole_texts(rt: HostRuntime) -> Result<(), Fail> {
    let alloc = rt.alloc();
    assert_eq!(rt; outside(alloc, b"")?, 1);
    assert_eq!(rt; outside(alloc, b"\n")?, 2);
    assert_eq!(rt; outside(alloc, b"\n# x\n")?, 3);
    assert_eq!(rt; outside(alloc, b"script 1")?, 1);
    assert_eq!(rt; outside(alloc, b"\n# x\nscript 1\n# y\n\n")?, 0);
    assert_eq!(rt;
        outside(alloc, b"script 1\n\n#\n# \nactor p\nactor p\n")?,
        6
    );
    assert_eq!(rt; outside(alloc, b"script 1\nactor p")?, 2);
    assert_eq!(rt; outside(alloc, b"script 1\r\n")?, 1);
    Ok(())
}

#[test]
fn fields(rt: HostRuntime) -> Result<(), Fail> {
    let alloc = rt.alloc();
    let mut text = text_of(alloc, &AFTER)?;
    put(&mut text, b"crash q 7")?;
    put(&mut text, b"schedule q 3 p 4 rounds")?;
    let Ok(script) = Script::parse(alloc, &text) else {
        return Err("a script".into());
    };
    assert_eq!(rt; script.nodes, 5);
    assert_eq!(rt; script.cap, 1024);
    assert_eq!(rt; script.setup.len(), 2);
    assert!(rt; matches!(&script.setup[1], (3, Setup::Device(_, 0, _, _))));
    assert_eq!(rt; script.actors.len(), 2);
    assert!(rt; matches!(&script.after, Some(jobs) if jobs.len() == 1));
    assert_eq!(rt; script.crashes.as_slice(), [(2, 7)].as_slice());
    let Schedule::Pairs(pairs, rounds) = &script.schedule else {
        return Err("pairs".into());
    };
    assert_eq!(rt; pairs.as_slice(), [(2, 3), (1, 4)].as_slice());
    assert!(rt; *rounds);
    Ok(())
}
