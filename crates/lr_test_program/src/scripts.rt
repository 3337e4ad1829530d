//! Scripts over a source, a sink and a store that fail.
use lr_io::{MemSink, MemSource};
use lr_origin::{Fail as FailsAt, FuseOrigin, MemOrigin, Op, Origin};
use lr_top::top;
use std::alloc::Global;
use std::test::Fail;

// A script of one read, and its report.
const ONE_READ: &[u8] =
    b"script 1\nroot 1111111111111111111111111111111111111111111111111111111111111111\nhost h 4\nimage a aaaaaaaaaaaaaaaaaaaaaaaaaaaaaaaaaaaaaaaaaaaaaaaaaaaaaaaaaaaaaaaa 5000 bytes 1x41 1x42\ndevice d h a aaaaaaaaaaaaaaaaaaaaaaaaaaaaaaaaaaaaaaaaaaaaaaaaaaaaaaaaaaaaaaaa\nactor p\nread d 0 512\n";

const ITS_REPORT: &[u8] =
    b"device d a 8192\np read 0 512 1x41 1x42 510x00\nactor p ended\n1 done\ndepot\nfetched p 1\nroot 1 active images 1 chunks 1\n";

// What was answered, and what was written.
#[derive(Drop)]
struct Answer {
    status: u8,
    line: Vec<u8>,
    written: Vec<u8>,
}

// A list of one number, or of none.
fn numbers(alloc: Global, number: Option<u64>) -> Result<Vec<u64>, Fail> {
    let mut list = Vec::new(alloc);
    if let Some(n) = number {
        list.push(n)?;
    }
    Ok(list)
}

// Does a command of one word over a store. The source's and the sink's calls with these numbers fail.
fn done<O: Origin + Drop>(
    alloc: Global,
    word: &str,
    script: &[u8],
    read: Option<u64>,
    write: Option<u64>,
    origin: O,
) -> Result<Answer, Fail> {
    let mut words = Vec::new(alloc);
    words.push(String::from_str(alloc, word)?)?;
    let mut source = MemSource::new(Vec::from_slice(alloc, script)?, numbers(alloc, read)?);
    let mut sink = MemSink::new(alloc, numbers(alloc, write)?);
    let outcome = top(alloc, &words, &mut source, &mut sink, origin);
    Ok(Answer {
        status: outcome.status,
        line: Vec::from_slice(alloc, outcome.line.as_slice())?,
        written: Vec::from_slice(alloc, sink.bytes())?,
    })
}

// A failing call of the source ends in status 4 and one of the sink in 5, and no later one changes an answer.
#[test]
fn faults_of_the_outside(rt: HostRuntime) -> Result<(), Fail> {
    for (read, write, status, line) in [
        (Some(0), None, 4, "read fault"),
        (Some(1), None, 4, "read fault"),
        (Some(2), None, 0, ""),
        (None, Some(0), 5, "write fault"),
        (None, Some(1), 0, ""),
        (Some(0), Some(0), 4, "read fault"),
    ] {
        let origin = MemOrigin::new(rt.alloc());
        let answer = done(rt.alloc(), "play", ONE_READ, read, write, origin)?;
        assert_eq!(rt; answer.status, status);
        assert!(rt; answer.line.as_slice() == line.as_bytes());
        let written = if status == 0 { ITS_REPORT } else { b"" };
        assert!(rt; answer.written.as_slice() == written);
    }
    Ok(())
}

// Each call of the store fails from one on, the first of these with or without its effect: the setup's three end the play, the
// fetch of the read is a fault in the report, and no later call is made.
#[test]
fn faults_of_the_store(rt: HostRuntime) -> Result<(), Fail> {
    for (calls, status, line) in [
        (0, 6, "origin fault"),
        (1, 6, "origin fault"),
        (2, 6, "origin fault"),
        (3, 6, "origin fault"),
        (4, 0, ""),
        (5, 0, ""),
    ] {
        for effect in [false, true] {
            let origin = FuseOrigin::new(MemOrigin::new(rt.alloc()), calls, effect);
            let answer = done(rt.alloc(), "play", ONE_READ, None, None, origin)?;
            assert!(rt; answer.status == status, "{calls}");
            assert!(rt; answer.line.as_slice() == line.as_bytes(), "{calls}");
            assert!(rt;
                (answer.written.as_slice() == ITS_REPORT) == (calls == 5),
                "{calls}"
            );
        }
    }
    Ok(())
}

// A device's calls, a root whose put fails, and a crash between a plan and its commit.
const DOUBT: &[u8] =
    b"script 1\nroot 1111111111111111111111111111111111111111111111111111111111111111\nhost h 4\nimage a 2222222222222222222222222222222222222222222222222222222222222222 4096 bytes\ndevice d h a 2222222222222222222222222222222222222222222222222222222222222222\nactor p\nwrite d 0 4096x7a\nread d 0 4096\nzero d 100 512\nrotate 1212121212121212121212121212121212121212121212121212121212121212\nwrite d 0 512x41\nafter\nclose d\ncrash p 8\n";

const ITS_REPORT_OF_DOUBT: &[u8] =
    b"device d a 4096\np write 0 4096 done\np read 0 4096 4096x7a\np zero 100 512 range\nactor p crashed\n1 done\n2 done\n3 range\n4 fault r/0000000002/a\n5 cut\nactor after ended\n1 closed\ndepot\nfetched p 0\nfetched after 0\nroot 1 active images 1 chunks 1\ndoubt r/0000000002/a\n";

// The first put of a root fails without effect.
#[test]
fn a_put_in_doubt_is_reported(rt: HostRuntime) -> Result<(), Fail> {
    let alloc = rt.alloc();
    let mut fails = Vec::new(alloc);
    fails.push(FailsAt {
        op: Op::Put,
        key: Vec::from_slice(alloc, b"r/0000000002/a")?,
        nth: 1,
        done: false,
    })?;
    let origin = MemOrigin::failing(alloc, fails);
    let answer = done(alloc, "play", DOUBT, None, None, origin)?;
    assert_eq!(rt; answer.status, 0);
    assert_eq!(rt; answer.written.as_slice(), ITS_REPORT_OF_DOUBT);
    Ok(())
}
