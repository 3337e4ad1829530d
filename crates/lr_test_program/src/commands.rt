//! Commands over stores, sources and sinks that fail.
use lr_desk::{Done, commands};
use lr_io::{MemSink, MemSource};
use lr_origin::{FuseOrigin, MemOrigin, Origin};
use std::alloc::Global;
use std::test::Fail;

const FIRST: &str = "1111111111111111111111111111111111111111111111111111111111111111";

const TENANT: &str = "aaaaaaaaaaaaaaaaaaaaaaaaaaaaaaaaaaaaaaaaaaaaaaaaaaaaaaaaaaaaaaaa";

const ROTATE: &[&str] = &["rotate", FIRST];

const CREATE: &[&str] = &["create", "a", TENANT];

const CAT: &[&str] = &["cat", "a", TENANT];

const ROOTS: &[&str] = &["roots"];

// The first commands of an image's life, on a store that is empty at first.
const LIFE: &[&[&str]] = &[ROTATE, CREATE];

// Words that are no command.
const NO_COMMANDS: &[&[&str]] = &[
    &[],
    &["play"],
    &["roots", "1"],
    &["rotate"],
    &["rotate", "11"],
    &["expire", "0"],
    &["expire", "1001"],
    &["sweep", "01"],
    &["withdraw", "-a"],
    &["create", "a"],
    &["create", "-a", TENANT],
    &["create", "a", TENANT, TENANT],
    &["create", "a", "aa"],
    &["cat", "A", TENANT],
];

// A command, how many of the commands of an image's life come before it, and how many calls it makes on the store, the source
// and the sink.
const CALLS: &[(&[&str], usize, u64, u64, u64)] = &[
    (ROTATE, 0, 2, 0, 1),
    (CREATE, 1, 5, 2, 1),
    (CAT, 2, 7, 0, 1),
    (ROOTS, 2, 6, 0, 1),
];

// A command over a store: what it gives back, and what it wrote. The calls of source and sink with these numbers fail.
fn does_failing<O: Origin + Drop>(
    alloc: Global,
    origin: O,
    command: &[&str],
    input: &[u8],
    reads: &[u64],
    writes: &[u64],
) -> Result<(Done<O>, Vec<u8>), Fail> {
    let mut words = Vec::new(alloc);
    for word in command {
        words.push(String::from_str(alloc, *word)?)?;
    }
    let input = Vec::from_slice(alloc, input)?;
    let mut source = MemSource::new(input, Vec::from_slice(alloc, reads)?);
    let mut sink = MemSink::new(alloc, Vec::from_slice(alloc, writes)?);
    let done = commands(alloc, &words, &mut source, &mut sink, origin);
    let written = Vec::from_slice(alloc, sink.bytes())?;
    Ok((done, written))
}

// The same with two bytes to read, and no failing call.
fn does<O: Origin + Drop>(
    alloc: Global,
    origin: O,
    command: &[&str],
) -> Result<(Done<O>, Vec<u8>), Fail> {
    does_failing(alloc, origin, command, b"AB", &[], &[])
}

// A store after so many of the commands of an image's life.
fn store_after(alloc: Global, commands: usize) -> Result<MemOrigin, Fail> {
    let mut origin = MemOrigin::new(alloc);
    for command in LIFE.iter().take(commands) {
        let (done, _) = does(alloc, origin, *command)?;
        origin = done.origin;
    }
    Ok(origin)
}

// A store with the same objects.
fn copied(alloc: Global, origin: &mut MemOrigin) -> Result<MemOrigin, Fail> {
    let mut copy = MemOrigin::new(alloc);
    let mut last = Vec::new(alloc);
    for _ in 0..10 {
        let Ok(Some(key)) = origin.next_key(alloc, Some(&last)) else {
            return Ok(copy);
        };
        if let Ok(Some(body)) = origin.get(alloc, &key) {
            copy.insert(alloc, key.clone()?, body)?;
        }
        last = key;
    }
    Ok(copy)
}

// Whether a store opens.
fn opens(alloc: Global, origin: MemOrigin) -> Result<bool, Fail> {
    let (listed, _) = does(alloc, origin, ROOTS)?;
    Ok(listed.status == 0)
}

// Whether a command ends so over a store whose call of this number fails, with or without its effect, and the store opens again.
fn stops(
    alloc: Global,
    command: &[&str],
    store: &mut MemOrigin,
    call: u64,
    done: bool,
    fails: bool,
) -> Result<bool, Fail> {
    let origin = FuseOrigin::new(copied(alloc, store)?, call, done);
    let (stopped, written) = does(alloc, origin, command)?;
    if stopped.status != if fails { 6 } else { 0 } || written.is_empty() != fails {
        return Ok(false);
    }
    opens(alloc, stopped.origin.into_inner())
}

// Each call of the store fails in turn, with and without its effect. A command makes no more calls on a store that failed.
#[test]
fn each_call_of_a_store_fails_once(rt: HostRuntime) -> Result<(), Fail> {
    let alloc = rt.alloc();
    for (command, before, stores, _, _) in CALLS {
        let mut store = store_after(alloc, *before)?;
        for at in 0..16u64 {
            let call = at / 2;
            let holds = stops(
                alloc,
                *command,
                &mut store,
                call,
                at % 2 == 1,
                call < *stores,
            )?;
            assert!(rt; holds, "{call}");
        }
    }
    Ok(())
}

// Whether a command ends so where the source's and the sink's calls of these numbers fail, and the store opens again.
fn ends(
    alloc: Global,
    command: &[&str],
    store: &mut MemOrigin,
    reads: &[u64],
    writes: &[u64],
    status: u8,
) -> Result<bool, Fail> {
    let origin = copied(alloc, store)?;
    let (done, written) = does_failing(alloc, origin, command, b"AB", reads, writes)?;
    if done.status != status || written.is_empty() != (status != 0) {
        return Ok(false);
    }
    opens(alloc, done.origin)
}

#[test]
fn each_call_of_source_and_sink_fails_once(rt: HostRuntime) -> Result<(), Fail> {
    let alloc = rt.alloc();
    for (command, before, _, reads, writes) in CALLS {
        let mut store = store_after(alloc, *before)?;
        for call in 0..3u64 {
            let status = if call < *reads { 4 } else { 0 };
            assert!(rt;
                ends(alloc, *command, &mut store, &[call], &[], status)?,
                "{call}"
            );
            let status = if call < *writes { 5 } else { 0 };
            assert!(rt;
                ends(alloc, *command, &mut store, &[], &[call], status)?,
                "{call}"
            );
        }
    }
    Ok(())
}

// Words that are no command start no depot, and are the same over any store.
#[test]
fn only_a_command_starts_a_depot(rt: HostRuntime) -> Result<(), Fail> {
    let alloc = rt.alloc();
    for words in NO_COMMANDS {
        let (done, written) = does(alloc, MemOrigin::new(alloc), *words)?;
        assert_eq!(rt; done.status, 2);
        assert!(rt; done.line.as_slice() == b"usage".as_slice());
        assert!(rt; written.is_empty() && !done.started);
    }
    for words in [ROOTS, ROTATE, CREATE, CAT] {
        let (done, _) = does(alloc, MemOrigin::new(alloc), words)?;
        assert!(rt; done.started);
    }
    Ok(())
}
