//! The program `lr`: a store and a command. The store is a folder, or `-` for an empty one in memory. `lr - play` reads a
//! script on standard input, runs it, and writes its report to standard output; the other commands are done over the store.
#![tactic(auto)]

use lr_edge::{StdSink, StdSource};
use lr_folder::DirOrigin;
use lr_origin::{MemOrigin, Origin};
use lr_top::top;
use std::io::{ErrorKind, Write};
use std::process::ExitCode;
use std::{env, io};

// The statuses of wrong words and of want of memory.
const USAGE: u8 = 2;

const MEMORY: u8 = 7;

// The words of a command line: the store's, where there is one, and the command's.
#[derive(Drop)]
struct Arguments {
    store: Option<String>,
    command: Vec<String>,
}

fn read_arguments(rt: &HostRuntime) -> io::Result<Arguments> {
    let mut command = Vec::new(rt.alloc());
    let mut args = env::args(rt)?;
    let _program = args.next();
    let store = args.next();
    for word in args {
        command.push(word)?;
    }
    Ok(Arguments { store, command })
}

// Says a status in words on standard error, where there are any, and ends with it.
fn ends(rt: &HostRuntime, status: u8, line: &[u8]) -> ExitCode {
    if !line.is_empty() {
        let mut stderr = rt.stderr();
        let _ = stderr.write_all(line);
        let _ = stderr.write_all(b"\n");
    }
    ExitCode::from(status)
}

// Does a command over a store, on standard input and output.
fn run<O: Origin + Drop>(rt: &HostRuntime, command: &[String], origin: O) -> ExitCode {
    let mut source = StdSource::new(rt.stdin());
    let mut sink = StdSink::new(rt.stdout());
    let outcome = top(rt.alloc(), command, &mut source, &mut sink, origin);
    ends(rt, outcome.status, outcome.line.as_slice())
}

fn main(rt: HostRuntime) -> ExitCode {
    let Arguments { store, command } = match read_arguments(&rt) {
        Ok(arguments) => arguments,
        Err(error) if error.kind() == ErrorKind::OutOfMemory => return ends(&rt, MEMORY, b"memory"),
        Err(_) => return ends(&rt, USAGE, b"usage"),
    };
    let Some(store) = store else {
        return run(&rt, &command, MemOrigin::new(rt.alloc()));
    };
    if store.as_str() == "-" {
        return run(&rt, &command, MemOrigin::new(rt.alloc()));
    }
    run(&rt, &command, DirOrigin::new(&rt, store))
}
