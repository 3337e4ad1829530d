//! The program `lr_bench`: times tasks of the product by the clock.
//!
//! Each word names a task. The program does these in order and prints a line for each, `TASK BYTES SECONDS`:
//! how many bytes the task worked on, or how many calls it made, and how long that took without its preparation.
//! With no words it does every task once on a small input and prints `TASK BYTES MADE`, where `MADE` tells of the
//! task's output and nothing of the clock.
//!
//! `task` has the table of tasks. A task more is a type with `Work`, a kind, and a row of that table.
#![tactic(auto)]

mod cipher;
mod depot;
mod device;
mod digest;
mod error;
mod format;
mod image;
mod jobs;
mod memory;
mod script;
mod stripe;
mod task;
mod turn;

use error::BenchError;
use std::env;
use std::process::ExitCode;
use std::sync::Wait;
use std::thread::Threads;
use task::{TASKS, Task, run};

// The status of a word that names no task, and that of every other error.
const USAGE: u8 = 2;

const FAILED: u8 = 1;

// Does every task on its small input.
fn run_small<T: Threads + Wait + Sync>(rt: &HostRuntime, threads: &T) -> Result<(), BenchError> {
    for task in TASKS.iter() {
        let done = run(rt, threads, task.kind, task.small)?;
        println!(rt; "{} {} {}", task.name, done.bytes, done.made)?;
    }
    Ok(())
}

// Does one task on its large input.
fn run_large<T: Threads + Wait + Sync>(
    rt: &HostRuntime,
    threads: &T,
    task: &Task,
) -> Result<(), BenchError> {
    let done = run(rt, threads, task.kind, task.large)?;
    println!(rt; "{} {} {:.6}", task.name, done.bytes, done.seconds)?;
    Ok(())
}

fn find(word: &str) -> Option<&'static Task> {
    TASKS.iter().find(|task| task.name == word)
}

fn run_words<T: Threads + Wait + Sync>(rt: &HostRuntime, threads: &T) -> Result<(), BenchError> {
    let mut words = env::args(rt)?;
    let _program = words.next();
    let mut some = false;
    for word in words {
        some = true;
        match find(word.as_str()) {
            Some(task) => run_large(rt, threads, task)?,
            None => return Err(BenchError::Unknown(word)),
        }
    }
    if !some {
        run_small(rt, threads)?;
    }
    Ok(())
}

fn main(rt: HostRuntime) -> ExitCode {
    let Err(error) = run_words(&rt, &rt) else {
        return ExitCode::SUCCESS;
    };
    let _ = eprintln!(rt; "lr_bench: {error}");
    match error {
        BenchError::Unknown(_) => ExitCode::from(USAGE),
        _ => ExitCode::from(FAILED),
    }
}
