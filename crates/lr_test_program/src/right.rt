//! Whether a run's devices are plain devices, and its callers' calls are their jobs in order.
use crate::made::Made;
use crate::plain::{Plain, Tally};
use lr_depot::Depot;
use lr_device::{Device, DeviceCall, answered};
use lr_io::{MemSink, MemSource};
use lr_object::Object;
use lr_origin::{FuseOrigin, ImageName, MemOrigin};
use lr_report::Run;
use lr_script::Job;
use lr_spec::OutOfMemory;
use lr_top::{Outcome, RunRecord, play};
use std::alloc::Global;

// Whether a list of bytes is these runs.
fn is_runs(bytes: &[u8], runs: &[(u64, u8)]) -> bool {
    let mut rest = bytes;
    for (count, byte) in runs {
        let Some((run, behind)) = rest.split_at_checked(*count as usize) else {
            return false;
        };
        if run.iter().any(|b| *b != *byte) {
            return false;
        }
        rest = behind;
    }
    rest.is_empty()
}

// Whether a job is this call of a device.
fn is_call(job: &Job, device: u32, call: &DeviceCall) -> bool {
    match (job, call) {
        (Job::Read(place, at, count), DeviceCall::Read { offset, length }) => {
            *place == device && *at == *offset && *count == *length
        }
        (Job::Zero(place, at, count), DeviceCall::Zero { offset, length }) => {
            *place == device && *at == *offset && *count == *length
        }
        (Job::Write(place, at, runs), DeviceCall::Write { offset, bytes }) => {
            *place == device && *at == *offset && is_runs(bytes.as_slice(), runs)
        }
        _ => false,
    }
}

// The place behind the next job from a place on that is this call.
fn behind(jobs: &[Job], from: usize, device: u32, call: &DeviceCall) -> Option<usize> {
    for (at, job) in jobs.iter().enumerate().skip(from) {
        if is_call(job, device, call) {
            return Some(at.saturating_add(1));
        }
    }
    None
}

// Whether a caller's next call of a device is one of its jobs behind those before it.
fn is_next(
    actors: &[(ImageName, Vec<Job>)],
    places: &mut [usize],
    device: u32,
    caller: u32,
    call: &DeviceCall,
) -> bool {
    let at = (caller as usize).wrapping_sub(1);
    let Some((_, jobs)) = actors.get(at) else {
        return false;
    };
    let Some(place) = places.get_mut(at) else {
        return false;
    };
    match behind(jobs, *place, device, call) {
        Some(next) => {
            *place = next;
            true
        }
        None => false,
    }
}

// Whether the committed calls of a device are those of a plain one, and each caller's are its jobs, in their order.
fn is_served(
    alloc: Global,
    actors: &[(ImageName, Vec<Job>)],
    number: u32,
    device: &Device,
    plain: &mut Plain,
    tally: &mut Tally,
) -> Result<bool, OutOfMemory> {
    let mut places = vec![in alloc; 0usize; actors.len()]?;
    for at in 0..device.entries() {
        let Some(entry) = device.entry(at) else {
            return Ok(false);
        };
        let Some((call, reply)) = answered(entry) else {
            continue;
        };
        if !is_next(actors, &mut places, number, entry.caller, call)
            || !plain.answers(entry.caller, call, reply, tally)
        {
            return Ok(false);
        }
    }
    Ok(true)
}

// Whether each device of a run is a plain device that began with its image.
fn are_served(
    alloc: Global,
    made: &Made,
    run: &Run,
    tally: &mut Tally,
) -> Result<bool, OutOfMemory> {
    if run.devices.len() != made.devices.len() {
        return Ok(false);
    }
    let mut number = 0u32;
    for (device, image) in run.devices.iter().zip(made.devices.iter()) {
        let Some(image) = made.images.get(*image as usize) else {
            return Ok(false);
        };
        let mut plain = Plain::of(alloc, image.padded(alloc)?)?;
        if !is_served(alloc, &run.script.actors, number, device, &mut plain, tally)? {
            return Ok(false);
        }
        number = number.saturating_add(1);
    }
    Ok(true)
}

// Whether a play may end so: in a failure where its store may fail, and well where it doesn't.
fn may_end(made: &Made, status: u8) -> bool {
    match made.calls {
        None => status == 0,
        Some(_) => matches!(status, 0 | 6 | 7 | 8),
    }
}

// Plays a script over a store in memory.
fn played(alloc: Global, made: &Made) -> Result<Outcome<FuseOrigin<MemOrigin>>, OutOfMemory> {
    let mut source = MemSource::new(Vec::from_slice(alloc, &made.text)?, Vec::new(alloc));
    let mut sink = MemSink::new(alloc, Vec::new(alloc));
    let calls = made.calls.unwrap_or(u64::MAX);
    let origin = FuseOrigin::new(MemOrigin::new(alloc), calls, made.done);
    Ok(play(alloc, &mut source, &mut sink, origin))
}

/// Whether a script's play ends as it may, its devices are plain devices, and its store opens again.
pub(crate) fn is_right(alloc: Global, made: &Made, tally: &mut Tally) -> Result<bool, OutOfMemory> {
    let Outcome {
        status,
        line: _,
        run,
        origin,
    } = played(alloc, made)?;
    if !may_end(made, status) {
        return Ok(false);
    }
    match run {
        RunRecord::Run(run) => {
            if !are_served(alloc, made, &run, tally)? {
                return Ok(false);
            }
            if made.calls.is_some() {
                tally.failed = tally.failed.saturating_add(1);
            }
        }
        _ => {
            if status == 0 {
                return Ok(false);
            }
            tally.unbegun = tally.unbegun.saturating_add(1);
        }
    }
    Ok(Depot::start(alloc, origin.into_inner()).is_ok())
}
