//! Plays a script over a store, and looks at what it left.
ghost use Rattle.std.specs.Prelude.{◌≡◌, []};
ghost use Rattle.lr_script.specs.Within.{IsWithin};
ghost use Rattle.lr_depot.specs.Depot.{Seen, IsStart};
ghost use Rattle.lr_prepare.specs.Prepared.{IsPrepared};

use lr_actors::{Parts, Trail};
use lr_cache::{Cache, CacheCall, CacheReply};
use lr_depot::{Depot, DepotCall, DepotReply};
use lr_device::{Device, DeviceAnswer, DeviceStep};
use lr_object::Object;
use lr_origin::Origin;
use lr_play::{Performed, perform};
use lr_prepare::{Prepared, prepare, scripts_fit};
use lr_script::{Script, scripts_are_within};
use lr_walk::Answer;
use std::alloc::Global;
use std::test::Fail;

/// How a job ended: a word, and a number where the answer has one.
pub(crate) type Ended = (&'static str, u64);

/// A root, a host, an image of 5,000 bytes and a device of it.
pub(crate) const SETUP: &[&str] = &[
    "script 1",
    "root 1111111111111111111111111111111111111111111111111111111111111111",
    "host h 4",
    "image a aaaaaaaaaaaaaaaaaaaaaaaaaaaaaaaaaaaaaaaaaaaaaaaaaaaaaaaaaaaaaaaa 5000 bytes 1x41 1x42",
    "device d h a aaaaaaaaaaaaaaaaaaaaaaaaaaaaaaaaaaaaaaaaaaaaaaaaaaaaaaaaaaaaaaaa",
    "actor p",
];

/// The next root.
pub(crate) const ROTATE: &str =
    "rotate 2222222222222222222222222222222222222222222222222222222222222222";

/// A second image.
pub(crate) const CREATE: &str =
    "create b bbbbbbbbbbbbbbbbbbbbbbbbbbbbbbbbbbbbbbbbbbbbbbbbbbbbbbbbbbbbbbbb 5000 bytes 1x43";

/// Adds lines, each with its end.
pub(crate) fn add_lines(text: &mut Vec<u8>, lines: &[&str]) -> Result<(), Fail> {
    for line in lines {
        text.extend_from_slice(line.as_bytes())?;
        text.push(b'\n')?;
    }
    Ok(())
}

/// The setup, and the lines that follow it.
pub(crate) fn script_of(alloc: Global, lines: &[&str]) -> Result<Vec<u8>, Fail> {
    let mut text = Vec::new(alloc);
    add_lines(&mut text, SETUP)?;
    add_lines(&mut text, lines)?;
    Ok(text)
}

// Plays the actors of a script whose setup lines were done.
fn act<O: Origin + Drop>(
    alloc: Global,
    script: &Script,
    prepared: Prepared<O>,
) -> Result<Performed<O>, Fail>
    requires within { IsWithin script.now }
    requires started { IsStart prepared.parts.depot.start }
    requires prepared { (depot : Seen O) × IsPrepared script.now depot prepared.parts prepared.context }
{
    let Prepared { parts, context } = prepared;
    match perform(alloc, script, parts, context) {
        Ok(performed) => Ok(performed),
        Err(_) => Err("no memory for the play".into()),
    }
}

// Does the setup lines of a script and plays its actors.
fn begin<O: Origin + Drop>(
    alloc: Global,
    script: &Script,
    depot: Depot<O>,
) -> Result<Performed<O>, Fail>
    requires within { IsWithin script.now }
    requires started { IsStart depot.start }
    requires fresh { depot.log ≡ [] }
{
    scripts_fit();
    match prepare(alloc, script, depot) {
        Ok(prepared) => act(alloc, script, prepared),
        Err(_) => Err("the setup stopped".into()),
    }
}

/// Plays a script over a store.
pub(crate) fn played<O: Origin + Drop>(
    alloc: Global,
    origin: O,
    text: &[u8],
) -> Result<Performed<O>, Fail> {
    scripts_are_within();
    let Ok(script) = Script::parse(alloc, text) else {
        return Err("no script".into());
    };
    match Depot::start(alloc, origin) {
        Ok(depot) => begin(alloc, &script, depot),
        Err(_) => Err("no depot".into()),
    }
}

// What was done.
fn deed(answer: &Answer) -> Option<Ended> {
    match answer {
        Answer::Done => Some(("done", 0)),
        Answer::Created(root) => Some(("created", u64::from(*root))),
        Answer::Root(root) => Some(("root", u64::from(*root))),
        Answer::Moved(_, to) => Some(("moved", u64::from(*to))),
        Answer::Withdrawn => Some(("withdrawn", 0)),
        Answer::Expired => Some(("expired", 0)),
        Answer::Deleted => Some(("deleted", 0)),
        Answer::Swept(keys) => Some(("swept", *keys)),
        Answer::There => Some(("there", 0)),
        Answer::Absent => Some(("absent", 0)),
        Answer::Closed => Some(("closed", 0)),
        Answer::Evicted(chunks) => Some(("evicted", u64::from(*chunks))),
        Answer::Dropped => Some(("dropped", 0)),
        Answer::Flipped => Some(("flipped", 0)),
        Answer::Forged => Some(("forged", 0)),
        Answer::Lost(stripes) => Some(("lost", u64::from(*stripes))),
        _ => None,
    }
}

// Why nothing was done, or less than the job.
fn refusal(answer: &Answer) -> Ended {
    match answer {
        Answer::Range => ("range", 0),
        Answer::NoStripe => ("no stripe", 0),
        Answer::NoChunk => ("no chunk", 0),
        Answer::NoImage => ("no image", 0),
        Answer::Taken => ("taken", 0),
        Answer::NotRetired => ("not retired", 0),
        Answer::NotRetiredHome(home) => ("not retired home", u64::from(*home)),
        Answer::NotExpired => ("not expired", 0),
        Answer::NotDeleted => ("not deleted", 0),
        Answer::NoDoubt => ("no doubt", 0),
        Answer::Doubt(_) => ("doubt", 0),
        Answer::Fault(_) => ("fault", 0),
        Answer::Memory => ("memory", 0),
        Answer::Cut => ("cut", 0),
        Answer::Unbegun => ("unbegun", 0),
        _ => ("another answer", 0),
    }
}

/// How a job ended.
pub(crate) fn end_of(answer: &Answer) -> Ended {
    match deed(answer) {
        Some(ended) => ended,
        None => refusal(answer),
    }
}

/// What the jobs of all actors ended with.
pub(crate) fn results(alloc: Global, trails: &[Trail]) -> Result<Vec<Ended>, Fail> {
    let mut all = Vec::new(alloc);
    for trail in trails {
        for result in &trail.results {
            all.push(end_of(&result.answer))?;
        }
    }
    Ok(all)
}

// Whether a caller has no plan out on the device at this place.
fn has_no_plan(alloc: Global, devices: &mut Vec<Device>, at: usize, caller: u32) -> bool {
    match devices.get_mut(at) {
        Some(device) => {
            let reply = device.apply(alloc, caller, DeviceStep::Reap);
            matches!(reply, DeviceAnswer::Nothing)
        }
        None => false,
    }
}

// Whether a caller has no claim out in the cache at this place.
fn has_no_claim(alloc: Global, caches: &mut Vec<Cache>, at: usize, caller: u32) -> bool {
    match caches.get_mut(at) {
        Some(cache) => {
            let reply = cache.apply(alloc, caller, CacheCall::Reap);
            matches!(reply, CacheReply::Nothing)
        }
        None => false,
    }
}

// Whether a caller has neither a plan, a claim nor a session out.
fn holds_nothing<O: Origin>(alloc: Global, parts: &mut Parts<O>, caller: u32) -> bool {
    for at in 0..parts.devices.len() {
        if !has_no_plan(alloc, &mut parts.devices, at, caller) {
            return false;
        }
    }
    for at in 0..parts.caches.len() {
        if !has_no_claim(alloc, &mut parts.caches, at, caller) {
            return false;
        }
    }
    let reply = parts.depot.apply(alloc, caller, DepotCall::Reap);
    matches!(reply, DepotReply::Nothing)
}

/// Says where one of so many callers, counted from 1, still has a plan, a claim or a session out.
pub(crate) fn expect_nothing_out<O: Origin>(
    alloc: Global,
    parts: &mut Parts<O>,
    callers: u32,
) -> Result<(), Fail> {
    for caller in 1..=callers {
        if !holds_nothing(alloc, parts, caller) {
            return Err("something is out".into());
        }
    }
    Ok(())
}
