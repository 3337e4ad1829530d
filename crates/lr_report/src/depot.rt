//! The part of the depot.
ghost use Rattle.std.specs.Prelude.{◌≡◌, ◌++◌, OnOk};
ghost use Rattle.lr_report.specs.Report.{is_fetch, is_fetch_of, fetches, fetched_line, fetched_part, doubt_line, doubts_part, depot_part};

use lr_depot::{DepotLog, DepotNoted, DepotTold};
use lr_object::Entry;
use lr_origin::{ImageName, Key};
use lr_rootlines::put_roots;
use lr_roots::Catalog;
use lr_spec::OutOfMemory;
use lr_text::put_number;

fn is_fetch(call: &DepotNoted) -> bool
    ensures { result ≡ is_fetch call.now }
{
    match call {
        DepotNoted::Fetch { .. } => true,
        _ => false,
    }
}

fn is_fetch_of(caller: u64, entry: &Entry<DepotNoted, DepotTold>) -> bool
    ensures { result ≡ is_fetch_of caller entry.now }
{
    u64::from(entry.caller) == caller && is_fetch(&entry.call)
}

// How often a caller asked for a chunk, whatever the answer was.
#[tactic(auto, unfolding(crate::specs::Report::fetches))]
fn fetches(log: &[Entry<DepotNoted, DepotTold>], caller: u64) -> u64
    ensures { result ≡ fetches log.now caller }
{
    log.iter()
        .filter(|entry| is_fetch_of(caller, entry))
        .count() as u64
}

#[tactic(auto, unfolding(crate::specs::Report::fetched_line))]
fn put_fetched(
    out: &mut Vec<u8>,
    log: &[Entry<DepotNoted, DepotTold>],
    caller: u64,
    name: &ImageName,
) -> Result<(), OutOfMemory>
    ensures { OnOk result (out.new.items ≡ out.old.items ++ fetched_line log.now (caller, name.now)) }
{
    out.extend_from_slice(b"fetched ")?;
    out.extend_from_slice(name.as_bytes())?;
    out.extend_from_slice(b" ")?;
    put_number(out, fetches(log, caller))?;
    out.extend_from_slice(b"\n")?;
    Ok(())
}

fn put_fetches(
    out: &mut Vec<u8>,
    log: &[Entry<DepotNoted, DepotTold>],
    callers: &[ImageName],
) -> Result<(), OutOfMemory>
    ensures { OnOk result (out.new.items ≡ out.old.items ++ fetched_part log.now callers.now) }
{
    for (at, name) in callers.iter().enumerate() {
        put_fetched(out, log, at as u64 + 1, name)?;
    }
    Ok(())
}

#[tactic(auto, unfolding(crate::specs::Report::doubt_line))]
fn put_doubt(out: &mut Vec<u8>, key: &Key) -> Result<(), OutOfMemory>
    ensures { OnOk result (out.new.items ≡ out.old.items ++ doubt_line key.now) }
{
    out.extend_from_slice(b"doubt ")?;
    out.extend_from_slice(key.as_bytes())?;
    out.extend_from_slice(b"\n")?;
    Ok(())
}

fn put_doubts(out: &mut Vec<u8>, depot: &DepotLog) -> Result<(), OutOfMemory>
    ensures { OnOk result (out.new.items ≡ out.old.items ++ doubts_part depot.now.doubts) }
{
    let mut at: u64 = 0;
    while let Some(key) = depot.doubt(at) {
        put_doubt(out, key)?;
        at += 1;
    }
    Ok(())
}

// Adds what the depot's log and its view tell.
#[tactic(auto, unfolding(crate::specs::Report::depot_part))]
pub fn put_depot(
    out: &mut Vec<u8>,
    callers: &[ImageName],
    depot: &DepotLog,
    catalog: &Catalog,
) -> Result<(), OutOfMemory>
    ensures { OnOk result (out.new.items ≡ out.old.items ++ depot_part callers.now depot.now catalog.now.view) }
{
    out.extend_from_slice(b"depot\n")?;
    put_fetches(out, depot.entries(), callers)?;
    put_roots(out, catalog)?;
    put_doubts(out, depot)
}
