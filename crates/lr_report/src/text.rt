//! The text of a report.
ghost use Rattle.std.specs.Prelude.{◌≡◌, IfOk};
ghost use Rattle.lr_report.specs.Report.{report_text};

use crate::actors::put_actors;
use crate::depot::put_depot;
use crate::devices::put_devices;
use crate::names::{caller_names, device_names};
use crate::run::Run;
use lr_spec::OutOfMemory;
use std::alloc::Global;

/// The report of a run, in lines that end with LF.
///
/// For each device it has `device NAME IMAGE LENGTH`, LENGTH in bytes, and a line for each call that the device answered; for
/// each actor, and then for the after part where there is one, `actor NAME ended`, `crashed` or `unfinished` and a line for each job
/// with its number and its result; and then `depot`, `fetched NAME N` for each of these callers with how often it asked the depot for
/// a chunk, a line for each root, and `doubt KEY` for each put that was in doubt at the end.
#[tactic(auto, unfolding(crate::specs::Report::report_text))]
pub fn report(alloc: Global, run: &Run) -> Result<Vec<u8>, OutOfMemory>
    ensures { IfOk result (λ text. text.items ≡ report_text run.now) }
{
    let callers = caller_names(alloc, &run.script)?;
    let names = device_names(alloc, &run.script)?;
    let mut out = Vec::new(alloc);
    put_devices(
        &mut out,
        &callers,
        &names,
        &run.opening.devices,
        &run.devices,
    )?;
    put_actors(&mut out, &callers, &run.trails)?;
    put_depot(&mut out, &callers, &run.depot, &run.catalog)?;
    Ok(out)
}
