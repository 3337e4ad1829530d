//! Scripts that are played.
ghost use Rattle.std.specs.Prelude.{◌≡◌, ◌≤◌, []};
ghost use Rattle.lr_spec.specs.Rose.{Rose};
ghost use Rattle.lr_script.specs.Within.{IsWithin};
ghost use Rattle.lr_depot.specs.Depot.{Seen, IsStart, IsEnded};
ghost use Rattle.lr_roots.specs.Catalog.{Seen as Catalog};
ghost use Rattle.lr_prepare.specs.Prepared.{IsPrepared};
ghost use Rattle.lr_report.specs.Report.{report_text};
ghost use Rattle.lr_top.specs.Ends.{status_of, line_of};
ghost use Rattle.lr_top.specs.Top.{MatchRun, IfCommand, unread_end, at_line, end_of};
ghost use Rattle.lr_top.specs.Acts.{EndsFrom};
ghost use Rattle.lr_top.specs.Gives.{streams, Plays};
ghost use Rattle.lr_desk.specs.Causes.{cause_of};
ghost use Rattle.lr_desk.specs.Ends.{IsWritten};
ghost use Rattle.lr_top.specs.declared.outcome.RunRecord.TheVariants as record_of;
ghost use Rattle.lr_top.specs.declared.ends.PlayEnd.TheVariants as ends;
ghost use Rattle.lr_desk.specs.declared.outcome.Outcome.{Outcome as AnyEnd};
ghost use Rattle.lr_desk.specs.declared.outcome.Outcome.TheVariants as outcome;

use crate::ends::PlayEnd;
use crate::input::{InputError, read_script};
use crate::laws::plays_have_the_headline;
use crate::opening::opening_of;
use crate::outcome::{Outcome, RunRecord};
use lr_actors::Parts;
use lr_depot::{Depot, StartError};
use lr_desk::{Outcome as End, Refusal, outcome_of_cause, outcome_of_refusal, written};
use lr_images::answers_are_told;
use lr_io::{Sink, Source};
use lr_origin::Origin;
use lr_play::{Performed, Unperformed, perform};
use lr_prepare::{Prepared, SetupError, Unprepared, prepare, scripts_fit, stops_are_told};
use lr_report::{Opening, Run, report};
use lr_script::Script;
use std::alloc::Global;

// The outcome of a play that ended so.
fn ends<O: Origin>(end: PlayEnd, run: RunRecord, origin: O) -> Outcome<O>
    ensures status { result.status ≡ status_of end }
    ensures line { result.line ≡ line_of end }
    ensures run { result.run ≡ run }
    ensures origin { result.origin ≡ origin }
{
    Outcome {
        status: end.status(),
        line: end.line(),
        run,
        origin,
    }
}

// How a play ends whose script wasn't read.
fn of_input(error: InputError) -> PlayEnd
    ensures { result ≡ unread_end error }
{
    match error {
        InputError::Outside(line) => PlayEnd::OutsideAt(line),
        InputError::Failed => PlayEnd::By(End::ReadFault),
        InputError::OutOfMemory => PlayEnd::By(End::Memory),
    }
}

// A refusal at the line of this number.
fn at_line(line: u32, outcome: End) -> PlayEnd
    ensures { result ≡ at_line line outcome }
{
    match outcome {
        End::Refused(refusal) => PlayEnd::RefusedAt(line, refusal),
        outcome => PlayEnd::By(outcome),
    }
}

// How a play ends whose setup stopped.
fn of_setup(alloc: Global, error: SetupError) -> PlayEnd
    ensures { result ≡ end_of error }
{
    match error {
        SetupError::Refused { line, reply } => at_line(line, outcome_of_refusal(alloc, &reply)),
        SetupError::Sealed { line } => PlayEnd::RefusedAt(line, Refusal::Sealed),
        SetupError::Fault => PlayEnd::By(End::OriginFault),
        SetupError::Spoiled(key) => PlayEnd::By(End::Spoiled(key)),
        SetupError::OutOfMemory => PlayEnd::By(End::Memory),
    }
}

// The depot didn't start.
fn unstarted<O: Origin>(error: StartError<O>) -> Outcome<O>
    ensures status { result.status ≡ status_of (ends.By (cause_of error.cause)) }
    ensures line { result.line ≡ line_of (ends.By (cause_of error.cause)) }
    ensures run { result.run ≡ record_of.Nothing }
    ensures origin { result.origin ≡ error.origin }
{
    let StartError { cause, origin } = error;
    ends(
        PlayEnd::By(outcome_of_cause(cause)),
        RunRecord::Nothing,
        origin,
    )
}

// The play stopped before its actors were begun.
fn stopped<O: Origin>(alloc: Global, error: SetupError, depot: Depot<O>) -> Outcome<O>
    ensures status { result.status ≡ status_of (end_of error) }
    ensures line { result.line ≡ line_of (end_of error) }
    ensures ended { IfCommand result.run (λ left. (catalog : Catalog) × IsEnded O.objects O.faults depot result.origin left catalog) }
    ensures run { MatchRun result.run ⊥ (λ _. ⊥) }
    ensures never_falls { O.faults depot.origin ≤ O.faults result.origin }
{
    let end = of_setup(alloc, error);
    let (origin, log, _catalog) = depot.end();
    ends(end, RunRecord::Command(log), origin)
}

// The run that is handed back, and the store.
fn close<O: Origin>(
    alloc: Global,
    script: Script,
    opening: Opening,
    performed: Performed<O>,
) -> (Run, O)
    ensures script { result.0.script ≡ script }
    ensures opening { result.0.opening ≡ opening }
    ensures parts { (result.0.devices ≡ performed.parts.devices) × (result.0.caches ≡ performed.parts.caches) × (result.0.nodes ≡ performed.parts.nodes) }
    ensures trails { result.0.trails ≡ performed.trails }
    ensures ended { IsEnded O.objects O.faults performed.parts.depot result.1 result.0.depot result.0.catalog }
    ensures joined { result.0.joined.items ≡ [] }
    ensures never_falls { O.faults performed.parts.depot.origin ≤ O.faults result.1 }
{
    let Performed { parts, trails } = performed;
    let Parts {
        devices,
        caches,
        nodes,
        depot,
    } = parts;
    let (origin, log, catalog) = depot.end();
    let run = Run {
        script,
        opening,
        devices,
        caches,
        nodes,
        depot: log,
        catalog,
        trails,
        joined: Vec::new(alloc),
    };
    (run, origin)
}

// Writes the report of a run.
fn write_report<W: Sink>(alloc: Global, sink: &mut W, run: &Run) -> End
    ensures written { IsWritten (W.written sink.old) (report_text run.now) (W.written sink.new) result }
    ensures cause { result ≡ outcome.WriteFault → Rose (W.faults sink.old) (W.faults sink.new) }
{
    match report(alloc, run) {
        Ok(text) => written(sink, &text),
        Err(_) => End::Memory,
    }
}

// The outcome of a run, whose report is written.
fn reported<O: Origin, W: Sink>(alloc: Global, sink: &mut W, run: Run, origin: O) -> Outcome<O>
    ensures run { result.run ≡ record_of.Run run }
    ensures origin { result.origin ≡ origin }
    ensures ended { (end : AnyEnd) × (result.status ≡ status_of (ends.By end)) × (result.line ≡ line_of (ends.By end)) × IsWritten (W.written sink.old) (report_text run) (W.written sink.new) end × (end ≡ outcome.WriteFault → Rose (W.faults sink.old) (W.faults sink.new)) }
{
    let end = write_report(alloc, sink, &run);
    ends(PlayEnd::By(end), RunRecord::Run(run), origin)
}

// Plays the actors of a script whose setup lines were done.
fn act<O: Origin, W: Sink>(
    alloc: Global,
    sink: &mut W,
    script: Script,
    prepared: Prepared<O>,
) -> Outcome<O>
    requires within { IsWithin script }
    requires started { IsStart prepared.parts.depot.start }
    requires prepared { (first : Seen O) × IsPrepared script first prepared.parts prepared.context }
    ensures begun { (first : Seen O) → IsPrepared script first prepared.parts prepared.context → EndsFrom O.objects O.faults first script (record { written_before = W.written sink.old; written_after = W.written sink.new; faults_before = W.faults sink.old; faults_after = W.faults sink.new }) result.origin result.run result.status result.line }
    ensures never_falls { O.faults prepared.parts.depot.origin ≤ O.faults result.origin }
{
    stops_are_told();
    let Prepared { parts, context } = prepared;
    let Ok(opening) = opening_of(alloc, &script, &parts.devices, &context.devices) else {
        return stopped(alloc, SetupError::OutOfMemory, parts.depot);
    };
    match perform(alloc, &script, parts, context) {
        Ok(performed) => {
            let (run, origin) = close(alloc, script, opening, performed);
            reported(alloc, sink, run, origin)
        }
        Err(Unperformed { parts }) => stopped(alloc, SetupError::OutOfMemory, parts.depot),
    }
}

// Does the setup lines of a script and plays its actors.
fn begin<O: Origin, W: Sink>(
    alloc: Global,
    sink: &mut W,
    script: Script,
    depot: Depot<O>,
) -> Outcome<O>
    requires within { IsWithin script }
    requires started { IsStart depot.start }
    requires fresh { depot.log ≡ [] }
    ensures begun { EndsFrom O.objects O.faults depot script (record { written_before = W.written sink.old; written_after = W.written sink.new; faults_before = W.faults sink.old; faults_after = W.faults sink.new }) result.origin result.run result.status result.line }
    ensures never_falls { O.faults depot.origin ≤ O.faults result.origin }
{
    scripts_fit();
    stops_are_told();
    match prepare(alloc, &script, depot) {
        Ok(prepared) => act(alloc, sink, script, prepared),
        Err(Unprepared { error, depot }) => stopped(alloc, error, depot),
    }
}

/// Reads a script, does its setup lines over the store, plays its actors and its after part, and writes the report.
///
/// The record is a run exactly where the actors were begun, and then the status is 0, 5 or 7. Every call returns, for every source,
/// sink and store.
pub fn play<O: Origin, I: Source, W: Sink>(
    alloc: Global,
    source: &mut I,
    sink: &mut W,
    origin: O,
) -> Outcome<O>
    ensures plays { Plays O.objects O.faults origin result.origin (streams I.left I.faults W.written W.faults source.old source.new sink.old sink.new) result.run result.status result.line }
    ensures never_falls { O.faults origin ≤ O.faults result.origin }
{
    plays_have_the_headline::<O>();
    answers_are_told();
    let script = match read_script(alloc, source) {
        Ok(script) => script,
        Err(error) => return ends(of_input(error), RunRecord::Nothing, origin),
    };
    match Depot::start(alloc, origin) {
        Ok(depot) => begin(alloc, sink, script, depot),
        Err(error) => unstarted(error),
    }
}
