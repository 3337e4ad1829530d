//! The commands.
ghost use Rattle.std.specs.Prelude.{◌≡◌, ◌≢◌, ◌≤◌, ℕ, List, [], Option, Err, IsTrue, false, map, string_bytes};
ghost use Rattle.lr_spec.specs.Rose.{Rose};
ghost use Rattle.lr_depot.specs.Depot.{IsStart};
ghost use Rattle.lr_desk.specs.declared.outcome.Outcome.{Outcome as AnyOutcome};
ghost use Rattle.lr_desk.specs.declared.outcome.Outcome.TheVariants as outcome;
ghost use Rattle.lr_desk.specs.declared.words.Command.TheVariants as command;
ghost use Rattle.lr_desk.specs.Outcome.{status_of, line_of};
ghost use Rattle.lr_desk.specs.Causes.{cause_of, IsAnswered, IsUnstarted, HasCommanded};
ghost use Rattle.lr_desk.specs.Words.{AreWords, AreOfCreation, words_of};
ghost use Rattle.lr_desk.specs.Alone.{AreAlone};
ghost use Rattle.lr_desk.specs.Ends.{Collected, Moved, Made, WasRead, setting, HasWalked, HasRun, Yields, IsWritten};

use crate::collecting::collect;
use crate::ends::{of_collection, of_creation, of_error, of_migration};
use crate::laws::{commands_come_alone, done_images};
use crate::moving::migrate;
use crate::outcome::Outcome;
use crate::roots::view_text;
use crate::words::{Command, command_of};
use lr_collector::CollectJob;
use lr_depot::{Depot, DepotLog, StartCause, StartError};
use lr_images::{cat, create};
use lr_io::{Line, Sink, SinkError, Source, write_all};
use lr_manifest::TenantKey;
use lr_origin::{ImageName, Origin};
use std::alloc::Global;

/// What a command gives back.
#[derive(Drop)]
pub struct Done<O: Origin> {
    /// The exit status: 0 done, 2 wrong words, 4 the source failed, 5 the sink failed, 6 the store failed, 7 want of
    /// memory, 8 refused, 9 a foreign key, 10 a spoiled key, 11 too many keys.
    pub status: u8,
    /// The status in words; empty for 0.
    pub line: Line,
    /// Whether the depot was started.
    pub started: bool,
    /// The depot's log, empty where it wasn't started.
    pub log: DepotLog,
    pub origin: O,
}

// Makes a collection over a depot.
fn collected<O: Origin>(
    alloc: Global,
    depot: &mut Depot<O>,
    job: CollectJob,
) -> Result<Vec<u8>, Outcome>
    requires fresh { depot.old.log ≡ [] }
    ensures start { depot.new.start ≡ depot.old.start }
    ensures walk { (o : AnyOutcome) × (text : List ℕ) × Collected job depot.new.log o text × Yields o text result }
    ensures read { result ≢ Err outcome.ReadFault }
    ensures never_falls { O.faults depot.old.origin ≤ O.faults depot.new.origin }
    ensures cause { result ≡ Err outcome.OriginFault → Rose (O.faults depot.old.origin) (O.faults depot.new.origin) }
{
    let end = collect(alloc, depot, job);
    of_collection(alloc, end)
}

// Migrates an image over a depot.
fn moved<O: Origin>(
    alloc: Global,
    depot: &mut Depot<O>,
    image: ImageName,
) -> Result<Vec<u8>, Outcome>
    requires fresh { depot.old.log ≡ [] }
    ensures start { depot.new.start ≡ depot.old.start }
    ensures walk { (o : AnyOutcome) × (text : List ℕ) × Moved image depot.new.log o text × Yields o text result }
    ensures read { result ≢ Err outcome.ReadFault }
    ensures never_falls { O.faults depot.old.origin ≤ O.faults depot.new.origin }
    ensures cause { result ≡ Err outcome.OriginFault → Rose (O.faults depot.old.origin) (O.faults depot.new.origin) }
{
    let end = migrate(alloc, depot, image);
    of_migration(alloc, end)
}

// The text of the view of a depot.
fn listed<O: Origin>(alloc: Global, depot: &Depot<O>) -> Result<Vec<u8>, Outcome>
    requires fresh { depot.now.log ≡ [] }
    requires begun { IsStart depot.now.start }
    ensures walk { (source : Option (List ℕ)) (left : Option (List ℕ)) → (o : AnyOutcome) × (text : List ℕ) × HasWalked command.Roots (setting O.objects depot.now source left) depot.now.log o text × Yields o text result }
    ensures read { result ≢ Err outcome.ReadFault }
    ensures cause { result ≢ Err outcome.OriginFault }
{
    match view_text(alloc, depot.catalog()) {
        Ok(text) => Ok(text),
        Err(_) => Err(Outcome::Memory),
    }
}

// Creates an image over a depot.
fn created<O: Origin, I: Source>(
    alloc: Global,
    depot: &mut Depot<O>,
    source: &mut I,
    image: ImageName,
    tenant: [u8; 32],
) -> Result<Vec<u8>, Outcome>
    requires fresh { depot.old.log ≡ [] }
    ensures start { depot.new.start ≡ depot.old.start }
    ensures walk { (o : AnyOutcome) × (text : List ℕ) × Made image tenant (setting O.objects depot.old (I.left source.old) (I.left source.new)) depot.new.log o text × Yields o text result }
    ensures never_falls { O.faults depot.old.origin ≤ O.faults depot.new.origin }
    ensures cause { result ≡ Err outcome.OriginFault → Rose (O.faults depot.old.origin) (O.faults depot.new.origin) }
    ensures source_never_falls { I.faults source.old ≤ I.faults source.new }
    ensures read_fault { result ≡ Err outcome.ReadFault → Rose (I.faults source.old) (I.faults source.new) }
{
    let created = create(alloc, depot, source, image, TenantKey { bytes: tenant });
    of_creation(alloc, created)
}

// Reads an image back over a depot.
fn read_back<O: Origin>(
    alloc: Global,
    depot: &mut Depot<O>,
    image: ImageName,
    tenant: [u8; 32],
) -> Result<Vec<u8>, Outcome>
    requires fresh { depot.old.log ≡ [] }
    ensures start { depot.new.start ≡ depot.old.start }
    ensures walk { (source : Option (List ℕ)) (left : Option (List ℕ)) → (o : AnyOutcome) × (text : List ℕ) × WasRead image tenant (setting O.objects depot.old source left) depot.new.log o text × Yields o text result }
    ensures read { result ≢ Err outcome.ReadFault }
    ensures never_falls { O.faults depot.old.origin ≤ O.faults depot.new.origin }
    ensures cause { result ≡ Err outcome.OriginFault → Rose (O.faults depot.old.origin) (O.faults depot.new.origin) }
{
    match cat(alloc, depot, image, &TenantKey { bytes: tenant }) {
        Ok(bytes) => Ok(bytes),
        Err(error) => Err(of_error(alloc, error)),
    }
}

// Does a command over a depot: the text to write, or how else it ended.
fn made<O: Origin, I: Source>(
    alloc: Global,
    depot: &mut Depot<O>,
    source: &mut I,
    command: Command,
) -> Result<Vec<u8>, Outcome>
    requires fresh { depot.old.log ≡ [] }
    requires begun { IsStart depot.old.start }
    ensures start { depot.new.start ≡ depot.old.start }
    ensures walk { (o : AnyOutcome) × (text : List ℕ) × HasWalked command (setting O.objects depot.old (I.left source.old) (I.left source.new)) depot.new.log o text × Yields o text result }
    ensures never_falls { O.faults depot.old.origin ≤ O.faults depot.new.origin }
    ensures cause { result ≡ Err outcome.OriginFault → Rose (O.faults depot.old.origin) (O.faults depot.new.origin) }
    ensures source_never_falls { I.faults source.old ≤ I.faults source.new }
    ensures read_fault { result ≡ Err outcome.ReadFault → Rose (I.faults source.old) (I.faults source.new) }
    ensures unread { ¬ (AreOfCreation (words_of command)) → source.new ≡ source.old }
{
    match command {
        Command::Create { image, tenant } => created(alloc, depot, source, image, tenant),
        Command::Cat { image, tenant } => read_back(alloc, depot, image, tenant),
        Command::Rotate { salt } => collected(alloc, depot, CollectJob::Rotate { salt }),
        Command::Migrate { image } => moved(alloc, depot, image),
        Command::Withdraw { image } => collected(alloc, depot, CollectJob::Withdraw { image }),
        Command::Expire { root } => collected(alloc, depot, CollectJob::Expire { root }),
        Command::Delete { root } => collected(alloc, depot, CollectJob::Delete { root }),
        Command::Sweep { root } => collected(alloc, depot, CollectJob::Sweep { root }),
        Command::Roots => listed(alloc, depot),
    }
}

/// Writes a text: all of it, or a front where the sink fails.
pub fn written<W: Sink>(sink: &mut W, text: &[u8]) -> Outcome
    ensures written { IsWritten (W.written sink.old) text.now (W.written sink.new) result }
    ensures read { result ≢ outcome.ReadFault }
    ensures cause { result ≡ outcome.WriteFault → Rose (W.faults sink.old) (W.faults sink.new) }
{
    match write_all(sink, text) {
        Ok(()) => Outcome::Done,
        Err(SinkError::Failed) => Outcome::WriteFault,
        Err(SinkError::OutOfMemory) => Outcome::Memory,
    }
}

// Does a command over a depot, and writes its text where it was done.
fn run<O: Origin, I: Source, W: Sink>(
    alloc: Global,
    depot: &mut Depot<O>,
    source: &mut I,
    sink: &mut W,
    command: Command,
) -> Outcome
    requires fresh { depot.old.log ≡ [] }
    requires begun { IsStart depot.old.start }
    ensures start { depot.new.start ≡ depot.old.start }
    ensures ran { HasRun command (setting O.objects depot.old (I.left source.old) (I.left source.new)) depot.new.log (W.written sink.old) (W.written sink.new) result }
    ensures never_falls { O.faults depot.old.origin ≤ O.faults depot.new.origin }
    ensures origin_fault { result ≡ outcome.OriginFault → Rose (O.faults depot.old.origin) (O.faults depot.new.origin) }
    ensures write_fault { result ≡ outcome.WriteFault → Rose (W.faults sink.old) (W.faults sink.new) }
    ensures source_never_falls { I.faults source.old ≤ I.faults source.new }
    ensures read_fault { result ≡ outcome.ReadFault → Rose (I.faults source.old) (I.faults source.new) }
    ensures unread { ¬ (AreOfCreation (words_of command)) → source.new ≡ source.old }
{
    match made(alloc, depot, source, command) {
        Ok(text) => written(sink, &text),
        Err(outcome) => outcome,
    }
}

// What is given back of a command whose depot wasn't started.
fn unstarted<O: Origin>(alloc: Global, outcome: Outcome, origin: O) -> Done<O>
    ensures status { result.status ≡ status_of outcome }
    ensures line { result.line ≡ line_of outcome }
    ensures started { result.started ≡ false }
    ensures log { result.log.log ≡ [] }
    ensures origin { result.origin ≡ origin }
{
    Done {
        status: outcome.status(),
        line: outcome.line(),
        started: false,
        log: DepotLog::empty(alloc),
        origin,
    }
}

/// How a command ends whose depot didn't start.
pub fn outcome_of_cause(cause: StartCause) -> Outcome
    ensures { result ≡ cause_of cause }
{
    match cause {
        StartCause::Fault(_) => Outcome::OriginFault,
        StartCause::Spoiled(key) => Outcome::Spoiled(key),
        StartCause::Foreign(key) => Outcome::Foreign(key),
        StartCause::TooMany => Outcome::TooMany,
        StartCause::OutOfMemory => Outcome::Memory,
    }
}

// What is given back of a command whose depot didn't start.
fn failed<O: Origin>(alloc: Global, error: StartError<O>) -> Done<O>
    ensures status { result.status ≡ status_of (cause_of error.cause) }
    ensures line { result.line ≡ line_of (cause_of error.cause) }
    ensures started { result.started ≡ false }
    ensures log { result.log.log ≡ [] }
    ensures origin { result.origin ≡ error.origin }
{
    let StartError { cause, origin } = error;
    unstarted(alloc, outcome_of_cause(cause), origin)
}

/// Does one command over a store. The words choose it; its text goes to the sink. `create` reads the source, to its end or
/// one byte past the most that an image may have; no other command reads it.
///
/// The depot is started over the store, and the command's calls on it are made: the log is the command's walk. The text is
/// written where the command was done; else nothing is. The store comes back in every case.
pub fn commands<O: Origin, I: Source, W: Sink>(
    alloc: Global,
    words: &[String],
    source: &mut I,
    sink: &mut W,
    origin: O,
) -> Done<O>
    ensures answered { IsAnswered (record { words = map string_bytes words.now; objects = O.objects origin; source = I.left source.old; origin_before = O.faults origin; origin_after = O.faults result.origin; source_before = I.faults source.old; source_after = I.faults source.new; sink_before = W.faults sink.old; sink_after = W.faults sink.new; log = result.log.log }) result.status result.line }
    ensures commanded { IsTrue result.started → HasCommanded O.objects O.faults (map string_bytes words.now) origin (I.left source.old) (I.left source.new) (W.written sink.old) result.origin (W.written sink.new) result.log result.status }
    // No reply tells that a session, a lease or a chunk isn't there, or of another's work.
    ensures alone { AreAlone result.log.log }
    // Without a depot nothing was done.
    ensures unstarted { result.started ≡ false → (result.log.log ≡ []) × (O.objects result.origin ≡ O.objects origin) × (sink.new ≡ sink.old) × (source.new ≡ source.old) × (result.status ≢ 0) × (result.status ≢ 5) }
    ensures why { result.started ≡ false → IsUnstarted (map string_bytes words.now) (O.objects origin) (O.faults origin) (O.faults result.origin) result.status }
    ensures unread { ¬ (AreOfCreation (map string_bytes words.now)) → source.new ≡ source.old }
    // Wrong words make no call on the store: it is handed back as it came.
    ensures untouched { ¬ (AreWords (map string_bytes words.now)) → result.origin ≡ origin }
    ensures never_falls { O.faults origin ≤ O.faults result.origin }
    ensures source_never_falls { I.faults source.old ≤ I.faults source.new }
{
    let Some(command) = command_of(words) else {
        return unstarted(alloc, Outcome::Usage, origin);
    };
    let mut depot = match Depot::start(alloc, origin) {
        Ok(depot) => depot,
        Err(error) => return failed(alloc, error),
    };
    done_images();
    commands_come_alone();
    let outcome = run(alloc, &mut depot, source, sink, command);
    let (origin, log, _catalog) = depot.end();
    Done {
        status: outcome.status(),
        line: outcome.line(),
        started: true,
        log,
        origin,
    }
}
