//! The words: a play, or a single command.
ghost use Rattle.std.specs.Prelude.{◌≡◌, ◌≢◌, ◌≤◌, ◌↔◌, [], ◌∷◌, IsTrue, false, map, codes, string_bytes};
ghost use Rattle.lr_desk.specs.Words.{AreOfCreation};
ghost use Rattle.lr_top.specs.Top.{IfRun};
ghost use Rattle.lr_stop.specs.Stops.{KeepsSound};
ghost use Rattle.lr_top.specs.Gives.{streams, Plays, Commands};
ghost use Rattle.lr_top.specs.Again.{ReadsAgain};
ghost use Rattle.lr_top.specs.declared.outcome.RunRecord.TheVariants as record_of;

use crate::keeping::{commands_read_again, sound_stores_are_kept};
use crate::outcome::{Outcome, RunRecord};
use crate::playing::play;
use lr_depot::DepotLog;
use lr_desk::{Done, commands};
use lr_io::{Sink, Source};
use lr_origin::Origin;
use std::alloc::Global;

// Whether the words are the one word `play`.
fn is_play(words: &[String]) -> bool
    ensures { IsTrue result ↔ (map string_bytes words.now ≡ codes "play" ∷ []) }
{
    match words {
        [word] => word.as_str() == "play",
        _ => false,
    }
}

// The record of a command: the log of its depot, where it had one.
fn recorded(started: bool, log: DepotLog) -> RunRecord
    ensures started { IsTrue started → result ≡ record_of.Command log }
    ensures nothing { started ≡ false → result ≡ record_of.Nothing }
{
    if started {
        RunRecord::Command(log)
    } else {
        RunRecord::Nothing
    }
}

/// Does one command other than `play` over a store; `play` is no word of it.
///
/// The record is the depot's log, where the command started a depot. Every call returns, for every store and sink.
pub fn desk<O: Origin, I: Source, W: Sink>(
    alloc: Global,
    words: &[String],
    source: &mut I,
    sink: &mut W,
    origin: O,
) -> Outcome<O>
    ensures commands { Commands O.objects O.faults origin result.origin (streams I.left I.faults W.written W.faults source.old source.new sink.old sink.new) (map string_bytes words.now) result.run result.status result.line }
    // A sound store stays sound, whichever of its calls fail and with or without their effect, and what read back over it reads back over what is left.
    ensures kept { KeepsSound (O.objects origin) (O.objects result.origin) }
    // So does `cat` of an image that the store has, where nothing fails.
    ensures read { ReadsAgain (O.objects origin) (O.faults origin) (O.faults result.origin) (streams I.left I.faults W.written W.faults source.old source.new sink.old sink.new) (map string_bytes words.now) result.status }
    ensures never_falls { O.faults origin ≤ O.faults result.origin }
    // Only `create` reads the source.
    ensures unread { ¬ (AreOfCreation (map string_bytes words.now)) → source.new ≡ source.old }
{
    sound_stores_are_kept::<O>();
    commands_read_again::<O>();
    let done = commands(alloc, words, source, sink, origin);
    let Done {
        status,
        line,
        started,
        log,
        origin,
    } = done;
    let run = recorded(started, log);
    Outcome {
        status,
        line,
        run,
        origin,
    }
}

/// Does one command. The words choose it; `play` reads a script from the source, plays it over the store, and writes its report to the
/// sink. The other commands are done over the store; of these `create` alone reads the source.
///
/// The headline is `served` of the clause `plays`: for every script, store and interleaving of its actors, each device's answered calls form one legal
/// history of a plain block device opened on its image's bytes, each call once and in the order of its caller; a call is refused only
/// for memory or where the store's faults rose in it; every live root stays complete, and every owed image keeps a home. Every call returns,
/// for every source, sink and store.
pub fn top<O: Origin, I: Source, W: Sink>(
    alloc: Global,
    words: &[String],
    source: &mut I,
    sink: &mut W,
    origin: O,
) -> Outcome<O>
    ensures plays { map string_bytes words.now ≡ codes "play" ∷ [] → Plays O.objects O.faults origin result.origin (streams I.left I.faults W.written W.faults source.old source.new sink.old sink.new) result.run result.status result.line }
    // Of other words `desk` says what is answered, wrong words among them.
    ensures commands { map string_bytes words.now ≢ codes "play" ∷ [] → Commands O.objects O.faults origin result.origin (streams I.left I.faults W.written W.faults source.old source.new sink.old sink.new) (map string_bytes words.now) result.run result.status result.line }
    ensures unread { map string_bytes words.now ≢ codes "play" ∷ [] → ¬ (AreOfCreation (map string_bytes words.now)) → source.new ≡ source.old }
    // Only a play hands back a run.
    ensures run { IfRun result.run (λ run. map string_bytes words.now ≡ codes "play" ∷ []) }
    // A sound store stays sound, whichever of its calls fail and with or without their effect, and what read back over it reads back over what is left.
    ensures kept { KeepsSound (O.objects origin) (O.objects result.origin) }
    // So does `cat` of an image that the store has, where nothing fails.
    ensures read { ReadsAgain (O.objects origin) (O.faults origin) (O.faults result.origin) (streams I.left I.faults W.written W.faults source.old source.new sink.old sink.new) (map string_bytes words.now) result.status }
    ensures never_falls { O.faults origin ≤ O.faults result.origin }
{
    sound_stores_are_kept::<O>();
    if is_play(words) {
        return play(alloc, source, sink, origin);
    }
    desk(alloc, words, source, sink, origin)
}
