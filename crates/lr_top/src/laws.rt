//! A law, as the contract of a function that does nothing.
ghost use Rattle.lr_report.specs.declared.run.Run.{Run as AnyRun};
ghost use Rattle.lr_top.specs.Played.{HasPlayed, Headline};

use lr_depot::{calls_keep_the_promise, logs_can_be_cut};
use lr_headline::{runs_find_nothing_spoiled, runs_follow, runs_serve};
use lr_images::answers_are_told;
use lr_origin::Origin;

/// The headline holds of whatever was played over a store.
pub fn plays_have_the_headline<O: Origin>()
    ensures { (before after : O) (run : AnyRun) (played : HasPlayed O.objects O.faults before after run) → Headline O.objects O.faults before after run played }
{
    runs_serve();
    runs_follow();
    runs_find_nothing_spoiled();
    calls_keep_the_promise();
    logs_can_be_cut();
    answers_are_told();
}
