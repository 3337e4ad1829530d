//! Laws, as contracts of functions that do nothing: what follows for a run.
ghost use Rattle.lr_seal.specs.Made.{HaveDistinctDigests};
ghost use Rattle.lr_history.specs.Jobs.{OwnTrailIsSeen};
ghost use Rattle.lr_history.specs.Example.{Worked, WorkedRead};
ghost use Rattle.lr_history.specs.Run.{Run};
ghost use Rattle.lr_history.specs.Strings.{strings_of};
ghost use Rattle.lr_history.specs.Premises.{IsRun, IsSetUp, AreDeviceLogs};
ghost use Rattle.lr_history.specs.OnDemand.{LoadsAreOnDemand, FetchesAreDemanded};
ghost use Rattle.lr_history.specs.Claims.{FetchesAreFew, FetchesAreFewUncrashed};
ghost use Rattle.lr_history.specs.Ready.{WalksFit, NextFits, PathsTell, PlansAreTold, ClaimsAreTold, FitIsPlanned, FitIsGranted, BusyWaitsForAnother, EndedHasNone};
ghost use Rattle.lr_history.specs.Histories.{AreLegalWhereAgreed, PiecesWereLoaded, ServesEachBase, HistoriesAreLegal, CommitsArePlanned, OwnListsFollowJobs, CallsAreAnsweredOnce, JobsAreAnswered, HaveOwnNumbers, CallsAreCounted};

use std::alloc::Global;

/// A trail over the jobs that call a device, damage, rotate and close is one over what a history sees of them.
pub fn own_trails_are_seen()
    ensures { OwnTrailIsSeen }
{}

/// Logs that calls made of new devices are legal on every base that agrees with the pieces used.
pub fn grown_logs_are_legal()
    ensures { (run : Run) → AreDeviceLogs run → AreLegalWhereAgreed run }
{
    lr_device::histories_are_legal();
}

/// Each committed entry has its planned call, so that none is missing in the history.
pub fn commits_are_planned()
    ensures { (run : Run) → AreDeviceLogs run → CommitsArePlanned run }
{}

/// Each piece that a committed call used is a chunk of the name and the key of its number.
pub fn used_pieces_were_loaded()
    ensures { (run : Run) → IsRun run → PiecesWereLoaded run }
{}

/// A caller's answered calls are those of its jobs that have an answer, each once and in order; each path has one committed
/// entry exactly where its job is such a call; a device call tells just the failures of its own fetches.
pub fn calls_are_answered_once()
    ensures once { (run : Run) → IsRun run → CallsAreAnsweredOnce run }
    ensures jobs { (run : Run) → IsRun run → JobsAreAnswered run }
    ensures order { (run : Run) → IsRun run → OwnListsFollowJobs run }
    ensures counted { (run : Run) → IsRun run → HaveOwnNumbers run.actors → CallsAreCounted run }
{}

/// Each device's history is legal on every base that its manifest's names and its keys open.
pub fn device_serves_each_base()
    ensures { (run : Run) → AreLegalWhereAgreed run → PiecesWereLoaded run → ServesEachBase run }
{}

/// Each device has a base, its image's bytes, and its answered calls are a legal history of a plain device that holds them.
pub fn histories_are_legal()
    ensures { (run : Run) → ServesEachBase run → IsSetUp run → HaveDistinctDigests (strings_of run) → HistoriesAreLegal run }
{}

/// Each fetch of an actor is in a load of a device call whose plan needs it, with a claim of that load's own.
pub fn chunks_are_fetched_on_demand()
    ensures loads { LoadsAreOnDemand }
    ensures demanded { FetchesAreDemanded }
{}

/// The fetches of a name by a host's devices are at most one more than the claims on it given up in the host's cache.
pub fn fetches_are_few()
    ensures kept { FetchesAreFew }
    ensures uncrashed { FetchesAreFewUncrashed }
{}

/// Each call of a walk fits what the caller has out, which its own list alone tells, and to such a call a cache never answers
/// that a claim is out or that none is, nor a device that a plan is out or that none is.
pub fn calls_fit()
    ensures walks { WalksFit }
    ensures next { NextFits }
    ensures paths { PathsTell }
    ensures told { ClaimsAreTold }
    ensures planned { PlansAreTold }
    ensures granted { FitIsGranted }
    ensures made { FitIsPlanned }
{}

/// Busy waits for another caller's claim, and an actor that ended, uncut, has neither claim nor plan out.
pub fn ended_actors_hold_nothing()
    ensures busy { BusyWaitsForAnother }
    ensures ended { EndedHasNone }
{}

/// There is a run that meets all premises: a device on an empty image that an image line made, and an actor whose read of it is
/// past its end. And there is one whose device reads a chunk of an image that the store had, with the cache filled by another
/// caller. The allocator is that of the lists in the logs.
pub fn premises_can_hold(_alloc: Global)
    ensures all { Worked }
    ensures read { WorkedRead }
{}
