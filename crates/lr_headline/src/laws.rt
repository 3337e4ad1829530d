//! Laws, as contracts of functions that do nothing.
ghost use Rattle.lr_headline.specs.Headline.{RunsAreWhole, RunsAreRuns, RunsServe, RunsFindNothingSpoiled, RunsFollow};

/// Over a store that tells its objects, a run is whole.
pub fn runs_are_whole()
    ensures { RunsAreWhole }
{
    lr_replies::trails_are_seen();
}

/// A run's logs and trails are those of a run, whatever its store holds.
pub fn runs_are_runs()
    ensures { RunsAreRuns }
{
    lr_replies::trails_are_seen();
}

/// Each device of a run serves its image, over a store that told its objects and was sound, where digests tell the run's strings apart.
pub fn runs_serve()
    ensures { RunsServe }
{
    runs_are_whole();
    lr_setup::images_are_served();
}

/// No job of a run ends with a spoiled key, over a store that told its objects and was sound.
pub fn runs_find_nothing_spoiled()
    ensures { RunsFindNothingSpoiled }
{
    runs_are_runs();
    lr_history::calls_are_answered_once();
    lr_replies::spoiled_jobs_were_told();
}

/// What holds of a run whatever its store holds: legal histories where bases agree, each call answered once, chunks fetched on demand.
pub fn runs_follow()
    ensures { RunsFollow }
{
    runs_are_runs();
    lr_history::grown_logs_are_legal();
    lr_history::commits_are_planned();
    lr_history::used_pieces_were_loaded();
    lr_history::calls_are_answered_once();
    lr_history::chunks_are_fetched_on_demand();
    lr_history::fetches_are_few();
}
