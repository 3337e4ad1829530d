//! Laws, as contracts of functions that do nothing.
ghost use Rattle.lr_replies.specs.Seen.{JobsAreSeen, TrailsAreSeen};
ghost use Rattle.lr_replies.specs.Replies.{RepliesAreAdmitted, ListsGain, LogsStayMade, LeasesStayOut, LooksHoldNone, EndedHoldNone};
ghost use Rattle.lr_replies.specs.Unspoiled.{SpoiledJobsWereTold};

/// Each walk of an actor's job is one of what a history sees of the job.
pub fn jobs_are_seen()
    ensures { JobsAreSeen }
{}

/// A trail of an actor is one over what a history sees of its jobs.
pub fn trails_are_seen()
    ensures { TrailsAreSeen }
{}

/// A job other than a device call ends with a spoiled key only where the depot told it so.
pub fn spoiled_jobs_were_told()
    ensures { SpoiledJobsWereTold }
{}

/// An actor that stands for its own lists takes each reply that the called object gives, whatever the others did.
pub fn replies_are_admitted()
    ensures { RepliesAreAdmitted }
{
    lr_history::calls_fit();
}

/// A call adds to its caller's own lists what the actor gains by the reply, and nothing to the lists of others.
pub fn lists_gain()
    ensures { ListsGain }
{
    lr_history::calls_fit();
}

/// A log that calls made is one after a further call.
pub fn logs_stay_made()
    ensures { LogsStayMade }
{}

/// A lease that is out stays out, but for a Close of it.
pub fn leases_stay_out()
    ensures { LeasesStayOut }
{}

/// An actor that looks for a chunk holds no claim, in whichever cache.
pub fn looks_hold_none()
    ensures { LooksHoldNone }
{
    replies_are_admitted();
    lr_history::calls_fit();
}

/// An actor of whose jobs all have ended holds neither a claim nor a plan.
pub fn ended_hold_none()
    ensures { EndedHoldNone }
{
    trails_are_seen();
    lr_history::ended_actors_hold_nothing();
}
