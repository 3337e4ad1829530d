//! Laws, as contracts of functions that do nothing.
ghost use Rattle.lr_claims.specs.Logs.{CacheLogsAreLegal};
ghost use Rattle.lr_claims.specs.Own.{ClaimsAreOnesOwn, HeldIsOnesOwn, RefusalsAreOnesOwn, BusyIsAnothers};
ghost use Rattle.lr_claims.specs.Leads.{LeadsAreFew};
ghost use Rattle.lr_claims.specs.Sessions.{SessionsAreOnesOwn, NoSessionIsOnesOwn};

/// A log that calls made, from an empty one, is legal.
pub fn cache_logs_are_legal()
    ensures { CacheLogsAreLegal }
{}

/// What a caller has claimed rests on its own entries alone, whatever the others do; so do the replies that tell of it.
pub fn claims_are_ones_own()
    ensures claims { ClaimsAreOnesOwn }
    ensures held { HeldIsOnesOwn }
    ensures refused { RefusalsAreOnesOwn }
    ensures busy { BusyIsAnothers }
{}

/// Where nothing is dropped, the Leads on a name are at most one more than the claims on it that were given up.
pub fn leads_are_few()
    ensures { LeadsAreFew }
{}

/// The sessions that a caller has on a depot rest on its own entries alone, whatever the others do. Only of a session whose
/// manifest's put failed do these not tell whether it is still there.
pub fn sessions_are_ones_own()
    ensures own { SessionsAreOnesOwn }
    ensures refused { NoSessionIsOnesOwn }
{}
