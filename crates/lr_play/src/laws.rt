//! A law, as the contract of a function that does nothing.
ghost use Rattle.lr_play.specs.Given.{JobsMayBeGiven};

/// The jobs of a script may be given to actors in a context of its hosts, devices and nodes.
pub fn jobs_may_be_given()
    ensures { JobsMayBeGiven }
{}
