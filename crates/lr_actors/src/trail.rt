//! What is kept of an actor.
use lr_walk::JobResult;

/// Where an actor stands.
#[derive(Clone, Copy, Debug, PartialEq, Eq)]
pub enum ActorState {
    /// All its jobs have ended.
    Ended,
    /// It crashed: it forgot all that it held.
    Crashed,
    /// It has neither ended nor crashed.
    Unfinished,
}

/// An actor's state, the results of its jobs in their order, and how many steps it made while it had neither ended nor crashed,
/// those that were answered Busy and idle ones among them. The number stands still at the greatest u64.
#[derive(Drop)]
pub struct Trail {
    pub state: ActorState,
    pub results: Vec<JobResult>,
    pub steps: u64,
}
