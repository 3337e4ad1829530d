//! What is kept of an actor's jobs.
use lr_object::ObjectId;
use lr_origin::{ImageName, Key};

/// How a job ended.
#[derive(Drop)]
pub enum Answer {
    Done,
    Range,
    Created(u32),
    Root(u32),
    Moved(u32, u32),
    Withdrawn,
    Expired,
    Deleted,
    Swept(u64),
    There,
    Absent,
    Closed,
    Evicted(u32),
    Dropped,
    Flipped,
    Forged,
    Lost(u32),
    NoStripe,
    NoChunk,
    NoImage,
    NoRoot,
    Taken,
    Full,
    RootsEnd,
    Overtaken(u32),
    NotExpired,
    NotDeleted,
    NoDoubt,
    Serves(ImageName),
    Session(u64),
    Doubt(Key),
    NotRetiredHome(u32),
    NotRetired,
    Fault(Key),
    Spoiled(Key),
    Memory,
    /// The job was under way when its actor crashed or the run stopped.
    Cut,
    Unbegun,
}

/// A step of a job: the entry at this place of the actor's own list of the object, or a call that found no memory
/// there.
#[derive(Clone, Copy, Debug, PartialEq, Eq)]
pub struct Did {
    pub object: ObjectId,
    pub place: u64,
    pub memory: bool,
}

/// A job's answer, and the steps that it made.
#[derive(Drop)]
pub struct JobResult {
    pub answer: Answer,
    pub path: Vec<Did>,
}
