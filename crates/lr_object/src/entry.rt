//! A line of a log.
/// A line of an object's log: who called, what is kept of the call, and what is kept of the reply.
#[derive(Drop, Clone, Debug, PartialEq, Eq)]
pub struct Entry<C, R> {
    /// The caller's number.
    pub caller: u32,
    pub call: C,
    pub reply: R,
}
