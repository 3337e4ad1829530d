//! What a pass knows of its object, for contracts alone. No value of it is made.
use lr_object::Entry;
use std::alloc::Global;
use std::collections::LinkedList;

/// A number, the beginning of the object's log that its pass has seen, and the entries that it made, in their order.
pub struct Own<C, R> {
    pub number: u32,
    pub seen: LinkedList<Entry<C, R>, Global>,
    pub entries: LinkedList<Entry<C, R>, Global>,
}

/// What a pass knows.
pub struct View<C, R, F> {
    /// The pass was joined, and says nothing any more.
    pub spent: bool,
    /// It has the turn.
    pub out: bool,
    pub number: u32,
    /// The object's fixed part. A spent view has none.
    pub fixed: Option<F>,
    /// The object's log when it was first shared.
    pub start: LinkedList<Entry<C, R>, Global>,
    /// The beginning of the object's log that the pass has seen.
    pub seen: LinkedList<Entry<C, R>, Global>,
    /// The entries that the pass made, in their order.
    pub mine: LinkedList<Entry<C, R>, Global>,
    /// A number of entries that the pass was told.
    pub known: u64,
    /// Of the first pass: the greatest number given out.
    pub top: u32,
    /// Of the first pass: the numbers given out.
    pub given: LinkedList<u32, Global>,
    /// Of the first pass: the lists of the passes that it took in.
    pub joined: LinkedList<Own<C, R>, Global>,
}
