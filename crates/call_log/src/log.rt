//! What is in a log, and what a seat of its table knows. No value of these types is ever made.

use std::collections::LinkedList;

/// Who may write as whom. An author is a number, which one view has alone.
pub enum Authors {
    /// No author: who has none writes nothing.
    Nobody,
    /// One author.
    One(u64),
    /// All authors from this number on.
    AllFrom(u64),
}

/// What was done with a slot, or with all of them.
pub enum Deed<S> {
    /// A call took out what was in the slot of this number.
    Began(u64),
    /// It put something back into it: it had taken out the first one, and left the second one.
    Ended(u64, S, S),
    /// All slots are out for good.
    Closed,
    /// Nothing waits any more.
    Emptied,
}

/// What was done, and by which author.
pub struct Event<S> {
    pub author: u64,
    pub deed: Deed<S>,
}

/// A view: the authors that it has, which nobody else has, what was in the slots when the table opened, and what it has seen that was done, the last first.
pub struct Knows<S> {
    /// As whom it may write.
    pub authors: Authors,
    /// What was in the slots.
    pub opened: LinkedList<S>,
    /// What was done since then, the last first.
    pub log: LinkedList<Event<S>>,
}
