//! What a seat knows.

use bw_model::Limits;
use std::collections::LinkedList;
use traces::Entry;

/// Where a seat stands between two atomic operations.
pub enum Reach {
    /// Between two steps.
    Idle,
    /// In the midst of placing a record into this row, with the words that the seat has written behind the first one. In a small tree the
    /// number is the first word that stands there until then; in a large tree, where that word is not loaded, it is 0.
    Writing(u32, u64, LinkedList<u64>),
    /// Nowhere: this is a note of what the actor had seen, with which no step is taken.
    Noted,
}

/// What a seat knows of one actor: the run that was seen, and where the seat stands. No value of it is ever made.
pub struct Part {
    /// The limits of the tree.
    pub limits: Limits,
    /// The actor's number.
    pub actor: u8,
    /// The entries of the run, oldest first.
    pub seen: LinkedList<Entry>,
    /// Where the seat stands.
    pub reach: Reach,
}

/// A part for each actor of the seat, and for each note. A seat has one, and others only while seats are dealt, meet or heed notes.
pub type View = LinkedList<Part>;
