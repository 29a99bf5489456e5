//! How much is to be done, and how much was.

use std::time::Duration;

/// How much is to be done, and over how much.
#[derive(Clone, Copy, Debug)]
pub(crate) struct Scale {
    /// How many keys a tree has, or how many rows an operation reads.
    pub(crate) size: u32,
    /// How many threads there are.
    pub(crate) threads: u32,
    /// How many operations each thread does.
    pub(crate) operations: u32,
    /// How many bytes a key has, if that is no fewer than a number's digits and no more than a key may have.
    pub(crate) key_bytes: u32,
}

/// What all threads have done.
#[derive(Clone, Copy, Debug, Default)]
pub(crate) struct Done {
    /// How many operations succeeded, or how many steps they took.
    pub(crate) count: u64,
    /// How long they took, with the start and the end of the threads.
    pub(crate) time: Duration,
}
