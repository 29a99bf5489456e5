//! What a turn did, why it was refused, and what a run has done.

use bw_model::{Link, Reply};
use core_memory::Entries;
use std::alloc::{Allocator, Global};
use thiserror::Error;

/// What a turn did.
#[derive(PartialEq, Eq, Drop)]
pub enum Event {
    /// An operation began.
    Began,
    /// A step was taken, and its operation goes on. An exchange that won has a link.
    Stepped(Option<Link>),
    /// A step was taken, and its operation is done with this reply.
    Done(Reply),
}

/// Why a turn was refused, with the number of the turn from 0.
#[derive(Clone, Copy, Debug, PartialEq, Eq, Error)]
pub enum RunError {
    #[error("turn {0}: there is no such actor")]
    NoActor(u64),
    #[error("turn {0}: the actor's operation is not finished")]
    Unfinished(u64),
    #[error("turn {0}: the actor has no operation")]
    NoOperation(u64),
    #[error("turn {0}: a growth of memory was refused")]
    Memory(u64),
}

/// What was done, turn by turn.
#[derive(Drop)]
pub struct Trace<A: Allocator = Global> {
    pub entries: Entries<A>,
}
