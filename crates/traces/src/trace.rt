//! Turns, and what each did.
ghost use Rattle.std.specs.Prelude.{◌≡◌};

use bw_model::{Answer, Command, Reply, Step};
use deltas::Record;
use std::alloc::AllocError;

/// A turn of one actor: it begins an operation, or its operation takes one step.
#[derive(Drop)]
pub enum Turn {
    Begin(u8, Command),
    Step(u8),
}

impl Turn {
    /// A copy of the turn; it allocates nothing.
    pub fn copied(&self) -> Turn
        ensures { result ≡ self.now }
    {
        match self {
            Turn::Begin(actor, command) => Turn::Begin(*actor, command.copied()),
            Turn::Step(actor) => Turn::Step(*actor),
        }
    }
}

impl Clone for Turn {
    ghost is_clone = { λ turn other. other ≡ turn };

    ghost is_infallible = { λ _. Unit {0} };

    fn clone(&self) -> Result<Self, AllocError> {
        Ok(self.copied())
    }
}

/// What a turn did. An operation is done at the step that has its reply.
#[derive(Drop)]
pub enum Entry {
    Begin(u8, Command),
    Step(u8, Step<Record>, Answer<Record>, Option<Reply>),
}
