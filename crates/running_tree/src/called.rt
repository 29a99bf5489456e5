//! What calls answer.
ghost use Rattle.std.specs.Prelude.{◌≡◌};
ghost use Rattle.running_tree.specs.Calls.{called_if};

use crate::seat::BwSeat;
use crate::tree::Tree;
use bw_model::Reply;
use std::alloc::Allocator;
use thiserror::Error;

/// What became of a call.
#[derive(Debug, Drop, PartialEq, Eq)]
pub enum Called {
    /// The operation is done, with this reply.
    Done(Reply),
    /// The budget is spent. The operation stays in the seat: resume it.
    Spent,
}

/// What became of a call that is done or not, with the reply in its place.
pub(crate) fn called_if(done: bool, reply: Reply) -> Called
    ensures { result ≡ called_if done reply }
{
    if done {
        Called::Done(reply)
    } else {
        Called::Spent
    }
}

/// Why a tree wasn't closed.
#[derive(Clone, Copy, Debug, PartialEq, Eq, Error)]
pub enum CloseRefusal {
    /// There are fewer seats than actors.
    #[error("a seat is missing")]
    Seats,
    /// A seat has an unfinished operation.
    #[error("a seat isn't idle")]
    NotIdle,
    /// The growth of the list was refused.
    #[error("no memory for the list")]
    Memory,
}

/// Why a load stopped, and at which place of its list.
#[derive(Clone, Copy, Debug, PartialEq, Eq, Error)]
pub enum LoadStop {
    /// Its upsert found no free row or PID.
    #[error("the tree is full at pair {0}")]
    Full(usize),
    /// Its upsert has spent its budget.
    #[error("the upsert of pair {0} was spent")]
    Spent(usize),
}

/// Why a tree wasn't opened with pairs.
#[derive(Clone, Copy, Debug, PartialEq, Eq, Error)]
pub enum LoadError {
    /// The keys don't ascend strictly.
    #[error("the keys don't ascend")]
    Order,
    /// A growth of memory was refused.
    #[error("no memory for the tree")]
    Memory,
    /// An upsert found no free row or PID.
    #[error("the tree is full")]
    Full,
    /// An upsert has spent its budget.
    #[error("an upsert was spent")]
    Spent,
}

/// A refusal to close, which hands back the tree and its seats.
#[derive(Drop)]
pub struct CloseError<A: Allocator> {
    /// Why.
    pub refusal: CloseRefusal,
    /// The tree, as it was.
    pub tree: Tree<A>,
    /// The seats, as they were.
    pub seats: Vec<BwSeat<A>, A>,
}
