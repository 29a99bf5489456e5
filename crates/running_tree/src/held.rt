//! What a seat holds back between operations.
ghost use Rattle.std.specs.Prelude.{◌≡◌, if◌then◌else◌, is_some, None};
ghost use Rattle.running_tree.specs.Held.{HasHeld};
ghost use Rattle.running_tree.specs.Seats.{unfinished_command};

use crate::seat::BwSeat;
use op_machine::Hand;
use std::alloc::Allocator;

/// How many PIDs and rows a seat holds back between operations. Nobody else can take them, and [`crate::Room`] doesn't count them.
#[derive(Clone, Copy, Debug, PartialEq, Eq)]
pub struct Held {
    /// PIDs that it has taken and not linked, 1 at most: its next change that needs one uses it.
    pub spare_pids: usize,
    /// Rows that it has taken and not linked: 2 at most, or 4 where rows have several widths.
    pub spare_rows: usize,
    /// PIDs that it has taken out of the tree and not freed yet.
    pub limbo_pids: usize,
    /// Rows that it has taken out of the tree and not freed yet.
    pub limbo_rows: usize,
}

impl<A: Allocator> BwSeat<A> {
    /// What it holds back. It takes no step and reads no word.
    pub fn held(&self) -> Held
        requires idle { unfinished_command self.now ≡ None }
        ensures held { HasHeld self.now result }
    {
        let hand = self.actor.hand();
        let limbo = hand.limbo();
        limbo.has_each_once();
        Held {
            spare_pids: spare_pids(hand),
            spare_rows: hand.spares().rows().len(),
            limbo_pids: limbo.pids().len(),
            limbo_rows: limbo.rows().len(),
        }
    }
}

/// How many PIDs were taken and not linked.
fn spare_pids<A: Allocator>(hand: &Hand<A>) -> usize
    ensures { result ≡ (if is_some hand.now.spares.pid then 1 else 0) }
{
    match hand.spares().pid() {
        Some(_) => 1,
        None => 0,
    }
}
