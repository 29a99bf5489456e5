//! Commands that run to their end, whatever that takes.
ghost use Rattle.std.specs.Prelude.{◌≡◌, ◌∷◌, [], IsTrue, None, Some};
ghost use Rattle.running_tree.specs.Runs.{IsOneHistory};
ghost use Rattle.running_tree.specs.Seats.{unfinished_command};
ghost use Rattle.running_tree.specs.Trees.{IsSeatOf};
ghost use Rattle.map_laws.specs.Fits.{fits};
ghost use Rattle.seats.specs.Replies.{GoesOn};

use bw_model::{Command, Reply};
use map_laws::seats_replies_fit;
use running_tree::{BwSeat, Called, Tree};
use seats::BUDGET;
use std::alloc::Allocator;
use std::sync::Wait;

/// Runs a command to completion, however many steps that takes. It may never return while others hinder it.
pub fn run_to_end<R: Wait, A: Allocator>(
    rt: &R,
    tree: &Tree<A>,
    seat: &mut BwSeat<A>,
    command: Command,
) -> Reply
    requires own { IsSeatOf tree.now seat.old }
    requires idle { unfinished_command seat.old ≡ None }
    ensures own { IsSeatOf tree.now seat.new }
    ensures goes { GoesOn seat.old ((command, Some result) ∷ []) seat.new }
    ensures fits { IsTrue (fits command result) }
    ensures history { IsOneHistory seat.new.limits seat.new.seen }
{
    seats_replies_fit();
    if let Called::Done(reply) = tree.call(seat, command, BUDGET) {
        return reply;
    }
    for _ in rt.forever() {
        if let Called::Done(reply) = tree.resume(seat, BUDGET) {
            return reply;
        }
    }
    unreachable!()
}
