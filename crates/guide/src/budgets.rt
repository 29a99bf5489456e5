//! A call in pieces: a thread that has other things to do lends each piece a few steps.
ghost use Rattle.running_tree.specs.Seats.{IsSame};
ghost use Rattle.running_tree.specs.Trees.{IsSeatOf};

use crate::opening::done_alone;
use bw_model::{Command, Key, Reply};
use running_tree::{BwSeat, Called, Tree};
use std::alloc::Global;
use workers::{Work, called, resumed};

/// More pieces than a call is cut into.
const MOST_PIECES: u32 = 1 << 16;

/// The reply of a command, and how many pieces it took.
#[derive(Debug, PartialEq, Drop)]
struct Answer {
    reply: Reply,
    pieces: u32,
}

/// Runs a command in pieces of so many steps. None where the seat isn't idle, or the budget is 0.
fn in_pieces(tree: &Tree, seat: &mut BwSeat, command: Command, budget: u32) -> Option<Answer>
    requires own { IsSeatOf tree.now seat.old }
    ensures same { IsSame seat.old seat.new }
{
    let mut last = called(tree, seat, command, budget)?;
    for pieces in 1..=MOST_PIECES {
        if let Called::Done(reply) = last {
            return Some(Answer { reply, pieces });
        }
        // here the thread does something else; the operation waits in the seat
        last = resumed(tree, seat, budget)?;
    }
    None
}

/// Looks a key up in pieces.
#[derive(Drop)]
struct Finds {
    budget: u32,
    found: Option<Answer>,
}

impl Work for Finds {
    fn work(&mut self, tree: &Tree, seat: &mut BwSeat) {
        self.found = in_pieces(tree, seat, Command::Get(Key::default()), self.budget);
    }
}

/// What a lookup in a new tree finds, in pieces of so many steps.
fn found_in(alloc: Global, budget: u32) -> Option<Answer> {
    let mut finds = Finds {
        budget,
        found: None,
    };
    let _pairs = done_alone(alloc, &mut finds)?;
    finds.found
}

// A lookup in a tree of one empty page takes six steps.
#[test]
fn a_lookup_is_made_in_pieces(rt: HostRuntime) {
    for (budget, pieces) in [(1, 6), (4, 2), (6, 1), (100, 1)] {
        let found = found_in(rt.alloc(), budget);
        let expected = Answer {
            reply: Reply::None,
            pieces,
        };
        assert!(rt;
            found == Some(expected),
            "{budget} steps a piece: {found:?}"
        );
    }
}
