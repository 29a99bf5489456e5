//! The next pair of a walk down, behind pages that have none.
ghost use Rattle.std.specs.Prelude.{◌≡◌, ◌≤◌, []};
ghost use Rattle.running_tree.specs.Runs.{IsOneHistory};
ghost use Rattle.running_tree.specs.Seats.{IsSame, unfinished_command};
ghost use Rattle.running_tree.specs.Trees.{IsSeatOf};
ghost use Rattle.walks.specs.BackCursors.{HasSeekStoppedBack, HasToldBack, HasWalkedBack, added_back, back_command};

use crate::back_cursor::BackCursor;
use crate::cursor::Walk;
use running_tree::{BwSeat, Tree};
use std::alloc::Allocator;

impl BackCursor {
    /// Reads pages, each in at most `budget` steps, until one has a pair: the last of its pairs is the walk's next one. If one page was
    /// read, this is so of the map at one moment; otherwise as far as a walk determines it (`next_pairs_are_told`). `Spent` also after
    /// 2^64 - 1 pages without a pair.
    pub fn seek<A: Allocator>(&mut self, tree: &Tree<A>, seat: &mut BwSeat<A>, budget: u32) -> Walk
        requires own { IsSeatOf tree.now seat.old }
        requires ready { unfinished_command seat.old ≡ back_command self.old }
        requires some { 1 ≤ budget }
        ensures same { IsSame seat.old seat.new }
        ensures ready { unfinished_command seat.new ≡ back_command self.new }
        ensures walked { HasWalkedBack self.old seat.old [] (added_back result self.new) self.new seat.new }
        ensures told { HasToldBack self.old seat.old [] (added_back result self.new) self.new seat.new }
        ensures sought { HasSeekStoppedBack result self.old seat.old budget self.new seat.new }
        ensures history { IsOneHistory seat.new.limits seat.new.seen }
    {
        for _ in 0..u64::MAX {
            match self.next(tree, seat, budget) {
                Walk::Page if self.pairs().is_empty() => {}
                Walk::Page => return Walk::Page,
                Walk::Spent => return Walk::Spent,
                Walk::End => return Walk::End,
            }
        }
        seat.saw_one_history();
        Walk::Spent
    }
}
