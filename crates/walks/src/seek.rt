//! The next pair of a walk, behind pages that have none.
ghost use Rattle.std.specs.Prelude.{◌≡◌, ◌≤◌, []};
ghost use Rattle.running_tree.specs.Runs.{IsOneHistory};
ghost use Rattle.running_tree.specs.Seats.{IsSame, unfinished_command};
ghost use Rattle.running_tree.specs.Trees.{IsSeatOf};
ghost use Rattle.walks.specs.Cursors.{HasSeekStopped, HasTold, HasWalked, added_by, cursor_command};

use crate::cursor::{Cursor, Walk};
use running_tree::{BwSeat, Tree};
use std::alloc::Allocator;

impl Cursor {
    /// Reads pages, each in at most `budget` steps, until one has a pair: the first of its pairs is the walk's next one. If one page was
    /// read, this is so of the map at one moment; otherwise as far as a walk determines it (`next_pairs_are_told`). `Spent` also after
    /// 2^64 - 1 pages without a pair.
    pub fn seek<A: Allocator>(&mut self, tree: &Tree<A>, seat: &mut BwSeat<A>, budget: u32) -> Walk
        requires own { IsSeatOf tree.now seat.old }
        requires ready { unfinished_command seat.old ≡ cursor_command self.old }
        requires some { 1 ≤ budget }
        ensures same { IsSame seat.old seat.new }
        ensures ready { unfinished_command seat.new ≡ cursor_command self.new }
        ensures walked { HasWalked self.old seat.old [] (added_by result self.new) self.new seat.new }
        ensures told { HasTold self.old seat.old [] (added_by result self.new) self.new seat.new }
        ensures sought { HasSeekStopped result self.old seat.old budget self.new seat.new }
        ensures history { IsOneHistory seat.new.limits seat.new.seen }
    {
        for _ in 0..u64::MAX {
            match self.next(tree, seat, budget) {
                Walk::Page if self.pairs().is_empty() => {}
                Walk::Page => return Walk::Page,
                Walk::Spent => return Walk::Spent,
                Walk::End => return Walk::End,
            }
        }
        seat.saw_one_history();
        Walk::Spent
    }
}
