//! Walks to their end.
ghost use Rattle.std.specs.Prelude.{◌≡◌, ◌≤◌, ◌<◌, ◌+◌, ◌++◌, IfOk, OnErr, length};
ghost use Rattle.std.specs.Vec.{vec_capacity};
ghost use Rattle.bw_model.specs.declared.pairs.TheConstants.{MAX_PAIRS};
ghost use Rattle.running_tree.specs.Runs.{IsOneHistory};
ghost use Rattle.running_tree.specs.Seats.{IsSame, unfinished_command};
ghost use Rattle.running_tree.specs.Trees.{IsSeatOf};
ghost use Rattle.walks.specs.Cursors.{HasScanStopped, HasTold, HasWalked, IsNextOf, added_by, cursor_command};

use crate::cursor::{Cursor, Walk};
use bw_model::{Key, MAX_PAIRS, Value};
use running_tree::{BwSeat, Tree};
use std::alloc::{AllocError, Allocator};

/// Why a scan stopped that had memory.
#[derive(Clone, Copy, Debug, PartialEq, Eq)]
pub enum Scanned {
    /// The walk is at the bound, or at the tree's end.
    End,
    /// The budget of a page is spent. The operation stays in the seat: scan again, on the same seat. Or 2^64 - 1 pages were shown.
    Spent,
}

impl Cursor {
    /// Walks to the end, each page in at most `budget` steps, and adds the pairs to a list. It fails only if the list can't have room for a
    /// page; what was added stays, and the cursor is behind it.
    pub fn scan<A: Allocator, B: Allocator>(
        &mut self,
        tree: &Tree<A>,
        seat: &mut BwSeat<A>,
        budget: u32,
        list: &mut Vec<(Key, Value), B>,
    ) -> Result<Scanned, AllocError>
        requires own { IsSeatOf tree.now seat.old }
        requires ready { unfinished_command seat.old ≡ cursor_command self.old }
        requires some { 1 ≤ budget }
        ensures same { IsSame seat.old seat.new }
        ensures ready { unfinished_command seat.new ≡ cursor_command self.new }
        ensures walked { HasWalked self.old seat.old list.old.items list.new.items self.new seat.new }
        ensures told { HasTold self.old seat.old list.old.items list.new.items self.new seat.new }
        ensures stopped { IfOk result (λ scanned. HasScanStopped scanned self.old seat.old budget list.old.items list.new.items self.new seat.new) }
        ensures full { OnErr result (vec_capacity list.new < length list.new.items + MAX_PAIRS) }
        ensures history { IsOneHistory seat.new.limits seat.new.seen }
    {
        for _ in 0..u64::MAX {
            match self.add_page(tree, seat, budget, list)? {
                Walk::Page => {}
                Walk::Spent => return Ok(Scanned::Spent),
                Walk::End => return Ok(Scanned::End),
            }
        }
        seat.saw_one_history();
        Ok(Scanned::Spent)
    }

    /// Shows the next page, and adds its pairs to a list that has room for them.
    fn add_page<A: Allocator, B: Allocator>(
        &mut self,
        tree: &Tree<A>,
        seat: &mut BwSeat<A>,
        budget: u32,
        list: &mut Vec<(Key, Value), B>,
    ) -> Result<Walk, AllocError>
        requires own { IsSeatOf tree.now seat.old }
        requires ready { unfinished_command seat.old ≡ cursor_command self.old }
        requires some { 1 ≤ budget }
        ensures same { IsSame seat.old seat.new }
        ensures ready { unfinished_command seat.new ≡ cursor_command self.new }
        ensures next { IfOk result (λ walk. IsNextOf self.old seat.old budget walk self.new seat.new) }
        ensures list { IfOk result (λ walk. list.new.items ≡ list.old.items ++ added_by walk self.new) }
        ensures full { OnErr result (vec_capacity list.new < length list.new.items + MAX_PAIRS) }
        ensures err_cursor { OnErr result (self.new ≡ self.old) }
        ensures err_seat { OnErr result (seat.new ≡ seat.old) }
        ensures err_list { OnErr result (list.new.items ≡ list.old.items) }
        ensures history { IsOneHistory seat.new.limits seat.new.seen }
    {
        seat.saw_one_history();
        if self.is_at_end() {
            return Ok(Walk::End);
        }
        list.reserve(MAX_PAIRS)?;
        let walk = self.next(tree, seat, budget);
        if let Walk::Page = walk {
            add(list, self.pairs());
        }
        Ok(walk)
    }
}

/// Adds pairs to a list that has room for them.
fn add<B: Allocator>(list: &mut Vec<(Key, Value), B>, pairs: &[(Key, Value)])
    requires { length list.old.items + length pairs.now ≤ vec_capacity list.old }
    ensures { list.new.items ≡ list.old.items ++ pairs.now }
{
    for (key, value) in pairs {
        list.push_reserved((key.copied(), value.copied()));
    }
}
