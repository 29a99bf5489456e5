//! A seat that is stopped after some of its steps, while another one goes on.
ghost use Rattle.running_tree.specs.Trees.{IsSeatOf};

use crate::calls::{begins, goes_to_its_end, replies};
use crate::numbered::{delete, found, get, insert, upsert, value};
use bw_model::{Command, Reply};
use running_tree::{BwSeat, Tree};

/// The operation that is stopped.
#[derive(Clone, Copy, Debug)]
pub(crate) enum Stop {
    /// The insert of key 16 consolidates the leaf, splits it and puts a new root.
    Splits,
    /// The update of key 0 frees the rows of the chain that was consolidated before it: it retires the epoch and hands rows on.
    Frees,
    /// The deletion of key 11 removes its leaf: it holds the term, removes, merges, takes the term out and clears.
    Removes,
}

impl Stop {
    fn command(self) -> Command {
        match self {
            Stop::Splits => insert(16),
            Stop::Frees => upsert(0, 0),
            Stop::Removes => delete(11),
        }
    }

    fn reply(self) -> Reply {
        match self {
            Stop::Splits => Reply::Inserted,
            Stop::Frees => Reply::Replaced(value(0)),
            Stop::Removes => Reply::Deleted(value(11)),
        }
    }

    /// How many keys are inserted before it, and how many of the greatest of these are deleted again.
    fn before(self) -> (u32, u32) {
        match self {
            Stop::Splits => (16, 0),
            Stop::Frees => (9, 0),
            Stop::Removes => (17, 5),
        }
    }

    /// How many keys there are at the end: eight more than it leaves.
    pub(crate) fn left(self) -> usize {
        match self {
            Stop::Splits => 17 + 8,
            Stop::Frees => 9 + 8,
            Stop::Removes => 11 + 8,
        }
    }

    /// More steps than it takes.
    pub(crate) fn most_steps(self) -> u32 {
        match self {
            Stop::Splits => 70,
            Stop::Frees => 30,
            Stop::Removes => 130,
        }
    }

    /// Whether all replies are right where the operation is stopped after so many steps.
    pub(crate) fn is_right(
        self,
        tree: &Tree,
        one: &mut BwSeat,
        other: &mut BwSeat,
        steps: u32,
    ) -> bool
        requires one { IsSeatOf tree.now one.old }
        requires other { IsSeatOf tree.now other.old }
        ensures one { IsSeatOf tree.now one.new }
        ensures other { IsSeatOf tree.now other.new }
    {
        let (inserted, deleted) = self.before();
        let prepared = prepare(tree, one, inserted, deleted);
        let begun = begins(tree, one, self.command(), steps, self.reply());
        let went = goes_on(tree, other);
        let ended = match begun {
            Some(right) => right,
            None => goes_to_its_end(tree, one, 4096, self.reply()),
        };
        prepared && went && ended && finds(tree, one, 0) && finds(tree, one, 20)
    }
}

/// Inserts the first keys, and deletes the greatest of them again.
fn prepare(tree: &Tree, seat: &mut BwSeat, count: u32, deleted: u32) -> bool
    requires own { IsSeatOf tree.now seat.old }
    ensures own { IsSeatOf tree.now seat.new }
{
    for number in 0..count {
        if !replies(tree, seat, insert(number), Reply::Inserted) {
            return false;
        }
    }
    for back in 0..deleted {
        let number = count.saturating_sub(back).saturating_sub(1);
        if !replies(tree, seat, delete(number), Reply::Deleted(value(number))) {
            return false;
        }
    }
    true
}

/// Inserts eight keys from 20 on, and looks them up, and the first eight.
fn goes_on(tree: &Tree, seat: &mut BwSeat) -> bool
    requires own { IsSeatOf tree.now seat.old }
    ensures own { IsSeatOf tree.now seat.new }
{
    for number in 20..28u32 {
        if !replies(tree, seat, insert(number), Reply::Inserted) {
            return false;
        }
    }
    finds(tree, seat, 0) && finds(tree, seat, 20)
}

/// Looks up eight keys.
fn finds(tree: &Tree, seat: &mut BwSeat, from: u32) -> bool
    requires own { IsSeatOf tree.now seat.old }
    ensures own { IsSeatOf tree.now seat.new }
{
    for place in 0..8u32 {
        let number = from.wrapping_add(place);
        if !replies(tree, seat, get(number), found(number)) {
            return false;
        }
    }
    true
}
