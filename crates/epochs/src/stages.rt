//! Other stages for the entries of a limbo list.
ghost use Rattle.std.specs.Prelude.{◌≡◌, ◌≤◌, length, take};
ghost use Rattle.epochs.specs.Limbo.{compared_with, first_restaged, with_stages, stamped_by};
ghost use Rattle.epochs.specs.Queue.{AreLastUnstamped, AreStamped};

use crate::Entry;
use crate::queue::Queue;
use std::alloc::Allocator;

/// Where the entries begin that have no stamp. It looks at no other entry but the one before them.
pub(crate) fn first_unstamped(entries: &[Entry]) -> usize
    requires { AreLastUnstamped entries.now }
    ensures within { result ≤ length entries.now }
    ensures stamped { AreStamped (take result entries.now) }
{
    for place in (0..entries.len()).rev() {
        if !entries[place].stage.is_unstamped() {
            return place + 1;
        }
    }
    0
}

/// Gives the stamp to all entries that have none, where those before this place have one.
pub(crate) fn stamp_from<A: Allocator>(queue: &mut Queue<A>, from: usize, epoch: u64)
    requires within { from ≤ length queue.old.entries }
    requires stamped { AreStamped (take from queue.old.entries) }
    ensures { queue.new ≡ record queue.old { entries = with_stages (stamped_by epoch) queue.old.entries } }
{
    for place in from..queue.as_slice().len() {
        let stage = queue.as_slice()[place].stage.stamped_by(epoch);
        queue.restage(place, stage);
    }
}

/// Finds out which of the first entries may be freed.
pub(crate) fn compare_first<A: Allocator>(queue: &mut Queue<A>, most: usize, announces: &[u64])
    requires { most ≤ length queue.old.entries }
    ensures { queue.new ≡ record queue.old { entries = first_restaged most (compared_with announces.now) queue.old.entries } }
{
    for place in 0..most {
        let stage = queue.as_slice()[place].stage.compared_with(announces);
        queue.restage(place, stage);
    }
}
