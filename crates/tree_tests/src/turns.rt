//! Commands on the seats of a tree in turn: each seat is idle while the others do theirs.
ghost use Rattle.running_tree.specs.Trees.{AreSeatsOf, IsSeatOf};

use crate::works::Work;
use bw_model::{Command, Reply};
use running_tree::{BwSeat, Tree};
use workers::{reply, take_seat};

/// Puts a seat before the others of its list.
fn put_first(tree: &Tree, seats: &mut Vec<BwSeat>, seat: BwSeat) -> bool
    requires own { AreSeatsOf tree.now seats.old.items }
    requires given { IsSeatOf tree.now seat }
    ensures own { AreSeatsOf tree.now seats.new.items }
{
    let _ = tree;
    seats.insert(0, seat).is_ok()
}

/// Runs a command on the last seat of the list, which then comes before the others. None without a seat or memory.
pub(crate) fn in_turn(tree: &Tree, seats: &mut Vec<BwSeat>, command: Command) -> Option<Reply>
    requires own { AreSeatsOf tree.now seats.old.items }
    ensures own { AreSeatsOf tree.now seats.new.items }
{
    let mut seat = take_seat(tree, seats)?;
    let told = reply(tree, &mut seat, command).ok();
    if put_first(tree, seats, seat) {
        return told;
    }
    None
}

/// Does the work for each of the numbers, one seat after another, and tells for how many it was done.
pub(crate) fn done(tree: &Tree, seats: &mut Vec<BwSeat>, work: Work, numbers: &[u32]) -> u32
    requires own { AreSeatsOf tree.now seats.old.items }
    ensures own { AreSeatsOf tree.now seats.new.items }
{
    let mut count = 0u32;
    for number in numbers {
        if is_done(tree, seats, work, *number) {
            count = count.saturating_add(1);
        }
    }
    count
}

/// Whether the work is done for the number.
pub(crate) fn is_done(tree: &Tree, seats: &mut Vec<BwSeat>, work: Work, number: u32) -> bool
    requires own { AreSeatsOf tree.now seats.old.items }
    ensures own { AreSeatsOf tree.now seats.new.items }
{
    in_turn(tree, seats, work.command(number)) == Some(work.reply(number))
}
