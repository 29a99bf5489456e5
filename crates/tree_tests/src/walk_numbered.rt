//! Trees that have keys and values by number, and walks over them.
ghost use Rattle.std.specs.Prelude.{◌≡◌, IfSome};
ghost use Rattle.running_tree.specs.Seats.{unfinished_command};
ghost use Rattle.running_tree.specs.Trees.{IsSeatOf};
ghost use Rattle.walks.specs.Cursors.{cursor_command};

use crate::numbered::{delete, insert, key, value};
use bw_model::Reply;
use running_tree::{BwSeat, Tree};
use walks::Cursor;
use workers::reply;

/// Whether the key has no value yet, and is given that of its number.
pub(crate) fn inserts(tree: &Tree, seat: &mut BwSeat, number: u32) -> bool
    requires own { IsSeatOf tree.now seat.old }
    ensures own { IsSeatOf tree.now seat.new }
{
    reply(tree, seat, insert(number)) == Ok(Reply::Inserted)
}

/// Whether the key has the value of its number, and is made absent.
pub(crate) fn deletes(tree: &Tree, seat: &mut BwSeat, number: u32) -> bool
    requires own { IsSeatOf tree.now seat.old }
    ensures own { IsSeatOf tree.now seat.new }
{
    reply(tree, seat, delete(number)) == Ok(Reply::Deleted(value(number)))
}

/// Inserts the even numbers below 1,000, or all of them, in another order than that of the keys.
pub(crate) fn fills(tree: &Tree, seat: &mut BwSeat, even: bool) -> bool
    requires own { IsSeatOf tree.now seat.old }
    ensures own { IsSeatOf tree.now seat.new }
{
    for place in 0..1000u32 {
        let number = place * 7 % 1000;
        if even && number % 2 == 1 {
            continue;
        }
        if !inserts(tree, seat, number) {
            return false;
        }
    }
    true
}

/// A walk from a number on, below another one, if there is a bound, for an idle seat.
pub(crate) fn walk_from(seat: &BwSeat, from: u32, bound: Option<u32>) -> Option<Cursor>
    ensures { IfSome result (λ cursor. unfinished_command seat.now ≡ cursor_command cursor) }
{
    if !seat.is_idle() {
        return None;
    }
    let bound = match bound {
        Some(number) => Some(key(number)),
        None => None,
    };
    Some(Cursor::new(key(from), bound))
}
