//! A tree of 1,100 keys of four digits, of four levels, that shrinks to nothing, from the last key on and from the first, by calls of one seat.
ghost use Rattle.running_tree.specs.Trees.{IsSeatOf};

use crate::calls::ends_within;
use bw_model::{Command, Key, Reply, Value};
use running_tree::{BwSeat, Tree};

/// How many keys there are.
const KEYS: u32 = 1100;

/// How many steps a call takes at most.
const BUDGET: u32 = 65536;

/// A letter, and the four digits of a number.
fn text(letter: u8, number: u32) -> [u8; 5] {
    [
        letter,
        b'0' + (number / 1000 % 10) as u8,
        b'0' + (number / 100 % 10) as u8,
        b'0' + (number / 10 % 10) as u8,
        b'0' + (number % 10) as u8,
    ]
}

/// The key k0001, and so on.
fn key(number: u32) -> Key {
    Key::from_slice(&text(b'k', number)).unwrap_or_default()
}

/// The value v0001, and so on.
fn value(number: u32) -> Value {
    Value::from_slice(&text(b'v', number)).unwrap_or_default()
}

/// Each key is inserted, from the first on; then each is deleted, from the last on; then they come again, and go from the first on.
fn asked(place: u32) -> (Command, Reply) {
    let number = place % KEYS + 1;
    match place / KEYS {
        1 => deleted(KEYS + 1 - number),
        3 => deleted(number),
        _ => (Command::Insert(key(number), value(number)), Reply::Inserted),
    }
}

/// A deletion of a key that is there.
fn deleted(number: u32) -> (Command, Reply) {
    (Command::Delete(key(number)), Reply::Deleted(value(number)))
}

/// Inserts all keys and deletes them, twice, and answers whether all replies were right.
pub(crate) fn comes_and_goes(tree: &Tree, seat: &mut BwSeat) -> bool
    requires own { IsSeatOf tree.now seat.old }
    ensures own { IsSeatOf tree.now seat.new }
{
    for place in 0..4 * KEYS {
        let (command, reply) = asked(place);
        if !ends_within(tree, seat, command, BUDGET, reply) {
            return false;
        }
    }
    true
}
