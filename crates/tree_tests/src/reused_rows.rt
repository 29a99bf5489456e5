//! Rows in which long records and short ones stand by turns: bases of a leaf whose keys come and go, inserts and deletions, in a tree of so few
//! rows that they are used again and again. What is read there is the last record alone, and behind its words stand zeros.
ghost use Rattle.running_tree.specs.Trees.{AreSeatsOf};

use crate::turns::in_turn;
use bw_model::{Command, Key, Limits, Reply, Value};
use running_tree::{BwSeat, Tree};
use std::alloc::Global;
use workers::opened;

/// How many keys come and go: a leaf has room for them.
const KEYS: u32 = 14;

/// How many operations there are at most: the keys come and go five times, and each operation takes a row of 64, or two.
const OPERATIONS: u32 = 10 * KEYS;

/// A key of which each word has all its bytes.
fn key(number: u32) -> Key {
    Key::from_slice(&[1 + (number % 64) as u8; 64]).unwrap_or_default()
}

fn value(number: u32) -> Value {
    Value::from_slice(&[255 - (number % 64) as u8; 64]).unwrap_or_default()
}

/// The operation of a place, and what it replies: all keys are inserted, then deleted, and so on.
fn asked(place: u32) -> (Command, Reply) {
    let number = place % KEYS;
    if place / KEYS % 2 == 0 {
        (Command::Insert(key(number), value(number)), Reply::Inserted)
    } else {
        (Command::Delete(key(number)), Reply::Deleted(value(number)))
    }
}

/// The numbers of the keys that are there after so many operations: from the first of these on, and below the second.
fn left(count: u32) -> (u32, u32) {
    let number = count % KEYS;
    if count / KEYS % 2 == 0 {
        (0, number)
    } else {
        (number, KEYS)
    }
}

/// What a lookup of a key replies after so many operations.
fn looked_up(number: u32, count: u32) -> Reply {
    let (first, end) = left(count);
    if first <= number && number < end {
        Reply::Value(value(number))
    } else {
        Reply::None
    }
}

/// Does the first so many operations, and tells whether each replied as it is to.
fn are_done(tree: &Tree, seats: &mut Vec<BwSeat>, count: u32) -> bool
    requires own { AreSeatsOf tree.now seats.old.items }
    ensures own { AreSeatsOf tree.now seats.new.items }
{
    for place in 0..count {
        let (command, reply) = asked(place);
        if in_turn(tree, seats, command) != Some(reply) {
            return false;
        }
    }
    true
}

/// Whether each key is found that is there after so many operations, and no other.
fn are_found(tree: &Tree, seats: &mut Vec<BwSeat>, count: u32) -> bool
    requires own { AreSeatsOf tree.now seats.old.items }
    ensures own { AreSeatsOf tree.now seats.new.items }
{
    for number in 0..KEYS {
        if in_turn(tree, seats, Command::Get(key(number))) != Some(looked_up(number, count)) {
            return false;
        }
    }
    true
}

/// Whether the pairs are those that are there after so many operations.
fn are_left(pairs: &[(Key, Value)], count: u32) -> bool {
    let (first, end) = left(count);
    let mut number = first;
    for (pair_key, pair_value) in pairs {
        if *pair_key != key(number) || *pair_value != value(number) {
            return false;
        }
        number = number.wrapping_add(1);
    }
    number == end
}

/// Whether a tree of 64 rows has the right keys after so many operations, while it is open, and by all words of its rows once it is closed:
/// no record is read of a row with words behind it that aren't 0.
fn is_right(alloc: Global, count: u32) -> Option<bool> {
    let limits = Limits::new(1, 64, 64, 1).ok()?;
    let (tree, mut seats) = opened(alloc, limits).ok()?;
    let right = are_done(&tree, &mut seats, count) && are_found(&tree, &mut seats, count);
    let pairs = tree.close(alloc, seats).ok()?;
    Some(right && are_left(pairs.as_slice(), count))
}

/// After how many operations it is wrong, if it is.
fn first_wrong(alloc: Global) -> Option<u32> {
    for count in 0..=OPERATIONS {
        if is_right(alloc, count) != Some(true) {
            return Some(count);
        }
    }
    None
}

#[test]
fn rows_are_used_again(rt: HostRuntime) {
    let wrong = first_wrong(rt.alloc());
    assert!(rt; wrong.is_none(), "after {wrong:?} operations");
}
