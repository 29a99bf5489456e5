//! Lists of pairs that a seat of a running tree loads.
ghost use Rattle.std.specs.Prelude.{◌≡◌, None};
ghost use Rattle.running_tree.specs.Seats.{unfinished_command};
ghost use Rattle.running_tree.specs.Trees.{IsSeatOf};

use crate::loading::first_pairs;
use crate::numbered::{key, value};
use crate::trees::give_back;
use bw_model::{Key, Limits, Value};
use running_tree::{BwSeat, LoadStop, Tree};
use std::alloc::{AllocError, Global};
use workers::{opened, take_seat};

/// What the loads of two lists come to, one after the other, if they stop.
type Stops = [Option<LoadStop>; 2];

/// Loads both lists on an idle seat.
fn load_both(
    tree: &Tree,
    seat: &mut BwSeat,
    first: &[(Key, Value)],
    second: &[(Key, Value)],
) -> Stops
    requires own { IsSeatOf tree.now seat.old }
    requires idle { unfinished_command seat.old ≡ None }
    ensures own { IsSeatOf tree.now seat.new }
{
    let one = tree.load(seat, first).err();
    if !seat.is_idle() {
        return [one, None];
    }
    [one, tree.load(seat, second).err()]
}

/// Loads both lists on the only seat of a tree of so many rows: where they stop, and the pairs that the tree has then.
fn loaded(
    alloc: Global,
    rows: u64,
    first: &[(Key, Value)],
    second: &[(Key, Value)],
) -> Option<(Stops, Vec<(Key, Value)>)> {
    let limits = Limits::new(1, 64, rows, 1).ok()?;
    let (tree, mut seats) = opened(alloc, limits).ok()?;
    let mut seat = take_seat(&tree, &mut seats)?;
    if !seat.is_idle() {
        return None;
    }
    let stops = load_both(&tree, &mut seat, first, second);
    if !give_back(&tree, &mut seats, seat) {
        return None;
    }
    let pairs = tree.close(alloc, seats).ok()?;
    Some((stops, pairs))
}

/// So many keys, the last one first, and each with the value of its number.
fn last_pairs(alloc: Global, count: u32) -> Result<Vec<(Key, Value)>, AllocError> {
    let mut pairs = Vec::new(alloc);
    for number in (0..count).rev() {
        pairs.push((key(number), value(number)))?;
    }
    Ok(pairs)
}

// Keys may descend, and may have a value.
fn are_in_any_order(alloc: Global) -> Option<bool> {
    let first = last_pairs(alloc, 64).ok()?;
    let second = [(key(63), value(0)), (key(0), value(63))];
    let (stops, pairs) = loaded(alloc, 1_024, first.as_slice(), &second)?;
    let ends = (pairs.first()?, pairs.last()?);
    let changed = *ends.0 == (key(0), value(63)) && *ends.1 == (key(63), value(0));
    Some(stops == [None, None] && pairs.len() == 64 && changed)
}

#[test]
fn pairs_are_loaded_in_any_order(rt: HostRuntime) {
    let loaded = are_in_any_order(rt.alloc());
    assert!(rt; loaded == Some(true), "{loaded:?}");
}

// What came before a stop stays, and an empty list is loaded into a full tree.
fn stop_at_a_pair(alloc: Global) -> Option<bool> {
    let pairs = first_pairs(alloc, 4_000).ok()?;
    let (stops, stay) = loaded(alloc, 64, pairs.as_slice(), &[])?;
    let [Some(LoadStop::Full(place)), None] = stops else {
        return Some(false);
    };
    Some(place > 0 && pairs.get(..place) == Some(stay.as_slice()))
}

#[test]
fn a_full_tree_keeps_what_was_loaded(rt: HostRuntime) {
    let stopped = stop_at_a_pair(rt.alloc());
    assert!(rt; stopped == Some(true), "{stopped:?}");
}
