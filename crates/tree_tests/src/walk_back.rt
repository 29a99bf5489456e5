//! Walks down by pages, whole and in pieces, to a lowest key and to the tree's first one; and the first pair that a walk of either direction
//! seeks.
ghost use Rattle.running_tree.specs.Trees.{AreSeatsOf, IsSeatOf};

use crate::numbered::{key, value};
use crate::walk_numbered::{deletes, fills};
use bw_model::{Key, Limits, Value};
use running_tree::{BwSeat, Tree};
use std::alloc::Global;
use std::test::Fail;
use walks::{BackCursor, Cursor, Scanned, Walk};
use workers::{opened, take_seat};

/// More pieces than a walk is asked for.
const PIECES: u32 = 1 << 20;

/// The number below that of the pairs of a page that stand for the numbers up to this one, one after another, the last of them for it; none,
/// where they are others.
fn below_page(pairs: &[(Key, Value)], upto: u32) -> Option<u32> {
    let mut left = upto;
    for (key_of, value_of) in pairs.iter().rev() {
        if left == 0 || *key_of != key(left - 1) || *value_of != value(left - 1) {
            return None;
        }
        left -= 1;
    }
    Some(left)
}

/// Whether a walk down by pages shows the numbers below the end and from the first one on.
fn shows_pages(
    tree: &Tree,
    seat: &mut BwSeat,
    mut cursor: BackCursor,
    budget: u32,
    first: u32,
    end: u32,
) -> bool
    requires own { IsSeatOf tree.now seat.old }
    ensures own { IsSeatOf tree.now seat.new }
{
    if budget == 0 || !seat.is_idle() || cursor.is_waiting() {
        return false;
    }
    let mut left = end;
    for _ in 0..PIECES {
        match cursor.next(tree, seat, budget) {
            Walk::Page => match below_page(cursor.pairs(), left) {
                Some(number) => left = number,
                None => return false,
            },
            Walk::Spent => {}
            Walk::End => return left == first,
        }
    }
    false
}

/// Whether a scan down adds the numbers below the end and from the first one on, the greatest first.
fn shows_list(
    alloc: Global,
    tree: &Tree,
    seat: &mut BwSeat,
    mut cursor: BackCursor,
    first: u32,
    end: u32,
) -> bool
    requires own { IsSeatOf tree.now seat.old }
    ensures own { IsSeatOf tree.now seat.new }
{
    if !seat.is_idle() || cursor.is_waiting() {
        return false;
    }
    let mut list = Vec::new(alloc);
    if cursor.scan(tree, seat, 4096, &mut list) != Ok(Scanned::End) {
        return false;
    }
    let mut pairs = list.iter();
    for number in (first..end).rev() {
        if pairs.next() != Some(&(key(number), value(number))) {
            return false;
        }
    }
    pairs.next().is_none()
}

/// Whether the first pair that a walk seeks is that of a number, or there is none.
fn seeks(tree: &Tree, seat: &mut BwSeat, mut cursor: Cursor, number: Option<u32>) -> bool
    requires own { IsSeatOf tree.now seat.old }
    ensures own { IsSeatOf tree.now seat.new }
{
    if !seat.is_idle() || cursor.is_waiting() {
        return false;
    }
    for _ in 0..PIECES {
        match cursor.seek(tree, seat, 3) {
            Walk::Page => return is_number(cursor.pairs().first(), number),
            Walk::Spent => {}
            Walk::End => return number.is_none(),
        }
    }
    false
}

/// Whether the first pair that a walk down seeks is that of a number, or there is none.
fn seeks_back(tree: &Tree, seat: &mut BwSeat, mut cursor: BackCursor, number: Option<u32>) -> bool
    requires own { IsSeatOf tree.now seat.old }
    ensures own { IsSeatOf tree.now seat.new }
{
    if !seat.is_idle() || cursor.is_waiting() {
        return false;
    }
    for _ in 0..PIECES {
        match cursor.seek(tree, seat, 3) {
            Walk::Page => return is_number(cursor.pairs().last(), number),
            Walk::Spent => {}
            Walk::End => return number.is_none(),
        }
    }
    false
}

/// Whether a pair is that of a number.
fn is_number(pair: Option<&(Key, Value)>, number: Option<u32>) -> bool {
    match (pair, number) {
        (Some(found), Some(number)) => *found == (key(number), value(number)),
        (None, None) => true,
        _ => false,
    }
}

/// Walks down over a tree that has the numbers below the end, which is 1,000 or 0: all of it, in pieces too, and down to each of forty lowest
/// keys in a row.
fn walks_down(alloc: Global, tree: &Tree, seat: &mut BwSeat, end: u32) -> bool
    requires own { IsSeatOf tree.now seat.old }
    ensures own { IsSeatOf tree.now seat.new }
{
    for budget in [1, 5, 4096u32] {
        if !shows_pages(tree, seat, BackCursor::last(), budget, 0, end) {
            return false;
        }
    }
    for low in 490..530u32 {
        let (first, past) = (low.min(end), 541.min(end));
        let by_pages = BackCursor::new(key(540), key(low));
        let by_list = BackCursor::new(key(540), key(low));
        if !shows_pages(tree, seat, by_pages, 4096, first, past)
            || !shows_list(alloc, tree, seat, by_list, first, past)
        {
            return false;
        }
    }
    shows_pages(tree, seat, BackCursor::new(key(3), key(4)), 4096, 0, 0)
}

/// The neighbours of a number of which all stand, and at both ends.
fn has_neighbours(tree: &Tree, seat: &mut BwSeat) -> bool
    requires own { IsSeatOf tree.now seat.old }
    ensures own { IsSeatOf tree.now seat.new }
{
    seeks(tree, seat, Cursor::first(), Some(0))
        && seeks(tree, seat, Cursor::ceiling(key(500)), Some(500))
        && seeks(tree, seat, Cursor::higher(&key(500)), Some(501))
        && seeks(tree, seat, Cursor::higher(&key(999)), None)
        && seeks_back(tree, seat, BackCursor::last(), Some(999))
        && seeks_back(tree, seat, BackCursor::floor(key(500)), Some(500))
        && seeks_back(tree, seat, BackCursor::lower(&key(500)), Some(499))
        && seeks_back(tree, seat, BackCursor::lower(&key(0)), None)
}

/// The neighbours beside a gap of 200 numbers, over which a walk comes by pages that have no pairs.
fn has_neighbours_beside_a_gap(tree: &Tree, seat: &mut BwSeat) -> bool
    requires own { IsSeatOf tree.now seat.old }
    ensures own { IsSeatOf tree.now seat.new }
{
    for number in 400..600u32 {
        if !deletes(tree, seat, number) {
            return false;
        }
    }
    seeks(tree, seat, Cursor::ceiling(key(400)), Some(600))
        && seeks(tree, seat, Cursor::higher(&key(399)), Some(600))
        && seeks_back(tree, seat, BackCursor::floor(key(599)), Some(399))
        && seeks_back(tree, seat, BackCursor::lower(&key(600)), Some(399))
}

/// Walks down over a tree to which the numbers below 1,000 are given, or none, and seeks neighbours there.
fn walks_down_over(alloc: Global, tree: &Tree, seats: &mut Vec<BwSeat>, full: bool) -> bool
    requires own { AreSeatsOf tree.now seats.old.items }
{
    let Some(mut seat) = take_seat(tree, seats) else {
        return false;
    };
    if full {
        return fills(tree, &mut seat, false)
            && walks_down(alloc, tree, &mut seat, 1000)
            && has_neighbours(tree, &mut seat)
            && has_neighbours_beside_a_gap(tree, &mut seat);
    }
    walks_down(alloc, tree, &mut seat, 0)
        && seeks(tree, &mut seat, Cursor::first(), None)
        && seeks_back(tree, &mut seat, BackCursor::last(), None)
}

/// Opens a tree, and walks down over it.
fn walks_down_once_open(alloc: Global, full: bool) -> bool {
    let Ok(limits) = Limits::new(1, 512, 4096, 1) else {
        return false;
    };
    let Ok((tree, mut seats)) = opened(alloc, limits) else {
        return false;
    };
    walks_down_over(alloc, &tree, &mut seats, full)
}

#[test]
fn walks_down_show_a_thousand_keys(rt: HostRuntime) -> Result<(), Fail> {
    assert!(rt; walks_down_once_open(rt.alloc(), true), "a thousand keys");
    Ok(())
}

#[test]
fn walks_down_show_nothing_of_an_empty_tree(rt: HostRuntime) -> Result<(), Fail> {
    assert!(rt; walks_down_once_open(rt.alloc(), false), "no key");
    Ok(())
}
