//! Walks by pages, whole and in pieces, with a bound and without one.
ghost use Rattle.running_tree.specs.Trees.{AreSeatsOf, IsSeatOf};

use crate::numbered::are_numbers;
use crate::walk_numbered::{fills, walk_from};
use bw_model::{Key, Limits, Value};
use running_tree::{BwSeat, Tree};
use std::alloc::{AllocError, Global};
use std::test::Fail;
use walks::{Scanned, Walk};
use workers::{opened, take_seat};

/// More pieces than a walk is asked for.
const PIECES: u32 = 1 << 20;

/// A walk that is made: from which number on, below which one, if there is a bound, and in steps of how many.
#[derive(Clone, Copy)]
struct Range {
    from: u32,
    bound: Option<u32>,
    budget: u32,
}

/// Adds the pairs of a page to those of the pages before it.
fn add(pairs: &mut Vec<(Key, Value)>, page: &[(Key, Value)]) -> Result<(), AllocError> {
    for (key, value) in page {
        pairs.push((key.copied(), value.copied()))?;
    }
    Ok(())
}

/// The pairs of a walk, page by page.
fn by_pages(
    alloc: Global,
    tree: &Tree,
    seat: &mut BwSeat,
    range: Range,
) -> Option<Vec<(Key, Value)>>
    requires own { IsSeatOf tree.now seat.old }
    ensures own { IsSeatOf tree.now seat.new }
{
    if range.budget == 0 {
        return None;
    }
    let mut cursor = walk_from(seat, range.from, range.bound)?;
    let mut pairs = Vec::new(alloc);
    for _ in 0..PIECES {
        match cursor.next(tree, seat, range.budget) {
            Walk::Page => add(&mut pairs, cursor.pairs()).ok()?,
            Walk::Spent => {}
            Walk::End => return Some(pairs),
        }
    }
    None
}

/// The pairs of the walk once more, scanned.
fn scanned(alloc: Global, tree: &Tree, seat: &mut BwSeat, range: Range) -> Option<Vec<(Key, Value)>>
    requires own { IsSeatOf tree.now seat.old }
    ensures own { IsSeatOf tree.now seat.new }
{
    if range.budget == 0 {
        return None;
    }
    let mut cursor = walk_from(seat, range.from, range.bound)?;
    let mut pairs = Vec::new(alloc);
    for _ in 0..PIECES {
        match cursor.scan(tree, seat, range.budget, &mut pairs) {
            Ok(Scanned::End) => return Some(pairs),
            Ok(Scanned::Spent) => {}
            Err(_) => return None,
        }
    }
    None
}

/// Whether the walk shows the numbers from the first one on and below the end, either way.
fn shows(alloc: Global, tree: &Tree, seat: &mut BwSeat, range: Range, first: u32, end: u32) -> bool
    requires own { IsSeatOf tree.now seat.old }
    ensures own { IsSeatOf tree.now seat.new }
{
    let Some(paged) = by_pages(alloc, tree, seat, range) else {
        return false;
    };
    let Some(listed) = scanned(alloc, tree, seat, range) else {
        return false;
    };
    are_numbers(paged.as_slice(), first, end) && are_numbers(listed.as_slice(), first, end)
}

/// Walks over a tree that has the numbers below the end: all of it, in pieces too; below each of forty bounds in a row, of which some stand
/// at a leaf's border, and most within a leaf; and from beyond the last key.
fn walks(alloc: Global, tree: &Tree, seat: &mut BwSeat, end: u32) -> bool
    requires own { IsSeatOf tree.now seat.old }
    ensures own { IsSeatOf tree.now seat.new }
{
    for budget in [1, 5, 4096u32] {
        let whole = Range {
            from: 0,
            bound: None,
            budget,
        };
        if !shows(alloc, tree, seat, whole, 0, end) {
            return false;
        }
    }
    for bound in 490..530u32 {
        let range = Range {
            from: 470,
            bound: Some(bound),
            budget: 4096,
        };
        if !shows(alloc, tree, seat, range, 470.min(end), bound.min(end)) {
            return false;
        }
    }
    let past = Range {
        from: 1000,
        bound: None,
        budget: 4096,
    };
    shows(alloc, tree, seat, past, 0, 0)
}

/// Walks over a tree to which the numbers below 1,000 are given, or none.
fn walks_over(alloc: Global, tree: &Tree, seats: &mut Vec<BwSeat>, full: bool) -> bool
    requires own { AreSeatsOf tree.now seats.old.items }
{
    let Some(mut seat) = take_seat(tree, seats) else {
        return false;
    };
    let end = if full { 1000 } else { 0 };
    (!full || fills(tree, &mut seat, false)) && walks(alloc, tree, &mut seat, end)
}

/// Opens a tree, and walks over it.
fn walks_once_open(alloc: Global, full: bool) -> bool {
    let Ok(limits) = Limits::new(1, 512, 4096, 1) else {
        return false;
    };
    let Ok((tree, mut seats)) = opened(alloc, limits) else {
        return false;
    };
    walks_over(alloc, &tree, &mut seats, full)
}

#[test]
fn walks_show_a_thousand_keys(rt: HostRuntime) -> Result<(), Fail> {
    assert!(rt; walks_once_open(rt.alloc(), true), "a thousand keys");
    Ok(())
}

#[test]
fn walks_show_nothing_of_an_empty_tree(rt: HostRuntime) -> Result<(), Fail> {
    assert!(rt; walks_once_open(rt.alloc(), false), "no key");
    Ok(())
}
