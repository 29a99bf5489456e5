//! Scans into a list whose growth is refused.
ghost use Rattle.running_tree.specs.Trees.{AreSeatsOf, IsSeatOf};

use crate::numbered::are_numbers;
use crate::walk_numbered::{fills, walk_from};
use bw_model::Limits;
use refusing_alloc::Refusing;
use running_tree::{BwSeat, Tree};
use std::alloc::Global;
use std::test::Fail;
use walks::Scanned;
use workers::{opened, take_seat};

/// Whether a scan whose list may grow so many times is refused, and has all pairs once it is made again. Where it isn't refused it has them at
/// once.
fn goes_on(tree: &Tree, seat: &mut BwSeat, heap: &Refusing<Global>, grows: u64) -> bool
    requires own { IsSeatOf tree.now seat.old }
    ensures own { IsSeatOf tree.now seat.new }
{
    let Some(mut cursor) = walk_from(seat, 0, None) else {
        return false;
    };
    let mut pairs = Vec::new(heap);
    heap.set(grows);
    let first = cursor.scan(tree, seat, 4096, &mut pairs);
    heap.set(u64::MAX);
    if first.is_ok() {
        return false;
    }
    let before = pairs.len();
    let next = cursor.scan(tree, seat, 4096, &mut pairs);
    next == Ok(Scanned::End) && before < 1000 && are_numbers(pairs.as_slice(), 0, 1000)
}

/// Scans of a thousand keys, refused at each of the first growths of the list in turn.
fn scans(tree: &Tree, seat: &mut BwSeat, heap: &Refusing<Global>) -> bool
    requires own { IsSeatOf tree.now seat.old }
    ensures own { IsSeatOf tree.now seat.new }
{
    if !fills(tree, seat, false) {
        return false;
    }
    for grows in 0..5u64 {
        if !goes_on(tree, seat, heap, grows) {
            return false;
        }
    }
    true
}

/// Scans over a tree, with its only seat.
fn scans_over(tree: &Tree, seats: &mut Vec<BwSeat>, heap: &Refusing<Global>) -> bool
    requires own { AreSeatsOf tree.now seats.old.items }
{
    let Some(mut seat) = take_seat(tree, seats) else {
        return false;
    };
    scans(tree, &mut seat, heap)
}

/// Opens a tree, and scans it.
fn scans_once_open(alloc: Global, heap: &Refusing<Global>) -> bool {
    let Ok(limits) = Limits::new(1, 512, 4096, 1) else {
        return false;
    };
    let Ok((tree, mut seats)) = opened(alloc, limits) else {
        return false;
    };
    scans_over(&tree, &mut seats, heap)
}

#[test]
fn no_page_is_lost(rt: HostRuntime) -> Result<(), Fail> {
    let heap = Refusing::new(rt.alloc());
    assert!(rt; scans_once_open(rt.alloc(), &heap), "a page of a scan");
    Ok(())
}
