//! Trees that aren't closed at once: where a seat is missing, where one isn't idle, and where memory is refused.
ghost use Rattle.running_tree.specs.Trees.{AreSeatsOf};

use crate::loading::first_pairs;
use crate::refused_trees::{Heap, MOST};
use crate::runs::{Run, key, value};
use crate::trees::{give_back, runs};
use bw_model::{Key, Limits, Value};
use refusing_alloc::Refusing;
use running_tree::{BwSeat, CloseRefusal, Tree};
use std::alloc::{Allocator, Global};
use std::test::Fail;
use workers::{opened, take_seat};

/// How many pairs the tree has of whose closing each growth is refused.
const PAIRS: u32 = 40;

/// How a closing goes while a growth is refused.
#[derive(Drop)]
enum Closing {
    /// A reply was wrong, or the pairs at the end.
    Wrong,
    /// The tree was closed at once.
    AtOnce,
    /// It was refused, and closed once a second run was done and no growth refused.
    Later(CloseRefusal),
}

/// Whether the tree is closed with these pairs once the run is done.
fn closes<A: Allocator + Copy>(
    alloc: A,
    tree: Tree,
    seats: Vec<BwSeat>,
    run: Run,
    wanted: &[(Key, Value)],
) -> bool
    requires own { AreSeatsOf tree seats.items }
{
    let mut seats = seats;
    let right = runs(&tree, &mut seats, run);
    match tree.close(alloc, seats).ok() {
        Some(pairs) => right && pairs.as_slice() == wanted,
        None => false,
    }
}

/// How a new tree is closed after the first run while a growth is refused.
fn closed_how<'a>(
    alloc: Global,
    heap: Heap<'a>,
    limits: Limits,
    (first, second): (Run, Run),
    growth: u64,
    wanted: &[(Key, Value)],
) -> Closing {
    let Ok((tree, mut seats)) = opened(alloc, limits) else {
        return Closing::Wrong;
    };
    let right = runs(&tree, &mut seats, first);
    heap.set(growth);
    let (refusal, later) = match tree.close(heap, seats) {
        Ok(pairs) => (None, heap.left() == 0 && pairs.as_slice() == wanted),
        Err(error) => {
            heap.set(u64::MAX);
            let refusal = Some(error.refusal);
            (
                refusal,
                closes(heap, error.tree, error.seats, second, wanted),
            )
        }
    };
    match refusal {
        _ if !right || !later => Closing::Wrong,
        None => Closing::AtOnce,
        Some(refusal) => Closing::Later(refusal),
    }
}

/// How many growths a closing wants, where each of them that is refused is told as want of memory, and the next closing lists the pairs.
fn growths(alloc: Global, heap: Heap<'_>, limits: Limits, pairs: &[(Key, Value)]) -> Option<u64> {
    let runs = (Run::Inserts(PAIRS), Run::Nothing);
    for growth in 0..MOST {
        match closed_how(alloc, heap, limits, runs, growth, pairs) {
            Closing::AtOnce => return Some(growth),
            Closing::Later(CloseRefusal::Memory) => {}
            _ => return None,
        }
    }
    None
}

/// How many growths the closing of a tree with pairs wants, where each is refused and told.
fn growths_of_pairs(alloc: Global) -> Option<u64> {
    let Ok(limits) = Limits::new(2, 64, 256, 1) else {
        return None;
    };
    let heap = Refusing::new(alloc);
    match first_pairs(alloc, PAIRS) {
        Ok(pairs) => growths(alloc, &heap, limits, pairs.as_slice()),
        Err(_) => None,
    }
}

#[test]
fn each_growth_of_a_closing_is_refused(rt: HostRuntime) -> Result<(), Fail> {
    let count = growths_of_pairs(rt.alloc());
    println!(rt; "closing: {count:?} growths")?;
    assert!(rt; count > Some(0), "{count:?} growths");
    Ok(())
}

/// A seat whose operation is unfinished holds up closing, also where there is no memory for the list, but no other seat.
fn a_seat_that_stays_holds_up(alloc: Global) -> bool {
    let Ok(limits) = Limits::new(2, 64, 64, 1) else {
        return false;
    };
    let heap = Refusing::new(alloc);
    let runs = (Run::Stays, Run::Goes);
    let closed = closed_how(alloc, &heap, limits, runs, 0, &[(key(), value())]);
    matches!(closed, Closing::Later(CloseRefusal::NotIdle))
}

#[test]
fn a_seat_that_stays_keeps_rows(rt: HostRuntime) {
    assert!(rt;
        a_seat_that_stays_holds_up(rt.alloc()),
        "a lookup that stays"
    );
}

/// Lets the seat go that is the last but one of a list.
fn lets_one_go(tree: &Tree, seats: &mut Vec<BwSeat>) -> bool
    requires own { AreSeatsOf tree.now seats.old.items }
    ensures own { AreSeatsOf tree.now seats.new.items }
{
    let Some(last) = take_seat(tree, seats) else {
        return false;
    };
    drop(take_seat(tree, seats));
    give_back(tree, seats, last)
}

/// Why a tree isn't closed, and how many seats come back.
#[derive(Clone, Copy, Debug, PartialEq)]
struct Refused {
    refusal: CloseRefusal,
    seats: usize,
}

/// How a tree isn't closed without one of its seats, where another one isn't idle and there is no memory.
fn closed_without(alloc: Global, heap: Heap<'_>) -> Option<Refused> {
    let Ok(limits) = Limits::new(2, 64, 64, 1) else {
        return None;
    };
    let Ok((tree, mut seats)) = opened(alloc, limits) else {
        return None;
    };
    let well = runs(&tree, &mut seats, Run::Stays) && lets_one_go(&tree, &mut seats);
    heap.set(0);
    match tree.close(heap, seats) {
        Err(error) if well => Some(Refused {
            refusal: error.refusal,
            seats: error.seats.len(),
        }),
        _ => None,
    }
}

// A seat that is kept back is missed before it isn't idle, and that before memory.
#[test]
fn refusals_come_in_order(rt: HostRuntime) {
    let heap = Refusing::new(rt.alloc());
    let refused = closed_without(rt.alloc(), &heap);
    let expected = Refused {
        refusal: CloseRefusal::Seats,
        seats: 1,
    };
    assert!(rt; refused == Some(expected), "{refused:?}");
}
