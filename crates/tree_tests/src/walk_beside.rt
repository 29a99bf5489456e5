//! A walk beside another seat, which inserts and deletes keys between its pages.
ghost use Rattle.running_tree.specs.Trees.{AreSeatsOf, IsSeatOf};

use crate::numbered::{key, value};
use crate::walk_numbered::{deletes, fills, inserts, walk_from};
use bw_model::{Key, Limits, Value};
use running_tree::{BwSeat, Tree};
use std::alloc::Global;
use std::test::Fail;
use walks::Walk;
use workers::{opened, take_seat};

/// More pages than there are.
const PAGES: u32 = 1000;

/// What has been shown: the number after the last one, and how many even ones.
#[derive(Clone, Copy, Debug, Drop, PartialEq, Eq)]
struct Shown {
    next: u32,
    even: u32,
    right: bool,
}

impl Shown {
    /// One more pair: of a number that isn't below the next one, with the number's own value.
    fn more(&mut self, pair: &(Key, Value)) {
        for number in self.next..1000 {
            if pair.0 == key(number) {
                self.right = self.right && pair.1 == value(number);
                self.even = self.even.saturating_add(1 - number % 2);
                self.next = number.saturating_add(1);
                return;
            }
        }
        self.right = false;
    }
}

/// In each round one odd number before the walk and one behind it is inserted, and the one before it is deleted again.
fn changes(tree: &Tree, other: &mut BwSeat, round: u32) -> bool
    requires other { IsSeatOf tree.now other.old }
    ensures other { IsSeatOf tree.now other.new }
{
    let (low, high) = (round % 500 * 2 + 1, 999 - round % 250 * 2);
    let one = inserts(tree, other, low);
    let deleted = deletes(tree, other, low);
    inserts(tree, other, high) && one && deleted
}

/// Walks over the even numbers, while odd ones come and go.
fn walks_beside(tree: &Tree, seat: &mut BwSeat, other: &mut BwSeat) -> Option<Shown>
    requires own { IsSeatOf tree.now seat.old }
    requires other { IsSeatOf tree.now other.old }
    ensures own { IsSeatOf tree.now seat.new }
    ensures other { IsSeatOf tree.now other.new }
{
    let mut cursor = walk_from(seat, 0, None)?;
    let mut shown = Shown {
        next: 0,
        even: 0,
        right: true,
    };
    for round in 0..PAGES {
        match cursor.next(tree, seat, 4096) {
            Walk::Page => {
                for pair in cursor.pairs() {
                    shown.more(pair);
                }
            }
            Walk::Spent => {}
            Walk::End => return Some(shown),
        }
        if !changes(tree, other, round) {
            return None;
        }
    }
    None
}

/// The walk, with a tree's last seat beside another one.
fn walked_with(tree: &Tree, seats: &mut Vec<BwSeat>, other: &mut BwSeat) -> Option<Shown>
    requires own { AreSeatsOf tree.now seats.old.items }
    requires other { IsSeatOf tree.now other.old }
{
    let mut seat = take_seat(tree, seats)?;
    walks_beside(tree, &mut seat, other)
}

/// The walk, with a tree's last two seats, once the tree is filled.
fn walked_over(tree: &Tree, seats: &mut Vec<BwSeat>) -> Option<Shown>
    requires own { AreSeatsOf tree.now seats.old.items }
{
    let mut other = take_seat(tree, seats)?;
    filled_and_walked(tree, seats, &mut other)
}

fn filled_and_walked(tree: &Tree, seats: &mut Vec<BwSeat>, other: &mut BwSeat) -> Option<Shown>
    requires own { AreSeatsOf tree.now seats.old.items }
    requires other { IsSeatOf tree.now other.old }
{
    if !fills(tree, other, true) {
        return None;
    }
    walked_with(tree, seats, other)
}

/// Opens a tree, and walks over it.
fn walked(alloc: Global) -> Option<Shown> {
    let limits = Limits::new(2, 512, 4096, 1).ok()?;
    let Ok((tree, mut seats)) = opened(alloc, limits) else {
        return None;
    };
    walked_over(&tree, &mut seats)
}

#[test]
fn what_stays_is_shown(rt: HostRuntime) -> Result<(), Fail> {
    let Some(shown) = walked(rt.alloc()) else {
        assert!(rt; false, "the tree isn't filled");
        return Ok(());
    };
    assert!(rt; shown.right, "a page is wrong");
    assert_eq!(rt; shown.even, 500, "even numbers");
    Ok(())
}
