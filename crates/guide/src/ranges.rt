//! The pairs of a range of keys, page by page and all at once.
ghost use Rattle.std.specs.Prelude.{◌≡◌, [], false, IfSome, None, Some};
ghost use Rattle.running_tree.specs.Seats.{IsSame};
ghost use Rattle.running_tree.specs.Trees.{IsSeatOf};
ghost use Rattle.walks.specs.Cursors.{Cursor as Place, HasTold};
ghost use Rattle.walks.specs.Pages.{place_under};

use crate::opening::done_alone;
use bw_model::{Command, Key, Reply, Value};
use running_tree::{BwSeat, Tree};
use std::alloc::Global;
use walks::{Cursor, Scanned, Walk};
use workers::{Work, reply, resumed};

/// How many steps a page may take.
const BUDGET: u32 = 4096;

/// The key of a number; keys are ordered as their bytes are.
fn key(number: u32) -> Key {
    Key::from_slice(&number.to_be_bytes()).unwrap_or_default()
}

/// How many pairs a walk over the keys from 20 on and below 50 shows, page by page.
fn counted(tree: &Tree, seat: &mut BwSeat) -> Option<usize>
    requires own { IsSeatOf tree.now seat.old }
    ensures same { IsSame seat.old seat.new }
{
    if !seat.is_idle() {
        return None;
    }
    let mut cursor = Cursor::new(key(20), Some(key(50)));
    let mut pairs = 0usize;
    for _ in 0..1000 {
        match cursor.next(tree, seat, BUDGET) {
            Walk::Page => pairs = pairs.saturating_add(cursor.pairs().len()),
            // the operation stays in the seat: the cursor asks again
            Walk::Spent => {}
            Walk::End => return Some(pairs),
        }
    }
    None
}

/// The pairs of the keys from one on and below a bound, in a list, which tells of the tree's map what a walk to its end tells.
fn listed(
    tree: &Tree,
    seat: &mut BwSeat,
    alloc: Global,
    from: Key,
    bound: Key,
) -> Option<Vec<(Key, Value)>>
    requires own { IsSeatOf tree.now seat.old }
    ensures same { IsSame seat.old seat.new }
    ensures told { IfSome result (λ pairs. (end : Place) × (end.at ≡ None) ×
        HasTold (record { at = place_under (Some bound) (Some from); bound = Some bound; asked = false; pairs = [] }) seat.old [] pairs.items end seat.new) }
{
    if !seat.is_idle() {
        return None;
    }
    let mut cursor = Cursor::new(from, Some(bound));
    let mut pairs = Vec::new(alloc);
    match cursor.scan(tree, seat, BUDGET, &mut pairs) {
        Ok(Scanned::End) => Some(pairs),
        // the list is given up: the operation of its page ends, so that the seat is idle again
        _ => {
            let _ = resumed(tree, seat, u32::MAX);
            None
        }
    }
}

/// What walks over a range show: how many pairs page by page, and which ones in a list.
#[derive(Drop)]
struct Shown {
    counted: usize,
    listed: Vec<(Key, Value)>,
}

/// Inserts the keys below 100, then walks over a range of them both ways.
#[derive(Drop)]
struct Walks {
    alloc: Global,
    shown: Option<Shown>,
}

impl Work for Walks {
    fn work(&mut self, tree: &Tree, seat: &mut BwSeat) {
        for number in 0..100u32 {
            let insert = Command::Insert(key(number), Value::default());
            if reply(tree, seat, insert) != Ok(Reply::Inserted) {
                return;
            }
        }
        let counted = counted(tree, seat);
        let listed = listed(tree, seat, self.alloc, key(20), key(50));
        if let (Some(counted), Some(listed)) = (counted, listed) {
            self.shown = Some(Shown { counted, listed });
        }
    }
}

/// What walks over a new tree show.
fn walked(alloc: Global) -> Option<Shown> {
    let mut walks = Walks { alloc, shown: None };
    let _pairs = done_alone(alloc, &mut walks)?;
    walks.shown
}

#[test]
fn a_range_is_walked(rt: HostRuntime) {
    let Some(shown) = walked(rt.alloc()) else {
        assert!(rt; false, "the keys weren't inserted, or a walk gave up");
        return;
    };
    assert_eq!(rt; shown.counted, 30, "page by page");
    assert_eq!(rt; shown.listed.len(), 30, "in a list");
    for (known, _) in shown.listed.iter() {
        assert!(rt; *known >= key(20) && *known < key(50), "{known:?}");
    }
}
