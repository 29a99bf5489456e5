//! Trees that run full for ever: once the chains of pages have all rows, nearly every writer is refused; and once PIDs have run out and leaves are at their
//! split, so is each writer at such a leaf.
ghost use Rattle.running_tree.specs.Trees.{AreSeatsOf};

use crate::orders::{Order, but_eighths, numbers};
use crate::turns::done;
use crate::works::Work;
use bw_model::Limits;
use running_tree::{BwSeat, Tree};
use std::alloc::{AllocError, Global};
use workers::opened;

/// How many PIDs the trees have.
const PIDS: u64 = 64;

/// What is tried on a tree of so many rows: so many keys come in an order, and then all but each eighth of them are updated, or not.
#[derive(Clone, Copy, Debug)]
struct Trial {
    rows: u64,
    keys: u32,
    order: Order,
    updates: bool,
}

impl Trial {
    /// Inserts the keys, updates them, and deletes them, in another drawn order or in the same one; then tidies and deletes at each key, again and again.
    fn run(self, alloc: Global, tree: &Tree, seats: &mut Vec<BwSeat>) -> Result<(), AllocError>
        requires own { AreSeatsOf tree.now seats.old.items }
        ensures own { AreSeatsOf tree.now seats.new.items }
    {
        let coming = numbers(alloc, self.keys, self.order, 0)?;
        done(tree, seats, Work::Insert, coming.as_slice());
        if self.updates {
            let updated = but_eighths(alloc, self.keys)?;
            done(tree, seats, Work::Update, updated.as_slice());
        }
        let going = numbers(alloc, self.keys, self.order, 1)?;
        done(tree, seats, Work::Delete, going.as_slice());
        for _ in 0..3 {
            done(tree, seats, Work::Tidy, going.as_slice());
            done(tree, seats, Work::Delete, going.as_slice());
        }
        Ok(())
    }

    /// Whether a tree of one seat has pairs left after all these deletions.
    fn leaves_pairs(self, alloc: Global) -> Option<bool> {
        let limits = Limits::new(1, PIDS, self.rows, 1).ok()?;
        let (tree, mut seats) = opened(alloc, limits).ok()?;
        let ran = self.run(alloc, &tree, &mut seats);
        let pairs = tree.close(alloc, seats).ok()?;
        ran.ok()?;
        Some(!pairs.is_empty())
    }
}

/// Rows, an order in which 500 keys come and go, and whether some stay.
const FACTS: [(u64, Order, bool); 13] = [
    (64, Order::Up, true),
    (128, Order::Up, true),
    (192, Order::Up, false),
    (256, Order::Up, false),
    (64, Order::Down, true),
    (128, Order::Down, false),
    (192, Order::Down, false),
    (256, Order::Down, false),
    (64, Order::Drawn, true),
    (128, Order::Drawn, true),
    (192, Order::Drawn, true),
    (256, Order::Drawn, true),
    (320, Order::Drawn, false),
];

#[test]
fn rows_run_out_for_ever(rt: HostRuntime) {
    for (rows, order, stay) in FACTS {
        let trial = Trial {
            rows,
            keys: 500,
            order,
            updates: false,
        };
        let left = trial.leaves_pairs(rt.alloc());
        assert!(rt; left == Some(stay), "{trial:?}: {left:?}");
    }
}

// Each leaf comes to its longest chain, of nine rows; the tree has room for 448 keys in ascending order.
#[test]
fn updates_take_nine_rows_for_each_page(rt: HostRuntime) {
    for (rows, stay) in [(512, true), (576, false)] {
        let trial = Trial {
            rows,
            keys: 448,
            order: Order::Up,
            updates: true,
        };
        let left = trial.leaves_pairs(rt.alloc());
        assert!(rt; left == Some(stay), "{trial:?}: {left:?}");
    }
}

// Keys are inserted until no leaf takes one more: then a deletion would have to split its leaf first.
#[test]
fn pids_run_out_for_ever(rt: HostRuntime) {
    let trial = Trial {
        rows: 704,
        keys: 2_000,
        order: Order::Drawn,
        updates: false,
    };
    let left = trial.leaves_pairs(rt.alloc());
    assert!(rt; left == Some(true), "{trial:?}: {left:?}");
}
