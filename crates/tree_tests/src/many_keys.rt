//! A large tree with a hundred thousand keys, which come in drawn order, go in another one, and come again. Were numbers lost, or not taken where the words
//! at which a taking begins have none, the second coming would be refused.
ghost use Rattle.running_tree.specs.Trees.{AreSeatsOf};

use crate::orders::{Order, numbers};
use crate::trees::{new_tree, without_stops};
use crate::turns::done;
use crate::works::{Work, key, value};
use bw_model::{Key, Limits, Value};
use running_tree::{BwSeat, Tree};
use std::alloc::{AllocError, Global};

/// How many seats the tree has, which take their turns, and how many keys.
const SEATS: u64 = 16;

const KEYS: u32 = 100_000;

/// What is done for all keys, in the order of a seed.
const WORKS: [(Work, u64); 3] = [(Work::Insert, 1), (Work::Delete, 2), (Work::Insert, 3)];

/// For how many keys each work is done, one work after another.
fn counts(alloc: Global, tree: &Tree, seats: &mut Vec<BwSeat>) -> Result<[u32; 3], AllocError>
    requires own { AreSeatsOf tree.now seats.old.items }
    ensures own { AreSeatsOf tree.now seats.new.items }
{
    let mut counts = [0; 3];
    for place in 0..3usize {
        let (work, seed) = WORKS[place];
        let order = numbers(alloc, KEYS, Order::Drawn, seed)?;
        counts[place] = done(tree, seats, work, order.as_slice());
    }
    Ok(counts)
}

/// Whether the pairs are those of all keys, in order.
fn are_all(pairs: &[(Key, Value)]) -> bool {
    let mut left = pairs.iter();
    for number in 0..KEYS {
        if left.next() != Some(&(key(number), value(number))) {
            return false;
        }
    }
    left.next().is_none()
}

/// For how many keys each work is done, and whether the tree lists all of them as it is closed.
#[derive(Clone, Copy, Debug, PartialEq)]
struct Outcome {
    counts: [u32; 3],
    lists_all: bool,
}

/// What comes of the works on a new tree.
fn held(alloc: Global) -> Option<Outcome> {
    let limits = without_stops(Limits::for_many_keys(SEATS, u64::from(KEYS)));
    let (tree, mut seats) = new_tree(alloc, limits)?;
    let counts = counts(alloc, &tree, &mut seats);
    let pairs = tree.close(alloc, seats).ok()?;
    Some(Outcome {
        counts: counts.ok()?,
        lists_all: are_all(pairs.as_slice()),
    })
}

#[test]
fn a_hundred_thousand_keys_come_again(rt: HostRuntime) {
    let held = held(rt.alloc());
    let expected = Outcome {
        counts: [KEYS; 3],
        lists_all: true,
    };
    assert!(rt; held == Some(expected), "{held:?}");
}
