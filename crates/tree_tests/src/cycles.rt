//! Trees of the limits that are proposed for so many keys, each in a thread of its own: the keys come and go again and again, and nothing
//! is refused.
ghost use Rattle.running_tree.specs.Trees.{AreSeatsOf};

use crate::orders::{Order, but_eighths, numbers};
use crate::trees::without_stops;
use crate::turns::done;
use crate::works::Work;
use bw_model::Limits;
use running_tree::{BwSeat, Tree};
use std::alloc::{AllocError, Global};
use std::test::Fail;
use std::thread::{Threads, map_vec};
use workers::opened;

/// How often the keys come and go.
const CYCLES: u64 = 3;

/// Numbers of seats and of keys that come and go: few keys, many, and the most for one seat.
const SIZES: [(u64, u32); 5] = [(1, 1), (1, 440), (4, 3_000), (16, 1_000), (1, 12_199)];

/// Numbers of seats and of keys that are updated as well: the most for one seat and for sixteen.
const UPDATED: [(u64, u32); 4] = [(1, 440), (4, 3_000), (1, 12_199), (16, 9_751)];

/// Numbers of seats and of keys for large trees, with the order in which the keys come and go; none where they are updated as well.
const LARGE: [(u64, u32, Option<Order>); 6] = [
    (4, 3_000, None),
    (16, 9_751, None),
    (1, 440, Some(Order::Up)),
    (1, 12_199, Some(Order::Drawn)),
    (4, 3_000, Some(Order::Down)),
    (16, 1_000, Some(Order::Drawn)),
];

/// The kind of a tree.
#[derive(Clone, Copy, Debug)]
enum Kind {
    Small,
    Large,
}

impl Kind {
    /// The limits that are proposed for so many keys, where no seat is stopped.
    fn limits(self, actors: u64, keys: u32) -> Option<Limits> {
        let keys = u64::from(keys);
        match self {
            Kind::Small => Limits::for_keys(actors, keys).ok(),
            Kind::Large => without_stops(Limits::for_many_keys(actors, keys)),
        }
    }
}

/// Does the work for all keys below a number, in an order, and tells whether it was done for each.
fn all(
    alloc: Global,
    tree: &Tree,
    seats: &mut Vec<BwSeat>,
    work: Work,
    keys: u32,
    order: Order,
    seed: u64,
) -> bool
    requires own { AreSeatsOf tree.now seats.old.items }
    ensures own { AreSeatsOf tree.now seats.new.items }
{
    match numbers(alloc, keys, order, seed) {
        Ok(list) => done(tree, seats, work, list.as_slice()) == keys,
        Err(_) => false,
    }
}

/// Inserts all keys, and deletes them in the same order, or in another drawn one; tells whether nothing was refused.
fn cycle(
    alloc: Global,
    tree: &Tree,
    seats: &mut Vec<BwSeat>,
    keys: u32,
    order: Order,
    seed: u64,
) -> bool
    requires own { AreSeatsOf tree.now seats.old.items }
    ensures own { AreSeatsOf tree.now seats.new.items }
{
    let filled = all(alloc, tree, seats, Work::Insert, keys, order, seed);
    let emptied = all(alloc, tree, seats, Work::Delete, keys, order, !seed);
    filled && emptied
}

/// Does all cycles, and tells whether nothing was refused.
fn come_and_go(alloc: Global, tree: &Tree, seats: &mut Vec<BwSeat>, keys: u32, order: Order) -> bool
    requires own { AreSeatsOf tree.now seats.old.items }
    ensures own { AreSeatsOf tree.now seats.new.items }
{
    for seed in 0..CYCLES {
        if !cycle(alloc, tree, seats, keys, order, seed) {
            return false;
        }
    }
    true
}

/// Whether that is so in a tree of the limits that are proposed, which then has no pair.
fn are_held(alloc: Global, limits: Limits, keys: u32, order: Order) -> Option<bool> {
    let (tree, mut seats) = opened(alloc, limits).ok()?;
    let held = come_and_go(alloc, &tree, &mut seats, keys, order);
    let pairs = tree.close(alloc, seats).ok()?;
    Some(held && pairs.is_empty())
}

/// Updates all but each eighth key, twice: so a leaf of eight keys has a chain of the greatest length. Tells whether nothing was refused.
fn update_most(alloc: Global, tree: &Tree, seats: &mut Vec<BwSeat>, keys: u32) -> bool
    requires own { AreSeatsOf tree.now seats.old.items }
    ensures own { AreSeatsOf tree.now seats.new.items }
{
    let Ok(most) = but_eighths(alloc, keys) else {
        return false;
    };
    let once = done(tree, seats, Work::Update, most.as_slice());
    let twice = done(tree, seats, Work::Update, most.as_slice());
    once as usize == most.len() && twice as usize == most.len()
}

/// Whether a tree of those limits with all keys holds its longest chains, and then lets the keys go, come, and go again.
fn hold_deltas(alloc: Global, limits: Limits, keys: u32) -> Option<bool> {
    let (tree, mut seats) = opened(alloc, limits).ok()?;
    let filled = all(alloc, &tree, &mut seats, Work::Insert, keys, Order::Up, 0);
    let updated = update_most(alloc, &tree, &mut seats, keys);
    let emptied = all(alloc, &tree, &mut seats, Work::Delete, keys, Order::Up, 0);
    let again = cycle(alloc, &tree, &mut seats, keys, Order::Drawn, 0);
    let pairs = tree.close(alloc, seats).ok()?;
    Some(filled && updated && emptied && again && pairs.is_empty())
}

/// A tree, by its kind, its actors and its keys, and the order in which these come and go; none where they are updated as well.
type Trial = (Kind, u64, u32, Option<Order>);

/// All of them.
fn trials(alloc: Global) -> Result<Vec<Trial>, AllocError> {
    let mut trials = Vec::new(alloc);
    for (actors, keys) in UPDATED {
        trials.push((Kind::Small, actors, keys, None))?;
    }
    for order in [Order::Up, Order::Down, Order::Drawn] {
        for (actors, keys) in SIZES {
            trials.push((Kind::Small, actors, keys, Some(order)))?;
        }
    }
    for (actors, keys, order) in LARGE {
        trials.push((Kind::Large, actors, keys, order))?;
    }
    Ok(trials)
}

/// The trial, if something was refused.
fn refused(alloc: Global, trial: Trial) -> Option<Trial> {
    let (kind, actors, keys, order) = trial;
    let Some(limits) = kind.limits(actors, keys) else {
        return Some(trial);
    };
    let held = match order {
        Some(order) => are_held(alloc, limits, keys, order),
        None => hold_deltas(alloc, limits, keys),
    };
    (held != Some(true)).then_some(trial)
}

/// What was refused, of all trials.
fn all_refused<R: Threads + Sync>(
    threads: &R,
    alloc: Global,
) -> Result<Vec<Option<Trial>>, AllocError> {
    map_vec(
        threads,
        trials(alloc)?,
        &|trial: Trial| -> Option<Trial> { refused(alloc, trial) },
    )
}

#[test]
fn all_are_held(rt: HostRuntime) -> Result<(), Fail> {
    for trial in all_refused(&rt, rt.alloc())? {
        assert!(rt; trial.is_none(), "{trial:?}");
    }
    Ok(())
}
