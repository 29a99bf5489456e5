//! Large trees without a free PID: every key there can be updated and deleted, and then the tree can be filled again. In a small tree each
//! writer would have to split its leaf first (`run_out`).
ghost use Rattle.running_tree.specs.Seats.{IsSame};
ghost use Rattle.running_tree.specs.Trees.{AreSeatsOf, IsSeatOf};

use crate::orders::{Order, numbers};
use crate::threads::done_at_once;
use crate::trees::by_width;
use crate::turns::{done, is_done};
use crate::works::Work;
use bw_model::{BadLimits, Limits, Widths};
use running_tree::{BwSeat, Tree};
use std::alloc::{AllocError, Global};
use std::thread::Threads;
use workers::{Work as Job, opened, reply};

/// How many keys come, more than there is room for in so many pages.
const KEYS: u32 = 3_000;

const PIDS: u64 = 64;

const ROWS: u64 = 4_096;

/// Of 63 pages 56 at least are leaves, each with 16 keys.
const LEAST: usize = 56 * 16;

/// How many threads work on one tree.
const THREADS: u32 = 4;

/// How often the tree is filled and emptied.
const CYCLES: u64 = 3;

/// Inserts the keys in their order, and gives those that were taken.
fn taken(
    alloc: Global,
    tree: &Tree,
    seats: &mut Vec<BwSeat>,
    keys: &[u32],
) -> Result<Vec<u32>, AllocError>
    requires own { AreSeatsOf tree.now seats.old.items }
    ensures own { AreSeatsOf tree.now seats.new.items }
{
    let mut there = Vec::new(alloc);
    for number in keys {
        if is_done(tree, seats, Work::Insert, *number) {
            there.push(*number)?;
        }
    }
    Ok(there)
}

/// What one cycle did: how many keys were taken, and how many of them were refused an update, and then a deletion.
#[derive(Clone, Copy, Debug)]
struct Cycle {
    taken: usize,
    not_updated: usize,
    not_deleted: usize,
}

impl Cycle {
    /// Nearly all pages are full, and nothing else was refused.
    fn is_right(self) -> bool {
        self.taken >= LEAST && self.not_updated == 0 && self.not_deleted == 0
    }
}

/// Fills the tree in a drawn order, until nothing is taken any more, updates all keys that are there, and deletes them in an order.
fn filled_and_emptied(
    alloc: Global,
    tree: &Tree,
    seats: &mut Vec<BwSeat>,
    order: Order,
    seed: u64,
) -> Result<Cycle, AllocError>
    requires own { AreSeatsOf tree.now seats.old.items }
    ensures own { AreSeatsOf tree.now seats.new.items }
{
    let coming = numbers(alloc, KEYS, Order::Drawn, seed)?;
    let mut there = taken(alloc, tree, seats, coming.as_slice())?;
    let again = taken(alloc, tree, seats, coming.as_slice())?;
    for number in again.as_slice() {
        there.push(*number)?;
    }
    let count = there.len();
    let updated = done(tree, seats, Work::Update, there.as_slice());
    match order {
        Order::Up => there.sort()?,
        Order::Down => {
            there.sort()?;
            there.reverse();
        }
        Order::Drawn => {}
    }
    let deleted = done(tree, seats, Work::Delete, there.as_slice());
    Ok(Cycle {
        taken: count,
        not_updated: count.saturating_sub(updated as usize),
        not_deleted: count.saturating_sub(deleted as usize),
    })
}

/// Whether all cycles of a tree of these limits go right, and leave it empty.
fn is_emptied(alloc: Global, limits: Result<Limits, BadLimits>, order: Order) -> Option<bool> {
    let (tree, mut seats) = opened(alloc, limits.ok()?).ok()?;
    let mut right = true;
    for seed in 0..CYCLES {
        let went = filled_and_emptied(alloc, &tree, &mut seats, order, seed);
        right = right && went.is_ok_and(|cycle| cycle.is_right());
    }
    let pairs = tree.close(alloc, seats).ok()?;
    Some(right && pairs.is_empty())
}

#[test]
fn a_full_tree_is_emptied(rt: HostRuntime) {
    for order in [Order::Up, Order::Down, Order::Drawn] {
        for seats in [1, 4] {
            let wide = is_emptied(rt.alloc(), Limits::large(seats, PIDS, ROWS, 1), order);
            let narrow = is_emptied(rt.alloc(), by_width((seats, PIDS, ROWS)), order);
            assert!(rt;
                wide == Some(true) && narrow == Some(true),
                "{order:?} {seats}"
            );
        }
    }
}

/// A thread's keys, each so many from the one before, and how many of them were there again and again; how many updates and deletions of
/// these were refused.
#[derive(Drop)]
struct Thread {
    first: u32,
    taken: u32,
    refused: u32,
    there: Vec<u32>,
}

impl Thread {
    /// Does what is to be done for a key, and tells whether it was.
    fn does(tree: &Tree, seat: &mut BwSeat, work: Work, number: u32) -> bool
        requires own { IsSeatOf tree.now seat.old }
        ensures same { IsSame seat.old seat.new }
    {
        reply(tree, seat, work.command(number)).ok() == Some(work.reply(number))
    }

    /// Inserts its keys in their order.
    fn fills(&mut self, tree: &Tree, seat: &mut BwSeat)
        requires own { IsSeatOf tree.now seat.old }
        ensures same { IsSame seat.old seat.new }
    {
        for place in 0..KEYS / THREADS {
            let number = self.first.wrapping_add(place.wrapping_mul(THREADS));
            if Thread::does(tree, seat, Work::Insert, number) && self.there.push(number).is_ok() {
                self.taken = self.taken.saturating_add(1);
            }
        }
    }

    /// Does the work for all of its keys that are there.
    fn does_all(&mut self, tree: &Tree, seat: &mut BwSeat, work: Work)
        requires own { IsSeatOf tree.now seat.old }
        ensures same { IsSame seat.old seat.new }
    {
        for number in self.there.as_slice() {
            if !Thread::does(tree, seat, work, *number) {
                self.refused = self.refused.saturating_add(1);
            }
        }
    }
}

impl Job for Thread {
    fn work(&mut self, tree: &Tree, seat: &mut BwSeat) {
        for _ in 0..CYCLES {
            self.fills(tree, seat);
            self.does_all(tree, seat, Work::Update);
            self.does_all(tree, seat, Work::Delete);
            self.there.clear();
        }
    }
}

/// Limits with few PIDs, and with more rows than all that the threads do takes, were nothing freed.
fn few_pids() -> Result<Limits, BadLimits> {
    let proposed = Limits::for_pairs(u64::from(THREADS), 1, 4, 4)?;
    let widths = Widths {
        narrow_rows: 65_536,
        wide_from: 98_304,
        narrow_words: proposed.narrow_words,
        page_words: proposed.page_words,
    };
    Limits::with_widths(u64::from(THREADS), PIDS, 99_328, 1, widths)
}

/// How many keys each thread had there in all, how many updates and deletions of these were refused, and how many pairs are left.
#[derive(Debug, Drop)]
struct Outcome {
    taken: Vec<u32>,
    refused: u32,
    left: usize,
}

/// What comes of the threads.
fn by_threads<R: Threads + Sync>(rt: &R, alloc: Global) -> Option<Outcome> {
    let mut works = Vec::new(alloc);
    for first in 0..THREADS {
        let there = Vec::new(alloc);
        let thread = Thread {
            first,
            taken: 0,
            refused: 0,
            there,
        };
        works.push(thread).ok()?;
    }
    let (works, pairs) = done_at_once(rt, alloc, few_pids().ok()?, works)?;
    let mut taken = Vec::new(alloc);
    let mut refused = 0u32;
    for work in works.as_slice() {
        taken.push(work.taken).ok()?;
        refused = refused.saturating_add(work.refused);
    }
    Some(Outcome {
        taken,
        refused,
        left: pairs.len(),
    })
}

#[test]
fn four_threads_empty_a_full_tree(rt: HostRuntime) {
    let outcome = by_threads(&rt, rt.alloc());
    let right = outcome.as_ref().is_some_and(|found| {
        found.taken.iter().all(|taken| *taken > 0) && found.refused == 0 && found.left == 0
    });
    assert!(rt; right, "{outcome:?}");
}
