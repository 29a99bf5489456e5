//! Trees whose keys come at one end and go behind it, each in a thread of its own: PIDs don't run out, however many keys come, where few are
//! there at a time. Were a page of level 2 lost for each 512 keys, with one below it on each level, 256 PIDs would be lost within the first 20,000 of
//! the 100,000 keys of the first tree. bench/windows.sh does so with a million.
ghost use Rattle.running_tree.specs.Trees.{AreSeatsOf};

use crate::turns::is_done;
use crate::works::Work;
use bw_model::Limits;
use running_tree::{BwSeat, Tree};
use std::alloc::{AllocError, Global};
use std::test::Fail;
use std::thread::{Threads, map_vec};
use workers::opened;

/// How many keys are there at a time.
const KEYS: u32 = 1_000;

/// Seats, PIDs and rows of a tree, and how many keys come in all.
type Trial = (u64, u64, u64, u32);

const TRIALS: [Trial; 3] = [
    (1, 256, 4_096, 100_000),
    (1, 192, 4_096, 20_000),
    (4, 256, 4_096, 20_000),
];

/// Inserts the keys in their order, each once the one that came so many before it is deleted; tells whether nothing was refused.
fn moves(tree: &Tree, seats: &mut Vec<BwSeat>, end: u32) -> bool
    requires own { AreSeatsOf tree.now seats.old.items }
    ensures own { AreSeatsOf tree.now seats.new.items }
{
    for number in 0..end {
        let old = number.wrapping_sub(KEYS);
        if number >= KEYS && !is_done(tree, seats, Work::Delete, old) {
            return false;
        }
        if !is_done(tree, seats, Work::Insert, number) {
            return false;
        }
    }
    true
}

/// How many pairs a tree has then, if nothing was refused.
fn left(alloc: Global, (actors, pids, rows, end): Trial) -> Option<usize> {
    let limits = Limits::new(actors, pids, rows, 1).ok()?;
    let (tree, mut seats) = opened(alloc, limits).ok()?;
    let moved = moves(&tree, &mut seats, end);
    let pairs = tree.close(alloc, seats).ok()?;
    moved.then_some(pairs.len())
}

/// How many each of the trees has.
fn all_left<R: Threads + Sync>(
    threads: &R,
    alloc: Global,
) -> Result<Vec<Option<usize>>, AllocError> {
    map_vec(
        threads,
        Vec::from_array(alloc, TRIALS)?,
        &|trial: Trial| -> Option<usize> { left(alloc, trial) },
    )
}

/// So many keys after it came a key goes, by its turn, where as many pages as can be are to be left. No more than 996 keys are there at a time.
const AGES: [u32; 4] = [24, 160, 896, 6_656];

/// How many keys come to a tree, and how many pairs it has at the end.
#[derive(Clone, Copy, Debug, PartialEq)]
struct Window {
    came: u32,
    left: usize,
}

/// At which of the ages a key goes. Where keys come in their order, each page but the last of its level has eight keys or terms, and the first page
/// below another one is never removed. So all keys of a first leaf go, those of the four next leaves but four, and then those of the others;
/// likewise for the pages above leaves.
fn turn(number: u32) -> usize {
    let (leaf, page) = (number / 8 % 8, number / 64 % 8);
    if number % 8 >= 4 || leaf == 0 {
        0
    } else if leaf > 4 || page == 0 {
        1
    } else if page > 4 {
        2
    } else {
        3
    }
}

/// Deletes the key that has come to the age, if that is its turn; tells whether nothing was refused.
fn goes(tree: &Tree, seats: &mut Vec<BwSeat>, number: u32, age: u32, at: usize) -> bool
    requires own { AreSeatsOf tree.now seats.old.items }
    ensures own { AreSeatsOf tree.now seats.new.items }
{
    let old = number.wrapping_sub(age);
    number < age || turn(old) != at || is_done(tree, seats, Work::Delete, old)
}

/// Inserts the keys in their order, and deletes each at its age, until something is refused: how many came.
fn thins(tree: &Tree, seats: &mut Vec<BwSeat>, end: u32) -> u32
    requires own { AreSeatsOf tree.now seats.old.items }
    ensures own { AreSeatsOf tree.now seats.new.items }
{
    let [first, second, third, last] = AGES;
    for number in 0..end {
        if !(goes(tree, seats, number, first, 0)
            && goes(tree, seats, number, second, 1)
            && goes(tree, seats, number, third, 2)
            && goes(tree, seats, number, last, 3)
            && is_done(tree, seats, Work::Insert, number))
        {
            return number;
        }
    }
    end
}

/// What comes to a tree of limits for so many keys.
fn thinned(alloc: Global, keys: u64, end: u32) -> Option<Window> {
    let limits = Limits::for_keys(1, keys).ok()?;
    let (tree, mut seats) = opened(alloc, limits).ok()?;
    let came = thins(&tree, &mut seats, end);
    let left = tree.close(alloc, seats).ok()?.len();
    Some(Window { came, left })
}

// Limits for 7 / 2 of 1,000 keys hold them.
#[test]
fn first_pages_stay_without_keys(rt: HostRuntime) {
    let window = thinned(rt.alloc(), 7 * 1_000 / 2, 8_000);
    let expected = Window {
        came: 8_000,
        left: 944,
    };
    assert!(rt; window == Some(expected), "{window:?}");
}

#[test]
fn keys_come_and_go_without_end(rt: HostRuntime) -> Result<(), Fail> {
    for left in all_left(&rt, rt.alloc())? {
        assert!(rt; left == Some(KEYS as usize), "{left:?}");
    }
    Ok(())
}
