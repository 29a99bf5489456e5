//! How many PIDs and rows are free while a tree opens, fills, refuses, and empties again, and what seats hold back.
ghost use Rattle.running_tree.specs.Trees.{IsSeatOf};

use crate::calls::{goes_to_its_end, stops_after};
use crate::trees::new_tree;
use crate::works::{Work, key};
use bw_model::{Command, Limits, Reply};
use running_tree::{BwSeat, Held, Room, Tree};
use std::alloc::Global;
use workers::{opened, reply, take_seat};

/// More keys than the trees hold.
const KEYS: u32 = 1_000;

/// More keys than the large ones hold.
const MANY: u32 = 5_000;

/// How many steps are too few for a lookup, and how many are enough.
const FEW: u32 = 3;

const ENOUGH: u32 = 4_096;

/// Does the work for the numbers from a first one on, until it is refused or was done for so many; tells for how many.
fn works(tree: &Tree, seat: &mut BwSeat, work: Work, first: u32, count: u32) -> u32
    requires own { IsSeatOf tree.now seat.old }
    ensures own { IsSeatOf tree.now seat.new }
{
    for place in 0..count {
        let number = first.wrapping_add(place);
        if reply(tree, seat, work.command(number)) != Ok(work.reply(number)) {
            return place;
        }
    }
    count
}

/// What two idle seats in turn say is free, where they say the same.
fn free(tree: &Tree, one: &mut BwSeat, other: &mut BwSeat) -> Option<Room>
    requires own { IsSeatOf tree.now one.old }
    requires own_other { IsSeatOf tree.now other.old }
    ensures own { IsSeatOf tree.now one.new }
    ensures own_other { IsSeatOf tree.now other.new }
{
    let room = tree.room(one);
    if tree.room(other) != room {
        return None;
    }
    Some(room)
}

/// What is free in a tree of two seats.
#[derive(Clone, Copy, Debug, PartialEq)]
struct Stages {
    /// At the opening.
    opening: Room,
    /// Once one has inserted nine keys, which takes a chain out of the tree.
    begun: Room,
    /// Once the other one has inserted until it was refused.
    full: Room,
    /// Once the first one has tidied.
    tidied: Room,
    /// Once the other one has deleted the keys, as far as it wasn't refused, and both have tidied at each of them, twice.
    emptied: Room,
}

/// What is free while the tree fills and empties.
fn watched(tree: &Tree, one: &mut BwSeat, other: &mut BwSeat) -> Option<Stages>
    requires own { IsSeatOf tree.now one.old }
    requires own_other { IsSeatOf tree.now other.old }
    ensures own { IsSeatOf tree.now one.new }
    ensures own_other { IsSeatOf tree.now other.new }
{
    let opening = free(tree, one, other)?;
    works(tree, one, Work::Insert, 0, 9);
    let begun = free(tree, one, other)?;
    works(tree, other, Work::Insert, 9, KEYS);
    let full = free(tree, one, other)?;
    works(tree, one, Work::Tidy, 0, 1);
    let tidied = free(tree, one, other)?;
    let emptied = emptied(tree, one, other)?;
    Some(Stages {
        opening,
        begun,
        full,
        tidied,
        emptied,
    })
}

/// What is free once one seat has deleted the keys, as far as it wasn't refused, and both have tidied at each of them, twice.
fn emptied(tree: &Tree, one: &mut BwSeat, other: &mut BwSeat) -> Option<Room>
    requires own { IsSeatOf tree.now one.old }
    requires own_other { IsSeatOf tree.now other.old }
    ensures own { IsSeatOf tree.now one.new }
    ensures own_other { IsSeatOf tree.now other.new }
{
    works(tree, other, Work::Delete, 0, KEYS);
    for _ in 0..2 {
        works(tree, other, Work::Tidy, 0, KEYS);
        works(tree, one, Work::Tidy, 0, KEYS);
    }
    free(tree, one, other)
}

/// What is free in a new tree of so many PIDs and rows.
fn watched_anew(alloc: Global, pids: u64, rows: u64) -> Option<Stages> {
    let (tree, mut seats) = new_tree(alloc, Limits::new(2, pids, rows, 1).ok())?;
    let mut one = take_seat(&tree, &mut seats)?;
    let mut other = take_seat(&tree, &mut seats)?;
    watched(&tree, &mut one, &mut other)
}

fn room(free_pids: u32, free_rows: u32) -> Room {
    Room {
        free_pids,
        free_rows,
    }
}

// The deletions are refused in the end, too.
#[test]
fn no_row_is_free_where_rows_ran_out(rt: HostRuntime) {
    let stages = watched_anew(rt.alloc(), 64, 64);
    let expected = Stages {
        opening: room(62, 62),
        begun: room(62, 52),
        full: room(42, 0),
        tidied: room(42, 8),
        emptied: room(43, 40),
    };
    assert!(rt; stages == Some(expected), "{stages:?}");
}

// All pages but the root and its leaf come back; of the rows, all but those of these two and what the seats hold back.
#[test]
fn no_pid_is_free_where_pids_ran_out(rt: HostRuntime) {
    let stages = watched_anew(rt.alloc(), 64, 1024);
    let expected = Stages {
        opening: room(62, 1022),
        begun: room(62, 1012),
        full: room(0, 863),
        tidied: room(0, 871),
        emptied: room(60, 1016),
    };
    assert!(rt; stages == Some(expected), "{stages:?}");
}

// The second of two words of PIDs and the last of 32 of rows are counted, too.
#[test]
fn all_words_are_counted(rt: HostRuntime) {
    let stages = watched_anew(rt.alloc(), 128, 2048);
    let expected = Stages {
        opening: room(126, 2046),
        begun: room(126, 2036),
        full: room(0, 1768),
        tidied: room(0, 1776),
        emptied: room(124, 2033),
    };
    assert!(rt; stages == Some(expected), "{stages:?}");
}

/// Whether a seat may ask in the midst of a lookup, which then goes on to its end.
fn asks_when_busy(alloc: Global) -> Option<bool> {
    let limits = Limits::new(1, 64, 64, 1).ok()?;
    let (tree, mut seats) = opened(alloc, limits).ok()?;
    let mut seat = take_seat(&tree, &mut seats)?;
    let stopped = stops_after(&tree, &mut seat, Command::Get(key(1)), FEW);
    let room = tree.room(&mut seat);
    let ended = goes_to_its_end(&tree, &mut seat, ENOUGH, Reply::None);
    Some(stopped && ended && room.free_pids == 62 && room.free_rows == 62)
}

#[test]
fn a_busy_seat_asks(rt: HostRuntime) {
    let asked = asks_when_busy(rt.alloc());
    assert!(rt; asked == Some(true), "{asked:?}");
}

/// What a seat says that it holds back, if it is idle.
fn held(seat: &BwSeat) -> Option<Held> {
    if !seat.is_idle() {
        return None;
    }
    Some(seat.held())
}

/// What a seat holds back at the opening, once it has inserted nine keys, and once it has tidied.
fn holds(alloc: Global) -> Option<[Held; 3]> {
    let limits = Limits::new(1, 64, 64, 1).ok()?;
    let (tree, mut seats) = opened(alloc, limits).ok()?;
    let mut seat = take_seat(&tree, &mut seats)?;
    let opening = held(&seat)?;
    works(&tree, &mut seat, Work::Insert, 0, 9);
    let begun = held(&seat)?;
    works(&tree, &mut seat, Work::Tidy, 0, 1);
    let tidied = held(&seat)?;
    Some([opening, begun, tidied])
}

/// So many rows in limbo, and nothing else.
fn rows_in_limbo(limbo_rows: usize) -> Held {
    Held {
        spare_pids: 0,
        spare_rows: 0,
        limbo_pids: 0,
        limbo_rows,
    }
}

// The ninth insert finds a chain of nine rows, a base under eight deltas, and puts a base in its place.
#[test]
fn a_chain_waits_for_its_seat(rt: HostRuntime) {
    let held = holds(rt.alloc());
    let expected = [rows_in_limbo(0), rows_in_limbo(9), rows_in_limbo(2)];
    assert!(rt; held == Some(expected), "{held:?}");
}

/// What is free in a large tree of so many PIDs and rows once a seat has inserted until it was refused; none where it wasn't.
fn free_in_large(alloc: Global, (pids, rows): (u64, u64)) -> Option<Room> {
    let limits = Limits::large(1, pids, rows, 1).ok()?;
    let (tree, mut seats) = opened(alloc, limits).ok()?;
    let mut seat = take_seat(&tree, &mut seats)?;
    if works(&tree, &mut seat, Work::Insert, 0, MANY) == MANY {
        return None;
    }
    Some(tree.room(&mut seat))
}

// Whichever word a taking begins at, the last free row is taken, and the last PID.
#[test]
fn all_numbers_of_a_large_tree_are_taken(rt: HostRuntime) {
    for size in [(64, 64), (256, 192)] {
        let free = free_in_large(rt.alloc(), size);
        assert!(rt;
            free.is_some_and(|room| room.free_rows == 0),
            "{size:?}: {free:?}"
        );
    }
    for size in [(64, 1_024), (256, 4_096)] {
        let free = free_in_large(rt.alloc(), size);
        assert!(rt;
            free.is_some_and(|room| room.free_pids == 0),
            "{size:?}: {free:?}"
        );
    }
}
