//! What helps where a writer is refused: a tidying on each seat, and a larger tree.
ghost use Rattle.std.specs.Prelude.{IfSome};
ghost use Rattle.running_tree.specs.Trees.{AreSeatsOf};

use crate::trees::new_tree;
use crate::turns::{in_turn, is_done};
use crate::works::{Work, key};
use bw_model::{Command, Limits, Widths};
use running_tree::{BwSeat, Tree};
use std::alloc::Global;
use workers::{opened, opened_from};

/// More keys than the small tree holds.
const KEYS: u32 = 1_000;

/// Inserts the keys from a number on, until one is refused or all are there; tells how many are.
fn insert_from(tree: &Tree, seats: &mut Vec<BwSeat>, first: u32) -> u32
    requires own { AreSeatsOf tree.now seats.old.items }
    ensures own { AreSeatsOf tree.now seats.new.items }
{
    for number in first..KEYS {
        if !is_done(tree, seats, Work::Insert, number) {
            return number;
        }
    }
    KEYS
}

/// A tree of these limits with the same pairs, and its seats; the old tree's seats are idle.
fn moved(
    alloc: Global,
    tree: Tree,
    seats: Vec<BwSeat>,
    limits: Limits,
) -> Option<(Tree, Vec<BwSeat>)>
    requires own { AreSeatsOf tree seats.items }
    ensures own { IfSome result (λ moved. AreSeatsOf moved.0 moved.1.items) }
{
    let pairs = tree.close(alloc, seats).ok()?;
    match opened_from(alloc, limits, pairs.as_slice()) {
        Ok(moved) => Some(moved),
        Err(_) => None,
    }
}

/// How many keys a tree takes, and how many pairs another one has that begins with these and takes the others.
#[derive(Clone, Copy, Debug)]
struct Filled {
    keys: u32,
    pairs: usize,
}

/// How many a tree takes, and one of the other limits.
fn filled_and_moved(alloc: Global, small: Limits, larger: Limits) -> Option<Filled> {
    let Ok((tree, mut seats)) = opened(alloc, small) else {
        return None;
    };
    let keys = insert_from(&tree, &mut seats, 0);
    let (tree, mut seats) = moved(alloc, tree, seats, larger)?;
    insert_from(&tree, &mut seats, keys);
    let pairs = tree.close(alloc, seats).ok()?.len();
    Some(Filled { keys, pairs })
}

/// How many a small tree takes, and a larger one.
fn small_and_larger(alloc: Global) -> Option<Filled> {
    let small = Limits::new(1, 64, 64, 1).ok()?;
    let larger = Limits::for_keys(1, u64::from(KEYS)).ok()?;
    filled_and_moved(alloc, small, larger)
}

#[test]
fn a_full_tree_is_moved(rt: HostRuntime) {
    let filled = small_and_larger(rt.alloc());
    assert!(rt;
        filled.is_some_and(|filled| filled.keys < KEYS && filled.pairs == KEYS as usize),
        "{filled:?}"
    );
}

/// How many a tree takes that has so many narrow rows, rows for pages, and wide ones, and one that is proposed for such pairs.
fn three_widths_and_larger(alloc: Global, [narrow, pages, wide]: [u64; 3]) -> Option<Filled> {
    let wide_from = narrow.checked_add(pages)?;
    let widths = Widths {
        narrow_rows: narrow,
        wide_from,
        narrow_words: 8,
        page_words: 24,
    };
    let rows = wide_from.checked_add(wide)?;
    let small = Limits::with_widths(1, 64, rows, 1, widths).ok()?;
    let larger = Limits::for_pairs(1, u64::from(KEYS), 4, 4).ok()?;
    filled_and_moved(alloc, small, larger)
}

#[test]
fn a_full_tree_of_three_widths_is_moved(rt: HostRuntime) {
    for rows in [[64, 64, 64], [512, 64, 64], [64, 512, 64], [64, 64, 512]] {
        let filled = three_widths_and_larger(rt.alloc(), rows);
        assert!(rt;
            filled.is_some_and(|filled| filled.keys < KEYS && filled.pairs == KEYS as usize),
            "{rows:?}: {filled:?}"
        );
    }
}

/// The other seat of two looks a key up, so that the first one is next again.
fn other_reads(tree: &Tree, seats: &mut Vec<BwSeat>)
    requires own { AreSeatsOf tree.now seats.old.items }
    ensures own { AreSeatsOf tree.now seats.new.items }
{
    let _ = in_turn(tree, seats, Command::Get(key(0)));
}

/// One seat of two works on, until it is refused or has done so many; tells how many.
fn works_alone(tree: &Tree, seats: &mut Vec<BwSeat>, work: Work, first: u32, count: u32) -> u32
    requires own { AreSeatsOf tree.now seats.old.items }
    ensures own { AreSeatsOf tree.now seats.new.items }
{
    for place in 0..count {
        let went = is_done(tree, seats, work, first.wrapping_add(place));
        other_reads(tree, seats);
        if !went {
            return place;
        }
    }
    count
}

/// How many keys a seat inserts until it is refused: at first, and again after a tidying of another one.
#[derive(Clone, Copy, Debug)]
struct Inserted {
    before: u32,
    after: u32,
}

/// One seat takes a chain out of the tree and is idle; the other one inserts, and again after a tidying of the first.
fn one_holds_back(tree: &Tree, seats: &mut Vec<BwSeat>) -> Inserted
    requires own { AreSeatsOf tree.now seats.old.items }
    ensures own { AreSeatsOf tree.now seats.new.items }
{
    works_alone(tree, seats, Work::Insert, 0, 9);
    other_reads(tree, seats);
    let before = works_alone(tree, seats, Work::Insert, 9, KEYS);
    other_reads(tree, seats);
    works_alone(tree, seats, Work::Tidy, 0, 1);
    other_reads(tree, seats);
    let after = works_alone(tree, seats, Work::Insert, before.saturating_add(9), KEYS);
    Inserted { before, after }
}

/// How many it inserts in a small tree with two seats.
fn held_back(alloc: Global) -> Option<Inserted> {
    let (tree, mut seats) = new_tree(alloc, Limits::new(2, 64, 64, 1).ok())?;
    let inserted = one_holds_back(&tree, &mut seats);
    tree.close(alloc, seats).ok()?;
    Some(inserted)
}

#[test]
fn a_tidying_gives_rows_back(rt: HostRuntime) {
    let inserted = held_back(rt.alloc());
    let some = |count| 0 < count && count < KEYS;
    assert!(rt;
        inserted.is_some_and(|inserted| some(inserted.before) && some(inserted.after)),
        "{inserted:?}"
    );
}
