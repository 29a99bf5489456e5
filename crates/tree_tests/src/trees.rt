//! Trees that are opened, run and closed.
ghost use Rattle.std.specs.Prelude.{IfOk, IfSome, true};
ghost use Rattle.running_tree.specs.Trees.{AreSeatsOf, IsSeatOf};

use crate::runs::{Run, is_right, is_right_alone};
use crate::stops::Stop;
use bw_model::{BadLimits, Key, Limits, OpenError, Value, Widths};
use running_tree::{BwSeat, Tree};
use std::alloc::Global;
use workers::{give_seat, opened, take_seat};

/// A new tree and its seats, if these are limits.
pub(crate) fn new_tree(alloc: Global, limits: Option<Limits>) -> Option<(Tree, Vec<BwSeat>)>
    ensures { IfSome result (λ made. AreSeatsOf made.0 made.1.items) }
{
    opened(alloc, limits?).ok()
}

/// Gives a seat back.
pub(crate) fn give_back(tree: &Tree, seats: &mut Vec<BwSeat>, seat: BwSeat) -> bool
    requires own { AreSeatsOf tree.now seats.old.items }
    requires given { IsSeatOf tree.now seat }
    ensures own { AreSeatsOf tree.now seats.new.items }
{
    give_seat(tree, seats, seat).is_ok()
}

/// Does it with the only seat of a list, which was taken out of it.
fn runs_alone(tree: &Tree, seats: &mut Vec<BwSeat>, seat: BwSeat, run: Run) -> bool
    requires own { AreSeatsOf tree.now seats.old.items }
    requires given { IsSeatOf tree.now seat }
    ensures own { AreSeatsOf tree.now seats.new.items }
{
    let mut seat = seat;
    let right = is_right_alone(tree, &mut seat, run);
    give_back(tree, seats, seat) && right
}

/// Does it with two seats of a list, which were taken out of it.
fn runs_both(tree: &Tree, seats: &mut Vec<BwSeat>, one: BwSeat, other: BwSeat, run: Run) -> bool
    requires own { AreSeatsOf tree.now seats.old.items }
    requires one { IsSeatOf tree.now one }
    requires other { IsSeatOf tree.now other }
    ensures own { AreSeatsOf tree.now seats.new.items }
{
    let mut one = one;
    let mut other = other;
    let right = is_right(tree, &mut one, &mut other, run);
    let given = give_back(tree, seats, one);
    give_back(tree, seats, other) && given && right
}

/// Takes the last two seats of a list, or the only one, does it, and gives them back in their order.
pub(crate) fn runs(tree: &Tree, seats: &mut Vec<BwSeat>, run: Run) -> bool
    requires own { AreSeatsOf tree.now seats.old.items }
    ensures own { AreSeatsOf tree.now seats.new.items }
{
    let Some(other) = take_seat(tree, seats) else {
        return false;
    };
    let Some(one) = take_seat(tree, seats) else {
        return runs_alone(tree, seats, other, run);
    };
    runs_both(tree, seats, one, other, run)
}

/// Does all of these, one after another, and answers whether all replies were right.
fn runs_all(tree: &Tree, seats: &mut Vec<BwSeat>, all: &[Run]) -> bool
    requires own { AreSeatsOf tree.now seats.old.items }
    ensures own { AreSeatsOf tree.now seats.new.items }
{
    for run in all {
        if !runs(tree, seats, *run) {
            return false;
        }
    }
    true
}

/// A tree that opens at an epoch that may be another one than that of its limits, with its seats.
fn opened_at(alloc: Global, limits: Limits, epoch: u64) -> Result<(Tree, Vec<BwSeat>), OpenError>
    ensures own { IfOk result (λ opened. AreSeatsOf opened.0 opened.1.items) }
{
    Tree::<Global>::open_at(alloc, limits, epoch)
}

/// The pairs of a tree that is closed; none where it can't be.
pub(crate) fn closed(alloc: Global, tree: Tree, seats: Vec<BwSeat>) -> Option<Vec<(Key, Value)>>
    requires own { AreSeatsOf tree seats.items }
{
    tree.close(alloc, seats).ok()
}

/// Whether the pairs are those of a tree that is closed after these runs, of which the last one says what it leaves.
fn are_left(all: &[Run], pairs: &[(Key, Value)]) -> bool {
    match all.last() {
        Some(run) => run.leaves(pairs),
        None => false,
    }
}

/// How many seats, PIDs and rows a tree has.
type Size = (u64, u64, u64);

/// Limits of a large tree that has so many rows of each width, each as narrow as it may be.
pub(crate) fn by_width((seats, pids, rows): Size) -> Result<Limits, BadLimits> {
    let widths = Widths {
        narrow_rows: rows,
        wide_from: rows.saturating_mul(2),
        narrow_words: 8,
        page_words: 24,
    };
    Limits::with_widths(seats, pids, rows.saturating_mul(3), 1, widths)
}

/// The spare pages of proposed limits that are for operations beside a stopped seat. 128 are left, more than a sixteenth of the pages that
/// 13,000 keys make.
const FOR_STOPS: u64 = 8064;

/// Limits that are proposed for a large tree, without what is spare for operations beside a stopped seat.
pub(crate) fn without_stops(proposed: Result<Limits, BadLimits>) -> Option<Limits> {
    let limits = proposed.ok()?;
    if limits.actors == 1 {
        return Some(limits);
    }
    let wide_rows = limits.rows.checked_sub(limits.wide_from)?;
    let narrow_rows = limits.narrow_rows.checked_sub(2 * FOR_STOPS)?;
    let wide_from = limits.wide_from.checked_sub(3 * FOR_STOPS)?;
    let widths = Widths {
        narrow_rows,
        wide_from,
        narrow_words: limits.narrow_words,
        page_words: limits.page_words,
    };
    let pids = limits.pids.checked_sub(FOR_STOPS)?;
    let rows = wide_from.checked_add(wide_rows)?;
    Limits::with_widths(limits.actors, pids, rows, 1, widths).ok()
}

/// Whether these runs go right on a tree of this size, on a large one, and on one that has so many rows of each width.
fn go_right_in_each(alloc: Global, (seats, pids, rows): Size, all: &[Run]) -> bool {
    go_right(alloc, Limits::new(seats, pids, rows, 1), 1, all)
        && go_right(alloc, Limits::large(seats, pids, rows, 1), 1, all)
        && go_right(alloc, by_width((seats, pids, rows)), 1, all)
}

/// Whether these runs go right on a tree of these limits that opens at this epoch, and leave it with their pairs.
pub(crate) fn go_right(
    alloc: Global,
    limits: Result<Limits, BadLimits>,
    epoch: u64,
    all: &[Run],
) -> bool {
    let Ok(limits) = limits else {
        return false;
    };
    let Ok((tree, mut seats)) = opened_at(alloc, limits, epoch) else {
        return false;
    };
    let right = runs_all(&tree, &mut seats, all);
    match closed(alloc, tree, seats) {
        Some(pairs) => right && are_left(all, pairs.as_slice()),
        None => false,
    }
}

/// What is done on trees of which sizes. A lone seat is never spent: its tenth insert uses rows that the ninth has freed, and the seventeenth
/// splits the leaf. Where it empties its tree, deletions hold, remove and merge index pages too.
const RUNS: [(Size, Run); 7] = [
    ((2, 64, 64), Run::Steps),
    ((2, 64, 256), Run::Inserts(40)),
    ((1, 64, 256), Run::Alone(10)),
    ((1, 64, 256), Run::Alone(17)),
    ((1, 512, 8192), Run::ComesAndGoes),
    ((2, 256, 1024), Run::Mixed),
    ((2, 64, 256), Run::Meets),
];

#[test]
fn replies_and_pairs_are_right(rt: HostRuntime) {
    for ((seats, pids, rows), run) in RUNS {
        let right = go_right_in_each(rt.alloc(), (seats, pids, rows), &[run]);
        assert!(rt; right, "{run:?}: {seats} seats, {pids} PIDs, {rows} rows");
    }
}

/// Whether all replies are right wherever the operation is stopped.
fn stops_anywhere(alloc: Global, stop: Stop) -> bool {
    for steps in 1..stop.most_steps() {
        if !go_right_in_each(alloc, (2, 64, 256), &[Run::Stopped(stop, steps)]) {
            return false;
        }
    }
    true
}

#[test]
fn operations_are_stopped(rt: HostRuntime) {
    for stop in [Stop::Splits, Stop::Frees, Stop::Removes] {
        assert!(rt; stops_anywhere(rt.alloc(), stop), "{stop:?}");
    }
}
