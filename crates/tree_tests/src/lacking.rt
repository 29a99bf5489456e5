//! Which kind ran out where a writer replied `Full`.
ghost use Rattle.running_tree.specs.Trees.{IsSeatOf};

use crate::calls::{goes_to_its_end, stops_after};
use crate::works::{Work, key, value};
use bw_model::{Command, Limits, Reply};
use running_tree::{BwSeat, Kind, Tree};
use std::alloc::Global;
use workers::{opened, reply, take_seat};

/// More keys than the trees hold.
const MANY: u32 = 5_000;

/// How many keys are updated, again and again, and how often.
const KEYS: u32 = 9;

const ROUNDS: u32 = 200;

/// How many steps are too few for a lookup, and how many are enough.
const FEW: u32 = 3;

const ENOUGH: u32 = 4_096;

/// Does the work for each of the numbers, again and again, until it is refused with `Full`; tells whether it was.
fn is_refused(tree: &Tree, seat: &mut BwSeat, work: Work, keys: u32, rounds: u32) -> bool
    requires own { IsSeatOf tree.now seat.old }
    ensures own { IsSeatOf tree.now seat.new }
{
    for place in 0..keys.saturating_mul(rounds) {
        if reply(tree, seat, work.command(place % keys.max(1))) == Ok(Reply::Full) {
            return true;
        }
    }
    false
}

/// What ran out for a seat of a tree of these limits: before it does anything, once an insert was refused, and once a lookup has replied.
fn runs_out(alloc: Global, limits: Limits) -> Option<[Option<Kind>; 3]> {
    let (tree, mut seats) = opened(alloc, limits).ok()?;
    let mut seat = take_seat(&tree, &mut seats)?;
    let opening = seat.lacking();
    if !is_refused(&tree, &mut seat, Work::Insert, MANY, 1) {
        return None;
    }
    let full = seat.lacking();
    if reply(&tree, &mut seat, Command::Get(key(0))) != Ok(Reply::Value(value(0))) {
        return None;
    }
    Some([opening, full, seat.lacking()])
}

/// Trees, small and large, by their PIDs and rows, and what runs out in each.
const TREES: [(bool, u64, u64, Kind); 8] = [
    (false, 64, 64, Kind::Row),
    (false, 128, 128, Kind::Row),
    (false, 64, 1_024, Kind::Pid),
    (false, 128, 2_048, Kind::Pid),
    (true, 64, 64, Kind::Row),
    (true, 256, 192, Kind::Row),
    (true, 64, 1_024, Kind::Pid),
    (true, 256, 4_096, Kind::Pid),
];

#[test]
fn the_kind_that_ran_out_is_told(rt: HostRuntime) {
    for (is_large, pids, rows, kind) in TREES {
        let limits = if is_large {
            Limits::large(1, pids, rows, 1)
        } else {
            Limits::new(1, pids, rows, 1)
        };
        let told = match limits {
            Ok(limits) => runs_out(rt.alloc(), limits),
            Err(_) => None,
        };
        assert!(rt;
            told == Some([None, Some(kind), None]),
            "{is_large} {pids} {rows} {told:?}"
        );
    }
}

/// What runs out for a seat that updates a few keys while another one stands still in the midst of a lookup; what is told in the midst of the update that
/// is made once the other one has gone on, and at its end.
fn stands_still(alloc: Global, limits: Limits) -> Option<[Option<Kind>; 3]> {
    let (tree, mut seats) = opened(alloc, limits).ok()?;
    let mut still = take_seat(&tree, &mut seats)?;
    let mut writer = take_seat(&tree, &mut seats)?;
    let filled = !is_refused(&tree, &mut writer, Work::Insert, KEYS, 1);
    let stands = stops_after(&tree, &mut still, Command::Get(key(0)), FEW);
    let refused = is_refused(&tree, &mut writer, Work::Update, KEYS, ROUNDS);
    if !(filled && stands && refused) {
        return None;
    }
    let full = writer.lacking();
    if !goes_to_its_end(&tree, &mut still, ENOUGH, Reply::Value(value(0))) {
        return None;
    }
    if !stops_after(&tree, &mut writer, Work::Update.command(0), FEW) {
        return None;
    }
    let midst = writer.lacking();
    if !goes_to_its_end(&tree, &mut writer, ENOUGH, Work::Update.reply(0)) {
        return None;
    }
    Some([full, midst, writer.lacking()])
}

// Nothing that the writer takes out of the tree comes back while the other one is inside; once that has left, the same update goes.
#[test]
fn rows_run_out_beside_a_seat_that_stands_still(rt: HostRuntime) {
    for limits in [Limits::new(2, 64, 512, 1), Limits::large(2, 64, 512, 1)] {
        let told = match limits {
            Ok(limits) => stands_still(rt.alloc(), limits),
            Err(_) => None,
        };
        assert!(rt; told == Some([Some(Kind::Row), None, None]), "{told:?}");
    }
}
