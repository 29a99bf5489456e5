//! Operations that change the tree, stopped after each of their turns, while another actor goes on.

use crate::numbered::{LIMITS, Part, Width, runs};
use std::alloc::Global;
use std::process::Abort;

/// How many turns the insert of k17 takes alone, of which the last but one links it; and how many the delete of k12.
const SPLIT: u32 = 58;

const REMOVAL: u32 = 115;

/// Sixteen keys, and the insert of another one that splits their leaf; meanwhile actor 1 inserts k18 and looks k16 up.
fn splits(rt: &impl Abort, alloc: Global, turns: u32) {
    let is_linked = turns.wrapping_add(1) == SPLIT;
    let (pairs, last) = if is_linked { (18, 17) } else { (17, 16) };
    runs(
        rt,
        alloc,
        LIMITS,
        Width::Two,
        &[
            Part::Inserts(1, 16),
            Part::Adds("begin 0 insert k17 v17\n", ""),
            Part::Turns(turns),
            Part::Adds("begin 1 insert k18 v18\nfinish 1\n", "1 inserted\n"),
            Part::Adds("begin 1 get k16\nfinish 1\n", "1 value v16\n"),
            Part::Lists(pairs),
            Part::Pairs(1, last),
            Part::Pairs(18, 18),
            Part::Adds("finish 0\n", "0 inserted\n"),
            Part::Lists(18),
            Part::Pairs(1, 18),
        ],
    );
}

#[test]
fn a_split_stops_anywhere(rt: HostRuntime) {
    for turns in 0..SPLIT {
        splits(&rt, rt.alloc(), turns);
    }
}

/// A leaf of four keys, and the delete of its last one that removes it; meanwhile actor 1 looks k10 up and changes its value.
fn removes(rt: &impl Abort, alloc: Global, turns: u32) {
    runs(
        rt,
        alloc,
        LIMITS,
        Width::Two,
        &[
            Part::Inserts(1, 17),
            Part::Deletes(17, 13),
            Part::Adds("begin 0 delete k12\n", ""),
            Part::Turns(turns),
            Part::Adds("begin 1 get k10\nfinish 1\n", "1 value v10\n"),
            Part::Adds("begin 1 upsert k10 new\nfinish 1\n", "1 replaced v10\n"),
            Part::Adds("finish 0\n", "0 deleted v12\n"),
            Part::Lists(11),
            Part::Pairs(1, 9),
            Part::Adds("", "k10 new\nk11 v11\n"),
        ],
    );
}

#[test]
fn a_removal_stops_anywhere(rt: HostRuntime) {
    for turns in 0..REMOVAL {
        removes(&rt, rt.alloc(), turns);
    }
}

/// The parts of a hundred rounds, in each of which six keys go and come again, so that a leaf is removed and one is split off.
fn rounds(alloc: Global) -> Option<Vec<Part<'static>>> {
    let mut parts = vec![in alloc; Part::Inserts(1, 17)].ok()?;
    for _ in 0..100u32 {
        parts.push(Part::Deletes(17, 12)).ok()?;
        parts.push(Part::Inserts(12, 17)).ok()?;
    }
    parts.push(Part::Lists(17)).ok()?;
    parts.push(Part::Pairs(1, 17)).ok()?;
    Some(parts)
}

// Each round gives one page identifier back; without that there would be enough of them for 61 rounds.
#[test]
fn a_leaf_comes_and_goes(rt: HostRuntime) {
    let parts = rounds(rt.alloc());
    assert!(rt; parts.is_some(), "no memory");
    if let Some(parts) = parts {
        runs(&rt, rt.alloc(), LIMITS, Width::Two, parts.as_slice());
    }
}
