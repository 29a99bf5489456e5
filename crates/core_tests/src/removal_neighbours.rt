//! Two actors that each remove a leaf, where the leaves are neighbours.

use crate::by_hand::{end, let_go};
use crate::numbered::value;
use crate::scripts::{Ask, Line, Say, opened, runs};
use bw_model::Reply;
use std::alloc::Global;
use step_core::Core;

/// Page 1 has k1 to k8; the two leaves to its right have k9 to k12 and k17 to k20. The actors begin to delete k9 and k17.
const SMALL_NEIGHBOURS: [Line; 5] = [
    Line::Inserts(0, 1, 25),
    Line::Deletes(0, 25, 21),
    Line::Deletes(0, 16, 13),
    Line::Begins(0, Ask::Delete(9)),
    Line::Begins(1, Ask::Delete(17)),
];

/// The keys that are left when k9 and k17 are deleted.
const LEFT: Line = Line::Lists([(1, 8), (10, 12), (18, 20)], 10);

/// Tidying both places leaves all pairs as they are.
const TIDIED: [Line; 5] = [
    LEFT,
    Line::Replies(1, Ask::Tidy(18), Say::Tidied),
    Line::Replies(1, Ask::Tidy(10), Say::Tidied),
    Line::Replies(1, Ask::Tidy(18), Say::Tidied),
    LEFT,
];

/// Whether an actor takes so many steps, unless its operation is done before, and its key is deleted then.
fn takes(core: &mut Core, actor: u8, steps: u32) -> bool {
    let number = if actor == 0 { 9 } else { 17 };
    for _ in 0..steps {
        if !core.is_busy(actor) {
            return true;
        }
        let goes_on = core.step_on(actor).is_some();
        if !goes_on && end(core, actor) != Some(Reply::Deleted(value(number))) {
            return false;
        }
    }
    true
}

/// Whether both keys are deleted where two actors take so many steps in turns.
fn take_turns(core: &mut Core, turns: [(u8, u32); 2]) -> bool {
    let [(one, first), (other, second)] = turns;
    for _ in 0..1000u32 {
        if !takes(core, one, first) || !takes(core, other, second) {
            return false;
        }
    }
    !core.is_busy(0) && !core.is_busy(1)
}

/// Whether they are on a new core.
fn are_deleted(alloc: Global, turns: [(u8, u32); 2]) -> bool {
    match opened(alloc, 2, 64, 256, 1) {
        Some(mut core) => {
            let right = runs(alloc, &mut core, &SMALL_NEIGHBOURS)
                && take_turns(&mut core, turns)
                && runs(alloc, &mut core, &TIDIED);
            let_go(core);
            right
        }
        None => false,
    }
}

/// How many steps the actors take in turns.
const IN_TURNS: [(u32, u32); 10] = [
    (1, 1),
    (1, 2),
    (2, 1),
    (3, 2),
    (2, 5),
    (7, 3),
    (13, 13),
    (16, 17),
    (40, 11),
    (11, 40),
];

#[test]
fn neighbours_are_removed_in_turns(rt: HostRuntime) {
    for (first, second) in IN_TURNS {
        assert!(rt;
            are_deleted(rt.alloc(), [(0, first), (1, second)]),
            "{first} and {second} steps in turn"
        );
    }
}

/// Whether they are where one actor stops after any number of steps, of every fourth one, and the other then goes on to its end.
fn stops_anywhere(alloc: Global, one: u8, other: u8) -> bool {
    for fours in 1..32u32 {
        if !are_deleted(alloc, [(one, fours * 4), (other, 1000)]) {
            return false;
        }
    }
    are_deleted(alloc, [(other, 1000), (one, 1000)])
}

#[test]
fn a_neighbour_stops(rt: HostRuntime) {
    assert!(rt; stops_anywhere(rt.alloc(), 0, 1), "actor 0 stops");
    assert!(rt; stops_anywhere(rt.alloc(), 1, 0), "actor 1 stops");
}
