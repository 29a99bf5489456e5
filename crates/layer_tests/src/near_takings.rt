//! Where the takings of an actor begin, one change after another: where it took last, and far from there once a take has missed.

use crate::changes::{Free, Planned, World, drive, plan_of};
use bw_model::Limits;
use change_machine::{Change, End, Spares};
use std::alloc::Global;

/// How many of the first takes of a change miss, and its steps.
type Turn = (u8, &'static str);

/// What an actor does, one change after another, in a large tree of so many rows, of which two are free in each word.
const TURNS: [(u64, &[Turn]); 3] = [
    // Takes what a word has and goes on to the next one; behind the last word is the first one.
    (
        192,
        &[
            (0, "rows 0 row 3 3=7 1:7>3"),
            (0, "rows 0 row 5 5=7 1:7>5"),
            (0, "rows 0 rows 1 row 67 67=7 1:7>67"),
            (0, "rows 1 row 69 69=7 1:7>69"),
            (0, "rows 1 rows 2 row 131 131=7 1:7>131"),
            (0, "rows 2 row 133 133=7 1:7>133"),
            (0, "rows 2 rows 0 row 3 3=7 1:7>3"),
            (0, "rows 0 row 5 5=7 1:7>5"),
        ],
    ),
    // Takes in the same word after a take that missed, and the next time 2,654,435,761 words further on: one, modulo three.
    (
        192,
        &[
            (1, "rows 0 row 3 rows 0 row 3 3=7 1:7>3"),
            (0, "rows 1 row 69 69=7 1:7>69"),
            (0, "rows 1 rows 2 row 131 131=7 1:7>131"),
        ],
    ),
    // Begins at the only word, whatever the count is.
    (
        64,
        &[
            (2, "rows 0 row 3 rows 0 row 3 rows 0 row 3 3=7 1:7>3"),
            (0, "rows 0 row 5 5=7 1:7>5"),
        ],
    ),
];

/// Whether an actor's changes go as they say, one after another.
fn all_go(alloc: Global, rows: u64, turns: &[Turn]) -> bool {
    let Ok(limits) = Limits::large(1, 64, rows, 1) else {
        return false;
    };
    if limits.rows <= 7 {
        return false;
    }
    let Ok(mut change) = Change::new(alloc, &limits) else {
        return false;
    };
    let mut spares = Spares::new();
    let mut world = World {
        free: Free::Each,
        pids: 0,
        rows: 2,
        misses: 0,
        won: true,
    };
    for (misses, steps) in turns {
        world.misses = *misses;
        let plan = plan_of(&limits, Planned::Install, 7);
        let told = drive(alloc, &limits, &mut change, &mut spares, plan, &mut world);
        let Some((log, end)) = told else {
            return false;
        };
        if log.as_str().trim_start() != *steps || end != Some(End::Won) {
            return false;
        }
    }
    true
}

#[test]
fn takes_where_it_took_last(rt: HostRuntime) {
    for (place, (rows, turns)) in TURNS.iter().enumerate() {
        assert!(rt; all_go(rt.alloc(), *rows, turns), "turns {place}");
    }
}
