//! Changes of large trees step by step: which words a taking reads, and which rows are wide enough.

use crate::changes::{Case, Free, Planned, goes};
use bw_model::{Limits, Widths};
use change_machine::{End, Kind, Spares};
use std::alloc::Global;

/// Whether a change of a large tree goes as the case says, over this row, where these numbers may be free.
fn goes_in_large(
    alloc: Global,
    (pids, rows): (u64, u64),
    head: u32,
    free: Free,
    case: &Case,
) -> bool {
    let Ok(limits) = Limits::large(1, pids, rows, 1) else {
        return false;
    };
    if head == 0 || u64::from(head) >= limits.rows {
        return false;
    }
    goes(alloc, &limits, &mut Spares::new(), head, free, case)
}

/// PIDs and rows of a large tree, the newest row of page 1, which numbers may be free, and an actor's first change.
const IN_LARGE: [((u64, u64), u32, Free, Case); 4] = [
    // Takes a row of word 0.
    (
        (64, 256),
        7,
        Free::First,
        (
            Planned::Install,
            (0, 2, true),
            "rows 0 row 3 3=7 1:7>3",
            (End::Won, None, &[]),
        ),
    ),
    // Is full once each word has none.
    (
        (64, 256),
        7,
        Free::First,
        (
            Planned::Install,
            (0, 0, true),
            "rows 0 rows 1 rows 2 rows 3",
            (End::Full(Kind::Row), None, &[]),
        ),
    ),
    // Takes a row of the last word.
    (
        (64, 256),
        7,
        Free::Last,
        (
            Planned::Install,
            (0, 2, true),
            "rows 0 rows 1 rows 2 rows 3 row 254 254=7 1:7>254",
            (End::Won, None, &[]),
        ),
    ),
    // Takes a PID and rows of the greatest limits, over a row with a large number.
    (
        (4_194_304, 67_108_864),
        67_108_863,
        Free::First,
        (
            Planned::Split,
            (2, 2, true),
            "pids 0 pid 3 rows 0 row 3 rows 0 row 5 5=0 3:0>5 3=67108863 1:67108863>3",
            (End::Won, None, &[]),
        ),
    ),
];

#[test]
fn takes_numbers_in_a_large_tree(rt: HostRuntime) {
    for (size, head, free, case) in &IN_LARGE {
        assert!(rt;
            goes_in_large(rt.alloc(), *size, *head, *free, case),
            "{head}"
        );
    }
}

/// Whether a change goes as the case says in a large tree with a word of rows of each width, over row 7, where these numbers may be free.
fn goes_by_width(alloc: Global, free: Free, case: &Case) -> bool {
    let widths = Widths {
        narrow_rows: 64,
        wide_from: 128,
        narrow_words: 8,
        page_words: 24,
    };
    let Ok(limits) = Limits::with_widths(1, 128, 192, 1, widths) else {
        return false;
    };
    if limits.rows <= 7 {
        return false;
    }
    goes(alloc, &limits, &mut Spares::new(), 7, free, case)
}

/// Which numbers may be free, and an actor's first change.
const BY_WIDTH: [(Free, Case); 5] = [
    // A record with one key is placed in a narrow row.
    (
        Free::First,
        (
            Planned::Install,
            (0, 2, true),
            "rows 0 row 3 3=7 1:7>3",
            (End::Won, None, &[]),
        ),
    ),
    // It is placed in a wider one, if no other is free.
    (
        Free::Last,
        (
            Planned::Install,
            (0, 2, true),
            "rows 0 rows 1 rows 2 row 190 190=7 1:7>190",
            (End::Won, None, &[]),
        ),
    ),
    // A base isn't placed in a narrow row.
    (
        Free::First,
        (
            Planned::Root,
            (1, 2, true),
            "pids 0 pid 5 rows 1 rows 2",
            (End::Full(Kind::Row), Some(5), &[]),
        ),
    ),
    // It is placed in a wide one, if there is no row for pages.
    (
        Free::Last,
        (
            Planned::Root,
            (1, 1, true),
            "pids 0 pids 1 pid 127 rows 1 rows 2 row 191 191=0 127:0>191 0:1>127",
            (End::Won, None, &[]),
        ),
    ),
    // Of two rows the base has the last one, which is to be wider.
    (
        Free::Last,
        (
            Planned::Split,
            (1, 2, true),
            "pids 0 pids 1 pid 127 rows 0 rows 1 rows 2 row 190 rows 1 rows 2 row 191 191=0 127:0>191 190=7 1:7>190",
            (End::Won, None, &[]),
        ),
    ),
];

#[test]
fn takes_rows_that_are_wide_enough(rt: HostRuntime) {
    for (place, (free, case)) in BY_WIDTH.iter().enumerate() {
        assert!(rt; goes_by_width(rt.alloc(), *free, case), "rule {place}");
    }
}
