//! Rows and page identifiers that are used again, and those that an actor which stays inside keeps out of use.

use crate::numbered::{LIMITS, Part, Width, runs};

// The greatest epoch, which is never retired.
const LAST_EPOCH: u64 = 1 << 62;

const UPSERT: &str = "begin 0 upsert a x\nfinish 0\n";

const CONSOLIDATED: &[&[Part<'_>]] = &[
    &[
        Part::Inserts(1, 8),
        Part::Adds(
            "begin 0 insert k09 v09\nturn 0 24\nturn 0 1\n",
            "0 inserted\n",
        ),
        Part::Adds(
            "begin 0 insert k10 v10\nturn 0 14\nturn 0 1\n",
            "0 inserted\n",
        ),
        Part::Lists(10),
        Part::Pairs(1, 10),
    ],
    &[
        Part::Inserts(1, 8),
        Part::Adds(
            "begin 0 delete k01\nturn 0 24\nturn 0 1\nbegin 0 get k01\nfinish 0\nlist\n",
            "0 deleted v01\n0 none\npairs 7\n",
        ),
        Part::Pairs(2, 8),
    ],
    &[
        Part::Inserts(1, 8),
        Part::Adds(
            "begin 0 insert k09 v09\nuntil 0 base\nfinish 0\n",
            "0 inserted\n",
        ),
        Part::Adds(
            "begin 0 insert k10 v10\nturn 0 14\nturn 0 1\n",
            "0 inserted\n",
        ),
        Part::Lists(10),
        Part::Pairs(1, 10),
    ],
];

// The ninth insert consolidates, in 25 turns, as a delete would. The tenth frees the rows of the old chain by four turns more than its own eleven: it
// reads the epoch, retires it, reads what the other actor announces, and frees a word. A turn after the last would be refused.
#[test]
fn a_page_is_consolidated(rt: HostRuntime) {
    for parts in CONSOLIDATED {
        runs(&rt, rt.alloc(), LIMITS, Width::Two, parts);
    }
}

const KEPT: &[Part<'_>] = &[
    Part::Adds("begin 1 get a\nturn 1 2\n", ""),
    Part::Adds(UPSERT, "0 set\n"),
    Part::Repeats(55, UPSERT, "0 replaced x\n"),
    Part::Adds(UPSERT, "0 full\n"),
    Part::Adds("finish 1\n", "1 value x\n"),
    Part::Adds(UPSERT, "0 replaced x\n"),
];

// While a get stays at its second turn, fifty-six updates and six consolidations use the 62 free rows, and the next operation finds
// none for a seventh one. Once the get has left, the update after it frees what it needs.
#[test]
fn an_actor_inside_keeps_rows(rt: HostRuntime) {
    for epoch in [1, LAST_EPOCH] {
        runs(&rt, rt.alloc(), (2, 64, 64, epoch), Width::Two, KEPT);
    }
}

const REUSED: &[Part<'_>] = &[
    Part::Adds(UPSERT, "0 set\n"),
    Part::Repeats(999, UPSERT, "0 replaced x\n"),
];

// The epoch is not retired any more; rows are used again all the same, as the other actor is outside.
#[test]
fn rows_are_reused_in_the_last_epoch(rt: HostRuntime) {
    runs(&rt, rt.alloc(), (2, 64, 64, LAST_EPOCH), Width::Two, REUSED);
}

const SPARE: &[Part<'_>] = &[
    Part::Adds(
        "begin 2 get a\nturn 2 2\nbegin 0 insert a 1\nturn 0 8\n",
        "",
    ),
    Part::Adds(
        "begin 1 insert a 2\nfinish 1\nfinish 0\n",
        "1 inserted\n0 exists 2\n",
    ),
    Part::Adds("begin 1 upsert a x\nfinish 1\n", "1 replaced 2\n"),
    Part::Repeats(53, "begin 1 upsert a x\nfinish 1\n", "1 replaced x\n"),
    Part::Adds("begin 1 upsert a x\nfinish 1\n", "1 full\n"),
    Part::Adds("begin 0 upsert a y\nfinish 0\n", "0 replaced x\n"),
];

// A get stays at its second turn all the while. An insert that loses its exchange keeps the row that it took; the other insert,
// fifty-four updates and six consolidations use the 61 others. The next update finds none, but the first actor still has its own.
#[test]
fn a_spare_row_is_used_first(rt: HostRuntime) {
    runs(&rt, rt.alloc(), (3, 64, 64, 1), Width::Two, SPARE);
}
