//! Upkeep that is asked for.

use crate::numbered::{LIMITS, Part, Width, runs};
use crate::runs::{Rows, agree};
use shell_lines::Language;

// Fourteen steps: the epoch, the entry, two slots, two records, a word of free rows, the take, the place, the exchange, two slots,
// one record, the leave. The next lookup reads one record.
#[test]
fn a_delta_is_tidied(rt: HostRuntime) {
    let rows: Rows<'_> = &[
        (
            b"begin 0 insert k01 v01\nfinish 0\nbegin 0 tidy k01\nturn 0 13\n",
            b"0 inserted\n",
            0,
        ),
        (
            b"begin 0 insert k01 v01\nfinish 0\nbegin 0 tidy k01\nturn 0 13\nturn 0 1\nbegin 0 get k01\nturn 0 5\n",
            b"0 inserted\n0 tidied\n",
            0,
        ),
        (
            b"begin 0 insert k01 v01\nfinish 0\nbegin 0 tidy k01\nturn 0 13\nturn 0 1\nbegin 0 get k01\nturn 0 5\nturn 0 1\n",
            b"0 inserted\n0 tidied\n0 value v01\n",
            0,
        ),
        (
            b"begin 0 insert k01 v01\nfinish 0\nbegin 0 tidy k01\nturn 0 9\nuntil 0 base\nturn 0 3\n",
            b"0 inserted\n",
            0,
        ),
        (
            b"begin 0 insert k01 v01\nfinish 0\nbegin 0 tidy k01\nuntil 0 base\nfinish 0\nlist\n",
            b"0 inserted\n0 tidied\npairs 1\nk01 v01\n",
            0,
        ),
        (b"begin 0 tidy a\nturn 0 5\n", b"", 0),
        (b"begin 0 tidy a\nturn 0 5\nturn 0 1\n", b"0 tidied\n", 0),
    ];
    agree(&rt, rt.alloc(), Language::Weave, rows);
}

const TIDY_LEAF: &[Part<'_>] = &[
    Part::Inserts(1, 3),
    Part::Adds("begin 0 tidy k09\nfinish 0\n", "0 tidied\n"),
    Part::Adds("begin 0 tidy k09\nturn 0 9\n", ""),
    Part::Adds("turn 0 1\n", "0 tidied\n"),
    Part::Adds("begin 0 tidy k09\nuntil 0 base\n", "0 tidied\n"),
    Part::Adds(
        "begin 0 page k01\nfinish 0\n",
        "0 page 3 k01 v01 k02 v02 k03 v03 end\n",
    ),
];

// The key has no value: its leaf is tidied all the same. The second time nothing is due, and no link is made; four steps free what the
// first one took out: read epoch, retire, the other actor, a word of rows.
#[test]
fn a_tidy_leaf_stays(rt: HostRuntime) {
    runs(&rt, rt.alloc(), LIMITS, Width::Two, TIDY_LEAF);
}

const FULL_LEAF: &[Part<'_>] = &[
    Part::Inserts(1, 16),
    Part::Adds(
        "begin 0 page k15\nfinish 0\n",
        "0 page 2 k15 v15 k16 v16 end\n",
    ),
    Part::Adds("begin 0 tidy k01\nfinish 0\n", "0 tidied\n"),
    Part::Adds(
        "begin 0 page k01\nfinish 0\n",
        "0 page 8 k01 v01 k02 v02 k03 v03 k04 v04 k05 v05 k06 v06 k07 v07 k08 v08 next k09\n",
    ),
    Part::Adds(
        "begin 0 page k09\nfinish 0\n",
        "0 page 8 k09 v09 k10 v10 k11 v11 k12 v12 k13 v13 k14 v14 k15 v15 k16 v16 end\n",
    ),
];

// Sixteen keys: the leaf is consolidated, split, and consolidated again, and there is a root over both parts.
#[test]
fn a_tidying_splits_a_leaf(rt: HostRuntime) {
    runs(&rt, rt.alloc(), LIMITS, Width::Two, FULL_LEAF);
}

const NO_ROW: &[Part<'_>] = &[
    Part::Adds("begin 1 get a\nturn 1 2\n", ""),
    Part::Adds("begin 0 upsert a x\nfinish 0\n", "0 set\n"),
    Part::Repeats(55, "begin 0 upsert a x\nfinish 0\n", "0 replaced x\n"),
    Part::Adds(
        "begin 0 tidy a\nfinish 0\nbegin 0 page =\nfinish 0\n",
        "0 full\n0 page 1 a x end\n",
    ),
];

// A get stays at its second turn all the while. Fifty-six updates and six consolidations use the 62 free rows, as the last of them
// leaves eight deltas.
#[test]
fn no_row_is_left_to_tidy(rt: HostRuntime) {
    runs(&rt, rt.alloc(), (2, 64, 64, 1), Width::Two, NO_ROW);
}
