//! Cursor pages.

use crate::numbered::{LIMITS, Part, Width, runs};
use crate::runs::{Rows, agree};
use shell_lines::Language;

// The steps are those of a lookup: read epoch, enter, slot 0, slot 1, one record, leave.
#[test]
fn an_empty_page(rt: HostRuntime) {
    let rows: Rows<'_> = &[
        (b"begin 0 page =\nturn 0 5\n", b"", 0),
        (
            b"begin 0 page =\nturn 0 5\nturn 0 1\n",
            b"0 page 0 end\n",
            0,
        ),
        (b"begin 0 page =\nfinish 0\n", b"0 page 0 end\n", 0),
    ];
    agree(&rt, rt.alloc(), Language::Weave, rows);
    let rows: Rows<'_> = &[(b"page =\n", b"0 page 0 end\n", 0)];
    agree(&rt, rt.alloc(), Language::Script, rows);
}

const TWO_LEAVES: &[Part<'_>] = &[
    Part::Inserts(1, 17),
    Part::Adds(
        "begin 0 page k05\nfinish 0\n",
        "0 page 4 k05 v05 k06 v06 k07 v07 k08 v08 next k09\n",
    ),
    Part::Adds("begin 0 insert k085 y\nfinish 0\n", "0 inserted\n"),
    Part::Adds(
        "begin 0 page k16\nfinish 0\n",
        "0 page 2 k16 v16 k17 v17 end\n",
    ),
    Part::Adds(
        "begin 0 page k081\nfinish 0\n",
        "0 page 1 k085 y next k09\n",
    ),
    Part::Adds("begin 0 page k18\nfinish 0\n", "0 page 0 end\n"),
];

// Of two leaves the first has k01 to k08, the second the rest.
#[test]
fn pages_of_two_leaves(rt: HostRuntime) {
    runs(&rt, rt.alloc(), LIMITS, Width::Two, TWO_LEAVES);
}

const WALK: &[Part<'_>] = &[
    Part::Inserts(1, 17),
    Part::Adds(
        "begin 0 page =\nturn 0 2\nbegin 1 delete k02\nfinish 1\n",
        "1 deleted v02\n",
    ),
    Part::Adds(
        "finish 0\n",
        "0 page 7 k01 v01 k03 v03 k04 v04 k05 v05 k06 v06 k07 v07 k08 v08 next k09\n",
    ),
    Part::Adds(
        "begin 1 insert k02 x\nfinish 1\nbegin 1 upsert k10 y\nfinish 1\n",
        "1 inserted\n1 replaced v10\n",
    ),
    Part::Adds(
        "begin 0 page k09\nfinish 0\n",
        "0 page 9 k09 v09 k10 y k11 v11 k12 v12 k13 v13 k14 v14 k15 v15 k16 v16 k17 v17 end\n",
    ),
];

// From each page's next to the end, while another actor changes pages that were not shown yet and pages that were.
#[test]
fn a_walk_under_changes(rt: HostRuntime) {
    runs(&rt, rt.alloc(), LIMITS, Width::Two, WALK);
}

#[test]
fn keys_and_values_of_a_page_are_tokens(rt: HostRuntime) {
    let rows: Rows<'_> = &[(
        b"insert = =\ninsert =20 b\ninsert c =3d\npage =\n",
        b"0 inserted\n0 inserted\n0 inserted\n0 page 3 = = =20 b c =3d end\n",
        0,
    )];
    agree(&rt, rt.alloc(), Language::Script, rows);
}
