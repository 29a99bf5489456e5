//! Pages backward: their keys descend, and the next page goes on at the greatest key below the leaf.

use crate::numbered::{LIMITS, Part, Width, runs};
use crate::runs::{Rows, agree};
use shell_lines::Language;

// The steps are those of a lookup: read epoch, enter, slot 0, slot 1, one record, leave.
#[test]
fn an_empty_page_backward(rt: HostRuntime) {
    let rows: Rows<'_> = &[
        (b"begin 0 back =\nturn 0 5\n", b"", 0),
        (
            b"begin 0 back =\nturn 0 5\nturn 0 1\n",
            b"0 back 0 end\n",
            0,
        ),
        (b"begin 0 back a\nfinish 0\n", b"0 back 0 end\n", 0),
    ];
    agree(&rt, rt.alloc(), Language::Weave, rows);
    let rows: Rows<'_> = &[(b"back =\n", b"0 back 0 end\n", 0)];
    agree(&rt, rt.alloc(), Language::Script, rows);
}

const TWO_LEAVES: &[Part<'_>] = &[
    Part::Inserts(1, 17),
    Part::Adds(
        "begin 0 back k12\nfinish 0\n",
        "0 back 4 k12 v12 k11 v11 k10 v10 k09 v09 next =6b3038ffffffffffffffffffffffffffffffffffffffffffffffffffffffffffffffffffffffffffffffffffffffffffffffffffffffffffffffffffffffffff\n",
    ),
    Part::Adds(
        "begin 0 back k05\nfinish 0\n",
        "0 back 5 k05 v05 k04 v04 k03 v03 k02 v02 k01 v01 end\n",
    ),
    Part::Adds(
        "begin 0 back k99\nfinish 0\n",
        "\
        0 back 9 k17 v17 k16 v16 k15 v15 k14 v14 k13 v13 k12 v12 k11 v11 k10 v10 k09 v09 next \
        =6b3038ffffffffffffffffffffffffffffffffffffffffffffffffffffffffffffffffffffffffffffffffffffffffffffffffffffffffffffffffffffffffff\n",
    ),
    Part::Adds(
        "begin 0 back =6b3038ffffffffffffffffffffffffffffffffffffffffffffffffffffffffffffffffffffffffffffffffffffffffffffffffffffffffffffffffffffffffff\nfinish 0\n",
        "0 back 8 k08 v08 k07 v07 k06 v06 k05 v05 k04 v04 k03 v03 k02 v02 k01 v01 end\n",
    ),
    Part::Adds(
        "begin 0 back k09\nfinish 0\n",
        "0 back 1 k09 v09 next =6b3038ffffffffffffffffffffffffffffffffffffffffffffffffffffffffffffffffffffffffffffffffffffffffffffffffffffffffffffffffffffffffff\n",
    ),
    Part::Adds("begin 0 back k\nfinish 0\n", "0 back 0 end\n"),
    Part::Adds("begin 0 back =\nfinish 0\n", "0 back 0 end\n"),
    Part::Adds("begin 0 insert k085 y\nfinish 0\n", "0 inserted\n"),
    Part::Adds(
        "begin 0 back k084\nfinish 0\n",
        "0 back 8 k08 v08 k07 v07 k06 v06 k05 v05 k04 v04 k03 v03 k02 v02 k01 v01 end\n",
    ),
    Part::Adds(
        "begin 0 back k085\nfinish 0\n",
        "0 back 9 k085 y k08 v08 k07 v07 k06 v06 k05 v05 k04 v04 k03 v03 k02 v02 k01 v01 end\n",
    ),
];

// Of two leaves the first has k01 to k08, the second the rest. Before k09 comes the key of 64 bytes that begins with k08 and goes on with
// the greatest byte.
#[test]
fn pages_backward_of_two_leaves(rt: HostRuntime) {
    runs(&rt, rt.alloc(), LIMITS, Width::Two, TWO_LEAVES);
}

const WALK: &[Part<'_>] = &[
    Part::Inserts(1, 17),
    Part::Adds(
        "begin 0 back k17\nturn 0 2\nbegin 1 delete k16\nfinish 1\n",
        "1 deleted v16\n",
    ),
    Part::Adds(
        "finish 0\n",
        "\
        0 back 8 k17 v17 k15 v15 k14 v14 k13 v13 k12 v12 k11 v11 k10 v10 k09 v09 next \
        =6b3038ffffffffffffffffffffffffffffffffffffffffffffffffffffffffffffffffffffffffffffffffffffffffffffffffffffffffffffffffffffffffff\n",
    ),
    Part::Adds(
        "begin 1 insert k16 x\nfinish 1\nbegin 1 upsert k02 y\nfinish 1\n",
        "1 inserted\n1 replaced v02\n",
    ),
    Part::Adds(
        "begin 0 back =6b3038ffffffffffffffffffffffffffffffffffffffffffffffffffffffffffffffffffffffffffffffffffffffffffffffffffffffffffffffffffffffffff\nfinish 0\n",
        "0 back 8 k08 v08 k07 v07 k06 v06 k05 v05 k04 v04 k03 v03 k02 y k01 v01 end\n",
    ),
];

// From each page's next to the beginning, while another actor changes pages that were not shown yet and pages that were.
#[test]
fn a_walk_backward_under_changes(rt: HostRuntime) {
    runs(&rt, rt.alloc(), LIMITS, Width::Two, WALK);
}

const REMOVAL: &[Part<'_>] = &[
    Part::Inserts(1, 17),
    Part::Deletes(17, 13),
    Part::Adds("begin 0 delete k12\n", ""),
    Part::Adds(
        "until 0 hold\nbegin 1 back k11\nfinish 1\n",
        "1 back 3 k11 v11 k10 v10 k09 v09 next =6b3038ffffffffffffffffffffffffffffffffffffffffffffffffffffffffffffffffffffffffffffffffffffffffffffffffffffffffffffffffffffffffff\n",
    ),
    Part::Adds(
        "until 0 remove\nbegin 1 back k11\nfinish 1\n",
        "1 back 3 k11 v11 k10 v10 k09 v09 next =6b3038ffffffffffffffffffffffffffffffffffffffffffffffffffffffffffffffffffffffffffffffffffffffffffffffffffffffffffffffffffffffffff\n",
    ),
    Part::Adds(
        "until 0 merge\nbegin 1 back k11\nfinish 1\n",
        "1 back 11 k11 v11 k10 v10 k09 v09 k08 v08 k07 v07 k06 v06 k05 v05 k04 v04 k03 v03 k02 v02 k01 v01 end\n",
    ),
    Part::Adds(
        "until 0 unterm\nbegin 1 back k11\nfinish 1\n",
        "1 back 11 k11 v11 k10 v10 k09 v09 k08 v08 k07 v07 k06 v06 k05 v05 k04 v04 k03 v03 k02 v02 k01 v01 end\n",
    ),
    Part::Adds(
        "until 0 clear\nbegin 1 back k11\nfinish 1\n",
        "1 back 11 k11 v11 k10 v10 k09 v09 k08 v08 k07 v07 k06 v06 k05 v05 k04 v04 k03 v03 k02 v02 k01 v01 end\n",
    ),
    Part::Adds(
        "finish 0\nbegin 1 back k99\nfinish 1\n",
        "0 deleted v12\n1 back 11 k11 v11 k10 v10 k09 v09 k08 v08 k07 v07 k06 v06 k05 v05 k04 v04 k03 v03 k02 v02 k01 v01 end\n",
    ),
];

// The second leaf has k09 to k12, and the delete of k12 removes it: from the merge on its keys are in the first leaf.
#[test]
fn pages_backward_between_the_stages_of_a_removal(rt: HostRuntime) {
    runs(&rt, rt.alloc(), LIMITS, Width::Two, REMOVAL);
}

// The ninth of seventeen keys is the low key of the second leaf. Before one that ends in 0 comes the key without that byte; one of 64 bytes
// is followed downward by one of 64 bytes; any other one is filled up.
#[test]
fn keys_before_a_leaf(rt: HostRuntime) {
    let rows: Rows<'_> = &[
        (
            b"insert a 1\ninsert b 1\ninsert c 1\ninsert d 1\ninsert e 1\ninsert f 1\ninsert g 1\ninsert h 1\ninsert =6900 1\ninsert j 1\ninsert k 1\n\
            insert l 1\ninsert m 1\ninsert n 1\ninsert o 1\ninsert p 1\ninsert q 1\nback j\nback i\nback =6900\n",
            b"0 inserted\n0 inserted\n0 inserted\n0 inserted\n0 inserted\n0 inserted\n0 inserted\n0 inserted\n0 inserted\n0 inserted\n0 inserted\n0 inserted\n\
            0 inserted\n0 inserted\n0 inserted\n0 inserted\n0 inserted\n0 back 2 j 1 =6900 1 next i\n0 back 8 h 1 g 1 f 1 e 1 d 1 c 1 b 1 a 1 end\n\
            0 back 1 =6900 1 next i\n",
            0,
        ),
        (
            b"insert a 1\ninsert b 1\ninsert c 1\ninsert d 1\ninsert e 1\ninsert f 1\ninsert g 1\ninsert h 1\n\
            insert iiiiiiiiiiiiiiiiiiiiiiiiiiiiiiiiiiiiiiiiiiiiiiiiiiiiiiiiiiiiiii2 1\ninsert j 1\ninsert k 1\ninsert l 1\ninsert m 1\ninsert n 1\n\
            insert o 1\ninsert p 1\ninsert q 1\nback j\nback iiiiiiiiiiiiiiiiiiiiiiiiiiiiiiiiiiiiiiiiiiiiiiiiiiiiiiiiiiiiiii1\n",
            b"0 inserted\n0 inserted\n0 inserted\n0 inserted\n0 inserted\n0 inserted\n0 inserted\n0 inserted\n0 inserted\n0 inserted\n0 inserted\n0 inserted\n\
            0 inserted\n0 inserted\n0 inserted\n0 inserted\n0 inserted\n\
            0 back 2 j 1 iiiiiiiiiiiiiiiiiiiiiiiiiiiiiiiiiiiiiiiiiiiiiiiiiiiiiiiiiiiiiii2 1 next \
            iiiiiiiiiiiiiiiiiiiiiiiiiiiiiiiiiiiiiiiiiiiiiiiiiiiiiiiiiiiiiii1\n0 back 8 h 1 g 1 f 1 e 1 d 1 c 1 b 1 a 1 end\n",
            0,
        ),
        (
            b"insert a 1\ninsert b 1\ninsert c 1\ninsert d 1\ninsert e 1\ninsert f 1\ninsert g 1\ninsert h 1\ninsert i 1\ninsert j 1\ninsert k 1\ninsert l 1\n\
            insert m 1\ninsert n 1\ninsert o 1\ninsert p 1\ninsert q 1\nback j\n",
            b"0 inserted\n0 inserted\n0 inserted\n0 inserted\n0 inserted\n0 inserted\n0 inserted\n0 inserted\n0 inserted\n0 inserted\n0 inserted\n0 inserted\n\
            0 inserted\n0 inserted\n0 inserted\n0 inserted\n0 inserted\n\
            0 back 2 j 1 i 1 next \
            =68ffffffffffffffffffffffffffffffffffffffffffffffffffffffffffffffffffffffffffffffffffffffffffffffffffffffffffffffffffffffffffffff\n",
            0,
        ),
    ];
    agree(&rt, rt.alloc(), Language::Script, rows);
}

#[test]
fn keys_and_values_of_a_page_backward_are_tokens(rt: HostRuntime) {
    let rows: Rows<'_> = &[(
        b"insert = =\ninsert =20 b\ninsert c =3d\nback d\nback c\nback b\nback =\n",
        b"0 inserted\n0 inserted\n0 inserted\n0 back 3 c =3d =20 b = = end\n0 back 3 c =3d =20 b = = end\n0 back 2 =20 b = = end\n0 back 1 = = end\n",
        0,
    )];
    agree(&rt, rt.alloc(), Language::Script, rows);
}

#[test]
fn refused_pages_backward(rt: HostRuntime) {
    let rows: Rows<'_> = &[
        (b"back\n", b"refused line 1: 11\n", 1),
        (b"back a b\n", b"refused line 1: 11\n", 1),
        (b"back =6\n", b"refused line 1: 11\n", 1),
        (b"BACK a\n", b"refused line 1: 11\n", 1),
        (b"back  a\n", b"refused line 1: 11\n", 1),
        (
            b"back =ffffffffffffffffffffffffffffffffffffffffffffffffffffffffffffffffffffffffffffffffffffffffffffffffffffffffffffffffffffffffffffffffff\n",
            b"refused line 1: 1\n",
            1,
        ),
    ];
    agree(&rt, rt.alloc(), Language::Script, rows);
}
