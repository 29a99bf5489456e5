//! What lines print, and why they are refused.

use crate::runs::{Rows, agree};
use shell_lines::Language;

#[test]
fn replies(rt: HostRuntime) {
    let rows: Rows<'_> = &[
        (b"begin 0 get a\nturn 0 5\n", b"", 0),
        (b"begin 0 get a\nturn 0 5\nturn 0 1\n", b"0 none\n", 0),
        (b"begin 0 insert a 1\nturn 0 9\n", b"", 0),
        (
            b"begin 0 insert a 1\nturn 0 9\nturn 0 1\nbegin 0 get a\nfinish 0\n",
            b"0 inserted\n0 value 1\n",
            0,
        ),
        (
            b"begin 0 insert a 1\nturn 0 8\nbegin 1 insert a 2\nfinish 1\nturn 0 5\n",
            b"1 inserted\n",
            0,
        ),
        (
            b"begin 0 insert a 1\nturn 0 8\nbegin 1 insert a 2\nfinish 1\nturn 0 5\nturn 0 1\n",
            b"1 inserted\n0 exists 2\n",
            0,
        ),
        (
            b"begin 0 insert a 1\nturn 0 8\nlist\nuntil 0 put\nlist\nturn 0 1\nbegin 1 get a\nfinish 1\n",
            b"pairs 0\npairs 1\na 1\n0 inserted\n1 value 1\n",
            0,
        ),
        (
            b"begin 0 insert a 1\nbegin 1 get a\nturn 0 1\nturn 1 1\nturn 0 1\nturn 1 1\nturn 0 1\nturn 1 1\nturn 0 1\nturn 1 1\nturn 0 1\nturn 1 1\nturn 0 1\nturn 1 1\nturn 0 4\n",
            b"1 none\n0 inserted\n",
            0,
        ),
        (
            b"begin 0 delete a\nturn 0 6\nlist\n",
            b"0 absent\npairs 0\n",
            0,
        ),
        (
            b"begin 0 upsert a 1\nfinish 0\nbegin 1 upsert a 2\nfinish 1\nbegin 0 delete a\nfinish 0\nbegin 0 get a\nfinish 0\nlist\n",
            b"0 set\n1 replaced 1\n0 deleted 2\n0 none\npairs 0\n",
            0,
        ),
        (
            b"begin 0 insert = =\nfinish 0\nbegin 0 get =\nfinish 0\nlist\n",
            b"0 inserted\n0 value =\npairs 1\n= =\n",
            0,
        ),
        (
            b"begin 0 insert a 1\nfinish 0\nbegin 0 get a\nfinish 0\nlist\n",
            b"0 inserted\n0 value 1\npairs 1\na 1\n",
            0,
        ),
    ];
    agree(&rt, rt.alloc(), Language::Weave, rows);
}

// The exchange loses; then a round of four reads, and the row that was kept is placed and exchanged.
#[test]
fn a_lost_exchange(rt: HostRuntime) {
    let rows: Rows<'_> = &[
        (
            b"begin 0 insert a 1\nturn 0 8\nbegin 1 insert b 2\nturn 1 9\nturn 1 1\nturn 0 7\n",
            b"1 inserted\n",
            0,
        ),
        (
            b"begin 0 insert a 1\nturn 0 8\nbegin 1 insert b 2\nfinish 1\nturn 0 6\nlist\nuntil 0 put\nlist\nturn 0 1\nbegin 0 get b\nfinish 0\n",
            b"1 inserted\npairs 1\nb 2\npairs 2\na 1\nb 2\n0 inserted\n0 value 2\n",
            0,
        ),
    ];
    agree(&rt, rt.alloc(), Language::Weave, rows);
}

#[test]
fn refused_lines(rt: HostRuntime) {
    let rows: Rows<'_> = &[
        (
            b"\
            begin 0 insert \
            =ffffffffffffffffffffffffffffffffffffffffffffffffffffffffffffffffffffffffffffffffffffffffffffffffffffffffffffffffffffffffffffffff \
            =00000000000000000000000000000000000000000000000000000000000000000000000000000000000000000000000000000000000000000000000000000000\nfinish 0\n\
            begin 0 get \
            =ffffffffffffffffffffffffffffffffffffffffffffffffffffffffffffffffffffffffffffffffffffffffffffffffffffffffffffffffffffffffffffffffff\n",
            b"0 inserted\nrefused line 3: 1\n",
            1,
        ),
        (b"turn 3 1\n", b"refused line 1: 4\n", 1),
        (b"begin 0 get a\nbegin 0 get a\n", b"refused line 2: 5\n", 1),
        (b"turn 0 1\n", b"refused line 1: 6\n", 1),
        (b"begin 0 get\n", b"refused line 1: 11\n", 1),
        (b"begin 0 get =6\n", b"refused line 1: 11\n", 1),
        (b"turn 0 0\n", b"refused line 1: 11\n", 1),
        (b"turn 0 100001\n", b"refused line 1: 11\n", 1),
        (b"begin 0  get a\n", b"refused line 1: 11\n", 1),
        (b"begin 0 get a\r\n", b"refused line 1: 11\n", 1),
        (b"begin 0 get =GG\n", b"refused line 1: 11\n", 1),
        (b"begin 0 insert a\n", b"refused line 1: 11\n", 1),
        (
            b"begin 9 get =ffffffffffffffffffffffffffffffffffffffffffffffffffffffffffffffffffffffffffffffffffffffffffffffffffffffffffffffffffffffffffffffffff\n",
            b"refused line 1: 1\n",
            1,
        ),
        (
            b"begin 9 insert =ffffffffffffffffffffffffffffffffffffffffffffffffffffffffffffffffffffffffffffffffffffffffffffffffffffffffffffffffffffffffffffffffff\n",
            b"refused line 1: 11\n",
            1,
        ),
        (b"begin 2 get a\n", b"refused line 1: 4\n", 1),
    ];
    agree(&rt, rt.alloc(), Language::Weave, rows);
}

#[test]
fn odd_lines(rt: HostRuntime) {
    let rows: Rows<'_> = &[
        (b"", b"", 0),
        (b"\n\n\n", b"", 0),
        (b"list", b"pairs 0\n", 0),
        (
            b"\n\nbegin 0 get a\n\nbegin 0 get a\nlist\n",
            b"refused line 5: 5\n",
            1,
        ),
        (b"turn 0 1\nlist\n", b"refused line 1: 6\n", 1),
        (b"list \n", b"refused line 1: 11\n", 1),
        (b"begin 00 get a\nfinish 000\n", b"0 none\n", 0),
        (b"begin +0 get a\n", b"refused line 1: 11\n", 1),
        (
            b"begin 18446744073709551616 get a\n",
            b"refused line 1: 4\n",
            1,
        ),
        (b"turn 256 1\n", b"refused line 1: 4\n", 1),
        (b"begin 0 upsert a\n", b"refused line 1: 11\n", 1),
        (b"begin 0 delete a b\n", b"refused line 1: 11\n", 1),
        (b"begin 0 page a b\n", b"refused line 1: 11\n", 1),
        (b"begin 0 page\n", b"refused line 1: 11\n", 1),
        (b"begin 0 tidy =6\n", b"refused line 1: 11\n", 1),
        (
            b"begin 0 tidy =ffffffffffffffffffffffffffffffffffffffffffffffffffffffffffffffffffffffffffffffffffffffffffffffffffffffffffffffffffffffffffffffffff\n",
            b"refused line 1: 1\n",
            1,
        ),
        (b"begin 2 page a\n", b"refused line 1: 4\n", 1),
        (b"get a\n", b"refused line 1: 11\n", 1),
        (
            b"begin 0 insert =00fF =3d61\nfinish 0\nbegin 1 insert =6B k\nfinish 1\nlist\n",
            b"0 inserted\n1 inserted\npairs 2\n=00ff =3d61\nk k\n",
            0,
        ),
    ];
    agree(&rt, rt.alloc(), Language::Weave, rows);
}

#[test]
fn until_a_link(rt: HostRuntime) {
    let rows: Rows<'_> = &[
        (
            b"begin 0 insert a 1\nuntil 0 put\nlist\nturn 0 1\n",
            b"pairs 1\na 1\n0 inserted\n",
            0,
        ),
        (
            b"begin 0 insert a 1\nuntil 0 delete\nbegin 1 delete a\nuntil 1 delete\nlist\nuntil 1 delete\n",
            b"0 inserted\npairs 0\n1 deleted 1\n",
            0,
        ),
        (b"until 0 put\n", b"refused line 1: 6\n", 1),
        (b"until 2 put\n", b"refused line 1: 4\n", 1),
        (b"until 0\n", b"refused line 1: 11\n", 1),
        (b"until 0 put put\n", b"refused line 1: 11\n", 1),
        (b"until 0 PUT\n", b"refused line 1: 11\n", 1),
        (b"until 0 ready\n", b"refused line 1: 11\n", 1),
        (b"until 0 undo\n", b"refused line 1: 11\n", 1),
        // a lookup is done before an exchange with any link comes
        (b"begin 0 get a\nuntil 0 put\n", b"0 none\n", 0),
        (b"begin 0 get a\nuntil 0 delete\n", b"0 none\n", 0),
        (b"begin 0 get a\nuntil 0 base\n", b"0 none\n", 0),
        (b"begin 0 get a\nuntil 0 split\n", b"0 none\n", 0),
        (b"begin 0 get a\nuntil 0 term\n", b"0 none\n", 0),
        (b"begin 0 get a\nuntil 0 root\n", b"0 none\n", 0),
        (b"begin 0 get a\nuntil 0 hold\n", b"0 none\n", 0),
        (b"begin 0 get a\nuntil 0 remove\n", b"0 none\n", 0),
        (b"begin 0 get a\nuntil 0 merge\n", b"0 none\n", 0),
        (b"begin 0 get a\nuntil 0 unterm\n", b"0 none\n", 0),
        (b"begin 0 get a\nuntil 0 clear\n", b"0 none\n", 0),
    ];
    agree(&rt, rt.alloc(), Language::Weave, rows);
}
