//! Deletions by value and additions: what they print, and some whose exchange is lost.

use crate::runs::{Rows, agree};
use shell_lines::Language;

#[test]
fn deletions_by_value_of_a_script(rt: HostRuntime) {
    let rows: Rows<'_> = &[
        (
            b"delete_if a 1\ninsert a 1\ndelete_if a 2\nget a\ndelete_if a 1\nget a\ndelete_if a 1\nlist\n",
            b"0 absent\n0 inserted\n0 differs 1\n0 value 1\n0 deleted 1\n0 none\n0 absent\npairs 0\n",
            0,
        ),
        (
            b"insert a 11\ndelete_if a 1\ndelete_if a 111\nlist\ndelete_if a 11\nlist\n",
            b"0 inserted\n0 differs 11\n0 differs 11\npairs 1\na 11\n0 deleted 11\npairs 0\n",
            0,
        ),
        (
            b"insert = =\ndelete_if = a\ndelete_if = =00\ndelete_if = =\ndelete_if = =\nlist\n",
            b"0 inserted\n0 differs =\n0 differs =\n0 deleted =\n0 absent\npairs 0\n",
            0,
        ),
        (
            b"insert a 1\ninsert b 1\ndelete_if b 1\ninsert b 2\ndelete_if b 1\nlist\n",
            b"0 inserted\n0 inserted\n0 deleted 1\n0 inserted\n0 differs 2\npairs 2\na 1\nb 2\n",
            0,
        ),
    ];
    agree(&rt, rt.alloc(), Language::Script, rows);
}

// A sum has eight bytes, the highest first, and goes round at 2^64; a value of another length stays.
#[test]
fn additions_of_a_script(rt: HostRuntime) {
    let rows: Rows<'_> = &[
        (
            b"add a 5\nadd a 7\nget a\nadd a 18446744073709551615\nget a\nlist\n",
            b"0 set\n0 replaced =0000000000000005\n0 value =000000000000000c\n0 replaced =000000000000000c\n0 value =000000000000000b\npairs 1\na =000000000000000b\n",
            0,
        ),
        (
            b"add a 18446744073709551615\nadd a 1\nadd a 18446744073709551614\nadd a 3\nget a\n",
            b"0 set\n0 replaced =ffffffffffffffff\n0 replaced =0000000000000000\n0 replaced =fffffffffffffffe\n0 value =0000000000000001\n",
            0,
        ),
        (
            b"add a 0\nget a\nadd a 0\nadd a 000000000000000000000000000258\nget a\n",
            b"0 set\n0 value =0000000000000000\n0 replaced =0000000000000000\n0 replaced =0000000000000000\n0 value =0000000000000102\n",
            0,
        ),
        (
            b"add a 7017280452245743464\nget a\n",
            b"0 set\n0 value abcdefgh\n",
            0,
        ),
        (
            b"insert a 7\nadd a 1\nget a\nupsert a =\nadd a 1\ndelete a\nadd a 1\nlist\n",
            b"0 inserted\n0 differs 7\n0 value 7\n0 replaced 7\n0 differs =\n0 deleted =\n0 set\npairs 1\na =0000000000000001\n",
            0,
        ),
        (
            b"insert a 1234567\nadd a 1\nupsert a 123456789\nadd a 1\nupsert a 12345678\nadd a 1\nget a\n",
            b"0 inserted\n0 differs 1234567\n0 replaced 1234567\n0 differs 123456789\n0 replaced 123456789\n0 replaced 12345678\n0 value 12345679\n",
            0,
        ),
        (
            b"insert a =00000000000000ff\nadd a 1\nget a\nswap a =0000000000000100 1234567~\nadd a 1\nget a\n",
            b"0 inserted\n0 replaced =00000000000000ff\n0 value =0000000000000100\n0 swapped\n0 replaced 1234567~\n0 value =313233343536377f\n",
            0,
        ),
    ];
    agree(&rt, rt.alloc(), Language::Script, rows);
}

// The nine turns end just before actor 0's exchange. Where that loses, six turns more read the page anew, and the next one answers by
// the value that the key has by then.
#[test]
fn a_deletion_by_value_is_lost(rt: HostRuntime) {
    let rows: Rows<'_> = &[
        (
            b"begin 0 insert a 1\nfinish 0\nbegin 0 delete_if a 1\nturn 0 9\n",
            b"0 inserted\n",
            0,
        ),
        (
            b"begin 0 insert a 1\nfinish 0\nbegin 0 delete_if a 1\nturn 0 9\nlist\nuntil 0 delete\nlist\nturn 0 1\n",
            b"0 inserted\npairs 1\na 1\npairs 0\n0 deleted 1\n",
            0,
        ),
        (
            b"begin 0 insert a 1\nfinish 0\nbegin 0 delete_if a 1\nturn 0 9\nbegin 1 upsert a 3\nfinish 1\nturn 0 6\n",
            b"0 inserted\n1 replaced 1\n",
            0,
        ),
        (
            b"begin 0 insert a 1\nfinish 0\nbegin 0 delete_if a 1\nturn 0 9\nbegin 1 upsert a 3\nfinish 1\nturn 0 6\nturn 0 1\nlist\n",
            b"0 inserted\n1 replaced 1\n0 differs 3\npairs 1\na 3\n",
            0,
        ),
        (
            b"begin 0 insert a 1\nfinish 0\nbegin 0 delete_if a 1\nturn 0 9\nbegin 1 delete_if a 1\nfinish 1\nfinish 0\nlist\n",
            b"0 inserted\n1 deleted 1\n0 absent\npairs 0\n",
            0,
        ),
    ];
    agree(&rt, rt.alloc(), Language::Weave, rows);
}

// The lost addition adds to what the key has by then: its record is made anew.
#[test]
fn an_addition_is_lost(rt: HostRuntime) {
    let rows: Rows<'_> = &[
        (
            b"begin 0 add a 5\nfinish 0\nbegin 0 add a 7\nturn 0 9\n",
            b"0 set\n",
            0,
        ),
        (
            b"begin 0 add a 5\nfinish 0\nbegin 0 add a 7\nturn 0 9\nbegin 1 add a 100\nfinish 1\nturn 0 6\nlist\nuntil 0 put\nlist\nturn 0 1\n",
            b"0 set\n1 replaced =0000000000000005\npairs 1\na =0000000000000069\npairs 1\na =0000000000000070\n0 replaced =0000000000000069\n",
            0,
        ),
        (
            b"begin 0 add a 5\nfinish 0\nbegin 0 add a 7\nturn 0 9\nbegin 1 upsert a x\nfinish 1\nturn 0 6\n",
            b"0 set\n1 replaced =0000000000000005\n",
            0,
        ),
        (
            b"begin 0 add a 5\nfinish 0\nbegin 0 add a 7\nturn 0 9\nbegin 1 upsert a x\nfinish 1\nturn 0 6\nturn 0 1\nlist\n",
            b"0 set\n1 replaced =0000000000000005\n0 differs x\npairs 1\na x\n",
            0,
        ),
        (
            b"begin 0 add a 5\nfinish 0\nbegin 0 add a 7\nturn 0 9\nbegin 1 delete a\nfinish 1\nfinish 0\nlist\n",
            b"0 set\n1 deleted =0000000000000005\n0 set\npairs 1\na =0000000000000007\n",
            0,
        ),
    ];
    agree(&rt, rt.alloc(), Language::Weave, rows);
}

// A token outside the grammar comes before one that is too long.
#[test]
fn refused_deletions_by_value(rt: HostRuntime) {
    let rows: Rows<'_> = &[
        (b"delete_if\n", b"refused line 1: 11\n", 1),
        (b"delete_if a\n", b"refused line 1: 11\n", 1),
        (b"delete_if a 1 2\n", b"refused line 1: 11\n", 1),
        (b"delete_if a =6\n", b"refused line 1: 11\n", 1),
        (b"DELETE_IF a 1\n", b"refused line 1: 11\n", 1),
        (b"deleteif a 1\n", b"refused line 1: 11\n", 1),
        (b"delete a 1\n", b"refused line 1: 11\n", 1),
        (
            b"delete_if =ffffffffffffffffffffffffffffffffffffffffffffffffffffffffffffffffffffffffffffffffffffffffffffffffffffffffffffffffffffffffffffffffff 1\n",
            b"refused line 1: 1\n",
            1,
        ),
        (
            b"delete_if a =ffffffffffffffffffffffffffffffffffffffffffffffffffffffffffffffffffffffffffffffffffffffffffffffffffffffffffffffffffffffffffffffffff\n",
            b"refused line 1: 1\n",
            1,
        ),
        (
            b"delete_if =ffffffffffffffffffffffffffffffffffffffffffffffffffffffffffffffffffffffffffffffffffffffffffffffffffffffffffffffffffffffffffffffffff =6\n",
            b"refused line 1: 11\n",
            1,
        ),
        (
            b"delete_if =6 =ffffffffffffffffffffffffffffffffffffffffffffffffffffffffffffffffffffffffffffffffffffffffffffffffffffffffffffffffffffffffffffffffff\n",
            b"refused line 1: 11\n",
            1,
        ),
    ];
    agree(&rt, rt.alloc(), Language::Script, rows);
}

#[test]
fn refused_additions(rt: HostRuntime) {
    let rows: Rows<'_> = &[
        (b"add\n", b"refused line 1: 11\n", 1),
        (b"add a\n", b"refused line 1: 11\n", 1),
        (b"add 1\n", b"refused line 1: 11\n", 1),
        (b"add a 1 2\n", b"refused line 1: 11\n", 1),
        (b"add a x\n", b"refused line 1: 11\n", 1),
        (b"add a =05\n", b"refused line 1: 11\n", 1),
        (b"add a -1\n", b"refused line 1: 11\n", 1),
        (b"add a +1\n", b"refused line 1: 11\n", 1),
        (b"add a 0x1\n", b"refused line 1: 11\n", 1),
        (b"add a 1.0\n", b"refused line 1: 11\n", 1),
        (b"add a 1e3\n", b"refused line 1: 11\n", 1),
        (b"add a 18446744073709551616\n", b"refused line 1: 11\n", 1),
        (b"add a 18446744073709551617\n", b"refused line 1: 11\n", 1),
        (b"add a 99999999999999999999\n", b"refused line 1: 11\n", 1),
        (
            b"add a 00018446744073709551616\n",
            b"refused line 1: 11\n",
            1,
        ),
        (b"add =6 1\n", b"refused line 1: 11\n", 1),
        (b"ADD a 1\n", b"refused line 1: 11\n", 1),
        (
            b"add =ffffffffffffffffffffffffffffffffffffffffffffffffffffffffffffffffffffffffffffffffffffffffffffffffffffffffffffffffffffffffffffffffff 1\n",
            b"refused line 1: 1\n",
            1,
        ),
        (
            b"add =ffffffffffffffffffffffffffffffffffffffffffffffffffffffffffffffffffffffffffffffffffffffffffffffffffffffffffffffffffffffffffffffffff x\n",
            b"refused line 1: 11\n",
            1,
        ),
        (
            b"add =ffffffffffffffffffffffffffffffffffffffffffffffffffffffffffffffffffffffffffffffffffffffffffffffffffffffffffffffffffffffffffffffffff 18446744073709551616\n",
            b"refused line 1: 11\n",
            1,
        ),
    ];
    agree(&rt, rt.alloc(), Language::Script, rows);
}
