//! Swaps: what they print, and one whose exchange is lost.

use crate::runs::{Rows, agree};
use shell_lines::Language;

// The nine turns end just before actor 0's exchange, which loses. Six turns more read the page anew, and the next one answers by the
// value that the key has by then.
#[test]
fn a_swap_is_lost(rt: HostRuntime) {
    let rows: Rows<'_> = &[
        (
            b"begin 0 insert a 1\nfinish 0\nbegin 0 swap a 2 3\nfinish 0\nbegin 0 swap b 1 2\nfinish 0\nbegin 0 swap a 1 2\nturn 0 9\n",
            b"0 inserted\n0 differs 1\n0 absent\n",
            0,
        ),
        (
            b"begin 0 insert a 1\nfinish 0\nbegin 0 swap a 2 3\nfinish 0\nbegin 0 swap b 1 2\nfinish 0\nbegin 0 swap a 1 2\nturn 0 9\nbegin 1 swap a 1 3\nfinish 1\nturn 0 6\n",
            b"0 inserted\n0 differs 1\n0 absent\n1 swapped\n",
            0,
        ),
        (
            b"begin 0 insert a 1\nfinish 0\nbegin 0 swap a 2 3\nfinish 0\nbegin 0 swap b 1 2\nfinish 0\nbegin 0 swap a 1 2\nturn 0 9\nbegin 1 swap a 1 3\nfinish 1\nturn 0 6\nturn 0 1\nlist\n",
            b"0 inserted\n0 differs 1\n0 absent\n1 swapped\n0 differs 3\npairs 1\na 3\n",
            0,
        ),
    ];
    agree(&rt, rt.alloc(), Language::Weave, rows);
}

// A key that has the value already gets it once more: the exchange comes before the reply.
#[test]
fn the_same_value_is_put(rt: HostRuntime) {
    let rows: Rows<'_> = &[(
        b"begin 0 insert a 1\nfinish 0\nbegin 0 swap a 1 1\nuntil 0 put\nlist\nturn 0 1\nbegin 0 swap a 1 2\nuntil 0 put\nlist\nturn 0 1\nbegin 0 swap a 1 2\nuntil 0 put\n",
        b"0 inserted\npairs 1\na 1\n0 swapped\npairs 1\na 2\n0 swapped\n0 differs 2\n",
        0,
    )];
    agree(&rt, rt.alloc(), Language::Weave, rows);
}

#[test]
fn swaps_of_a_script(rt: HostRuntime) {
    let rows: Rows<'_> = &[
        (
            b"swap a 1 2\ninsert a 1\nswap a 1 1\nswap a 1 2\nswap a 1 3\nget a\ndelete a\nswap a 2 3\nlist\n",
            b"0 absent\n0 inserted\n0 swapped\n0 swapped\n0 differs 2\n0 value 2\n0 deleted 2\n0 absent\npairs 0\n",
            0,
        ),
        (
            b"insert = =\nswap = a b\nswap = = =00\nswap = = b\nswap = =00 b\nlist\n",
            b"0 inserted\n0 differs =\n0 swapped\n0 differs =00\n0 swapped\npairs 1\n= b\n",
            0,
        ),
        (
            b"insert a 11\nswap a 1 2\nswap a 111 2\nswap a 11 2\n",
            b"0 inserted\n0 differs 11\n0 differs 11\n0 swapped\n",
            0,
        ),
    ];
    agree(&rt, rt.alloc(), Language::Script, rows);
}

// A token outside the grammar comes before one that is too long.
#[test]
fn refused_swaps(rt: HostRuntime) {
    let rows: Rows<'_> = &[
        (b"swap\n", b"refused line 1: 11\n", 1),
        (b"swap a\n", b"refused line 1: 11\n", 1),
        (b"swap a 1\n", b"refused line 1: 11\n", 1),
        (b"swap a 1 2 3\n", b"refused line 1: 11\n", 1),
        (b"swap a 1 =6\n", b"refused line 1: 11\n", 1),
        (b"SWAP a 1 2\n", b"refused line 1: 11\n", 1),
        (
            b"swap =ffffffffffffffffffffffffffffffffffffffffffffffffffffffffffffffffffffffffffffffffffffffffffffffffffffffffffffffffffffffffffffffffff 1 2\n",
            b"refused line 1: 1\n",
            1,
        ),
        (
            b"swap a =ffffffffffffffffffffffffffffffffffffffffffffffffffffffffffffffffffffffffffffffffffffffffffffffffffffffffffffffffffffffffffffffffff 2\n",
            b"refused line 1: 1\n",
            1,
        ),
        (
            b"swap a 1 =ffffffffffffffffffffffffffffffffffffffffffffffffffffffffffffffffffffffffffffffffffffffffffffffffffffffffffffffffffffffffffffffffff\n",
            b"refused line 1: 1\n",
            1,
        ),
        (
            b"swap =ffffffffffffffffffffffffffffffffffffffffffffffffffffffffffffffffffffffffffffffffffffffffffffffffffffffffffffffffffffffffffffffffff 1 =6\n",
            b"refused line 1: 11\n",
            1,
        ),
        (
            b"swap a =ffffffffffffffffffffffffffffffffffffffffffffffffffffffffffffffffffffffffffffffffffffffffffffffffffffffffffffffffffffffffffffffffff =6\n",
            b"refused line 1: 11\n",
            1,
        ),
    ];
    agree(&rt, rt.alloc(), Language::Script, rows);
}
