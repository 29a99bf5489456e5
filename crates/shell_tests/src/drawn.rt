//! Turns of actors that a seed draws.

use crate::runs::{Rows, agree};
use shell_lines::Language;

// The first draws of seed 1 among two actors, worked out from the generator's published definition, are 0 0 1 0 1 0 0 0 0 0 1 0 1 0, by
// which actor 0 is done by its tenth turn, and 1 0 0 1 1 1 0 1 1 1, in which actor 0 is passed over. Actor 1 reads one record more, and is
// done by its eleventh turn, draw 24.
#[test]
fn draws_are_turns(rt: HostRuntime) {
    let rows: Rows<'_> = &[
        (
            b"begin 0 insert a 1\nbegin 1 insert b 2\nturn 0 2\nturn 1 1\nturn 0 1\nturn 1 1\nturn 0 5\nturn 1 1\nturn 0 1\nturn 1 1\nturn 0 1\nturn 1 7\nlist\n",
            b"0 inserted\n1 inserted\npairs 2\na 1\nb 2\n",
            0,
        ),
        (
            b"begin 0 insert a 1\nbegin 1 insert b 2\nmix 1 13\nlist\n",
            b"pairs 1\na 1\n",
            0,
        ),
        (
            b"begin 0 insert a 1\nbegin 1 insert b 2\nmix 1 14\nlist\n",
            b"0 inserted\npairs 1\na 1\n",
            0,
        ),
        (
            b"begin 0 insert a 1\nbegin 1 insert b 2\nmix 1 23\nlist\n",
            b"0 inserted\npairs 2\na 1\nb 2\n",
            0,
        ),
        (
            b"begin 0 insert a 1\nbegin 1 insert b 2\nmix 1 24\nlist\n",
            b"0 inserted\n1 inserted\npairs 2\na 1\nb 2\n",
            0,
        ),
        (
            b"begin 0 insert a 1\nbegin 1 insert b 2\nmix 1 100000\nlist\n",
            b"0 inserted\n1 inserted\npairs 2\na 1\nb 2\n",
            0,
        ),
    ];
    agree(&rt, rt.alloc(), Language::Weave, rows);
}

// Two lines draw anew, each from its seed; actors without an operation are passed over.
#[test]
fn draws_of_two_lines(rt: HostRuntime) {
    let rows: Rows<'_> = &[
        (b"mix 1 100000\nlist\n", b"pairs 0\n", 0),
        (
            b"begin 0 insert a 1\nmix 1 13\nmix 1 1\n",
            b"0 inserted\n",
            0,
        ),
        (
            b"begin 0 insert a 1\nmix 1 13\nmix 3 0\n",
            b"refused line 3: 11\n",
            1,
        ),
        (
            b"begin 1 get a\nmix 18446744073709551615 100000\n",
            b"1 none\n",
            0,
        ),
    ];
    agree(&rt, rt.alloc(), Language::Weave, rows);
}

#[test]
fn refused_draws(rt: HostRuntime) {
    let rows: Rows<'_> = &[
        (b"mix\n", b"refused line 1: 11\n", 1),
        (b"mix 1\n", b"refused line 1: 11\n", 1),
        (b"mix 1 0\n", b"refused line 1: 11\n", 1),
        (b"mix 1 100001\n", b"refused line 1: 11\n", 1),
        (b"mix 1 2 3\n", b"refused line 1: 11\n", 1),
        (b"mix -1 2\n", b"refused line 1: 11\n", 1),
        (b"mix x 2\n", b"refused line 1: 11\n", 1),
        (b"mix 18446744073709551616 1\n", b"refused line 1: 11\n", 1),
        (
            b"mix 18446744073709551615 1\nmix 000 0001\nlist\n",
            b"pairs 0\n",
            0,
        ),
    ];
    agree(&rt, rt.alloc(), Language::Weave, rows);
}
