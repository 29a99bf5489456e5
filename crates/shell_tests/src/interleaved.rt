//! Three actors at one key, or beside one another at one page.

use crate::numbered::{Part, Width, runs};

// After three turns none has looked at the page, so the operations take effect in the order in which they are finished.
const AT_ONE_KEY: &[Part<'_>] = &[
    Part::Adds(
        "begin 0 insert a 1\nbegin 1 upsert a 2\nbegin 2 get a\n",
        "",
    ),
    Part::Adds("turn 0 3\nturn 1 3\nturn 2 3\n", ""),
    Part::Adds(
        "finish 2\nfinish 0\nfinish 1\nlist\n",
        "2 none\n0 inserted\n1 replaced 1\npairs 1\na 2\n",
    ),
    Part::Adds("begin 0 delete a\nbegin 1 insert a 3\nbegin 2 get a\n", ""),
    Part::Adds("turn 2 3\nturn 1 3\nturn 0 3\n", ""),
    Part::Adds(
        "finish 1\nfinish 0\nfinish 2\nlist\n",
        "1 exists 2\n0 deleted 2\n2 none\npairs 0\n",
    ),
    Part::Adds(
        "begin 0 delete a\nbegin 1 insert a 4\nbegin 2 upsert a 5\n",
        "",
    ),
    Part::Adds("turn 1 2\nturn 0 3\nturn 2 3\nturn 1 1\n", ""),
    Part::Adds(
        "finish 0\nfinish 2\nfinish 1\nlist\n",
        "0 absent\n2 set\n1 exists 5\npairs 1\na 5\n",
    ),
    Part::Adds("begin 0 get a\nbegin 1 delete a\nbegin 2 delete a\n", ""),
    Part::Adds("turn 0 1\nturn 1 3\nturn 2 3\nturn 0 2\n", ""),
    Part::Adds(
        "finish 2\nfinish 1\nfinish 0\nlist\n",
        "2 deleted 5\n1 absent\n0 none\npairs 0\n",
    ),
    Part::Adds(
        "begin 0 upsert a 6\nbegin 1 upsert a 7\nbegin 2 get a\n",
        "",
    ),
    Part::Adds("turn 0 3\nturn 2 3\nturn 1 3\n", ""),
    Part::Adds(
        "finish 1\nfinish 2\nfinish 0\nlist\n",
        "1 set\n2 value 7\n0 replaced 7\npairs 1\na 6\n",
    ),
    Part::Adds("begin 0 get a\nbegin 1 insert a 8\nbegin 2 delete a\n", ""),
    Part::Adds("turn 2 3\nturn 0 3\nturn 1 3\n", ""),
    Part::Adds(
        "finish 0\nfinish 1\nfinish 2\nlist\n",
        "0 value 6\n1 exists 6\n2 deleted 6\npairs 0\n",
    ),
];

#[test]
fn operations_at_one_key(rt: HostRuntime) {
    runs(&rt, rt.alloc(), (3, 64, 256, 1), Width::Two, AT_ONE_KEY);
}

// At keys of their own their order doesn't matter. Each takes all its turns but the last: six at least, and ten where it changes the page.
// An exchange that is lost comes again.
const APART: &[Part<'_>] = &[
    Part::Adds(
        "begin 0 insert a 1\nbegin 1 insert b 2\nbegin 2 get c\n",
        "",
    ),
    Part::Adds("turn 0 9\nturn 1 9\nturn 2 5\n", ""),
    Part::Adds(
        "finish 2\nfinish 1\nfinish 0\nlist\n",
        "2 none\n1 inserted\n0 inserted\npairs 2\na 1\nb 2\n",
    ),
    Part::Adds(
        "begin 0 upsert b 3\nbegin 1 delete a\nbegin 2 insert c 4\n",
        "",
    ),
    Part::Adds("turn 2 9\nturn 0 9\nturn 1 9\n", ""),
    Part::Adds(
        "finish 1\nfinish 2\nfinish 0\nlist\n",
        "1 deleted 1\n2 inserted\n0 replaced 2\npairs 2\nb 3\nc 4\n",
    ),
    Part::Adds(
        "begin 0 get b\nbegin 1 upsert c 5\nbegin 2 upsert a 6\n",
        "",
    ),
    Part::Adds("turn 1 9\nturn 0 5\nturn 2 9\n", ""),
    Part::Adds(
        "finish 0\nfinish 2\nfinish 1\nlist\n",
        "0 value 3\n2 set\n1 replaced 4\npairs 3\na 6\nb 3\nc 5\n",
    ),
    Part::Adds(
        "begin 0 delete c\nbegin 1 insert b 7\nbegin 2 delete a\n",
        "",
    ),
    Part::Adds("turn 2 9\nturn 1 5\nturn 0 9\n", ""),
    Part::Adds(
        "finish 0\nfinish 1\nfinish 2\nlist\n",
        "0 deleted 5\n1 exists 3\n2 deleted 6\npairs 1\nb 3\n",
    ),
];

#[test]
fn operations_beside_one_another(rt: HostRuntime) {
    runs(&rt, rt.alloc(), (3, 64, 256, 1), Width::Two, APART);
}
