//! Inputs, and what is printed for them.

use crate::race_runs::{add_parts, prints};
use crate::runs::limits;
use crate::words::limits_of;
use bw_model::{BadLimits, Limits};
use std::alloc::Global;
use std::sync::Wait;
use std::thread::Threads;

// Each input, and its output.
const ROWS: &[(&[u8], &[u8])] = &[
    (
        b"1 insert b 2\n0 insert a 1\n0 get a\n",
        b"0 inserted\n0 value 1\n1 inserted\npairs 2\na 1\nb 2\n",
    ),
    (b"", b"pairs 0\n"),
    (b"\n\n", b"pairs 0\n"),
    // a job of lines that are not neighbours, and leading zeros
    (
        b"7 insert a 1\n3 insert b 2\n7 upsert a 3\n\n03 get b\n0007 delete a\n3 page b\n",
        b"3 inserted\n3 value 2\n3 page 1 b 2 end\n7 inserted\n7 replaced 1\n7 deleted 3\npairs 1\nb 2\n",
    ),
    // the greatest number, and no last LF
    (b"4095 insert a =6b6B", b"4095 inserted\npairs 1\na kk\n"),
    (b"00000000000000000000001 get a", b"1 none\npairs 0\n"),
    // a reply of each kind
    (
        b"0 get a\n0 insert a 1\n0 insert a 2\n0 upsert a 3\n0 upsert b =\n0 delete a\n0 delete a\n0 tidy b\n",
        b"0 none\n0 inserted\n0 exists 1\n0 replaced 1\n0 set\n0 deleted 3\n0 absent\n0 tidied\npairs 1\nb =\n",
    ),
    (
        b"0 swap a 1 2\n0 insert a 1\n0 swap a 2 3\n0 swap a 1 3\n0 get a\n",
        b"0 absent\n0 inserted\n0 differs 1\n0 swapped\n0 value 3\npairs 1\na 3\n",
    ),
    (
        b"0 delete_if a 1\n0 insert a 1\n0 delete_if a 2\n0 delete_if a 1\n0 get a\n0 insert b 1\n",
        b"0 absent\n0 inserted\n0 differs 1\n0 deleted 1\n0 none\n0 inserted\npairs 1\nb 1\n",
    ),
    (
        b"0 add a 5\n0 add a 6\n0 insert b 1\n0 add b 1\n0 add c 18446744073709551615\n0 add c 2\n",
        b"0 set\n0 replaced =0000000000000005\n0 inserted\n0 differs 1\n0 set\n0 replaced =ffffffffffffffff\npairs 3\na =000000000000000b\nb 1\nc =0000000000000001\n",
    ),
    (
        b"0 back b\n0 insert a 1\n0 insert b 2\n0 back c\n0 back a\n0 back =\n",
        b"0 back 0 end\n0 inserted\n0 inserted\n0 back 2 b 2 a 1 end\n0 back 1 a 1 end\n0 back 0 end\npairs 2\na 1\nb 2\n",
    ),
    // three jobs
    (
        b"12 insert l 1\n5 insert e 1\n4000 insert z 1\n5 get e\n12 get l\n4000 get z\n",
        b"5 inserted\n5 value 1\n12 inserted\n12 value 1\n4000 inserted\n4000 value 1\npairs 3\ne 1\nl 1\nz 1\n",
    ),
];

// Whether all rows are printed with so many seats.
fn are_printed<R: Threads + Wait + Sync>(
    rt: &R,
    alloc: Global,
    limits: Result<Limits, BadLimits>,
) -> bool {
    let Ok(limits) = limits else {
        return false;
    };
    for (input, output) in ROWS {
        if !prints(rt, alloc, limits, input, (output, 0)) {
            return false;
        }
    }
    true
}

// As many seats as jobs, fewer and more.
#[test]
fn rows_with_seats(rt: HostRuntime) {
    for (seats, limits) in [
        (2, Limits::new(2, 64, 256, 1)),
        (1, Limits::new(1, 64, 256, 1)),
        (16, Limits::new(16, 64, 256, 1)),
        (63, Limits::large(63, 64, 256, 1)),
    ] {
        assert!(rt; are_printed(&rt, rt.alloc(), limits), "{seats} seats");
    }
}

// Whether the first row is printed by a race that is given no numbers.
fn is_printed_by_default<R: Threads + Wait + Sync>(rt: &R, alloc: Global) -> bool {
    match (limits_of(alloc, "race"), ROWS.first()) {
        (Some(limits), Some((input, output))) => prints(rt, alloc, limits, input, (output, 0)),
        _ => false,
    }
}

#[test]
fn a_row_by_default(rt: HostRuntime) {
    assert!(rt; is_printed_by_default(&rt, rt.alloc()), "the first row");
}

const MALFORMED: &[u8] = b"refused line 3: 11\n";

const TOO_LONG: &[u8] = b"refused line 3: 1\n";

// Lines that are refused, and what is printed for them.
const REFUSED: &[(&[u8], &[u8])] = &[
    (b"4096 get a", MALFORMED),
    (b"4294967296 get a", MALFORMED),
    (b"18446744073709551616 get a", MALFORMED),
    (b"99999999999999999999 get a", MALFORMED),
    (b"-1 get a", MALFORMED),
    (b"+1 get a", MALFORMED),
    (b"a get a", MALFORMED),
    (b" get a", MALFORMED),
    (b" 0 get a", MALFORMED),
    (b"0  get a", MALFORMED),
    (b"0 get a ", MALFORMED),
    (b"0 get a\r", MALFORMED),
    (b"0", MALFORMED),
    (b"0 get", MALFORMED),
    (b"0 get a b", MALFORMED),
    (b"0 insert a", MALFORMED),
    (b"0 insert a 1 2", MALFORMED),
    (b"0 list", MALFORMED),
    (b"list", MALFORMED),
    (b"get a", MALFORMED),
    (b"begin 0 get a", MALFORMED),
    (b"finish 0", MALFORMED),
    (b"0 Get a", MALFORMED),
    (b"0 get =6", MALFORMED),
    (b"0 get =6g", MALFORMED),
    (b"0 swap a 1", MALFORMED),
    (b"0 swap a 1 2 3", MALFORMED),
    (b"0 delete_if a", MALFORMED),
    (b"0 delete_if a 1 2", MALFORMED),
    (b"0 add a", MALFORMED),
    (b"0 add a x", MALFORMED),
    (b"0 add a 18446744073709551616", MALFORMED),
    (b"0 back", MALFORMED),
    (b"0 back a b", MALFORMED),
    (b"0 get a\0", MALFORMED),
    (b"0 get \x7f", MALFORMED),
    (b"0 get \x80", MALFORMED),
    (b"0 get \xc3\xa9", MALFORMED),
    (b"0 insert a \xff", MALFORMED),
    (b"\0", MALFORMED),
    (
        b"0 get 12345678901234567890123456789012345678901234567890123456789012345",
        TOO_LONG,
    ),
    (
        b"0 insert a 12345678901234567890123456789012345678901234567890123456789012345",
        TOO_LONG,
    ),
    (
        b"0 add 12345678901234567890123456789012345678901234567890123456789012345 1",
        TOO_LONG,
    ),
    (
        b"4096 get 12345678901234567890123456789012345678901234567890123456789012345",
        MALFORMED,
    ),
    (
        b"0 insert 12345678901234567890123456789012345678901234567890123456789012345 =6",
        MALFORMED,
    ),
];

// Whether a line is refused behind one that isn't, and before one that is refused too.
fn is_refused<R: Threads + Wait + Sync>(
    rt: &R,
    alloc: Global,
    limits: Limits,
    line: &[u8],
    told: &[u8],
) -> bool {
    let mut input = Vec::new(alloc);
    add_parts(&mut input, &[b"0 insert a 1\n\n", line])
        && prints(rt, alloc, limits, input.as_slice(), (told, 1))
        && add_parts(
            &mut input,
            &[b"\n0 get 12345678901234567890123456789012345678901234567890123456789012345\nlist\n"],
        )
        && prints(rt, alloc, limits, input.as_slice(), (told, 1))
}

// Of a lookup of 1,024 bytes and one of 1,025 the second one is no line.
#[test]
fn refused_lines(rt: HostRuntime) {
    let (alloc, limits) = (rt.alloc(), limits(&rt));
    for (number, (line, told)) in REFUSED.iter().enumerate() {
        assert!(rt; is_refused(&rt, alloc, limits, line, told), "line {number}");
    }
    let mut long = [b'k'; 1025];
    long[..6].copy_from_slice(b"0 get ");
    assert!(rt;
        is_refused(&rt, alloc, limits, &long[..1024], TOO_LONG),
        "1,024 bytes"
    );
    assert!(rt;
        is_refused(&rt, alloc, limits, &long, MALFORMED),
        "1,025 bytes"
    );
}
