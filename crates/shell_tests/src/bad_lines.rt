//! Bad lines, each the first of its input.

use crate::breaking::Ran;
use crate::runs::{joined, limits, whole};
use bw_model::Limits;
use shell_lines::Language;
use std::alloc::Global;

/// Lines of a weave with bytes that no word has, one behind another.
const WEAVE_BYTES: &[u8] = b"\0\n\
    \x7f\n\
    \x80\n\
    \r\n\
    \x20\n\
    list\0\n\
    \0list\n\
    list\r\n\
    finish 0\r\n\
    \xef\xbb\xbflist\n\
    begin\t0 get a\n\
    begin 0 get \0\n\
    begin 0 get a\0\n\
    begin 0 get \x1f\n\
    begin 0 get \x7f\n\
    begin 0 get \x80\n\
    begin 0 get \xc3\xa9\n\
    begin 0 insert \xc3\xa9 1\n\
    begin 0 insert a \xff\n\
    begin 0 insert a 1\r";

/// Tokens that are none.
const WEAVE_TOKENS: &[u8] = b"begin 0 get ==\n\
    begin 0 get =a\n\
    begin 0 get =0x\n\
    begin 0 swap a =1 2\n\
    begin 0 swap a 1 =123\n\
    begin 0 delete_if a =1\n\
    begin 0 add =6 1\n\
    begin 0 back =6\n\
    begin 0 insert 12345678901234567890123456789012345678901234567890123456789012345 =6";

/// Tokens that are too long.
const WEAVE_LONG: &[u8] =
    b"begin 0 get 12345678901234567890123456789012345678901234567890123456789012345\n\
    begin 0 upsert a 12345678901234567890123456789012345678901234567890123456789012345\n\
    begin 0 swap a 12345678901234567890123456789012345678901234567890123456789012345 1\n\
    begin 0 swap a 1 12345678901234567890123456789012345678901234567890123456789012345\n\
    begin 0 delete_if 12345678901234567890123456789012345678901234567890123456789012345 1\n\
    begin 0 delete_if a 12345678901234567890123456789012345678901234567890123456789012345\n\
    begin 0 add 12345678901234567890123456789012345678901234567890123456789012345 1\n\
    begin 0 back 12345678901234567890123456789012345678901234567890123456789012345";

/// Numbers that are none, or too large.
const WEAVE_NUMBERS: &[u8] = b"turn -0 1\n\
    turn 0 -1\n\
    turn 0 +1\n\
    turn 0 1e3\n\
    turn 0x0 1\n\
    turn 0 18446744073709551616\n\
    turn 0 18446744073709551617\n\
    turn 0 99999999999999999999\n\
    turn 0 00000000000000000000\n\
    begin 99999999999999999999 get =6\n\
    begin 0 add a x\n\
    begin 0 add a -1\n\
    begin 0 add a 18446744073709551616\n\
    mix +1 1\n\
    mix 99999999999999999999 1\n\
    mix 1 18446744073709551617\n\
    mix 1 00000000000000000000";

/// Actors without an operation, and actors that aren't there.
const WEAVE_IDLE: &[u8] = b"turn 0 00000000000000000001\nturn 00000000000000000000 1";

const WEAVE_ACTORS: &[u8] = b"turn 4294967296 1\n\
    turn 18446744073709551616 1\n\
    turn 18446744073709551617 1\n\
    finish 99999999999999999999\n\
    until 99999999999999999999 put\n\
    begin 99999999999999999999 get a";

/// Words that are none, and too few or too many.
const WEAVE_WORDS: &[u8] = b"List\n\
    list list\n\
    begin\n\
    begin 0\n\
    begin 0 begin\n\
    begin 0 list\n\
    begin 0 get a \n\
    begin 0 swap a 1\n\
    begin 0 swap a 1 2 3\n\
    begin 0 delete_if a\n\
    begin 0 delete_if a 1 2\n\
    begin 0 add a\n\
    begin 0 add a 1 2\n\
    begin 0 back\n\
    begin 0 back a b\n\
    turn\n\
    turn 0\n\
    turn 0 1 1\n\
    until 0 put \n\
    finish\n\
    finish 0 0\n\
    swap a 1 2\n\
    delete_if a 1\n\
    add a 1\n\
    back a";

/// Lines of a script outside the grammar.
const SCRIPT: &[u8] = b"\0\n\
    \x7f\n\
    \x80\n\
    \r\n\
    \x20\n\
    list\r\n\
    get \0\n\
    get \x7f\n\
    get \x80\n\
    get \xc3\xa9\n\
    insert a \xff\n\
    insert a 1\r\n\
    insert  a 1\n\
    swap a 1\n\
    swap a 1 2 3\n\
    delete\n\
    delete_if a\n\
    add a\n\
    add a x\n\
    add a 18446744073709551616\n\
    back\n\
    0 get a\n\
    insert 12345678901234567890123456789012345678901234567890123456789012345 =6";

/// Tokens of a script that are too long.
const SCRIPT_LONG: &[u8] =
    b"get 12345678901234567890123456789012345678901234567890123456789012345\n\
    swap a 12345678901234567890123456789012345678901234567890123456789012345 1\n\
    delete_if a 12345678901234567890123456789012345678901234567890123456789012345\n\
    add 12345678901234567890123456789012345678901234567890123456789012345 0\n\
    back 12345678901234567890123456789012345678901234567890123456789012345";

/// Lines, the end of their refusal, and how many lines there are.
const TABLE: [(Language, &[u8], &[u8], usize); 9] = [
    (Language::Weave, WEAVE_BYTES, b"11\n", 20),
    (Language::Weave, WEAVE_TOKENS, b"11\n", 9),
    (Language::Weave, WEAVE_LONG, b"1\n", 8),
    (Language::Weave, WEAVE_NUMBERS, b"11\n", 17),
    (Language::Weave, WEAVE_IDLE, b"6\n", 2),
    (Language::Weave, WEAVE_ACTORS, b"4\n", 6),
    (Language::Weave, WEAVE_WORDS, b"11\n", 25),
    (Language::Script, SCRIPT, b"11\n", 23),
    (Language::Script, SCRIPT_LONG, b"1\n", 5),
];

/// Whether a run was ended by a refusal of its first line with this end.
fn is_refusal(ran: &Ran, code: &[u8]) -> bool {
    ran.output.as_slice().strip_prefix(b"refused line 1: ") == Some(code) && ran.status == 1
}

/// Whether the first line is refused so, where it is the last one too, and before another.
fn is_refused(alloc: Global, limits: Limits, language: Language, line: &[u8], code: &[u8]) -> bool {
    match joined(alloc, &[(line, 1), (b"\nlist\n", 1)]) {
        Ok(input) => {
            is_refusal(&whole(alloc, language, limits, line), code)
                && is_refusal(&whole(alloc, language, limits, input.as_slice()), code)
        }
        Err(_) => false,
    }
}

/// How many lines of a table are refused as it says, before one that isn't.
fn refused(alloc: Global, limits: Limits, language: Language, lines: &[u8], code: &[u8]) -> usize {
    let mut count = 0usize;
    for line in lines.split(|byte| *byte == b'\n') {
        if !is_refused(alloc, limits, language, line, code) {
            return count;
        }
        count = count.saturating_add(1);
    }
    count
}

#[test]
fn bad_lines(rt: HostRuntime) {
    let (alloc, limits) = (rt.alloc(), limits(&rt));
    for (place, (language, lines, code, expected)) in TABLE.iter().enumerate() {
        let count = refused(alloc, limits, *language, lines, code);
        assert!(rt;
            count == *expected,
            "row {place}: line {count} isn't refused so"
        );
    }
}
