//! Scripts: one command a line.

use crate::breaking::Ran;
use crate::numbered::Width;
use crate::runs::{Rows, add, agree, limits, whole};
use crate::words::limits_of;
use bw_model::Limits;
use shell_lines::Language;
use std::alloc::{AllocError, Global};

#[test]
fn commands(rt: HostRuntime) {
    let rows: Rows<'_> = &[
        (
            b"insert a 1\nget a\nlist\n",
            b"0 inserted\n0 value 1\npairs 1\na 1\n",
            0,
        ),
        (
            b"get a\nupsert a 1\nupsert a 2\ninsert a 3\ndelete a\ndelete a\ntidy a\npage a",
            b"0 none\n0 set\n0 replaced 1\n0 exists 2\n0 deleted 2\n0 absent\n0 tidied\n0 page 0 end\n",
            0,
        ),
        (b"", b"", 0),
        (b"\n\nlist", b"pairs 0\n", 0),
    ];
    agree(&rt, rt.alloc(), Language::Script, rows);
}

#[test]
fn refused_commands(rt: HostRuntime) {
    let rows: Rows<'_> = &[
        (b"get a\n\nget\nget a\n", b"0 none\nrefused line 3: 11\n", 1),
        (b"get a b\n", b"refused line 1: 11\n", 1),
        (b"get =6\n", b"refused line 1: 11\n", 1),
        (b"GET a\n", b"refused line 1: 11\n", 1),
        (b"insert a\n", b"refused line 1: 11\n", 1),
        (b"page\n", b"refused line 1: 11\n", 1),
        (b"tidy a b\n", b"refused line 1: 11\n", 1),
        (b"list a\n", b"refused line 1: 11\n", 1),
        (b" list\n", b"refused line 1: 11\n", 1),
        (b"begin 0 get a\n", b"refused line 1: 11\n", 1),
        (b"turn 0 1\n", b"refused line 1: 11\n", 1),
        (b"until 0 put\n", b"refused line 1: 11\n", 1),
        (b"finish 0\n", b"refused line 1: 11\n", 1),
        (b"mix 1 1\n", b"refused line 1: 11\n", 1),
        (
            b"page =ffffffffffffffffffffffffffffffffffffffffffffffffffffffffffffffffffffffffffffffffffffffffffffffffffffffffffffffffffffffffffffffffff\n",
            b"refused line 1: 1\n",
            1,
        ),
        (
            b"insert a =ffffffffffffffffffffffffffffffffffffffffffffffffffffffffffffffffffffffffffffffffffffffffffffffffffffffffffffffffffffffffffffffffff\n",
            b"refused line 1: 1\n",
            1,
        ),
    ];
    agree(&rt, rt.alloc(), Language::Script, rows);
}

/// Adds a line of five pairs, whose keys and values have 64 bytes, behind a word for each.
fn add_long_pairs(lines: &mut Vec<u8>, word: &[u8]) -> Result<(), AllocError> {
    for letter in [b"a", b"b", b"c", b"d", b"e"] {
        let parts: [(&[u8], u32); 6] = [
            (word, 1),
            (letter, 1),
            (b"k", 63),
            (b" ", 1),
            (b"v", 64),
            (b"\n", 1),
        ];
        for (part, times) in parts {
            add(lines, part, times)?;
        }
    }
    Ok(())
}

/// A script of five such inserts, and what it prints.
fn long_script(alloc: Global) -> Result<(Vec<u8>, Vec<u8>), AllocError> {
    let mut input = Vec::new(alloc);
    add_long_pairs(&mut input, b"insert ")?;
    add(&mut input, b"list\n", 1)?;
    let mut output = Vec::new(alloc);
    add(&mut output, b"0 inserted\n", 5)?;
    add(&mut output, b"pairs 5\n", 1)?;
    add_long_pairs(&mut output, b"")?;
    Ok((input, output))
}

/// Whether it prints that in a tree of the limits that these words ask for.
fn is_long_script(alloc: Global, line: &str) -> bool {
    match (limits_of(alloc, line), long_script(alloc)) {
        (Some(limits), Ok((input, output))) => {
            whole(alloc, Language::Script, limits, input.as_slice()).is(output.as_slice(), 0)
        }
        _ => false,
    }
}

// The rows for pages have 64 words where keys and values are to have one byte: five of these pairs take more, so their page is in a wide row.
#[test]
fn scripts_by_keys(rt: HostRuntime) {
    for line in [
        "script --keys 1000",
        "script --large --keys 1000",
        "script --large --keys 1000 --key-bytes 1 --value-bytes 1",
    ] {
        assert!(rt; is_long_script(rt.alloc(), line), "{line}");
    }
}

/// Commands of a script, each with a key's number in place of each #.
const SCRIPT: [&str; 9] = [
    "insert k# v#\n",
    "insert k# x\n",
    "upsert k# =\n",
    "page k#\n",
    "delete k#\n",
    "tidy k#\n",
    "delete_if k# v#\n",
    "add k# #\n",
    "back k#\n",
];

/// Those commands as operations of actor 0, from the begin to the end.
const WEAVE: [&str; 9] = [
    "begin 0 insert k# v#\nfinish 0\n",
    "begin 0 insert k# x\nfinish 0\n",
    "begin 0 upsert k# =\nfinish 0\n",
    "begin 0 page k#\nfinish 0\n",
    "begin 0 delete k#\nfinish 0\n",
    "begin 0 tidy k#\nfinish 0\n",
    "begin 0 delete_if k# v#\nfinish 0\n",
    "begin 0 add k# #\nfinish 0\n",
    "begin 0 back k#\nfinish 0\n",
];

/// Ninety of these over 23 keys, and a listing.
fn ninety(alloc: Global, forms: &[&str]) -> Result<String, AllocError> {
    let mut lines = String::new(alloc);
    for number in 0..90u32 {
        let form = forms.get((number % 9) as usize).copied().unwrap_or("");
        Width::Two.put(&mut lines, form, number * 7 % 23)?;
    }
    lines.push_str("list\n")?;
    Ok(lines)
}

/// What they print.
fn printed(alloc: Global, limits: Limits, language: Language, forms: &[&str]) -> Option<Ran> {
    match ninety(alloc, forms) {
        Ok(lines) => Some(whole(alloc, language, limits, lines.as_bytes())),
        Err(_) => None,
    }
}

/// Whether a script prints what its commands print as operations.
fn are_alike(alloc: Global, limits: Limits) -> bool {
    match printed(alloc, limits, Language::Weave, &WEAVE) {
        Some(woven) => match printed(alloc, limits, Language::Script, &SCRIPT) {
            Some(ran) => woven.status == 0 && ran.is(woven.output.as_slice(), 0),
            None => false,
        },
        None => false,
    }
}

// Each command is what an operation of actor 0 is, from its begin to its end.
#[test]
fn scripts_are_finished_operations(rt: HostRuntime) {
    let alike = are_alike(rt.alloc(), limits(&rt));
    assert!(rt; alike, "a script prints something else than its operations");
}
