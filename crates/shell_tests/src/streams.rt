//! Long lines, and streams that fail.

use crate::breaking::{Breaking, NEVER};
use crate::choppy::Choppy;
use crate::runs::{joined, limits, run, run_into, whole};
use bw_model::Limits;
use shell_lines::Language;
use std::alloc::{AllocError, Global};
use std::io::ErrorKind;
use std::test::Fail;

/// Whether this is what is printed for an input, however many bytes come with each read.
fn is_refused(alloc: Global, limits: Limits, input: &[u8], output: &[u8]) -> bool {
    for size in [1, 7, 1000, 1023, 1024, 1025, 1026, 4096] {
        let input = Choppy::sound(input, size);
        if !run(alloc, Language::Weave, limits, input, 4096, NEVER).is(output, 1) {
            return false;
        }
    }
    true
}

// A line with so many zeros, which asks for a turn of an actor without an operation, by seven bytes more, and what stands behind it.
fn turn_line(alloc: Global, zeros: u32, behind: &[u8]) -> Result<Vec<u8>, AllocError> {
    joined(
        alloc,
        &[(b"turn ", 1), (b"0", zeros), (b" 1", 1), (behind, 1)],
    )
}

/// Whether this is printed for such a line.
fn is_told(alloc: Global, limits: Limits, zeros: u32, behind: &[u8], output: &[u8]) -> bool {
    match turn_line(alloc, zeros, behind) {
        Ok(line) => is_refused(alloc, limits, line.as_slice(), output),
        Err(_) => false,
    }
}

// 1,024 bytes are a line, and 1,025 are not, with a last LF and without.
#[test]
fn long_lines(rt: HostRuntime) {
    let (alloc, limits) = (rt.alloc(), limits(&rt));
    let (turn, malformed) = (b"refused line 1: 6\n", b"refused line 1: 11\n");
    for (zeros, output) in [
        (1016, turn.as_slice()),
        (1017, turn),
        (1018, malformed),
        (5000, malformed),
    ] {
        for behind in [b"".as_slice(), b"\nlist\n"] {
            assert!(rt;
                is_told(alloc, limits, zeros, behind, output),
                "{zeros} zeros"
            );
        }
    }
}

// About thirty lines, with empty ones, and without a last LF.
const INPUT: &[u8] =
    b"begin 0 insert k01 v01\nfinish 0\n\nbegin 1 insert k02 =\nfinish 1\nbegin 0 get k01\nturn 0 2\nturn 0 1\nturn 0 1\nturn 0 1\nturn 0 1\nturn 0 1\n\n\
    turn 0 1\nbegin 0 insert k02 v02\nfinish 0\nlist\nbegin 0 insert k03 v03\nturn 0 2\nbegin 1 insert k04 v04\nturn 1 4\nturn 0 3\nfinish 1\nfinish 0\n\
    begin 1 get k04\nbegin 0 get k05\nfinish 1\nfinish 0\n\nlist";

const OUTPUT: &[u8] =
    b"0 inserted\n1 inserted\n0 value v01\n0 exists =\npairs 2\nk01 v01\nk02 =\n1 inserted\n0 inserted\n1 value v04\n0 none\npairs 4\nk01 v01\nk02 =\nk03 v03\nk04 v04\n";

// About as many lines of a script.
const COMMANDS: &[u8] =
    b"insert k01 v01\n\ninsert k02 =\nget k01\ninsert k02 v02\nlist\ninsert k03 v03\ninsert k04 v04\nget k04\nget k05\npage k02\ntidy k02\n\ndelete k03\nlist";

const REPLIES: &[u8] =
    b"0 inserted\n0 inserted\n0 value v01\n0 exists =\npairs 2\nk01 v01\nk02 =\n0 inserted\n0 inserted\n0 value v04\n0 none\n\
    0 page 3 k02 = k03 v03 k04 v04 end\n0 tidied\n0 deleted v03\npairs 3\nk01 v01\nk02 =\nk04 v04\n";

// Cursor pages of a tree of two leaves, and of an empty one.
const PAGES: &[u8] =
    b"begin 0 insert k01 v01\nfinish 0\nbegin 0 insert k02 v02\nfinish 0\nbegin 0 insert k03 v03\nfinish 0\nbegin 0 insert k04 v04\nfinish 0\n\
    begin 0 insert k05 v05\nfinish 0\nbegin 0 insert k06 v06\nfinish 0\nbegin 0 insert k07 v07\nfinish 0\nbegin 0 insert k08 v08\nfinish 0\n\
    begin 0 insert k09 v09\nfinish 0\nbegin 0 insert k10 v10\nfinish 0\nbegin 0 insert k11 v11\nfinish 0\nbegin 0 insert k12 v12\nfinish 0\n\
    begin 0 insert k13 v13\nfinish 0\nbegin 0 insert k14 v14\nfinish 0\nbegin 0 insert k15 v15\nfinish 0\nbegin 0 insert k16 v16\nfinish 0\n\
    begin 0 insert k17 v17\nfinish 0\nbegin 0 page k05\nfinish 0\nbegin 0 insert k085 y\nfinish 0\nbegin 0 page k16\nfinish 0\n";

const SHOWN: &[u8] =
    b"0 inserted\n0 inserted\n0 inserted\n0 inserted\n0 inserted\n0 inserted\n0 inserted\n0 inserted\n0 inserted\n0 inserted\n0 inserted\n0 inserted\n\
    0 inserted\n0 inserted\n0 inserted\n0 inserted\n0 inserted\n0 page 4 k05 v05 k06 v06 k07 v07 k08 v08 next k09\n0 inserted\n\
    0 page 2 k16 v16 k17 v17 end\n";

const EMPTY: &[u8] = b"begin 0 page =\nfinish 0\n";

const RUNS: [(Language, &[u8], &[u8]); 4] = [
    (Language::Weave, INPUT, OUTPUT),
    (Language::Script, COMMANDS, REPLIES),
    (Language::Weave, PAGES, SHOWN),
    (Language::Weave, EMPTY, b"0 page 0 end\n"),
];

// Whether each write that fails, of five bytes, leaves a beginning of the output, though the next ones wouldn't fail.
fn writes_fail(
    alloc: Global,
    limits: Limits,
    language: Language,
    input: &[u8],
    output: &[u8],
) -> bool {
    let all = run(alloc, language, limits, Choppy::sound(input, 7), 5, NEVER);
    for (n, start) in all.starts.iter().enumerate() {
        let before_fault = u32::try_from(n).unwrap_or(NEVER);
        let woven = run(
            alloc,
            language,
            limits,
            Choppy::sound(input, 7),
            5,
            before_fault,
        );
        let written = (*start).min(output.len());
        if !woven.is(output.split_at(written).0, 1) {
            return false;
        }
    }
    all.starts.len() > 2 && all.is(output, 0)
}

// Whether a run whose first flush fails, before the second piece of the input is read, leaves what the first piece prints.
fn flush_fails(
    alloc: Global,
    limits: Limits,
    language: Language,
    input: &[u8],
    output: &[u8],
) -> bool {
    let mut out = Breaking::taking(alloc, 4096, NEVER);
    out.flush_fails = true;
    let half = input.len() / 2;
    let before = whole(alloc, language, limits, whole_lines(input, half));
    let woven = run_into(alloc, language, limits, Choppy::sound(input, half), out);
    woven.is(before.output.as_slice(), 1) && output.starts_with(woven.output.as_slice())
}

#[test]
fn failed_writes(rt: HostRuntime) {
    let (alloc, limits) = (rt.alloc(), limits(&rt));
    for (number, (language, input, output)) in RUNS.iter().enumerate() {
        let leaves = writes_fail(alloc, limits, *language, input, output);
        assert!(rt; leaves, "run {number}, of which a write fails");
        let leaves = flush_fails(alloc, limits, *language, input, output);
        assert!(rt; leaves, "run {number}, of which the first flush fails");
    }
}

// The whole lines among the first bytes of the input.
fn whole_lines(input: &[u8], bytes: usize) -> &[u8] {
    let mut end = 0;
    for (i, b) in input.split_at(bytes.min(input.len())).0.iter().enumerate() {
        if *b == b'\n' {
            end = i + 1;
        }
    }
    input.split_at(end.min(input.len())).0
}

// Whether each read that fails so, of seven bytes, ends the program behind the whole lines before it, though the next ones wouldn't fail.
fn reads_fail(
    alloc: Global,
    limits: Limits,
    (language, input, output): (Language, &[u8], &[u8]),
    fault: ErrorKind,
) -> bool {
    for n in 0..input.len() / 7 + 2 {
        let cut = Choppy {
            bytes: input,
            size: 7,
            before_fault: u32::try_from(n).unwrap_or(NEVER),
            fault,
        };
        let woven = run(alloc, language, limits, cut, 4096, NEVER);
        let lines = whole_lines(input, n.saturating_mul(7));
        let before = whole(alloc, language, limits, lines);
        if !woven.is(before.output.as_slice(), 1) || !output.starts_with(woven.output.as_slice()) {
            return false;
        }
    }
    true
}

// An interrupted read isn't tried again.
#[test]
fn failed_reads(rt: HostRuntime) {
    let (alloc, limits) = (rt.alloc(), limits(&rt));
    for (number, run) in RUNS.iter().enumerate() {
        for fault in [ErrorKind::Other, ErrorKind::Interrupted] {
            assert!(rt;
                reads_fail(alloc, limits, *run, fault),
                "run {number}, of which a read fails: {fault}"
            );
        }
    }
}

// Whether this is printed, one byte a read and one a write.
fn is_printed(
    alloc: Global,
    limits: Limits,
    language: Language,
    input: &[u8],
    output: &[u8],
) -> bool {
    run(alloc, language, limits, Choppy::sound(input, 1), 1, NEVER).is(output, 0)
}

// Whether it is with a last LF, too.
fn is_ended(
    alloc: Global,
    limits: Limits,
    language: Language,
    input: &[u8],
    output: &[u8],
) -> bool {
    match joined(alloc, &[(input, 1), (b"\n", 1)]) {
        Ok(ended) => is_printed(alloc, limits, language, ended.as_slice(), output),
        Err(_) => false,
    }
}

#[test]
fn one_byte_at_a_time(rt: HostRuntime) {
    let (alloc, limits) = (rt.alloc(), limits(&rt));
    for (number, (language, input, output)) in RUNS.iter().enumerate() {
        let printed = is_printed(alloc, limits, *language, input, output);
        assert!(rt; printed, "run {number}, as it is");
        let printed = is_ended(alloc, limits, *language, input, output);
        assert!(rt; printed, "run {number}, with a last LF");
    }
}

// Whether this is printed, by so many writes at most, with so many bytes a read.
fn is_written(
    alloc: Global,
    limits: Limits,
    input: &[u8],
    output: &[u8],
    (size, most): (usize, usize),
) -> bool {
    let input = Choppy::sound(input, size);
    let woven = run(alloc, Language::Weave, limits, input, 4096, NEVER);
    woven.is(output, 0) && woven.starts.len() <= most
}

// Thousands of lines, read byte by byte, and written by one write for each reply; read in 18 pieces, and written by one write for each.
#[test]
fn many_lines(rt: HostRuntime) -> Result<(), Fail> {
    let last: &[u8] = b"begin 0 get a\n\nfinish 0\n";
    let lines = joined(rt.alloc(), &[(INPUT, 1), (b"\n", 1), (last, 3000)])?;
    let output = joined(rt.alloc(), &[(OUTPUT, 1), (b"0 none\n", 3000)])?;
    for (size, most) in [(1, 3012), (4096, 18)] {
        assert!(rt;
            is_written(
                rt.alloc(),
                limits(&rt),
                lines.as_slice(),
                output.as_slice(),
                (size, most)
            ),
            "{size} bytes a read, {most} writes"
        );
    }
    Ok(())
}
