//! Lines of drawn words and bytes: a line is refused for a reason of the grammar, or for none.

ghost use Rattle.std.specs.Prelude.{◌<◌};

use crate::breaking::Ran;
use crate::runs::{add, limits, whole};
use bw_model::Limits;
use shell_lines::Language;
use std::alloc::Global;

/// How many lines are drawn for each program.
const LINES: u64 = 5000;

/// The forms of lines, with N for a number, K for a token and L for a link.
const WEAVE: [&str; 17] = [
    "begin N get K",
    "begin N insert K K",
    "begin N upsert K K",
    "begin N delete K",
    "begin N delete_if K K",
    "begin N swap K K K",
    "begin N add K N",
    "begin N page K",
    "begin N back K",
    "begin N tidy K",
    "turn N N",
    "until N L",
    "finish N",
    "mix N N",
    "list",
    "get K",
    "N get K",
];

const SCRIPT: [&str; 13] = [
    "get K",
    "insert K K",
    "upsert K K",
    "delete K",
    "delete_if K K",
    "swap K K K",
    "add K N",
    "page K",
    "back K",
    "tidy K",
    "list",
    "begin N get K",
    "turn N N",
];

const NUMBERS: [&str; 12] = [
    "0",
    "0",
    "1",
    "1",
    "2",
    "16",
    "007",
    "100000",
    "18446744073709551615",
    "18446744073709551616",
    "99999999999999999999",
    "-1",
];

const TOKENS: [&str; 12] = [
    "a",
    "a",
    "b",
    "k01",
    "=",
    "=6B",
    "=00fF",
    "=6",
    "=6g",
    "1234567890123456789012345678901234567890123456789012345678901234",
    "12345678901234567890123456789012345678901234567890123456789012345",
    "=ffffffffffffffffffffffffffffffffffffffffffffffffffffffffffffffffffffffffffffffffffffffffffffffffffffffffffffffffffffffffffffffffff",
];

const LINKS: [&str; 6] = ["put", "base", "split", "clear", "ready", "Put"];

/// Codes of refusals.
const CODES: [&[u8]; 5] = [b": 11\n", b": 1\n", b": 4\n", b": 5\n", b": 6\n"];

/// One of the first so many numbers, by a linear congruential generator.
fn draw(seed: &mut u64, count: u64) -> u64
    requires { 0 < count }
    ensures { result < count }
{
    *seed = seed.wrapping_mul(6364136223846793005).wrapping_add(1);
    (*seed >> 33) % count
}

/// One of these.
fn one_of<'a>(seed: &mut u64, words: &[&'a str]) -> &'a str {
    let place = draw(seed, words.len().max(1) as u64);
    words.get(place as usize).copied().unwrap_or("")
}

/// A word of a form, or what is drawn in its place.
fn drawn<'a>(seed: &mut u64, word: &'a str) -> &'a str {
    match word {
        "N" => one_of(seed, &NUMBERS),
        "K" => one_of(seed, &TOKENS),
        "L" => one_of(seed, &LINKS),
        _ => word,
    }
}

/// Adds a line of a form that is drawn; says whether there was memory.
fn adds_words(line: &mut Vec<u8>, seed: &mut u64, forms: &[&str]) -> bool {
    let form = one_of(seed, forms);
    for (place, word) in form.split(' ').enumerate() {
        let space: &[u8] = if place > 0 { b" " } else { b"" };
        let word = drawn(seed, word).as_bytes();
        if add(line, space, 1).is_err() || add(line, word, 1).is_err() {
            return false;
        }
    }
    true
}

/// Adds up to so many bytes that are drawn; says whether there was memory.
fn adds_bytes(line: &mut Vec<u8>, seed: &mut u64, most: u64) -> bool {
    for _ in 0..draw(seed, most.max(1)) {
        if line.push(draw(seed, 256) as u8).is_err() {
            return false;
        }
    }
    true
}

/// Adds a line: of words, or of words with a few bytes behind them, or of bytes.
fn adds_line(input: &mut Vec<u8>, seed: &mut u64, forms: &[&str]) -> bool {
    match draw(seed, 8) {
        0 => adds_bytes(input, seed, 40),
        1 | 2 | 3 => adds_words(input, seed, forms),
        _ => adds_words(input, seed, forms) && adds_bytes(input, seed, 3),
    }
}

/// The last line of an output.
fn last_line(output: &[u8]) -> &[u8] {
    let mut start = 0;
    for (place, byte) in output.iter().enumerate() {
        if *byte == b'\n' && place + 1 < output.len() {
            start = place + 1;
        }
    }
    output.split_at(start.min(output.len())).1
}

/// The place of the refusal's code, or the number of codes where nothing is refused; none where the program ends otherwise.
fn end(woven: &Ran) -> Option<usize> {
    let line = last_line(woven.output.as_slice());
    let refused = line.starts_with(b"refused line ");
    if woven.status == 0 && !line.starts_with(b"refused") {
        return Some(CODES.len());
    }
    let place = CODES.iter().position(|code| line.ends_with(code))?;
    (refused && woven.status == 1).then_some(place)
}

/// How a drawn line behind a first one ends.
fn end_of_line(
    alloc: Global,
    seed: &mut u64,
    language: Language,
    limits: Limits,
    (forms, first): (&[&str], &[u8]),
) -> Option<usize> {
    let mut input = Vec::new(alloc);
    let added = add(&mut input, first, 1).is_ok() && adds_line(&mut input, seed, forms);
    if added {
        return end(&whole(alloc, language, limits, input.as_slice()));
    }
    None
}

/// How often drawn lines, each behind a first one, end so; none where one ends otherwise.
fn ends(
    alloc: Global,
    limits: Limits,
    language: Language,
    forms: &[&str],
    first: &[u8],
) -> Option<[u32; 6]> {
    let mut seed = 1;
    let mut ends = [0u32; 6];
    for _ in 0..LINES {
        let end = end_of_line(alloc, &mut seed, language, limits, (forms, first))?;
        if let Some(count) = ends.get_mut(end) {
            *count = count.saturating_add(1);
        }
    }
    Some(ends)
}

// In a weave each reason comes; a script has one actor, whose operations are done.
#[test]
fn random_lines(rt: HostRuntime) {
    let (alloc, limits) = (rt.alloc(), limits(&rt));
    let woven = ends(
        alloc,
        limits,
        Language::Weave,
        &WEAVE,
        b"begin 0 insert a 1\n",
    );
    let scripted = ends(alloc, limits, Language::Script, &SCRIPT, b"insert a 1\n");
    let seen = [woven, scripted].map(|ends| ends.map(|counts| counts.map(|count| count > 0)));
    let wanted = [[true; 6], [true, true, false, false, false, true]];
    assert!(rt; seen == wanted.map(Some), "{seen:?}");
}
