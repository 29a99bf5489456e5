//! The words of a command line.

use bw_model::Limits;
use shell_options::{Misplaced, OptionsError, Program, Settings, options};
use std::alloc::{AllocError, Global};
use std::process::Abort;

/// What the words come to.
#[derive(Clone, Copy, PartialEq, Eq)]
enum Said {
    /// A program with its numbers: actors, PIDs, rows, epoch.
    Numbers(Program, [u64; 4]),
    /// A program with its numbers, for a large tree.
    Large(Program, [u64; 4]),
    /// A program with its numbers, one of which isn't allowed.
    BadLimits,
    /// They are refused.
    Refused,
    /// An option is refused beside the others.
    Misplaced(Misplaced),
    /// Help, or the version.
    Help,
    Memory,
}

/// What these settings come to.
fn said_by(settings: &Settings) -> Said {
    let Ok(limits) = settings.limits() else {
        return Said::BadLimits;
    };
    let numbers = [limits.actors, limits.pids, limits.rows, limits.epoch];
    if limits.is_large {
        Said::Large(settings.program, numbers)
    } else {
        Said::Numbers(settings.program, numbers)
    }
}

/// The words of a line, behind the program's name.
pub(crate) fn words(alloc: Global, line: &str) -> Result<Vec<String>, AllocError> {
    let mut words = Vec::new(alloc);
    words.push(String::from_str(alloc, "bwtree")?)?;
    for word in line.split(' ') {
        words.push(String::from_str(alloc, word)?)?;
    }
    Ok(words)
}

/// The limits of a tree that the words of a line ask for.
pub(crate) fn limits_of(alloc: Global, line: &str) -> Option<Limits> {
    match words(alloc, line) {
        Ok(words) => match options(alloc, words.as_slice()) {
            Ok(settings) => settings.limits().ok(),
            Err(_) => None,
        },
        Err(_) => None,
    }
}

/// What the words come to.
fn answer_to(alloc: Global, words: &[String]) -> Said {
    match options(alloc, words) {
        Ok(settings) => said_by(&settings),
        Err(OptionsError::Clap(error)) if error.use_stderr() => Said::Refused,
        Err(OptionsError::Clap(_)) => Said::Help,
        Err(OptionsError::Misplaced(option)) => Said::Misplaced(option),
        Err(OptionsError::Memory) => Said::Memory,
    }
}

/// Whether the words of a line come to this.
fn says(alloc: Global, line: &str, wanted: Said) -> bool {
    match words(alloc, line) {
        Ok(words) => answer_to(alloc, words.as_slice()) == wanted,
        Err(_) => false,
    }
}

/// Each of the lines is to come to this.
fn all_say(rt: &impl Abort, alloc: Global, lines: &[&str], wanted: Said) {
    for line in lines {
        assert!(rt; says(alloc, line, wanted), "{line}");
    }
}

/// Lines, and the numbers of their programs.
const NUMBERS: [(&str, Program, [u64; 4]); 16] = [
    ("weave", Program::Weave, [2, 64, 256, 1]),
    (
        "weave --rows 64 --epoch=7 --actors 3 --pids 0128",
        Program::Weave,
        [3, 128, 64, 7],
    ),
    ("weave --actors +16", Program::Weave, [16, 64, 256, 1]),
    (
        "weave --actors 00000000000000000000001",
        Program::Weave,
        [1, 64, 256, 1],
    ),
    ("draw", Program::Draw, [2, 64, 256, 1]),
    ("draw --actors 3 --rows 128", Program::Draw, [3, 64, 128, 1]),
    ("film", Program::Film, [2, 64, 256, 1]),
    ("script", Program::Script, [1, 64, 256, 1]),
    (
        "script --pids 4096 --rows=16384 --epoch 4611686018427387904",
        Program::Script,
        [1, 4096, 16384, 1 << 62],
    ),
    ("race", Program::Race, [2, 4096, 16384, 1]),
    (
        "race --rows 64 --epoch=7 --seats 16 --pids 0128",
        Program::Race,
        [16, 128, 64, 7],
    ),
    ("race --seats 1", Program::Race, [1, 4096, 16384, 1]),
    // by the rule: pages 148 and 1780, and 2 where there are no keys
    ("script --keys 1000", Program::Script, [1, 192, 1856, 1]),
    (
        "race --seats 4 --keys=1000",
        Program::Race,
        [4, 256, 2816, 1],
    ),
    (
        "script --keys 12199 --epoch 7",
        Program::Script,
        [1, 1792, 16256, 7],
    ),
    ("weave --keys 0", Program::Weave, [2, 64, 832, 1]),
];

/// Lines for large trees, and the numbers of their programs.
const LARGE: [(&str, Program, [u64; 4]); 11] = [
    ("weave --large", Program::Weave, [2, 64, 256, 1]),
    ("draw --large --pids 4160", Program::Draw, [2, 4160, 256, 1]),
    (
        "script --rows=16448 --large",
        Program::Script,
        [1, 64, 16448, 1],
    ),
    (
        "script --large --pids 4194304 --rows=67108864 --epoch 4611686018427387904",
        Program::Script,
        [1, 4194304, 67108864, 1 << 62],
    ),
    (
        "race --rows 64 --large --seats 16",
        Program::Race,
        [16, 4096, 64, 1],
    ),
    (
        "weave --actors 63 --large",
        Program::Weave,
        [63, 64, 256, 1],
    ),
    (
        "race --large --seats 63",
        Program::Race,
        [63, 4096, 16384, 1],
    ),
    // rows are narrow 576, for pages 320, wide 64; and of two actors 17216, 8640, 192
    (
        "script --large --keys 1000",
        Program::Script,
        [1, 192, 960, 1],
    ),
    (
        "race --large --keys 1000 --epoch 9",
        Program::Race,
        [2, 8448, 26048, 9],
    ),
    (
        "draw --keys 1000 --value-bytes 8 --large --key-bytes 16",
        Program::Draw,
        [2, 8448, 26048, 1],
    ),
    (
        "script --large --keys 27068967",
        Program::Script,
        [1, 4194304, 12648768, 1],
    ),
];

#[test]
fn numbers_of_options(rt: HostRuntime) {
    for (line, program, numbers) in NUMBERS {
        assert!(rt;
            says(rt.alloc(), line, Said::Numbers(program, numbers)),
            "{line}"
        );
    }
    for (line, program, numbers) in LARGE {
        assert!(rt;
            says(rt.alloc(), line, Said::Large(program, numbers)),
            "{line}"
        );
    }
}

/// Numbers that are none of 64 bits, words that are none, a flag with a value, and options that stand twice.
const REFUSED: [&str; 31] = [
    "weave --rows x",
    "weave --rows -1",
    "weave --rows 64.0",
    "weave --rows",
    "weave --rows=",
    "weave --rows 18446744073709551616",
    "weave --pids 99999999999999999999",
    "weave --turns 1",
    "weave 1",
    "knit --rows 64",
    "--rows 64 weave",
    "script --actors 1",
    "script --rows x",
    "draw --turns 1",
    "weave --actors 2 --actors 2",
    "weave --rows 64 --pids 64 --rows=64",
    "script --epoch 1 --epoch 1",
    "race --actors 2",
    "race --seats -1",
    "weave --seats 2",
    "race --seats 2 --seats 2",
    "script --large 1",
    "weave --large=true",
    "race --large=",
    "draw --large --large",
    "--large script",
    "weave --keys x",
    "weave --keys",
    "race --keys 1 --keys 1",
    "script --large --keys 1 --key-bytes -1",
    "--keys 1 script",
];

/// Options that are refused beside the others.
const MISPLACED: [(&str, Misplaced); 12] = [
    ("script --keys 1000 --pids 64", Misplaced::Pids),
    ("race --pids 64 --rows 64 --keys 1", Misplaced::Pids),
    ("weave --large --pids 64 --keys 1", Misplaced::Pids),
    ("draw --rows 64 --keys 1", Misplaced::Rows),
    ("film --keys 1 --large --rows 64", Misplaced::Rows),
    ("weave --key-bytes 8", Misplaced::KeyBytes),
    ("race --large --key-bytes 8", Misplaced::KeyBytes),
    ("script --keys 1 --key-bytes 64", Misplaced::KeyBytes),
    ("draw --value-bytes 8", Misplaced::ValueBytes),
    ("script --large --value-bytes 8", Misplaced::ValueBytes),
    ("race --keys 1 --value-bytes 64", Misplaced::ValueBytes),
    (
        "race --large --rows 64 --value-bytes 8",
        Misplaced::ValueBytes,
    ),
];

/// Numbers outside their ranges.
const BAD_LIMITS: [&str; 38] = [
    "weave --actors 0",
    "weave --actors 17",
    "weave --actors 18446744073709551615",
    "weave --pids 0",
    "weave --pids 63",
    "weave --pids 65",
    "weave --pids 4160",
    "weave --rows 0",
    "weave --rows 63",
    "weave --rows 16448",
    "script --rows 100",
    "script --pids 4160",
    "weave --epoch 0",
    "script --epoch 4611686018427387905",
    "race --seats 0",
    "race --seats 17",
    "race --pids 0",
    "race --pids 63",
    "race --pids 4160",
    "script --large --pids 4194368",
    "weave --large --rows 67108928",
    "draw --pids 4161 --large",
    "race --rows 0 --large",
    "weave --large --actors 64",
    "draw --actors 0 --large",
    "race --large --seats 64",
    "race --seats 63",
    "script --keys 12200",
    "race --seats 16 --keys 9752",
    "race --seats 17 --keys 1",
    "weave --actors 0 --large --keys 1",
    "weave --keys 18446744073709551615",
    "script --large --keys 27068968",
    "script --large --keys 18446744073709551615",
    "draw --large --keys 1 --key-bytes 65",
    "film --large --keys 1 --value-bytes 65",
    "weave --keys 1 --epoch 0",
    "race --large --keys 1 --epoch 0",
];

/// Words that ask for help or the version.
const HELP: [&str; 6] = [
    "--help",
    "help",
    "weave -h",
    "help script",
    "--version",
    "-V",
];

#[test]
fn refused_words(rt: HostRuntime) {
    let alloc = rt.alloc();
    all_say(&rt, alloc, &REFUSED, Said::Refused);
    all_say(&rt, alloc, &BAD_LIMITS, Said::BadLimits);
    all_say(&rt, alloc, &HELP, Said::Help);
    for (line, option) in MISPLACED {
        assert!(rt; says(alloc, line, Said::Misplaced(option)), "{line}");
    }
}

/// How many words a narrow row and a page's row have.
#[derive(Clone, Copy, Debug, PartialEq)]
struct RowWords {
    narrow: u64,
    page: u64,
}

/// Those of the limits that a line asks for.
fn widths_of(alloc: Global, line: &str) -> Option<RowWords> {
    limits_of(alloc, line).map(|limits| RowWords {
        narrow: limits.narrow_words,
        page: limits.page_words,
    })
}

// A put of a pair of such lengths, and 19 pairs with two bounds, in words and then whole lines of eight.
#[test]
fn rows_are_sized_by_lengths(rt: HostRuntime) {
    let alloc = rt.alloc();
    for (line, narrow, page) in [
        ("script --large --keys 1", 24, 344),
        (
            "script --large --keys 1 --key-bytes 16 --value-bytes 8",
            8,
            88,
        ),
        (
            "script --large --keys 1 --key-bytes 8 --value-bytes 16",
            8,
            80,
        ),
        ("script --large --keys 1 --key-bytes 8", 16, 200),
        ("script --large --keys 1 --value-bytes 0", 16, 192),
    ] {
        let found = widths_of(alloc, line);
        assert!(rt;
            found == Some(RowWords { narrow, page }),
            "{line}: {found:?}"
        );
    }
}
