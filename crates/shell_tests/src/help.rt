//! What help and refused numbers print.

use crate::words::words;
use bw_model::Limits;
use bw_shell::Refusal;
use shell_options::{OptionsError, options};
use std::alloc::Global;
use std::test::Fail;

/// What is printed for a line that asks for help or the version.
fn help_of(alloc: Global, line: &str) -> Result<String, Fail> {
    match options(alloc, words(alloc, line)?.as_slice()) {
        Err(OptionsError::Clap(error)) => Ok(format!(in alloc; "{error}")?),
        _ => Err(Fail::from("it asks for no help")),
    }
}

#[test]
fn the_version_is_printed(rt: HostRuntime) -> Result<(), Fail> {
    let version = help_of(rt.alloc(), "--version")?;
    assert_eq!(rt; version.as_str(), "bwtree 0.2.0\n", "the version");
    Ok(())
}

/// All refusals.
const REFUSALS: [Refusal; 11] = [
    Refusal::TooLong,
    Refusal::BadLimits,
    Refusal::NoActor,
    Refusal::Unfinished,
    Refusal::NoOperation,
    Refusal::Memory,
    Refusal::NotClosed,
    Refusal::Malformed,
    Refusal::NotOpened,
    Refusal::NotRun,
    Refusal::WrongResults,
];

#[test]
fn help_lists_each_refusal(rt: HostRuntime) -> Result<(), Fail> {
    let help = help_of(rt.alloc(), "--help")?;
    for refusal in REFUSALS {
        let line = format!(in rt.alloc(); "\n  {} ", refusal.code())?;
        assert!(rt;
            help.as_str().contains(line.as_str()),
            "{refusal} isn't in {help}"
        );
    }
    Ok(())
}

// The numbers are those that the rule proposes. Of a large tree they are without the room for what others take out while a seat is stopped.
#[test]
fn help_sizes_a_tree(rt: HostRuntime) -> Result<(), Fail> {
    let alloc = rt.alloc();
    let help = help_of(alloc, "help")?;
    let small = Limits::for_keys(4, 1000).expect(&rt, "limits for a thousand keys");
    let small_words = format!(in alloc; "--pids {} --rows {}", small.pids, small.rows)?;
    let leaves: u64 = 100_000 / 8 + 1;
    let pages = leaves + leaves / 6 + 1;
    let pids = (pages + pages / 16 + 1 + 22 * 4).div_ceil(64) * 64;
    let rows = (3 * pids + 240 * 4).div_ceil(64) * 64;
    let large_words = format!(in alloc; "--large --pids {pids} --rows {rows}")?;
    assert!(rt;
        help.as_str().contains(small_words.as_str()),
        "{small_words} isn't in {help}"
    );
    assert!(rt;
        help.as_str().contains(large_words.as_str()),
        "{large_words} isn't in {help}"
    );
    Ok(())
}

/// Words of help, and what each program's help has.
const LISTED: [(&str, &[&str]); 5] = [
    (
        "help script",
        &[
            "get K ",
            "insert K V ",
            "upsert K V ",
            "delete K ",
            "delete_if K E ",
            "swap K E V ",
            "add K N ",
            "page K ",
            "back K ",
            "tidy K ",
            "list ",
            "full",
        ],
    ),
    (
        "help weave",
        &[
            "begin A CMD ",
            "turn A N ",
            "until A LINK ",
            "finish A ",
            "mix SEED N ",
            "list ",
        ],
    ),
    ("help draw", &["help weave"]),
    ("help film", &["help weave", "2000 at most", "#12"]),
    ("help race", &["J CMD"]),
];

#[test]
fn help_lists_each_line(rt: HostRuntime) -> Result<(), Fail> {
    for (line, listed) in LISTED {
        let help = help_of(rt.alloc(), line)?;
        for part in listed {
            assert!(rt;
                help.as_str().contains(*part),
                "{line}: no {part} in {help}"
            );
        }
    }
    Ok(())
}

/// What is said of the first number of a line that is outside its range.
fn outside(alloc: Global, line: &str) -> Result<String, Fail> {
    match options(alloc, words(alloc, line)?.as_slice()) {
        Ok(settings) => match settings.out_of_range() {
            Some(found) => Ok(format!(in alloc; "{found}")?),
            None => Err(Fail::from("no number is outside its range")),
        },
        Err(_) => Err(Fail::from("the words are refused")),
    }
}

/// Lines, and what is said of them.
const OUTSIDE: [(&str, &str); 14] = [
    (
        "weave --actors 0 --pids 63",
        "0 is outside the range of --actors: 1 to 16, or with --large to 63",
    ),
    (
        "race --seats 17",
        "17 is outside the range of --seats: 1 to 16, or with --large to 63",
    ),
    (
        "weave --pids 65",
        "65 is outside the range of --pids: a multiple of 64 from 64 to 4096, or with --large to 4194304",
    ),
    (
        "draw --large --pids 4194368",
        "4194368 is outside the range of --pids: a multiple of 64 from 64 to 4194304",
    ),
    (
        "script --rows 16448 --epoch 0",
        "16448 is outside the range of --rows: a multiple of 64 from 64 to 16384, or with --large to 67108864",
    ),
    (
        "race --large --rows 0",
        "0 is outside the range of --rows: a multiple of 64 from 64 to 67108864",
    ),
    (
        "script --epoch 0",
        "0 is outside the range of --epoch: 1 to 4611686018427387904",
    ),
    (
        "weave --large --epoch 4611686018427387905",
        "4611686018427387905 is outside the range of --epoch: 1 to 4611686018427387904",
    ),
    (
        "script --keys 12200",
        "12200 is outside the range of --keys: 0 to 12199, or with --large to some 27 million",
    ),
    (
        "race --keys 9752 --seats 16 --epoch 0",
        "9752 is outside the range of --keys: 0 to 9751, or with --large to some 27 million",
    ),
    (
        "race --keys 9752 --seats 17",
        "17 is outside the range of --seats: 1 to 16, or with --large to 63",
    ),
    (
        "race --large --keys 100000000",
        "100000000 is outside the range of --keys: 0 to some 27 million",
    ),
    (
        "draw --large --keys 1 --key-bytes 65 --value-bytes 65",
        "65 is outside the range of --key-bytes: 0 to 64",
    ),
    (
        "film --large --keys 1 --value-bytes 66",
        "66 is outside the range of --value-bytes: 0 to 64",
    ),
];

/// Lines with an option that is refused beside the others, and what is printed of it.
const MISPLACED: [(&str, &str); 4] = [
    (
        "script --keys 1 --pids 64",
        "--pids cannot be used with --keys",
    ),
    (
        "race --keys 1 --rows 64",
        "--rows cannot be used with --keys",
    ),
    (
        "weave --large --key-bytes 8",
        "--key-bytes can be used only with --keys and --large",
    ),
    (
        "draw --keys 1 --value-bytes 8",
        "--value-bytes can be used only with --keys and --large",
    ),
];

#[test]
fn a_misplaced_option_is_named(rt: HostRuntime) -> Result<(), Fail> {
    for (line, told) in MISPLACED {
        match options(rt.alloc(), words(rt.alloc(), line)?.as_slice()) {
            Err(error) => {
                let text = format!(in rt.alloc(); "{error}")?;
                assert_eq!(rt; text.as_str(), told, "{line}");
            }
            Ok(_) => return Err(Fail::from("the words are taken")),
        }
    }
    Ok(())
}

#[test]
fn a_number_outside_its_range_is_named(rt: HostRuntime) -> Result<(), Fail> {
    for (line, told) in OUTSIDE {
        let text = outside(rt.alloc(), line)?;
        assert_eq!(rt; text.as_str(), told, "{line}");
    }
    Ok(())
}
