//! The grammar of the command line: its programs, and the options of each.

ghost use Rattle.std.specs.Prelude.{◌≡◌, false};
ghost use Rattle.clap.specs.Words.{App, new_app, rule_of, with_rule, with_subcommand};
ghost use Rattle.shell_options.specs.Grammar.{flag_rule, number_rule, keys_rules, limits_rules, IsApp, MakesApp};
ghost use Rattle.shell_options.specs.Grammar.{actors_app, draw_app, film_app, script_app, weave_app, race_app, bwtree_app};

use crate::help;
use clap::{Arg, ArgAction, Command, value_parser};
use std::alloc::{AllocError, Global};

/// An option with a number.
fn option<'a>(alloc: Global, name: &'a str) -> Arg<'a>
    ensures rule { rule_of result ≡ number_rule name.entry.now }
    ensures local { result.global ≡ false }
{
    Arg::new(alloc, name)
        .long(name)
        .value_parser(value_parser!(u64))
}

/// An option with a number, and its line in help.
fn number<'a>(alloc: Global, name: &'a str, help: &'a str) -> Arg<'a>
    ensures rule { rule_of result ≡ number_rule name.entry.now }
    ensures local { result.global ≡ false }
{
    option(alloc, name).help(help)
}

/// The command with one such option more, if there is a command.
fn with_number<'a>(
    alloc: Global,
    command: Result<Command<'a>, AllocError>,
    name: &'a str,
    help: &'a str,
) -> Result<Command<'a>, AllocError>
    ensures { (app : App) → MakesApp app command.entry → MakesApp (with_rule app (number_rule name.entry.now)) result }
{
    command?.arg(number(alloc, name, help))
}

/// A flag: an option without a value.
fn flag<'a>(alloc: Global, name: &'a str) -> Arg<'a>
    ensures rule { rule_of result ≡ flag_rule name.entry.now }
    ensures local { result.global ≡ false }
{
    Arg::new(alloc, name).long(name).action(ArgAction::SetTrue)
}

/// The command with one flag more, if there is a command.
fn with_flag<'a>(
    alloc: Global,
    command: Result<Command<'a>, AllocError>,
    name: &'a str,
    help: &'a str,
) -> Result<Command<'a>, AllocError>
    ensures { (app : App) → MakesApp app command.entry → MakesApp (with_rule app (flag_rule name.entry.now)) result }
{
    command?.arg(flag(alloc, name).help(help))
}

/// The command with the options of limits by a number of keys, if there is a command.
fn with_keys<'a>(
    alloc: Global,
    command: Result<Command<'a>, AllocError>,
) -> Result<Command<'a>, AllocError>
    ensures { (app : App) → MakesApp app command.entry → MakesApp (keys_rules app) result }
{
    let keys_help =
        "Different keys that there will ever be, in place of --pids and --rows: 0 to 12199 for one actor, with --large to some 27 million";
    let command = with_number(alloc, command, "keys", keys_help);
    let key_help =
        "With --large and --keys: bytes of a key, 0 to 64, for which rows are sized [default: 64]";
    let command = with_number(alloc, command, "key-bytes", key_help);
    let value_help =
        "With --large and --keys: bytes of a value, 0 to 64, for which rows are sized [default: 64]";
    with_number(alloc, command, "value-bytes", value_help)
}

/// A program's words: a command with the options of its limits, but for the number of actors.
fn with_limits<'a>(
    alloc: Global,
    command: Result<Command<'a>, AllocError>,
    pids_help: &'a str,
    rows_help: &'a str,
) -> Result<Command<'a>, AllocError>
    ensures { (app : App) → MakesApp app command.entry → MakesApp (limits_rules app) result }
{
    let command = with_number(alloc, command, "pids", pids_help);
    let command = with_number(alloc, command, "rows", rows_help);
    let large_help =
        "A large tree, with the larger ranges: its pages are consolidated at two deltas in place of eight";
    let command = with_flag(alloc, command, "large", large_help);
    let command = with_keys(alloc, command);
    let epoch_help = "The opening epoch, 1 to 4611686018427387904 [default: 1]";
    with_number(alloc, command, "epoch", epoch_help)
}

/// The limits of a program that takes turns.
fn with_few<'a>(
    alloc: Global,
    command: Result<Command<'a>, AllocError>,
) -> Result<Command<'a>, AllocError>
    ensures { (app : App) → MakesApp app command.entry → MakesApp (limits_rules app) result }
{
    with_limits(
        alloc,
        command,
        "Page identifiers, 64 to 4096, with --large to 4194304, a multiple of 64 [default: 64]",
        "Rows for records, 64 to 16384, with --large to 67108864, a multiple of 64; below nine a page, with --large three, a map may be full for good [default: 256]",
    )
}

/// A command without options, and what help says of it.
fn described<'a>(
    alloc: Global,
    name: &'a str,
    about: &'a str,
    example: &'a str,
) -> Result<Command<'a>, AllocError>
    ensures { MakesApp (new_app name.entry.now) result }
{
    Ok(Command::new(alloc, name).about(about).after_help(example))
}

/// The words of a program of several actors that take turns.
fn actors_command<'a>(
    alloc: Global,
    name: &'a str,
    about: &'a str,
    example: &'a str,
) -> Result<Command<'a>, AllocError>
    ensures { MakesApp (actors_app name.entry.now) result }
{
    let command = described(alloc, name, about, example);
    let command = with_number(
        alloc,
        command,
        "actors",
        "Actors, 1 to 16, with --large to 63 [default: 2]",
    );
    with_few(alloc, command)
}

fn weave_command<'a>(alloc: Global) -> Result<Command<'a>, AllocError>
    ensures { MakesApp weave_app result }
{
    actors_command(
        alloc,
        "weave",
        "Runs the lines of standard input, turn by turn, and prints the replies",
        help::WEAVE,
    )
}

fn draw_command<'a>(alloc: Global) -> Result<Command<'a>, AllocError>
    ensures { MakesApp draw_app result }
{
    actors_command(
        alloc,
        "draw",
        "Runs the lines of standard input as weave does, and prints a picture of the tree, as SVG",
        help::DRAW,
    )
}

fn film_command<'a>(alloc: Global) -> Result<Command<'a>, AllocError>
    ensures { MakesApp film_app result }
{
    actors_command(
        alloc,
        "film",
        "Runs the lines of standard input as weave does, and prints a page with a picture of the tree after each step, as HTML",
        help::FILM,
    )
}

fn script_command<'a>(alloc: Global) -> Result<Command<'a>, AllocError>
    ensures { MakesApp script_app result }
{
    let script = described(
        alloc,
        "script",
        "Runs the commands of standard input, one a line, and prints the replies",
        help::SCRIPT,
    );
    with_few(alloc, script)
}

fn race_command<'a>(alloc: Global) -> Result<Command<'a>, AllocError>
    ensures { MakesApp race_app result }
{
    let race = described(
        alloc,
        "race",
        "Runs the jobs of standard input on threads, and prints the replies and all pairs",
        help::RACE,
    );
    let seats_help = "Seats, one thread each, 1 to 16, with --large to 63 [default: 2]";
    let race = with_number(alloc, race, "seats", seats_help);
    with_limits(
        alloc,
        race,
        "Page identifiers, 64 to 4096, with --large to 4194304, a multiple of 64 [default: 4096]",
        "Rows for records, 64 to 16384, with --large to 67108864, a multiple of 64; below nine a page, with --large three, a map may be full for good [default: 16384]",
    )
}

/// The command with a program more, if there is a command, and where that one's words could be made.
fn with_program<'a>(
    command: Result<Command<'a>, AllocError>,
    made: Result<Command<'a>, AllocError>,
) -> Result<Command<'a>, AllocError>
    ensures { (app sub : App) → IsApp app command.entry → MakesApp sub made.entry → IsApp (with_subcommand app sub.top) result }
{
    command?.subcommand(made?)
}

/// The words of all programs.
pub(crate) fn command<'a>(alloc: Global) -> Result<Command<'a>, AllocError>
    ensures { IsApp bwtree_app result }
{
    let command = Command::new(alloc, "bwtree")
        .about("An ordered map of keys to values, kept in a latch-free Bw-tree")
        .version(help::VERSION)
        .after_help(help::PROGRAM)
        .subcommand_required(true);
    let command = with_program(Ok(command), script_command(alloc));
    let command = with_program(command, weave_command(alloc));
    let command = with_program(command, draw_command(alloc));
    let command = with_program(command, film_command(alloc));
    with_program(command, race_command(alloc))
}
