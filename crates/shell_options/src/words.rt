//! What the words of a command line mean.

ghost use Rattle.std.specs.Prelude.{◌≡◌, IfErr, IfOk, Some, map, codes};
ghost use Rattle.std.specs.String.{string_bytes};
ghost use Rattle.clap.specs.Words.{found_of, rows_of};
ghost use Rattle.shell_options.specs.Words.{default_pids_of, default_rows_of, number_in, told_by, behind, IsAbsent, IsThere};
ghost use Rattle.shell_options.specs.Words.{SpellsFlag, SpellsOr, SpellsSize, HasActors, HasNumbers, HasNoCounts, HasNoLengths, LacksPairs};
ghost use Rattle.shell_options.specs.Words.{HasNoFault, IsSpelled, IsNamedBy, MayMisplace, MayRefuse};

use crate::grammar::command;
use crate::settings::{Program, Settings, TreeSize};
use clap::error::ErrorKind;
use clap::{ArgMatches, Error};
use std::alloc::Global;

/// An option that may not be given with those beside it. The grammar takes it, since clap doesn't promise which words a grammar takes whose
/// options exclude one another.
#[derive(Clone, Copy, Debug, Drop, PartialEq, Eq, thiserror::Error)]
pub enum Misplaced {
    /// `--pids` beside `--keys`.
    #[error("--pids cannot be used with --keys")]
    Pids,
    /// `--rows` beside `--keys`.
    #[error("--rows cannot be used with --keys")]
    Rows,
    /// `--key-bytes` without both `--keys` and `--large`.
    #[error("--key-bytes can be used only with --keys and --large")]
    KeyBytes,
    /// `--value-bytes` without both `--keys` and `--large`.
    #[error("--value-bytes can be used only with --keys and --large")]
    ValueBytes,
}

/// Why they say nothing.
#[derive(Debug, Drop, thiserror::Error)]
pub enum OptionsError {
    /// The words are outside the grammar, or ask for help.
    #[error(transparent)]
    Clap(Error),
    /// An option is there that may not be given with those beside it.
    #[error("{0}")]
    Misplaced(Misplaced),
    /// A growth of memory was refused.
    #[error("no memory to read the command line")]
    Memory,
}

/// How many bytes a key and a value have at most.
const MOST_BYTES: u64 = 64;

/// The number of the option `name`, if it is there.
fn given(matches: &ArgMatches<'_>, name: &str) -> Result<Option<u64>, OptionsError>
    ensures ok { IfOk result (λ given. given ≡ number_in (rows_of (found_of matches.now)) name.now) }
    ensures refused { IfErr result (λ error. error ≡ OptionsError.Memory) }
{
    match matches.try_get_one::<u64>(name) {
        Ok(number) => Ok(number),
        Err(_) => Err(OptionsError::Memory),
    }
}

/// The number of the option `name`, or `default` where it isn't there.
fn chosen(matches: &ArgMatches<'_>, name: &str, default: u64) -> Result<u64, OptionsError>
    ensures ok { IfOk result (SpellsOr (rows_of (found_of matches.now)) name.now default) }
    ensures refused { IfErr result (λ error. error ≡ OptionsError.Memory) }
{
    Ok(given(matches, name)?.unwrap_or(default))
}

/// Whether the flag `name` is there.
fn has_flag(matches: &ArgMatches<'_>, name: &str) -> Result<bool, OptionsError>
    ensures ok { IfOk result (SpellsFlag (rows_of (found_of matches.now)) name.now) }
    ensures refused { IfErr result (λ error. error ≡ OptionsError.Memory) }
{
    match matches.try_get_one::<bool>(name) {
        Ok(Some(is_there)) => Ok(is_there),
        Ok(None) => Ok(false),
        Err(_) => Err(OptionsError::Memory),
    }
}

/// The number of actors that a program has, from the words behind its name.
fn actors(program: Program, matches: &ArgMatches<'_>) -> Result<u64, OptionsError>
    ensures ok { IfOk result (HasActors program (rows_of (found_of matches.now))) }
    ensures refused { IfErr result (λ error. error ≡ OptionsError.Memory) }
{
    match program {
        Program::Script => Ok(1),
        Program::Weave | Program::Draw | Program::Film => chosen(matches, "actors", 2),
        Program::Race => chosen(matches, "seats", 2),
    }
}

/// How many page identifiers a program has where its words don't say.
fn default_pids(program: Program) -> u64
    ensures { result ≡ default_pids_of program }
{
    match program {
        Program::Script | Program::Weave | Program::Draw | Program::Film => 64,
        Program::Race => 4096,
    }
}

/// How many rows a program has where its words don't say.
fn default_rows(program: Program) -> u64
    ensures { result ≡ default_rows_of program }
{
    match program {
        Program::Script | Program::Weave | Program::Draw | Program::Film => 256,
        Program::Race => 16384,
    }
}

/// Refuses lengths of keys and values, where no large tree is for a number of keys.
fn no_lengths(matches: &ArgMatches<'_>) -> Result<(), OptionsError>
    requires { LacksPairs (rows_of (found_of matches.now)) }
    ensures ok { IfOk result (λ _. HasNoLengths (rows_of (found_of matches.now))) }
    ensures refused { IfErr result (MayMisplace (rows_of (found_of matches.now))) }
{
    if given(matches, "key-bytes")?.is_some() {
        return Err(OptionsError::Misplaced(Misplaced::KeyBytes));
    }
    if given(matches, "value-bytes")?.is_some() {
        return Err(OptionsError::Misplaced(Misplaced::ValueBytes));
    }
    Ok(())
}

/// Refuses numbers of page identifiers and rows, where a number of keys is there.
fn no_counts(matches: &ArgMatches<'_>) -> Result<(), OptionsError>
    requires { IsThere (rows_of (found_of matches.now)) (codes "keys") }
    ensures ok { IfOk result (λ _. HasNoCounts (rows_of (found_of matches.now))) }
    ensures refused { IfErr result (MayMisplace (rows_of (found_of matches.now))) }
{
    if given(matches, "pids")?.is_some() {
        return Err(OptionsError::Misplaced(Misplaced::Pids));
    }
    if given(matches, "rows")?.is_some() {
        return Err(OptionsError::Misplaced(Misplaced::Rows));
    }
    Ok(())
}

/// How large a program's tree is by its numbers of page identifiers and rows, where no number of keys is there.
fn counted(
    program: Program,
    matches: &ArgMatches<'_>,
    is_large: bool,
) -> Result<TreeSize, OptionsError>
    requires kind { SpellsFlag (rows_of (found_of matches.now)) (codes "large") is_large }
    requires no_keys { IsAbsent (rows_of (found_of matches.now)) (codes "keys") }
    ensures ok { IfOk result (SpellsSize program (rows_of (found_of matches.now))) }
    ensures refused { IfErr result (MayMisplace (rows_of (found_of matches.now))) }
{
    no_lengths(matches)?;
    let pids = chosen(matches, "pids", default_pids(program))?;
    let rows = chosen(matches, "rows", default_rows(program))?;
    if is_large {
        Ok(TreeSize::Large { pids, rows })
    } else {
        Ok(TreeSize::Small { pids, rows })
    }
}

/// How large a program's tree is for so many keys, which the words give.
fn proposed(
    program: Program,
    matches: &ArgMatches<'_>,
    is_large: bool,
    keys: u64,
) -> Result<TreeSize, OptionsError>
    requires kind { SpellsFlag (rows_of (found_of matches.now)) (codes "large") is_large }
    requires keys { number_in (rows_of (found_of matches.now)) (codes "keys") ≡ Some keys }
    ensures ok { IfOk result (SpellsSize program (rows_of (found_of matches.now))) }
    ensures refused { IfErr result (MayMisplace (rows_of (found_of matches.now))) }
{
    no_counts(matches)?;
    if !is_large {
        no_lengths(matches)?;
        return Ok(TreeSize::ForKeys { keys });
    }
    let key_bytes = chosen(matches, "key-bytes", MOST_BYTES)?;
    let value_bytes = chosen(matches, "value-bytes", MOST_BYTES)?;
    Ok(TreeSize::ForPairs {
        keys,
        key_bytes,
        value_bytes,
    })
}

/// How large a program's tree is, from the words behind its name.
fn size(program: Program, matches: &ArgMatches<'_>) -> Result<TreeSize, OptionsError>
    ensures ok { IfOk result (SpellsSize program (rows_of (found_of matches.now))) }
    ensures refused { IfErr result (MayMisplace (rows_of (found_of matches.now))) }
{
    let is_large = has_flag(matches, "large")?;
    match given(matches, "keys")? {
        Some(keys) => proposed(program, matches, is_large, keys),
        None => counted(program, matches, is_large),
    }
}

/// The numbers of a program, from the words behind its name.
fn numbers(program: Program, matches: &ArgMatches<'_>) -> Result<Settings, OptionsError>
    ensures ok { IfOk result (HasNumbers (rows_of (found_of matches.now))) }
    ensures program { IfOk result (λ settings. settings.program ≡ program) }
    ensures refused { IfErr result (MayMisplace (rows_of (found_of matches.now))) }
{
    let actors = actors(program, matches)?;
    let size = size(program, matches)?;
    let epoch = chosen(matches, "epoch", 1)?;
    Ok(Settings {
        program,
        actors,
        size,
        epoch,
    })
}

/// The program that the matches name, with its numbers.
fn named_program(matches: &ArgMatches<'_>) -> Result<Settings, OptionsError>
    ensures told { IfOk result (IsNamedBy (told_by matches.now)) }
    ensures refused { IfErr result (MayMisplace (behind (told_by matches.now))) }
{
    if let Some(script) = matches.subcommand_matches("script") {
        return numbers(Program::Script, script);
    }
    if let Some(weave) = matches.subcommand_matches("weave") {
        return numbers(Program::Weave, weave);
    }
    if let Some(draw) = matches.subcommand_matches("draw") {
        return numbers(Program::Draw, draw);
    }
    if let Some(film) = matches.subcommand_matches("film") {
        return numbers(Program::Film, film);
    }
    if let Some(race) = matches.subcommand_matches("race") {
        return numbers(Program::Race, race);
    }
    Err(OptionsError::Memory)
}

/// Reads the words of a command line, the program's name first.
pub fn options(alloc: Global, words: &[String]) -> Result<Settings, OptionsError>
    ensures spelled { IfOk result (IsSpelled (map string_bytes words.now)) }
    ensures refused { IfErr result (MayRefuse (map string_bytes words.now)) }
    ensures faultless { IfOk result (λ _. HasNoFault (map string_bytes words.now)) }
{
    let Ok(command) = command(alloc) else {
        return Err(OptionsError::Memory);
    };
    match command.try_get_matches_from(words) {
        Ok(matches) => named_program(&matches),
        Err(error) if error.kind() == ErrorKind::OutOfMemory => Err(OptionsError::Memory),
        Err(error) => Err(OptionsError::Clap(error)),
    }
}
