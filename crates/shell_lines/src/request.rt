//! What a line asks for.

ghost use Rattle.std.specs.Prelude.{◌≡◌, ◌&&◌, ℕ, List, nat_le, IfOk, IfSome, IsErrOf};
ghost use Rattle.std.specs.Option.{option_copied};
ghost use Rattle.shell_lines.specs.Fields.{fields_in, fields_of};
ghost use Rattle.shell_lines.specs.Gives.{Gives};
ghost use Rattle.shell_lines.specs.Request.{Says, IsShortRequest};
ghost use Rattle.shell_lines.specs.Both.{both_of};
ghost use Rattle.shell_lines.specs.Reading.{GivesCommand, GivesPair, GivesRequest, key_in, pair_in, pair_said, swap_in, swap_said};
ghost use Rattle.shell_lines.specs.Reading.{addition_in, addition_said, command_in, begin_in};
ghost use Rattle.shell_lines.specs.Reading.{turn_in, link_in, until_in, finish_in, mix_in, list_in, woven_in, script_in, request_in};
ghost use Rattle.shell_lines.specs.declared.request.Language.{Language as LanguageSeen};
ghost use Rattle.shell_lines.specs.declared.request.Request.{Request as RequestSeen};

use crate::fields::{next_field, one_field, spells, three_fields, two_fields};
use crate::number::{read_number, read_seed};
use crate::token::{LineError, key_of, needed, value_of};
use bw_model::{Command, Key, Link, Value};

/// Which lines a program takes.
#[derive(Clone, Copy)]
pub enum Language {
    /// Commands, each of which is run to its end.
    Script,
    /// Operations of several actors, turn by turn.
    Weave,
}

/// What a line asks for.
#[derive(Drop)]
pub enum Request {
    /// An actor begins an operation.
    Begin(u64, Command),
    /// An actor takes so many turns, fewer if it is done.
    Turn(u64, u64),
    /// An actor takes turns until an exchange of its own won with the link, or it is done.
    Until(u64, Link),
    /// An actor takes turns until it is done.
    Finish(u64),
    /// So many actors that a seed draws take a turn each.
    Mix(u64, u64),
    /// All pairs are shown.
    List,
    /// Actor 0 begins an operation, and takes turns until it is done.
    Run(Command),
}

#[tactic(auto, unfolding(crate::specs::Reading::key_in))]
fn read_key(args: Option<&[u8]>) -> Result<Key, LineError>
    ensures { Gives result (key_in (fields_in (option_copied args.entry))) }
{
    key_of(needed(one_field(args))?)
}

// What two parts of a line give together: one outside the grammar comes before one that is too long.
fn both<A: Drop, B: Drop>(
    first: Result<A, LineError>,
    second: Result<B, LineError>,
) -> Result<(A, B), LineError>
    ensures { result ≡ both_of first second }
{
    match (first, second) {
        (Ok(first), Ok(second)) => Ok((first, second)),
        (Err(LineError::Malformed), _) | (_, Err(LineError::Malformed)) => {
            Err(LineError::Malformed)
        }
        _ => Err(LineError::TooLong),
    }
}

fn pair_by(key: &[u8], value: &[u8]) -> Result<(Key, Value), LineError>
    ensures { GivesPair result (pair_said key.now value.now) }
{
    both(key_of(key), value_of(value))
}

#[tactic(auto, unfolding(crate::specs::Reading::pair_in))]
fn read_pair(args: Option<&[u8]>) -> Result<(Key, Value), LineError>
    ensures { GivesPair result (pair_in (fields_in (option_copied args.entry))) }
{
    let (key, value) = needed(two_fields(args))?;
    pair_by(key, value)
}

// A swap of a key, from the expected value to the new one.
fn swap_by(key: &[u8], expected: &[u8], new: &[u8]) -> Result<Command, LineError>
    ensures { GivesCommand result (swap_said key.now expected.now new.now) }
{
    let ((key, expected), new) = both(pair_by(key, expected), value_of(new))?;
    Ok(Command::Swap(key, expected, new))
}

#[tactic(auto, unfolding(crate::specs::Reading::swap_in))]
fn read_swap(args: Option<&[u8]>) -> Result<Command, LineError>
    ensures { GivesCommand result (swap_in (fields_in (option_copied args.entry))) }
{
    let (key, expected, new) = needed(three_fields(args))?;
    swap_by(key, expected, new)
}

// An addition of a number to what a key has.
fn addition_by(key: &[u8], number: &[u8]) -> Result<Command, LineError>
    ensures { GivesCommand result (addition_said key.now number.now) }
{
    let (key, number) = both(key_of(key), needed(read_seed(number)))?;
    Ok(Command::Add(key, number))
}

#[tactic(auto, unfolding(crate::specs::Reading::addition_in))]
fn read_addition(args: Option<&[u8]>) -> Result<Command, LineError>
    ensures { GivesCommand result (addition_in (fields_in (option_copied args.entry))) }
{
    let (key, number) = needed(two_fields(args))?;
    addition_by(key, number)
}

// The command that the fields spell.
#[tactic(auto, unfolding(crate::specs::Reading::command_in))]
pub fn read_command(fields: Option<&[u8]>) -> Result<Command, LineError>
    ensures { GivesCommand result (command_in (fields_in (option_copied fields.entry))) }
{
    let (verb, args) = needed(next_field(fields))?;
    if spells(verb, "get") {
        return Ok(Command::Get(read_key(args)?));
    }
    if spells(verb, "insert") {
        let (key, value) = read_pair(args)?;
        return Ok(Command::Insert(key, value));
    }
    if spells(verb, "upsert") {
        let (key, value) = read_pair(args)?;
        return Ok(Command::Upsert(key, value));
    }
    if spells(verb, "delete") {
        return Ok(Command::Delete(read_key(args)?));
    }
    if spells(verb, "delete_if") {
        let (key, expected) = read_pair(args)?;
        return Ok(Command::DeleteIf(key, expected));
    }
    if spells(verb, "swap") {
        return read_swap(args);
    }
    if spells(verb, "add") {
        return read_addition(args);
    }
    if spells(verb, "page") {
        return Ok(Command::Page(read_key(args)?));
    }
    if spells(verb, "back") {
        return Ok(Command::Back(read_key(args)?));
    }
    if spells(verb, "tidy") {
        return Ok(Command::Tidy(read_key(args)?));
    }
    Err(LineError::Malformed)
}

#[tactic(auto, unfolding(crate::specs::Reading::begin_in))]
fn read_begin(args: Option<&[u8]>) -> Result<Request, LineError>
    ensures { GivesRequest result (begin_in (fields_in (option_copied args.entry))) }
{
    let (actor, rest) = needed(next_field(args))?;
    let actor = needed(read_number(actor))?;
    let command = read_command(rest)?;
    Ok(Request::Begin(actor, command))
}

// Whether a line may ask for so many turns or draws.
fn is_count(count: u64) -> bool
    ensures { result ≡ (nat_le 1 count && nat_le count 100000) }
{
    count >= 1 && count <= 100_000
}

#[tactic(auto, unfolding(crate::specs::Reading::turn_in))]
fn read_turn(args: Option<&[u8]>) -> Option<Request>
    ensures read { result ≡ turn_in (fields_in (option_copied args.entry)) }
    ensures short { IfSome result IsShortRequest }
{
    let (actor, count) = two_fields(args)?;
    let actor = read_number(actor)?;
    let count = read_number(count)?;
    if is_count(count) {
        Some(Request::Turn(actor, count))
    } else {
        None
    }
}

#[tactic(auto, unfolding(crate::specs::Reading::link_in))]
fn read_link(word: &[u8]) -> Option<Link>
    ensures { result ≡ link_in word.now }
{
    if spells(word, "put") {
        return Some(Link::Put);
    }
    if spells(word, "delete") {
        return Some(Link::Delete);
    }
    if spells(word, "base") {
        return Some(Link::Base);
    }
    if spells(word, "split") {
        return Some(Link::Split);
    }
    if spells(word, "term") {
        return Some(Link::Term);
    }
    if spells(word, "root") {
        return Some(Link::Root);
    }
    if spells(word, "hold") {
        return Some(Link::Hold);
    }
    if spells(word, "remove") {
        return Some(Link::Remove);
    }
    if spells(word, "merge") {
        return Some(Link::Merge);
    }
    if spells(word, "unterm") {
        return Some(Link::Unterm);
    }
    if spells(word, "clear") {
        return Some(Link::Clear);
    }
    None
}

#[tactic(auto, unfolding(crate::specs::Reading::until_in))]
fn read_until(args: Option<&[u8]>) -> Option<Request>
    ensures read { result ≡ until_in (fields_in (option_copied args.entry)) }
    ensures short { IfSome result IsShortRequest }
{
    let (actor, word) = two_fields(args)?;
    let actor = read_number(actor)?;
    let link = read_link(word)?;
    Some(Request::Until(actor, link))
}

#[tactic(auto, unfolding(crate::specs::Reading::finish_in))]
fn read_finish(args: Option<&[u8]>) -> Option<Request>
    ensures read { result ≡ finish_in (fields_in (option_copied args.entry)) }
    ensures short { IfSome result IsShortRequest }
{
    let actor = read_number(one_field(args)?)?;
    Some(Request::Finish(actor))
}

#[tactic(auto, unfolding(crate::specs::Reading::mix_in))]
fn read_mix(args: Option<&[u8]>) -> Option<Request>
    ensures read { result ≡ mix_in (fields_in (option_copied args.entry)) }
    ensures short { IfSome result IsShortRequest }
{
    let (seed, count) = two_fields(args)?;
    let seed = read_seed(seed)?;
    let count = read_number(count)?;
    if is_count(count) {
        Some(Request::Mix(seed, count))
    } else {
        None
    }
}

#[tactic(auto, unfolding(crate::specs::Reading::list_in))]
fn read_list(args: Option<&[u8]>) -> Option<Request>
    ensures read { result ≡ list_in (fields_in (option_copied args.entry)) }
    ensures short { IfSome result IsShortRequest }
{
    match next_field(args) {
        Some(_) => None,
        None => Some(Request::List),
    }
}

// A request in which nothing can be too long.
fn given(request: Option<Request>) -> Result<Request, LineError>
    requires { IfSome request IsShortRequest }
    ensures { GivesRequest result request }
{
    needed(request)
}

#[tactic(auto, unfolding(crate::specs::Reading::woven_in))]
fn read_woven(line: &[u8]) -> Result<Request, LineError>
    ensures { GivesRequest result (woven_in (fields_of line.now)) }
{
    let (verb, args) = needed(next_field(Some(line)))?;
    if spells(verb, "begin") {
        return read_begin(args);
    }
    if spells(verb, "turn") {
        return given(read_turn(args));
    }
    if spells(verb, "until") {
        return given(read_until(args));
    }
    if spells(verb, "finish") {
        return given(read_finish(args));
    }
    if spells(verb, "mix") {
        return given(read_mix(args));
    }
    if spells(verb, "list") {
        return given(read_list(args));
    }
    given(None)
}

#[tactic(auto, unfolding(crate::specs::Reading::script_in))]
fn read_script(line: &[u8]) -> Result<Request, LineError>
    ensures { GivesRequest result (script_in (fields_of line.now)) }
{
    let (verb, args) = needed(next_field(Some(line)))?;
    if spells(verb, "list") {
        return given(read_list(args));
    }
    let command = read_command(Some(line))?;
    Ok(Request::Run(command))
}

fn read_fields(language: Language, line: &[u8]) -> Result<Request, LineError>
    ensures { GivesRequest result (request_in language (fields_of line.now)) }
{
    match language {
        Language::Script => read_script(line),
        Language::Weave => read_woven(line),
    }
}

/// What a line asks for, by the grammar.
pub fn parse(language: Language, line: &[u8]) -> Result<Request, LineError>
    ensures ok { IfOk result (λ request. Says language line.now request × IsShortRequest request) }
    ensures malformed { IsErrOf result LineError.Malformed → (request : RequestSeen) → Says language line.now request → ⊥ }
    ensures too_long { IsErrOf result LineError.TooLong → (request : RequestSeen) × Says language line.now request × (IsShortRequest request → ⊥) }
{
    if line.len() > 1024 {
        return Err(LineError::Malformed);
    }
    read_fields(language, line)
}

/// A line asks for one thing at most.
pub fn requests_are_exact()
    ensures { (language : LanguageSeen) (line : List ℕ) (a b : RequestSeen) → Says language line a → Says language line b → a ≡ b }
{}
