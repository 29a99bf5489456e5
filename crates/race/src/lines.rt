//! Lines are looked at.

ghost use Rattle.std.specs.Prelude.{◌≡◌, ◌<◌, ◌∷◌, ◌++◌, ℕ, List, length, IfOk, IfErr, MatchOption, OnOk};
ghost use Rattle.bw_shell.specs.Lines.{HasNoFeed};
ghost use Rattle.race.specs.Asked.{AskFor, AsksBehind, RefuseAt, RefusesJobLine};
ghost use Rattle.race.specs.Looked.{AreLinesOf};

use bw_shell::{Refusal, RefusedLine, lines_are_exact};
use shell_lines::{JobCommand, LineError, parse_job_command};
use std::alloc::Global;

/// The bytes up to the first LF, and those behind it.
fn next_line<'a>(rest: &'a [u8]) -> Option<(&'a [u8], &'a [u8])>
    ensures { MatchOption result (HasNoFeed rest.now) (λ r. HasNoFeed r.0.now × (rest.now ≡ r.0.now ++ 10 ∷ r.1.now)) }
{
    for (i, b) in rest.iter().enumerate() {
        if *b == b'\n' {
            return Some((&rest[..i], &rest[i + 1..]));
        }
    }
    None
}

/// Adds the command that a line asks for.
fn look_at(asked: &mut Vec<JobCommand>, line: &[u8]) -> Result<(), Refusal>
    ensures ok { OnOk result (AsksBehind asked.old.items line.now asked.new.items) }
    ensures refused { IfErr result (λ refusal. (0 < length line.now) × RefusesJobLine line.now refusal) }
{
    if line.is_empty() {
        return Ok(());
    }
    match parse_job_command(line) {
        Err(LineError::Malformed) => Err(Refusal::Malformed),
        Err(LineError::TooLong) => Err(Refusal::TooLong),
        Ok(asks) => match asked.push(asks) {
            Ok(()) => Ok(()),
            Err(_) => Err(Refusal::Memory),
        },
    }
}

/// What the lines ask for; without `ended` the whole lines alone.
pub fn look(alloc: Global, bytes: &[u8], ended: bool) -> Result<Vec<JobCommand>, RefusedLine>
    ensures ok { IfOk result (λ asked. (lines : List (List ℕ)) × AreLinesOf bytes.now ended lines × AskFor lines asked.items) }
    ensures refused { IfErr result (λ line. (lines : List (List ℕ)) × AreLinesOf bytes.now ended lines × RefuseAt lines line.number line.refusal) }
{
    lines_are_exact();
    let mut asked = Vec::new(alloc);
    let mut rest = bytes;
    let mut number = 1;
    while let Some((line, behind)) = next_line(rest) {
        if let Err(refusal) = look_at(&mut asked, line) {
            return Err(RefusedLine { number, refusal });
        }
        number += 1;
        rest = behind;
    }
    if !ended {
        return Ok(asked);
    }
    match look_at(&mut asked, rest) {
        Ok(()) => Ok(asked),
        Err(refusal) => Err(RefusedLine { number, refusal }),
    }
}
