//! One line.

ghost use Rattle.shell_lines.specs.Request.{until_done};
ghost use Rattle.bw_shell.specs.Turns.{trace_of};
ghost use Rattle.bw_shell.specs.Weave.{AskedRuns, RequestRuns, DrawRuns, LineRuns};

use crate::refusal::{Refusal, RefusedLine};
use crate::texts::{show_finished, show_listing, show_turned};
use crate::turns::{begin, pairs_of, schedule_over, step, steps};
use bw_model::{Command, Link};
use byte_streams::Output;
use shell_lines::{Language, LineError, Request, parse};
use std::alloc::Global;
use step_core::Core;

/// How many turns `until` and `finish` take at most.
const MANY: u64 = 100_000;

// So many turns of an actor, fewer if it is done.
fn run_turn<O: Output>(core: &mut Core, actor: u64, count: u64, out: &mut O) -> Result<(), Refusal>
    ensures { RequestRuns (trace_of core.old) (Request.Turn actor count) (trace_of core.new) (O.state out.old) (O.state out.new) result }
{
    match steps(core, actor, None, count) {
        Ok(progress) => {
            show_turned(out, actor, &progress);
            Ok(())
        }
        Err(refusal) => Err(refusal),
    }
}

// Takes turns until an exchange won with the link, if one is given, or the operation is done.
fn run_until<O: Output>(
    core: &mut Core,
    actor: u64,
    link: Option<Link>,
    out: &mut O,
) -> Result<(), Refusal>
    ensures { RequestRuns (trace_of core.old) (until_done actor link) (trace_of core.new) (O.state out.old) (O.state out.new) result }
{
    match steps(core, actor, link, MANY) {
        Ok(progress) => {
            show_finished(out, actor, &progress);
            Ok(())
        }
        Err(refusal) => Err(refusal),
    }
}

// One turn of an actor that was drawn, if it has an operation.
fn run_drawn<O: Output>(core: &mut Core, actor: u8, out: &mut O) -> Result<(), Refusal>
    ensures { DrawRuns (trace_of core.old) actor (trace_of core.new) (O.state out.old) (O.state out.new) result }
{
    if !core.is_busy(actor) {
        return Ok(());
    }
    let actor = u64::from(actor);
    match step(core, actor, None) {
        Ok(progress) => {
            show_turned(out, actor, &progress);
            Ok(())
        }
        Err(refusal) => Err(refusal),
    }
}

// So many draws of the seed's schedule.
fn run_mix<O: Output>(core: &mut Core, seed: u64, count: u64, out: &mut O) -> Result<(), Refusal>
    ensures { RequestRuns (trace_of core.old) (Request.Mix seed count) (trace_of core.new) (O.state out.old) (O.state out.new) result }
{
    let mut schedule = schedule_over(core, seed);
    for _draw in 0..count {
        let actor = schedule.next();
        match run_drawn(core, actor, out) {
            Ok(()) => {}
            Err(refusal) => return Err(refusal),
        }
    }
    Ok(())
}

// A command of a script, which actor 0 runs to its end.
fn run_command<O: Output>(core: &mut Core, command: Command, out: &mut O) -> Result<(), Refusal>
    ensures { RequestRuns (trace_of core.old) (Request.Run command) (trace_of core.new) (O.state out.old) (O.state out.new) result }
{
    match begin(core, 0, command) {
        Ok(()) => run_until(core, 0, None, out),
        Err(refusal) => Err(refusal),
    }
}

fn run_list<O: Output>(alloc: Global, core: &mut Core, out: &mut O) -> Result<(), Refusal>
    ensures { RequestRuns (trace_of core.old) Request.List (trace_of core.new) (O.state out.old) (O.state out.new) result }
{
    match pairs_of(alloc, core) {
        Ok(pairs) => {
            show_listing(out, pairs.as_slice());
            Ok(())
        }
        Err(refusal) => Err(refusal),
    }
}

fn run_request<O: Output>(
    alloc: Global,
    core: &mut Core,
    request: Request,
    out: &mut O,
) -> Result<(), Refusal>
    ensures { RequestRuns (trace_of core.old) request (trace_of core.new) (O.state out.old) (O.state out.new) result }
{
    match request {
        Request::Begin(actor, command) => begin(core, actor, command),
        Request::Turn(actor, count) => run_turn(core, actor, count, out),
        Request::Until(actor, link) => run_until(core, actor, Some(link), out),
        Request::Finish(actor) => run_until(core, actor, None, out),
        Request::Mix(seed, count) => run_mix(core, seed, count, out),
        Request::List => run_list(alloc, core, out),
        Request::Run(command) => run_command(core, command, out),
    }
}

// Runs what a line asks for.
fn run_asked<O: Output>(
    alloc: Global,
    language: Language,
    core: &mut Core,
    line: &[u8],
    out: &mut O,
) -> Result<(), Refusal>
    ensures { AskedRuns language (trace_of core.old) line.now (trace_of core.new) (O.state out.old) (O.state out.new) result }
{
    match parse(language, line) {
        Ok(request) => run_request(alloc, core, request, out),
        Err(LineError::Malformed) => Err(Refusal::Malformed),
        Err(LineError::TooLong) => Err(Refusal::TooLong),
    }
}

/// Runs a line, and answers it if it was refused.
pub fn run_line<O: Output>(
    alloc: Global,
    language: Language,
    core: &mut Core,
    number: u64,
    line: &[u8],
    out: &mut O,
) -> Option<RefusedLine>
    ensures { LineRuns language number (trace_of core.old) line.now (trace_of core.new) (O.state out.old) (O.state out.new) result }
{
    if line.is_empty() {
        return None;
    }
    match run_asked(alloc, language, core, line, out) {
        Ok(()) => None,
        Err(refusal) => Some(RefusedLine { number, refusal }),
    }
}
