//! The turns of a trace.
ghost use Rattle.std.specs.Prelude.{◌≡◌, ◌<◌, ◌+◌, ◌^◌, IfOk, map};
ghost use Rattle.traces.specs.trace.Trace.{turn_of};
ghost use Rattle.filming.specs.Films.{next_frame, steps_in};

use std::alloc::{AllocError, Global};
use step_core::Trace;
use traces::{Entry, Turn};

/// The turns of a trace; refused for want of memory alone.
pub(crate) fn turns_of(alloc: Global, trace: &Trace) -> Result<Vec<Turn>, AllocError>
    ensures { IfOk result (λ turns. turns.items ≡ map turn_of trace.now.entries.items) }
{
    let mut turns = Vec::new(alloc);
    for place in 0..trace.entries.len() {
        match trace.entries.entry(place) {
            Some(entry) => turns.push(turn_of(entry))?,
            None => unreachable!(),
        }
    }
    Ok(turns)
}

/// The turn that an entry belongs to.
fn turn_of(entry: Entry) -> Turn
    ensures { result ≡ turn_of entry }
{
    match entry {
        Entry::Begin(actor, command) => Turn::Begin(actor, command),
        Entry::Step(actor, _, _, _) => Turn::Step(actor),
    }
}

/// How many of the turns take a step.
pub(crate) fn steps_in(turns: &[Turn]) -> u64
    ensures { result ≡ steps_in turns.now }
{
    let mut steps = 0;
    for turn in turns {
        steps = next_frame(steps, turn);
    }
    steps
}

/// The number behind a turn's frame, if it has one.
pub(crate) fn next_frame(number: u64, turn: &Turn) -> u64
    requires { number + 1 < 2 ^ 64 }
    ensures { result ≡ next_frame number turn.now }
{
    match turn {
        Turn::Begin(_, _) => number,
        Turn::Step(_) => number + 1,
    }
}
