//! Runs of turns: what they answer, and how they are refused.

use crate::by_hand::let_go;
use crate::numbered::{insert, key, value};
use crate::scripts::opened;
use bw_model::{Command, Limits, Reply};
use core_memory::Entries;
use std::alloc::{AllocError, Global};
use step_core::{RunError, run};
use traces::{Entry, Turn};

/// Two inserts of one key, the first of which takes ten steps, and the second seven.
fn inserts(alloc: Global) -> Result<Vec<Turn>, AllocError> {
    let mut turns = vec![in alloc; Turn::Step(0); 19]?;
    turns[0] = Turn::Begin(0, insert(2));
    turns[11] = Turn::Begin(0, Command::Insert(key(2), value(3)));
    Ok(turns)
}

/// The reply of a step.
fn reply_of(entry: Option<Entry>) -> Option<Reply> {
    match entry? {
        Entry::Step(_, _, _, reply) => reply,
        Entry::Begin(_, _) => None,
    }
}

/// Whether these are nineteen entries, with a reply at 10, and one at 18.
fn are_answered(entries: &Entries) -> bool {
    entries.len() == 19
        && reply_of(entries.entry(10)) == Some(Reply::Inserted)
        && reply_of(entries.entry(18)) == Some(Reply::Exists(value(2)))
}

/// The limits of the runs below.
fn limits(actors: u64) -> Option<Limits> {
    Limits::new(actors, 64, 64, 1).ok()
}

/// Whether the two inserts are run.
fn are_run(alloc: Global) -> Option<bool> {
    let turns = inserts(alloc).ok()?;
    let trace = run(alloc, limits(1)?, turns.as_slice()).ok()?;
    Some(are_answered(&trace.entries))
}

#[test]
fn runs_all_turns(rt: HostRuntime) {
    let run = are_run(rt.alloc());
    assert!(rt; run == Some(true), "{run:?}");
}

fn refusal(alloc: Global, actors: u64, turns: &[Turn]) -> Option<RunError> {
    run(alloc, limits(actors)?, turns).err()
}

/// A lookup that begins.
fn begins() -> Turn {
    Turn::Begin(0, Command::Get(key(1)))
}

/// How a turn of an actor that isn't there is refused, a second begin, and a step without an operation.
fn refusals(alloc: Global) -> [Option<RunError>; 3] {
    [
        refusal(alloc, 2, &[Turn::Step(3)]),
        refusal(alloc, 2, &[begins(), begins()]),
        refusal(alloc, 2, &[Turn::Step(0)]),
    ]
}

#[test]
fn refuses_turns(rt: HostRuntime) {
    let refused = refusals(rt.alloc());
    let wanted = [
        Some(RunError::NoActor(0)),
        Some(RunError::Unfinished(1)),
        Some(RunError::NoOperation(0)),
    ];
    assert!(rt; refused == wanted, "{refused:?}");
}

/// How a core of one actor refuses the turns, and how many it has taken before.
fn stopped(alloc: Global, turns: &[Turn]) -> Option<(RunError, u64)> {
    let mut core = opened(alloc, 1, 64, 64, 1)?;
    let refused = core.take_turns(turns).err();
    let taken = core.turns();
    let_go(core);
    Some((refused?, taken))
}

/// The two inserts with another turn in a place, as `run` refuses them, where a core refuses them the same, and has taken the turns before.
fn refused_at(alloc: Global, at: u8, turn: Turn) -> Option<RunError> {
    let mut turns = inserts(alloc).ok()?;
    *turns.get_mut(usize::from(at))? = turn;
    let refused = refusal(alloc, 1, turns.as_slice())?;
    (stopped(alloc, turns.as_slice()) == Some((refused, u64::from(at)))).then_some(refused)
}

#[test]
fn refuses_by_the_turns_before(rt: HostRuntime) {
    for (at, turn, expected) in [
        (10, begins(), RunError::Unfinished(10)),
        (11, Turn::Step(0), RunError::NoOperation(11)),
        (12, begins(), RunError::Unfinished(12)),
    ] {
        let refused = refused_at(rt.alloc(), at, turn);
        assert!(rt; refused == Some(expected), "at {at}: {refused:?}");
    }
}
