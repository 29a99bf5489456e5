//! An upsert that begins with a sweep, stopped after each of its steps, while other actors go on.

use crate::accounts::is_settled;
use crate::by_hand::{begins, finish, replies, steps};
use crate::numbered::{key, value};
use crate::reuse::{has_letters, is_round, rounds, served, serves};
use crate::scripts::{Ask, Line, Say, opened, runs};
use bw_model::{Command, Reply, Step};
use std::alloc::Global;
use step_core::Core;
use traces::Entry;

const UPSERT: Ask = Ask::Upsert(9, 9);

/// Whether actor 0 comes to have rows of three words and PIDs in limbo, some without a stamp: while it takes them out of the tree, actor 1
/// is inside.
fn has_limbo(core: &mut Core) -> bool {
    let end = rounds(6);
    begins(core, 1, Command::Get(key(1)))
        && steps(core, 1, 2, None)
        && served(core, [0; 2], 0, end) == Some(end)
        && finish(core, 1).is_some()
}

/// Whether all is right where actor 0 stops after so many steps of an upsert, actor 2 begins to look a key up, actor 1 removes a page
/// and makes one, and then all go on.
fn goes(alloc: Global, core: &mut Core, stop: u32) -> bool {
    let begin = [
        Line::Begins(0, UPSERT),
        Line::Steps(0, stop, None),
        Line::Begins(2, Ask::Get(11)),
        Line::Steps(2, 5, None),
    ];
    runs(alloc, core, &begin)
        && serves(core, 1, 6, 7)
        && runs(alloc, core, &[Line::Finishes(0, Say::Replaced(9))])
        && serves(core, 1, 7, 8)
        && runs(alloc, core, &[Line::Finishes(2, Say::Value(11))])
        && serves(core, 0, 8, 9)
        && serves(core, 2, 9, 10)
        && runs(
            alloc,
            core,
            &[Line::Replies(1, Ask::Get(11), Say::Value(11))],
        )
        && is_round(alloc, core)
}

/// Whether it goes so on a new core with limbo, whose rows are what they are to be then.
fn goes_on(alloc: Global, stop: u32) -> bool {
    match opened(alloc, 3, 64, 256, 1) {
        Some(mut core) => {
            let goes = has_limbo(&mut core) && goes(alloc, &mut core, stop);
            is_settled(core, &key(20)) && goes
        }
        None => false,
    }
}

// It stops before each step of the sweep, before the entry, and after it.
#[test]
fn a_sweep_stops_anywhere(rt: HostRuntime) {
    for stop in 0..11u32 {
        assert!(rt; goes_on(rt.alloc(), stop), "after {stop} steps");
    }
}

/// A letter for each step of a sweep, and for the entry.
fn letter(entry: &Entry) -> u8 {
    match entry {
        Entry::Step(0, Step::Epoch, _, _) => b'e',
        Entry::Step(0, Step::Retire(_), _, _) => b't',
        Entry::Step(0, Step::Announce(_), _, _) => b'a',
        Entry::Step(0, Step::ReuseRows(_, _), _, _) => b'r',
        Entry::Step(0, Step::ReusePids(_, _), _, _) => b'p',
        Entry::Step(0, Step::Enter(_), _, _) => b'i',
        _ => b'-',
    }
}

/// Whether the upsert begins with a long sweep.
fn is_swept(alloc: Global) -> bool {
    let Some(mut core) = opened(alloc, 3, 64, 256, 1) else {
        return false;
    };
    let limbo = has_limbo(&mut core);
    let turns = core.turns();
    let right = replies(&mut core, 0, UPSERT.command(), Reply::Replaced(value(9)));
    let trace = core.into_trace();
    limbo && right && has_letters(&trace.entries, turns, b"-etaarrrpei", letter)
}

// The epoch is read and retired, two announces are read, three words of rows and one of PIDs are freed; then the upsert enters.
#[test]
fn the_steps_of_a_long_sweep(rt: HostRuntime) {
    assert!(rt; is_swept(rt.alloc()), "the steps of the upsert");
}
