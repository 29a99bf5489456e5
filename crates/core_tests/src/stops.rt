//! An operation that stops after each of its steps, while another actor goes on.

use crate::by_hand::{begins, let_go, stepped};
use crate::scripts::{Ask, Line, Say, Size, runs};
use bw_model::Link;
use std::alloc::Global;
use step_core::Core;

/// An operation that stops.
#[derive(Clone, Copy)]
pub(crate) struct Stop {
    pub(crate) actor: u8,
    pub(crate) ask: Ask,
    /// The exchange by which it takes effect.
    pub(crate) link: Link,
    /// How many steps it takes at least, and at most.
    pub(crate) least: u32,
    pub(crate) most: u32,
}

/// Begins the operation, and takes so many steps. Answers whether it has taken effect by then; none where it is done.
fn stopped(core: &mut Core, stop: Stop, steps: u32) -> Option<bool> {
    if begins(core, stop.actor, stop.ask.command()) {
        return stepped(core, stop.actor, steps, stop.link);
    }
    None
}

/// Whether the lines tell what they are to where the operation, behind the first lines, has stopped after so many steps: these where it
/// has taken no effect, and those where it has. None once it is done by then.
fn goes_on(
    alloc: Global,
    core: &mut Core,
    before: &[Line],
    (stop, steps): (Stop, u32),
    early: &[Line],
    late: &[Line],
) -> Option<bool> {
    if !runs(alloc, core, before) {
        return Some(false);
    }
    match stopped(core, stop, steps) {
        Some(true) => Some(runs(alloc, core, late)),
        Some(false) => Some(runs(alloc, core, early)),
        None => None,
    }
}

/// What `goes_on` finds on a new core.
fn goes_on_anew(
    alloc: Global,
    size: Size,
    before: &[Line],
    stop: (Stop, u32),
    early: &[Line],
    late: &[Line],
) -> Option<bool> {
    match size.opened(alloc, 2) {
        Some(mut core) => {
            let right = goes_on(alloc, &mut core, before, stop, early, late);
            let_go(core);
            right
        }
        None => Some(false),
    }
}

/// Whether they do wherever it stops on a core of this size, and it takes as many steps as is said.
fn stops_at_size(
    alloc: Global,
    size: Size,
    before: &[Line],
    stop: Stop,
    early: &[Line],
    late: &[Line],
) -> bool {
    for steps in 0..=stop.most {
        match goes_on_anew(alloc, size, before, (stop, steps), early, late) {
            Some(true) => {}
            Some(false) => return false,
            None => return stop.least <= steps,
        }
    }
    false
}

/// Whether they do wherever it stops, and it takes as many steps as is said; and in a large tree of that size, where it takes other ones.
pub(crate) fn stops_anywhere(
    alloc: Global,
    before: &[Line],
    stop: Stop,
    early: &[Line],
    late: &[Line],
) -> bool {
    let in_large = Stop {
        least: 1,
        most: 1000,
        ..stop
    };
    stops_at_size(alloc, Size::Small(256, 4096), before, stop, early, late)
        && stops_at_size(alloc, Size::Large(256, 4096), before, in_large, early, late)
}

/// What the other actor does on both sides of a split, and what is listed meanwhile; the insert goes on after that.
fn beside(last: u32, listed: u32) -> [Line; 7] {
    let (low, high) = (last.wrapping_sub(2), last.wrapping_sub(1));
    [
        Line::Replies(1, Ask::Insert(1), Say::Inserted),
        Line::Replies(1, Ask::Insert(high), Say::Inserted),
        Line::Replies(1, Ask::Get(2), Say::Value(2)),
        Line::Replies(1, Ask::Get(low), Say::Value(low)),
        Line::ListsAll(1, listed),
        Line::Finishes(0, Say::Inserted),
        Line::ListsAll(1, last),
    ]
}

/// Whether the insert of the last of some keys, all but two of which are there, stops anywhere, and takes so many steps.
fn split_stops(alloc: Global, last: u32, steps: u32) -> bool {
    let stop = Stop {
        actor: 0,
        ask: Ask::Insert(last),
        link: Link::Put,
        least: steps,
        most: steps,
    };
    let before = [Line::Inserts(0, 2, last.wrapping_sub(2))];
    let early = beside(last, last.wrapping_sub(1));
    stops_anywhere(alloc, &before, stop, &early, &beside(last, last))
}

// Two steps enter. Eleven read page 1, four consolidate it, three read it again, ten split it; six read it and the new page, and
// seven put a root over both. Five read the way to the new page, where nothing is left to do, and five read it for the insert,
// which takes four, and one to leave.
#[test]
fn a_split_stops_anywhere(rt: HostRuntime) {
    assert!(rt; split_stops(rt.alloc(), 19, 58), "the insert of k19");
}

// The leaf is consolidated and split; its term is the sixteenth of the root, which is split too, with a new root over both. The
// insert takes eight rows. All of them are in the first word of free bits, since the rows of old chains are used again.
#[test]
fn a_split_of_the_root_stops_anywhere(rt: HostRuntime) {
    assert!(rt; split_stops(rt.alloc(), 131, 126), "the insert of k131");
}
