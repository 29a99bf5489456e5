//! A removal on level 2 beside each of seven commands, and beside a page backward: the delete stops after each of its steps, and the command goes to
//! its end; and the other way round. How many turns each takes at most is known.

use crate::by_hand::{begins, end, let_go, until};
use crate::level_two::{KEYS, LAST, extra, grown, regrows, shrinks};
use crate::numbered::{back_page, key, page, value};
use crate::scripts::lists_all;
use bw_model::{Command, Link, Reply};
use std::alloc::Global;
use step_core::Core;

/// A command of the other actor on the way of the removal, and what it replies: a lookup, a cursor page, an insert that splits a leaf, an update,
/// a second delete, a swap, a tidying, and a page backward of the leaf into which the removed one was merged.
fn asked(place: usize) -> (Command, Reply) {
    match place {
        0 => (Command::Get(key(1_019)), Reply::Value(value(1_019))),
        1 => (Command::Page(key(977)), page(977, 987, Some(993))),
        2 => (Command::Insert(extra(b'f'), value(971)), Reply::Inserted),
        3 => (
            Command::Upsert(key(1_018), value(7)),
            Reply::Replaced(value(1_018)),
        ),
        4 => (Command::Delete(key(1_017)), Reply::Deleted(value(1_017))),
        5 => (
            Command::Swap(key(1_016), value(1_016), value(7)),
            Reply::Swapped,
        ),
        6 => (Command::Tidy(key(1_018)), Reply::Tidied),
        _ => (
            Command::Back(key(1_019)),
            back_page(1_009, 1_019, Some(1_009)),
        ),
    }
}

/// How many turns the command takes at most, and the delete after it, and how often the one stopped.
#[derive(Clone, Copy, Debug, PartialEq, Eq)]
struct Most {
    other: u32,
    delete: u32,
    stops: u32,
}

const NOTHING: Most = Most {
    other: 0,
    delete: 0,
    stops: 0,
};

impl Most {
    /// The most of both.
    fn and(self, more: Most) -> Most {
        Most {
            other: self.other.max(more.other),
            delete: self.delete.max(more.delete),
            stops: self.stops.saturating_add(more.stops),
        }
    }
}

/// More turns than an operation takes.
const BOUND: u32 = 1_000;

/// How many turns an actor's operation takes to its end, within the bound, where it has this reply.
fn turns(core: &mut Core, actor: u8, wanted: &Reply) -> Option<u32> {
    for count in 1..=BOUND {
        if core.step_on(actor).is_none() {
            return (end(core, actor).as_ref() == Some(wanted)).then_some(count);
        }
    }
    None
}

/// Whether an actor takes so many steps, and none of them is its operation's last one.
fn goes_on(core: &mut Core, actor: u8, count: u32) -> bool {
    for _ in 0..count {
        if core.step_on(actor).is_none() {
            return false;
        }
    }
    true
}

/// Whether the delete begins, and its leaf and the page above that are removed and cleared: what follows is the removal of the page of level 2.
fn comes_to_level_2(core: &mut Core) -> bool {
    shrinks(core)
        && begins(core, 0, Command::Delete(key(LAST)))
        && until(core, 0, Link::Clear)
        && until(core, 0, Link::Clear)
}

/// The delete stops after so many steps of that, the command goes to its end, and then the delete. None where a reply is wrong; no stop where
/// the delete is done by then.
fn delete_stops(core: &mut Core, place: usize, count: u32) -> Option<Most> {
    let deleted = Reply::Deleted(value(LAST));
    let (command, wanted) = asked(place);
    if !comes_to_level_2(core) {
        return None;
    }
    if !goes_on(core, 0, count) {
        return (end(core, 0) == Some(deleted)).then_some(NOTHING);
    }
    if !begins(core, 1, command) {
        return None;
    }
    let other = turns(core, 1, &wanted)?;
    let delete = turns(core, 0, &deleted)?;
    Some(Most {
        other,
        delete,
        stops: 1,
    })
}

/// The command stops after so many steps, the delete goes to its end, from its begin on, and then the command. None where a reply is wrong; no
/// stop where the command is done by then.
fn other_stops(core: &mut Core, place: usize, count: u32) -> Option<Most> {
    let deleted = Reply::Deleted(value(LAST));
    let (command, wanted) = asked(place);
    if !shrinks(core) || !begins(core, 1, command) {
        return None;
    }
    let stopped = goes_on(core, 1, count);
    if !stopped && end(core, 1) != Some(wanted.copied()) {
        return None;
    }
    if !begins(core, 0, Command::Delete(key(LAST))) {
        return None;
    }
    let delete = turns(core, 0, &deleted)?;
    if !stopped {
        return Some(NOTHING);
    }
    let other = turns(core, 1, &wanted)?;
    Some(Most {
        other,
        delete,
        stops: 1,
    })
}

/// Which of both stops.
#[derive(Clone, Copy)]
enum Stops {
    Delete,
    Other,
}

/// One of both stops after so many steps, and then the tree grows to what it was.
fn stands(core: &mut Core, which: Stops, place: usize, count: u32) -> Option<Most> {
    let most = match which {
        Stops::Delete => delete_stops(core, place, count),
        Stops::Other => other_stops(core, place, count),
    };
    if regrows(core) { most } else { None }
}

/// How many stops a core has, so that its trace stays short.
const STOPS: u32 = 32;

/// It stops after some numbers of steps, each so many after the last one, on a new core.
fn some_stops(
    alloc: Global,
    which: Stops,
    place: usize,
    (first, apart): (u32, u32),
) -> Option<Most> {
    let mut core = grown(alloc, 2)?;
    let mut most = NOTHING;
    let mut right = true;
    for stop in first..first.saturating_add(STOPS) {
        match stands(&mut core, which, place, stop.saturating_mul(apart)) {
            Some(more) => most = most.and(more),
            None => right = false,
        }
    }
    let right = right && lists_all(alloc, &core, 1, KEYS);
    let_go(core);
    right.then_some(most)
}

/// It stops after each of its steps, or of every so many ones.
fn all_stops(alloc: Global, which: Stops, place: usize, apart: u32) -> Option<Most> {
    let mut most = NOTHING;
    for part in 0..BOUND / STOPS {
        let more = some_stops(alloc, which, place, (part * STOPS, apart))?;
        most = most.and(more);
        if more.stops < STOPS {
            return Some(most);
        }
    }
    None
}

/// So many turns of the command and of the delete at most, and so many stops.
fn at_most(other: u32, delete: u32, stops: u32) -> Most {
    Most {
        other,
        delete,
        stops,
    }
}

// A lookup and a cursor page go past the removed page. Writers help the removal to its end, or do it themselves.
#[test]
fn a_removal_on_level_2_stops_anywhere(rt: HostRuntime) {
    for (place, expected) in [
        (0, at_most(41, 208, 156)),
        (1, at_most(37, 208, 156)),
        (2, at_most(273, 191, 157)),
        (3, at_most(150, 190, 157)),
        (4, at_most(212, 78, 157)),
        (5, at_most(150, 190, 157)),
        (6, at_most(231, 48, 157)),
    ] {
        let found = all_stops(rt.alloc(), Stops::Delete, place, 1);
        assert!(rt; found == Some(expected), "command {place}: {found:?}");
    }
}

// A page backward goes past the removed page, as a cursor page does.
#[test]
fn a_removal_on_level_2_stops_beside_pages_backward(rt: HostRuntime) {
    let stops = all_stops(rt.alloc(), Stops::Delete, 7, 1).map(|most| most.stops);
    assert!(rt; stops == Some(156), "{stops:?}");
}

// A reader has read the root or the page before it is removed, a writer has planned over it: what it is to link there loses, and it begins
// anew. The second delete and the tidying take some five hundred steps, of which every third is a stop.
#[test]
fn others_stop_beside_a_removal_on_level_2(rt: HostRuntime) {
    for (place, apart, expected) in [
        (0, 1, at_most(40, 739, 35)),
        (1, 1, at_most(35, 739, 31)),
        (2, 1, at_most(198, 739, 178)),
        (3, 1, at_most(73, 746, 63)),
        (4, 3, at_most(79, 746, 186)),
        (5, 1, at_most(46, 746, 40)),
        (6, 3, at_most(81, 743, 190)),
    ] {
        let found = all_stops(rt.alloc(), Stops::Other, place, apart);
        assert!(rt; found == Some(expected), "command {place}: {found:?}");
    }
}
