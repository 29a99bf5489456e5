//! Pages of level 1 whose leaves are all empty, since held terms stood between them while they were emptied, and nobody is under way: the
//! first operation that tidies there removes all of them, and the pages above them.

use crate::by_hand::{begins, end, finish, let_go, replies, reply, until};
use crate::numbered::{insert, key, value};
use crate::scripts::{Ask, Size};
use bw_model::{Command, Link, Reply};
use std::alloc::Global;
use step_core::Core;

/// How many pages of level 1 are emptied.
const PAGES: u32 = 13;

/// How many numbers a page of level 1 has: eight leaves of eight even ones, of which seven are split by their odd ones.
const WIDTH: u32 = 128;

/// Whether an actor inserts every second key of a range.
fn inserts(core: &mut Core, first: u32, end: u32) -> bool {
    for number in (first..end).step_by(2) {
        if !replies(core, 0, insert(number), Reply::Inserted) {
            return false;
        }
    }
    true
}

/// Whether the keys of a range go, those that are there.
fn empties(core: &mut Core, first: u32, end: u32) -> bool {
    for number in first..end {
        match reply(core, 0, Command::Delete(key(number))) {
            Some(Reply::Deleted(_) | Reply::Absent) => {}
            _ => return false,
        }
    }
    true
}

/// Whether a page of level 1 gets fifteen leaves.
fn is_widened(core: &mut Core, first: u32) -> bool {
    for leaf in 0..7u32 {
        let low = first.wrapping_add(leaf.wrapping_mul(16));
        let odd = low.wrapping_add(1);
        if !inserts(core, odd, odd.wrapping_add(15)) {
            return false;
        }
        if !replies(core, 0, Command::Tidy(key(low)), Reply::Tidied) {
            return false;
        }
    }
    true
}

/// Whether the term of the leaf of eight numbers from one on is held: by a delete that stands while the leaf grows again.
fn is_held(core: &mut Core, low: u32) -> bool {
    let fifth = low.wrapping_add(4);
    let stands = empties(core, low, fifth)
        && begins(core, 1, Command::Delete(key(fifth)))
        && until(core, 1, Link::Hold);
    if !stands {
        return false;
    }
    for number in low..fifth {
        if !replies(core, 0, insert(number), Reply::Inserted) {
            return false;
        }
    }
    finish(core, 1) == Some(Reply::Deleted(value(fifth)))
}

/// Whether the page's leaves are emptied: four that aren't neighbours are held, the others lose all keys meanwhile, and then these, the
/// last first.
fn is_emptied(core: &mut Core, first: u32) -> bool {
    let held = [8, 24, 40, 56].map(|low: u32| first.wrapping_add(low));
    for low in held {
        if !is_held(core, low) {
            return false;
        }
    }
    for low in held {
        if !empties(core, low.wrapping_sub(8), low) {
            return false;
        }
    }
    let (middle, end) = (first.wrapping_add(64), first.wrapping_add(WIDTH));
    if !empties(core, middle, end) {
        return false;
    }
    for low in held.into_iter().rev() {
        if !empties(core, low, low.wrapping_add(8)) {
            return false;
        }
    }
    true
}

/// A core in which these pages of level 1 are emptied, and three more stand.
fn emptied(alloc: Global, size: Size) -> Option<Core> {
    let mut core = size.opened(alloc, 3)?;
    if !inserts(&mut core, 0, WIDTH.wrapping_mul(PAGES.wrapping_add(3))) {
        return None;
    }
    for page in 0..PAGES {
        if !is_widened(&mut core, page.wrapping_mul(WIDTH)) {
            return None;
        }
    }
    for page in 0..PAGES {
        if !is_emptied(&mut core, page.wrapping_mul(WIDTH)) {
            return None;
        }
    }
    Some(core)
}

/// More steps than a command takes there.
const LONGEST: u32 = 1 << 17;

/// How many steps a command takes with nobody else there, and how many of its exchanges win.
#[derive(Clone, Copy, Debug, PartialEq)]
struct Effort {
    steps: u32,
    links: u32,
}

/// What a command takes.
fn taken(core: &mut Core, command: Command) -> Option<Effort> {
    if !begins(core, 2, command) {
        return None;
    }
    let mut links = 0u32;
    for steps in 1..=LONGEST {
        match core.step_on(2) {
            Some(None) => {}
            Some(Some(_)) => links = links.wrapping_add(1),
            None => return end(core, 2).is_some().then_some(Effort { steps, links }),
        }
    }
    None
}

/// What it takes in a core that is emptied for it.
fn taken_anew(alloc: Global, size: Size, ask: Ask) -> Option<Effort> {
    let mut core = emptied(alloc, size)?;
    let taken = taken(&mut core, ask.command());
    let_go(core);
    taken
}

/// The greatest number of the emptied pages that was there.
const LAST: u32 = WIDTH * PAGES - 2;

/// A small tree and a large one.
const SMALL: Size = Size::Small(512, 8_192);

const LARGE: Size = Size::Large(512, 8_192);

/// What is asked, with how many steps it takes and how many of its exchanges win.
const TAKEN: [(Ask, Size, u32, u32); 8] = [
    (Ask::Get(LAST), SMALL, 16, 0),
    (Ask::Get(LAST), LARGE, 11, 0),
    (Ask::Upsert(LAST, 1), SMALL, 22, 1),
    (Ask::Upsert(LAST, 1), LARGE, 15, 1),
    (Ask::Delete(LAST), SMALL, 40_751, 878),
    (Ask::Delete(LAST), LARGE, 17_108, 1_232),
    (Ask::Tidy(LAST), SMALL, 45_553, 1_021),
    (Ask::Tidy(LAST), LARGE, 17_504, 1_311),
];

#[test]
fn one_operation_removes_all_that_was_emptied(rt: HostRuntime) {
    for (ask, size, steps, links) in TAKEN {
        let taken = taken_anew(rt.alloc(), size, ask);
        assert!(rt;
            taken == Some(Effort { steps, links }),
            "{ask:?}, {size:?}: {taken:?}"
        );
    }
}
