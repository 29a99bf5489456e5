//! A tree of four levels that shrinks to one page on each: what is removed, and what another actor finds meanwhile.

use crate::by_hand::{begins, end, let_go, replies, stepped};
use crate::numbered::{key, value};
use crate::scripts::{Line, lists_all, opened, runs};
use crate::tally::{Removals, Tally};
use bw_model::{Command, Link, Reply};
use std::alloc::Global;
use step_core::Core;

/// How many keys there are.
const KEYS: u32 = 1100;

/// What a tally has of a tree that shrank.
#[derive(Clone, Copy, Debug, PartialEq)]
struct Shrinking {
    /// How many steps there were in all, and in the operation that removed the first page of level 2.
    turns: u32,
    steps: u32,
    /// The removals of each level, and the pages that are left on it.
    removals: [Removals; 5],
    pages: [u32; 5],
}

/// What the tally of a tree has in which these lines come true, and of which no key is left.
fn shrunk(alloc: Global, lines: &[Line]) -> Option<Shrinking> {
    let mut core = opened(alloc, 2, 512, 8192, 1)?;
    let right = runs(alloc, &mut core, lines) && lists_all(alloc, &core, 1, 0);
    let trace = core.into_trace();
    let tally = Tally::of(&trace.entries);
    right.then_some(Shrinking {
        turns: tally.turns,
        steps: tally.levels[2].steps,
        removals: tally.removals(),
        pages: tally.pages(),
    })
}

/// So many pages are removed, the first in this operation and step.
fn removed(pages: u32, operation: u32, step: u32) -> Removals {
    Removals {
        pages,
        operation,
        step,
    }
}

// From the last key down: the first removals are in the deletes of k1092, k1060 and k0804. From the first key up: k0013, k0101 and k0869.
#[test]
fn pages_of_all_levels_go(rt: HostRuntime) {
    let (inserts, none) = (Line::Inserts(0, 1, KEYS), removed(0, 0, 0));
    let fallen = shrunk(rt.alloc(), &[inserts, Line::Deletes(0, KEYS, 1)]);
    let expected = Shrinking {
        turns: 99_423,
        steps: 363,
        removals: [
            removed(136, 1108, 41),
            removed(16, 1140, 152),
            removed(1, 1396, 243),
            none,
            none,
        ],
        pages: [1; 5],
    };
    assert!(rt;
        fallen == Some(expected),
        "from the last key down: {fallen:?}"
    );
    let risen = shrunk(rt.alloc(), &[inserts, Line::DeletesUp(0, 1, KEYS)]);
    let expected = Shrinking {
        turns: 97_821,
        steps: 968,
        removals: [
            removed(136, 1112, 90),
            removed(16, 1200, 300),
            removed(1, 1968, 299),
            none,
            none,
        ],
        pages: [1; 5],
    };
    assert!(rt; risen == Some(expected), "from the first key up: {risen:?}");
}

/// The tree in which the delete of k0804 removes a page of level 2.
const BEFORE_REMOVAL: [Line; 2] = [Line::Inserts(0, 1, KEYS), Line::Deletes(0, KEYS, 805)];

/// Whether another actor finds four keys, of which the last is gone once the delete has taken effect.
fn finds(core: &mut Core, gone: bool) -> bool {
    for number in [803, 700, 1] {
        let found = Reply::Value(value(number));
        if !replies(core, 1, Command::Get(key(number)), found) {
            return false;
        }
    }
    let last = if gone {
        Reply::None
    } else {
        Reply::Value(value(804))
    };
    replies(core, 1, Command::Get(key(804)), last)
}

/// Whether it does between each two steps of the delete.
fn finds_between(core: &mut Core) -> bool {
    let mut gone = false;
    for _ in 0..1000u32 {
        if !finds(core, gone) {
            return false;
        }
        match stepped(core, 0, 1, Link::Delete) {
            Some(deleted) => gone |= deleted,
            None => return end(core, 0) == Some(Reply::Deleted(value(804))),
        }
    }
    false
}

/// Whether it does on a new core.
fn reads_between(alloc: Global) -> bool {
    match opened(alloc, 2, 512, 8192, 1) {
        Some(mut core) => {
            let right = runs(alloc, &mut core, &BEFORE_REMOVAL)
                && begins(&mut core, 0, Command::Delete(key(804)))
                && finds_between(&mut core);
            let_go(core);
            right
        }
        None => false,
    }
}

#[test]
fn a_lookup_goes_through_a_removal_on_level_2(rt: HostRuntime) {
    assert!(rt; reads_between(rt.alloc()), "between the steps of a delete");
}
