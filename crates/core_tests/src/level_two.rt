//! A tree of four levels whose last page of level 2 is removed and split off again, as often as one likes, by some two hundred commands: so
//! many removals on level 2 need no new tree each.

use crate::by_hand::{let_go, replies, reply};
use crate::numbered::{between, key, value};
use crate::scripts::{inserts, opened};
use bw_model::{Command, Key, Reply};
use std::alloc::Global;
use step_core::Core;

/// How many keys the tree has: 128 leaves, 16 pages above them, and two above these.
pub(crate) const KEYS: u32 = 1024;

/// How many leaves lose keys: each second one below each second page of level 1 that the last page of level 2, from k513 on, has.
const LEAVES: u32 = 16;

/// The key at a place of such a leaf. Its last five keys go, and it with them.
fn at(leaf: u32, place: u32) -> u32 {
    585 + leaf / 4 % 4 * 128 + leaf % 4 * 16 + place % 8
}

/// The delete that removes the last of these leaves, its page of level 1, and the page of level 2.
pub(crate) const LAST: u32 = 1020;

/// Whether actor 0 deletes the keys from one number down to another.
fn deletes(core: &mut Core, last: u32, first: u32) -> bool {
    for number in (first..=last).rev() {
        let deleted = Reply::Deleted(value(number));
        if !replies(core, 0, Command::Delete(key(number)), deleted) {
            return false;
        }
    }
    true
}

/// A key behind the last one of the leaf from k961 on, once that one is merged with the next.
pub(crate) fn extra(letter: u8) -> Key {
    between(971, letter)
}

/// Whether five of these come: the leaf has sixteen items, and the next insert there splits it.
fn fills(core: &mut Core) -> bool {
    for letter in b'a'..=b'e' {
        let command = Command::Insert(extra(letter), value(971));
        if !replies(core, 0, command, Reply::Inserted) {
            return false;
        }
    }
    true
}

/// Whether these go, and the next one, if it is there.
fn empties(core: &mut Core) -> bool {
    for letter in b'a'..=b'e' {
        let deleted = Reply::Deleted(value(971));
        if !replies(core, 0, Command::Delete(extra(letter)), deleted) {
            return false;
        }
    }
    reply(core, 0, Command::Delete(extra(b'f'))).is_some()
}

/// Whether all goes that is to go before the last delete.
pub(crate) fn shrinks(core: &mut Core) -> bool {
    for leaf in 0..LEAVES {
        let least = if leaf == 15 { 4 } else { 3 };
        if !deletes(core, at(leaf, 7), at(leaf, least)) {
            return false;
        }
    }
    fills(core)
}

/// Whether a key gets the value of its number, whatever it has.
fn mends(core: &mut Core, number: u32) -> bool {
    let command = Command::Upsert(key(number), value(number));
    reply(core, 0, command).is_some()
}

/// Whether a leaf's keys come again, and it is split, and the page above it where that is due.
fn comes(core: &mut Core, leaf: u32) -> bool {
    inserts(core, 0, at(leaf, 3), at(leaf, 7))
        && mends(core, at(leaf, 0))
        && mends(core, at(leaf, 1))
}

/// Whether all that went comes again, with the same pages.
pub(crate) fn regrows(core: &mut Core) -> bool {
    if !empties(core) {
        return false;
    }
    for leaf in 0..LEAVES {
        if !comes(core, leaf) {
            return false;
        }
    }
    mends(core, LAST - 4) && mends(core, LAST - 3) && mends(core, LAST - 2)
}

/// A new core of so many actors with the tree.
pub(crate) fn grown(alloc: Global, actors: u64) -> Option<Core> {
    let mut core = opened(alloc, actors, 256, 2_048, 1)?;
    let right = inserts(&mut core, 0, 1, KEYS + 16) && deletes(&mut core, KEYS + 16, KEYS + 1);
    if right {
        return Some(core);
    }
    let_go(core);
    None
}

/// Whether what went below the first of those pages of level 1 comes again: its next update splits the last leaf there, and the page.
pub(crate) fn nearly(core: &mut Core) -> bool {
    comes(core, 0) && comes(core, 1) && comes(core, 2) && inserts(core, 0, at(3, 3), at(3, 7))
}
