//! Readers beside writers that stand in the middle of removals and are helped by nobody: past the removed pages on their way they come to
//! their end.

use crate::by_hand::{replies, reply};
use crate::numbered::{is_pair, key, value};
use crate::scripts::{Ask, Line, NONE, opened, runs};
use crate::tally::Tally;
use bw_model::{Command, Key, Link, Reply, Step, Value};
use core_memory::Entries;
use deltas::Record;
use std::alloc::Global;
use step_core::Core;
use traces::Entry;

/// The actor that reads.
const READER: u8 = 5;

/// A tree of so many PIDs and rows, whose keys are those of the numbers below an end, but for three ranges.
#[derive(Clone, Copy)]
struct Left {
    room: (u64, u64),
    end: u32,
    gone: [(u32, u32); 3],
}

impl Left {
    fn is_gone(&self, number: u32) -> bool {
        for (first, last) in self.gone {
            if first <= number && number <= last {
                return true;
            }
        }
        false
    }

    /// What a lookup is to find.
    fn found(&self, number: u32) -> Reply {
        if self.is_gone(number) {
            Reply::None
        } else {
            Reply::Value(value(number))
        }
    }

    /// Whether the reader's lookup of each key finds it.
    fn is_found(&self, core: &mut Core) -> bool {
        for number in 0..self.end {
            let found = self.found(number);
            if !replies(core, READER, Command::Get(key(number)), found) {
                return false;
            }
        }
        true
    }
}

impl Left {
    /// The first number from one on that is left; the end, where none is.
    fn next(&self, number: u32) -> u32 {
        for next in number..self.end {
            if !self.is_gone(next) {
                return next;
            }
        }
        self.end
    }

    /// The number behind those of a page's pairs, if these are the numbers from one on that are left.
    fn behind(&self, from: u32, pairs: &[(Key, Value)]) -> Option<u32> {
        let mut number = from;
        for pair in pairs {
            let left = self.next(number);
            if !is_pair(Some(pair), left, left) {
                return None;
            }
            number = left.wrapping_add(1);
        }
        Some(number)
    }

    /// Whether the reader's cursor pages, from the least key on, show all that is left.
    fn is_walked(&self, core: &mut Core) -> bool {
        let (mut number, mut from) = (0, Key::default());
        for _ in 0..self.end {
            let Some(Reply::Page { items, next }) = reply(core, READER, Command::Page(from)) else {
                return false;
            };
            match self.behind(number, items.as_slice()) {
                Some(behind) => number = behind,
                None => return false,
            }
            match next {
                Some(next) => from = next,
                None => return self.next(number) == self.end,
            }
        }
        false
    }
}

/// How many rounds a reading takes, and how many slots and rows it reads.
#[derive(Clone, Copy)]
struct Look {
    rounds: u32,
    reads: u32,
}

const NOTHING: Look = Look {
    rounds: 0,
    reads: 0,
};

impl Look {
    /// A round begins with slot 0.
    fn take(&mut self, step: &Step<Record>) {
        self.rounds = self
            .rounds
            .wrapping_add(u32::from(matches!(step, Step::Slot(0))));
        let reads = matches!(step, Step::Slot(_) | Step::Row(_));
        self.reads = self.reads.wrapping_add(u32::from(reads));
    }
}

/// The most rounds and the most reads that a lookup or cursor page of the reader has taken.
fn most(entries: &Entries) -> Look {
    let (mut most, mut look) = (NOTHING, NOTHING);
    for place in 0..entries.len() {
        match entries.entry(place) {
            Some(Entry::Begin(READER, _)) => look = NOTHING,
            Some(Entry::Step(READER, step, _, _)) => {
                look.take(&step);
                most.rounds = most.rounds.max(look.rounds);
                most.reads = most.reads.max(look.reads);
            }
            _ => {}
        }
    }
    most
}

/// The most rounds and reads of the lookups of all keys and of the cursor pages, and how many pages of each level were removed before these.
#[derive(Clone, Copy, Debug)]
struct Readings {
    rounds: u32,
    reads: u32,
    removals: [u32; 5],
}

/// What was looked at where the lines come true, and lookups and pages find what is left.
fn looked(alloc: Global, left: Left, lines: &[Line]) -> Option<Readings> {
    let (pids, rows) = left.room;
    let mut core = opened(alloc, 6, pids, rows, 1)?;
    let right = runs(alloc, &mut core, lines)
        && left.is_found(&mut core)
        && left.is_walked(&mut core);
    let trace = core.into_trace();
    let (look, tally) = (most(&trace.entries), Tally::of(&trace.entries));
    right.then_some(Readings {
        rounds: look.rounds,
        reads: look.reads,
        removals: tally.levels.map(|level| level.removals),
    })
}

/// The last page of level 1 has fifteen leaves, of which two are held. It is split by an insert that stands then, so that the upper half
/// has no term yet; the held leaves are removed, and the lower half is removed.
const ON_LEVEL_1: [Line; 15] = [
    Line::Inserts(0, 0, 184),
    Line::Deletes(0, 159, 156),
    Line::Deletes(0, 175, 172),
    Line::Begins(1, Ask::Delete(152)),
    Line::Turns(1, 60),
    Line::Begins(2, Ask::Delete(168)),
    Line::Turns(2, 36),
    Line::Inserts(3, 185, 191),
    Line::Begins(3, Ask::Insert(192)),
    Line::Turns(3, 78),
    Line::Steps(1, 1, Some(Link::Remove)),
    Line::Steps(2, 1, Some(Link::Remove)),
    Line::DeletesUp(4, 72, 99),
    Line::Begins(4, Ask::Delete(100)),
    Line::Turns(4, 191),
];

#[test]
fn a_lookup_ends_beside_four_that_stand(rt: HostRuntime) {
    let left = Left {
        room: (256, 4096),
        end: 192,
        gone: [(156, 159), (172, 175), (72, 99)],
    };
    let looked = looked(rt.alloc(), left, &ON_LEVEL_1);
    assert!(rt;
        looked.is_some_and(|looked| looked.rounds == 2 && looked.removals[1] == 1),
        "{looked:?}"
    );
}

/// The last page of level 2 has fifteen pages below it, of which two are held. It is split by an insert that stands then; the held pages
/// are removed, and the lower half is removed.
const ON_LEVEL_2: [Line; 23] = [
    Line::Inserts(0, 0, 1472),
    Line::Deletes(1, 1279, 1252),
    Line::Begins(1, Ask::Delete(1251)),
    Line::Until(1, Link::Clear),
    Line::Until(1, Link::Hold),
    Line::Turns(1, 42),
    Line::Deletes(2, 1407, 1380),
    Line::Begins(2, Ask::Delete(1379)),
    Line::Until(2, Link::Clear),
    Line::Until(2, Link::Hold),
    Line::Turns(2, 20),
    Line::Inserts(3, 1473, 1535),
    Line::Begins(3, Ask::Insert(1536)),
    Line::Until(3, Link::Split),
    Line::Until(3, Link::Split),
    Line::Until(3, Link::Split),
    Line::Steps(1, 1, Some(Link::Remove)),
    Line::Steps(2, 1, Some(Link::Remove)),
    Line::Deletes(4, 1023, 804),
    Line::Begins(4, Ask::Delete(803)),
    Line::Until(4, Link::Remove),
    Line::Until(4, Link::Remove),
    Line::Until(4, Link::Remove),
];

#[test]
fn a_lookup_goes_past_two_removed_index_pages(rt: HostRuntime) {
    let left = Left {
        room: (512, 8192),
        end: 1536,
        gone: [(804, 1023), (1252, 1279), (1380, 1407)],
    };
    let looked = looked(rt.alloc(), left, &ON_LEVEL_2);
    assert!(rt;
        looked.is_some_and(|looked| looked.rounds == 1
            && looked.reads <= 35
            && looked.removals[2] == 1),
        "{looked:?}"
    );
}

/// A page of level 3 is removed, and one of level 1 below it; who removed them stand.
const ON_LEVELS_3_AND_1: [Line; 13] = [
    Line::Inserts(0, 0, 8192),
    Line::Deletes(1, 4799, 4772),
    Line::Begins(1, Ask::Delete(4771)),
    Line::Until(1, Link::Clear),
    Line::Until(1, Link::Hold),
    Line::Steps(1, 52, None),
    Line::Deletes(2, 8192, 6436),
    Line::Begins(2, Ask::Delete(6435)),
    Line::Until(2, Link::Remove),
    Line::Until(2, Link::Remove),
    Line::Until(2, Link::Remove),
    Line::Until(2, Link::Remove),
    Line::Steps(1, 1, Some(Link::Remove)),
];

#[test]
fn a_lookup_ends_beside_two_that_stand(rt: HostRuntime) {
    let left = Left {
        room: (2048, 16384),
        end: 8193,
        gone: [(4772, 4799), (6436, 8192), NONE],
    };
    let looked = looked(rt.alloc(), left, &ON_LEVELS_3_AND_1);
    assert!(rt;
        looked.is_some_and(|looked| looked.rounds == 1
            && looked.removals[3] == 1
            && looked.removals[1] > 0),
        "{looked:?}"
    );
}
