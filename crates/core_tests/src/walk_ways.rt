//! The ways by which a lookup leaves its walk round a removed index page, each seen by what the lookup read.

use crate::by_hand::{begins, finish, steps};
use crate::numbered::value;
use crate::scripts::{Ask, Line, Say, opened, runs};
use bw_model::{Answer, Key, Link, Reply, Step};
use core_memory::Entries;
use deltas::Record;
use std::alloc::Global;
use step_core::Core;
use traces::Entry;

/// The actor that looks k130 up.
const READER: u8 = 1;

/// How often such a walk took a step to the right, and how often it ended: at a left page into which the removed one was merged; behind one
/// that has it as its right; at a page of another level; or because there was none to its left, or it was removed or gone.
#[derive(Clone, Copy, Debug, PartialEq, Eq)]
struct Ways {
    nearer: u32,
    merged: u32,
    through: u32,
    off_level: u32,
    lost: u32,
}

const NONE: Ways = Ways {
    nearer: 0,
    merged: 0,
    through: 0,
    off_level: 0,
    lost: 0,
};

impl Ways {
    /// These, and others.
    fn and(self, other: Ways) -> Ways {
        Ways {
            nearer: self.nearer.saturating_add(other.nearer),
            merged: self.merged.saturating_add(other.merged),
            through: self.through.saturating_add(other.through),
            off_level: self.off_level.saturating_add(other.off_level),
            lost: self.lost.saturating_add(other.lost),
        }
    }
}

/// What a page's records say of it, the newest first: its level and whether it is removed, its first key, and where it ends, at which page.
#[derive(Drop)]
struct Read {
    pid: u32,
    level: u8,
    is_removed: bool,
    low: Key,
    end: Option<(Option<Key>, u32)>,
}

impl Read {
    fn nothing(pid: u32) -> Read {
        Read {
            pid,
            level: 0,
            is_removed: false,
            low: Key::default(),
            end: None,
        }
    }

    /// The end of the page, where no newer record told it.
    fn ends(&mut self, high: Option<Key>, right: u32) {
        if self.end.is_none() {
            self.end = Some((high, right));
        }
    }

    /// Takes the next record, and says whether it is the last one.
    fn takes(&mut self, record: Record) -> bool {
        match record {
            Record::Base(base) => {
                self.level = base.level();
                self.low = base.low().copied();
                let high = base.high().map(|high| high.copied());
                self.ends(high, base.right().unwrap_or(0));
                true
            }
            Record::Split(split) => {
                self.ends(Some(split.separator.copied()), split.page);
                false
            }
            Record::Merge(merge) => {
                let high = merge.high.as_ref().map(|high| high.copied());
                self.ends(high, merge.right.unwrap_or(0));
                false
            }
            Record::Remove(_) => {
                self.is_removed = true;
                false
            }
            _ => false,
        }
    }

    /// The way from it to a removed page: through that one where it ends there, nearer where it ends below it.
    fn way_to(&self, removed: &Read) -> Way {
        match &self.end {
            Some((Some(high), right)) if *high == removed.low && *right == removed.pid => {
                Way::Through
            }
            Some((Some(high), _)) if *high < removed.low => Way::Nearer,
            _ => Way::Merged,
        }
    }
}

/// What a reader has read of the page that it is at, the removed index page round which it goes, and the ways that it took.
#[derive(Drop)]
struct Walk {
    page: Read,
    around: Option<Read>,
    ways: Ways,
}

impl Walk {
    /// It goes round nothing any more.
    fn stops(&mut self) {
        self.around = None;
    }

    /// It has read a slot: where it goes round a page, slot 0 and an empty one are the ways of being lost.
    fn reads_slot(&mut self, pid: u32, row: u64) {
        if self.around.is_some() && (pid == 0 || row == 0) {
            self.ways.lost = self.ways.lost.saturating_add(1);
            self.stops();
        }
        self.page = Read::nothing(pid);
    }

    /// It has read a record; a page whose last one it was is a way out of the walk, or the begin of one.
    fn reads_record(&mut self, record: Record) {
        if !self.page.takes(record) {
            return;
        }
        match &self.around {
            Some(removed) => {
                let way = way_at(&self.page, removed);
                self.goes(way);
            }
            None => {
                if self.page.is_removed && self.page.level > 0 {
                    let page = std::mem::replace(&mut self.page, Read::nothing(0));
                    self.around = Some(page);
                }
            }
        }
    }

    /// It takes a way.
    fn goes(&mut self, way: Way) {
        let count = match way {
            Way::Nearer => &mut self.ways.nearer,
            Way::Merged => &mut self.ways.merged,
            Way::Through => &mut self.ways.through,
            Way::OffLevel => &mut self.ways.off_level,
            Way::Lost => &mut self.ways.lost,
        };
        *count = count.saturating_add(1);
        if way != Way::Nearer {
            self.stops();
        }
    }
}

/// A way of a walk.
#[derive(Clone, Copy, PartialEq, Eq)]
enum Way {
    Nearer,
    Merged,
    Through,
    OffLevel,
    Lost,
}

/// The way from a page that was read after a removed one.
fn way_at(page: &Read, removed: &Read) -> Way {
    if page.is_removed {
        return Way::Lost;
    }
    if page.level != removed.level {
        return Way::OffLevel;
    }
    page.way_to(removed)
}

/// The ways that the reader took in these entries.
fn ways_in(entries: &Entries) -> Ways {
    let mut walk = Walk {
        page: Read::nothing(0),
        around: None,
        ways: NONE,
    };
    for place in 0..entries.len() {
        match entries.entry(place) {
            Some(Entry::Step(READER, Step::Slot(pid), Answer::Number(row), _)) => walk.reads_slot(
                pid, row,
            ),
            Some(Entry::Step(READER, Step::Row(_), Answer::Content(record), _)) =>
                walk.reads_record(record),
            _ => {}
        }
    }
    walk.ways
}

/// The tree of 200 keys in which actor 0 has removed the last index page of level 1, and goes on with its delete: page [k65, k129) is on the
/// left of it.
const REMOVED: [Line; 6] = [
    Line::Inserts(0, 1, 200),
    Line::Deletes(0, 200, 165),
    Line::Begins(0, Ask::Delete(164)),
    Line::Until(0, Link::Clear),
    Line::Until(0, Link::Hold),
    Line::Until(0, Link::Remove),
];

/// The delete goes to its end.
const ENDS: [Line; 1] = [Line::Finishes(0, Say::Deleted(164))];

/// Actor 2 inserts ten keys at each of the eight leaves below the page on the left, by which each is split, and then that page.
const SPLITS: [Line; 9] = [
    Line::InsertsBehind(2, 66),
    Line::InsertsBehind(2, 74),
    Line::InsertsBehind(2, 82),
    Line::InsertsBehind(2, 90),
    Line::InsertsBehind(2, 98),
    Line::InsertsBehind(2, 106),
    Line::InsertsBehind(2, 114),
    Line::InsertsBehind(2, 122),
    Line::InsertsBehind(2, 70),
];

/// The delete goes to its end, and all keys behind the first leaves are deleted, by which the page on the left is removed and cleared, too.
const SHRINKS: [Line; 2] = [
    Line::Finishes(0, Say::Deleted(164)),
    Line::Deletes(0, 163, 9),
];

/// More steps than the lookup takes.
const MOST: u32 = 1_000;

/// Whether the core comes to where the lookup has begun.
fn comes(alloc: Global, core: &mut Core) -> bool {
    runs(alloc, core, &REMOVED) && begins(core, READER, Ask::Get(130).command())
}

/// Whether the lookup finds k130, or that it is gone.
fn finds(core: &mut Core) -> bool {
    match finish(core, READER) {
        Some(reply) => reply == Reply::Value(value(130)) || reply == Reply::None,
        None => false,
    }
}

/// The ways of the lookup where it is stopped after so many steps while this happens; of no walk, and false, once it is done by then. None
/// where anything is told but what is to be.
fn stopped(alloc: Global, core: Core, count: u32, meanwhile: &[Line]) -> Option<(Ways, bool)> {
    let mut core = core;
    let goes_on = comes(alloc, &mut core) && steps(&mut core, READER, count, None);
    let told = !goes_on || runs(alloc, &mut core, meanwhile) && finds(&mut core);
    let trace = core.into_trace();
    match (told, goes_on) {
        (true, true) => Some((ways_in(&trace.entries), true)),
        (true, false) => Some((NONE, false)),
        (false, _) => None,
    }
}

/// All ways that a lookup took, and how often it was stopped.
#[derive(Clone, Copy)]
struct Taken {
    ways: Ways,
    stops: u32,
}

/// Where the lookup is stopped after each of its steps while this happens.
fn ways_taken(alloc: Global, meanwhile: &[Line]) -> Option<Taken> {
    let mut all = NONE;
    for count in 0..MOST {
        let core = opened(alloc, 3, 256, 4096, 1)?;
        let (ways, goes_on) = stopped(alloc, core, count, meanwhile)?;
        if !goes_on {
            return Some(Taken {
                ways: all,
                stops: count,
            });
        }
        all = all.and(ways);
    }
    None
}

// Where the delete ends meanwhile, the walk ends at the page into which the removed one was merged wherever that one was read and the one to its left
// wasn't; behind that it goes through the removed one. Where that left page goes away meanwhile, too, the walk is lost in the same places. Where
// it is split meanwhile each walk goes through the removed page, and those that had read the page above went to the left half first. What a page is named by keeps
// its level until the lookup has left.
#[test]
fn walks_go_each_way(rt: HostRuntime) {
    let alloc = rt.alloc();
    let (Some(ends), Some(splits), Some(shrinks)) = (
        ways_taken(alloc, &ENDS),
        ways_taken(alloc, &SPLITS),
        ways_taken(alloc, &SHRINKS),
    ) else {
        assert!(rt; false, "a lookup or what happens meanwhile is wrong");
        return;
    };
    let (ended, split, lost) = (ends.ways, splits.ways, shrinks.ways);
    let expected = [
        Ways {
            merged: ended.merged,
            through: ended.through,
            ..NONE
        },
        Ways {
            nearer: split.nearer,
            through: splits.stops,
            ..NONE
        },
        Ways {
            lost: ended.merged,
            through: ended.through,
            ..NONE
        },
    ];
    let ways = [ended, split, lost];
    assert!(rt; ways == expected, "{ways:?}");
    assert!(rt;
        0 < ended.merged && ended.merged < split.nearer && 0 < ended.through,
        "{ways:?}"
    );
}
