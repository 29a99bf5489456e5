//! A tree of 200 keys that shrinks to nothing: index pages of level 1 are removed, and others act while one is.

use crate::scripts::{Ask, Line, Say, opened, runs};
use crate::stops::{Stop, stops_anywhere};
use bw_model::{Answer, Limits, Link, Step};
use core_memory::Entries;
use deltas::Record;
use std::alloc::Global;
use step_core::{Core, run};
use traces::{Entry, Turn};

/// Whether the record removes a page of level 1.
fn is_removal(record: &Record) -> bool {
    matches!(record, Record::Remove(remove) if remove.level == 1)
}

/// The operation in which the removal of a page of level 1 is linked first, by how many began before it.
pub(crate) fn removes(entries: &Entries) -> Option<u32> {
    let mut begun = 0u32;
    let mut placed = None;
    for place in 0..entries.len() {
        match entries.entry(place) {
            Some(Entry::Begin(_, _)) => begun = begun.wrapping_add(1),
            Some(Entry::Step(_, Step::Place(row, record), _, _)) => {
                if is_removal(&record) {
                    placed = Some(row);
                }
            }
            Some(Entry::Step(_, Step::Exchange(_, _, row), Answer::Whether(true), _)) => {
                if placed == Some(row) {
                    return begun.checked_sub(1);
                }
            }
            _ => {}
        }
    }
    None
}

/// The turn of an entry.
fn turn_of(entry: Entry) -> Turn {
    match entry {
        Entry::Begin(actor, command) => Turn::Begin(actor, command),
        Entry::Step(actor, _, _, _) => Turn::Step(actor),
    }
}

/// Adds the turns of a trace; says whether there was memory.
pub(crate) fn adds_turns(turns: &mut Vec<Turn>, entries: &Entries) -> bool {
    for place in 0..entries.len() {
        let Some(entry) = entries.entry(place) else {
            return false;
        };
        if turns.push(turn_of(entry)).is_err() {
            return false;
        }
    }
    true
}

/// The operation in which a run of the turns links the removal of a page of level 1 first.
fn run_removes(alloc: Global, limits: Limits, turns: &[Turn]) -> Option<u32> {
    match run(alloc, limits, turns) {
        Ok(trace) => removes(&trace.entries),
        Err(_) => None,
    }
}

/// Whether a run of a trace's turns links it in this operation, too.
fn is_run_again(alloc: Global, limits: Limits, entries: &Entries, removal: Option<u32>) -> bool {
    let mut turns = Vec::new(alloc);
    adds_turns(&mut turns, entries) && run_removes(alloc, limits, turns.as_slice()) == removal
}

/// The operation in which these lines link it first, and a run of the same turns, where all lines tell what they are to.
fn first_removal(alloc: Global, core: Core, lines: &[Line]) -> Option<u32> {
    let mut core = core;
    let limits = *core.limits();
    let right = runs(alloc, &mut core, lines);
    let trace = core.into_trace();
    let removal = removes(&trace.entries);
    if right && is_run_again(alloc, limits, &trace.entries, removal) {
        return removal;
    }
    None
}

/// What `first_removal` finds on a new core.
fn removal_anew(alloc: Global, lines: &[Line]) -> Option<u32> {
    match opened(alloc, 2, 256, 4096, 1) {
        Some(core) => first_removal(alloc, core, lines),
        None => None,
    }
}

/// The keys come, and go from the last one on; the delete of k164 is the first that removes a page of level 1.
const COME_AND_GO: [Line; 3] = [
    Line::Inserts(0, 1, 200),
    Line::Deletes(0, 200, 1),
    Line::ListsAll(1, 0),
];

/// The page that the delete of k164 would remove stays while the term of the leaf from k145 on is held there; it goes once that leaf is
/// removed, while a lookup that began after the delete is the last one.
const HELD_LEAF: [Line; 11] = [
    Line::Inserts(0, 1, 200),
    Line::Deletes(0, 200, 165),
    Line::Deletes(1, 148, 145),
    Line::Begins(1, Ask::Tidy(149)),
    Line::Until(1, Link::Hold),
    Line::Deletes(0, 164, 164),
    Line::Replies(0, Ask::Get(130), Say::Value(130)),
    Line::Finishes(1, Say::Tidied),
    Line::Deletes(0, 163, 149),
    Line::Deletes(0, 144, 1),
    Line::ListsAll(1, 0),
];

/// Two pages of level 1 beside each other go one after the other: the delete of k164 has made its page small when another actor holds
/// the page to the left of that one.
const NEIGHBOURS: [Line; 13] = [
    Line::Inserts(0, 1, 200),
    Line::Deletes(0, 200, 165),
    Line::Begins(0, Ask::Delete(164)),
    Line::Until(0, Link::Clear),
    Line::Deletes(1, 128, 101),
    Line::Begins(1, Ask::Delete(100)),
    Line::Until(1, Link::Hold),
    Line::Until(1, Link::Hold),
    Line::Finishes(0, Say::Deleted(164)),
    Line::Finishes(1, Say::Deleted(100)),
    Line::Deletes(0, 163, 129),
    Line::Deletes(0, 99, 1),
    Line::ListsAll(1, 0),
];

// Before the lookup 236 operations, four deletes, a tidying and a delete begin; before the delete of k100 the delete of k164, and 28 more.
#[test]
fn index_pages_go_where_they_may(rt: HostRuntime) {
    let removals = [
        removal_anew(rt.alloc(), &COME_AND_GO),
        removal_anew(rt.alloc(), &HELD_LEAF),
        removal_anew(rt.alloc(), &NEIGHBOURS),
    ];
    assert!(rt;
        removals == [Some(236), Some(242), Some(265)],
        "{removals:?}"
    );
}

/// The tree in which the delete of k164 removes a page of level 1.
const BEFORE_REMOVAL: [Line; 2] = [Line::Inserts(0, 1, 200), Line::Deletes(0, 200, 165)];

/// Whether the delete stops anywhere, by more than fifty steps, while actor 1 does this.
fn removal_stops(alloc: Global, meanwhile: Line) -> bool {
    let lines = [meanwhile, Line::Finishes(0, Say::Deleted(164))];
    let stop = Stop {
        actor: 0,
        ask: Ask::Delete(164),
        link: Link::Delete,
        least: 51,
        most: 1000,
    };
    stops_anywhere(alloc, &BEFORE_REMOVAL, stop, &lines, &lines)
}

// The lookup's way leads through the page that is removed.
#[test]
fn a_lookup_goes_through_a_removal_of_an_index_page(rt: HostRuntime) {
    let looks = Line::Replies(1, Ask::Get(130), Say::Value(130));
    assert!(rt; removal_stops(rt.alloc(), looks), "beside a lookup");
}

/// A cursor page on that way, a delete of a key there, and inserts of ten keys there, by which a leaf is split.
const OTHERS: [Line; 3] = [
    Line::Replies(1, Ask::Page(130), Say::Page(130, 136, Some(137))),
    Line::Deletes(1, 129, 129),
    Line::InsertsBehind(1, 130),
];

#[test]
fn others_go_through_a_removal_of_an_index_page(rt: HostRuntime) {
    for (place, meanwhile) in OTHERS.iter().enumerate() {
        assert!(rt;
            removal_stops(rt.alloc(), *meanwhile),
            "beside line {place}"
        );
    }
}

/// A lookup of an earlier key, and deletes of it and the next four; then the insert goes on, and those behind it.
const TRIMS: [Line; 4] = [
    Line::Replies(1, Ask::Get(100), Say::Value(100)),
    Line::Deletes(1, 104, 100),
    Line::Finishes(0, Say::Inserted),
    Line::Inserts(0, 130, 200),
];

/// Whether the first insert that splits a page of level 1 stops anywhere.
fn split_stops(alloc: Global) -> bool {
    let stop = Stop {
        actor: 0,
        ask: Ask::Insert(129),
        link: Link::Put,
        least: 126,
        most: 126,
    };
    stops_anywhere(alloc, &[Line::Inserts(0, 1, 128)], stop, &TRIMS, &TRIMS)
}

#[test]
fn a_split_of_an_index_page_stops_anywhere(rt: HostRuntime) {
    assert!(rt; split_stops(rt.alloc()), "the insert of k129");
}
