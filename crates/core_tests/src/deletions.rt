//! A deletion by value that stops after each of its steps, while another actor splits the leaf of its key, or removes it.

use crate::scripts::{Ask, Line, NONE, Say};
use crate::stops::{Stop, stops_anywhere};
use bw_model::Link;
use std::alloc::Global;

/// A deletion of k10, if it has the value that it has from the beginning on.
const DELETION: Stop = Stop {
    actor: 0,
    ask: Ask::DeleteIf(10, 10),
    link: Link::Delete,
    least: 10,
    most: 1000,
};

/// Whether all is right wherever the deletion stops while another actor does something, after which there are the keys up to this one.
fn is_done(alloc: Global, before: [Line; 2], happens: Line, last: u32) -> bool {
    let lines = [
        happens,
        Line::Finishes(0, Say::Deleted(10)),
        Line::Lists([(1, 9), (11, last), NONE], 10),
    ];
    stops_anywhere(alloc, &before, DELETION, &lines, &lines)
}

/// What happens where the key is given a third value by then, with this reply, and what the deletion says.
fn third(happens: Line, last: u32, given: Say, deleted: Say) -> [Line; 4] {
    [
        happens,
        Line::Replies(1, Ask::Upsert(10, 50), given),
        Line::Finishes(0, deleted),
        Line::Lists([(1, last), NONE, NONE], 50),
    ]
}

/// Whether all is right where the key is given a third value, too: the deletion differs where it wasn't done before that.
fn differs(alloc: Global, before: [Line; 2], happens: Line, last: u32) -> bool {
    let early = third(happens, last, Say::Replaced(10), Say::Differs(50));
    let late = third(happens, last, Say::Set, Say::Deleted(10));
    stops_anywhere(alloc, &before, DELETION, &early, &late)
}

// The leaf's sixteenth item comes, and the writer that finds it full splits it: k10 goes to the new page.
#[test]
fn a_leaf_is_split_under_a_deletion_by_value(rt: HostRuntime) {
    let before = [Line::Inserts(0, 1, 15), Line::ListsAll(1, 15)];
    let happens = Line::Inserts(1, 16, 17);
    assert!(rt; is_done(rt.alloc(), before, happens, 17), "is done");
    assert!(rt; differs(rt.alloc(), before, happens, 17), "differs");
}

// A delete removes the leaf, and merges it into the leaf to its left.
#[test]
fn a_leaf_is_removed_under_a_deletion_by_value(rt: HostRuntime) {
    let before = [Line::Inserts(0, 1, 17), Line::Deletes(0, 17, 13)];
    let happens = Line::Deletes(1, 12, 12);
    assert!(rt; is_done(rt.alloc(), before, happens, 11), "is done");
    assert!(rt; differs(rt.alloc(), before, happens, 11), "differs");
}
