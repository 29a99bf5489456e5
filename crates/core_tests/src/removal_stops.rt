//! A delete that removes a leaf, stopped after each of its steps, while another actor goes on at the leaf and beside it.

use crate::scripts::{Ask, Line, NONE, Say, is_told};
use crate::stops::{Stop, stops_anywhere};
use bw_model::Link;
use std::alloc::Global;

/// Page 1 has k1 to k8, and page 2 has k9 to k12: the next delete there removes it.
const SMALL_LEAF: [Line; 2] = [Line::Inserts(0, 1, 17), Line::Deletes(0, 17, 13)];

/// Actor 1 looks a key of the leaf up and changes its value, where the keys up to the last one are listed; the delete goes on after that.
fn updates(last: u32) -> [Line; 6] {
    [
        Line::ListsAll(1, last),
        Line::Replies(1, Ask::Get(10), Say::Value(10)),
        Line::Replies(1, Ask::Upsert(10, 50), Say::Replaced(10)),
        Line::Lists([(1, last), NONE, NONE], 50),
        Line::Finishes(0, Say::Deleted(12)),
        Line::Lists([(1, 11), NONE, NONE], 50),
    ]
}

/// Actor 1 deletes another key of the leaf, inserts one that goes there, and tidies both leaves; the delete goes on after that. A
/// lookup of k12 has this reply meanwhile.
fn deletes(twelfth: Say) -> [Line; 9] {
    [
        Line::Replies(1, Ask::Delete(11), Say::Deleted(11)),
        Line::Replies(1, Ask::Get(12), twelfth),
        Line::Replies(1, Ask::Insert(13), Say::Inserted),
        Line::Replies(1, Ask::Tidy(1), Say::Tidied),
        Line::Replies(1, Ask::Tidy(9), Say::Tidied),
        Line::Replies(1, Ask::Get(12), twelfth),
        Line::Finishes(0, Say::Deleted(12)),
        Line::Lists([(1, 10), (13, 13), NONE], 10),
        Line::Replies(1, Ask::Get(12), Say::None),
    ]
}

/// Actor 1 inserts three keys that go to the leaf, which so isn't small any more, also where its term is held; the delete goes on after
/// that, and another delete and a tidying there.
const GROWS: [Line; 8] = [
    Line::Replies(1, Ask::Insert(13), Say::Inserted),
    Line::Replies(1, Ask::Insert(14), Say::Inserted),
    Line::Replies(1, Ask::Insert(15), Say::Inserted),
    Line::Finishes(0, Say::Deleted(12)),
    Line::Lists([(1, 11), (13, 15), NONE], 10),
    Line::Replies(0, Ask::Delete(15), Say::Deleted(15)),
    Line::Replies(1, Ask::Tidy(9), Say::Tidied),
    Line::Lists([(1, 11), (13, 14), NONE], 10),
];

/// Whether the delete of k12, by 115 steps, stops anywhere, with what happens where it stops before k12 is gone, and after that.
fn delete_stops(alloc: Global, early: &[Line], late: &[Line]) -> bool {
    let stop = Stop {
        actor: 0,
        ask: Ask::Delete(12),
        link: Link::Delete,
        least: 115,
        most: 115,
    };
    stops_anywhere(alloc, &SMALL_LEAF, stop, early, late)
}

#[test]
fn a_removal_stops_anywhere(rt: HostRuntime) {
    let alloc = rt.alloc();
    let stops = [
        delete_stops(alloc, &updates(12), &updates(11)),
        delete_stops(alloc, &deletes(Say::Value(12)), &deletes(Say::None)),
        delete_stops(alloc, &GROWS, &GROWS),
    ];
    assert!(rt; stops == [true; 3], "updates, deletes, inserts: {stops:?}");
}

// Two steps enter. Eleven read the leaf, four hold its term; twelve read it again, four remove it; thirteen find it removed. Seven
// read the page to its left, nine the removed page, and four merge it; thirteen find it removed still. Eight read the page to its
// left, nine the removed page, four take its term out, and one clears it. Nine read the leaf of the key, four delete it, and one
// leaves.
const REMOVAL: [Line; 15] = [
    Line::Inserts(0, 1, 17),
    Line::Deletes(0, 17, 13),
    Line::Begins(0, Ask::Delete(12)),
    Line::Steps(0, 16, None),
    Line::Steps(0, 1, Some(Link::Hold)),
    Line::Steps(0, 15, None),
    Line::Steps(0, 1, Some(Link::Remove)),
    Line::Steps(0, 32, None),
    Line::Steps(0, 1, Some(Link::Merge)),
    Line::Steps(0, 33, None),
    Line::Steps(0, 1, Some(Link::Unterm)),
    Line::Steps(0, 1, Some(Link::Clear)),
    Line::Steps(0, 12, None),
    Line::Steps(0, 1, Some(Link::Delete)),
    Line::Ends(0, Say::Deleted(12)),
];

#[test]
fn steps_of_a_removal(rt: HostRuntime) {
    assert!(rt; is_told(rt.alloc(), &REMOVAL), "a step or an exchange");
}
