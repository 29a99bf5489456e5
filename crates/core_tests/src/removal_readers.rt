//! Lookups, pages of either direction and swaps between each two stages of a removal, and through them.

use crate::by_hand::let_go;
use crate::scripts::{Ask, Line, NONE, Say, opened, runs};
use crate::stops::{Stop, stops_anywhere};
use bw_model::Link;
use std::alloc::Global;
use step_core::Core;

/// The removal of a small leaf, as in `removal_stops`, by actor 0: what stands before it, and its stages.
const STAGES: [Line; 8] = [
    Line::Inserts(0, 1, 17),
    Line::Deletes(0, 17, 13),
    Line::Begins(0, Ask::Delete(12)),
    Line::Until(0, Link::Hold),
    Line::Until(0, Link::Remove),
    Line::Until(0, Link::Merge),
    Line::Until(0, Link::Unterm),
    Line::Until(0, Link::Clear),
];

/// How many lines come before the first stage, and before the merge.
const BEFORE_STAGES: usize = 2;

const BEFORE_MERGE: usize = 5;

/// What actor 1 finds in both leaves, where the first one has these pairs from k5 on, and the leaf that has k11 these up to that key.
fn found(fifth: Say, eleventh: Say) -> [Line; 12] {
    [
        Line::Replies(1, Ask::Get(8), Say::Value(8)),
        Line::Replies(1, Ask::Get(9), Say::Value(9)),
        Line::Replies(1, Ask::Get(12), Say::Value(12)),
        Line::Replies(1, Ask::Get(13), Say::None),
        Line::Replies(1, Ask::Page(5), fifth),
        Line::Replies(1, Ask::Page(9), Say::Page(9, 12, None)),
        Line::Replies(1, Ask::Page(11), Say::Page(11, 12, None)),
        Line::Replies(1, Ask::Page(13), Say::Page(13, 12, None)),
        Line::Replies(1, Ask::Back(11), eleventh),
        Line::Replies(1, Ask::Back(8), Say::Back(1, 8, None)),
        Line::Replies(1, Ask::Back(0), Say::Back(1, 0, None)),
        Line::WalksBack(1, 13, 1, 12),
    ]
}

/// Whether actor 0 comes to the stage of a place, and both leaves are read there. Until the merge the first leaf ends before k9.
fn stands(alloc: Global, core: &mut Core, place: usize, stage: Line) -> bool {
    let (fifth, eleventh) = if place < BEFORE_MERGE {
        (Say::Page(5, 8, Some(9)), Say::Back(9, 11, Some(9)))
    } else {
        (Say::Page(5, 12, None), Say::Back(1, 11, None))
    };
    let found = found(fifth, eleventh);
    runs(alloc, core, &[stage]) && (place < BEFORE_STAGES || runs(alloc, core, &found))
}

/// Whether it does at each stage.
fn stands_everywhere(alloc: Global, core: &mut Core) -> bool {
    for (place, stage) in STAGES.iter().enumerate() {
        if !stands(alloc, core, place, *stage) {
            return false;
        }
    }
    true
}

/// The end of the removal.
const END: [Line; 4] = [
    Line::Until(0, Link::Delete),
    Line::Replies(1, Ask::Page(9), Say::Page(9, 11, None)),
    Line::Replies(1, Ask::Back(12), Say::Back(1, 11, None)),
    Line::Ends(0, Say::Deleted(12)),
];

/// Whether it does on a new core, and the removal ends.
fn are_read(alloc: Global) -> bool {
    match opened(alloc, 2, 64, 256, 1) {
        Some(mut core) => {
            let right = stands_everywhere(alloc, &mut core) && runs(alloc, &mut core, &END);
            let_go(core);
            right
        }
        None => false,
    }
}

#[test]
fn readers_between_the_stages(rt: HostRuntime) {
    assert!(rt; are_read(rt.alloc()), "at one of the stages");
}

/// Whether an operation of actor 1, by so many steps at least, has one of these replies wherever it stands while the delete goes on to its
/// end, from behind so many of the lines; and k10 has this value then.
fn goes_through(
    alloc: Global,
    place: usize,
    (ask, wanted): (Ask, [Say; 2]),
    least: u32,
    tenth: u32,
) -> bool {
    let lines = [
        Line::Finishes(0, Say::Deleted(12)),
        Line::FinishesSo(1, wanted),
        Line::Lists([(1, 11), NONE, NONE], tenth),
    ];
    let stop = Stop {
        actor: 1,
        ask,
        link: Link::Put,
        least,
        most: 1000,
    };
    let before = STAGES.as_slice().get(..place).unwrap_or(&[]);
    stops_anywhere(alloc, before, stop, &lines, &lines)
}

/// Whether it does from behind each of the stages.
fn go_through(alloc: Global, asked: (Ask, [Say; 2]), least: u32, tenth: u32) -> bool {
    for place in BEFORE_STAGES..STAGES.len() {
        if !goes_through(alloc, place + 1, asked, least, tenth) {
            return false;
        }
    }
    true
}

// A lookup and a page of either direction of k10.
#[test]
fn readers_through_a_removal(rt: HostRuntime) {
    let found = [Say::Value(10), Say::Value(10)];
    let pages = [Say::Page(10, 12, None), Say::Page(10, 11, None)];
    let back = [Say::Back(9, 10, Some(9)), Say::Back(1, 10, None)];
    let right = [
        go_through(rt.alloc(), (Ask::Get(10), found), 6, 10),
        go_through(rt.alloc(), (Ask::Page(10), pages), 6, 10),
        go_through(rt.alloc(), (Ask::Back(10), back), 6, 10),
    ];
    assert!(rt;
        right == [true; 3],
        "lookup, page, page backward: {right:?}"
    );
}

#[test]
fn swaps_through_a_removal(rt: HostRuntime) {
    let swap = (Ask::Swap(10, 10, 30), [Say::Swapped, Say::Swapped]);
    assert!(rt;
        go_through(rt.alloc(), swap, 10, 30),
        "from behind one of the stages"
    );
}
