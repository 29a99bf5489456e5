//! The exports, called from Rattle: what each answers, in turn.
ghost use Rattle.std.specs.Prelude.{◌≡◌, [], IfSome};
ghost use Rattle.call_log.specs.declared.log.Authors.TheVariants.{AllFrom};
ghost use Rattle.bw_tree_c.specs.Handles.{IsReceipt, MayCallOn};
ghost use Rattle.bw_tree_c.specs.Seats.{IsLater};

use crate::c_types::{Bytes, Page, Pair, TreeLimits};
use crate::opening::bwtree_raw_limits_for_keys;
use crate::place::Place;
use crate::statuses::{
    ABSENT, BAD_LIMITS, CLOSED, DIFFERS, EXISTS, NO_SEAT, OK, OPEN, REPLACED, SPENT, TOO_LONG,
    UNFINISHED,
};
use crate::tests::caller::Caller;
use bw_model::Command;
use seats::called;
use std::alloc::Global;
use std::process::Abort;

mod busy_seats;
mod caller;
mod limits;
mod pages;
mod pairs;
mod two_callers;

/// What a call answers, and what it is to answer.
#[derive(Clone, Copy, Debug)]
struct Answer {
    found: u32,
    expected: u32,
}

fn told(found: u32, expected: u32) -> Answer {
    Answer { found, expected }
}

/// Asserts that each call answers what it is to.
fn check(rt: &impl Abort, answers: &[Answer]) {
    for (place, answer) in answers.iter().enumerate() {
        assert!(rt; answer.found == answer.expected, "call {place}: {answer:?}");
    }
}

/// No bytes.
fn no_bytes() -> Bytes {
    Bytes {
        length: 0,
        bytes: [0; 64],
    }
}

/// A pair of nothing.
fn no_pair() -> Pair {
    Pair {
        key: no_bytes(),
        value: no_bytes(),
    }
}

/// A page of nothing.
fn no_page() -> Page {
    Page {
        count: 0,
        more: 0,
        next: no_bytes(),
        pairs: [
            no_pair(),
            no_pair(),
            no_pair(),
            no_pair(),
            no_pair(),
            no_pair(),
            no_pair(),
            no_pair(),
            no_pair(),
            no_pair(),
            no_pair(),
            no_pair(),
            no_pair(),
            no_pair(),
            no_pair(),
            no_pair(),
            no_pair(),
            no_pair(),
            no_pair(),
            no_pair(),
            no_pair(),
            no_pair(),
            no_pair(),
            no_pair(),
        ],
    }
}

/// Limits that aren't limits.
fn no_limits() -> TreeLimits {
    TreeLimits {
        actors: 0,
        pids: 0,
        rows: 0,
        epoch: 0,
        large: 0,
        narrow_rows: 0,
        wide_from: 0,
        narrow_words: 0,
        page_words: 0,
    }
}

/// A caller of a tree with two seats.
fn two_seats(alloc: Global) -> Caller
    ensures { MayCallOn result.tree.kept.value result.since }
{
    let mut caller = Caller::unopened();
    let mut limits = no_limits();
    bwtree_raw_limits_for_keys(2, 100, &mut limits);
    caller.open(alloc, &limits);
    caller
}

/// A caller of such a tree who has all authors, if it was opened.
fn all_authors(alloc: Global) -> Option<Caller>
    ensures all { IfSome result (λ caller. IsReceipt caller.tree.kept.value (AllFrom 0) [] caller.since) }
    ensures may { IfSome result (λ caller. MayCallOn caller.tree.kept.value caller.since) }
{
    let mut caller = Caller::unopened();
    let mut limits = no_limits();
    bwtree_raw_limits_for_keys(2, 100, &mut limits);
    if caller.open(alloc, &limits) != OK {
        return None;
    }
    Some(caller)
}

/// What openings and closings answer.
fn told_of_handles(alloc: Global) -> [Answer; 14] {
    let mut caller = Caller::unopened();
    let mut limits = no_limits();
    let mut old = no_bytes();
    [
        told(caller.get(0, b"a", &mut old), CLOSED),
        told(caller.open(alloc, &limits), BAD_LIMITS),
        told(bwtree_raw_limits_for_keys(17, 100, &mut limits), BAD_LIMITS),
        told(bwtree_raw_limits_for_keys(2, 100, &mut limits), OK),
        told(caller.open(alloc, &limits), OK),
        told(caller.open(alloc, &limits), OPEN),
        told(caller.vacate(), OPEN),
        told(caller.close(), OK),
        told(caller.close(), CLOSED),
        told(caller.get(0, b"a", &mut old), CLOSED),
        told(caller.open(alloc, &limits), OPEN),
        told(caller.vacate(), OK),
        told(caller.vacate(), OK),
        told(caller.open(alloc, &limits), OK),
    ]
}

/// What calls in few steps answer: with none nothing is begun, and one doesn't suffice.
fn told_within(alloc: Global) -> [Answer; 6] {
    let mut caller = two_seats(alloc);
    let mut old = no_bytes();
    let mut page = no_page();
    [
        told(caller.upsert_within(0, 0, b"a", b"x", &mut old), SPENT),
        told(caller.is_idle(0), OK),
        told(caller.upsert_within(0, 1, b"a", b"x", &mut old), SPENT),
        told(caller.get_within(0, 9, b"a", &mut old), UNFINISHED),
        told(caller.resume(0, 65536, &mut old, &mut page), OK),
        told(caller.get_within(0, 1000, b"a", &mut old), OK),
    ]
}

#[test]
fn calls_take_so_many_steps(rt: HostRuntime) {
    check(&rt, &told_within(rt.alloc()));
}

#[test]
fn handles_are_opened_and_closed(rt: HostRuntime) {
    check(&rt, &told_of_handles(rt.alloc()));
}

/// What calls on both seats answer.
fn told_of_calls(caller: &mut Caller) -> [Answer; 12]
    requires { MayCallOn caller.old.tree.kept.value caller.old.since }
{
    let mut old = no_bytes();
    [
        told(caller.insert(0, b"a", b"x", &mut old), OK),
        told(caller.insert(1, b"a", b"y", &mut old), EXISTS),
        told(caller.upsert(1, b"a", b"y", &mut old), REPLACED),
        told(caller.swap(0, b"a", b"x", b"z", &mut old), DIFFERS),
        told(caller.swap(0, b"a", b"y", b"z", &mut old), OK),
        told(caller.get(0, b"a", &mut old), OK),
        told(caller.delete(1, b"a", &mut old), OK),
        told(caller.get(0, b"a", &mut old), ABSENT),
        told(caller.tidy(0, b"a"), OK),
        told(caller.get(2, b"a", &mut old), NO_SEAT),
        told(caller.get(0, &[0; 65], &mut old), TOO_LONG),
        told(caller.insert(0, b"a", &[0; 65], &mut old), TOO_LONG),
    ]
}

#[test]
fn calls_are_told(rt: HostRuntime) {
    check(&rt, &told_of_calls(&mut two_seats(rt.alloc())));
}

/// What deletions by value answer.
fn told_of_deletions(caller: &mut Caller) -> [Answer; 7]
    requires { MayCallOn caller.old.tree.kept.value caller.old.since }
{
    let mut old = no_bytes();
    [
        told(caller.delete_if(0, b"a", b"x", &mut old), ABSENT),
        told(caller.insert(0, b"a", b"x", &mut old), OK),
        told(caller.delete_if(1, b"a", b"y", &mut old), DIFFERS),
        told(caller.delete_if(1, b"a", b"x", &mut old), OK),
        told(caller.get(0, b"a", &mut old), ABSENT),
        told(caller.delete_if(2, b"a", b"x", &mut old), NO_SEAT),
        told(caller.delete_if(0, b"a", &[0; 65], &mut old), TOO_LONG),
    ]
}

#[test]
fn values_are_deleted(rt: HostRuntime) {
    check(&rt, &told_of_deletions(&mut two_seats(rt.alloc())));
}

/// What additions answer, and the sum.
struct Additions {
    answers: [Answer; 7],
    sum: Bytes,
}

/// Adds numbers.
fn told_of_additions(caller: &mut Caller) -> Additions
    requires { MayCallOn caller.old.tree.kept.value caller.old.since }
{
    let mut old = no_bytes();
    let mut sum = no_bytes();
    let answers = [
        told(caller.add(0, b"a", 254, &mut old), OK),
        told(caller.add(1, b"a", 3, &mut old), REPLACED),
        told(caller.insert(0, b"b", b"x", &mut old), OK),
        told(caller.add(0, b"b", 1, &mut old), DIFFERS),
        told(caller.get(0, b"a", &mut sum), OK),
        told(caller.add(2, b"a", 1, &mut old), NO_SEAT),
        told(caller.add(0, &[0; 65], 1, &mut old), TOO_LONG),
    ];
    Additions { answers, sum }
}

#[test]
fn numbers_are_added(rt: HostRuntime) {
    let Additions { answers, sum } = told_of_additions(&mut two_seats(rt.alloc()));
    check(&rt, &answers);
    assert_eq!(rt; sum.length, 8, "the sum's length");
    assert!(rt;
        sum.bytes.starts_with(&[0, 0, 0, 0, 0, 0, 1, 1]),
        "{:?}",
        sum.bytes
    );
}

/// Begins a command on an idle seat, with a budget of one step.
fn begins(place: &mut Place, command: Command) -> bool
    ensures later { IsLater place.old.seat place.new.seat }
{
    called(&place.tree, &mut place.seat, command, 1).is_some()
}
