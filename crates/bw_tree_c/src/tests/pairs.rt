//! Trees that are opened with pairs, or closed with theirs.
ghost use Rattle.bw_tree_c.specs.Handles.{MayCallOn};

use super::{Answer, check, no_bytes, no_limits, no_pair, told, two_seats};
use crate::c_types::Pair;
use crate::opening::bwtree_raw_limits_for_keys;
use crate::statuses::{BAD_LIMITS, BAD_ORDER, CLOSED, EXISTS, NO_ROOM, OK, OPEN, TOO_LONG};
use crate::tests::caller::Caller;
use std::alloc::Global;

/// A pair of a key and a value of one byte each.
fn short_pair(key: u8, value: u8) -> Pair {
    let mut pair = no_pair();
    pair.key.set(&[key]);
    pair.value.set(&[value]);
    pair
}

/// What openings with pairs answer in turn, and lookups in the tree that is opened.
fn told_of_loads(alloc: Global) -> [Answer; 8] {
    let mut limits = no_limits();
    let mut old = no_bytes();
    let mut caller = Caller::unopened();
    let mut long = short_pair(b'c', b'z');
    long.value.length = 65;
    let pairs = [short_pair(b'a', b'x'), short_pair(b'b', b'y'), long];
    let turned = [short_pair(b'b', b'y'), short_pair(b'a', b'x')];
    let bad = caller.open_from(alloc, &limits, &pairs);
    let made = bwtree_raw_limits_for_keys(2, 10, &mut limits);
    [
        told(bad, BAD_LIMITS),
        told(made, OK),
        told(caller.open_from(alloc, &limits, &pairs), TOO_LONG),
        told(caller.open_from(alloc, &limits, &turned), BAD_ORDER),
        told(caller.open_from(alloc, &limits, &pairs[..2]), OK),
        told(caller.open_from(alloc, &limits, &pairs[..1]), OPEN),
        told(caller.get(1, b"b", &mut old), OK),
        told(caller.insert(0, b"a", b"z", &mut old), EXISTS),
    ]
}

#[test]
fn trees_are_opened_with_pairs(rt: HostRuntime) {
    check(&rt, &told_of_loads(rt.alloc()));
}

/// What a closing with pairs answers for which there is no room, what comes then, and how many pairs there are.
struct Closings {
    answers: [Answer; 9],
    count: u64,
}

/// Closes a tree with its pairs.
fn told_of_pairs(alloc: Global, caller: &mut Caller, pairs: &mut [Pair]) -> Closings
    requires { MayCallOn caller.old.tree.kept.value caller.old.since }
{
    let mut old = no_bytes();
    let mut count = 0;
    let answers = [
        told(
            Caller::unopened().close_pairs(alloc, pairs, &mut count),
            CLOSED,
        ),
        told(caller.insert(0, b"b", b"x", &mut old), OK),
        told(caller.insert(1, b"a", b"y", &mut old), OK),
        told(caller.close_pairs(alloc, &mut [], &mut count), NO_ROOM),
        told(caller.get(0, b"a", &mut old), CLOSED),
        told(caller.vacate(), OPEN),
        told(caller.close_pairs(alloc, pairs, &mut count), OK),
        told(caller.close_pairs(alloc, pairs, &mut count), CLOSED),
        told(caller.vacate(), OK),
    ];
    Closings { answers, count }
}

#[test]
fn trees_are_closed_with_their_pairs(rt: HostRuntime) {
    let mut caller = two_seats(rt.alloc());
    let mut pairs = [no_pair(), no_pair(), short_pair(b'c', b'z')];
    let Closings { answers, count } = told_of_pairs(rt.alloc(), &mut caller, &mut pairs);
    check(&rt, &answers);
    assert_eq!(rt; count, 2, "pairs");
    assert!(rt;
        pairs[0].key.bytes[0] == b'a' && pairs[0].value.bytes[0] == b'y',
        "a and y"
    );
    assert!(rt;
        pairs[1].key.bytes[0] == b'b' && pairs[1].value.length == 1,
        "b and its value"
    );
    assert!(rt; pairs[2].key.bytes[0] == b'c', "the third place as it was");
}

/// What closings of pairs that wait answer.
fn told_of_dropped_pairs(alloc: Global, caller: &mut Caller) -> [Answer; 5]
    requires { MayCallOn caller.old.tree.kept.value caller.old.since }
{
    let mut old = no_bytes();
    let mut count = 0;
    [
        told(caller.insert(0, b"a", b"x", &mut old), OK),
        told(caller.close_pairs(alloc, &mut [], &mut count), NO_ROOM),
        told(caller.close(), OK),
        told(caller.close(), CLOSED),
        told(caller.vacate(), OK),
    ]
}

#[test]
fn pairs_that_wait_are_dropped(rt: HostRuntime) {
    check(
        &rt,
        &told_of_dropped_pairs(rt.alloc(), &mut two_seats(rt.alloc())),
    );
}
