//! Limits of large trees: what is proposed, and what openings answer.

use super::{Answer, check, no_bytes, no_limits, told};
use crate::opening::{bwtree_raw_limits_for_many_keys, bwtree_raw_limits_for_pairs};
use crate::statuses::{ABSENT, BAD_LIMITS, NO_SEAT, OK};
use crate::tests::caller::Caller;
use std::alloc::Global;

/// What openings of large trees answer, and of limits of neither kind.
fn told_of_large(alloc: Global) -> [Answer; 7] {
    let mut caller = Caller::unopened();
    let mut limits = no_limits();
    let mut old = no_bytes();
    let answers = [
        told(
            bwtree_raw_limits_for_many_keys(64, 100, &mut limits),
            BAD_LIMITS,
        ),
        told(bwtree_raw_limits_for_many_keys(63, 100, &mut limits), OK),
        told(caller.open(alloc, &limits), OK),
        told(caller.get(62, b"a", &mut old), ABSENT),
        told(caller.get(63, b"a", &mut old), NO_SEAT),
        told(caller.close(), OK),
    ];
    limits.large = 3;
    let [first, second, third, fourth, fifth, sixth] = answers;
    let last = told(caller.open(alloc, &limits), BAD_LIMITS);
    [first, second, third, fourth, fifth, sixth, last]
}

#[test]
fn large_trees_are_opened(rt: HostRuntime) {
    check(&rt, &told_of_large(rt.alloc()));
}

/// What limits for pairs answer, and openings with them, and with a row too few, a wrong width and no wide row.
fn told_of_widths(alloc: Global) -> [Answer; 8] {
    let mut caller = Caller::unopened();
    let mut limits = no_limits();
    let answers = [
        told(
            bwtree_raw_limits_for_pairs(1, 100, 65, 8, &mut limits),
            BAD_LIMITS,
        ),
        told(
            bwtree_raw_limits_for_pairs(1, 100, 16, 65, &mut limits),
            BAD_LIMITS,
        ),
        told(bwtree_raw_limits_for_pairs(1, 100, 16, 8, &mut limits), OK),
        told(caller.open(alloc, &limits), OK),
        told(caller.close(), OK),
    ];
    let [long_key, long_value, made, opened, closed] = answers;
    let mut other = Caller::unopened();
    limits.narrow_words = 7;
    let narrow = told(other.open(alloc, &limits), BAD_LIMITS);
    limits.narrow_words = 8;
    limits.rows = limits.wide_from;
    let short = told(other.open(alloc, &limits), BAD_LIMITS);
    limits.rows = limits.wide_from + 64;
    limits.wide_from = 0;
    let none = told(other.open(alloc, &limits), BAD_LIMITS);
    [
        long_key, long_value, made, opened, closed, narrow, short, none,
    ]
}

#[test]
fn widths_are_taken(rt: HostRuntime) {
    check(&rt, &told_of_widths(rt.alloc()));
}
