//! Merges of a removed page into an index page.
use crate::built::Held;
use crate::plans::grown::{consolidate, hold, remove, root_over, with_each, with_hold, with_terms};
use crate::plans::index_pages::{read, right};
use crate::plans::{key, leaf_of, merges};
use std::process::Abort;

/// Whether the right page is removed under a root over both, and whether it comes into the left one then.
fn merges<R: Abort + AllocGlobal>(rt: &R, left: &Held, right: &mut Held) -> [bool; 2] {
    let mut root = root_over(rt, left, right);
    hold(rt, &mut root, right);
    [remove(rt, &root, right), merges::merges(rt, left, right)]
}

/// Whether an index page of one term comes into one of fifteen terms, and into one of sixteen.
fn merges_beside_sixteen<R: Abort + AllocGlobal>(rt: &R) -> bool {
    let mut left = read(rt, 1);
    with_each(rt, &mut left, b'a', 0, 14);
    consolidate(rt, &mut left);
    let given = merges(rt, &left, &mut right(rt)) == [true, true];
    with_terms(rt, &mut left, b'a', 14, 15);
    consolidate(rt, &mut left);
    given & (merges(rt, &left, &mut right(rt)) == [true, true])
}

/// Whether an index page of two terms comes into its left one, and isn't even removed where one of them is held.
fn merges_two<R: Abort + AllocGlobal>(rt: &R, left: &Held, held: bool) -> [bool; 2] {
    let mut two = right(rt);
    with_each(rt, &mut two, b'x', 1, 2);
    if held {
        with_hold(rt, &mut two, 1);
    }
    merges(rt, left, &mut two)
}

/// Whether such pages come into their left one where no term of them is held, and leaves don't.
fn merges_by_level<R: Abort + AllocGlobal>(rt: &R) -> bool {
    let left = read(rt, 1);
    let leaf = merges(rt, &left, &mut leaf_of(rt, 2, key(b"k09"), 1)) == [true, false];
    let holding = merges_two(rt, &left, true) == [false, false];
    leaf & holding & (merges_two(rt, &left, false) == [true, true])
}

#[test]
fn merges_a_page_of_its_level_that_holds_no_term_beside_sixteen_items(rt: HostRuntime) {
    assert!(rt; merges_beside_sixteen(&rt), "beside sixteen terms");
    assert!(rt; merges_by_level(&rt), "by level");
}
