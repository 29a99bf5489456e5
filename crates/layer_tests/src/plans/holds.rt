//! Holds in an index page of many terms, and where such a page is split.
ghost use Rattle.std.specs.Prelude.{◌≡◌, false};
ghost use Rattle.traces.specs.chain.Chains.{is_removed};

use crate::built::{self, Held};
use crate::plans::grown::{at, with_each, with_hold};
use crate::plans::{bare, leaf_of, split_at};
use std::process::Abort;

/// An index page of sixteen terms, where those at these places are held.
fn sixteen<R: Abort + AllocGlobal>(rt: &R, places: &[u8]) -> Held
    ensures alive { is_removed result.chain ≡ false }
{
    let mut page = bare(rt);
    with_each(rt, &mut page, b'x', 1, 16);
    for place in places {
        with_hold(rt, &mut page, *place);
    }
    page
}

/// Whether what the parent gets, over its head, holds the term at the place; none where it gets nothing.
fn holds_at<R: Abort + AllocGlobal>(rt: &R, parent: &Held, page: &Held, place: u8) -> Option<bool> {
    match built::hold(rt, parent, page) {
        None => None,
        Some(hold) => {
            let child = u32::from(place) + 10;
            let named = (hold.level, hold.next, hold.child) == (1, parent.head(), child);
            Some(named & (hold.separator == at(place)))
        }
    }
}

/// What `holds_at` finds for a parent with sixteen terms, of which those at these places are held.
fn holds<R: Abort + AllocGlobal>(rt: &R, places: &[u8], place: u8) -> Option<bool> {
    let page = leaf_of(rt, u32::from(place) + 10, at(place), 0);
    holds_at(rt, &sixteen(rt, places), &page, place)
}

/// Terms that are held, a place, and whether its term may be held; none where it may not.
const HELD: &[(&[u8], u8, Option<bool>)] = &[
    (&[3], 1, Some(true)),
    (&[3], 2, None),
    (&[3], 3, None),
    (&[3], 4, None),
    (&[3], 5, Some(true)),
    (&[2, 6, 10], 14, Some(true)),
    (&[2, 6, 10, 12], 14, None),
];

/// Terms that are held, the place at which the page is split, and how many items go.
const SPLIT: &[(&[u8], u8, usize)] = &[
    (&[], 8, 8),
    (&[8], 9, 7),
    (&[6, 8, 10], 9, 7),
    (&[7, 9], 8, 8),
    (&[9], 8, 8),
];

#[test]
fn holds_and_splits_beside_no_held_term(rt: HostRuntime) {
    for (held, place, expected) in HELD {
        let found = holds(&rt, held, *place);
        assert!(rt;
            found == *expected,
            "{held:?} held, then {place}: {found:?}"
        );
    }
    for (held, place, count) in SPLIT {
        let found = split_at(&rt, &sixteen(&rt, held), *place);
        assert!(rt;
            found == Some((true, *count)),
            "{held:?} held, split at {place}: {found:?}"
        );
    }
}
