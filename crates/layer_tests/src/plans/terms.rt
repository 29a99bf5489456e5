//! What an index page may get at the edges: beside few items, under few deltas, on its level and in its range.
ghost use Rattle.std.specs.Prelude.{◌≤◌, length};
ghost use Rattle.bw_model.specs.Bytes.{longest};

use crate::built::{self, Held};
use crate::plans::grown::{consolidate, with_each, with_terms};
use crate::plans::index_pages::{read, right};
use crate::plans::{bare, key, leaf_of};
use std::process::Abort;

/// Whether the parent gets the term of a leaf that begins at the key.
fn posts<R: Abort + AllocGlobal>(rt: &R, parent: &Held, low: &[u8]) -> bool
    requires { length low.now ≤ longest }
{
    built::term(rt, parent, &leaf_of(rt, 9, key(low), 0)).is_some()
}

/// Whether the first term that the page got beside its own one may be held.
fn holds<R: Abort + AllocGlobal>(rt: &R, parent: &Held) -> bool {
    built::hold(rt, parent, &leaf_of(rt, 10, key(&[b'a', 0]), 0)).is_some()
}

/// Whether an index page of fifteen items gets a term, and one of sixteen.
fn posts_beside<R: Abort + AllocGlobal>(rt: &R) -> [bool; 2] {
    let mut page = bare(rt);
    with_each(rt, &mut page, b'a', 0, 14);
    consolidate(rt, &mut page);
    let given = posts(rt, &page, b"k");
    with_terms(rt, &mut page, b'a', 14, 15);
    consolidate(rt, &mut page);
    [given, posts(rt, &page, b"k")]
}

/// Whether a page gets a term, and a hold, under seven deltas, and under eight.
fn under_deltas<R: Abort + AllocGlobal>(rt: &R) -> [bool; 4] {
    let mut page = bare(rt);
    with_terms(rt, &mut page, b'a', 0, 7);
    let posted = posts(rt, &page, b"k");
    let held = holds(rt, &page);
    with_terms(rt, &mut page, b'a', 7, 8);
    [posted, held, posts(rt, &page, b"k"), holds(rt, &page)]
}

/// Whether the page gets the term of a leaf that begins at the first key, and not of one that begins at the other one.
fn posts_inside<R: Abort + AllocGlobal>(rt: &R, page: Held, inside: &[u8], outside: &[u8]) -> bool
    requires inside { length inside.now ≤ longest }
    requires outside { length outside.now ≤ longest }
{
    posts(rt, &page, inside) & !posts(rt, &page, outside)
}

/// Whether the two parts of an index page get terms inside their ranges alone.
fn posts_in_range<R: Abort + AllocGlobal>(rt: &R) -> bool {
    let lower = posts_inside(rt, read(rt, 1), b"k08", b"k09");
    lower & posts_inside(rt, right(rt), b"k10", b"k08")
}

#[test]
fn posts_and_holds_at_the_edges_alone(rt: HostRuntime) {
    let beside = posts_beside(&rt);
    assert!(rt; beside == [true, false], "beside items: {beside:?}");
    let under = under_deltas(&rt);
    assert!(rt;
        under == [true, true, false, false],
        "under deltas: {under:?}"
    );
    assert!(rt; posts_in_range(&rt), "in its range");
    assert!(rt; !posts(&rt, &read(&rt, 2), b"k08"), "on level 2");
}
