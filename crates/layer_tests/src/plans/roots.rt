//! Roots over a page that was split, and its right.
ghost use Rattle.std.specs.Prelude.{◌<◌, ◌≤◌};

use crate::built::{self, Held};
use crate::plans::grown::{at, split};
use crate::plans::index_pages::read;
use crate::plans::{key, leaf_of};
use base_page::{Content, Page};
use bw_model::Key;
use std::process::Abort;

/// Whether the root is an index page over all keys that has page 1 at the empty key and page 2 at the eighth one.
fn is_over_both(root: &Page) -> bool {
    let ends = root.high().is_none() & root.right().is_none();
    let begins = (root.level() == 1) & (root.low() == &Key::default());
    let both = has(root, &Key::default(), 1) & has(root, &at(8), 2);
    ends & begins & both & (root.items().len() == 2)
}

/// Whether the page has this child at the key, and it isn't held.
fn has(root: &Page, at: &Key, child: u32) -> bool {
    match root.content(at) {
        Some(Content::Child { page, held }) => (*page == child) & !*held,
        _ => false,
    }
}

/// Whether the page and its right get a root over both.
fn roots_both<R: Abort + AllocGlobal>(rt: &R, left: &Held, right: &Held) -> bool {
    match built::root(rt, left, right) {
        None => false,
        Some(root) => is_over_both(&root),
    }
}

fn roots<R: Abort + AllocGlobal>(rt: &R, left: &Held, right: &Held) -> bool {
    built::root(rt, left, right).is_some()
}

/// Whether the first page gets a root over it and its right, and over no other page, nor over its right once that is removed.
pub(crate) fn roots_first<R: Abort + AllocGlobal>(
    rt: &R,
    first: &Held,
    right: &Held,
    removed: &Held,
) -> bool {
    let given = roots_both(rt, first, right) & !roots(rt, first, removed);
    let other = roots(rt, first, &leaf_of(rt, 3, at(8), 16));
    given & !other & !roots(rt, first, &leaf_of(rt, 2, at(9), 16))
}

/// Whether a page that isn't the first one, or ends nowhere, gets a root.
fn roots_another<R: Abort + AllocGlobal>(rt: &R) -> bool {
    let second = roots(rt, &split(rt, 2, at(8), 24, 3), &leaf_of(rt, 3, at(16), 24));
    let endless = leaf_of(rt, 1, Key::default(), 3);
    second | roots(rt, &endless, &leaf_of(rt, 2, key(b"k09"), 3))
}

/// The level of the root over both; none is 0.
fn level_over<R: Abort + AllocGlobal>(rt: &R, left: &Held, right: &Held) -> u8 {
    match built::root(rt, left, right) {
        None => 0,
        Some(root) => root.level(),
    }
}

/// The level of the root over an index page of this level and a page to its right; none is 0.
fn root_level<R: Abort + AllocGlobal>(rt: &R, level: u8) -> u8
    requires index { 0 < level }
    requires top { level ≤ 15 }
{
    level_over(rt, &read(rt, level), &leaf_of(rt, 2, key(b"k09"), 0))
}

#[test]
fn roots_over_the_first_page_up_to_level_fifteen(rt: HostRuntime) {
    let levels = [root_level(&rt, 14), root_level(&rt, 15)];
    assert!(rt; levels == [15, 0], "{levels:?}");
    assert!(rt; !roots_another(&rt), "a second page, or one without end");
}
