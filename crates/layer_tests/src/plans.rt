//! Plans over pages by hand, at the edges of their conditions.
ghost use Rattle.std.specs.Prelude.{codes, ◌≡◌, ◌≤◌, ◌∷◌, [], length, false};
ghost use Rattle.bw_model.specs.Bytes.{longest};
ghost use Rattle.deltas.specs.Spellable.{IsPid};
ghost use Rattle.deltas.specs.declared.record.Record.TheVariants as kind;
ghost use Rattle.deltas.specs.declared.record.Record.TheVariants.{Base};
ghost use Rattle.traces.specs.chain.Chains.{is_removed};
ghost use Rattle.traces.specs.chain.Examples.{held_page, index, index_page, termed_page};
ghost use Rattle.traces.specs.chain.Fitted.{IsPageChain};

mod grown;
mod holds;
mod index_pages;
mod levels;
mod merges;
mod roots;
mod terms;

use crate::built::{self, Held};
use crate::plans::grown::{at, based, delete};
use crate::plans::index_pages::index_from;
use base_page::{Content, Items, MAX_ITEMS, Page};
use bw_model::{Key, Value};
use deltas::{Hold, Record, Term};
use std::process::Abort;

pub(crate) fn key(text: &[u8]) -> Key
    requires { length text.now ≤ longest }
    ensures { result ≡ text.now }
{
    Key::from_slice(text).unwrap()
}

/// The key of the term, and of its hold.
fn ninth() -> Key
    ensures { result ≡ codes "k09" }
{
    key(b"k09")
}

/// The record that adds the term of a child at that key.
fn term_of(next: u32, child: u32) -> Record
    ensures { result ≡ kind.Term (record { level = 1; next = next; separator = codes "k09"; child = child }) }
{
    Record::Term(Term {
        level: 1,
        next,
        separator: ninth(),
        child,
    })
}

/// The record that holds it.
fn hold_of(next: u32, child: u32) -> Record
    ensures { result ≡ kind.Hold (record { level = 1; next = next; separator = codes "k09"; child = child }) }
{
    Record::Hold(Hold {
        level: 1,
        next,
        separator: ninth(),
        child,
    })
}

/// A leaf over all keys from the low one on, with so many items, the first one at the low key.
pub(crate) fn leaf(low: Key, count: u8) -> Page
    ensures alive { result.removed ≡ false }
    ensures stands { IsPageChain (Base result ∷ []) }
{
    let mut page = Page::new(0, low, None, None, Items::new());
    for i in 0..count {
        let at = key(&[b'x', i]);
        if page.covers(&at) && page.items().as_slice().len() < MAX_ITEMS {
            page.put(at, Content::Value(Value::default()));
        }
    }
    page.keeps_rules();
    page
}

/// That leaf as it was read.
pub(crate) fn leaf_of<R: Abort + AllocGlobal>(rt: &R, pid: u32, low: Key, count: u8) -> Held
    requires pid { IsPid pid }
    ensures alive { is_removed result.chain ≡ false }
{
    based(rt, pid, leaf(low, count))
}

/// That leaf under so many deltas, which change nothing, and twelve at most.
fn leaf_under<R: Abort + AllocGlobal>(rt: &R, pid: u32, low: Key, count: u8, deltas: u8) -> Held
    requires pid { IsPid pid }
    ensures alive { is_removed result.chain ≡ false }
{
    let mut page = leaf_of(rt, pid, low, count);
    for _ in 0..deltas {
        let low = built::low(rt, &page);
        delete(rt, &mut page, low);
    }
    page
}

/// Items and deltas of a leaf, and whether it is split at its eighth item, and how many items go; none where it isn't split.
const SPLIT: &[(u8, u8, Option<(bool, usize)>)] = &[
    (15, 0, None),
    (16, 0, Some((true, 8))),
    (17, 0, Some((true, 9))),
    (16, 7, Some((true, 8))),
    (16, 8, None),
];

/// Whether the page is split at the place, and how many items go; none where it isn't split.
pub(crate) fn split_at<R: Abort + AllocGlobal>(
    rt: &R,
    page: &Held,
    place: u8,
) -> Option<(bool, usize)> {
    match built::split(rt, page) {
        None => None,
        Some(plan) => Some((plan.upper.low() == &at(place), plan.upper.items().len())),
    }
}

/// An index page that has page 1 at the empty key.
fn index() -> Page
    ensures { result ≡ index }
{
    index_from(1, Key::default(), 1)
}

/// An index page that has page 1 at the empty key, as page 5, in row 8.
pub(crate) fn bare<R: Abort + AllocGlobal>(rt: &R) -> Held
    ensures { result.chain ≡ index_page }
{
    built::page(rt, 5, 8, &[], index())
}

/// That page with the term of page 2, in row 5.
fn termed<R: Abort + AllocGlobal>(rt: &R) -> Held
    ensures { result.chain ≡ termed_page }
{
    built::page(rt, 5, 5, &[term_of(4, 2)], index())
}

/// That page with the term of page 2, held, in row 6.
fn held<R: Abort + AllocGlobal>(rt: &R) -> Held
    ensures { result.chain ≡ held_page }
{
    built::page(rt, 5, 6, &[hold_of(5, 2), term_of(4, 2)], index())
}

/// Whether the parent gets a term of the page that has this level, row and child; or none.
fn posts<R: Abort + AllocGlobal>(
    rt: &R,
    parent: &Held,
    page: &Held,
    wanted: Option<(u8, u32, u32)>,
) -> bool {
    match built::term(rt, parent, page) {
        None => wanted.is_none(),
        Some(term) => wanted == Some((term.level, term.next, term.child)),
    }
}

/// Whether an index page gets the term of page 2, over row 8, and not again.
fn posts_once<R: Abort + AllocGlobal>(rt: &R) -> bool {
    let page = leaf_of(rt, 2, key(b"k09"), 3);
    let given = posts(rt, &bare(rt), &page, Some((1, 8, 2)));
    given & posts(rt, &termed(rt), &page, None)
}

/// Whether the parent's term of the page may be held, if the page begins at the key.
fn may_be_held<R: Abort + AllocGlobal>(rt: &R, parent: &Held, pid: u32, low: &[u8]) -> bool
    requires pid { IsPid pid }
    requires low { length low.now ≤ longest }
{
    built::hold(rt, parent, &leaf_of(rt, pid, key(low), 3)).is_some()
}

/// Whether a free term that isn't the first may be held, and no other one.
fn holds_one<R: Abort + AllocGlobal>(rt: &R) -> bool {
    let termed = termed(rt);
    let given = may_be_held(rt, &termed, 2, b"k09") & !may_be_held(rt, &held(rt), 2, b"k09");
    given & !may_be_held(rt, &termed, 1, b"") & !may_be_held(rt, &termed, 3, b"k09")
}

/// Whether a leaf of so many items under so many deltas may be removed, below a parent that holds the term of page 2 there.
fn removes<R: Abort + AllocGlobal>(rt: &R, pid: u32, items: u8, deltas: u8) -> bool
    requires pid { IsPid pid }
{
    let page = leaf_under(rt, pid, key(b"k09"), items, deltas);
    merges::removes(rt, &held(rt), &page)
}

/// Whether leaves of four items under seven deltas may be removed, and no others.
fn removes_small_ones<R: Abort + AllocGlobal>(rt: &R) -> bool {
    let given = removes(rt, 2, 4, 0) & removes(rt, 2, 4, 7);
    given & !removes(rt, 2, 5, 0) & !removes(rt, 2, 4, 8) & !removes(rt, 3, 4, 0)
}

#[test]
fn splits_posts_holds_and_removes(rt: HostRuntime) {
    for (items, deltas, expected) in SPLIT {
        let found = split_at(&rt, &leaf_under(&rt, 2, key(b"k"), *items, *deltas), 8);
        assert!(rt;
            found == *expected,
            "{items} items, {deltas} deltas: {found:?}"
        );
    }
    assert!(rt; posts_once(&rt), "a term is posted once");
    assert!(rt; holds_one(&rt), "one term is held");
    assert!(rt; removes_small_ones(&rt), "small leaves are removed");
}
