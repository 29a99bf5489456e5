//! Merges of a removed page into its left one, the end of its term, and roots over it.
ghost use Rattle.std.specs.Prelude.{◌≡◌, false};
ghost use Rattle.deltas.specs.Spellable.{IsPid};
ghost use Rattle.traces.specs.chain.Chains.{is_removed};

use crate::built::{self, Held};
use crate::plans::grown::{
    at, delete, hold, join, post, remove, root_over, split, thin, with_terms,
};
use crate::plans::roots::roots_first;
use crate::plans::{leaf, leaf_of};
use bw_model::Key;
use std::process::Abort;

/// Whether the left page gets the removed one.
pub(crate) fn merges<R: Abort + AllocGlobal>(rt: &R, left: &Held, removed: &Held) -> bool {
    built::merge(rt, left, removed).is_some()
}

/// Whether the left page, over its head, gets so many items from the middle of its leaf on, up to the key, where the right page begins.
fn brings<R: Abort + AllocGlobal>(
    rt: &R,
    left: &Held,
    removed: &Held,
    count: u8,
    high: Option<Key>,
    right: Option<u32>,
) -> bool {
    match built::merge(rt, left, removed) {
        None => false,
        Some(merge) => {
            let place = (merge.level, merge.next, merge.right) == (0, left.head(), right);
            let range = (merge.low == at(8)) & (merge.high == high);
            place & range & (&merge.items == leaf(at(8), count).items())
        }
    }
}

/// Whether the parent loses the removed page's term.
fn unterms<R: Abort + AllocGlobal>(rt: &R, parent: &Held, left: &Held, removed: &Held) -> bool {
    built::unterm(rt, parent, left, removed).is_some()
}

/// Whether the parent, over its head, loses the term of this child at the key of this place.
fn loses<R: Abort + AllocGlobal>(
    rt: &R,
    parent: &Held,
    left: &Held,
    removed: &Held,
    place: u8,
    child: u32,
) -> bool {
    match built::unterm(rt, parent, left, removed) {
        None => false,
        Some(unterm) => {
            let named = (unterm.level, unterm.next, unterm.child) == (1, parent.head(), child);
            named & (unterm.separator == at(place))
        }
    }
}

/// The first of two leaves, as page 1, which ends at the eighth key.
fn first<R: Abort + AllocGlobal>(rt: &R) -> Held
    ensures alive { is_removed result.chain ≡ false }
{
    split(rt, 1, Key::default(), 16, 2)
}

/// The second one, up to the sixteenth key, with four items.
fn second<R: Abort + AllocGlobal>(rt: &R) -> Held
    ensures alive { is_removed result.chain ≡ false }
{
    let mut page = split(rt, 2, at(8), 24, 3);
    thin(rt, &mut page, 12, 16);
    page
}

/// A root that holds the term of its last leaf; the leaf to the left of that one; the last one; and that one removed.
struct Pages {
    root: Held,
    left: Held,
    last: Held,
    gone: Held,
}

impl Drop for Pages {
    fn drop(self) {
        let Pages {
            root: _,
            left: _,
            last: _,
            gone: _,
        } = self;
    }
}

/// Of two leaves.
fn two<R: Abort + AllocGlobal>(rt: &R) -> Pages
    ensures root { is_removed result.root.chain ≡ false }
{
    let (left, last) = (first(rt), second(rt));
    let root = root_over(rt, &left, &last);
    let gone = second(rt);
    let mut pages = Pages {
        root,
        left,
        last,
        gone,
    };
    hold(rt, &mut pages.root, &pages.last);
    remove(rt, &pages.root, &mut pages.gone);
    pages
}

/// The third leaf, with four items.
fn third<R: Abort + AllocGlobal>(rt: &R) -> Held
    ensures alive { is_removed result.chain ≡ false }
{
    let mut page = leaf_of(rt, 3, at(16), 24);
    thin(rt, &mut page, 16, 20);
    page
}

/// Of three leaves.
fn three<R: Abort + AllocGlobal>(rt: &R) -> Pages
    ensures root { is_removed result.root.chain ≡ false }
{
    let (left, last) = (split(rt, 2, at(8), 24, 3), third(rt));
    let root = root_over(rt, &first(rt), &left);
    let gone = third(rt);
    let mut pages = Pages {
        root,
        left,
        last,
        gone,
    };
    post(rt, &mut pages.root, &pages.last);
    hold(rt, &mut pages.root, &pages.last);
    remove(rt, &pages.root, &mut pages.gone);
    pages
}

/// Whether a page that is a base alone comes into the left one, once it is removed.
fn merges_a_base<R: Abort + AllocGlobal>(rt: &R, pages: &Pages) -> bool {
    let mut base = leaf_of(rt, 2, at(8), 11);
    remove(rt, &pages.root, &mut base) & brings(rt, &pages.left, &base, 11, None, None)
}

/// Whether a page 4 that was split from so many items to this page gets the removed one.
fn merges_into<R: Abort + AllocGlobal>(rt: &R, gone: &Held, count: u8, right: u32) -> bool
    requires right { IsPid right }
{
    merges(rt, &split(rt, 4, Key::default(), count, right), gone)
}

/// Whether the removed page comes into its left one alone.
fn merges_there<R: Abort + AllocGlobal>(rt: &R, gone: &Held) -> bool {
    let before = merges_into(rt, gone, 17, 2) & !merges_into(rt, gone, 16, 3);
    let endless = merges(rt, &leaf_of(rt, 4, Key::default(), 8), gone);
    before & !merges_into(rt, gone, 18, 2) & !endless
}

/// Whether the first leaf, under seven deltas, gets the removed one, and not under eight.
fn merges_under_seven<R: Abort + AllocGlobal>(rt: &R, gone: &Held) -> bool {
    let mut left = first(rt);
    thin(rt, &mut left, 0, 6);
    let given = merges(rt, &left, gone);
    delete(rt, &mut left, at(6));
    given & !merges(rt, &left, gone)
}

pub(crate) fn removes<R: Abort + AllocGlobal>(rt: &R, root: &Held, page: &Held) -> bool {
    built::remove(rt, root, page).is_some()
}

/// Whether the last page may be removed, and the first one may not, however few items it has.
fn removes_last<R: Abort + AllocGlobal>(rt: &R, pages: &Pages) -> bool {
    let mut thinned = first(rt);
    thin(rt, &mut thinned, 0, 4);
    let last = removes(rt, &pages.root, &pages.last) & !removes(rt, &pages.root, &thinned);
    last & !removes(rt, &pages.root, &leaf_of(rt, 1, Key::default(), 0))
}

/// Whether merges are given as they are to be.
fn merges_second<R: Abort + AllocGlobal>(rt: &R, pages: &Pages) -> [bool; 6] {
    [
        brings(rt, &pages.left, &pages.gone, 12, Some(at(16)), Some(3)),
        !merges(rt, &pages.left, &pages.last) & built::merge_into_itself(rt, &pages.gone).is_none(),
        merges_a_base(rt, pages),
        merges_there(rt, &pages.gone),
        merges_under_seven(rt, &pages.gone),
        removes_last(rt, pages),
    ]
}

/// Whether the root loses the term under seven deltas, and not under eight.
fn loses_under_seven<R: Abort + AllocGlobal>(rt: &R, pages: &mut Pages) -> bool
    requires root { is_removed pages.old.root.chain ≡ false }
{
    with_terms(rt, &mut pages.root, b'a', 0, 6);
    let given = loses(rt, &pages.root, &pages.left, &pages.gone, 8, 2);
    with_terms(rt, &mut pages.root, b'a', 6, 7);
    given & !unterms(rt, &pages.root, &pages.left, &pages.gone)
}

/// Whether the root loses the term beside a leaf that has no end, and not beside one that begins where the last one does; and whether a
/// root that doesn't hold the term keeps it.
fn loses_beside<R: Abort + AllocGlobal>(rt: &R, pages: &Pages) -> bool {
    let endless = unterms(
        rt,
        &pages.root,
        &leaf_of(rt, 1, Key::default(), 3),
        &pages.gone,
    );
    let beside = unterms(rt, &pages.root, &leaf_of(rt, 4, at(8), 12), &pages.gone);
    let unheld = root_over(rt, &first(rt), &pages.last);
    endless & !beside & !unterms(rt, &unheld, &pages.left, &pages.gone)
}

/// Whether the term of the last page ends once that was merged, at the key of this place.
fn ends<R: Abort + AllocGlobal>(rt: &R, pages: &mut Pages, place: u8, child: u32) -> [bool; 3]
    ensures root { pages.new.root ≡ pages.old.root }
{
    let early = unterms(rt, &pages.root, &pages.left, &pages.gone);
    join(rt, &mut pages.left, &pages.gone);
    let whole = unterms(rt, &pages.root, &pages.left, &pages.last);
    [
        !early & !built::unterm_beside_itself(rt, &pages.root, &pages.gone).is_some(),
        !whole,
        loses(rt, &pages.root, &pages.left, &pages.gone, place, child),
    ]
}

/// What is so of two leaves.
fn of_two<R: Abort + AllocGlobal>(rt: &R) -> bool {
    let mut pages = two(rt);
    let merges = merges_second(rt, &pages) == [true; 6];
    let roots = roots_first(rt, &pages.left, &pages.last, &pages.gone);
    let ends = ends(rt, &mut pages, 8, 2) == [true; 3];
    merges & roots & ends & loses_beside(rt, &pages) & loses_under_seven(rt, &mut pages)
}

/// What is so of three.
fn of_three<R: Abort + AllocGlobal>(rt: &R) -> bool {
    let mut pages = three(rt);
    let beyond = unterms(rt, &pages.root, &first(rt), &pages.gone);
    !beyond & (ends(rt, &mut pages, 16, 3) == [true; 3])
}

#[test]
fn merges_a_removed_page_and_ends_its_term(rt: HostRuntime) {
    assert!(rt; of_two(&rt), "two leaves");
    assert!(rt; of_three(&rt), "three leaves");
}
