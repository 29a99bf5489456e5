//! Pages that grow record by record, as the plans say.
ghost use Rattle.std.specs.Prelude.{◌≡◌, ◌∷◌, [], false};
ghost use Rattle.deltas.specs.Spellable.{IsPid};
ghost use Rattle.deltas.specs.declared.record.Record.TheVariants.{Base};
ghost use Rattle.traces.specs.chain.Chains.{is_removed};
ghost use Rattle.traces.specs.chain.Fitted.{IsPageChain};

use crate::built::{self, Held, grow, page};
use crate::plans::{key, leaf, leaf_of};
use base_page::Page;
use bw_model::Key;
use deltas::{Delete, Record};
use std::process::Abort;

/// The page that has this base alone, in a row that no other page has: there are 64 rows for each PID.
pub(crate) fn based<R: Abort + AllocGlobal>(rt: &R, pid: u32, base: Page) -> Held
    requires pid { IsPid pid }
    requires stands { IsPageChain (Base base ∷ []) }
    ensures pid { result.pid ≡ pid }
    ensures chain { result.chain ≡ Base base ∷ [] }
{
    page(rt, pid, pid % 1024 * 64 + 64, &[], base)
}

/// The key that has a leaf's item at this place.
pub(crate) fn at(place: u8) -> Key {
    key(&[b'x', place])
}

/// The page loses the key, if it can get the delta.
pub(crate) fn delete<R: Abort + AllocGlobal>(rt: &R, page: &mut Held, gone: Key)
    requires alive { is_removed page.old.chain ≡ false }
    ensures alive { is_removed page.new.chain ≡ false }
{
    if !built::takes_delete(rt, page, &gone) {
        return;
    }
    page.keeps_rules();
    let next = page.head();
    grow(rt, page, Record::Delete(Delete { next, key: gone }));
}

/// The page loses the keys from this one on up to the other one.
pub(crate) fn thin<R: Abort + AllocGlobal>(rt: &R, page: &mut Held, from: u8, to: u8)
    requires alive { is_removed page.old.chain ≡ false }
    ensures alive { is_removed page.new.chain ≡ false }
{
    for place in from..to {
        delete(rt, page, at(place));
    }
}

/// The left part of a leaf of so many items from the low key on, which was split to this page.
pub(crate) fn split<R: Abort + AllocGlobal>(
    rt: &R,
    pid: u32,
    low: Key,
    count: u8,
    right: u32,
) -> Held
    requires pid { IsPid pid }
    requires right { IsPid right }
    ensures alive { is_removed result.chain ≡ false }
{
    let mut page = based(rt, pid, leaf(low, count));
    let plan = built::split(rt, &page).expect(rt, "a split");
    grow(rt, &mut page, Record::Split(plan.split(right)));
    page
}

/// The root over a page and its right.
pub(crate) fn root_over<R: Abort + AllocGlobal>(rt: &R, left: &Held, right: &Held) -> Held
    ensures { is_removed result.chain ≡ false }
{
    based(rt, 5, built::root(rt, left, right).expect(rt, "a root"))
}

/// The parent gets the term of a new page, where it may.
fn with_child<R: Abort + AllocGlobal>(rt: &R, parent: &mut Held, first: u8, place: u8)
    requires alive { is_removed parent.old.chain ≡ false }
    ensures alive { is_removed parent.new.chain ≡ false }
{
    let low = key(&[first, place]);
    post(rt, parent, &leaf_of(rt, u32::from(place) + 10, low, 0));
}

/// The parent gets the terms of pages from 10 on, in a delta each; they begin at the keys that have these second bytes.
pub(crate) fn with_terms<R: Abort + AllocGlobal>(
    rt: &R,
    parent: &mut Held,
    first: u8,
    from: u8,
    to: u8,
)
    requires alive { is_removed parent.old.chain ≡ false }
    ensures alive { is_removed parent.new.chain ≡ false }
{
    for place in from..to {
        with_child(rt, parent, first, place);
    }
}

/// The parent gets these terms, each in a base but the last one.
pub(crate) fn with_each<R: Abort + AllocGlobal>(
    rt: &R,
    parent: &mut Held,
    first: u8,
    from: u8,
    to: u8,
)
    requires alive { is_removed parent.old.chain ≡ false }
    ensures alive { is_removed parent.new.chain ≡ false }
{
    for place in from..to {
        consolidate(rt, parent);
        with_child(rt, parent, first, place);
    }
}

/// The term of the page that begins at the key of this place is held, if it may be.
pub(crate) fn with_hold<R: Abort + AllocGlobal>(rt: &R, parent: &mut Held, place: u8)
    requires alive { is_removed parent.old.chain ≡ false }
    ensures alive { is_removed parent.new.chain ≡ false }
{
    consolidate(rt, parent);
    hold(
        rt,
        parent,
        &leaf_of(rt, u32::from(place) + 10, at(place), 0),
    );
}

/// The page has what it has in a base alone.
pub(crate) fn consolidate<R: Abort + AllocGlobal>(rt: &R, page: &mut Held)
    requires alive { is_removed page.old.chain ≡ false }
    ensures alive { is_removed page.new.chain ≡ false }
{
    let base = built::consolidated(rt, page);
    *page = based(rt, page.pid(), base);
}

/// The parent gets the page's term, where it may.
pub(crate) fn post<R: Abort + AllocGlobal>(rt: &R, parent: &mut Held, page: &Held)
    requires alive { is_removed parent.old.chain ≡ false }
    ensures alive { is_removed parent.new.chain ≡ false }
{
    if let Some(term) = built::term(rt, parent, page) {
        grow(rt, parent, Record::Term(term));
    }
}

/// The parent holds the page's term, where it may.
pub(crate) fn hold<R: Abort + AllocGlobal>(rt: &R, parent: &mut Held, page: &Held)
    requires alive { is_removed parent.old.chain ≡ false }
    ensures alive { is_removed parent.new.chain ≡ false }
{
    if let Some(hold) = built::hold(rt, parent, page) {
        grow(rt, parent, Record::Hold(hold));
    }
}

/// Whether the page is removed now, where its parent has its term held.
pub(crate) fn remove<R: Abort + AllocGlobal>(rt: &R, parent: &Held, page: &mut Held) -> bool {
    match built::remove(rt, parent, page) {
        None => false,
        Some(remove) => {
            grow(rt, page, Record::Remove(remove));
            true
        }
    }
}

/// The left page gets what the removed page has, where it may come there.
pub(crate) fn join<R: Abort + AllocGlobal>(rt: &R, left: &mut Held, removed: &Held) {
    if let Some(merge) = built::merge(rt, left, removed) {
        grow(rt, left, Record::Merge(merge));
    }
}
