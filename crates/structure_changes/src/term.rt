//! The term of a page that its parent hasn't.
ghost use Rattle.std.specs.Prelude.{◌≡◌, MatchOption};
ghost use Rattle.structure_changes.specs.Reads.{IsReadPage};
ghost use Rattle.structure_changes.specs.Terms.{CanPost, IsTermPlan};

use crate::PageInHand;
use crate::sizes::{MANY_DELTAS, MANY_ITEMS};
use deltas::Term;
use row_search::{KeyWords, Rows};
use std::alloc::Allocator;

/// The term of the page in its parent; none exactly where either is removed, the parent isn't one level up with the page's low key in
/// its range and no term there, or has many deltas or items.
pub fn plan_term<R: Rows, A: Allocator>(
    parent: &PageInHand<R, A>,
    page: &PageInHand<R, A>,
    rows: &R,
    pass: &mut R::Pass,
) -> Option<Term>
    requires parent { IsReadPage (R.has rows.now pass.old) parent.now }
    requires page { IsReadPage (R.has rows.now pass.old) page.now }
    ensures same { pass.new ≡ pass.old }
    ensures plan { MatchOption result (¬ CanPost parent.now page.now) (IsTermPlan parent.now page.now) }
{
    let above = parent.chain();
    let chain = page.chain();
    above.was_read(rows, pass);
    chain.was_read(rows, pass);
    above.keeps_rules();
    let low = chain.low(rows, pass);
    let key = KeyWords::of(&low);
    if above.is_removed() {
        return None;
    }
    if chain.is_removed() {
        return None;
    }
    if u16::from(above.level()) != u16::from(chain.level()) + 1 {
        return None;
    }
    if !above.covers(rows, pass, &key) {
        return None;
    }
    if above.content(rows, pass, &key).is_some() {
        return None;
    }
    if above.deltas() >= MANY_DELTAS {
        return None;
    }
    if above.item_count(rows, pass) >= MANY_ITEMS {
        return None;
    }
    Some(Term {
        level: above.level(),
        next: parent.head(),
        separator: low,
        child: page.pid(),
    })
}
