//! The removal of a page whose term is held.
ghost use Rattle.std.specs.Prelude.{◌≡◌, MatchOption};
ghost use Rattle.traces.specs.chain.Chains.{is_removed};
ghost use Rattle.structure_changes.specs.Reads.{IsReadPage};
ghost use Rattle.structure_changes.specs.Removals.{CanRemove, IsRemovePlan};

use crate::PageInHand;
use crate::held::{has_term, is_unheld};
use crate::sizes::{FEW_ITEMS, MANY_DELTAS};
use deltas::Remove;
use row_search::Rows;
use std::alloc::Allocator;

/// The removal of the page; none exactly where its parent hasn't its term held, it is removed, has more than a few items or a held
/// one, or has many deltas.
pub fn plan_remove<R: Rows, A: Allocator>(
    parent: &PageInHand<R, A>,
    page: &PageInHand<R, A>,
    rows: &R,
    pass: &mut R::Pass,
) -> Option<Remove>
    requires parent { IsReadPage (R.has rows.now pass.old) parent.now }
    requires page { IsReadPage (R.has rows.now pass.old) page.now }
    ensures same { pass.new ≡ pass.old }
    ensures plan { MatchOption result (¬ CanRemove parent.now page.now) (IsRemovePlan parent.now page.now) }
{
    let above = parent.chain();
    let chain = page.chain();
    above.was_read(rows, pass);
    chain.was_read(rows, pass);
    above.keeps_rules();
    chain.keeps_rules();
    if !has_term(parent, page, rows, pass, true) {
        return None;
    }
    if chain.is_removed() {
        return None;
    }
    if chain.deltas() >= MANY_DELTAS {
        return None;
    }
    if chain.item_count(rows, pass) > FEW_ITEMS {
        return None;
    }
    let unheld = is_unheld(chain, rows, pass);
    if !unheld {
        return None;
    }
    Some(Remove {
        level: chain.level(),
        next: page.head(),
    })
}
