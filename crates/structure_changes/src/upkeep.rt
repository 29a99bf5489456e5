//! What is done first at a small page: its term is held, and then it is removed.
ghost use Rattle.std.specs.Prelude.{◌≡◌, MatchOption};
ghost use Rattle.structure_changes.specs.Reads.{IsReadPage};
ghost use Rattle.structure_changes.specs.Upkeep.{IsIdle, IsUpkeep};

use crate::held::is_unheld;
use crate::sizes::FEW_ITEMS;
use crate::{PageInHand, Plan, plan_hold, plan_remove};
use deltas::Record;
use row_search::Rows;
use std::alloc::Allocator;

/// The plan of the removal of the page where its term is held, else of the hold of its term; none exactly where the page is page 1, or has more
/// than a few items or a held one, or its term is neither held nor may be. Most pages are told by their number of items alone.
pub fn plan_upkeep<R: Rows, A: Allocator>(
    parent: &PageInHand<R, A>,
    page: &PageInHand<R, A>,
    rows: &R,
    pass: &mut R::Pass,
) -> Option<Plan>
    requires parent { IsReadPage (R.has rows.now pass.old) parent.now }
    requires page { IsReadPage (R.has rows.now pass.old) page.now }
    ensures same { pass.new ≡ pass.old }
    ensures plan { MatchOption result (IsIdle parent.now page.now) (IsUpkeep parent.now page.now) }
{
    let chain = page.chain();
    chain.was_read(rows, pass);
    chain.keeps_rules();
    if page.pid() == 1 {
        return None;
    }
    if chain.item_count(rows, pass) > FEW_ITEMS {
        return None;
    }
    if !is_unheld(chain, rows, pass) {
        return None;
    }
    if let Some(remove) = plan_remove(parent, page, rows, pass) {
        return Some(Plan::over(page, Record::Remove(remove)));
    }
    let hold = plan_hold(parent, page, rows, pass)?;
    Some(Plan::over(parent, Record::Hold(hold)))
}
