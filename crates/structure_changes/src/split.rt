//! The upper part of a page that is split.
ghost use Rattle.std.specs.Prelude.{◌≡◌, ◌<◌, ◌≤◌, MatchOption, length};
ghost use Rattle.base_page.specs.Rules.{AreApart};
ghost use Rattle.structure_changes.specs.Reads.{IsReadPage};
ghost use Rattle.structure_changes.specs.Splits.{CanSplit, IsSplitPlace, IsSplitPlan, split_to};

use crate::PageInHand;
use crate::sizes::{MANY_DELTAS, MANY_ITEMS};
use base_page::{Items, Page, is_held};
use deltas::Split;
use row_search::Rows;
use std::alloc::Allocator;

/// A split that lacks only the PID of the new page: that page, and the row of the page that is split.
#[derive(Drop)]
pub struct SplitPlan {
    pub upper: Page,
    pub next: u32,
}

impl SplitPlan {
    /// The split, where the new page has this PID.
    pub fn split(&self, right: u32) -> Split
        ensures { result ≡ split_to self.now right }
    {
        Split {
            level: self.upper.level(),
            next: self.next,
            separator: self.upper.low().copied(),
            page: right,
        }
    }
}

/// The page that is to stand to the right of a page that is split, and the split; none exactly where the page is removed, has many
/// deltas, or hasn't many items.
#[inline(never)]
pub fn plan_split<R: Rows, A: Allocator>(
    page: &PageInHand<R, A>,
    rows: &R,
    pass: &mut R::Pass,
) -> Option<SplitPlan>
    requires read { IsReadPage (R.has rows.now pass.old) page.now }
    ensures same { pass.new ≡ pass.old }
    ensures plan { MatchOption result (¬ CanSplit page.now) (IsSplitPlan page.now) }
{
    let chain = page.chain();
    chain.was_read(rows, pass);
    chain.keeps_rules();
    if chain.is_removed() {
        return None;
    }
    if chain.deltas() >= MANY_DELTAS {
        return None;
    }
    if chain.item_count(rows, pass) < MANY_ITEMS {
        return None;
    }
    let whole = chain.page(rows, pass);
    let place = split_place(whole.items());
    let (_, upper) = whole.cut_at(place, 1);
    Some(SplitPlan {
        upper,
        next: page.head(),
    })
}

/// The place at which many items are split: the middle one, or the next one, where the middle one's item is held.
fn split_place(items: &Items) -> usize
    requires many { MANY_ITEMS ≤ length items.now }
    requires apart { AreApart items.now }
    ensures inside { 0 < result }
    ensures place { IsSplitPlace items.now result }
{
    let middle = items.len() / 2;
    if is_held(&items.as_slice()[middle].content) {
        middle + 1
    } else {
        middle
    }
}
