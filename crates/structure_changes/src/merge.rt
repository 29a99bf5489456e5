//! The merge of a removed page into its left one.
ghost use Rattle.std.specs.Prelude.{◌≡◌, MatchOption, option_copied};
ghost use Rattle.structure_changes.specs.Merges.{CanMerge, IsMergePlan};
ghost use Rattle.structure_changes.specs.Reads.{IsReadPage};

use crate::PageInHand;
use crate::neighbours::is_next_to;
use crate::sizes::{MANY_DELTAS, MERGE_ITEMS};
use base_page::held_count;
use bw_model::Key;
use deltas::Merge;
use row_search::Rows;
use std::alloc::Allocator;

/// The merge of what the removed page has; none exactly where the left page is removed, has many deltas or more than
/// `MERGE_ITEMS` items, or the other isn't its right and stands at its high key, isn't removed, is of another level, or has a held term. (A removed page has few items.)
pub fn plan_merge<R: Rows, A: Allocator>(
    left: &PageInHand<R, A>,
    removed: &PageInHand<R, A>,
    rows: &R,
    pass: &mut R::Pass,
) -> Option<Merge>
    requires left { IsReadPage (R.has rows.now pass.old) left.now }
    requires removed { IsReadPage (R.has rows.now pass.old) removed.now }
    ensures same { pass.new ≡ pass.old }
    ensures plan { MatchOption result (¬ CanMerge left.now removed.now) (IsMergePlan left.now removed.now) }
{
    let chain = left.chain();
    let gone = removed.chain();
    chain.was_read(rows, pass);
    gone.was_read(rows, pass);
    chain.keeps_rules();
    gone.keeps_rules();
    if chain.is_removed() {
        return None;
    }
    if !is_next_to(left, removed, rows, pass) {
        return None;
    }
    if !gone.is_removed() {
        return None;
    }
    if gone.level() != chain.level() {
        return None;
    }
    if chain.deltas() >= MANY_DELTAS {
        return None;
    }
    if chain.item_count(rows, pass) > MERGE_ITEMS {
        return None;
    }
    let merged = gone.page(rows, pass);
    if held_count(merged.items().as_slice()) > 0 {
        return None;
    }
    Some(Merge {
        level: chain.level(),
        next: left.head(),
        low: merged.low().copied(),
        high: copied(merged.high()),
        right: merged.right(),
        items: merged.items().copied(),
    })
}

fn copied(key: Option<&Key>) -> Option<Key>
    ensures { result ≡ option_copied key.entry }
{
    match key {
        None => None,
        Some(key) => Some(key.copied()),
    }
}
