//! The hold of a page's term in its parent.
ghost use Rattle.std.specs.Prelude.{◌≡◌, MatchOption, false};
ghost use Rattle.std.specs.Bool.{Decides};
ghost use Rattle.base_page.specs.Rules.{is_held};
ghost use Rattle.structure_changes.specs.Holds.{CanHold, HasFreeNeighbours, IsHoldPlan};
ghost use Rattle.structure_changes.specs.Reads.{IsReadPage};

use crate::PageInHand;
use crate::held::has_term;
use crate::sizes::MANY_DELTAS;
use base_page::{Item, MAX_HELD, held_count, is_held};
use bw_model::Key;
use deltas::Hold;
use row_search::Rows;
use std::alloc::Allocator;

/// The hold of the page's term in its parent; none exactly where the parent is removed, hasn't the term unheld, or has it as its first
/// or beside a held one, or has many held terms or many deltas.
#[inline(never)]
pub fn plan_hold<R: Rows, A: Allocator>(
    parent: &PageInHand<R, A>,
    page: &PageInHand<R, A>,
    rows: &R,
    pass: &mut R::Pass,
) -> Option<Hold>
    requires parent { IsReadPage (R.has rows.now pass.old) parent.now }
    requires page { IsReadPage (R.has rows.now pass.old) page.now }
    ensures same { pass.new ≡ pass.old }
    ensures plan { MatchOption result (¬ CanHold parent.now page.now) (IsHoldPlan parent.now page.now) }
{
    let above = parent.chain();
    above.was_read(rows, pass);
    let low = page.chain().low(rows, pass);
    if above.is_removed() {
        return None;
    }
    if !has_term(parent, page, rows, pass, false) {
        return None;
    }
    if low.cmp(&above.low(rows, pass)).is_eq() {
        return None;
    }
    if above.deltas() >= MANY_DELTAS {
        return None;
    }
    let made = above.page(rows, pass);
    if held_count(made.items().as_slice()) >= MAX_HELD {
        return None;
    }
    if !has_free_neighbours(&low, made.items().as_slice()) {
        return None;
    }
    Some(Hold {
        level: above.level(),
        next: parent.head(),
        separator: low,
        child: page.pid(),
    })
}

/// Whether no neighbour of the key's item is held.
fn has_free_neighbours(key: &Key, items: &[Item]) -> bool
    ensures { Decides result (HasFreeNeighbours key.now items.now) }
{
    for place in 1..items.len() {
        let (one, other) = (&items[place - 1], &items[place]);
        if !is_free_beside(key, one, other) || !is_free_beside(key, other, one) {
            return false;
        }
    }
    true
}

/// Whether the first item has another key, or the second one isn't held.
fn is_free_beside(key: &Key, one: &Item, other: &Item) -> bool
    ensures { Decides result (one.now.key ≡ key.now → is_held other.now.content ≡ false) }
{
    !one.key.cmp(key).is_eq() || !is_held(&other.content)
}
