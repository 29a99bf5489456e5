//! A new root over a page and its right.
ghost use Rattle.std.specs.Prelude.{◌≡◌, ◌∷◌, [], MatchOption, IsTrue, false};
ghost use Rattle.bw_model.specs.Bytes.{is_below};
ghost use Rattle.base_page.specs.declared.item.Content.TheVariants.{Child};
ghost use Rattle.structure_changes.specs.Reads.{IsReadPage};
ghost use Rattle.structure_changes.specs.Roots.{CanRoot, IsRootPlan};

use crate::PageInHand;
use crate::neighbours::is_next_to;
use crate::sizes::TOP_LEVEL;
use base_page::{Content, Items, Page};
use bw_model::Key;
use row_search::Rows;
use std::alloc::Allocator;

/// The root over a page and its right, one level up; none exactly where the page doesn't begin at the empty key, or the other isn't
/// its right and stands at its high key, or is removed, or the page is of the highest level.
pub fn plan_root<R: Rows, A: Allocator>(
    left: &PageInHand<R, A>,
    right: &PageInHand<R, A>,
    rows: &R,
    pass: &mut R::Pass,
) -> Option<Page>
    requires left { IsReadPage (R.has rows.now pass.old) left.now }
    requires right { IsReadPage (R.has rows.now pass.old) right.now }
    ensures same { pass.new ≡ pass.old }
    ensures plan { MatchOption result (¬ CanRoot left.now right.now) (IsRootPlan left.now right.now) }
{
    let chain = left.chain();
    let beside = right.chain();
    chain.was_read(rows, pass);
    beside.was_read(rows, pass);
    chain.keeps_rules();
    if !chain.low(rows, pass).as_slice().is_empty() {
        return None;
    }
    if !is_next_to(left, right, rows, pass) {
        return None;
    }
    if beside.is_removed() {
        return None;
    }
    if chain.level() >= TOP_LEVEL {
        return None;
    }
    let separator = beside.low(rows, pass);
    let items = two_terms(left.pid(), separator, right.pid());
    Some(Page::new(chain.level() + 1, Key::default(), None, None, items))
}

/// The terms of a page at the empty key, and of one at a key above.
fn two_terms(left: u32, separator: Key, right: u32) -> Items
    requires { IsTrue (is_below [] separator) }
    ensures { result ≡ record { key = []; content = Child left false } ∷ record { key = separator; content = Child right false } ∷ [] }
{
    let mut items = Items::new();
    let first = Content::Child {
        page: left,
        held: false,
    };
    items.put(Key::default(), first);
    let second = Content::Child {
        page: right,
        held: false,
    };
    items.put(separator, second);
    items
}
