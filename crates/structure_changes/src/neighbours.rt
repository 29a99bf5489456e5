//! Neighbours on a level, as they were read.
ghost use Rattle.std.specs.Prelude.{◌≡◌};
ghost use Rattle.std.specs.Bool.{Decides};
ghost use Rattle.structure_changes.specs.Neighbours.{IsNextTo};
ghost use Rattle.structure_changes.specs.Reads.{IsReadPage};

use crate::PageInHand;
use row_search::Rows;
use std::alloc::Allocator;

/// Whether the page's right is the other one, which begins at the page's high key.
pub(crate) fn is_next_to<R: Rows, A: Allocator>(
    left: &PageInHand<R, A>,
    other: &PageInHand<R, A>,
    rows: &R,
    pass: &mut R::Pass,
) -> bool
    requires left { IsReadPage (R.has rows.now pass.old) left.now }
    requires other { IsReadPage (R.has rows.now pass.old) other.now }
    ensures same { pass.new ≡ pass.old }
    ensures next { Decides result (IsNextTo left.now other.now) }
{
    if left.chain().right(rows, pass) != Some(other.pid()) {
        return false;
    }
    match left.chain().high(rows, pass) {
        None => false,
        Some(high) => high.cmp(&other.chain().low(rows, pass)).is_eq(),
    }
}
