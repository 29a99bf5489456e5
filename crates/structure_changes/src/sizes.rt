//! How large a page grows before it is made smaller.
ghost use Rattle.std.specs.Prelude.{◌≡◌, ◌<◌, ◌≤◌};
ghost use Rattle.structure_changes.specs.Sizes.{many_of};

use bw_model::Limits;

/// A page with this many deltas or more is consolidated before it gets another one.
pub const MANY_DELTAS: usize = 8;

/// A leaf of a large tree with this many deltas or more is consolidated before it gets another one.
const FEW_DELTAS: usize = 2;

/// So is an index page of a large tree, which many lookups pass, with this many.
const INDEX_DELTAS: usize = 1;

/// A page with this many items or more is split before it gets another one.
pub const MANY_ITEMS: usize = 16;

/// A page with this many items or fewer may be removed.
pub const FEW_ITEMS: usize = 4;

/// A page with this many items or fewer may get those of the removed page to its right: there are 20 then at most.
pub const MERGE_ITEMS: usize = 16;

/// The highest level of a page.
pub const TOP_LEVEL: u8 = 15;

/// At how many deltas a page of a level is consolidated.
pub fn many_deltas(limits: &Limits, level: u8) -> usize
    ensures many { result ≡ many_of limits.now level }
    ensures some { 0 < result }
    ensures few { result ≤ 8 }
{
    if !limits.is_large {
        MANY_DELTAS
    } else if level == 0 {
        FEW_DELTAS
    } else {
        INDEX_DELTAS
    }
}
