//! How many pairs the leaves have.
ghost use Rattle.std.specs.Prelude.{◌≡◌, ◌≤◌, ℕ, List, length};
ghost use Rattle.deltas.specs.Memory.{Memory};
ghost use Rattle.listing.specs.Listed.{HavePages, pairs_of};
ghost use Rattle.tree_law.specs.Leaves.{HasLeafPages};

use crate::page::page_of;
use base_page::{Content, Items};
use bw_model::Limits;
use deltas::RecordRows;

/// How many pairs the leaves have. It takes no memory, and reads each leaf as [`crate::add_pairs`] does.
pub fn count_pairs<M: RecordRows>(limits: &Limits, rows: &M) -> usize
    requires pids { M.pids rows.now ≡ limits.now.pids }
    requires stand { (memory : Memory) × M.has rows.now memory × HasLeafPages limits.now memory }
    ensures { (memory : Memory) → M.has rows.now memory → (leaves : HasLeafPages limits.now memory) → (pairs : List (List ℕ × List ℕ)) × HavePages leaves.pages pairs × (result ≡ length pairs) }
{
    let mut count = 0;
    let mut pid = 1;
    for _ in 0..limits.pids {
        let leaf = page_of(rows, pid);
        count += count_values(leaf.items());
        match leaf.right() {
            Some(right) => pid = right,
            None => return count,
        }
    }
    unreachable!()
}

/// How many of the items are values.
fn count_values(items: &Items) -> usize
    ensures values { result ≡ length (pairs_of items.now) }
    ensures few { result ≤ 24 }
{
    let mut count = 0;
    for item in items.as_slice() {
        if let Content::Value(_) = &item.content {
            count += 1;
        }
    }
    count
}
