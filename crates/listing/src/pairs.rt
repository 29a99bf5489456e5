//! The pairs of the leaves.
ghost use Rattle.std.specs.Prelude.{◌≡◌, ◌<◌, ◌≤◌, ◌+◌, ◌*◌, ◌++◌, [], length, OnErr, OnOk};
ghost use Rattle.std.specs.Vec.{vec_capacity};
ghost use Rattle.deltas.specs.Memory.{Memory};
ghost use Rattle.listing.specs.Listed.{HavePages, pairs_of};
ghost use Rattle.tree_law.specs.Leaves.{HasLeafPages};

use crate::page::page_of;
use base_page::{Content, Items};
use bw_model::{Key, Limits, Value};
use deltas::RecordRows;
use std::alloc::{AllocError, Allocator};

/// Adds the pairs of the leaves, from left to right, each leaf's in the order of their keys. Refused only where there is no room for
/// 24 pairs of each page.
pub fn add_pairs<M: RecordRows, B: Allocator>(
    pairs: &mut Vec<(Key, Value), B>,
    limits: &Limits,
    rows: &M,
) -> Result<(), AllocError>
    requires empty { pairs.old.items ≡ [] }
    requires pids { M.pids rows.now ≡ limits.now.pids }
    requires stand { (memory : Memory) × M.has rows.now memory × HasLeafPages limits.now memory }
    ensures ok { OnOk result ((memory : Memory) → M.has rows.now memory → (leaves : HasLeafPages limits.now memory) → HavePages leaves.pages pairs.new.items) }
    ensures err { OnErr result (vec_capacity pairs.old < 24 * limits.now.pids) }
{
    let mut pid = 1;
    for _ in 0..limits.pids {
        let leaf = page_of(rows, pid);
        add_values(pairs, leaf.items())?;
        match leaf.right() {
            Some(right) => pid = right,
            None => return Ok(()),
        }
    }
    unreachable!()
}

/// Adds the values of the items, each with its key.
fn add_values<B: Allocator>(
    pairs: &mut Vec<(Key, Value), B>,
    items: &Items,
) -> Result<(), AllocError>
    ensures ok { OnOk result (pairs.new.items ≡ pairs.old.items ++ pairs_of items.now) }
    ensures count { OnOk result (length pairs.new.items ≤ length pairs.old.items + 24) }
    ensures capacity { vec_capacity pairs.old ≤ vec_capacity pairs.new }
    ensures err { OnErr result (vec_capacity pairs.old < length pairs.old.items + 24) }
{
    for item in items.as_slice() {
        if let Content::Value(value) = &item.content {
            pairs.push((item.key.copied(), value.copied()))?;
        }
    }
    Ok(())
}
