//! A page of the leaves' pairs, from a key on.
ghost use Rattle.std.specs.Prelude.{◌≡◌, ◌⊎◌, IfSome, List, None, Some};
ghost use Rattle.base_page.specs.Rules.{IsRuled};
ghost use Rattle.deltas.specs.Memory.{Memory};
ghost use Rattle.deltas.specs.declared.record.Record.{Record};
ghost use Rattle.listing.specs.Listed.{IsAmong, IsFoundAt, IsPageFrom, IsBeyondEnd, StandsAt};
ghost use Rattle.traces.specs.chain.Chains.{low_in};
ghost use Rattle.tree_law.specs.Keys.{IsUnder, IsUpTo};
ghost use Rattle.tree_law.specs.Leaves.{HasLeafPages};

use crate::page::page_of;
use base_page::{Direction, Page};
use bw_model::{Key, Limits, Pairs};
use deltas::RecordRows;

/// The pairs of one leaf from a key on.
#[derive(Drop)]
pub struct LeafPage {
    /// The pairs, in the order of their keys.
    pub pairs: Pairs,
    /// The key where the leaf ends, from which the next page goes on; none in the last leaf.
    pub next: Option<Key>,
    /// The leaf's PID.
    pub leaf: u32,
}

/// The pairs of the leaf that has the key, from the key on. It is looked for from a leaf nearby, if that isn't behind the key, else from the
/// first one; each leaf in between is read.
pub fn page_from<M: RecordRows>(limits: &Limits, rows: &M, near: u32, from: &Key) -> LeafPage
    requires pids { M.pids rows.now ≡ limits.now.pids }
    requires stand { (memory : Memory) × M.has rows.now memory × HasLeafPages limits.now memory }
    requires near { (memory : Memory) → M.has rows.now memory → (leaves : HasLeafPages limits.now memory) → IsAmong memory leaves.pages near }
    ensures page { (memory : Memory) → M.has rows.now memory → (leaves : HasLeafPages limits.now memory) → IsPageFrom leaves.pages from.now result.pairs result.next }
    ensures leaf { (memory : Memory) → M.has rows.now memory → (leaves : HasLeafPages limits.now memory) → IsAmong memory leaves.pages result.leaf }
{
    let leaf = leaf_with(limits, rows, near, from);
    let page = page_of(rows, leaf);
    let mut pairs = Pairs::new();
    page.show(Direction::Forward, from, &mut pairs);
    LeafPage {
        pairs,
        next: page.next(Direction::Forward),
        leaf,
    }
}

/// The PID of the leaf that has the key.
fn leaf_with<M: RecordRows>(limits: &Limits, rows: &M, near: u32, from: &Key) -> u32
    requires pids { M.pids rows.now ≡ limits.now.pids }
    requires stand { (memory : Memory) × M.has rows.now memory × HasLeafPages limits.now memory }
    requires near { (memory : Memory) → M.has rows.now memory → (leaves : HasLeafPages limits.now memory) → IsAmong memory leaves.pages near }
    ensures { (memory : Memory) → M.has rows.now memory → (leaves : HasLeafPages limits.now memory) → IsFoundAt memory leaves.pages from.now result }
{
    let mut pid = first_of(limits, rows, near, from);
    for _ in 0..limits.pids {
        let leaf = page_of(rows, pid);
        match right_of(&leaf, from) {
            Some(right) => pid = right,
            None => return pid,
        }
    }
    unreachable!()
}

/// The leaf nearby, if it isn't behind the key, else the first one.
fn first_of<M: RecordRows>(limits: &Limits, rows: &M, near: u32, from: &Key) -> u32
    requires pids { M.pids rows.now ≡ limits.now.pids }
    requires stand { (memory : Memory) × M.has rows.now memory × HasLeafPages limits.now memory }
    requires near { (memory : Memory) → M.has rows.now memory → (leaves : HasLeafPages limits.now memory) → IsAmong memory leaves.pages near }
    ensures { (result ≡ 1) ⊎ ((result ≡ near) × ((memory : Memory) (chain : List Record) → M.has rows.now memory → StandsAt memory near chain → IsUpTo (low_in chain) from.now)) }
{
    let _ = limits;
    if from.cmp(page_of(rows, near).low()).is_lt() {
        1
    } else {
        near
    }
}

/// The PID to the right of a leaf, where that ends at or below the key.
fn right_of(leaf: &Page, from: &Key) -> Option<u32>
    requires ruled { IsRuled leaf.now }
    ensures there { result ≡ None → IsUnder from.now leaf.now.high }
    ensures right { IfSome result (λ right. (leaf.now.right ≡ Some right) × IsBeyondEnd from.now leaf.now.high) }
{
    match leaf.high() {
        Some(high) if !from.cmp(high).is_lt() => leaf.right(),
        _ => None,
    }
}
