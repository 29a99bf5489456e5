//! Linking what a plan gives keeps the leaves whole, and the map.
ghost use Rattle.std.specs.Prelude.{◌≡◌, ◌≢◌, ◌<◌, ℕ};
ghost use Rattle.base_page.specs.Pages.{Page};
ghost use Rattle.deltas.specs.declared.record.Record.TheVariants as kind;
ghost use Rattle.deltas.specs.declared.record.Term.{Term};
ghost use Rattle.deltas.specs.declared.record.Hold.{Hold};
ghost use Rattle.deltas.specs.declared.record.Remove.{Remove};
ghost use Rattle.deltas.specs.declared.record.Merge.{Merge};
ghost use Rattle.deltas.specs.declared.record.Unterm.{Unterm};
ghost use Rattle.deltas.specs.Memory.{Memory};
ghost use Rattle.traces.specs.chain.Fitted.{IsPageChain};
ghost use Rattle.structure_changes.specs.declared.split.SplitPlan.{SplitPlan};
ghost use Rattle.structure_changes.specs.Versions.{Version};
ghost use Rattle.structure_changes.specs.Splits.{IsSplitPlan, split_to};
ghost use Rattle.structure_changes.specs.Terms.{IsTermPlan};
ghost use Rattle.structure_changes.specs.Roots.{IsRootPlan};
ghost use Rattle.structure_changes.specs.Holds.{IsHoldPlan};
ghost use Rattle.structure_changes.specs.Removals.{IsRemovePlan};
ghost use Rattle.structure_changes.specs.Merges.{IsMergePlan};
ghost use Rattle.structure_changes.specs.Unterms.{IsUntermPlan};
ghost use Rattle.structure_changes.specs.Linking.{HasLeaves, HasVersion, IsSpareRow, KeepsMap, with_link, with_root};

/// In every memory that has the pages as they were read, and whose leaves are whole: each link of a plan, in spare rows, keeps the
/// leaves whole and the map. A split's new page, and a root, come into a slot that is empty, before the link itself.
pub fn links_keep_the_map()
    ensures split { (memory : Memory) (page : Version) (plan : SplitPlan) (right row base_row : ℕ)
        → IsSplitPlan page plan
        → HasLeaves memory
        → HasVersion memory page
        → 0 < right
        → memory.slots right ≡ 0
        → IsSpareRow memory row
        → IsSpareRow memory base_row
        → row ≢ base_row
        → KeepsMap memory (with_link right base_row (kind.Base plan.upper) memory)
        × KeepsMap memory (with_link page.pid row (kind.Split (split_to plan right)) (with_link right base_row (kind.Base plan.upper) memory)) }
    ensures root { (memory : Memory) (left right : Version) (root : Page) (new row : ℕ)
        → IsRootPlan left right root
        → HasLeaves memory
        → memory.slots new ≡ 0
        → IsSpareRow memory row
        → KeepsMap memory (with_link new row (kind.Base root) memory)
        × KeepsMap (with_link new row (kind.Base root) memory) (with_root new (with_link new row (kind.Base root) memory)) }
    ensures term { (memory : Memory) (parent page : Version) (term : Term) (row : ℕ)
        → IsTermPlan parent page term
        → HasLeaves memory
        → HasVersion memory parent
        → IsSpareRow memory row
        → KeepsMap memory (with_link parent.pid row (kind.Term term) memory) }
    ensures hold { (memory : Memory) (parent page : Version) (hold : Hold) (row : ℕ)
        → IsHoldPlan parent page hold
        → IsPageChain parent.chain
        → HasLeaves memory
        → HasVersion memory parent
        → IsSpareRow memory row
        → KeepsMap memory (with_link parent.pid row (kind.Hold hold) memory) }
    ensures remove { (memory : Memory) (parent page : Version) (remove : Remove) (row : ℕ)
        → IsRemovePlan parent page remove
        → HasLeaves memory
        → HasVersion memory page
        → IsSpareRow memory row
        → KeepsMap memory (with_link page.pid row (kind.Remove remove) memory) }
    ensures merge { (memory : Memory) (left removed : Version) (merge : Merge) (row : ℕ)
        → IsMergePlan left removed merge
        → IsPageChain left.chain
        → IsPageChain removed.chain
        → HasLeaves memory
        → HasVersion memory left
        → HasVersion memory removed
        → IsSpareRow memory row
        → KeepsMap memory (with_link left.pid row (kind.Merge merge) memory) }
    ensures unterm { (memory : Memory) (parent left removed : Version) (unterm : Unterm) (row : ℕ)
        → IsUntermPlan parent left removed unterm
        → IsPageChain parent.chain
        → HasLeaves memory
        → HasVersion memory parent
        → IsSpareRow memory row
        → KeepsMap memory (with_link parent.pid row (kind.Unterm unterm) memory) }
{}
