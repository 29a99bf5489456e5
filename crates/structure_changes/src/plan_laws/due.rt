//! What the discipline asks of a link, each plan gives.
ghost use Rattle.std.specs.Prelude.{◌≡◌, ℕ, suc, false};
ghost use Rattle.base_page.specs.Pages.{Page};
ghost use Rattle.deltas.specs.declared.record.Record.TheVariants as kind;
ghost use Rattle.deltas.specs.declared.record.Term.{Term};
ghost use Rattle.deltas.specs.declared.record.Hold.{Hold};
ghost use Rattle.deltas.specs.declared.record.Remove.{Remove};
ghost use Rattle.deltas.specs.declared.record.Merge.{Merge};
ghost use Rattle.deltas.specs.declared.record.Unterm.{Unterm};
ghost use Rattle.traces.specs.chain.Chains.{is_removed, level_in};
ghost use Rattle.traces.specs.discipline.Discipline.{MayHold, MayMerge, MayPost, MayRemove, MayRoot, MaySplit, MayUnterm};
ghost use Rattle.traces.specs.chain.Fitted.{IsPageChain};
ghost use Rattle.traces.specs.discipline.Knowledge.{Knowledge, Ready, Written};
ghost use Rattle.structure_changes.specs.declared.split.SplitPlan.{SplitPlan};
ghost use Rattle.structure_changes.specs.Versions.{Version};
ghost use Rattle.structure_changes.specs.Splits.{IsSplitPlan, split_to};
ghost use Rattle.structure_changes.specs.Terms.{IsTermPlan};
ghost use Rattle.structure_changes.specs.Roots.{IsRootPlan};
ghost use Rattle.structure_changes.specs.Holds.{IsHoldPlan};
ghost use Rattle.structure_changes.specs.Removals.{IsRemovePlan};
ghost use Rattle.structure_changes.specs.Merges.{IsMergePlan};
ghost use Rattle.structure_changes.specs.Unterms.{IsUntermPlan};
ghost use Rattle.structure_changes.specs.Readings.{HasSeen, IsAfter};

/// A planned record is due over the page, where its pages were read, in the order that it needs.
pub fn plans_are_due()
    ensures split { (k : Knowledge) (page : Version) (plan : SplitPlan) (right row : ℕ)
        → IsSplitPlan page plan
        → k.own.pages right ≡ Ready row
        → k.own.rows row ≡ Written (kind.Base plan.upper)
        → MaySplit k page.head page.chain (kind.Split (split_to plan right)) }
    ensures term { (k : Knowledge) (parent page : Version) (term : Term)
        → IsTermPlan parent page term
        → HasSeen k page
        → IsAfter k parent page
        → MayPost k parent.pid parent.head parent.chain (kind.Term term) }
    ensures root { (k : Knowledge) (left right : Version) (root : Page) (new row : ℕ)
        → IsRootPlan left right root
        → IsPageChain left.chain
        → HasSeen k left
        → k.own.pages new ≡ Ready row
        → k.own.rows row ≡ Written (kind.Base root)
        → MayRoot k left.pid new }
    ensures hold { (parent page : Version) (hold : Hold)
        → IsHoldPlan parent page hold
        → IsPageChain parent.chain
        → MayHold parent.head parent.chain (kind.Hold hold) }
    ensures remove { (k : Knowledge) (parent page : Version) (remove : Remove)
        → IsRemovePlan parent page remove
        → IsPageChain parent.chain
        → is_removed parent.chain ≡ false
        → level_in parent.chain ≡ suc (level_in page.chain)
        → HasSeen k parent
        → MayRemove k page.pid page.head page.chain (kind.Remove remove) }
    ensures merge { (k : Knowledge) (left removed : Version) (merge : Merge)
        → IsMergePlan left removed merge
        → HasSeen k removed
        → MayMerge k left.head left.chain (kind.Merge merge) }
    ensures unterm { (k : Knowledge) (parent left removed : Version) (unterm : Unterm)
        → IsUntermPlan parent left removed unterm
        → IsPageChain parent.chain
        → level_in parent.chain ≡ suc (level_in left.chain)
        → HasSeen k left
        → IsAfter k parent left
        → MayUnterm k parent.pid parent.head parent.chain (kind.Unterm unterm) }
{}
