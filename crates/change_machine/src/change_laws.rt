//! What a planned change asks of its actor, its plan gives.
ghost use Rattle.std.specs.Prelude.{◌≡◌, ℕ, suc, false};
ghost use Rattle.base_page.specs.Pages.{Page};
ghost use Rattle.deltas.specs.declared.record.Record.{Record};
ghost use Rattle.deltas.specs.declared.record.Record.TheVariants as kind;
ghost use Rattle.deltas.specs.declared.record.Hold.{Hold};
ghost use Rattle.deltas.specs.declared.record.Merge.{Merge};
ghost use Rattle.deltas.specs.declared.record.Remove.{Remove};
ghost use Rattle.deltas.specs.declared.record.Term.{Term};
ghost use Rattle.deltas.specs.declared.record.Unterm.{Unterm};
ghost use Rattle.traces.specs.chain.Chains.{is_removed, level_in};
ghost use Rattle.traces.specs.discipline.Discipline.{FitsOn, MayConsolidate, MayUpdate};
ghost use Rattle.traces.specs.chain.Fitted.{IsPageChain};
ghost use Rattle.traces.specs.discipline.Knowledge.{Knowledge};
ghost use Rattle.structure_changes.specs.declared.split.SplitPlan.{SplitPlan};
ghost use Rattle.structure_changes.specs.Versions.{Version};
ghost use Rattle.structure_changes.specs.Splits.{IsSplitPlan};
ghost use Rattle.structure_changes.specs.Terms.{IsTermPlan};
ghost use Rattle.structure_changes.specs.Roots.{IsRootPlan};
ghost use Rattle.structure_changes.specs.Holds.{IsHoldPlan};
ghost use Rattle.structure_changes.specs.Removals.{IsRemovePlan};
ghost use Rattle.structure_changes.specs.Merges.{IsMergePlan};
ghost use Rattle.structure_changes.specs.Unterms.{IsUntermPlan};
ghost use Rattle.structure_changes.specs.Readings.{HasSeen, IsAfter};
ghost use Rattle.change_machine.specs.Changes.{MayDivide, MayInstall, MayLinkAs, MayRaise};
ghost use Rattle.structure_changes.specs.declared.plan.Plan.TheVariants.{Unlink};

use structure_changes::plans_are_due;

/// What is due over a page that was read, and isn't removed, may be linked there once it is placed.
pub fn plans_may_be_linked()
    ensures base { (actor : ℕ) (k : Knowledge) (page : Version) (base : Page)
        → HasSeen k page
        → is_removed page.chain ≡ false
        → MayConsolidate page.chain (kind.Base base)
        → FitsOn page.chain (kind.Base base)
        → MayInstall actor k page.pid page.head (kind.Base base) }
    ensures update { (actor : ℕ) (k : Knowledge) (page : Version) (content : Record)
        → HasSeen k page
        → is_removed page.chain ≡ false
        → MayUpdate actor k page.head page.chain content
        → FitsOn page.chain content
        → MayInstall actor k page.pid page.head content }
    ensures term { (actor : ℕ) (k : Knowledge) (parent page : Version) (term : Term)
        → HasSeen k parent
        → is_removed parent.chain ≡ false
        → IsTermPlan parent page term
        → HasSeen k page
        → IsAfter k parent page
        → MayInstall actor k parent.pid parent.head (kind.Term term) }
    ensures split { (actor : ℕ) (k : Knowledge) (page : Version) (plan : SplitPlan)
        → HasSeen k page
        → IsSplitPlan page plan
        → MayDivide actor k page.pid plan }
    ensures root { (actor : ℕ) (k : Knowledge) (left right : Version) (root : Page)
        → HasSeen k left
        → IsPageChain left.chain
        → IsRootPlan left right root
        → MayRaise actor k left.pid (kind.Base root) }
    ensures hold { (actor : ℕ) (k : Knowledge) (parent page : Version) (hold : Hold)
        → HasSeen k parent
        → is_removed parent.chain ≡ false
        → IsPageChain parent.chain
        → IsHoldPlan parent page hold
        → MayInstall actor k parent.pid parent.head (kind.Hold hold) }
    ensures remove { (actor : ℕ) (k : Knowledge) (parent page : Version) (remove : Remove)
        → HasSeen k parent
        → is_removed parent.chain ≡ false
        → IsPageChain parent.chain
        → level_in parent.chain ≡ suc (level_in page.chain)
        → HasSeen k page
        → IsRemovePlan parent page remove
        → MayInstall actor k page.pid page.head (kind.Remove remove) }
    ensures merge { (actor : ℕ) (k : Knowledge) (left removed : Version) (merge : Merge)
        → HasSeen k left
        → IsMergePlan left removed merge
        → HasSeen k removed
        → MayInstall actor k left.pid left.head (kind.Merge merge) }
    ensures unlink { (actor : ℕ) (k : Knowledge) (parent left removed : Version) (unterm : Unterm)
        → HasSeen k parent
        → is_removed parent.chain ≡ false
        → IsPageChain parent.chain
        → level_in parent.chain ≡ suc (level_in left.chain)
        → IsUntermPlan parent left removed unterm
        → HasSeen k left
        → IsAfter k parent left
        → HasSeen k removed
        → MayLinkAs actor k (Unlink parent.pid parent.head unterm removed.head) }
{
    plans_are_due();
}
