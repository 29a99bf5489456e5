//! Linking what a plan gives changes one term of an index page, or none.
ghost use Rattle.std.specs.Prelude.{◌≡◌, ◌∷◌, [], ℕ, List, Some, None, true, false, if◌then◌else◌, IsTrue, ◌⊎◌};
ghost use Rattle.std.specs.Ordering.{is_eq};
ghost use Rattle.bw_model.specs.Bytes.{key_cmp};
ghost use Rattle.base_page.specs.declared.item.Content.TheVariants.{Child};
ghost use Rattle.base_page.specs.Pages.{Page};
ghost use Rattle.deltas.specs.declared.record.Record.TheVariants as kind;
ghost use Rattle.deltas.specs.declared.record.Term.{Term};
ghost use Rattle.deltas.specs.declared.record.Hold.{Hold};
ghost use Rattle.deltas.specs.declared.record.Merge.{Merge};
ghost use Rattle.deltas.specs.declared.record.Unterm.{Unterm};
ghost use Rattle.traces.specs.chain.Chains.{content_in, covers, low_in};
ghost use Rattle.traces.specs.chain.Fitted.{IsPageChain};
ghost use Rattle.structure_changes.specs.declared.split.SplitPlan.{SplitPlan};
ghost use Rattle.structure_changes.specs.Versions.{Version};
ghost use Rattle.structure_changes.specs.Splits.{IsSplitPlan, split_to};
ghost use Rattle.structure_changes.specs.Terms.{IsTermPlan};
ghost use Rattle.structure_changes.specs.Roots.{IsRootPlan};
ghost use Rattle.structure_changes.specs.Holds.{IsHoldPlan};
ghost use Rattle.structure_changes.specs.Merges.{IsMergePlan};
ghost use Rattle.structure_changes.specs.Unterms.{IsUntermPlan};
ghost use Rattle.structure_changes.specs.Linking.{Decides};

/// A term, a hold and an unterm add, hold and take away one term; a root has its two; of a page that is split the half that has a key
/// in its range decides it as before, and so does a page that another one came into.
pub fn links_keep_the_index()
    ensures term { (parent page : Version) (term : Term) (key : List ℕ)
        → IsTermPlan parent page term
        → content_in (kind.Term term ∷ parent.chain) key ≡ (if is_eq (key_cmp key (low_in page.chain)) then Some (Child page.pid false) else content_in parent.chain key) }
    ensures hold { (parent page : Version) (hold : Hold) (key : List ℕ)
        → IsHoldPlan parent page hold
        → content_in (kind.Hold hold ∷ parent.chain) key ≡ (if is_eq (key_cmp key (low_in page.chain)) then Some (Child page.pid true) else content_in parent.chain key) }
    ensures unterm { (parent left removed : Version) (unterm : Unterm) (key : List ℕ)
        → IsUntermPlan parent left removed unterm
        → content_in (kind.Unterm unterm ∷ parent.chain) key ≡ (if is_eq (key_cmp key (low_in removed.chain)) then None else content_in parent.chain key) }
    ensures root { (left right : Version) (root : Page) (key : List ℕ)
        → IsRootPlan left right root
        → content_in (kind.Base root ∷ []) key
        ≡ (if is_eq (key_cmp key []) then Some (Child left.pid false) else if is_eq (key_cmp key (low_in right.chain)) then Some (Child right.pid false) else None) }
    ensures split { (page : Version) (plan : SplitPlan) (right : ℕ) (key : List ℕ)
        → IsSplitPlan page plan
        → IsTrue (covers page.chain key)
        → Decides (kind.Split (split_to plan right) ∷ page.chain) key (content_in page.chain key) ⊎ Decides (kind.Base plan.upper ∷ []) key (content_in page.chain key) }
    ensures merge_left { (left removed : Version) (merge : Merge) (key : List ℕ)
        → IsMergePlan left removed merge
        → IsPageChain left.chain
        → IsPageChain removed.chain
        → IsTrue (covers left.chain key)
        → Decides (kind.Merge merge ∷ left.chain) key (content_in left.chain key) }
    ensures merge_removed { (left removed : Version) (merge : Merge) (key : List ℕ)
        → IsMergePlan left removed merge
        → IsPageChain left.chain
        → IsPageChain removed.chain
        → IsTrue (covers removed.chain key)
        → Decides (kind.Merge merge ∷ left.chain) key (content_in removed.chain key) }
{}
