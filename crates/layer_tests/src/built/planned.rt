//! Plans over pages by hand.
ghost use Rattle.std.specs.Prelude.{◌≡◌, ◌∷◌, [], ℕ, IfSome, false};
ghost use Rattle.deltas.specs.Spellable.{IsPid};
ghost use Rattle.deltas.specs.declared.record.Record.TheVariants as kind;
ghost use Rattle.traces.specs.chain.Fitted.{IsPageChain};
ghost use Rattle.traces.specs.discipline.Discipline.{FitsOn};
ghost use Rattle.structure_changes.specs.Splits.{split_to};

use crate::built::Held;
use crate::built::shelf::{HeldRows, Shelf};
use base_page::Page;
use deltas::{Hold, Merge, Remove, Term, Unterm};
use std::process::Abort;
use structure_changes::{
    SplitPlan, plan_hold, plan_merge, plan_remove, plan_root, plan_split, plan_term, plan_unterm,
};

/// The split of the page.
pub(crate) fn split<R: Abort + AllocGlobal>(rt: &R, page: &Held) -> Option<SplitPlan>
    ensures { IfSome result (λ plan. (right : ℕ) → IsPid right → FitsOn page.now.chain (kind.Split (split_to plan right))) }
{
    let mut shelf = Shelf::of_one(page);
    let read = shelf.read(rt, page);
    plan_split(&read.page, &HeldRows::new(), &mut shelf)
}

/// The term of the page in its parent.
pub(crate) fn term<R: Abort + AllocGlobal>(rt: &R, parent: &Held, page: &Held) -> Option<Term>
    ensures { IfSome result (λ made. FitsOn parent.now.chain (kind.Term made)) }
{
    let mut shelf = Shelf::of_two(parent, page).expect(rt, "rows of their own");
    let (one, other) = (shelf.read(rt, parent), shelf.read(rt, page));
    plan_term(&one.page, &other.page, &HeldRows::new(), &mut shelf)
}

/// The root over the page and its right.
pub(crate) fn root<R: Abort + AllocGlobal>(rt: &R, left: &Held, right: &Held) -> Option<Page>
    ensures { IfSome result (λ made. IsPageChain (kind.Base made ∷ []) × (made.removed ≡ false)) }
{
    let mut shelf = Shelf::of_two(left, right).expect(rt, "rows of their own");
    let (one, other) = (shelf.read(rt, left), shelf.read(rt, right));
    plan_root(&one.page, &other.page, &HeldRows::new(), &mut shelf)
}

/// The hold of the page's term.
pub(crate) fn hold<R: Abort + AllocGlobal>(rt: &R, parent: &Held, page: &Held) -> Option<Hold>
    ensures { IfSome result (λ made. FitsOn parent.now.chain (kind.Hold made)) }
{
    let mut shelf = Shelf::of_two(parent, page).expect(rt, "rows of their own");
    let (one, other) = (shelf.read(rt, parent), shelf.read(rt, page));
    plan_hold(&one.page, &other.page, &HeldRows::new(), &mut shelf)
}

/// The removal of the page.
pub(crate) fn remove<R: Abort + AllocGlobal>(rt: &R, parent: &Held, page: &Held) -> Option<Remove>
    ensures { IfSome result (λ made. FitsOn page.now.chain (kind.Remove made)) }
{
    let mut shelf = Shelf::of_two(parent, page).expect(rt, "rows of their own");
    let (one, other) = (shelf.read(rt, parent), shelf.read(rt, page));
    plan_remove(&one.page, &other.page, &HeldRows::new(), &mut shelf)
}

/// The merge of the removed page into the left one.
pub(crate) fn merge<R: Abort + AllocGlobal>(rt: &R, left: &Held, removed: &Held) -> Option<Merge>
    ensures { IfSome result (λ made. FitsOn left.now.chain (kind.Merge made)) }
{
    let mut shelf = Shelf::of_two(left, removed).expect(rt, "rows of their own");
    let (one, other) = (shelf.read(rt, left), shelf.read(rt, removed));
    plan_merge(&one.page, &other.page, &HeldRows::new(), &mut shelf)
}

/// The merge of the page into itself.
pub(crate) fn merge_into_itself<R: Abort + AllocGlobal>(rt: &R, page: &Held) -> Option<Merge> {
    let mut shelf = Shelf::of_one(page);
    let read = shelf.read(rt, page);
    plan_merge(&read.page, &read.page, &HeldRows::new(), &mut shelf)
}

/// The end of the removed page's term.
pub(crate) fn unterm<R: Abort + AllocGlobal>(
    rt: &R,
    parent: &Held,
    left: &Held,
    removed: &Held,
) -> Option<Unterm> {
    let mut shelf = Shelf::of_three(parent, left, removed).expect(rt, "rows of their own");
    let above = shelf.read(rt, parent);
    let (one, other) = (shelf.read(rt, left), shelf.read(rt, removed));
    plan_unterm(
        &above.page,
        &one.page,
        &other.page,
        &HeldRows::new(),
        &mut shelf,
    )
}

/// The end of the page's term beside the page itself.
pub(crate) fn unterm_beside_itself<R: Abort + AllocGlobal>(
    rt: &R,
    parent: &Held,
    page: &Held,
) -> Option<Unterm> {
    let mut shelf = Shelf::of_two(parent, page).expect(rt, "rows of their own");
    let (above, read) = (shelf.read(rt, parent), shelf.read(rt, page));
    plan_unterm(
        &above.page,
        &read.page,
        &read.page,
        &HeldRows::new(),
        &mut shelf,
    )
}
