//! What is due at the pages of a writer's round.
ghost use Rattle.std.specs.Prelude.{◌≡◌, ◌≢◌, ◌<◌, IfSome, MatchOption, Some, true, false};
ghost use Rattle.std.specs.Bool.{Decides};
ghost use Rattle.base_page.specs.declared.item.Content.TheVariants.{Child};
ghost use Rattle.traces.specs.chain.Chains.{content_in, level_in};
ghost use Rattle.round_model.specs.Courses as goal;
ghost use Rattle.round_model.specs.WriteResponses.{CanTreatWrite, EndsDue, IsHere, IsIdleOnWay, IsSplitFinished, IsTended, TreatsWrite};
ghost use Rattle.round_model.specs.WriteEnds as end;
ghost use Rattle.round_model.specs.WriteRounds.{IsLong, SeeksLeaf};
ghost use Rattle.row_chain.specs.Placed.{IsReadChain};
ghost use Rattle.rounds.specs.WriteRounds.{AreReadToWrite, ended_write};
ghost use Rattle.structure_changes.specs.Reads.{IsReadPage};
ghost use Rattle.structure_changes.specs.Sizes.{HasManyItems, HasMergeRoom};
ghost use Rattle.structure_changes.specs.Splits.{CanSplit};
ghost use Rattle.structure_changes.specs.Upkeep.{IsUpkeep};
ghost use Rattle.structure_changes.specs.declared.after.After.TheVariants.{Round};

use crate::{WriteEndKind, WriteRound};
use base_page::Content;
use deltas::Record;
use row_chain::Chain;
use row_search::{KeyWords, Rows};
use std::alloc::Allocator;
use std::mem;
use structure_changes::{
    After, MANY_ITEMS, MERGE_ITEMS, PageInHand, Plan, Unlinked, many_deltas, plan_base, plan_merge,
    plan_root, plan_split, plan_term, plan_unterm, plan_upkeep,
};

impl<R: Rows, A: Allocator> WriteRound<R, A> {
    /// Gives the change that is due, where the round has ended with one, for the plan in another place, and tells what comes once it
    /// has won. The two change places, and none is copied.
    pub fn take_due(&mut self, plan: &mut Box<Plan, A>) -> After
        ensures plan { plan.new.value ≡ self.old.plan }
        ensures after { result ≡ self.old.after }
        ensures only { self.new ≡ record self.old { plan = self.new.plan; after = self.new.after } }
    {
        mem::swap(&mut self.plan, plan);
        mem::replace(&mut self.after, After::Round)
    }

    /// The round ends with this change, which is due, and with what comes once it has won.
    pub(super) fn ends_due(&mut self, plan: Plan, after: After) -> WriteEndKind
        ensures ends { ended_write self.new result ≡ end.Due plan after }
        ensures round { self.new.round ≡ self.old.round }
    {
        *self.plan = plan;
        self.after = after;
        WriteEndKind::Due
    }

    /// Whether the page has many deltas, or is a leaf with those that are due.
    pub(super) fn is_long(&self, rows: &R, pass: &R::Pass) -> bool
        requires read { IsReadPage (R.has rows.now pass.now) self.now.page }
        ensures { Decides result (IsLong self.now.round.limits self.now.round.due self.now.page.chain) }
    {
        let chain = self.page().chain();
        chain.was_read(rows, pass);
        let deltas = chain.deltas();
        deltas >= many_deltas(self.descent.limits(), chain.level())
            || chain.level() == 0 && deltas >= self.due
    }

    /// Whether the page has many items. Most pages are told by how many items their records have; where those may be many, they are counted.
    pub fn is_wide(&self, rows: &R, pass: &mut R::Pass) -> bool
        requires read { IsReadPage (R.has rows.now pass.old) self.now.page }
        ensures looks { pass.new ≡ pass.old }
        ensures wide { Decides result (HasManyItems self.now.page.chain) }
    {
        let chain = self.page().chain();
        chain.was_read(rows, pass);
        chain.keeps_rules();
        if chain.most_items() < MANY_ITEMS {
            return false;
        }
        chain.item_count(rows, pass) >= MANY_ITEMS
    }

    /// Whether the page has room for the items of a removed page; else it has many. Most pages are told as in `is_wide`.
    pub(super) fn has_merge_room(&self, rows: &R, pass: &mut R::Pass) -> bool
        requires read { IsReadPage (R.has rows.now pass.old) self.now.page }
        ensures looks { pass.new ≡ pass.old }
        ensures yes { result ≡ true → HasMergeRoom self.now.page.chain }
        ensures no { result ≡ false → HasManyItems self.now.page.chain }
    {
        let chain = self.page().chain();
        chain.was_read(rows, pass);
        chain.keeps_rules();
        if chain.most_items() <= MERGE_ITEMS {
            return true;
        }
        chain.item_count(rows, pass) <= MERGE_ITEMS
    }

    /// Ends at a page that is to be consolidated.
    #[inline(never)]
    pub(super) fn end_long(&mut self, rows: &R, pass: &mut R::Pass) -> WriteEndKind
        requires read { IsReadPage (R.has rows.now pass.old) self.old.page }
        requires here { IsHere self.old.round self.old.page }
        requires long { IsLong self.old.round.limits self.old.round.due self.old.page.chain }
        ensures looks { pass.new ≡ pass.old }
        ensures treats { TreatsWrite self.old.round self.old.page self.new.round (Some (ended_write self.new result)) }
        ensures round { self.new.round ≡ self.old.round }
    {
        let page = self.descent.page();
        page.chain().was_read(rows, pass);
        plan_base(page, rows, pass, &mut self.plan);
        self.after = After::Limbo(Unlinked::chain(page));
        WriteEndKind::Due
    }

    /// Ends at a page that has few deltas and many items: it is to be split.
    #[inline(never)]
    pub(super) fn end_wide(&mut self, rows: &R, pass: &mut R::Pass) -> WriteEndKind
        requires read { IsReadPage (R.has rows.now pass.old) self.old.page }
        requires here { IsHere self.old.round self.old.page }
        requires short { ¬ IsLong self.old.round.limits self.old.round.due self.old.page.chain }
        requires can { CanSplit self.old.page }
        ensures looks { pass.new ≡ pass.old }
        ensures treats { TreatsWrite self.old.round self.old.page self.new.round (Some (ended_write self.new result)) }
        ensures round { self.new.round ≡ self.old.round }
    {
        let page = self.page();
        match plan_split(page, rows, pass) {
            Some(plan) => {
                let separator = plan.upper.low().copied();
                let pid = page.pid();
                self.ends_due(Plan::Split { pid, plan }, After::Errand(separator))
            }
            None => unreachable!(),
        }
    }

    /// What finishes the split of the left page: the term of the page in hand in the parent, or, where there is none, the root over both, if the
    /// round splits pages.
    #[inline(never)]
    pub(super) fn due_aside(&self, rows: &R, pass: &mut R::Pass) -> Option<Plan>
        requires read { AreReadToWrite (R.has rows.now pass.old) self.now.round self.now.page }
        requires seeks { SeeksLeaf self.now.round.goal }
        requires left { self.now.round.left ≡ Some self.now.left }
        ensures looks { pass.new ≡ pass.old }
        ensures plan { MatchOption result (IsSplitFinished self.now.round.splits self.now.round.parent self.now.round.left self.now.page) (λ plan. EndsDue self.now.round self.now.page plan Round) }
    {
        if self.course.has_parent() {
            let parent = self.parent();
            return match plan_term(parent, self.page(), rows, pass) {
                None => None,
                Some(term) => Some(Plan::over(parent, Record::Term(term))),
            };
        }
        if !self.splits {
            return None;
        }
        let left = self.left();
        match plan_root(left, self.page(), rows, pass) {
            None => None,
            Some(root) => Some(Plan::Root {
                left: left.pid(),
                root,
            }),
        }
    }

    /// What is done first at the index page in hand, where it is small and below the parent, on the way to the leaf of a key.
    pub(super) fn due_upkeep(&self, rows: &R, pass: &mut R::Pass) -> Option<Plan>
        requires read { AreReadToWrite (R.has rows.now pass.old) self.now.round self.now.page }
        requires seeks { SeeksLeaf self.now.round.goal }
        requires tends { self.now.round.tends ≡ true }
        requires index { 0 < level_in self.now.page.chain }
        ensures looks { pass.new ≡ pass.old }
        ensures upkeep { MatchOption result (IsIdleOnWay self.now.round self.now.page) (λ plan. IsTended self.now.round self.now.parent self.now.page × IsUpkeep self.now.parent self.now.page plan) }
    {
        if self.is_left() || !self.course.has_parent() {
            return None;
        }
        plan_upkeep(self.parent(), self.page(), rows, pass)
    }

    /// Ends where the removed page may come into its left page.
    #[inline(never)]
    pub(super) fn end_merge(&mut self, rows: &R, pass: &mut R::Pass) -> WriteEndKind
        requires left { IsReadPage (R.has rows.now pass.old) self.old.left }
        requires read { IsReadPage (R.has rows.now pass.old) self.old.page }
        requires merges { self.old.round.goal ≡ goal.Merge self.old.left }
        ensures looks { pass.new ≡ pass.old }
        ensures treats { TreatsWrite self.old.round self.old.page self.new.round (Some (ended_write self.new result)) }
        ensures round { self.new.round ≡ self.old.round }
    {
        let left = self.left();
        match plan_merge(left, self.page(), rows, pass) {
            None => WriteEndKind::Done,
            Some(merge) => {
                let plan = Plan::over(left, Record::Merge(merge));
                self.ends_due(plan, After::Round)
            }
        }
    }

    /// Ends where the parent may lose the removed page's term.
    #[inline(never)]
    pub(super) fn end_unterm(&mut self, rows: &R, pass: &mut R::Pass) -> WriteEndKind
        requires parent { IsReadPage (R.has rows.now pass.old) self.old.parent }
        requires left { IsReadPage (R.has rows.now pass.old) self.old.left }
        requires read { IsReadPage (R.has rows.now pass.old) self.old.page }
        requires can { CanTreatWrite self.old.round self.old.page }
        requires unterms { self.old.round.goal ≡ goal.Unterm self.old.parent self.old.left }
        ensures looks { pass.new ≡ pass.old }
        ensures treats { TreatsWrite self.old.round self.old.page self.new.round (Some (ended_write self.new result)) }
        ensures round { self.new.round ≡ self.old.round }
    {
        let parent = self.parent();
        let removed = self.page();
        removed.chain().was_read(rows, pass);
        match plan_unterm(parent, self.left(), removed, rows, pass) {
            None => WriteEndKind::Done,
            Some(unterm) => {
                let plan = Plan::Unlink {
                    pid: parent.pid(),
                    head: parent.head(),
                    unterm,
                    removal: removed.head(),
                };
                let unlinked = Unlinked::page(removed);
                self.ends_due(plan, After::Limbo(unlinked))
            }
        }
    }

    /// The page that stands in the parent's place.
    fn parent(&self) -> &PageInHand<R, A>
        ensures { result.now ≡ self.now.parent }
    {
        self.course.parent()
    }

    /// The page that stands in the left one's place.
    fn left(&self) -> &PageInHand<R, A>
        ensures { result.now ≡ self.now.left }
    {
        self.course.left()
    }

    /// Whether the parent, where one is kept, has this child's term at the key, held.
    pub(super) fn has_term(&self, rows: &R, pass: &mut R::Pass, pid: u32) -> bool
        requires read { IfSome self.now.round.parent (IsReadPage (R.has rows.now pass.old)) }
        ensures looks { pass.new ≡ pass.old }
        ensures yes { result ≡ true → (self.now.round.parent ≡ Some self.now.parent) × (content_in self.now.parent.chain self.now.round.key ≡ Some (Child pid true)) }
        ensures no { result ≡ false → IfSome self.now.round.parent (λ parent. content_in parent.chain self.now.round.key ≢ Some (Child pid true)) }
    {
        if !self.course.has_parent() {
            return false;
        }
        holds_term(self.parent().chain(), rows, pass, &self.key, pid)
    }
}

/// Whether the page has this child's term at the key, held.
fn holds_term<R: Rows, A: Allocator>(
    chain: &Chain<R, A>,
    rows: &R,
    pass: &mut R::Pass,
    key: &KeyWords,
    pid: u32,
) -> bool
    requires read { IsReadChain (R.has rows.now pass.old) chain.now }
    ensures looks { pass.new ≡ pass.old }
    ensures holds { Decides result (content_in chain.now.records key.now ≡ Some (Child pid true)) }
{
    match chain.content(rows, pass, key) {
        Some(Content::Child { page, held }) => page == pid && held,
        _ => false,
    }
}
