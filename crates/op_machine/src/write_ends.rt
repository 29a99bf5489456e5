//! What an operation makes of the end of a writer's round, where its pages stand, and of the end of a change.
ghost use Rattle.std.specs.Prelude.{◌≡◌, ◌≤◌, ◌+◌, ◌-◌, [], true, false, IfSome, Option, Some, None, IsSome, MatchOption, length, take, option_copied};
ghost use Rattle.bw_model.specs.Replies.{is_writer};
ghost use Rattle.traces.specs.discipline.Knowledge.{Knowledge};
ghost use Rattle.traces.specs.discipline.Recalled.{Recalled};
ghost use Rattle.round_model.specs.Machines.{AreThere};
ghost use Rattle.round_model.specs.WriteEnds as end;
ghost use Rattle.change_machine.specs.Spares.{Spares as SparesOf};
ghost use Rattle.op_machine.specs.machine.Bounded.{few_changes, left_at, left_for, with_errands};
ghost use Rattle.op_machine.specs.machine.Brings.{errands_after};
ghost use Rattle.op_machine.specs.machine.Outcomes as Outcome;
ghost use Rattle.op_machine.specs.machine.Outcomes.{FacesChanged, FacesWritten, IsAtLeaf, IsAtLeafBelow};
ghost use Rattle.op_machine.specs.machine.Places.{HaveLimits, state_of};
ghost use Rattle.op_machine.specs.machine.RoundSteps.{AfterChanging, AfterLeaf, AfterWriting, BeginsPlan};
ghost use Rattle.op_machine.specs.machine.Shows.{ShowsState, wanted_at};
ghost use Rattle.op_machine.specs.machine.Tasks.{IsSameTask};
ghost use Rattle.op_machine.specs.machine.Upkeep.{IsIdleFor, IsUpkeepFor};
ghost use Rattle.rounds.specs.WriteRounds.{ended_write};
ghost use Rattle.structure_changes.specs.Reads.{IsReadPage};
ghost use Rattle.structure_changes.specs.Sizes.{HasManyItems};
ghost use Rattle.structure_changes.specs.Splits.{CanSplit};
ghost use Rattle.structure_changes.specs.Versions.{Version};

use crate::places::Places;
use crate::task::Task;
use bw_model::{Command, Value};
use change_machine::{End, Spares, plans_may_be_linked};
use op_parts::{ShortReply, Then, Which};
use rounds::{WriteEndKind, WriteRound};
use row_search::{KeyWords, Rows};
use std::alloc::Allocator;
use structure_changes::{After, Plan, plan_split, plan_upkeep};
use traces::{chains_make_pages, updates_fit};

impl Task {
    /// A writer makes the change that is due where its round ended, or goes on at the leaf.
    pub(crate) fn end_writing<R: Rows, A: Allocator>(
        &mut self,
        spares: &Spares,
        ended: WriteEndKind,
        places: &mut Places<R, A>,
        rows: &R,
        pass: &mut R::Pass,
    )
        requires have { HaveLimits self.old.limits places.old }
        requires faced { (k : Knowledge) × (r : Recalled) × FacesWritten self.old spares.now k r (ended_write places.old.writer ended) × AreThere (R.has rows.now pass.old) k }
        ensures looks { pass.new ≡ pass.old }
        ensures stands { (k : Knowledge) (r : Recalled) → FacesWritten self.old spares.now k r (ended_write places.old.writer ended) → ShowsState self.new spares.now k r (state_of places.new) }
        ensures few { (k : Knowledge) (r : Recalled) → FacesWritten self.old spares.now k r (ended_write places.old.writer ended)
            → with_errands self.old.limits self.new.errands (left_at self.old.limits r spares.now (state_of places.new)) ≤ with_errands self.old.limits
            self.old.errands (left_for self.old.limits (Outcome.Written (ended_write places.old.writer ended))) }
        ensures asks { IsSome (wanted_at spares.now (state_of places.new)) }
        ensures same { IsSameTask self.old self.new }
        ensures have { HaveLimits self.new.limits places.new }
        ensures goes { AfterWriting self.old places.old.writer.round (Some (ended_write places.old.writer ended)) (state_of places.new) }
    {
        match ended {
            WriteEndKind::Again | WriteEndKind::Done => self.begin_round(places),
            WriteEndKind::Removed => places.write_left(rows, pass),
            WriteEndKind::Due => self.begin_due(spares, places),
            WriteEndKind::Leaf => self.end_at_sought_leaf(spares, places, rows, pass),
        }
    }

    /// At the leaf of an errand the errand is done; at that of its key the leaf is tended.
    fn end_at_sought_leaf<R: Rows, A: Allocator>(
        &mut self,
        spares: &Spares,
        places: &mut Places<R, A>,
        rows: &R,
        pass: &mut R::Pass,
    )
        requires have { HaveLimits self.old.limits places.old }
        requires faced { (k : Knowledge) × (r : Recalled) × IsAtLeafBelow self.old spares.now k r places.old.writer.round.parent places.old.writer.page × AreThere (R.has rows.now pass.old) k }
        ensures looks { pass.new ≡ pass.old }
        ensures stands { (k : Knowledge) (r : Recalled) → IsAtLeafBelow self.old spares.now k r places.old.writer.round.parent places.old.writer.page
            → ShowsState self.new spares.now k r (state_of places.new) }
        ensures few { (r : Recalled)
            → with_errands self.old.limits self.new.errands (left_at self.old.limits r spares.now (state_of places.new)) ≤ with_errands self.old.limits
            self.old.errands (few_changes self.old.limits + 1) }
        ensures asks { IsSome (wanted_at spares.now (state_of places.new)) }
        ensures same { IsSameTask self.old self.new }
        ensures errands { self.new.errands ≡ take (length self.old.errands - 1) self.old.errands }
        ensures have { HaveLimits self.new.limits places.new }
        ensures goes { AfterLeaf places.old.writer.round.parent places.old.writer.page (state_of places.new) }
    {
        match self.errand() {
            None => self.end_at_own_leaf(spares, places, rows, pass),
            Some(_) => {
                self.finish_errand();
                self.begin_round(places);
            }
        }
    }

    /// At the leaf of its key a deletion or a tidying tends the leaf; any other command is executed.
    fn end_at_own_leaf<R: Rows, A: Allocator>(
        &self,
        spares: &Spares,
        places: &mut Places<R, A>,
        rows: &R,
        pass: &mut R::Pass,
    )
        requires have { HaveLimits self.now.limits places.old }
        requires faced { (k : Knowledge) × (r : Recalled) × IsAtLeafBelow self.now spares.now k r places.old.writer.round.parent places.old.writer.page × AreThere (R.has rows.now pass.old) k }
        requires last { self.now.errands ≡ [] }
        ensures looks { pass.new ≡ pass.old }
        ensures stands { (k : Knowledge) (r : Recalled) → IsAtLeafBelow self.now spares.now k r places.old.writer.round.parent places.old.writer.page
            → ShowsState self.now spares.now k r (state_of places.new) }
        ensures few { (r : Recalled) → left_at self.now.limits r spares.now (state_of places.new) ≤ few_changes self.now.limits + 1 }
        ensures asks { IsSome (wanted_at spares.now (state_of places.new)) }
        ensures have { HaveLimits self.now.limits places.new }
        ensures goes { AfterLeaf places.old.writer.round.parent places.old.writer.page (state_of places.new) }
    {
        if self.tends() {
            return self.tend_leaf(spares, places, rows, pass);
        }
        self.execute_at_leaf(spares, places, rows, pass)
    }

    /// At the leaf of its key a deletion or a tidying removes a small leaf first; then the command is executed.
    #[inline(never)]
    fn tend_leaf<R: Rows, A: Allocator>(
        &self,
        spares: &Spares,
        places: &mut Places<R, A>,
        rows: &R,
        pass: &mut R::Pass,
    )
        requires have { HaveLimits self.now.limits places.old }
        requires faced { (k : Knowledge) × (r : Recalled) × IsAtLeafBelow self.now spares.now k r places.old.writer.round.parent places.old.writer.page × AreThere (R.has rows.now pass.old) k }
        requires last { self.now.errands ≡ [] }
        ensures looks { pass.new ≡ pass.old }
        ensures stands { (k : Knowledge) (r : Recalled) → IsAtLeafBelow self.now spares.now k r places.old.writer.round.parent places.old.writer.page
            → ShowsState self.now spares.now k r (state_of places.new) }
        ensures few { (r : Recalled) → left_at self.now.limits r spares.now (state_of places.new) ≤ few_changes self.now.limits + 1 }
        ensures asks { IsSome (wanted_at spares.now (state_of places.new)) }
        ensures have { HaveLimits self.now.limits places.new }
        ensures goes { AfterLeaf places.old.writer.round.parent places.old.writer.page (state_of places.new) }
    {
        plans_may_be_linked();
        match self.upkeep_at(places.writer(), rows, pass) {
            Some(plan) => places.begin_planned(self, spares, plan, After::Round),
            None => self.execute_at_leaf(spares, places, rows, pass),
        }
    }

    /// What a deletion or a tidying does first at the small leaf where its round has ended.
    fn upkeep_at<R: Rows, A: Allocator>(
        &self,
        round: &WriteRound<R, A>,
        rows: &R,
        pass: &mut R::Pass,
    ) -> Option<Plan>
        requires parent { IfSome round.now.round.parent (IsReadPage (R.has rows.now pass.old)) }
        requires page { IsReadPage (R.has rows.now pass.old) round.now.page }
        ensures looks { pass.new ≡ pass.old }
        ensures due { MatchOption result (IsIdleFor self.now.command round.now.round.parent round.now.page) (IsUpkeepFor self.now.command round.now.round.parent round.now.page) }
    {
        match (self.command(), round.kept_parent()) {
            (Command::Delete(_) | Command::DeleteIf(_, _) | Command::Tidy(_), Some(parent)) => {
                plan_upkeep(parent, round.page(), rows, pass)
            }
            _ => None,
        }
    }

    /// At the leaf of its key the command answers, where nothing is to be changed, a tidying so that nothing is left to do; else
    /// its update is linked, in a large tree after a split, where it adds an item and the leaf has many.
    #[inline(never)]
    fn execute_at_leaf<R: Rows, A: Allocator>(
        &self,
        spares: &Spares,
        places: &mut Places<R, A>,
        rows: &R,
        pass: &mut R::Pass,
    )
        requires have { HaveLimits self.now.limits places.old }
        requires faced { (k : Knowledge) × (r : Recalled) × IsAtLeaf self.now spares.now k r places.old.writer.page × AreThere (R.has rows.now pass.old) k }
        requires last { self.now.errands ≡ [] }
        ensures looks { pass.new ≡ pass.old }
        ensures stands { (parent : Option Version) (k : Knowledge) (r : Recalled) → IsAtLeafBelow self.now spares.now k r parent places.old.writer.page
            → IsIdleFor self.now.command parent places.old.writer.page → ShowsState self.now spares.now k r (state_of places.new) }
        ensures few { (r : Recalled) → left_at self.now.limits r spares.now (state_of places.new) ≤ few_changes self.now.limits + 1 }
        ensures asks { IsSome (wanted_at spares.now (state_of places.new)) }
        ensures have { HaveLimits self.now.limits places.new }
        ensures goes { (parent : Option Version) → AfterLeaf parent places.old.writer.page (state_of places.new) }
    {
        updates_fit();
        chains_make_pages();
        plans_may_be_linked();
        let leaf = places.writer().page();
        let key = KeyWords::of(self.command().key());
        let old = leaf.chain().find(rows, pass, &key);
        let Some(reply) = ShortReply::of(self.command(), old.as_ref()) else {
            return places.leave(ShortReply::bare(Which::Tidied));
        };
        if !self.command().changes(old.as_ref()) {
            return places.leave(reply);
        }
        if self.splits_first(old.as_ref(), places.writer(), rows, pass) {
            return self.split_leaf(spares, places, rows, pass);
        }
        let update = self.update_over(old.as_ref(), leaf.head());
        places.begin_update(self, spares, &update, reply)
    }

    /// Whether the leaf is split before an update: in a large tree, where it adds an item to a leaf that has many.
    fn splits_first<R: Rows, A: Allocator>(
        &self,
        old: Option<&Value>,
        round: &WriteRound<R, A>,
        rows: &R,
        pass: &mut R::Pass,
    ) -> bool
        requires page { IsReadPage (R.has rows.now pass.old) round.now.page }
        ensures looks { pass.new ≡ pass.old }
        ensures many { result ≡ true → HasManyItems round.now.page.chain }
        ensures few { result ≡ false → self.now.limits.is_large ≡ true → option_copied old.entry ≡ None → ¬ HasManyItems round.now.page.chain }
    {
        if !self.limits().is_large {
            return false;
        }
        if old.is_some() {
            return false;
        }
        round.is_wide(rows, pass)
    }

    /// The leaf, which has many items, is split, before an update adds one.
    #[inline(never)]
    fn split_leaf<R: Rows, A: Allocator>(
        &self,
        spares: &Spares,
        places: &mut Places<R, A>,
        rows: &R,
        pass: &mut R::Pass,
    )
        requires have { HaveLimits self.now.limits places.old }
        requires faced { (k : Knowledge) × (r : Recalled) × IsAtLeaf self.now spares.now k r places.old.writer.page × AreThere (R.has rows.now pass.old) k }
        requires can { CanSplit places.old.writer.page }
        ensures looks { pass.new ≡ pass.old }
        ensures stands { (k : Knowledge) (r : Recalled) → IsAtLeaf self.now spares.now k r places.old.writer.page → ShowsState self.now spares.now k r (state_of places.new) }
        ensures few { (r : Recalled) → left_at self.now.limits r spares.now (state_of places.new) ≤ few_changes self.now.limits + 1 }
        ensures asks { IsSome (wanted_at spares.now (state_of places.new)) }
        ensures have { HaveLimits self.now.limits places.new }
        ensures goes { (parent : Option Version) → AfterLeaf parent places.old.writer.page (state_of places.new) }
    {
        plans_may_be_linked();
        let leaf = places.writer().page();
        match plan_split(leaf, rows, pass) {
            Some(split) => {
                let separator = split.upper.low().copied();
                let plan = Plan::Split {
                    pid: leaf.pid(),
                    plan: split,
                };
                places.begin_planned(self, spares, plan, After::Errand(separator))
            }
            None => unreachable!(),
        }
    }

    /// A change begins that is due where the round ended.
    #[inline(never)]
    fn begin_due<R: Rows, A: Allocator>(&self, spares: &Spares, places: &mut Places<R, A>)
        requires have { HaveLimits self.now.limits places.old }
        requires faced { (k : Knowledge) × (r : Recalled) × FacesWritten self.now spares.now k r (end.Due places.old.writer.plan places.old.writer.after) }
        ensures stands { (k : Knowledge) (r : Recalled) → FacesWritten self.now spares.now k r (end.Due places.old.writer.plan places.old.writer.after)
            → ShowsState self.now spares.now k r (state_of places.new) }
        ensures few { (r : Recalled) → left_at self.now.limits r spares.now (state_of places.new) ≤ few_changes self.now.limits + 1 }
        ensures asks { IsSome (wanted_at spares.now (state_of places.new)) }
        ensures have { HaveLimits self.now.limits places.new }
        ensures goes { BeginsPlan places.old.writer.plan (state_of places.new) }
    {
        plans_may_be_linked();
        places.begin_due(self, spares)
    }

    /// An update that won has its reply; any other change is followed by a new round, and one for which nothing was free by none.
    pub(crate) fn end_changing<R: Rows, A: Allocator>(
        &mut self,
        end: End,
        places: &mut Places<R, A>,
    )
        requires have { HaveLimits self.old.limits places.old }
        ensures stands { (spares : SparesOf) (k : Knowledge) (r : Recalled) → FacesChanged self.old spares k end places.old.then → ShowsState self.new spares k r (state_of places.new) }
        ensures few { (spares : SparesOf) (r : Recalled)
            → with_errands self.old.limits self.new.errands (left_at self.old.limits r spares (state_of places.new)) ≤ with_errands self.old.limits
            self.old.errands (left_for self.old.limits (Outcome.Changed end places.old.then)) }
        ensures asks { (spares : SparesOf) → IsSome (wanted_at spares (state_of places.new)) }
        ensures same { IsSameTask self.old self.new }
        ensures errands { self.new.errands ≡ errands_after end places.old.then self.old.errands }
        ensures have { HaveLimits self.new.limits places.new }
        ensures goes { is_writer self.old.command ≡ true → AfterChanging end (state_of places.new) }
    {
        match (end, places.then()) {
            (End::Won, Then::Reply(reply)) => {
                let reply = reply.copied();
                places.leave(reply);
            }
            (End::Won, Then::After(After::Errand(separator))) => {
                let separator = separator.copied();
                self.add_errand(separator);
                self.begin_round(places);
            }
            (End::Won, Then::After(After::Round | After::Limbo(_))) | (End::Lost, _) => {
                self.begin_round(places)
            }
            (End::Full(kind), _) => places.give_up(kind),
        }
    }
}
