//! What a writer's round does with a page that it has read whole: goes on from it, or ends there.
ghost use Rattle.std.specs.Prelude.{◌≡◌, ◌<◌, IsTrue, MatchOption, None, Some, true, false, ⊤};
ghost use Rattle.std.specs.Option.{option_map};
ghost use Rattle.traces.specs.chain.Chains.{is_removed, level_in, low_in};
ghost use Rattle.round_model.specs.Courses as goal;
ghost use Rattle.round_model.specs.WriteResponses.{CanTreatWrite, IsFine, IsHere, IsIdleOnWay, IsAtLeft, IsSplitFinished, TreatsWrite};
ghost use Rattle.round_model.specs.WriteRounds.{WritesForTheSame, SeeksLeaf, ends_at, goes_left, write_way};
ghost use Rattle.round_model.specs.Ways.{LeadsDown, LeadsRight, StaysLeft};
ghost use Rattle.rounds.specs.WriteRounds.{AreReadToWrite, ended_write};
ghost use Rattle.structure_changes.specs.Reads.{IsReadPage};

use crate::course::WriteGoalKind;
use crate::way::{child_inside, child_on_way, right_on_way};
use crate::{WriteEndKind, WriteRound};
use row_search::Rows;
use std::alloc::Allocator;
use structure_changes::After;

impl<R: Rows, A: Allocator> WriteRound<R, A> {
    /// Goes on from the page in hand, which was read now, or ends there, by what it was read for.
    pub(super) fn treat(&mut self, rows: &R, pass: &mut R::Pass) -> Option<WriteEndKind>
        requires read { AreReadToWrite (R.has rows.now pass.old) self.old.round self.old.page }
        requires can { CanTreatWrite self.old.round self.old.page }
        ensures looks { pass.new ≡ pass.old }
        ensures treats { TreatsWrite self.old.round self.old.page self.new.round (option_map (ended_write self.new) result) }
        ensures same { WritesForTheSame self.old.round self.new.round }
    {
        if self.course.seeks_leaf() {
            return self.meet(rows, pass);
        }
        Some(self.end_again(rows, pass))
    }

    /// Ends at the removed page, which was read again.
    #[inline(never)]
    fn end_again(&mut self, rows: &R, pass: &mut R::Pass) -> WriteEndKind
        requires read { AreReadToWrite (R.has rows.now pass.old) self.old.round self.old.page }
        requires can { CanTreatWrite self.old.round self.old.page }
        requires again { ¬ SeeksLeaf self.old.round.goal }
        ensures looks { pass.new ≡ pass.old }
        ensures treats { TreatsWrite self.old.round self.old.page self.new.round (Some (ended_write self.new result)) }
        ensures round { self.new.round ≡ self.old.round }
    {
        match self.course.goal() {
            WriteGoalKind::Seek | WriteGoalKind::Left(_) => unreachable!(),
            WriteGoalKind::Merge => self.end_merge(rows, pass),
            WriteGoalKind::Unterm => self.end_unterm(rows, pass),
        }
    }

    /// Ends at a removed page; else goes on from the page, or ends there.
    fn meet(&mut self, rows: &R, pass: &mut R::Pass) -> Option<WriteEndKind>
        requires read { AreReadToWrite (R.has rows.now pass.old) self.old.round self.old.page }
        requires can { CanTreatWrite self.old.round self.old.page }
        requires seeks { SeeksLeaf self.old.round.goal }
        ensures looks { pass.new ≡ pass.old }
        ensures treats { TreatsWrite self.old.round self.old.page self.new.round (option_map (ended_write self.new) result) }
        ensures same { WritesForTheSame self.old.round self.new.round }
    {
        self.page().chain().was_read(rows, pass);
        if self.page().chain().is_removed() {
            return Some(WriteEndKind::Removed);
        }
        if self.course.has_left() {
            return self.finish(rows, pass);
        }
        self.decide(rows, pass)
    }

    /// Ends where a change is due that finishes the split of the left page; else treats the page as any other.
    #[inline(never)]
    fn finish(&mut self, rows: &R, pass: &mut R::Pass) -> Option<WriteEndKind>
        requires read { AreReadToWrite (R.has rows.now pass.old) self.old.round self.old.page }
        requires can { CanTreatWrite self.old.round self.old.page }
        requires seeks { SeeksLeaf self.old.round.goal }
        requires alive { is_removed self.old.page.chain ≡ false }
        requires left { self.old.round.left ≡ Some self.old.left }
        ensures looks { pass.new ≡ pass.old }
        ensures treats { TreatsWrite self.old.round self.old.page self.new.round (option_map (ended_write self.new) result) }
        ensures same { WritesForTheSame self.old.round self.new.round }
    {
        match self.due_aside(rows, pass) {
            Some(plan) => Some(self.ends_due(plan, After::Round)),
            None => self.decide(rows, pass),
        }
    }

    /// Goes on to the right of a page that ends on the way; else settles what is due at the page.
    fn decide(&mut self, rows: &R, pass: &mut R::Pass) -> Option<WriteEndKind>
        requires read { AreReadToWrite (R.has rows.now pass.old) self.old.round self.old.page }
        requires can { CanTreatWrite self.old.round self.old.page }
        requires seeks { SeeksLeaf self.old.round.goal }
        requires alive { is_removed self.old.page.chain ≡ false }
        requires finished { IsSplitFinished self.old.round.splits self.old.round.parent self.old.round.left self.old.page }
        ensures looks { pass.new ≡ pass.old }
        ensures treats { TreatsWrite self.old.round self.old.page self.new.round (option_map (ended_write self.new) result) }
        ensures same { WritesForTheSame self.old.round self.new.round }
    {
        if let Some(child) = self.child_inside(rows, pass) {
            return self.settle_inside(rows, pass, child);
        }
        match self.next_aside(rows, pass) {
            None => self.settle(rows, pass),
            Some(right) => {
                self.course.keep_left(&mut self.descent);
                self.descent.go_to(right);
                None
            }
        }
    }

    /// The child of the greatest term on the way, of an index page without deltas that ends beyond the way.
    #[inline(always)]
    fn child_inside(&self, rows: &R, pass: &mut R::Pass) -> Option<u32>
        requires read { IsReadPage (R.has rows.now pass.old) self.now.page }
        requires seeks { SeeksLeaf self.now.round.goal }
        ensures looks { pass.new ≡ pass.old }
        ensures leads { MatchOption result ⊤ (λ child. (ends_at self.now.round.goal self.now.round.floor < level_in self.now.page.chain)
            × StaysLeft (write_way self.now.round.goal self.now.round.key) self.now.page.chain
            × LeadsDown (write_way self.now.round.goal self.now.round.key) self.now.page.chain child) }
    {
        if self.is_left() {
            return None;
        }
        child_inside(self.page().chain(), rows, pass, &self.key)
    }

    /// Goes down to this child of the page where no change is looked for; else settles what is due at the page.
    fn settle_inside(&mut self, rows: &R, pass: &mut R::Pass, child: u32) -> Option<WriteEndKind>
        requires read { AreReadToWrite (R.has rows.now pass.old) self.old.round self.old.page }
        requires can { CanTreatWrite self.old.round self.old.page }
        requires here { IsHere self.old.round self.old.page }
        requires index { ends_at self.old.round.goal self.old.round.floor < level_in self.old.page.chain }
        requires leads { LeadsDown (write_way self.old.round.goal self.old.round.key) self.old.page.chain child }
        ensures looks { pass.new ≡ pass.old }
        ensures treats { TreatsWrite self.old.round self.old.page self.new.round (option_map (ended_write self.new) result) }
        ensures same { WritesForTheSame self.old.round self.new.round }
    {
        if self.splits {
            return self.settle(rows, pass);
        }
        if self.tends {
            return self.settle(rows, pass);
        }
        let long = self.is_long(rows, pass);
        if long {
            return self.settle(rows, pass);
        }
        self.go_down(rows, pass, child);
        None
    }

    /// The page's right, where the page ends on the way.
    fn next_aside(&self, rows: &R, pass: &mut R::Pass) -> Option<u32>
        requires read { IsReadPage (R.has rows.now pass.old) self.now.page }
        ensures looks { pass.new ≡ pass.old }
        ensures aside { MatchOption result (StaysLeft (write_way self.now.round.goal self.now.round.key) self.now.page.chain)
            (LeadsRight (write_way self.now.round.goal self.now.round.key) self.now.page.chain) }
    {
        right_on_way(self.page().chain(), rows, pass, &self.key, self.is_left())
    }

    /// Ends where the page is to be consolidated, or, if the round splits pages, to be split; else ends at it, or goes down.
    fn settle(&mut self, rows: &R, pass: &mut R::Pass) -> Option<WriteEndKind>
        requires read { AreReadToWrite (R.has rows.now pass.old) self.old.round self.old.page }
        requires can { CanTreatWrite self.old.round self.old.page }
        requires here { IsHere self.old.round self.old.page }
        ensures looks { pass.new ≡ pass.old }
        ensures treats { TreatsWrite self.old.round self.old.page self.new.round (option_map (ended_write self.new) result) }
        ensures same { WritesForTheSame self.old.round self.new.round }
    {
        if self.is_long(rows, pass) {
            return Some(self.end_long(rows, pass));
        }
        if !self.splits {
            return self.go_on(rows, pass);
        }
        if self.is_wide(rows, pass) {
            return Some(self.end_wide(rows, pass));
        }
        self.go_on(rows, pass)
    }

    /// Goes down from a page at which nothing is due, or ends there, where the round ends at its level.
    fn go_on(&mut self, rows: &R, pass: &mut R::Pass) -> Option<WriteEndKind>
        requires read { AreReadToWrite (R.has rows.now pass.old) self.old.round self.old.page }
        requires can { CanTreatWrite self.old.round self.old.page }
        requires here { IsHere self.old.round self.old.page }
        requires fine { IsFine self.old.round.limits self.old.round.due self.old.round.splits self.old.page }
        ensures looks { pass.new ≡ pass.old }
        ensures treats { TreatsWrite self.old.round self.old.page self.new.round (option_map (ended_write self.new) result) }
        ensures same { WritesForTheSame self.old.round self.new.round }
    {
        self.page().chain().was_read(rows, pass);
        let level = self.page().chain().level();
        let floor = self.floor();
        if level < floor {
            return Some(WriteEndKind::Again);
        }
        if level == floor {
            return self.end(rows, pass);
        }
        if self.tends {
            return self.tend(rows, pass);
        }
        self.go_below(rows, pass);
        None
    }

    /// Ends at a small index page where it is to be removed or its term to be held; else goes down.
    #[inline(never)]
    fn tend(&mut self, rows: &R, pass: &mut R::Pass) -> Option<WriteEndKind>
        requires read { AreReadToWrite (R.has rows.now pass.old) self.old.round self.old.page }
        requires can { CanTreatWrite self.old.round self.old.page }
        requires here { IsHere self.old.round self.old.page }
        requires fine { IsFine self.old.round.limits self.old.round.due self.old.round.splits self.old.page }
        requires index { ends_at self.old.round.goal self.old.round.floor < level_in self.old.page.chain }
        requires tends { self.old.round.tends ≡ true }
        ensures looks { pass.new ≡ pass.old }
        ensures treats { TreatsWrite self.old.round self.old.page self.new.round (option_map (ended_write self.new) result) }
        ensures same { WritesForTheSame self.old.round self.new.round }
    {
        match self.due_upkeep(rows, pass) {
            Some(upkeep) => Some(self.ends_due(upkeep, After::Round)),
            None => {
                self.go_below(rows, pass);
                None
            }
        }
    }

    /// Goes down to a child of the page, which is the parent of those that are read from now on.
    fn go_below(&mut self, rows: &R, pass: &mut R::Pass)
        requires read { AreReadToWrite (R.has rows.now pass.old) self.old.round self.old.page }
        requires can { CanTreatWrite self.old.round self.old.page }
        requires here { IsHere self.old.round self.old.page }
        requires fine { IsFine self.old.round.limits self.old.round.due self.old.round.splits self.old.page }
        requires index { ends_at self.old.round.goal self.old.round.floor < level_in self.old.page.chain }
        requires idle { IsIdleOnWay self.old.round self.old.page }
        ensures looks { pass.new ≡ pass.old }
        ensures treats { TreatsWrite self.old.round self.old.page self.new.round None }
        ensures same { WritesForTheSame self.old.round self.new.round }
    {
        let child = self.next_below(rows, pass);
        self.go_down(rows, pass, child);
    }

    /// Goes down to this child of the page, which is the parent of those that are read from now on.
    fn go_down(&mut self, rows: &R, pass: &R::Pass, child: u32)
        requires read { AreReadToWrite (R.has rows.now pass.now) self.old.round self.old.page }
        requires can { CanTreatWrite self.old.round self.old.page }
        requires here { IsHere self.old.round self.old.page }
        requires fine { IsFine self.old.round.limits self.old.round.due self.old.round.splits self.old.page }
        requires index { ends_at self.old.round.goal self.old.round.floor < level_in self.old.page.chain }
        requires idle { IsIdleOnWay self.old.round self.old.page }
        requires leads { LeadsDown (write_way self.old.round.goal self.old.round.key) self.old.page.chain child }
        ensures treats { TreatsWrite self.old.round self.old.page self.new.round None }
        ensures same { WritesForTheSame self.old.round self.new.round }
    {
        let _ = rows;
        let _ = pass;
        self.course.go_below(&mut self.descent);
        self.descent.go_to(child);
    }

    /// The child of the greatest term on the way.
    fn next_below(&self, rows: &R, pass: &mut R::Pass) -> u32
        requires read { IsReadPage (R.has rows.now pass.old) self.now.page }
        requires index { 0 < level_in self.now.page.chain }
        requires reached { IsTrue (write_way self.now.round.goal self.now.round.key (low_in self.now.page.chain)) }
        requires stays { StaysLeft (write_way self.now.round.goal self.now.round.key) self.now.page.chain }
        ensures looks { pass.new ≡ pass.old }
        ensures leads { LeadsDown (write_way self.now.round.goal self.now.round.key) self.now.page.chain result }
    {
        child_on_way(self.page().chain(), rows, pass, &self.key, self.is_left())
    }

    /// Ends at the leaf; to the left of a removed page, reads that one again where a change may be due.
    fn end(&mut self, rows: &R, pass: &mut R::Pass) -> Option<WriteEndKind>
        requires read { AreReadToWrite (R.has rows.now pass.old) self.old.round self.old.page }
        requires can { CanTreatWrite self.old.round self.old.page }
        requires here { IsHere self.old.round self.old.page }
        requires fine { IsFine self.old.round.limits self.old.round.due self.old.round.splits self.old.page }
        requires level { level_in self.old.page.chain ≡ ends_at self.old.round.goal self.old.round.floor }
        ensures looks { pass.new ≡ pass.old }
        ensures treats { TreatsWrite self.old.round self.old.page self.new.round (option_map (ended_write self.new) result) }
        ensures same { WritesForTheSame self.old.round self.new.round }
    {
        match self.course.removed() {
            Some(pid) => self.end_left(rows, pass, pid),
            None => Some(WriteEndKind::Leaf),
        }
    }

    /// Reads the removed page again where it is the page's right, or the parent has its term; else nothing is due. A page without room for
    /// the removed one's items is split first.
    #[inline(never)]
    fn end_left(&mut self, rows: &R, pass: &mut R::Pass, pid: u32) -> Option<WriteEndKind>
        requires read { AreReadToWrite (R.has rows.now pass.old) self.old.round self.old.page }
        requires some { 0 < pid }
        requires below { pid < self.old.round.limits.pids }
        requires left { IsAtLeft self.old.round self.old.page pid }
        ensures looks { pass.new ≡ pass.old }
        ensures treats { TreatsWrite self.old.round self.old.page self.new.round (option_map (ended_write self.new) result) }
        ensures same { WritesForTheSame self.old.round self.new.round }
    {
        if self.page().chain().right(rows, pass) == Some(pid) {
            if !self.has_merge_room(rows, pass) {
                return Some(self.end_wide(rows, pass));
            }
            self.course.go_to_merge(&mut self.descent);
            self.descent.go_to(pid);
            return None;
        }
        if !self.has_term(rows, pass, pid) {
            return Some(WriteEndKind::Done);
        }
        self.course.go_to_unterm(&mut self.descent);
        self.descent.go_to(pid);
        None
    }

    /// The level at which the round ends.
    fn floor(&self) -> u8
        ensures { result ≡ ends_at self.now.round.goal self.now.round.floor }
    {
        match self.course.removed() {
            Some(_) => self.floor,
            None => 0,
        }
    }

    /// Whether the round goes to the left of a removed page.
    pub(super) fn is_left(&self) -> bool
        ensures { result ≡ goes_left self.now.round.goal }
    {
        self.course.removed().is_some()
    }
}
