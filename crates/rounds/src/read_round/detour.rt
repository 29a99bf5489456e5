//! The way of a reader's round round a removed index page, to the page on its left.
ghost use Rattle.std.specs.Prelude.{◌≡◌, ◌≢◌, ◌<◌, IsTrue, MatchOption, None, Some, true};
ghost use Rattle.std.specs.Bool.{Decides};
ghost use Rattle.std.specs.Option.{option_map};
ghost use Rattle.traces.specs.chain.Chains.{is_removed, level_in, low_in, right_in};
ghost use Rattle.structure_changes.specs.Reads.{IsReadPage};
ghost use Rattle.round_model.specs.ReadLegs.{IsPlain, Round};
ghost use Rattle.round_model.specs.ReadRounds.{CanTreatRead, ReadsForTheSame, LacksLeft, TreatsRead, left_of, read_way};
ghost use Rattle.round_model.specs.Ways.{LeadsOn, LeadsRight, StaysLeft};
ghost use Rattle.rounds.specs.ReadRounds.{AreReadFor, IsOnLevelOf, IsReadGoal, IsReadLeg, LeadsLeft, ended_read};

use super::{ReadEndKind, ReadGoalKind, ReadRound};
use crate::way::{next_on_way, right_on_way};
use row_search::{KeyWords, Rows};
use std::alloc::Allocator;

impl<R: Rows, A: Allocator> ReadRound<R, A> {
    /// Ends at a removed leaf; goes round a removed index page, where the page above leads to the left of it.
    #[inline(never)]
    pub(super) fn meet_removed(&mut self, rows: &R, pass: &mut R::Pass) -> Option<ReadEndKind>
        requires can { CanTreatRead self.old.round self.old.page }
        requires read { AreReadFor (R.has rows.now pass.old) self.old.round self.old.page }
        requires plain { IsPlain self.old.round.leg }
        requires gone { is_removed self.old.page.chain ≡ true }
        ensures treats { TreatsRead self.old.round self.old.page self.new.round (option_map (ended_read self.new) result) }
        ensures same { ReadsForTheSame self.old.round self.new.round }
        ensures looks { pass.new ≡ pass.old }
    {
        self.page().chain().was_read(rows, pass);
        if self.page().chain().level() == 0 {
            return Some(ReadEndKind::Removed);
        }
        match self.left_of_page(rows, pass) {
            None => Some(ReadEndKind::Again),
            Some(left) => {
                self.leg.go_round(&mut self.descent);
                self.descent.go_to(left);
                None
            }
        }
    }

    /// The child of the greatest term below the page in hand that the page above has, where there is one.
    fn left_of_page(&self, rows: &R, pass: &mut R::Pass) -> Option<u32>
        requires read { IsReadPage (R.has rows.now pass.old) self.now.page }
        requires above { IsReadLeg (R.has rows.now pass.old) self.now.round.leg }
        requires plain { IsPlain self.now.round.leg }
        ensures looks { pass.new ≡ pass.old }
        ensures leads { MatchOption result (LacksLeft self.now.page self.now.round.leg) (LeadsLeft self.now.page self.now.round.leg) }
    {
        if !self.leg.has_above() {
            return None;
        }
        let low = KeyWords::of(&self.page().chain().low(rows, pass));
        let above = self.leg.page().chain();
        above.was_read(rows, pass);
        above.keeps_rules();
        above.child_below(rows, pass, &low)
    }

    /// On the way round a removed page, goes on to the right of the page in hand, or from the removed page, which it has to its right;
    /// where that one was merged, goes on from the page in hand.
    #[inline(never)]
    pub(super) fn come_nearer(&mut self, rows: &R, pass: &mut R::Pass) -> Option<ReadEndKind>
        requires can { CanTreatRead self.old.round self.old.page }
        requires read { AreReadFor (R.has rows.now pass.old) self.old.round self.old.page }
        requires round { self.old.round.leg ≡ Round self.old.met }
        ensures treats { TreatsRead self.old.round self.old.page self.new.round (option_map (ended_read self.new) result) }
        ensures same { ReadsForTheSame self.old.round self.new.round }
        ensures looks { pass.new ≡ pass.old }
    {
        if !self.is_of_level(rows, pass) {
            return Some(ReadEndKind::Again);
        }
        if let Some(right) = self.right_before(rows, pass) {
            self.descent.go_to(right);
            return None;
        }
        if self.has_removed_aside(rows, pass) {
            self.go_through(rows, pass);
        } else {
            self.go_past(rows, pass);
        }
        None
    }

    /// Goes on from the removed page, which the page in hand has as its right.
    fn go_through(&mut self, rows: &R, pass: &mut R::Pass)
        requires can { CanTreatRead self.old.round self.old.page }
        requires read { AreReadFor (R.has rows.now pass.old) self.old.round self.old.page }
        requires round { self.old.round.leg ≡ Round self.old.met }
        requires level { IsOnLevelOf self.old.page self.old.met }
        requires stays { StaysLeft (left_of self.old.met) self.old.page.chain }
        requires beside { right_in self.old.page.chain ≡ Some self.old.met.pid }
        ensures treats { TreatsRead self.old.round self.old.page self.new.round None }
        ensures same { ReadsForTheSame self.old.round self.new.round }
        ensures looks { pass.new ≡ pass.old }
    {
        let next = self.next_of_removed(rows, pass);
        self.leg.pass();
        self.descent.go_to(next);
    }

    /// Goes on from the page in hand, as the removed page was merged.
    #[inline(never)]
    fn go_past(&mut self, rows: &R, pass: &mut R::Pass)
        requires can { CanTreatRead self.old.round self.old.page }
        requires read { AreReadFor (R.has rows.now pass.old) self.old.round self.old.page }
        requires round { self.old.round.leg ≡ Round self.old.met }
        requires level { IsOnLevelOf self.old.page self.old.met }
        requires stays { StaysLeft (left_of self.old.met) self.old.page.chain }
        requires merged { right_in self.old.page.chain ≢ Some self.old.met.pid }
        ensures treats { TreatsRead self.old.round self.old.page self.new.round None }
        ensures same { ReadsForTheSame self.old.round self.new.round }
        ensures looks { pass.new ≡ pass.old }
    {
        match self.next_aside(rows, pass) {
            Some(right) => {
                self.leg.pass();
                self.descent.go_to(right);
            }
            None => {
                let child = self.next_below(rows, pass);
                self.leg.go_below(&mut self.descent);
                self.descent.go_to(child);
            }
        }
    }

    /// Whether the page in hand isn't removed, and is of the removed page's level.
    fn is_of_level(&self, rows: &R, pass: &mut R::Pass) -> bool
        requires read { IsReadPage (R.has rows.now pass.old) self.now.page }
        requires removed { IsReadPage (R.has rows.now pass.old) self.now.met }
        ensures looks { pass.new ≡ pass.old }
        ensures level { Decides result (IsOnLevelOf self.now.page self.now.met) }
    {
        let page = self.descent.page().chain();
        let removed = self.leg.page().chain();
        page.was_read(rows, pass);
        removed.was_read(rows, pass);
        !page.is_removed() && page.level() == removed.level()
    }

    /// The right of the page in hand, where that page ends to the left of the removed one.
    fn right_before(&self, rows: &R, pass: &mut R::Pass) -> Option<u32>
        requires read { IsReadPage (R.has rows.now pass.old) self.now.page }
        requires removed { IsReadPage (R.has rows.now pass.old) self.now.met }
        ensures looks { pass.new ≡ pass.old }
        ensures leads { MatchOption result (StaysLeft (left_of self.now.met) self.now.page.chain) (LeadsRight (left_of self.now.met) self.now.page.chain) }
    {
        let low = KeyWords::of(&self.leg.page().chain().low(rows, pass));
        right_on_way(self.page().chain(), rows, pass, &low, true)
    }

    /// Whether the removed page is the right of the page in hand.
    fn has_removed_aside(&self, rows: &R, pass: &mut R::Pass) -> bool
        requires read { IsReadPage (R.has rows.now pass.old) self.now.page }
        ensures looks { pass.new ≡ pass.old }
        ensures beside { Decides result (right_in self.now.page.chain ≡ Some self.now.met.pid) }
    {
        match self.descent.page().chain().right(rows, pass) {
            Some(right) => right == self.leg.page().pid(),
            None => false,
        }
    }

    /// The removed page's right, where it ends on the way; else the child of its greatest term there.
    fn next_of_removed(&self, rows: &R, pass: &mut R::Pass) -> u32
        requires removed { IsReadPage (R.has rows.now pass.old) self.now.met }
        requires aside { IsReadGoal (R.has rows.now pass.old) self.now.round.goal }
        requires index { 0 < level_in self.now.met.chain }
        requires on_way { IsTrue (read_way self.now.round.goal self.now.round.key (low_in self.now.met.chain)) }
        ensures looks { pass.new ≡ pass.old }
        ensures leads { LeadsOn (read_way self.now.round.goal self.now.round.key) self.now.met.chain result }
    {
        let removed = self.leg.page().chain();
        match self.goal {
            ReadGoalKind::Left => {
                let low = KeyWords::of(&self.aside.chain().low(rows, pass));
                next_on_way(removed, rows, pass, &low, true)
            }
            ReadGoalKind::Seek | ReadGoalKind::Beyond => next_on_way(
                removed, rows, pass, &self.key, false,
            ),
        }
    }
}
