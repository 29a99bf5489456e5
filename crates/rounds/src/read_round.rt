//! A reader's round from the root to the leaf of a key, in places that stay.
ghost use Rattle.std.specs.Prelude.{◌≡◌, ◌<◌, ℕ, IfOk, IsTrue, MatchOption, None, Some, [], false, true, ⊤};
ghost use Rattle.std.specs.Bool.{Decides};
ghost use Rattle.std.specs.Option.{option_map};
ghost use Rattle.bw_model.specs.declared.step.Answer.TheVariants.{Content, Number};
ghost use Rattle.bw_model.specs.declared.step.Step.TheVariants.{Row};
ghost use Rattle.traces.specs.chain.Chains.{level_in, low_in, right_in};
ghost use Rattle.traces.specs.discipline.Discipline.{May};
ghost use Rattle.traces.specs.discipline.Knowledge.{Knowledge};
ghost use Rattle.traces.specs.discipline.Recalled.{Recalled};
ghost use Rattle.structure_changes.specs.Reads.{IsReadPage};
ghost use Rattle.round_model.specs.Machines.{IsTold, IsToldThere};
ghost use Rattle.round_model.specs.ReadLegs.{Down, level_on};
ghost use Rattle.round_model.specs.ReadRounds.{CanTreatRead, ReadsForTheSame, Shows, TreatsRead, reading_on_to, on, read_way, reading, toward, wanted_step};
ghost use Rattle.round_model.specs.Rounds.{Responds, machine};
ghost use Rattle.round_model.specs.Visits.{ReadsWithin};
ghost use Rattle.round_model.specs.Ways.{EndsHere, LeadsDown, LeadsRight, StaysLeft, precedes};
ghost use Rattle.round_model.specs.Descents.{Root};
ghost use Rattle.round_model.specs.ReadGoals as goal;
ghost use Rattle.rounds.specs.Descents.{asked_step};
ghost use Rattle.rounds.specs.ReadRounds.{AreReadFor, CanGoOn, read_again_if, ended_read};

mod detour;

use crate::way::{child_inside, child_on_way, right_on_way};
use crate::{Asked, Descent, Leg, SightKind};
use bw_model::{Key, Limits};
use row_search::{KeyWords, RowAt, Rows};
use std::alloc::{AllocError, Allocator, Global};
use std::marker::Model;
use structure_changes::PageInHand;

/// How a reader's round ends. The pages that an end is about stand in the round.
#[derive(Clone, Copy)]
pub enum ReadEndKind {
    /// A page that was named isn't there, or the round can't go round a removed index page: a new round begins.
    Again,
    /// The page in hand, which is on the way, is a removed leaf: a round to the left of it begins.
    Removed,
    /// The page in hand is the leaf that has the key in its range.
    Leaf,
    /// The page that is kept aside is the removed leaf that has the key in its range, and the page in hand is the leaf to the left
    /// of it, which was read afterwards.
    Beside,
}

/// Where a reader's round goes first.
#[derive(Clone, Copy)]
pub(crate) enum ReadGoalKind {
    /// To the leaf of the key.
    Seek,
    /// To the leaf to the left of the page that is kept aside, which is removed.
    Left,
    /// To the leaf of the key, after it was to the left of a removed page.
    Beyond,
}

/// One round of a reader from the root to a leaf, and the next one in the same place.
pub struct ReadRound<R: Rows, A: Allocator = Global> {
    key: KeyWords,
    goal: ReadGoalKind,
    leg: Leg<R, A>,
    aside: PageInHand<R, A>,
    descent: Descent<R, A>,
}

impl<R: Rows, A: Allocator> Drop for ReadRound<R, A> {
    fn drop(self) {
        let ReadRound {
            key: _,
            goal: _,
            leg: _,
            aside: _,
            descent: _,
        } = self;
    }
}

impl<R: Rows, A: Allocator> Model for ReadRound<R, A> {
    ghost use Rattle.rounds.specs.ReadRounds.{PlacedRead, read_goal};

    ghost Value = { PlacedRead };

    ghost view = { λ r. record {
      round = record {
        limits = r.descent.way.limits;
        key = r.key;
        goal = read_goal r.goal r.aside;
        leg = r.leg.leg;
        state = r.descent.way.state;
      };
      page = r.descent.page;
      aside = r.aside;
      met = r.leg.page;
    } };
}

impl<R: Rows, A: Allocator + Copy> ReadRound<R, A> {
    /// The round to the leaf of the lowest key, before its first step. Takes the memory for the records of four pages, 832 bytes, and is
    /// refused for want of it alone. No later call takes memory.
    pub fn new(alloc: A, limits: &Limits) -> Result<ReadRound<R, A>, AllocError>
        ensures { IfOk result (λ round. round.round ≡ record { limits = limits.now; key = []; goal = goal.Seek; leg = Down None; state = Root }) }
    {
        Ok(ReadRound {
            key: KeyWords::of(&Key::default()),
            goal: ReadGoalKind::Seek,
            leg: Leg::<R, A>::new(alloc)?,
            aside: PageInHand::<R, A>::new(alloc)?,
            descent: Descent::<R, A>::new(alloc, limits)?,
        })
    }
}

impl<R: Rows, A: Allocator> ReadRound<R, A> {
    /// Goes back to the root of a tree of these limits.
    pub fn reset(&mut self, limits: &Limits)
        ensures { self.new ≡ record self.old { round = record self.old.round { limits = limits.now; state = Root } } }
    {
        self.descent.reset(limits);
    }

    /// Begins a round to the leaf of a key.
    pub fn restart(&mut self, key: &Key)
        ensures { self.new ≡ record self.old { round = record { limits = self.old.round.limits; key = key.now; goal = goal.Seek; leg = Down None; state = Root } } }
    {
        self.key = KeyWords::of(key);
        self.goal = ReadGoalKind::Seek;
        self.leg.restart();
        self.descent.restart();
    }

    /// Begins a round that goes to the left of the page in hand first. That page is kept aside, and the one that was there before
    /// is in hand.
    pub fn go_left(&mut self)
        ensures round { self.new.round ≡ record self.old.round { goal = goal.Left self.old.page; leg = Down None; state = Root } }
        ensures aside { self.new.aside ≡ self.old.page }
        ensures page { self.new.page ≡ self.old.aside }
    {
        self.descent.swap_page(&mut self.aside);
        self.goal = ReadGoalKind::Left;
        self.leg.restart();
        self.descent.restart();
    }

    /// The key to whose leaf the round goes.
    pub fn key(&self) -> &KeyWords
        ensures { result.now ≡ self.now.round.key }
    {
        &self.key
    }

    /// The page in hand: the one that was read whole last.
    pub fn page(&self) -> &PageInHand<R, A>
        ensures { result.now ≡ self.now.page }
    {
        self.descent.page()
    }

    /// The page that is kept aside.
    pub fn aside(&self) -> &PageInHand<R, A>
        ensures { result.now ≡ self.now.aside }
    {
        &self.aside
    }

    /// What the round reads next.
    pub fn asks(&self) -> Asked
        ensures wanted { asked_step result ≡ wanted_step self.now.round }
        ensures within { ReadsWithin self.now.round.limits (asked_step result) }
        ensures may { (actor : ℕ) (k : Knowledge) (r : Recalled) → Shows self.now.round k r → May actor k (asked_step result) }
    {
        self.descent.asks()
    }

    /// Takes the number that was read in the slot that the round asked for, and tells whether the page isn't there, which ends the round:
    /// a new one begins.
    pub fn told(&mut self, number: u64) -> bool
        requires told { IsTold (machine reading) self.old.round (Number number) }
        ensures responds { Responds reading self.old.round (Number number) self.new.round (read_again_if result) }
        ensures same { ReadsForTheSame self.old.round self.new.round }
    {
        match self.descent.told(number) {
            SightKind::More => false,
            SightKind::Empty => true,
            SightKind::Whole => unreachable!(),
        }
    }

    /// Takes the record that was read in the row that the round asked for, and tells how the round ends, once it does.
    pub fn take_record(
        &mut self,
        found: RowAt<R>,
        rows: &R,
        pass: &mut R::Pass,
    ) -> Option<ReadEndKind>
        requires asked { wanted_step self.old.round ≡ Row found.row }
        requires told { IsToldThere (R.has rows.now pass.old) (machine reading) self.old.round (Content found.content) }
        ensures responds { Responds reading self.old.round (Content found.content) self.new.round (option_map (ended_read self.new) result) }
        ensures same { ReadsForTheSame self.old.round self.new.round }
        ensures looks { pass.new ≡ pass.old }
    {
        match self.descent.take_record(found, rows, pass) {
            SightKind::More => None,
            SightKind::Whole => self.treat(rows, pass),
            SightKind::Empty => unreachable!(),
        }
    }

    /// Goes on from the page in hand, which was read now, or ends there.
    fn treat(&mut self, rows: &R, pass: &mut R::Pass) -> Option<ReadEndKind>
        requires can { CanTreatRead self.old.round self.old.page }
        requires read { AreReadFor (R.has rows.now pass.old) self.old.round self.old.page }
        ensures treats { TreatsRead self.old.round self.old.page self.new.round (option_map (ended_read self.new) result) }
        ensures same { ReadsForTheSame self.old.round self.new.round }
        ensures looks { pass.new ≡ pass.old }
    {
        if self.leg.is_round() {
            return self.come_nearer(rows, pass);
        }
        self.page().chain().was_read(rows, pass);
        if self.page().chain().is_removed() {
            return self.meet_removed(rows, pass);
        }
        self.go_on(rows, pass)
    }

    /// Goes on from the page in hand, which isn't removed, or ends there.
    fn go_on(&mut self, rows: &R, pass: &mut R::Pass) -> Option<ReadEndKind>
        requires can { CanGoOn self.old.round self.old.page }
        requires read { AreReadFor (R.has rows.now pass.old) self.old.round self.old.page }
        ensures treats { TreatsRead self.old.round self.old.page self.new.round (option_map (ended_read self.new) result) }
        ensures same { ReadsForTheSame self.old.round self.new.round }
        ensures looks { pass.new ≡ pass.old }
    {
        if let Some(child) = self.child_inside(rows, pass) {
            self.go_down(rows, pass, child);
            return None;
        }
        if let Some(right) = self.next_aside(rows, pass) {
            self.descent.go_to(right);
            return None;
        }
        self.page().chain().was_read(rows, pass);
        if self.page().chain().level() == 0 {
            return self.end(rows, pass);
        }
        self.go_below(rows, pass);
        None
    }

    /// The child of the greatest term on the way, of an index page without deltas that ends beyond the way.
    #[inline(always)]
    fn child_inside(&self, rows: &R, pass: &mut R::Pass) -> Option<u32>
        requires read { AreReadFor (R.has rows.now pass.old) self.now.round self.now.page }
        ensures looks { pass.new ≡ pass.old }
        ensures leads { MatchOption result ⊤ (λ child. (0 < level_in self.now.page.chain)
            × StaysLeft (read_way self.now.round.goal self.now.round.key) self.now.page.chain
            × LeadsDown (read_way self.now.round.goal self.now.round.key) self.now.page.chain child) }
    {
        match self.goal {
            ReadGoalKind::Left => None,
            ReadGoalKind::Seek | ReadGoalKind::Beyond => {
                child_inside(self.page().chain(), rows, pass, &self.key)
            }
        }
    }

    /// The page's right, where the page in hand ends on the way.
    fn next_aside(&self, rows: &R, pass: &mut R::Pass) -> Option<u32>
        requires read { AreReadFor (R.has rows.now pass.old) self.now.round self.now.page }
        ensures looks { pass.new ≡ pass.old }
        ensures leads { MatchOption result (StaysLeft (read_way self.now.round.goal self.now.round.key) self.now.page.chain)
            (LeadsRight (read_way self.now.round.goal self.now.round.key) self.now.page.chain) }
    {
        match self.goal {
            ReadGoalKind::Left => self.right_to_the_left(rows, pass),
            ReadGoalKind::Seek | ReadGoalKind::Beyond => {
                right_on_way(self.page().chain(), rows, pass, &self.key, false)
            }
        }
    }

    /// The page's right, where it ends on the way to the left of the page that is kept aside.
    #[inline(never)]
    fn right_to_the_left(&self, rows: &R, pass: &mut R::Pass) -> Option<u32>
        requires read { IsReadPage (R.has rows.now pass.old) self.now.page }
        requires aside { IsReadPage (R.has rows.now pass.old) self.now.aside }
        ensures looks { pass.new ≡ pass.old }
        ensures leads { MatchOption result (StaysLeft (precedes (low_in self.now.aside.chain)) self.now.page.chain) (LeadsRight (precedes (low_in self.now.aside.chain)) self.now.page.chain) }
    {
        let low = KeyWords::of(&self.aside.chain().low(rows, pass));
        right_on_way(self.page().chain(), rows, pass, &low, true)
    }

    /// Goes down to a child of the page in hand, which is the page above from then on.
    fn go_below(&mut self, rows: &R, pass: &mut R::Pass)
        requires can { CanGoOn self.old.round self.old.page }
        requires read { AreReadFor (R.has rows.now pass.old) self.old.round self.old.page }
        requires stays { StaysLeft (read_way self.old.round.goal self.old.round.key) self.old.page.chain }
        requires index { 0 < level_in self.old.page.chain }
        ensures treats { TreatsRead self.old.round self.old.page self.new.round None }
        ensures same { ReadsForTheSame self.old.round self.new.round }
        ensures looks { pass.new ≡ pass.old }
    {
        let child = self.next_below(rows, pass);
        self.go_down(rows, pass, child);
    }

    /// Goes down to this child of the page in hand, which is the page above from then on.
    fn go_down(&mut self, rows: &R, pass: &R::Pass, child: u32)
        requires can { CanGoOn self.old.round self.old.page }
        requires read { AreReadFor (R.has rows.now pass.now) self.old.round self.old.page }
        requires stays { StaysLeft (read_way self.old.round.goal self.old.round.key) self.old.page.chain }
        requires index { 0 < level_in self.old.page.chain }
        requires leads { LeadsDown (read_way self.old.round.goal self.old.round.key) self.old.page.chain child }
        ensures treats { TreatsRead self.old.round self.old.page self.new.round None }
        ensures same { ReadsForTheSame self.old.round self.new.round }
    {
        let _ = rows;
        let _ = pass;
        self.leg.go_below(&mut self.descent);
        self.descent.go_to(child);
    }

    /// The child of the greatest term on the way.
    fn next_below(&self, rows: &R, pass: &mut R::Pass) -> u32
        requires read { AreReadFor (R.has rows.now pass.old) self.now.round self.now.page }
        requires index { 0 < level_in self.now.page.chain }
        requires reached { IsTrue (read_way self.now.round.goal self.now.round.key (low_in self.now.page.chain)) }
        ensures looks { pass.new ≡ pass.old }
        ensures leads { LeadsDown (read_way self.now.round.goal self.now.round.key) self.now.page.chain result }
    {
        match self.goal {
            ReadGoalKind::Left => self.child_to_the_left(rows, pass),
            ReadGoalKind::Seek | ReadGoalKind::Beyond => {
                child_on_way(self.page().chain(), rows, pass, &self.key, false)
            }
        }
    }

    /// The child of the greatest term on the way to the left of the page that is kept aside.
    #[inline(never)]
    fn child_to_the_left(&self, rows: &R, pass: &mut R::Pass) -> u32
        requires read { IsReadPage (R.has rows.now pass.old) self.now.page }
        requires aside { IsReadPage (R.has rows.now pass.old) self.now.aside }
        requires index { 0 < level_in self.now.page.chain }
        requires reached { IsTrue (precedes (low_in self.now.aside.chain) (low_in self.now.page.chain)) }
        ensures looks { pass.new ≡ pass.old }
        ensures leads { LeadsDown (precedes (low_in self.now.aside.chain)) self.now.page.chain result }
    {
        let low = KeyWords::of(&self.aside.chain().low(rows, pass));
        child_on_way(self.page().chain(), rows, pass, &low, true)
    }

    /// Ends at the leaf where the way ends; to the left of a removed page, passes that page.
    fn end(&mut self, rows: &R, pass: &mut R::Pass) -> Option<ReadEndKind>
        requires can { CanGoOn self.old.round self.old.page }
        requires read { AreReadFor (R.has rows.now pass.old) self.old.round self.old.page }
        requires ends { EndsHere (read_way self.old.round.goal self.old.round.key) self.old.page.chain }
        ensures treats { TreatsRead self.old.round self.old.page self.new.round (option_map (ended_read self.new) result) }
        ensures same { ReadsForTheSame self.old.round self.new.round }
        ensures looks { pass.new ≡ pass.old }
    {
        match self.goal {
            ReadGoalKind::Left => self.pass_removed(rows, pass),
            ReadGoalKind::Seek | ReadGoalKind::Beyond => Some(ReadEndKind::Leaf),
        }
    }

    /// Ends beside the removed page, or goes on to the right of it; where it was merged, goes on for the key.
    #[inline(never)]
    fn pass_removed(&mut self, rows: &R, pass: &mut R::Pass) -> Option<ReadEndKind>
        requires can { CanGoOn (toward (goal.Left self.old.aside) self.old.round) self.old.page }
        requires read { IsReadPage (R.has rows.now pass.old) self.old.page }
        requires aside { IsReadPage (R.has rows.now pass.old) self.old.aside }
        requires ends { EndsHere (precedes (low_in self.old.aside.chain)) self.old.page.chain }
        ensures treats { TreatsRead (toward (goal.Left self.old.aside) self.old.round) self.old.page self.new.round (option_map (ended_read self.new) result) }
        ensures same { ReadsForTheSame self.old.round self.new.round }
        ensures looks { pass.new ≡ pass.old }
    {
        if self.is_beside(rows, pass) {
            return match right_on_way(self.aside.chain(), rows, pass, &self.key, false) {
                None => Some(ReadEndKind::Beside),
                Some(right) => self.go_beyond(right),
            };
        }
        match right_on_way(self.descent.page().chain(), rows, pass, &self.key, false) {
            None => Some(ReadEndKind::Leaf),
            Some(right) => self.go_beyond(right),
        }
    }

    /// Whether the page that is kept aside is the right of the page in hand.
    fn is_beside(&self, rows: &R, pass: &mut R::Pass) -> bool
        requires read { IsReadPage (R.has rows.now pass.old) self.now.page }
        ensures looks { pass.new ≡ pass.old }
        ensures beside { Decides result (right_in self.now.page.chain ≡ Some self.now.aside.pid) }
    {
        match self.descent.page().chain().right(rows, pass) {
            Some(right) => right == self.aside.pid(),
            None => false,
        }
    }

    /// Goes on to a page on the way of the key, past the removed page.
    fn go_beyond(&mut self, right: u32) -> Option<ReadEndKind>
        requires some { 0 < right }
        requires below { right < self.old.round.limits.pids }
        ensures goes { self.new ≡ record self.old { round = reading_on_to right (on (level_on self.old.round.leg) (toward goal.Beyond self.old.round)) } }
        ensures none { result ≡ None }
    {
        self.goal = ReadGoalKind::Beyond;
        self.leg.stay_on_level();
        self.descent.go_to(right);
        None
    }
}
