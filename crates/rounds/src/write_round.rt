//! A writer's round from the root to a change that is due, or to the leaf of a key, in places that stay.
ghost use Rattle.std.specs.Prelude.{◌≡◌, ◌<◌, ℕ, IfOk, None, Some, [], true, false, not, option_copied};
ghost use Rattle.std.specs.Option.{option_map};
ghost use Rattle.bw_model.specs.declared.step.Answer.TheVariants.{Content, Number};
ghost use Rattle.bw_model.specs.declared.step.Step.TheVariants.{Row};
ghost use Rattle.traces.specs.discipline.Discipline.{May};
ghost use Rattle.traces.specs.discipline.Knowledge.{Knowledge};
ghost use Rattle.traces.specs.discipline.Recalled.{Recalled};
ghost use Rattle.round_model.specs.Courses as goal;
ghost use Rattle.round_model.specs.Machines.{IsTold, IsToldThere};
ghost use Rattle.round_model.specs.Rounds.{Responds, machine};
ghost use Rattle.round_model.specs.Visits.{ReadsWithin, reads_on};
ghost use Rattle.round_model.specs.WriteResponses.{writing};
ghost use Rattle.round_model.specs.WriteRounds.{WritesForTheSame, Shows, wanted_step};
ghost use Rattle.round_model.specs.Descents.{Root};
ghost use Rattle.rounds.specs.Descents.{asked_step};
ghost use Rattle.rounds.specs.WriteRounds.{write_again_if, ended_write};

mod due;
mod treat;

use crate::course::Course;
use crate::{Asked, Descent, SightKind, WriteEndKind};
use bw_model::{Key, Limits};
use row_search::{KeyWords, RowAt, Rows};
use std::alloc::{AllocError, Allocator, Global};
use std::marker::Model;
use structure_changes::{After, MANY_DELTAS, PageInHand, Plan};

/// One round of a writer from the root, and the next one in the same place.
pub struct WriteRound<R: Rows, A: Allocator = Global> {
    key: KeyWords,
    due: usize,
    tends: bool,
    splits: bool,
    floor: u8,
    course: Course<R, A>,
    descent: Descent<R, A>,
    plan: Box<Plan, A>,
    after: After,
}

impl<R: Rows, A: Allocator> Drop for WriteRound<R, A> {
    fn drop(self) {
        let WriteRound {
            key: _,
            due: _,
            tends: _,
            splits: _,
            floor: _,
            course: _,
            descent: _,
            plan: _,
            after: _,
        } = self;
    }
}

impl<R: Rows, A: Allocator> Model for WriteRound<R, A> {
    ghost use Rattle.rounds.specs.WriteRounds.{PlacedWrite};

    ghost Value = { PlacedWrite };

    ghost view = { λ r. record {
      round = record {
        limits = r.descent.way.limits;
        key = r.key;
        due = r.due;
        tends = r.tends;
        splits = r.splits;
        floor = r.floor;
        goal = r.course.course.goal;
        parent = r.course.course.parent;
        left = r.course.course.left;
        state = r.descent.way.state;
      };
      page = r.descent.page;
      parent = r.course.parent;
      left = r.course.left;
      plan = r.plan.value;
      after = r.after;
    } };
}

impl<R: Rows, A: Allocator + Copy> WriteRound<R, A> {
    /// The round to the leaf of the lowest key, before its first step, where as many deltas are due as on any page, no index page is
    /// held or removed, and pages are split. Takes the memory for four pages and a plan, 4.2 KB, and is refused for want of it alone. No
    /// later call takes memory.
    pub fn new(alloc: A, limits: &Limits) -> Result<WriteRound<R, A>, AllocError>
        ensures { IfOk result (λ round. round.round ≡ record {
          limits = limits.now;
          key = [];
          due = 8;
          tends = false;
          splits = true;
          floor = 0;
          goal = goal.Seek;
          parent = None;
          left = None;
          state = Root;
        }) }
    {
        Ok(WriteRound {
            key: KeyWords::of(&Key::default()),
            due: MANY_DELTAS,
            tends: false,
            splits: true,
            floor: 0,
            course: Course::<R, A>::new(alloc)?,
            descent: Descent::<R, A>::new(alloc, limits)?,
            plan: Box::new(alloc, Plan::default())?,
            after: After::Round,
        })
    }
}

impl<R: Rows, A: Allocator> WriteRound<R, A> {
    /// Goes back to the root of a tree of these limits.
    pub fn reset(&mut self, limits: &Limits)
        ensures { self.new ≡ record self.old { round = record self.old.round { limits = limits.now; state = Root } } }
    {
        self.descent.reset(limits);
    }

    /// Begins a round to the leaf of a key. A leaf with as many deltas as are due is consolidated; a small index page is held and removed
    /// where the round tends such pages; a page with many items is split, and a root made, where the round splits pages.
    pub fn restart(&mut self, key: &Key, due: usize, tends: bool, splits: bool)
        requires due { 0 < due }
        ensures { self.new ≡ record self.old {
          round = record {
            limits = self.old.round.limits;
            key = key.now;
            due = due;
            tends = tends;
            splits = splits;
            floor = 0;
            goal = goal.Seek;
            parent = None;
            left = None;
            state = Root;
          };
        } }
    {
        self.key = KeyWords::of(key);
        self.due = due;
        self.tends = tends;
        self.splits = splits;
        self.floor = 0;
        self.course.restart(None);
        self.descent.restart();
    }

    /// Begins a round to the left of a removed page of this level, which begins at the key. In a large tree it splits no page but the left
    /// one, if that has no room for the removed one's items: so a tree without a free PID can be emptied.
    pub fn restart_left(&mut self, key: &Key, removed: u32, level: u8)
        ensures { self.new ≡ record self.old {
          round = record {
            limits = self.old.round.limits;
            key = key.now;
            due = 8;
            tends = false;
            splits = not self.old.round.limits.is_large;
            floor = level;
            goal = goal.Left removed;
            parent = None;
            left = None;
            state = Root;
          };
        } }
    {
        self.key = KeyWords::of(key);
        self.due = MANY_DELTAS;
        self.tends = false;
        self.splits = !self.descent.limits().is_large;
        self.floor = level;
        self.course.restart(Some(removed));
        self.descent.restart();
    }

    /// The page in hand: the one that was read whole last, until it was kept.
    pub fn page(&self) -> &PageInHand<R, A>
        ensures { result.now ≡ self.now.page }
    {
        self.descent.page()
    }

    /// The parent of the pages that are read, where one is kept.
    pub fn kept_parent(&self) -> Option<&PageInHand<R, A>>
        ensures { option_copied result ≡ self.now.round.parent }
    {
        if self.course.has_parent() {
            return Some(self.course.parent());
        }
        None
    }

    /// What the round reads next.
    pub fn asks(&self) -> Asked
        ensures wanted { asked_step result ≡ wanted_step self.now.round }
        ensures within { ReadsWithin self.now.round.limits (asked_step result) }
        ensures may { (actor : ℕ) (k : Knowledge) (r : Recalled) → Shows self.now.round k r → May actor k (asked_step result) }
    {
        self.descent.asks()
    }

    /// Takes the number that was read in the slot that the round asked for, and tells whether the page isn't there, which ends the round:
    /// a new one begins.
    pub fn told(&mut self, number: u64) -> bool
        requires told { IsTold (machine writing) self.old.round (Number number) }
        ensures responds { Responds writing self.old.round (Number number) self.new.round (write_again_if result) }
        ensures same { WritesForTheSame self.old.round self.new.round }
    {
        match self.descent.told(number) {
            SightKind::More => false,
            SightKind::Empty => true,
            SightKind::Whole => unreachable!(),
        }
    }

    /// Takes the record that was read in the row that the round asked for, which stands over another one.
    pub fn read_on(&mut self, found: RowAt<R>, rows: &R, pass: &mut R::Pass)
        requires asked { wanted_step self.old.round ≡ Row found.row }
        requires told { IsToldThere (R.has rows.now pass.old) (machine writing) self.old.round (Content found.content) }
        requires on { reads_on (Content found.content) ≡ true }
        ensures looks { pass.new ≡ pass.old }
        ensures responds { Responds writing self.old.round (Content found.content) self.new.round None }
        ensures same { WritesForTheSame self.old.round self.new.round }
    {
        self.descent.take_record(found, rows, pass);
    }

    /// Takes the record that was read in the row that the round asked for, and tells how the round ends, once it does.
    #[inline(never)]
    pub fn take_record(
        &mut self,
        found: RowAt<R>,
        rows: &R,
        pass: &mut R::Pass,
    ) -> Option<WriteEndKind>
        requires asked { wanted_step self.old.round ≡ Row found.row }
        requires told { IsToldThere (R.has rows.now pass.old) (machine writing) self.old.round (Content found.content) }
        ensures looks { pass.new ≡ pass.old }
        ensures responds { Responds writing self.old.round (Content found.content) self.new.round (option_map (ended_write self.new) result) }
        ensures same { WritesForTheSame self.old.round self.new.round }
    {
        match self.descent.take_record(found, rows, pass) {
            SightKind::More => None,
            SightKind::Whole => self.treat(rows, pass),
            SightKind::Empty => unreachable!(),
        }
    }
}
