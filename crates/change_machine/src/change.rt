//! A change of the tree: a record over a page's newest row, the split of a page, a new root, or the end of a removed page.
ghost use Rattle.std.specs.Prelude.{◌≡◌, ◌<◌, ◌≤◌, ◌*◌, ◌+◌, ◌/◌, ℕ, Bool, false, None, Some, IfNone};
ghost use Rattle.std.specs.Int.{trailing_zeros, w64};
ghost use Rattle.bw_model.specs.Answers.{answer_of};
ghost use Rattle.bw_model.specs.Lent.{step_of_loan};
ghost use Rattle.tree_limits.specs.declared.limits.Limits.{Limits as LimitsSeen};
ghost use Rattle.traces.specs.discipline.Discipline.{May, MayFree};
ghost use Rattle.traces.specs.discipline.Fitting.{Fits};
ghost use Rattle.traces.specs.discipline.Knowledge.{Knowledge, learn};
ghost use Rattle.traces.specs.discipline.Recalled.{Recalled, WasHead};
ghost use Rattle.change_machine.specs.Begun.{HasBegun};
ghost use Rattle.change_machine.specs.Bounded.{IsApart, IsPidFrom, Recalls, Spends, few_steps, pid_taken, steps_left};
ghost use Rattle.change_machine.specs.Changes.{Follows, IsMade, IsMadeAt, IsOfChange, IsSameChange, IsSoundChange, IsSpellablePlan, IsTarget, FitsChange};
ghost use Rattle.change_machine.specs.Changes.{EndsByDeciding, KeepsSpare, MayChange, Shows, has_decided, at, base_row, linked_number, placed_in, record_row, split_base_row, split_row, wanted_step};
ghost use Rattle.structure_changes.specs.declared.plan.Plan.TheVariants.{Install};
ghost use Rattle.structure_changes.specs.Plans.{head_of, slot_of};
ghost use Rattle.change_machine.specs.Moves.{after_ready, decided_by, first_state, next_move, moved_by};
ghost use Rattle.change_machine.specs.Outs.{TakesFresh, limbo_after};
ghost use Rattle.change_machine.specs.Spares.{HaveRoom, Rest};
ghost use Rattle.change_machine.specs.Taking.{found_after, near_after};
ghost use Rattle.traces.specs.trace.Within.{IsWithin};

use crate::Spares;
use crate::needs::{has_rows, wanted_from};
use crate::taking::{Found, Kind, Taking, near_after, went};
use bw_model::{Limits, Step, Told};
use deltas::{Record, Remove};
use std::alloc::{AllocError, Allocator, Global};
use std::marker::Model;
use std::mem;
use structure_changes::{Plan, UpdateRecord};

/// How a change ended.
#[derive(Clone, Copy, PartialEq, Eq)]
pub enum End {
    /// What was planned is linked, and a page that was to be cleared is cleared.
    Won,
    /// Another actor's exchange came before.
    Lost,
    /// A number of this kind was needed, none was spare, and none was free.
    Full(Kind),
}

/// Where a change stands: each state is named by the step that it has asked for.
#[derive(Clone, Copy)]
pub(crate) enum State {
    /// A PID or a row is taken.
    Taking(Taking),
    /// The base of the new page is placed.
    Base,
    /// The new page's slot goes from 0 to its base.
    Ready,
    /// The record that comes over a page's newest row is placed.
    Place,
    /// The exchange that decides.
    Link,
    /// The new page's slot goes back to 0.
    Undo,
    /// The slot of a removed page, whose term is out, goes to 0.
    Clear,
}

/// A change that is under way. What it takes and places is among the spares of its actor until it is linked. `made` is the record to be
/// placed, if the plan doesn't contain it as it is: it is made once, when the new page's PID is known. `near` is the count by which takings begin where
/// the actor took last: it stays from one change to the next.
#[derive(Drop)]
pub struct Change<A: Allocator = Global> {
    limits: Limits,
    is_update: bool,
    update: Plan,
    due: Box<Plan, A>,
    state: State,
    near: u32,
    made: Record,
}

impl<A: Allocator> Model for Change<A> {
    ghost use Rattle.change_machine.specs.Changes.{Change, IsSpellablePlan, IsTarget, plan_of};

    ghost Value = { Change };

    ghost view = { λ c. record { limits = c.limits; plan = plan_of c.is_update c.update c.due.value; state = c.state; near = c.near; made = c.made } };

    ghost invariant = { λ c. IsTarget c.limits (plan_of c.is_update c.update c.due.value) × IsSpellablePlan (plan_of c.is_update c.update c.due.value) };
}

impl<A: Allocator> Change<A> {
    /// The place of a change, in which none has begun. Takes the memory for a plan, 3.4 KB, and is refused for want of it
    /// alone. No later call takes memory.
    pub fn new(alloc: A, limits: &Limits) -> Result<Change<A>, AllocError> {
        Ok(Change {
            limits: *limits,
            is_update: true,
            update: Plan::Install {
                pid: 1,
                head: 1,
                content: Record::Remove(Remove { level: 0, next: 1 }),
            },
            due: Box::new(alloc, Plan::default())?,
            state: State::Link,
            near: 0,
            made: Record::Remove(Remove { level: 0, next: 0 }),
        })
    }

    /// Becomes the change that links what is planned, and leaves another plan in the place of that one, which is not copied. It takes a
    /// number only where no spare one of the kind is left: a PID first, then rows.
    pub fn begin(&mut self, limits: &Limits, spares: &Spares, plan: &mut Box<Plan, A>)
        requires target { IsTarget limits.now plan.old.value }
        requires spells { IsSpellablePlan plan.old.value }
        requires room { HaveRoom limits.now spares.now }
        ensures { HasBegun limits.now plan.old.value spares.now self.new }
    {
        self.limits = *limits;
        self.state = first_state(limits, plan, spares, self.near);
        self.is_update = false;
        mem::swap(&mut self.due, plan);
        self.make(spares);
    }

    /// Becomes the change that links an update's record over the row `head` of a page. The record lies where the last one did.
    pub fn begin_update(
        &mut self,
        limits: &Limits,
        spares: &Spares,
        pid: u32,
        head: u32,
        update: &UpdateRecord,
    )
        requires target { IsTarget limits.now (Install pid head update.now) }
        requires spells { IsSpellablePlan (Install pid head update.now) }
        requires room { HaveRoom limits.now spares.now }
        ensures { HasBegun limits.now (Install pid head update.now) spares.now self.new }
    {
        self.limits = *limits;
        self.is_update = true;
        self.update.update(pid, head, update);
        self.state = first_state(limits, &self.update, spares, self.near);
        self.make(spares);
    }

    /// What is to be linked.
    fn plan(&self) -> &Plan
        ensures { result.now ≡ self.now.plan }
    {
        if self.is_update {
            &self.update
        } else {
            &self.due
        }
    }

    /// The step that the change wants next, with the record that is to be placed lent from where it lies. Inlined, so that a compiler drops it
    /// where its contract alone is of use.
    #[inline(always)]
    pub fn wanted(&self, spares: &Spares) -> Step<&Record>
        requires sound { IsSoundChange self.now spares.now }
        requires made { IsMade self.now spares.now }
        ensures wanted { step_of_loan result ≡ wanted_step self.now spares.now }
        ensures within { IsWithin self.now.limits (step_of_loan result) }
        ensures may { (actor : ℕ) (k : Knowledge) → Shows actor self.now spares.now k → May actor k (step_of_loan result) }
        ensures only { IsOfChange (step_of_loan result) }
        ensures frees { (limits : LimitsSeen) (actor : ℕ) (k : Knowledge) → MayFree limits actor k (step_of_loan result) }
    {
        match self.state {
            State::Taking(taking) => taking.wanted(),
            State::Base => Step::Place(self.base_row(spares), self.placed()),
            State::Ready => Step::Exchange(spares.pid_or_0(), 0, self.base_row(spares)),
            State::Place => Step::Place(self.record_row(spares), self.placed()),
            State::Link => Step::Exchange(
                self.plan().slot(),
                self.plan().head(),
                self.linked_number(spares),
            ),
            State::Undo => Step::Exchange(spares.pid_or_0(), self.base_row(spares), 0),
            State::Clear => Step::Exchange(
                self.plan().cleared_page(),
                self.plan().cleared_row(),
                0,
            ),
        }
    }

    /// The record that is to be placed.
    fn placed(&self) -> &Record
        ensures { result.now ≡ placed_in self.now.plan self.now.made }
    {
        match self.plan() {
            Plan::Install { content, .. } => content,
            Plan::Split { .. } | Plan::Root { .. } | Plan::Unlink { .. } => &self.made,
        }
    }

    /// Is told the answer to the step wanted last, and tells whether the change has ended.
    pub fn next(&mut self, spares: &mut Spares, told: Told) -> Option<End>
        requires sound { IsSoundChange self.old spares.old }
        requires told { FitsChange self.old spares.old (answer_of told) }
        ensures follows { (actor : ℕ) (k : Knowledge) → Shows actor self.old spares.old k → Fits self.old.limits k (wanted_step self.old spares.old) (answer_of told)
            → Follows actor k (learn k (wanted_step self.old spares.old) (answer_of told)) self.old (answer_of told) self.new spares.new result }
        ensures limbo { (actor : ℕ) (k : Knowledge) → Shows actor self.old spares.old k → Fits self.old.limits k (wanted_step self.old spares.old) (answer_of told)
            → (learn k (wanted_step self.old spares.old) (answer_of told)).limbo ≡ limbo_after self.old.plan result k }
        ensures fresh { (actor : ℕ) (k : Knowledge) → Shows actor self.old spares.old k → Fits self.old.limits k (wanted_step self.old spares.old) (answer_of told)
            → TakesFresh self.old.limits k self.old.plan result }
        ensures sound { IfNone result (IsSoundChange self.new spares.new) }
        ensures made { IsMade self.new spares.new }
        ensures room { HaveRoom self.old.limits spares.new }
        ensures same { IsSameChange self.old self.new }
        ensures pid { IsPidFrom spares.old.pid (pid_taken (wanted_step self.old spares.old) (answer_of told)) spares.new.pid }
        ensures spends { Spends self.old spares.old (answer_of told) self.new spares.new result }
        ensures decides { EndsByDeciding self.old.state self.new.state result }
        ensures lowest { (kind : Kind) (from word bits : ℕ) (whole : Bool) → self.old.state ≡ State.Taking (Taking.Bits kind from word whole) → told ≡ Told.Number bits
            → 0 < bits → self.new.state ≡ State.Taking (Taking.Take kind from (64 * word + trailing_zeros w64 bits) whole) }
        ensures again { (kind : Kind) (from number : ℕ) (whole : Bool) → self.old.state ≡ State.Taking (Taking.Take kind from number whole) → told ≡ Told.Whether false
            → self.new.state ≡ State.Taking (Taking.Bits kind from (number / 64) whole) }
    {
        let _ = &self.limits;
        self.move_on(spares, told)
    }

    /// Goes to the state that follows, and makes what is to be placed there.
    fn move_on(&mut self, spares: &mut Spares, told: Told) -> Option<End>
        requires sound { IsSoundChange self.old spares.old }
        requires told { FitsChange self.old spares.old (answer_of told) }
        ensures moved { next_move self.old.limits self.old.plan spares.old self.old.near self.old.state (answer_of told) ≡
            record { state = self.new.state; spares = spares.new; end = result } }
        ensures same { IsSameChange self.old self.new }
        ensures made { IsMade self.new spares.new }
    {
        let end = self.follow(spares, told);
        self.make(spares);
        end
    }

    /// Makes the record that is to be placed next, where the plan hasn't it as such.
    fn make(&mut self, spares: &Spares)
        ensures made { IsMade self.new spares.now }
        ensures same { IsSameChange self.old self.new }
        ensures state { self.new.state ≡ self.old.state }
    {
        if let Plan::Install { .. } = self.plan() {
            return;
        }
        if let State::Base | State::Place = self.state {
            self.make_now(spares);
        }
    }

    /// Makes the record that is to be placed next.
    #[inline(never)]
    fn make_now(&mut self, spares: &Spares)
        ensures made { IsMade self.new spares.now }
        ensures same { IsSameChange self.old self.new }
        ensures state { self.new.state ≡ self.old.state }
    {
        self.made = made_for(self.plan(), self.state, spares);
    }

    /// Goes to the state that follows.
    fn follow(&mut self, spares: &mut Spares, told: Told) -> Option<End>
        requires sound { IsSoundChange self.old spares.old }
        requires told { FitsChange self.old spares.old (answer_of told) }
        ensures moved { next_move self.old.limits self.old.plan spares.old self.old.near self.old.state (answer_of told) ≡
            record { state = self.new.state; spares = spares.new; end = result } }
        ensures same { IsSameChange self.old self.new }
    {
        match self.state {
            State::Taking(taking) => self.go_on_taking(spares, taking, told),
            State::Base => self.go(State::Ready),
            State::Ready => {
                let state = after_ready(self.plan());
                self.go(state)
            }
            State::Place => self.go(State::Link),
            State::Link => self.decide(spares, went(told)),
            State::Undo => Some(End::Lost),
            State::Clear => Some(End::Won),
        }
    }

    /// Goes on with a taking; what was taken is a spare.
    fn go_on_taking(&mut self, spares: &mut Spares, taking: Taking, told: Told) -> Option<End>
        requires state { self.old.state ≡ State.Taking taking }
        requires sound { IsSoundChange self.old spares.old }
        requires told { FitsChange self.old spares.old (answer_of told) }
        ensures near { self.new.near ≡ near_after self.old.near taking (answer_of told) }
        ensures moved { moved_by self.old.limits self.old.plan spares.old self.new.near self.old.state (found_after self.old.limits taking (answer_of told)) ≡
            record { state = self.new.state; spares = spares.new; end = result } }
        ensures same { IsSameChange self.old self.new }
    {
        self.near = near_after(self.near, taking, told);
        match taking.next(&self.limits, told) {
            Found::Not(taking) => self.go(State::Taking(taking)),
            Found::Taken { kind, number } => {
                spares.keep(kind, number);
                let state = first_state(&self.limits, self.plan(), spares, self.near);
                self.go(state)
            }
            Found::Full(kind) => Some(End::Full(kind)),
        }
    }

    /// Goes to a state.
    fn go(&mut self, state: State) -> Option<End>
        ensures moved { self.new ≡ at self.old state }
        ensures on { result ≡ None }
    {
        self.state = state;
        None
    }

    /// The exchange that decides was answered: what is linked is spare no more, and a page whose term is out is cleared; a new page
    /// that is not linked is emptied again.
    fn decide(&mut self, spares: &mut Spares, won: bool) -> Option<End>
        requires state { self.old.state ≡ State.Link }
        ensures decided { decided_by self.old.plan spares.old won ≡ record { state = self.new.state; spares = spares.new; end = result } }
        ensures same { IsSameChange self.old self.new }
    {
        if won {
            spares.release(self.plan());
            if self.plan().clears() {
                return self.go(State::Clear);
            }
            return Some(End::Won);
        }
        if self.plan().needs_pid() {
            return self.go(State::Undo);
        }
        Some(End::Lost)
    }

    /// The row of the new page's base.
    fn base_row(&self, spares: &Spares) -> u32
        ensures { result ≡ base_row self.now.limits self.now.plan spares.now }
    {
        match self.plan() {
            Plan::Split { .. } => split_base_row(self.limits.is_large, spares),
            Plan::Install { .. } | Plan::Root { .. } | Plan::Unlink { .. } => spares.last_row(),
        }
    }

    /// The row of the record that comes over a page's newest row.
    fn record_row(&self, spares: &Spares) -> u32
        ensures { result ≡ record_row self.now.limits self.now.plan spares.now }
    {
        match self.plan() {
            Plan::Split { .. } => split_row(self.limits.is_large, spares),
            Plan::Install { .. } | Plan::Root { .. } | Plan::Unlink { .. } => spares.last_row(),
        }
    }

    /// What comes into the slot whose exchange decides.
    fn linked_number(&self, spares: &Spares) -> u32
        ensures { result ≡ linked_number self.now.limits self.now.plan spares.now }
    {
        match self.plan() {
            Plan::Install { .. } | Plan::Unlink { .. } => spares.last_row(),
            Plan::Split { .. } => split_row(self.limits.is_large, spares),
            Plan::Root { .. } => spares.pid_or_0(),
        }
    }
}

/// The row of a split's base: in a large tree the wider one of two.
fn split_base_row(is_large: bool, spares: &Spares) -> u32
    ensures { result ≡ split_base_row is_large spares.now }
{
    if is_large {
        spares.last_row()
    } else {
        spares.second_row()
    }
}

/// The row of a split's record.
fn split_row(is_large: bool, spares: &Spares) -> u32
    ensures { result ≡ split_row is_large spares.now }
{
    if is_large {
        spares.second_row()
    } else {
        spares.last_row()
    }
}

/// The record that is to be placed in a state, where the plan hasn't it as such.
fn made_for(plan: &Plan, state: State, spares: &Spares) -> Record
    ensures { IsMadeAt plan.now result spares.now state }
{
    match plan {
        Plan::Install { .. } => nothing(),
        Plan::Split { .. } | Plan::Root { .. } | Plan::Unlink { .. } => match state {
            State::Base => plan.base(),
            State::Place => plan.record(spares.pid_or_0()),
            _ => nothing(),
        },
    }
}

/// A record where none is needed.
fn nothing() -> Record {
    Record::Remove(Remove { level: 0, next: 0 })
}

/// What follows once the new page's slot is set.
fn after_ready(plan: &Plan) -> State
    ensures { result ≡ after_ready plan.now }
{
    match plan {
        Plan::Install { .. } | Plan::Split { .. } | Plan::Unlink { .. } => State::Place,
        Plan::Root { .. } => State::Link,
    }
}

/// Where a change goes on with these spares, and takings by this count.
fn first_state(limits: &Limits, plan: &Plan, spares: &Spares, near: u32) -> State
    ensures { result ≡ first_state limits.now plan.now spares.now near }
{
    if plan.needs_pid() && spares.pid().is_none() {
        return State::Taking(Taking::begin(limits, Kind::Pid, 0, near));
    }
    if !has_rows(limits, plan, spares) {
        let from = wanted_from(limits, plan, spares) / 64;
        return State::Taking(Taking::begin(limits, Kind::Row, from as u32, near));
    }
    match plan {
        Plan::Install { .. } | Plan::Unlink { .. } => State::Place,
        Plan::Split { .. } | Plan::Root { .. } => State::Base,
    }
}
