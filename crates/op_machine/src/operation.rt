//! One operation as a machine that stays in its place, apart from the memory: it is told an answer, and then wants one step.
ghost use Rattle.std.specs.Prelude.{◌≡◌, ◌<◌, ◌≤◌, ◌^◌, [], IfOk, IsSome, None, Some, false, is_some, length, true};
ghost use Rattle.bw_model.specs.Answers.{answer_of};
ghost use Rattle.bw_model.specs.Lent.{step_of_loan};
ghost use Rattle.bw_model.specs.declared.step.Answer.{Answer as AnswerOf};
ghost use Rattle.bw_model.specs.declared.step.Answer.TheVariants.{Content, Start};
ghost use Rattle.bw_model.specs.declared.step.Step.TheVariants.{Row};
ghost use Rattle.traces.specs.discipline.Knowledge.{Knowledge, after_begin};
ghost use Rattle.traces.specs.discipline.Recalled.{Recalled, blank, cause_worth};
ghost use Rattle.deltas.specs.declared.record.Record.{Record as RecordOf};
ghost use Rattle.change_machine.specs.Changes.{EndsByDeciding};
ghost use Rattle.change_machine.specs.Spares.{Spares as SparesSeen};
ghost use Rattle.op_parts.specs.Hands.{Hand as HandSeen};
ghost use Rattle.op_machine.specs.machine.InPlace.{IsOpShown, Takes, Wants};
ghost use Rattle.op_machine.specs.machine.Ops.{EndsAtLeave, IsAtRestWith, IsToldOp, IsToldOpThere, Obeys, Shows, wanted_of};
ghost use Rattle.op_machine.specs.machine.Outcomes.{change_out, has_machine, is_changing, is_leaving, is_reading, is_writing, lacks_at};
ghost use Rattle.op_machine.specs.machine.Places.{ended_with, state_of};
ghost use Rattle.op_machine.specs.machine.Shows.{FitsLast, ShowsState, learn_last, wanted_at};
ghost use Rattle.op_machine.specs.machine.Spending.{steps_left};
ghost use Rattle.op_machine.specs.machine.Sweeping.{HasFewer, IsSameWork, IsToldSweep, MovesSweep};
ghost use Rattle.op_machine.specs.machine.Tasks.{Task as TaskSeen};
ghost use Rattle.op_machine.specs.machine.Works.{AsksOn, IsToldChange, IsToldOn, IsToldOnThere, IsToldWith, KeepsLimbo, TurnsInto, asked_of};
ghost use Rattle.op_machine.specs.machine.Wants as Want;
ghost use Rattle.op_machine.specs.machine.States as State;
ghost use Rattle.sweep.specs.Kept.{AreKept};

use crate::places::{Places, StateKind};
use crate::task::Task;
use bw_model::{Command, Key, Limits, Reply, Step, Told};
use change_machine::{End, Kind, Spares};
use deltas::Record;
use epochs::Limbo;
use op_parts::{Hand, sweeping};
use row_search::{RowAt, Rows};
use std::alloc::{AllocError, Allocator, Global};
use std::marker::Model;
use sweep::{Sweep, limbos_are_kept};

/// An operation that is under way, or the room for the next one: what it was asked, the sweep with which a writer begins, and the
/// places of what comes after that.
pub struct Operation<R: Rows, A: Allocator = Global> {
    task: Task,
    sweep: Option<Sweep>,
    places: Places<R, A>,
}

impl<R: Rows, A: Allocator> Drop for Operation<R, A> {
    fn drop(self) {
        let Operation {
            task: _,
            sweep: _,
            places: _,
        } = self;
    }
}

impl<R: Rows, A: Allocator> Model for Operation<R, A> {
    ghost use Rattle.op_machine.specs.machine.Ops.{Op};
    ghost use Rattle.op_machine.specs.machine.Places.{HaveLimits, state_of};

    ghost Value = { Op };

    ghost view = { λ o. record { task = o.task; sweep = o.sweep; state = state_of o.places } };

    ghost invariant = { λ o. HaveLimits o.task.limits o.places };
}

impl<R: Rows, A: Allocator + Copy> Operation<R, A> {
    /// The room for operations on a tree of these limits. Takes the memory for the pages of both rounds, and is refused for want of it
    /// alone. No later call takes memory.
    pub fn new(alloc: A, limits: &Limits) -> Result<Operation<R, A>, AllocError>
        ensures { IfOk result (λ operation. operation.task.limits ≡ limits.now) }
    {
        Ok(Operation {
            task: Task::new(Command::Get(Key::default()), 0, limits),
            sweep: None,
            places: Places::<R, A>::new(alloc, limits)?,
        })
    }
}

impl<R: Rows, A: Allocator> Operation<R, A> {
    /// An operation of an actor begins on a tree of these limits, in the place of the one that was there before; its first step isn't
    /// wanted yet.
    pub fn begin(&mut self, command: Command, actor: u8, limits: &Limits)
        requires { actor < limits.now.actors }
        ensures shows { (k : Knowledge) (hand : HandSeen) → IsAtRestWith limits.now actor hand k → Shows self.new hand (after_begin k command) blank }
        ensures task { self.new.task ≡ record { limits = limits.now; actor = actor; command = command; errands = [] } }
        ensures sweep { self.new.sweep ≡ None }
        ensures state { self.new.state ≡ State.Begun }
        ensures few { (r : Recalled) (hand : HandSeen) → steps_left r self.new hand < cause_worth limits.now }
    {
        self.task.begin(command, actor, limits);
        self.sweep = None;
        self.places.reset(limits);
    }

    /// What the operation was asked.
    pub fn command(&self) -> &Command
        ensures { result.now ≡ self.now.task.command }
    {
        self.task.command()
    }

    /// The separators of splits that it has linked and is still to visit, the newest last: 16 at most.
    pub fn errands(&self) -> &[Key]
        ensures keys { result.now ≡ self.now.task.errands }
        ensures few { length self.now.task.errands ≤ 16 }
    {
        self.task.errands()
    }

    /// The step that the operation wants, with the record that is to be placed lent from where it lies. Inlined with what it calls: an actor calls
    /// it after each step for its contract alone, and a compiler drops that call.
    #[inline(always)]
    pub fn wanted(&self, hand: &Hand<A>) -> Step<&Record>
        requires shown { IsOpShown self.now hand.now }
        requires asks { IsSome (wanted_of self.now hand.now) }
        ensures { Wants self.now hand.now (step_of_loan result) }
    {
        match &self.sweep {
            Some(sweep) => sweeping(sweep),
            None => self.places.wanted(&hand.spares),
        }
    }

    /// Tells the reply of an operation that has left, in its place.
    #[inline]
    pub fn leave(&self, reply: &mut Reply)
        requires leaving { is_leaving self.now.state ≡ true }
        ensures reply { self.now.state ≡ State.Leave reply.new (lacks_at self.now.state) }
        ensures obeys { (hand : HandSeen) (told : AnswerOf RecordOf) → Obeys self.now hand told self.now hand (Want.Done reply.new) }
        ensures ends { (hand : HandSeen) (told : AnswerOf RecordOf) → IsToldOp self.now hand told → EndsAtLeave self.now hand (Want.Done reply.new) }
    {
        self.places.tell_reply(reply);
    }

    /// The kind that ran out, where it has left with `Full`.
    pub fn lacks(&self) -> Option<Kind>
        ensures { result ≡ lacks_at self.now.state }
    {
        self.places.lacks()
    }

    /// Takes the answer to the step that it wanted, which isn't the leave, and reads no row, or `Start`. Inlined, and a reader's round first: each
    /// number that a lookup reads comes through here.
    #[inline(always)]
    pub fn go_on(&mut self, hand: &mut Hand<A>, told: Told)
        requires told { IsToldOp self.old hand.old (answer_of told) }
        requires stays { is_leaving self.old.state ≡ false }
        ensures { Takes self.old hand.old (answer_of told) self.new hand.new }
    {
        if self.places.is_reading() {
            limbos_are_kept();
            return self.read_number(&hand.spares, told);
        }
        if self.places.has_begun() {
            return self.work_on(hand, told);
        }
        if self.task.command().is_writer() {
            return self.sweep_first(hand, told);
        }
        self.ask_epoch();
    }

    /// Takes the record that it wanted to read.
    pub fn take_record(&mut self, hand: &mut Hand<A>, found: RowAt<R>, rows: &R, pass: &mut R::Pass)
        requires asked { wanted_of self.old hand.old ≡ Some (Row found.row) }
        requires told { IsToldOpThere (R.has rows.now pass.old) self.old hand.old (Content found.content) }
        ensures takes { Takes self.old hand.old (Content found.content) self.new hand.new }
        ensures same { pass.new ≡ pass.old }
    {
        limbos_are_kept();
        self.round_record(&hand.spares, found, rows, pass);
    }

    /// The first step of its work: asks for the epoch.
    #[inline(always)]
    fn ask_epoch(&mut self)
        requires first { self.old.state ≡ State.Begun }
        ensures { (spares : SparesSeen) → AsksOn self.old spares Start self.new spares }
    {
        self.places.go_to(StateKind::Epoch);
    }

    /// A writer takes an answer before the first step of its work, which comes after its sweep.
    #[inline(never)]
    fn sweep_first(&mut self, hand: &mut Hand<A>, told: Told)
        requires told { IsToldOp self.old hand.old (answer_of told) }
        requires first { self.old.state ≡ State.Begun }
        ensures { Takes self.old hand.old (answer_of told) self.new hand.new }
    {
        if self.sweep_on(&mut hand.limbo, told) {
            return;
        }
        self.work_on(hand, Told::Start);
    }

    /// Begins the sweep of a writer, or goes on with it, and tells whether it is under way: before anything else a writer frees what it
    /// may of its limbo.
    fn sweep_on(&mut self, limbo: &mut Limbo<A>, told: Told) -> bool
        requires told { IsToldSweep self.old limbo.old (answer_of told) }
        requires first { self.old.state ≡ State.Begun }
        ensures shows { MovesSweep self.old limbo.old (answer_of told) self.new limbo.new }
        ensures few { HasFewer self.old self.new }
        ensures same { IsSameWork self.old self.new }
        ensures on { result ≡ is_some self.new.sweep }
    {
        let Some(sweep) = &mut self.sweep else {
            self.sweep = self.task.sweep(limbo);
            return self.sweep.is_some();
        };
        if sweep.next(limbo, told) {
            return true;
        }
        self.sweep = None;
        false
    }

    /// Takes the answer once the sweep is over, and comes to where the operation asks for its next step.
    #[inline(always)]
    fn work_on(&mut self, hand: &mut Hand<A>, told: Told)
        requires told { IsToldWith self.old hand.old (answer_of told) }
        requires stays { is_leaving self.old.state ≡ false }
        ensures asks { AsksOn self.old hand.old.spares (answer_of told) self.new hand.new.spares }
        ensures keeps { KeepsLimbo self.old hand.old (answer_of told) hand.new }
    {
        limbos_are_kept();
        if self.places.is_changing() {
            return self.change_on(hand, told);
        }
        self.move_on(&hand.spares, told);
    }

    /// Takes the answer where a change is under way. What the change has taken out of the tree comes into limbo.
    #[inline(never)]
    fn change_on(&mut self, hand: &mut Hand<A>, told: Told)
        requires told { IsToldWith self.old hand.old (answer_of told) }
        requires changing { is_changing self.old.state ≡ true }
        ensures asks { AsksOn self.old hand.old.spares (answer_of told) self.new hand.new.spares }
        ensures keeps { KeepsLimbo self.old hand.old (answer_of told) hand.new }
    {
        if let Some(end) = ended(&mut self.places, hand, told) {
            self.task.end_changing(end, &mut self.places);
        }
    }

    /// Takes the answer where no change is under way. Inlined: each number that a lookup reads comes through here.
    #[inline(always)]
    fn move_on(&mut self, spares: &Spares, told: Told)
        requires told { IsToldOn self.old spares.now (answer_of told) }
        requires still { is_changing self.old.state ≡ false }
        requires stays { is_leaving self.old.state ≡ false }
        ensures { AsksOn self.old spares.now (answer_of told) self.new spares.now }
    {
        match self.places.stand() {
            StateKind::Read => self.read_number(spares, told),
            StateKind::Write => self.write_number(spares, told),
            _ => self.turn(spares, told),
        }
    }

    /// From a state without a machine the operation goes to another one. Inlined: each operation comes here twice.
    #[inline(always)]
    fn turn(&mut self, spares: &Spares, told: Told)
        requires told { IsToldOn self.old spares.now (answer_of told) }
        requires alone { has_machine self.old.state ≡ false }
        requires stays { is_leaving self.old.state ≡ false }
        ensures { AsksOn self.old spares.now (answer_of told) self.new spares.now }
    {
        match self.places.stand() {
            StateKind::Begun => self.places.go_to(StateKind::Epoch),
            StateKind::Epoch => self.places.go_to(StateKind::Enter {
                epoch: told.number(),
            }),
            StateKind::Enter { .. } => self.task.begin_round(&mut self.places),
            _ => unreachable!(),
        }
    }

    /// The round that is under way takes a record.
    fn round_record(&mut self, spares: &Spares, found: RowAt<R>, rows: &R, pass: &mut R::Pass)
        requires asked { asked_of self.old spares.now ≡ Some (Row found.row) }
        requires told { IsToldOnThere (R.has rows.now pass.old) self.old spares.now (Content found.content) }
        ensures asks { AsksOn self.old spares.now (Content found.content) self.new spares.now }
        ensures same { pass.new ≡ pass.old }
    {
        match self.places.stand() {
            StateKind::Read => self.read_record(spares, found, rows, pass),
            StateKind::Write => self.write_record(spares, found, rows, pass),
            _ => unreachable!(),
        }
    }

    /// A reader's round takes a number. Inlined: a lookup comes here for each page.
    #[inline(always)]
    fn read_number(&mut self, spares: &Spares, told: Told)
        requires told { IsToldOn self.old spares.now (answer_of told) }
        requires reading { is_reading self.old.state ≡ true }
        ensures { AsksOn self.old spares.now (answer_of told) self.new spares.now }
    {
        if self.places.read_number(told.number()) {
            self.task.begin_round(&mut self.places);
        }
    }

    /// A reader's round takes a record.
    fn read_record(&mut self, spares: &Spares, found: RowAt<R>, rows: &R, pass: &mut R::Pass)
        requires asked { asked_of self.old spares.now ≡ Some (Row found.row) }
        requires told { IsToldOnThere (R.has rows.now pass.old) self.old spares.now (Content found.content) }
        requires reading { is_reading self.old.state ≡ true }
        ensures asks { AsksOn self.old spares.now (Content found.content) self.new spares.now }
        ensures same { pass.new ≡ pass.old }
    {
        if let Some(ended) = self.places.read_record(found, rows, pass) {
            self.task.end_reading(ended, &mut self.places, rows, pass);
        }
    }

    /// A writer's round takes a number. Not inlined: a lookup doesn't come here.
    #[inline(never)]
    fn write_number(&mut self, spares: &Spares, told: Told)
        requires told { IsToldOn self.old spares.now (answer_of told) }
        requires writing { is_writing self.old.state ≡ true }
        ensures { AsksOn self.old spares.now (answer_of told) self.new spares.now }
    {
        if self.places.write_number(told.number()) {
            self.task.begin_round(&mut self.places);
        }
    }

    /// A writer's round takes a record.
    fn write_record(&mut self, spares: &Spares, found: RowAt<R>, rows: &R, pass: &mut R::Pass)
        requires asked { asked_of self.old spares.now ≡ Some (Row found.row) }
        requires told { IsToldOnThere (R.has rows.now pass.old) self.old spares.now (Content found.content) }
        requires writing { is_writing self.old.state ≡ true }
        ensures asks { AsksOn self.old spares.now (Content found.content) self.new spares.now }
        ensures same { pass.new ≡ pass.old }
    {
        if found.next(rows, pass).is_some() {
            return self.places.write_on(found, rows, pass);
        }
        self.write_last_record(spares, found, rows, pass);
    }

    /// A writer's round takes the last record of a page.
    #[inline(never)]
    fn write_last_record(&mut self, spares: &Spares, found: RowAt<R>, rows: &R, pass: &mut R::Pass)
        requires asked { asked_of self.old spares.now ≡ Some (Row found.row) }
        requires told { IsToldOnThere (R.has rows.now pass.old) self.old spares.now (Content found.content) }
        requires writing { is_writing self.old.state ≡ true }
        ensures asks { AsksOn self.old spares.now (Content found.content) self.new spares.now }
        ensures same { pass.new ≡ pass.old }
    {
        if let Some(ended) = self.places.write_record(found, rows, pass) {
            self.task
                .end_writing(spares, ended, &mut self.places, rows, pass);
        }
    }
}

/// How a change has ended, once it has. What it has taken out of the tree comes into limbo.
fn ended<R: Rows, A: Allocator>(
    places: &mut Places<R, A>,
    hand: &mut Hand<A>,
    told: Told,
) -> Option<End>
    requires told { IsToldChange (state_of places.old) hand.old (answer_of told) }
    requires changing { places.old.stand ≡ StateKind.Change }
    ensures makes { TurnsInto (state_of places.old) hand.old.spares (answer_of told) (state_of places.new) hand.new.spares (change_out (ended_with places.old.then result)) }
    ensures keeps { (task : TaskSeen) (k : Knowledge) (r : Recalled) → ShowsState task hand.old.spares k r (state_of places.old)
        → FitsLast task.limits k (wanted_at hand.old.spares (state_of places.old)) (answer_of told) → AreKept task.limits task.actor hand.old.limbo k.limbo
        → AreKept task.limits task.actor hand.new.limbo (learn_last k (wanted_at hand.old.spares (state_of places.old)) (answer_of told)).limbo }
    ensures only { places.new ≡ record places.old { change = places.new.change } }
    ensures plan { places.new.change.plan ≡ places.old.change.plan }
    ensures decides { EndsByDeciding places.old.change.state places.new.change.state result }
{
    match places.change_next(&mut hand.spares, told) {
        None => None,
        Some(end) => {
            hand.unlink(end, places.then());
            Some(end)
        }
    }
}
