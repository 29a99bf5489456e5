//! The places of an operation: what is under way stands in one of them, and what isn't lies there until it is needed again.
ghost use Rattle.std.specs.Prelude.{◌≡◌, ◌<◌, ◌≤◌, ◌+◌, ℕ, List, IfOk, IsSome, None, Some, true};
ghost use Rattle.std.specs.Option.{option_map};
ghost use Rattle.bw_model.specs.Answers.{answer_of};
ghost use Rattle.bw_model.specs.Lent.{step_of_loan};
ghost use Rattle.bw_model.specs.declared.command.Reply.TheVariants as Reply;
ghost use Rattle.bw_model.specs.declared.step.Answer.TheVariants.{Content, Number};
ghost use Rattle.bw_model.specs.declared.step.Step.TheVariants.{Row};
ghost use Rattle.traces.specs.discipline.Knowledge.{Knowledge};
ghost use Rattle.traces.specs.discipline.Recalled.{Recalled};
ghost use Rattle.row_chain.specs.Placed.{IsReadChain};
ghost use Rattle.round_model.specs.Courses as course;
ghost use Rattle.round_model.specs.Machines.{IsTold, IsToldThere};
ghost use Rattle.round_model.specs.ReadLegs.{Down};
ghost use Rattle.round_model.specs.ReadRounds as read;
ghost use Rattle.round_model.specs.Rounds.{machine};
ghost use Rattle.round_model.specs.Visits.{reads_on};
ghost use Rattle.round_model.specs.WriteResponses as response;
ghost use Rattle.round_model.specs.Descents.{Root};
ghost use Rattle.round_model.specs.ReadGoals as goal;
ghost use Rattle.change_machine.specs.Changes.{IsSpellablePlan, IsTarget};
ghost use Rattle.change_machine.specs.Spares.{HaveRoom};
ghost use Rattle.change_machine.specs.Changes.{EndsByDeciding};
ghost use Rattle.op_machine.specs.machine.Begun.{HasBegunPlan};
ghost use Rattle.op_parts.specs.declared.then.Then.TheVariants as and_then;
ghost use Rattle.structure_changes.specs.declared.after.After.TheVariants as after;
ghost use Rattle.structure_changes.specs.Plans.{over};
ghost use Rattle.op_machine.specs.machine.Outcomes.{IsToldAt, UnlinksAfter, change_out, has_begun, is_changing, is_reading, lacks_at};
ghost use Rattle.op_machine.specs.machine.Places.{HaveLimits, ReadsOn, WritesOn, ended_with, leaf_read, left_round_of, state_of};
ghost use Rattle.op_machine.specs.machine.Shows.{FitsLast, MayStep, ShowsState, learn_last, wanted_at};
ghost use Rattle.op_parts.specs.ShortReplies.{ShowsChain};
ghost use Rattle.op_machine.specs.machine.Tasks.{Task as TaskSeen};
ghost use Rattle.op_machine.specs.machine.Works.{TurnsInto};
ghost use Rattle.round_model.specs.WriteRounds as write;
ghost use Rattle.rounds.specs.Descents.{asked_step};
ghost use Rattle.rounds.specs.ReadRounds as reads;
ghost use Rattle.rounds.specs.WriteRounds as writes;
ghost use Rattle.rounds.specs.WriteRounds.{write_again_if};
ghost use Rattle.structure_changes.specs.Reads.{IsReadPage, chain_of};

use crate::task::Task;
use base_page::Direction;
use bw_model::{Key, Limits, Reply, Step, Told};
use change_machine::{Change, End, Kind, Spares};
use deltas::Record;
use op_parts::{ReplyPlace, ShortReply, Then, Which};
use rounds::{Asked, ReadEndKind, ReadRound, WriteEndKind, WriteRound};
use row_search::{RowAt, Rows};
use std::alloc::{AllocError, Allocator, Global};
use std::marker::Model;
use structure_changes::{After, PageInHand, Plan, UpdateRecord};

/// Which state an operation is in. Its round, its change or its reply lies in a place of its own; each other state is named by the
/// step that it has asked for.
#[derive(Clone, Copy)]
pub(crate) enum StateKind {
    Begun,
    Epoch,
    Enter { epoch: u64 },
    Read,
    Write,
    Change,
    Leave,
}

/// The places of an operation's rounds and of its change, what comes after the change, and the reply, with the kind that ran out
/// where it is `Full`.
pub(crate) struct Places<R: Rows, A: Allocator = Global> {
    stand: StateKind,
    reader: ReadRound<R, A>,
    writer: WriteRound<R, A>,
    change: Change<A>,
    due: Box<Plan, A>,
    then: Then,
    reply: ReplyPlace,
    lacks: Option<Kind>,
}

impl<R: Rows, A: Allocator> Drop for Places<R, A> {
    fn drop(self) {
        let Places {
            stand: _,
            reader: _,
            writer: _,
            change: _,
            due: _,
            then: _,
            reply: _,
            lacks: _,
        } = self;
    }
}

impl<R: Rows, A: Allocator> Model for Places<R, A> {
    ghost use Rattle.op_machine.specs.machine.Places.{OpPlaces};

    ghost Value = { OpPlaces };

    ghost view = { λ p. record { stand = p.stand; reader = p.reader; writer = p.writer; change = p.change; then = p.then; reply = p.reply; lacks = p.lacks } };
}

impl<R: Rows, A: Allocator + Copy> Places<R, A> {
    /// Places in which nothing was done yet. Takes the memory for the records of both rounds and for three plans, 12 KB, and is refused
    /// for want of it alone. No later call takes memory.
    pub(crate) fn new(alloc: A, limits: &Limits) -> Result<Places<R, A>, AllocError>
        ensures reader { IfOk result (λ places. places.reader.round.limits ≡ limits.now) }
        ensures writer { IfOk result (λ places. places.writer.round.limits ≡ limits.now) }
    {
        Ok(Places {
            stand: StateKind::Begun,
            reader: ReadRound::<R, A>::new(alloc, limits)?,
            writer: WriteRound::<R, A>::new(alloc, limits)?,
            change: Change::<A>::new(alloc, limits)?,
            due: Box::new(alloc, Plan::default())?,
            then: Then::After(After::Round),
            reply: ReplyPlace::new(),
            lacks: None,
        })
    }
}

impl<R: Rows, A: Allocator> Places<R, A> {
    /// The place of the reader's round.
    pub(crate) fn reader(&self) -> &ReadRound<R, A>
        ensures { result.now ≡ self.now.reader }
    {
        &self.reader
    }

    /// The place of the writer's round.
    pub(crate) fn writer(&self) -> &WriteRound<R, A>
        ensures { result.now ≡ self.now.writer }
    {
        &self.writer
    }

    /// Where the operation stands.
    pub(crate) fn stand(&self) -> StateKind
        ensures { result ≡ self.now.stand }
    {
        self.stand
    }

    /// Whether the first step of the work was asked for.
    pub(crate) fn has_begun(&self) -> bool
        ensures { result ≡ has_begun (state_of self.now) }
    {
        !matches!(self.stand, StateKind::Begun)
    }

    /// Whether a reader's round is under way.
    pub(crate) fn is_reading(&self) -> bool
        ensures { result ≡ is_reading (state_of self.now) }
    {
        matches!(self.stand, StateKind::Read)
    }

    /// Whether a change is under way.
    pub(crate) fn is_changing(&self) -> bool
        ensures { result ≡ is_changing (state_of self.now) }
    {
        matches!(self.stand, StateKind::Change)
    }

    /// Nothing was done yet, on a tree of these limits.
    pub(crate) fn reset(&mut self, limits: &Limits)
        ensures begun { self.new.stand ≡ StateKind.Begun }
        ensures have { HaveLimits limits.now self.new }
    {
        self.stand = StateKind::Begun;
        self.reader.reset(limits);
        self.writer.reset(limits);
    }

    /// Goes to a state without a place.
    pub(crate) fn go_to(&mut self, stand: StateKind)
        ensures { self.new ≡ record self.old { stand = stand } }
    {
        self.stand = stand;
    }

    /// A reader's round to the leaf of the key begins.
    pub(crate) fn read(&mut self, key: &Key)
        ensures { self.new ≡ record self.old {
          stand = StateKind.Read;
          reader = record self.old.reader { round = record { limits = self.old.reader.round.limits; key = key.now; goal = goal.Seek; leg = Down None; state = Root } };
        } }
    {
        self.reader.restart(key);
        self.stand = StateKind::Read;
    }

    /// A reader's round begins that goes to the left of the page in its hand first.
    #[inline(never)]
    pub(crate) fn read_left(&mut self)
        ensures stand { self.new.stand ≡ StateKind.Read }
        ensures round { self.new.reader.round ≡ record self.old.reader.round { goal = goal.Left self.old.reader.page; leg = Down None; state = Root } }
        ensures writer { self.new.writer ≡ self.old.writer }
    {
        self.reader.go_left();
        self.stand = StateKind::Read;
    }

    /// A writer's round to the leaf of the key begins.
    pub(crate) fn write(&mut self, key: &Key, due: usize, tends: bool, splits: bool)
        requires due { 0 < due }
        ensures { self.new ≡ record self.old {
          stand = StateKind.Write;
          writer = record self.old.writer {
            round = record {
              limits = self.old.writer.round.limits;
              key = key.now;
              due = due;
              tends = tends;
              splits = splits;
              floor = 0;
              goal = course.Seek;
              parent = None;
              left = None;
              state = Root;
            };
          };
        } }
    {
        self.writer.restart(key, due, tends, splits);
        self.stand = StateKind::Write;
    }

    /// A writer's round to the left of the page in its hand begins, which is removed.
    #[inline(never)]
    pub(crate) fn write_left(&mut self, rows: &R, pass: &mut R::Pass)
        requires read { IsReadPage (R.has rows.now pass.old) self.old.writer.page }
        ensures goes { self.new ≡ record self.old { stand = StateKind.Write; writer = record self.old.writer { round = left_round_of self.old.writer } } }
        ensures same { pass.new ≡ pass.old }
    {
        let removed = self.writer.page();
        removed.chain().was_read(rows, pass);
        let (pid, low, level) = (
            removed.pid(),
            removed.chain().low(rows, pass),
            removed.chain().level(),
        );
        self.writer.restart_left(&low, pid, level);
        self.stand = StateKind::Write;
    }

    /// The operation is to leave with the reply, which isn't `Full`.
    pub(crate) fn leave(&mut self, reply: ShortReply)
        ensures { self.new ≡ record self.old { stand = StateKind.Leave; reply = reply; lacks = None } }
    {
        self.reply.put(reply);
        self.lacks = None;
        self.stand = StateKind::Leave;
    }

    /// The leaf in the hand of the reader's round, or the removed one beside it.
    pub(crate) fn leaf_read(&self, is_beside: bool) -> &PageInHand<R, A>
        ensures { result.now ≡ leaf_read is_beside self.now.reader }
    {
        leaf_of(&self.reader, is_beside)
    }

    /// The operation is to leave with the pairs of the leaf that was read, from a key on or up to it, and where the next page goes on.
    pub(crate) fn leave_with_page(
        &mut self,
        is_beside: bool,
        direction: Direction,
        bound: &Key,
        rows: &R,
        pass: &mut R::Pass,
    )
        requires read { IsReadChain (R.has rows.now pass.old) (chain_of (leaf_read is_beside self.old.reader)) }
        ensures looks { pass.new ≡ pass.old }
        ensures leaves { self.new ≡ record self.old { stand = StateKind.Leave; reply = self.new.reply; lacks = None } }
        ensures page { ShowsChain (leaf_read is_beside self.old.reader).chain direction bound.now self.new.reply }
    {
        let leaf = leaf_of(&self.reader, is_beside).chain();
        self.reply.put_page(leaf, direction, bound, rows, pass);
        self.lacks = None;
        self.stand = StateKind::Leave;
    }

    /// The operation is to leave with `Full`, since nothing of the kind is free.
    pub(crate) fn give_up(&mut self, kind: Kind)
        ensures { self.new ≡ record self.old { stand = StateKind.Leave; reply = Reply.Full; lacks = Some kind } }
    {
        self.reply.put(ShortReply::bare(Which::Full));
        self.lacks = Some(kind);
        self.stand = StateKind::Leave;
    }

    /// The change begins that is due where the writer's round has ended with one. It leaves its place for the one of the last such.
    #[inline(never)]
    pub(crate) fn begin_due(&mut self, task: &Task, spares: &Spares)
        requires target { IsTarget task.now.limits self.old.writer.plan }
        requires spells { IsSpellablePlan self.old.writer.plan }
        requires room { HaveRoom task.now.limits spares.now }
        ensures begun { HasBegunPlan task.now spares.now self.old.writer.plan (and_then.After self.old.writer.after) (state_of self.new) }
        ensures reader { self.new.reader ≡ self.old.reader }
        ensures writer { self.new.writer.round ≡ self.old.writer.round }
    {
        let after = self.writer.take_due(&mut self.due);
        self.change.begin(task.limits(), spares, &mut self.due);
        self.then = Then::After(after);
        self.stand = StateKind::Change;
    }

    /// A change begins that is made at the leaf before the command is executed there; what comes once it has won.
    #[inline(never)]
    pub(crate) fn begin_planned(&mut self, task: &Task, spares: &Spares, plan: Plan, after: After)
        requires target { IsTarget task.now.limits plan }
        requires spells { IsSpellablePlan plan }
        requires room { HaveRoom task.now.limits spares.now }
        ensures begun { HasBegunPlan task.now spares.now plan (and_then.After after) (state_of self.new) }
        ensures reader { self.new.reader ≡ self.old.reader }
        ensures writer { self.new.writer ≡ self.old.writer }
    {
        *self.due = plan;
        self.change.begin(task.limits(), spares, &mut self.due);
        self.then = Then::After(after);
        self.stand = StateKind::Change;
    }

    /// A change begins that links an update's record over the leaf in the hand of the writer's round.
    pub(crate) fn begin_update(
        &mut self,
        task: &Task,
        spares: &Spares,
        update: &UpdateRecord,
        reply: ShortReply,
    )
        requires target { IsTarget task.now.limits (over self.old.writer.page update.now) }
        requires spells { IsSpellablePlan (over self.old.writer.page update.now) }
        requires room { HaveRoom task.now.limits spares.now }
        ensures begun { HasBegunPlan task.now spares.now (over self.old.writer.page update.now) (and_then.Reply reply) (state_of self.new) }
        ensures reader { self.new.reader ≡ self.old.reader }
        ensures writer { self.new.writer ≡ self.old.writer }
    {
        let leaf = self.writer.page();
        let (pid, head) = (leaf.pid(), leaf.head());
        self.change
            .begin_update(task.limits(), spares, pid, head, update);
        self.then = Then::Reply(reply);
        self.stand = StateKind::Change;
    }

    /// The step that is wanted, with the record that is to be placed lent from where it lies.
    #[inline(always)]
    pub(crate) fn wanted(&self, spares: &Spares) -> Step<&Record>
        requires stands { (task : TaskSeen) × (k : Knowledge) × (r : Recalled) × ShowsState task spares.now k r (state_of self.now) }
        requires asks { IsSome (wanted_at spares.now (state_of self.now)) }
        ensures wanted { wanted_at spares.now (state_of self.now) ≡ Some (step_of_loan result) }
        ensures may { (task : TaskSeen) (k : Knowledge) (r : Recalled) → ShowsState task spares.now k r (state_of self.now) → MayStep task k (step_of_loan result) }
    {
        match self.stand {
            // No step is wanted yet: the contract excludes it, and a check would stay where only the contract is needed.
            StateKind::Begun => Step::Epoch,
            StateKind::Epoch => Step::Epoch,
            StateKind::Enter { epoch } => Step::Enter(epoch),
            StateKind::Read => reading(self.reader.asks()),
            StateKind::Write => reading(self.writer.asks()),
            StateKind::Change => self.change.wanted(spares),
            StateKind::Leave => Step::Leave,
        }
    }

    /// Tells the reply with which the operation leaves.
    pub(crate) fn tell_reply(&self, reply: &mut Reply)
        requires leaving { self.now.stand ≡ StateKind.Leave }
        ensures { reply.new ≡ self.now.reply }
    {
        self.reply.tell(reply);
    }

    /// The kind that ran out, where it is to leave for want of it.
    pub(crate) fn lacks(&self) -> Option<Kind>
        ensures { result ≡ lacks_at (state_of self.now) }
    {
        match self.stand {
            StateKind::Leave => self.lacks,
            _ => None,
        }
    }

    /// The reader's round takes a number, and tells whether it has ended: a page that was named isn't there.
    pub(crate) fn read_number(&mut self, number: u64) -> bool
        requires told { IsTold (machine read.reading) self.old.reader.round (Number number) }
        ensures { ReadsOn self.old (Number number) self.new (reads.read_again_if result) }
    {
        self.reader.told(number)
    }

    /// The reader's round takes a record, and tells how it ends, once it does.
    pub(crate) fn read_record(
        &mut self,
        found: RowAt<R>,
        rows: &R,
        pass: &mut R::Pass,
    ) -> Option<ReadEndKind>
        requires asked { read.wanted_step self.old.reader.round ≡ Row found.row }
        requires told { IsToldThere (R.has rows.now pass.old) (machine read.reading) self.old.reader.round (Content found.content) }
        ensures reads { ReadsOn self.old (Content found.content) self.new (option_map (reads.ended_read self.new.reader) result) }
        ensures same { pass.new ≡ pass.old }
    {
        self.reader.take_record(found, rows, pass)
    }

    /// The writer's round takes a number, and tells whether it has ended: a page that was named isn't there.
    pub(crate) fn write_number(&mut self, number: u64) -> bool
        requires told { IsTold (machine response.writing) self.old.writer.round (Number number) }
        ensures { WritesOn self.old (Number number) self.new (write_again_if result) }
    {
        self.writer.told(number)
    }

    /// The writer's round takes a record that stands over another one.
    pub(crate) fn write_on(&mut self, found: RowAt<R>, rows: &R, pass: &mut R::Pass)
        requires asked { write.wanted_step self.old.writer.round ≡ Row found.row }
        requires told { IsToldThere (R.has rows.now pass.old) (machine response.writing) self.old.writer.round (Content found.content) }
        requires on { reads_on (Content found.content) ≡ true }
        ensures writes { WritesOn self.old (Content found.content) self.new None }
        ensures same { pass.new ≡ pass.old }
    {
        self.writer.read_on(found, rows, pass);
    }

    /// The writer's round takes a record, and tells how it ends, once it does.
    pub(crate) fn write_record(
        &mut self,
        found: RowAt<R>,
        rows: &R,
        pass: &mut R::Pass,
    ) -> Option<WriteEndKind>
        requires asked { write.wanted_step self.old.writer.round ≡ Row found.row }
        requires told { IsToldThere (R.has rows.now pass.old) (machine response.writing) self.old.writer.round (Content found.content) }
        ensures writes { WritesOn self.old (Content found.content) self.new (option_map (writes.ended_write self.new.writer) result) }
        ensures same { pass.new ≡ pass.old }
    {
        self.writer.take_record(found, rows, pass)
    }

    /// The change takes the answer to the step that it wanted, and tells how it has ended, once it has.
    pub(crate) fn change_next(&mut self, spares: &mut Spares, told: Told) -> Option<End>
        requires told { IsToldAt (state_of self.old) spares.old (answer_of told) }
        requires changing { self.old.stand ≡ StateKind.Change }
        ensures makes { TurnsInto (state_of self.old) spares.old (answer_of told) (state_of self.new) spares.new (change_out (ended_with self.old.then result)) }
        ensures unlinks { (task : TaskSeen) (k : Knowledge) (r : Recalled) → ShowsState task spares.old k r (state_of self.old)
            → FitsLast task.limits k (wanted_at spares.old (state_of self.old)) (answer_of told)
            → UnlinksAfter task.limits k (ended_with self.old.then result) (learn_last k (wanted_at spares.old (state_of self.old)) (answer_of told)).limbo }
        ensures only { self.new ≡ record self.old { change = self.new.change } }
        ensures plan { self.new.change.plan ≡ self.old.change.plan }
        ensures decides { EndsByDeciding self.old.change.state self.new.change.state result }
    {
        self.change.next(spares, told)
    }

    /// What comes after the change.
    pub(crate) fn then(&self) -> &Then
        ensures { result.now ≡ self.now.then }
    {
        &self.then
    }
}

/// The step that a round asks for.
fn reading<'a>(asked: Asked) -> Step<&'a Record>
    ensures { step_of_loan result ≡ asked_step asked }
{
    match asked {
        Asked::Slot(pid) => Step::Slot(pid),
        Asked::Row(row) => Step::Row(row),
    }
}

/// The leaf in the hand of a reader's round, or the removed one beside it.
fn leaf_of<R: Rows, A: Allocator>(reader: &ReadRound<R, A>, is_beside: bool) -> &PageInHand<R, A>
    ensures { result.now ≡ leaf_read is_beside reader.now }
{
    if is_beside {
        reader.aside()
    } else {
        reader.page()
    }
}
