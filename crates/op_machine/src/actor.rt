//! One actor.
ghost use Rattle.std.specs.Prelude.{◌≡◌, ◌≢◌, ◌<◌, ◌^◌, ℕ, IfErr, IfOk, IsSome, MatchBool, None, Some, is_some, option_copied};
ghost use Rattle.op_machine.specs.machine.Actors.{ActsOn, IsActor, IsGoing, IsActorShown, IsToldActor, IsToldActorThere, errands_of, idle_actor, running_command, wanted_by};
ghost use Rattle.op_machine.specs.machine.UnderWay.{steps_due};
ghost use Rattle.bw_model.specs.Answers.{answer_of};
ghost use Rattle.bw_model.specs.Lent.{step_of_loan};
ghost use Rattle.tree_limits.specs.declared.limits.Limits.{Limits as LimitsSeen};
ghost use Rattle.bw_model.specs.declared.step.Answer.TheVariants.{Content, Done};
ghost use Rattle.bw_model.specs.declared.step.Step.TheVariants.{Row};
ghost use Rattle.traces.specs.discipline.Knowledge.{Knowledge, after_begin, nothing};
ghost use Rattle.traces.specs.discipline.Recalled.{Recalled, blank, cause_worth};

use crate::{Hand, Operation};
use bw_model::{Command, Key, Limits, OpenError, Reply, Step, Told};
use change_machine::Kind;
use deltas::Record;
use row_search::{RowAt, Rows};
use std::alloc::{Allocator, Global};
use std::marker::Model;

/// What an actor keeps between operations, and the operation that it is at, or the room for the next one.
pub struct Actor<R: Rows, A: Allocator = Global> {
    hand: Hand<A>,
    operation: Operation<R, A>,
    is_running: bool,
    lacks: Option<Kind>,
}

impl<R: Rows, A: Allocator> Drop for Actor<R, A> {
    fn drop(self) {
        let Actor {
            hand: _,
            operation: _,
            is_running: _,
            lacks: _,
        } = self;
    }
}

impl<R: Rows, A: Allocator> Model for Actor<R, A> {
    ghost use Rattle.op_machine.specs.machine.Actors.{Actor};
    ghost use Rattle.op_machine.specs.machine.UnderWay.{AsksIf, running_at};

    ghost Value = { Actor };

    ghost view = { λ a. record { hand = a.hand; running = running_at a.is_running a.operation a.hand; lacks = a.lacks } };

    ghost invariant = { λ a. AsksIf a.is_running a.operation a.hand };
}

/// An actor that holds nothing and has no operation keeps what shows that nothing is known.
pub fn idle_actors_rest()
    ensures { (limits : LimitsSeen) (number : ℕ) (r : Recalled) → IsActor limits number nothing r (idle_actor limits) }
{}

impl<R: Rows, A: Allocator + Copy> Actor<R, A> {
    /// An actor that holds nothing and has no operation. Takes the memory for its limbo and for the pages of its operations' rounds,
    /// and is refused for want of it alone. No later call takes memory.
    pub fn idle(alloc: A, limits: &Limits) -> Result<Actor<R, A>, OpenError>
        ensures ok { IfOk result (λ actor. actor ≡ idle_actor limits.now) }
        ensures err { IfErr result (λ error. error ≡ OpenError.Memory) }
    {
        let hand = Hand::<A>::new(alloc, limits)?;
        match Operation::<R, A>::new(alloc, limits) {
            Ok(operation) => Ok(Actor {
                hand,
                operation,
                is_running: false,
                lacks: None,
            }),
            Err(_) => Err(OpenError::Memory),
        }
    }
}

impl<R: Rows, A: Allocator> Actor<R, A> {
    /// Whether it has an operation.
    pub fn is_running(&self) -> bool
        ensures { result ≡ is_some (running_command self.now) }
    {
        self.is_running
    }

    /// The command of its operation, if it has one.
    pub fn command(&self) -> Option<&Command>
        ensures { option_copied result ≡ running_command self.now }
    {
        if self.is_running {
            Some(self.operation.command())
        } else {
            None
        }
    }

    /// The kind that ran out for its last operation, where that has left with `Full`; none from the next begin on.
    pub fn lacks(&self) -> Option<Kind>
        ensures { result ≡ self.now.lacks }
    {
        self.lacks
    }

    /// What it keeps between operations.
    pub fn hand(&self) -> &Hand<A>
        ensures { result.now ≡ self.now.hand }
    {
        &self.hand
    }

    /// The separators of splits that its operation has linked and is still to visit, the newest last; none without an operation.
    pub fn errands(&self) -> &[Key]
        ensures { result.now ≡ errands_of self.now }
    {
        if self.is_running {
            self.operation.errands()
        } else {
            &[]
        }
    }

    /// The step that its operation wants, with the record that is to be placed lent from where it lies.
    #[inline(always)]
    pub fn wanted(&self) -> Step<&Record>
        requires shown { IsActorShown self.now }
        requires running { IsSome (running_command self.now) }
        ensures { wanted_by self.now.running ≡ Some (step_of_loan result) }
    {
        self.operation.wanted(&self.hand)
    }

    /// Whether the step that its operation wants is the leave, which alone ends it.
    pub fn is_leaving(&self) -> bool
        requires shown { IsActorShown self.now }
        requires running { IsSome (running_command self.now) }
        ensures { MatchBool result (wanted_by self.now.running ≡ Some Step.Leave) (wanted_by self.now.running ≢ Some Step.Leave) }
    {
        matches!(self.wanted(), Step::Leave)
    }

    /// Begins an operation, in the place of the last one.
    pub fn begin(&mut self, command: Command, number: u8, limits: &Limits)
        requires shows { (k : Knowledge) × (r : Recalled) × IsActor limits.now number k r self.old }
        requires idle { running_command self.old ≡ None }
        requires there { number < limits.now.actors }
        ensures shows { (k : Knowledge) (r : Recalled) → IsActor limits.now number k r self.old → IsActor limits.now number (after_begin k command) blank self.new }
        ensures command { running_command self.new ≡ Some command }
        ensures bounded { steps_due blank self.new.hand self.new.running < cause_worth limits.now }
        ensures lacks { self.new.lacks ≡ None }
    {
        self.lacks = None;
        self.operation.begin(command, number, limits);
        self.operation.go_on(&mut self.hand, Told::Start);
        self.is_running = true;
        let _ = self.operation.wanted(&self.hand);
    }

    /// Takes the answer to the step that its operation wants, which isn't the leave and reads no row, so that the operation goes on.
    /// Inlined: each number that a lookup reads comes through here.
    #[inline(always)]
    pub fn go_on(&mut self, told: Told)
        requires told { IsToldActor self.old (answer_of told) }
        requires stays { wanted_by self.old.running ≢ Some Step.Leave }
        ensures goes { (limits : LimitsSeen) (number : ℕ) (k : Knowledge) (r : Recalled) (going : IsGoing limits number k r self.old (answer_of told))
            → ActsOn limits number k r self.old going.running.wanted (answer_of told) None self.new }
        ensures command { running_command self.new ≡ running_command self.old }
    {
        self.operation.go_on(&mut self.hand, told);
        let _ = self.operation.wanted(&self.hand);
        let _ = self.operation.errands();
    }

    /// Takes the record that its operation wanted to read, and looks at it, and at what was read before, where they lie.
    pub fn take_record(&mut self, found: RowAt<R>, rows: &R, pass: &mut R::Pass)
        requires asked { wanted_by self.old.running ≡ Some (Row found.row) }
        requires told { IsToldActorThere (R.has rows.now pass.old) self.old (Content found.content) }
        ensures goes { (limits : LimitsSeen) (number : ℕ) (k : Knowledge) (r : Recalled) (going : IsGoing limits number k r self.old (Content found.content))
            → ActsOn limits number k r self.old going.running.wanted (Content found.content) None self.new }
        ensures command { running_command self.new ≡ running_command self.old }
        ensures same { pass.new ≡ pass.old }
    {
        self.operation
            .take_record(&mut self.hand, found, rows, pass);
        let _ = self.operation.wanted(&self.hand);
        let _ = self.operation.errands();
    }

    /// Takes the leave that its operation wants, and tells the reply in its place: the operation is done. A lookup's value over another
    /// lookup's costs a copy of the value; any other reply is made anew, in 3.2 KB.
    #[inline]
    pub fn leave(&mut self, reply: &mut Reply)
        requires told { IsToldActor self.old Done }
        requires leaves { wanted_by self.old.running ≡ Some Step.Leave }
        ensures goes { (limits : LimitsSeen) (number : ℕ) (k : Knowledge) (r : Recalled) (going : IsGoing limits number k r self.old Done)
            → ActsOn limits number k r self.old going.running.wanted Done (Some reply.new) self.new }
        ensures command { running_command self.new ≡ None }
    {
        self.is_running = false;
        self.lacks = self.operation.lacks();
        self.operation.leave(reply);
    }
}
