//! The core: all actors over one memory, one turn at a time.
ghost use Rattle.std.specs.Prelude.{◌≡◌, ◌<◌, ◌≤◌, ◌&&◌, ◌⊎◌, [], length, map, nat_lt, is_some, IfOk, IfErr, IfSome, OnErr, Some, None};
ghost use Rattle.traces.specs.discipline.Disciplined.{IsDisciplined};
ghost use Rattle.traces.specs.trace.Trace.{command_of, turn_of};
ghost use Rattle.listing.specs.Listed.{IsListing};
ghost use Rattle.linearization.specs.Linearized.{IsLinearized, IsOrderly};
ghost use Rattle.step_core.specs.Turns.{AddsTurn, AddsTurns, BeginsOrLeaves, LeavesAt, StopsAt, WantsMemory, busy_of, refusal_of};

mod views;

use crate::actor::{Stepped, go_on, leave, prepare, room};
use crate::event::{Event, RunError, Trace};
use crate::lawful_traces::{begins_keep_laws, states_are_lawful, steps_keep_laws};
use bw_model::{Command, Key, Limits, Link, OpenError, Value};
use core_memory::{CoreRows, CoreTable, Entries};
use listing::{add_pairs, pages_are_listed};
use op_machine::{Actor, idle_actors_rest};
use progress::{opens_with_readers, opens_with_writers};
use std::alloc::{AllocError, Allocator, Global};
use std::marker::Model;
use traces::Turn;
use tree_law::{entries_grow, leaves_stand, opens, opens_directly, opens_paid};

/// All actors over one memory, which an allocator gives.
pub struct Core<A: Allocator = Global> {
    alloc: A,
    limits: Limits,
    memory: CoreTable<A>,
    actors: Vec<Actor<CoreRows<A>, A>, A>,
    trace: Entries<A>,
}

impl<A: Allocator> Drop for Core<A> {
    fn drop(self) {
        let Core {
            alloc: _,
            limits: _,
            memory: _,
            actors: _,
            trace: _,
        } = self;
    }
}

impl<A: Allocator> Model for Core<A> {
    ghost use Rattle.step_core.specs.Actors.{wanted_in};
    ghost use Rattle.step_core.specs.Cores.{IsCore};
    ghost use Rattle.step_core.specs.Turns.{Core};

    ghost Value = { Core };

    ghost view = { λ c. record { limits = c.limits; entries = c.trace.items; demand = record { room = c.trace.room; wanted = wanted_in c.actors.items } } };

    ghost invariant = { λ c. IsCore c.limits c.memory c.actors.items c.trace.items };
}

impl<A: Allocator + Copy> Core<A> {
    /// A core before its first turn; refused for want of memory alone.
    pub fn open(alloc: A, limits: Limits) -> Result<Core<A>, OpenError>
        ensures entries { IfOk result (λ core. core.entries ≡ []) }
        ensures limits { IfOk result (λ core. core.limits ≡ limits) }
        ensures err { IfErr result (λ error. error ≡ OpenError.Memory) }
    {
        match Core::<A>::with_memory(alloc, limits) {
            Ok(core) => Ok(core),
            Err(_) => Err(OpenError::Memory),
        }
    }

    fn with_memory(alloc: A, limits: Limits) -> Result<Core<A>, AllocError>
        ensures entries { IfOk result (λ core. core.entries ≡ []) }
        ensures limits { IfOk result (λ core. core.limits ≡ limits) }
    {
        opens();
        opens_directly();
        opens_paid();
        opens_with_readers();
        opens_with_writers();
        idle_actors_rest();
        let memory = CoreTable::<A>::open(alloc, &limits)?;
        let mut actors = Vec::with_capacity(alloc, limits.actors as usize)?;
        for _ in 0..limits.actors {
            let Ok(actor) = Actor::<CoreRows<A>, A>::idle(alloc, &limits) else {
                return Err(AllocError);
            };
            actors.push(actor)?;
        }
        Ok(Core {
            alloc,
            limits,
            memory,
            actors,
            trace: Entries::<A>::new(alloc),
        })
    }
}

impl<A: Allocator + Copy> Core<A> {
    /// Takes one turn. A turn that is refused changes nothing.
    pub fn turn(&mut self, turn: Turn) -> Result<Event, RunError>
        ensures refused { (refusal : _) → refusal_of self.old turn ≡ Some refusal → result ≡ Err refusal }
        ensures memory { refusal_of self.old turn ≡ None → IfErr result (λ error. (error ≡ RunError.Memory (length self.old.entries)) × WantsMemory self.old turn) }
        ensures ok { IfOk result (λ event. AddsTurn self.old turn event self.new) }
        ensures err { OnErr result (self.new ≡ self.old) }
        ensures linearized { IsLinearized self.new.limits (map turn_of self.new.entries) self.new.entries }
        ensures orderly { IsOrderly self.new.limits self.new.entries }
    {
        if let Some(refusal) = self.refusal(&turn) {
            self.linearized();
            return Err(refusal);
        }
        let Some(actor) = self.goes_on(&turn) else {
            return self.begin_or_leave(turn);
        };
        let told = self.go_on(actor);
        self.linearized();
        Ok(Event::Stepped(told?))
    }

    /// Takes the step that an actor's operation wants, if it has one that isn't its last, and answers its link, if it is an exchange that won.
    /// None exactly where there is no such step, or no memory for it; then nothing changes. Most turns are such steps, and need no room for a reply.
    pub fn step_on(&mut self, actor: u8) -> Option<Option<Link>>
        ensures some { IfSome result (λ link. (refusal_of self.old (Turn.Step actor) ≡ None) × AddsTurn self.old (Turn.Step actor) (Event.Stepped link) self.new) }
        ensures none { result ≡ None → self.new ≡ self.old }
        ensures why { result ≡ None → refusal_of self.old (Turn.Step actor) ≡ None → LeavesAt self.old actor ⊎ WantsMemory self.old (Turn.Step actor) }
        ensures linearized { IsLinearized self.new.limits (map turn_of self.new.entries) self.new.entries }
        ensures orderly { IsOrderly self.new.limits self.new.entries }
    {
        let stepped = self.stepped(actor);
        self.linearized();
        stepped
    }

    /// As `step_on`, without the laws of the whole trace: `step_on` adds them once.
    fn stepped(&mut self, actor: u8) -> Option<Option<Link>>
        ensures some { IfSome result (λ link. (refusal_of self.old (Turn.Step actor) ≡ None) × AddsTurn self.old (Turn.Step actor) (Event.Stepped link) self.new) }
        ensures none { result ≡ None → self.new ≡ self.old }
        ensures why { result ≡ None → refusal_of self.old (Turn.Step actor) ≡ None → LeavesAt self.old actor ⊎ WantsMemory self.old (Turn.Step actor) }
    {
        let turn = Turn::Step(actor);
        if self.refusal(&turn).is_some() {
            return None;
        }
        if self.goes_on(&turn).is_none() {
            return None;
        }
        match self.go_on(actor) {
            Ok(link) => Some(link),
            Err(_) => None,
        }
    }

    /// Takes the turns one after another, up to one that is refused, whose refusal it answers.
    pub fn take_turns(&mut self, turns: &[Turn]) -> Result<(), RunError>
        ensures ok { IfOk result (λ _. AddsTurns self.old turns.now self.new) }
        ensures err { IfErr result (λ error. StopsAt self.old turns.now error self.new) }
        ensures disciplined { IsDisciplined self.new.limits self.new.entries }
        ensures linearized { IsLinearized self.new.limits (map turn_of self.new.entries) self.new.entries }
        ensures orderly { IsOrderly self.new.limits self.new.entries }
    {
        let taken = self.take_each(turns);
        self.linearized();
        taken
    }

    /// Takes the turns up to one that is refused.
    fn take_each(&mut self, turns: &[Turn]) -> Result<(), RunError>
        ensures ok { IfOk result (λ _. AddsTurns self.old turns.now self.new) }
        ensures err { IfErr result (λ error. StopsAt self.old turns.now error self.new) }
    {
        for turn in turns {
            match self.turn(turn.copied()) {
                Ok(_) => {}
                Err(error) => return Err(error),
            }
        }
        Ok(())
    }

    /// Takes a turn that begins an operation or ends it, which most turns don't.
    #[inline(never)]
    fn begin_or_leave(&mut self, turn: Turn) -> Result<Event, RunError>
        requires goes { refusal_of self.old turn ≡ None }
        requires ends { BeginsOrLeaves self.old turn }
        ensures ok { IfOk result (λ event. AddsTurn self.old turn event self.new) }
        ensures memory { IfErr result (λ error. (error ≡ RunError.Memory (length self.old.entries)) × WantsMemory self.old turn) }
        ensures err { OnErr result (self.new ≡ self.old) }
        ensures linearized { IsLinearized self.new.limits (map turn_of self.new.entries) self.new.entries }
        ensures orderly { IsOrderly self.new.limits self.new.entries }
    {
        let answer = match turn {
            Turn::Begin(actor, command) => self.begin(actor, command),
            Turn::Step(actor) => self.leave(actor),
        };
        self.linearized();
        answer
    }

    /// Begins an operation; refused only where the trace has no room left and gets none.
    #[inline(never)]
    fn begin(&mut self, actor: u8, command: Command) -> Result<Event, RunError>
        requires goes { refusal_of self.old (Turn.Begin actor command) ≡ None }
        ensures ok { IfOk result (λ event. AddsTurn self.old (Turn.Begin actor command) event self.new) }
        ensures memory { IfErr result (λ error. (error ≡ RunError.Memory (length self.old.entries)) × (self.old.demand.room ≤ length self.old.entries)) }
        ensures err { OnErr result (self.new ≡ self.old) }
    {
        begins_keep_laws();
        entries_grow();
        let number = self.turns();
        if self.trace.reserve().is_err() {
            return Err(RunError::Memory(number));
        }
        self.trace.push_begin(actor, &command);
        let place = &mut self.actors[usize::from(actor)];
        place.begin(command, actor, &self.limits);
        Ok(Event::Began)
    }

    /// Takes the step that an operation wants, which isn't its last one, and answers its link, if it is an exchange that won;
    /// refused only where the trace has no room left and gets none, or the step moves a record.
    fn go_on(&mut self, actor: u8) -> Result<Option<Link>, RunError>
        requires goes { refusal_of self.old (Turn.Step actor) ≡ None }
        requires stays { LeavesAt self.old actor → ⊥ }
        ensures ok { IfOk result (λ link. AddsTurn self.old (Turn.Step actor) (Event.Stepped link) self.new) }
        ensures memory { IfErr result (λ error. (error ≡ RunError.Memory (length self.old.entries)) × WantsMemory self.old (Turn.Step actor)) }
        ensures err { OnErr result (self.new ≡ self.old) }
    {
        steps_keep_laws();
        entries_grow();
        let number = self.turns();
        let place = &self.actors[usize::from(actor)];
        let Ok(ready) = prepare(self.alloc, place, actor, &self.memory) else {
            return Err(RunError::Memory(number));
        };
        if self.trace.reserve().is_err() {
            return Err(RunError::Memory(number));
        }
        let place = &mut self.actors[usize::from(actor)];
        let stepped = go_on(place, actor, &mut self.memory, ready);
        let link = stepped.link(&self.memory);
        let Stepped { step, answer } = stepped;
        self.trace.push_step(actor, step, answer);
        Ok(link)
    }

    /// Takes the leave that an operation wants; refused only where the trace has no room left and gets none, or it ends a page.
    fn leave(&mut self, actor: u8) -> Result<Event, RunError>
        requires goes { refusal_of self.old (Turn.Step actor) ≡ None }
        requires leaves { LeavesAt self.old actor }
        ensures ok { IfOk result (λ event. AddsTurn self.old (Turn.Step actor) event self.new) }
        ensures memory { IfErr result (λ error. (error ≡ RunError.Memory (length self.old.entries)) × WantsMemory self.old (Turn.Step actor)) }
        ensures err { OnErr result (self.new ≡ self.old) }
    {
        steps_keep_laws();
        entries_grow();
        let number = self.turns();
        let place = &self.actors[usize::from(actor)];
        let Ok(room) = room(self.alloc, place) else {
            return Err(RunError::Memory(number));
        };
        if self.trace.reserve().is_err() {
            return Err(RunError::Memory(number));
        }
        let place = &mut self.actors[usize::from(actor)];
        let reply = leave(place, actor, &mut self.memory, room);
        let event = Event::Done(reply.reply());
        self.trace.push_leave(actor, reply);
        Ok(event)
    }
}

impl<A: Allocator> Core<A> {
    /// How many turns were taken, which is the number of the next one.
    pub fn turns(&self) -> u64
        ensures { result ≡ length self.now.entries }
    {
        self.trace.len()
    }

    /// The limits with which it was opened.
    pub fn limits(&self) -> &Limits
        ensures { result.now ≡ self.now.limits }
    {
        &self.limits
    }

    /// Whether there is such an actor, with an operation that is not done.
    pub fn is_busy(&self, actor: u8) -> bool
        ensures { result ≡ (nat_lt actor self.now.limits.actors && is_some (command_of self.now.entries actor)) }
    {
        match self.busy(actor) {
            None => false,
            Some(busy) => busy,
        }
    }

    /// Whatever was done so far, each actor obeyed its discipline; the operations took effect one at a time, on one ordered map, and beside that pages kept
    /// their phases, the index is exact, each operation took few steps, and freeing was by the rule of epochs. It does nothing.
    pub fn linearized(&self)
        ensures disciplined { IsDisciplined self.now.limits self.now.entries }
        ensures linearized { IsLinearized self.now.limits (map turn_of self.now.entries) self.now.entries }
        ensures orderly { IsOrderly self.now.limits self.now.entries }
    {
        states_are_lawful();
        let _ = &self.limits;
    }

    /// Whether an actor has an operation, if there is such an actor.
    fn busy(&self, actor: u8) -> Option<bool>
        ensures { result ≡ busy_of self.now actor }
    {
        match self.actors.get(usize::from(actor)) {
            None => None,
            Some(actor) => Some(actor.is_running()),
        }
    }

    /// The actor of a step after which its operation goes on; none for a turn that begins an operation or ends it.
    fn goes_on(&self, turn: &Turn) -> Option<u8>
        requires goes { refusal_of self.now turn.now ≡ None }
        ensures some { IfSome result (λ actor. (turn.now ≡ Turn.Step actor) × (LeavesAt self.now actor → ⊥)) }
        ensures none { result ≡ None → BeginsOrLeaves self.now turn.now }
    {
        let Turn::Step(actor) = turn else {
            return None;
        };
        if self.actors[usize::from(*actor)].is_leaving() {
            None
        } else {
            Some(*actor)
        }
    }

    /// Why a turn is refused, but for want of memory.
    fn refusal(&self, turn: &Turn) -> Option<RunError>
        ensures { result ≡ refusal_of self.now turn.now }
    {
        let number = self.turns();
        let busy = match turn {
            Turn::Begin(actor, _) => self.busy(*actor),
            Turn::Step(actor) => self.busy(*actor),
        };
        match (turn, busy) {
            (_, None) => Some(RunError::NoActor(number)),
            (Turn::Begin(_, _), Some(true)) => Some(RunError::Unfinished(number)),
            (Turn::Begin(_, _), Some(false)) => None,
            (Turn::Step(_), Some(true)) => None,
            (Turn::Step(_), Some(false)) => Some(RunError::NoOperation(number)),
        }
    }

    /// All pairs that stand, in the order of their keys; refused for want of memory alone. It is no turn.
    pub fn listing<B: Allocator + Copy>(&self, alloc: B) -> Result<Vec<(Key, Value), B>, RunError>
        ensures ok { IfOk result (λ pairs. IsListing self.now.limits self.now.entries pairs.items) }
        ensures err { IfErr result (λ error. error ≡ RunError.Memory (length self.now.entries)) }
    {
        leaves_stand();
        pages_are_listed();
        let mut pairs = Vec::new(alloc);
        match add_pairs(&mut pairs, &self.limits, &self.memory) {
            Ok(()) => Ok(pairs),
            Err(_) => Err(RunError::Memory(self.turns())),
        }
    }

    /// What was done.
    pub fn into_trace(self) -> Trace<A>
        ensures { result.entries.items ≡ self.entries }
    {
        let Core {
            alloc: _,
            limits: _,
            memory: _,
            actors: _,
            trace,
        } = self;
        Trace { entries: trace }
    }
}
