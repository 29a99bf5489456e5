//! The sweep of an actor's limbo, one step at a time.
ghost use Rattle.std.specs.Prelude.{◌≡◌, ◌<◌, ◌≤◌, ◌+◌, ◌↔◌, IsNone, IsTrue, None, Some, MatchOption, IfSome};
ghost use Rattle.bw_model.specs.Answers.{answer_of};
ghost use Rattle.traces.specs.discipline.Discipline.{May, MayFree};
ghost use Rattle.traces.specs.discipline.Fitting.{Fits};
ghost use Rattle.traces.specs.discipline.Knowledge.{Knowledge, learn};
ghost use Rattle.traces.specs.discipline.Useful.{IsUseful};
ghost use Rattle.epochs.specs.Limbo.{Limbo as LimboSeen};
ghost use Rattle.traces.specs.trace.Within.{IsWithin};
ghost use Rattle.sweep.specs.Bounded.{Spends, most_steps, steps_left};
ghost use Rattle.sweep.specs.Kept.{IsLimboOf};
ghost use Rattle.sweep.specs.Moves.{BeginsSweep, Compares, Frees, IsEmpty, Moves, Stamps, after_comparing, state_if};
ghost use Rattle.sweep.specs.Sweeps.{LearnsOfLimbo, IsOfSweep, IsSameSweep, IsSoundSweep, FitsSweep, IsKeptOutside, Shows, other_at, wanted_step};

use crate::announced::Announced;
use bw_model::{Limits, Step, Told};
use deltas::Record;
use epochs::{Limbo, Reuse};
use std::alloc::Allocator;
use std::marker::Model;
use std::mem;

/// How many items of each list a sweep of a large tree compares with what was announced, and so frees at most.
pub(crate) const MOST_COMPARED: usize = 64;

/// Where a sweep stands: each state is named by the step that it has asked for.
#[derive(Drop)]
pub(crate) enum State {
    Epoch,
    Retire { epoch: u64 },
    /// The next of the other actors is read, after these.
    Announce { announced: Announced },
    Reuse { reuse: Reuse },
}

/// The sweep of an actor's limbo that is under way. It takes few steps: at most one for each word of free bits and for each actor, and
/// one more.
#[derive(Drop)]
pub struct Sweep {
    limits: Limits,
    actor: u8,
    state: State,
}

impl Model for Sweep {
    ghost use Rattle.std.specs.Prelude.{◌<◌};
    ghost use Rattle.sweep.specs.Sweeps.{IsSoundState, Sweep};

    ghost Value = { Sweep };

    ghost view = { λ s. record { limits = s.limits; actor = s.actor; state = s.state } };

    ghost invariant = { λ s. (s.actor < s.limits.actors) × IsSoundState s.limits s.state };
}

impl Sweep {
    /// The sweep of what is in limbo, if there is anything. Where all of it has stamps, no epoch is read.
    pub fn begin<A: Allocator>(limits: &Limits, actor: u8, limbo: &mut Limbo<A>) -> Option<Sweep>
        requires actor { actor < limits.now.actors }
        requires lists { IsLimboOf limits.now limbo.old }
        ensures begins { MatchOption result (BeginsSweep limits.now limbo.old None limbo.new) (λ sweep. BeginsSweep limits.now limbo.old (Some sweep.state) limbo.new) }
        ensures none { IsNone result ↔ IsEmpty limbo.old }
        ensures limits { IfSome result (λ sweep. (sweep.limits ≡ limits.now) × (sweep.actor ≡ actor)) }
        ensures sound { IfSome result (λ sweep. IsSoundSweep sweep limbo.new) }
        ensures lists { IsLimboOf limits.now limbo.new }
        ensures shows { (k : Knowledge) → IsKeptOutside limits.now actor limbo.old k → MatchOption result (IsKeptOutside limits.now actor limbo.new k) (λ sweep. Shows sweep limbo.new k) }
        ensures few { IfSome result (λ sweep. steps_left limits.now sweep.state ≤ most_steps limits.now) }
    {
        limbo.has_each_once();
        let state = first(limits, limbo)?;
        Some(Sweep {
            limits: *limits,
            actor,
            state,
        })
    }

    /// The step that the sweep wants next.
    pub fn step(&self) -> Step<Record>
        ensures wanted { result ≡ wanted_step self.now }
        ensures within { IsWithin self.now.limits result }
        ensures only { IsOfSweep result }
        ensures may { (limbo : LimboSeen) (k : Knowledge) → Shows self.now limbo k → May self.now.actor k result }
        ensures frees { (limbo : LimboSeen) (k : Knowledge) → Shows self.now limbo k → MayFree self.now.limits self.now.actor k result }
        ensures useful { (k : Knowledge) → IsUseful k result }
    {
        match &self.state {
            State::Epoch => Step::Epoch,
            State::Retire { epoch } => Step::Retire(*epoch),
            State::Announce { announced } => Step::Announce(self.other_at(announced.count())),
            State::Reuse { reuse } => match reuse {
                Reuse::Rows(word, bits) => Step::ReuseRows(*word, *bits),
                Reuse::Pids(word, bits) => Step::ReusePids(*word, *bits),
            },
        }
    }

    /// Takes the answer to the step wanted last, and tells whether the sweep goes on.
    pub fn next<A: Allocator>(&mut self, limbo: &mut Limbo<A>, told: Told) -> bool
        requires sound { IsSoundSweep self.old limbo.old }
        requires told { FitsSweep self.old (answer_of told) }
        ensures moves { Moves self.old.limits self.old.state limbo.old (answer_of told) (state_if result self.new.state) limbo.new }
        ensures same { IsSameSweep self.old self.new }
        ensures follows { (k : Knowledge) → Shows self.old limbo.old k → Fits self.old.limits k (wanted_step self.old) (answer_of told)
            → LearnsOfLimbo k (learn k (wanted_step self.old) (answer_of told)) self.new limbo.new result }
        ensures sound { IsTrue result → IsSoundSweep self.new limbo.new }
        ensures lists { IsLimboOf self.old.limits limbo.new }
        ensures spends { Spends self.old.limits result self.old.state self.new.state }
    {
        let _ = &self.limits;
        limbo.has_each_once();
        match self.move_on(limbo, told) {
            Some(state) => {
                self.state = state;
                true
            }
            None => false,
        }
    }

    /// The state that follows, if the sweep goes on.
    fn move_on<A: Allocator>(&mut self, limbo: &mut Limbo<A>, told: Told) -> Option<State>
        requires told { FitsSweep self.old (answer_of told) }
        ensures moves { Moves self.old.limits self.old.state limbo.old (answer_of told) result limbo.new }
        ensures same { IsSameSweep self.old self.new }
    {
        match mem::replace(&mut self.state, State::Epoch) {
            State::Epoch => stamp(&self.limits, limbo, told.number()),
            State::Retire { .. } => compare(&self.limits, limbo, Announced::none_yet()),
            State::Announce { announced } => {
                compare(&self.limits, limbo, announced.with(told.number()))
            }
            State::Reuse { .. } => free(limbo),
        }
    }

    /// The actor at this place among all others.
    fn other_at(&self, place: u8) -> u8
        requires { place < 62 }
        ensures { result ≡ other_at self.now.actor place }
    {
        if place < self.actor { place } else { place + 1 }
    }
}

/// Where a sweep begins.
fn first<A: Allocator>(limits: &Limits, limbo: &mut Limbo<A>) -> Option<State>
    ensures { BeginsSweep limits.now limbo.old result limbo.new }
{
    if limbo.is_empty() {
        return None;
    }
    if limbo.has_unstamped() {
        return Some(State::Epoch);
    }
    compare(limits, limbo, Announced::none_yet())
}

/// The epoch was read.
fn stamp<A: Allocator>(limits: &Limits, limbo: &mut Limbo<A>, epoch: u64) -> Option<State>
    ensures { Stamps limits.now epoch limbo.old result limbo.new }
{
    limbo.stamped(epoch);
    if epoch < 1 << 62 {
        return Some(State::Retire { epoch });
    }
    compare(limits, limbo, Announced::none_yet())
}

/// Reads the next actor, or finds out what may be freed once all are read.
fn compare<A: Allocator>(
    limits: &Limits,
    limbo: &mut Limbo<A>,
    announced: Announced,
) -> Option<State>
    ensures { Compares limits.now announced limbo.old result limbo.new }
{
    if u64::from(announced.count()) + 1 < limits.actors {
        return Some(State::Announce { announced });
    }
    may_free(limits, limbo, announced.least());
    free(limbo)
}

/// Finds out what may be freed, by the least epoch that another actor has announced.
fn may_free<A: Allocator>(limits: &Limits, limbo: &mut Limbo<A>, least: u64)
    ensures { limbo.new ≡ after_comparing limits.now least limbo.old }
{
    if limits.is_large {
        limbo.may_free_first(MOST_COMPARED, &[least]);
    } else {
        limbo.may_free(&[least]);
    }
}

/// Frees the next word.
fn free<A: Allocator>(limbo: &mut Limbo<A>) -> Option<State>
    ensures { Frees limbo.old result limbo.new }
{
    match limbo.next_word() {
        Some(reuse) => Some(State::Reuse { reuse }),
        None => None,
    }
}
