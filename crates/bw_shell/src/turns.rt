//! Turns of the core.

ghost use Rattle.std.specs.Prelude.{◌≡◌, IfErr, IfOk, MatchBool, Ok, OnOk};
ghost use Rattle.bw_model.specs.Schedules.{schedule_of};
ghost use Rattle.listing.specs.Listed.{IsListing};
ghost use Rattle.bw_shell.specs.Turns.{trace_of, IsOneMap, TakesTurn, Refuses};
ghost use Rattle.bw_shell.specs.Transcript.{ComesTo, IsUnderWay, StepTold, ToldAs, TurnsTold};

use crate::refusal::Refusal;
use bw_model::{Command, Key, Link, Reply, Schedule, Value};
use std::alloc::Global;
use step_core::{Core, Event, RunError};
use traces::Turn;

/// What turns of an actor come to.
#[derive(Drop)]
pub enum Progress {
    /// The operation goes on.
    GoesOn,
    /// The operation goes on behind an exchange at which the turns were to stop.
    Linked,
    /// The operation is done with this reply.
    Done(Reply),
}

/// Begins an operation of an actor.
pub fn begin(core: &mut Core, actor: u64, command: Command) -> Result<(), Refusal>
    ensures ok { OnOk result (TakesTurn (trace_of core.old) (Turn.Begin actor command) Event.Began (trace_of core.new)) }
    ensures refused { IfErr result (λ refusal. Refuses (trace_of core.old) (Turn.Begin actor command) refusal) }
    ensures unchanged { IfErr result (λ _. trace_of core.new ≡ trace_of core.old) }
{
    let Ok(actor) = u8::try_from(actor) else {
        return Err(Refusal::NoActor);
    };
    match core.turn(Turn::Begin(actor, command)) {
        Ok(_) => Ok(()),
        Err(error) => Err(Refusal::of_turn(error)),
    }
}

// What the turn of this event comes to.
fn progress_of(event: Event, until: Option<Link>) -> Progress
    requires { event ≡ Event.Began → ⊥ }
    ensures { ComesTo until event result }
{
    match event {
        Event::Done(reply) => Progress::Done(reply),
        Event::Stepped(made) => {
            if made.is_some() && made == until {
                Progress::Linked
            } else {
                Progress::GoesOn
            }
        }
        Event::Began => unreachable!(),
    }
}

// What a turn that told this comes to.
fn told_of(told: Result<Event, RunError>, until: Option<Link>) -> Result<Progress, Refusal>
    requires { told ≡ Ok Event.Began → ⊥ }
    ensures { ToldAs until told result }
{
    match told {
        Ok(event) => Ok(progress_of(event, until)),
        Err(error) => Err(Refusal::of_turn(error)),
    }
}

// Whether an exchange won with the link at which turns are to stop.
fn is_won(made: Option<Link>, until: Option<Link>) -> bool
    ensures { MatchBool result (ComesTo until (Event.Stepped made) Progress.Linked) (ComesTo until (Event.Stepped made) Progress.GoesOn) }
{
    made.is_some() && made == until
}

// Whether the operation goes on behind a turn that told this, at which turns are not to stop.
fn goes_on(told: &Result<Event, RunError>, until: Option<Link>) -> bool
    ensures { MatchBool result (IsUnderWay until told.now) (IsUnderWay until told.now → ⊥) }
{
    match told {
        Ok(Event::Stepped(made)) => !(made.is_some() && *made == until),
        Ok(Event::Done(_)) => false,
        Ok(Event::Began) => false,
        Err(_) => false,
    }
}

// The number of the actor that is to take a step.
fn actor_of(core: &Core, actor: u64) -> Result<u8, Refusal>
    ensures ok { IfOk result (λ number. number ≡ actor) }
    ensures refused { IfErr result (λ refusal. Refuses (trace_of core.now) (Turn.Step actor) refusal) }
{
    let _ = core;
    match u8::try_from(actor) {
        Ok(number) => Ok(number),
        Err(_) => Err(Refusal::NoActor),
    }
}

/// One step of an actor. It stops at an exchange that won with the link, if one is given.
pub fn step(core: &mut Core, actor: u64, until: Option<Link>) -> Result<Progress, Refusal>
    ensures { StepTold until (trace_of core.old) actor result (trace_of core.new) }
{
    let number = actor_of(core, actor)?;
    let told = core.turn(Turn::Step(number));
    told_of(told, until)
}

/// Up to so many steps of an actor, fewer if it is done, or an exchange won with the link, if one is given.
pub fn steps(
    core: &mut Core,
    actor: u64,
    until: Option<Link>,
    limit: u64,
) -> Result<Progress, Refusal>
    ensures { TurnsTold until (trace_of core.old) actor limit result (trace_of core.new) }
{
    for _turn in 0..limit {
        let number = actor_of(core, actor)?;
        match core.step_on(number) {
            Some(made) => {
                if is_won(made, until) {
                    return Ok(Progress::Linked);
                }
            }
            None => {
                let told = core.turn(Turn::Step(number));
                if !goes_on(&told, until) {
                    return told_of(told, until);
                }
            }
        }
    }
    Ok(Progress::GoesOn)
}

/// All pairs that stand.
pub fn pairs_of(alloc: Global, core: &Core) -> Result<Vec<(Key, Value)>, Refusal>
    ensures pairs { IfOk result (λ pairs. IsListing core.now.limits core.now.entries pairs.items) }
    ensures linearized { IsOneMap (trace_of core.now) }
    ensures refused { IfErr result (λ refusal. refusal ≡ Refusal.Memory) }
{
    core.linearized();
    match core.listing(alloc) {
        Ok(pairs) => Ok(pairs),
        Err(error) => Err(Refusal::of_turn(error)),
    }
}

/// The schedule of a seed over the core's actors.
pub fn schedule_over(core: &Core, seed: u64) -> Schedule
    ensures { result ≡ schedule_of seed core.now.limits.actors }
{
    Schedule::new(seed, core.limits().actors as u8)
}
