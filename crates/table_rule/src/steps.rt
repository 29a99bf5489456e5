//! The steps that are one atomic operation on a word.
ghost use Rattle.std.specs.Prelude.{◌≡◌, ◌<◌, option_copied};
ghost use Rattle.bw_model.specs.Answers.{answer_of};
ghost use Rattle.bw_model.specs.Lent.{step_of_loan};
ghost use Rattle.tree_limits.specs.Limits.{most_large_actors};
ghost use Rattle.table_rule.specs.declared.view.Reach.TheVariants.{Idle};
ghost use Rattle.table_rule.specs.Steps.{IsLawfulStep, Took};
ghost use Rattle.table_rule.specs.Views.{SitsAt, IsOf, seen_of};
ghost use Rattle.tree_words.specs.Changes.{HasWord, SetsBits, changed_word, operation_of, answer_by};

use crate::plays::{Acting, Telling};
use crate::rule::{Law, TableSeat, Words};
use bw_model::{Command, Reply, Step, Told};
use deltas::Record;
use std::marker::Brand;
use tree_words::{
    Layout, Operation, made_by, operations_are_steps, steps_change_one_word, told_by, word_place,
};

/// Takes a step of the seat's actor that is one atomic operation on a word, and returns its answer. `begun` is the command of an operation
/// that begins with the step, `reply` the reply of one that it ends; both are for the contract alone.
#[inline(always)]
pub fn act<P: Law>(
    words: &Words<P>,
    seat: &mut TableSeat,
    limits: &Layout,
    actor: u8,
    step: &Step<&Record>,
    begun: Option<&Command>,
    reply: Option<&Reply>,
) -> Told
    requires table { IsOf limits.now words.now.key words.now.table_id seat.old.table_id }
    requires range { HasWord limits.now (step_of_loan step.now) }
    requires actor { actor < most_large_actors }
    requires seat { SitsAt limits.now actor Idle seat.old.me }
    requires may { IsLawfulStep P.law limits.now actor (seen_of seat.old.me) (option_copied begun) (step_of_loan step.now) (option_copied reply) }
    ensures same { seat.new.table_id ≡ seat.old.table_id }
    ensures seat { SitsAt limits.now actor Idle seat.new.me }
    ensures took { Took P.law limits.now actor (seen_of seat.old.me) (option_copied begun.entry) (step_of_loan step.now) (answer_of result) (option_copied reply.entry) (seen_of seat.new.me) }
{
    act_told::<P, Brand>(words, seat, limits, actor, step, begun, reply)
}

/// As `act`, once the caller has picked what the step's contract names (`Telling`).
#[inline(always)]
fn act_told<P: Law, C: Telling>(
    words: &Words<P>,
    seat: &mut TableSeat,
    limits: &Layout,
    actor: u8,
    step: &Step<&Record>,
    begun: Option<&Command>,
    reply: Option<&Reply>,
) -> Told
    requires told { step_of_loan step.now ≡ C.step }
    requires begun { option_copied begun ≡ C.begun }
    requires reply { option_copied reply ≡ C.reply }
    requires table { IsOf limits.now words.now.key words.now.table_id seat.old.table_id }
    requires range { HasWord limits.now (step_of_loan step.now) }
    requires actor { actor < most_large_actors }
    requires seat { SitsAt limits.now actor Idle seat.old.me }
    requires may { IsLawfulStep P.law limits.now actor (seen_of seat.old.me) C.begun (step_of_loan step.now) C.reply }
    ensures same { seat.new.table_id ≡ seat.old.table_id }
    ensures seat { SitsAt limits.now actor Idle seat.new.me }
    ensures took { Took P.law limits.now actor (seen_of seat.old.me) C.begun (step_of_loan step.now) (answer_of result) C.reply (seen_of seat.new.me) }
{
    let _ = begun;
    let _ = reply;
    let operation = made_by(limits, step);
    let found = operate::<P, C>(
        words,
        seat,
        limits,
        actor,
        word_place(limits, actor, step),
        operation,
    );
    told_by(limits, step, found)
}

/// Makes the operation that the step is, and answers the number that it found; of a store, the number that it wrote.
#[inline(always)]
fn operate<P: Law, C: Telling>(
    words: &Words<P>,
    seat: &mut TableSeat,
    limits: &Layout,
    actor: u8,
    at: usize,
    operation: Operation,
) -> u64
    requires table { IsOf limits.now words.now.key words.now.table_id seat.old.table_id }
    requires range { HasWord limits.now C.step }
    requires bits { SetsBits C.step }
    requires actor { actor < most_large_actors }
    requires seat { SitsAt limits.now actor Idle seat.old.me }
    requires may { IsLawfulStep P.law limits.now actor (seen_of seat.old.me) C.begun C.step C.reply }
    requires place { at ≡ changed_word limits.now actor C.step }
    requires operation { operation ≡ operation_of C.step }
    ensures same { seat.new.table_id ≡ seat.old.table_id }
    ensures seat { SitsAt limits.now actor Idle seat.new.me }
    ensures took { Took P.law limits.now actor (seen_of seat.old.me) C.begun C.step (answer_by C.step result) C.reply (seen_of seat.new.me) }
{
    let _ = limits;
    let _ = actor;
    operations_are_steps();
    steps_change_one_word();
    match operation {
        Operation::Load => words.load::<Acting<P, C>>(seat, at),
        Operation::Store(word) => {
            words.store::<Acting<P, C>>(seat, at, word);
            word
        }
        Operation::Exchange(old, new) => {
            words.compare_exchange::<Acting<P, C>>(seat, at, old, new)
        }
        Operation::And(bits) => words.fetch_and::<Acting<P, C>>(seat, at, bits),
        Operation::Or(bits) => words.fetch_or::<Acting<P, C>>(seat, at, bits),
    }
}
