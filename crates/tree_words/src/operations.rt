//! Steps as atomic operations: on which word, by which operation, and what the number that it finds tells.
ghost use Rattle.std.specs.Prelude.{◌≡◌, ◌%◌, ◌^◌};
ghost use Rattle.bw_model.specs.Answers.{answer_of};
ghost use Rattle.bw_model.specs.Lent.{step_of_loan};
ghost use Rattle.tree_words.specs.Changes.{HasWord, SetsBits, changed_word, operation_of, answer_by};

use crate::places::{Layout, announced_place, epoch_place, pid_bits_place, row_bits_place};
use bw_model::{Step, Told};
use deltas::Record;

/// An atomic operation on a word.
#[derive(Clone, Copy)]
pub enum Operation {
    /// Leaves the word as it is.
    Load,
    /// Writes this number.
    Store(u64),
    /// Writes the second number where it finds the first (compare-and-exchange).
    Exchange(u64, u64),
    /// Keeps these bits alone (fetch-and).
    And(u64),
    /// Sets these bits (fetch-or).
    Or(u64),
}

/// The place of the word of an actor's step.
#[inline(always)]
pub fn word_place(limits: &Layout, actor: u8, step: &Step<&Record>) -> usize
    requires { HasWord limits.now (step_of_loan step.now) }
    ensures { result ≡ changed_word limits.now actor (step_of_loan step.now) }
{
    match step {
        Step::Slot(pid) | Step::Exchange(pid, _, _) => limits.slot(*pid),
        Step::Epoch | Step::Retire(_) => epoch_place(),
        Step::Announce(other) => announced_place(*other),
        Step::PidBits(word) | Step::ReusePids(word, _) => pid_bits_place(limits.limits(), *word),
        Step::RowBits(word) | Step::ReuseRows(word, _) => row_bits_place(limits.limits(), *word),
        Step::TakePid(pid) => pid_bits_place(limits.limits(), *pid / 64),
        Step::TakeRow(row) => row_bits_place(limits.limits(), *row / 64),
        Step::Enter(_) | Step::Leave => announced_place(actor),
        Step::Row(_) | Step::Place(_, _) => unreachable!(),
    }
}

/// The operation that a step is.
#[inline(always)]
pub fn made_by(limits: &Layout, step: &Step<&Record>) -> Operation
    requires { HasWord limits.now (step_of_loan step.now) }
    ensures made { result ≡ operation_of (step_of_loan step.now) }
    ensures bits { SetsBits (step_of_loan step.now) }
{
    let _ = limits;
    match step {
        Step::Exchange(_, old, new) => Operation::Exchange(u64::from(*old), u64::from(*new)),
        Step::TakePid(number) | Step::TakeRow(number) => Operation::And(!bit(*number)),
        Step::Enter(epoch) => Operation::Store(*epoch),
        Step::Leave => Operation::Store(0),
        Step::Retire(epoch) => Operation::Exchange(*epoch, *epoch + 1),
        Step::ReusePids(_, bits) | Step::ReuseRows(_, bits) => Operation::Or(*bits),
        _ => Operation::Load,
    }
}

/// What a step is told by the number that it found in its word.
#[inline(always)]
pub fn told_by(limits: &Layout, step: &Step<&Record>, found: u64) -> Told
    requires { HasWord limits.now (step_of_loan step.now) }
    ensures { answer_of result ≡ answer_by (step_of_loan step.now) found }
{
    let _ = limits;
    match step {
        Step::Exchange(_, old, _) => Told::Whether(found == u64::from(*old)),
        Step::TakePid(number) | Step::TakeRow(number) => Told::Whether(found & bit(*number) != 0),
        Step::Retire(epoch) => Told::Whether(found == *epoch),
        Step::Enter(_) | Step::Leave | Step::Place(_, _) => Told::Done,
        Step::ReusePids(_, _) | Step::ReuseRows(_, _) => Told::Done,
        _ => Told::Number(found),
    }
}

/// The bit of a number in its word.
fn bit(number: u32) -> u64
    ensures { result ≡ 2 ^ (number % 64) }
{
    1 << (number % 64)
}
