//! Steps and answers whose records are shared.
ghost use Rattle.std.specs.Prelude.{◌≡◌, IfOk, OnErr};
ghost use Rattle.bw_model.specs.Lent.{step_of_loan};
ghost use Rattle.traces.specs.trace.Steps.{MovesRecord};
ghost use Rattle.core_memory.specs.Shared.{PlacesSpellable};

use crate::SharedRecord;
use bw_model::{Answer, Step};
use deltas::Record;
use std::alloc::{AllocError, Allocator};

/// The step with a record of its own.
pub(crate) fn step_of<A: Allocator>(step: &Step<SharedRecord<A>>) -> Step<Record>
    ensures { result ≡ step.now }
{
    match step {
        Step::Slot(pid) => Step::Slot(*pid),
        Step::Row(row) => Step::Row(*row),
        Step::Epoch => Step::Epoch,
        Step::Announce(actor) => Step::Announce(*actor),
        Step::PidBits(word) => Step::PidBits(*word),
        Step::RowBits(word) => Step::RowBits(*word),
        Step::Place(row, content) => Step::Place(*row, content.record()),
        Step::Exchange(slot, old, new) => Step::Exchange(*slot, *old, *new),
        Step::TakePid(pid) => Step::TakePid(*pid),
        Step::TakeRow(row) => Step::TakeRow(*row),
        Step::Enter(epoch) => Step::Enter(*epoch),
        Step::Leave => Step::Leave,
        Step::Retire(epoch) => Step::Retire(*epoch),
        Step::ReusePids(word, bits) => Step::ReusePids(*word, *bits),
        Step::ReuseRows(word, bits) => Step::ReuseRows(*word, *bits),
    }
}

/// The step with a record of its own that may be shared; refused for want of memory alone.
pub fn shared_step<A: Allocator + Copy>(
    alloc: A,
    step: &Step<&Record>,
) -> Result<Step<SharedRecord<A>>, AllocError>
    requires { PlacesSpellable (step_of_loan step.now) }
    ensures ok { IfOk result (λ shared. shared ≡ step_of_loan step.now) }
    ensures err { OnErr result (MovesRecord (step_of_loan step.now)) }
{
    Ok(match step {
        Step::Slot(pid) => Step::Slot(*pid),
        Step::Row(row) => Step::Row(*row),
        Step::Epoch => Step::Epoch,
        Step::Announce(actor) => Step::Announce(*actor),
        Step::PidBits(word) => Step::PidBits(*word),
        Step::RowBits(word) => Step::RowBits(*word),
        Step::Place(row, content) => { Step::Place(*row, SharedRecord::new(alloc, content)?) }
        Step::Exchange(slot, old, new) => Step::Exchange(*slot, *old, *new),
        Step::TakePid(pid) => Step::TakePid(*pid),
        Step::TakeRow(row) => Step::TakeRow(*row),
        Step::Enter(epoch) => Step::Enter(*epoch),
        Step::Leave => Step::Leave,
        Step::Retire(epoch) => Step::Retire(*epoch),
        Step::ReusePids(word, bits) => Step::ReusePids(*word, *bits),
        Step::ReuseRows(word, bits) => Step::ReuseRows(*word, *bits),
    })
}

/// The step again, with one owner more of its record; refused where there are as many as can be counted.
pub fn step_again<A: Allocator>(
    step: &Step<SharedRecord<A>>,
) -> Result<Step<SharedRecord<A>>, AllocError>
    ensures ok { IfOk result (λ again. again ≡ step.now) }
    ensures err { OnErr result (MovesRecord step.now) }
{
    Ok(match step {
        Step::Slot(pid) => Step::Slot(*pid),
        Step::Row(row) => Step::Row(*row),
        Step::Epoch => Step::Epoch,
        Step::Announce(actor) => Step::Announce(*actor),
        Step::PidBits(word) => Step::PidBits(*word),
        Step::RowBits(word) => Step::RowBits(*word),
        Step::Place(row, content) => Step::Place(*row, content.try_clone()?),
        Step::Exchange(slot, old, new) => Step::Exchange(*slot, *old, *new),
        Step::TakePid(pid) => Step::TakePid(*pid),
        Step::TakeRow(row) => Step::TakeRow(*row),
        Step::Enter(epoch) => Step::Enter(*epoch),
        Step::Leave => Step::Leave,
        Step::Retire(epoch) => Step::Retire(*epoch),
        Step::ReusePids(word, bits) => Step::ReusePids(*word, *bits),
        Step::ReuseRows(word, bits) => Step::ReuseRows(*word, *bits),
    })
}

/// The answer with a record of its own.
pub(crate) fn answer_of<A: Allocator>(answer: &Answer<SharedRecord<A>>) -> Answer<Record>
    ensures { result ≡ answer.now }
{
    match answer {
        Answer::Start => Answer::Start,
        Answer::Number(number) => Answer::Number(*number),
        Answer::Content(content) => Answer::Content(content.record()),
        Answer::Whether(whether) => Answer::Whether(*whether),
        Answer::Done => Answer::Done,
    }
}
