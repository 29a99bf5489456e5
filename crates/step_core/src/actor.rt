//! One actor of a core: what its step needs of memory, and how it is taken.
ghost use Rattle.std.specs.Prelude.{◌≡◌, ◌≢◌, ℕ, IfOk, IsSome, None, OnErr, Some, is_some, true};
ghost use Rattle.op_machine.specs.machine.Actors.{ActsOn, IsActorShown, running_command, wanted_by};
ghost use Rattle.tree_limits.specs.declared.limits.Limits.{Limits};
ghost use Rattle.traces.specs.discipline.Knowledge.{Knowledge};
ghost use Rattle.traces.specs.discipline.Recalled.{Recalled};
ghost use Rattle.traces.specs.trace.Steps.{IsAnswer, memory_after};
ghost use Rattle.core_memory.specs.Tables.{memory_in};
ghost use Rattle.step_core.specs.Actors.{IsReady, IsWithinAt, NeedsRoom};
ghost use Rattle.step_core.specs.Turns.{KeepsMore, link_told};

use crate::link::exchange_link;
use bw_model::{Answer, Command, Link, Reply, Step, Told};
use core_memory::{
    BoxedPairs, BoxedReply, CoreRows, CoreTable, SharedRecord, shared_step, step_again,
};
use op_machine::Actor;
use row_search::RowAt;
use std::alloc::{AllocError, Allocator};

/// A step with its answer, before it is taken: `step` for its entry, and the same again for the memory.
#[derive(Drop)]
pub(crate) struct Ready<A: Allocator> {
    step: Step<SharedRecord<A>>,
    again: Step<SharedRecord<A>>,
    answer: Answer<SharedRecord<A>>,
}

/// A step as it went, of an operation that goes on.
#[derive(Drop)]
pub(crate) struct Stepped<A: Allocator> {
    pub(crate) step: Step<SharedRecord<A>>,
    pub(crate) answer: Answer<SharedRecord<A>>,
}

/// What the step that an actor's operation wants needs of memory, and its answer; refused only where it keeps more than an entry.
pub(crate) fn prepare<A: Allocator + Copy>(
    alloc: A,
    actor: &Actor<CoreRows<A>, A>,
    number: u8,
    memory: &CoreTable<A>,
) -> Result<Ready<A>, AllocError>
    requires shown { IsActorShown actor.now }
    requires running { is_some (running_command actor.now) ≡ true }
    requires within { IsWithinAt memory.now number (wanted_by actor.now.running) }
    ensures wanted { IfOk result (λ ready. wanted_by actor.now.running ≡ Some ready.step) }
    ensures answer { IfOk result (λ ready. IsAnswer (memory_in memory.now) ready.step ready.answer) }
    ensures again { IfOk result (λ ready. ready.again ≡ ready.step) }
    ensures err { OnErr result (KeepsMore (running_command actor.now) (wanted_by actor.now.running)) }
{
    let step = shared_step(alloc, &actor.wanted())?;
    let again = step_again(&step)?;
    let answer = memory.answer(number, &step)?;
    Ok(Ready {
        step,
        again,
        answer,
    })
}

/// Takes the one step that the actor's operation wants, which isn't the leave.
pub(crate) fn go_on<A: Allocator>(
    actor: &mut Actor<CoreRows<A>, A>,
    number: u8,
    memory: &mut CoreTable<A>,
    ready: Ready<A>,
) -> Stepped<A>
    requires running { is_some (running_command actor.old) ≡ true }
    requires stays { wanted_by actor.old.running ≢ Some Step.Leave }
    requires knows { (limits : Limits) × (k : Knowledge) × (r : Recalled) × IsReady limits number k r (memory_in memory.old) actor.old }
    requires within { IsWithinAt memory.old number (wanted_by actor.old.running) }
    requires wanted { wanted_by actor.old.running ≡ Some ready.step }
    requires answer { IsAnswer (memory_in memory.old) ready.step ready.answer }
    requires again { ready.again ≡ ready.step }
    ensures goes { (limits : Limits) (k : Knowledge) (r : Recalled) → IsReady limits number k r (memory_in memory.old) actor.old
        → ActsOn limits number k r actor.old result.step result.answer None actor.new }
    ensures limits { memory.new.limits ≡ memory.old.limits }
    ensures wanted { wanted_by actor.old.running ≡ Some result.step }
    ensures answer { IsAnswer (memory_in memory.old) result.step result.answer }
    ensures memory { memory_in memory.new ≡ memory_after number result.step (memory_in memory.old) }
    ensures command { running_command actor.new ≡ running_command actor.old }
{
    let Ready {
        step,
        again,
        answer,
    } = ready;
    tell(actor, &step, &answer, memory);
    memory.take(number, again);
    Stepped { step, answer }
}

/// Tells the actor the answer to the step that its operation wants, which isn't the leave. It looks at a record that it has read where that
/// lies in the memory.
fn tell<A: Allocator>(
    actor: &mut Actor<CoreRows<A>, A>,
    step: &Step<SharedRecord<A>>,
    answer: &Answer<SharedRecord<A>>,
    memory: &mut CoreTable<A>,
)
    requires running { is_some (running_command actor.old) ≡ true }
    requires stays { wanted_by actor.old.running ≢ Some Step.Leave }
    requires knows { (limits : Limits) × (number : ℕ) × (k : Knowledge) × (r : Recalled) × IsReady limits number k r (memory_in memory.old) actor.old }
    requires wanted { wanted_by actor.old.running ≡ Some step.now }
    requires answer { IsAnswer (memory_in memory.old) step.now answer.now }
    ensures goes { (limits : Limits) (number : ℕ) (k : Knowledge) (r : Recalled) → IsReady limits number k r (memory_in memory.old) actor.old
        → ActsOn limits number k r actor.old step.now answer.now None actor.new }
    ensures command { running_command actor.new ≡ running_command actor.old }
    ensures same { memory.new ≡ memory.old }
{
    match answer {
        Answer::Start => actor.go_on(Told::Start),
        Answer::Number(number) => actor.go_on(Told::Number(*number)),
        Answer::Content(content) => {
            let Step::Row(row) = step else { unreachable!() };
            content.keeps_spelling();
            let record = RowAt::<CoreRows<A>>::of(*row, content.word(0), memory);
            actor.take_record(record, &CoreRows::<A>::new(), memory);
        }
        Answer::Whether(whether) => actor.go_on(Told::Whether(*whether)),
        Answer::Done => actor.go_on(Told::Done),
    }
}

impl<A: Allocator> Stepped<A> {
    /// What the step did, by the memory after it, if it is an exchange that won.
    pub(crate) fn link(&self, memory: &CoreTable<A>) -> Option<Link>
        ensures { result ≡ link_told (memory_in memory.now) self.now.step self.now.answer }
    {
        match (&self.step, &self.answer) {
            (Step::Exchange(slot, old, new), Answer::Whether(true)) => {
                exchange_link(memory, *slot, *old, *new)
            }
            _ => None,
        }
    }
}

/// Room for the pairs of a page, where the actor's operation ends with one, of either direction.
pub(crate) fn room<A: Allocator>(
    alloc: A,
    actor: &Actor<CoreRows<A>, A>,
) -> Result<Option<BoxedPairs<A>>, AllocError>
    requires leaves { wanted_by actor.now.running ≡ Some Step.Leave }
    ensures some { IfOk result (λ room. NeedsRoom actor.now → IsSome room) }
    ensures err { OnErr result (KeepsMore (running_command actor.now) (wanted_by actor.now.running)) }
{
    match actor.command() {
        Some(Command::Page(_)) => Ok(Some(BoxedPairs::<A>::new(alloc)?)),
        Some(Command::Back(_)) => Ok(Some(BoxedPairs::<A>::new(alloc)?)),
        _ => Ok(None),
    }
}

/// Takes the leave that the actor's operation wants, and answers the reply; a page has room for its pairs.
pub(crate) fn leave<A: Allocator>(
    actor: &mut Actor<CoreRows<A>, A>,
    number: u8,
    memory: &mut CoreTable<A>,
    room: Option<BoxedPairs<A>>,
) -> BoxedReply<A>
    requires running { is_some (running_command actor.old) ≡ true }
    requires leaves { wanted_by actor.old.running ≡ Some Step.Leave }
    requires knows { (limits : Limits) × (k : Knowledge) × (r : Recalled) × IsReady limits number k r (memory_in memory.old) actor.old }
    requires within { IsWithinAt memory.old number (wanted_by actor.old.running) }
    requires room { NeedsRoom actor.old → IsSome room }
    ensures goes { (limits : Limits) (k : Knowledge) (r : Recalled) → IsReady limits number k r (memory_in memory.old) actor.old
        → ActsOn limits number k r actor.old Step.Leave Answer.Done (Some result) actor.new }
    ensures limits { memory.new.limits ≡ memory.old.limits }
    ensures memory { memory_in memory.new ≡ memory_after number Step.Leave (memory_in memory.old) }
    ensures command { running_command actor.new ≡ None }
{
    memory.take(number, Step::Leave);
    let mut reply = Reply::None;
    actor.leave(&mut reply);
    BoxedReply::<A>::new(reply, room)
}
