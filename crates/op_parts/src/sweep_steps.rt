//! The sweep with which a writer's operation begins, as steps of the operation.
ghost use Rattle.std.specs.Prelude.{◌≡◌};
ghost use Rattle.bw_model.specs.Lent.{step_of_loan};
ghost use Rattle.traces.specs.discipline.Discipline.{May, MayFree};
ghost use Rattle.traces.specs.discipline.Knowledge.{Knowledge};
ghost use Rattle.traces.specs.discipline.Useful.{IsUseful};
ghost use Rattle.traces.specs.trace.Within.{IsWithin};
ghost use Rattle.linearization.specs.Halves.{IsHalved};
ghost use Rattle.epochs.specs.Limbo.{Limbo as LimboSeen};
ghost use Rattle.sweep.specs.Sweeps.{Shows as ShowsSweep, wanted_step as sweep_wants};

use bw_model::Step;
use deltas::Record;
use sweep::Sweep;

/// The step that a sweep wants, among steps that lend the record that they place.
#[inline(never)]
pub fn sweeping<'a>(sweep: &Sweep) -> Step<&'a Record>
    ensures wanted { step_of_loan result ≡ sweep_wants sweep.now }
    ensures within { IsWithin sweep.now.limits (step_of_loan result) }
    ensures may { (limbo : LimboSeen) (k : Knowledge) → ShowsSweep sweep.now limbo k → May sweep.now.actor k (step_of_loan result) }
    ensures frees { (limbo : LimboSeen) (k : Knowledge) → ShowsSweep sweep.now limbo k → MayFree sweep.now.limits sweep.now.actor k (step_of_loan result) }
    ensures useful { (k : Knowledge) → IsUseful k (step_of_loan result) }
    ensures halved { (k : Knowledge) → IsHalved k (step_of_loan result) }
{
    match sweep.step() {
        Step::Epoch => Step::Epoch,
        Step::Retire(epoch) => Step::Retire(epoch),
        Step::Announce(actor) => Step::Announce(actor),
        Step::ReuseRows(word, bits) => Step::ReuseRows(word, bits),
        Step::ReusePids(word, bits) => Step::ReusePids(word, bits),
        _ => unreachable!(),
    }
}
