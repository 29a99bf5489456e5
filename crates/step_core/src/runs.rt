//! A run of turns from the opening state.
ghost use Rattle.std.specs.Prelude.{◌≡◌, map, IfOk, IfErr};
ghost use Rattle.traces.specs.trace.Trace.{turn_of};
ghost use Rattle.linearization.specs.Linearized.{IsLinearized, IsOrderly};
ghost use Rattle.step_core.specs.Turns.{Stops};

use crate::event::{RunError, Trace};
use crate::machine::Core;
use bw_model::Limits;
use std::alloc::Allocator;
use traces::Turn;

/// Opens a core and takes all turns. A refused run answers no trace; where no core was opened, it is refused for want of
/// memory at turn 0.
pub fn run<A: Allocator + Copy>(
    alloc: A,
    limits: Limits,
    turns: &[Turn],
) -> Result<Trace<A>, RunError>
    ensures turns { IfOk result (λ trace. map turn_of trace.entries.items ≡ turns.now) }
    ensures linearized { IfOk result (λ trace. IsLinearized limits turns.now trace.entries.items) }
    ensures orderly { IfOk result (λ trace. IsOrderly limits trace.entries.items) }
    ensures err { IfErr result (Stops limits turns.now) }
{
    let mut core = match Core::<A>::open(alloc, limits) {
        Ok(core) => core,
        Err(_) => return Err(RunError::Memory(0)),
    };
    let taken = core.take_turns(turns);
    match taken {
        Ok(()) => Ok(core.into_trace()),
        Err(error) => Err(error),
    }
}
