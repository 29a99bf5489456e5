//! What stands in a core, for who looks at it. Nothing here is a turn.
ghost use Rattle.std.specs.Prelude.{◌≡◌, Some, nat_lt, is_some, slice_get, IfSome};
ghost use Rattle.op_machine.specs.machine.Actors.{IsActor, running_command, wanted_by};
ghost use Rattle.traces.specs.discipline.Knowledge.{knows};
ghost use Rattle.traces.specs.discipline.Recalled.{recalls};
ghost use Rattle.core_memory.specs.Tables.{memory_in};
ghost use Rattle.traces.specs.trace.Trace.{command_of, memory_of};
ghost use Rattle.tree_law.specs.LevelPages.{HasAllLevels};

use super::Core;
use core_memory::{CoreRows, CoreTable, Entries};
use op_machine::Actor;
use std::alloc::Allocator;
use tree_law::levels_stand;

impl<A: Allocator> Core<A> {
    /// The memory after the turns so far, all levels of which stand.
    pub fn memory(&self) -> &CoreTable<A>
        ensures memory { memory_in result.now ≡ memory_of self.now.limits self.now.entries }
        ensures limits { result.now.limits ≡ self.now.limits }
        ensures levels { HasAllLevels self.now.limits (memory_of self.now.limits self.now.entries) }
    {
        levels_stand();
        &self.memory
    }

    /// What was done in the turns so far.
    pub fn entries(&self) -> &Entries<A>
        ensures { result.now.items ≡ self.now.entries }
    {
        &self.trace
    }

    /// The actor of a number, if there is one: it has the operation that the trace says, wants the step that it will take next, and its
    /// spares and its limbo are exactly what its own entries show as taken and not linked, and as taken out of the tree and not freed.
    pub fn actor(&self, number: u8) -> Option<&Actor<CoreRows<A>, A>>
        ensures there { is_some result ≡ nat_lt number self.now.limits.actors }
        ensures keeps { IfSome result (λ actor. IsActor self.now.limits number (knows self.now.entries number) (recalls self.now.entries number) actor.now) }
        ensures command { IfSome result (λ actor. running_command actor.now ≡ command_of self.now.entries number) }
        ensures wanted { IfSome result (λ actor. slice_get self.now.demand.wanted number ≡ Some (wanted_by actor.now.running)) }
    {
        match self.actors.get(usize::from(number)) {
            None => None,
            Some(actor) => Some(actor),
        }
    }
}
