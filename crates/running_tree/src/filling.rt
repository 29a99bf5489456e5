//! A seat upserts pairs, one after the other.
ghost use Rattle.std.specs.Prelude.{◌≡◌, IfErr, IfOk, MatchOption, None};
ghost use Rattle.running_tree.specs.Loaded.{CallsOff, GoesOnAfter, HasLoaded, HasStopped};
ghost use Rattle.running_tree.specs.Runs.{IsOneHistory};
ghost use Rattle.running_tree.specs.Seats.{IsSame, unfinished_command};
ghost use Rattle.running_tree.specs.Trees.{IsSeatOf};

use crate::called::{Called, LoadStop};
use crate::seat::BwSeat;
use crate::tree::Tree;
use bw_model::{Command, Key, Reply, Value};
use std::alloc::Allocator;

/// How many steps the upsert of a pair may take.
pub const LOAD_BUDGET: u32 = 65_536;

impl<A: Allocator> Tree<A> {
    /// Upserts the pairs on an idle seat, in their order, each within `LOAD_BUDGET` steps, until one is refused. It allocates nothing. What
    /// came before a stop stays: after `Full` the seat is idle, after `Spent` its operation is to be resumed.
    pub fn load(&self, seat: &mut BwSeat<A>, pairs: &[(Key, Value)]) -> Result<(), LoadStop>
        requires own { IsSeatOf self.now seat.old }
        requires idle { unfinished_command seat.old ≡ None }
        ensures same { IsSame seat.old seat.new }
        ensures loaded { IfOk result (λ _. HasLoaded seat.old pairs.now seat.new) }
        ensures stopped { IfErr result (λ stop. HasStopped seat.old pairs.now LOAD_BUDGET stop seat.new) }
        ensures history { IsOneHistory seat.new.limits seat.new.seen }
    {
        for (place, pair) in pairs.iter().enumerate() {
            let command = Command::Upsert(pair.0.copied(), pair.1.copied());
            let called = self.call(seat, command, LOAD_BUDGET);
            if let Some(stop) = stop_of(&called, place) {
                return Err(stop);
            }
        }
        seat.saw_one_history();
        Ok(())
    }
}

/// Whether a load ends at a pair whose upsert came to this.
fn stop_of(called: &Called, place: usize) -> Option<LoadStop>
    ensures { MatchOption result (GoesOnAfter called.now) (CallsOff called.now place) }
{
    match called {
        Called::Done(Reply::Full) => Some(LoadStop::Full(place)),
        Called::Done(_) => None,
        Called::Spent => Some(LoadStop::Spent(place)),
    }
}
