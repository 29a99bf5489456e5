//! What ran out for a seat's last operation.
ghost use Rattle.running_tree.specs.Lacking.{IsLacking};

use crate::seat::BwSeat;
use change_machine::Kind;
use std::alloc::Allocator;

impl<A: Allocator> BwSeat<A> {
    /// The kind that ran out, if the operation that the seat began last has replied `Full`: that operation read each word of free PIDs, or
    /// of the free rows that have room for any record, as 0, each at a moment of its own. None if it has another reply, or none yet. It takes
    /// no step and reads no word.
    pub fn lacking(&self) -> Option<Kind>
        ensures { IsLacking self.now result }
    {
        self.actor.lacks()
    }
}
