//! What an exchange took out of the tree comes into limbo.
ghost use Rattle.std.specs.Prelude.{◌≡◌};
ghost use Rattle.sweep.specs.Taken.{AreNew, with_taken};

use epochs::{Item, Limbo};
use std::alloc::Allocator;

/// These rows were unlinked, and the PID, if there is one.
pub fn take_out<A: Allocator>(limbo: &mut Limbo<A>, rows: &[u32], pid: Option<u32>)
    requires { AreNew rows.now pid limbo.old }
    ensures { limbo.new ≡ with_taken rows.now pid limbo.old }
{
    for row in rows {
        limbo.unlinked(Item::Row(*row));
    }
    if let Some(pid) = pid {
        limbo.unlinked(Item::Pid(pid));
    }
}
