//! What an exchange that won has done.
ghost use Rattle.std.specs.Prelude.{◌≡◌};
ghost use Rattle.core_memory.specs.Tables.{memory_in};
ghost use Rattle.linearization.specs.Links.{link_of, link_without};

use bw_model::Link;
use core_memory::CoreTable;
use deltas::Record;
use std::alloc::Allocator;

/// What the exchange of the slot from `old` to `new` does where it wins, by the records of the table. Not inlined: no other step needs room for a record.
#[inline(never)]
pub(crate) fn exchange_link<A: Allocator>(
    table: &CoreTable<A>,
    slot: u32,
    old: u32,
    new: u32,
) -> Option<Link>
    ensures { result ≡ link_of (memory_in table.now) slot old new }
{
    if slot == 0 {
        Some(Link::Root)
    } else if old == 0 {
        Some(Link::Ready)
    } else if new == 0 {
        match table.record(old) {
            None => None,
            Some(newest) => Some(emptied_link(&newest)),
        }
    } else {
        match table.record(new) {
            None => None,
            Some(placed) => Some(placed.link()),
        }
    }
}

/// What it does to empty a slot whose newest record is this one.
fn emptied_link(newest: &Record) -> Link
    ensures { result ≡ link_without newest.now }
{
    match newest {
        Record::Remove(_) => Link::Clear,
        _ => Link::Undo,
    }
}
