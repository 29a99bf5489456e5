//! How many PIDs and rows of a memory are free.
ghost use Rattle.std.specs.Prelude.{◌≡◌};
ghost use Rattle.core_memory.specs.Tables.{memory_in};
ghost use Rattle.deltas.specs.Memory.{how_many};

use core_memory::CoreTable;
use std::alloc::Allocator;

/// How many PIDs are free.
pub fn free_pids<A: Allocator>(table: &CoreTable<A>, pids: u64) -> u64
    requires { pids ≡ table.now.limits.pids }
    ensures { result ≡ how_many (memory_in table.now).free_pids pids }
{
    let mut count = 0;
    for pid in 0..pids {
        if table.is_free_pid(pid as u32) {
            count += 1;
        }
    }
    count
}

/// How many rows are free.
pub fn free_rows<A: Allocator>(table: &CoreTable<A>, rows: u64) -> u64
    requires { rows ≡ table.now.limits.rows }
    ensures { result ≡ how_many (memory_in table.now).free_rows rows }
{
    let mut count = 0;
    for row in 0..rows {
        if table.is_free_row(row as u32) {
            count += 1;
        }
    }
    count
}
