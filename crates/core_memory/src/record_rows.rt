//! A table keeps a memory that can be read record by record.

use crate::CoreTable;
use deltas::{Record, RecordRows};
use std::alloc::Allocator;

impl<A: Allocator> RecordRows for CoreTable<A> {
    ghost use Rattle.std.specs.Prelude.{◌≡◌};
    ghost use Rattle.core_memory.specs.Tables.{memory_in};

    ghost has = { λ table memory. memory ≡ memory_in table };

    ghost pids = { λ table. table.limits.pids };

    fn slot(&self, pid: u32) -> u32 {
        self.slot(pid)
    }

    fn record(&self, row: u32) -> Record {
        match self.record(row) {
            Some(record) => record,
            None => unreachable!(),
        }
    }
}
