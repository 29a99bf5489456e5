//! A memory that stands still, and can be read record by record.

use crate::Record;

/// What keeps a memory: slots of pages, and rows of records.
pub trait RecordRows {
    ghost use Rattle.std.specs.Prelude.{◌≡◌, ◌<◌, ℕ, Some};
    ghost use Rattle.deltas.specs.Memory.{Memory};
    ghost use Rattle.deltas.specs.declared.record.Record.{Record};

    ghost has: { Self → Memory → Type 0 };

    // how many PIDs there are
    ghost pids: { Self → ℕ };

    /// The number in the slot of a PID, where it is a row with a record.
    fn slot(&self, pid: u32) -> u32
        requires range { pid < pids self.now }
        requires stands { (memory : Memory) × (content : Record) × has self.now memory × (memory.rows (memory.slots pid) ≡ Some content) }
        ensures { (memory : Memory) → has self.now memory → result ≡ memory.slots pid };

    /// The record that was placed last in a row.
    fn record(&self, row: u32) -> Record
        requires { (memory : Memory) × (content : Record) × has self.now memory × (memory.rows row ≡ Some content) }
        ensures { (memory : Memory) → has self.now memory → memory.rows row ≡ Some result };
}
