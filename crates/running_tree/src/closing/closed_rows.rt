//! The words of a closed table, as the slots and rows of a memory.
ghost use Rattle.std.specs.Prelude.{◌≡◌, ◌<◌, ℕ, Some, true, false, length, slice_index};
ghost use Rattle.deltas.specs.Memory.{Memory};
ghost use Rattle.deltas.specs.declared.record.Record.{Record as RecordSeen};
ghost use Rattle.compact_rows.specs.Seen.{seen};
ghost use Rattle.record_slots.specs.Layout.{last_at, row_size};
ghost use Rattle.running_tree.specs.Closed.{AreFilled, KeepMemory};
ghost use Rattle.tree_words.specs.Layout.{row_at};

use atomic_table::Closed;
use bw_model::Limits;
use compact_rows::seen_in;
use deltas::{Record, RecordRows};
use record_slots::{ROW_WORDS, read_words, rows_have_words, spelling_is_one};
use std::alloc::Allocator;
use tree_words::{row_place, slot_place};

/// The words of a closed table.
#[derive(Drop)]
pub(crate) struct ClosedRows<'a, A: Allocator> {
    pub(crate) limits: &'a Limits,
    pub(crate) closed: &'a Closed<(), A>,
}

impl<'a, A: Allocator> RecordRows for ClosedRows<'a, A> {
    ghost use Rattle.running_tree.specs.Closed.{AreFilled, KeepMemory};

    ghost has = { λ rows memory. AreFilled rows.closed.now.words.filled rows.closed.now.words.len × KeepMemory rows.limits.now rows.closed.now.words.items memory };

    ghost pids = { λ rows. rows.limits.now.pids };

    fn slot(&self, pid: u32) -> u32 {
        self.closed.word(slot_place(self.limits, pid)) as u32
    }

    fn record(&self, row: u32) -> Record {
        if self.limits.is_large {
            compact_record(self, row)
        } else {
            spelt_record(self, row)
        }
    }
}

/// The record of a row of a small tree.
fn spelt_record<A: Allocator>(rows: &ClosedRows<A>, row: u32) -> Record
    requires stands { (memory : Memory) × (content : RecordSeen)
        × (AreFilled rows.now.closed.now.words.filled rows.now.closed.now.words.len × KeepMemory rows.now.limits.now rows.now.closed.now.words.items memory)
        × (memory.rows row ≡ Some content) }
    requires small { rows.now.limits.now.is_large ≡ false }
    ensures { (memory : Memory) → AreFilled rows.now.closed.now.words.filled rows.now.closed.now.words.len × KeepMemory rows.now.limits.now rows.now.closed.now.words.items memory
        → memory.rows row ≡ Some result }
{
    rows_have_words();
    spelling_is_one();
    match read_words(&row_of(rows.limits, rows.closed, row)) {
        Ok(record) => record,
        Err(_) => unreachable!(),
    }
}

/// The record of a row of a large tree.
fn compact_record<A: Allocator>(rows: &ClosedRows<A>, row: u32) -> Record
    requires stands { (memory : Memory) × (content : RecordSeen)
        × (AreFilled rows.now.closed.now.words.filled rows.now.closed.now.words.len × KeepMemory rows.now.limits.now rows.now.closed.now.words.items memory)
        × (memory.rows row ≡ Some content) }
    requires large { rows.now.limits.now.is_large ≡ true }
    ensures { (memory : Memory) → AreFilled rows.now.closed.now.words.filled rows.now.closed.now.words.len × KeepMemory rows.now.limits.now rows.now.closed.now.words.items memory
        → memory.rows row ≡ Some result }
{
    rows_have_words();
    spelling_is_one();
    match read_words(&spread(&row_of(rows.limits, rows.closed, row))) {
        Ok(record) => record,
        Err(_) => unreachable!(),
    }
}

/// The words of the spelling of the record that begins with these words.
fn spread(words: &[u64; ROW_WORDS]) -> [u64; ROW_WORDS]
    ensures long { length result ≡ row_size }
    ensures words { (at : ℕ) → at < row_size → slice_index result at ≡ seen words.now at }
{
    let mut row = [0; ROW_WORDS];
    for at in 0..ROW_WORDS {
        row[at] = seen_in(words, at);
    }
    row
}

/// The words of a row, and of those behind it as many as a wide row has more.
fn row_of<A: Allocator>(limits: &Limits, closed: &Closed<(), A>, row: u32) -> [u64; ROW_WORDS]
    requires full { AreFilled closed.now.words.filled closed.now.words.len }
    requires range { row < limits.now.rows }
    requires there { row_at limits.now row last_at < closed.now.words.len }
    ensures long { length result ≡ row_size }
    ensures words { (j : ℕ) → j < row_size → slice_index result j ≡ slice_index closed.now.words.items (row_at limits.now row j) }
{
    let mut words = [0; ROW_WORDS];
    let base = row_place(limits, row);
    for j in 0..ROW_WORDS {
        words[j] = closed.word(base + j);
    }
    words
}
