//! The memory that all actors share, and what one step makes of it.
ghost use Rattle.std.specs.Prelude.{◌≡◌, ◌<◌, ◌≤◌, ◌*◌, ◌%◌, ◌&&◌, ◌||◌, None, false, length, nat_le, nat_lt, replicate, slice_index, slice_set, IfOk, OnErr, Some};
ghost use Rattle.base_page.specs.Pages.{empty_leaf};
ghost use Rattle.deltas.specs.Memory.{opening, replaced_at};
ghost use Rattle.deltas.specs.declared.record.Record.{Record as RecordOf};
ghost use Rattle.record_slots.specs.Spelling.{words_of};
ghost use Rattle.tree_limits.specs.Words.{is_among};
ghost use Rattle.traces.specs.trace.Steps.{IsAnswer, IsWordOf, MovesRecord, memory_after};
ghost use Rattle.core_memory.specs.Tables.{IsWithinTable, is_bit_set, memory_in};

use crate::SharedRecord;
use base_page::Page;
use bw_model::{Answer, Limits, Step};
use deltas::Record;
use std::alloc::{AllocError, Allocator, Global};
use std::marker::Model;

/// Slots and records by number, words of free bits, the epoch, and what each actor announced.
pub struct CoreTable<A: Allocator = Global> {
    limits: Limits,
    slots: Vec<u32, A>,
    rows: Vec<Option<SharedRecord<A>>, A>,
    pid_bits: Vec<u64, A>,
    row_bits: Vec<u64, A>,
    epoch: u64,
    announced: Vec<u64, A>,
}

impl<A: Allocator> Drop for CoreTable<A> {
    fn drop(self) {
        let CoreTable {
            limits: _,
            slots: _,
            rows: _,
            pid_bits: _,
            row_bits: _,
            epoch: _,
            announced: _,
        } = self;
    }
}

impl<A: Allocator> Model for CoreTable<A> {
    ghost use Rattle.core_memory.specs.Tables.{CoreTable, HasPlaces};

    ghost Value = { CoreTable };

    ghost view = { λ t. record {
      limits = t.limits;
      slots = t.slots.items;
      rows = t.rows.items;
      pid_bits = t.pid_bits.items;
      row_bits = t.row_bits.items;
      epoch = t.epoch;
      announced = t.announced.items;
    } };

    ghost invariant = { λ t. HasPlaces (record {
      limits = t.limits;
      slots = t.slots.items;
      rows = t.rows.items;
      pid_bits = t.pid_bits.items;
      row_bits = t.row_bits.items;
      epoch = t.epoch;
      announced = t.announced.items;
    }) };
}

impl<A: Allocator + Copy> CoreTable<A> {
    /// The memory before the first step; refused for want of memory alone.
    pub fn open(alloc: A, limits: &Limits) -> Result<CoreTable<A>, AllocError>
        ensures limits { IfOk result (λ table. table.limits ≡ limits.now) }
        ensures opening { IfOk result (λ table. memory_in table ≡ opening limits.now) }
    {
        let slots = opening_slots(alloc, limits.pids)?;
        let pid_bits = free_bits(alloc, limits.pids)?;
        let row_bits = free_bits(alloc, limits.rows)?;
        let announced = vec![in alloc; 0; limits.actors as usize]?;
        let rows = opening_rows(alloc, limits.rows)?;
        Ok(CoreTable {
            limits: *limits,
            slots,
            rows,
            pid_bits,
            row_bits,
            epoch: limits.epoch,
            announced,
        })
    }
}

impl<A: Allocator> CoreTable<A> {
    /// The number in a slot, or 0 where there is no such slot.
    pub fn slot(&self, pid: u32) -> u32
        ensures { result ≡ (memory_in self.now).slots pid }
    {
        self.slots.get(pid as usize).copied().unwrap_or(0)
    }

    /// The record that was placed last in a row, decoded.
    pub fn record(&self, row: u32) -> Option<Record>
        ensures { result ≡ (memory_in self.now).rows row }
    {
        match self.rows.get(row as usize) {
            Some(Some(shared)) => Some(shared.record()),
            _ => None,
        }
    }

    /// A word of the record that was placed last in a row; where none was, it is 0.
    pub fn word(&self, row: u32, at: usize) -> u64
        ensures { (content : RecordOf) → (memory_in self.now).rows row ≡ Some content → result ≡ slice_index (words_of content) at }
    {
        match self.rows.get(row as usize) {
            Some(Some(shared)) => shared.word(at),
            _ => 0,
        }
    }

    /// The epoch.
    pub fn epoch(&self) -> u64
        ensures { result ≡ (memory_in self.now).epoch }
    {
        self.epoch
    }

    /// The epoch that an actor has announced, or 0 where it is outside.
    pub fn announced(&self, actor: u8) -> u64
        ensures { result ≡ (memory_in self.now).announced actor }
    {
        self.announced.get(usize::from(actor)).copied().unwrap_or(0)
    }

    /// Whether a PID is free.
    pub fn is_free_pid(&self, pid: u32) -> bool
        requires { pid < self.now.limits.pids }
        ensures { result ≡ (memory_in self.now).free_pids pid }
    {
        is_set(&self.pid_bits, pid)
    }

    /// Whether a row is free.
    pub fn is_free_row(&self, row: u32) -> bool
        requires { row < self.now.limits.rows }
        ensures { result ≡ (memory_in self.now).free_rows row }
    {
        is_set(&self.row_bits, row)
    }

    /// What a step answers; refused only where a record that is read has as many owners as can be counted.
    pub fn answer(
        &self,
        actor: u8,
        step: &Step<SharedRecord<A>>,
    ) -> Result<Answer<SharedRecord<A>>, AllocError>
        requires { IsWithinTable self.now actor step.now }
        ensures ok { IfOk result (IsAnswer (memory_in self.now) step.now) }
        ensures err { OnErr result (MovesRecord step.now) }
    {
        // For the contract alone: the answer is the same to each actor.
        let _ = actor;
        match step {
            Step::Slot(pid) => Ok(Answer::Number(u64::from(self.slot(*pid)))),
            Step::Row(row) => match &self.rows[*row as usize] {
                Some(shared) => Ok(Answer::Content(shared.try_clone()?)),
                None => unreachable!(),
            },
            Step::Epoch => Ok(Answer::Number(self.epoch)),
            Step::Announce(other) => Ok(Answer::Number(self.announced(*other))),
            Step::PidBits(word) => Ok(Answer::Number(word_at(&self.pid_bits, *word))),
            Step::RowBits(word) => Ok(Answer::Number(word_at(&self.row_bits, *word))),
            Step::Exchange(slot, old, _) => Ok(Answer::Whether(self.slot(*slot) == *old)),
            Step::TakePid(pid) => Ok(Answer::Whether(self.is_free_pid(*pid))),
            Step::TakeRow(row) => Ok(Answer::Whether(self.is_free_row(*row))),
            Step::Retire(epoch) => Ok(Answer::Whether(self.epoch == *epoch)),
            Step::Place(_, _) | Step::Enter(_) | Step::Leave => Ok(Answer::Done),
            Step::ReusePids(_, _) | Step::ReuseRows(_, _) => Ok(Answer::Done),
        }
    }

    /// Takes one step of an actor.
    pub fn take(&mut self, actor: u8, step: Step<SharedRecord<A>>)
        requires { IsWithinTable self.old actor step }
        ensures memory { memory_in self.new ≡ memory_after actor step (memory_in self.old) }
        ensures limits { self.new.limits ≡ self.old.limits }
    {
        match step {
            Step::Slot(_) | Step::Row(_) | Step::Epoch => {}
            Step::Announce(_) | Step::PidBits(_) | Step::RowBits(_) => {}
            Step::Place(row, content) => place(&mut self.rows, row, content),
            Step::Exchange(slot, old, new) => {
                let place = slot as usize;
                if self.slots[place] == old {
                    self.slots[place] = new;
                }
            }
            Step::TakePid(pid) => clear_bit(&mut self.pid_bits, pid),
            Step::TakeRow(row) => clear_bit(&mut self.row_bits, row),
            Step::Enter(epoch) => self.announced[usize::from(actor)] = epoch,
            Step::Leave => self.announced[usize::from(actor)] = 0,
            Step::Retire(epoch) => {
                if self.epoch == epoch {
                    self.epoch = epoch + 1;
                }
            }
            Step::ReusePids(word, bits) => set_bits(&mut self.pid_bits, word, bits),
            Step::ReuseRows(word, bits) => set_bits(&mut self.row_bits, word, bits),
        }
    }
}

/// So many slots: the root is page 1, which begins in row 1.
fn opening_slots<A: Allocator>(alloc: A, count: u64) -> Result<Vec<u32, A>, AllocError>
    requires some { 64 ≤ count }
    ensures { IfOk result (λ slots. slots.items ≡ slice_set (slice_set (replicate count 0) 0 1) 1 1) }
{
    let mut slots = vec![in alloc; 0; count as usize]?;
    slots[0] = 1;
    slots[1] = 1;
    Ok(slots)
}

/// So many rows: an empty leaf is placed in row 1, and nothing in the others.
fn opening_rows<A: Allocator + Copy>(
    alloc: A,
    count: u64,
) -> Result<Vec<Option<SharedRecord<A>>, A>, AllocError>
    requires some { 64 ≤ count }
    ensures { IfOk result (λ rows. rows.items ≡ slice_set (replicate count None) 1 (Some (Record.Base empty_leaf))) }
{
    let leaf = SharedRecord::new(alloc, &Record::Base(Page::empty_leaf()))?;
    let mut rows = empty_rows(alloc, count)?;
    rows[1] = Some(leaf);
    Ok(rows)
}

/// So many rows in which nothing was placed.
fn empty_rows<A: Allocator>(
    alloc: A,
    count: u64,
) -> Result<Vec<Option<SharedRecord<A>>, A>, AllocError>
    ensures { IfOk result (λ rows. rows.items ≡ replicate count None) }
{
    let mut rows = Vec::with_capacity(alloc, count as usize)?;
    for _ in 0..count {
        rows.push(None)?;
    }
    Ok(rows)
}

/// Words in which each number below the count is free, but 0 and 1.
fn free_bits<A: Allocator>(alloc: A, count: u64) -> Result<Vec<u64, A>, AllocError>
    requires some { 64 ≤ count }
    requires whole { count % 64 ≡ 0 }
    ensures len { IfOk result (λ words. 64 * length words.items ≡ count) }
    ensures free { IfOk result (λ words. is_bit_set words.items ≡ (λ n. nat_le 2 n && nat_lt n count)) }
{
    let mut words = vec![in alloc; u64::MAX; (count / 64) as usize]?;
    words[0] = u64::MAX - 3;
    Ok(words)
}

/// Places a record in a row.
fn place<A: Allocator>(
    rows: &mut Vec<Option<SharedRecord<A>>, A>,
    row: u32,
    content: SharedRecord<A>,
)
    requires { row < length rows.old.items }
    ensures { rows.new.items ≡ slice_set rows.old.items row (Some content) }
{
    rows[row as usize] = Some(content);
}

/// A word of free bits.
fn word_at(words: &[u64], word: u32) -> u64
    requires { word < length words.now }
    ensures { IsWordOf (is_bit_set words.now) word result }
{
    words[word as usize]
}

/// Whether the bit of a number is set.
fn is_set(words: &[u64], number: u32) -> bool
    requires { number < 64 * length words.now }
    ensures { result ≡ is_bit_set words.now number }
{
    words[(number / 64) as usize] & 1 << (number % 64) != 0
}

/// Clears the bit of a number.
fn clear_bit<A: Allocator>(words: &mut Vec<u64, A>, number: u32)
    requires { number < 64 * length words.old.items }
    ensures taken { is_bit_set words.new.items ≡ replaced_at number false (is_bit_set words.old.items) }
    ensures len { length words.new.items ≡ length words.old.items }
{
    let word = (number / 64) as usize;
    words[word] &= !(1 << (number % 64));
}

/// Sets bits of one word.
fn set_bits<A: Allocator>(words: &mut Vec<u64, A>, word: u32, bits: u64)
    requires { word < length words.old.items }
    ensures freed { is_bit_set words.new.items ≡ (λ n. is_bit_set words.old.items n || is_among word bits n) }
    ensures len { length words.new.items ≡ length words.old.items }
{
    words[word as usize] |= bits;
}
