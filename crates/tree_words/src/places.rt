//! Where the words of each part stand.
ghost use Rattle.std.specs.Prelude.{◌≡◌, ◌<◌, ◌≤◌, ltb};
ghost use Rattle.tree_words.specs.Layout.{announced_at, epoch_at, pid_bits_at, row_at, row_bits_at, rows_width, slot_at, width};

use bw_model::Limits;
use std::marker::Model;
use tree_limits::{MAX_LARGE_ACTORS, WIDE_WORDS};

/// The place of the first word of the first row: behind the words that so many actors announce.
const ROWS: usize = 8 + 8 * MAX_LARGE_ACTORS as usize;

/// The limits of a table of words, with the places that are worked out from them once: each step needs the place of its word.
#[derive(Drop)]
pub struct Layout {
    limits: Limits,
    /// The place of the first row that is no narrow one.
    pages_at: usize,
    /// The place of the first wide row.
    wide_at: usize,
    /// The place of the first slot.
    slots_at: usize,
}

impl Model for Layout {
    ghost use Rattle.tree_limits.specs.declared.limits.Limits.{Limits};
    ghost use Rattle.tree_words.specs.Layout.{IsWorkedOut};

    ghost Value = { Limits };

    ghost view = { λ l. l.limits };

    ghost invariant = { λ l. IsWorkedOut l.limits l.pages_at l.wide_at l.slots_at };
}

impl Layout {
    /// The layout of a table of these limits.
    pub fn of(limits: &Limits) -> Layout
        ensures { result ≡ limits.now }
    {
        Layout {
            limits: *limits,
            pages_at: ROWS + rows_width(limits, limits.narrow_rows),
            wide_at: ROWS + rows_width(limits, limits.wide_from),
            slots_at: ROWS + rows_width(limits, limits.rows),
        }
    }

    /// The limits.
    #[inline(always)]
    pub fn limits(&self) -> &Limits
        ensures { result.now ≡ self.now }
    {
        &self.limits
    }

    /// Whether they are those of a large tree.
    #[inline(always)]
    pub fn is_large(&self) -> bool
        ensures { result ≡ self.now.is_large }
    {
        self.limits.is_large
    }

    /// Whether a row is a narrow one.
    #[inline(always)]
    pub fn is_narrow(&self, row: u32) -> bool
        ensures { result ≡ ltb row self.now.narrow_rows }
    {
        u64::from(row) < self.limits.narrow_rows
    }

    /// The place of the first word of a row.
    #[inline(always)]
    pub fn row(&self, row: u32) -> usize
        requires { row < self.now.rows }
        ensures { result ≡ row_at self.now row 0 }
    {
        let row = u64::from(row);
        if row < self.limits.narrow_rows {
            return ROWS + (self.limits.narrow_words * row) as usize;
        }
        if row < self.limits.wide_from {
            let before = row - self.limits.narrow_rows;
            return self.pages_at + (self.limits.page_words * before) as usize;
        }
        self.wide_at + (WIDE_WORDS * (row - self.limits.wide_from)) as usize
    }

    /// The place of the slot of a PID.
    #[inline(always)]
    pub(crate) fn slot(&self, pid: u32) -> usize
        ensures { result ≡ slot_at self.now pid }
    {
        self.slots_at + pid as usize
    }
}

/// The place of the slot of a PID.
pub fn slot_place(limits: &Limits, pid: u32) -> usize
    ensures { result ≡ slot_at limits.now pid }
{
    ROWS + rows_width(limits, limits.rows) + pid as usize
}

/// The place of a word of free PIDs.
pub(crate) fn pid_bits_place(limits: &Limits, word: u32) -> usize
    ensures { result ≡ pid_bits_at limits.now word }
{
    ROWS + rows_width(limits, limits.rows) + limits.pids as usize + word as usize
}

/// The place of a word of free rows.
pub(crate) fn row_bits_place(limits: &Limits, word: u32) -> usize
    ensures { result ≡ row_bits_at limits.now word }
{
    let pids = limits.pids as usize;
    ROWS + rows_width(limits, limits.rows) + pids + pids / 64 + word as usize
}

/// The place of the epoch.
pub(crate) fn epoch_place() -> usize
    ensures { result ≡ epoch_at }
{
    0
}

/// The place of the epoch that an actor announced: eight words lie between two actors', as a cache line has eight.
pub(crate) fn announced_place(actor: u8) -> usize
    ensures { result ≡ announced_at actor }
{
    8 + 8 * usize::from(actor)
}

/// The place of the first word of a row.
#[inline]
pub fn row_place(limits: &Limits, row: u32) -> usize
    requires { row < limits.now.rows }
    ensures { result ≡ row_at limits.now row 0 }
{
    ROWS + rows_width(limits, u64::from(row))
}

/// How many words the rows below this one have.
#[inline]
fn rows_width(limits: &Limits, row: u64) -> usize
    requires { row ≤ limits.now.rows }
    ensures width { result ≡ rows_width limits.now row }
    ensures few { result ≤ 34359738368 }
{
    if limits.wide_from == 0 {
        return (WIDE_WORDS * row) as usize;
    }
    if row >= limits.wide_from {
        let pages = limits.wide_from - limits.narrow_rows;
        let before = limits.narrow_words * limits.narrow_rows + limits.page_words * pages;
        return (before + WIDE_WORDS * (row - limits.wide_from)) as usize;
    }
    if row < limits.narrow_rows {
        return (limits.narrow_words * row) as usize;
    }
    let before = limits.narrow_words * limits.narrow_rows;
    (before + limits.page_words * (row - limits.narrow_rows)) as usize
}

/// How many words a table of these limits has.
pub fn width(limits: &Limits) -> usize
    ensures { result ≡ width limits.now }
{
    let (pids, rows) = (limits.pids as usize, limits.rows as usize);
    ROWS + rows_width(limits, limits.rows) + pids + pids / 64 + rows / 64
}
