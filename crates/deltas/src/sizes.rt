//! How many words a record takes in a compact row, and the first row that has room for it.
ghost use Rattle.std.specs.Prelude.{◌≡◌, ◌≤◌, ◌<◌, ◌+◌, ◌*◌, length, option_copied};
ghost use Rattle.deltas.specs.Sizes.{delta_row, item_size, items_size, page_row, page_size, record_size, row_from, tail_size, text_size};
ghost use Rattle.deltas.specs.declared.record.Record.TheVariants.{Base};

use crate::Record;
use base_page::{Content, Item, Items, Page};
use bw_model::{Key, Limits, Value};

/// How many bytes a word has.
const WORD_BYTES: usize = 8;

impl Record {
    /// The first row that has room for the record: each one from there on has. Where all rows have one width, that is row 0.
    pub fn row_from(&self, limits: &Limits) -> u64
        ensures from { result ≡ row_from limits.now self.now }
        ensures there { result < limits.now.rows }
    {
        if limits.wide_from == 0 {
            return 0;
        }
        match self {
            Record::Base(_) | Record::Merge(_) => page_row(limits, self.size()),
            _ => delta_row(limits, self.size()),
        }
    }

    /// How many words the record takes.
    fn size(&self) -> u64
        ensures { result ≡ record_size self.now }
    {
        match self {
            Record::Base(page) => page_size(page.low(), page.high(), page.items()),
            Record::Put(put) => 4 + tail_size(&put.key) + value_size(&put.value),
            Record::Delete(delete) => 2 + key_size(&delete.key),
            Record::Split(split) => 2 + key_size(&split.separator),
            Record::Term(term) => 2 + key_size(&term.separator),
            Record::Hold(hold) => 2 + key_size(&hold.separator),
            Record::Remove(_) => 2,
            Record::Merge(merge) => page_size(&merge.low, merge.high.as_ref(), &merge.items),
            Record::Unterm(unterm) => 2 + key_size(&unterm.separator),
        }
    }
}

/// The first row that has room for a base of the page.
pub fn base_row_from(page: &Page, limits: &Limits) -> u64
    ensures from { result ≡ row_from limits.now (Base page.now) }
    ensures there { result < limits.now.rows }
{
    if limits.wide_from == 0 {
        return 0;
    }
    page_row(limits, page_size(page.low(), page.high(), page.items()))
}

/// The first row that has room for a record with one key alone, as a split or an unterm has.
pub fn link_row_from(separator: &Key, limits: &Limits) -> u64
    ensures from { result ≡ delta_row limits.now (2 + text_size separator.now) }
    ensures there { result < limits.now.rows }
{
    delta_row(limits, 2 + key_size(separator))
}

/// The first row that isn't narrow and has room for so many words.
fn page_row(limits: &Limits, size: u64) -> u64
    ensures from { result ≡ page_row limits.now size }
    ensures there { result < limits.now.rows }
{
    if size <= limits.page_words {
        limits.narrow_rows
    } else {
        limits.wide_from
    }
}

/// The first row that has room for so many words, of those that a delta may have.
fn delta_row(limits: &Limits, size: u64) -> u64
    ensures from { result ≡ delta_row limits.now size }
    ensures there { result < limits.now.rows }
{
    if size <= limits.narrow_words {
        0
    } else {
        limits.narrow_rows
    }
}

/// How many words the range and the items of a page take.
fn page_size(low: &Key, high: Option<&Key>, items: &Items) -> u64
    ensures { result ≡ page_size low.now (option_copied high.entry) items.now }
{
    let bounds = key_size(low) + high.map_or(0, key_size);
    2 + bounds + items_size(items.as_slice())
}

/// How many words the items take.
fn items_size(items: &[Item]) -> u64
    ensures size { result ≡ items_size items.now }
    ensures few { result ≤ 18 * length items.now }
{
    let Some((item, others)) = items.split_first() else {
        return 0;
    };
    item_size(item) + items_size(others)
}

/// How many words an item takes.
fn item_size(item: &Item) -> u64
    ensures size { result ≡ item_size item.now }
    ensures few { result ≤ 18 }
{
    let content = match &item.content {
        Content::Value(value) => value_size(value),
        Content::Child { .. } => 0,
    };
    2 + tail_size(&item.key) + content
}

/// How many words a key takes.
fn key_size(key: &Key) -> u64
    ensures size { result ≡ text_size key.now }
    ensures few { result ≤ 8 }
{
    key.as_slice().len().div_ceil(WORD_BYTES) as u64
}

/// How many words a key takes behind its first word.
fn tail_size(key: &Key) -> u64
    ensures size { result ≡ tail_size key.now }
    ensures few { result ≤ 7 }
{
    key.as_slice()
        .len()
        .saturating_sub(WORD_BYTES)
        .div_ceil(WORD_BYTES) as u64
}

/// How many words a value takes.
fn value_size(value: &Value) -> u64
    ensures size { result ≡ text_size value.now }
    ensures few { result ≤ 8 }
{
    value.as_slice().len().div_ceil(WORD_BYTES) as u64
}
