//! Records from the parts of a row.
ghost use Rattle.std.specs.Prelude.{◌≡◌, ◌<◌, ◌*◌, ◌↔◌, [], IsTrue, Some, length};
ghost use Rattle.record_slots.specs.Layout.{item_size};
ghost use Rattle.record_slots.specs.Parts.{IsBare, IsLinkKind, IsLinkOf, IsRecordOf, IsRightIn, IsRowOfParts};
ghost use Rattle.record_slots.specs.Spells.{FindsOne};

use crate::item_words::read_items;
use crate::layout::{ITEM_CONTENT, ITEM_WORDS};
use crate::row::Row;
use crate::rules::keeps_rules;
use crate::texts::{field_in, value_in};
use crate::{BadRow, kinds};
use arrayvec::ArrayVec;
use base_page::{Items, Page};
use bw_model::Key;
use deltas::{Delete, Hold, Merge, Put, Record, Remove, Split, Term, Unterm};

/// The record that has these parts.
pub(crate) fn record_in(row: Row, words: &[u64]) -> Result<Record, BadRow>
    requires parts { IsRowOfParts row }
    requires words { length words.now ≡ item_size * row.count }
    ensures { FindsOne (IsRecordOf row words.now) result }
{
    match row.kind {
        kinds::BASE => base_in(row, words),
        kinds::PUT => put_in(row, words),
        kinds::DELETE => delete_in(row, words),
        kinds::SPLIT | kinds::TERM | kinds::HOLD | kinds::UNTERM => link_in(row, words),
        kinds::REMOVE => remove_in(row, words),
        kinds::MERGE => merge_in(row, words),
        _ => Err(BadRow),
    }
}

#[inline(never)]
fn base_in(row: Row, words: &[u64]) -> Result<Record, BadRow>
    requires parts { IsRowOfParts row }
    requires words { length words.now ≡ item_size * row.count }
    requires kind { row.kind ≡ 1 }
    ensures { FindsOne (IsRecordOf row words.now) result }
{
    let mut items = ArrayVec::new();
    if row.next > 0 || !read_items(row.level, row.count, words, &mut items) {
        return Err(BadRow);
    }
    let Some(items) = Items::ordered(items) else {
        return Err(BadRow);
    };
    let right = right_in(row.page);
    if !keeps_rules(row.level, &row.first, &row.second, right, &items) {
        return Err(BadRow);
    }
    let page = Page::new(row.level, row.first, row.second, right, items);
    Ok(Record::Base(page))
}

fn put_in(row: Row, words: &[u64]) -> Result<Record, BadRow>
    requires parts { IsRowOfParts row }
    requires words { length words.now ≡ item_size * row.count }
    requires kind { row.kind ≡ 2 }
    ensures { FindsOne (IsRecordOf row words.now) result }
{
    if row.level > 0 || row.page > 0 || row.next == 0 || row.count != 1 {
        return Err(BadRow);
    }
    if !is_empty(&row.first) || !is_empty_bound(&row.second) {
        return Err(BadRow);
    }
    let key = field_in(&words[..ITEM_CONTENT])?;
    let value = value_in(words[ITEM_CONTENT], &words[ITEM_CONTENT + 1..ITEM_WORDS])?;
    Ok(Record::Put(Put {
        next: row.next,
        key,
        value,
    }))
}

fn delete_in(row: Row, words: &[u64]) -> Result<Record, BadRow>
    requires parts { IsRowOfParts row }
    requires words { length words.now ≡ item_size * row.count }
    requires kind { row.kind ≡ 3 }
    ensures { FindsOne (IsRecordOf row words.now) result }
{
    if row.level > 0 || row.page > 0 || row.next == 0 || !is_bare(&row) {
        return Err(BadRow);
    }
    Ok(Record::Delete(Delete {
        next: row.next,
        key: row.first,
    }))
}

/// A record that names a separator and a page. A split alone may stand on a leaf.
fn link_in(row: Row, words: &[u64]) -> Result<Record, BadRow>
    requires parts { IsRowOfParts row }
    requires words { length words.now ≡ item_size * row.count }
    requires kind { IsLinkKind row.kind }
    ensures { FindsOne (IsRecordOf row words.now) result }
{
    if !is_link(&row) || row.kind != kinds::SPLIT && row.level == 0 {
        return Err(BadRow);
    }
    Ok(match row.kind {
        kinds::SPLIT => Record::Split(Split {
            level: row.level,
            next: row.next,
            separator: row.first,
            page: row.page,
        }),
        kinds::TERM => Record::Term(Term {
            level: row.level,
            next: row.next,
            separator: row.first,
            child: row.page,
        }),
        kinds::HOLD => Record::Hold(Hold {
            level: row.level,
            next: row.next,
            separator: row.first,
            child: row.page,
        }),
        _ => Record::Unterm(Unterm {
            level: row.level,
            next: row.next,
            separator: row.first,
            child: row.page,
        }),
    })
}

fn remove_in(row: Row, words: &[u64]) -> Result<Record, BadRow>
    requires parts { IsRowOfParts row }
    requires words { length words.now ≡ item_size * row.count }
    requires kind { row.kind ≡ 7 }
    ensures { FindsOne (IsRecordOf row words.now) result }
{
    if row.page > 0 || row.next == 0 || !is_empty(&row.first) || !is_bare(&row) {
        return Err(BadRow);
    }
    Ok(Record::Remove(Remove {
        level: row.level,
        next: row.next,
    }))
}

#[inline(never)]
fn merge_in(row: Row, words: &[u64]) -> Result<Record, BadRow>
    requires parts { IsRowOfParts row }
    requires words { length words.now ≡ item_size * row.count }
    requires kind { row.kind ≡ 8 }
    ensures { FindsOne (IsRecordOf row words.now) result }
{
    let mut items = ArrayVec::new();
    if row.next == 0 || is_empty(&row.first) || row.count > 4 {
        return Err(BadRow);
    }
    if !read_items(row.level, row.count, words, &mut items) {
        return Err(BadRow);
    }
    let Some(items) = Items::ordered(items) else {
        return Err(BadRow);
    };
    let right = right_in(row.page);
    if !keeps_rules(row.level, &row.first, &row.second, right, &items) {
        return Err(BadRow);
    }
    Ok(Record::Merge(Merge {
        level: row.level,
        next: row.next,
        low: row.first,
        high: row.second,
        right,
        items,
    }))
}

/// Whether the row has the parts of a record that names a separator and a page.
fn is_link(row: &Row) -> bool
    ensures { IsTrue result ↔ IsLinkOf row.now }
{
    row.next > 0 && row.page > 0 && !is_empty(&row.first) && is_bare(row)
}

/// Whether the second key is empty, and there are no items.
fn is_bare(row: &Row) -> bool
    ensures { IsTrue result ↔ IsBare row.now }
{
    is_empty_bound(&row.second) && row.count == 0
}

fn is_empty(key: &Key) -> bool
    ensures { IsTrue result ↔ (key.now ≡ []) }
{
    key.as_slice().is_empty()
}

/// Whether there is a bound, which is the empty key.
fn is_empty_bound(bound: &Option<Key>) -> bool
    ensures { IsTrue result ↔ (bound.now ≡ Some []) }
{
    match bound {
        None => false,
        Some(key) => is_empty(key),
    }
}

/// The PID of the page to the right, where 0 is none.
fn right_in(page: u32) -> Option<u32>
    requires { page < 4194304 }
    ensures { IsRightIn page result }
{
    if page == 0 { None } else { Some(page) }
}
