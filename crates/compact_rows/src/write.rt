//! Writing a record as compact words, in one pass.
ghost use Rattle.std.specs.Prelude.{◌≡◌, ◌<◌, ◌≤◌, ◌+◌, ◌*◌, ◌++◌, [], IfSome, Some, drop, length, option_copied};
ghost use Rattle.std.specs.List.{All};
ghost use Rattle.bw_model.specs.Bytes.{IsShort, longest};
ghost use Rattle.deltas.specs.Spellable.{IsSpellable};
ghost use Rattle.record_slots.specs.Spells.{HasShortTexts, IsShortItem};
ghost use Rattle.compact_rows.specs.Layout.{most_words};
ghost use Rattle.compact_rows.specs.Spelling.{bound_length, bound_text, codes, compact_row, compact_words, heads, item_code, item_text, packed, texts, words_for};
ghost use Rattle.compact_rows.specs.Spells.{IsCompact};

use crate::CompactRow;
use crate::laws::records_have_room;
use crate::layout::{
    COMPACT_FORM, CONTENT_UNIT, FIRST_UNIT, LENGTH_UNIT, MARK_UNIT, NEXT_UNIT, SECOND_UNIT,
};
use crate::short::{texts_are_short, value_bytes};
use base_page::{Content, Item};
use bw_model::Key;
use deltas::Record;
use record_slots::{FORM_UNIT, ITEM_UNIT, LEVEL_UNIT, NO_BOUND, key_bytes, kinds, word_at};

/// The compact words of a record that has room. Where a row can spell it, they are its compact spelling.
pub fn to_compact(content: &Record) -> CompactRow
    requires room { length (compact_words content.now) ≤ most_words }
    ensures words { result ≡ compact_words content.now }
    ensures spells { IsSpellable content.now → IsCompact content.now result }
{
    let mut row = CompactRow::new();
    write_compact(&mut row, content);
    row
}

/// Writes the compact spelling of a record that a row can spell, and which so has room, over what was written in the row before.
pub fn compact_in(row: &mut CompactRow, content: &Record)
    requires { IsSpellable content.now }
    ensures { IsCompact content.now row.new }
{
    texts_are_short(content);
    records_have_room();
    row.clear();
    write_compact(row, content);
}

/// Writes the compact words of the record into a row in which nothing was written yet.
pub(crate) fn write_compact(row: &mut CompactRow, content: &Record)
    requires empty { row.old ≡ [] }
    requires room { length (compact_words content.now) ≤ most_words }
    ensures words { row.new ≡ compact_words content.now }
    ensures short { HasShortTexts content.now }
{
    let none = Key::default();
    match content {
        Record::Base(page) => {
            let right = page.right().unwrap_or(0);
            let items = page.items().as_slice();
            write_row(
                row,
                Numbers {
                    kind: kinds::BASE,
                    level: page.level(),
                    next: 0,
                    page: right,
                },
                page.low(),
                page.high(),
                items,
            )
        }
        Record::Put(put) => {
            let item = Item {
                key: put.key.copied(),
                content: Content::Value(put.value.copied()),
            };
            write_row(
                row,
                Numbers {
                    kind: kinds::PUT,
                    level: 0,
                    next: put.next,
                    page: 0,
                },
                &none,
                Some(&none),
                &[item],
            )
        }
        Record::Delete(delete) => write_link(
            row,
            Numbers {
                kind: kinds::DELETE,
                level: 0,
                next: delete.next,
                page: 0,
            },
            &delete.key,
        ),
        Record::Split(split) => write_link(
            row,
            Numbers {
                kind: kinds::SPLIT,
                level: split.level,
                next: split.next,
                page: split.page,
            },
            &split.separator,
        ),
        Record::Term(term) => write_link(
            row,
            Numbers {
                kind: kinds::TERM,
                level: term.level,
                next: term.next,
                page: term.child,
            },
            &term.separator,
        ),
        Record::Hold(hold) => write_link(
            row,
            Numbers {
                kind: kinds::HOLD,
                level: hold.level,
                next: hold.next,
                page: hold.child,
            },
            &hold.separator,
        ),
        Record::Remove(remove) => write_link(
            row,
            Numbers {
                kind: kinds::REMOVE,
                level: remove.level,
                next: remove.next,
                page: 0,
            },
            &none,
        ),
        Record::Merge(merge) => write_row(
            row,
            Numbers {
                kind: kinds::MERGE,
                level: merge.level,
                next: merge.next,
                page: merge.right.unwrap_or(0),
            },
            &merge.low,
            merge.high.as_ref(),
            merge.items.as_slice(),
        ),
        Record::Unterm(unterm) => write_link(
            row,
            Numbers {
                kind: kinds::UNTERM,
                level: unterm.level,
                next: unterm.next,
                page: unterm.child,
            },
            &unterm.separator,
        ),
    }
}

/// The numbers of a row, beside its count of items and the lengths of its keys.
#[derive(Clone, Copy)]
struct Numbers {
    kind: u8,
    level: u8,
    next: u32,
    page: u32,
}

/// Writes a row with one key and no items.
fn write_link(row: &mut CompactRow, numbers: Numbers, first: &Key)
    requires empty { row.old ≡ [] }
    requires room { length (compact_row (record {
      kind = numbers.kind;
      level = numbers.level;
      count = 0;
      next = numbers.next;
      page = numbers.page;
      first = first.now;
      second = Some [];
    }) []) ≤ most_words }
    ensures words { row.new ≡ compact_row (record {
      kind = numbers.kind;
      level = numbers.level;
      count = 0;
      next = numbers.next;
      page = numbers.page;
      first = first.now;
      second = Some [];
    }) [] }
    ensures short { IsShort first.now }
{
    write_row(row, numbers, first, Some(&Key::default()), &[])
}

/// Writes a row of these parts: two words of numbers, heads, codes, the two keys, and the items' texts.
fn write_row(
    row: &mut CompactRow,
    numbers: Numbers,
    first: &Key,
    second: Option<&Key>,
    items: &[Item],
)
    requires empty { row.old ≡ [] }
    requires few { length items.now ≤ 24 }
    requires room { length (compact_row (record {
      kind = numbers.kind;
      level = numbers.level;
      count = length items.now;
      next = numbers.next;
      page = numbers.page;
      first = first.now;
      second = option_copied second;
    }) items.now) ≤ most_words }
    ensures words { row.new ≡ compact_row (record {
      kind = numbers.kind;
      level = numbers.level;
      count = length items.now;
      next = numbers.next;
      page = numbers.page;
      first = first.now;
      second = option_copied second.entry;
    }) items.now }
    ensures first { IsShort first.now }
    ensures second { IfSome (option_copied second.entry) IsShort }
    ensures items { All IsShortItem items.now }
{
    let bytes = key_bytes(first);
    let count = items.len();
    row.push(first_word(numbers.kind, numbers.level, count, numbers.next));
    row.push(second_word(numbers.page, bytes.len(), bound_length(second)));
    push_heads(row, items);
    let at = 2 + 2 * count + (words_for(bytes.len()) + bound_size(second));
    push_codes(row, at, items);
    push_words(row, bytes, 0);
    push_bound(row, second);
    push_texts(row, items);
}

/// A row's first word.
fn first_word(kind: u8, level: u8, count: usize, next: u32) -> u64
    requires { count ≤ 24 }
    ensures { result ≡ kind + 256 * level + 65536 * count + 50331648 + 4294967296 * next }
{
    u64::from(kind)
        + LEVEL_UNIT * u64::from(level)
        + ITEM_UNIT * count as u64
        + FORM_UNIT * COMPACT_FORM
        + NEXT_UNIT * u64::from(next)
}

/// A row's second word.
fn second_word(page: u32, first: usize, second: u64) -> u64
    requires first { first ≤ longest }
    requires second { second ≤ 255 }
    ensures { result ≡ page + 4294967296 * first + 1099511627776 * second }
{
    u64::from(page) + FIRST_UNIT * first as u64 + SECOND_UNIT * second
}

/// The length of a bound; 255 for no bound.
fn bound_length(bound: Option<&Key>) -> u64
    ensures length { result ≡ bound_length (option_copied bound.entry) }
    ensures few { result ≤ 255 }
{
    match bound {
        None => NO_BOUND,
        Some(key) => key_bytes(key).len() as u64,
    }
}

/// How many words a bound takes.
fn bound_size(bound: Option<&Key>) -> usize
    ensures size { result ≡ length (bound_text (option_copied bound.entry)) }
    ensures few { result ≤ 8 }
{
    match bound {
        None => 0,
        Some(key) => words_for(key_bytes(key).len()),
    }
}

/// How many words so many bytes take.
fn words_for(count: usize) -> usize
    requires { count ≤ longest }
    ensures words { result ≡ words_for count }
    ensures few { result ≤ 8 }
{
    (count + 7) / 8
}

/// The heads: the first eight bytes of each item's key, big-endian.
fn push_heads(row: &mut CompactRow, items: &[Item])
    requires { length row.old + length items.now ≤ most_words }
    ensures words { row.new ≡ row.old ++ heads items.now }
    ensures count { length row.new ≡ length row.old + length items.now }
{
    for item in items {
        row.push(word_at(key_bytes(&item.key), 0));
    }
}

/// The codes of the items whose texts begin at word `at`.
fn push_codes(row: &mut CompactRow, at: usize, items: &[Item])
    requires room { length row.old + length items.now ≤ most_words }
    requires low { at + length (texts items.now) ≤ most_words }
    ensures words { row.new ≡ row.old ++ codes at items.now }
    ensures count { length row.new ≡ length row.old + length items.now }
{
    let mut next = at;
    for item in items {
        row.push(item_code(next, item));
        next += item_size(item);
    }
}

/// The code of an item whose text begins at word `at`.
fn item_code(at: usize, item: &Item) -> u64
    requires { at ≤ most_words }
    ensures { result ≡ item_code at item.now }
{
    let place = at as u64 + LENGTH_UNIT * key_bytes(&item.key).len() as u64;
    match &item.content {
        Content::Value(value) => place + CONTENT_UNIT * value_bytes(value).len() as u64,
        Content::Child { page, held } => {
            place + if *held { MARK_UNIT } else { 0 } + CONTENT_UNIT * u64::from(*page)
        }
    }
}

/// How many words an item's text takes.
fn item_size(item: &Item) -> usize
    ensures size { result ≡ length (item_text item.now) }
    ensures few { result ≤ 15 }
{
    let key = words_for(key_bytes(&item.key).len().saturating_sub(8));
    match &item.content {
        Content::Value(value) => key + words_for(value_bytes(value).len()),
        Content::Child { .. } => key,
    }
}

/// The texts of the items.
fn push_texts(row: &mut CompactRow, items: &[Item])
    requires { length row.old + length (texts items.now) ≤ most_words }
    ensures words { row.new ≡ row.old ++ texts items.now }
    ensures short { All IsShortItem items.now }
{
    for item in items {
        push_text(row, item);
    }
}

/// The text of an item: the bytes of its key behind the first eight, and a value.
fn push_text(row: &mut CompactRow, item: &Item)
    requires { length row.old + length (item_text item.now) ≤ most_words }
    ensures words { row.new ≡ row.old ++ item_text item.now }
    ensures short { IsShortItem item.now }
{
    push_words(row, key_bytes(&item.key), 8);
    match &item.content {
        Content::Value(value) => push_words(row, value_bytes(value), 0),
        Content::Child { .. } => {}
    }
}

/// The second key, if there is one.
fn push_bound(row: &mut CompactRow, bound: Option<&Key>)
    requires { length row.old + length (bound_text (option_copied bound)) ≤ most_words }
    ensures words { row.new ≡ row.old ++ bound_text (option_copied bound.entry) }
    ensures short { IfSome (option_copied bound.entry) IsShort }
{
    match bound {
        None => {}
        Some(key) => push_words(row, key_bytes(key), 0),
    }
}

/// The bytes from a place on, in as many words as they take.
fn push_words(row: &mut CompactRow, bytes: &[u8], from: usize)
    requires from { from ≤ 8 }
    requires short { length bytes.now ≤ longest }
    requires room { length row.old + length (packed (drop from bytes.now)) ≤ most_words }
    ensures { row.new ≡ row.old ++ packed (drop from bytes.now) }
{
    let count = words_for(bytes.len().saturating_sub(from));
    for place in 0..count {
        row.push(word_at(bytes, from + 8 * place));
    }
}
