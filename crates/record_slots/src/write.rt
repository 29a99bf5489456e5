//! Records written as rows of words.
ghost use Rattle.std.specs.Prelude.{◌≡◌, ◌≤◌, ◌+◌, ◌-◌, ◌++◌, ◌*◌, ◌∷◌, [], IfSome, Some, drop, length, option_copied, replicate, slice_index};
ghost use Rattle.std.specs.List.{All};
ghost use Rattle.bw_model.specs.Bytes.{IsShort, longest};
ghost use Rattle.deltas.specs.Spellable.{IsSpellable};
ghost use Rattle.deltas.specs.declared.record.Record.TheVariants as variant;
ghost use Rattle.record_slots.specs.Layout.{field_size, item_size, row_size, text_size, with_zeros};
ghost use Rattle.record_slots.specs.Parts.{header_word};
ghost use Rattle.record_slots.specs.Spelling.{bound_words, field_words, item_words, items_words, big_endian, row_words, text_words, words_of};
ghost use Rattle.record_slots.specs.Spells.{HasShortTexts, IsShortItem, IsSpelling};
ghost use Rattle.record_slots.specs.declared.layout.TheConstants.{ROW_WORDS};

use crate::layout::{
    FORM, FORM_UNIT, HELD, ITEM_UNIT, LEVEL_UNIT, NO_BOUND, ROW_WORDS, TEXT_WORDS,
};
use crate::{WrittenRow, kinds};
use base_page::{Content, Item};
use bw_model::{Key, Value};
use deltas::{Merge, Record};

/// The words of the record; where a row can spell it, they do.
pub fn to_words(content: &Record) -> [u64; ROW_WORDS]
    ensures words { result ≡ words_of content.now }
    ensures spells { IsSpellable content.now → IsSpelling content.now result }
{
    let mut row = WrittenRow::new();
    write_record(&mut row, content);
    *row.words()
}

/// Writes the words of the record into a row in which nothing was written yet; where a row can spell it, they do.
pub fn write_record(row: &mut WrittenRow, content: &Record)
    requires empty { row.old ≡ [] }
    ensures words { with_zeros row.new ≡ words_of content.now }
    ensures spells { IsSpellable content.now → IsSpelling content.now (with_zeros row.new) }
{
    let none = Key::default();
    match content {
        Record::Base(page) => {
            let right = page.right().unwrap_or(0);
            let items = page.items().as_slice();
            write_row(
                row,
                Numbers {
                    kind: kinds::BASE,
                    level: page.level(),
                    next: 0,
                    page: right,
                },
                page.low(),
                page.high(),
                items,
            )
        }
        Record::Put(put) => {
            let item = Item {
                key: put.key.copied(),
                content: Content::Value(put.value.copied()),
            };
            write_row(
                row,
                Numbers {
                    kind: kinds::PUT,
                    level: 0,
                    next: put.next,
                    page: 0,
                },
                &none,
                Some(&none),
                &[item],
            )
        }
        Record::Delete(delete) => {
            write_row(
                row,
                Numbers {
                    kind: kinds::DELETE,
                    level: 0,
                    next: delete.next,
                    page: 0,
                },
                &delete.key,
                Some(&none),
                &[],
            )
        }
        Record::Split(split) => write_link(
            row,
            Numbers {
                kind: kinds::SPLIT,
                level: split.level,
                next: split.next,
                page: split.page,
            },
            &split.separator,
        ),
        Record::Term(term) => write_link(
            row,
            Numbers {
                kind: kinds::TERM,
                level: term.level,
                next: term.next,
                page: term.child,
            },
            &term.separator,
        ),
        Record::Hold(hold) => write_link(
            row,
            Numbers {
                kind: kinds::HOLD,
                level: hold.level,
                next: hold.next,
                page: hold.child,
            },
            &hold.separator,
        ),
        Record::Remove(remove) => write_link(
            row,
            Numbers {
                kind: kinds::REMOVE,
                level: remove.level,
                next: remove.next,
                page: 0,
            },
            &none,
        ),
        Record::Merge(merge) => write_merge(row, merge),
        Record::Unterm(unterm) => {
            write_link(
                row,
                Numbers {
                    kind: kinds::UNTERM,
                    level: unterm.level,
                    next: unterm.next,
                    page: unterm.child,
                },
                &unterm.separator,
            )
        }
    }
}

/// Writes the words of a merge.
fn write_merge(row: &mut WrittenRow, merge: &Merge)
    requires empty { row.old ≡ [] }
    ensures words { with_zeros row.new ≡ words_of (variant.Merge merge.now) }
    ensures short { HasShortTexts (variant.Merge merge.now) }
{
    let right = merge.right.unwrap_or(0);
    let items = merge.items.as_slice();
    write_row(
        row,
        Numbers {
            kind: kinds::MERGE,
            level: merge.level,
            next: merge.next,
            page: right,
        },
        &merge.low,
        merge.high.as_ref(),
        items,
    )
}

/// The numbers of a row, beside its count of items and the lengths of its keys.
#[derive(Clone, Copy)]
struct Numbers {
    kind: u8,
    level: u8,
    next: u32,
    page: u32,
}

/// Writes a row with one key and no items.
fn write_link(row: &mut WrittenRow, numbers: Numbers, first: &Key)
    requires empty { row.old ≡ [] }
    ensures words { with_zeros row.new ≡ row_words numbers.kind numbers.level numbers.next numbers.page first.now (Some []) [] }
    ensures short { IsShort first.now }
{
    write_row(row, numbers, first, Some(&Key::default()), &[])
}

/// Writes a row of these parts, whose texts are short by their types.
fn write_row(
    row: &mut WrittenRow,
    numbers: Numbers,
    first: &Key,
    second: Option<&Key>,
    items: &[Item],
)
    requires empty { row.old ≡ [] }
    requires few { length items.now ≤ 24 }
    ensures words { with_zeros row.new ≡ row_words numbers.kind numbers.level numbers.next numbers.page first.now (option_copied second.entry) items.now }
    ensures first { IsShort first.now }
    ensures second { IfSome (option_copied second.entry) IsShort }
    ensures items { All IsShortItem items.now }
{
    row.push(header_word(numbers.kind, numbers.level, items.len()));
    row.push(u64::from(numbers.next));
    row.push(u64::from(numbers.page));
    push_field(row, key_bytes(first));
    push_bound(row, second);
    push_items(row, items);
}

/// A row's first word.
fn header_word(kind: u8, level: u8, count: usize) -> u64
    requires { count ≤ 24 }
    ensures { result ≡ header_word kind level count }
{
    u64::from(kind) + LEVEL_UNIT * u64::from(level) + ITEM_UNIT * count as u64 + FORM_UNIT * FORM
}

fn push_items(row: &mut WrittenRow, items: &[Item])
    requires { length row.old + item_size * length items.now ≤ row_size }
    ensures words { row.new ≡ row.old ++ items_words items.now }
    ensures short { All IsShortItem items.now }
{
    for item in items {
        push_item(row, item);
    }
}

fn push_item(row: &mut WrittenRow, item: &Item)
    requires { length row.old + item_size ≤ row_size }
    ensures words { row.new ≡ row.old ++ item_words item.now }
    ensures short { IsShortItem item.now }
{
    let key = key_bytes(&item.key);
    let count = key.len() as u64;
    match &item.content {
        Content::Value(value) => {
            row.push(count);
            push_text(row, key);
            push_field(row, value_bytes(value));
        }
        Content::Child { page, held } => {
            row.push(if *held { count + HELD } else { count });
            push_text(row, key);
            push_number(row, u64::from(*page));
        }
    }
}

/// A key or a value with its length.
fn push_field(row: &mut WrittenRow, bytes: &[u8])
    requires room { length row.old + field_size ≤ row_size }
    requires short { length bytes.now ≤ longest }
    ensures { row.new ≡ row.old ++ field_words bytes.now }
{
    row.push(bytes.len() as u64);
    push_text(row, bytes);
}

fn push_bound(row: &mut WrittenRow, bound: Option<&Key>)
    requires { length row.old + field_size ≤ row_size }
    ensures words { row.new ≡ row.old ++ bound_words (option_copied bound.entry) }
    ensures short { IfSome (option_copied bound.entry) IsShort }
{
    match bound {
        None => push_number(row, NO_BOUND),
        Some(key) => push_field(row, key_bytes(key)),
    }
}

/// The bytes of a key, which are few.
pub fn key_bytes(key: &Key) -> &[u8]
    ensures bytes { result.now ≡ key.now }
    ensures short { IsShort key.now }
{
    let bytes = key.as_slice();
    are_short(bytes);
    bytes
}

/// The bytes of a value, which are few.
fn value_bytes(value: &Value) -> &[u8]
    ensures bytes { result.now ≡ value.now }
    ensures short { IsShort value.now }
{
    let bytes = value.as_slice();
    are_short(bytes);
    bytes
}

/// Shows that as many bytes as a key or a value has at most are short, at no cost.
fn are_short(bytes: &[u8])
    requires { length bytes.now ≤ longest }
    ensures { IsShort bytes.now }
{}

/// A number, in as many words as a key or a value takes.
fn push_number(row: &mut WrittenRow, number: u64)
    requires { length row.old + field_size ≤ row_size }
    ensures { row.new ≡ row.old ++ number ∷ replicate text_size 0 }
{
    row.push(number);
    push_zeros(row, TEXT_WORDS);
}

/// The words of a text's bytes.
fn push_text(row: &mut WrittenRow, bytes: &[u8])
    requires { length row.old + text_size ≤ row_size }
    ensures { row.new ≡ row.old ++ text_words text_size bytes.now }
{
    for place in 0..TEXT_WORDS {
        row.push(word_at(bytes, 8 * place));
    }
}

/// The eight bytes from a place on as one word, with zeros behind the last byte.
#[inline]
pub fn word_at(bytes: &[u8], from: usize) -> u64
    requires { from ≤ longest }
    ensures { result ≡ big_endian 8 (drop from bytes.now) }
{
    if from >= bytes.len() {
        return 0;
    }
    if from + 8 <= bytes.len() {
        return whole_word(&bytes[from..]);
    }
    last_word(bytes, from)
}

/// The first eight bytes as one word.
#[inline]
fn whole_word(bytes: &[u8]) -> u64
    requires { 8 ≤ length bytes.now }
    ensures { result ≡ big_endian 8 bytes.now }
{
    u64::from_be_bytes([
        bytes[0], bytes[1], bytes[2], bytes[3], bytes[4], bytes[5], bytes[6], bytes[7],
    ])
}

/// The bytes from a place on as one word, with zeros behind the last byte.
fn last_word(bytes: &[u8], from: usize) -> u64
    requires { from ≤ longest }
    ensures { result ≡ big_endian 8 (drop from bytes.now) }
{
    let mut word = 0;
    for place in from..from + 8 {
        let byte = byte_at(bytes, place);
        word = word * 256 + u64::from(byte);
    }
    word
}

/// The byte at the place, or 0 behind the last one.
fn byte_at(bytes: &[u8], place: usize) -> u8
    ensures { result ≡ slice_index bytes.now place }
{
    if place < bytes.len() { bytes[place] } else { 0 }
}

/// So many zeros.
fn push_zeros(row: &mut WrittenRow, count: usize)
    requires { length row.old + count ≤ row_size }
    ensures { row.new ≡ row.old ++ replicate count 0 }
{
    for _ in 0..count {
        row.push(0);
    }
}
