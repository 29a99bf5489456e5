//! Each word of a row of `record_slots` is computed from the first word of the compact row and at most two others, which are looked at.
ghost use Rattle.std.specs.Prelude.{◌≡◌, ◌≢◌, ◌<◌, ◌≤◌, ◌+◌, ◌/◌, ◌%◌, ℕ, length, slice_index};
ghost use Rattle.deltas.specs.declared.record.Record.{Record};
ghost use Rattle.record_slots.specs.Spelling.{words_of};
ghost use Rattle.record_slots.specs.declared.layout.TheConstants.{ROW_WORDS};
ghost use Rattle.compact_rows.specs.Seen.{code_at, code_number, code_tail, content_seen, count_seen, first_seen, item_seen, items_seen, key_seen, level_seen};
ghost use Rattle.compact_rows.specs.Seen.{second_seen, seen, text_seen};
ghost use Rattle.compact_rows.specs.Spelling.{compact_words};
ghost use Rattle.compact_rows.specs.Spells.{IsCompact};
ghost use Rattle.compact_rows.specs.Spread.{HoldsText};
ghost use Rattle.record_slots.specs.declared.layout.TheConstants.{ITEM_WORDS, PART_LIMIT, TEXT_WORDS};
ghost use Rattle.row_search.specs.Begins.{Begins};
ghost use Rattle.row_search.specs.TextsOf.{HasText, length_at};

use crate::laws::words_are_seen;
use crate::layout::{CONTENT_UNIT, FIRST_UNIT, LENGTH_UNIT, NEXT_UNIT, SECOND_UNIT};
use crate::seen::{bound_size, code_at, code_tail, words_for};
use record_slots::{
    FIRST_ITEM, FORM, FORM_UNIT, ITEM_UNIT, ITEM_WORDS, LEVEL_UNIT, PART_LIMIT, ROW_WORDS,
    TEXT_WORDS,
};
use row_search::Text;

/// Compact rows in which records were read, and stay: each word that a record has there can be looked at where it lies.
pub trait CompactRows {
    ghost use Rattle.std.specs.Prelude.{ℕ};
    ghost use Rattle.deltas.specs.declared.record.Record.{Record};

    /// What a look needs beside the rows, as the seat of a thread.
    type Pass;

    /// What tells a row.
    type Row: Copy;

    ghost has: { Self → Self.Pass → Self.Row → Record → Type 0 };

    /// A word of a record that was read, and stays.
    fn look(&self, pass: &mut Self::Pass, row: Self::Row, at: usize) -> u64
        requires has { (content : Record) × has self.now pass.old row content × (at < length (compact_words content)) }
        ensures same { pass.new ≡ pass.old }
        ensures word { (content : Record) → has self.now pass.old row content → result ≡ slice_index (compact_words content) at };

    /// Shows that what was read has a compact spelling, at no cost.
    fn keeps_spelling(&self, pass: &Self::Pass)
        ensures { (row : Self.Row) (content : Record) → has self.now pass.now row content → IsCompact content (compact_words content) };
}

/// Word `at` of the row of `record_slots` that spells the record which was read in this compact row, and stays; by the first word of the
/// compact row.
pub fn look_spread<R: CompactRows>(
    rows: &R,
    pass: &mut R::Pass,
    row: R::Row,
    first: u64,
    at: usize,
) -> u64
    requires has { (content : Record) × R.has rows.now pass.old row content }
    requires first { (content : Record) → R.has rows.now pass.old row content → first ≡ slice_index (compact_words content) 0 }
    requires within { at < ROW_WORDS }
    ensures same { pass.new ≡ pass.old }
    ensures word { (content : Record) → R.has rows.now pass.old row content → result ≡ slice_index (words_of content) at }
{
    rows.keeps_spelling(pass);
    words_are_seen();
    if at < 2 {
        return header_seen(first, at);
    }
    if at < 21 {
        return keys_look(rows, pass, row, first, at);
    }
    items_look(rows, pass, row, first, at - FIRST_ITEM)
}

/// The first two words of the row of `record_slots`, by the first compact word.
fn header_seen(first: u64, at: usize) -> u64
    requires { at < 2 }
    ensures header { at ≡ 0 → result ≡ first % 16777216 + 33554432 }
    ensures next { at ≡ 1 → result ≡ first / 4294967296 }
{
    if at == 0 {
        first % FORM_UNIT + FORM_UNIT * FORM
    } else {
        first / NEXT_UNIT
    }
}

/// A word of the PID and the two keys.
fn keys_look<R: CompactRows>(
    rows: &R,
    pass: &mut R::Pass,
    row: R::Row,
    first: u64,
    at: usize,
) -> u64
    requires has { (content : Record) × R.has rows.now pass.old row content }
    requires spelt { (content : Record) → R.has rows.now pass.old row content → IsCompact content (compact_words content) }
    requires first { (content : Record) → R.has rows.now pass.old row content → first ≡ slice_index (compact_words content) 0 }
    requires low { 2 ≤ at }
    requires high { at < 21 }
    ensures same { pass.new ≡ pass.old }
    ensures word { (content : Record) → R.has rows.now pass.old row content → result ≡ seen (compact_words content) at }
{
    let second = rows.look(pass, row, 1);
    if at == 2 {
        return second % FIRST_UNIT;
    }
    let one = second / FIRST_UNIT % PART_LIMIT;
    if at == 3 {
        return one;
    }
    let other = second / SECOND_UNIT;
    if at == 12 {
        return other;
    }
    let start = 2 + 2 * (first / ITEM_UNIT % PART_LIMIT) as usize;
    if at < 12 {
        return text_look(rows, pass, row, start, words_for(one), at - 4);
    }
    text_look(
        rows,
        pass,
        row,
        start + words_for(one) as usize,
        bound_size(other),
        at - 13,
    )
}

/// Word `place` of a text of `size` words, which begins at word `at`; 0 behind its end.
#[inline(always)]
fn text_look<R: CompactRows>(
    rows: &R,
    pass: &mut R::Pass,
    row: R::Row,
    at: usize,
    size: u64,
    place: usize,
) -> u64
    requires few { at ≤ 281474976710656 }
    requires low { place < ROW_WORDS }
    requires has { (content : Record) × R.has rows.now pass.old row content × (at + size ≤ length (compact_words content)) }
    ensures same { pass.new ≡ pass.old }
    ensures word { (content : Record) → R.has rows.now pass.old row content → result ≡ text_seen (compact_words content) at size place }
{
    if (place as u64) < size {
        rows.look(pass, row, at + place)
    } else {
        0
    }
}

/// A word behind the two keys.
fn items_look<R: CompactRows>(
    rows: &R,
    pass: &mut R::Pass,
    row: R::Row,
    first: u64,
    place: usize,
) -> u64
    requires has { (content : Record) × R.has rows.now pass.old row content }
    requires spelt { (content : Record) → R.has rows.now pass.old row content → IsCompact content (compact_words content) }
    requires first { (content : Record) → R.has rows.now pass.old row content → first ≡ slice_index (compact_words content) 0 }
    requires low { place < ROW_WORDS }
    ensures same { pass.new ≡ pass.old }
    ensures word { (content : Record) → R.has rows.now pass.old row content → result ≡ items_seen (compact_words content) place }
{
    let count = (first / ITEM_UNIT % PART_LIMIT) as usize;
    let item = place / ITEM_WORDS;
    if item >= count {
        return 0;
    }
    item_look(rows, pass, row, first, count, item, place % ITEM_WORDS)
}

/// Word `place` of an item, by its number: by its head alone, or by its code and its text.
fn item_look<R: CompactRows>(
    rows: &R,
    pass: &mut R::Pass,
    row: R::Row,
    first: u64,
    count: usize,
    item: usize,
    place: usize,
) -> u64
    requires has { (content : Record) × R.has rows.now pass.old row content }
    requires spelt { (content : Record) → R.has rows.now pass.old row content → IsCompact content (compact_words content) }
    requires first { (content : Record) → R.has rows.now pass.old row content → first ≡ slice_index (compact_words content) 0 }
    requires counts { (content : Record) → R.has rows.now pass.old row content → count ≡ count_seen (compact_words content) }
    requires few { count < PART_LIMIT }
    requires there { item < count }
    requires low { place < ITEM_WORDS }
    ensures same { pass.new ≡ pass.old }
    ensures word { (content : Record) → R.has rows.now pass.old row content
        → result ≡ item_seen (compact_words content) (level_seen (compact_words content)) (slice_index (compact_words content) (2 + item))
        (slice_index (compact_words content) (2 + count_seen (compact_words content) + item)) place }
{
    if place == 1 {
        return rows.look(pass, row, 2 + item);
    }
    let code = rows.look(pass, row, 2 + count + item);
    if place == 0 {
        return code / LENGTH_UNIT % LENGTH_UNIT;
    }
    if place == 9 {
        return code / CONTENT_UNIT;
    }
    rest_look(
        rows,
        pass,
        row,
        first / LEVEL_UNIT % PART_LIMIT,
        code,
        place,
    )
}

/// A word of an item's text, by its code.
fn rest_look<R: CompactRows>(
    rows: &R,
    pass: &mut R::Pass,
    row: R::Row,
    level: u64,
    code: u64,
    place: usize,
) -> u64
    requires has { (content : Record) × R.has rows.now pass.old row content × HoldsText (compact_words content) level code }
    requires high { 1 < place }
    requires other { place ≢ 9 }
    requires low { place < ITEM_WORDS }
    ensures same { pass.new ≡ pass.old }
    ensures word { (content : Record) (head : ℕ) → R.has rows.now pass.old row content → result ≡ item_seen (compact_words content) level head code place }
{
    let start = code_at(code);
    if place < 9 {
        return text_look(rows, pass, row, start, code_tail(code), place - 2);
    }
    if level > 0 {
        return 0;
    }
    text_look(
        rows,
        pass,
        row,
        start + code_tail(code) as usize,
        words_for(code / CONTENT_UNIT),
        place - 10,
    )
}

/// The length of a text of the record that was read in this compact row, and stays; by a word with which the row begins.
#[inline(always)]
pub fn length_spread<R: CompactRows>(
    rows: &R,
    pass: &mut R::Pass,
    row: R::Row,
    first: u64,
    text: Text,
) -> u64
    requires has { (content : Record) × R.has rows.now pass.old row content × HasText text content }
    requires first { (content : Record) → R.has rows.now pass.old row content → Begins first content }
    ensures same { pass.new ≡ pass.old }
    ensures word { (content : Record) → R.has rows.now pass.old row content → result ≡ slice_index (words_of content) (length_at text) }
{
    rows.keeps_spelling(pass);
    words_are_seen();
    let count = (first / ITEM_UNIT % PART_LIMIT) as usize;
    match text {
        Text::First => rows.look(pass, row, 1) / FIRST_UNIT % PART_LIMIT,
        Text::Second => rows.look(pass, row, 1) / SECOND_UNIT,
        Text::Key(item) => rows.look(pass, row, 2 + count + item) / LENGTH_UNIT % LENGTH_UNIT,
        Text::Content(item) => rows.look(pass, row, 2 + count + item) / CONTENT_UNIT,
    }
}

/// A word of a text of the record that was read in this compact row, and stays; by a word with which the row begins. The first word of an item's
/// key stands beside those of the others: it takes one look, and any other two.
#[inline(always)]
pub fn word_spread<R: CompactRows>(
    rows: &R,
    pass: &mut R::Pass,
    row: R::Row,
    first: u64,
    text: Text,
    at: usize,
) -> u64
    requires has { (content : Record) × R.has rows.now pass.old row content × HasText text content }
    requires first { (content : Record) → R.has rows.now pass.old row content → Begins first content }
    requires within { at < TEXT_WORDS }
    ensures same { pass.new ≡ pass.old }
    ensures word { (content : Record) → R.has rows.now pass.old row content → result ≡ slice_index (words_of content) (length_at text + 1 + at) }
{
    rows.keeps_spelling(pass);
    words_are_seen();
    let count = (first / ITEM_UNIT % PART_LIMIT) as usize;
    match text {
        Text::First => first_look(rows, pass, row, count, at),
        Text::Second => second_look(rows, pass, row, count, at),
        Text::Key(item) => key_look(rows, pass, row, count, item, at),
        Text::Content(item) => {
            let level = first / LEVEL_UNIT % PART_LIMIT;
            content_look(rows, pass, row, count, level, item, at)
        }
    }
}

/// Word `place` of the first key.
#[inline(always)]
fn first_look<R: CompactRows>(
    rows: &R,
    pass: &mut R::Pass,
    row: R::Row,
    count: usize,
    place: usize,
) -> u64
    requires has { (content : Record) × R.has rows.now pass.old row content }
    requires spelt { (content : Record) → R.has rows.now pass.old row content → IsCompact content (compact_words content) }
    requires counts { (content : Record) → R.has rows.now pass.old row content → count ≡ count_seen (compact_words content) }
    requires few { count < PART_LIMIT }
    requires low { place < ROW_WORDS }
    ensures same { pass.new ≡ pass.old }
    ensures word { (content : Record) → R.has rows.now pass.old row content → result ≡ first_seen (compact_words content) place }
{
    let second = rows.look(pass, row, 1);
    let size = words_for(second / FIRST_UNIT % PART_LIMIT);
    text_look(rows, pass, row, 2 + 2 * count, size, place)
}

/// Word `place` of the second key.
#[inline(always)]
fn second_look<R: CompactRows>(
    rows: &R,
    pass: &mut R::Pass,
    row: R::Row,
    count: usize,
    place: usize,
) -> u64
    requires has { (content : Record) × R.has rows.now pass.old row content }
    requires spelt { (content : Record) → R.has rows.now pass.old row content → IsCompact content (compact_words content) }
    requires counts { (content : Record) → R.has rows.now pass.old row content → count ≡ count_seen (compact_words content) }
    requires few { count < PART_LIMIT }
    requires low { place < ROW_WORDS }
    ensures same { pass.new ≡ pass.old }
    ensures word { (content : Record) → R.has rows.now pass.old row content → result ≡ second_seen (compact_words content) place }
{
    let second = rows.look(pass, row, 1);
    let before = words_for(second / FIRST_UNIT % PART_LIMIT) as usize;
    let size = bound_size(second / SECOND_UNIT);
    text_look(rows, pass, row, 2 + 2 * count + before, size, place)
}

/// Word `place` of an item's key: its head, or a word of its text.
#[inline(always)]
fn key_look<R: CompactRows>(
    rows: &R,
    pass: &mut R::Pass,
    row: R::Row,
    count: usize,
    item: usize,
    place: usize,
) -> u64
    requires has { (content : Record) × R.has rows.now pass.old row content }
    requires spelt { (content : Record) → R.has rows.now pass.old row content → IsCompact content (compact_words content) }
    requires counts { (content : Record) → R.has rows.now pass.old row content → count ≡ count_seen (compact_words content) }
    requires few { count < PART_LIMIT }
    requires there { item < count }
    requires low { place < TEXT_WORDS }
    ensures same { pass.new ≡ pass.old }
    ensures word { (content : Record) → R.has rows.now pass.old row content → result ≡ key_seen (compact_words content) item place }
{
    if place == 0 {
        return rows.look(pass, row, 2 + item);
    }
    let code = rows.look(pass, row, 2 + count + item);
    text_look(rows, pass, row, code_at(code), code_tail(code), place - 1)
}

/// Word `place` of an item's content: of a value; a child has none.
#[inline(always)]
fn content_look<R: CompactRows>(
    rows: &R,
    pass: &mut R::Pass,
    row: R::Row,
    count: usize,
    level: u64,
    item: usize,
    place: usize,
) -> u64
    requires has { (content : Record) × R.has rows.now pass.old row content }
    requires spelt { (content : Record) → R.has rows.now pass.old row content → IsCompact content (compact_words content) }
    requires counts { (content : Record) → R.has rows.now pass.old row content → count ≡ count_seen (compact_words content) }
    requires levels { (content : Record) → R.has rows.now pass.old row content → level ≡ level_seen (compact_words content) }
    requires few { count < PART_LIMIT }
    requires there { item < count }
    requires low { place < TEXT_WORDS }
    ensures same { pass.new ≡ pass.old }
    ensures word { (content : Record) → R.has rows.now pass.old row content → result ≡ content_seen (compact_words content) item place }
{
    if level > 0 {
        return 0;
    }
    let code = rows.look(pass, row, 2 + count + item);
    let start = code_at(code) + code_tail(code) as usize;
    text_look(
        rows,
        pass,
        row,
        start,
        words_for(code / CONTENT_UNIT),
        place,
    )
}
