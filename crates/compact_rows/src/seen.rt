//! Each word of the row of `record_slots`, computed from the compact words of the same record.
ghost use Rattle.std.specs.Prelude.{◌≡◌, ◌<◌, ◌≤◌, slice_index};
ghost use Rattle.compact_rows.specs.Seen.{bound_size, code_at, code_tail, count_seen, first_length, first_seen, item_seen, items_seen, level_seen, place_seen};
ghost use Rattle.compact_rows.specs.Seen.{second_length, second_seen, seen, text_seen, value_seen};
ghost use Rattle.compact_rows.specs.Spelling.{words_for};
ghost use Rattle.record_slots.specs.declared.layout.TheConstants.{ROW_WORDS};

use crate::layout::{CONTENT_UNIT, FIRST_UNIT, LENGTH_UNIT, NEXT_UNIT, SECOND_UNIT};
use record_slots::{
    FIRST_ITEM, FORM, FORM_UNIT, ITEM_UNIT, ITEM_WORDS, LEVEL_UNIT, NO_BOUND, PART_LIMIT, ROW_WORDS,
};

/// Word `at` of the row of `record_slots` that spells the same record. Of words that spell no record some number is returned: it is total, and
/// needs no test before it.
pub fn seen_in(words: &[u64], at: usize) -> u64
    requires { at < ROW_WORDS }
    ensures { result ≡ seen words.now at }
{
    if at == 0 {
        word_at(words, 0) % FORM_UNIT + FORM_UNIT * FORM
    } else if at == 1 {
        word_at(words, 0) / NEXT_UNIT
    } else if at == 2 {
        word_at(words, 1) % FIRST_UNIT
    } else if at == 3 {
        first_length(words)
    } else if at < 12 {
        first_in(words, at - 4)
    } else if at == 12 {
        second_length(words)
    } else if at < 21 {
        second_in(words, at - 13)
    } else {
        items_in(words, at - FIRST_ITEM)
    }
}

/// Word `at`; 0 behind the last one.
fn word_at(words: &[u64], at: usize) -> u64
    ensures { result ≡ slice_index words.now at }
{
    if at < words.len() { words[at] } else { 0 }
}

/// How many words so many bytes take.
#[inline(always)]
pub(crate) fn words_for(count: u64) -> u64
    requires { count ≤ 4294967295 }
    ensures { result ≡ words_for count }
{
    (count + 7) / 8
}

/// How many words a bound takes whose length this is.
#[inline(always)]
pub(crate) fn bound_size(count: u64) -> u64
    requires { count ≤ 4294967295 }
    ensures { result ≡ bound_size count }
{
    if count == NO_BOUND {
        0
    } else {
        words_for(count)
    }
}

fn level_in(words: &[u64]) -> u64
    ensures { result ≡ level_seen words.now }
{
    word_at(words, 0) / LEVEL_UNIT % PART_LIMIT
}

fn count_in(words: &[u64]) -> usize
    ensures count { result ≡ count_seen words.now }
    ensures few { result < PART_LIMIT }
{
    (word_at(words, 0) / ITEM_UNIT % PART_LIMIT) as usize
}

fn first_length(words: &[u64]) -> u64
    ensures length { result ≡ first_length words.now }
    ensures few { result < PART_LIMIT }
{
    word_at(words, 1) / FIRST_UNIT % PART_LIMIT
}

fn second_length(words: &[u64]) -> u64
    ensures length { result ≡ second_length words.now }
    ensures few { result < 16777216 }
{
    word_at(words, 1) / SECOND_UNIT
}

/// Word `place` of a text of `size` words, which begins at word `at`; 0 behind its end.
fn text_in(words: &[u64], at: usize, size: u64, place: usize) -> u64
    requires few { at ≤ 281474976710656 }
    requires low { place < ROW_WORDS }
    ensures { result ≡ text_seen words.now at size place }
{
    if (place as u64) < size {
        word_at(words, at + place)
    } else {
        0
    }
}

fn first_in(words: &[u64], place: usize) -> u64
    requires { place < ROW_WORDS }
    ensures { result ≡ first_seen words.now place }
{
    let at = 2 + 2 * count_in(words);
    text_in(words, at, words_for(first_length(words)), place)
}

fn second_in(words: &[u64], place: usize) -> u64
    requires { place < ROW_WORDS }
    ensures { result ≡ second_seen words.now place }
{
    let at = 2 + 2 * count_in(words) + words_for(first_length(words)) as usize;
    text_in(words, at, bound_size(second_length(words)), place)
}

/// A word behind the two keys: words of items.
fn items_in(words: &[u64], place: usize) -> u64
    requires { place < ROW_WORDS }
    ensures { result ≡ items_seen words.now place }
{
    place_in(words, place / ITEM_WORDS, place % ITEM_WORDS)
}

/// Word `place` of an item, by its number.
fn place_in(words: &[u64], item: usize, place: usize) -> u64
    requires item { item < ROW_WORDS }
    requires low { place < ROW_WORDS }
    ensures { result ≡ place_seen words.now item place }
{
    let count = count_in(words);
    if item < count {
        let head = word_at(words, 2 + item);
        let code = word_at(words, 2 + count + item);
        item_in(words, level_in(words), head, code, place)
    } else {
        0
    }
}

/// Word `place` of an item, by its head and its code.
fn item_in(words: &[u64], level: u64, head: u64, code: u64, place: usize) -> u64
    requires { place < ROW_WORDS }
    ensures { result ≡ item_seen words.now level head code place }
{
    if place == 0 {
        code / LENGTH_UNIT % LENGTH_UNIT
    } else if place == 1 {
        head
    } else if place < 9 {
        text_in(words, code_at(code), code_tail(code), place - 2)
    } else if place == 9 {
        code / CONTENT_UNIT
    } else {
        value_in(words, level, code, place - 10)
    }
}

/// Word `place` of a value; a child has none.
fn value_in(words: &[u64], level: u64, code: u64, place: usize) -> u64
    requires { place < ROW_WORDS }
    ensures { result ≡ value_seen words.now level code place }
{
    if level == 0 {
        let at = code_at(code) + code_tail(code) as usize;
        text_in(words, at, words_for(code / CONTENT_UNIT), place)
    } else {
        0
    }
}

/// Where an item's text begins, by its code.
#[inline(always)]
pub(crate) fn code_at(code: u64) -> usize
    ensures at { result ≡ code_at code }
    ensures few { result < 65536 }
{
    (code % LENGTH_UNIT) as usize
}

/// How many words the key takes there, behind its first eight bytes, by its code.
#[inline(always)]
pub(crate) fn code_tail(code: u64) -> u64
    ensures tail { result ≡ code_tail code }
    ensures few { result < 32 }
{
    words_for((code / LENGTH_UNIT % PART_LIMIT).saturating_sub(8))
}
