//! Drawn records in compact rows: what is written is read again, and each word of the row of `record_slots` is computed from it.

ghost use Rattle.std.specs.Prelude.{◌+◌, ◌≤◌, ◌<◌};
ghost use Rattle.deltas.specs.Spellable.{IsSpellable};

use crate::compact_by_hand::{is_seen, written};
use crate::random_rows::{draw, other_word};
use crate::rows::{EACH_KIND, Words, with};
use compact_rows::from_compact;
use deltas::Record;
use rand_core::SeedableRng;
use rand_pcg::Pcg32;
use record_slots::{ROW_WORDS, read_words, to_words};

/// Whether a record is read from its compact words, which are so many, and its row is seen in them.
fn comes_back(content: &Record, row: &[u64; ROW_WORDS]) -> Option<usize>
    requires { IsSpellable content.now }
{
    let written = written(content);
    let words = written.words();
    let same = match from_compact(words) {
        Ok(read) => to_words(&read) == *row && is_seen(words, row),
        Err(_) => false,
    };
    same.then_some(words.len())
}

/// How many compact words the record of a row has; none where the row spells none, or anything is wrong.
fn told(row: &[u64; ROW_WORDS]) -> Option<usize> {
    match read_words(row) {
        Ok(content) => comes_back(&content, row),
        Err(_) => None,
    }
}

/// A row that is drawn.
type Row = [u64; ROW_WORDS];

/// Eight drawn bytes, of which those behind a text's end are 0, where so many of its bytes come before them.
fn eight(words: &mut Pcg32, length: usize, before: usize) -> u64 {
    let any = draw(words);
    if length <= before {
        return 0;
    }
    let count = length - before;
    if count >= 8 {
        any
    } else {
        any & u64::MAX << (64 - 8 * count)
    }
}

/// A text of so many drawn bytes comes to a place.
fn draw_text(words: &mut Pcg32, row: &mut Row, at: usize, length: usize)
    requires { at + 9 ≤ 512 }
{
    row[at] = length as u64;
    for place in 0..8usize {
        row[at + 1 + place] = eight(words, length, 8 * place);
    }
}

/// A number below an end that is not 0.
fn below(words: &mut Pcg32, end: u64) -> u64
    requires { 0 < end }
    ensures { result < end }
{
    draw(words) % end
}

/// A length up to 64.
fn length(words: &mut Pcg32) -> usize {
    below(words, 65) as usize
}

/// A length from 1 to 64.
fn some_length(words: &mut Pcg32) -> usize {
    below(words, 64) as usize + 1
}

/// A key in the order of items: its first byte is the item's number, from 1.
fn draw_key(words: &mut Pcg32, row: &mut Row, item: usize, length: usize)
    requires { item < 24 }
{
    let at = 21 + 18 * item;
    draw_text(words, row, at, length);
    row[at + 1] = row[at + 1] & u64::MAX >> 8 | (item as u64 + 1) << 56;
}

/// A row with a first word and the number of a row under it.
fn over(words: &mut Pcg32, first: u64) -> Row {
    let mut row = [0; ROW_WORDS];
    row[0] = first;
    row[1] = 1 + below(words, 67_108_863);
    row
}

/// A leaf over all keys of so many items.
fn leaf(words: &mut Pcg32, count: usize) -> Row
    requires { count ≤ 24 }
{
    let mut row = [0; ROW_WORDS];
    row[0] = 0x0200_0001 + 0x1_0000 * count as u64;
    row[12] = 255;
    for item in 0..count {
        let (key, value) = (some_length(words), length(words));
        draw_key(words, &mut row, item, key);
        draw_text(words, &mut row, 30 + 18 * item, value);
    }
    row
}

/// An index page over all keys of so many items, of which the second one is held.
fn index(words: &mut Pcg32, count: usize) -> Row
    requires { count ≤ 24 }
{
    let mut row = [0; ROW_WORDS];
    row[0] = 0x0200_0101 + 0x1_0000 * count as u64;
    row[12] = 255;
    for item in 0..count {
        if item > 0 {
            let key = some_length(words);
            draw_key(words, &mut row, item, key);
        }
        row[30 + 18 * item] = 1 + below(words, 4_194_303);
    }
    if count > 1 {
        row[39] |= 0x100;
    }
    row
}

/// A put.
fn put(words: &mut Pcg32) -> Row {
    let mut row = over(words, 0x0201_0002);
    let (key, value) = (length(words), length(words));
    draw_text(words, &mut row, 21, key);
    draw_text(words, &mut row, 30, value);
    row
}

/// A delete.
fn delete(words: &mut Pcg32) -> Row {
    let mut row = over(words, 0x0200_0003);
    let key = length(words);
    draw_text(words, &mut row, 3, key);
    row
}

/// A removal.
fn removal(words: &mut Pcg32) -> Row {
    over(words, 0x0200_0107)
}

/// A bounded page of a row's items: its low key is below all of them, its high one above, and there is a page to its right.
fn bounded(words: &mut Pcg32, row: Row) -> Row {
    let mut row = row;
    let (low, high) = (some_length(words), some_length(words));
    row[2] = 1 + below(words, 4_194_303);
    draw_text(words, &mut row, 3, low);
    draw_text(words, &mut row, 12, high);
    row[4] &= u64::MAX >> 8;
    row[13] |= 0xff << 56;
    row
}

/// A merge: a bounded leaf of up to four items over the row of its left page.
fn merge(words: &mut Pcg32, count: usize) -> Row
    requires { count ≤ 4 }
{
    let leaf = leaf(words, count);
    let mut row = bounded(words, leaf);
    row[0] = 0x0200_0008 + 0x1_0000 * count as u64;
    row[1] = 1 + below(words, 67_108_863);
    row
}

/// A split, a term, a hold or an unterm, by its kind.
fn link(words: &mut Pcg32, kind: u64) -> Row
    requires { kind < 16 }
{
    let mut row = over(words, 0x0200_0100 + kind);
    row[2] = 1 + below(words, 4_194_303);
    let key = some_length(words);
    draw_text(words, &mut row, 3, key);
    row
}

/// A row of a kind, which has so many items if it is a page's.
fn drawn(words: &mut Pcg32, kind: u32, count: usize) -> Row
    requires { count ≤ 24 }
{
    match kind {
        0 => leaf(words, count),
        1 => index(words, count),
        2 => put(words),
        3 => delete(words),
        4 => link(words, 4),
        5 => link(words, 5),
        6 => link(words, 6),
        7 => link(words, 9),
        8 => removal(words),
        9 => merge(words, 1 + count % 4),
        _ => {
            let leaf = leaf(words, count);
            bounded(words, leaf)
        }
    }
}

/// How many rows of a kind are drawn and come back from their compact words, of each count of items as many.
fn come_back(words: &mut Pcg32, kind: u32) -> u32 {
    let mut count = 0u32;
    for round in 0..1_000usize {
        let row = drawn(words, kind, 1 + round % 24);
        count = count.wrapping_add(u32::from(told(&row).is_some()));
    }
    count
}

#[test]
fn drawn_records_come_back(rt: HostRuntime) {
    let mut words = Pcg32::seed_from_u64(3);
    for kind in 0..11u32 {
        let count = come_back(&mut words, kind);
        assert!(rt; count == 1_000, "kind {kind}: {count}");
    }
}

/// A leaf of 24 items between two keys, all of whose texts have 64 bytes.
fn longest(words: &mut Pcg32) -> Row {
    let mut row = [0; ROW_WORDS];
    row[0] = 0x0218_0001;
    row[2] = 7;
    draw_text(words, &mut row, 3, 64);
    draw_text(words, &mut row, 12, 64);
    row[4] &= u64::MAX >> 8;
    row[13] |= 0xff << 56;
    for item in 0..24usize {
        draw_key(words, &mut row, item, 64);
        draw_text(words, &mut row, 30 + 18 * item, 64);
    }
    row
}

// Two words of numbers, 24 heads and 24 codes, two keys of 8 words, and of each item 7 words more of its key and 8 of its value.
#[test]
fn the_longest_record_has_room(rt: HostRuntime) {
    let row = longest(&mut Pcg32::seed_from_u64(5));
    let found = told(&row);
    let expected = 2 + 24 + 24 + 8 + 8 + 24 * 15;
    assert!(rt; found == Some(expected), "{found:?} for {expected}");
}

/// Whether the row spells nothing, or its record comes back from its compact words.
fn is_told(row: &Row) -> bool {
    match read_words(row) {
        Ok(content) => comes_back(&content, row).is_some(),
        Err(_) => true,
    }
}

/// Whether this is so of a good row with another word at each place in turn.
fn are_told(words: &mut Pcg32, good: Words) -> bool {
    for place in 0..48usize {
        for kind in 0..24u32 {
            if !is_told(&with(good, place, other_word(words, kind % 6))) {
                return false;
            }
        }
    }
    true
}

#[test]
fn records_with_one_other_word_come_back(rt: HostRuntime) {
    let mut words = Pcg32::seed_from_u64(12);
    for (kind, good) in EACH_KIND.iter().enumerate() {
        assert!(rt; are_told(&mut words, good), "kind {kind}");
    }
}
