//! Compact rows by hand: one of each kind beside the row of the same record, words that spell nothing, and each bit of a row turned over.
ghost use Rattle.compact_rows.specs.Spells.{IsCompact};
ghost use Rattle.deltas.specs.Spellable.{IsSpellable};

use crate::rows::{self, Words, row};
use compact_rows::{CompactRow, MOST_WORDS, compact_in, from_compact, seen_in};
use deltas::Record;
use record_slots::{BadRow, ROW_WORDS, read_words, to_words};

/// The words of a compact row.
pub(crate) type Compact = &'static [u64];

/// The opening leaf: a count of 0, and 255 for the second key's length.
const OPENING: Compact = &[0x0000_0000_0300_0001, 0x0000_ff00_0000_0000];

/// An index page over all keys: child 1 at the empty key, and child 2, which is held, at `k09`. Neither item has a text; texts begin at word 6.
const INDEX: Compact = &[
    0x0000_0000_0302_0101,
    0x0000_ff00_0000_0000,
    0,
    0x6b30_3900_0000_0000,
    0x0000_0001_0000_0006,
    0x0000_0002_0103_0006,
];

/// `a` has `1`, over row 1: a head, a code whose text begins at word 4, and the value.
const PUT: Compact = &[
    0x0000_0001_0301_0002,
    0,
    0x6100_0000_0000_0000,
    0x0000_0001_0001_0004,
    0x3100_0000_0000_0000,
];

/// `k09` is absent, over row 7.
const DELETE: Compact = &[
    0x0000_0007_0300_0003,
    0x0000_0003_0000_0000,
    0x6b30_3900_0000_0000,
];

/// A leaf is split at `k09`, with page 2 to the right, over row 11.
const SPLIT: Compact = &[
    0x0000_000b_0300_0004,
    0x0000_0003_0000_0002,
    0x6b30_3900_0000_0000,
];

/// The term of `k09` and child 2 is added on level 15, over row 16383.
const TERM: Compact = &[
    0x0000_3fff_0300_0f05,
    0x0000_0003_0000_0002,
    0x6b30_3900_0000_0000,
];

/// The term of `k09` and child 2 is held, over row 5.
const HOLD: Compact = &[
    0x0000_0005_0300_0106,
    0x0000_0003_0000_0002,
    0x6b30_3900_0000_0000,
];

/// A page of level 1 is removed, over row 9.
const REMOVE: Compact = &[0x0000_0009_0300_0107, 0];

/// The leaf from `k09` up to `l`, with page 4095 to its right and one item, comes to its left page, over row 3: two keys at words 4 and 5,
/// and the ninth byte of the item's key at word 6.
const MERGE: Compact = &[
    0x0000_0003_0301_0008,
    0x0000_0103_0000_0fff,
    0x6b30_3961_6263_6465,
    0x0000_0000_0009_0006,
    0x6b30_3900_0000_0000,
    0x6c00_0000_0000_0000,
    0x6600_0000_0000_0000,
];

/// The term of `k09` and child 2 goes, over row 4.
const UNTERM: Compact = &[
    0x0000_0004_0300_0109,
    0x0000_0003_0000_0002,
    0x6b30_3900_0000_0000,
];

/// The empty key has the empty value, over row 1.
const EMPTY_PUT: Compact = &[0x0000_0001_0301_0002, 0, 0, 4];

/// The row of the same record.
const EMPTY_ROW: Words = &[(0, 0x02010002), (1, 1)];

/// `k0987654321` has `abcdefghi`, over the greatest row: a word of the key and two of the value are behind the code.
const LONG_PUT: Compact = &[
    0x03ff_ffff_0301_0002,
    0,
    0x6b30_3938_3736_3534,
    0x0000_0009_000b_0004,
    0x3332_3100_0000_0000,
    0x6162_6364_6566_6768,
    0x6900_0000_0000_0000,
];

/// The row of the same record.
const LONG_ROW: Words = &[
    (0, 0x02010002),
    (1, 0x3ff_ffff),
    (21, 11),
    (22, 0x6b30393837363534),
    (23, 0x3332310000000000),
    (30, 9),
    (31, 0x6162636465666768),
    (32, 0x6900000000000000),
];

/// A leaf from `b` up to `d`, with page 3 to its right: `b` has `x`, and `c12345678` has the empty value.
const LEAF: Compact = &[
    0x0000_0000_0302_0001,
    0x0000_0101_0000_0003,
    0x6200_0000_0000_0000,
    0x6331_3233_3435_3637,
    0x0000_0001_0001_0008,
    0x0000_0000_0009_0009,
    0x6200_0000_0000_0000,
    0x6400_0000_0000_0000,
    0x7800_0000_0000_0000,
    0x3800_0000_0000_0000,
];

/// The row of the same record.
const LEAF_ROW: Words = &[
    (0, 0x02020001),
    (2, 3),
    (3, 1),
    (4, 0x6200000000000000),
    (12, 1),
    (13, 0x6400000000000000),
    (21, 1),
    (22, 0x6200000000000000),
    (30, 1),
    (31, 0x7800000000000000),
    (39, 9),
    (40, 0x6331323334353637),
    (41, 0x3800000000000000),
];

/// Compact rows, each with the row of the same record.
const EACH: [(Compact, Words); 13] = [
    (OPENING, rows::OPENING),
    (INDEX, rows::INDEX),
    (PUT, rows::PUT),
    (DELETE, rows::DELETE),
    (SPLIT, rows::SPLIT),
    (TERM, rows::TERM),
    (HOLD, rows::HOLD),
    (REMOVE, rows::REMOVE),
    (MERGE, rows::MERGE),
    (UNTERM, rows::UNTERM),
    (EMPTY_PUT, EMPTY_ROW),
    (LONG_PUT, LONG_ROW),
    (LEAF, LEAF_ROW),
];

/// The compact words of a record.
pub(crate) fn written(content: &Record) -> CompactRow
    requires { IsSpellable content.now }
    ensures { IsCompact content.now result }
{
    let mut row = CompactRow::new();
    compact_in(&mut row, content);
    row
}

/// Whether the record of the row is written as these words.
fn is_written(words: &[u64], spelled: Words) -> bool {
    match read_words(&row(spelled)) {
        Ok(record) => written(&record).words() == words,
        Err(_) => false,
    }
}

/// Whether these words are read as the record of the row.
fn is_read(words: &[u64], spelled: Words) -> bool {
    match from_compact(words) {
        Ok(record) => to_words(&record) == row(spelled),
        Err(_) => false,
    }
}

/// Whether each word of the row is computed from these words.
pub(crate) fn is_seen(words: &[u64], row: &[u64; ROW_WORDS]) -> bool {
    for at in 0..ROW_WORDS {
        if seen_in(words, at) != row[at] {
            return false;
        }
    }
    true
}

#[test]
fn compact_rows_of_records(rt: HostRuntime) {
    for (place, (words, spelled)) in EACH.iter().enumerate() {
        assert!(rt; is_written(words, spelled), "{place}");
        assert!(rt; is_read(words, spelled), "{place}");
        assert!(rt; is_seen(words, &row(spelled)), "{place}");
    }
}

/// More words than those of each row by hand.
const MANY: usize = 16;

/// These words, and zeros behind them.
fn extended(words: &[u64]) -> [u64; MANY] {
    let mut row = [0; MANY];
    for (place, word) in words.iter().enumerate() {
        if place < MANY {
            row[place] = *word;
        }
    }
    row
}

/// Whether the words spell nothing.
fn is_refused(words: &[u64]) -> bool {
    matches!(from_compact(words), Err(BadRow))
}

/// Whether the words spell nothing if one of them is another.
fn is_spoilt_by(words: &[u64], place: usize, word: u64) -> bool {
    let mut row = extended(words);
    if place < MANY {
        row[place] = word;
    }
    is_refused(&row[..words.len().min(MANY)])
}

/// Rows with one word changed, so that they spell nothing.
const SPOILT: [(Compact, usize, u64); 29] = [
    // a count of 0, and of 2; the form of other rows, and of the first ones; a kind that is none
    (PUT, 0, 0x0000_0001_0300_0002),
    (PUT, 0, 0x0000_0001_0302_0002),
    (PUT, 0, 0x0000_0001_0201_0002),
    (PUT, 0, 0x0000_0001_0001_0002),
    (PUT, 0, 0x0000_0001_0301_000a),
    // a put above the leaves; no row under it, and one past the greatest
    (PUT, 0, 0x0000_0001_0301_0102),
    (PUT, 0, 0x0000_0000_0301_0002),
    (PUT, 0, 0x0400_0000_0301_0002),
    // a PID, a second key's length without its bytes, and bits above it
    (PUT, 1, 0x0000_0000_0000_0001),
    (PUT, 1, 0x0000_0100_0000_0000),
    (PUT, 1, 0x0001_0000_0000_0000),
    // heads: a byte behind the key's end; the first byte in the lowest bits; a key below the one before it; a key above the page's end
    (PUT, 2, 0x6101_0000_0000_0000),
    (PUT, 2, 0x0000_0000_0000_0061),
    (LEAF, 3, 0x6131_3233_3435_3637),
    (LEAF, 3, 0x6431_3233_3435_3637),
    // the place of a text one word before, and one behind; a length of 65, of a key and of a value; a mark on a leaf, and the bit above it
    (PUT, 3, 0x0000_0001_0001_0003),
    (PUT, 3, 0x0000_0001_0001_0005),
    (PUT, 3, 0x0000_0001_0041_0004),
    (PUT, 3, 0x0000_0041_0001_0004),
    (PUT, 3, 0x0000_0001_0101_0004),
    (PUT, 3, 0x0000_0001_0201_0004),
    // bits behind the end of a value, of the rest of a key, and of a first and a second key
    (PUT, 4, 0x3100_0000_0000_0001),
    (LONG_PUT, 4, 0x3332_3100_0000_0001),
    (DELETE, 2, 0x6b30_3900_0000_0001),
    (MERGE, 5, 0x6c00_0000_0000_0001),
    // a first key of 65 bytes, and no bound where a record has the empty key
    (DELETE, 1, 0x0000_0041_0000_0000),
    (DELETE, 1, 0x0000_ff03_0000_0000),
    // a child without a number, and with one past the greatest
    (INDEX, 4, 0x0000_0000_0000_0006),
    (INDEX, 4, 0x0040_0000_0000_0006),
];

#[test]
fn refuses_compact_words_that_spell_nothing(rt: HostRuntime) {
    for (place, (words, at, word)) in SPOILT.iter().enumerate() {
        assert!(rt;
            is_spoilt_by(words, *at, *word),
            "row {place}: {word} at {at}"
        );
    }
}

/// Whether the words spell nothing if the last ones are left out, or a zero is added.
fn is_whole(words: &[u64]) -> bool {
    let row = extended(words);
    let count = words.len().min(MANY - 1);
    for less in 0..count {
        if !is_refused(&row[..less]) {
            return false;
        }
    }
    is_refused(&row[..count + 1])
}

#[test]
fn a_compact_row_has_no_word_too_few_and_none_too_many(rt: HostRuntime) {
    for (place, (words, _)) in EACH.iter().enumerate() {
        assert!(rt; is_whole(words), "{place}");
    }
    assert!(rt; is_refused(&[0; MOST_WORDS]), "zeros");
    assert!(rt; is_refused(&[u64::MAX; MOST_WORDS + 1]), "ones");
}

/// Whether the words spell a record, of which they are the only spelling; none where they spell a record that has other words.
fn is_own(words: &[u64]) -> Option<bool> {
    match from_compact(words) {
        Ok(record) => (written(&record).words() == words).then_some(true),
        Err(_) => Some(false),
    }
}

/// How many of the rows with one bit turned over spell a record, all of which have to be its own words.
fn spelled_by_one_bit(words: &[u64]) -> Option<u32> {
    let (row, count) = (extended(words), words.len().min(MANY));
    let mut spelled = 0u32;
    for place in 0..count {
        for bit in 0..64u32 {
            let mut turned = row;
            turned[place] ^= 1 << bit;
            spelled = spelled.saturating_add(u32::from(is_own(&turned[..count])?));
        }
    }
    Some(spelled)
}

/// How many of the rows that differ in one bit spell a record, counted by the rules of a row.
///
/// A next row may have any of its 26 bits turned, and a PID any of its 22, unless it is 0 then. A length may change within its words alone, and
/// only to a greater one, as the bytes behind the text are 0. Each bit of a key's and a value's bytes counts, where the order of keys allows it.
const TURNED: [(Compact, u32); 13] = [
    (OPENING, 0),
    // three levels; the two children; the length 3 of the second key, which may be 7; its mark and its bytes
    (INDEX, 3 + 21 + 21 + 1 + 1 + 24),
    // the next row, which may not be 0; the two lengths of 1, which may be 3 and 5; the bytes of the key and the value
    (PUT, 25 + 2 + 8 + 2 + 8),
    (DELETE, 26 + 1 + 24),
    // four levels
    (SPLIT, 4 + 26 + 21 + 1 + 24),
    // a split in its place, and four levels
    (TERM, 1 + 4 + 26 + 21 + 1 + 24),
    // the same, and three levels
    (HOLD, 1 + 3 + 26 + 21 + 1 + 24),
    (REMOVE, 4 + 26),
    // the next row and the right page; the low key's length, and its bytes, which may only become less; the high key's, which may only become
    // more; the length of the item's key, and its bytes, which have to stay between them
    (MERGE, 26 + 22 + 1 + 11 + 2 + 4 + 2 + 58),
    (UNTERM, 3 + 25 + 21 + 1 + 24),
    // the next row; the key's length, which may be 1, 2, 4 or 8
    (EMPTY_PUT, 25 + 4),
    // the next row; the key's length, which may be 15, and its bytes; the value's length, which may be 11 or 13, and its bytes
    (LONG_PUT, 26 + 1 + 88 + 2 + 72),
    // the right page; the low key's bytes, which may only become less; the high key's length and its bytes, which may only become more; the first
    // item's two lengths, the bytes of its key, which has to stay between the low key and the second one, and of its value; the second key's length
    // and its bytes
    (LEAF, 22 + 3 + 2 + 5 + 2 + 2 + 1 + 8 + 2 + 65),
];

#[test]
fn each_bit_of_a_compact_row_counts(rt: HostRuntime) {
    for (words, expected) in TURNED {
        let spelled = spelled_by_one_bit(words);
        assert!(rt; spelled == Some(expected), "{spelled:?} for {expected}");
    }
}
