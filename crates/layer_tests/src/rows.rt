//! Rows by hand: one of each kind, rows that spell nothing, and each bit of a row turned over.

use base_page::Page;
use bw_model::{Key, Value};
use deltas::{Hold, Put, Record, Split};
use record_slots::{BadRow, ROW_WORDS, from_words, read_words, to_words};

fn key(text: &[u8]) -> Key {
    Key::from_slice(text).unwrap_or_default()
}

fn value(text: &[u8]) -> Value {
    Value::from_slice(text).unwrap_or_default()
}

/// The words of a row by their places; the others are 0.
pub(crate) type Words = &'static [(usize, u64)];

/// The row that has these words.
pub(crate) fn row(words: Words) -> [u64; ROW_WORDS] {
    let mut row = [0; ROW_WORDS];
    for (place, word) in words {
        if *place < ROW_WORDS {
            row[*place] = *word;
        }
    }
    row
}

/// The opening leaf.
pub(crate) const OPENING: Words = &[(0, 0x02000001), (12, 255)];

/// `a` has `1`, over row 1.
pub(crate) const PUT: Words = &[
    (0, 0x02010002),
    (1, 1),
    (21, 1),
    (22, 0x6100000000000000),
    (30, 1),
    (31, 0x3100000000000000),
];

/// `k09` is absent, over row 7.
pub(crate) const DELETE: Words = &[(0, 0x02000003), (1, 7), (3, 3), (4, 0x6b30390000000000)];

/// A leaf is split at `k09`, with page 2 to the right, over row 11.
pub(crate) const SPLIT: Words = &[
    (0, 0x02000004),
    (1, 11),
    (2, 2),
    (3, 3),
    (4, 0x6b30390000000000),
];

/// The term of `k09` and child 2 is added on level 15, over row 16383.
pub(crate) const TERM: Words = &[
    (0, 0x02000f05),
    (1, 16383),
    (2, 2),
    (3, 3),
    (4, 0x6b30390000000000),
];

/// The term of `k09` and child 2 is held, over row 5.
pub(crate) const HOLD: Words = &[
    (0, 0x02000106),
    (1, 5),
    (2, 2),
    (3, 3),
    (4, 0x6b30390000000000),
];

/// A page of level 1 is removed, over row 9.
pub(crate) const REMOVE: Words = &[(0, 0x02000107), (1, 9)];

/// The leaf from `k09` up to `l`, with page 4095 to its right and one item, comes to its left page, over row 3.
pub(crate) const MERGE: Words = &[
    (0, 0x02010008),
    (1, 3),
    (2, 4095),
    (3, 3),
    (4, 0x6b30390000000000),
    (12, 1),
    (13, 0x6c00000000000000),
    (21, 9),
    (22, 0x6b30396162636465),
    (23, 0x6600000000000000),
    (30, 0),
];

/// The term of `k09` and child 2 goes, over row 4.
pub(crate) const UNTERM: Words = &[
    (0, 0x02000109),
    (1, 4),
    (2, 2),
    (3, 3),
    (4, 0x6b30390000000000),
];

/// An index page over all keys, with child 1 at the empty key and child 2, which is held, at `k09`.
pub(crate) const INDEX: Words = &[
    (0, 0x02020101),
    (12, 255),
    (30, 1),
    (39, 0x103),
    (40, 0x6b30390000000000),
    (48, 2),
];

/// An index page with both children at the empty key.
const EQUAL_KEYS: Words = &[(0, 0x02020101), (12, 255), (30, 1), (39, 0x100), (48, 2)];

pub(crate) const EACH_KIND: &[Words] = &[
    OPENING, INDEX, PUT, DELETE, SPLIT, TERM, HOLD, REMOVE, MERGE, UNTERM,
];

/// Whether the words spell a record, whose words they are.
pub(crate) fn is_spelled(words: &[u64; ROW_WORDS]) -> bool {
    match from_words(words) {
        Ok(record) => to_words(&record) == *words,
        Err(_) => false,
    }
}

/// Whether the words spell nothing.
pub(crate) fn is_refused(words: &[u64; ROW_WORDS]) -> bool {
    matches!(from_words(words), Err(BadRow))
}

/// How many of the rows with one bit turned over spell a record, all of which have to be its own words.
fn spelled_by_one_bit(words: &[u64; ROW_WORDS]) -> Option<u32> {
    let mut spelled = 0u32;
    for place in 0..ROW_WORDS {
        for bit in 0..64u32 {
            let mut turned = *words;
            turned[place] ^= 1 << bit;
            if is_refused(&turned) {
                continue;
            }
            if !is_spelled(&turned) {
                return None;
            }
            spelled = spelled.saturating_add(1);
        }
    }
    Some(spelled)
}

/// Whether the row is the record's.
fn writes(content: &Record, words: Words) -> bool {
    to_words(content) == row(words)
}

/// Whether a leaf, a put, a split and a hold have their rows.
fn writes_each() -> bool {
    let leaf = Record::Base(Page::empty_leaf());
    let put = Record::Put(Put {
        next: 1,
        key: key(b"a"),
        value: value(b"1"),
    });
    let split = Record::Split(Split {
        level: 0,
        next: 11,
        separator: key(b"k09"),
        page: 2,
    });
    let hold = Record::Hold(Hold {
        level: 1,
        next: 5,
        separator: key(b"k09"),
        child: 2,
    });
    let low = writes(&leaf, OPENING) & writes(&put, PUT);
    low & writes(&split, SPLIT) & writes(&hold, HOLD)
}

/// Rows with one word changed, so that they spell nothing.
const SPOILT: &[(Words, usize, u64)] = &[
    // a byte past the key, and lengths past the greatest
    (PUT, 23, 1),
    (PUT, 21, 65),
    (PUT, 30, 65),
    (DELETE, 3, 65),
    // a put above the leaves, and the first form of rows, and others
    (PUT, 0, 0x02010102),
    (PUT, 0, 0x10002),
    (PUT, 0, 0x01010002),
    (PUT, 0, 0x03010002),
    (PUT, 0, 0x0000_0001_0201_0002),
    (PUT, 1, 0),
    (INDEX, 30, 4096),
    (INDEX, 21, 0x100),
];

/// The row with another word at a place.
pub(crate) fn with(words: Words, place: usize, word: u64) -> [u64; ROW_WORDS] {
    let mut row = row(words);
    if place < ROW_WORDS {
        row[place] = word;
    }
    row
}

#[test]
fn writes_the_rows_of_records_and_refuses_rows_that_spell_nothing(rt: HostRuntime) {
    assert!(rt; writes_each(), "records by hand");
    for word in [0, u64::MAX] {
        assert!(rt; is_refused(&[word; ROW_WORDS]), "each word {word}");
    }
    assert!(rt; is_refused(&row(EQUAL_KEYS)), "equal keys");
    for (case, (words, place, word)) in SPOILT.iter().enumerate() {
        assert!(rt;
            is_refused(&with(words, *place, *word)),
            "row {case}: {word} at {place}"
        );
    }
}

/// Rows with a number of a large tree, and whether it is one: they spell a record there, and nothing in any other tree.
const LARGE_NUMBERS: [(Words, usize, u64, bool); 10] = [
    (PUT, 1, 16_384, true),
    (PUT, 1, 67_108_863, true),
    (PUT, 1, 67_108_864, false),
    (SPLIT, 2, 4_096, true),
    (SPLIT, 2, 4_194_303, true),
    (SPLIT, 2, 4_194_304, false),
    (MERGE, 2, 4_096, true),
    (MERGE, 2, 4_194_304, false),
    (INDEX, 30, 4_096, true),
    (INDEX, 30, 4_194_304, false),
];

/// Whether the words spell a record of a large tree, whose words they are.
fn is_read(words: &[u64; ROW_WORDS]) -> bool {
    match read_words(words) {
        Ok(record) => to_words(&record) == *words,
        Err(_) => false,
    }
}

#[test]
fn large_numbers_are_those_of_large_trees(rt: HostRuntime) {
    for (words, place, number, taken) in LARGE_NUMBERS {
        let row = with(words, place, number);
        let (refused, read) = (is_refused(&row), is_read(&row));
        assert!(rt;
            refused && read == taken,
            "{number} at {place}: refused {refused}, read {read}"
        );
    }
    for (kind, words) in EACH_KIND.iter().enumerate() {
        assert!(rt; is_read(&row(words)), "kind {kind}");
    }
}

/// How many of the rows that differ in one bit spell a record, counted by the rules of a row.
///
/// A next row may have any of its 14 bits turned, and a PID any of its 12, unless it is 0 then; a length of 3 may become 7, 11, 19 or 35,
/// as the bytes behind the key are 0; and each bit of a key's bytes counts, where its order allows it.
const TURNED: &[(Words, u32)] = &[
    // seven lengths of the low key, and one empty item
    (OPENING, 8),
    // three levels; the two children; the second key's length, mark and bytes
    (INDEX, 3 + 11 + 11 + 4 + 1 + 24),
    // the next row, which may not be 0; the lengths and the bytes of the key and the value
    (PUT, 13 + 5 + 8 + 5 + 8),
    (DELETE, 14 + 4 + 24),
    // four levels
    (SPLIT, 4 + 14 + 11 + 4 + 24),
    // a split in its place, and four levels
    (TERM, 1 + 4 + 14 + 11 + 4 + 24),
    // the same, and three levels
    (HOLD, 1 + 3 + 14 + 11 + 4 + 24),
    (REMOVE, 4 + 14),
    // the next row and the right page; the low key, which may only become less, but for its length; the high key, which may only become more;
    // the item's key, which has to stay between them, and its value's length
    (MERGE, 14 + 12 + 4 + 11 + 5 + 4 + 4 + 58 + 7),
    (UNTERM, 3 + 13 + 11 + 4 + 24),
];

#[test]
fn each_bit_of_a_row_counts(rt: HostRuntime) {
    for (kind, (words, expected)) in TURNED.iter().enumerate() {
        let row = row(words);
        assert!(rt; is_spelled(&row), "kind {kind}");
        let spelled = spelled_by_one_bit(&row);
        assert!(rt;
            spelled == Some(*expected),
            "kind {kind}: {spelled:?} for {expected}"
        );
    }
}
