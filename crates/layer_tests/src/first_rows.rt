//! Rows of the first form by hand: those that are taken and those that are refused, and each bit of a row turned over.

use crate::rows::{self, Words};
use record_slots::{BadRow, ROW_WORDS, from_words};
use widening::{FIRST_ROW_WORDS, widen};

/// The row of the first form that has these words.
fn first(words: Words) -> [u64; FIRST_ROW_WORDS] {
    let mut row = [0; FIRST_ROW_WORDS];
    for (place, word) in words {
        if *place < FIRST_ROW_WORDS {
            row[*place] = *word;
        }
    }
    row
}

/// The opening leaf.
const OPENING: Words = &[(0, 0x1), (8, 255)];

/// `a` has `1`, over row 1.
const PUT: Words = &[
    (0, 0x10002),
    (1, 1),
    (13, 1),
    (14, 0x6100000000000000),
    (18, 1),
    (19, 0x3100000000000000),
];

/// A leaf is split at `k09`, with page 2 to the right, over row 11.
const SPLIT: Words = &[(0, 0x4), (1, 11), (2, 2), (3, 3), (4, 0x6b30390000000000)];

/// The term of `k09` and child 2 is held, over row 5.
const HOLD: Words = &[(0, 0x106), (1, 5), (2, 2), (3, 3), (4, 0x6b30390000000000)];

/// Whether the first row is taken to the second one.
fn is_taken_to(words: &[u64; FIRST_ROW_WORDS], wide: &[u64; ROW_WORDS]) -> bool {
    match widen(words) {
        Ok(row) => row == *wide,
        Err(_) => false,
    }
}

/// Rows of the first form, and the same of today's.
const TAKEN: &[(Words, Words)] = &[
    (OPENING, rows::OPENING),
    (PUT, rows::PUT),
    (SPLIT, rows::SPLIT),
    (HOLD, rows::HOLD),
];

/// Whether the words are refused.
fn is_refused(words: &[u64; FIRST_ROW_WORDS]) -> bool {
    matches!(widen(words), Err(BadRow))
}

/// Whether the words are refused, or taken to words that spell a record.
fn is_told(words: &[u64; FIRST_ROW_WORDS]) -> bool {
    match widen(words) {
        Ok(row) => from_words(&row).is_ok(),
        Err(_) => true,
    }
}

/// Whether each row with one bit turned over is refused, or taken to words that spell a record.
fn are_told(words: &[u64; FIRST_ROW_WORDS]) -> bool {
    for place in 0..FIRST_ROW_WORDS {
        for bit in 0..64u32 {
            let mut turned = *words;
            turned[place] ^= 1 << bit;
            if !is_told(&turned) {
                return false;
            }
        }
    }
    true
}

/// The row with another word at a place.
fn with(words: Words, place: usize, word: u64) -> [u64; FIRST_ROW_WORDS] {
    let mut row = first(words);
    if place < FIRST_ROW_WORDS {
        row[place] = word;
    }
    row
}

/// A word of the put changed so that it spells nothing: a bit behind the key's end, a level, no row under it, today's form, a key
/// and a value longer than the first form has room for, and a word behind the last field.
const SPOILT: &[(usize, u64)] = &[
    (15, 1),
    (0, 0x10102),
    (1, 0),
    (0, 0x02010002),
    (13, 33),
    (18, 33),
    (253, 1),
    (255, 1),
];

/// A full leaf: 24 items, whose keys and values have 32 bytes, and whose keys differ in the last one.
fn full() -> [u64; FIRST_ROW_WORDS] {
    let mut row = first(&[(0, 0x180001), (8, 255)]);
    for place in 13..253usize {
        let at = (place - 13) % 5;
        row[place] = if at == 0 { 32 } else { 0x6b6b6b6b6b6b6b6b };
        if (place - 13) % 10 == 4 {
            row[place] = 0x6b6b6b6b6b6b6b00 + (place as u64 - 13) / 10;
        }
    }
    row
}

/// That full leaf in today's form.
fn full_today() -> [u64; ROW_WORDS] {
    let mut row = rows::row(&[(0, 0x02180001), (12, 255)]);
    for place in 21..453usize {
        let at = (place - 21) % 9;
        row[place] = if at == 0 {
            32
        } else if at < 5 {
            0x6b6b6b6b6b6b6b6b
        } else {
            0
        };
        if (place - 21) % 18 == 4 {
            row[place] = 0x6b6b6b6b6b6b6b00 + (place as u64 - 21) / 18;
        }
    }
    row
}

#[test]
fn takes_rows_to_todays(rt: HostRuntime) {
    for (case, (words, wide)) in TAKEN.iter().enumerate() {
        assert!(rt; is_taken_to(&first(words), &rows::row(wide)), "row {case}");
    }
    assert!(rt; is_taken_to(&full(), &full_today()), "a full leaf");
}

#[test]
fn refuses_what_spells_nothing_and_tells_each_bit(rt: HostRuntime) {
    for (place, word) in SPOILT {
        assert!(rt; is_refused(&with(PUT, *place, *word)), "{word} at {place}");
    }
    for (case, words) in [OPENING, PUT].iter().enumerate() {
        assert!(rt; are_told(&first(words)), "row {case}");
    }
}
