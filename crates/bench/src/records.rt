//! Rows of words that are read as records.
ghost use Rattle.std.specs.Prelude.{◌≤◌};

use record_slots::{
    FIRST_ITEM, FORM, FORM_UNIT, ITEM_CONTENT, ITEM_UNIT, ITEM_WORDS, NO_BOUND, ROW_WORDS,
    SECOND_KEY, from_words,
};

/// Does what the word names so often, and answers how often it succeeded.
pub(crate) fn run(what: &str, times: u32) -> u32 {
    match what {
        "put" => read_again(put(), times),
        "short" => read_again(leaf(24, 4), times),
        "long" => read_again(leaf(24, 64), times),
        _ => 0,
    }
}

/// How often the row, with another next row or another value each time, was read as a record.
fn read_again(row: [u64; ROW_WORDS], times: u32) -> u32 {
    let mut row = row;
    let mut records = 0u32;
    for time in 0..times {
        row[FIRST_ITEM + ITEM_CONTENT + 1] = u64::from(time) << 32;
        if from_words(&row).is_ok() {
            records = records.saturating_add(1);
        }
    }
    records
}

/// A put of a key and a value of 4 bytes.
fn put() -> [u64; ROW_WORDS] {
    let mut row = [0; ROW_WORDS];
    row[0] = FORM * FORM_UNIT + ITEM_UNIT + 2;
    row[1] = 1;
    row[FIRST_ITEM] = 4;
    row[FIRST_ITEM + 1] = 0x6b65793100000000;
    row[FIRST_ITEM + ITEM_CONTENT] = 4;
    row
}

/// A leaf of so many items, whose keys and values have so many bytes.
fn leaf(items: u8, count: u64) -> [u64; ROW_WORDS]
    requires { items ≤ 24 }
{
    let mut row = [0; ROW_WORDS];
    row[0] = FORM * FORM_UNIT + ITEM_UNIT * u64::from(items) + 1;
    row[SECOND_KEY] = NO_BOUND;
    for item in 0..usize::from(items) {
        let first = FIRST_ITEM + ITEM_WORDS * item;
        row[first] = count;
        row[first + 1] = (item as u64) << 32;
        row[first + ITEM_CONTENT] = count;
    }
    row
}
