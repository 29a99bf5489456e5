//! Records as rows of words, and back.
//!
//! Look first at `to_words` and `from_words`: each record that a row can spell has one spelling, and words are read as a record exactly
//! where they spell it. The layout's numbers have their home here (`ROW_WORDS`, `FIRST_ITEM`, `ITEM_WORDS` ..); docs/FORMATS.md draws it.
//! The first word has kind, level, count of items and form, so it determines how many words the record uses.
//!
//! Called by `row_search`, which searches rows without decoding them, by `tree_words` and `table_rule`, which keep rows as atomic words,
//! and by `widening`. It knows no chain: the row under a record is a number.
#![tactic(auto)]

mod item_words;
pub mod kinds;
mod layout;
mod read;
mod records;
mod row;
mod rules;
mod small;
mod spelling_laws;
mod texts;
mod write;
mod written_row;

pub use layout::{
    FIELD_WORDS, FIRST_ITEM, FIRST_KEY, FORM, FORM_UNIT, HELD, ITEM_CONTENT, ITEM_UNIT, ITEM_WORDS,
    LEVEL_UNIT, NO_BOUND, PART_LIMIT, ROW_WORDS, SECOND_KEY, TEXT_WORDS,
};
pub use read::{from_words, read_words};
pub use row::BadRow;
pub use spelling_laws::{rows_have_words, spelling_is_one};
pub use texts::write_word;
pub use write::{key_bytes, to_words, word_at, write_record};
pub use written_row::WrittenRow;
