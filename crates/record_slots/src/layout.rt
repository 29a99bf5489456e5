//! Where the parts of a row stand. Its first word has the kind, the level, the count of items and the form of rows, the next two the
//! row of the record under it and a PID.

/// How many words a row has.
pub const ROW_WORDS: usize = 512;

/// The form of these rows. The first one was 0: its keys and values had at most 32 bytes, and its rows 256 words.
pub const FORM: u64 = 2;

/// The kind, the level and the count of items are below it.
pub const PART_LIMIT: u64 = 256;

/// What one level counts in a row's first word.
pub const LEVEL_UNIT: u64 = 256;

/// What one item counts in a row's first word.
pub const ITEM_UNIT: u64 = 65536;

/// What one form counts in a row's first word.
pub const FORM_UNIT: u64 = 16777216;

/// How many words the bytes of a key or a value take; the length stands in the word before them.
pub const TEXT_WORDS: usize = 8;

/// How many words a key or a value takes with its length.
pub const FIELD_WORDS: usize = TEXT_WORDS + 1;

/// The place of a row's first key.
pub const FIRST_KEY: usize = 3;

/// The place of a row's second key, which may be no bound.
pub const SECOND_KEY: usize = FIRST_KEY + FIELD_WORDS;

/// The place of a row's first item.
pub const FIRST_ITEM: usize = SECOND_KEY + FIELD_WORDS;

/// How many words an item takes: its key, and its content.
pub const ITEM_WORDS: usize = 2 * FIELD_WORDS;

/// Where an item's content stands among its words.
pub const ITEM_CONTENT: usize = FIELD_WORDS;

/// A length that stands for no bound.
pub const NO_BOUND: u64 = 255;

/// The mark of a held term, beside its key's length, which is below it.
pub const HELD: u64 = 256;
