//! The numbers of a compact row's layout. A unit is what 1 in a field adds to the word: the field begins at that bit.

/// How many words a record takes at most.
pub const MOST_WORDS: usize = 512;

/// The form of compact rows, in the first word, where rows of `record_slots` have 2.
pub const COMPACT_FORM: u64 = 3;

/// The unit of the next row in the first word: bits 32 to 63.
pub const NEXT_UNIT: u64 = 4294967296;

/// The unit of the first key's length in the second word: bits 32 to 39.
pub const FIRST_UNIT: u64 = 4294967296;

/// The unit of the second key's length in the second word: bits 40 to 47.
pub const SECOND_UNIT: u64 = 1099511627776;

/// The unit of the key's length in an item's word: bits 16 to 23, above the place of its text.
pub const LENGTH_UNIT: u64 = 65536;

/// The unit of the mark of a held term in an item's word: bit 24.
pub const MARK_UNIT: u64 = 16777216;

/// The unit of a value's length, or of a child's PID, in an item's word: bits 32 to 63.
pub const CONTENT_UNIT: u64 = 4294967296;
