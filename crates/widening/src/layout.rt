//! Where the parts of a row of the first form stand. Its first three words are today's, but for the form.

use base_page::MAX_ITEMS;

/// How many words a row of the first form has.
pub const FIRST_ROW_WORDS: usize = 256;

/// How many bytes a key or a value had at most.
pub const FIRST_LONGEST: usize = 32;

/// How many words a key or a value took with its length.
pub const FIRST_FIELD_WORDS: usize = 5;

/// How many keys and values a row has room for: two keys, and of each item a key and a content.
pub const FIELDS: usize = 2 + 2 * MAX_ITEMS;
