//! Records read from rows of words.
ghost use Rattle.record_slots.specs.Small.{IsSmallSpelling};
ghost use Rattle.record_slots.specs.Spells.{FindsOne, IsSpelling};

use crate::BadRow;
use crate::layout::{FIRST_ITEM, ITEM_WORDS, ROW_WORDS};
use crate::records::record_in;
use crate::row::row_in;
use crate::small::is_small;
use crate::spelling_laws::spelling_is_one;
use deltas::Record;

/// The record that the words spell, with numbers of a tree of at most 4,096 PIDs and 16,384 rows; refused exactly where they spell
/// none with such numbers.
pub fn from_words(words: &[u64; ROW_WORDS]) -> Result<Record, BadRow>
    ensures { FindsOne (λ content. IsSmallSpelling content words.now) result }
{
    spelling_is_one();
    let content = read_words(words)?;
    if is_small(&content) {
        Ok(content)
    } else {
        Err(BadRow)
    }
}

/// The record that the words spell, also with numbers of a large tree; refused exactly where they spell none.
pub fn read_words(words: &[u64; ROW_WORDS]) -> Result<Record, BadRow>
    ensures { FindsOne (λ content. IsSpelling content words.now) result }
{
    let row = row_in(words)?;
    let end = FIRST_ITEM + ITEM_WORDS * row.count;
    record_in(row, &words[FIRST_ITEM..end])
}
