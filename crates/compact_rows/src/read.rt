//! Reading a record from compact words, with an exact refusal.
ghost use Rattle.std.specs.Prelude.{◌≡◌, ◌≢◌, ◌<◌, ℕ, MatchBool, slice_index, length};
ghost use Rattle.record_slots.specs.Layout.{row_size};
ghost use Rattle.record_slots.specs.Spells.{FindsOne};
ghost use Rattle.compact_rows.specs.Seen.{seen};
ghost use Rattle.compact_rows.specs.Spells.{IsCompact};

use crate::laws::records_have_room;
use crate::seen::seen_in;
use crate::write::to_compact;
use deltas::Record;
use record_slots::{BadRow, ROW_WORDS, read_words, spelling_is_one};

/// The record that the compact words spell. `BadRow` is returned exactly where they spell none.
///
/// The words are spread to a row of `record_slots`, that row is read, and the record is written again as compact words: only where these are the
/// given words, they spell it. So each rule of a row has one home, there, and nothing is refused or accepted by a second set of tests.
pub fn from_compact(words: &[u64]) -> Result<Record, BadRow>
    ensures { FindsOne (λ content. IsCompact content words.now) result }
{
    spelling_is_one();
    records_have_room();
    let content = read_words(&spread(words))?;
    let written = to_compact(&content);
    if are_same(written.words(), words) {
        Ok(content)
    } else {
        Err(BadRow)
    }
}

/// The row of `record_slots` that spells the same record, where the words spell one.
fn spread(words: &[u64]) -> [u64; ROW_WORDS]
    ensures long { length result ≡ row_size }
    ensures words { (at : ℕ) → at < row_size → slice_index result at ≡ seen words.now at }
{
    let mut row = [0; ROW_WORDS];
    for at in 0..ROW_WORDS {
        row[at] = seen_in(words, at);
    }
    row
}

/// Whether these are the same words.
fn are_same(one: &[u64], other: &[u64]) -> bool
    ensures { MatchBool result (one.now ≡ other.now) (one.now ≢ other.now) }
{
    one == other
}
