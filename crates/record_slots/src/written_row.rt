//! A row of words that is written where it lies.
ghost use Rattle.std.specs.Prelude.{◌≡◌, ◌<◌, ◌++◌, ◌∷◌, [], length};
ghost use Rattle.record_slots.specs.Layout.{with_zeros};
ghost use Rattle.record_slots.specs.declared.layout.TheConstants.{ROW_WORDS};

use crate::layout::ROW_WORDS;
use std::marker::Model;

/// A row of words that is written from its first word on, 4 KB. Behind what was written are zeros.
#[derive(Drop)]
pub struct WrittenRow {
    words: [u64; ROW_WORDS],
    count: usize,
}

impl Model for WrittenRow {
    ghost use Rattle.std.specs.Prelude.{List, ℕ, take};
    ghost use Rattle.record_slots.specs.Layout.{IsWrittenTo};

    ghost Value = { List ℕ };

    ghost view = { λ r. take r.count r.words };

    ghost invariant = { λ r. IsWrittenTo r.count r.words };
}

impl WrittenRow {
    /// A row in which nothing was written yet.
    #[inline(always)]
    pub fn new() -> WrittenRow
        ensures { result ≡ [] }
    {
        WrittenRow {
            words: [0; ROW_WORDS],
            count: 0,
        }
    }

    /// Writes the next word.
    #[inline(always)]
    pub(crate) fn push(&mut self, word: u64)
        requires { length self.old < ROW_WORDS }
        ensures { self.new ≡ self.old ++ word ∷ [] }
    {
        self.words[self.count] = word;
        self.count += 1;
    }

    /// All words of the row.
    pub fn words(&self) -> &[u64; ROW_WORDS]
        ensures { result.now ≡ with_zeros self.now }
    {
        &self.words
    }
}
