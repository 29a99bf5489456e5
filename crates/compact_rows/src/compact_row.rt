//! A place for the compact words of one record, which are written one after another where they lie.
ghost use Rattle.std.specs.Prelude.{◌≡◌, ◌<◌, ◌≤◌, ◌++◌, ◌∷◌, [], length};
ghost use Rattle.compact_rows.specs.declared.layout.TheConstants.{MOST_WORDS};

use crate::layout::MOST_WORDS;
use std::marker::Model;

/// The compact words of one record, with room for the longest: 4 KB.
#[derive(Drop)]
pub struct CompactRow {
    words: [u64; MOST_WORDS],
    count: usize,
}

impl Model for CompactRow {
    ghost use Rattle.std.specs.Prelude.{List, ℕ, take};
    ghost use Rattle.compact_rows.specs.Layout.{IsFilledTo};

    ghost Value = { List ℕ };

    ghost view = { λ r. take r.count r.words };

    ghost invariant = { λ r. IsFilledTo r.count r.words };
}

impl CompactRow {
    /// No words yet.
    #[inline(always)]
    pub fn new() -> CompactRow
        ensures { result ≡ [] }
    {
        CompactRow {
            words: [0; MOST_WORDS],
            count: 0,
        }
    }

    /// No words, as before the first one was written.
    pub(crate) fn clear(&mut self)
        ensures { self.new ≡ [] }
    {
        self.count = 0;
    }

    /// Writes the next word.
    #[inline(always)]
    pub(crate) fn push(&mut self, word: u64)
        requires { length self.old < MOST_WORDS }
        ensures { self.new ≡ self.old ++ word ∷ [] }
    {
        self.words[self.count] = word;
        self.count += 1;
    }

    /// The words.
    pub fn words(&self) -> &[u64]
        ensures words { result.now ≡ self.now }
        ensures few { length result.now ≤ MOST_WORDS }
    {
        &self.words[..self.count]
    }
}
