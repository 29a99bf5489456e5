//! Rows in which records were read, and stay.
ghost use Rattle.std.specs.Prelude.{◌≡◌, ◌<◌, ◌+◌, slice_index};
ghost use Rattle.deltas.specs.declared.record.Record.{Record};
ghost use Rattle.record_slots.specs.Spelling.{words_of};
ghost use Rattle.record_slots.specs.declared.layout.TheConstants.{ROW_WORDS, TEXT_WORDS};
ghost use Rattle.row_search.specs.Begins.{Begins};
ghost use Rattle.row_search.specs.TextsOf.{HasText, length_at};

use record_slots::{
    FIRST_ITEM, FIRST_KEY, ITEM_CONTENT, ITEM_WORDS, ROW_WORDS, SECOND_KEY, TEXT_WORDS,
};

/// A text of a record: the first or the second of its two keys, or the key or the content of the item with this number.
#[derive(Clone, Copy)]
pub enum Text {
    First,
    Second,
    Key(usize),
    Content(usize),
}

impl Text {
    /// Where its length stands in the record's spelling; its words stand behind that.
    #[inline(always)]
    pub fn length_at(self) -> usize
        requires { length_at self + TEXT_WORDS < ROW_WORDS }
        ensures { result ≡ length_at self }
    {
        match self {
            Text::First => FIRST_KEY,
            Text::Second => SECOND_KEY,
            Text::Key(item) => FIRST_ITEM + ITEM_WORDS * item,
            Text::Content(item) => FIRST_ITEM + ITEM_WORDS * item + ITEM_CONTENT,
        }
    }
}

/// Rows in which records were read, and stay: any word of such a row is looked at where it lies. What a search needs it asks for by what it
/// is, not by where it stands, since a row may have another form than the spelling in which contracts name its words.
pub trait Rows {
    ghost use Rattle.std.specs.Prelude.{ℕ};
    ghost use Rattle.deltas.specs.declared.record.Record.{Record};

    /// What a look needs beside the rows, as the seat of a thread.
    type Pass;

    /// Where a row lies, as each look into it needs it.
    type Place: Copy;

    // the record that was read in a row, by the pass, or some record where none was
    ghost content: { Self.Pass → ℕ → Record };

    ghost has: { Self → Self.Pass → ℕ → Record → Type 0 };

    // the record was read at the place
    ghost lies: { Self → Self.Pass → Self.Place → Record → Type 0 };

    /// Where a row lies in which a record was read, and stays; by the row's first word.
    fn place(&self, pass: &Self::Pass, row: u32, first: u64) -> Self::Place
        requires has { (content : Record) × has self.now pass.now row content × Begins first content }
        ensures { (content : Record) → has self.now pass.now row content → lies self.now pass.now result content };

    /// A word of the spelling of a record that was read, and stays.
    fn look(&self, pass: &mut Self::Pass, place: Self::Place, at: usize) -> u64
        requires lies { (content : Record) × lies self.now pass.old place content }
        requires within { at < ROW_WORDS }
        ensures same { pass.new ≡ pass.old }
        ensures word { (content : Record) → lies self.now pass.old place content → result ≡ slice_index (words_of content) at };

    /// The length of a text of a record that was read, and stays. Of an item's key it has the mark of a held term beside it; of a child it is the
    /// PID.
    #[inline]
    fn length(&self, pass: &mut Self::Pass, place: Self::Place, text: Text) -> u64
        requires lies { (content : Record) × lies self.now pass.old place content × HasText text content }
        requires room { length_at text + TEXT_WORDS < ROW_WORDS }
        ensures same { pass.new ≡ pass.old }
        ensures word { (content : Record) → lies self.now pass.old place content → result ≡ slice_index (words_of content) (length_at text) }
    {
        self.look(pass, place, text.length_at())
    }

    /// A word of a text of a record that was read, and stays; 0 behind its end.
    #[inline]
    fn word(&self, pass: &mut Self::Pass, place: Self::Place, text: Text, at: usize) -> u64
        requires lies { (content : Record) × lies self.now pass.old place content × HasText text content }
        requires room { length_at text + TEXT_WORDS < ROW_WORDS }
        requires within { at < TEXT_WORDS }
        ensures same { pass.new ≡ pass.old }
        ensures word { (content : Record) → lies self.now pass.old place content → result ≡ slice_index (words_of content) (length_at text + 1 + at) }
    {
        self.look(pass, place, text.length_at() + 1 + at)
    }
}
