//! The keys of a record that is looked at where it lies, as words.
ghost use Rattle.std.specs.Prelude.{◌≡◌, ◌<◌, Some, length, slice_index_or};
ghost use Rattle.base_page.specs.declared.item.Item.{Item};
ghost use Rattle.record_slots.specs.Parts.{items_of, row_of};
ghost use Rattle.row_search.specs.OneKey.{one_key, split_at};

use crate::{KeyWords, RowAt, Rows, Text};
use record_slots::{HELD, kinds};

impl<R: Rows> RowAt<R> {
    /// The one key that it names, and whether it says that the key is there. A base, a split, a removal and a merge have none.
    pub fn one_key(&self, rows: &R, pass: &mut R::Pass) -> Option<(KeyWords, bool)>
        requires read { R.has rows.now pass.old self.now.row self.now.content }
        ensures same { pass.new ≡ pass.old }
        ensures key { result ≡ one_key self.now.content }
    {
        let kind = self.kind();
        if kind == kinds::PUT {
            return Some((self.key_at(rows, pass, 0), true));
        }
        if kind == kinds::DELETE {
            return Some((self.first_words(rows, pass), false));
        }
        if kind == kinds::TERM {
            return Some((self.first_words(rows, pass), true));
        }
        if kind == kinds::HOLD {
            return Some((self.first_words(rows, pass), true));
        }
        if kind == kinds::UNTERM {
            return Some((self.first_words(rows, pass), false));
        }
        None
    }

    /// The separator at which a split cuts the page; none of another record.
    pub fn split_at(&self, rows: &R, pass: &mut R::Pass) -> Option<KeyWords>
        requires read { R.has rows.now pass.old self.now.row self.now.content }
        ensures same { pass.new ≡ pass.old }
        ensures split { result ≡ split_at self.now.content }
    {
        if self.kind() == kinds::SPLIT {
            return Some(self.first_words(rows, pass));
        }
        None
    }

    /// The key of the item at the place.
    pub fn key_at(&self, rows: &R, pass: &mut R::Pass, place: usize) -> KeyWords
        requires read { R.has rows.now pass.old self.now.row self.now.content }
        requires there { place < length (items_of self.now.content) }
        ensures same { pass.new ≡ pass.old }
        ensures key { (d : Item) → result ≡ (slice_index_or (items_of self.now.content) place d).key }
    {
        self.keeps_spelling();
        let text = Text::Key(place);
        let lies = self.place(rows, pass);
        let count = self.length(rows, pass, lies, text) % HELD;
        KeyWords::at(self, rows, pass, lies, text, count)
    }

    /// The first of its two keys.
    fn first_words(&self, rows: &R, pass: &mut R::Pass) -> KeyWords
        requires read { R.has rows.now pass.old self.now.row self.now.content }
        ensures same { pass.new ≡ pass.old }
        ensures key { result ≡ (row_of self.now.content).first }
    {
        self.keeps_spelling();
        let lies = self.place(rows, pass);
        let count = self.length(rows, pass, lies, Text::First);
        KeyWords::at(self, rows, pass, lies, Text::First, count)
    }
}
