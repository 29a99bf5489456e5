//! The items that a record says are there, looked at where it lies: those that stand in it, and a term's one.
ghost use Rattle.std.specs.Prelude.{◌≡◌, ◌≤◌, ◌<◌, ◌+◌, ◌%◌, Some, IfOk, IfErr, length, slice_index, slice_index_or, take, drop};
ghost use Rattle.bw_model.specs.Bytes.{key_cmp};
ghost use Rattle.base_page.specs.declared.item.Item.{Item};
ghost use Rattle.base_page.specs.Pages.{AreItems, child_in};
ghost use Rattle.base_page.specs.Places.{IsAt, IsGap};
ghost use Rattle.record_slots.specs.Spelling.{words_of};
ghost use Rattle.record_slots.specs.Texts.{IsText};
ghost use Rattle.record_slots.specs.declared.layout.TheConstants.{HELD, TEXT_WORDS};
ghost use Rattle.row_search.specs.Items.{is_term, items_said, may_take, takes};
ghost use Rattle.row_search.specs.TextsOf.{HasText, length_at};

use crate::{KeyWords, RowAt, Rows, Text};
use record_slots::{HELD, kinds};
use std::cmp::Ordering;

impl<R: Rows> RowAt<R> {
    /// Whether it is a term, which may be held.
    fn is_term(&self) -> bool
        ensures { result ≡ is_term self.now.content }
    {
        let kind = self.kind();
        if kind == kinds::TERM {
            return true;
        }
        kind == kinds::HOLD
    }

    /// Where the key stands among the items that it says are there, or where it would stand.
    pub fn place_said(&self, rows: &R, pass: &mut R::Pass, key: &KeyWords) -> Result<usize, usize>
        requires read { R.has rows.now pass.old self.now.row self.now.content }
        ensures same { pass.new ≡ pass.old }
        ensures found { IfOk result (IsAt (items_said self.now.content) key.now) }
        ensures absent { IfErr result (IsGap (items_said self.now.content) key.now) }
        ensures items { AreItems (items_said self.now.content) }
    {
        if !self.is_term() {
            return self.place_of(rows, pass, key);
        }
        match self.compare_first(rows, pass, key) {
            Ordering::Less => Err(1),
            Ordering::Equal => Ok(0),
            Ordering::Greater => Err(0),
        }
    }

    /// Which text is the key of the item that it says is there.
    #[inline]
    fn said_at(&self, item: usize) -> Text
        requires there { item < length (items_said self.now.content) }
        ensures there { HasText result self.now.content }
        ensures text { (d : Item) → IsText
            (slice_index (words_of self.now.content) (length_at result) % HELD)
            (take TEXT_WORDS (drop (length_at result + 1) (words_of self.now.content)))
            (slice_index_or (items_said self.now.content) item d).key }
    {
        self.keeps_spelling();
        if self.is_term() {
            return Text::First;
        }
        Text::Key(item)
    }

    /// How the key of the item that it says is there compares with the key, looked at where it stands.
    pub fn compare_said(
        &self,
        rows: &R,
        pass: &mut R::Pass,
        place: usize,
        key: &KeyWords,
    ) -> Ordering
        requires read { R.has rows.now pass.old self.now.row self.now.content }
        requires there { place < length (items_said self.now.content) }
        ensures same { pass.new ≡ pass.old }
        ensures compared { (d : Item) → result ≡ key_cmp (slice_index_or (items_said self.now.content) place d).key key.now }
    {
        let text = self.said_at(place);
        let lies = self.place(rows, pass);
        key.compare_text(self, rows, pass, lies, text)
    }

    /// The key of the item that it says is there.
    pub fn key_said(&self, rows: &R, pass: &mut R::Pass, place: usize) -> KeyWords
        requires read { R.has rows.now pass.old self.now.row self.now.content }
        requires there { place < length (items_said self.now.content) }
        ensures same { pass.new ≡ pass.old }
        ensures key { (d : Item) → result ≡ (slice_index_or (items_said self.now.content) place d).key }
    {
        let text = self.said_at(place);
        let lies = self.place(rows, pass);
        let count = self.length(rows, pass, lies, text) % HELD;
        KeyWords::at(self, rows, pass, lies, text, count)
    }

    /// The child of the item that it says is there; a value is none.
    pub fn child_at(&self, rows: &R, pass: &mut R::Pass, place: usize) -> Option<u32>
        requires read { R.has rows.now pass.old self.now.row self.now.content }
        requires there { place < length (items_said self.now.content) }
        ensures same { pass.new ≡ pass.old }
        ensures child { (d : Item) → result ≡ child_in (Some (slice_index_or (items_said self.now.content) place d).content) }
    {
        self.keeps_spelling();
        if self.is_term() {
            return Some(self.page(rows, pass));
        }
        if self.level() == 0 {
            return None;
        }
        let lies = self.place(rows, pass);
        let page = self.length(rows, pass, lies, Text::Content(place)) as u32;
        Some(page)
    }

    /// Whether it may say that a key is absent which it names. Its kind says it: no word is looked at.
    pub fn may_take(&self) -> bool
        ensures { result ≡ may_take self.now.content }
    {
        if self.kind() == kinds::PUT {
            return false;
        }
        !self.is_term()
    }

    /// Whether it names the key, and may say that the key is absent.
    pub fn takes(&self, rows: &R, pass: &mut R::Pass, key: &KeyWords) -> bool
        requires read { R.has rows.now pass.old self.now.row self.now.content }
        ensures same { pass.new ≡ pass.old }
        ensures takes { result ≡ takes self.now.content key.now }
    {
        if !self.may_take() {
            return false;
        }
        self.names(rows, pass, key)
    }
}
