//! What a record says of a key, looked at where it lies.
ghost use Rattle.std.specs.Prelude.{◌≡◌, ◌<◌, Some, is_some, length, slice_index_or};
ghost use Rattle.base_page.specs.declared.item.Item.{Item};
ghost use Rattle.base_page.specs.declared.item.Content.TheVariants.{Child, Value as ValueSeen};
ghost use Rattle.base_page.specs.Pages.{content_at, value_in};
ghost use Rattle.deltas.specs.Records.{content_said};
ghost use Rattle.record_slots.specs.Parts.{items_of, row_of};

use crate::{KeyWords, RowAt, Rows, Text};
use base_page::Content;
use bw_model::Value;
use record_slots::{HELD, kinds};

impl<R: Rows> RowAt<R> {
    /// What it says of a key that it names: its content, or none where the key is absent.
    pub fn content_said(&self, rows: &R, pass: &mut R::Pass, key: &KeyWords) -> Option<Content>
        requires read { R.has rows.now pass.old self.now.row self.now.content }
        ensures same { pass.new ≡ pass.old }
        ensures said { result ≡ content_said self.now.content key.now }
    {
        let kind = self.kind();
        if kind == kinds::BASE {
            return self.content_at(rows, pass, key);
        }
        if kind == kinds::PUT {
            return Some(self.content(rows, pass, 0));
        }
        if kind == kinds::TERM {
            return Some(self.child(rows, pass, false));
        }
        if kind == kinds::HOLD {
            return Some(self.child(rows, pass, true));
        }
        if kind == kinds::MERGE {
            return self.content_at(rows, pass, key);
        }
        None
    }

    /// Whether it says that a key which it names has content. None is built.
    pub fn says_content(&self, rows: &R, pass: &mut R::Pass, key: &KeyWords) -> bool
        requires read { R.has rows.now pass.old self.now.row self.now.content }
        ensures same { pass.new ≡ pass.old }
        ensures says { result ≡ is_some (content_said self.now.content key.now) }
    {
        let kind = self.kind();
        if kind == kinds::BASE {
            return self.has_item_at(rows, pass, key);
        }
        if kind == kinds::PUT {
            return true;
        }
        if kind == kinds::TERM {
            return true;
        }
        if kind == kinds::HOLD {
            return true;
        }
        if kind == kinds::MERGE {
            return self.has_item_at(rows, pass, key);
        }
        false
    }

    /// The value that it says a key has that it names.
    pub fn value_said(&self, rows: &R, pass: &mut R::Pass, key: &KeyWords) -> Option<Value>
        requires read { R.has rows.now pass.old self.now.row self.now.content }
        ensures same { pass.new ≡ pass.old }
        ensures said { result ≡ value_in (content_said self.now.content key.now) }
    {
        let kind = self.kind();
        if kind == kinds::BASE {
            return self.value_at(rows, pass, key);
        }
        if kind == kinds::PUT {
            return self.value(rows, pass, 0);
        }
        if kind == kinds::MERGE {
            return self.value_at(rows, pass, key);
        }
        None
    }

    /// The value that the items have at the key.
    fn value_at(&self, rows: &R, pass: &mut R::Pass, key: &KeyWords) -> Option<Value>
        requires read { R.has rows.now pass.old self.now.row self.now.content }
        ensures same { pass.new ≡ pass.old }
        ensures value { result ≡ value_in (content_at (items_of self.now.content) key.now) }
    {
        match self.place_of(rows, pass, key) {
            Ok(place) => self.value(rows, pass, place),
            Err(_) => None,
        }
    }

    /// The value that the item at the place has.
    fn value(&self, rows: &R, pass: &mut R::Pass, place: usize) -> Option<Value>
        requires read { R.has rows.now pass.old self.now.row self.now.content }
        requires there { place < length (items_of self.now.content) }
        ensures same { pass.new ≡ pass.old }
        ensures value { (d : Item) → result ≡ value_in (Some (slice_index_or (items_of self.now.content) place d).content) }
    {
        self.keeps_spelling();
        if self.level() > 0 {
            return None;
        }
        let lies = self.place(rows, pass);
        Some(self.leaf_value(rows, pass, lies, place))
    }

    /// What the items have at the key.
    fn content_at(&self, rows: &R, pass: &mut R::Pass, key: &KeyWords) -> Option<Content>
        requires read { R.has rows.now pass.old self.now.row self.now.content }
        ensures same { pass.new ≡ pass.old }
        ensures content { result ≡ content_at (items_of self.now.content) key.now }
    {
        match self.place_of(rows, pass, key) {
            Ok(place) => Some(self.content(rows, pass, place)),
            Err(_) => None,
        }
    }

    /// Whether an item stands at the key.
    fn has_item_at(&self, rows: &R, pass: &mut R::Pass, key: &KeyWords) -> bool
        requires read { R.has rows.now pass.old self.now.row self.now.content }
        ensures same { pass.new ≡ pass.old }
        ensures has { result ≡ is_some (content_at (items_of self.now.content) key.now) }
    {
        match self.place_of(rows, pass, key) {
            Ok(_) => true,
            Err(_) => false,
        }
    }

    /// What the item at the place has.
    fn content(&self, rows: &R, pass: &mut R::Pass, place: usize) -> Content
        requires read { R.has rows.now pass.old self.now.row self.now.content }
        requires there { place < length (items_of self.now.content) }
        ensures same { pass.new ≡ pass.old }
        ensures content { (d : Item) → result ≡ (slice_index_or (items_of self.now.content) place d).content }
    {
        let lies = self.place(rows, pass);
        self.content_in(rows, pass, lies, place)
    }

    /// What the item at the place has, of the record that lies there.
    #[inline(always)]
    pub(super) fn content_in(
        &self,
        rows: &R,
        pass: &mut R::Pass,
        lies: R::Place,
        place: usize,
    ) -> Content
        requires read { R.lies rows.now pass.old lies self.now.content }
        requires there { place < length (items_of self.now.content) }
        ensures same { pass.new ≡ pass.old }
        ensures content { (d : Item) → result ≡ (slice_index_or (items_of self.now.content) place d).content }
    {
        self.keeps_spelling();
        if self.level() > 0 {
            let page = self.length(rows, pass, lies, Text::Content(place)) as u32;
            let held = self.length(rows, pass, lies, Text::Key(place)) >= HELD;
            return Content::Child { page, held };
        }
        Content::Value(self.leaf_value(rows, pass, lies, place))
    }

    /// The value that the item at the place has, of a leaf's record that lies there.
    #[inline(always)]
    fn leaf_value(&self, rows: &R, pass: &mut R::Pass, lies: R::Place, place: usize) -> Value
        requires read { R.lies rows.now pass.old lies self.now.content }
        requires there { place < length (items_of self.now.content) }
        requires leaf { (row_of self.now.content).level ≡ 0 }
        ensures same { pass.new ≡ pass.old }
        ensures value { (d : Item) → ValueSeen result ≡ (slice_index_or (items_of self.now.content) place d).content }
    {
        self.keeps_spelling();
        let count = self.length(rows, pass, lies, Text::Content(place));
        let bytes = self.bytes(rows, pass, lies, Text::Content(place), count);
        Value::first_of(&bytes, count as u8)
    }

    /// The child that a term names.
    fn child(&self, rows: &R, pass: &mut R::Pass, held: bool) -> Content
        requires read { R.has rows.now pass.old self.now.row self.now.content }
        ensures same { pass.new ≡ pass.old }
        ensures child { result ≡ Child (row_of self.now.content).page held }
    {
        Content::Child {
            page: self.page(rows, pass),
            held,
        }
    }
}
