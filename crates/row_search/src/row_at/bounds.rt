//! The bounds of a record that is looked at where it lies, and its items by a bound.
ghost use Rattle.std.specs.Prelude.{◌≡◌, ℕ, List, Option, None, Some, IsTrue, IsFalse, IfOk, IfErr};
ghost use Rattle.base_page.specs.Pages.{AreItems};
ghost use Rattle.base_page.specs.Places.{IsAt, IsCut, IsGap};
ghost use Rattle.deltas.specs.Records.{high_after, right_after};
ghost use Rattle.record_slots.specs.Parts.{items_of, row_of};

use crate::{KeyWords, RowAt, Rows, Text};
use bw_model::Key;
use record_slots::{NO_BOUND, kinds};
use std::cmp::Ordering;

impl<R: Rows> RowAt<R> {
    /// The first of its two keys: a page's lowest key, a separator, or the key that is deleted.
    pub fn first(&self, rows: &R, pass: &mut R::Pass) -> Key
        requires read { R.has rows.now pass.old self.now.row self.now.content }
        ensures same { pass.new ≡ pass.old }
        ensures first { result ≡ (row_of self.now.content).first }
    {
        self.keeps_spelling();
        let place = self.place(rows, pass);
        let count = self.length(rows, pass, place, Text::First);
        self.key(rows, pass, place, Text::First, count)
    }

    /// The second of its two keys: the end of a page, which may have none.
    pub fn second(&self, rows: &R, pass: &mut R::Pass) -> Option<Key>
        requires read { R.has rows.now pass.old self.now.row self.now.content }
        ensures same { pass.new ≡ pass.old }
        ensures second { result ≡ (row_of self.now.content).second }
    {
        self.keeps_spelling();
        let place = self.place(rows, pass);
        let count = self.length(rows, pass, place, Text::Second);
        if count == NO_BOUND {
            return None;
        }
        Some(self.key(rows, pass, place, Text::Second, count))
    }

    /// Whether it says where the page ends and what its right is, as a base, a split and a merge do.
    pub fn ends(&self) -> bool
        ensures said { IsTrue result → (right : Option ℕ) → right_after self.now.content right ≡ right_after self.now.content None }
        ensures kept { IsFalse result → (right : Option ℕ) → right_after self.now.content right ≡ right }
        ensures high_said { IsTrue result → (high : Option (List ℕ)) → high_after self.now.content high ≡ high_after self.now.content None }
        ensures high_kept { IsFalse result → (high : Option (List ℕ)) → high_after self.now.content high ≡ high }
    {
        let kind = self.kind();
        if kind == kinds::BASE {
            return true;
        }
        if kind == kinds::SPLIT {
            return true;
        }
        if kind == kinds::MERGE {
            return true;
        }
        false
    }

    /// The right that it gives the page.
    pub fn right(&self, rows: &R, pass: &mut R::Pass) -> Option<u32>
        requires read { R.has rows.now pass.old self.now.row self.now.content }
        ensures same { pass.new ≡ pass.old }
        ensures right { result ≡ right_after self.now.content None }
    {
        self.keeps_spelling();
        if !self.ends() {
            return None;
        }
        let page = self.page(rows, pass);
        if page == 0 {
            return None;
        }
        Some(page)
    }

    /// The end that it gives the page: a split ends it at its separator.
    pub fn high(&self, rows: &R, pass: &mut R::Pass) -> Option<Key>
        requires read { R.has rows.now pass.old self.now.row self.now.content }
        ensures same { pass.new ≡ pass.old }
        ensures high { result ≡ high_after self.now.content None }
    {
        let kind = self.kind();
        if kind == kinds::SPLIT {
            return Some(self.first(rows, pass));
        }
        if kind == kinds::BASE {
            return self.second(rows, pass);
        }
        if kind == kinds::MERGE {
            return self.second(rows, pass);
        }
        None
    }

    /// How many of its items are below the bound.
    pub fn items_below(&self, rows: &R, pass: &mut R::Pass, bound: &KeyWords) -> usize
        requires read { R.has rows.now pass.old self.now.row self.now.content }
        ensures same { pass.new ≡ pass.old }
        ensures cut { IsCut (items_of self.now.content) bound.now result }
        ensures items { AreItems (items_of self.now.content) }
    {
        match self.place_of(rows, pass, bound) {
            Ok(place) => place,
            Err(place) => place,
        }
    }

    /// Where the key stands among its items, or where it would stand, by bisection.
    pub(super) fn place_of(
        &self,
        rows: &R,
        pass: &mut R::Pass,
        key: &KeyWords,
    ) -> Result<usize, usize>
        requires read { R.has rows.now pass.old self.now.row self.now.content }
        ensures same { pass.new ≡ pass.old }
        ensures found { IfOk result (IsAt (items_of self.now.content) key.now) }
        ensures absent { IfErr result (IsGap (items_of self.now.content) key.now) }
        ensures items { AreItems (items_of self.now.content) }
    {
        self.keeps_spelling();
        let place = self.place(rows, pass);
        let mut low = 0;
        let mut high = self.item_count();
        while low < high {
            let middle = (low + high) / 2;
            match key.compare_text(self, rows, pass, place, Text::Key(middle)) {
                Ordering::Less => low = middle + 1,
                Ordering::Equal => return Ok(middle),
                Ordering::Greater => high = middle,
            }
        }
        Err(low)
    }
}
