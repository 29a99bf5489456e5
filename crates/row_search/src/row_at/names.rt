//! Which keys a record names that is looked at where it lies.
ghost use Rattle.std.specs.Prelude.{◌≡◌, ◌<◌, ◌-◌, None, Some, false, length, not, option_map, slice_index_or};
ghost use Rattle.base_page.specs.declared.item.Item.{Item};
ghost use Rattle.bw_model.specs.Bytes.{is_below, is_under, key_cmp};
ghost use Rattle.deltas.specs.Records.{high_after, names};
ghost use Rattle.record_slots.specs.Parts.{items_of, row_of};

use crate::{KeyWords, RowAt, Rows, Text};
use record_slots::{NO_BOUND, kinds};
use std::cmp::Ordering;

impl<R: Rows> RowAt<R> {
    /// How its first key compares with the key.
    pub(super) fn compare_first(&self, rows: &R, pass: &mut R::Pass, key: &KeyWords) -> Ordering
        requires read { R.has rows.now pass.old self.now.row self.now.content }
        ensures same { pass.new ≡ pass.old }
        ensures compared { result ≡ key_cmp (row_of self.now.content).first key.now }
    {
        self.keeps_spelling();
        let place = self.place(rows, pass);
        key.compare_text(self, rows, pass, place, Text::First)
    }

    /// How its second key compares with the key, where it isn't without bound.
    fn compare_second(&self, rows: &R, pass: &mut R::Pass, key: &KeyWords) -> Option<Ordering>
        requires read { R.has rows.now pass.old self.now.row self.now.content }
        ensures same { pass.new ≡ pass.old }
        ensures compared { result ≡ option_map (λ bound. key_cmp bound key.now) (row_of self.now.content).second }
    {
        self.keeps_spelling();
        let place = self.place(rows, pass);
        let count = self.length(rows, pass, place, Text::Second);
        if count == NO_BOUND {
            return None;
        }
        Some(key.compare_of(self, rows, pass, place, Text::Second, count))
    }

    /// How the key of the item at the place compares with the key.
    #[inline(always)]
    fn compare_item(&self, rows: &R, pass: &mut R::Pass, place: usize, key: &KeyWords) -> Ordering
        requires read { R.has rows.now pass.old self.now.row self.now.content }
        requires there { place < length (items_of self.now.content) }
        ensures same { pass.new ≡ pass.old }
        ensures compared { (d : Item) → result ≡ key_cmp (slice_index_or (items_of self.now.content) place d).key key.now }
    {
        self.keeps_spelling();
        let lies = self.place(rows, pass);
        key.compare_text(self, rows, pass, lies, Text::Key(place))
    }

    /// Whether it decides what the key has.
    pub fn names(&self, rows: &R, pass: &mut R::Pass, key: &KeyWords) -> bool
        requires read { R.has rows.now pass.old self.now.row self.now.content }
        ensures same { pass.new ≡ pass.old }
        ensures names { result ≡ names self.now.content key.now }
    {
        let kind = self.kind();
        if kind == kinds::BASE {
            return true;
        }
        if kind == kinds::PUT {
            return self.compare_item(rows, pass, 0, key).is_eq();
        }
        if kind == kinds::SPLIT {
            return !self.compare_first(rows, pass, key).is_gt();
        }
        if kind == kinds::REMOVE {
            return false;
        }
        if kind == kinds::MERGE {
            return self.covers(rows, pass, key);
        }
        self.compare_first(rows, pass, key).is_eq()
    }

    /// Whether the key is in the range of a merge.
    fn covers(&self, rows: &R, pass: &mut R::Pass, key: &KeyWords) -> bool
        requires read { R.has rows.now pass.old self.now.row self.now.content }
        requires merge { (row_of self.now.content).kind ≡ 8 }
        ensures same { pass.new ≡ pass.old }
        ensures covers { result ≡ names self.now.content key.now }
    {
        if self.compare_first(rows, pass, key).is_gt() {
            return false;
        }
        self.is_below_second(rows, pass, key)
    }

    /// Whether the key is below its second key, as each key is where that is without bound.
    fn is_below_second(&self, rows: &R, pass: &mut R::Pass, key: &KeyWords) -> bool
        requires read { R.has rows.now pass.old self.now.row self.now.content }
        ensures same { pass.new ≡ pass.old }
        ensures under { result ≡ is_under key.now (row_of self.now.content).second }
    {
        match self.compare_second(rows, pass, key) {
            None => true,
            Some(bound) => bound.is_gt(),
        }
    }

    /// Whether the key isn't below its first key.
    pub fn begins_by(&self, rows: &R, pass: &mut R::Pass, key: &KeyWords) -> bool
        requires read { R.has rows.now pass.old self.now.row self.now.content }
        ensures same { pass.new ≡ pass.old }
        ensures begins { result ≡ not (is_below key.now (row_of self.now.content).first) }
    {
        !self.compare_first(rows, pass, key).is_gt()
    }

    /// Whether the key is below the end that it gives the page. The key of its last item is compared first: the end is above that, and lies behind
    /// the other words of the row.
    pub fn ends_after(&self, rows: &R, pass: &mut R::Pass, key: &KeyWords) -> bool
        requires read { R.has rows.now pass.old self.now.row self.now.content }
        ensures same { pass.new ≡ pass.old }
        ensures ends { result ≡ is_under key.now (high_after self.now.content None) }
    {
        self.keeps_spelling();
        if self.is_below_last(rows, pass, key) {
            return true;
        }
        self.is_below_end(rows, pass, key)
    }

    /// Whether the key is below the key of its last item; false where it has none.
    #[inline]
    fn is_below_last(&self, rows: &R, pass: &mut R::Pass, key: &KeyWords) -> bool
        requires read { R.has rows.now pass.old self.now.row self.now.content }
        ensures same { pass.new ≡ pass.old }
        ensures none { length (items_of self.now.content) ≡ 0 → result ≡ false }
        ensures below { 0 < length (items_of self.now.content) → (d : Item)
            → result ≡ is_below key.now (slice_index_or (items_of self.now.content) (length (items_of self.now.content) - 1) d).key }
    {
        let count = self.item_count();
        if count == 0 {
            return false;
        }
        self.compare_item(rows, pass, count - 1, key).is_gt()
    }

    /// Whether the key is below the end that it gives the page, compared with the end itself. Not inlined: few keys are above a page's last item.
    #[inline(never)]
    fn is_below_end(&self, rows: &R, pass: &mut R::Pass, key: &KeyWords) -> bool
        requires read { R.has rows.now pass.old self.now.row self.now.content }
        ensures same { pass.new ≡ pass.old }
        ensures ends { result ≡ is_under key.now (high_after self.now.content None) }
    {
        let kind = self.kind();
        if kind == kinds::BASE {
            return self.is_below_second(rows, pass, key);
        }
        if kind == kinds::SPLIT {
            return self.compare_first(rows, pass, key).is_gt();
        }
        if kind == kinds::MERGE {
            return self.is_below_second(rows, pass, key);
        }
        true
    }
}
