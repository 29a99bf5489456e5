//! Changes of a page where it lies.
ghost use Rattle.std.specs.Prelude.{◌≡◌, ◌+◌, ◌++◌, ◌<◌, ◌≤◌, ℕ, List, Some, None, IsTrue, true, if◌then◌else◌, length, take, drop, slice_index_or, is_some};
ghost use Rattle.std.specs.Ordering.{is_eq};
ghost use Rattle.bw_model.specs.Bytes.{key_cmp, is_below, is_in_range};
ghost use Rattle.base_page.specs.Pages.{content_at, content_held, IsOfLevel, IsPage};
ghost use Rattle.base_page.specs.declared.item.Item.{Item};
ghost use Rattle.base_page.specs.declared.items.TheConstants.{MAX_ITEMS};

use crate::{Content, Page};
use bw_model::Key;

impl Page {
    /// Gives the key the content, in place of what it had.
    pub fn put(&mut self, key: Key, content: Content)
        requires covered { IsTrue (is_in_range self.old.low self.old.high key) }
        requires kind { IsOfLevel self.old.level content }
        requires room { content_at self.old.items key ≡ None → length self.old.items < MAX_ITEMS }
        ensures page { IsPage self.new }
        ensures frame { self.new ≡ record self.old { items = self.new.items } }
        ensures contents { (q : List ℕ) → content_at self.new.items q ≡ (if is_eq (key_cmp q key) then Some content else content_at self.old.items q) }
        ensures count { length self.new.items ≡ (if is_some (content_at self.old.items key) then length self.old.items else length self.old.items + 1) }
    {
        self.items.put(key, content);
    }

    /// Takes away what the key has.
    pub fn delete(&mut self, key: &Key)
        ensures page { IsPage self.new }
        ensures frame { self.new ≡ record self.old { items = self.new.items } }
        ensures contents { (q : List ℕ) → content_at self.new.items q ≡ (if is_eq (key_cmp q key.now) then None else content_at self.old.items q) }
        ensures count { length self.old.items ≡ (if is_some (content_at self.old.items key.now) then length self.new.items + 1 else length self.new.items) }
    {
        self.items.remove(key);
    }

    /// Holds the key's term, if it has one.
    pub fn hold(&mut self, key: &Key)
        ensures page { IsPage self.new }
        ensures frame { self.new ≡ record self.old { items = self.new.items } }
        ensures contents { (q : List ℕ) → content_at self.new.items q ≡ (if is_eq (key_cmp q key.now) then content_held (content_at self.old.items key.now) else content_at self.old.items q) }
        ensures count { length self.new.items ≡ length self.old.items }
    {
        match self.items.child_at(key) {
            None => {}
            Some(child) => {
                let content = Content::Child {
                    page: child,
                    held: true,
                };
                self.items.put(key.copied(), content);
            }
        }
    }

    /// Removes the page.
    pub fn remove(&mut self)
        ensures page { IsPage self.new }
        ensures frame { self.new ≡ record self.old { removed = true } }
    {
        self.removed = true;
    }

    /// Keeps the part below the separator, with the page `right` to its right.
    pub fn end_at(&mut self, separator: Key, right: u32)
        requires { IsTrue (is_below self.old.low separator) }
        ensures page { IsPage self.new }
        ensures frame { self.new ≡ record self.old { high = Some separator; right = Some right; items = self.new.items } }
        ensures contents { (q : List ℕ) → content_at self.new.items q ≡ (if is_below q separator then content_at self.old.items q else None) }
        ensures count { length self.new.items ≤ length self.old.items }
    {
        let place = self.items.count_below(&separator);
        self.items.truncate(place);
        self.high = Some(separator);
        self.right = Some(right);
    }

    /// The two parts of a split: the items before the place, and those from it on. The low key of the
    /// upper part is the separator; the PID of the upper part is to be `right`.
    pub fn cut_at(self, place: usize, right: u32) -> (Page, Page)
        requires { (0 < place) × (place < length self.items) }
        ensures pages { IsPage result.0 × IsPage result.1 }
        ensures separator { (d : Item) → (slice_index_or self.items place d).key ≡ result.1.low }
        ensures lower { result.0 ≡ record self { high = Some result.1.low; right = Some right; items = take place self.items } }
        ensures upper { result.1 ≡ record self { low = result.1.low; items = drop place self.items } }
        ensures below { (q : List ℕ) → content_at result.0.items q ≡ (if is_below q result.1.low then content_at self.items q else None) }
        ensures above { (q : List ℕ) → content_at result.1.items q ≡ (if is_below q result.1.low then None else content_at self.items q) }
    {
        let mut lower = self;
        let separator = lower.items.as_slice()[place].key.copied();
        let upper = Page {
            level: lower.level,
            low: separator.copied(),
            high: lower.high.take(),
            right: lower.right,
            removed: lower.removed,
            items: lower.items.split_off(place),
        };
        lower.high = Some(separator);
        lower.right = Some(right);
        (lower, upper)
    }

    /// Takes the range, the right and the items of its neighbour to the right, too.
    pub fn join(&mut self, neighbour: &Page)
        requires meets { self.old.high ≡ Some neighbour.now.low }
        requires level { neighbour.now.level ≡ self.old.level }
        requires room { length self.old.items + length neighbour.now.items ≤ MAX_ITEMS }
        ensures page { IsPage self.new }
        ensures frame { self.new ≡ record self.old { high = neighbour.now.high; right = neighbour.now.right; items = self.old.items ++ neighbour.now.items } }
        ensures contents { (q : List ℕ) → content_at self.new.items q ≡ (if is_in_range neighbour.now.low neighbour.now.high q then content_at neighbour.now.items q else content_at self.old.items q) }
    {
        self.items.append(&neighbour.items);
        self.high = match &neighbour.high {
            None => None,
            Some(high) => Some(high.copied()),
        };
        self.right = neighbour.right;
    }
}
