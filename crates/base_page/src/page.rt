//! A page: the items of a range of keys on one level.
ghost use Rattle.std.specs.Prelude.{◌≡◌, ◌++◌, ◌∷◌, [], IsTrue, option_copied, false};
ghost use Rattle.bw_model.specs.Bytes.{is_under};
ghost use Rattle.base_page.specs.Pages.{empty_leaf, IsPage};

mod edits;
mod reads;
mod shows;

use crate::{Item, Items};
use bw_model::Key;
pub use shows::Direction;
use std::alloc::AllocError;
use std::marker::Model;

/// The items of the keys from `low` up to `high`, on a level; 0 is the level of leaves.
#[derive(Drop)]
pub struct Page {
    level: u8,
    low: Key,
    high: Option<Key>,
    right: Option<u32>,
    removed: bool,
    items: Items,
}

impl Model for Page {
    ghost use Rattle.base_page.specs.Pages.{Page, IsPage};

    ghost Value = { Page };

    ghost view = { λ p. record { level = p.level; low = p.low; high = p.high; right = p.right; removed = p.removed; items = p.items } };

    ghost invariant = { λ p. IsPage (record { level = p.level; low = p.low; high = p.high; right = p.right; removed = p.removed; items = p.items }) };
}

impl Page {
    /// The page that opens a tree: an empty leaf over all keys.
    pub fn empty_leaf() -> Page
        ensures { result ≡ empty_leaf }
    {
        Page {
            level: 0,
            low: Key::default(),
            high: None,
            right: None,
            removed: false,
            items: Items::new(),
        }
    }

    /// The page of a range, on a level, with these items.
    pub fn new(level: u8, low: Key, high: Option<Key>, right: Option<u32>, items: Items) -> Page
        requires { IsPage (record { level = level; low = low; high = high; right = right; removed = false; items = items }) }
        ensures { result ≡ record { level = level; low = low; high = high; right = right; removed = false; items = items } }
    {
        Page {
            level,
            low,
            high,
            right,
            removed: false,
            items,
        }
    }

    /// Becomes the page of a range, on a level, without items.
    pub fn restart(&mut self, level: u8, low: Key, high: Option<Key>, right: Option<u32>)
        requires { IsTrue (is_under low high) }
        ensures { self.new ≡ record { level = level; low = low; high = high; right = right; removed = false; items = [] } }
    {
        self.level = level;
        self.low = low;
        self.high = high;
        self.right = right;
        self.removed = false;
        self.items.truncate(0);
    }

    /// Adds an item, which is above those that stand.
    pub fn push(&mut self, item: Item)
        requires { IsPage (record self.old { items = self.old.items ++ item ∷ [] }) }
        ensures { self.new ≡ record self.old { items = self.old.items ++ item ∷ [] } }
    {
        self.items.push(item);
    }

    /// The level: 0 for leaves, one more for each level above.
    pub fn level(&self) -> u8
        ensures { result ≡ self.now.level }
    {
        self.level
    }

    /// The lowest key that the page may have.
    pub fn low(&self) -> &Key
        ensures { result.now ≡ self.now.low }
    {
        &self.low
    }

    /// The key from which on keys are in pages to the right, or none.
    pub fn high(&self) -> Option<&Key>
        ensures { option_copied result ≡ self.now.high }
    {
        self.high.as_ref()
    }

    /// The PID of the next page to the right on the level, or none.
    pub fn right(&self) -> Option<u32>
        ensures { result ≡ self.now.right }
    {
        self.right
    }

    /// Whether the page is removed.
    pub fn is_removed(&self) -> bool
        ensures { result ≡ self.now.removed }
    {
        self.removed
    }

    /// The items in order.
    pub fn items(&self) -> &Items
        ensures { result.now ≡ self.now.items }
    {
        &self.items
    }

    /// A copy of the page; it allocates nothing.
    pub fn copied(&self) -> Page
        ensures { result ≡ self.now }
    {
        Page {
            level: self.level,
            low: self.low.copied(),
            high: match &self.high {
                None => None,
                Some(high) => Some(high.copied()),
            },
            right: self.right,
            removed: self.removed,
            items: self.items.copied(),
        }
    }
}

impl Clone for Page {
    ghost is_clone = { λ page other. other ≡ page };

    ghost is_infallible = { λ _. Unit {0} };

    fn clone(&self) -> Result<Self, AllocError> {
        Ok(self.copied())
    }
}
