//! The ordered items of one page.
ghost use Rattle.std.specs.Prelude.{◌≡◌, ◌+◌, ◌++◌, ◌∷◌, ◌<◌, ◌≤◌, ◌==◌, [], ℕ, List, Some, None, if◌then◌else◌, length, take, drop, is_some, option_copied, IfOk, IfErr, MatchOption};
ghost use Rattle.std.specs.Ordering.{is_eq};
ghost use Rattle.bw_model.specs.Bytes.{key_cmp};
ghost use Rattle.base_page.specs.Pages.{child_in, content_at, AreItems};
ghost use Rattle.base_page.specs.Places.{IsAt, IsCut, IsGap};
ghost use Rattle.base_page.specs.declared.items.TheConstants.{MAX_ITEMS};

use crate::{Content, Item};
use arrayvec::ArrayVec;
use bw_model::Key;
use std::alloc::AllocError;
use std::marker::Model;

/// How many items a page has at most.
pub const MAX_ITEMS: usize = 24;

/// How many terms of an index page are held at most.
pub const MAX_HELD: usize = 4;

/// At most 24 items, in strictly ascending order of their keys.
#[derive(PartialEq, Eq, Drop)]
pub struct Items {
    items: ArrayVec<Item, MAX_ITEMS>,
}

impl Model for Items {
    ghost use Rattle.std.specs.Prelude.{List};
    ghost use Rattle.base_page.specs.declared.item.Item.{Item};
    ghost use Rattle.base_page.specs.Pages.{AreItems};

    ghost Value = { List Item };

    ghost view = { λ a. a.items.items };

    ghost invariant = { λ a. AreItems a.items.items };

    ghost inverse = { λ items. record { items = record { items = items } } };
}

impl Items {
    /// No items.
    pub fn new() -> Items
        ensures { result ≡ [] }
    {
        Items {
            items: ArrayVec::new(),
        }
    }

    /// These items, where each key is below the one after it.
    pub fn ordered(items: ArrayVec<Item, MAX_ITEMS>) -> Option<Items>
        ensures { MatchOption result (AreItems items.items → ⊥)
            (λ ordered. (ordered ≡ items.items) × AreItems ordered) }
    {
        for place in 1..items.len() {
            if !items[place - 1].key.cmp(&items[place].key).is_lt() {
                return None;
            }
        }
        Some(Items { items })
    }

    /// The items in order.
    pub fn as_slice(&self) -> &[Item]
        ensures items { result.now ≡ self.now }
        ensures few { length result.now ≤ MAX_ITEMS }
    {
        self.items.as_slice()
    }

    /// How many items there are.
    pub fn len(&self) -> usize
        ensures count { result ≡ length self.now }
        ensures few { result ≤ MAX_ITEMS }
    {
        self.items.len()
    }

    /// Whether there are none.
    pub fn is_empty(&self) -> bool
        ensures { result ≡ (length self.now == 0) }
    {
        self.items.is_empty()
    }

    /// A copy of the items; it allocates nothing.
    pub fn copied(&self) -> Items
        ensures { result ≡ self.now }
    {
        let mut items = ArrayVec::new();
        for item in self.items.as_slice() {
            items.push(item.copied());
        }
        Items { items }
    }

    /// What the items have at the key.
    pub fn find(&self, key: &Key) -> Option<&Content>
        ensures { option_copied result ≡ content_at self.now key.now }
    {
        match self.place_of(key) {
            Ok(place) => Some(&self.items.as_slice()[place].content),
            Err(_) => None,
        }
    }

    /// The child that the items have at the key, or none.
    pub fn child_at(&self, key: &Key) -> Option<u32>
        ensures { result ≡ child_in (content_at self.now key.now) }
    {
        match self.find(key) {
            Some(Content::Child { page, .. }) => Some(*page),
            _ => None,
        }
    }

    /// Gives the key the content, in place of what it had.
    pub fn put(&mut self, key: Key, content: Content)
        requires { content_at self.old key ≡ None → length self.old < MAX_ITEMS }
        ensures items { AreItems self.new }
        ensures contents { (q : List ℕ) → content_at self.new q ≡ (if is_eq (key_cmp q key) then Some content else content_at self.old q) }
        ensures count { length self.new ≡ (if is_some (content_at self.old key) then length self.old else length self.old + 1) }
    {
        match self.place_of(&key) {
            Ok(place) => self.items[place] = Item { key, content },
            Err(place) => self.items.insert(place, Item { key, content }),
        }
    }

    /// Takes away what the key has.
    pub fn remove(&mut self, key: &Key)
        ensures items { AreItems self.new }
        ensures contents { (q : List ℕ) → content_at self.new q ≡ (if is_eq (key_cmp q key.now) then None else content_at self.old q) }
        ensures count { length self.old ≡ (if is_some (content_at self.old key.now) then length self.new + 1 else length self.new) }
    {
        if let Ok(place) = self.place_of(key) {
            self.items.remove(place);
        }
    }

    /// Keeps the items before the place, and gives those from it on.
    pub fn split_off(&mut self, place: usize) -> Items
        requires { place ≤ length self.old }
        ensures front { self.new ≡ take place self.old }
        ensures back { result ≡ drop place self.old }
        ensures items { AreItems self.new }
        ensures others { AreItems result }
    {
        let mut back = ArrayVec::new();
        for item in &self.items.as_slice()[place..] {
            back.push(item.copied());
        }
        self.truncate(place);
        Items { items: back }
    }

    /// Keeps the items before the place.
    pub fn truncate(&mut self, place: usize)
        ensures front { self.new ≡ take place self.old }
        ensures items { AreItems self.new }
    {
        self.items.truncate(place);
    }

    /// Adds an item, which is above those that stand.
    pub fn push(&mut self, item: Item)
        requires { AreItems (self.old ++ item ∷ []) }
        ensures items { self.new ≡ self.old ++ item ∷ [] }
    {
        self.items.push(item);
    }

    /// Adds the items, which are above those that stand.
    pub fn append(&mut self, others: &Items)
        requires { AreItems (self.old ++ others.now) }
        ensures items { self.new ≡ self.old ++ others.now }
    {
        for item in others.items.as_slice() {
            self.items.push(item.copied());
        }
    }

    /// How many items are below the key.
    pub fn count_below(&self, key: &Key) -> usize
        ensures { IsCut self.now key.now result }
    {
        let _ = &self.items;
        match self.place_of(key) {
            Ok(place) => place,
            Err(place) => place,
        }
    }

    /// Where the key stands, or where it would stand.
    pub(crate) fn place_of(&self, key: &Key) -> Result<usize, usize>
        ensures found { IfOk result (IsAt self.now key.now) }
        ensures absent { IfErr result (IsGap self.now key.now) }
    {
        self.items
            .as_slice()
            .binary_search_by(|item| item.key.cmp(key))
    }
}

impl Clone for Items {
    ghost is_clone = { λ items other. other ≡ items };

    ghost is_infallible = { λ _. Unit {0} };

    fn clone(&self) -> Result<Self, AllocError> {
        Ok(self.copied())
    }
}
