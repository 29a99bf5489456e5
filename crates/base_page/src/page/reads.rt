//! What a page says of a key.
ghost use Rattle.std.specs.Prelude.{◌≡◌, ◌-◌, ◌<◌, ◌≤◌, ◌⊎◌, MatchOption, Some, length, not, option_copied, slice_index_or};
ghost use Rattle.bw_model.specs.Bytes.{is_below, is_in_range};
ghost use Rattle.base_page.specs.Pages.{child_in, content_at, value_in, IsPage};
ghost use Rattle.base_page.specs.Places.{IsGreatestChild, HasNoChild};
ghost use Rattle.base_page.specs.declared.item.Item.{Item};

use crate::{Content, Page};
use bw_model::{Key, Value};

impl Page {
    /// Whether the key is in the page's range.
    pub fn covers(&self, key: &Key) -> bool
        ensures { result ≡ is_in_range self.now.low self.now.high key.now }
    {
        if key.cmp(&self.low).is_lt() {
            return false;
        }
        match &self.high {
            None => true,
            Some(high) => key.cmp(high).is_lt(),
        }
    }

    /// What the page has at the key.
    pub fn content(&self, key: &Key) -> Option<&Content>
        ensures { option_copied result ≡ content_at self.now.items key.now }
    {
        self.items.find(key)
    }

    /// The value of the key; an index page has none.
    pub fn find(&self, key: &Key) -> Option<&Value>
        ensures { option_copied result ≡ value_in (content_at self.now.items key.now) }
    {
        match self.items.find(key) {
            Some(Content::Value(value)) => Some(value),
            _ => None,
        }
    }

    /// The child of the greatest term at or below the key, or none.
    pub fn child_of(&self, key: &Key) -> Option<u32>
        ensures { MatchOption result
            (HasNoChild (content_at self.now.items) (λ q. not (is_below key.now q)))
            (IsGreatestChild (content_at self.now.items) (λ q. not (is_below key.now q))) }
    {
        match self.items.place_of(key) {
            Ok(place) => self.child_before(place + 1),
            Err(place) => self.child_before(place),
        }
    }

    /// The child of the greatest term below the key, or none.
    pub fn child_below(&self, key: &Key) -> Option<u32>
        ensures { MatchOption result
            (HasNoChild (content_at self.now.items) (λ q. is_below q key.now))
            (IsGreatestChild (content_at self.now.items) (λ q. is_below q key.now)) }
    {
        self.child_before(self.items.count_below(key))
    }

    /// Shows that the page keeps the rules of a page, at no cost.
    pub fn keeps_rules(&self)
        ensures { IsPage self.now }
    {
        let _ = &self.items;
    }

    /// The child of the last item before the place, or none.
    fn child_before(&self, place: usize) -> Option<u32>
        requires { place ≤ length self.now.items }
        ensures { MatchOption result
            ((place ≡ 0) ⊎ (self.now.level ≡ 0))
            (λ child. (0 < place) × ((d : Item) → child_in (Some (slice_index_or self.now.items (place - 1) d).content) ≡ Some child)) }
    {
        if place == 0 {
            return None;
        }
        match &self.items.as_slice()[place - 1].content {
            Content::Value(_) => None,
            Content::Child { page, .. } => Some(*page),
        }
    }
}
