//! The pairs that a page shows.
ghost use Rattle.std.specs.Prelude.{◌≡◌};
ghost use Rattle.base_page.specs.Shown.{leaves_out, next_shown, pairs_shown};

use crate::{Content, Page};
use bw_model::{Key, Pairs};

/// Where a cursor page's pairs lie: from its key on, or up to its key.
#[derive(Clone, Copy)]
pub enum Direction {
    Forward,
    Backward,
}

impl Direction {
    /// Whether a cursor page of this direction leaves the key out.
    fn leaves_out(self, bound: &Key, key: &Key) -> bool
        ensures { result ≡ leaves_out self bound.now key.now }
    {
        match self {
            Direction::Forward => key.cmp(bound).is_lt(),
            Direction::Backward => bound.cmp(key).is_lt(),
        }
    }
}

impl Page {
    /// Makes these the pairs of its items from the key on, or up to it, each over the one that lies there; an index page has none.
    pub fn show(&self, direction: Direction, bound: &Key, pairs: &mut Pairs)
        ensures { pairs.new ≡ pairs_shown direction bound.now self.now.items }
    {
        let mut count = 0;
        for item in self.items.as_slice() {
            if let Content::Value(value) = &item.content
                && !direction.leaves_out(bound, &item.key)
            {
                pairs.put(count, item.key.copied(), value.copied());
                count += 1;
            }
        }
        pairs.truncate(count);
    }

    /// The key at which the next cursor page goes on: the page's high key, or the greatest key below the page.
    pub fn next(&self, direction: Direction) -> Option<Key>
        ensures { result ≡ next_shown direction self.now }
    {
        match direction {
            Direction::Forward => self.high().map(Key::copied),
            Direction::Backward => self.low().before(),
        }
    }
}
