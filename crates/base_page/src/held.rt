//! Which items are held terms.
ghost use Rattle.std.specs.Prelude.{◌≡◌};
ghost use Rattle.base_page.specs.Rules.{held_count, is_held};

use crate::item::{Content, Item};

/// Whether the content is a held term.
pub fn is_held(content: &Content) -> bool
    ensures { result ≡ is_held content.now }
{
    match content {
        Content::Value(_) => false,
        Content::Child { held, .. } => *held,
    }
}

/// How many of the items are held terms.
pub fn held_count(items: &[Item]) -> usize
    ensures { result ≡ held_count items.now }
{
    let mut count = 0;
    for item in items {
        if is_held(&item.content) {
            count += 1;
        }
    }
    count
}
