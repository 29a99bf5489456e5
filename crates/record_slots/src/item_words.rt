//! Items read from words.
ghost use Rattle.std.specs.Prelude.{◌≡◌, ◌≤◌, ◌*◌, List, [], IsTrue, IsFalse, length};
ghost use Rattle.base_page.specs.declared.item.Item.{Item};
ghost use Rattle.record_slots.specs.Layout.{field_size, item_size};
ghost use Rattle.record_slots.specs.Parts.{IsChildIn, IsContentIn, IsItemIn, AreItemsIn};
ghost use Rattle.record_slots.specs.Spells.{FindsOne};

use crate::BadRow;
use crate::layout::{HELD, ITEM_CONTENT, ITEM_WORDS};
use crate::row::are_zeros;
use crate::texts::{key_in, value_in};
use arrayvec::ArrayVec;
use base_page::{Content, Item, MAX_ITEMS};

/// Adds the items of a page of the level, from their words, and answers whether there are such items.
#[inline(never)]
pub(crate) fn read_items(
    level: u8,
    count: usize,
    words: &[u64],
    items: &mut ArrayVec<Item, MAX_ITEMS>,
) -> bool
    requires few { count ≤ 24 }
    requires words { length words.now ≡ item_size * count }
    requires none { items.old.items ≡ [] }
    ensures read { IsTrue result → AreItemsIn level count words.now items.new.items }
    ensures none { IsFalse result → (others : List Item) → AreItemsIn level count words.now others → ⊥ }
{
    for place in 0..count {
        match item_in(
            level,
            &words[ITEM_WORDS * place..ITEM_WORDS * place + ITEM_WORDS],
        ) {
            Ok(item) => items.push(item),
            Err(_) => return false,
        }
    }
    true
}

/// One item of a page of the level.
fn item_in(level: u8, words: &[u64]) -> Result<Item, BadRow>
    requires { length words.now ≡ item_size }
    ensures { FindsOne (IsItemIn level words.now) result }
{
    let first = words[0];
    let held = first >= HELD;
    let count = if held { first - HELD } else { first };
    let key = key_in(count, &words[1..ITEM_CONTENT])?;
    let content = content_in(level, held, &words[ITEM_CONTENT..])?;
    Ok(Item { key, content })
}

/// What an item of the level has at its key: a leaf a value, an index page a child.
fn content_in(level: u8, held: bool, words: &[u64]) -> Result<Content, BadRow>
    requires { length words.now ≡ field_size }
    ensures { FindsOne (IsContentIn level held words.now) result }
{
    if level > 0 {
        let page = child_in(words)?;
        return Ok(Content::Child { page, held });
    }
    if held {
        return Err(BadRow);
    }
    Ok(Content::Value(value_in(words[0], &words[1..])?))
}

/// The PID of a child, with nothing behind it.
fn child_in(words: &[u64]) -> Result<u32, BadRow>
    requires { length words.now ≡ field_size }
    ensures { FindsOne (IsChildIn words.now) result }
{
    let page = words[0];
    if are_zeros(&words[1..]) && (1..4194304).contains(&page) {
        Ok(page as u32)
    } else {
        Err(BadRow)
    }
}
