//! Index pages of one term, and the two parts of one that was split at "k09".
ghost use Rattle.std.specs.Prelude.{codes, ◌≡◌, ◌≤◌, ◌<◌, ◌∷◌, [], false, None, Some};
ghost use Rattle.base_page.specs.declared.item.Content.TheVariants.{Child};
ghost use Rattle.deltas.specs.Spellable.{IsPid};
ghost use Rattle.deltas.specs.declared.record.Record.TheVariants.{Base};
ghost use Rattle.traces.specs.chain.Chains.{is_removed};
ghost use Rattle.traces.specs.chain.Fitted.{IsPageChain};

use crate::built::Held;
use crate::plans::grown::based;
use crate::plans::key;
use base_page::{Content, Items, Page};
use bw_model::Key;
use std::process::Abort;

fn term(page: u32) -> Content
    ensures { result ≡ Child page false }
{
    Content::Child { page, held: false }
}

/// The items of a page that has one.
fn item(key: Key, content: Content) -> Items
    ensures { result ≡ record { key = key; content = content } ∷ [] }
{
    let mut items = Items::new();
    items.put(key, content);
    items
}

/// An index page from the empty key up to "k09", where page 2 begins.
fn lower(level: u8) -> Page
    requires index { 0 < level }
    ensures { result ≡ record { level = level; low = []; high = Some (codes "k09"); right = Some 2; removed = false; items = record { key = []; content = Child 1 false } ∷ [] } }
{
    let items = item(Key::default(), term(1));
    Page::new(level, Key::default(), Some(key(b"k09")), Some(2), items)
}

/// That page, as it was read.
pub(crate) fn read<R: Abort + AllocGlobal>(rt: &R, level: u8) -> Held
    requires index { 0 < level }
    requires top { level ≤ 15 }
    ensures alive { is_removed result.chain ≡ false }
{
    based(rt, 1, lower(level))
}

/// An index page from a key on, that has this child there.
pub(crate) fn index_from(level: u8, low: Key, child: u32) -> Page
    requires index { 0 < level }
    requires top { level ≤ 15 }
    requires child { IsPid child }
    ensures is { result ≡ record { level = level; low = low; high = None; right = None; removed = false; items = record { key = low; content = Child child false } ∷ [] } }
    ensures stands { IsPageChain (Base result ∷ []) }
{
    let items = item(low.copied(), term(child));
    Page::new(level, low, None, None, items)
}

/// An index page of the first level from "k09" on, where page 3 begins, as page 2.
pub(crate) fn right<R: Abort + AllocGlobal>(rt: &R) -> Held
    ensures alive { is_removed result.chain ≡ false }
{
    based(rt, 2, index_from(1, key(b"k09"), 3))
}
