//! Whether the parts of a page keep the rules of a tree's page.
ghost use Rattle.std.specs.Prelude.{◌≡◌, ◌≤◌, ◌<◌, ◌↔◌, IsTrue, false, length, is_some};
ghost use Rattle.std.specs.List.{All};
ghost use Rattle.bw_model.specs.Bytes.{is_under};
ghost use Rattle.base_page.specs.Pages.{AreItems, IsOfLevel};
ghost use Rattle.base_page.specs.Rules.{IsRuled};
ghost use Rattle.record_slots.specs.Rules.{are_within, are_apart_after, are_terms, starts_at};

use base_page::{Item, Items, MAX_HELD, held_count, is_held};
use bw_model::Key;

/// Whether a page of these parts keeps the rules.
#[inline(never)]
pub(crate) fn keeps_rules(
    level: u8,
    low: &Key,
    high: &Option<Key>,
    right: Option<u32>,
    items: &Items,
) -> bool
    requires ordered { AreItems items.now }
    requires kinds { All (λ item. IsOfLevel level item.content) items.now }
    requires top { level ≤ 15 }
    ensures { IsTrue result
        ↔ IsRuled (record { level = level; low = low.now; high = high.now; right = right; removed = false; items = items.now }) }
{
    let items = items.as_slice();
    if right.is_some() != high.is_some() {
        return false;
    }
    if !is_under(low, high) {
        return false;
    }
    if !are_within(low, high, items) {
        return false;
    }
    level == 0 || are_terms(low, items)
}

/// Whether the key is below the bound.
fn is_under(key: &Key, bound: &Option<Key>) -> bool
    ensures { result ≡ is_under key.now bound.now }
{
    match bound {
        None => true,
        Some(bound) => key.cmp(bound).is_lt(),
    }
}

/// Whether each item is in the range.
fn are_within(low: &Key, high: &Option<Key>, items: &[Item]) -> bool
    ensures { result ≡ are_within low.now high.now items.now }
{
    for item in items {
        if item.key.cmp(low).is_lt() || !is_under(&item.key, high) {
            return false;
        }
    }
    true
}

/// Whether the terms of an index page keep their rules.
fn are_terms(low: &Key, items: &[Item]) -> bool
    requires { length items.now ≤ 24 }
    ensures { result ≡ are_terms low.now items.now }
{
    starts_at(low, items) && held_count(items) <= MAX_HELD && are_apart(items)
}

/// Whether the first item stands at the key and isn't held.
fn starts_at(low: &Key, items: &[Item]) -> bool
    ensures { result ≡ starts_at low.now items.now }
{
    match items.first() {
        None => false,
        Some(item) => item.key.cmp(low).is_eq() && !is_held(&item.content),
    }
}

/// Whether of two neighbours at most one is held.
fn are_apart(items: &[Item]) -> bool
    ensures { result ≡ are_apart_after false items.now }
{
    let mut last = false;
    for item in items {
        let held = is_held(&item.content);
        if last && held {
            return false;
        }
        last = held;
    }
    true
}
