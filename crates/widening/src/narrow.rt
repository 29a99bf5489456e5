//! Records whose keys and values have few bytes, as in the first form.
ghost use Rattle.std.specs.Prelude.{◌↔◌, IfSome, IsTrue, option_copied};
ghost use Rattle.std.specs.List.{All};
ghost use Rattle.record_slots.specs.Spells.{HasItemTexts, HasTextIn, HasTexts};
ghost use Rattle.widening.specs.FirstForm.{IsFew};

use crate::layout::FIRST_LONGEST;
use base_page::{Content, Item};
use bw_model::{Key, Value};
use deltas::Record;

/// Whether no key and no value has more bytes than the first form had room for.
pub(crate) fn is_narrow(content: &Record) -> bool
    ensures { IsTrue result ↔ HasTexts IsFew content.now }
{
    match content {
        Record::Base(page) => is_narrow_page(page.low(), page.high(), page.items().as_slice()),
        Record::Put(put) => is_narrow_key(&put.key) && is_narrow_value(&put.value),
        Record::Delete(delete) => is_narrow_key(&delete.key),
        Record::Split(split) => is_narrow_key(&split.separator),
        Record::Term(term) => is_narrow_key(&term.separator),
        Record::Hold(hold) => is_narrow_key(&hold.separator),
        Record::Remove(_) => true,
        Record::Merge(merge) => {
            is_narrow_page(&merge.low, merge.high.as_ref(), merge.items.as_slice())
        }
        Record::Unterm(unterm) => is_narrow_key(&unterm.separator),
    }
}

fn is_narrow_page(low: &Key, high: Option<&Key>, items: &[Item]) -> bool
    ensures { IsTrue result
        ↔ (IsFew low.now × IfSome (option_copied high.entry) IsFew × All (HasItemTexts IsFew) items.now) }
{
    is_narrow_key(low) && is_narrow_bound(high) && are_narrow(items)
}

fn is_narrow_bound(bound: Option<&Key>) -> bool
    ensures { IsTrue result ↔ IfSome (option_copied bound.entry) IsFew }
{
    match bound {
        None => true,
        Some(key) => is_narrow_key(key),
    }
}

fn are_narrow(items: &[Item]) -> bool
    ensures { IsTrue result ↔ All (HasItemTexts IsFew) items.now }
{
    for item in items {
        if !is_narrow_item(item) {
            return false;
        }
    }
    true
}

fn is_narrow_item(item: &Item) -> bool
    ensures { IsTrue result ↔ HasItemTexts IsFew item.now }
{
    is_narrow_key(&item.key) && is_narrow_content(&item.content)
}

fn is_narrow_content(content: &Content) -> bool
    ensures { IsTrue result ↔ HasTextIn IsFew content.now }
{
    match content {
        Content::Value(value) => is_narrow_value(value),
        Content::Child { .. } => true,
    }
}

fn is_narrow_key(key: &Key) -> bool
    ensures { IsTrue result ↔ IsFew key.now }
{
    key.as_slice().len() <= FIRST_LONGEST
}

fn is_narrow_value(value: &Value) -> bool
    ensures { IsTrue result ↔ IsFew value.now }
{
    value.as_slice().len() <= FIRST_LONGEST
}
