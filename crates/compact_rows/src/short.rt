//! The texts of a record are short, by their types: shown once, for the spelling.
ghost use Rattle.std.specs.Prelude.{◌≡◌, ◌≤◌, IfSome, length, option_copied};
ghost use Rattle.std.specs.List.{All};
ghost use Rattle.bw_model.specs.Bytes.{IsShort, longest};
ghost use Rattle.record_slots.specs.Spells.{HasShortTexts, IsShortItem};

use base_page::{Content, Item};
use bw_model::{Key, Value};
use deltas::Record;
use record_slots::key_bytes;

/// Shows that the texts of a record are short, at no cost but a walk over its items.
pub(crate) fn texts_are_short(content: &Record)
    ensures { HasShortTexts content.now }
{
    match content {
        Record::Base(page) => {
            key_is_short(page.low());
            bound_is_short(page.high());
            items_are_short(page.items().as_slice());
        }
        Record::Put(put) => {
            key_is_short(&put.key);
            value_bytes(&put.value);
        }
        Record::Delete(delete) => key_is_short(&delete.key),
        Record::Split(split) => key_is_short(&split.separator),
        Record::Term(term) => key_is_short(&term.separator),
        Record::Hold(hold) => key_is_short(&hold.separator),
        Record::Remove(_) => {}
        Record::Merge(merge) => {
            key_is_short(&merge.low);
            bound_is_short(merge.high.as_ref());
            items_are_short(merge.items.as_slice());
        }
        Record::Unterm(unterm) => key_is_short(&unterm.separator),
    }
}

fn key_is_short(key: &Key)
    ensures { IsShort key.now }
{
    key_bytes(key);
}

fn bound_is_short(bound: Option<&Key>)
    ensures { IfSome (option_copied bound.entry) IsShort }
{
    match bound {
        None => {}
        Some(key) => key_is_short(key),
    }
}

fn items_are_short(items: &[Item])
    ensures { All IsShortItem items.now }
{
    for item in items {
        item_is_short(item);
    }
}

fn item_is_short(item: &Item)
    ensures { IsShortItem item.now }
{
    key_is_short(&item.key);
    match &item.content {
        Content::Value(value) => {
            value_bytes(value);
        }
        Content::Child { .. } => {}
    }
}

/// The bytes of a value, at most 64.
pub(crate) fn value_bytes(value: &Value) -> &[u8]
    ensures bytes { result.now ≡ value.now }
    ensures short { IsShort value.now }
{
    let bytes = value.as_slice();
    are_short(bytes);
    bytes
}

/// Shows that as many bytes as a key or a value has at most are short, at no cost.
fn are_short(bytes: &[u8])
    requires { length bytes.now ≤ longest }
    ensures { IsShort bytes.now }
{}
