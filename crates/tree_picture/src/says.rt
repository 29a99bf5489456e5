//! Words for records, and for the items of bases and merges.
ghost use Rattle.std.specs.Prelude.{◌≡◌, ◌≤◌, ◌++◌, codes, length};
ghost use Rattle.base_page.specs.declared.item.Content.TheVariants.{Child};
ghost use Rattle.deltas.specs.declared.record.Record.TheVariants as kind;
ghost use Rattle.tree_picture.specs.Adding.{Adds};
ghost use Rattle.tree_picture.specs.RecordLines.{child_text, content_text, held_text, item_text, record_text};

use crate::words::Words;
use crate::write::{with_key, with_number, with_range, with_token};
use base_page::{Content, Item};
use bw_model::Key;
use deltas::{Merge, Put, Record};

/// Words, and a separator and a child behind them.
fn with_child(words: &mut Words, before: &[u8], separator: &Key, child: u32)
    ensures adds { Adds words.old words.new (before.now ++ child_text separator.now child) }
    ensures short { length (child_text separator.now child) ≤ 31 }
{
    with_key(words, before, separator.as_slice());
    with_number(words, b" to PID ", u64::from(child));
}

fn with_put(words: &mut Words, put: &Put)
    ensures adds { Adds words.old words.new (record_text (kind.Put put.now)) }
    ensures short { length (record_text (kind.Put put.now)) ≤ 50 }
{
    with_key(words, b"put ", put.key.as_slice());
    with_token(words, b" = ", put.value.as_slice());
}

fn with_merge(words: &mut Words, merge: &Merge)
    ensures adds { Adds words.old words.new (record_text (kind.Merge merge.now)) }
    ensures short { length (record_text (kind.Merge merge.now)) ≤ 50 }
{
    words.add(b"merge ");
    with_range(words, &merge.low, merge.high.as_ref());
}

/// Adds what a record says.
fn with_record(words: &mut Words, content: &Record)
    ensures adds { Adds words.old words.new (record_text content.now) }
    ensures short { length (record_text content.now) ≤ 50 }
{
    match content {
        Record::Base(page) => {
            let items = page.items().as_slice().len() as u64;
            with_number(words, b"base, items: ", items);
        }
        Record::Put(put) => with_put(words, put),
        Record::Delete(delete) => with_key(words, b"delete ", delete.key.as_slice()),
        Record::Split(split) => with_child(words, b"split ", &split.separator, split.page),
        Record::Term(term) => with_child(words, b"term ", &term.separator, term.child),
        Record::Hold(hold) => with_child(words, b"hold ", &hold.separator, hold.child),
        Record::Remove(_) => words.add(b"remove"),
        Record::Merge(merge) => with_merge(words, merge),
        Record::Unterm(unterm) => with_child(words, b"unterm ", &unterm.separator, unterm.child),
    }
}

/// What a record says.
pub(crate) fn record_words(content: &Record) -> Words
    ensures { result ≡ record_text content.now }
{
    let mut words = Words::new();
    with_record(&mut words, content);
    words
}

/// What a record says that was read.
pub(crate) fn record_found(content: &Record) -> Words
    ensures { result ≡ codes ": " ++ record_text content.now }
{
    let mut words = Words::new();
    words.add(b": ");
    with_record(&mut words, content);
    words
}

/// An item of a base or a merge.
pub(crate) fn item_words(item: &Item) -> Words
    ensures { result ≡ item_text item.now }
{
    let mut words = Words::new();
    with_key(&mut words, b"", item.key.as_slice());
    with_content(&mut words, &item.content);
    words
}

/// What an item has for its key.
fn with_content(words: &mut Words, content: &Content)
    ensures adds { Adds words.old words.new (content_text content.now) }
    ensures short { length (content_text content.now) ≤ 30 }
{
    match content {
        Content::Value(value) => with_token(words, b" = ", value.as_slice()),
        Content::Child { page, held } => with_page(words, *page, *held),
    }
}

/// A child, and whether it is held.
fn with_page(words: &mut Words, page: u32, held: bool)
    ensures adds { Adds words.old words.new (content_text (Child page held)) }
    ensures short { length (content_text (Child page held)) ≤ 30 }
{
    with_number(words, b" to PID ", u64::from(page));
    words.add(held_word(held));
}

fn held_word(held: bool) -> &'static [u8]
    ensures { result.now ≡ held_text held }
{
    if held { b", held" } else { b"" }
}
