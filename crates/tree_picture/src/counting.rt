//! Which lines of a page count: the newest record that names a key decides it.
ghost use Rattle.std.specs.Prelude.{◌≡◌, ◌∷◌, ◌++◌, List, ℕ, option_copied, true, false};
ghost use Rattle.std.specs.List.{list_any};
ghost use Rattle.bw_model.specs.Bytes.{is_in_range};
ghost use Rattle.deltas.specs.Records.{content_said, names};
ghost use Rattle.deltas.specs.declared.record.Record.{Record as RecordSeen};
ghost use Rattle.traces.specs.chain.Chains.{content_in};
ghost use Rattle.tree_picture.specs.RecordLines.{is_unnamed, record_counts};

use bw_model::Key;
use deltas::Record;

/// What a record of a chain says of a key that it names is what the page has there, if no newer record names the key. Else the page has the same there whatever
/// stands under the newer records. It does nothing.
pub fn newest_decides()
    ensures counts { (newer older : List RecordSeen) (one : RecordSeen) (key : List ℕ) → is_unnamed newer key ≡ true → names one key ≡ true
        → content_in (newer ++ one ∷ older) key ≡ content_said one key }
    ensures decided { (newer older other : List RecordSeen) (key : List ℕ) → is_unnamed newer key ≡ false → content_in (newer ++ older) key ≡ content_in (newer ++ other) key }
{}

/// Whether a record names a key.
fn names(content: &Record, key: &Key) -> bool
    ensures { result ≡ names content.now key.now }
{
    match content {
        Record::Base(_) => true,
        Record::Put(put) => key.cmp(&put.key).is_eq(),
        Record::Delete(delete) => key.cmp(&delete.key).is_eq(),
        Record::Split(split) => !key.cmp(&split.separator).is_lt(),
        Record::Term(term) => key.cmp(&term.separator).is_eq(),
        Record::Hold(hold) => key.cmp(&hold.separator).is_eq(),
        Record::Remove(_) => false,
        Record::Merge(merge) => is_in_range(&merge.low, merge.high.as_ref(), key),
        Record::Unterm(unterm) => key.cmp(&unterm.separator).is_eq(),
    }
}

/// Whether a key is in the range.
fn is_in_range(low: &Key, high: Option<&Key>, key: &Key) -> bool
    ensures { result ≡ is_in_range low.now (option_copied high.entry) key.now }
{
    !key.cmp(low).is_lt() && high.is_none_or(|bound| key.cmp(bound).is_lt())
}

/// Whether one of some records names a key.
fn is_named(newer: &[Record], key: &Key) -> bool
    ensures { result ≡ list_any (λ one. names one key.now) newer.now }
{
    newer.iter().any(|one| names(one, key))
}

/// Whether none of some records names a key.
pub(crate) fn is_unnamed(newer: &[Record], key: &Key) -> bool
    ensures { result ≡ is_unnamed newer.now key.now }
{
    !is_named(newer, key)
}

/// Whether a record under newer ones counts.
pub(crate) fn record_counts(newer: &[Record], content: &Record) -> bool
    ensures { result ≡ record_counts newer.now content.now }
{
    match content {
        Record::Put(put) => is_unnamed(newer, &put.key),
        Record::Delete(delete) => is_unnamed(newer, &delete.key),
        Record::Term(term) => is_unnamed(newer, &term.separator),
        Record::Hold(hold) => is_unnamed(newer, &hold.separator),
        Record::Unterm(unterm) => is_unnamed(newer, &unterm.separator),
        Record::Base(_) | Record::Split(_) | Record::Remove(_) | Record::Merge(_) => true,
    }
}
