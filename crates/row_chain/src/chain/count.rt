//! How many items a chain has.
ghost use Rattle.std.specs.Prelude.{◌≡◌, ◌<◌, ◌≤◌, ◌+◌, ◌∷◌, ℕ, List, length, is_some, option_copied};
ghost use Rattle.std.specs.List.{All};
ghost use Rattle.std.specs.Ordering.{is_eq};
ghost use Rattle.bw_model.specs.Bytes.{is_under, key_cmp};
ghost use Rattle.base_page.specs.declared.item.Item.{Item};
ghost use Rattle.base_page.specs.declared.items.TheConstants.{MAX_ITEMS};
ghost use Rattle.deltas.specs.declared.record.Record.{Record};
ghost use Rattle.deltas.specs.Records.{content_said, names};
ghost use Rattle.record_slots.specs.Parts.{items_of};
ghost use Rattle.traces.specs.chain.Chains.{content_in, IsItemsOf};
ghost use Rattle.traces.specs.chain.Fitted.{IsFitted};
ghost use Rattle.row_chain.specs.Walks.{bound_under, count_under};
ghost use Rattle.row_chain.specs.Placed.{IsReadChain, contents};

use super::search::newest_of;
use crate::Chain;
use row_search::{KeyWords, RowAt, Rows};
use std::alloc::Allocator;

impl<R: Rows, A: Allocator> Chain<R, A> {
    /// A number that the chain's items don't exceed, by the first words of its records alone: nothing is looked at. Each record adds as
    /// many items as it has, or one.
    pub fn most_items(&self) -> usize
        requires { 0 < length self.now.records }
        ensures { (items : List Item) → IsItemsOf self.now.records items → length items ≤ result }
    {
        self.keeps_rules();
        let records = self.part.as_slice();
        let mut most = 0;
        for place in 0..records.len() {
            most += records[place].item_count().max(1);
        }
        most
    }

    /// How many items the chain has. Its page isn't built: each record, from the newest on, adds items to those under it or takes one
    /// away, and a split leaves only those below its separator.
    pub fn item_count(&self, rows: &R, pass: &mut R::Pass) -> usize
        requires read { IsReadChain (R.has rows.now pass.old) self.now }
        ensures same { pass.new ≡ pass.old }
        ensures count { (items : List Item) → IsItemsOf self.now.records items → result ≡ length items }
    {
        self.was_read(rows, pass);
        self.keeps_rules();
        let records = self.as_read(rows, pass);
        let mut bound = None;
        let mut more = 0;
        let mut fewer = 0;
        for place in 0..records.len() {
            let newest = &records[place];
            let (came, went) = change(newest, &records[place + 1..], rows, pass, bound.as_ref());
            more += came;
            fewer += went;
            bound = bound_under(newest, rows, pass, bound);
        }
        more - fewer
    }
}

/// How many items below the bound the record adds to those under it, and how many it takes away.
fn change<R: Rows>(
    row: &RowAt<R>,
    older: &[RowAt<R>],
    rows: &R,
    pass: &mut R::Pass,
    bound: Option<&KeyWords>,
) -> (usize, usize)
    requires here { R.has rows.now pass.old row.now.row row.now.content }
    requires fitted { IsFitted (row.now.content ∷ contents older.now) }
    requires read { All (λ placed. R.has rows.now pass.old placed.row placed.content) older.now }
    ensures same { pass.new ≡ pass.old }
    ensures change { (items rest : List Item)
        → IsItemsOf (row.now.content ∷ contents older.now) items
        → IsItemsOf (contents older.now) rest
        → count_under (option_copied bound.entry) items + result.1
        ≡ count_under (bound_under row.now.content (option_copied bound.entry)) rest + result.0 }
    ensures more { result.0 ≤ MAX_ITEMS }
    ensures fewer { result.1 ≤ 1 }
{
    match row.one_key(rows, pass) {
        None => (items_under(row, rows, pass, bound), 0),
        Some((key, is_there)) => change_at(&key, is_there, older, rows, pass, bound),
    }
}

/// The change that a record makes which names one key, by whether it gives the key an item.
fn change_at<R: Rows>(
    key: &KeyWords,
    is_there: bool,
    older: &[RowAt<R>],
    rows: &R,
    pass: &mut R::Pass,
    bound: Option<&KeyWords>,
) -> (usize, usize)
    requires read { All (λ placed. R.has rows.now pass.old placed.row placed.content) older.now }
    ensures same { pass.new ≡ pass.old }
    ensures change { (newest : Record) (items rest : List Item)
        → ((q : List ℕ) → names newest q ≡ is_eq (key_cmp q key.now))
        → is_some (content_said newest key.now) ≡ is_there
        → IsItemsOf (newest ∷ contents older.now) items
        → IsItemsOf (contents older.now) rest
        → count_under (option_copied bound.entry) items + result.1
        ≡ count_under (option_copied bound.entry) rest + result.0 }
    ensures more { result.0 ≤ 1 }
    ensures fewer { result.1 ≤ 1 }
{
    if !is_under(key, bound) {
        return (0, 0);
    }
    match (has_item(older, rows, pass, key), is_there) {
        (false, true) => (1, 0),
        (true, false) => (0, 1),
        _ => (0, 0),
    }
}

/// Whether the records have an item at the key.
fn has_item<R: Rows>(older: &[RowAt<R>], rows: &R, pass: &mut R::Pass, key: &KeyWords) -> bool
    requires read { All (λ placed. R.has rows.now pass.old placed.row placed.content) older.now }
    ensures same { pass.new ≡ pass.old }
    ensures has { result ≡ is_some (content_in (contents older.now) key.now) }
{
    match newest_of(older, rows, pass, key) {
        Some(newest) => newest.says_content(rows, pass, key),
        None => false,
    }
}

/// The bound of what is under the record: a split's separator, where it is below the bound.
fn bound_under<R: Rows>(
    row: &RowAt<R>,
    rows: &R,
    pass: &mut R::Pass,
    bound: Option<KeyWords>,
) -> Option<KeyWords>
    requires here { R.has rows.now pass.old row.now.row row.now.content }
    ensures same { pass.new ≡ pass.old }
    ensures bound { result ≡ bound_under row.now.content bound }
{
    match row.split_at(rows, pass) {
        Some(separator) if is_under(&separator, bound.as_ref()) => Some(separator),
        _ => bound,
    }
}

/// Whether the key is below the bound, as each key is where there is none.
fn is_under(key: &KeyWords, bound: Option<&KeyWords>) -> bool
    ensures { result ≡ is_under key.now (option_copied bound.entry) }
{
    match bound {
        None => true,
        Some(bound) => key.compare(bound).is_lt(),
    }
}

/// How many of the record's items are below the bound.
fn items_under<R: Rows>(
    row: &RowAt<R>,
    rows: &R,
    pass: &mut R::Pass,
    bound: Option<&KeyWords>,
) -> usize
    requires here { R.has rows.now pass.old row.now.row row.now.content }
    ensures same { pass.new ≡ pass.old }
    ensures count { result ≡ count_under (option_copied bound.entry) (items_of row.now.content) }
    ensures few { result ≤ MAX_ITEMS }
{
    match bound {
        None => row.item_count(),
        Some(bound) => row.items_below(rows, pass, bound),
    }
}
