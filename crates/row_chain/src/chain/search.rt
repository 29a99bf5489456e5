//! What a chain decides for a key.
ghost use Rattle.std.specs.Prelude.{◌≡◌, ◌<◌, ◌++◌, List, IsSome, IsTrue, MatchOption, not, is_some, ⊤, true};
ghost use Rattle.std.specs.List.{All};
ghost use Rattle.bw_model.specs.Bytes.{is_below, is_under};
ghost use Rattle.base_page.specs.Pages.{value_in};
ghost use Rattle.base_page.specs.Places.{IsGreatestChild, HasNoChild};
ghost use Rattle.deltas.specs.declared.record.Record.{Record};
ghost use Rattle.deltas.specs.Records.{content_said};
ghost use Rattle.traces.specs.chain.Chains.{content_in, covers, high_in, level_in, low_in};
ghost use Rattle.row_chain.specs.Walks.{is_named};
ghost use Rattle.row_chain.specs.Placed.{IsReadChain, contents};

use super::walk::inside_base;
use crate::Chain;
use base_page::Content;
use bw_model::Value;
use row_search::{KeyWords, RowAt, Rows};
use std::alloc::Allocator;

impl<R: Rows, A: Allocator> Chain<R, A> {
    /// What the page has at the key: the newest record that names the key says it.
    pub fn content(&self, rows: &R, pass: &mut R::Pass, key: &KeyWords) -> Option<Content>
        requires read { IsReadChain (R.has rows.now pass.old) self.now }
        ensures same { pass.new ≡ pass.old }
        ensures content { result ≡ content_in self.now.records key.now }
    {
        match newest_of(self.as_read(rows, pass), rows, pass, key) {
            Some(newest) => newest.content_said(rows, pass, key),
            None => None,
        }
    }

    /// The value of the key, which the newest record that names it says; an index page has none.
    pub fn find(&self, rows: &R, pass: &mut R::Pass, key: &KeyWords) -> Option<Value>
        requires read { IsReadChain (R.has rows.now pass.old) self.now }
        ensures same { pass.new ≡ pass.old }
        ensures value { result ≡ value_in (content_in self.now.records key.now) }
    {
        match newest_of(self.as_read(rows, pass), rows, pass, key) {
            Some(newest) => newest.value_said(rows, pass, key),
            None => None,
        }
    }

    /// The child of the greatest term at or below the key, or none.
    pub fn child_of(&self, rows: &R, pass: &mut R::Pass, key: &KeyWords) -> Option<u32>
        requires read { IsReadChain (R.has rows.now pass.old) self.now }
        ensures same { pass.new ≡ pass.old }
        ensures child { MatchOption result
            (HasNoChild (content_in self.now.records) (λ q. not (is_below key.now q)))
            (IsGreatestChild (content_in self.now.records) (λ q. not (is_below key.now q))) }
        ensures index { 0 < level_in self.now.records → IsTrue (covers self.now.records key.now) → IsSome result }
    {
        self.was_read(rows, pass);
        self.keeps_rules();
        self.greatest_child(rows, pass, key, false)
    }

    /// The child of the greatest term at or below the key, of an index page without deltas that ends above the key; none of another page. Most pages have
    /// a term above the key, and then the end isn't looked at. Inlined, as what it calls: a round calls it for every page.
    #[inline(always)]
    pub fn child_inside(&self, rows: &R, pass: &mut R::Pass, key: &KeyWords) -> Option<u32>
        requires read { IsReadChain (R.has rows.now pass.old) self.now }
        ensures same { pass.new ≡ pass.old }
        ensures child { MatchOption result ⊤ (IsGreatestChild (content_in self.now.records) (λ q. not (is_below key.now q))) }
        ensures ends { IsSome result → is_under key.now (high_in self.now.records) ≡ true }
        ensures index { IsSome result → 0 < level_in self.now.records }
    {
        self.was_read(rows, pass);
        self.keeps_rules();
        if self.level() == 0 {
            return None;
        }
        let records = self.as_read(rows, pass);
        if records.len() > 1 {
            return None;
        }
        inside_base(&records[0], rows, pass, key)
    }

    /// The child of the greatest term below the key, or none.
    pub fn child_below(&self, rows: &R, pass: &mut R::Pass, key: &KeyWords) -> Option<u32>
        requires read { IsReadChain (R.has rows.now pass.old) self.now }
        ensures same { pass.new ≡ pass.old }
        ensures child { MatchOption result
            (HasNoChild (content_in self.now.records) (λ q. is_below q key.now))
            (IsGreatestChild (content_in self.now.records) (λ q. is_below q key.now)) }
        ensures index { 0 < level_in self.now.records → IsTrue (is_below (low_in self.now.records) key.now) → IsSome result }
    {
        self.was_read(rows, pass);
        self.keeps_rules();
        self.greatest_child(rows, pass, key, true)
    }
}

/// The newest of the records that names the key, or none.
pub(super) fn newest_of<'a, R: Rows>(
    records: &'a [RowAt<R>],
    rows: &R,
    pass: &mut R::Pass,
    key: &KeyWords,
) -> Option<&'a RowAt<R>>
    requires read { All (λ placed. R.has rows.now pass.old placed.row placed.content) records.now }
    ensures same { pass.new ≡ pass.old }
    ensures said { (under : List Record) → MatchOption result
        (content_in (contents records.now ++ under) key.now ≡ content_in under key.now)
        (λ newest. content_in (contents records.now ++ under) key.now ≡ content_said newest.now.content key.now) }
    ensures named { is_some result ≡ is_named (contents records.now) key.now }
    ensures there { MatchOption result ⊤ (λ newest. R.has rows.now pass.old newest.now.row newest.now.content) }
{
    for newest in records {
        if newest.names(rows, pass, key) {
            return Some(newest);
        }
    }
    None
}
