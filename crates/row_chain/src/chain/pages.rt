//! The page that a chain makes.
ghost use Rattle.std.specs.Prelude.{◌≡◌, ◌+◌, ◌∷◌, [], ℕ, false, length, slice_index_or};
ghost use Rattle.base_page.specs.Rules.{IsRuled};
ghost use Rattle.deltas.specs.Applies.{Applies};
ghost use Rattle.deltas.specs.Fits.{FitsOnPage};
ghost use Rattle.deltas.specs.declared.record.Record.{Record};
ghost use Rattle.deltas.specs.declared.record.Record.TheVariants.{Base};
ghost use Rattle.traces.specs.chain.Chains.{is_removed, low_in};
ghost use Rattle.traces.specs.discipline.Discipline.{base_from};
ghost use Rattle.traces.specs.chain.Fitted.{IsPageChain, Makes};
ghost use Rattle.row_chain.specs.Placed.{IsReadChain};

use crate::Chain;
use base_page::Page;
use deltas::apply;
use row_search::{RowAt, Rows};
use std::alloc::Allocator;

impl<R: Rows, A: Allocator> Chain<R, A> {
    /// The page that the chain makes.
    #[inline(never)]
    pub fn page(&self, rows: &R, pass: &mut R::Pass) -> Page
        requires read { IsReadChain (R.has rows.now pass.old) self.now }
        ensures same { pass.new ≡ pass.old }
        ensures makes { Makes self.now.records result }
        ensures ruled { IsRuled result }
    {
        let mut page = Page::empty_leaf();
        self.page_in(rows, pass, &mut page);
        page
    }

    /// Makes the page the one that the chain makes, where it lies: the base, and then each delta, from the oldest on, over what is under it.
    pub fn page_in(&self, rows: &R, pass: &mut R::Pass, page: &mut Page)
        requires read { IsReadChain (R.has rows.now pass.old) self.now }
        ensures same { pass.new ≡ pass.old }
        ensures makes { Makes self.now.records page.new }
        ensures ruled { IsRuled page.new }
    {
        self.was_read(rows, pass);
        self.keeps_rules();
        let records = self.as_read(rows, pass);
        self.base_in(rows, pass, page);
        for place in (0..self.deltas()).rev() {
            change(page, &records[place], rows, pass);
        }
    }

    /// Makes the page the one that may stand as a base in the chain's place, where it lies.
    pub fn consolidated(&self, rows: &R, pass: &mut R::Pass, page: &mut Page)
        requires read { IsReadChain (R.has rows.now pass.old) self.now }
        requires alive { is_removed self.now.records ≡ false }
        ensures same { pass.new ≡ pass.old }
        ensures makes { Makes self.now.records page.new }
        ensures alive { page.new.removed ≡ false }
        ensures base { Base page.new ≡ base_from self.now.records (low_in self.now.records) page.new.items }
        ensures stands { IsPageChain (Base page.new ∷ []) }
    {
        self.was_read(rows, pass);
        self.keeps_rules();
        self.page_in(rows, pass, page);
    }

    /// Makes the page that of the base.
    fn base_in(&self, rows: &R, pass: &mut R::Pass, page: &mut Page)
        requires read { IsReadChain (R.has rows.now pass.old) self.now }
        ensures same { pass.new ≡ pass.old }
        ensures base { (d : Record) (place : ℕ) → place + 1 ≡ length self.now.records → slice_index_or self.now.records place d ≡ Base page.new }
    {
        self.was_read(rows, pass);
        self.keeps_rules();
        self.as_read(rows, pass)[self.deltas()].base_in(rows, pass, page);
    }
}

/// Makes of the page what the row's record makes of it. Of a put, a delete and a split, which most are, no more is decoded than they have.
fn change<R: Rows>(page: &mut Page, row: &RowAt<R>, rows: &R, pass: &mut R::Pass)
    requires read { R.has rows.now pass.old row.now.row row.now.content }
    requires fits { FitsOnPage page.old row.now.content }
    ensures same { pass.new ≡ pass.old }
    ensures applies { Applies page.old row.now.content page.new }
{
    if let Some(put) = row.put(rows, pass) {
        put.apply(page);
        return;
    }
    change_unless_put(page, row, rows, pass);
}

/// Makes of the page what a record that is no put makes of it. Not inlined: a put needs no room for what is decoded here.
#[inline(never)]
fn change_unless_put<R: Rows>(page: &mut Page, row: &RowAt<R>, rows: &R, pass: &mut R::Pass)
    requires read { R.has rows.now pass.old row.now.row row.now.content }
    requires fits { FitsOnPage page.old row.now.content }
    ensures same { pass.new ≡ pass.old }
    ensures applies { Applies page.old row.now.content page.new }
{
    if let Some(delete) = row.delete(rows, pass) {
        delete.apply(page);
        return;
    }
    change_in_structure(page, row, rows, pass);
}

/// Makes of the page what a record makes of it that is no put and no delete. Not inlined: a delete needs no room for a split.
#[inline(never)]
fn change_in_structure<R: Rows>(page: &mut Page, row: &RowAt<R>, rows: &R, pass: &mut R::Pass)
    requires read { R.has rows.now pass.old row.now.row row.now.content }
    requires fits { FitsOnPage page.old row.now.content }
    ensures same { pass.new ≡ pass.old }
    ensures applies { Applies page.old row.now.content page.new }
{
    if let Some(split) = row.split(rows, pass) {
        split.apply(page);
        return;
    }
    change_decoded(page, row, rows, pass);
}

/// Makes of the page what the whole record makes of it, decoded.
#[inline(never)]
fn change_decoded<R: Rows>(page: &mut Page, row: &RowAt<R>, rows: &R, pass: &mut R::Pass)
    requires read { R.has rows.now pass.old row.now.row row.now.content }
    requires fits { FitsOnPage page.old row.now.content }
    ensures same { pass.new ≡ pass.old }
    ensures applies { Applies page.old row.now.content page.new }
{
    apply(page, &row.record(rows, pass));
}
