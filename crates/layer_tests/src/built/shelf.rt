//! Pages by hand where their records lie.
ghost use Rattle.std.specs.Prelude.{◌≡◌, [], IfSome, IsTrue, Some, option_copied};
ghost use Rattle.deltas.specs.declared.record.Record.{Record};
ghost use Rattle.layer_tests.specs.Held.{ShareNoRow, HasRowsOf, found_in, page_record};
ghost use Rattle.structure_changes.specs.Reads.{IsReadPage, chain_of};
ghost use Rattle.traces.specs.chain.Chains.{IsChainFrom};

use crate::built::Held;
use deltas::Record;
use record_slots::to_words;
use row_chain::ChainPart;
use row_search::{RowAt, Rows};
use std::marker::{Model, PhantomData};
use std::process::Abort;
use structure_changes::PageInHand;

/// Three pages, whose rows are looked at: the first page that has a row tells what stands there.
#[derive(Drop)]
pub(crate) struct Shelf<'a> {
    one: &'a Held,
    other: &'a Held,
    third: &'a Held,
}

impl<'a> Model for Shelf<'a> {
    ghost use Rattle.layer_tests.specs.Held.{ThreePages};

    ghost Value = { ThreePages };

    ghost view = { λ s. record { one = s.one.now; other = s.other.now; third = s.third.now } };
}

/// The rows of a shelf.
#[derive(Drop)]
pub(crate) struct HeldRows<'a> {
    of: PhantomData<&'a Held>,
}

impl<'a> HeldRows<'a> {
    /// The rows of any shelf.
    pub(crate) fn new() -> HeldRows<'a> {
        HeldRows { of: PhantomData }
    }
}

impl<'a> Rows for HeldRows<'a> {
    ghost use Rattle.std.specs.Prelude.{◌≡◌, Some, unwrap_or};
    ghost use Rattle.deltas.specs.declared.record.Record.TheVariants.{Remove};
    ghost use Rattle.layer_tests.specs.Held.{found_in};

    type Pass = Shelf<'a>;

    type Place = u32;

    ghost content = { λ shelf row. unwrap_or (found_in shelf row) (Remove (record { level = 0; next = 1 })) };

    ghost has = { λ rows shelf row content. found_in shelf row ≡ Some content };

    ghost lies = { λ rows shelf row content. found_in shelf row ≡ Some content };

    fn place(&self, pass: &Shelf<'a>, row: u32, first: u64) -> u32 {
        let _ = pass;
        let _ = first;
        row
    }

    fn look(&self, pass: &mut Shelf<'a>, place: u32, at: usize) -> u64 {
        match pass.found_in(place) {
            None => 0,
            Some(record) => to_words(record)[at],
        }
    }
}

/// A page of a shelf, as it was read.
pub(crate) struct Read<'a> {
    pub(crate) page: PageInHand<HeldRows<'a>>,
}

// A derived one would be proved anew at each exit of each function that reads a page.
impl<'a> Drop for Read<'a> {
    fn drop(self) {
        let Read { page: _ } = self;
    }
}

impl<'a> Shelf<'a> {
    /// One page alone.
    pub(crate) fn of_one(page: &'a Held) -> Shelf<'a>
        ensures { HasRowsOf result page.now }
    {
        Shelf {
            one: page,
            other: page,
            third: page,
        }
    }

    /// Two pages; none where a row is one of both.
    pub(crate) fn of_two(one: &'a Held, other: &'a Held) -> Option<Shelf<'a>>
        ensures { IfSome result (λ shelf. HasRowsOf shelf one.now × HasRowsOf shelf other.now) }
    {
        if !are_apart(one, other) {
            return None;
        }
        Some(Shelf {
            one,
            other,
            third: other,
        })
    }

    /// Three pages; none where a row is one of two.
    pub(crate) fn of_three(one: &'a Held, other: &'a Held, third: &'a Held) -> Option<Shelf<'a>>
        ensures { IfSome result (λ shelf. HasRowsOf shelf one.now × HasRowsOf shelf other.now × HasRowsOf shelf third.now) }
    {
        if !are_apart(one, other) || !are_apart(one, third) || !are_apart(other, third) {
            return None;
        }
        Some(Shelf { one, other, third })
    }

    /// What stands in the row.
    fn found_in(&self, row: u32) -> Option<&Record>
        ensures { option_copied result ≡ found_in self.now row }
    {
        if let Some(record) = self.one.record_in(row) {
            return Some(record);
        }
        if let Some(record) = self.other.record_in(row) {
            return Some(record);
        }
        self.third.record_in(row)
    }

    /// The page of this shelf, as it was read.
    pub(crate) fn read<R: Abort + AllocGlobal>(&self, rt: &R, page: &Held) -> Read<'a>
        requires { HasRowsOf self.now page.now }
        ensures chain { chain_of result.page ≡ chain_of page.now }
        ensures read { IsReadPage (λ row content. found_in self.now row ≡ Some content) result.page }
    {
        let page = self.tried(rt, page).expect(rt, "rows in order");
        Read { page }
    }

    /// The page of this shelf, as it was read; none where its records don't name the rows in which they stand.
    fn tried<R: Abort + AllocGlobal>(&self, rt: &R, page: &Held) -> Option<PageInHand<HeldRows<'a>>>
        requires { HasRowsOf self.now page.now }
        ensures { IfSome result (λ read. (chain_of read ≡ chain_of page.now) × IsReadPage (λ row content. found_in self.now row ≡ Some content) read) }
    {
        page.keeps_rules();
        let mut part = ChainPart::<HeldRows<'a>>::new(rt.alloc()).expect(rt, "memory for records");
        part.restart(page.head());
        if !self.fill(page, &mut part) {
            return None;
        }
        let mut read = PageInHand::<HeldRows<'a>>::new(rt.alloc()).expect(rt, "memory for a page");
        read.receive(page.pid(), &mut part);
        Some(read)
    }

    /// The part gets the page's records, up to one that doesn't name the row before its own; whether all came.
    fn fill(&self, page: &Held, part: &mut ChainPart<HeldRows<'a>>) -> bool
        requires stands { HasRowsOf self.now page.now }
        requires none { part.old ≡ record { head = page.now.head; records = [] } }
        ensures part { IsTrue result → part.new ≡ chain_of page.now }
        ensures read { IsTrue result → IsChainFrom (page_record page.now) page.now.head page.now.chain }
    {
        let mut row = page.head();
        let mut whole = false;
        for record in page.records.as_slice() {
            if whole {
                return false;
            }
            part.push(RowAt::of(row, to_words(record)[0], self));
            match record.next() {
                None => whole = true,
                Some(next) => {
                    if u64::from(next) + 1 != u64::from(row) {
                        return false;
                    }
                    row = next;
                }
            }
        }
        whole
    }
}

/// Whether no row is one of both pages.
fn are_apart(one: &Held, other: &Held) -> bool
    ensures { IsTrue result → ShareNoRow one.now other.now }
{
    let ends_before = one.head() as usize + other.records.len() <= other.head() as usize;
    let begins_after = other.head() as usize + one.records.len() <= one.head() as usize;
    ends_before || begins_after
}
