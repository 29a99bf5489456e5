//! One page as it stands.
ghost use Rattle.std.specs.Prelude.{◌≡◌, ◌<◌, List, IfOk};
ghost use Rattle.deltas.specs.declared.record.Record.{Record as RecordSeen};
ghost use Rattle.traces.specs.chain.Chains.{right_in};
ghost use Rattle.traces.specs.chain.Fitted.{IsPageChain, Makes};
ghost use Rattle.core_memory.specs.Tables.{memory_in};
ghost use Rattle.listing.specs.Listed.{StandsAt};
ghost use Rattle.tree_picture.specs.Levels.{low_child};

use base_page::Page;
use core_memory::CoreTable;
use deltas::Record;
use listing::{page_of, rows_of};
use std::alloc::{AllocError, Allocator, Global};
use std::marker::Model;

/// A page by its PID: the records of its chain, the newest first, and the page that they make.
pub struct ScenePage<A: Allocator = Global> {
    pid: u32,
    row: u32,
    records: Vec<Record, A>,
    page: Page,
}

impl<A: Allocator> Drop for ScenePage<A> {
    fn drop(self) {
        let ScenePage {
            pid: _,
            row: _,
            records: _,
            page: _,
        } = self;
    }
}

impl<A: Allocator> Model for ScenePage<A> {
    ghost use Rattle.traces.specs.chain.Fitted.{IsPageChain, Makes};
    ghost use Rattle.traces.specs.chain.SideChain.{LivePage};

    ghost Value = { LivePage };

    ghost view = { λ p. record { pid = p.pid; chain = p.records.items } };

    ghost invariant = { λ p. Makes p.records.items p.page × IsPageChain p.records.items };
}

impl<A: Allocator> ScenePage<A> {
    /// Its PID.
    pub fn pid(&self) -> u32
        ensures { result ≡ self.now.pid }
    {
        self.pid
    }

    /// The row of the newest one of its records.
    pub fn row(&self) -> u32 {
        self.row
    }

    /// The records of its chain, the newest first, the base last.
    pub fn records(&self) -> &[Record]
        ensures chain { result.now ≡ self.now.chain }
        ensures fits { IsPageChain result.now }
    {
        self.records.as_slice()
    }

    /// The page that the chain makes.
    pub fn page(&self) -> &Page
        ensures { Makes self.now.chain result.now }
    {
        &self.page
    }

    /// The PID of the next page to the right, or none.
    pub(crate) fn right(&self) -> Option<u32>
        ensures { result ≡ right_in self.now.chain }
    {
        self.page.right()
    }

    /// The child of its low key, or none.
    pub(crate) fn low_child(&self) -> Option<u32>
        ensures { result ≡ low_child self.now.chain }
    {
        self.page.items().child_at(self.page.low())
    }
}

/// A page that stands in a table.
pub(crate) fn page_at<A: Allocator, B: Allocator>(
    alloc: B,
    table: &CoreTable<A>,
    pid: u32,
) -> Result<ScenePage<B>, AllocError>
    requires there { pid < table.now.limits.pids }
    requires stands { (chain : List RecordSeen) × StandsAt (memory_in table.now) pid chain }
    ensures pid { IfOk result (λ page. page.pid ≡ pid) }
    ensures chain { IfOk result (λ page. (chain : List RecordSeen) → StandsAt (memory_in table.now) pid chain → page.chain ≡ chain) }
{
    let page = page_of(table, pid);
    let records = records_at(alloc, table, pid)?;
    let row = table.slot(pid);
    Ok(ScenePage {
        pid,
        row,
        records,
        page,
    })
}

/// The records of a page's chain, the newest first.
fn records_at<A: Allocator, B: Allocator>(
    alloc: B,
    table: &CoreTable<A>,
    pid: u32,
) -> Result<Vec<Record, B>, AllocError>
    requires there { pid < table.now.limits.pids }
    requires stands { (chain : List RecordSeen) × StandsAt (memory_in table.now) pid chain }
    ensures { IfOk result (λ records. (chain : List RecordSeen) → StandsAt (memory_in table.now) pid chain → records.items ≡ chain) }
{
    let rows = rows_of(table, pid);
    let mut records = Vec::new(alloc);
    for place in 0..rows.len() {
        let Some(record) = table.record(rows[place]) else {
            unreachable!()
        };
        records.push(record)?;
    }
    Ok(records)
}
