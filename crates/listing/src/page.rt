//! A page as it stands.
ghost use Rattle.std.specs.Prelude.{◌≡◌, ◌<◌, List, Some};
ghost use Rattle.base_page.specs.Pages.{Page as PageOf};
ghost use Rattle.base_page.specs.Rules.{IsRuled};
ghost use Rattle.deltas.specs.Memory.{Memory};
ghost use Rattle.deltas.specs.declared.record.Record.{Record};
ghost use Rattle.deltas.specs.declared.record.Record.TheVariants.{Base};
ghost use Rattle.traces.specs.chain.Chains.{chain_rows};
ghost use Rattle.traces.specs.chain.Fitted.{Makes};
ghost use Rattle.listing.specs.Listed.{StandsAt};

use arrayvec::ArrayVec;
use base_page::Page;
use deltas::{Record, RecordRows, apply};
use row_chain::MAX_RECORDS;

/// The page that the chain of a PID makes: the base, changed by each delta from the oldest on.
pub fn page_of<M: RecordRows>(rows: &M, pid: u32) -> Page
    requires there { pid < M.pids rows.now }
    requires stands { (memory : Memory) × (chain : List Record) × M.has rows.now memory × StandsAt memory pid chain }
    ensures makes { (memory : Memory) (chain : List Record) → M.has rows.now memory → StandsAt memory pid chain → Makes chain result }
    ensures ruled { IsRuled result }
{
    let chain = rows_of(rows, pid);
    let base = chain.len() - 1;
    let mut page = base_at(rows, chain[base]);
    for place in (0..base).rev() {
        apply(&mut page, &rows.record(chain[place]));
    }
    page
}

/// The rows of a page's chain, the newest record's first and the base's last.
pub fn rows_of<M: RecordRows>(rows: &M, pid: u32) -> ArrayVec<u32, MAX_RECORDS>
    requires there { pid < M.pids rows.now }
    requires stands { (memory : Memory) × (chain : List Record) × M.has rows.now memory × StandsAt memory pid chain }
    ensures { (memory : Memory) (chain : List Record) → M.has rows.now memory → StandsAt memory pid chain → result.items ≡ chain_rows (memory.slots pid) chain }
{
    let mut chain = ArrayVec::new();
    let mut row = rows.slot(pid);
    for _ in 0..MAX_RECORDS {
        chain.push(row);
        match rows.record(row).next() {
            Some(below) => row = below,
            None => return chain,
        }
    }
    unreachable!()
}

/// The page of the base in a row.
fn base_at<M: RecordRows>(rows: &M, row: u32) -> Page
    requires { (memory : Memory) × (page : PageOf) × M.has rows.now memory × (memory.rows row ≡ Some (Base page)) }
    ensures { (memory : Memory) → M.has rows.now memory → memory.rows row ≡ Some (Base result) }
{
    match rows.record(row) {
        Record::Base(page) => page,
        _ => unreachable!(),
    }
}
