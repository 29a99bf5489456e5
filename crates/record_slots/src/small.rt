//! Records whose numbers are those of a tree of at most 4,096 PIDs and 16,384 rows.
ghost use Rattle.std.specs.Prelude.{◌≡◌};
ghost use Rattle.record_slots.specs.Small.{are_low_items, is_low_content, is_low_pid, is_low_right, is_low_row, is_small};

use base_page::{Content, Item};
use deltas::Record;

/// How many PIDs there are at most.
const PIDS: u32 = 4096;

/// How many rows there are at most.
const ROWS: u32 = 16384;

/// Whether the record names no PID and no row past these.
#[inline(never)]
pub(crate) fn is_small(content: &Record) -> bool
    ensures { result ≡ is_small content.now }
{
    match content {
        Record::Base(page) => is_low_right(page.right()) && are_low_items(page.items().as_slice()),
        Record::Put(put) => is_low_row(put.next),
        Record::Delete(delete) => is_low_row(delete.next),
        Record::Split(split) => is_low_row(split.next) && is_low_pid(split.page),
        Record::Term(term) => is_low_row(term.next) && is_low_pid(term.child),
        Record::Hold(hold) => is_low_row(hold.next) && is_low_pid(hold.child),
        Record::Remove(remove) => is_low_row(remove.next),
        Record::Merge(merge) => {
            is_low_row(merge.next)
                && is_low_right(merge.right)
                && are_low_items(merge.items.as_slice())
        }
        Record::Unterm(unterm) => is_low_row(unterm.next) && is_low_pid(unterm.child),
    }
}

fn is_low_pid(pid: u32) -> bool
    ensures { result ≡ is_low_pid pid }
{
    pid < PIDS
}

fn is_low_row(row: u32) -> bool
    ensures { result ≡ is_low_row row }
{
    row < ROWS
}

fn is_low_right(right: Option<u32>) -> bool
    ensures { result ≡ is_low_right right }
{
    match right {
        None => true,
        Some(pid) => is_low_pid(pid),
    }
}

fn is_low_content(content: &Content) -> bool
    ensures { result ≡ is_low_content content.now }
{
    match content {
        Content::Value(_) => true,
        Content::Child { page, .. } => is_low_pid(*page),
    }
}

fn are_low_items(items: &[Item]) -> bool
    ensures { result ≡ are_low_items items.now }
{
    items.iter().all(|item| is_low_content(&item.content))
}
