//! Pages that are put together record by record.
ghost use Rattle.std.specs.Prelude.{◌≡◌, ◌≤◌, ◌+◌, ◌∷◌, [], ◌++◌, length, option_copied};
ghost use Rattle.deltas.specs.Spellable.{IsPid, IsRow};
ghost use Rattle.deltas.specs.declared.record.Record.TheVariants.{Base};
ghost use Rattle.traces.specs.chain.Fitted.{FitsOver, IsPageChain};
ghost use Rattle.layer_tests.specs.Held.{page_record};

mod asked;
mod planned;
mod shelf;

pub(crate) use asked::{consolidated, low, takes_delete};
use base_page::Page;
use deltas::Record;
pub(crate) use planned::{
    hold, merge, merge_into_itself, remove, root, split, term, unterm, unterm_beside_itself,
};
use std::marker::Model;
use std::process::Abort;
use structure_changes::Name;

/// A page by hand. Its newest record stands in its head, and each other one in the row before.
pub(crate) struct Held {
    name: Name,
    records: Vec<Record>,
}

// A derived one would be proved anew at each exit of each function that has a page.
impl Drop for Held {
    fn drop(self) {
        let Held {
            name: _,
            records: _,
        } = self;
    }
}

impl Model for Held {
    ghost use Rattle.structure_changes.specs.Versions.{Version};
    ghost use Rattle.traces.specs.chain.Fitted.{IsPageChain};

    ghost Value = { Version };

    ghost view = { λ p. record { pid = p.name.pid; head = p.name.head; chain = p.records.items; is_pid = p.name.is_pid; is_row = p.name.is_row } };

    ghost invariant = { λ p. IsPageChain p.records.items };
}

impl Held {
    /// The page's PID.
    pub(crate) fn pid(&self) -> u32
        ensures { result ≡ self.now.pid }
    {
        self.name.pid
    }

    /// The row of its newest record.
    pub(crate) fn head(&self) -> u32
        ensures { result ≡ self.now.head }
    {
        self.name.head
    }

    /// Shows that its records are a page's chain, at no cost.
    pub(crate) fn keeps_rules(&self)
        ensures { IsPageChain self.now.chain }
    {
        let _ = &self.records;
    }

    /// The page's record in the row.
    fn record_in(&self, row: u32) -> Option<&Record>
        ensures { option_copied result ≡ page_record self.now row }
    {
        if row > self.name.head {
            return None;
        }
        self.records.get((self.name.head - row) as usize)
    }
}

/// The records get these too.
fn copy_all<R: Abort>(rt: &R, records: &mut Vec<Record>, more: &[Record])
    ensures { records.new.items ≡ records.old.items ++ more.now }
{
    for record in more {
        records
            .push(record.copied())
            .expect(rt, "memory for a record");
    }
}

/// The page of these deltas over the base, whose newest record stands in this row.
pub(crate) fn page<R: Abort + AllocGlobal>(
    rt: &R,
    pid: u32,
    head: u32,
    deltas: &[Record],
    base: Page,
) -> Held
    requires pid { IsPid pid }
    requires head { IsRow head }
    requires chain { IsPageChain (deltas.now ++ Base base ∷ []) }
    ensures pid { result.pid ≡ pid }
    ensures chain { result.chain ≡ deltas.now ++ Base base ∷ [] }
{
    let mut records = Vec::new(rt.alloc());
    copy_all(rt, &mut records, deltas);
    records
        .push(Record::Base(base))
        .expect(rt, "memory for a record");
    Held {
        name: Name { pid, head },
        records,
    }
}

/// The page gets one delta more, in the row after its head.
pub(crate) fn grow<R: Abort + AllocGlobal>(rt: &R, page: &mut Held, newest: Record)
    requires over { FitsOver page.old.chain newest × (length page.old.chain ≤ 12) }
    ensures pid { page.new.pid ≡ page.old.pid }
    ensures chain { page.new.chain ≡ newest ∷ page.old.chain }
{
    let head = above(rt, page.head());
    let mut records = Vec::new(rt.alloc());
    records.push(newest).expect(rt, "memory for a record");
    copy_all(rt, &mut records, page.records.as_slice());
    *page = Held {
        name: Name {
            pid: page.pid(),
            head,
        },
        records,
    };
}

/// The row after this one.
fn above<R: Abort>(rt: &R, row: u32) -> u32
    ensures { IsRow result }
{
    let above = row.saturating_add(1);
    assert!(rt; above < 67108864, "{row}");
    above
}
