//! What a change is to link.
ghost use Rattle.std.specs.Prelude.{◌≡◌};
ghost use Rattle.structure_changes.specs.declared.plan.Plan.TheVariants.{Install};
ghost use Rattle.structure_changes.specs.Plans.{cleared_page, cleared_row, clears, head_of, needs_pid, new_base, new_record, over, rows_needed, slot_of};

use crate::{PageInHand, SplitPlan, UpdateRecord};
use base_page::Page;
use deltas::{Record, Unterm};
use row_search::Rows;
use std::alloc::Allocator;

/// What is to be linked, and where.
#[derive(Drop)]
pub enum Plan {
    /// A record over the row `head` of the page `pid`.
    Install {
        pid: u32,
        head: u32,
        content: Record,
    },
    /// The split of the page `pid`, with the upper part as a new page.
    Split {
        pid: u32,
        plan: SplitPlan,
    },
    /// A root over the page `left`, which is the root.
    Root {
        left: u32,
        root: Page,
    },
    /// The unterm of a removed page over the row `head` of its parent `pid`; then the removed page is cleared: its slot goes from the
    /// row `removal` to 0.
    Unlink {
        pid: u32,
        head: u32,
        unterm: Unterm,
        removal: u32,
    },
}

impl Default for Plan {
    /// What lies where no plan was made yet.
    fn default() -> Self {
        Plan::Install {
            pid: 1,
            head: 1,
            content: Record::default(),
        }
    }
}

impl Plan {
    /// A record over the newest row of a page that was read.
    pub fn over<R: Rows, A: Allocator>(page: &PageInHand<R, A>, content: Record) -> Plan
        ensures { result ≡ over page.now content }
    {
        Plan::Install {
            pid: page.pid(),
            head: page.head(),
            content,
        }
    }

    /// Becomes an update's record over the row `head` of a page, in the room of one that was planned there before, if one was.
    pub fn update(&mut self, pid: u32, head: u32, update: &UpdateRecord)
        ensures { self.new ≡ Install pid head update.now }
    {
        if let Plan::Install {
            pid: page,
            head: row,
            content,
        } = &mut *self
        {
            *page = pid;
            *row = head;
            return update.tell(content);
        }
        self.update_anew(pid, head, update);
    }

    /// Becomes an update's record over whatever was planned before. Not inlined: a record with room for any is made first.
    #[inline(never)]
    fn update_anew(&mut self, pid: u32, head: u32, update: &UpdateRecord)
        ensures { self.new ≡ Install pid head update.now }
    {
        let mut content = Record::default();
        update.tell(&mut content);
        *self = Plan::Install { pid, head, content };
    }

    /// Whether there is to be a new page.
    pub fn needs_pid(&self) -> bool
        ensures { result ≡ needs_pid self.now }
    {
        match self {
            Plan::Install { .. } | Plan::Unlink { .. } => false,
            Plan::Split { .. } | Plan::Root { .. } => true,
        }
    }

    /// How many rows are placed.
    pub fn rows_needed(&self) -> usize
        ensures { result ≡ rows_needed self.now }
    {
        match self {
            Plan::Install { .. } | Plan::Root { .. } | Plan::Unlink { .. } => 1,
            Plan::Split { .. } => 2,
        }
    }

    /// The base of the new page.
    pub fn base(&self) -> Record
        ensures { result ≡ new_base self.now }
    {
        match self {
            Plan::Install { content, .. } => content.copied(),
            Plan::Split { plan, .. } => Record::Base(plan.upper.copied()),
            Plan::Root { root, .. } => Record::Base(root.copied()),
            Plan::Unlink { unterm, .. } => Record::Unterm(unterm.copied()),
        }
    }

    /// The record that comes over a page's newest row, where the new page has this PID.
    pub fn record(&self, right: u32) -> Record
        ensures { result ≡ new_record self.now right }
    {
        match self {
            Plan::Install { content, .. } => content.copied(),
            Plan::Split { plan, .. } => Record::Split(plan.split(right)),
            Plan::Root { root, .. } => Record::Base(root.copied()),
            Plan::Unlink { unterm, .. } => Record::Unterm(unterm.copied()),
        }
    }

    /// The slot whose exchange decides.
    pub fn slot(&self) -> u32
        ensures { result ≡ slot_of self.now }
    {
        match self {
            Plan::Install { pid, .. } | Plan::Split { pid, .. } | Plan::Unlink { pid, .. } => *pid,
            Plan::Root { .. } => 0,
        }
    }

    /// What that slot held.
    pub fn head(&self) -> u32
        ensures { result ≡ head_of self.now }
    {
        match self {
            Plan::Install { head, .. } | Plan::Unlink { head, .. } => *head,
            Plan::Split { plan, .. } => plan.next,
            Plan::Root { left, .. } => *left,
        }
    }

    /// Whether a page is to be cleared once its term is out.
    pub fn clears(&self) -> bool
        ensures { result ≡ clears self.now }
    {
        match self {
            Plan::Unlink { .. } => true,
            Plan::Install { .. } | Plan::Split { .. } | Plan::Root { .. } => false,
        }
    }

    /// The page that is to be cleared, or 0.
    pub fn cleared_page(&self) -> u32
        ensures { result ≡ cleared_page self.now }
    {
        match self {
            Plan::Unlink { unterm, .. } => unterm.child,
            Plan::Install { .. } | Plan::Split { .. } | Plan::Root { .. } => 0,
        }
    }

    /// The row of that page's removal, or 0.
    pub fn cleared_row(&self) -> u32
        ensures { result ≡ cleared_row self.now }
    {
        match self {
            Plan::Unlink { removal, .. } => *removal,
            Plan::Install { .. } | Plan::Split { .. } | Plan::Root { .. } => 0,
        }
    }
}
