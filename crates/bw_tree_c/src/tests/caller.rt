//! A caller of the exports, who hands the receipt of each call on to the next one.
ghost use Rattle.std.specs.Prelude.{◌≡◌, []};
ghost use Rattle.call_log.specs.declared.log.Authors.TheVariants.{AllFrom};
ghost use Rattle.bw_tree_c.specs.Handles.{IsReceipt, MayCallOn};

use crate::c_types::{Bytes, FreeRoom, Page, Pair, TreeLimits};
use crate::calls::{
    bwtree_raw_add, bwtree_raw_delete, bwtree_raw_delete_if, bwtree_raw_get, bwtree_raw_get_within,
    bwtree_raw_insert, bwtree_raw_swap, bwtree_raw_tidy, bwtree_raw_upsert,
    bwtree_raw_upsert_within,
};
use crate::closing::bwtree_raw_close;
use crate::closing::pairs::bwtree_raw_close_pairs;
use crate::handle::TreeHandle;
use crate::loading::bwtree_raw_open_from;
use crate::opening::{bwtree_raw_open, bwtree_raw_vacate};
use crate::pages::{bwtree_raw_back, bwtree_raw_page, bwtree_raw_resume};
use crate::queries::{bwtree_raw_is_idle, bwtree_raw_room};
use crate::receipt::{Receipt, Told};
use crate::statuses::OK;
use std::alloc::Global;
use std::mem::replace;

/// A caller: the handle of a tree, and the receipt of the last call on it.
#[derive(Drop)]
pub(crate) struct Caller {
    pub(crate) tree: TreeHandle,
    pub(crate) since: Receipt,
}

impl Caller {
    /// One of a tree that was never opened.
    pub(crate) fn unopened() -> Caller
        ensures { MayCallOn result.tree.kept.value result.since }
    {
        Caller {
            tree: TreeHandle::unopened(),
            since: Receipt::of_nothing(),
        }
    }

    /// The receipt, for a call.
    pub(crate) fn receipt(&mut self) -> Receipt
        ensures tree { self.new.tree ≡ self.old.tree }
        ensures since { result ≡ self.old.since }
    {
        replace(&mut self.since, Receipt::of_nothing())
    }

    /// Opens a tree.
    pub(crate) fn open(&mut self, alloc: Global, limits: &TreeLimits) -> u32
        requires { MayCallOn self.old.tree.kept.value self.old.since }
        ensures may { MayCallOn self.new.tree.kept.value self.new.since }
        ensures all { result ≡ OK → IsReceipt self.new.tree.kept.value (AllFrom 0) [] self.new.since }
    {
        let Told { status, receipt } = bwtree_raw_open(alloc, limits, &mut self.tree);
        if status == OK {
            self.since = receipt;
        }
        status
    }

    /// Opens a tree with pairs.
    pub(crate) fn open_from(&mut self, alloc: Global, limits: &TreeLimits, pairs: &[Pair]) -> u32
        requires { MayCallOn self.old.tree.kept.value self.old.since }
        ensures { MayCallOn self.new.tree.kept.value self.new.since }
    {
        let Told { status, receipt } = bwtree_raw_open_from(alloc, limits, pairs, &mut self.tree);
        if status == OK {
            self.since = receipt;
        }
        status
    }

    /// Empties the handle.
    pub(crate) fn vacate(&mut self) -> u32
        requires { MayCallOn self.old.tree.kept.value self.old.since }
        ensures { MayCallOn self.new.tree.kept.value self.new.since }
    {
        let since = self.receipt();
        let Told { status, receipt } = bwtree_raw_vacate(&mut self.tree, since);
        self.since = receipt;
        status
    }

    /// Closes the tree, and takes its pairs.
    pub(crate) fn close_pairs(&mut self, alloc: Global, pairs: &mut [Pair], count: &mut u64) -> u32
        requires { MayCallOn self.old.tree.kept.value self.old.since }
        ensures { MayCallOn self.new.tree.kept.value self.new.since }
    {
        let since = self.receipt();
        let Told { status, receipt } = bwtree_raw_close_pairs(
            alloc, &self.tree, pairs, count, since,
        );
        self.since = receipt;
        status
    }

    /// Looks a key up.
    pub(crate) fn get(&mut self, seat: u32, key: &[u8], value: &mut Bytes) -> u32
        requires { MayCallOn self.old.tree.kept.value self.old.since }
        ensures { MayCallOn self.new.tree.kept.value self.new.since }
    {
        let since = self.receipt();
        let Told { status, receipt } = bwtree_raw_get(&self.tree, seat, key, value, since);
        self.since = receipt;
        status
    }

    /// Looks a key up in so many steps.
    pub(crate) fn get_within(
        &mut self,
        seat: u32,
        budget: u32,
        key: &[u8],
        value: &mut Bytes,
    ) -> u32
        requires { MayCallOn self.old.tree.kept.value self.old.since }
        ensures { MayCallOn self.new.tree.kept.value self.new.since }
    {
        let since = self.receipt();
        let Told { status, receipt } = bwtree_raw_get_within(
            &self.tree, seat, budget, key, value, since,
        );
        self.since = receipt;
        status
    }

    /// Gives a key a value where it has none.
    pub(crate) fn insert(&mut self, seat: u32, key: &[u8], value: &[u8], old: &mut Bytes) -> u32
        requires { MayCallOn self.old.tree.kept.value self.old.since }
        ensures { MayCallOn self.new.tree.kept.value self.new.since }
    {
        let since = self.receipt();
        let Told { status, receipt } = bwtree_raw_insert(&self.tree, seat, key, value, old, since);
        self.since = receipt;
        status
    }

    /// Gives a key a value.
    pub(crate) fn upsert(&mut self, seat: u32, key: &[u8], value: &[u8], old: &mut Bytes) -> u32
        requires { MayCallOn self.old.tree.kept.value self.old.since }
        ensures { MayCallOn self.new.tree.kept.value self.new.since }
    {
        let since = self.receipt();
        let Told { status, receipt } = bwtree_raw_upsert(&self.tree, seat, key, value, old, since);
        self.since = receipt;
        status
    }

    /// Gives a key a value in so many steps.
    pub(crate) fn upsert_within(
        &mut self,
        seat: u32,
        budget: u32,
        key: &[u8],
        value: &[u8],
        old: &mut Bytes,
    ) -> u32
        requires { MayCallOn self.old.tree.kept.value self.old.since }
        ensures { MayCallOn self.new.tree.kept.value self.new.since }
    {
        let since = self.receipt();
        let Told { status, receipt } = bwtree_raw_upsert_within(
            &self.tree, seat, budget, key, value, old, since,
        );
        self.since = receipt;
        status
    }

    /// Makes a key absent.
    pub(crate) fn delete(&mut self, seat: u32, key: &[u8], old: &mut Bytes) -> u32
        requires { MayCallOn self.old.tree.kept.value self.old.since }
        ensures { MayCallOn self.new.tree.kept.value self.new.since }
    {
        let since = self.receipt();
        let Told { status, receipt } = bwtree_raw_delete(&self.tree, seat, key, old, since);
        self.since = receipt;
        status
    }

    /// Makes a key absent where it has the expected value.
    pub(crate) fn delete_if(
        &mut self,
        seat: u32,
        key: &[u8],
        expected: &[u8],
        old: &mut Bytes,
    ) -> u32
        requires { MayCallOn self.old.tree.kept.value self.old.since }
        ensures { MayCallOn self.new.tree.kept.value self.new.since }
    {
        let since = self.receipt();
        let Told { status, receipt } = bwtree_raw_delete_if(
            &self.tree, seat, key, expected, old, since,
        );
        self.since = receipt;
        status
    }

    /// Gives a key the new value where it has the expected one.
    pub(crate) fn swap(
        &mut self,
        seat: u32,
        key: &[u8],
        expected: &[u8],
        value: &[u8],
        old: &mut Bytes,
    ) -> u32
        requires { MayCallOn self.old.tree.kept.value self.old.since }
        ensures { MayCallOn self.new.tree.kept.value self.new.since }
    {
        let since = self.receipt();
        let Told { status, receipt } = bwtree_raw_swap(
            &self.tree, seat, key, expected, value, old, since,
        );
        self.since = receipt;
        status
    }

    /// Adds a number.
    pub(crate) fn add(&mut self, seat: u32, key: &[u8], number: u64, old: &mut Bytes) -> u32
        requires { MayCallOn self.old.tree.kept.value self.old.since }
        ensures { MayCallOn self.new.tree.kept.value self.new.since }
    {
        let since = self.receipt();
        let Told { status, receipt } = bwtree_raw_add(&self.tree, seat, key, number, old, since);
        self.since = receipt;
        status
    }

    /// Does what upkeep is due.
    pub(crate) fn tidy(&mut self, seat: u32, key: &[u8]) -> u32
        requires { MayCallOn self.old.tree.kept.value self.old.since }
        ensures { MayCallOn self.new.tree.kept.value self.new.since }
    {
        let since = self.receipt();
        let Told { status, receipt } = bwtree_raw_tidy(&self.tree, seat, key, since);
        self.since = receipt;
        status
    }

    /// A page from a key on.
    pub(crate) fn page(&mut self, seat: u32, from: &[u8], page: &mut Page) -> u32
        requires { MayCallOn self.old.tree.kept.value self.old.since }
        ensures { MayCallOn self.new.tree.kept.value self.new.since }
    {
        let since = self.receipt();
        let Told { status, receipt } = bwtree_raw_page(&self.tree, seat, from, page, since);
        self.since = receipt;
        status
    }

    /// A page up to a key.
    pub(crate) fn back(&mut self, seat: u32, upto: &[u8], page: &mut Page) -> u32
        requires { MayCallOn self.old.tree.kept.value self.old.since }
        ensures { MayCallOn self.new.tree.kept.value self.new.since }
    {
        let since = self.receipt();
        let Told { status, receipt } = bwtree_raw_back(&self.tree, seat, upto, page, since);
        self.since = receipt;
        status
    }

    /// Goes on with a seat's unfinished operation.
    pub(crate) fn resume(&mut self, seat: u32, budget: u32, old: &mut Bytes, page: &mut Page) -> u32
        requires { MayCallOn self.old.tree.kept.value self.old.since }
        ensures { MayCallOn self.new.tree.kept.value self.new.since }
    {
        let since = self.receipt();
        let Told { status, receipt } = bwtree_raw_resume(
            &self.tree, seat, budget, old, page, since,
        );
        self.since = receipt;
        status
    }

    /// Whether a call may begin on the seat.
    pub(crate) fn is_idle(&mut self, seat: u32) -> u32
        requires { MayCallOn self.old.tree.kept.value self.old.since }
        ensures { MayCallOn self.new.tree.kept.value self.new.since }
    {
        let since = self.receipt();
        let Told { status, receipt } = bwtree_raw_is_idle(&self.tree, seat, since);
        self.since = receipt;
        status
    }

    /// How many PIDs and rows are free.
    pub(crate) fn room(&mut self, seat: u32, room: &mut FreeRoom) -> u32
        requires { MayCallOn self.old.tree.kept.value self.old.since }
        ensures { MayCallOn self.new.tree.kept.value self.new.since }
    {
        let since = self.receipt();
        let Told { status, receipt } = bwtree_raw_room(&self.tree, seat, room, since);
        self.since = receipt;
        status
    }

    /// Closes the tree.
    pub(crate) fn close(&mut self) -> u32
        requires { MayCallOn self.old.tree.kept.value self.old.since }
        ensures { MayCallOn self.new.tree.kept.value self.new.since }
    {
        let since = self.receipt();
        let Told { status, receipt } = bwtree_raw_close(&self.tree, since);
        self.since = receipt;
        status
    }
}
