//! A tree that is closed, and what can be asked of it.
ghost use Rattle.std.specs.Prelude.{◌≡◌, ◌≤◌, ◌*◌, [], IfOk};
ghost use Rattle.std.specs.Vec.{vec_capacity};
ghost use Rattle.running_tree.specs.Closed.{CountsAll, ListsAll, ListsPage};

use crate::closing::closed_rows::ClosedRows;
use atomic_table::Closed;
use bw_model::{Key, Limits, Pairs, Value};
use listing::{LeafPage, add_pairs, count_pairs, page_from, pages_are_listed, pages_are_shown};
use std::alloc::{AllocError, Allocator, Global};
use std::marker::Model;
use tree_law::leaves_stand;

/// A page of a closed tree's pairs.
#[derive(Drop)]
pub struct ClosedPage {
    /// The pairs, in the order of their keys.
    pub pairs: Pairs,
    /// The key from which the next page goes on, if there is more.
    pub next: Option<Key>,
}

/// A closed tree: no seat steps in it any more, and its pairs stay until it is dropped.
pub struct ClosedTree<A: Allocator = Global> {
    pub(crate) limits: Limits,
    pub(crate) words: Closed<(), A>,
    /// The PID of the leaf that was shown last, from which the next one is looked for.
    pub(crate) near: u32,
}

impl<A: Allocator> Model for ClosedTree<A> {
    ghost use Rattle.running_tree.specs.Closed.{ClosedTree, HoldsTree};

    ghost Value = { ClosedTree };

    ghost view = { λ t. record { limits = t.limits; words = t.words.words.items } };

    ghost invariant = { λ t. HoldsTree (record { limits = t.limits; words = t.words.words.items }) t.words.words.filled t.words.words.len t.words.slots.len t.near };
}

impl<A: Allocator> Drop for ClosedTree<A> {
    fn drop(self) {
        let ClosedTree {
            limits: _,
            words,
            near: _,
        } = self;
        words.free();
    }
}

impl<A: Allocator> ClosedTree<A> {
    /// How many pairs it has. It allocates nothing, and reads each leaf.
    pub fn count(&self) -> usize
        ensures { CountsAll self.now result }
    {
        leaves_stand();
        pages_are_listed();
        let rows = ClosedRows {
            limits: &self.limits,
            closed: &self.words,
        };
        count_pairs(&self.limits, &rows)
    }

    /// Its pairs in the order of their keys, in a list of exactly that length. If allocation fails, nothing is lost: the tree is as it was,
    /// and the call can be made again.
    pub fn pairs<B: Allocator>(&self, alloc: B) -> Result<Vec<(Key, Value), B>, AllocError>
        ensures { IfOk result (λ pairs. ListsAll self.now pairs.items) }
    {
        leaves_stand();
        pages_are_listed();
        let rows = ClosedRows {
            limits: &self.limits,
            closed: &self.words,
        };
        let mut pairs = Vec::with_capacity(alloc, self.count())?;
        add_pairs(&mut pairs, &self.limits, &rows)?;
        Ok(pairs)
    }

    /// The pairs of the leaf that has the key, from the key on, and the key at which the next page begins, as of a cursor page. It
    /// allocates nothing. It goes right from the leaf of the last page, or from the first leaf if that one begins above the key: so one page
    /// after another costs a leaf each.
    pub fn page(&mut self, from: &Key) -> ClosedPage
        ensures same { self.new ≡ self.old }
        ensures page { ListsPage self.old from.now result.pairs result.next }
    {
        leaves_stand();
        pages_are_shown();
        let rows = ClosedRows {
            limits: &self.limits,
            closed: &self.words,
        };
        let LeafPage { pairs, next, leaf } = page_from(&self.limits, &rows, self.near, from);
        self.near = leaf;
        ClosedPage { pairs, next }
    }

    /// Its pairs in the order of their keys, in a list that has room for them: it allocates nothing, so it can't fail.
    pub fn listed<B: Allocator>(&self, pairs: Vec<(Key, Value), B>) -> Vec<(Key, Value), B>
        requires empty { pairs.items ≡ [] }
        requires room { 24 * self.now.limits.pids ≤ vec_capacity pairs }
        ensures { ListsAll self.now result.items }
    {
        leaves_stand();
        pages_are_listed();
        let rows = ClosedRows {
            limits: &self.limits,
            closed: &self.words,
        };
        let mut pairs = pairs;
        let Ok(()) = add_pairs(&mut pairs, &self.limits, &rows) else {
            unreachable!()
        };
        pairs
    }
}
