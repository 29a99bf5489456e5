//! A tree is closed.
ghost use Rattle.std.specs.Prelude.{◌≡◌, ◌<◌, ◌≤◌, [], length, IfErr, IfOk, MatchBool};
ghost use Rattle.running_tree.specs.Closed.{IsClosedWith};
ghost use Rattle.running_tree.specs.Trees.{AreClosed, AreSeatsOf, HasBusy, HasPartsOf, IsTreeTable};

mod closed_rows;
pub(crate) mod closed_tree;

use crate::called::{CloseError, CloseRefusal};
use crate::closing::closed_tree::ClosedTree;
use crate::lawful_runs::{TreeLaw, TreeWords, runs_are_one_history};
use crate::seat::BwSeat;
use crate::tree::Tree;
use bw_model::{Key, Value};
use std::alloc::Allocator;
use table_rule::{TableSeat, blank, closing_spells, join};
use tree_words::Layout;

impl<A: Allocator> Tree<A> {
    /// Closes the tree, and returns its pairs in the order of their keys. Refused, with the tree and the seats as they were, if a seat is
    /// missing, if one has an unfinished operation, or if allocation fails, in this order.
    pub fn close<B: Allocator>(
        self,
        alloc: B,
        seats: Vec<BwSeat<A>, A>,
    ) -> Result<Vec<(Key, Value), B>, CloseError<A>>
        requires own { AreSeatsOf self seats.items }
        ensures ok { IfOk result (λ pairs. AreClosed self.limits seats.items pairs.items) }
        ensures missing { length seats.items < self.limits.actors → IfOk result (λ pairs. ⊥) × IfErr result (λ error. error.refusal ≡ CloseRefusal.Seats) }
        ensures busy { self.limits.actors ≤ length seats.items → HasBusy seats.items → IfOk result (λ pairs. ⊥) × IfErr result (λ error. error.refusal ≡ CloseRefusal.NotIdle) }
        ensures memory { self.limits.actors ≤ length seats.items → (HasBusy seats.items → ⊥) → IfErr result (λ error. error.refusal ≡ CloseRefusal.Memory) }
        ensures tree { IfErr result (λ error. error.tree ≡ self) }
        ensures seats { IfErr result (λ error. error.seats.items ≡ seats.items) }
    {
        if (seats.len() as u64) < self.limits.limits().actors {
            return Err(refused(CloseRefusal::Seats, self, seats));
        }
        if !are_idle(seats.as_slice()) {
            return Err(refused(CloseRefusal::NotIdle, self, seats));
        }
        let Ok(pairs) = Vec::with_capacity(alloc, 24 * self.limits.limits().pids as usize) else {
            return Err(refused(CloseRefusal::Memory, self, seats));
        };
        Ok(self.shut(seats).listed(pairs))
    }

    /// Closes the tree without allocating; the closed tree returns its pairs. Refused, with the tree and the seats as they were, if a seat
    /// is missing, or if one has an unfinished operation, in this order.
    pub fn into_closed(self, seats: Vec<BwSeat<A>, A>) -> Result<ClosedTree<A>, CloseError<A>>
        requires own { AreSeatsOf self seats.items }
        ensures ok { IfOk result (IsClosedWith self.limits seats.items) }
        ensures missing { length seats.items < self.limits.actors → IfOk result (λ closed. ⊥) × IfErr result (λ error. error.refusal ≡ CloseRefusal.Seats) }
        ensures busy { self.limits.actors ≤ length seats.items → HasBusy seats.items → IfOk result (λ closed. ⊥) × IfErr result (λ error. error.refusal ≡ CloseRefusal.NotIdle) }
        ensures never { self.limits.actors ≤ length seats.items → (HasBusy seats.items → ⊥) → IfErr result (λ error. ⊥) }
        ensures tree { IfErr result (λ error. error.tree ≡ self) }
        ensures seats { IfErr result (λ error. error.seats.items ≡ seats.items) }
    {
        if (seats.len() as u64) < self.limits.limits().actors {
            return Err(refused(CloseRefusal::Seats, self, seats));
        }
        if !are_idle(seats.as_slice()) {
            return Err(refused(CloseRefusal::NotIdle, self, seats));
        }
        Ok(self.shut(seats))
    }

    /// Closes the tree with all its seats.
    fn shut(self, seats: Vec<BwSeat<A>, A>) -> ClosedTree<A>
        requires own { AreSeatsOf self seats.items }
        requires all { self.limits.actors ≤ length seats.items }
        ensures { IsClosedWith self.limits seats.items result }
    {
        runs_are_one_history();
        closing_spells::<TreeLaw>();
        let Tree { limits, table } = self;
        let whole = joined(&table.shared, &limits, seats);
        let words = table.close_with(whole);
        // The leftmost leaf has PID 1 for ever.
        ClosedTree {
            limits: *limits.limits(),
            words,
            near: 1,
        }
    }
}

/// A refusal to close.
fn refused<A: Allocator>(
    refusal: CloseRefusal,
    tree: Tree<A>,
    seats: Vec<BwSeat<A>, A>,
) -> CloseError<A>
    ensures refusal { result.refusal ≡ refusal }
    ensures tree { result.tree ≡ tree }
    ensures seats { result.seats.items ≡ seats.items }
{
    CloseError {
        refusal,
        tree,
        seats,
    }
}

/// Whether no seat has an unfinished operation.
pub fn are_idle<A: Allocator>(seats: &[BwSeat<A>]) -> bool
    ensures { MatchBool result (HasBusy seats.now → ⊥) (HasBusy seats.now) }
{
    for seat in seats {
        if !seat.is_idle() {
            return false;
        }
    }
    true
}

/// All seats in one.
fn joined<A: Allocator>(words: &TreeWords, limits: &Layout, seats: Vec<BwSeat<A>, A>) -> TableSeat
    requires table { IsTreeTable limits.now words.now.key words.now.table_id }
    requires own { AreSeatsOf (record { limits = limits.now; table = words.now.table_id }) seats.items }
    ensures table { result.table_id ≡ words.now.table_id }
    ensures home { result.me.1 ≡ [] }
    ensures parts { HasPartsOf limits.now seats.items result.me.0 }
{
    let mut whole = blank(words);
    let mut seats = seats;
    while let Some(seat) = seats.pop() {
        join(words, &mut whole, seat.into_place(), limits);
    }
    whole
}
