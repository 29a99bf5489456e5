//! A tree is closed, and its pairs are handed over.
ghost use Rattle.std.specs.Prelude.{◌≡◌, ◌≢◌, ◌⊎◌, None, Some, length};
ghost use Rattle.bw_tree_c.specs.Closing.{HandsOver, HasHanded, HasMore, HasNoMemory, IsBusy, IsClosed, IsHeld, IsUnfinished, KeepsPairs, RunsNothing, TellsPairs};
ghost use Rattle.bw_tree_c.specs.Handles.{MayCall, MayCallOn, opened_in};
ghost use Rattle.bw_tree_c.specs.Shutting.{FromClosed, FromOpen, IsClosing, IsOpenClosing};
ghost use Rattle.bw_tree_c.specs.Slots.{HasAllOf, LeavesPairs};

use crate::c_types::{Pair, set_pairs};
use crate::closing::emptying::Begun;
use crate::closing::whole::Whole;
use crate::handle::TreeHandle;
use crate::handle::shared::Shared;
use crate::handle::slots::{Inside, SeatHand};
use crate::receipt::{Receipt, Told};
use crate::statuses::{BUSY, CLOSED, NO_MEMORY, NO_ROOM, OK, UNFINISHED};
use bw_model::{Key, Value};
use std::alloc::Global;

/// Closes the tree, and hands its pairs over, in the order of their keys, if there is room for them; else they wait for the next such call.
#[unsafe(no_mangle)]
pub extern "C" fn bwtree_raw_close_pairs(
    alloc: Global,
    tree: &TreeHandle,
    pairs: &mut [Pair],
    count: &mut u64,
    since: Receipt,
) -> Told
    requires may { MayCallOn tree.now.kept.value since }
    ensures never { tree.now.kept.value ≡ None → result.status ≡ CLOSED }
    ensures told { (result.status ≡ OK) ⊎ (result.status ≡ NO_ROOM) ⊎ (result.status ≡ CLOSED) ⊎ (result.status ≡ BUSY)
        ⊎ (result.status ≡ UNFINISHED) ⊎ (result.status ≡ NO_MEMORY) }
    ensures ok { result.status ≡ OK → HandsOver tree.now.kept.value since result.receipt count.new pairs.new }
    ensures more { result.status ≡ NO_ROOM → HasMore tree.now.kept.value since result.receipt (length pairs.old) count.new }
    ensures memory { result.status ≡ NO_MEMORY → HasNoMemory tree.now.kept.value since result.receipt }
    ensures busy { result.status ≡ BUSY → IsBusy tree.now.kept.value since result.receipt }
    ensures closed { result.status ≡ CLOSED → IsClosed tree.now.kept.value since result.receipt }
    ensures unfinished { result.status ≡ UNFINISHED → IsUnfinished tree.now.kept.value since result.receipt }
    ensures room { length pairs.new ≡ length pairs.old }
    ensures same { result.status ≢ OK → pairs.new ≡ pairs.old }
    ensures untold { result.status ≢ OK → result.status ≢ NO_ROOM → count.new ≡ count.old }
    ensures may { MayCallOn tree.now.kept.value result.receipt }
{
    match tree.shared() {
        Some(shared) => shared.close_pairs(alloc, pairs, count, since),
        None => tree.refused(CLOSED, since),
    }
}

impl Shared {
    /// Closes the tree, and hands its pairs over.
    fn close_pairs(
        &self,
        alloc: Global,
        pairs: &mut [Pair],
        count: &mut u64,
        since: Receipt,
    ) -> Told
        requires { MayCall self.now since }
        ensures told { TellsPairs result.status ⊎ (result.status ≡ CLOSED) ⊎ (result.status ≡ BUSY) ⊎ (result.status ≡ UNFINISHED) }
        ensures ok { result.status ≡ OK → HasHanded self.now since result.receipt count.new pairs.new }
        ensures more { result.status ≡ NO_ROOM → KeepsPairs self.now since result.receipt (length pairs.old) count.new }
        ensures memory { result.status ≡ NO_MEMORY → IsHeld self.now since result.receipt }
        ensures busy { result.status ≡ BUSY → IsBusy (Some self.now) since result.receipt }
        ensures closed { result.status ≡ CLOSED → IsClosed (Some self.now) since result.receipt }
        ensures unfinished { result.status ≡ UNFINISHED → IsUnfinished (Some self.now) since result.receipt }
        ensures room { length pairs.new ≡ length pairs.old }
        ensures same { result.status ≢ OK → pairs.new ≡ pairs.old }
        ensures untold { result.status ≢ OK → result.status ≢ NO_ROOM → count.new ≡ count.old }
    {
        let Begun { hand, inside } = match self.begin_closing(since) {
            Ok(begun) => begun,
            Err(told) => return told,
        };
        match inside {
            Inside::Pairs(left) => self.hand_over(hand, left, pairs, count),
            Inside::Whole(whole) => self.list(hand, whole, pairs, count),
            _ => self.end(alloc, hand, pairs, count),
        }
    }

    /// Closes the tree, which is open: its last slot is out.
    fn end(&self, alloc: Global, mut hand: SeatHand, pairs: &mut [Pair], count: &mut u64) -> Told
        requires { IsOpenClosing self.now hand }
        ensures told { TellsPairs result.status ⊎ (result.status ≡ BUSY) ⊎ (result.status ≡ UNFINISHED) }
        ensures ok { result.status ≡ OK → FromOpen self.now hand (λ since. HasHanded self.now since result.receipt count.new pairs.new) }
        ensures more { result.status ≡ NO_ROOM → FromOpen self.now hand (λ since. KeepsPairs self.now since result.receipt (length pairs.old) count.new) }
        ensures memory { result.status ≡ NO_MEMORY → FromOpen self.now hand (λ since. IsHeld self.now since result.receipt) }
        ensures busy { result.status ≡ BUSY → FromOpen self.now hand (λ since. IsBusy (Some self.now) since result.receipt) }
        ensures unfinished { result.status ≡ UNFINISHED → FromOpen self.now hand (λ since. IsUnfinished (Some self.now) since result.receipt) }
        ensures room { length pairs.new ≡ length pairs.old }
        ensures same { result.status ≢ OK → pairs.new ≡ pairs.old }
        ensures untold { result.status ≢ OK → result.status ≢ NO_ROOM → count.new ≡ count.old }
    {
        if let Err(refusal) = self.take_out(&mut hand, self.last(), true) {
            return self.stop(hand, refusal.status());
        }
        let Some(mut whole) = Whole::with_room(alloc, &self.limits) else {
            self.give_back(&mut hand);
            return self.stop(hand, NO_MEMORY);
        };
        self.gather_all(&mut hand, &mut whole);
        self.list(hand, whole, pairs, count)
    }

    /// Lists the pairs of a closed tree, and hands them over.
    fn list(&self, hand: SeatHand, whole: Box<Whole>, pairs: &mut [Pair], count: &mut u64) -> Told
        requires closing { IsClosing self.now self.now.limits.actors 1 RunsNothing hand }
        requires all { HasAllOf (opened_in self.now) hand.me.0.log whole.value }
        ensures told { TellsPairs result.status }
        ensures ok { result.status ≡ OK → FromClosed self.now hand (λ since. HasHanded self.now since result.receipt count.new pairs.new) }
        ensures more { result.status ≡ NO_ROOM → FromClosed self.now hand (λ since. KeepsPairs self.now since result.receipt (length pairs.old) count.new) }
        ensures memory { result.status ≡ NO_MEMORY → FromClosed self.now hand (λ since. IsHeld self.now since result.receipt) }
        ensures room { length pairs.new ≡ length pairs.old }
        ensures same { result.status ≢ OK → pairs.new ≡ pairs.old }
        ensures untold { result.status ≢ OK → result.status ≢ NO_ROOM → count.new ≡ count.old }
    {
        match Whole::listed(whole) {
            Ok(left) => self.hand_over(hand, left, pairs, count),
            Err(whole) => self.keep(hand, Inside::Whole(whole), NO_MEMORY),
        }
    }

    /// Hands the pairs of a closed tree over, if there is room for them.
    fn hand_over(
        &self,
        hand: SeatHand,
        left: Vec<(Key, Value)>,
        pairs: &mut [Pair],
        count: &mut u64,
    ) -> Told
        requires closing { IsClosing self.now self.now.limits.actors 1 RunsNothing hand }
        requires left { LeavesPairs (opened_in self.now) hand.me.0.log left.items }
        ensures told { (result.status ≡ OK) ⊎ (result.status ≡ NO_ROOM) }
        ensures ok { result.status ≡ OK → FromClosed self.now hand (λ since. HasHanded self.now since result.receipt count.new pairs.new) }
        ensures more { result.status ≡ NO_ROOM → FromClosed self.now hand (λ since. KeepsPairs self.now since result.receipt (length pairs.old) count.new) }
        ensures room { length pairs.new ≡ length pairs.old }
        ensures same { result.status ≢ OK → pairs.new ≡ pairs.old }
    {
        *count = left.len() as u64;
        if pairs.len() < left.len() {
            return self.keep(hand, Inside::Pairs(left), NO_ROOM);
        }
        set_pairs(pairs, left.as_slice());
        self.empty(hand)
    }
}
