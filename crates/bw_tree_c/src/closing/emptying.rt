//! All slots of a handle are taken out, and left for good.
ghost use Rattle.std.specs.Prelude.{◌≡◌, ◌≤◌, IfErr, IfOk, MatchBool, false, true};
ghost use Rattle.bw_tree_c.specs.Closing.{LooksOn, RunsNothing};
ghost use Rattle.bw_tree_c.specs.Handles.{MayCall, opened_in};
ghost use Rattle.bw_tree_c.specs.Shutting.{AreAllIdle, GoesTo, HasBegunClosing, IsBusyIn, IsClosing, IsEmptied, IsTakenLast, IsIdleIn, IsBackInside, IsLetGo};
ghost use Rattle.bw_tree_c.specs.Shutting.{IsOpenClosing, IsRefusedClosing, IsStoppedFor, MayGather};
ghost use Rattle.bw_tree_c.specs.Slots.{HasAllOf, WaitsFrom};
ghost use Rattle.bw_tree_c.specs.declared.refusal.Refusal.TheVariants.{Busy};

use crate::closing::whole::Whole;
use crate::handle::shared::Shared;
use crate::handle::slots::{Inside, SeatHand};
use crate::receipt::{Receipt, Told};
use crate::refusal::Refusal;
use crate::statuses::{BUSY, CLOSED, OK};
use call_log::{GONE, HOME, begun, closed, emptied, ended, left};

/// The last slot, which was taken out, and what was in it.
pub(crate) struct Begun {
    pub(crate) hand: SeatHand,
    pub(crate) inside: Inside,
}

impl Shared {
    /// The number of the last slot, which is for what the closing leaves.
    pub(crate) fn last(&self) -> usize
        ensures { result ≡ self.now.limits.actors }
    {
        self.limits.actors as usize
    }

    /// Takes out the last slot: so no other closing runs. Refused where one does, or where nothing is left.
    pub(crate) fn begin_closing(&self, since: Receipt) -> Result<Begun, Told>
        requires { MayCall self.now since }
        ensures begun { IfOk result (λ begun. HasBegunClosing self.now since begun.inside begun.hand) }
        ensures refused { IfErr result (IsRefusedClosing self.now since) }
    {
        let slot = self.last();
        let mut hand = self.seen_by(since);
        let found = begun(&self.table.shared, &mut hand, slot);
        if found != HOME {
            return Err(Told::of(if found == GONE { CLOSED } else { BUSY }, hand));
        }
        let inside = self.table.shared.exchange(&mut hand, slot, Inside::Nothing);
        Ok(Begun { hand, inside })
    }

    /// Takes out the first slots, so many, the last of them first; refused where one is away, or where its seat isn't idle though it is to be: then those that
    /// were taken are back.
    pub(crate) fn take_out(
        &self,
        hand: &mut SeatHand,
        count: usize,
        are_idle: bool,
    ) -> Result<(), Refusal>
        requires closing { IsClosing self.now count 0 LooksOn hand.old }
        requires count { count ≤ self.now.limits.actors }
        ensures ok { IfOk result (λ _. GoesTo self.now hand.old count 0 LooksOn hand.new 0 0 LooksOn) }
        ensures idle { are_idle ≡ true → AreAllIdle hand.old.me.1 → IfOk result (λ _. AreAllIdle hand.new.me.1) }
        ensures stopped { IfErr result (λ refusal. IsStoppedFor self.now hand.old count refusal hand.new) }
        ensures busy { are_idle ≡ false → IfErr result (λ refusal. refusal ≡ Busy) }
    {
        if count == 0 {
            return Ok(());
        }
        let slot = count - 1;
        if begun(&self.table.shared, hand, slot) != HOME {
            return Err(Refusal::Busy);
        }
        if !self.is_fit(hand, slot, are_idle) {
            ended(&self.table.shared, hand, slot);
            return Err(Refusal::Unfinished);
        }
        match self.take_out(hand, slot, are_idle) {
            Ok(()) => Ok(()),
            Err(refusal) => {
                ended(&self.table.shared, hand, slot);
                Err(refusal)
            }
        }
    }

    /// Whether a slot that is out may stay so: its seat has no unfinished operation, if it is to be idle.
    fn is_fit(&self, hand: &mut SeatHand, slot: usize, is_to_be_idle: bool) -> bool
        requires table { hand.old.table_id ≡ self.now.table.shared.table_id }
        requires out { IsTakenLast slot hand.old }
        ensures same { hand.new.table_id ≡ hand.old.table_id }
        ensures me { hand.new.me ≡ hand.old.me }
        ensures fit { result ≡ true → is_to_be_idle ≡ true → IsIdleIn slot hand.old }
        ensures unfit { result ≡ false → (is_to_be_idle ≡ true) × IsBusyIn slot hand.old }
    {
        !is_to_be_idle || self.is_idle(hand, slot)
    }

    /// Whether the seat in a slot that is out has no unfinished operation.
    fn is_idle(&self, hand: &mut SeatHand, slot: usize) -> bool
        requires table { hand.old.table_id ≡ self.now.table.shared.table_id }
        requires out { IsTakenLast slot hand.old }
        ensures same { hand.new.table_id ≡ hand.old.table_id }
        ensures me { hand.new.me ≡ hand.old.me }
        ensures idle { MatchBool result (IsIdleIn slot hand.old) (IsBusyIn slot hand.old) }
    {
        let inside = self.table.shared.exchange(hand, slot, Inside::Nothing);
        let is_idle = match &inside {
            Inside::Seat(place) => place.seat.is_idle(),
            _ => true,
        };
        self.table.shared.exchange(hand, slot, inside);
        is_idle
    }

    /// Gives back the slots of all seats.
    pub(crate) fn give_back(&self, hand: &mut SeatHand)
        requires closing { IsClosing self.now 0 0 LooksOn hand.old }
        ensures back { GoesTo self.now hand.old 0 0 LooksOn hand.new self.now.limits.actors 0 LooksOn }
    {
        for slot in 0..self.last() {
            ended(&self.table.shared, hand, slot);
        }
    }

    /// Closes the tree, all of whose slots are out, and drops its seats.
    pub(crate) fn drop_all(&self, hand: &mut SeatHand)
        requires closing { IsClosing self.now 0 0 LooksOn hand.old }
        ensures all { GoesTo self.now hand.old 0 0 LooksOn hand.new self.now.limits.actors 1 RunsNothing }
    {
        closed(&self.table.shared, hand);
        for slot in 0..self.last() {
            self.table.shared.exchange(hand, slot, Inside::Nothing);
            left(&self.table.shared, hand, slot);
        }
    }

    /// Closes the tree, all of whose slots are out, and gathers its seats.
    pub(crate) fn gather_all(&self, hand: &mut SeatHand, whole: &mut Whole)
        requires closing { IsClosing self.now 0 0 LooksOn hand.old }
        requires idle { AreAllIdle hand.old.me.1 }
        requires may { MayGather self.now.limits whole.old }
        ensures all { GoesTo self.now hand.old 0 0 LooksOn hand.new self.now.limits.actors 1 RunsNothing }
        ensures gathered { HasAllOf (opened_in self.now) hand.new.me.0.log whole.new }
    {
        closed(&self.table.shared, hand);
        for slot in 0..self.last() {
            match self.table.shared.exchange(hand, slot, Inside::Nothing) {
                Inside::Seat(place) => whole.add(place),
                _ => unreachable!(),
            }
            left(&self.table.shared, hand, slot);
        }
    }

    /// Leaves the last slot for good: nothing waits any more.
    pub(crate) fn empty(&self, mut hand: SeatHand) -> Told
        requires closing { IsClosing self.now self.now.limits.actors 1 RunsNothing hand }
        ensures status { result.status ≡ OK }
        ensures closed { IsEmptied self.now hand result.receipt }
    {
        let slot = self.last();
        emptied(&self.table.shared, &mut hand, slot);
        Told::of(OK, hand)
    }

    /// Puts what waits into the last slot.
    pub(crate) fn keep(&self, mut hand: SeatHand, inside: Inside, status: u32) -> Told
        requires closing { IsClosing self.now self.now.limits.actors 1 RunsNothing hand }
        requires waits { WaitsFrom (opened_in self.now) hand.me.0.log inside }
        ensures status { result.status ≡ status }
        ensures kept { IsBackInside self.now RunsNothing hand inside result.receipt }
        ensures looked { IsBackInside self.now LooksOn hand inside result.receipt }
    {
        let slot = self.last();
        self.table.shared.exchange(&mut hand, slot, inside);
        ended(&self.table.shared, &mut hand, slot);
        Told::of(status, hand)
    }

    /// Gives back the last slot, in which nothing is.
    pub(crate) fn stop(&self, mut hand: SeatHand, status: u32) -> Told
        requires closing { IsOpenClosing self.now hand }
        ensures status { result.status ≡ status }
        ensures stopped { IsLetGo self.now hand result.receipt }
    {
        let slot = self.last();
        ended(&self.table.shared, &mut hand, slot);
        Told::of(status, hand)
    }
}
