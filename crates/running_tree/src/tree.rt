//! A running tree.
ghost use Rattle.std.specs.Prelude.{◌≡◌, ◌≤◌, None, IsSome};
ghost use Rattle.running_tree.specs.Calls.{IsCalled, IsResumed, called_if};
ghost use Rattle.running_tree.specs.Runs.{IsOneHistory};
ghost use Rattle.running_tree.specs.Seats.{IsSame, unfinished_command};
ghost use Rattle.running_tree.specs.Trees.{HaveMet, IsSeatOf};

use crate::called::{Called, called_if};
use crate::lawful_runs::{TreeLaw, runs_are_one_history, seats_last};
use crate::seat::BwSeat;
use atomic_table::Table;
use bw_model::{Command, Limits, Reply};
use std::alloc::{Allocator, Global};
use std::marker::Model;
use std::mem::replace;
use table_rule::{Rule, View, blank, cut, join, refresh};
use tree_words::Layout;

/// An ordered map that threads share by reference, each with a seat of its own.
#[derive(Drop)]
pub struct Tree<A: Allocator = Global> {
    pub(crate) limits: Layout,
    pub(crate) table: Table<(), View, Limits, Rule<TreeLaw>, A>,
}

impl<A: Allocator> Model for Tree<A> {
    ghost use Rattle.running_tree.specs.Trees.{IsTreeTable, Tree};

    ghost Value = { Tree };

    ghost view = { λ t. record { limits = t.limits; table = t.table.shared.table_id } };

    ghost invariant = { λ t. IsTreeTable t.limits t.table.shared.key t.table.shared.table_id };
}

impl<A: Allocator> Tree<A> {
    /// Runs a command on an idle seat, for at most `budget` steps, at least 1. It takes no lock, allocates nothing, and waits for nobody.
    /// `Spent` comes after exactly `budget` steps; the operation stays in the seat, to be resumed.
    pub fn call(&self, seat: &mut BwSeat<A>, command: Command, budget: u32) -> Called
        requires own { IsSeatOf self.now seat.old }
        requires idle { unfinished_command seat.old ≡ None }
        requires some { 1 ≤ budget }
        ensures same { IsSame seat.old seat.new }
        ensures called { IsCalled seat.old command budget result seat.new }
        ensures history { IsOneHistory seat.new.limits seat.new.seen }
    {
        let mut reply = Reply::None;
        let done = self.call_in(seat, command, budget, &mut reply);
        called_if(done, reply)
    }

    /// As `call`, but writes the reply into the caller's place, and returns whether the operation is done: a lookup then
    /// moves no reply's room, 3.2 KB. Where it isn't done, any reply may lie there.
    #[inline(always)]
    pub fn call_in(
        &self,
        seat: &mut BwSeat<A>,
        command: Command,
        budget: u32,
        reply: &mut Reply,
    ) -> bool
        requires own { IsSeatOf self.now seat.old }
        requires idle { unfinished_command seat.old ≡ None }
        requires some { 1 ≤ budget }
        ensures same { IsSame seat.old seat.new }
        ensures called { IsCalled seat.old command budget (called_if result reply.new) seat.new }
        ensures history { IsOneHistory seat.new.limits seat.new.seen }
    {
        seat.begin(self, command);
        let done = seat.go_on(self, budget - 1, reply);
        seat.saw_one_history();
        done
    }

    /// Continues the operation of a seat, for at most `budget` steps. `Spent` comes after exactly `budget` steps, so at once if it is 0.
    pub fn resume(&self, seat: &mut BwSeat<A>, budget: u32) -> Called
        requires own { IsSeatOf self.now seat.old }
        requires busy { IsSome (unfinished_command seat.old) }
        ensures same { IsSame seat.old seat.new }
        ensures resumed { IsResumed seat.old budget result seat.new }
        ensures history { IsOneHistory seat.new.limits seat.new.seen }
    {
        let mut reply = Reply::None;
        let done = self.resume_in(seat, budget, &mut reply);
        called_if(done, reply)
    }

    /// As `resume`, but writes the reply into the caller's place, and returns whether the operation is done.
    pub fn resume_in(&self, seat: &mut BwSeat<A>, budget: u32, reply: &mut Reply) -> bool
        requires own { IsSeatOf self.now seat.old }
        requires busy { IsSome (unfinished_command seat.old) }
        ensures same { IsSame seat.old seat.new }
        ensures resumed { IsResumed seat.old budget (called_if result reply.new) seat.new }
        ensures history { IsOneHistory seat.new.limits seat.new.seen }
    {
        let done = seat.go_on(self, budget, reply);
        seat.saw_one_history();
        done
    }

    /// Lets two seats meet: afterwards both have seen one run, which contains all that either had seen. It takes no step.
    pub fn meet(&self, one: &mut BwSeat<A>, other: &mut BwSeat<A>)
        requires own { IsSeatOf self.now one.old }
        requires own_other { IsSeatOf self.now other.old }
        ensures met { HaveMet one.old one.new other.old other.new }
        ensures history { IsOneHistory one.new.limits one.new.seen }
        ensures history_other { IsOneHistory other.new.limits other.new.seen }
    {
        runs_are_one_history();
        seats_last();
        let words = &self.table.shared;
        let others = replace(&mut other.desk.place, blank(words));
        join(words, &mut one.desk.place, others, &self.limits);
        refresh(words, &mut one.desk.place, &self.limits);
        other.desk.place = cut(words, &mut one.desk.place, &self.limits);
    }
}
