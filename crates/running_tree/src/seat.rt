//! A seat of a running tree.
ghost use Rattle.std.specs.Prelude.{◌≡◌, ◌∷◌, [], None, IsSome, is_none};
ghost use Rattle.running_tree.specs.Calls.{Advances, HasBegun, IsResumed, called_if};
ghost use Rattle.running_tree.specs.Runs.{IsOneHistory};
ghost use Rattle.running_tree.specs.Seats.{IsSame, unfinished_command};
ghost use Rattle.running_tree.specs.Told.{reply_if};
ghost use Rattle.running_tree.specs.Trees.{IsSeatOf};
ghost use Rattle.table_rule.specs.Views.{part};
ghost use Rattle.table_rule.specs.declared.view.Reach.TheVariants.{Idle};

use crate::desk::Desk;
use crate::lawful_runs::{laws_of_runs, runs_are_one_history};
use crate::taking::{Taken, take, take_first, take_leave};
use crate::tree::Tree;
use bw_model::{Command, Reply};
use compact_rows::CompactRow;
use op_machine::Actor;
use row_search::RowAt;
use std::alloc::{Allocator, Global};
use std::marker::Model;
use table_rule::TableSeat;
use tree_words::Layout;

/// A seat (session) of a tree: whoever has it acts as one actor, one call at a time.
pub struct BwSeat<A: Allocator = Global> {
    pub(crate) desk: Desk,
    pub(crate) limits: Layout,
    pub(crate) actor: Actor<Tree<A>, A>,
    pub(crate) spelt: CompactRow,
}

impl<A: Allocator> Drop for BwSeat<A> {
    fn drop(self) {
        let BwSeat {
            desk: _,
            limits: _,
            actor: _,
            spelt: _,
        } = self;
    }
}

impl<A: Allocator> Model for BwSeat<A> {
    ghost use Rattle.running_tree.specs.Seats.{IsSeat, Seat};
    ghost use Rattle.table_rule.specs.Views.{seen_of};

    ghost Value = { Seat };

    ghost view = { λ s. record { table = s.desk.place.table_id; limits = s.limits; actor = s.desk.number; seen = seen_of s.desk.place.me } };

    ghost invariant = { λ s. IsSeat s.limits s.desk.number s.desk.place.me s.actor };
}

impl<A: Allocator> BwSeat<A> {
    /// Whether it has no unfinished operation.
    pub fn is_idle(&self) -> bool
        ensures { result ≡ is_none (unfinished_command self.now) }
    {
        !self.actor.is_running()
    }

    /// Its seat at the table of words, for whoever closes the tree.
    pub(crate) fn into_place(self) -> TableSeat
        ensures table { result.table_id ≡ self.table }
        ensures part { result.me ≡ (part self.limits self.actor self.seen Idle ∷ [], []) }
    {
        let BwSeat {
            desk,
            limits: _,
            actor: _,
            spelt: _,
        } = self;
        let Desk { place, number: _ } = desk;
        place
    }

    /// What it has seen is one history.
    pub fn saw_one_history(&self)
        ensures { IsOneHistory self.now.limits self.now.seen }
    {
        runs_are_one_history();
        let _ = &self.limits;
    }

    /// Begins an operation, with its first step.
    #[inline(never)]
    pub(crate) fn begin(&mut self, tree: &Tree<A>, command: Command)
        requires own { IsSeatOf tree.now self.old }
        requires idle { unfinished_command self.old ≡ None }
        ensures same { IsSame self.old self.new }
        ensures begins { HasBegun self.old command self.new }
    {
        laws_of_runs();
        self.actor
            .begin(command, self.desk.number, self.limits.limits());
        let told = take_first(
            &tree.table.shared,
            &mut self.desk.place,
            &self.limits,
            self.desk.number,
            self.actor.wanted(),
            self.actor.command(),
        );
        self.actor.go_on(told);
    }

    /// Goes on with its operation for so many steps, or to its end, and tells whether it is done, with the reply in its place.
    pub(crate) fn go_on(&mut self, tree: &Tree<A>, budget: u32, reply: &mut Reply) -> bool
        requires own { IsSeatOf tree.now self.old }
        requires busy { IsSome (unfinished_command self.old) }
        ensures same { IsSame self.old self.new }
        ensures goes { IsResumed self.old budget (called_if result reply.new) self.new }
    {
        for _ in 0..budget {
            if self.advance(tree, reply) {
                return true;
            }
        }
        false
    }

    /// Takes the one step that its operation wants, and tells whether it is done, with the reply in its place.
    fn advance(&mut self, tree: &Tree<A>, reply: &mut Reply) -> bool
        requires own { IsSeatOf tree.now self.old }
        requires busy { IsSome (unfinished_command self.old) }
        ensures same { IsSame self.old self.new }
        ensures advances { Advances self.old (reply_if result reply.new) self.new }
    {
        laws_of_runs();
        let taken = take(
            &tree.table.shared,
            &mut self.desk.place,
            &self.limits,
            self.desk.number,
            self.actor.wanted(),
            &mut self.spelt,
        );
        match taken {
            Taken::Leaving => {
                // A leave answers nothing, so the reply is asked for before the store that ends the operation.
                self.actor.leave(reply);
                take_leave(
                    &tree.table.shared,
                    &mut self.desk.place,
                    &self.limits,
                    self.desk.number,
                    reply,
                );
                return true;
            }
            Taken::First(row, first) => {
                let record = RowAt::<Tree<A>>::begun(row, first, &self.desk);
                self.actor.take_record(record, tree, &mut self.desk);
            }
            Taken::Told(told) => self.actor.go_on(told),
        }
        false
    }
}
