//! What runs on the seat that a call has.
ghost use Rattle.std.specs.Prelude.{◌≤◌};
ghost use Rattle.bw_model.specs.declared.command.Command.TheVariants as command;
ghost use Rattle.bw_tree_c.specs.Running.{IsRunToValue, IsRunFurther, IsRunToPage, IsTidied, IsWatched, TellsIdle};
ghost use Rattle.bw_tree_c.specs.Seats.{IsLater};

use crate::c_types::{Bytes, FreeRoom, Page};
use crate::place::Place;
use crate::statuses::{IDLE, OK, UNFINISHED, status_of_called, tell_page, tell_value};
use bw_model::{Command, Key};
use seats::{BUDGET, called_in, resumed_in};

impl Place {
    /// Runs a command for at most so many steps, if the seat is idle.
    #[inline(always)]
    pub(crate) fn run(&mut self, command: Command, budget: u32, old: &mut Bytes) -> u32
        requires some { 1 ≤ budget }
        ensures later { IsLater self.old.seat self.new.seat }
        ensures run { IsRunToValue self.old.seat command budget result old.old old.new self.new.seat }
    {
        match called_in(&self.tree, &mut self.seat, command, budget, &mut self.reply) {
            Some(done) => tell_value(done, &self.reply, old),
            None => UNFINISHED,
        }
    }

    /// Does upkeep, if the seat is idle.
    pub(crate) fn tidy(&mut self, key: Key) -> u32
        ensures later { IsLater self.old.seat self.new.seat }
        ensures run { IsTidied self.old.seat (command.Tidy key) result self.new.seat }
    {
        match called_in(
            &self.tree,
            &mut self.seat,
            Command::Tidy(key),
            BUDGET,
            &mut self.reply,
        ) {
            Some(done) => status_of_called(done, &self.reply),
            None => UNFINISHED,
        }
    }

    /// Runs a command whose reply is a page, if the seat is idle.
    pub(crate) fn page(&mut self, paging: Command, page: &mut Page) -> u32
        ensures later { IsLater self.old.seat self.new.seat }
        ensures run { IsRunToPage self.old.seat paging result page.old page.new self.new.seat }
    {
        match called_in(&self.tree, &mut self.seat, paging, BUDGET, &mut self.reply) {
            Some(done) => tell_page(done, &self.reply, page),
            None => UNFINISHED,
        }
    }

    /// Goes on with the seat's operation, if it has one.
    pub(crate) fn resume(&mut self, budget: u32, old: &mut Bytes, page: &mut Page) -> u32
        ensures later { IsLater self.old.seat self.new.seat }
        ensures run { IsRunFurther self.old.seat budget result old.old old.new page.old page.new self.new.seat }
    {
        match resumed_in(&self.tree, &mut self.seat, budget, &mut self.reply) {
            Some(done) => {
                tell_page(done, &self.reply, page);
                tell_value(done, &self.reply, old)
            }
            None => IDLE,
        }
    }

    /// Whether the seat has no unfinished operation.
    pub(crate) fn tell_idle(&self) -> u32
        ensures { TellsIdle self.now.seat result }
    {
        if self.seat.is_idle() { OK } else { UNFINISHED }
    }

    /// How many PIDs and rows are free.
    pub(crate) fn watch_room(&mut self, room: &mut FreeRoom) -> u32
        ensures later { IsLater self.old.seat self.new.seat }
        ensures room { IsWatched self.old.seat result room.new self.new.seat }
    {
        room.set(&self.tree.room(&mut self.seat));
        OK
    }
}
