//! How many PIDs and rows of a running tree are free.
ghost use Rattle.std.specs.Prelude.{◌≡◌, ◌<◌, ◌≤◌, ◌*◌};
ghost use Rattle.bw_model.specs.Lent.{step_of_loan};
ghost use Rattle.running_tree.specs.Room.{HasCounted, HasSeenRoom, HasWatched, bits_step};
ghost use Rattle.running_tree.specs.Runs.{IsOneHistory};
ghost use Rattle.running_tree.specs.Seats.{IsSame};
ghost use Rattle.running_tree.specs.Trees.{IsSeatOf};
ghost use Rattle.change_machine.specs.Taking.{count_of};
ghost use Rattle.table_rule.specs.Views.{IsOf};

use crate::lawful_runs::{TreeWords, seats_last};
use crate::seat::BwSeat;
use crate::tree::Tree;
use bw_model::Step;
use change_machine::Kind;
use deltas::Record;
use std::alloc::Allocator;
use table_rule::watch;
use tree_law::own_lasts;

/// How many PIDs and rows are free. Those that a seat holds back, spare or in limbo, are not among them.
#[derive(Clone, Copy, Debug, PartialEq, Eq)]
pub struct Room {
    /// PIDs, of those that the limits give.
    pub free_pids: u32,
    /// Rows, of those that the limits give.
    pub free_rows: u32,
}

impl<A: Allocator> Tree<A> {
    /// How many PIDs and rows are free: each 64 of them count as after a run of their own (`HasCounted`), so the count is no snapshot. It
    /// takes no step, and waits for nobody; other seats continue meanwhile. It may be called in the midst of an operation, too.
    pub fn room(&self, seat: &mut BwSeat<A>) -> Room
        requires own { IsSeatOf self.now seat.old }
        ensures same { IsSame seat.old seat.new }
        ensures room { HasSeenRoom seat.old result seat.new }
        ensures history { IsOneHistory seat.new.limits seat.new.seen }
    {
        own_lasts();
        let words = &self.table.shared;
        let free_pids = seat.count_free(words, Kind::Pid);
        let free_rows = seat.count_free(words, Kind::Row);
        seat.saw_one_history();
        Room {
            free_pids,
            free_rows,
        }
    }
}

impl<A: Allocator> BwSeat<A> {
    /// How many numbers of a kind are free, one word of free bits after the other.
    fn count_free(&mut self, words: &TreeWords, kind: Kind) -> u32
        requires own { IsOf self.old.limits words.now.key words.now.table_id self.old.table }
        ensures same { IsSame self.old self.new }
        ensures counted { HasCounted self.old.limits self.old.actor kind (count_of self.old.limits kind) self.old.seen self.new.seen result }
    {
        let mut count = 0;
        for word in 0..kind.count(self.limits.limits()) / 64 {
            count += self.watch_bits(words, kind, word as u32);
        }
        count
    }

    /// How many of the numbers of a word of free bits are free.
    fn watch_bits(&mut self, words: &TreeWords, kind: Kind, word: u32) -> u32
        requires own { IsOf self.old.limits words.now.key words.now.table_id self.old.table }
        requires there { 64 * word < count_of self.old.limits kind }
        ensures same { IsSame self.old self.new }
        ensures watched { HasWatched kind word self.old self.new result }
        ensures few { result ≤ 64 }
    {
        seats_last();
        let step = bits(kind, word);
        watch(
            words,
            &mut self.desk.place,
            &self.limits,
            self.desk.number,
            &step,
        )
        .count_ones()
    }
}

/// The step that reads a word of free bits.
fn bits<'a>(kind: Kind, word: u32) -> Step<&'a Record>
    ensures { step_of_loan result ≡ bits_step kind word }
{
    match kind {
        Kind::Pid => Step::PidBits(word),
        Kind::Row => Step::RowBits(word),
    }
}
