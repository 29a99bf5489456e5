//! What an operation makes of the end of a reader's round, where its pages stand.
ghost use Rattle.std.specs.Prelude.{◌≡◌, ◌≢◌, ◌≤◌, ℕ, IsSome, None, Some, false, true};
ghost use Rattle.bw_model.specs.Replies.{command_key, is_writer};
ghost use Rattle.bw_model.specs.declared.command.Reply.TheVariants as reply;
ghost use Rattle.row_chain.specs.Placed.{IsReadChain};
ghost use Rattle.traces.specs.discipline.Discipline.{MayReply};
ghost use Rattle.traces.specs.discipline.Knowledge.{Knowledge};
ghost use Rattle.traces.specs.discipline.Recalled.{Recalled};
ghost use Rattle.round_model.specs.Machines.{AreThere};
ghost use Rattle.change_machine.specs.Spares.{Spares};
ghost use Rattle.op_machine.specs.machine.Bounded.{left_at, left_for, one_round};
ghost use Rattle.op_machine.specs.machine.GoesLeft.{first_read, first_write};
ghost use Rattle.op_machine.specs.machine.Outcomes as Outcome;
ghost use Rattle.op_machine.specs.machine.Outcomes.{FacesRead, StandsForReader};
ghost use Rattle.op_machine.specs.declared.places.StateKind.TheVariants as StateKind;
ghost use Rattle.op_machine.specs.machine.Places.{HaveLimits, leaf_read, state_of};
ghost use Rattle.op_machine.specs.machine.RoundSteps.{AfterReading};
ghost use Rattle.op_machine.specs.machine.Shows.{ShowsState, wanted_at};
ghost use Rattle.op_machine.specs.machine.States as State;
ghost use Rattle.op_machine.specs.machine.Tasks.{IsBetweenChanges, Seeks};
ghost use Rattle.rounds.specs.ReadRounds.{ended_read};
ghost use Rattle.structure_changes.specs.Reads.{chain_of};

use crate::places::Places;
use crate::task::Task;
use base_page::Direction;
use bw_model::Command;
use op_parts::ShortReply;
use round_model::read_leaves_stood;
use rounds::ReadEndKind;
use row_search::Rows;
use std::alloc::Allocator;

impl Task {
    /// A new round begins: for the newest errand, or for the command's key.
    pub(crate) fn begin_round<R: Rows, A: Allocator>(&self, places: &mut Places<R, A>)
        requires have { HaveLimits self.now.limits places.old }
        ensures stands { (spares : Spares) (k : Knowledge) (r : Recalled) → Seeks self.now spares k → ShowsState self.now spares k r (state_of places.new) }
        ensures few { (spares : Spares) (r : Recalled) → left_at self.now.limits r spares (state_of places.new) ≤ one_round self.now.limits }
        ensures asks { (spares : Spares) → IsSome (wanted_at spares (state_of places.new)) }
        ensures have { HaveLimits self.now.limits places.new }
        ensures reads { is_writer self.now.command ≡ false → state_of places.new ≡ State.Read (first_read self.now) }
        ensures writes { is_writer self.now.command ≡ true → state_of places.new ≡ State.Write (first_write self.now) }
    {
        if self.command().is_writer() {
            places.write(self.way_key(), self.due(), self.tends(), self.splits());
            return;
        }
        places.read(self.command().key());
    }

    /// A reader answers at the leaf of its key, or from what it read of a removed one, whose left page it has read since; where its
    /// round was cut off, a new one begins, which goes to the left of a removed page.
    #[inline(never)]
    pub(crate) fn end_reading<R: Rows, A: Allocator>(
        &self,
        ended: ReadEndKind,
        places: &mut Places<R, A>,
        rows: &R,
        pass: &mut R::Pass,
    )
        requires have { HaveLimits self.now.limits places.old }
        requires key { places.old.reader.round.key ≡ command_key self.now.command }
        requires faced { (spares : Spares) × (k : Knowledge) × (r : Recalled) × FacesRead self.now spares k r (ended_read places.old.reader ended) × AreThere (R.has rows.now pass.old) k }
        ensures looks { pass.new ≡ pass.old }
        ensures stands { (spares : Spares) (k : Knowledge) (r : Recalled) → FacesRead self.now spares k r (ended_read places.old.reader ended) → ShowsState self.now spares k r (state_of places.new) }
        ensures few { (spares : Spares) (r : Recalled) → left_at self.now.limits r spares (state_of places.new) ≤ left_for self.now.limits (Outcome.Read (ended_read places.old.reader ended)) }
        ensures asks { (spares : Spares) → IsSome (wanted_at spares (state_of places.new)) }
        ensures have { HaveLimits self.now.limits places.new }
        ensures goes { AfterReading self.now places.old.reader.round (Some (ended_read places.old.reader ended)) (state_of places.new) }
    {
        read_leaves_stood();
        match ended {
            ReadEndKind::Again => self.begin_round(places),
            ReadEndKind::Removed => places.read_left(),
            ReadEndKind::Leaf => self.leave_over(false, places, rows, pass),
            ReadEndKind::Beside => self.leave_over(true, places, rows, pass),
        }
    }

    /// A reader is to leave with its reply over a leaf that stood: the one in its hand, or the removed one beside it.
    fn leave_over<R: Rows, A: Allocator>(
        &self,
        is_beside: bool,
        places: &mut Places<R, A>,
        rows: &R,
        pass: &mut R::Pass,
    )
        requires key { places.old.reader.round.key ≡ command_key self.now.command }
        requires read { IsReadChain (R.has rows.now pass.old) (chain_of (leaf_read is_beside places.old.reader)) }
        ensures looks { pass.new ≡ pass.old }
        ensures leaves { places.new ≡ record places.old { stand = StateKind.Leave; reply = places.new.reply; lacks = None } }
        ensures may { (spares : Spares) (k : Knowledge) (head : ℕ) → StandsForReader self.now spares k head (leaf_read is_beside places.old.reader).chain
            → IsBetweenChanges self.now spares k × MayReply self.now.limits self.now.actor k places.new.reply }
        ensures answers { places.new.reply ≢ reply.Full }
    {
        match self.command() {
            Command::Page(from) => {
                return places.leave_with_page(is_beside, Direction::Forward, from, rows, pass);
            }
            Command::Back(upto) => {
                return places.leave_with_page(is_beside, Direction::Backward, upto, rows, pass);
            }
            _ => {}
        }
        let leaf = places.leaf_read(is_beside).chain();
        let found = leaf.find(rows, pass, places.reader().key());
        match ShortReply::of(self.command(), found.as_ref()) {
            Some(reply) => places.leave(reply),
            None => {
                let key = self.command().key();
                places.leave_with_page(is_beside, Direction::Forward, key, rows, pass);
            }
        }
    }
}
