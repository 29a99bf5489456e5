//! Notes: what a seat had seen, for other seats.
ghost use Rattle.std.specs.Prelude.{◌≡◌};
ghost use Rattle.running_tree.specs.Notes.{HasHeeded, IsNoteOf, note_of};
ghost use Rattle.running_tree.specs.Runs.{IsOneHistory};
ghost use Rattle.running_tree.specs.Trees.{IsSeatOf};

use crate::lawful_runs::{runs_are_one_history, seats_last};
use crate::seat::BwSeat;
use crate::tree::Tree;
use bw_model::Limits;
use std::alloc::Allocator;
use std::marker::Model;
use table_rule::{TableSeat, cut, join, note, refresh};

/// A causality token: what a seat had seen when the note was made. It takes no memory, and may be sent to another thread.
#[derive(Drop)]
pub struct Note {
    place: TableSeat,
    limits: Limits,
}

impl Model for Note {
    ghost use Rattle.running_tree.specs.Notes.{IsNote, Note};
    ghost use Rattle.table_rule.specs.Views.{seen_of};

    ghost Value = { Note };

    ghost view = { λ n. record { table = n.place.table_id; limits = n.limits; seen = seen_of n.place.me } };

    ghost invariant = { λ n. IsNote n.limits n.place.me };
}

impl<A: Allocator> Tree<A> {
    /// Returns a note of what the seat has seen, for another seat to heed. It takes no step.
    pub fn note(&self, seat: &mut BwSeat<A>) -> Note
        requires own { IsSeatOf self.now seat.old }
        ensures stays { seat.new ≡ seat.old }
        ensures noted { result ≡ note_of seat.old }
    {
        Note {
            place: note(&self.table.shared, &mut seat.desk.place, &self.limits),
            limits: *seat.limits.limits(),
        }
    }

    /// The seat observes the note: it has then seen all that the note contains, and its later calls come after that. It takes no step.
    pub fn heed(&self, seat: &mut BwSeat<A>, note: Note)
        requires own { IsSeatOf self.now seat.old }
        requires note { IsNoteOf self.now note }
        ensures heeds { HasHeeded seat.old note seat.new }
        ensures history { IsOneHistory seat.new.limits seat.new.seen }
    {
        runs_are_one_history();
        seats_last();
        let words = &self.table.shared;
        join(words, &mut seat.desk.place, note.place, &self.limits);
        refresh(words, &mut seat.desk.place, &self.limits);
        cut(words, &mut seat.desk.place, &self.limits);
    }
}
