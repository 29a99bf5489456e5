//! What an actor has taken and not linked.
ghost use Rattle.std.specs.Prelude.{◌≡◌, ◌<◌, [], None, length, get_or};
ghost use Rattle.change_machine.specs.declared.spares.TheConstants.{MAX_SPARES};
ghost use Rattle.change_machine.specs.Moves.{spares_left, with_number};
ghost use Rattle.change_machine.specs.Spares.{last_row, pid_of, second_row};

use crate::taking::Kind;
use arrayvec::ArrayVec;
use std::marker::Model;
use structure_changes::Plan;

/// How many spare rows an actor has at most: where all rows have one width as many as a split needs, 2.
pub const MAX_SPARES: usize = 4;

/// A PID at most and the rows that an actor took and has not linked: its change uses the last rows.
#[derive(Drop)]
pub struct Spares {
    pid: Option<u32>,
    rows: ArrayVec<u32, MAX_SPARES>,
}

impl Model for Spares {
    ghost use Rattle.change_machine.specs.Spares.{Spares};

    ghost Value = { Spares };

    ghost view = { λ s. record { pid = s.pid; rows = s.rows.items } };
}

impl Spares {
    /// Nothing.
    pub fn new() -> Spares
        ensures { result ≡ record { pid = None; rows = [] } }
    {
        Spares {
            pid: None,
            rows: ArrayVec::new(),
        }
    }

    /// The spare PID, if there is one.
    pub fn pid(&self) -> Option<u32>
        ensures { result ≡ self.now.pid }
    {
        self.pid
    }

    /// The spare rows, the last one taken last.
    pub fn rows(&self) -> &[u32]
        ensures { result.now ≡ self.now.rows }
    {
        self.rows.as_slice()
    }

    /// The spare PID, or 0.
    pub(crate) fn pid_or_0(&self) -> u32
        ensures { result ≡ pid_of self.now }
    {
        self.pid.unwrap_or(0)
    }

    /// The spare row before the last one; the last one if it is alone, or 0.
    pub(crate) fn second_row(&self) -> u32
        ensures { result ≡ second_row self.now }
    {
        self.row_at(self.rows.len().saturating_sub(2))
    }

    /// The last spare row, or 0.
    pub(crate) fn last_row(&self) -> u32
        ensures { result ≡ last_row self.now }
    {
        self.row_at(self.rows.len().saturating_sub(1))
    }

    fn row_at(&self, place: usize) -> u32
        ensures { result ≡ get_or self.now.rows place 0 }
    {
        self.rows.as_slice().get(place).copied().unwrap_or(0)
    }

    /// Keeps a number that was taken.
    pub(crate) fn keep(&mut self, kind: Kind, number: u32)
        requires { kind ≡ Kind.Row → length self.old.rows < MAX_SPARES }
        ensures { self.new ≡ with_number kind number self.old }
    {
        match kind {
            Kind::Pid => self.pid = Some(number),
            Kind::Row => self.rows.push(number),
        }
    }

    /// What is in the tree is spare no more: the PID, or not, and so many of the last rows.
    pub(crate) fn release(&mut self, plan: &Plan)
        ensures { self.new ≡ spares_left plan.now self.old }
    {
        if plan.needs_pid() {
            self.pid = None;
        }
        let used = plan.rows_needed();
        self.rows.truncate(self.rows.len().saturating_sub(used));
    }
}
