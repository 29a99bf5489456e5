//! What the last step of a run did, for its marks in a picture.
ghost use Rattle.std.specs.Prelude.{◌≡◌, option_copied};
ghost use Rattle.tree_picture.specs.Edges.{is_thick, touch_colour};
ghost use Rattle.tree_picture.specs.Touches.{actor_touched, is_number, last_entry, nothing_touched, row_linked, row_touched, slot_changed, slot_touch};
ghost use Rattle.tree_picture.specs.Touches.{slot_touched, touch_if, touched_at, touched_by, touched_in};

use crate::colour::Colour;
use bw_model::{Answer, Step};
use core_memory::Entries;
use deltas::Record;
use step_core::Core;
use traces::Entry;

/// What the last step did with a slot, a row or an actor's epoch.
#[derive(Clone, Copy)]
pub enum Touch {
    Untouched,
    Read,
    Changed,
}

/// The slot, the row or the actor's epoch that the last step read or changed.
#[derive(Clone, Copy)]
pub struct Touched {
    pub slot: Option<u32>,
    pub row: Option<u32>,
    pub actor: Option<u8>,
    pub changes: bool,
}

/// The last entry, if there is one.
pub(crate) fn last_entry(entries: &Entries) -> Option<Entry>
    ensures { result ≡ last_entry entries.now.items }
{
    entries.entry(entries.len().saturating_sub(1))
}

/// What the last step of a core did.
pub(crate) fn touched_in(core: &Core) -> Touched
    ensures { result ≡ touched_in core.now.entries }
{
    match last_entry(core.entries()) {
        Some(Entry::Step(actor, step, answer, _)) => touched_by(actor, &step, &answer),
        _ => nothing_touched(),
    }
}

fn nothing_touched() -> Touched
    ensures { result ≡ nothing_touched }
{
    Touched {
        slot: None,
        row: None,
        actor: None,
        changes: false,
    }
}

/// A slot was read.
fn slot_touched(slot: u32) -> Touched
    ensures { result ≡ slot_touched slot }
{
    Touched {
        slot: Some(slot),
        row: None,
        actor: None,
        changes: false,
    }
}

/// A slot was exchanged to this row, or slot 0 to this PID.
fn slot_changed(slot: u32, row: u32) -> Touched
    ensures { result ≡ slot_changed slot row }
{
    Touched {
        slot: Some(slot),
        row: row_linked(slot, row),
        actor: None,
        changes: true,
    }
}

fn row_linked(slot: u32, row: u32) -> Option<u32>
    ensures { result ≡ row_linked slot row }
{
    if slot == 0 { None } else { Some(row) }
}

/// A row was read, or a record was placed in it.
fn row_touched(row: u32, changes: bool) -> Touched
    ensures { result ≡ row_touched row changes }
{
    Touched {
        slot: None,
        row: Some(row),
        actor: None,
        changes,
    }
}

/// The epoch of an actor was read, or announced.
fn actor_touched(actor: u8, changes: bool) -> Touched
    ensures { result ≡ actor_touched actor changes }
{
    Touched {
        slot: None,
        row: None,
        actor: Some(actor),
        changes,
    }
}

/// What an actor's step with this answer did.
fn touched_by(actor: u8, step: &Step<Record>, answer: &Answer<Record>) -> Touched
    ensures { result ≡ touched_by actor step.now answer.now }
{
    match (step, answer) {
        (Step::Slot(slot), _) => slot_touched(*slot),
        (Step::Exchange(slot, _, new), Answer::Whether(true)) => slot_changed(*slot, *new),
        (Step::Exchange(slot, _, _), Answer::Whether(false)) => slot_touched(*slot),
        (Step::Row(row), _) => row_touched(*row, false),
        (Step::Place(row, _), _) => row_touched(*row, true),
        (Step::Announce(other), _) => actor_touched(*other, false),
        (Step::Enter(_), _) => actor_touched(actor, true),
        (Step::Leave, _) => actor_touched(actor, true),
        _ => nothing_touched(),
    }
}

fn is_number(one: Option<u32>, number: u32) -> bool
    ensures { result ≡ is_number one number }
{
    match one {
        None => false,
        Some(one) => one == number,
    }
}

fn touch_if(is_it: bool, changes: bool) -> Touch
    ensures { result ≡ touch_if is_it changes }
{
    match (is_it, changes) {
        (false, _) => Touch::Untouched,
        (true, false) => Touch::Read,
        (true, true) => Touch::Changed,
    }
}

impl Touched {
    /// What it did with a slot.
    pub(crate) fn slot(self, number: u32) -> Touch
        ensures { result ≡ slot_touch self number }
    {
        touch_if(is_number(self.slot, number), self.changes)
    }

    /// What it did with a row.
    pub(crate) fn row(self, number: u32) -> Touch {
        touch_if(is_number(self.row, number), self.changes)
    }

    /// What it did with the epoch of an actor.
    pub(crate) fn actor(self, number: u8) -> Touch {
        touch_if(self.actor == Some(number), self.changes)
    }
}

impl Touch {
    /// The colour of the edge of a slot.
    pub(crate) fn colour(self) -> Colour
        ensures { result ≡ touch_colour self }
    {
        match self {
            Touch::Untouched | Touch::Read => Colour::Ink,
            Touch::Changed => Colour::Changed,
        }
    }

    /// Whether its edge is thick.
    pub(crate) fn is_thick(self) -> bool
        ensures { result ≡ is_thick self }
    {
        match self {
            Touch::Untouched => false,
            Touch::Read | Touch::Changed => true,
        }
    }
}
