//! Where actors stand: at the page whose slot their operation read last.
ghost use Rattle.std.specs.Prelude.{◌≡◌, ◌≤◌, ◌<◌, IfOk, Some, is_some, length, true};
ghost use Rattle.op_machine.specs.machine.Actors.{IsActorShown, running_command, wanted_by};
ghost use Rattle.tree_picture.specs.Adding.{Adds};
ghost use Rattle.tree_picture.specs.Stands.{next_text, row_of, slot_of, slot_read, slot_told, stand_of, stand_text, stands_at, stands_in};

use crate::words::Words;
use crate::write::with_number;
use bw_model::Step;
use core_memory::{CoreRows, Entries};
use deltas::Record;
use op_machine::Actor;
use std::alloc::{AllocError, Global};
use step_core::Core;
use traces::Entry;

/// An actor that has an operation, the page whose slot that read last, and the row that it reads next, if its next step reads one.
#[derive(Clone, Copy)]
pub struct Stand {
    pub actor: u8,
    pub page: u32,
    pub row: Option<u32>,
}

/// Where the actors of a core stand.
pub(crate) fn stands_of(alloc: Global, core: &Core) -> Result<Vec<Stand>, AllocError>
    ensures { IfOk result (λ stands. stands.items ≡ stands_in core.now.limits core.now.entries core.now.demand.wanted) }
{
    let mut stands = Vec::new(alloc);
    for number in 0..core.limits().actors as u8 {
        if let Some(stand) = stand_of(core, number) {
            stands.push(stand)?;
        }
    }
    Ok(stands)
}

/// Where an actor stands, if it has an operation that read a slot.
fn stand_of(core: &Core, number: u8) -> Option<Stand>
    requires { number < core.now.limits.actors }
    ensures { result ≡ stand_of core.now.entries core.now.demand.wanted number }
{
    let Some(actor) = core.actor(number) else {
        unreachable!()
    };
    if !actor.is_running() {
        return None;
    }
    match slot_read(core.entries(), number) {
        Some(page) => Some(Stand {
            actor: number,
            page,
            row: row_of(actor),
        }),
        None => None,
    }
}

/// The row that an actor's next step reads, if it reads one.
fn row_of(actor: &Actor<CoreRows>) -> Option<u32>
    requires shown { IsActorShown actor.now }
    requires running { is_some (running_command actor.now) ≡ true }
    ensures { result ≡ row_of (Some (wanted_by actor.now.running)) }
{
    match actor.wanted() {
        Step::Row(row) => Some(row),
        _ => None,
    }
}

/// The slot that an actor's operation read last, if it has read one.
fn slot_read(entries: &Entries, number: u8) -> Option<u32>
    ensures { result ≡ slot_read entries.now.items number }
{
    let many = entries.len();
    for back in 0..many {
        let Some(entry) = entries.entry(many - 1 - back) else {
            unreachable!()
        };
        if let Some(told) = slot_told(&entry, number) {
            return told;
        }
    }
    None
}

/// What an entry tells of the slot that an actor's operation read last: nothing, that it is this one, or that there is none yet.
fn slot_told(entry: &Entry, number: u8) -> Option<Option<u32>>
    ensures { result ≡ slot_told entry.now number }
{
    match entry {
        Entry::Begin(actor, _) if *actor == number => Some(None),
        Entry::Begin(_, _) => None,
        Entry::Step(actor, step, _, _) if *actor == number => slot_of(step),
        Entry::Step(_, _, _, _) => None,
    }
}

/// What a step tells of it.
fn slot_of(step: &Step<Record>) -> Option<Option<u32>>
    ensures { result ≡ slot_of step.now }
{
    match step {
        Step::Slot(slot) => Some(Some(*slot)),
        _ => None,
    }
}

/// Those that stand at a page.
pub(crate) fn stands_at(alloc: Global, stands: &[Stand], pid: u32) -> Result<Vec<Stand>, AllocError>
    ensures { IfOk result (λ those. those.items ≡ stands_at stands.now pid) }
{
    stands
        .iter()
        .copied()
        .filter(|stand| stand.page == pid)
        .collect(alloc)
}

impl Stand {
    /// The words for it: who stands there, and which row that actor reads next.
    pub fn words(&self) -> Words
        ensures { result ≡ stand_text self.now.actor self.now.row }
    {
        stand_words(self.actor, self.row)
    }
}

fn stand_words(actor: u8, row: Option<u32>) -> Words
    ensures { result ≡ stand_text actor row }
{
    let mut words = Words::new();
    with_number(&mut words, b"actor ", u64::from(actor));
    with_next(&mut words, row);
    words
}

/// Adds which row an actor reads next, if it reads one.
fn with_next(words: &mut Words, row: Option<u32>)
    ensures adds { Adds words.old words.new (next_text row) }
    ensures short { length (next_text row) ≤ 31 }
{
    match row {
        Some(row) => with_number(words, b", next row ", u64::from(row)),
        None => words.add(b""),
    }
}
