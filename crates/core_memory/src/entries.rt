//! What was done, entry by entry. Commands and replies stand in lists of their own, so that an entry is short.
ghost use Rattle.std.specs.Prelude.{◌≡◌, ◌<◌, ◌≤◌, ◌++◌, ◌∷◌, [], None, Some, length, slice_get, OnErr, OnOk};
ghost use Rattle.traces.specs.declared.trace.Entry.TheVariants as entry;
ghost use Rattle.core_memory.specs.Entries.{HasCommandOrReply, entry_of};

use crate::steps::{answer_of, step_of};
use crate::{BoxedReply, SharedRecord};
use bw_model::{Answer, Command, Step};
use std::alloc::{AllocError, Allocator, Global};
use std::marker::Model;
use traces::Entry;

/// What a turn did, over records of type `R`. A command and a reply stand in their lists, at a place; a leave ends its actor's operation.
#[derive(Drop)]
pub(crate) enum Happening<R> {
    Begin(u8, usize),
    Step(u8, Step<R>, Answer<R>),
    Leave(u8, usize),
}

/// The entries, oldest first: some 40 bytes each, and beside them the command and the reply of each operation.
pub struct Entries<A: Allocator = Global> {
    happened: Vec<Happening<SharedRecord<A>>, A>,
    commands: Vec<Command, A>,
    replies: Vec<BoxedReply<A>, A>,
}

impl<A: Allocator> Drop for Entries<A> {
    fn drop(self) {
        let Entries {
            happened: _,
            commands: _,
            replies: _,
        } = self;
    }
}

impl<A: Allocator> Model for Entries<A> {
    ghost use Rattle.std.specs.Prelude.{◌-◌, length};
    ghost use Rattle.std.specs.List.{All};
    ghost use Rattle.std.specs.Vec.{vec_capacity};
    ghost use Rattle.core_memory.specs.Entries.{Entries, HasCommandOrReply, entries_of, room_of};

    ghost Value = { Entries };

    ghost view = { λ e. record {
      items = entries_of e.commands.items e.replies.items e.happened.items;
      room = room_of (length e.happened.items)
          (vec_capacity e.happened - length e.happened.items) (vec_capacity e.commands - length e.commands.items)
          (vec_capacity e.replies - length e.replies.items);
    } };

    ghost invariant = { λ e. All (HasCommandOrReply (length e.commands.items) (length e.replies.items)) e.happened.items };
}

impl<A: Allocator + Copy> Entries<A> {
    /// No entries.
    pub fn new(alloc: A) -> Entries<A>
        ensures { result.items ≡ [] }
    {
        Entries {
            happened: Vec::new(alloc),
            commands: Vec::new(alloc),
            replies: Vec::new(alloc),
        }
    }
}

impl<A: Allocator> Entries<A> {
    /// How many entries there are.
    pub fn len(&self) -> u64
        ensures { result ≡ length self.now.items }
    {
        self.happened.len() as u64
    }

    /// The entry at a place, with records of its own, if there is one.
    pub fn entry(&self, place: u64) -> Option<Entry>
        ensures { result ≡ slice_get self.now.items place }
    {
        match self.happened.get(place as usize) {
            None => None,
            Some(happening) => Some(read(happening, &self.commands, &self.replies)),
        }
    }

    /// Makes room for one entry more, of whatever kind; refused only where there is none and memory gives none.
    pub fn reserve(&mut self) -> Result<(), AllocError>
        ensures items { self.new.items ≡ self.old.items }
        ensures room { self.old.room ≤ self.new.room }
        ensures ok { OnOk result (length self.new.items < self.new.room) }
        ensures full { OnErr result (self.old.room ≤ length self.old.items) }
        ensures err { OnErr result (self.new ≡ self.old) }
    {
        self.happened.try_reserve(1)?;
        self.commands.try_reserve(1)?;
        self.replies.try_reserve(1)
    }

    /// Adds the begin of an actor's operation, for which there is room.
    pub fn push_begin(&mut self, actor: u8, command: &Command)
        requires { length self.old.items < self.old.room }
        ensures items { self.new.items ≡ self.old.items ++ entry.Begin actor command.now ∷ [] }
        ensures room { self.old.room ≤ self.new.room }
    {
        let place = self.commands.len();
        self.commands.push(command.copied()).unwrap();
        self.happened.push(Happening::Begin(actor, place)).unwrap();
    }

    /// Adds a step of an actor whose operation goes on; there is room for it.
    pub fn push_step(
        &mut self,
        actor: u8,
        step: Step<SharedRecord<A>>,
        answer: Answer<SharedRecord<A>>,
    )
        requires { length self.old.items < self.old.room }
        ensures items { self.new.items ≡ self.old.items ++ entry.Step actor step answer None ∷ [] }
        ensures room { self.old.room ≤ self.new.room }
    {
        self.happened
            .push(Happening::Step(actor, step, answer))
            .unwrap();
    }

    /// Adds the leave of an actor whose operation is done with this reply; there is room for it.
    pub fn push_leave(&mut self, actor: u8, reply: BoxedReply<A>)
        requires { length self.old.items < self.old.room }
        ensures items { self.new.items ≡ self.old.items ++ entry.Step actor Step.Leave Answer.Done (Some reply) ∷ [] }
        ensures room { self.old.room ≤ self.new.room }
    {
        let place = self.replies.len();
        self.replies.push(reply).unwrap();
        self.happened.push(Happening::Leave(actor, place)).unwrap();
    }
}

/// The entry of what happened, with records of its own.
fn read<A: Allocator>(
    happening: &Happening<SharedRecord<A>>,
    commands: &[Command],
    replies: &[BoxedReply<A>],
) -> Entry
    requires { HasCommandOrReply (length commands.now) (length replies.now) happening.now }
    ensures { result ≡ entry_of commands.now replies.now happening.now }
{
    match happening {
        Happening::Begin(actor, place) => Entry::Begin(*actor, commands[*place].copied()),
        Happening::Step(actor, step, answer) => {
            Entry::Step(*actor, step_of(step), answer_of(answer), None)
        }
        Happening::Leave(actor, place) => {
            let reply = replies[*place].reply();
            Entry::Step(*actor, Step::Leave, Answer::Done, Some(reply))
        }
    }
}
