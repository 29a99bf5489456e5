//! What an operation was asked, and what it makes of what it has come to.
ghost use Rattle.std.specs.Prelude.{◌≡◌, ◌≤◌, ◌+◌, ◌<◌, ◌-◌, ℕ, List, [], Option, Some, IfSome, IsSome, MatchOption, is_some, length, option_copied, slice_get, take, true};
ghost use Rattle.traces.specs.discipline.Knowledge.{Knowledge};
ghost use Rattle.bw_model.specs.Replies.{is_writer, update_of};
ghost use Rattle.op_machine.specs.machine.Brings.{update_over};
ghost use Rattle.op_machine.specs.machine.Errands.{due_of, splits_of, tends_of, way_key};
ghost use Rattle.op_parts.specs.Errands.{with_errand};
ghost use Rattle.sweep.specs.Bounded.{most_steps, steps_left as steps_of};
ghost use Rattle.sweep.specs.Kept.{IsLimboOf};
ghost use Rattle.sweep.specs.Moves.{IsEmpty};
ghost use Rattle.sweep.specs.Sweeps.{IsSoundSweep, IsKeptOutside, Shows as ShowsSweep};

use base_page::Page;
use bw_model::{Command, Key, Limits, Value};
use epochs::Limbo;
use op_parts::Errands;
use std::alloc::Allocator;
use std::marker::Model;
use structure_changes::{UpdateRecord, many_deltas};
use sweep::Sweep;

/// What an operation was asked, by whom, and what it is still to visit.
#[derive(Drop)]
pub(crate) struct Task {
    limits: Limits,
    actor: u8,
    command: Command,
    errands: Errands,
}

impl Model for Task {
    ghost use Rattle.std.specs.Prelude.{◌<◌};
    ghost use Rattle.op_machine.specs.machine.Tasks.{Task};

    ghost Value = { Task };

    ghost view = { λ t. record { limits = t.limits; actor = t.actor; command = t.command; errands = t.errands } };

    ghost invariant = { λ t. t.actor < t.limits.actors };
}

impl Task {
    /// A task without errands.
    pub(crate) fn new(command: Command, actor: u8, limits: &Limits) -> Task
        requires { actor < limits.now.actors }
        ensures { result ≡ record { limits = limits.now; actor = actor; command = command; errands = [] } }
    {
        Task {
            limits: *limits,
            actor,
            command,
            errands: Errands::new(),
        }
    }

    /// What the operation was asked.
    pub(crate) fn command(&self) -> &Command
        ensures { result.now ≡ self.now.command }
    {
        &self.command
    }

    /// The separators that it is still to visit, the newest last: at most `MAX_ERRANDS`.
    pub(crate) fn errands(&self) -> &[Key]
        ensures keys { result.now ≡ self.now.errands }
        ensures few { length self.now.errands ≤ 16 }
    {
        self.errands.keys()
    }

    /// How large the tree is.
    pub(crate) fn limits(&self) -> &Limits
        ensures { result.now ≡ self.now.limits }
    {
        &self.limits
    }

    /// The operation is asked another command, by another actor, on a tree of these limits.
    pub(crate) fn begin(&mut self, command: Command, actor: u8, limits: &Limits)
        requires { actor < limits.now.actors }
        ensures { self.new ≡ record { limits = limits.now; actor = actor; command = command; errands = [] } }
    {
        self.limits = *limits;
        self.actor = actor;
        self.command = command;
        self.errands.clear();
    }

    /// The newest errand's key, if there is an errand.
    pub(crate) fn errand(&self) -> Option<&Key>
        ensures { option_copied result ≡ slice_get self.now.errands (length self.now.errands - 1) }
    {
        self.errands.newest()
    }

    /// The newest errand is done.
    pub(crate) fn finish_errand(&mut self)
        ensures { self.new ≡ record self.old { errands = take (length self.old.errands - 1) self.old.errands } }
    {
        self.errands.finish();
    }

    /// There is one errand more, if there is room.
    pub(crate) fn add_errand(&mut self, key: Key)
        ensures { self.new ≡ record self.old { errands = with_errand key self.old.errands } }
    {
        self.errands.add(key);
    }

    /// The sweep with which a writer begins, if there is anything in limbo.
    pub(crate) fn sweep<A: Allocator>(&self, limbo: &mut Limbo<A>) -> Option<Sweep>
        requires lists { IsLimboOf self.now.limits limbo.old }
        ensures shows { (k : Knowledge) → IsKeptOutside self.now.limits self.now.actor limbo.old k
            → MatchOption result (IsKeptOutside self.now.limits self.now.actor limbo.new k) (λ sweep. ShowsSweep sweep limbo.new k) }
        ensures sound { IfSome result (λ sweep. IsSoundSweep sweep limbo.new) }
        ensures same { IfSome result (λ sweep. (sweep.limits ≡ self.now.limits) × (sweep.actor ≡ self.now.actor)) }
        ensures few { IfSome result (λ sweep. steps_of self.now.limits sweep.state < most_steps self.now.limits + 1) }
        ensures writer { IsSome result → is_writer self.now.command ≡ true }
        ensures all { is_writer self.now.command ≡ true → result ≡ None → IsEmpty limbo.old }
    {
        if !self.command.is_writer() {
            return None;
        }
        Sweep::begin(&self.limits, self.actor, limbo)
    }

    /// The newest errand's key, or the command's.
    pub(crate) fn way_key(&self) -> &Key
        ensures { result.now ≡ way_key self.now.errands self.now.command }
    {
        match self.errands.newest() {
            Some(key) => key,
            None => self.command.key(),
        }
    }

    /// At how many deltas the leaf that is looked for is consolidated: a tidying leaves none at the leaf of its key.
    pub(crate) fn due(&self) -> usize
        ensures due { result ≡ due_of self.now.limits self.now.errands self.now.command }
        ensures some { 0 < result }
    {
        match (&self.command, self.errands.newest()) {
            (Command::Tidy(_), None) => 1,
            _ => many_deltas(&self.limits, 0),
        }
    }

    /// Whether a round holds and removes small index pages on its way: that of a deletion or a tidying for its own key does.
    pub(crate) fn tends(&self) -> bool
        ensures { result ≡ tends_of self.now.errands self.now.command }
    {
        match (&self.command, self.errands.newest()) {
            (Command::Delete(_) | Command::DeleteIf(_, _) | Command::Tidy(_), None) => true,
            _ => false,
        }
    }

    /// Whether a round splits pages and makes roots on its way: in a small tree each does; in a large one that of an errand, or of a tidying.
    /// Where no PID is free, all others so come to their leaves.
    pub(crate) fn splits(&self) -> bool
        ensures { result ≡ splits_of self.now.limits self.now.errands self.now.command }
    {
        match (&self.command, self.errands.newest()) {
            (_, Some(_)) | (Command::Tidy(_), None) => true,
            _ => !self.limits.is_large,
        }
    }

    /// The record that a command places over the row `next` where it changes the map, its key having the value `old`, or none.
    pub(crate) fn update_over(&self, old: Option<&Value>, next: u32) -> UpdateRecord
        requires { is_some (update_of 0 self.now.command (option_copied old)) ≡ true }
        ensures { result ≡ update_over self.now.command (option_copied old.entry) next }
    {
        match &self.command {
            Command::Get(_) | Command::Page(_) | Command::Back(_) | Command::Tidy(_) => {
                unreachable!()
            }
            Command::Insert(key, value)
            | Command::Upsert(key, value)
            | Command::Swap(key, _, value) => UpdateRecord::put(next, key, value.copied()),
            Command::Add(key, number) => {
                let sum = old.map_or(Value::of_number(*number), |old| old.added(*number));
                UpdateRecord::put(next, key, sum)
            }
            Command::Delete(key) | Command::DeleteIf(key, _) => UpdateRecord::delete(next, key),
        }
    }
}
