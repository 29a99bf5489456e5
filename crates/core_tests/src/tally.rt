//! How many pages of each level a trace splits off and removes, in which step the first of each goes, and how many PIDs are in use.

use bw_model::{Answer, Step};
use core_memory::Entries;
use deltas::Record;
use traces::Entry;

/// What happened on a level.
#[derive(Clone, Copy)]
pub(crate) struct Level {
    pub(crate) splits: u32,
    pub(crate) removals: u32,
    /// In which operation the first removal is, by how many began before it; in which of the steps since then, and how many there are.
    pub(crate) operation: u32,
    pub(crate) step: u32,
    pub(crate) steps: u32,
}

/// How many pages of a level were removed, and in which operation, and which of its steps, the first one was.
#[derive(Clone, Copy, Debug, PartialEq)]
pub(crate) struct Removals {
    pub(crate) pages: u32,
    pub(crate) operation: u32,
    pub(crate) step: u32,
}

/// What a record does to the pages of its level.
#[derive(Clone, Copy)]
enum Change {
    Split(u8),
    Remove(u8),
}

/// What a record is for, where it is one that is counted.
fn change_of(record: &Record) -> Option<Change> {
    match record {
        Record::Split(split) => Some(Change::Split(split.level)),
        Record::Remove(remove) => Some(Change::Remove(remove.level)),
        _ => None,
    }
}

/// The levels from the leaves on that are counted, up to that of the root of a large tree.
const LEVELS: usize = 5;

/// What a trace has come to.
#[derive(Drop)]
pub(crate) struct Tally {
    pub(crate) levels: [Level; LEVELS],
    /// How many steps there were.
    pub(crate) turns: u32,
    /// How many PIDs are in use, and how many were at most. PID 0 and those in limbo are among them.
    pub(crate) used: u32,
    pub(crate) most_used: u32,
    begun: u32,
    step: u32,
    placed: [Option<(u32, Change)>; 16],
}

const NOTHING: Level = Level {
    splits: 0,
    removals: 0,
    operation: 0,
    step: 0,
    steps: 0,
};

impl Tally {
    /// Of a whole trace.
    pub(crate) fn of(entries: &Entries) -> Tally {
        let mut tally = Tally {
            levels: [NOTHING; LEVELS],
            turns: 0,
            used: 2,
            most_used: 2,
            begun: 0,
            step: 0,
            placed: [None; 16],
        };
        for place in 0..entries.len() {
            if let Some(entry) = entries.entry(place) {
                tally.add(&entry);
            }
        }
        tally
    }

    /// The removals of each level.
    pub(crate) fn removals(&self) -> [Removals; LEVELS] {
        self.levels.map(|level| Removals {
            pages: level.removals,
            operation: level.operation,
            step: level.step,
        })
    }

    /// How many pages each level has, where each removed one was cleared: one where none was split, also above the root.
    pub(crate) fn pages(&self) -> [u32; LEVELS] {
        self.levels.map(|level| level.splits.wrapping_sub(level.removals).wrapping_add(1))
    }

    fn add(&mut self, entry: &Entry) {
        match entry {
            Entry::Begin(_, _) => {
                self.begun = self.begun.wrapping_add(1);
                self.step = 0;
            }
            Entry::Step(actor, step, answer, _) => {
                self.turns = self.turns.wrapping_add(1);
                self.step = self.step.wrapping_add(1);
                match answer {
                    Answer::Whether(true) => self.win(*actor, step),
                    Answer::Done => self.take(*actor, step),
                    _ => {}
                }
                self.lengthen();
            }
        }
    }

    /// A step that may fail, and hasn't.
    fn win(&mut self, actor: u8, step: &Step<Record>) {
        match step {
            Step::Exchange(_, _, row) => self.link(actor, *row),
            Step::TakePid(_) => {
                self.used = self.used.wrapping_add(1);
                self.most_used = self.most_used.max(self.used);
            }
            _ => {}
        }
    }

    /// A step that is done without an answer.
    fn take(&mut self, actor: u8, step: &Step<Record>) {
        match step {
            Step::Place(row, record) => {
                self.placed[usize::from(actor % 16)] = match change_of(record) {
                    Some(change) => Some((*row, change)),
                    None => None,
                };
            }
            Step::ReusePids(_, bits) => {
                self.used = self.used.wrapping_sub(bits.count_ones());
            }
            _ => {}
        }
    }

    /// An exchange has won.
    fn link(&mut self, actor: u8, row: u32) {
        if let Some((placed, change)) = self.placed[usize::from(actor % 16)] {
            if placed == row {
                self.change(change);
            }
        }
    }

    fn change(&mut self, change: Change) {
        let (operation, step) = (self.begun.wrapping_sub(1), self.step);
        match change {
            Change::Split(level) => {
                let level = &mut self.levels[usize::from(level) % LEVELS];
                level.splits = level.splits.wrapping_add(1);
            }
            Change::Remove(level) => {
                let level = &mut self.levels[usize::from(level) % LEVELS];
                if level.removals == 0 {
                    level.operation = operation;
                    level.step = step;
                }
                level.removals = level.removals.wrapping_add(1);
            }
        }
    }

    /// The operation of a first removal goes on.
    fn lengthen(&mut self) {
        let (operation, step) = (self.begun.wrapping_sub(1), self.step);
        for level in self.levels.iter_mut() {
            if level.removals > 0 && level.operation == operation {
                level.steps = step;
            }
        }
    }
}
