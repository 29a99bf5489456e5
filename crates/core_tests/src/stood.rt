//! Who stands behind which exchange of a removal at a moment of a trace, and how many rounds the last actor takes from then on.

use bw_model::{Answer, Link, Step};
use core_memory::Entries;
use deltas::Record;
use traces::Entry;

/// The exchanges of a removal, in their order.
pub(crate) const STAGES: [Link; 5] = [
    Link::Hold,
    Link::Remove,
    Link::Merge,
    Link::Unterm,
    Link::Clear,
];

/// More rows than the trees of these tests have.
const ROWS: u32 = 16384;

/// An exchange of a removal, by its place, and the level of the page that is removed.
#[derive(Clone, Copy)]
struct Stage {
    place: u32,
    level: u32,
}

impl Stage {
    /// A bit for each of the three lowest levels and each exchange.
    fn bit(self) -> u32 {
        if self.level < 3 {
            1 << (self.level * 5 + self.place % 5)
        } else {
            0
        }
    }
}

/// The stage that an exchange comes to which links the record, if it is one of a removal.
fn stage_of(record: &Record) -> Option<Stage> {
    let (place, level) = match record {
        Record::Hold(hold) => (0, hold.level.saturating_sub(1)),
        Record::Remove(remove) => (1, remove.level),
        Record::Merge(merge) => (2, merge.level),
        Record::Unterm(unterm) => (3, unterm.level.saturating_sub(1)),
        _ => return None,
    };
    Some(Stage {
        place,
        level: u32::from(level),
    })
}

/// The last actor.
const LAST: u8 = 15;

/// What a trace has come to: the stage of the record in each row, the stage of each actor's last exchange in its operation, and the rounds of the
/// last actor, with the most of a command.
#[derive(Drop)]
struct Watch {
    placed: [Option<Stage>; ROWS as usize],
    stages: [Option<Stage>; 16],
    rounds: u32,
    most: u32,
}

impl Watch {
    /// Takes an exchange that has won: it links the record in a row, or empties the slot of the page that another row removed.
    fn win(&mut self, actor: u8, old: u32, new: u32) {
        let linked = self.placed[(new % ROWS) as usize];
        let cleared = self.placed[(old % ROWS) as usize];
        self.stages[usize::from(actor % 16)] = match (new, linked, cleared) {
            (0, _, Some(stage)) if stage.place == 1 => Some(Stage { place: 4, ..stage }),
            (0, _, _) => None,
            (_, linked, _) => linked,
        };
    }

    /// Takes a step that was done or has won.
    fn take(&mut self, actor: u8, step: &Step<Record>) {
        match step {
            Step::Place(row, record) => self.placed[(*row % ROWS) as usize] = stage_of(record),
            Step::Exchange(_, old, new) => self.win(actor, *old, *new),
            _ => {}
        }
    }

    fn add(&mut self, entry: &Entry) {
        match entry {
            Entry::Begin(actor, _) => {
                self.stages[usize::from(actor % 16)] = None;
                if *actor == LAST {
                    self.rounds = 0;
                }
            }
            Entry::Step(LAST, Step::Slot(0), _, _) => {
                self.rounds = self.rounds.saturating_add(1);
                self.most = self.most.max(self.rounds);
            }
            Entry::Step(actor, step, Answer::Done | Answer::Whether(true), _) => {
                self.take(*actor, step);
            }
            _ => {}
        }
    }

    /// A bit for each stage behind which an actor stands.
    fn bits(&self) -> u32 {
        let mut bits = 0;
        for stage in self.stages.iter().flatten() {
            bits |= stage.bit();
        }
        bits
    }
}

/// A bit for each stage behind which an actor stands, and the most rounds of a command of the last actor from then on.
#[derive(Clone, Copy)]
pub(crate) struct Standing {
    pub(crate) kinds: u32,
    pub(crate) rounds: u32,
}

/// Who stands after so many entries of a trace.
pub(crate) fn stood(entries: &Entries, moment: u64) -> Standing {
    let mut watch = Watch {
        placed: [None; ROWS as usize],
        stages: [None; 16],
        rounds: 0,
        most: 0,
    };
    let mut kinds = 0;
    for place in 0..entries.len() {
        if place == moment {
            kinds = watch.bits();
            watch.most = 0;
        }
        if let Some(entry) = entries.entry(place) {
            watch.add(&entry);
        }
    }
    Standing {
        kinds,
        rounds: watch.most,
    }
}
