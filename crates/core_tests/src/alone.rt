//! Actors that stop for ever in the middle of their operations, in a seeded order: whichever operation runs alone comes to its end, in few
//! steps, and no operation takes many rounds but for changes of the tree.

use crate::accounts::settled;
use crate::asked::{Asked, Mix, draw};
use crate::by_hand::MOST_STEPS;
use crate::numbered::key;
use crate::schedules::{Twin, asks, steps};
use crate::scripts::Size;
use bw_model::{Answer, Step};
use core_memory::Entries;
use rand_core::SeedableRng;
use rand_pcg::Pcg32;
use std::alloc::Global;
use step_core::Core;
use traces::Entry;

/// How many actors there are, of which two never stop.
const ACTORS: u32 = 16;

/// How many turns are drawn.
const TURNS: u32 = 12_000;

/// Who has stopped, a bit an actor.
#[derive(Clone, Copy)]
struct Crowd {
    stopped: u32,
}

impl Crowd {
    fn has_stopped(self, actor: u8) -> bool {
        self.stopped >> (u32::from(actor) % 32) & 1 == 1
    }

    /// An actor stops, but for the last two.
    fn stop(&mut self, actor: u8) {
        if u32::from(actor) < ACTORS - 2 {
            self.stopped |= 1 << (u32::from(actor) % 32);
        }
    }
}

/// Whether an actor's operation comes to its end while nobody else takes a step.
fn ends_alone(core: &mut Core, twin: &mut Twin, actor: u8) -> bool {
    for _ in 0..MOST_STEPS {
        match steps(core, twin, actor) {
            None => return false,
            Some(true) => return true,
            Some(false) => {}
        }
    }
    false
}

/// Whether each operation that is under way does, that of the last actor first.
fn all_end_alone(core: &mut Core, twin: &mut Twin) -> bool {
    for actor in (0..16u8).rev() {
        if core.is_busy(actor) && !ends_alone(core, twin, actor) {
            return false;
        }
    }
    true
}

/// Which commands over how many keys, by which seed, in a tree of which size.
#[derive(Clone, Copy)]
struct Case {
    mix: Mix,
    keys: u32,
    seed: u64,
    size: Size,
}

impl Case {
    /// Takes a turn of an actor that is drawn: it is asked, stops, runs alone to its end, or takes a step. Says whether what it did may be.
    fn turn(self, core: &mut Core, twin: &mut Twin, rng: &mut Pcg32, crowd: &mut Crowd) -> bool {
        let actor = (draw(rng, ACTORS) % 16) as u8;
        if crowd.has_stopped(actor) {
            return true;
        }
        if !core.is_busy(actor) {
            let kind = self.mix.drawn(rng);
            let asked = Asked::drawn(kind, rng, self.keys);
            return asks(core, twin, actor, self.mix, asked);
        }
        match draw(rng, 1024) {
            0..=3 => {
                crowd.stop(actor);
                true
            }
            4..=35 => ends_alone(core, twin, actor),
            _ => steps(core, twin, actor).is_some(),
        }
    }

    /// Takes all turns, and then lets each that hasn't come to its end run alone.
    fn runs(self, core: &mut Core, twin: &mut Twin) -> Option<Crowd> {
        let mut rng = Pcg32::seed_from_u64(self.seed);
        let mut crowd = Crowd { stopped: 0 };
        for _ in 0..TURNS {
            if !self.turn(core, twin, &mut rng, &mut crowd) {
                return None;
            }
        }
        all_end_alone(core, twin).then_some(crowd)
    }
}

/// What has happened so far: how many changes of the tree; and of each actor's operation how many there were when it began, and in how many
/// rounds it is.
#[derive(Drop)]
struct Rounds {
    changes: u32,
    begun: [u32; 16],
    rounds: [u32; 16],
}

impl Rounds {
    /// Takes an entry. Says whether its operation has begun at most twice as many rounds as there were changes since it began, and two.
    fn are_few(&mut self, entry: &Entry) -> bool {
        match entry {
            Entry::Begin(actor, _) => {
                let place = usize::from(actor % 16);
                self.begun[place] = self.changes;
                self.rounds[place] = 0;
                true
            }
            Entry::Step(actor, step, answer, _) => {
                let place = usize::from(actor % 16);
                match (step, answer) {
                    (Step::Slot(0), _) => self.rounds[place] = self.rounds[place].wrapping_add(1),
                    (Step::Exchange(_, 1.., 1..), Answer::Whether(true)) => {
                        self.changes = self.changes.wrapping_add(1);
                    }
                    _ => {}
                }
                let since = self.changes.wrapping_sub(self.begun[place]);
                self.rounds[place] <= since.wrapping_add(1).wrapping_mul(2)
            }
        }
    }
}

/// Whether no operation of a trace has begun more rounds than that.
fn has_few_rounds(entries: &Entries) -> bool {
    let mut rounds = Rounds {
        changes: 0,
        begun: [0; 16],
        rounds: [0; 16],
    };
    for place in 0..entries.len() {
        match entries.entry(place) {
            Some(entry) if rounds.are_few(&entry) => {}
            _ => return false,
        }
    }
    true
}

/// How many actors have stopped; none where anything was wrong, an operation alone didn't end, or a round was too many.
fn stopped(alloc: Global, case: Case) -> Option<u32> {
    let mut twin = Twin::new(alloc).ok()?;
    let mut core = case.size.opened(alloc, u64::from(ACTORS))?;
    let crowd = case.runs(&mut core, &mut twin);
    let trace = settled(core, &key(1023))?;
    let few = has_few_rounds(&trace.entries);
    let crowd = crowd?;
    few.then_some(crowd.stopped.count_ones())
}

/// Whether most actors stop in each tree of a seed, and whoever runs alone comes to its end.
fn end_alone(alloc: Global, seed: u64) -> bool {
    for (mix, keys) in [(Mix::Seven, 64), (Mix::Seven, 676), (Mix::ManyDeletes, 300)] {
        for size in [
            Size::Small(256, 4096),
            Size::Large(256, 4096),
            Size::Small(64, 64),
        ] {
            let case = Case {
                mix,
                keys,
                seed,
                size,
            };
            if stopped(alloc, case) <= Some(10) {
                return false;
            }
        }
    }
    true
}

#[test]
fn operations_end_alone(rt: HostRuntime) {
    for seed in 0..6u64 {
        assert!(rt; end_alone(rt.alloc(), seed), "seed {seed}");
    }
}
