//! Additions of several actors to few keys, in a drawn order: each key's number is the sum of what was added to it.

use crate::asked::draw;
use crate::by_hand::{MOST_ACTORS, let_go, reply};
use crate::numbered::key;
use crate::scripts::Size;
use bw_model::{Command, Reply, Value};
use rand_core::SeedableRng;
use rand_core::utils::NextWord;
use rand_pcg::Pcg32;
use std::alloc::Global;
use step_core::{Core, Event};
use traces::Turn;

/// How many keys there are, and how many turns are taken.
const KEYS: usize = 40;

const TURNS: u32 = 20_000;

/// What was added to each key, and how often a key had no value before; what each actor adds; how many additions were made, and how many
/// found no room.
#[derive(Drop)]
struct Sums {
    sums: [u64; KEYS],
    set: [u32; KEYS],
    adds: [(u32, u64); MOST_ACTORS as usize],
    made: u32,
    full: u32,
}

/// The value that spells a number.
fn spelled(number: u64) -> Value {
    Value::from_slice(&number.to_be_bytes()).unwrap_or_default()
}

/// A number of 64 bits.
fn drawn(rng: &mut Pcg32) -> u64 {
    u64::from(rng.next_word()) << 32 | u64::from(rng.next_word())
}

impl Sums {
    fn new() -> Sums {
        Sums {
            sums: [0; KEYS],
            set: [0; KEYS],
            adds: [(0, 0); MOST_ACTORS as usize],
            made: 0,
            full: 0,
        }
    }

    /// An actor begins to add a number to a key.
    fn begin(&mut self, actor: u8, number: u32, more: u64) -> Turn {
        self.adds[usize::from(actor % MOST_ACTORS)] = (number, more);
        Turn::Begin(actor, Command::Add(key(number), more))
    }

    /// The actor's addition has this reply; says whether it is one of an addition.
    fn ends(&mut self, actor: u8, reply: &Reply) -> bool {
        let (number, more) = self.adds[usize::from(actor % MOST_ACTORS)];
        let place = number as usize % KEYS;
        match reply {
            Reply::Full => {
                self.full = self.full.saturating_add(1);
                return true;
            }
            Reply::Set => self.set[place] = self.set[place].saturating_add(1),
            Reply::Replaced(old) if old.as_slice().len() == 8 => {}
            _ => return false,
        }
        self.made = self.made.saturating_add(1);
        self.sums[place] = self.sums[place].wrapping_add(more);
        true
    }

    /// Takes an actor's step; says whether that may be.
    fn steps(&mut self, core: &mut Core, actor: u8) -> bool {
        match core.turn(Turn::Step(actor)) {
            Ok(Event::Stepped(_)) => true,
            Ok(Event::Done(reply)) => self.ends(actor, &reply),
            _ => false,
        }
    }

    /// Takes a turn of one of so many actors.
    fn turn(&mut self, core: &mut Core, rng: &mut Pcg32, actors: u32) -> bool {
        let actor = (draw(rng, actors) % u32::from(MOST_ACTORS)) as u8;
        if core.is_busy(actor) {
            return self.steps(core, actor);
        }
        let (number, more) = (draw(rng, KEYS as u32), drawn(rng));
        let turn = self.begin(actor, number, more);
        core.turn(turn).is_ok()
    }

    /// Whether all turns may be, and each operation comes to its end then.
    fn runs(&mut self, core: &mut Core, seed: u64, actors: u32) -> bool {
        let mut rng = Pcg32::seed_from_u64(seed);
        for _ in 0..TURNS {
            if !self.turn(core, &mut rng, actors) {
                return false;
            }
        }
        for actor in 0..MOST_ACTORS {
            for _ in 0..1000u32 {
                if core.is_busy(actor) && !self.steps(core, actor) {
                    return false;
                }
            }
        }
        true
    }

    /// Whether each key's value spells its sum, and it was set once, unless nothing was added to it.
    fn are_there(&self, core: &mut Core) -> bool {
        for place in 0..KEYS {
            let wanted = match self.set[place] {
                0 => Reply::None,
                1 => Reply::Value(spelled(self.sums[place])),
                _ => return false,
            };
            if reply(core, 0, Command::Get(key(place as u32))) != Some(wanted) {
                return false;
            }
        }
        true
    }
}

/// How many additions were made, and how many found no room.
#[derive(Clone, Copy, Debug)]
struct Counts {
    made: u32,
    full: u32,
}

/// What additions of so many actors came to; none where a reply or a sum is wrong.
fn added(alloc: Global, size: Size, seed: u64, actors: u32) -> Option<Counts> {
    let mut core = size.opened(alloc, u64::from(actors))?;
    let mut sums = Sums::new();
    let right = sums.runs(&mut core, seed, actors) && sums.are_there(&mut core);
    let_go(core);
    let (made, full) = (sums.made, sums.full);
    right.then_some(Counts { made, full })
}

#[test]
fn additions_sum_up(rt: HostRuntime) {
    for (seed, actors) in [(1, 2), (2, 4), (3, 8), (4, 2), (5, 4), (6, 8)] {
        for size in [Size::Small(64, 1024), Size::Large(64, 1024)] {
            let added = added(rt.alloc(), size, seed, actors);
            assert!(rt;
                added.is_some_and(|added| added.made > 300),
                "{size:?}, {actors} actors: {added:?}"
            );
        }
    }
}

#[test]
fn additions_of_sixty_three_sum_up(rt: HostRuntime) {
    let added = added(rt.alloc(), Size::Large(192, 1024), 11, 63);
    assert!(rt; added.is_some_and(|added| added.made > 100), "{added:?}");
}

// With few rows some of the additions find no room, and add nothing.
#[test]
fn additions_that_find_no_room_add_nothing(rt: HostRuntime) {
    let mut full = 0u32;
    for seed in 7..11u64 {
        let added = added(rt.alloc(), Size::Small(64, 64), seed, 8);
        assert!(rt; added.is_some(), "seed {seed}");
        full = full.saturating_add(added.map_or(0, |added| added.full));
    }
    assert!(rt; full > 0, "{full} found no room");
}
