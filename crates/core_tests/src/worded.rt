//! Commands by the words of a generator, of actors in the order of a schedule, beside a map of the standard library.

use crate::by_hand::{begins, let_go};
use crate::named::key;
use crate::scripts::opened;
use bw_model::{Command, Key, Link, Schedule, Value};
use rand_core::SeedableRng;
use rand_core::utils::NextWord;
use rand_pcg::Pcg32;
use std::alloc::Global;
use std::collections::BTreeMap;
use step_core::{Core, Event};
use traces::Turn;

/// The value that tells a turn's number; the empty one where there is no memory.
fn value(alloc: Global, turn: u64) -> Value {
    match format!(in alloc; "v{turn}") {
        Ok(text) => Value::from_slice(text.as_bytes()).unwrap_or_default(),
        Err(_) => Value::default(),
    }
}

/// How many actors there are, and how many keys.
const ACTORS: u8 = 4;

const KEYS: u32 = 64;

/// How many turns are taken, and after how many of them the core is listed each time.
const TURNS: u32 = 20_000;

const LISTED: u32 = 1_000;

/// A command: the word that it is drawn by, and the number of the turn that begins it, which its value tells.
#[derive(Clone, Copy)]
struct Asked {
    word: u32,
    turn: u64,
}

impl Asked {
    fn key(self) -> u32 {
        self.word % KEYS
    }

    fn command(self, alloc: Global) -> Command {
        let key = key(self.key());
        match self.word / KEYS % 6 {
            0 => Command::Get(key),
            1 => Command::Insert(key, value(alloc, self.turn)),
            2 => Command::Upsert(key, value(alloc, self.turn)),
            3 => Command::Delete(key),
            4 => Command::Page(key),
            _ => Command::Tidy(key),
        }
    }
}

/// Each key that has a value, with the turn of the command that gave it, and what each actor was asked last.
#[derive(Drop)]
struct Beside {
    map: BTreeMap<u32, u64>,
    asked: [Asked; ACTORS as usize],
}

impl Beside {
    fn new(alloc: Global) -> Beside {
        let none = Asked { word: 0, turn: 0 };
        Beside {
            map: BTreeMap::new(alloc),
            asked: [none; ACTORS as usize],
        }
    }

    fn asked(&mut self, actor: u8) -> &mut Asked {
        &mut self.asked[usize::from(actor % ACTORS)]
    }

    /// An exchange of the actor has won; says whether there was memory.
    fn link(&mut self, actor: u8, link: Link) -> bool {
        let asked = *self.asked(actor);
        match link {
            Link::Put => self.map.insert(asked.key(), asked.turn).is_ok(),
            Link::Delete => {
                let _ = self.map.remove(&asked.key());
                true
            }
            _ => true,
        }
    }

    /// Whether these are the map's pairs.
    fn has(&self, alloc: Global, pairs: &[(Key, Value)]) -> bool {
        let mut left = pairs.iter();
        for (number, turn) in self.map.iter() {
            match left.next() {
                Some((at, had)) if *at == key(*number) && *had == value(alloc, *turn) => {}
                _ => return false,
            }
        }
        left.next().is_none()
    }

    /// Whether the core lists them.
    fn is_listed(&self, alloc: Global, core: &Core) -> bool {
        match core.listing(alloc) {
            Ok(pairs) => self.has(alloc, pairs.as_slice()),
            Err(_) => false,
        }
    }
}

/// Takes a turn of an actor; where it has no operation it begins one, by the next word. Says whether the turn was taken.
fn turn(alloc: Global, core: &mut Core, beside: &mut Beside, words: &mut Pcg32, actor: u8) -> bool {
    if !core.is_busy(actor) {
        let asked = Asked {
            word: words.next_word(),
            turn: core.turns(),
        };
        *beside.asked(actor) = asked;
        return begins(core, actor, asked.command(alloc));
    }
    match core.turn(Turn::Step(actor)) {
        Ok(Event::Stepped(Some(link))) => beside.link(actor, link),
        Ok(Event::Stepped(None) | Event::Done(_)) => true,
        _ => false,
    }
}

/// Whether the core takes all turns of a seed, and lists the map's pairs after each thousand.
fn agrees(alloc: Global, core: &mut Core, beside: &mut Beside, seed: u64) -> bool {
    let mut schedule = Schedule::new(seed, ACTORS);
    let mut words = Pcg32::seed_from_u64(seed.wrapping_add(1_000));
    for number in 1..=TURNS {
        if !turn(alloc, core, beside, &mut words, schedule.next()) {
            return false;
        }
        if number % LISTED == 0 && !beside.is_listed(alloc, core) {
            return false;
        }
    }
    true
}

/// Whether a new core does, and some key has a value at the end.
fn agrees_anew(alloc: Global, seed: u64) -> bool {
    match opened(alloc, u64::from(ACTORS), 256, 4096, 1) {
        Some(mut core) => {
            let mut beside = Beside::new(alloc);
            let agrees = agrees(alloc, &mut core, &mut beside, seed);
            let_go(core);
            agrees && beside.map.len() > 0
        }
        None => false,
    }
}

#[test]
fn schedules_1_to_8(rt: HostRuntime) {
    for seed in 1..=8u64 {
        let agrees = agrees_anew(rt.alloc(), seed);
        assert!(rt; agrees, "seed {seed}");
    }
}
