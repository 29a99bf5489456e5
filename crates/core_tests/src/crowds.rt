//! Fifteen actors that stop in the middle of removals, one behind each of its five exchanges on each of three levels, in drawn trees: whatever
//! the sixteenth is asked then comes to its end, in few rounds and steps.

use crate::asked::draw;
use crate::by_hand::{MOST_STEPS, begins, end, finish, replies};
use crate::numbered::{insert, key, value};
use crate::scripts::{Ask, Size};
use crate::stood::{STAGES, stood};
use bw_model::{Command, Link, Reply};
use rand_core::SeedableRng;
use rand_pcg::Pcg32;
use std::alloc::Global;
use step_core::Core;

/// How many numbers there are, of which most come as keys.
const NUMBERS: u32 = 2048;

/// Who runs beside the others.
const LAST: u8 = 15;

/// Which keys stand.
#[derive(Drop)]
struct Keys {
    are: [bool; NUMBERS as usize],
}

impl Keys {
    fn none() -> Keys {
        Keys {
            are: [false; NUMBERS as usize],
        }
    }

    fn has(&self, number: u32) -> bool {
        self.are[(number % NUMBERS) as usize]
    }

    fn set(&mut self, number: u32, is: bool) {
        self.are[(number % NUMBERS) as usize] = is;
    }

    fn count(&self) -> usize {
        self.are.iter().filter(|is| **is).count()
    }
}

/// Whether most numbers come, in their order, each as it is drawn.
fn is_filled(core: &mut Core, keys: &mut Keys, rng: &mut Pcg32) -> bool {
    for number in 0..NUMBERS {
        if draw(rng, 8) == 0 {
            continue;
        }
        if !replies(core, LAST, insert(number), Reply::Inserted) {
            return false;
        }
        keys.set(number, true);
    }
    true
}

/// What one step of an actor's delete has come to.
#[derive(Clone, Copy, PartialEq, Eq)]
enum Way {
    Goes,
    Stops,
    Ends,
}

/// Behind which exchange of a removal on which level an actor stops, and how many pages its operation has cleared so far.
#[derive(Clone, Copy)]
struct Stop {
    link: Link,
    level: u32,
    cleared: u32,
}

impl Stop {
    /// The one of an actor.
    fn of(actor: u8) -> Stop {
        Stop {
            link: STAGES[usize::from(actor) % 5],
            level: u32::from(actor) / 5,
            cleared: 0,
        }
    }

    /// Takes an exchange that has won.
    fn takes(&mut self, link: Link) -> Way {
        let is_there = link == self.link && self.cleared == self.level;
        if link == Link::Clear {
            self.cleared = self.cleared.saturating_add(1);
        }
        if is_there { Way::Stops } else { Way::Goes }
    }
}

/// How an actor's delete goes on until it stops or ends; none where it takes too many steps.
fn goes(core: &mut Core, actor: u8, stop: &mut Stop) -> Option<Way> {
    for _ in 0..MOST_STEPS {
        match core.step_on(actor) {
            None => return Some(Way::Ends),
            Some(Some(link)) if stop.takes(link) == Way::Stops => return Some(Way::Stops),
            Some(_) => {}
        }
    }
    None
}

/// The most keys that an actor deletes before it stops.
const MOST_DELETED: u32 = 1_000;

/// At which key an actor comes to stop that deletes keys from a number down. None where a reply is wrong; the least number where it hasn't stopped.
fn stopped_at(core: &mut Core, keys: &mut Keys, actor: u8, from: u32) -> Option<u32> {
    let mut stop = Stop::of(actor);
    let least = from.saturating_sub(MOST_DELETED);
    for number in (least..from).rev() {
        if !keys.has(number) {
            continue;
        }
        stop.cleared = 0;
        if !begins(core, actor, Command::Delete(key(number))) {
            return None;
        }
        if goes(core, actor, &mut stop)? == Way::Stops {
            return Some(number);
        }
        if end(core, actor) != Some(Reply::Deleted(value(number))) {
            return None;
        }
        keys.set(number, false);
    }
    Some(least)
}

/// From where an actor deletes: the higher its level is, the more it takes to remove a page there.
fn start(actor: u8, rng: &mut Pcg32) -> u32 {
    let part = u32::from(actor) % 5;
    let drawn = draw(rng, 512) % 512;
    match actor / 5 {
        0 => 100 + part * 280 + drawn,
        1 => 300 + part * 250 + drawn,
        _ => 600 + part * 200 + drawn,
    }
}

/// Where all of them come to stop, one after another in a drawn order.
fn crowd(core: &mut Core, keys: &mut Keys, rng: &mut Pcg32) -> Option<[u32; 15]> {
    let mut places = [0; 15];
    let first = draw(rng, 15);
    for turn in 0..15u32 {
        let actor = (first.wrapping_add(turn * 7) % 15) as u8;
        let from = start(actor, rng);
        places[usize::from(actor) % 15] = stopped_at(core, keys, actor, from)?;
    }
    Some(places)
}

/// A command of a kind on a key.
fn ask(kind: u32, number: u32) -> Ask {
    match kind {
        0 => Ask::Get(number),
        1 => Ask::Page(number),
        2 => Ask::Insert(number),
        3 => Ask::Upsert(number, number),
        4 => Ask::Delete(number),
        5 => Ask::Swap(number, number, number),
        _ => Ask::Tidy(number),
    }
}

/// What it replies, by whether the key stands; of a cursor page nothing.
fn wanted(kind: u32, number: u32, has: bool) -> Option<Reply> {
    let of = value(number);
    let reply = match (kind, has) {
        (0, true) => Reply::Value(of),
        (0, false) => Reply::None,
        (1, _) => return None,
        (2, true) => Reply::Exists(of),
        (2, false) => Reply::Inserted,
        (3, true) => Reply::Replaced(of),
        (3, false) => Reply::Set,
        (4, true) => Reply::Deleted(of),
        (5, true) => Reply::Swapped,
        (4 | 5, false) => Reply::Absent,
        _ => Reply::Tidied,
    };
    Some(reply)
}

/// Takes a command of the last actor to its end; in how many steps. None where they are too many, or its reply is wrong.
fn taken(core: &mut Core, keys: &mut Keys, kind: u32, number: u32) -> Option<u32> {
    let wanted = wanted(kind, number, keys.has(number));
    if !begins(core, LAST, ask(kind, number).command()) {
        return None;
    }
    if kind == 2 || kind == 3 || kind == 4 {
        keys.set(number, kind != 4);
    }
    for steps in 1..=MOST_STEPS {
        if core.step_on(LAST).is_none() {
            let reply = end(core, LAST)?;
            return (wanted.is_none() || wanted == Some(reply)).then_some(steps);
        }
    }
    None
}

/// The most steps that a command of a kind takes beside them, at the keys where they stand, and on both sides of these.
fn most(core: &mut Core, keys: &mut Keys, kind: u32, places: [u32; 15]) -> Option<u32> {
    let mut most = 0u32;
    for place in places {
        for beside in [16, 12, 20, 8, 24] {
            let number = place.saturating_add(beside).saturating_sub(16) % NUMBERS;
            most = most.max(taken(core, keys, kind, number)?);
        }
    }
    Some(most)
}

/// Whether each that stands comes to its end then, the first one first, and nothing but the keys that are to stand does.
fn all_end(alloc: Global, core: &mut Core, keys: &Keys) -> bool {
    for actor in 0..LAST {
        if core.is_busy(actor) && finish(core, actor).is_none() {
            return false;
        }
    }
    match core.listing(alloc) {
        Ok(pairs) => pairs.len() <= keys.count(),
        Err(_) => false,
    }
}

/// What is seen of a crowd: who stood where, a bit for each exchange on each level; the most steps of a command and the most rounds.
#[derive(Clone, Copy, Debug, PartialEq, Eq)]
struct Seen {
    kinds: u32,
    steps: u32,
    rounds: u32,
}

const NOTHING: Seen = Seen {
    kinds: 0,
    steps: 0,
    rounds: 0,
};

impl Seen {
    /// The most of both.
    fn and(self, more: Seen) -> Seen {
        Seen {
            kinds: self.kinds | more.kinds,
            steps: self.steps.max(more.steps),
            rounds: self.rounds.max(more.rounds),
        }
    }
}

/// How many entries there are when all stand, and the most steps of a command beside them.
#[derive(Clone, Copy)]
struct Moment {
    entries: u64,
    steps: u32,
}

/// When all stand, and what a command of a kind takes then; none where anything is wrong.
fn stands(alloc: Global, core: &mut Core, kind: u32, seed: u64) -> Option<Moment> {
    let mut rng = Pcg32::seed_from_u64(seed);
    let mut keys = Keys::none();
    if !is_filled(core, &mut keys, &mut rng) {
        return None;
    }
    let places = crowd(core, &mut keys, &mut rng)?;
    let entries = core.turns();
    let steps = most(core, &mut keys, kind, places)?;
    all_end(alloc, core, &keys).then_some(Moment { entries, steps })
}

/// What commands of a kind took in a new tree, beside all that stand there.
fn watched(alloc: Global, size: Size, kind: u32, seed: u64) -> Option<Seen> {
    let mut core = size.opened(alloc, 16)?;
    let stands = stands(alloc, &mut core, kind, seed);
    let trace = core.into_trace();
    let moment = stands?;
    let standing = stood(&trace.entries, moment.entries);
    Some(Seen {
        kinds: standing.kinds,
        steps: moment.steps,
        rounds: standing.rounds,
    })
}

/// How many crowds there are for each kind of command.
const SEEDS: u64 = 2;

/// The most of the crowds of a kind of command, which are other ones for each kind.
fn most_seen(alloc: Global, size: Size, kind: u32) -> Option<Seen> {
    let mut most = NOTHING;
    for seed in 0..SEEDS {
        let drawn = u64::from(kind) * SEEDS + seed;
        most = most.and(watched(alloc, size, kind, drawn)?);
    }
    Some(most)
}

/// A small tree and a large one.
const SMALL: Size = Size::Small(2048, 16384);

const LARGE: Size = Size::Large(2048, 16384);

/// The most steps and rounds of a command of each kind in each tree.
const MOST: [(u32, Size, u32, u32); 14] = [
    (0, SMALL, 29, 1),
    (0, LARGE, 14, 1),
    (1, SMALL, 35, 1),
    (1, LARGE, 15, 1),
    (2, SMALL, 418, 6),
    (2, LARGE, 112, 6),
    (3, SMALL, 341, 6),
    (3, LARGE, 106, 6),
    (4, SMALL, 1605, 34),
    (4, LARGE, 574, 49),
    (5, SMALL, 85, 2),
    (5, LARGE, 90, 2),
    (6, SMALL, 2901, 50),
    (6, LARGE, 840, 72),
];

/// Where actors have stood: behind each exchange of a removal on each of the three lowest levels.
const EACH: u32 = 0x7fff;

#[test]
fn every_command_ends_beside_fifteen(rt: HostRuntime) {
    let mut kinds = 0;
    for (kind, size, steps, rounds) in MOST {
        let seen = most_seen(rt.alloc(), size, kind);
        assert!(rt;
            seen.is_some_and(|seen| seen.steps == steps && seen.rounds == rounds),
            "kind {kind}, {size:?}: {seen:?}"
        );
        kinds |= seen.map_or(0, |seen| seen.kinds);
    }
    assert!(rt; kinds == EACH, "{kinds:x}");
}
