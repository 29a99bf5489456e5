//! Several actors in a seeded order over few keys and over many, with much room and with little, beside a plain map.

use crate::accounts::is_settled;
use crate::asked::{Asked, Kind, Mix, bit, draw};
use crate::by_hand::MOST_ACTORS;
use crate::numbered::key;
use crate::plain_map::{ABSENT, PlainMap};
use crate::scripts::Size;
use bw_model::{Key, Link, Pairs, Reply};
use rand_core::SeedableRng;
use rand_pcg::Pcg32;
use std::alloc::{AllocError, Global};
use step_core::{Core, Event};
use traces::Turn;

/// What was seen of a schedule: how many roots were put over others, and how many slots of merged pages were cleared; whether a reply was
/// that there is no room, and whether a key was changed after one.
#[derive(Clone, Copy)]
struct Seen {
    roots: u32,
    cleared: u32,
    full: bool,
    changed_since: bool,
}

/// The plain map, by the numbers of keys and values; what each actor was asked last; and what was seen so far.
#[derive(Drop)]
pub(crate) struct Twin {
    pub(crate) map: PlainMap,
    asked: Vec<Asked>,
    seen: Seen,
}

const NOTHING: Seen = Seen {
    roots: 0,
    cleared: 0,
    full: false,
    changed_since: false,
};

impl Twin {
    pub(crate) fn new(alloc: Global) -> Result<Twin, AllocError> {
        Ok(Twin {
            map: PlainMap::new(alloc)?,
            asked: vec![in alloc; Asked::idle(); usize::from(MOST_ACTORS)]?,
            seen: NOTHING,
        })
    }

    /// An actor is asked.
    fn begin(&mut self, actor: usize, mix: Mix, asked: &mut Asked) {
        let had = self.map.value(asked.key);
        if matches!(mix, Mix::Swaps | Mix::Ten | Mix::Shrinking) && had != ABSENT {
            asked.expected = had;
        }
        asked.met = bit(had);
        asked.since = self.map.moment();
        if let Some(place) = self.asked.get_mut(actor) {
            *place = *asked;
        }
    }

    /// The actor's update takes effect.
    fn update(&mut self, actor: usize) -> Result<(), AllocError> {
        self.seen.changed_since = self.seen.full;
        let Some(own) = self.asked.get_mut(actor) else {
            return Ok(());
        };
        let key = own.key;
        let old = self.map.value(key);
        let left = own.left(old);
        own.changed = Some(old);
        for asked in self.asked.iter_mut() {
            if asked.key == key {
                asked.met |= bit(left);
            }
        }
        self.map.set(key, left)
    }

    /// An exchange of the actor has won.
    fn link(&mut self, actor: usize, link: Link) -> Result<(), AllocError> {
        match link {
            Link::Put | Link::Delete => self.update(actor)?,
            Link::Root => self.seen.roots = self.seen.roots.saturating_add(1),
            Link::Clear => self.seen.cleared = self.seen.cleared.saturating_add(1),
            _ => {}
        }
        Ok(())
    }

    fn may_reply(&mut self, actor: usize, reply: &Reply) -> bool {
        if *reply == Reply::Full {
            self.seen.full = true;
        }
        let Some(asked) = self.asked.get(actor) else {
            return false;
        };
        match reply {
            Reply::Page { items, next } => asked.kind == Kind::Page && self.had(asked, items, next),
            Reply::BackPage { items, next } => {
                asked.kind == Kind::Back && self.had(asked, items, next)
            }
            _ => asked.may_reply(reply),
        }
    }

    /// Whether the page, of its command's direction, was the map's at a moment since it was asked for.
    fn had(&self, asked: &Asked, items: &Pairs, next: &Option<Key>) -> bool {
        let (since, next) = (asked.since, next.as_ref());
        let had = if asked.kind == Kind::Back {
            self.map.had_back_page(since, asked.key, items, next)
        } else {
            self.map.had_page(since, asked.key, items, next)
        };
        had == Ok(true)
    }

    /// Whether the core lists exactly the map's pairs.
    fn is_listed(&self, alloc: Global, core: &Core) -> bool {
        match core.listing(alloc) {
            Ok(pairs) => self.map.has(pairs.as_slice()),
            Err(_) => false,
        }
    }
}

/// How many actors take how many turns, with commands of which kinds over how many keys.
#[derive(Clone, Copy)]
pub(crate) struct Schedule {
    pub(crate) seed: u64,
    pub(crate) actors: u32,
    pub(crate) turns: u32,
    pub(crate) mix: Mix,
    pub(crate) keys: u32,
}

/// Begins what an actor is asked; says whether it may.
pub(crate) fn asks(core: &mut Core, twin: &mut Twin, actor: u8, mix: Mix, asked: Asked) -> bool {
    let mut asked = asked;
    twin.begin(usize::from(actor), mix, &mut asked);
    core.turn(Turn::Begin(actor, asked.command())).is_ok()
}

/// Takes an actor's step; says whether it was its operation's last one, and none where what it did can't be, beside the map.
pub(crate) fn steps(core: &mut Core, twin: &mut Twin, actor: u8) -> Option<bool> {
    match core.turn(Turn::Step(actor)) {
        Ok(Event::Stepped(None)) => Some(false),
        Ok(Event::Stepped(Some(link))) => twin
            .link(usize::from(actor), link)
            .is_ok()
            .then_some(false),
        Ok(Event::Done(reply)) => twin.may_reply(usize::from(actor), &reply).then_some(true),
        _ => None,
    }
}

/// Takes a turn of an actor that is drawn; says whether what it did may be, beside the map.
fn turn(core: &mut Core, twin: &mut Twin, rng: &mut Pcg32, schedule: &Schedule) -> bool {
    let actor = (draw(rng, schedule.actors) % u32::from(MOST_ACTORS)) as u8;
    if core.is_busy(actor) {
        return steps(core, twin, actor).is_some();
    }
    let kind = schedule.mix.drawn(rng);
    let asked = Asked::drawn(kind, rng, schedule.keys);
    asks(core, twin, actor, schedule.mix, asked)
}

/// Takes all turns; says whether each did what it may, and the listing is the map after each hundred.
pub(crate) fn agrees(alloc: Global, core: &mut Core, twin: &mut Twin, schedule: &Schedule) -> bool {
    let mut rng = Pcg32::seed_from_u64(schedule.seed);
    for number in 1..=schedule.turns {
        if !turn(core, twin, &mut rng, schedule) {
            return false;
        }
        if number % 100 == 0 && !twin.is_listed(alloc, core) {
            return false;
        }
    }
    true
}

/// What was seen of a schedule; none where anything was wrong, also with rows or PIDs. It has these commands over so many keys, by its
/// seed, how many actors take how many turns, and the size of the tree.
fn watch(
    alloc: Global,
    (mix, keys): (Mix, u32),
    (seed, actors, turns): (u64, u32, u32),
    size: Size,
) -> Option<Seen> {
    let schedule = Schedule {
        seed,
        actors,
        turns,
        mix,
        keys,
    };
    let mut twin = Twin::new(alloc).ok()?;
    let mut core = size.opened(alloc, u64::from(actors))?;
    let agrees = agrees(alloc, &mut core, &mut twin, &schedule);
    let settled = is_settled(core, &key(1023));
    (agrees && settled).then_some(twin.seen)
}

/// How many roots came, whether room was wanted, and whether a key was changed after that.
#[derive(Clone, Copy, Debug, PartialEq)]
struct Outcome {
    roots: u32,
    full: bool,
    changed_since: bool,
}

fn told(seen: Option<Seen>) -> Option<Outcome> {
    seen.map(|seen| Outcome {
        roots: seen.roots,
        full: seen.full,
        changed_since: seen.changed_since,
    })
}

/// So many roots came, and there was room for all.
fn roomy(roots: u32) -> Option<Outcome> {
    Some(Outcome {
        roots,
        full: false,
        changed_since: false,
    })
}

/// So many roots came, and room was wanted, and keys were changed after that.
fn scarce(roots: u32) -> Option<Outcome> {
    Some(Outcome {
        roots,
        full: true,
        changed_since: true,
    })
}

/// What is told of a schedule in a tree with so many PIDs and rows, and in a large one with as many.
fn in_both(
    alloc: Global,
    mix: (Mix, u32),
    turns: (u64, u32, u32),
    (pids, rows): (u64, u64),
) -> [Option<Outcome>; 2] {
    [Size::Small(pids, rows), Size::Large(pids, rows)].map(|size| told(watch(
        alloc, mix, turns, size,
    )))
}

// All rows but one leaf's are used again and again.
#[test]
fn few_keys(rt: HostRuntime) {
    let four = in_both(rt.alloc(), (Mix::Four, 8), (7, 3, 20_000), (64, 64));
    let seven = in_both(rt.alloc(), (Mix::Seven, 8), (12, 3, 20_000), (64, 64));
    assert!(rt; four == [roomy(0); 2], "{four:?}");
    assert!(rt; seven == [roomy(0); 2], "{seven:?}");
}

#[test]
fn keys_for_three_levels(rt: HostRuntime) {
    let four = in_both(rt.alloc(), (Mix::Four, 676), (8, 3, 50_000), (256, 2048));
    assert!(rt; four == [roomy(2); 2], "{four:?}");
}

#[test]
fn seven_commands_on_three_levels(rt: HostRuntime) {
    let seven = in_both(rt.alloc(), (Mix::Seven, 676), (13, 5, 40_000), (256, 2048));
    assert!(rt; seven == [roomy(2); 2], "{seven:?}");
}

// Few keys, with few rows, and many keys.
#[test]
fn ten_commands(rt: HostRuntime) {
    let few = in_both(rt.alloc(), (Mix::Ten, 8), (17, 4, 20_000), (64, 64));
    assert!(rt; few == [roomy(0); 2], "{few:?}");
    let many = in_both(rt.alloc(), (Mix::Ten, 676), (18, 5, 40_000), (256, 2048));
    assert!(rt; many == [roomy(2); 2], "{many:?}");
}

/// How many slots four seeds clear, each without a fault.
fn cleared(alloc: Global, mix: Mix, size: Size, first: u64) -> Option<u32> {
    let mut cleared = 0u32;
    for more in 0..4u64 {
        let seed = first.wrapping_add(more);
        let seen = watch(alloc, (mix, 64), (seed, 4, 20_000), size)?;
        cleared = cleared.saturating_add(seen.cleared);
    }
    Some(cleared)
}

#[test]
fn seeds_1_to_8(rt: HostRuntime) {
    for (size, first) in [
        (Size::Small(256, 4096), 1),
        (Size::Small(256, 4096), 5),
        (Size::Large(64, 4096), 1),
        (Size::Large(256, 4096), 5),
    ] {
        let cleared = cleared(rt.alloc(), Mix::Swaps, size, first);
        assert!(rt;
            cleared > Some(0),
            "{size:?}, seeds from {first} on: {cleared:?}"
        );
    }
}

#[test]
fn ten_commands_beside_removals(rt: HostRuntime) {
    for size in [Size::Small(256, 4096), Size::Large(64, 4096)] {
        let cleared = cleared(rt.alloc(), Mix::Shrinking, size, 19);
        assert!(rt; cleared > Some(0), "{size:?}: {cleared:?}");
    }
}

#[test]
fn many_actors(rt: HostRuntime) {
    let four = in_both(rt.alloc(), (Mix::Four, 40), (9, 16, 30_000), (64, 512));
    assert!(rt; four == [roomy(1); 2], "{four:?}");
}

// As many as a large tree takes.
#[test]
fn sixty_three_actors(rt: HostRuntime) {
    let size = Size::Large(192, 1_024);
    let ten = told(watch(rt.alloc(), (Mix::Ten, 40), (27, 63, 30_000), size));
    assert!(rt; ten == roomy(1), "{ten:?}");
    let four = told(watch(rt.alloc(), (Mix::Four, 676), (28, 63, 30_000), size));
    assert!(rt; four == roomy(2), "{four:?}");
}

#[test]
fn few_pids(rt: HostRuntime) {
    let four = in_both(
        rt.alloc(),
        (Mix::FewDeletes, 1024),
        (10, 4, 60_000),
        (64, 1024),
    );
    assert!(rt; four == [scarce(2); 2], "{four:?}");
}

// The chains of a large tree are short, so that it takes more keys to use up all rows.
#[test]
fn few_rows(rt: HostRuntime) {
    let four = in_both(rt.alloc(), (Mix::Four, 100), (11, 6, 20_000), (64, 64));
    assert!(rt; four == [scarce(1), roomy(1)], "{four:?}");
    let seven = in_both(rt.alloc(), (Mix::Seven, 300), (14, 6, 20_000), (64, 64));
    assert!(rt; seven == [scarce(1), roomy(1)], "{seven:?}");
    let size = Size::Large(64, 64);
    let many = watch(rt.alloc(), (Mix::FewDeletes, 1024), (11, 6, 40_000), size);
    let many = told(many);
    assert!(rt; many == scarce(2), "{many:?}");
}
