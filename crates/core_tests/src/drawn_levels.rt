//! Trees of four and of five levels with few items a page, beside a plain map: actors in a seeded order, and operations that stop after each
//! of their steps while one of another actor comes to its end.

use crate::accounts::settled;
use crate::asked::{Asked, KINDS, Kind, Mix};
use crate::by_hand::{let_go, replies};
use crate::numbered::{key, value};
use crate::plain_map::{ABSENT, VALUES};
use crate::schedules::{Schedule, Twin, agrees, asks, steps};
use crate::scripts::Size;
use crate::tally::Tally;
use bw_model::{Command, Reply};
use rand_core::SeedableRng;
use rand_pcg::Pcg32;
use std::alloc::Global;
use step_core::Core;

/// How many keys are drawn from.
const DRAWN: u32 = 1024;

/// Whether a key comes, with a value that its number has.
fn comes(core: &mut Core, twin: &mut Twin, number: u32) -> bool {
    let of = number % VALUES;
    let insert = Command::Insert(key(number), value(of));
    replies(core, 0, insert, Reply::Inserted) && twin.map.set(number, of).is_ok()
}

/// Whether it goes again, if it is one of three in eight.
fn goes(core: &mut Core, twin: &mut Twin, number: u32) -> bool {
    if number % 8 < 5 {
        return true;
    }
    let deleted = Reply::Deleted(value(number % VALUES));
    replies(core, 0, Command::Delete(key(number)), deleted) && twin.map.set(number, ABSENT).is_ok()
}

/// Whether the keys below a number come in their order, and then of each leaf's eight the last three go.
fn is_filled(core: &mut Core, twin: &mut Twin, end: u32) -> bool {
    for number in 0..end {
        if !comes(core, twin, number) {
            return false;
        }
    }
    for number in 0..end {
        if !goes(core, twin, number) {
            return false;
        }
    }
    true
}

/// How many pages of each level go while four actors delete most of the keys in a seeded order; none where anything is wrong, also with rows
/// or PIDs.
fn removed(alloc: Global, end: u32, size: Size) -> Option<[u32; 5]> {
    let schedule = Schedule {
        seed: 15,
        actors: 4,
        turns: 60_000,
        mix: Mix::ManyDeletes,
        keys: DRAWN,
    };
    let mut twin = Twin::new(alloc).ok()?;
    let mut core = size.opened(alloc, 4)?;
    let right = is_filled(&mut core, &mut twin, end)
        && agrees(alloc, &mut core, &mut twin, &schedule);
    let trace = settled(core, &key(0))?;
    let tally = Tally::of(&trace.entries);
    right.then_some(tally.levels.map(|level| level.removals))
}

#[test]
fn drawn_deletes_on_four_and_five_levels(rt: HostRuntime) {
    for (end, size) in [
        (1_100, Size::Small(320, 8_192)),
        (1_100, Size::Large(320, 8_192)),
        (8_200, Size::Small(2_048, 16_384)),
        (8_200, Size::Large(2_048, 16_384)),
    ] {
        let removed = removed(rt.alloc(), end, size);
        assert!(rt;
            removed.is_some_and(|removed| removed[2] > 0),
            "{size:?}: {removed:?}"
        );
    }
}

/// The commands of the other actor, and how many turns each takes at most beside one that stands.
const BESIDE: [(Kind, u32); 10] = [
    (Kind::Get, 100),
    (Kind::Insert, 1000),
    (Kind::Upsert, 1000),
    (Kind::Delete, 1000),
    (Kind::Swap, 1000),
    (Kind::Page, 100),
    (Kind::Tidy, 1000),
    (Kind::DeleteIf, 1000),
    (Kind::Add, 1000),
    (Kind::Back, 100),
];

/// Whether an actor's operation comes to its end within so many turns.
fn ends(core: &mut Core, twin: &mut Twin, actor: u8, turns: u32) -> bool {
    for _ in 0..turns {
        match steps(core, twin, actor) {
            None => return false,
            Some(true) => return true,
            Some(false) => {}
        }
    }
    false
}

/// Whether an operation stands after so many steps; none where a step can't be.
fn stands(core: &mut Core, twin: &mut Twin, count: u32) -> Option<bool> {
    for _ in 0..count {
        match steps(core, twin, 0) {
            None => return None,
            Some(true) => return Some(false),
            Some(false) => {}
        }
    }
    Some(true)
}

/// Whether an operation of one kind stands after so many steps, and one of another kind comes to its end then, and the first one after it;
/// none where one doesn't.
fn stops(
    core: &mut Core,
    twin: &mut Twin,
    rng: &mut Pcg32,
    kinds: (Kind, (Kind, u32)),
    count: u32,
) -> Option<bool> {
    let (kind, (other, turns)) = kinds;
    let (first, second) = (
        Asked::drawn(kind, rng, DRAWN),
        Asked::drawn(other, rng, DRAWN),
    );
    if !asks(core, twin, 0, Mix::Ten, first) {
        return None;
    }
    let stood = stands(core, twin, count)?;
    let right = asks(core, twin, 1, Mix::Ten, second)
        && ends(core, twin, 1, turns)
        && (!stood || ends(core, twin, 0, 1000));
    right.then_some(stood)
}

/// Whether they do after each number of steps, up to one after which none stands.
fn stops_anywhere(
    core: &mut Core,
    twin: &mut Twin,
    rng: &mut Pcg32,
    kinds: (Kind, (Kind, u32)),
) -> bool {
    for count in 0..1000u32 {
        match stops(core, twin, rng, kinds, count) {
            None => return false,
            Some(false) => return true,
            Some(true) => {}
        }
    }
    false
}

/// Whether all kinds do beside all kinds.
fn all_stop(core: &mut Core, twin: &mut Twin) -> bool {
    let mut rng = Pcg32::seed_from_u64(16);
    for kind in KINDS {
        for other in BESIDE {
            if !stops_anywhere(core, twin, &mut rng, (kind, other)) {
                return false;
            }
        }
    }
    true
}

/// Whether they do on a tree of four levels.
fn all_stop_anew(alloc: Global, size: Size) -> Option<bool> {
    let mut twin = Twin::new(alloc).ok()?;
    let mut core = size.opened(alloc, 2)?;
    let right = is_filled(&mut core, &mut twin, 1_100) && all_stop(&mut core, &mut twin);
    let_go(core);
    Some(right)
}

#[test]
fn all_commands_beside_one_that_stands(rt: HostRuntime) {
    for size in [Size::Small(320, 8_192), Size::Large(320, 8_192)] {
        let stopped = all_stop_anew(rt.alloc(), size);
        assert!(rt; stopped == Some(true), "{size:?}: {stopped:?}");
    }
}
