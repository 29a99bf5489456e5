//! Keys that come at one end and go at the other: how many PIDs are in use at most.

use crate::by_hand::{replies, used};
use crate::numbered::{insert, key, value};
use crate::scripts::{inserts, lists_all, opened};
use crate::tally::Tally;
use bw_model::{Command, Reply};
use std::alloc::Global;
use step_core::Core;

/// How many keys are there at a time, and how many come in all.
const KEYS: u32 = 1_000;

const LAST: u32 = 10_000;

/// How many laps there are: in each as many keys come as there are at a time, and as many go.
const LAPS: usize = 9;

/// Whether the oldest key goes, and the next one comes.
fn moves(core: &mut Core, actor: u8, number: u32) -> bool {
    let old = number.wrapping_sub(KEYS);
    let deleted = Reply::Deleted(value(old));
    replies(core, actor, Command::Delete(key(old)), deleted)
        && replies(core, actor, insert(number), Reply::Inserted)
}

/// Whether all keys of a lap have come, and those of the one before have gone, by the actors in turn.
fn moves_all(core: &mut Core, actors: u8, lap: u32) -> bool {
    for place in 1..=KEYS {
        let number = lap.wrapping_mul(KEYS).wrapping_add(place);
        let actor = (number % 16) as u8 % actors.max(1);
        if !moves(core, actor, number) {
            return false;
        }
    }
    true
}

/// How many PIDs are in use after each lap; none where a reply is wrong.
fn used_after(core: &mut Core, actors: u8) -> Option<[u32; LAPS]> {
    if !inserts(core, 0, 1, KEYS) {
        return None;
    }
    let mut after = [0; LAPS];
    for lap in 1..=LAPS {
        if !moves_all(core, actors, lap as u32) {
            return None;
        }
        after[(lap - 1) % LAPS] = used(core);
    }
    Some(after)
}

/// The first number, and the greatest one.
fn first_and_greatest(numbers: &[u32]) -> [u32; 2] {
    let first = numbers.first().copied().unwrap_or(0);
    let mut greatest = first;
    for number in numbers {
        greatest = greatest.max(*number);
    }
    [first, greatest]
}

/// How many PIDs are in use at most, how many after the first lap, and how many at most after a lap.
#[derive(Clone, Copy, Debug, PartialEq)]
struct InUse {
    most: u32,
    after_first: u32,
    after_any: u32,
}

/// What the laps use.
fn laps(alloc: Global, actors: u8) -> Option<InUse> {
    let mut core = opened(alloc, u64::from(actors), 192, 8_192, 1)?;
    let after = used_after(&mut core, actors);
    let right = lists_all(alloc, &core, LAST - KEYS + 1, LAST);
    let trace = core.into_trace();
    let tally = Tally::of(&trace.entries);
    let after = after?;
    let [first, greatest] = first_and_greatest(&after);
    right.then_some(InUse {
        most: tally.most_used,
        after_first: first,
        after_any: greatest,
    })
}

// A lap is no whole number of pages of level 2, of 512 keys each, so that its end may find two pages more than the first one's.
#[test]
fn a_window_takes_few_pids(rt: HostRuntime) {
    let expected = InUse {
        most: 151,
        after_first: 145,
        after_any: 147,
    };
    for actors in [1, 4] {
        let used = laps(rt.alloc(), actors);
        assert!(rt; used == Some(expected), "{actors} actors: {used:?}");
    }
}
