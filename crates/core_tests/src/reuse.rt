//! Rows and PIDs that are used again, and what an actor that stays inside keeps out of use.

use crate::accounts::{is_settled, settled};
use crate::by_hand::{begins, finish, replies, reply, steps};
use crate::numbered::{insert, key, value};
use crate::scripts::{Ask, Line, Say, lists_all, opened, runs};
use bw_model::{Answer, Command, Reply, Step};
use core_memory::Entries;
use std::alloc::Global;
use step_core::Core;
use traces::Entry;

/// The greatest epoch, which is never retired.
const LAST_EPOCH: u64 = 1 << 62;

/// The keys k1 to k17 are inserted; then those from k17 down to k12 are deleted, so that a leaf is removed, and upserted again, so that
/// one is split, and so on.
fn command(number: u32) -> Command {
    if number < 17 {
        return insert(number + 1);
    }
    let place = (number - 17) % 12;
    if place < 6 {
        Command::Delete(key(17 - place))
    } else {
        Command::Upsert(key(place + 6), value(place + 6))
    }
}

/// How many of these commands, from the first one to the end, two actors are done with in turns before one finds no room.
pub(crate) fn served(core: &mut Core, actors: [u8; 2], first: u32, end: u32) -> Option<u32> {
    let [even, odd] = actors;
    for number in first..end {
        let actor = if number % 2 == 0 { even } else { odd };
        match reply(core, actor, command(number)) {
            Some(Reply::Full) => return Some(number),
            Some(_) => {}
            None => return None,
        }
    }
    Some(end)
}

/// Whether an actor is done with the commands from one round to another, and finds room for each.
pub(crate) fn serves(core: &mut Core, actor: u8, first: u32, last: u32) -> bool {
    let end = rounds(last);
    served(core, [actor; 2], rounds(first), end) == Some(end)
}

/// The number of the command after so many rounds.
pub(crate) fn rounds(count: u32) -> u32 {
    count.wrapping_mul(12).wrapping_add(17)
}

/// How many steps retire the epoch, and how many free rows or PIDs.
#[derive(Clone, Copy)]
struct Frees {
    retired: u32,
    freed: u32,
}

/// What the entries of these places free.
fn retired_and_freed(entries: &Entries, first: u64, end: u64) -> Frees {
    let (mut retired, mut freed) = (0u32, 0u32);
    for place in first..end {
        match entries.entry(place) {
            Some(Entry::Step(_, Step::Retire(_), Answer::Whether(true), _)) => {
                retired = retired.saturating_add(1);
            }
            Some(Entry::Step(_, Step::ReuseRows(_, _) | Step::ReusePids(_, _), _, _)) => {
                freed = freed.saturating_add(1);
            }
            _ => {}
        }
    }
    Frees { retired, freed }
}

/// Whether the core lists all seventeen keys.
pub(crate) fn is_round(alloc: Global, core: &Core) -> bool {
    lists_all(alloc, core, 1, 17)
}

/// Whether all goes on for a hundred rounds.
fn come_and_go(alloc: Global) -> bool {
    match opened(alloc, 2, 64, 256, 1) {
        Some(mut core) => {
            let end = rounds(100);
            let right = served(&mut core, [0, 1], 0, end) == Some(end) && is_round(alloc, &core);
            is_settled(core, &key(20)) && right
        }
        None => false,
    }
}

// Each round removes a page and makes one: the identifiers would do for 61 rounds, the rows for fewer than ten.
#[test]
fn pages_come_and_go(rt: HostRuntime) {
    assert!(rt; come_and_go(rt.alloc()), "a hundred rounds");
}

/// Between which turns an actor stays inside.
#[derive(Clone, Copy)]
struct Stay {
    since: u64,
    until: u64,
}

/// Where actor 2 stays inside, if all goes on as it is to where it does from the second round on: before so many rounds are done the others
/// find no room, and once it has left there is room again.
fn stays(alloc: Global, core: &mut Core, count: u32) -> Option<Stay> {
    let (first, end) = (rounds(2), rounds(count));
    let entered = served(core, [0, 1], 0, first) == Some(first)
        && begins(core, 2, Command::Get(key(10)))
        && steps(core, 2, 5, None);
    let since = core.turns();
    let stop = served(core, [0, 1], first, end).unwrap_or(end);
    let until = core.turns();
    let right = entered
        && stop < end
        && finish(core, 2) == Some(Reply::Value(value(10)))
        && served(core, [0, 1], stop, end) == Some(end)
        && is_round(alloc, core);
    right.then_some(Stay { since, until })
}

/// Whether it is so on a new core, where nothing is freed meanwhile.
fn waits(alloc: Global, rows: u64, epoch: u64, count: u32) -> bool {
    let Some(mut core) = opened(alloc, 3, 64, rows, epoch) else {
        return false;
    };
    let stays = stays(alloc, &mut core, count);
    match (stays, settled(core, &key(20))) {
        (Some(stay), Some(trace)) => {
            retired_and_freed(&trace.entries, stay.since, stay.until).freed == 0
        }
        _ => false,
    }
}

// With few rows these are gone before the twelfth round, with many the identifiers are before the seventieth.
#[test]
fn what_an_actor_inside_may_reach_waits(rt: HostRuntime) {
    let alloc = rt.alloc();
    let waits = [
        waits(alloc, 128, 1, 12),
        waits(alloc, 128, LAST_EPOCH - 1, 12),
        waits(alloc, 128, LAST_EPOCH, 12),
        waits(alloc, 2048, 1, 70),
    ];
    assert!(rt; waits == [true; 4], "{waits:?}");
}

/// How many epochs are retired in some rounds, and before it comes to rest, from one so long before the last on, if all goes well.
fn retired(alloc: Global, before: u64) -> Option<u32> {
    let mut core = opened(alloc, 2, 64, 128, LAST_EPOCH.saturating_sub(before))?;
    let goes = served(&mut core, [0, 1], 0, rounds(20)) == Some(rounds(20));
    let trace = settled(core, &key(20))?;
    let frees = retired_and_freed(&trace.entries, 0, trace.entries.len());
    goes.then_some(frees.retired)
}

#[test]
fn the_last_epoch_stays(rt: HostRuntime) {
    let alloc = rt.alloc();
    let retired = [retired(alloc, 0), retired(alloc, 1), retired(alloc, 5)];
    assert!(rt; retired == [Some(0), Some(1), Some(5)], "{retired:?}");
}

/// A letter for an entry, if it is one of these: the epoch 1 is read and retired, the other actor's announce is read, and the rows 1 to
/// 9 are freed; then the operation enters at the epoch 2.
fn swept(entry: &Entry) -> u8 {
    let Entry::Step(0, step, answer, None) = entry else {
        return b'-';
    };
    match (step, answer) {
        (Step::Epoch, Answer::Number(1)) => b'1',
        (Step::Retire(1), Answer::Whether(true)) => b't',
        (Step::Announce(1), Answer::Number(0)) => b'a',
        (Step::ReuseRows(0, 0b11_1111_1110), Answer::Done) => b'r',
        (Step::Epoch, Answer::Number(2)) => b'2',
        (Step::Enter(2), Answer::Done) => b'i',
        _ => b'-',
    }
}

/// Whether the entries from one on have these letters.
pub(crate) fn has_letters<F: Fn(&Entry) -> u8>(
    entries: &Entries,
    first: u64,
    letters: &[u8],
    letter: F,
) -> bool
    requires { F.IsAlwaysCallable letter }
{
    let mut place = first;
    for wanted in letters {
        let Some(entry) = entries.entry(place) else {
            return false;
        };
        if letter(&entry) != *wanted {
            return false;
        }
        place = place.wrapping_add(1);
    }
    true
}

/// Nine inserts, and a lookup.
const BEFORE_SWEEP: [Line; 2] = [
    Line::Inserts(0, 1, 9),
    Line::Replies(0, Ask::Get(9), Say::Value(9)),
];

/// Whether the tenth insert takes sixteen turns, the first six steps of which are those of a sweep and the entry.
fn is_swept(alloc: Global) -> bool {
    let Some(mut core) = opened(alloc, 2, 64, 256, 1) else {
        return false;
    };
    let told = runs(alloc, &mut core, &BEFORE_SWEEP);
    let turns = core.turns();
    let inserted = replies(&mut core, 0, insert(10), Reply::Inserted);
    let took = core.turns().saturating_sub(turns);
    let trace = core.into_trace();
    let first = turns.saturating_add(1);
    told && inserted && took == 16 && has_letters(&trace.entries, first, b"1tar2i", swept)
}

// The ninth insert consolidates; the old chain's rows are 1 to 9. A lookup leaves them to the tenth insert, which frees them.
#[test]
fn the_steps_of_a_sweep(rt: HostRuntime) {
    assert!(rt; is_swept(rt.alloc()), "the steps of the tenth insert");
}
