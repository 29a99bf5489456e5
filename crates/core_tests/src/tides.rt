//! Trees that grow and shrink to nothing, again and again, by actors whose turns are drawn.

use crate::by_hand::{comes_to_rest, let_go, replies, reply, used};
use crate::index_removals::removes;
use crate::numbered::{insert, key, value};
use crate::scripts::{lists_all, opened};
use bw_model::{Command, Key, Pairs, Reply, Schedule};
use std::alloc::Global;
use step_core::{Core, Event};
use traces::Turn;

/// In which order keys come or go.
#[derive(Clone, Copy)]
enum Order {
    Ascending,
    Descending,
    Scattered,
}

impl Order {
    /// The number of a place, where there are so many keys.
    fn number(self, place: u32, keys: u32) -> u32 {
        match self {
            Order::Ascending => place.wrapping_add(1),
            Order::Descending => keys.wrapping_sub(place),
            Order::Scattered => place.wrapping_mul(37) % keys.max(1) + 1,
        }
    }
}

/// What is done with each key, by how many actors, in which order.
#[derive(Clone, Copy)]
struct Tide {
    rises: bool,
    keys: u32,
    actors: u8,
    order: Order,
}

impl Tide {
    fn command(&self, place: u32) -> Command {
        let number = self.order.number(place, self.keys);
        if self.rises {
            insert(number)
        } else {
            Command::Delete(key(number))
        }
    }

    fn reply(&self, place: u32) -> Reply {
        if self.rises {
            Reply::Inserted
        } else {
            Reply::Deleted(value(self.order.number(place, self.keys)))
        }
    }
}

/// Which place each actor is at, how many were begun with, and how many are done.
#[derive(Clone, Copy)]
struct Work {
    at: [u32; 4],
    begun: u32,
    done: u32,
}

/// Whether an actor that is idle begins with the next key, if there is one.
fn begins(core: &mut Core, tide: &Tide, work: &mut Work, actor: u8) -> bool {
    if work.begun >= tide.keys {
        return true;
    }
    let place = work.begun;
    work.begun = place.wrapping_add(1);
    work.at[usize::from(actor % 4)] = place;
    core.turn(Turn::Begin(actor, tide.command(place))) == Ok(Event::Began)
}

/// Whether an actor takes a turn, and its reply is right where it has come to one.
fn goes(core: &mut Core, tide: &Tide, work: &mut Work, actor: u8) -> bool {
    if !core.is_busy(actor) {
        return begins(core, tide, work, actor);
    }
    match core.turn(Turn::Step(actor)) {
        Ok(Event::Stepped(_)) => true,
        Ok(Event::Done(reply)) => {
            work.done = work.done.wrapping_add(1);
            reply == tide.reply(work.at[usize::from(actor % 4)])
        }
        _ => false,
    }
}

/// An order of turns that is drawn.
fn drawn(seed: u64, actors: u8) -> Schedule {
    match actors {
        1 => Schedule::new(seed, 1),
        2 => Schedule::new(seed, 2),
        _ => Schedule::new(seed, 4),
    }
}

/// Whether the tide goes over all keys.
fn turns(core: &mut Core, tide: &Tide, seed: u64) -> bool {
    let mut schedule = drawn(seed, tide.actors);
    let mut work = Work {
        at: [0; 4],
        begun: 0,
        done: 0,
    };
    for _ in 0..1_000_000u32 {
        if work.done >= tide.keys {
            return true;
        }
        let actor = schedule.next();
        if !goes(core, tide, &mut work, actor) {
            return false;
        }
    }
    false
}

/// Whether the tree rises and falls, and has all keys and none then.
fn rises_and_falls(alloc: Global, core: &mut Core, rise: &Tide, fall: &Tide, seed: u64) -> bool {
    turns(core, rise, seed)
        && lists_all(alloc, core, 1, rise.keys)
        && turns(core, fall, seed)
        && lists_all(alloc, core, 1, 0)
}

/// A thousand keys come and go by four actors, in another order than theirs.
const SCATTERED: Tide = Tide {
    rises: true,
    keys: 1000,
    actors: 4,
    order: Order::Scattered,
};

/// Whether they do so ten times.
fn rises_ten_times(alloc: Global, core: &mut Core) -> bool {
    let fall = Tide {
        rises: false,
        ..SCATTERED
    };
    for seed in 0..10u64 {
        if !rises_and_falls(alloc, core, &SCATTERED, &fall, seed) {
            return false;
        }
    }
    true
}

/// Whether they do so on a tree of few PIDs and rows, and index pages are removed.
fn lasts(alloc: Global) -> Option<bool> {
    let mut core = opened(alloc, 4, 320, 2048, 1)?;
    let rises = rises_ten_times(alloc, &mut core);
    let trace = core.into_trace();
    Some(rises && removes(&trace.entries).is_some())
}

#[test]
fn a_tree_rises_and_falls(rt: HostRuntime) {
    let lasts = lasts(rt.alloc());
    assert!(rt; lasts == Some(true), "{lasts:?}");
}

/// Tides with one actor in each order, and with four; and how many PIDs are in use after each: a page is left on each level, of which there are
/// four or three, and PID 0.
const TIDES: [(u32, u8, Order, u32); 4] = [
    (1_100, 1, Order::Ascending, 5),
    (1_100, 1, Order::Descending, 5),
    (1_100, 1, Order::Scattered, 4),
    (1_000, 4, Order::Scattered, 4),
];

/// Whether each of so many keys' places is tidied, from the last one on.
fn tidies(core: &mut Core, keys: u32) -> bool {
    for number in (1..=keys).rev() {
        if !replies(core, 0, Command::Tidy(key(number)), Reply::Tidied) {
            return false;
        }
    }
    true
}

/// Whether a tide comes and goes, and its places are tidied where several actors have deleted; and all that was taken out is free then.
fn comes_and_goes(alloc: Global, core: &mut Core, rise: &Tide, seed: u64) -> bool {
    let fall = Tide {
        rises: false,
        ..*rise
    };
    rises_and_falls(alloc, core, rise, &fall, seed)
        && (rise.actors == 1 || tidies(core, rise.keys))
        && comes_to_rest(core, &key(1))
}

/// How many PIDs are in use after each of five tides; none where a reply is wrong.
fn used_after(alloc: Global, keys: u32, actors: u8, order: Order) -> Option<[u32; 5]> {
    let rise = Tide {
        rises: true,
        keys,
        actors,
        order,
    };
    let mut core = opened(alloc, u64::from(actors), 512, 4_096, 1)?;
    let mut after = [0; 5];
    let mut right = true;
    for seed in 0..5usize {
        right = right && comes_and_goes(alloc, &mut core, &rise, seed as u64);
        after[seed] = used(&core);
    }
    let_go(core);
    right.then_some(after)
}

#[test]
fn tides_leave_as_many_pids(rt: HostRuntime) {
    for (keys, actors, order, expected) in TIDES {
        let used = used_after(rt.alloc(), keys, actors, order);
        assert!(rt;
            used == Some([expected; 5]),
            "{keys} keys, {actors} actors: {used:?}"
        );
    }
}

/// Eighty keys come in their order: nine leaves, of eight keys each but the last.
const EIGHTY: Tide = Tide {
    rises: true,
    keys: 80,
    actors: 1,
    order: Order::Ascending,
};

/// How many leaves there are, by their cursor pages.
fn leaves(core: &mut Core) -> Option<u32> {
    let mut from = Key::default();
    for count in 1..=1000u32 {
        let Some(Reply::Page { items: _, next }) = reply(core, 1, Command::Page(from)) else {
            return None;
        };
        match next {
            None => return Some(count),
            Some(key) => from = key,
        }
    }
    None
}

/// Whether every key's leaf is tidied, twice: the second time none is held back by a neighbour.
fn is_tidied(core: &mut Core) -> bool {
    for place in 0..160u32 {
        let tidy = Command::Tidy(key(place % 80 + 1));
        if !replies(core, 0, tidy, Reply::Tidied) {
            return false;
        }
    }
    true
}

/// Whether the eighty keys come, and go so, and the tree is one leaf then, once it is tidied where two actors have deleted.
fn lives(alloc: Global, core: &mut Core, fall: &Tide, seed: u64) -> bool {
    let empty = Reply::Page {
        items: Pairs::new(),
        next: None,
    };
    turns(core, &EIGHTY, seed)
        && lists_all(alloc, core, 1, 80)
        && leaves(core) == Some(9)
        && turns(core, fall, seed)
        && lists_all(alloc, core, 1, 0)
        && (fall.actors == 1 || is_tidied(core))
        && replies(core, 1, Command::Page(Key::default()), empty)
}

/// Whether they do so twice on a new core.
fn lives_twice(alloc: Global, actors: u8, order: Order) -> bool {
    let fall = Tide {
        rises: false,
        keys: 80,
        actors,
        order,
    };
    match opened(alloc, 2, 64, 4096, 1) {
        Some(mut core) => {
            let right = lives(alloc, &mut core, &fall, 1) && lives(alloc, &mut core, &fall, 2);
            let_go(core);
            right
        }
        None => false,
    }
}

/// Whether they do in each order: ascending, descending and scattered.
fn all_live(alloc: Global, actors: u8) -> [bool; 3] {
    [Order::Ascending, Order::Descending, Order::Scattered].map(|order| lives_twice(
        alloc, actors, order,
    ))
}

#[test]
fn a_tree_shrinks_to_a_leaf(rt: HostRuntime) {
    let live = all_live(rt.alloc(), 1);
    assert!(rt; live == [true; 3], "{live:?}");
}

#[test]
fn two_actors_shrink_a_tree(rt: HostRuntime) {
    let live = all_live(rt.alloc(), 2);
    assert!(rt; live == [true; 3], "{live:?}");
}
