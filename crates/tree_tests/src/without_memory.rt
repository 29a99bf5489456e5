//! Threads over a tree whose memory is counted: once it is open, no call of it wants any, so nothing changes where all of it is refused.
ghost use Rattle.std.specs.Prelude.{IfSome};
ghost use Rattle.running_tree.specs.Trees.{AreSeatsOf, IsSeatOf};

use crate::clients::Client;
use crate::refused_trees::Heap;
use bw_model::{Command, Limits, Reply};
use refusing_alloc::Refusing;
use running_tree::{BwSeat, Called, Tree};
use std::alloc::{Allocator, Global};
use std::thread::{Threads, map_vec};
use workers::opened;

/// How many threads there are, each with two seats.
const THREADS: u32 = 4;

/// How many commands each thread runs.
const ROUNDS: u32 = 5000;

/// More pieces than a command is run in.
const PIECES: u32 = 1 << 16;

/// Runs a command in pieces of so many steps, between which the seats meet.
fn reply_in_pieces<A: Allocator>(
    tree: &Tree<A>,
    one: &mut BwSeat<A>,
    other: &mut BwSeat<A>,
    command: Command,
    steps: u32,
) -> Option<Reply>
    requires one { IsSeatOf tree.now one.old }
    requires other { IsSeatOf tree.now other.old }
    ensures one { IsSeatOf tree.now one.new }
    ensures other { IsSeatOf tree.now other.new }
{
    if !one.is_idle() || steps == 0 {
        return None;
    }
    let mut called = tree.call(one, command, steps);
    for _ in 0..PIECES {
        if let Called::Done(reply) = called {
            return Some(reply);
        }
        tree.meet(other, one);
        if one.is_idle() {
            return None;
        }
        called = tree.resume(one, steps);
    }
    None
}

/// Runs the client's commands, with the one seat and the other in turns, in pieces of 1 to 29 steps.
fn runs<A: Allocator>(
    tree: &Tree<A>,
    one: &mut BwSeat<A>,
    other: &mut BwSeat<A>,
    client: &mut Client,
)
    requires one { IsSeatOf tree.now one.old }
    requires other { IsSeatOf tree.now other.old }
    ensures one { IsSeatOf tree.now one.new }
    ensures other { IsSeatOf tree.now other.new }
{
    for round in 0..client.rounds {
        let asked = client.ask(round);
        let command = client.command(asked);
        let steps = 1 + round % 29;
        let replied = if round % 3 == 0 {
            reply_in_pieces(tree, one, other, command, steps)
        } else {
            reply_in_pieces(tree, other, one, command, steps)
        };
        let Some(reply) = replied else {
            client.wrong = client.wrong.saturating_add(1);
            return;
        };
        client.learn(asked, &reply);
    }
}

/// Takes the last seat of a list, if it has one.
fn take_seat<A: Allocator>(tree: &Tree<A>, seats: &mut Vec<BwSeat<A>, A>) -> Option<BwSeat<A>>
    requires own { AreSeatsOf tree.now seats.old.items }
    ensures left { AreSeatsOf tree.now seats.new.items }
    ensures taken { IfSome result (IsSeatOf tree.now) }
{
    let _ = tree;
    seats.pop()
}

/// What a thread has to do.
trait Job: Drop + Send {
    fn done(self) -> Self;
}

/// A client with two seats of a tree, which take turns at its commands.
#[derive(Drop)]
struct Pair<'a, A: Allocator> {
    tree: &'a Tree<A>,
    one: BwSeat<A>,
    other: BwSeat<A>,
    client: Client,
    ghost own: { IsSeatOf tree.now one },
    ghost own_other: { IsSeatOf tree.now other },
}

impl<'a, A: Allocator + Send + Sync> Job for Pair<'a, A> {
    fn done(self) -> Pair<'a, A> {
        let Pair {
            tree,
            mut one,
            mut other,
            mut client,
        } = self;
        runs(tree, &mut one, &mut other, &mut client);
        Pair {
            tree,
            one,
            other,
            client,
        }
    }
}

/// A client with the last two seats of a list.
fn seated<'a, A: Allocator>(
    tree: &'a Tree<A>,
    seats: &mut Vec<BwSeat<A>, A>,
    number: u32,
) -> Option<Pair<'a, A>>
    requires own { AreSeatsOf tree.now seats.old.items }
    ensures left { AreSeatsOf tree.now seats.new.items }
{
    let one = take_seat(tree, seats)?;
    match take_seat(tree, seats) {
        Some(other) => Some(Pair {
            tree,
            one,
            other,
            client: Client::new(number, ROUNDS),
        }),
        None => {
            drop(one);
            None
        }
    }
}

/// Adds a client for each thread to a list, each with two seats.
fn seat_all<'a, A: Allocator>(
    tree: &'a Tree<A>,
    seats: &mut Vec<BwSeat<A>, A>,
    pairs: &mut Vec<Pair<'a, A>>,
) -> bool
    requires own { AreSeatsOf tree.now seats.old.items }
{
    for number in 0..THREADS {
        let Some(pair) = seated(tree, seats, number) else {
            return false;
        };
        if pairs.push(pair).is_err() {
            return false;
        }
    }
    true
}

/// Does all jobs, each in a thread of its own.
fn done_at_once<R: Threads + Sync, J: Job>(rt: &R, jobs: Vec<J>) -> Option<Vec<J>> {
    map_vec(rt, jobs, &|job: J| job.done()).ok()
}

/// How many replies are wrong.
fn wrong<A: Allocator>(pairs: &[Pair<'_, A>]) -> u32 {
    let mut wrong = 0u32;
    for pair in pairs {
        wrong = wrong.saturating_add(pair.client.wrong);
    }
    wrong
}

/// How many replies are wrong, and how often memory was wanted.
#[derive(Clone, Copy, Debug, PartialEq)]
struct Counts {
    wrong: u32,
    wanted: u64,
}

/// What is counted once the clients have their seats.
fn wrong_and_wanted<R: Threads + Sync, A: Allocator + Send + Sync>(
    rt: &R,
    alloc: Global,
    heap: Heap<'_>,
    tree: &Tree<A>,
    seats: &mut Vec<BwSeat<A>, A>,
) -> Option<Counts>
    requires own { AreSeatsOf tree.now seats.old.items }
{
    let mut pairs = Vec::new(alloc);
    let all = seat_all(tree, seats, &mut pairs);
    heap.set(0);
    let done = done_at_once(rt, pairs)?;
    let wanted = heap.left().wrapping_neg();
    let wrong = wrong(done.as_slice());
    all.then_some(Counts { wrong, wanted })
}

/// What `wrong_and_wanted` counts on a new tree, which has its memory of this allocator.
fn counted<R: Threads + Sync, A: Allocator + Copy + Send + Sync>(
    rt: &R,
    alloc: Global,
    heap: Heap<'_>,
    memory: A,
    limits: Limits,
) -> Option<Counts> {
    let Ok((tree, mut seats)) = opened(memory, limits) else {
        return None;
    };
    wrong_and_wanted(rt, alloc, heap, &tree, &mut seats)
}

/// The first call for memory would be refused. There are few rows and PIDs, so that pages are split, removed and used again, and some
/// writers find no room.
fn counted_anew<R: Threads + Sync>(rt: &R, alloc: Global) -> Option<Counts> {
    let limits = Limits::new(8, 64, 128, 1).ok()?;
    let heap = Refusing::new(alloc);
    counted(rt, alloc, &heap, &heap, limits)
}

#[test]
fn no_call_wants_memory(rt: HostRuntime) {
    let counts = counted_anew(&rt, rt.alloc());
    let expected = Counts {
        wrong: 0,
        wanted: 0,
    };
    assert!(rt; counts == Some(expected), "{counts:?}");
}
