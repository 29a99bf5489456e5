//! A program that serves requests on threads: each server has a seat, takes the next request from a channel, and sends the reply through
//! another one, until no more requests will come.
//!
//! Look first at `serve`, which is a server, and at `ask_and_serve`, where threads, seats and channels come together.
//!
//! Called by the gate, whose stored run is compared with what it prints. It is an example of docs/GUIDE.md, and knows of the tree what that
//! page says.
#![tactic(auto)]

ghost use Rattle.running_tree.specs.Trees.{AreSeatsOf, IsSeatOf};

use bw_model::{Command, Key, Limits, Reply, Value};
use crossbeam_channel::{Receiver, Sender, bounded};
use running_tree::{BwSeat, Tree};
use std::alloc::Global;
use std::io;
use std::sync::Wait;
use std::thread::{Threads, join_mut};
use workers::{give_seat, opened, reply, take_seat};

/// How many requests the client has, and how many each channel has room for.
const REQUESTS: u32 = 300;

/// A server: it answers requests with its seat, as they come.
fn serve<R: Wait>(
    rt: &R,
    tree: &Tree,
    seat: &mut BwSeat,
    requests: &Receiver<Command>,
    replies: &Sender<Reply>,
)
    requires own { IsSeatOf tree.now seat.old }
    ensures own { IsSeatOf tree.now seat.new }
{
    for _ in rt.forever() {
        let Ok(command) = requests.recv(rt) else {
            // all have been answered, and no more will come
            return;
        };
        let Ok(reply) = reply(tree, seat, command) else {
            return;
        };
        let _ = replies.send(rt, reply);
    }
}

/// Two servers, each in a thread of its own, until no more requests will come.
fn serve_both<R: Threads + Wait + Sync>(
    rt: &R,
    tree: &Tree,
    one: &mut BwSeat,
    other: &mut BwSeat,
    requests: &Receiver<Command>,
    replies: &Sender<Reply>,
)
    requires one { IsSeatOf tree.now one.old }
    requires other { IsSeatOf tree.now other.old }
    ensures one { IsSeatOf tree.now one.new }
    ensures other { IsSeatOf tree.now other.new }
{
    let (_, _) = join_mut(
        rt,
        &mut || serve(rt, tree, one, requests, replies),
        &mut || serve(rt, tree, other, requests, replies),
    );
}

/// The client inserts the keys of numbers, and goes: with the channel's only sender, so that the servers end, too.
fn ask<R: Wait>(rt: &R, requests: Option<Sender<Command>>) {
    let Some(requests) = requests else {
        return;
    };
    for number in 0..REQUESTS {
        let key = Key::from_slice(&number.to_be_bytes()).unwrap_or_default();
        let _ = requests.send(rt, Command::Insert(key, Value::default()));
    }
}

/// How many replies there are that say `Inserted`.
fn inserted<R: Wait>(rt: &R, replies: &Receiver<Reply>) -> u32 {
    let mut inserted = 0u32;
    for _ in 0..REQUESTS {
        if replies.try_recv(rt) == Ok(Reply::Inserted) {
            inserted = inserted.saturating_add(1);
        }
    }
    inserted
}

/// The client asks, and the servers answer, all at once: how many keys were inserted. None where there is no memory.
fn ask_and_serve<R: Threads + Wait + Sync>(
    rt: &R,
    alloc: Global,
    tree: &Tree,
    one: &mut BwSeat,
    other: &mut BwSeat,
) -> Option<u32>
    requires one { IsSeatOf tree.now one.old }
    requires other { IsSeatOf tree.now other.old }
    ensures one { IsSeatOf tree.now one.new }
    ensures other { IsSeatOf tree.now other.new }
{
    let Ok((sender, requests)) = bounded::<Command, Global>(alloc, REQUESTS as usize) else {
        return None;
    };
    let Ok((replies, receiver)) = bounded::<Reply, Global>(alloc, REQUESTS as usize) else {
        return None;
    };
    let mut sender = Some(sender);
    // where threads can't be had, the client comes first: a channel has room for all its requests
    let (_, _) = join_mut(
        rt,
        &mut || ask(rt, sender.take()),
        &mut ||
            requires one { IsSeatOf tree.now one.now }
            requires other { IsSeatOf tree.now other.now }
        {
            serve_both(rt, tree, one, other, &requests, &replies);
        },
    );
    Some(inserted(rt, &receiver))
}

/// Serves the client with the last two seats of a list, which come back to it.
fn served_by<R: Threads + Wait + Sync>(
    rt: &R,
    alloc: Global,
    tree: &Tree,
    seats: &mut Vec<BwSeat>,
) -> Option<u32>
    requires own { AreSeatsOf tree.now seats.old.items }
    ensures own { AreSeatsOf tree.now seats.new.items }
{
    let mut other = take_seat(tree, seats)?;
    let mut one = take_seat(tree, seats)?;
    let inserted = ask_and_serve(rt, alloc, tree, &mut one, &mut other);
    // there is room for both, since they were there before
    give_seat(tree, seats, one).ok()?;
    give_seat(tree, seats, other).ok()?;
    inserted
}

/// Lets two servers answer a client's requests on a new tree: how many keys were inserted, and the pairs of the tree. None where there is
/// no memory.
fn served<R: Threads + Wait + Sync>(rt: &R, alloc: Global) -> Option<(u32, Vec<(Key, Value)>)> {
    let limits = Limits::for_keys(2, 1000).ok()?;
    let Ok((tree, mut seats)) = opened(alloc, limits) else {
        return None;
    };
    let inserted = served_by(rt, alloc, &tree, &mut seats)?;
    match tree.close(alloc, seats) {
        Ok(pairs) => Some((inserted, pairs)),
        // the tree and its seats are in the error, as they were
        Err(_) => None,
    }
}

fn main(rt: HostRuntime) -> io::Result<()> {
    if let Some((inserted, pairs)) = served(&rt, rt.alloc()) {
        println!(rt; "{} inserted, {} pairs", inserted, pairs.len())?;
    }
    Ok(())
}
