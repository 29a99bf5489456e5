//! Notes go along with messages, so that who gets a message finds what was done before it.
ghost use Rattle.std.specs.Prelude.{◌≡◌, Some};
ghost use Rattle.running_tree.specs.Notes.{IsNoteOf};
ghost use Rattle.running_tree.specs.Trees.{AreSeatsOf, IsSeatOf, Tree as TreeSeen};

use bw_model::{Command, Key, Limits, Reply, Value};
use crossbeam_channel::{Receiver, Sender, bounded};
use running_tree::{BwSeat, Note, Tree};
use std::alloc::Global;
use std::marker::{Brand, PhantomData};
use std::sync::Wait;
use std::thread::{Threads, join_mut};
use workers::{opened, reply, take_seat};

/// How many messages are sent.
const TIMES: u32 = 300;

/// The tree that all messages of a channel are about.
trait OfTree {
    ghost use Rattle.std.specs.Prelude.{Option};
    ghost use Rattle.running_tree.specs.Trees.{Tree};

    ghost tree: { Option Tree };
}

impl OfTree for Brand {
    ghost use Rattle.std.specs.Prelude.{None};

    ghost tree = { None };
}

/// A number that the key has got as its value, and a note that was made after it.
#[derive(Drop)]
struct Told<T: OfTree> {
    number: u32,
    note: Note,
    of: PhantomData<T>,
    ghost own: { (tree : TreeSeen) → T.tree ≡ Some tree → IsNoteOf tree note },
}

/// Sets the key to each number in turn, and sends the number with a note.
fn tell<R: Wait, T: OfTree>(rt: &R, tree: &Tree, seat: &mut BwSeat, sender: &Sender<Told<T>>)
    requires tree { T.tree ≡ Some tree.now }
    requires own { IsSeatOf tree.now seat.old }
    ensures own { IsSeatOf tree.now seat.new }
{
    for number in 1..=TIMES {
        let value = Value::from_slice(&number.to_be_bytes()).unwrap_or_default();
        let _ = reply(tree, seat, Command::Upsert(Key::default(), value));
        let note = tree.note(seat);
        let told = Told {
            number,
            note,
            of: PhantomData,
        };
        let _ = sender.send(rt, told);
    }
}

/// Looks the key up: whether it has this number, or a later one.
fn finds(tree: &Tree, seat: &mut BwSeat, number: u32) -> bool
    requires own { IsSeatOf tree.now seat.old }
    ensures own { IsSeatOf tree.now seat.new }
{
    match reply(tree, seat, Command::Get(Key::default())) {
        Ok(Reply::Value(value)) => value.as_slice() >= number.to_be_bytes().as_slice(),
        _ => false,
    }
}

/// Waits for each message, heeds its note, and looks the key up: how often it finds what was told.
fn heed<R: Wait, T: OfTree>(
    rt: &R,
    tree: &Tree,
    seat: &mut BwSeat,
    receiver: &Receiver<Told<T>>,
) -> u32
    requires tree { T.tree ≡ Some tree.now }
    requires own { IsSeatOf tree.now seat.old }
    ensures own { IsSeatOf tree.now seat.new }
{
    let mut found = 0u32;
    for _ in 0..TIMES {
        let Ok(told) = receiver.recv(rt) else {
            return found;
        };
        tree.heed(seat, told.note);
        if finds(tree, seat, told.number) {
            found = found.saturating_add(1);
        }
    }
    found
}

/// One seat tells, and another one heeds, each in a thread of its own.
fn tell_and_heed<R: Threads + Wait + Sync, T: OfTree + Send>(
    rt: &R,
    alloc: Global,
    tree: &Tree,
    one: &mut BwSeat,
    other: &mut BwSeat,
) -> bool
    requires tree { T.tree ≡ Some tree.now }
    requires one { IsSeatOf tree.now one.old }
    requires other { IsSeatOf tree.now other.old }
    ensures one { IsSeatOf tree.now one.new }
    ensures other { IsSeatOf tree.now other.new }
{
    let Ok((sender, receiver)) = bounded::<Told<T>, Global>(alloc, TIMES as usize) else {
        return false;
    };
    let (_, found) = join_mut(
        rt,
        &mut || tell::<R, T>(rt, tree, one, &sender),
        &mut || heed::<R, T>(rt, tree, other, &receiver),
    );
    found == TIMES
}

/// The last two seats of a list: one tells, and the other one heeds.
fn heeded_by<R: Threads + Wait + Sync>(
    rt: &R,
    alloc: Global,
    tree: &Tree,
    seats: &mut Vec<BwSeat>,
) -> Option<bool>
    requires own { AreSeatsOf tree.now seats.old.items }
{
    let mut other = take_seat(tree, seats)?;
    let mut one = take_seat(tree, seats)?;
    Some(tell_and_heed::<R, Brand>(rt, alloc, tree, &mut one, &mut other))
}

/// Two seats of a new tree: one tells, and the other one heeds.
fn heeded<R: Threads + Wait + Sync>(rt: &R, alloc: Global) -> Option<bool> {
    let Ok(limits) = Limits::for_keys(2, 1000) else {
        return None;
    };
    let Ok((tree, mut seats)) = opened(alloc, limits) else {
        return None;
    };
    heeded_by(rt, alloc, &tree, &mut seats)
}

#[test]
fn notes_go_along(rt: HostRuntime) {
    let heeded = heeded(&rt, rt.alloc());
    assert!(rt; heeded == Some(true), "{heeded:?}");
}
