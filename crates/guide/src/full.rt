//! Two reasons why nothing is free for a writer, and what another seat can do about each.
ghost use Rattle.running_tree.specs.Trees.{IsSeatOf};

use bw_model::{Command, Key, Limits, Reply, Value};
use running_tree::{BwSeat, Tree};
use std::alloc::Global;
use workers::{called, opened, reply, resumed, take_seat};

/// More steps than an operation takes in a small tree.
const ENOUGH: u32 = 4096;

/// Sets the values of numbers from one on, each so far behind the one before, until nothing is free: how many had room.
fn set_from(tree: &Tree, seat: &mut BwSeat, first: u32, by: u32, count: u32) -> u32
    requires own { IsSeatOf tree.now seat.old }
    ensures own { IsSeatOf tree.now seat.new }
{
    for place in 0..count {
        let bytes = first.wrapping_add(place.wrapping_mul(by)).to_be_bytes();
        let key = Key::from_slice(&bytes).unwrap_or_default();
        match reply(tree, seat, Command::Upsert(key, Value::default())) {
            Ok(Reply::Set | Reply::Replaced(_)) => {}
            _ => return place,
        }
    }
    count
}

/// Far fewer rows than the rule asks for.
fn few_rows() -> Option<Limits> {
    Limits::new(2, 64, 64, 1).ok()
}

/// A seat that stopped in the midst of an operation holds up what others took out meanwhile: it goes on. Whether that helped.
fn goes_on(alloc: Global) -> Option<bool> {
    let (tree, mut seats) = opened(alloc, few_rows()?).ok()?;
    let mut one = take_seat(&tree, &mut seats)?;
    let mut other = take_seat(&tree, &mut seats)?;
    let _ = called(&tree, &mut other, Command::Get(Key::default()), 2);
    let set = set_from(&tree, &mut one, 0, 0, 100);
    let _ = resumed(&tree, &mut other, ENOUGH);
    Some(set < 100 && set_from(&tree, &mut one, 0, 0, 1) == 1)
}

/// An idle seat keeps what it took out itself until it writes again: it tidies. Whether that helped.
fn tidies(alloc: Global) -> Option<bool> {
    let (tree, mut seats) = opened(alloc, few_rows()?).ok()?;
    let mut one = take_seat(&tree, &mut seats)?;
    let mut other = take_seat(&tree, &mut seats)?;
    let _ = set_from(&tree, &mut other, 0, 0, 9);
    let set = set_from(&tree, &mut one, 1, 1, 1000);
    let tidied = reply(&tree, &mut other, Command::Tidy(Key::default()));
    let more = set_from(&tree, &mut one, set, 1, 1000);
    Some(tidied == Ok(Reply::Tidied) && set < 1000 && 1 < more)
}

#[test]
fn a_stopped_seat_goes_on(rt: HostRuntime) {
    let helped = goes_on(rt.alloc());
    assert!(rt; helped == Some(true), "{helped:?}");
}

#[test]
fn an_idle_seat_tidies(rt: HostRuntime) {
    let helped = tidies(rt.alloc());
    assert!(rt; helped == Some(true), "{helped:?}");
}
