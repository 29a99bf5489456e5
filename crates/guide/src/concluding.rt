//! What may be concluded of the only seat of a tree: a lookup shows what was set before.
ghost use Rattle.std.specs.Prelude.{◌≡◌, IfSome};
ghost use Rattle.running_tree.specs.Seats.{IsSame};
ghost use Rattle.running_tree.specs.Trees.{IsSeatOf};

use bw_model::{Command, Key, Limits, Reply, Value};
use map_laws::{one_seat, own_reads};
use running_tree::{BwSeat, Tree};
use std::alloc::Global;
use workers::{opened, reply, take_seat};

/// Sets a key's value, and looks it up. None where there was no room for it, or the seat had another operation, or the steps were spent.
fn read_back(tree: &Tree, seat: &mut BwSeat, key: &Key, value: &Value) -> Option<Value>
    requires own { IsSeatOf tree.now seat.old }
    requires alone { tree.now.limits.actors ≡ 1 }
    ensures same { IsSame seat.old seat.new }
    ensures read { IfSome result (λ read. read ≡ value.now) }
{
    one_seat();
    own_reads();
    let Ok(set) = reply(tree, seat, Command::Upsert(key.copied(), value.copied())) else {
        return None;
    };
    if let Reply::Full = set {
        return None;
    }
    let Ok(told) = reply(tree, seat, Command::Get(key.copied())) else {
        return None;
    };
    match told {
        Reply::Value(read) => Some(read),
        // no other reply can come, and that is proved
        _ => unreachable!(),
    }
}

/// What the only seat of a new tree reads back.
fn read_alone(alloc: Global, value: &Value) -> Option<Value> {
    let Ok(limits) = Limits::for_keys(1, 100) else {
        return None;
    };
    let Ok((tree, mut seats)) = opened(alloc, limits) else {
        return None;
    };
    let mut seat = take_seat(&tree, &mut seats)?;
    read_back(&tree, &mut seat, &Key::default(), value)
}

#[test]
fn what_was_set_is_read(rt: HostRuntime) {
    let value = Value::from_slice(b"set").unwrap_or_default();
    let read = read_alone(rt.alloc(), &value);
    assert!(rt; read == Some(value), "{read:?}");
}
