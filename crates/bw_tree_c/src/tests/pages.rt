//! Pages of pairs in both directions, and the room that is free.
ghost use Rattle.bw_tree_c.specs.Handles.{MayCallOn};

use super::{begins, no_bytes, no_page, two_seats};
use crate::c_types::FreeRoom;
use crate::statuses::{NO_SEAT, OK, TOO_LONG};
use crate::taking::{Taken, finish, take};
use crate::tests::caller::Caller;
use bw_model::{Command, Key};
use std::test::Fail;

/// Whether a page backward shows the lower two of three pairs, and that it is the last one.
fn shows_two_pairs(caller: &mut Caller) -> bool
    requires { MayCallOn caller.old.tree.kept.value caller.old.since }
{
    let mut old = no_bytes();
    let mut page = no_page();
    let told = [
        caller.upsert(0, b"c", b"z", &mut old),
        caller.upsert(0, b"a", b"x", &mut old),
        caller.upsert(0, b"b", b"y", &mut old),
        caller.back(1, b"b", &mut page),
        caller.back(2, b"b", &mut page),
        caller.back(1, &[0; 65], &mut page),
    ];
    told == [OK, OK, OK, OK, NO_SEAT, TOO_LONG]
        && page.count == 2
        && page.more == 0
        && page.pairs[0].key.bytes[0] == b'a'
        && page.pairs[1].key.bytes[0] == b'b'
        && page.pairs[1].value.bytes[0] == b'y'
}

#[test]
fn pages_backward_are_shown(rt: HostRuntime) {
    assert!(rt;
        shows_two_pairs(&mut two_seats(rt.alloc())),
        "the lower two of three pairs"
    );
}

/// Whether a page backward that is begun with one step is shown where it is resumed.
fn resumes_a_page(caller: &mut Caller) -> Option<bool>
    requires { MayCallOn caller.old.tree.kept.value caller.old.since }
{
    let mut old = no_bytes();
    let mut page = no_page();
    let set = caller.upsert(1, b"", b"x", &mut old);
    let Some(shared) = caller.tree.shared() else {
        return None;
    };
    let Taken { hand, mut place } = match take(shared, 0, caller.receipt()) {
        Ok(taken) => taken,
        Err(_) => return None,
    };
    let is_begun = begins(&mut place, Command::Back(Key::default()));
    caller.since = finish(shared, 0, hand, place, OK).receipt;
    let told = caller.resume(0, 65536, &mut old, &mut page);
    Some(
        is_begun
            && set == OK
            && told == OK
            && old.length == 0
            && page.count == 1
            && page.more == 0
            && page.pairs[0].value.bytes[0] == b'x',
    )
}

#[test]
fn pages_backward_are_resumed(rt: HostRuntime) -> Result<(), Fail> {
    let mut caller = two_seats(rt.alloc());
    assert!(rt;
        resumes_a_page(&mut caller).ok_or("no seat")?,
        "a page of one pair"
    );
    Ok(())
}

/// Whether a page shows the one pair of a tree, and some room is free.
fn shows_one_pair(caller: &mut Caller) -> bool
    requires { MayCallOn caller.old.tree.kept.value caller.old.since }
{
    let mut old = no_bytes();
    let mut page = no_page();
    let mut room = FreeRoom {
        free_pids: 0,
        free_rows: 0,
    };
    let told = [
        caller.upsert(0, b"key", b"value", &mut old),
        caller.page(1, b"a", &mut page),
        caller.room(1, &mut room),
    ];
    told == [OK, OK, OK]
        && page.count == 1
        && page.more == 0
        && page.pairs[0].key.length == 3
        && page.pairs[0].value.length == 5
        && page.pairs[0].value.bytes.starts_with(b"value")
        && room.free_pids > 0
        && room.free_rows > 0
}

#[test]
fn pages_and_room_are_shown(rt: HostRuntime) {
    assert!(rt;
        shows_one_pair(&mut two_seats(rt.alloc())),
        "one pair, and free room"
    );
}
