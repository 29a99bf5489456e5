//! Calls while another one is inside a seat, or was left there unfinished.

use super::{Answer, all_authors, begins, check, no_bytes, no_page, told};
use crate::statuses::{ABSENT, BUSY, IDLE, OK, SPENT, UNFINISHED};
use crate::taking::{Taken, finish, take};
use bw_model::{Command, Key};
use std::alloc::Global;
use std::test::Fail;

/// What calls answer while another call is inside seat 0, and after that.
fn told_of_seats(alloc: Global) -> Option<[Answer; 13]> {
    let mut old = no_bytes();
    let mut page = no_page();
    let mut count = 0;
    let mut caller = all_authors(alloc)?;
    let since = caller.receipt();
    let (one, others) = caller.tree.parted(since);
    caller.since = others;
    let shared = caller.tree.shared()?;
    let Taken { hand, mut place } = match take(shared, 0, one) {
        Ok(taken) => taken,
        Err(_) => return None,
    };
    let inside = [
        told(caller.get(0, b"a", &mut old), BUSY),
        told(caller.is_idle(0), BUSY),
        told(caller.close(), BUSY),
        told(caller.close_pairs(alloc, &mut [], &mut count), BUSY),
        told(caller.is_idle(1), OK),
    ];
    let is_begun = begins(&mut place, Command::Get(Key::default()));
    finish(shared, 0, hand, place, OK);
    if !is_begun {
        return None;
    }
    let [first, second, third, fourth, fifth] = inside;
    Some([
        first,
        second,
        third,
        fourth,
        fifth,
        told(caller.close_pairs(alloc, &mut [], &mut count), UNFINISHED),
        told(caller.get(0, b"a", &mut old), UNFINISHED),
        told(caller.is_idle(0), UNFINISHED),
        told(caller.resume(0, 0, &mut old, &mut page), SPENT),
        told(caller.resume(0, 65536, &mut old, &mut page), ABSENT),
        told(caller.resume(0, 1, &mut old, &mut page), IDLE),
        told(caller.is_idle(0), OK),
        told(caller.close(), OK),
    ])
}

#[test]
fn seats_are_busy_and_unfinished(rt: HostRuntime) -> Result<(), Fail> {
    let answers = told_of_seats(rt.alloc()).ok_or("no seat")?;
    check(&rt, &answers);
    Ok(())
}
