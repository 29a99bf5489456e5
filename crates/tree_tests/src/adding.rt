//! Threads that add to one key, each with a seat of its own: its value is the sum of the additions that took place, of which one set it.

use crate::numbered::key;
use crate::threads::done_at_once;
use bw_model::{BadLimits, Command, Key, Limits, Reply, Value};
use running_tree::{BwSeat, Tree};
use std::alloc::Global;
use std::thread::Threads;
use workers::{Work, reply};

/// How many additions each thread makes.
const TIMES: u64 = 500;

/// A thread's additions: the number that the last one adds, and the numbers before are its multiples; the sum of those that took place, and
/// how many of them met no value; how many replies were wrong.
#[derive(Drop)]
struct Adds {
    number: u64,
    sum: u64,
    set: u32,
    wrong: u32,
}

impl Adds {
    fn new(number: u64) -> Adds {
        Adds {
            number,
            sum: 0,
            set: 0,
            wrong: 0,
        }
    }

    /// An addition of a number has this reply, or none.
    fn ends(&mut self, more: u64, reply: Option<Reply>) {
        match reply {
            Some(Reply::Full) => return,
            Some(Reply::Set) => self.set = self.set.saturating_add(1),
            Some(Reply::Replaced(old)) if old.as_slice().len() == 8 => {}
            _ => self.wrong = self.wrong.saturating_add(1),
        }
        self.sum = self.sum.wrapping_add(more);
    }
}

impl Work for Adds {
    fn work(&mut self, tree: &Tree, seat: &mut BwSeat) {
        for place in 1..=TIMES {
            let more = self.number.wrapping_mul(place);
            let reply = reply(tree, seat, Command::Add(key(0), more)).ok();
            self.ends(more, reply);
        }
    }
}

/// The only pair after additions that all took place, but for those that found nothing free.
fn summed(works: &[Adds]) -> Option<(Key, Value)> {
    let (mut sum, mut set) = (0u64, 0u32);
    for work in works {
        if work.wrong != 0 {
            return None;
        }
        sum = sum.wrapping_add(work.sum);
        set = set.saturating_add(work.set);
    }
    let value = Value::from_slice(&sum.to_be_bytes()).ok()?;
    (set == 1).then_some((key(0), value))
}

/// Whether the additions of so many threads sum up.
fn sums_up<R: Threads + Sync>(
    rt: &R,
    alloc: Global,
    limits: Result<Limits, BadLimits>,
) -> Option<bool> {
    let limits = limits.ok()?;
    let mut works = Vec::with_capacity(alloc, limits.actors as usize).ok()?;
    for thread in 0..limits.actors {
        // odd, and with a carry into each byte
        let number = 0x9e37_79b9_7f4a_7c15_u64.wrapping_mul(thread.wrapping_mul(2).wrapping_add(1));
        works.push(Adds::new(number)).ok()?;
    }
    let (works, pairs) = done_at_once(rt, alloc, limits, works)?;
    let sum = summed(works.as_slice())?;
    Some(pairs.as_slice() == [sum].as_slice())
}

#[test]
fn additions_of_threads_sum_up(rt: HostRuntime) {
    for limits in [
        Limits::for_keys(8, 100),
        Limits::for_many_keys(8, 100),
        Limits::for_many_keys(63, 100),
    ] {
        let right = sums_up(&rt, rt.alloc(), limits);
        assert!(rt; right == Some(true), "{right:?}");
    }
}
