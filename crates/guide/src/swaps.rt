//! Threads raise a counter, each by swaps that it tries until one wins.
ghost use Rattle.running_tree.specs.Seats.{IsSame};
ghost use Rattle.running_tree.specs.Trees.{AreSeatsOf, IsSeatOf};

use bw_model::{Command, Key, Limits, Reply, Value};
use running_tree::{BwSeat, Tree};
use std::alloc::Global;
use std::thread::Threads;
use workers::{Work, opened, reply, work_in_threads};

/// How often each thread raises the counter.
const TIMES: u32 = 1000;

/// More tries than a swap needs.
const MOST_TRIES: u32 = 1 << 20;

/// A number as a value.
fn value(number: u32) -> Value {
    Value::from_slice(&number.to_be_bytes()).unwrap_or_default()
}

/// The value after this one.
fn next(known: &Value) -> Value {
    let number = match known.as_slice() {
        [first, second, third, last] => u32::from_be_bytes([*first, *second, *third, *last]),
        _ => 0,
    };
    value(number.wrapping_add(1))
}

/// Raises the counter by one: true once a swap has won.
fn raise(tree: &Tree, seat: &mut BwSeat, counter: &Key) -> bool
    requires own { IsSeatOf tree.now seat.old }
    ensures same { IsSame seat.old seat.new }
{
    let Ok(Reply::Value(mut known)) = reply(tree, seat, Command::Get(counter.copied())) else {
        return false;
    };
    for _ in 0..MOST_TRIES {
        let swap = Command::Swap(counter.copied(), known.copied(), next(&known));
        match reply(tree, seat, swap) {
            Ok(Reply::Swapped) => return true,
            // another thread was faster: its value comes back
            Ok(Reply::Differs(other)) => known = other,
            // nothing is free, and to try again frees nothing: tidy, or move to a larger tree
            Ok(Reply::Full) => return false,
            _ => return false,
        }
    }
    false
}

/// Raises the counter, and counts how often.
#[derive(Drop)]
struct Raises {
    raised: u32,
}

impl Work for Raises {
    fn work(&mut self, tree: &Tree, seat: &mut BwSeat) {
        // the thread that comes first sets the counter
        let _ = reply(tree, seat, Command::Insert(Key::default(), value(0)));
        for _ in 0..TIMES {
            if raise(tree, seat, &Key::default()) {
                self.raised = self.raised.saturating_add(1);
            }
        }
    }
}

/// The pairs of a tree, which ends with it; it is closed once more where that is refused.
fn closed(alloc: Global, tree: Tree, seats: Vec<BwSeat>) -> Option<Vec<(Key, Value)>>
    requires own { AreSeatsOf tree seats.items }
{
    match tree.close(alloc, seats) {
        Ok(pairs) => Some(pairs),
        // nothing is lost: the tree and its seats are in the error, as they were
        Err(error) => error.tree.close(alloc, error.seats).ok(),
    }
}

/// Lets four threads raise the counter of a new tree, all at once: the works, and the pairs at the end.
fn raised<R: Threads + Sync>(rt: &R, alloc: Global) -> Option<(Vec<Raises>, Vec<(Key, Value)>)> {
    let work = || Raises { raised: 0 };
    let works = vec![in alloc; work(), work(), work(), work()].ok()?;
    let limits = Limits::for_keys(4, 1000).ok()?;
    let (tree, mut seats) = opened(alloc, limits).ok()?;
    let works = match work_in_threads(rt, &tree, &mut seats, works) {
        Ok(works) => works,
        // error.refusal says why: there are more works than seats, or there is no memory
        Err(error) => error.works,
    };
    Some(works).zip(closed(alloc, tree, seats))
}

#[test]
fn four_threads_raise_a_counter(rt: HostRuntime) {
    let Some((works, pairs)) = raised(&rt, rt.alloc()) else {
        assert!(rt; false, "no memory");
        return;
    };
    for work in works.iter() {
        assert_eq!(rt; work.raised, TIMES, "swaps of a thread");
    }
    assert!(rt;
        pairs.as_slice() == [(Key::default(), value(4 * TIMES))].as_slice(),
        "{pairs:?}"
    );
}
