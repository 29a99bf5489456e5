//! A window of keys that four threads move over one tree of few PIDs, each with a seat of its own: they take the keys in turn, so that all work at
//! both of its ends. While a thread stands inside an operation nothing is free that the others take out, so a command that found nothing free is given
//! again: PIDs that were lost for ever, as a page of each level for each 512 keys, would be wanting after 60,000 of the 100,000 keys.
ghost use Rattle.running_tree.specs.Seats.{IsSame};
ghost use Rattle.running_tree.specs.Trees.{IsSeatOf};

use crate::threads::done_at_once;
use crate::works::Work;
use bw_model::{Limits, Reply};
use running_tree::{BwSeat, Tree};
use std::alloc::Global;
use std::thread::Threads;
use workers::reply;

/// How many keys each thread has there at a time, and how many it brings in all.
const KEYS: u32 = 250;

const END: u32 = 25_000;

/// How often a command is given at most.
const TRIES: u32 = 100_000;

/// Whether the work is done for the number, once there is something free.
fn is_done(tree: &Tree, seat: &mut BwSeat, work: Work, number: u32) -> bool
    requires own { IsSeatOf tree.now seat.old }
    ensures same { IsSame seat.old seat.new }
{
    for _ in 0..TRIES {
        match reply(tree, seat, work.command(number)) {
            Ok(Reply::Full) => {}
            Ok(told) => return told == work.reply(number),
            Err(_) => return false,
        }
    }
    false
}

/// A thread's share of the keys, by the first one of four; and how many replies were wrong.
#[derive(Drop)]
struct Share {
    first: u32,
    wrong: u32,
}

impl Share {
    fn new(first: u32) -> Share {
        Share { first, wrong: 0 }
    }

    /// The number of its key at a place.
    fn number(&self, place: u32) -> u32 {
        place.wrapping_mul(4).wrapping_add(self.first)
    }

    fn count(&mut self, right: bool) {
        self.wrong = self.wrong.saturating_add(u32::from(!right));
    }
}

impl workers::Work for Share {
    fn work(&mut self, tree: &Tree, seat: &mut BwSeat) {
        for place in 0..END {
            let new = self.number(place);
            let inserted = is_done(tree, seat, Work::Insert, new);
            self.count(inserted);
            if let Some(old) = place.checked_sub(KEYS) {
                let deleted = is_done(tree, seat, Work::Delete, self.number(old));
                self.count(deleted);
            }
        }
    }
}

/// How many replies were wrong, and how many pairs are left.
#[derive(Clone, Copy, Debug, PartialEq)]
struct Outcome {
    wrong: u32,
    left: usize,
}

/// What comes of the four threads.
fn moved<R: Threads + Sync>(rt: &R, alloc: Global) -> Option<Outcome> {
    let limits = Limits::new(4, 512, 8_192, 1).ok()?;
    let shares = vec![in alloc; Share::new(0), Share::new(1), Share::new(2), Share::new(3)].ok()?;
    let (shares, pairs) = done_at_once(rt, alloc, limits, shares)?;
    let all = shares.iter();
    let wrong = all.fold(0u32, |sum, share| sum.saturating_add(share.wrong));
    let left = pairs.len();
    Some(Outcome { wrong, left })
}

#[test]
fn four_threads_move_a_window(rt: HostRuntime) {
    let moved = moved(&rt, rt.alloc());
    let expected = Outcome {
        wrong: 0,
        left: 4 * KEYS as usize,
    };
    assert!(rt; moved == Some(expected), "{moved:?}");
}
