//! Trees that are loaded and worked on.
ghost use Rattle.std.specs.Prelude.{IsSome};
ghost use Rattle.running_tree.specs.Trees.{AreSeatsOf};

use crate::amounts::{Done, Scale};
use crate::worker::{What, Worker};
use bw_model::{BadLimits, Limits};
use running_tree::{BwSeat, Tree};
use seats::opened;
use std::alloc::{AllocError, Global};
use std::thread::Threads;
use std::time::{Clock, Instant};
use workers::work_in_threads;

/// How many keys a tree with the greatest limits of no large tree is loaded with at most.
const FEW_KEYS: u32 = 20_000;

/// How many bytes a value has.
const VALUE_BYTES: u64 = 8;

/// Loads a new tree, if it is no window's, and does what is asked on it, if that is more. Answers what was done last; none without memory, seats or a clock.
pub(crate) fn run<R: Threads + Clock + Sync>(
    rt: &R,
    alloc: Global,
    what: What,
    scale: Scale,
) -> Option<Done> {
    let Ok(limits) = limits_for(what, scale) else {
        return None;
    };
    let Ok((tree, mut seats)) = opened(alloc, limits) else {
        return None;
    };
    match what {
        What::Window | What::Passing | What::Hot => {
            in_threads(rt, alloc, &tree, &mut seats, what, scale)
        }
        _ => on_loaded(rt, alloc, &tree, &mut seats, what, scale),
    }
}

/// The limits of a tree for so many keys of this length: a large tree's where they are many.
fn limits_for(what: What, scale: Scale) -> Result<Limits, BadLimits> {
    match what {
        What::Window => Limits::new(4, 256, 4096, 1),
        What::Passing | What::Hot => Limits::for_pairs(4, u64::from(scale.size), 16, VALUE_BYTES),
        _ if scale.size <= FEW_KEYS => Limits::new(4, 4096, 16384, 1),
        _ => {
            let key_bytes = u64::from(scale.key_bytes).clamp(16, 64);
            Limits::for_pairs(4, u64::from(scale.size), key_bytes, VALUE_BYTES)
        }
    }
}

/// What is done on a tree in which the keys were inserted before, by one thread.
fn on_loaded<R: Threads + Clock + Sync>(
    rt: &R,
    alloc: Global,
    tree: &Tree,
    seats: &mut Vec<BwSeat>,
    what: What,
    scale: Scale,
) -> Option<Done>
    requires own { AreSeatsOf tree.now seats.old.items }
{
    let keys = Scale {
        threads: 1,
        operations: scale.size,
        ..scale
    };
    match what {
        What::Load | What::Ascend => in_threads(rt, alloc, tree, seats, what, keys),
        _ => {
            in_threads(rt, alloc, tree, seats, What::Load, keys)?;
            in_threads(rt, alloc, tree, seats, what, scale)
        }
    }
}

/// Does what is asked, in as many threads.
fn in_threads<R: Threads + Clock + Sync>(
    rt: &R,
    alloc: Global,
    tree: &Tree,
    seats: &mut Vec<BwSeat>,
    what: What,
    scale: Scale,
) -> Option<Done>
    requires own { AreSeatsOf tree.now seats.old.items }
    ensures own { IsSome result → AreSeatsOf tree.now seats.new.items }
{
    let Ok(workers) = workers(alloc, what, scale) else {
        return None;
    };
    let start = Instant::now(rt).ok()?;
    let workers = work_in_threads(rt, tree, seats, workers).ok()?;
    let time = start.elapsed(rt).ok()?;
    let all = workers.iter();
    let count = all.fold(0u64, |sum, worker| sum.saturating_add(worker.done));
    Some(Done { count, time })
}

/// One worker for each thread, each with a seed of its own.
fn workers(alloc: Global, what: What, scale: Scale) -> Result<Vec<Worker>, AllocError> {
    let mut workers = Vec::new(alloc);
    for thread in 0..scale.threads {
        workers.push(Worker::new(what, scale, thread))?;
    }
    Ok(workers)
}
