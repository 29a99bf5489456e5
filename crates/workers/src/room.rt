//! The room that workers are given before their threads begin, and what is taken out of it afterwards.
ghost use Rattle.std.specs.Prelude.{◌≡◌, ◌≤◌, ◌*◌, [], All, IfErr, IfOk, flat_map, map, vec_len};
ghost use Rattle.std.specs.Vec.{vec_capacity};
ghost use Rattle.running_tree.specs.Trees.{AreSeatsOf};
ghost use Rattle.workers.specs.Worked.{AreIdle, HaveWorked};
ghost use Rattle.workers.specs.Working.{HasRoom, IsRoom};

use crate::begun::{Shared, in_threads};
use crate::gate::Gate;
use crate::job::JobResult;
use crate::worker::Worker;
use running_tree::BwSeat;
use std::alloc::{AllocError, Allocator};
use std::sync::Wait;
use std::thread::Threads;

/// Room for workers, for the results of each, for the workers and the seats that come back, and for all results.
pub(crate) struct Room<A: Allocator> {
    pub(crate) lists: Vec<Vec<JobResult<A>, A>, A>,
    pub(crate) workers: Vec<Worker<A>, A>,
    pub(crate) back: Vec<Worker<A>, A>,
    pub(crate) seats: Vec<BwSeat<A>, A>,
    pub(crate) results: Vec<JobResult<A>, A>,
}

impl<A: Allocator> Drop for Room<A> {
    fn drop(self) {
        let Room {
            lists: _,
            workers: _,
            back: _,
            seats: _,
            results: _,
        } = self;
    }
}

impl<A: Allocator + Copy> Room<A> {
    /// Room for so many workers, each of which may run all of so many jobs.
    pub(crate) fn of(alloc: A, count: usize, limit: usize) -> Result<Room<A>, AllocError>
        ensures { IfOk result (IsRoom count limit) }
    {
        let Some(all) = count.checked_mul(limit) else {
            return Err(AllocError);
        };
        Ok(Room {
            lists: lists(alloc, count, limit)?,
            workers: Vec::with_capacity(alloc, count)?,
            back: Vec::with_capacity(alloc, count)?,
            seats: Vec::with_capacity(alloc, count)?,
            results: Vec::with_capacity(alloc, all)?,
        })
    }

    /// The results of all workers, in no order, and the seats, once no more jobs come; the seats as they were where memory or a thread
    /// can't be had.
    pub(crate) fn worked<R: Threads + Wait + Sync, G: Gate + Sync>(
        self,
        alloc: A,
        shared: &Shared<'_, R, G, A>,
        seats: Vec<BwSeat<A>, A>,
    ) -> Result<(Vec<JobResult<A>, A>, Vec<BwSeat<A>, A>), Vec<BwSeat<A>, A>>
    where
        A: Send + Sync,
        requires own { AreSeatsOf shared.now.tree.now seats.items }
        requires idle { AreIdle seats.items }
        requires room { IsRoom (vec_len seats) shared.now.limit self }
        ensures worked { IfOk result (λ done. HaveWorked done.0.items seats.items done.1.items) }
        ensures left { IfErr result (λ left. left.items ≡ seats.items) }
    {
        let Room {
            lists,
            workers,
            back,
            seats: list,
            results,
        } = self;
        let workers = seated(seats, lists, workers, shared.limit);
        let (may_run, workers) = in_threads(alloc, shared, workers, back);
        let done = parted(workers, list, results, shared.limit);
        if may_run { Ok(done) } else { Err(done.1) }
    }
}

/// So many empty lists, each with room for so many results.
fn lists<A: Allocator + Copy>(
    alloc: A,
    count: usize,
    limit: usize,
) -> Result<Vec<Vec<JobResult<A>, A>, A>, AllocError>
    ensures count { IfOk result (λ lists. vec_len lists ≡ count) }
    ensures each { IfOk result (λ lists. All (HasRoom limit) lists.items) }
{
    let mut lists = Vec::new(alloc);
    for _ in 0..count {
        lists.push(Vec::with_capacity(alloc, limit)?)?;
    }
    Ok(lists)
}

/// A worker for each seat, in the seats' order, each with a list.
pub(crate) fn seated<A: Allocator>(
    seats: Vec<BwSeat<A>, A>,
    lists: Vec<Vec<JobResult<A>, A>, A>,
    workers: Vec<Worker<A>, A>,
    limit: usize,
) -> Vec<Worker<A>, A>
    requires lists { vec_len lists ≡ vec_len seats }
    requires each { All (HasRoom limit) lists.items }
    requires empty { workers.items ≡ [] }
    requires room { vec_len seats ≤ vec_capacity workers }
    ensures seats { map (λ worker. worker.seat) result.items ≡ seats.items }
    ensures room { All (λ worker. HasRoom limit worker.done) result.items }
{
    let _ = limit;
    let mut lists = lists;
    let mut workers = workers;
    for seat in seats {
        let Some(done) = lists.pop() else {
            unreachable!()
        };
        workers.push_reserved(Worker { seat, done });
    }
    workers
}

/// The seats of workers, and all their results.
pub(crate) fn parted<A: Allocator>(
    workers: Vec<Worker<A>, A>,
    seats: Vec<BwSeat<A>, A>,
    results: Vec<JobResult<A>, A>,
    limit: usize,
) -> (Vec<JobResult<A>, A>, Vec<BwSeat<A>, A>)
    requires few { All (λ worker. vec_len worker.done ≤ limit) workers.items }
    requires seats { seats.items ≡ [] }
    requires results { results.items ≡ [] }
    requires seats_room { vec_len workers ≤ vec_capacity seats }
    requires results_room { vec_len workers * limit ≤ vec_capacity results }
    ensures results { result.0.items ≡ flat_map (λ worker. worker.done.items) workers.items }
    ensures seats { result.1.items ≡ map (λ worker. worker.seat) workers.items }
{
    let _ = limit;
    let mut seats = seats;
    let mut results = results;
    for worker in workers {
        let (seat, mut done) = worker.into_parts();
        seats.push_reserved(seat);
        let Ok(()) = results.append(&mut done) else {
            unreachable!()
        };
    }
    (results, seats)
}
