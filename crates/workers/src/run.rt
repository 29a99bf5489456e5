//! Jobs are run.
ghost use Rattle.std.specs.Prelude.{◌≡◌, ◌≤◌, [], IfErr, IfOk, IsPermutation, vec_len};
ghost use Rattle.std.specs.List.Sorted.{IsNonDecreasingBy};
ghost use Rattle.running_tree.specs.Trees.{AreSeatsOf};
ghost use Rattle.workers.specs.Jobs.{AreAscending, AreResultsOf};
ghost use Rattle.workers.specs.Worked.{AreIdle, HaveOneHistory, HaveStopped, HaveWorked};

use crate::begun::Shared;
use crate::check::are_results;
use crate::gate::Gate;
use crate::job::{Job, JobResult, JobsError, JobsRefusal};
use crate::room::Room;
use crate::task::tasks;
use running_tree::{BwSeat, Tree};
use seats::gather;
use std::alloc::Allocator;
use std::sync::{OnceLock, Wait};
use std::thread::Threads;

/// Runs all jobs, by as many threads as there are seats, once all of these exist. A free thread takes the next job, and runs its commands
/// in order, each to completion; it waits where the gate does. The results are in the order of the jobs' numbers. It is refused if
/// allocation or a thread fails, before a job has begun, and if a result is missing, doubled or foreign. The seats are returned in their
/// order and idle, also from a refusal; each has seen what all have done, in one history. A reply takes 3.2 KB, which is allocated before a
/// job begins.
pub fn run_jobs<R: Threads + Wait + Sync, G: Gate + Sync, A: Allocator + Copy + Send + Sync>(
    rt: &R,
    alloc: A,
    tree: &Tree<A>,
    seats: Vec<BwSeat<A>, A>,
    jobs: Vec<Job>,
    gate: &G,
) -> Result<(Vec<JobResult<A>, A>, Vec<BwSeat<A>, A>), JobsError<A>>
    requires own { AreSeatsOf tree.now seats.items }
    requires idle { AreIdle seats.items }
    requires some { 1 ≤ vec_len seats }
    requires ascending { AreAscending jobs.items }
    ensures results { IfOk result (λ done. AreResultsOf jobs.items done.0.items) }
    ensures worked { IfOk result (λ done. HaveWorked done.0.items seats.items done.1.items) }
    ensures one { IfOk result (λ done. HaveOneHistory done.1.items) }
    ensures own { IfOk result (λ done. AreSeatsOf tree.now done.1.items) }
    ensures idle { IfOk result (λ done. AreIdle done.1.items) }
    ensures some { IfOk result (λ done. vec_len done.1 ≡ vec_len seats) }
    ensures refused { IfErr result (λ error. HaveStopped jobs.items error.refusal error.results.items seats.items error.seats.items) }
    ensures left { IfErr result (λ error. AreSeatsOf tree.now error.seats.items × AreIdle error.seats.items) }
{
    let Ok(room) = Room::of(alloc, seats.len(), jobs.len()) else {
        return Err(not_run(alloc, seats));
    };
    let Ok(tasks) = tasks(rt, alloc, jobs.as_slice()) else {
        return Err(not_run(alloc, seats));
    };
    let shared = Shared {
        rt,
        tree,
        gate,
        tasks,
        limit: jobs.len(),
        may_run: OnceLock::new(),
    };
    let (results, seats) = match room.worked(alloc, &shared, seats) {
        Ok(done) => done,
        Err(seats) => return Err(not_run(alloc, seats)),
    };
    let mut seats = seats;
    gather(tree, &mut seats);
    let results = sorted(results);
    if are_results(jobs.as_slice(), results.as_slice()) {
        Ok((results, seats))
    } else {
        Err(wrong(results, seats))
    }
}

/// A refusal before a job has begun.
fn not_run<A: Allocator>(alloc: A, seats: Vec<BwSeat<A>, A>) -> JobsError<A>
    ensures refusal { result.refusal ≡ JobsRefusal.NotRun }
    ensures results { result.results.items ≡ [] }
    ensures seats { result.seats.items ≡ seats.items }
{
    JobsError {
        refusal: JobsRefusal::NotRun,
        results: Vec::new(alloc),
        seats,
    }
}

/// A refusal of results that aren't those of the jobs.
fn wrong<A: Allocator>(results: Vec<JobResult<A>, A>, seats: Vec<BwSeat<A>, A>) -> JobsError<A>
    ensures refusal { result.refusal ≡ JobsRefusal.Results }
    ensures results { result.results.items ≡ results.items }
    ensures seats { result.seats.items ≡ seats.items }
{
    JobsError {
        refusal: JobsRefusal::Results,
        results,
        seats,
    }
}

/// The results in order of their numbers.
fn sorted<A: Allocator>(results: Vec<JobResult<A>, A>) -> Vec<JobResult<A>, A>
    ensures permutation { IsPermutation results.items result.items }
    ensures order { IsNonDecreasingBy (λ result. result.job) result.items }
{
    let mut results = results;
    results.sort_unstable_by_key(|done| done.job);
    results
}
