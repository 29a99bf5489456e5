//! Jobs of which each growth of memory and each thread is refused in turn: none begins, the seats come back, and the same jobs run on the same
//! tree.
ghost use Rattle.std.specs.Prelude.{◌≤◌, IfErr, IfOk, IfSome, IsSome, vec_len};
ghost use Rattle.running_tree.specs.Trees.{AreSeatsOf};
ghost use Rattle.workers.specs.Jobs.{AreAscending};
ghost use Rattle.workers.specs.Worked.{AreIdle};

use crate::numbered::{found, get, insert, key, value};
use crate::refused_trees::Heap;
use bw_model::{Command, Limits, Reply};
use refusing_alloc::Refusing;
use running_tree::{BwSeat, Tree};
use std::alloc::{Allocator, Global};
use std::sync::Wait;
use std::sync::atomic::{AtomicU64, Ordering};
use std::thread::Threads;
use workers::{Gate, Job, JobResult, JobsRefusal, are_ascending, opened, run_jobs};

/// How often two jobs on two seats want memory: a list of lists, and one for each worker; the lists of workers, of threads, of workers that
/// are back, of seats and of results; the channel, twice; and for each job its commands and its replies.
const WANTS: u64 = 14;

/// How many seats there are where threads are refused.
const SEATS: u64 = 3;

/// What is refused: a growth of memory, and a seat's thread, which wants a stack that can't be had. Counts the jobs that begin.
#[derive(Drop)]
struct Refuses<'a> {
    heap: Heap<'a>,
    growth: u64,
    seat: u64,
    begun: AtomicU64,
}

impl<'a> Refuses<'a> {
    fn new(heap: Heap<'a>, growth: u64, seat: u64) -> Refuses<'a> {
        Refuses {
            heap,
            growth,
            seat,
            begun: AtomicU64::new(0),
        }
    }

    /// Whether a refusal is this one, and no job has begun.
    fn is_told(&self, refusal: JobsRefusal) -> bool {
        refusal == JobsRefusal::NotRun && self.begun.load(Ordering::SeqCst) == 0
    }
}

impl<'a> Gate for Refuses<'a> {
    fn before(&self, _job: u32) {
        self.begun.fetch_add(1, Ordering::SeqCst);
    }

    fn after(&self, _job: u32) {}

    fn stack_size(&self, seat: usize) -> Option<usize> {
        (seat as u64 == self.seat).then_some(usize::MAX)
    }
}

/// Seats of a tree.
type Seats<A> = Vec<BwSeat<A>, A>;

/// Adds a job of these commands, if there is memory for it.
fn add(alloc: Global, jobs: &mut Vec<Job>, number: u32, asked: &[Command]) -> bool {
    let mut commands = Vec::new(alloc);
    for command in asked {
        if commands.push(command.copied()).is_err() {
            return false;
        }
    }
    jobs.push(Job { number, commands }).is_ok()
}

/// Adds job 3, which inserts a key and looks it up, and job 8, which inserts another one.
fn add_both(alloc: Global, jobs: &mut Vec<Job>) -> bool {
    add(alloc, jobs, 3, &[insert(1), get(1)]) && add(alloc, jobs, 8, &[insert(2)])
}

/// The jobs, if there is memory for them, and a seat to run them.
fn jobs<A: Allocator>(alloc: Global, seats: &Seats<A>) -> Option<Vec<Job>>
    ensures ascending { IfSome result (λ jobs. AreAscending jobs.items) }
    ensures some { IsSome result → 1 ≤ vec_len seats.now }
{
    let mut jobs = Vec::new(alloc);
    if add_both(alloc, &mut jobs) && are_ascending(jobs.as_slice()) && !seats.is_empty() {
        Some(jobs)
    } else {
        None
    }
}

/// Runs the jobs while something is refused, and hands back the seats. Says whether the results are right, or how it was refused.
fn run_once<R: Threads + Wait + Sync, A: Allocator + Copy + Send + Sync>(
    rt: &R,
    alloc: Global,
    memory: A,
    tree: &Tree<A>,
    seats: Seats<A>,
    refuses: &Refuses<'_>,
) -> Result<(bool, Seats<A>), (bool, Seats<A>)>
    requires own { AreSeatsOf tree.now seats.items }
    requires idle { AreIdle seats.items }
    ensures own { IfOk result (λ done. AreSeatsOf tree.now done.1.items) }
    ensures left { IfErr result (λ refused. AreSeatsOf tree.now refused.1.items × AreIdle refused.1.items) }
{
    let Some(jobs) = jobs(alloc, &seats) else {
        return Err((false, seats));
    };
    refuses.heap.set(refuses.growth);
    let ran = run_jobs(rt, memory, tree, seats, jobs, refuses);
    refuses.heap.set(u64::MAX);
    match ran {
        Ok((results, seats)) => Ok((are_right(results.as_slice()), seats)),
        Err(error) => Err((refuses.is_told(error.refusal), error.seats)),
    }
}

/// Runs the jobs, where nothing is refused; says whether the results are right.
fn run_again<R: Threads + Wait + Sync, A: Allocator + Copy + Send + Sync>(
    rt: &R,
    alloc: Global,
    memory: A,
    tree: &Tree<A>,
    seats: Seats<A>,
    refuses: &Refuses<'_>,
) -> (bool, Seats<A>)
    requires own { AreSeatsOf tree.now seats.items }
    requires idle { AreIdle seats.items }
    ensures own { AreSeatsOf tree.now result.1.items }
{
    let nothing = Refuses::new(refuses.heap, u64::MAX, u64::MAX);
    match run_once(rt, alloc, memory, tree, seats, &nothing) {
        Ok(done) => done,
        Err((_, seats)) => (false, seats),
    }
}

/// Runs the jobs while something is refused, and again where that was in their way; says whether it was, and none where anything else comes.
fn run_twice<R: Threads + Wait + Sync, A: Allocator + Copy + Send + Sync>(
    rt: &R,
    alloc: Global,
    memory: A,
    tree: &Tree<A>,
    seats: Seats<A>,
    refuses: &Refuses<'_>,
) -> (Option<bool>, Seats<A>)
    requires own { AreSeatsOf tree.now seats.items }
    requires idle { AreIdle seats.items }
    ensures own { AreSeatsOf tree.now result.1.items }
{
    let count = seats.len();
    match run_once(rt, alloc, memory, tree, seats, refuses) {
        Ok((right, seats)) => (right.then_some(false), seats),
        Err((told, seats)) => {
            let told = told && seats.len() == count;
            let (right, seats) = run_again(rt, alloc, memory, tree, seats, refuses);
            ((told && right).then_some(true), seats)
        }
    }
}

/// Whether the results are those of the jobs on a fresh tree.
fn are_right<A: Allocator>(results: &[JobResult<A>]) -> bool {
    let [first, second] = results else {
        return false;
    };
    (first.job, second.job) == (3, 8)
        && first.replies.as_slice() == [Reply::Inserted, found(1)].as_slice()
        && second.replies.as_slice() == [Reply::Inserted].as_slice()
}

/// Whether the tree is closed with the pairs of the jobs.
fn lists_both<A: Allocator + Copy>(alloc: Global, tree: Tree<A>, seats: Seats<A>) -> bool
    requires own { AreSeatsOf tree seats.items }
{
    let pairs = [(key(1), value(1)), (key(2), value(2))];
    match tree.close(alloc, seats).ok() {
        Some(listed) => listed.as_slice() == pairs.as_slice(),
        None => false,
    }
}

/// Runs the jobs on a new tree while something is refused, and again where that was in their way; says whether it was, and none where anything
/// else comes.
fn was_refused<R: Threads + Wait + Sync, A: Allocator + Copy + Send + Sync>(
    rt: &R,
    alloc: Global,
    memory: A,
    seats: u64,
    refuses: &Refuses<'_>,
) -> Option<bool> {
    let Ok(limits) = Limits::new(seats, 64, 64, 1) else {
        return None;
    };
    let Ok((tree, seats)) = opened(memory, limits) else {
        return None;
    };
    let (refused, seats) = run_twice(rt, alloc, memory, &tree, seats, refuses);
    if lists_both(alloc, tree, seats) {
        refused
    } else {
        None
    }
}

/// Whether jobs on so many seats are refused as they are to be, where this is refused.
fn is_right<R: Threads + Wait + Sync>(
    rt: &R,
    alloc: Global,
    seats: u64,
    (growth, seat): (u64, u64),
    refused: bool,
) -> bool {
    let heap = Refusing::new(alloc);
    let refuses = Refuses::new(&heap, growth, seat);
    was_refused(rt, alloc, &heap, seats, &refuses) == Some(refused)
}

#[test]
fn jobs_want_memory(rt: HostRuntime) {
    for growth in 0..=WANTS {
        let refuses = (growth, u64::MAX);
        assert!(rt;
            is_right(&rt, rt.alloc(), 2, refuses, growth < WANTS),
            "{growth}"
        );
    }
}

// The first thread, one in the middle, and the last; and none, where no seat stands.
#[test]
fn jobs_want_threads(rt: HostRuntime) {
    for seat in 0..=SEATS {
        let refuses = (u64::MAX, seat);
        assert!(rt;
            is_right(&rt, rt.alloc(), SEATS, refuses, seat < SEATS),
            "{seat}"
        );
    }
}
