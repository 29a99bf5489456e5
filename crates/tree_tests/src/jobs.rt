//! Jobs that workers run on a tree's seats.
ghost use Rattle.running_tree.specs.Trees.{AreSeatsOf};
ghost use Rattle.workers.specs.Worked.{AreIdle};

use crate::numbered::{are_numbers, insert};
use crate::trees::closed;
use bw_model::{Command, Limits, Reply};
use running_tree::{BwSeat, Tree};
use std::alloc::{AllocError, Global};
use std::sync::Wait;
use std::sync::atomic::{AtomicBool, AtomicU64, Ordering};
use std::thread::{Threads, yield_now};
use workers::{Gate, Job, JobResult, are_ascending, opened, run_jobs};

/// Inserts of so many keys from one on.
fn commands(alloc: Global, first: u32, count: u32) -> Result<Vec<Command>, AllocError> {
    let mut commands = Vec::new(alloc);
    for place in 0..count {
        commands.push(insert(first.wrapping_add(place)))?;
    }
    Ok(commands)
}

/// A job that inserts so many keys of its own.
fn job(alloc: Global, number: u32, each: u32) -> Result<Job, AllocError> {
    let commands = commands(alloc, number.wrapping_mul(each), each)?;
    Ok(Job { number, commands })
}

/// Such jobs, from one number on and below an end.
fn inserts(alloc: Global, (first, end): (u32, u32), each: u32) -> Result<Vec<Job>, AllocError> {
    let mut jobs = Vec::new(alloc);
    for number in first..end {
        jobs.push(job(alloc, number, each)?)?;
    }
    Ok(jobs)
}

/// Whether these are the results of such jobs, each insert of which found its key absent, on so many seats.
fn are_inserted(results: &[JobResult], (first, end): (u32, u32), each: u32, seats: usize) -> bool {
    let mut number = first;
    for result in results {
        if result.job != number || result.seat >= seats || result.commands.len() != each as usize {
            return false;
        }
        if result.replies.len() != each as usize
            || result.replies.iter().any(|reply| *reply != Reply::Inserted)
        {
            return false;
        }
        number = number.wrapping_add(1);
    }
    number == end
}

/// Whether a closed tree has the keys from one on and below an end.
fn lists(alloc: Global, tree: Tree, seats: Vec<BwSeat>, numbers: (u32, u32)) -> bool
    requires own { AreSeatsOf tree seats.items }
{
    let (first, end) = numbers;
    match closed(alloc, tree, seats) {
        Some(pairs) => are_numbers(pairs.as_slice(), first, end),
        None => false,
    }
}

/// How many seats there are, the first number of a job and the one behind the last, and how many keys each of these inserts.
type Amounts = (u64, (u32, u32), u32);

/// Whether jobs that insert keys of their own have the results for it, and the seats.
fn are_right<R: Threads + Wait + Sync, G: Gate + Sync>(
    rt: &R,
    alloc: Global,
    tree: &Tree,
    list: Vec<BwSeat>,
    amounts: Amounts,
    gate: &G,
) -> (bool, Vec<BwSeat>)
    requires own { AreSeatsOf tree.now list.items }
    requires idle { AreIdle list.items }
    ensures own { AreSeatsOf tree.now result.1.items }
{
    let (seats, numbers, each) = amounts;
    let Ok(jobs) = inserts(alloc, numbers, each) else {
        return (false, list);
    };
    if !are_ascending(jobs.as_slice()) || list.is_empty() {
        return (false, list);
    }
    match run_jobs(rt, alloc, tree, list, jobs, gate) {
        Ok((results, list)) => (
            are_inserted(results.as_slice(), numbers, each, seats as usize),
            list,
        ),
        Err(error) => (false, error.seats),
    }
}

/// Whether they do on a new tree of so many rows, and leave it with all keys.
fn are_run<R: Threads + Wait + Sync, G: Gate + Sync>(
    rt: &R,
    alloc: Global,
    rows: u64,
    amounts: Amounts,
    gate: &G,
) -> bool {
    let Ok(limits) = Limits::new(amounts.0, rows / 4, rows, 1) else {
        return false;
    };
    let Ok((tree, list)) = opened(alloc, limits) else {
        return false;
    };
    let (right, list) = are_right(rt, alloc, &tree, list, amounts, gate);
    let ((first, end), each) = (amounts.1, amounts.2);
    let keys = (first.wrapping_mul(each), end.wrapping_mul(each));
    lists(alloc, tree, list, keys) && right
}

/// Counts the jobs that begin and end.
#[derive(Drop)]
struct Counts {
    begun: AtomicU64,
    ended: AtomicU64,
}

impl Gate for Counts {
    fn before(&self, _job: u32) {
        self.begun.fetch_add(1, Ordering::SeqCst);
    }

    fn after(&self, _job: u32) {
        self.ended.fetch_add(1, Ordering::SeqCst);
    }
}

/// Whether the jobs are run, and each begins once and ends once.
fn are_counted<R: Threads + Wait + Sync>(rt: &R, alloc: Global, amounts: Amounts) -> bool {
    let counts = Counts {
        begun: AtomicU64::new(0),
        ended: AtomicU64::new(0),
    };
    let ran = are_run(rt, alloc, 16384, amounts, &counts);
    let begun = counts.begun.load(Ordering::SeqCst);
    let ended = counts.ended.load(Ordering::SeqCst);
    let (first, end) = amounts.1;
    let jobs = u64::from(end.saturating_sub(first));
    ran && (begun, ended) == (jobs, jobs)
}

// As many seats as jobs, more, and fewer; no job at all, and jobs without commands.
#[test]
fn seats_share_jobs(rt: HostRuntime) {
    for (seats, count, each) in [
        (4, 4, 1000),
        (4, 1, 20),
        (1, 4, 20),
        (3, 50, 3),
        (2, 0, 1),
        (2, 3, 0),
    ] {
        let right = are_counted(&rt, rt.alloc(), (seats, (0, count), each));
        assert!(rt; right, "{seats} seats, {count} jobs of {each}");
    }
}

/// Holds two jobs, of an even and an odd number, each until the other one began, and tells if that was too long.
#[derive(Drop)]
struct Meets {
    begun: [AtomicBool; 2],
    late: AtomicBool,
}

/// Whether the flag is raised within 100 reads.
fn is_raised(flag: &AtomicBool) -> bool {
    for _ in 0..100u32 {
        if flag.load(Ordering::SeqCst) {
            return true;
        }
    }
    false
}

/// Whether the flag is raised within 1,000,000 turns.
fn waits_for(flag: &AtomicBool) -> bool {
    for _ in 0..1_000_000u32 {
        if is_raised(flag) {
            return true;
        }
        yield_now();
    }
    false
}

impl Gate for Meets {
    fn before(&self, job: u32) {
        let mine = (job % 2) as usize;
        self.begun[mine].store(true, Ordering::SeqCst);
        if !waits_for(&self.begun[1 - mine]) {
            self.late.store(true, Ordering::SeqCst);
        }
    }

    fn after(&self, _job: u32) {}
}

// Jobs 1 and 2. Workers that ran one job after another would wait in vain.
#[test]
fn jobs_run_at_once(rt: HostRuntime) {
    let gate = Meets {
        begun: [AtomicBool::new(false), AtomicBool::new(false)],
        late: AtomicBool::new(false),
    };
    let ran = are_run(&rt, rt.alloc(), 256, (2, (1, 3), 2), &gate);
    let late = gate.late.load(Ordering::SeqCst);
    assert!(rt; ran && !late, "ran: {ran}, late: {late}");
}
