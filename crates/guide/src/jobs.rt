//! Jobs of commands, which the workers of a tree share.
ghost use Rattle.std.specs.Prelude.{IfSome};
ghost use Rattle.running_tree.specs.Trees.{AreSeatsOf};

use bw_model::{Command, Key, Limits, Reply, Value};
use running_tree::{BwSeat, Tree};
use std::alloc::{AllocError, Global};
use std::sync::Wait;
use std::thread::Threads;
use workers::{Job, JobResult, Ungated, are_ascending, are_idle, opened, run_jobs};

/// A job that inserts a key, and looks it up.
fn job(alloc: Global, number: u32, key: &Key) -> Result<Job, AllocError> {
    let insert = Command::Insert(key.copied(), Value::default());
    let commands = vec![in alloc; insert, Command::Get(key.copied())]?;
    Ok(Job { number, commands })
}

/// A job for each of three keys.
fn jobs(alloc: Global) -> Result<Vec<Job>, AllocError> {
    let mut jobs = Vec::new(alloc);
    for (number, bytes) in [(0, b"Bern"), (1, b"Oslo"), (2, b"Rome")] {
        let key = Key::from_slice(bytes).unwrap_or_default();
        jobs.push(job(alloc, number, &key)?)?;
    }
    Ok(jobs)
}

/// The results of jobs, if they were run, and the seats.
fn ran<R: Threads + Wait + Sync>(
    rt: &R,
    alloc: Global,
    tree: &Tree,
    seats: Vec<BwSeat>,
    jobs: Vec<Job>,
) -> (Option<Vec<JobResult>>, Vec<BwSeat>)
    requires own { AreSeatsOf tree.now seats.items }
    ensures own { AreSeatsOf tree.now result.1.items }
{
    // the jobs' numbers are to ascend, and some seat has to run them, of which none has an operation
    if !are_ascending(jobs.as_slice()) || seats.is_empty() || !are_idle(seats.as_slice()) {
        return (None, seats);
    }
    match run_jobs(rt, alloc, tree, seats, jobs, &Ungated) {
        Ok((results, seats)) => (Some(results), seats),
        // error.refusal says why, and error.results what was replied nevertheless
        Err(error) => (None, error.seats),
    }
}

/// A new tree, and its two seats.
fn new_tree(alloc: Global) -> Option<(Tree, Vec<BwSeat>)>
    ensures { IfSome result (λ made. AreSeatsOf made.0 made.1.items) }
{
    let limits = Limits::for_keys(2, 1000).ok()?;
    opened(alloc, limits).ok()
}

/// The results of the jobs on a new tree, which two threads run, and its pairs at the end.
fn done<R: Threads + Wait + Sync>(
    rt: &R,
    alloc: Global,
) -> Option<(Vec<JobResult>, Vec<(Key, Value)>)> {
    let jobs = jobs(alloc).ok()?;
    let (tree, seats) = new_tree(alloc)?;
    let (results, seats) = ran(rt, alloc, &tree, seats, jobs);
    match tree.close(alloc, seats) {
        Ok(pairs) => Some((results?, pairs)),
        // nothing is lost: the tree and its seats are in the error, as they were
        Err(error) => Some((results?, error.tree.close(alloc, error.seats).ok()?)),
    }
}

#[test]
fn two_threads_run_three_jobs(rt: HostRuntime) {
    let Some((results, pairs)) = done(&rt, rt.alloc()) else {
        assert!(rt; false, "the jobs weren't run");
        return;
    };
    assert_eq!(rt; results.len(), 3, "results");
    assert_eq!(rt; pairs.len(), 3, "pairs");
    let replies = [Reply::Inserted, Reply::Value(Value::default())];
    for result in results.iter() {
        assert!(rt;
            result.replies.as_slice() == replies.as_slice(),
            "job {}: {:?}",
            result.job,
            result.replies
        );
    }
}
