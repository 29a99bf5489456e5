//! What is refused hands back what it was given, and what was done leaves seats with which more can be done: works that are too many, works, and
//! jobs behind them, run twice.
ghost use Rattle.running_tree.specs.Trees.{AreSeatsOf};

use crate::numbered::{are_numbers, insert};
use crate::trees::{closed, new_tree};
use bw_model::{Limits, Reply};
use running_tree::{BwSeat, Tree};
use std::alloc::Global;
use std::sync::Wait;
use std::thread::Threads;
use workers::{
    Job, NoReply, Ungated, Work, WorksRefusal, are_ascending, are_idle, opened, reply, run_jobs,
    run_to_end, take_seat, work_in_threads,
};

/// Inserts the key of a number.
#[derive(Drop)]
struct Inserts {
    number: u32,
    told: Option<Result<Reply, NoReply>>,
}

impl Inserts {
    fn new(number: u32) -> Inserts {
        Inserts { number, told: None }
    }
}

impl Work for Inserts {
    fn work(&mut self, tree: &Tree, seat: &mut BwSeat) {
        self.told = Some(reply(tree, seat, insert(self.number)));
    }
}

/// Three works on two seats come back undone, in their order; all but the last one are done then.
fn works_come_back<R: Threads + Sync>(
    rt: &R,
    alloc: Global,
    tree: &Tree,
    seats: &mut Vec<BwSeat>,
) -> Option<bool>
    requires own { AreSeatsOf tree.now seats.old.items }
    ensures own { AreSeatsOf tree.now seats.new.items }
{
    let works = vec![in alloc; Inserts::new(0), Inserts::new(1), Inserts::new(2)].ok()?;
    let mut error = work_in_threads(rt, tree, seats, works).err()?;
    let last = error.works.pop()?;
    let refused = error.refusal == WorksRefusal::Seats && last.number == 2 && last.told.is_none();
    let done = work_in_threads(rt, tree, seats, error.works).ok()?;
    let inserted = |work: &Inserts| work.told == Some(Ok(Reply::Inserted));
    Some(refused && seats.len() == 2 && done.len() == 2 && done.iter().all(inserted))
}

/// A job that inserts the key of its number, on all seats that are idle.
fn job_is_done<R: Threads + Wait + Sync>(
    rt: &R,
    alloc: Global,
    tree: &Tree,
    seats: Vec<BwSeat>,
    number: u32,
) -> (bool, Vec<BwSeat>)
    requires own { AreSeatsOf tree.now seats.items }
    ensures own { AreSeatsOf tree.now result.1.items }
{
    let (Ok(commands), mut jobs) = (vec![in alloc; insert(number)], Vec::new(alloc)) else {
        return (false, seats);
    };
    if jobs.push(Job { number, commands }).is_err() || !are_ascending(jobs.as_slice()) {
        return (false, seats);
    }
    if seats.is_empty() || !are_idle(seats.as_slice()) {
        return (false, seats);
    }
    match run_jobs(rt, alloc, tree, seats, jobs, &Ungated) {
        Ok((results, seats)) => (results.len() == 1, seats),
        Err(error) => (false, error.seats),
    }
}

/// Works, then two jobs one after another, and then a command on a seat, all on the two seats of one tree, which is closed with all keys.
fn all_is_done<R: Threads + Wait + Sync>(rt: &R, alloc: Global) -> Option<bool> {
    let Ok(limits) = Limits::for_keys(2, 100) else {
        return None;
    };
    let Ok((tree, mut seats)) = opened(alloc, limits) else {
        return None;
    };
    let worked = works_come_back(rt, alloc, &tree, &mut seats)?;
    let (second, seats) = job_is_done(rt, alloc, &tree, seats, 2);
    let (third, seats) = job_is_done(rt, alloc, &tree, seats, 3);
    let pairs = closed(alloc, tree, seats)?;
    Some(worked && second && third && are_numbers(pairs.as_slice(), 0, 4))
}

#[test]
fn what_is_refused_comes_back(rt: HostRuntime) {
    let done = all_is_done(&rt, rt.alloc());
    assert!(rt; done == Some(true), "{done:?}");
}

/// Runs a command to its end on the only seat of a tree.
fn runs_to_end<R: Wait>(rt: &R, alloc: Global) -> Option<bool> {
    let (tree, mut seats) = new_tree(alloc, Limits::for_keys(1, 100).ok())?;
    let mut seat = take_seat(&tree, &mut seats)?;
    if !seat.is_idle() {
        return None;
    }
    Some(run_to_end(rt, &tree, &mut seat, insert(1)) == Reply::Inserted)
}

#[test]
fn a_command_runs_to_its_end(rt: HostRuntime) {
    let ran = runs_to_end(&rt, rt.alloc());
    assert!(rt; ran == Some(true), "{ran:?}");
}
