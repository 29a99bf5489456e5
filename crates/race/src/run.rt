//! A whole race.

ghost use Rattle.std.specs.Prelude.{◌≡◌, [], false, ℕ, List};
ghost use Rattle.byte_streams.specs.Output.{Prints};
ghost use Rattle.running_tree.specs.Trees.{AreSeatsOf};
ghost use Rattle.workers.specs.Jobs.{AreAscending};
ghost use Rattle.race.specs.Race.{Closes, IsRace, RunsBytes, RunsJobs, told_as};

use crate::jobs::jobs_of;
use crate::lines::look;
use crate::printed::show_results;
use crate::taken::read_all;
use bw_model::Limits;
use bw_shell::{Refusal, show_listing, show_lone_refusal, show_refused, status};
use byte_streams::{Input, Output, outputs_add_up};
use running_tree::{BwSeat, Tree};
use std::alloc::Global;
use std::sync::Wait;
use std::thread::Threads;
use workers::{Job, JobResult, JobsRefusal, Ungated, opened, run_jobs};

/// Prints results, closes the tree and prints its pairs. Answers whether it could not be closed.
fn close<O: Output>(
    alloc: Global,
    tree: Tree,
    seats: Vec<BwSeat>,
    results: &[JobResult],
    out: &mut O,
) -> bool
    requires own { AreSeatsOf tree seats.items }
    ensures { (text : List ℕ) × Closes tree.limits results.now seats.items text result × Prints (O.state out.old) (O.state out.new) text }
{
    outputs_add_up();
    show_results(out, results);
    match tree.close(alloc, seats) {
        Ok(pairs) => {
            show_listing(out, pairs.as_slice());
            false
        }
        Err(_) => {
            show_lone_refusal(out, Refusal::NotClosed);
            true
        }
    }
}

// How the program tells why jobs were refused.
fn refusal_of(why: JobsRefusal) -> Refusal
    ensures { result ≡ told_as why }
{
    match why {
        JobsRefusal::NotRun => Refusal::NotRun,
        JobsRefusal::Results => Refusal::WrongResults,
    }
}

/// Runs jobs on a fresh tree, and prints what comes of them. Answers whether that was a refusal.
fn run<R: Threads + Wait + Sync, O: Output>(
    rt: &R,
    alloc: Global,
    limits: Limits,
    jobs: Vec<Job>,
    out: &mut O,
) -> bool
    requires { AreAscending jobs.items }
    ensures { (text : List ℕ) × RunsJobs limits jobs.items text result × Prints (O.state out.old) (O.state out.new) text }
{
    let Ok((tree, seats)) = opened(alloc, limits) else {
        show_lone_refusal(out, Refusal::NotOpened);
        return true;
    };
    match run_jobs(rt, alloc, &tree, seats, jobs, &Ungated) {
        Ok((results, seats)) => close(alloc, tree, seats, results.as_slice(), out),
        Err(error) => {
            show_lone_refusal(out, refusal_of(error.refusal));
            true
        }
    }
}

/// Runs the jobs that lines ask for, if the input has ended and no line is refused. Answers whether something was refused.
fn run_lines<R: Threads + Wait + Sync, O: Output>(
    rt: &R,
    alloc: Global,
    limits: Limits,
    bytes: &[u8],
    ended: bool,
    out: &mut O,
) -> bool
    ensures { (text : List ℕ) × RunsBytes limits bytes.now ended text result × Prints (O.state out.old) (O.state out.new) text }
{
    outputs_add_up();
    let asked = match look(alloc, bytes, ended) {
        Ok(asked) => asked,
        Err(line) => {
            show_refused(out, line);
            return true;
        }
    };
    if !ended {
        return false;
    }
    let Ok(jobs) = jobs_of(alloc, asked) else {
        show_lone_refusal(out, Refusal::Memory);
        return true;
    };
    run(rt, alloc, limits, jobs, out)
}

/// Reads all lines, runs the jobs that they ask for on a tree of these limits, with a thread for each actor, and writes their replies
/// in order of the jobs, and then the tree's pairs. Answers the status: 0 where no read or write failed and nothing was refused, else 1.
pub fn race<R: Threads + Wait + Sync, I: Input, O: Output>(
    rt: &R,
    alloc: Global,
    limits: Limits,
    input: &mut I,
    out: &mut O,
) -> u8
    requires sound_in { I.failed input.old ≡ false }
    requires sound_out { (O.state out.old).failed ≡ false }
    requires fresh { (O.state out.old).held ≡ [] }
    ensures { IsRace limits (I.remaining input.old) (I.remaining input.new) (I.failed input.new)
        (O.state out.old).contents (O.state out.new).contents (O.state out.new).failed result }
{
    outputs_add_up();
    let refused = match read_all(alloc, input) {
        Ok(bytes) => run_lines(
            rt,
            alloc,
            limits,
            bytes.as_slice(),
            !input.has_failed(),
            out,
        ),
        Err(_) => {
            show_lone_refusal(out, Refusal::Memory);
            true
        }
    };
    out.finish();
    status(refused, input.has_failed(), out.has_failed())
}
