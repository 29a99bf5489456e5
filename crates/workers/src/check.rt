//! Whether results are those of the jobs.
ghost use Rattle.std.specs.Prelude.{◌≡◌, ◌≢◌, MatchBool};
ghost use Rattle.workers.specs.Jobs.{AreAscending, AreResultsOf, IsResultOf};

use crate::job::{Job, JobResult};
use bw_model::Command;
use std::alloc::Allocator;

/// Whether each job has one result, in the jobs' order.
pub(crate) fn are_results<A: Allocator>(jobs: &[Job], results: &[JobResult<A>]) -> bool
    ensures { MatchBool result (AreResultsOf jobs.now results.now) (AreResultsOf jobs.now results.now → ⊥) }
{
    if jobs.len() != results.len() {
        return false;
    }
    for place in 0..jobs.len() {
        if !is_result(&jobs[place], &results[place]) {
            return false;
        }
    }
    true
}

/// Whether the result is the job's.
fn is_result<A: Allocator>(job: &Job, given: &JobResult<A>) -> bool
    ensures { MatchBool result (IsResultOf job.now given.now) (IsResultOf job.now given.now → ⊥) }
{
    given.job == job.number
        && given.replies.len() == job.commands.len()
        && are_same(given.commands.as_slice(), job.commands.as_slice())
}

/// Whether these are the same commands.
fn are_same(one: &[Command], other: &[Command]) -> bool
    ensures { MatchBool result (one.now ≡ other.now) (one.now ≢ other.now) }
{
    one == other
}

/// Whether the jobs are in the order of their numbers, no two of which are the same.
pub fn are_ascending(jobs: &[Job]) -> bool
    ensures { MatchBool result (AreAscending jobs.now) (AreAscending jobs.now → ⊥) }
{
    for place in 1..jobs.len() {
        if jobs[place - 1].number >= jobs[place].number {
            return false;
        }
    }
    true
}
