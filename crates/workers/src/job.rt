//! Jobs, their results, and why there are none.

use bw_model::{Command, Reply};
use running_tree::BwSeat;
use std::alloc::{Allocator, Global};
use thiserror::Error;

/// Commands that one worker runs, in order.
#[derive(Debug, Drop)]
pub struct Job {
    /// The job's number.
    pub number: u32,
    /// The commands.
    pub commands: Vec<Command>,
}

/// What became of a job.
#[derive(Drop)]
pub struct JobResult<A: Allocator = Global> {
    /// The job's number.
    pub job: u32,
    /// Which seat ran it: its place in the list of the seats.
    pub seat: usize,
    /// The job's commands.
    pub commands: Vec<Command, A>,
    /// A reply for each command.
    pub replies: Vec<Reply, A>,
}

/// Why there are no results.
#[derive(Clone, Copy, Debug, PartialEq, Eq, Error)]
pub enum JobsRefusal {
    /// Memory or a thread couldn't be had, before a job began.
    #[error("no memory or no thread for the jobs")]
    NotRun,
    /// A result is missing, doubled, or of no job: the channel didn't bring each job once.
    #[error("a result is missing, doubled or foreign")]
    Results,
}

/// A refusal to run jobs, which returns the seats, and what was replied.
#[derive(Drop)]
pub struct JobsError<A: Allocator = Global> {
    /// Why.
    pub refusal: JobsRefusal,
    /// The results that there are, in order of their numbers: none where no job has begun.
    pub results: Vec<JobResult<A>, A>,
    /// The seats, in their order. None has an operation.
    pub seats: Vec<BwSeat<A>, A>,
}
