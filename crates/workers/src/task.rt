//! Jobs on their way to the workers.
ghost use Rattle.std.specs.Prelude.{◌≡◌, ◌≤◌, [], vec_len};
ghost use Rattle.std.specs.Vec.{vec_capacity};

use crate::job::Job;
use bw_model::{Command, Reply};
use crossbeam_channel::{Receiver, bounded};
use std::alloc::{AllocError, Allocator};
use std::sync::Wait;

/// A job, with room for its replies.
#[derive(Drop)]
pub(crate) struct Task<A: Allocator> {
    pub(crate) job: u32,
    pub(crate) commands: Vec<Command, A>,
    pub(crate) replies: Vec<Reply, A>,
    pub(crate) ghost empty: { replies.items ≡ [] },
    pub(crate) ghost room: { vec_len commands ≤ vec_capacity replies },
}

/// A copy of the commands.
fn commands_of<A: Allocator>(
    alloc: A,
    commands: &[Command],
) -> Result<Vec<Command, A>, AllocError> {
    let mut copies = Vec::with_capacity(alloc, commands.len())?;
    for command in commands {
        copies.push(command.copied())?;
    }
    Ok(copies)
}

impl<A: Allocator + Copy> Task<A> {
    fn of(alloc: A, job: &Job) -> Result<Task<A>, AllocError> {
        let commands = commands_of(alloc, job.commands.as_slice())?;
        let replies = Vec::with_capacity(alloc, commands.len())?;
        Ok(Task {
            job: job.number,
            commands,
            replies,
        })
    }
}

/// All jobs, in a channel to which nobody sends any more.
pub(crate) fn tasks<R: Wait, A: Allocator + Copy>(
    rt: &R,
    alloc: A,
    jobs: &[Job],
) -> Result<Receiver<Task<A>, A>, AllocError> {
    let (sender, receiver) = bounded(alloc, jobs.len().max(1))?;
    for job in jobs {
        let task = Task::of(alloc, job)?;
        if sender.send(rt, task).is_err() {
            return Err(AllocError);
        }
    }
    Ok(receiver)
}
