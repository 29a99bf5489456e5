//! A worker: a seat, and the results of the jobs that it ran.
ghost use Rattle.std.specs.Prelude.{◌≡◌, ◌<◌, ◌≤◌, [], None, Some, length, map, vec_len, zip};
ghost use Rattle.std.specs.Vec.{vec_capacity};
ghost use Rattle.running_tree.specs.Runs.{IsOneHistory};
ghost use Rattle.running_tree.specs.Seats.{unfinished_command};
ghost use Rattle.running_tree.specs.Trees.{IsSeatOf};
ghost use Rattle.workers.specs.Worked.{GoesOn};
ghost use Rattle.workers.specs.Working.{AddsResult, HasDone};

use crate::endings::run_to_end;
use crate::gate::Gate;
use crate::job::JobResult;
use crate::task::Task;
use bw_model::{Command, Reply};
use crossbeam_channel::Receiver;
use running_tree::{BwSeat, Tree};
use std::alloc::Allocator;
use std::sync::Wait;

/// A seat, and the results of the jobs that were run on it.
pub(crate) struct Worker<A: Allocator> {
    pub(crate) seat: BwSeat<A>,
    pub(crate) done: Vec<JobResult<A>, A>,
}

impl<A: Allocator> Drop for Worker<A> {
    fn drop(self) {
        let Worker { seat: _, done: _ } = self;
    }
}

impl<A: Allocator> Worker<A> {
    /// Its seat, and the results.
    pub(crate) fn into_parts(self) -> (BwSeat<A>, Vec<JobResult<A>, A>)
        ensures seat { result.0 ≡ self.seat }
        ensures done { result.1 ≡ self.done }
    {
        let Worker { seat, done } = self;
        (seat, done)
    }

    /// Runs jobs as they come, until no more will come, or there were as many as there are.
    pub(crate) fn work<R: Wait, G: Gate>(
        &mut self,
        rt: &R,
        tree: &Tree<A>,
        place: usize,
        limit: usize,
        tasks: &Receiver<Task<A>, A>,
        gate: &G,
    )
        requires own { IsSeatOf tree.now self.old.seat }
        requires idle { unfinished_command self.old.seat ≡ None }
        requires empty { self.old.done.items ≡ [] }
        requires room { limit ≤ vec_capacity self.old.done }
        ensures done { HasDone place limit self.old.seat self.new }
        ensures history { IsOneHistory self.new.seat.limits self.new.seat.seen }
    {
        for _ in rt.forever() {
            if self.done.len() >= limit {
                break;
            }
            let Ok(task) = tasks.recv(rt) else {
                break;
            };
            self.run(rt, tree, place, task, gate);
        }
        self.seat.saw_one_history();
    }

    /// Runs a job, and keeps its result.
    fn run<R: Wait, G: Gate>(
        &mut self,
        rt: &R,
        tree: &Tree<A>,
        place: usize,
        task: Task<A>,
        gate: &G,
    )
        requires own { IsSeatOf tree.now self.old.seat }
        requires idle { unfinished_command self.old.seat ≡ None }
        requires room { vec_len self.old.done < vec_capacity self.old.done }
        ensures adds { AddsResult place self.old self.new }
        ensures room { vec_capacity self.new.done ≡ vec_capacity self.old.done }
    {
        let Task {
            job,
            commands,
            mut replies,
        } = task;
        gate.before(job);
        run_all(rt, tree, &mut self.seat, commands.as_slice(), &mut replies);
        self.done.push_reserved(JobResult {
            job,
            seat: place,
            commands,
            replies,
        });
        gate.after(job);
    }
}

/// Runs commands in order, each to its end.
fn run_all<R: Wait, A: Allocator>(
    rt: &R,
    tree: &Tree<A>,
    seat: &mut BwSeat<A>,
    commands: &[Command],
    replies: &mut Vec<Reply, A>,
)
    requires own { IsSeatOf tree.now seat.old }
    requires idle { unfinished_command seat.old ≡ None }
    requires empty { replies.old.items ≡ [] }
    requires room { length commands.now ≤ vec_capacity replies.old }
    ensures goes { GoesOn seat.old (zip commands.now (map Some replies.new.items)) seat.new }
{
    for command in commands {
        replies.push_reserved(run_to_end(rt, tree, seat, command.copied()));
    }
}
