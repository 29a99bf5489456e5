//! Threads over one tree, a thread for each seat: works of the caller's own, and workers that run jobs of commands. It re-exports `seats`: lists
//! of seats, and commands that run to completion within a budget; `run_to_end` has none.
//!
//! Look first at `work_in_threads`, which does a caller's own work (`Work`) on each thread; of jobs at `run_jobs`, then at `Job` and `JobResult`. A
//! `Gate` may delay a job, and returns how large each thread's stack is to be.
//!
//! Which worker runs which job depends on timing. Each result names the seat that ran the job, and the history that this seat has seen has the
//! same calls with the same replies (specs/Worked).
//!
//! Called by `race` and `bench`, and by programs that embed a tree. It knows a tree by its contracts alone, of a work only its ghost member `does`,
//! and reads no line.
#![tactic(auto)]

mod begun;
mod check;
mod endings;
mod gate;
mod job;
mod room;
mod run;
mod task;
mod threads;
mod worker;

pub use check::are_ascending;
pub use endings::run_to_end;
pub use gate::{Gate, Ungated};
pub use job::{Job, JobResult, JobsError, JobsRefusal};
pub use run::run_jobs;
pub use seats::{
    NoReply, are_idle, called, gather, give_seat, opened, opened_from, reply, resumed, take_seat,
};
pub use threads::{Work, WorksError, WorksRefusal, work_in_threads};
