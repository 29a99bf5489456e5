//! Jobs, of the commands that are asked of them.

ghost use Rattle.std.specs.Prelude.{◌<◌, [], All, IfOk, OnOk, map};
ghost use Rattle.shell_lines.specs.declared.race_line.TheConstants.{JOBS};
ghost use Rattle.race.specs.Jobs.{AddsJob, AreJobsOf};
ghost use Rattle.race.specs.Lists.{AreListsOf};

use bw_model::Command;
use shell_lines::{JOBS, JobCommand};
use std::alloc::{AllocError, Global};
use workers::Job;

/// A list for each job number, empty.
fn no_lists(alloc: Global) -> Result<Vec<Vec<Command>>, AllocError>
    ensures { IfOk result (λ lists. AreListsOf [] (map (λ list. list.items) lists.items)) }
{
    let mut lists = Vec::new(alloc);
    for _number in 0..JOBS {
        lists.push(Vec::new(alloc))?;
    }
    Ok(lists)
}

/// The commands of each job number, in order.
fn lists_of(alloc: Global, asked: Vec<JobCommand>) -> Result<Vec<Vec<Command>>, AllocError>
    requires { All (λ asks. asks.job < JOBS) asked.items }
    ensures { IfOk result (λ lists. AreListsOf asked.items (map (λ list. list.items) lists.items)) }
{
    let mut lists = no_lists(alloc)?;
    for asks in asked {
        lists[asks.job as usize].push(asks.command)?;
    }
    Ok(lists)
}

/// Adds the job of this number, if it has commands.
fn add_job(jobs: &mut Vec<Job>, number: u32, commands: Vec<Command>) -> Result<(), AllocError>
    ensures { OnOk result (AddsJob jobs.old.items number commands.items jobs.new.items) }
{
    if commands.is_empty() {
        return Ok(());
    }
    jobs.push(Job { number, commands })?;
    Ok(())
}

/// The jobs that are asked for.
pub fn jobs_of(alloc: Global, asked: Vec<JobCommand>) -> Result<Vec<Job>, AllocError>
    requires { All (λ asks. asks.job < JOBS) asked.items }
    ensures { IfOk result (λ jobs. AreJobsOf asked.items jobs.items) }
{
    let lists = lists_of(alloc, asked)?;
    let mut jobs = Vec::new(alloc);
    let mut number = 0;
    for commands in lists {
        add_job(&mut jobs, number, commands)?;
        number += 1;
    }
    Ok(jobs)
}
