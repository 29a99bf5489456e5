//! The program `bwtree`: the words of a command line in, an exit status out.
//!
//! Look first at `run_settings` (programs.rt): what the settings name is run, on a tree of exactly their limits, over any input and
//! output. `main` hands it standard input and standard output, which is seen by reading, by a stored run and by checks/statuses.
//!
//! Called by who starts it, and by the script `./bwtree`, which builds it first. It chooses what to run, and runs nothing itself: that is
//! `bw_shell`, `drawing`, `filming` or `race`.
#![tactic(auto)]

mod command_line;
mod programs;

use command_line::run;
use std::process::ExitCode;

fn main(rt: HostRuntime) -> ExitCode {
    run(&rt, &rt)
}
