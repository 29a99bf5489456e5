//! The program `race`: the jobs that lines ask for, run on threads over one tree.
//!
//! Look first at `race` (run.rt).
//!
//! All lines are read and looked at before a job starts. The replies are printed by job, and then the pairs of the closed tree.
//!
//! Called by `bwtree`. It makes no thread itself and takes no step: `workers` runs its jobs, `shell_lines` reads its lines.
#![tactic(auto)]

mod jobs;
mod lines;
mod printed;
mod run;
mod taken;

pub use run::race;
