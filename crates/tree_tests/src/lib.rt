//! What a running tree is to do, with one thread and with several, what walks over it show, and how many rows and PIDs it takes: tests
//! alone, over its public calls.
//!
//! Look first at `trees` and `clients`, which open trees and draw commands for the others; `example` is the example of README.md.
//!
//! Called by nobody, and apart from `running_tree`, `seats`, `workers` and `walks`, which would be proved twice with their tests.
#![tactic(auto)]

#[cfg(test)]
mod adding;
#[cfg(test)]
mod calls;
#[cfg(test)]
mod clients;
#[cfg(test)]
mod closed_trees;
#[cfg(test)]
mod closing;
#[cfg(test)]
mod cycles;
#[cfg(test)]
mod emptied;
#[cfg(test)]
mod example;
#[cfg(test)]
mod full_trees;
#[cfg(test)]
mod handed_back;
#[cfg(test)]
mod jobs;
#[cfg(test)]
mod lacking;
#[cfg(test)]
mod last_epoch;
#[cfg(test)]
mod loading;
#[cfg(test)]
mod loads;
#[cfg(test)]
mod many_keys;
#[cfg(test)]
mod moving;
#[cfg(test)]
mod numbered;
#[cfg(test)]
mod orders;
#[cfg(test)]
mod proposals;
#[cfg(test)]
mod refused_jobs;
#[cfg(test)]
mod refused_trees;
#[cfg(test)]
mod reused_rows;
#[cfg(test)]
mod room_watched;
#[cfg(test)]
mod run_out;
#[cfg(test)]
mod runs;
#[cfg(test)]
mod shrinking;
#[cfg(test)]
mod stops;
#[cfg(test)]
mod threads;
#[cfg(test)]
mod trees;
#[cfg(test)]
mod turns;
#[cfg(test)]
mod walk_back;
#[cfg(test)]
mod walk_beside;
#[cfg(test)]
mod walk_numbered;
#[cfg(test)]
mod walk_pages;
#[cfg(test)]
mod walk_refused;
#[cfg(test)]
mod windows;
#[cfg(test)]
mod without_memory;
#[cfg(test)]
mod works;
