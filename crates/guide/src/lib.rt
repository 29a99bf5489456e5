//! The examples of docs/GUIDE.md: tests alone. That page shows `swaps` whole and names each other module, as checks/copies tests.
//!
//! Called by nobody. It uses a tree as a user would, by `workers`, `walks`, `map_laws`, `running_tree` and `bw_model`.
#![tactic(auto)]

#[cfg(test)]
mod budgets;
#[cfg(test)]
mod concluding;
#[cfg(test)]
mod full;
#[cfg(test)]
mod jobs;
#[cfg(test)]
mod meetings;
#[cfg(test)]
mod moving;
#[cfg(test)]
mod notes;
#[cfg(test)]
mod opening;
#[cfg(test)]
mod ranges;
#[cfg(test)]
mod swaps;
