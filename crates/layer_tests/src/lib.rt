//! What the layers below the operation do by hand: tests alone, over their public calls.
//!
//! Rows and their spelling at the edges, compact rows, rows of the first form, limbo lists, sweeps, plans and changes; `built` makes the
//! pages that they need. No test repeats what an equation or an exact condition in a contract states.
//!
//! Called by nobody, and apart from those crates, since a crate with tests is proved a second time with them.
#![tactic(auto)]

#[cfg(test)]
mod built;
#[cfg(test)]
mod changes;
#[cfg(test)]
mod compact_by_hand;
#[cfg(test)]
mod compact_drawn;
#[cfg(test)]
mod first_rows;
#[cfg(test)]
mod large_changes;
#[cfg(test)]
mod limbo;
#[cfg(test)]
mod limbo_memory;
#[cfg(test)]
mod long_limbo;
#[cfg(test)]
mod near_takings;
#[cfg(test)]
mod plans;
#[cfg(test)]
mod random_rows;
#[cfg(test)]
mod rows;
#[cfg(test)]
mod sweeps;
