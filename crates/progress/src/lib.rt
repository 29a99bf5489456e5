//! Laws of progress: bounds on the steps of operations, which follow from the law of the tree. No function here does anything: its contract is proved of all
//! traces, and a body that calls it may use that.
//!
//! Look first at `runs_progress_until_removal`: until the first removal a lookup or cursor page takes few steps, whatever others do. It also bounds what
//! hinders an operation, and shows that each ends if it runs alone, and that all together take few steps.
//!
//! Then look at `readers_go_on`: beside removals, too, a reader takes few steps for each change of the tree. It carries along a run, entry by entry, the bound
//! of `readers_end_among_changes`: in one memory a reader's rounds end, wherever they are (`readers_end_alone`, `rounds_end`).
//!
//! Last look at `writers_go_on` and `runs_make_progress`: a writer seldom meets what is gone, by the changes of the tree (`writers_meet_few`). So in every run
//! changes, and the numbers that others take, pay for all steps.
//!
//! Called by `step_core` and `running_tree`, whose contracts have the bounds of their runs; the other laws are for whoever needs them. It knows the theorem
//! about a trace (`linearization`), and, for readers beside removals, the invariant of the law, what an actor keeps, and what a reader's rounds
//! make of an answer.
#![tactic(auto)]

mod examples;
mod one_memory;
mod reader_states;
mod until_removal;
mod writer_states;
mod writers;

pub use examples::{changes_are_told, fills_hinder_nobody, lookups_go_left, removals_are_seen};
pub use one_memory::{readers_end_alone, readers_end_among_changes, rounds_end};
pub use reader_states::{opens_with_readers, readers_go_on};
pub use until_removal::runs_progress_until_removal;
pub use writer_states::{opens_with_writers, writers_go_on};
pub use writers::{runs_make_progress, writers_meet_few};
