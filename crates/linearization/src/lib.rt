//! What a linearized run is: the definitions in which the theorem is stated (specs/), computed on worked runs, and their laws. A run is a list of entries of all
//! actors (threads), as `traces` has it: begins of operations, and atomic steps with their answers.
//!
//! Look first at specs/Linearized: each operation has its linearization point among its own steps, the updates at these points are the log of one ordered map,
//! and each reply is that map's at its point. Then:
//!
//! - which operations a run has (Operations), what an exchange links (Links), and which entries update the map (Updates, Points);
//! - what each reply says (Answered), and that no other step changes the map (Quiet);
//! - that a reader knows the rows that it reads (Faithful), and that rows and PIDs are used again by the rule of epochs (Reuse);
//! - the life cycle of a page (Phases), and the index above the leaves (Index);
//! - that a change leaves enough on both sides of a split (Halves), and how many changes (Changes) and steps there are: one operation's (Direct), and all
//!   operations' (Progress, UntilRemoval, Readers, ReadersEnd, Whole).
//!
//! src/examples.rt computes these on runs (specs/Examples). Called by nobody: functions here do nothing, and their contracts are theorems. `op_machine` shows
//! that an operation keeps to the discipline, `tree_law` and `progress` that each run of such operations is as defined here. It knows no machine and no law.
#![tactic(auto)]

mod examples;
mod log_laws;

pub use examples::{
    claimed_insert_is_refused, foreign_slots_are_refused, hurried_reuse_is_refused,
    insert_and_lookup_is_linearized, lookup_is_linearized, many_takes_are_refused,
    nine_changes_are_refused, page_lives, row_is_freed, unnamed_read_is_refused,
    useless_links_are_refused,
};
pub use log_laws::{
    knowledge_stays, late_mark_keeps_log, log_grows, one_leaf_has_the_map, phases_grow,
};
