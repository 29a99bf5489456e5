//! The law of the whole tree: any number of actors, levels, splits, roots, and removal of pages of every level. It has the invariant's steps, and what follows
//! for the traces of actors that obey their discipline (rely/guarantee: the discipline is each actor's guarantee, the law what all may rely on).
//!
//! Look first at `disciplined_runs` and at `IsState` (specs/State): a trace of steps that the discipline allows is linearized, kept by one call for each entry.
//! Every function is a law and does nothing when it runs.
//!
//! # What the law says of the mechanisms
//!
//! *A split* has two decisive exchanges. Before the first one the new page is its actor's own, and nobody reads its slot. After it the new page is *fresh*: on
//! its level's side chain, without a term. After the second one, by whichever actor, it is *indexed*.
//!
//! *A removal* moves a page from *indexed* through *held*, *removed* and *merged* to *cleared*, one exchange each, by whichever actors. A removed page's chain
//! never changes again; its left neighbour stays, since no two neighbouring terms are held. What a removed page names may be gone: an actor follows it only if
//! the left page, read afterwards, still has the removed page as its right (`IsBeyond`).
//!
//! *A reclamation* takes a row or PID from *linked*, or *cleared*, to its taker's limbo, and to *free* once each other actor was read outside or in an epoch
//! later than the stamp. So no number that an actor inside holds comes back while it holds it, and a won compare-and-swap has found the very chain that was
//! read.
//!
//! *In between*, after each single entry, the leaves are whole and have exactly the log's map (`IsQuiet`), and each level has terms exactly for its indexed
//! pages (`IsExactIndex`). No entry but an update's exchange changes what a key has, for anyone. That needs no help: help keeps chains and ways short.
//!
//! # Thread safety
//!
//! The law is about traces: lists of entries of any actors, interleaved in any order, one atomic step each. `step_core` keeps its invariant turn by turn;
//! `running_tree` keeps it between any two atomic operations of its threads, where the trace is the table's longest run (`Running`, table_rule).
//!
//! # Invariants
//!
//! - `IsState`: all that holds of a trace of allowed steps, with points, logs and owners. Its parts:
//! - `IsTree`: free numbers are nobody's; linked rows have records; each level is one whole segment, and its terms are exact.
//! - `Timed`: nothing that an actor inside holds has been freed; what is in limbo went out no later than its stamp.
//! - `IsMarked`, `IsQuiet`, `IsFaithful`, `UpdatesAtLinks`: each reply is right at its point; the map changes at updates alone; no record is read from a freed
//!   row.
//! - `IsIndexedAlong`, `KeepsPhases`: index and life cycles, along the whole trace.
//! - `IsDirectState`, beside `IsState`: few steps are taken where operations can afford theirs (`begins_directly`, `steps_directly`), and the tree is changed
//!   few times (`few_changes`).
//!
//! docs/PROOF.md has the argument. Called by `step_core` and `running_tree`, which keep the invariant; `listing` and `tree_picture` use what it says of leaves
//! and levels. It knows no step machine and no way through the tree, only the discipline.
#![tactic(auto)]

mod changes;
mod direct;
mod examples;
mod invariant;
mod memory;
mod own;
mod run_laws;

pub use changes::{begins_paid, few_changes, opens_paid, steps_paid};
pub use direct::{begins_directly, opens_directly, runs_directly, steps_directly};
pub use examples::{
    all_links_are_disciplined, helped_split_is_disciplined, index_removal_is_disciplined,
    no_room_is_disciplined, pages_are_disciplined, removal_is_disciplined, sweep_is_disciplined,
};
pub use invariant::{
    key_order, levels_are_indexed, one_begin_keeps, one_step_keeps, opening_is_tree,
    reply_is_by_a_log,
};
pub use memory::whole_trees;
pub use own::{own_lasts, rows_are_apart};
pub use run_laws::{
    answers, begins, disciplined_runs, entries_grow, frees_by_rule, index_is_exact, is_one_map,
    keeps_phases, knowledge_is_own, leaves_stand, levels_stand, opens, steps,
};
