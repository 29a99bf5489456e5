//! What happens over the shared memory, turn by turn; the chains of its pages; what each actor (thread) knows, and what it may do.
//!
//! Look first at specs/discipline: `Discipline` defines what an actor may do by what it knows, `Knowledge` what it knows by its own steps.
//! specs/chain defines what a chain decides and the page that it makes, specs/trace the answer of a step, and a run. The only code is `Turn`
//! and `Entry`; each other function is a law or a worked example, and does nothing.
//!
//! Called by all that takes steps (`op_machine`, `table_rule`, `core_memory`, `step_core`) for its definitions, and by `tree_law`. It knows no
//! operation: which step an operation takes, and why, is the business of `op_machine`.
#![tactic(auto)]

mod examples;
mod trace;
mod trace_laws;

pub use examples::{
    chains_fit, held_neighbours_are_found, leaves_decide, merge_adds, pages_are_held_back,
    paid_steps_are_told, split_cuts, terms_come_and_go, unfit_chains_are_refused,
};
pub use trace::{Entry, Turn};
pub use trace_laws::{
    chain_is_one, chains_make_pages, command_grows, learnt_stays, memory_grows, run_grows,
    run_shrinks, side_chain_is_one, updates_fit,
};
