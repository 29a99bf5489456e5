//! Laws of calls: what follows from the calls of a seat and from the history that it has seen.
//!
//! Look first at `calls_are_operations`; docs/GUIDE.md, *What can be concluded*, lists the laws by their use.
//!
//! No function here does anything: its contract is a theorem about all runs, and a body that calls it may use that. A run is what a seat of
//! `running_tree` has seen, and its calls are `calls_of` (running_tree, specs/Calls).
//!
//! Called by `seats`, `workers` and `bw_tree_c`, and by programs that embed a tree; `walks` cites its lemmas. It knows the theorem about a
//! run (`linearization`), and nothing of how a tree meets it.
#![tactic(auto)]

mod budgets;
mod call_laws;
mod examples;
mod key_laws;
mod later_calls;

pub use budgets::lookups_are_done;
pub use call_laws::{calls_are_operations, replies_fit, seats_replies_fit};
pub use examples::{calls_stand_in_order, kinds_of_replies, own_replies_are_a_maps};
pub use key_laws::{one_seat, own_keys, own_reads};
pub use later_calls::{later_calls_see_the_key, later_calls_take_effect_later};
