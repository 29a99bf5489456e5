//! One change of the tree as a step machine: it takes numbers, places records in rows, and links them by one exchange (compare-and-swap of a
//! slot).
//!
//! Look first at `Change`: it is made of a `Plan`, requests one step after another, is passed each answer, and ends won, lost or full (`End`).
//! What it takes is among the `Spares` of its actor until it is linked, so a change that ends has nothing to give back.
//!
//! Called by `op_machine`, which passes it the plan with which a writer's round has ended. It knows no page but those of its plan, reads none
//! anew, and doesn't test whether the change was due.
#![tactic(auto)]

mod change;
mod change_laws;
mod needs;
mod spares;
mod taking;

pub use change::{Change, End};
pub use change_laws::plans_may_be_linked;
pub use spares::{MAX_SPARES, Spares};
pub use taking::Kind;
