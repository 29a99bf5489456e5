//! Parts of an operation that are no step machine: what it keeps between its machines, and what it answers.
//!
//! Look first at `Hand`, what an actor keeps between operations: its spares, and its limbo list. `ReplyPlace` is where an operation puts its reply:
//! a `ShortReply`, or the leaf of a cursor page. `Errands` are the splits whose terms it is still to post, and `Then` is what follows once a change
//! has won. `sweeping` turns a sweep's step into one of an operation.
//!
//! Called by `op_machine`, which decides what is put here and when; `Hand` also by those who look at an actor. It knows no round, no state of an
//! operation and no task, and takes no step.
#![tactic(auto)]

mod errands;
mod hand;
mod short_reply;
mod sweep_steps;
mod then;

pub use errands::{Errands, MAX_ERRANDS};
pub use hand::Hand;
pub use short_reply::{ReplyPlace, ShortReply, Which};
pub use sweep_steps::sweeping;
pub use then::Then;
