//! What is simple over a running tree, and needs no threads: lists of its seats (sessions), and commands that run to completion.
//!
//! Look first at `opened` and `reply`: a tree with its seats, and one command run to completion.
//!
//! Called by `workers`, which re-exports it; by `bench`; and by `bw_tree_c`, which may link no thread and nothing that waits. It knows no job and no thread.
#![tactic(auto)]

mod gathered;
mod lists;
mod replies;

pub use gathered::gather;
pub use lists::{are_idle, give_seat, opened, opened_from, take_seat};
pub use replies::{BUDGET, NoReply, called, called_in, reply, resumed, resumed_in};
