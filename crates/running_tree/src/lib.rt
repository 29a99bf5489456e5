//! The running tree: a linearizable ordered map that threads call, each with a seat (session) of its own.
//!
//! Look first at `Tree` (tree.rt), then at `BwSeat` (seat.rt).
//!
//! A `Tree` is shared by reference. A `BwSeat` is used by one thread at a time, and acts for one actor. A call runs the same operation as a
//! core (`op_machine`), one atomic operation on the tree's words a step (`table_rule`). It takes no lock and allocates nothing. The contract of
//! a call is about the run that its seat has seen: one history of all actors' steps up to the seat's own last one (specs/Runs, specs/Calls).
//!
//! Called by `seats`, `workers`, `walks`, `bw_tree_c` and `race`, and by programs that embed a tree (docs/GUIDE.md); `map_laws`
//! is about its runs. docs/LOOKUP.md follows one call. It knows no thread and no channel: whoever has a seat steps for its actor.
#![tactic(auto)]

mod call_laws;
mod called;
mod closing;
mod dealing;
mod desk;
mod examples;
mod filling;
mod held;
mod lacking;
mod lawful_runs;
mod loading;
mod note;
mod opening;
mod room;
mod seat;
mod taking;
mod tree;

pub use call_laws::{calls_keep_real_time, done_calls_reply_last, resumed_calls_are_calls};
pub use called::{Called, CloseError, CloseRefusal, LoadError, LoadStop};
pub use change_machine::Kind;
pub use closing::are_idle;
pub use closing::closed_tree::{ClosedPage, ClosedTree};
pub use examples::{
    counts_are_taken_by_words, entries_tell_calls, last_call_is_answered, last_replies_are_told,
};
pub use filling::LOAD_BUDGET;
pub use held::Held;
pub use note::Note;
pub use room::Room;
pub use seat::BwSeat;
pub use tree::Tree;
