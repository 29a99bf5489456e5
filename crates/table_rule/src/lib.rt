//! The rule of a tree that runs on threads: whatever its seats (sessions) do in whatever order, the words of a table spell a memory, and each atomic operation
//! on a word is one step of an actor of the tree.
//!
//! Look first at `Rule`, and at `Running` (specs/Running), then at `act`, `read_first` and `place_row`, the steps.
//!
//! # How steps run in time
//!
//! A table has words of 64 bits that change in single, sequentially consistent atomic operations, and seats, each used by one thread at a time. There is one
//! history: the *longest run*, which no variable holds. Each step appends its entry to it at the very atomic operation that makes the step.
//!
//! - *One operation, one step* (`act`): a load, store, compare-and-exchange, fetch-and or fetch-or of a slot, the epoch, an announced epoch or a word of free
//!   bits. An operation's begin is appended with its first step, and a reply with the leave.
//! - *Reading a record* (`read_first`): the load of the row's first word is the step. Later loads of its words (`look_at`) are no steps: the record cannot
//!   change while its reader is inside.
//! - *Placing a record* (`place_row`): in a small tree one load of the first word; then stores of the words behind it, and last a store of the first word,
//!   which is the step. Until then the row counts as it was. No other seat may read or place in that row, so nobody sees the words in between.
//! - *Watching and refreshing* (`watch`, `refresh`): one load each, which is no step. The seat has then seen the longest run.
//!
//! Nobody helps here: a step is one seat's, and ends with its atomic operation. A thread that stops while it places a row keeps that row, and no other.
//!
//! moments.rt has the laws of what any number of such operations leave: nothing that was seen is forgotten, the longest run only grows at its end, and calls
//! keep the order of real time. plays.rt has the ghost effect of each atomic operation, which the kit's `atomic_table` calls a play.
//!
//! # Thread safety
//!
//! The words may be shared by any number of threads (`&Words`); a seat is borrowed by one call at a time (`&mut TableSeat`). What a seat knows is its *view*,
//! which takes no memory at run time: the run that it has seen, up to its own last step, and its *reach*, whether it is placing a row. Between two calls of a
//! seat others only append to the longest run, so what a view says stays true.
//!
//! # Invariants
//!
//! - Between any two atomic operations there is a longest run: it is lawful, extends what each seat has seen, and the words spell the memory after it, except
//!   rows that a seat is placing: `Running`, `IsPartWritten`.
//! - Each actor is in exactly one seat, so a seat has seen the longest run: `longest_is_seen`.
//! - In a row in which one actor may place, no other may place or read; a row that may be read has its record: `KeepsRowsApart`, which the law must give.
//! - What a call returns: the step was taken right behind the longest run, and the seat has seen that run with this entry: `Took`.
//!
//! Called by `running_tree` alone, which names the law. It knows no operation, and not which runs there may be: that is the tree's choice, by a law (`Law`)
//! that keeps the rows of actors apart.
#![tactic(auto)]

mod examples;
mod moments;
mod placing;
mod plays;
mod reading;
mod rule;
mod seats;
mod steps;
mod used;
mod view;
mod watching;

pub use examples::moments_are_told;
pub use moments::{
    history_grows, keeps_real_time, nothing_is_forgotten, operations_are_moments,
    steps_extend_the_longest,
};
pub use placing::place_row;
pub use reading::{look_at, read_first};
pub use rule::{Law, Rule, TableSeat, Words, closing_spells, longest_is_seen, opening_keeps};
pub use seats::{blank, cut, join, note, refresh};
pub use steps::act;
pub use view::{Part, Reach, View};
pub use watching::watch;
