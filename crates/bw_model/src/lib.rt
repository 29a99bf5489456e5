//! The map that a tree implements: keys and values, commands and replies, updates and logs; and the atomic steps that an operation takes
//! over the shared memory, with their answers.
//!
//! Look first at `Command`: its reply and its update are functions of the value of its key (specs/Replies), which is all of a map that the
//! theorem uses. `Step` has each kind of atomic step, `Answer` and `Told` the answers. `Schedule` draws actors from a seed.
//!
//! Called by nearly every crate. It re-exports the limits of `tree_limits`. It knows no page, no record and no memory: a step is generic
//! over the content of a row.
#![tactic(auto)]

mod command;
mod examples;
mod key;
mod next_keys;
mod pairs;
mod schedule;
mod short_bytes;
mod step;
mod update;
mod value;

pub use command::{Command, Reply};
pub use examples::{
    additions_are_answered, commands_are_answered, deletions_by_value_are_answered,
    keys_are_ordered, logs_are_read, neighbours_are_found, numbers_are_spelled, pairs_are_listed,
    schedules_are_drawn, upkeep_changes_nothing,
};
pub use key::Key;
pub use next_keys::keys_have_neighbours;
pub use pairs::{MAX_PAIRS, Pairs};
pub use schedule::Schedule;
pub use short_bytes::{MAX_LENGTH, TooLong};
pub use step::{Answer, Link, Step, Told};
pub use tree_limits::{BadLimits, Limits, OpenError, Widths};
pub use update::{Update, logged_value};
pub use value::Value;
