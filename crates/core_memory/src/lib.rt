//! What one process keeps of the memory that its actors share, and of what they did: a table, and entries.
//!
//! Look first at `CoreTable`: it answers a step and takes it, as specs of `traces` define. `Entries` is the trace, with room that is allocated
//! before a turn; `SharedRecord` is a record with several owners, so that what was placed and what was read is kept once. `CoreRows` are a
//! table's rows as searches look at them.
//!
//! Called by `step_core`; `tree_picture` reads a table, and `listing` by `RecordRows`. It knows no operation and no law, and doesn't test
//! whether a step is allowed.
#![tactic(auto)]

mod entries;
mod looks;
mod record_rows;
mod replies;
mod rows;
mod shared;
mod steps;
mod table;

pub use entries::Entries;
pub use looks::CoreRows;
pub use replies::{BoxedPairs, BoxedReply};
pub use shared::SharedRecord;
pub use steps::{shared_step, step_again};
pub use table::CoreTable;
