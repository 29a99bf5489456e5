//! Operations as step machines, and what an actor (thread) keeps between them. A step machine requests one atomic step at a time: `wanted` returns it, the
//! caller takes it, and `go_on` or `take_record` passes the answer.
//!
//! Look first at `Actor`: `begin`, `wanted`, then `go_on` or `take_record`, and `leave` at the end. Behind it `Operation` has its places (`Places`): a reader's
//! round, a writer's round, a change, the reply. `Task` is the command, with the errands of splits, and decides what follows the end of a round or a change.
//! specs/machine defines all of it; `linearization` defines what a linearized run is.
//!
//! # How an operation runs
//!
//! A lookup or cursor page:
//!
//! 1. reads the epoch, and announces it (it enters, or pins);
//! 2. makes a *round*, a traversal from slot 0 to the leaf of its key: the slot of a page, the records of its chain, and on to a child or, where the page ends
//!    at or below the key, to its right;
//! 3. leaves (unpins) with its reply.
//!
//! It never writes to the tree. At a removed leaf it begins a round to the left; round a removed index page it goes by the page above.
//!
//! A writer:
//!
//! 1. sweeps its limbo list, while it is outside: it frees what it took out before and no other actor can be reading;
//! 2. reads the epoch and enters;
//! 3. makes a round, which ends at its leaf, or at the first page where something is due. A due change (consolidation, split, term, root, merge, unterm; for a
//!    deletion or tidying also a hold or removal) is made first, whoever left it. Then a new round begins, first for the terms of its own splits (`errands`);
//! 4. at its leaf computes its update from the value of its key, places the record in a row of its own, and links it by one compare-and-swap of the page's
//!    slot. If that fails, another thread changed the page: a new round begins;
//! 5. leaves with its reply, or with Full if it read every word of free rows, or of free PIDs, as 0.
//!
//! The linearization point of an update is its exchange; that of any other reply is an own read at which the leaf was in the tree. Tidied and Full have none.
//!
//! *Who helps whom.* Writers complete each other's splits and removals, since they make what is due wherever they meet it. Nobody waits: an actor that stops
//! after any step leaves a tree in which all others continue.
//!
//! # Thread safety
//!
//! An `Actor` belongs to one thread at a time. It never sees the memory or another actor, so the same machine runs over one process's memory (`step_core`) and
//! over atomic words (`running_tree`). Each step is allowed by what the actor's own steps have shown since it entered (`IsAllowed`); what others do can make its
//! exchanges and takes fail, and changes nothing that it has read.
//!
//! # Invariants
//!
//! - Between two steps the machine's state shows what its actor knows: `IsActor`, `Shows`, `ShowsState`.
//! - Spares are exactly what the actor took and didn't link (`AreTheSpares`); its limbo agrees with what it took out (`AreKept`).
//! - Each answer leaves fewer steps (`steps_left`), unless the step was a cause that pays for more (`IsPaid`).
//!
//! Called by `step_core`, over one memory, and by `running_tree`, over the words of a table.
#![tactic(auto)]

mod actor;
mod examples;
mod operation;
mod places;
mod read_ends;
mod task;
mod write_ends;

pub use actor::{Actor, idle_actors_rest};
pub use examples::{empty_slot_begins_anew, removed_leaf_turns_left};
pub use op_parts::{Hand, MAX_ERRANDS};
pub use operation::Operation;
