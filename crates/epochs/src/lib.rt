//! Limbo lists: what an actor (thread) has taken out of the tree, until it may be used again. This is epoch-based reclamation (Fraser, Practical lock-freedom,
//! 2004), with a limbo list for each actor.
//!
//! Look first at `Limbo`, then at `Stage`.
//!
//! # How a reclamation runs
//!
//! A row or PID that was unlinked may still be read by an actor that is inside, so it isn't freed at once. There is one epoch, and for each actor a word in
//! which it announces the epoch that it read before it entered (its local epoch), or 0 while it is outside (not pinned). An item goes through these stages:
//!
//! 1. An exchange of its actor takes it out of the tree (`unlinked`, `Stage::Unstamped`). An actor that enters from now on doesn't find it.
//! 2. The actor reads the epoch e, which is the item's stamp (`stamped`, `Stage::Stamped`). Then it advances the epoch to e + 1, unless another actor did.
//! 3. The actor reads what each other actor announces (`may_free`). If each announces 0 or more than e, the item has passed (`Stage::Passed`): an actor that
//!    announces a later epoch read it after the stamp, so it entered after the item was unlinked.
//! 4. The actor frees passed items, those of one word of free bits by one fetch-or (`next_word`). They leave the list.
//!
//! Steps 2 to 4 are the *sweep* with which a writer begins, outside the epochs, on its own list alone. Nobody helps: only the actor that took an item out frees
//! it, so what an actor that never writes again has in limbo stays there. An actor that stopped inside keeps all items whose stamp isn't below its announced
//! epoch from being freed, and blocks nobody otherwise. Readers see nothing of it: what they read stays as it was until they leave.
//!
//! A list is a queue: what comes first may be freed first, and freeing it costs nothing for what is behind it. It has room for all rows and PIDs from the
//! opening on, so no operation allocates.
//!
//! # Thread safety
//!
//! A `Limbo` belongs to one actor and is never shared. The words that actors share (the epoch, the announced epochs, the free bits) aren't here: the sweep
//! reads and changes them, and passes the numbers in.
//!
//! # Invariants
//!
//! - Each item is in a list once, and is a number of the tree: `IsLimboList`; entries without a stamp come last: `AreLastUnstamped`.
//! - An item may be freed exactly if each other actor has passed its stamp: `may_be_freed`. What a call of `next_word` returns is `IsHandedOn`.
//! - The list agrees with what its actor's own steps show to be out of the tree: `AreKept` (sweep). That freeing by this rule is safe is `frees_by_rule`
//!   (tree_law).
//!
//! Called by `sweep`, by `op_parts`, whose `Hand` keeps an actor's limbo, and by `op_machine`. It knows limits alone: no step and no tree.
#![tactic(auto)]

mod entry;
mod item;
mod limbo;
mod list;
mod queue;
mod stages;
mod words;

pub use entry::{Entry, Stage};
pub use item::{Item, Reuse};
pub use limbo::Limbo;
