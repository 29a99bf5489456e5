//! The law of few changes: what pages and actors have in store pays for each change of the tree.
ghost use Rattle.tree_law.specs.Changes.{IsPaidState, RunsHaveFewChanges, StepsPay};
ghost use Rattle.tree_law.specs.TraceLaws.{BeginsKeep, Opens};

/// The empty trace has nothing in store, and no change.
pub fn opens_paid()
    ensures { Opens IsPaidState }
{}

/// A begin pays for 8 changes.
pub fn begins_paid()
    ensures { BeginsKeep IsPaidState }
{}

/// A change takes one at least out of what is in store, and an update puts 7 at most into it.
pub fn steps_paid()
    ensures { StepsPay }
{}

/// A trace in which each actor obeys its discipline, by steps of use, has at most 8 changes for each operation that was begun, and few from any
/// moment on.
pub fn few_changes()
    ensures { RunsHaveFewChanges }
{}
