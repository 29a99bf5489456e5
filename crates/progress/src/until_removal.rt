//! Until the first removal: readers read at once, what hinders an operation, that each ends alone, and how few steps all take.
ghost use Rattle.progress.specs.UntilRemoval.{RunsProgressUntilRemoval};

/// Until then no step of a reader is a cause, and an exchange loses to a change of the tree alone, since a slot that was read is that of a page of the
/// tree, and nobody fills or empties the slot of such a page. So changes, and numbers that others took, pay for all steps of an operation. While it
/// runs alone it is hindered by its own changes alone, for which the tree has so much in store; and what it had read before costs it an exchange of
/// each slot at most, and one take, so that from there on its steps are few by the limits alone. And an entry hinders each actor's operation once at
/// most, so with few changes, and few numbers to take, all operations together take few steps for each that was begun.
pub fn runs_progress_until_removal()
    ensures { RunsProgressUntilRemoval }
{}
