//! What the definitions say of small runs.
ghost use Rattle.std.specs.Prelude.{◌≡◌, None, true, false};
ghost use Rattle.bw_model.specs.declared.command.Reply.TheVariants as reply;
ghost use Rattle.bw_model.specs.declared.step.Answer.TheVariants.{Whether};
ghost use Rattle.bw_model.specs.declared.step.Step.TheVariants.{Exchange};
ghost use Rattle.traces.specs.declared.trace.Entry.TheVariants.{Step};
ghost use Rattle.traces.specs.trace.Trace.{Happens, memory_at};
ghost use Rattle.linearization.specs.Examples.{insert_and_lookup, page_life, small};
ghost use Rattle.linearization.specs.Progress.{Hinders};
ghost use Rattle.op_machine.specs.machine.GoesLeft.{first_read};
ghost use Rattle.op_machine.specs.machine.States.{Leave};
ghost use Rattle.linearization.specs.UntilRemoval.{PlacesNoRemoval};
ghost use Rattle.progress.specs.ReadersAmong.{changes_tree};
ghost use Rattle.progress.specs.ReaderRuns.{IsReaderRun, ReadsIn, last_round};
ghost use Rattle.progress.specs.RoundExample.{beside_removal, get_x, lookup_rounds, wrong_rounds};

/// An insert and a lookup remove nothing; the life of a page has a removal.
pub fn removals_are_seen()
    ensures none { PlacesNoRemoval insert_and_lookup }
    ensures one { ¬ PlacesNoRemoval page_life }
{}

/// The exchange of an insert hinders its own actor, and the row that it takes another one; a slot that is filled hinders nobody.
pub fn fills_hinder_nobody()
    ensures won { Happens small insert_and_lookup 9 (Hinders 0) }
    ensures taken { Happens small insert_and_lookup 7 (Hinders 1) }
    ensures itself { ¬ Happens small insert_and_lookup 7 (Hinders 0) }
    ensures filled { ¬ Happens small page_life 11 (Hinders 1) }
{}

/// A lookup that ends at a removed leaf goes to the leaf to its left, and has its reply there. It begins at the root.
pub fn lookups_go_left()
    ensures runs { IsReaderRun beside_removal get_x (first_read get_x) lookup_rounds }
    ensures leaves { ReadsIn beside_removal get_x (last_round (first_read get_x) lookup_rounds) (Leave reply.None None) }
    ensures root { ¬ IsReaderRun beside_removal get_x (first_read get_x) wrong_rounds }
{}

/// A split and a removal change the tree; a slot that is filled, and an exchange that lost, don't.
pub fn changes_are_told()
    ensures split { changes_tree (memory_at small page_life 13) (Step 0 (Exchange 1 1 3) (Whether true) None) ≡ true }
    ensures removal { changes_tree (memory_at small page_life 20) (Step 0 (Exchange 2 2 6) (Whether true) None) ≡ true }
    ensures filled { changes_tree (memory_at small page_life 11) (Step 0 (Exchange 2 0 2) (Whether true) None) ≡ false }
    ensures lost { changes_tree (memory_at small page_life 13) (Step 0 (Exchange 1 2 3) (Whether false) None) ≡ false }
{}
