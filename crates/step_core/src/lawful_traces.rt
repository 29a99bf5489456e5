//! The law over runs, beside the code that comes under it, and what the core's turns rest on: laws of the crates below.
ghost use Rattle.progress.specs.ReaderStates.{ReadersGoOn};
ghost use Rattle.progress.specs.UntilRemoval.{RunsProgressUntilRemoval};
ghost use Rattle.progress.specs.Writers.{RunsMakeProgress};
ghost use Rattle.progress.specs.WriterStates.{WritersGoOn};
ghost use Rattle.tree_law.specs.Changes.{IsPaidState, StepsPay};
ghost use Rattle.tree_law.specs.Direct.{BeginsDirectly, StepsDirectly};
ghost use Rattle.tree_law.specs.Own.{RowsAreApart};
ghost use Rattle.tree_law.specs.State.{IsState};
ghost use Rattle.tree_law.specs.TraceLaws.{AnswersFit, BeginsKeep, HeadsStand, RunsAreIndexed, RunsAreLinearized, RunsFreeByRule, RunsKeepPhases};
ghost use Rattle.tree_law.specs.TraceLaws.{StatesFreeByRule, StatesAreIndexed, StatesAreLinearized, StatesKeepPhases, Steps};

use progress::{readers_go_on, writers_go_on};
use tree_law::{
    answers, begins, begins_directly, begins_paid, rows_are_apart, steps, steps_directly,
    steps_paid,
};

/// In every trace, of any number of actors and in any order of their turns, in which each actor obeys its discipline, the
/// operations took effect one at a time, on one ordered map; pages kept their phases, the index is exact at each moment, and
/// freeing was by the rule of epochs. It does nothing.
pub fn disciplined_runs()
    ensures linearized { RunsAreLinearized }
    ensures phases { RunsKeepPhases }
    ensures index { RunsAreIndexed }
    ensures freed { RunsFreeByRule }
{
    tree_law::disciplined_runs();
    tree_law::keeps_phases();
    tree_law::index_is_exact();
    tree_law::frees_by_rule();
}

/// A begin keeps the law of states, and those of few steps and few changes, and of readers and writers.
pub(crate) fn begins_keep_laws()
    ensures state { BeginsKeep IsState }
    ensures direct { BeginsDirectly }
    ensures paid { BeginsKeep IsPaidState }
    ensures readers { ReadersGoOn }
    ensures writers { WritersGoOn }
{
    begins();
    begins_directly();
    begins_paid();
    readers_go_on();
    writers_go_on();
}

/// What a step may count on, and that it keeps the law of states, and those of few steps and few changes, and of readers and writers.
pub(crate) fn steps_keep_laws()
    ensures apart { RowsAreApart }
    ensures heads { HeadsStand }
    ensures fit { AnswersFit }
    ensures state { Steps }
    ensures direct { StepsDirectly }
    ensures paid { StepsPay }
    ensures readers { ReadersGoOn }
    ensures writers { WritersGoOn }
{
    rows_are_apart();
    answers();
    steps();
    steps_directly();
    steps_paid();
    readers_go_on();
    writers_go_on();
}

/// What the tree's law says of states, of their readers, and of the progress of all operations.
pub(crate) fn states_are_lawful()
    ensures linearized { StatesAreLinearized }
    ensures phases { StatesKeepPhases }
    ensures index { StatesAreIndexed }
    ensures progress { RunsMakeProgress }
    ensures until_removal { RunsProgressUntilRemoval }
    ensures freed { StatesFreeByRule }
{
    tree_law::is_one_map();
    tree_law::keeps_phases();
    tree_law::index_is_exact();
    progress::runs_make_progress();
    progress::runs_progress_until_removal();
    tree_law::frees_by_rule();
}
