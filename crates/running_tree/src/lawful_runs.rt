//! The law of the tree as that of the rule, and what it says of runs.
ghost use Rattle.std.specs.Prelude.{List, []};
ghost use Rattle.tree_limits.specs.declared.limits.Limits.{Limits};
ghost use Rattle.running_tree.specs.SeatLaws.{HaveLaws, SeatsLast};
ghost use Rattle.running_tree.specs.Runs.{IsLawfulRun, IsOneHistory, IsSeenRun};
ghost use Rattle.traces.specs.declared.trace.Entry.{Entry};
ghost use Rattle.table_rule.specs.Running.{KeepsRowsApart};

use progress::{
    opens_with_readers, opens_with_writers, readers_go_on, runs_make_progress,
    runs_progress_until_removal, writers_go_on,
};
use table_rule::{Law, Words};
use tree_law::{
    answers, begins, begins_directly, begins_paid, entries_grow, frees_by_rule, index_is_exact,
    is_one_map, keeps_phases, opens, opens_directly, opens_paid, own_lasts, rows_are_apart, steps,
    steps_directly, steps_paid,
};

/// In each run of the tree each actor obeyed its discipline, by few steps and few changes, and each reader by few for each change; and each writer met what is gone seldom.
pub struct TreeLaw;

impl Law for TreeLaw {
    ghost use Rattle.running_tree.specs.Runs.{IsLawfulRun};

    ghost law = { IsLawfulRun };
}

/// The words of a tree.
pub(crate) type TreeWords = Words<TreeLaw>;

/// The empty run is lawful.
pub(crate) fn empty_run_is_lawful()
    ensures { (limits : Limits) → IsLawfulRun limits [] }
{
    opens();
    opens_directly();
    opens_paid();
    opens_with_readers();
    opens_with_writers();
}

/// Lawful runs keep the rows of actors apart.
pub(crate) fn runs_keep_rows_apart()
    ensures { (limits : Limits) → KeepsRowsApart limits (IsLawfulRun limits) }
{
    rows_are_apart();
}

/// A run that a seat has seen is one history.
pub(crate) fn runs_are_one_history()
    ensures { (limits : Limits) (run : List Entry) → IsSeenRun limits run → IsOneHistory limits run }
{
    is_one_map();
    keeps_phases();
    index_is_exact();
    runs_make_progress();
    runs_progress_until_removal();
    frees_by_rule();
}

/// What a seat counts on: what is an actor's own outlasts the steps of others, and stands, and begins and steps keep a run lawful.
pub(crate) fn laws_of_runs()
    ensures { HaveLaws }
{
    entries_grow();
    own_lasts();
    rows_are_apart();
    answers();
    begins();
    begins_directly();
    begins_paid();
    steps();
    steps_directly();
    steps_paid();
    readers_go_on();
    writers_go_on();
}

/// What a seat keeps outlasts the steps of others.
pub(crate) fn seats_last()
    ensures { SeatsLast }
{
    own_lasts();
    readers_go_on();
    writers_go_on();
}
