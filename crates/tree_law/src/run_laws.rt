//! The law over runs: each of its parts is the contract of a function that does nothing.
ghost use Rattle.tree_law.specs.State.{IsState};
ghost use Rattle.tree_law.specs.TraceLaws.{AnswersFit, BeginsKeep, DisciplinedRuns, EntriesGrow, HeadsStand, LeavesHaveMap, LeavesStand, LevelsStand};
ghost use Rattle.tree_law.specs.TraceLaws.{RunsAreLinearized, StatesFreeByRule, StatesAreIndexed, StatesAreLinearized, KnowledgeIsOwn, Opens, RowsStand};
ghost use Rattle.tree_law.specs.TraceLaws.{StatesKeepPhases, Steps};

/// What one more entry makes of a trace.
pub fn entries_grow()
    ensures { EntriesGrow }
{}

/// The empty trace is a state.
pub fn opens()
    ensures { Opens IsState }
{}

/// A begin keeps it, where the actor is there and has no operation.
pub fn begins()
    ensures { BeginsKeep IsState }
{}

/// A step keeps it, where the actor's knowledge allows it and the memory gives its answer.
pub fn steps()
    ensures { Steps }
{}

/// A state is linearized.
pub fn is_one_map()
    ensures { StatesAreLinearized }
{}

/// A state keeps the phases of pages.
pub fn keeps_phases()
    ensures { StatesKeepPhases }
{}

/// A state has an exact index at each moment.
pub fn index_is_exact()
    ensures { StatesAreIndexed }
{}

/// A state frees by the rule of epochs.
pub fn frees_by_rule()
    ensures { StatesFreeByRule }
{}

/// A trace in which each actor obeys its discipline is a state, and so linearized.
pub fn disciplined_runs()
    ensures states { DisciplinedRuns }
    ensures linearized { RunsAreLinearized }
{}

/// In a state, a row that an actor may read has a record, and so has one that stands in a page's slot; and what the memory
/// answers fits what the actor knows.
pub fn answers()
    ensures stand { RowsStand }
    ensures heads { HeadsStand }
    ensures fit { AnswersFit }
{}

/// In a state the leaves stand, from left to right, fewer than there are PIDs; and they have the map of the trace's log.
pub fn leaves_stand()
    ensures stand { LeavesStand }
    ensures map { LeavesHaveMap }
{}

/// In a state all levels stand, each from its first page to the right: the top one from the root on, and each other one from the
/// child at the empty key of the first page above it.
pub fn levels_stand()
    ensures { LevelsStand }
{}

/// What an actor knows comes from its own entries alone: in two traces with the same ones it knows the same.
pub fn knowledge_is_own()
    ensures { KnowledgeIsOwn }
{}
