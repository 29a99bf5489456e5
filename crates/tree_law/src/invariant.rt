//! The invariant of the tree, one step at a time: each function does nothing, and its contract says what keeps it.
ghost use Rattle.tree_law.specs.TreeLaws.{AnswerLaw, BeginLaw, IndexLaw, KeyLaw, OpenLaw, StepLaw};

/// The order of keys is total.
pub fn key_order()
    ensures { KeyLaw }
{}

/// The opening memory meets the invariant.
pub fn opening_is_tree()
    ensures { OpenLaw }
{}

/// The begin of an operation keeps the invariant.
pub fn one_begin_keeps()
    ensures { BeginLaw }
{}

/// Each allowed step keeps the invariant.
pub fn one_step_keeps()
    ensures { StepLaw }
{}

/// Each allowed reply is that of the command by a log of its operation.
pub fn reply_is_by_a_log()
    ensures { AnswerLaw }
{}

/// Where the invariant holds, each level is whole, and the index between the levels is exact.
pub fn levels_are_indexed()
    ensures { IndexLaw }
{}
