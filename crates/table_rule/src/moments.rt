//! Laws of moments of a table: what one atomic operation of any seat makes of it, and what is so at each later moment. Each function does nothing,
//! and its contract is proved of all moments.
ghost use Rattle.tree_limits.specs.declared.limits.Limits.{Limits as LimitsSeen};
ghost use Rattle.table_rule.specs.Growing.{HistoryGrows, KeepsRealTime, SeesOn, StepsExtendTheLongest};
ghost use Rattle.table_rule.specs.Moments.{AllowedOperate, OperationsTurn};

use crate::rule::Law;

/// Each operation of this crate on a word turns its seat as `Turns` says, by what it tells the seat; and such an operation, a cut, a note, a join and a
/// new seat each lead from a moment at which the rule holds to a next one at which it holds.
pub fn operations_are_moments<P: Law>()
    ensures turn { OperationsTurn P.law }
    ensures operate { AllowedOperate P.law }
{}

/// What an actor has seen at a moment begins what it has seen at each later one: also of a note, and of a seat or note that was let go.
pub fn nothing_is_forgotten<P: Law>()
    ensures { SeesOn P.law }
{}

/// Each step stands right behind the run that was the longest when it was taken.
pub fn steps_extend_the_longest<P: Law>()
    ensures { (limits : LimitsSeen) → StepsExtendTheLongest limits P.law }
{}

/// Of two moments of a table the later longest run begins with the earlier one.
pub fn history_grows<P: Law>()
    ensures { (limits : LimitsSeen) → HistoryGrows limits P.law }
{}

/// Real time: all of a call that has returned comes before a call that begins afterwards, whoever makes the two.
pub fn keeps_real_time<P: Law>()
    ensures { (limits : LimitsSeen) → KeepsRealTime limits P.law }
{}
