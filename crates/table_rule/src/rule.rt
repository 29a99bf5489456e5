//! The rule, by the law of the runs that there may be.
ghost use Rattle.std.specs.Prelude.{[]};
ghost use Rattle.atomic_table.specs.Table.{opening};
ghost use Rattle.tree_limits.specs.declared.limits.Limits.{Limits as LimitsSeen};
ghost use Rattle.table_rule.specs.Closing.{LeavesWords};
ghost use Rattle.table_rule.specs.Longest.{LongestIsSeen};
ghost use Rattle.table_rule.specs.Running.{Running};
ghost use Rattle.table_rule.specs.Views.{dealt};
ghost use Rattle.tree_words.specs.Opening.{opening_words};

use crate::view::View;
use atomic_table::{Seat, Shared, TableRule};
use bw_model::Limits;
use std::marker::PhantomData;
use tree_words::opening_is_spelled;

/// Which runs there may be.
pub trait Law {
    ghost use Rattle.std.specs.Prelude.{List};
    ghost use Rattle.tree_limits.specs.declared.limits.Limits.{Limits};
    ghost use Rattle.traces.specs.declared.trace.Entry.{Entry};

    ghost law: { Limits → List Entry → Type 0 };
}

/// The rule of a tree whose runs have the law.
pub struct Rule<P> {
    law: PhantomData<P>,
}

impl<P: Law> TableRule<(), View, Limits> for Rule<P> {
    ghost use Rattle.table_rule.specs.Running.{Running};
    ghost use Rattle.table_rule.specs.Views.{dealt};

    ghost holds = { λ limits. Running limits (P.law limits) };

    ghost first = { λ limits. dealt limits };
}

/// The words of a table under the rule, as threads share them.
pub type Words<P> = Shared<(), View, Limits, Rule<P>>;

/// A seat of such a table. It takes no memory.
pub type TableSeat = Seat<(), View>;

/// The words that open a tree keep the rule, where the empty run has the law: each actor has seen the empty run.
pub fn opening_keeps<P: Law>()
    ensures { (limits : LimitsSeen) → P.law limits [] → Running limits (P.law limits) (opening (opening_words limits) [] (dealt limits)) }
{
    opening_is_spelled();
}

/// A table that is closed with a seat in which all actors stand, each between two steps, leaves the words of the memory after a run
/// that goes on from what each of them has seen.
pub fn closing_spells<P: Law>()
    ensures { (limits : LimitsSeen) → LeavesWords limits (P.law limits) }
{}

/// The longest run is one that a seat has seen: its last entry is an actor's, which has seen it in its seat.
pub fn longest_is_seen<P: Law>()
    ensures { (limits : LimitsSeen) → LongestIsSeen limits (P.law limits) }
{}
