//! A word that is watched: what a step that reads it would be told, without that step.
ghost use Rattle.std.specs.Prelude.{◌≡◌, ◌<◌};
ghost use Rattle.bw_model.specs.Lent.{step_of_loan};
ghost use Rattle.tree_limits.specs.Limits.{most_large_actors};
ghost use Rattle.table_rule.specs.declared.view.Reach.TheVariants.{Idle};
ghost use Rattle.table_rule.specs.Steps.{Watched};
ghost use Rattle.table_rule.specs.Views.{SitsAt, IsOf, seen_of};
ghost use Rattle.tree_words.specs.Changes.{HasWord, operation_of};
ghost use Rattle.tree_words.specs.declared.operations.Operation.TheVariants.{Load};

use crate::plays::Watching;
use crate::rule::{Law, TableSeat, Words};
use bw_model::Step;
use deltas::Record;
use tree_words::{Layout, steps_change_one_word, word_place};

/// What a step that reads a word would be told now, by one load of the word. The seat takes no step, and has now seen the longest run.
pub fn watch<P: Law>(
    words: &Words<P>,
    seat: &mut TableSeat,
    limits: &Layout,
    actor: u8,
    step: &Step<&Record>,
) -> u64
    requires table { IsOf limits.now words.now.key words.now.table_id seat.old.table_id }
    requires range { HasWord limits.now (step_of_loan step.now) }
    requires reads { operation_of (step_of_loan step.now) ≡ Load }
    requires actor { actor < most_large_actors }
    requires seat { SitsAt limits.now actor Idle seat.old.me }
    ensures same { seat.new.table_id ≡ seat.old.table_id }
    ensures seat { SitsAt limits.now actor Idle seat.new.me }
    ensures watched { Watched P.law limits.now actor (seen_of seat.old.me) (step_of_loan step.now) result (seen_of seat.new.me) }
{
    steps_change_one_word();
    words.load::<Watching<P>>(seat, word_place(limits, actor, step))
}
