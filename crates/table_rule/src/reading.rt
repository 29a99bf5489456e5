//! Records that are read where they lie: the step is the load of the first word, and each word of a record that was read is looked at
//! by one more load.
ghost use Rattle.std.specs.Prelude.{◌≡◌, ◌<◌, None, Some, slice_index};
ghost use Rattle.bw_model.specs.declared.step.Step.TheVariants.{Row};
ghost use Rattle.deltas.specs.declared.record.Record.{Record};
ghost use Rattle.record_slots.specs.declared.layout.TheConstants.{ROW_WORDS};
ghost use Rattle.traces.specs.discipline.Knowledge.{knows};
ghost use Rattle.table_rule.specs.declared.view.Reach.TheVariants.{Idle};
ghost use Rattle.table_rule.specs.Running.{KeepsRowsApart, KnowsReadable};
ghost use Rattle.table_rule.specs.Steps.{HasReadRecord, IsLawfulStep, ReadsFirst};
ghost use Rattle.record_slots.specs.Spells.{HasSpelling};
ghost use Rattle.tree_words.specs.Layout.{row_at};
ghost use Rattle.tree_words.specs.Words.{stored, used_in};
ghost use Rattle.table_rule.specs.Views.{SitsAt, IsOf, seen_of};

use crate::plays::{Looking, Reading};
use crate::rule::{Law, TableSeat, Words};
use tree_words::Layout;

/// The words of a cache line.
const LINE_WORDS: usize = 8;

/// Reads a row that the seat's actor has learnt, by the load of its first word, which is the step. In a large tree words behind it are loaded before, so
/// that its cache lines come together.
#[inline(always)]
pub fn read_first<P: Law>(
    words: &Words<P>,
    seat: &mut TableSeat,
    limits: &Layout,
    actor: u8,
    row: u32,
) -> u64
    requires law { KeepsRowsApart limits.now (P.law limits.now) }
    requires table { IsOf limits.now words.now.key words.now.table_id seat.old.table_id }
    requires range { row < limits.now.rows }
    requires seat { SitsAt limits.now actor Idle seat.old.me }
    requires known { KnowsReadable (knows (seen_of seat.old.me) actor) row }
    requires may { IsLawfulStep P.law limits.now actor (seen_of seat.old.me) None (Row row) None }
    ensures same { seat.new.table_id ≡ seat.old.table_id }
    ensures seat { SitsAt limits.now actor Idle seat.new.me }
    ensures took { ReadsFirst P.law limits.now actor (seen_of seat.old.me) row result (seen_of seat.new.me) }
{
    let place = limits.row(row);
    look_ahead::<P>(words, seat, limits, actor, row, place);
    words.load::<Reading<P>>(seat, place)
}

/// Loads a word of each cache line in which a page of a large tree has heads and lengths, but for the first. What these words are tells nothing. A narrow
/// row is left alone: lines behind its own are those of other rows, which other threads may write.
#[inline(always)]
fn look_ahead<P: Law>(
    words: &Words<P>,
    seat: &mut TableSeat,
    limits: &Layout,
    actor: u8,
    row: u32,
    place: usize,
)
    requires law { KeepsRowsApart limits.now (P.law limits.now) }
    requires table { IsOf limits.now words.now.key words.now.table_id seat.old.table_id }
    requires range { row < limits.now.rows }
    requires place { place ≡ row_at limits.now row 0 }
    requires seat { SitsAt limits.now actor Idle seat.old.me }
    requires known { KnowsReadable (knows (seen_of seat.old.me) actor) row }
    ensures same { seat.new ≡ seat.old }
{
    if limits.is_large() && !limits.is_narrow(row) {
        look_at::<P>(words, seat, limits, actor, row, place, LINE_WORDS);
        look_at::<P>(words, seat, limits, actor, row, place, 2 * LINE_WORDS);
        look_at::<P>(words, seat, limits, actor, row, place, 3 * LINE_WORDS);
        look_at::<P>(words, seat, limits, actor, row, place, 4 * LINE_WORDS);
        look_at::<P>(words, seat, limits, actor, row, place, 5 * LINE_WORDS);
    }
}

/// Looks at a word of a row whose record the seat's actor has read since it entered, by one load, and by the place of the row's first word. That is no
/// step, and the seat stays as it is: nobody places anything there before the actor leaves.
#[inline(always)]
pub fn look_at<P: Law>(
    words: &Words<P>,
    seat: &mut TableSeat,
    limits: &Layout,
    actor: u8,
    row: u32,
    place: usize,
    at: usize,
) -> u64
    requires law { KeepsRowsApart limits.now (P.law limits.now) }
    requires table { IsOf limits.now words.now.key words.now.table_id seat.old.table_id }
    requires range { row < limits.now.rows }
    requires place { place ≡ row_at limits.now row 0 }
    requires word { at < ROW_WORDS }
    requires seat { SitsAt limits.now actor Idle seat.old.me }
    requires known { KnowsReadable (knows (seen_of seat.old.me) actor) row }
    ensures same { seat.new ≡ seat.old }
    ensures found { (content : Record) → HasReadRecord (knows (seen_of seat.old.me) actor) row content → at < used_in limits.now (Some content)
        → result ≡ slice_index (stored limits.now content) at }
    ensures spelt { (content : Record) → HasReadRecord (knows (seen_of seat.old.me) actor) row content → HasSpelling content }
{
    let _ = limits;
    let _ = actor;
    let _ = row;
    words.load::<Looking>(seat, place + at)
}
