//! The step that goes word by word: a record is placed. In a small tree a row has zeros behind the words that its record uses, so only those are written
//! that the new record uses, or the one that was placed there before. How many that one uses is in its first word, which is loaded. In a large tree nobody
//! looks behind the words that a record uses, so only those are written, and nothing is loaded.
ghost use Rattle.std.specs.Prelude.{◌≡◌, ◌<◌, ◌≤◌, [], None, length};
ghost use Rattle.tree_words.specs.Layout.{width_of};
ghost use Rattle.bw_model.specs.declared.step.Answer.TheVariants.{Done};
ghost use Rattle.bw_model.specs.declared.step.Step.TheVariants.{Place};
ghost use Rattle.traces.specs.discipline.Knowledge.{knows};
ghost use Rattle.deltas.specs.declared.record.Record.{Record};
ghost use Rattle.record_slots.specs.declared.layout.TheConstants.{ROW_WORDS};
ghost use Rattle.table_rule.specs.declared.view.Reach.TheVariants.{Idle, Writing};
ghost use Rattle.table_rule.specs.Running.{KeepsRowsApart, KnowsPlaceable};
ghost use Rattle.table_rule.specs.Steps.{IsLawfulStep, IsStored, Took, begun_over, used_by, written_over};
ghost use Rattle.table_rule.specs.Views.{SitsAt, IsOf, seen_of};

use crate::plays::{Beginning, Filling, Measuring, Placing, Telling};
use crate::rule::{Law, TableSeat, Words};
use crate::used::words_over;
use deltas::Record;
use std::marker::Brand;
use tree_words::Layout;

/// A record that is to be placed.
#[derive(Clone, Copy)]
struct Placed<'a> {
    /// The row into which it is placed.
    row: u32,
    /// The record, for the contracts alone.
    content: &'a Record,
    /// Its words.
    spelt: &'a [u64],
}

/// Places a record into a row of the seat's own actor, by one store of each word that is written over. The last store, of the header, is the step. In a
/// small tree one load of the row's first word comes before.
pub fn place_row<P: Law>(
    words: &Words<P>,
    seat: &mut TableSeat,
    limits: &Layout,
    actor: u8,
    row: u32,
    content: &Record,
    spelt: &[u64],
)
    requires law { KeepsRowsApart limits.now (P.law limits.now) }
    requires table { IsOf limits.now words.now.key words.now.table_id seat.old.table_id }
    requires range { row < limits.now.rows }
    requires spelt { IsStored limits.now content.now spelt.now }
    requires fits { length spelt.now ≤ width_of limits.now row }
    requires seat { SitsAt limits.now actor Idle seat.old.me }
    requires owned { KnowsPlaceable (knows (seen_of seat.old.me) actor) row }
    requires may { IsLawfulStep P.law limits.now actor (seen_of seat.old.me) None (Place row content.now) None }
    ensures same { seat.new.table_id ≡ seat.old.table_id }
    ensures seat { SitsAt limits.now actor Idle seat.new.me }
    ensures took { Took P.law limits.now actor (seen_of seat.old.me) None (Place row content.now) Done None (seen_of seat.new.me) }
{
    let placed = Placed {
        row,
        content,
        spelt,
    };
    let first = begin_row::<P>(words, seat, limits, actor, &placed);
    fill_row::<P>(words, seat, limits, actor, first, &placed);
    place_header::<P, Brand>(words, seat, limits, actor, first, &placed);
}

/// Begins to place a record into a row. In a small tree it loads the row's first word, which contains how many words the record there uses, and returns
/// it. In a large tree, where that is not needed, it stores the new record's second word, and returns 0.
fn begin_row<P: Law>(
    words: &Words<P>,
    seat: &mut TableSeat,
    limits: &Layout,
    actor: u8,
    placed: &Placed,
) -> u64
    requires law { KeepsRowsApart limits.now (P.law limits.now) }
    requires table { IsOf limits.now words.now.key words.now.table_id seat.old.table_id }
    requires range { placed.now.row < limits.now.rows }
    requires spelt { IsStored limits.now placed.now.content.now placed.now.spelt.now }
    requires seat { SitsAt limits.now actor Idle seat.old.me }
    requires owned { KnowsPlaceable (knows (seen_of seat.old.me) actor) placed.now.row }
    ensures same { seat.new.table_id ≡ seat.old.table_id }
    ensures seat { SitsAt limits.now actor (Writing placed.now.row result (begun_over limits.now placed.now.spelt.now)) seat.new.me }
    ensures seen { seen_of seat.new.me ≡ seen_of seat.old.me }
    ensures room { used_by result ≤ ROW_WORDS }
{
    let _ = actor;
    let base = limits.row(placed.row);
    if limits.is_large() {
        words.store::<Beginning>(seat, base + 1, placed.spelt[1]);
        0
    } else {
        words.load::<Measuring>(seat, base)
    }
}

/// Writes the other words behind the header, by one store each.
fn fill_row<P: Law>(
    words: &Words<P>,
    seat: &mut TableSeat,
    limits: &Layout,
    actor: u8,
    first: u64,
    placed: &Placed,
)
    requires law { KeepsRowsApart limits.now (P.law limits.now) }
    requires table { IsOf limits.now words.now.key words.now.table_id seat.old.table_id }
    requires range { placed.now.row < limits.now.rows }
    requires spelt { IsStored limits.now placed.now.content.now placed.now.spelt.now }
    requires fits { length placed.now.spelt.now ≤ width_of limits.now placed.now.row }
    requires room { used_by first ≤ ROW_WORDS }
    requires seat { SitsAt limits.now actor (Writing placed.now.row first (begun_over limits.now placed.now.spelt.now)) seat.old.me }
    requires owned { KnowsPlaceable (knows (seen_of seat.old.me) actor) placed.now.row }
    ensures same { seat.new.table_id ≡ seat.old.table_id }
    ensures seat { SitsAt limits.now actor (Writing placed.now.row first (written_over limits.now first placed.now.spelt.now)) seat.new.me }
    ensures seen { seen_of seat.new.me ≡ seen_of seat.old.me }
{
    let base = limits.row(placed.row);
    let behind = words_over(limits, first, placed.spelt);
    let mut i = usize::from(limits.is_large());
    while i < behind {
        words.store::<Filling>(seat, base + i + 1, placed.spelt[i + 1]);
        i += 1;
    }
}

/// Writes the header of a row whose other words are written.
fn place_header<P: Law, C: Telling>(
    words: &Words<P>,
    seat: &mut TableSeat,
    limits: &Layout,
    actor: u8,
    first: u64,
    placed: &Placed,
)
    requires told { Place placed.now.row placed.now.content.now ≡ C.step }
    requires law { KeepsRowsApart limits.now (P.law limits.now) }
    requires table { IsOf limits.now words.now.key words.now.table_id seat.old.table_id }
    requires range { placed.now.row < limits.now.rows }
    requires spelt { IsStored limits.now placed.now.content.now placed.now.spelt.now }
    requires fits { length placed.now.spelt.now ≤ width_of limits.now placed.now.row }
    requires room { used_by first ≤ ROW_WORDS }
    requires seat { SitsAt limits.now actor (Writing placed.now.row first (written_over limits.now first placed.now.spelt.now)) seat.old.me }
    requires owned { KnowsPlaceable (knows (seen_of seat.old.me) actor) placed.now.row }
    requires may { IsLawfulStep P.law limits.now actor (seen_of seat.old.me) None (Place placed.now.row placed.now.content.now) None }
    ensures same { seat.new.table_id ≡ seat.old.table_id }
    ensures seat { SitsAt limits.now actor Idle seat.new.me }
    ensures took { Took P.law limits.now actor (seen_of seat.old.me) None (Place placed.now.row placed.now.content.now) Done None (seen_of seat.new.me) }
{
    let _ = first;
    words.store::<Placing<P, C>>(seat, limits.row(placed.row), placed.spelt[0]);
}
