//! Seats that are refreshed, cut in two, noted, and joined.
ghost use Rattle.std.specs.Prelude.{◌≡◌, ◌<◌, ◌++◌, []};
ghost use Rattle.table_rule.specs.Views.{HasPart, IsBlank, IsOf, IsRefreshed, first_part, part_note, other_parts};

use crate::plays::{Apart, Blank, Noting, Refreshing, Together};
use crate::rule::{Law, TableSeat, Words};
use tree_words::Layout;

/// Sees the longest run, by one load that tells nothing else.
pub fn refresh<P: Law>(words: &Words<P>, seat: &mut TableSeat, limits: &Layout)
    requires table { IsOf limits.now words.now.key words.now.table_id seat.old.table_id }
    requires some { HasPart limits.now seat.old.me.0 }
    ensures same { seat.new.table_id ≡ seat.old.table_id }
    ensures saw { IsRefreshed (P.law limits.now) seat.old.me seat.new.me }
{
    let _ = limits;
    words.load::<Refreshing<P>>(seat, 0);
}

/// Cuts a seat in two: the first actor stays, and a new seat has the others.
pub fn cut<P: Law>(words: &Words<P>, seat: &mut TableSeat, limits: &Layout) -> TableSeat
    requires table { IsOf limits.now words.now.key words.now.table_id seat.old.table_id }
    ensures same { seat.new.table_id ≡ seat.old.table_id }
    ensures table { result.table_id ≡ seat.old.table_id }
    ensures first { seat.new.me ≡ (first_part seat.old.me.0, seat.old.me.1) }
    ensures others { result.me ≡ (other_parts seat.old.me.0, []) }
{
    let _ = limits;
    words.split_seat::<Apart>(seat)
}

/// A note of what the first actor of a seat has seen. The seat stays as it is.
pub fn note<P: Law>(words: &Words<P>, seat: &mut TableSeat, limits: &Layout) -> TableSeat
    requires table { IsOf limits.now words.now.key words.now.table_id seat.old.table_id }
    ensures same { seat.new.table_id ≡ seat.old.table_id }
    ensures stays { seat.new.me ≡ seat.old.me }
    ensures table { result.table_id ≡ seat.old.table_id }
    ensures noted { result.me ≡ (part_note seat.old.me.0, []) }
{
    let _ = limits;
    words.split_seat::<Noting>(seat)
}

/// Puts the actors of another seat, or a note, behind those of this one.
pub fn join<P: Law>(words: &Words<P>, seat: &mut TableSeat, other: TableSeat, limits: &Layout)
    requires table { IsOf limits.now words.now.key words.now.table_id seat.old.table_id }
    requires other { other.table_id ≡ words.now.table_id }
    requires home { other.me.1 ≡ [] }
    ensures same { seat.new.table_id ≡ seat.old.table_id }
    ensures both { seat.new.me ≡ (seat.old.me.0 ++ other.me.0, seat.old.me.1) }
{
    let _ = limits;
    words.join_seat::<Together>(seat, other);
}

/// A new seat, in which no actor stands.
pub fn blank<P: Law>(words: &Words<P>) -> TableSeat
    requires { 0 < words.now.table_id.words }
    ensures table { result.table_id ≡ words.now.table_id }
    ensures blank { IsBlank result.me }
{
    words.load_new_seat::<Blank>(0).1
}
