//! Seats are dealt, when a tree is opened.
ghost use Rattle.std.specs.Prelude.{◌≡◌, [], IfOk, map};
ghost use Rattle.running_tree.specs.Loaded.{AreAt};
ghost use Rattle.running_tree.specs.Runs.{IsOneHistory};
ghost use Rattle.running_tree.specs.Seats.{IsSame};
ghost use Rattle.running_tree.specs.Trees.{IsSeatOf, fresh_seat};
ghost use Rattle.traces.specs.discipline.Disciplined.{Extends};
ghost use Rattle.table_rule.specs.Running.{Each, ExtendsFor};
ghost use Rattle.table_rule.specs.Views.{dealt, other_parts, with_run};

use crate::desk::Desk;
use crate::lawful_runs::{TreeLaw, empty_run_is_lawful, runs_are_one_history, seats_last};
use crate::seat::BwSeat;
use crate::tree::Tree;
use atomic_table::Table;
use bw_model::Limits;
use compact_rows::CompactRow;
use op_machine::{Actor, idle_actors_rest};
use std::alloc::{AllocError, Allocator};
use std::mem::replace;
use table_rule::{TableSeat, cut, join, opening_keeps, refresh};
use tree_words::{Layout, opening_words};

/// A tree with one leaf, the seat of its first actor, and one place in which all others stand.
pub(crate) fn begun<A: Allocator + Copy>(
    alloc: A,
    limits: Limits,
) -> Result<(Tree<A>, BwSeat<A>, TableSeat), AllocError>
    ensures limits { IfOk result (λ opened. opened.0.limits ≡ limits) }
    ensures first { IfOk result (λ opened. opened.1 ≡ fresh_seat opened.0 0) }
    ensures table { IfOk result (λ opened. opened.2.table_id ≡ opened.0.table) }
    ensures others { IfOk result (λ opened. opened.2.me ≡ (other_parts (dealt limits), [])) }
{
    empty_run_is_lawful();
    opening_keeps::<TreeLaw>();
    idle_actors_rest();
    let words = opening_words(alloc, &limits)?;
    let Ok(actor) = Actor::<Tree<A>, A>::idle(alloc, &limits) else {
        return Err(AllocError);
    };
    let (table, mut place) = Table::of_words(alloc, words.as_slice(), &limits)?;
    let layout = Layout::of(&limits);
    let others = cut(&table.shared, &mut place, &layout);
    let first = BwSeat {
        desk: Desk { place, number: 0 },
        limits: Layout::of(&limits),
        actor,
        spelt: CompactRow::new(),
    };
    Ok((
        Tree {
            limits: layout,
            table,
        },
        first,
        others,
    ))
}

/// Puts the others behind a seat, and sees the longest run for all of them, which stand in a place of their own again.
pub(crate) fn gathered<A: Allocator>(
    tree: &Tree<A>,
    seat: &mut BwSeat<A>,
    others: TableSeat,
) -> TableSeat
    requires own { IsSeatOf tree.now seat.old }
    requires table { others.table_id ≡ tree.now.table }
    requires home { others.me.1 ≡ [] }
    ensures same { IsSame seat.old seat.new }
    ensures extends { Extends seat.old.actor seat.old.seen seat.new.seen }
    ensures history { IsOneHistory seat.new.limits seat.new.seen }
    ensures table { result.table_id ≡ tree.now.table }
    ensures others { result.me ≡ (map (with_run seat.new.seen) others.me.0, []) }
    ensures each { Each (λ part. ExtendsFor part.reach part.actor part.seen seat.new.seen) others.me.0 }
{
    runs_are_one_history();
    seats_last();
    let words = &tree.table.shared;
    join(words, &mut seat.desk.place, others, &tree.limits);
    refresh(words, &mut seat.desk.place, &tree.limits);
    cut(words, &mut seat.desk.place, &tree.limits)
}

/// All seats, in order: the first one, and one for each of the others, which have seen the same run and have no step in it.
pub(crate) fn dealt_out<A: Allocator + Copy>(
    alloc: A,
    tree: &Tree<A>,
    first: BwSeat<A>,
    others: TableSeat,
) -> Result<Vec<BwSeat<A>, A>, AllocError>
    requires own { IsSeatOf tree.now first }
    requires first { first.actor ≡ 0 }
    requires table { others.table_id ≡ tree.now.table }
    requires others { others.me ≡ (map (with_run first.seen) (other_parts (dealt tree.now.limits)), []) }
    requires each { Each (λ part. ExtendsFor part.reach part.actor part.seen first.seen) (other_parts (dealt tree.now.limits)) }
    ensures { IfOk result (λ seats. AreAt tree.now first.seen seats.items) }
{
    seats_last();
    empty_run_is_lawful();
    idle_actors_rest();
    let layout = &tree.limits;
    let limits = layout.limits();
    let _ = &first.limits;
    let mut seats = Vec::with_capacity(alloc, limits.actors as usize)?;
    let mut rest = others;
    seats.push(first)?;
    for number in 1..limits.actors as u8 {
        let others = cut(&tree.table.shared, &mut rest, layout);
        let place = replace(&mut rest, others);
        let Ok(actor) = Actor::<Tree<A>, A>::idle(alloc, limits) else {
            return Err(AllocError);
        };
        seats.push(BwSeat {
            desk: Desk { place, number },
            limits: Layout::of(limits),
            actor,
            spelt: CompactRow::new(),
        })?;
    }
    Ok(seats)
}
