//! Seats see what others have seen.
ghost use Rattle.std.specs.Prelude.{◌≡◌, ◌≤◌, vec_len};
ghost use Rattle.running_tree.specs.Notes.{note_of};
ghost use Rattle.running_tree.specs.Trees.{AreSeatsOf, IsSeatOf};
ghost use Rattle.seats.specs.Gathered.{HasSeenAll, HaveGathered, HaveHeeded, SeesOn};

use running_tree::{BwSeat, Tree};
use std::alloc::Allocator;
use tree_law::own_lasts;

/// Lets all seats of a list see what any of them has seen, as after a join: whatever one does later comes after all that. It takes no step.
pub fn gather<A: Allocator>(tree: &Tree<A>, seats: &mut Vec<BwSeat<A>, A>)
    requires own { AreSeatsOf tree.now seats.old.items }
    requires some { 1 ≤ vec_len seats.old }
    ensures own { AreSeatsOf tree.now seats.new.items }
    ensures count { vec_len seats.new ≡ vec_len seats.old }
    ensures gathered { HaveGathered seats.old.items seats.new.items }
{
    own_lasts();
    let Some(mut last) = seats.pop() else {
        unreachable!()
    };
    let others = seats.as_mut_slice();
    see_all(tree, &mut last, others);
    show(tree, &mut last, others);
    seats.push_reserved(last);
}

/// Makes a seat see what others have seen.
fn see_all<A: Allocator>(tree: &Tree<A>, one: &mut BwSeat<A>, others: &mut [BwSeat<A>])
    requires own { IsSeatOf tree.now one.old }
    requires others { AreSeatsOf tree.now others.old }
    ensures others { others.new ≡ others.old }
    ensures on { SeesOn one.old one.new }
    ensures seen { HasSeenAll others.old one.new }
{
    own_lasts();
    for place in 0..others.len() {
        let note = tree.note(&mut others[place]);
        tree.heed(one, note);
    }
    one.saw_one_history();
}

/// Makes others see what a seat has seen. By it what the seat has seen has no more entries of theirs than they know of themselves.
fn show<A: Allocator>(tree: &Tree<A>, one: &mut BwSeat<A>, seats: &mut [BwSeat<A>])
    requires own { IsSeatOf tree.now one.old }
    requires seats { AreSeatsOf tree.now seats.old }
    ensures one { one.new ≡ one.old }
    ensures heeded { HaveHeeded (note_of one.old) seats.old seats.new }
{
    for place in 0..seats.len() {
        let note = tree.note(one);
        tree.heed(&mut seats[place], note);
    }
}
