//! A closed tree with all its seats, and room for its pairs.
ghost use Rattle.std.specs.Prelude.{◌≡◌, ◌≤◌, ◌+◌, ◌*◌, ◌++◌, ◌∷◌, [], IfErr, IfOk, IfSome, MatchOption, length};
ghost use Rattle.std.specs.Arc.{arc_value};
ghost use Rattle.std.specs.Vec.{vec_capacity};
ghost use Rattle.running_tree.specs.Trees.{AreClosed, AreSeatsOf, IsSeatOf};
ghost use Rattle.seats.specs.Idle.{AreIdle};
ghost use Rattle.bw_tree_c.specs.Left.{ArePairsLeft};
ghost use Rattle.bw_tree_c.specs.Shutting.{MayGather};
ghost use Rattle.bw_tree_c.specs.Slots.{HasAllIn};

use crate::place::Place;
use bw_model::{Key, Limits, Value};
use running_tree::{BwSeat, Tree};
use std::alloc::Global;
use std::sync::Arc;

/// A share of a tree, the seats that were taken out of its slots, in order, and room for its pairs.
#[derive(Drop)]
pub struct Whole {
    pub(crate) share: Option<Arc<Tree>>,
    pub(crate) seats: Vec<BwSeat>,
    pub(crate) room: Vec<(Key, Value)>,
}

impl Whole {
    /// With no seats yet, and room for those of a tree of these limits and its pairs.
    pub(crate) fn with_room(alloc: Global, limits: &Limits) -> Option<Box<Whole>>
        ensures { IfSome result (λ whole. MayGather limits.now whole.value) }
    {
        let seats = Vec::with_capacity(alloc, limits.actors as usize).ok()?;
        let room = Vec::with_capacity(alloc, 24 * limits.pids as usize).ok()?;
        let whole = Whole {
            share: None,
            seats,
            room,
        };
        Box::new(alloc, whole).ok()
    }

    /// Adds the seat of a place. Not inlined: the frames above it need no room for a seat.
    #[inline(never)]
    pub(crate) fn add(&mut self, place: Box<Place>)
        requires room { length self.old.seats.items + 1 ≤ vec_capacity self.old.seats }
        ensures seats { self.new.seats.items ≡ self.old.seats.items ++ place.value.seat ∷ [] }
        ensures capacity { vec_capacity self.new.seats ≡ vec_capacity self.old.seats }
        ensures room { self.new.room ≡ self.old.room }
        ensures tree { MatchOption self.new.share ⊥ (λ share. IsSeatOf (arc_value share) place.value.seat) }
    {
        let Place {
            tree,
            seat,
            reply: _,
        } = Box::into_inner(place);
        self.seats.push_reserved(seat);
        self.share = Some(tree);
    }

    /// The pairs of the tree, which ends; or all as it was, where the tree has another share. No other is left once all seats are here, and no proof says so.
    pub(crate) fn listed(mut whole: Box<Whole>) -> Result<Vec<(Key, Value)>, Box<Whole>>
        requires { HasAllIn whole.value }
        ensures left { IfOk result (λ pairs. ArePairsLeft whole.value.seats.items pairs.items) }
        ensures back { IfErr result (λ same. same.value ≡ whole.value) }
    {
        let Some(share) = whole.share.take() else {
            unreachable!();
        };
        match Arc::try_unwrap(share) {
            Ok(tree) => {
                let Whole {
                    share: _,
                    seats,
                    room,
                } = Box::into_inner(whole);
                Ok(listed(tree, seats, room))
            }
            Err(share) => {
                whole.share = Some(share);
                Err(whole)
            }
        }
    }
}

/// The pairs of a tree with all its seats, which ends.
fn listed(tree: Tree, seats: Vec<BwSeat>, room: Vec<(Key, Value)>) -> Vec<(Key, Value)>
    requires own { AreSeatsOf tree seats.items }
    requires idle { AreIdle seats.items }
    requires all { tree.limits.actors ≤ length seats.items }
    requires empty { room.items ≡ [] }
    requires room { 24 * tree.limits.pids ≤ vec_capacity room }
    ensures { AreClosed tree.limits seats.items result.items }
{
    match tree.into_closed(seats) {
        Ok(closed) => closed.listed(room),
        Err(_) => unreachable!(),
    }
}
