//! What is asked of a seat and its tree, without a step.
ghost use Rattle.std.specs.Prelude.{Some};
ghost use Rattle.bw_tree_c.specs.Calls.{ComesIdle, ComesWatched};
ghost use Rattle.bw_tree_c.specs.Handles.{MayCall, MayCallOn};

use crate::c_types::FreeRoom;
use crate::handle::TreeHandle;
use crate::handle::shared::Shared;
use crate::receipt::{Receipt, Told};
use crate::statuses::CLOSED;
use crate::taking::{Taken, finish, take};

/// Whether a call may begin on the seat.
#[unsafe(no_mangle)]
pub extern "C" fn bwtree_raw_is_idle(tree: &TreeHandle, seat: u32, since: Receipt) -> Told
    requires may { MayCallOn tree.now.kept.value since }
    ensures called { ComesIdle tree.now.kept.value seat since result }
    ensures may { MayCallOn tree.now.kept.value result.receipt }
{
    match tree.shared() {
        Some(shared) => is_idle_in(shared, seat, since),
        None => tree.refused(CLOSED, since),
    }
}

/// Whether a call may begin on a seat of a handle.
fn is_idle_in(shared: &Shared, seat: u32, since: Receipt) -> Told
    requires { MayCall shared.now since }
    ensures called { ComesIdle (Some shared.now) seat since result }
    ensures may { MayCall shared.now result.receipt }
{
    let Taken { hand, mut place } = match take(shared, seat, since) {
        Ok(taken) => taken,
        Err(told) => return told,
    };
    let status = place.tell_idle();
    finish(shared, seat, hand, place, status)
}

/// How many PIDs and rows are free.
#[unsafe(no_mangle)]
pub extern "C" fn bwtree_raw_room(
    tree: &TreeHandle,
    seat: u32,
    room: &mut FreeRoom,
    since: Receipt,
) -> Told
    requires may { MayCallOn tree.now.kept.value since }
    ensures called { ComesWatched tree.now.kept.value seat since result room.old room.new }
    ensures may { MayCallOn tree.now.kept.value result.receipt }
{
    match tree.shared() {
        Some(shared) => room_in(shared, seat, room, since),
        None => tree.refused(CLOSED, since),
    }
}

/// How many PIDs and rows of a handle's tree are free.
fn room_in(shared: &Shared, seat: u32, room: &mut FreeRoom, since: Receipt) -> Told
    requires { MayCall shared.now since }
    ensures called { ComesWatched (Some shared.now) seat since result room.old room.new }
    ensures may { MayCall shared.now result.receipt }
{
    let Taken { hand, mut place } = match take(shared, seat, since) {
        Ok(taken) => taken,
        Err(told) => return told,
    };
    let status = place.watch_room(room);
    finish(shared, seat, hand, place, status)
}
