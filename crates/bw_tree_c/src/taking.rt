//! A call takes its seat out of its slot, and puts it back at its end. So nobody waits: where the seat is away, the call is refused.
ghost use Rattle.std.specs.Prelude.{◌≡◌, IfErr, IfOk, Some};
ghost use Rattle.bw_tree_c.specs.Handles.{IsRefused, MayCall};
ghost use Rattle.bw_tree_c.specs.Taken.{CanFinish, HasTakenOut, IsFinished};

use crate::handle::shared::Shared;
use crate::handle::slots::{Inside, SeatHand};
use crate::place::Place;
use crate::receipt::{Receipt, Told};
use crate::statuses::{BUSY, CLOSED, NO_SEAT};
use call_log::{GONE, HOME, begun, ended};

/// A seat that was taken out of its slot, and what has the slot out.
pub struct Taken {
    pub(crate) hand: SeatHand,
    pub(crate) place: Box<Place>,
}

/// Takes a seat out of its slot, for a call; or refuses.
pub(crate) fn take(shared: &Shared, seat: u32, since: Receipt) -> Result<Taken, Told>
    requires { MayCall shared.now since }
    ensures taken { IfOk result (λ taken. HasTakenOut shared.now seat since taken.hand taken.place.value.seat) }
    ensures refused { IfErr result (IsRefused (Some shared.now) seat since) }
    ensures may { IfErr result (λ told. MayCall shared.now told.receipt) }
{
    if u64::from(seat) >= shared.limits.actors {
        return Err(Told::refused(NO_SEAT, since));
    }
    let mut hand = shared.seen_by(since);
    let found = begun(&shared.table.shared, &mut hand, seat as usize);
    if found != HOME {
        return Err(Told::of(if found == GONE { CLOSED } else { BUSY }, hand));
    }
    match shared
        .table
        .shared
        .exchange(&mut hand, seat as usize, Inside::Nothing)
    {
        Inside::Seat(place) => Ok(Taken { hand, place }),
        _ => unreachable!(),
    }
}

/// Puts a seat back into its slot, and answers. Not inlined: each call ends so.
#[inline(never)]
pub(crate) fn finish(
    shared: &Shared,
    seat: u32,
    mut hand: SeatHand,
    place: Box<Place>,
    status: u32,
) -> Told
    requires can { CanFinish shared.now seat hand place.value.seat }
    ensures status { result.status ≡ status }
    ensures finished { IsFinished shared.now seat hand place.value.seat result.receipt }
    ensures may { MayCall shared.now result.receipt }
{
    shared
        .table
        .shared
        .exchange(&mut hand, seat as usize, Inside::Seat(place));
    ended(&shared.table.shared, &mut hand, seat as usize);
    Told::of(status, hand)
}
