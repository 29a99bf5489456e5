//! Why a call doesn't run.
ghost use Rattle.std.specs.Prelude.{◌≡◌};
ghost use Rattle.bw_tree_c.specs.Statuses.{status_of_refusal};

use crate::statuses::{BUSY, CLOSED, NO_MEMORY, NO_SEAT, UNFINISHED};

/// Why a call doesn't run.
#[derive(Clone, Copy)]
pub enum Refusal {
    /// The tree is closed, or was never opened.
    Closed,
    /// The tree has no seat of this number.
    NoSeat,
    /// Another call is inside the seat.
    Busy,
    /// The seat has an unfinished operation.
    Unfinished,
    /// A growth of memory was refused.
    NoMemory,
}

impl Refusal {
    /// Its status.
    pub(crate) fn status(self) -> u32
        ensures { result ≡ status_of_refusal self }
    {
        match self {
            Refusal::Closed => CLOSED,
            Refusal::NoSeat => NO_SEAT,
            Refusal::Busy => BUSY,
            Refusal::Unfinished => UNFINISHED,
            Refusal::NoMemory => NO_MEMORY,
        }
    }
}
