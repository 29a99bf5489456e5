//! What a call answers: its status, and a receipt of what it did, which takes no memory.
ghost use Rattle.std.specs.Prelude.{◌≡◌, ◌∷◌, [], ℕ, List};
ghost use base.Stored.{coded_list};
ghost use Rattle.atomic_table.specs.Seated.{TableId, table_id_coded, badge_owns};
ghost use Rattle.call_log.specs.declared.log.Knows.{Knows as KnowsOf};
ghost use Rattle.bw_tree_c.specs.Receipts.{HasViewOf, knows_row};
ghost use Rattle.bw_tree_c.specs.declared.handle.slots.Inside.{Inside};

use crate::handle::slots::{Inside, SeatHand};
use atomic_table::Badge;
use call_log::Knows;
use std::marker::Model;

/// What has seen the log of a handle. It takes no memory. A receipt can't be made up: it is a seat at the log's table.
#[repr(C)]
pub struct Receipt {
    pub ghost table_id: { TableId } by { table_id_coded },
    pub ghost id: { ℕ },
    pub ghost views: { List (KnowsOf Inside) } by { coded_list knows_row.coded },
}

impl Model for Receipt {
    ghost also_owns = { λ r. badge_owns knows_row.coded.code r.table_id r.id r.views };
}

impl Drop for Receipt {
    fn drop(self) {
        let Self {} = self;
    }
}

unsafe impl Send for Receipt {}

unsafe impl Sync for Receipt {}

impl Receipt {
    /// What a badge is is the receipt's from now on.
    pub fn taken(badge: &mut Badge<Knows<Inside>>) -> Receipt
        ensures { (result.table_id ≡ badge.old.table_id) × (result.id ≡ badge.old.id) × (result.views ≡ badge.old.views) × (badge.new.views ≡ []) }
    {
        Receipt {}
    }

    /// What a hand is.
    pub(crate) fn of(hand: SeatHand) -> Receipt
        requires { hand.me.1 ≡ [] }
        ensures table { result.table_id ≡ hand.table_id }
        ensures view { result.views ≡ hand.me.0 ∷ [] }
    {
        let mut badge = hand.into_badge();
        Receipt::taken(&mut badge)
    }

    /// A receipt of nothing.
    pub(crate) fn of_nothing() -> Receipt {
        let mut badge = Badge::blank();
        Receipt::taken(&mut badge)
    }

    /// The hand that the receipt is, if it is one of the same log as this hand; else this hand. Neither has bytes, so nothing is done.
    pub fn or(self, hand: SeatHand) -> SeatHand
        requires { hand.me.1 ≡ [] }
        ensures { (result.table_id ≡ hand.table_id) × (result.me.1 ≡ []) × HasViewOf self.table_id self.views hand.table_id result }
    {
        let Receipt {} = self;
        hand
    }
}

/// The status of a call, and its receipt.
#[repr(C)]
#[derive(Drop)]
pub struct Told {
    pub status: u32,
    pub receipt: Receipt,
}

impl Told {
    /// A status, and a receipt of nothing.
    pub(crate) fn alone(status: u32) -> Told
        ensures { result.status ≡ status }
    {
        Told {
            status,
            receipt: Receipt::of_nothing(),
        }
    }

    /// The status of a call that did nothing, and the caller's own receipt.
    pub(crate) fn refused(status: u32, since: Receipt) -> Told
        ensures status { result.status ≡ status }
        ensures back { result.receipt ≡ since }
    {
        Told {
            status,
            receipt: since,
        }
    }

    /// A status, and a receipt of what the hand has seen.
    pub(crate) fn of(status: u32, hand: SeatHand) -> Told
        requires empty { hand.me.1 ≡ [] }
        ensures status { result.status ≡ status }
        ensures table { result.receipt.table_id ≡ hand.table_id }
        ensures view { result.receipt.views ≡ hand.me.0 ∷ [] }
    {
        Told {
            status,
            receipt: Receipt::of(hand),
        }
    }
}
