//! What those who have a receipt have seen, and how its authors are given away.
ghost use Rattle.std.specs.Prelude.{◌≡◌, ◌+◌, ℕ, List};
ghost use Rattle.call_log.specs.declared.log.Authors.TheVariants.{AllFrom, One};
ghost use Rattle.call_log.specs.declared.log.Event.{Event};
ghost use Rattle.bw_tree_c.specs.Handles.{HasSeenLog, IsReceipt, MayCallOn};
ghost use Rattle.bw_tree_c.specs.Taken.{HasObserved};
ghost use Rattle.bw_tree_c.specs.declared.handle.slots.Inside.{Inside};

use crate::handle::TreeHandle;
use crate::handle::shared::Shared;
use crate::handle::slots::SeatHand;
use crate::receipt::Receipt;
use call_log::{looked, parted};

impl Shared {
    /// What has seen all that a receipt has, if that is of this handle's log.
    pub(crate) fn seen_by(&self, since: Receipt) -> SeatHand
        ensures { HasObserved self.now since result }
    {
        since.or(looked(&self.table.shared))
    }
}

impl TreeHandle {
    /// Two receipts of what one has seen: the first one has its first author, and the second one has the others, for another caller. So a program gives each
    /// of its threads an author; in C, where receipts have no bytes, that is nothing that runs.
    pub(crate) fn parted(&self, since: Receipt) -> (Receipt, Receipt)
        requires has { (n : ℕ) × (log : List (Event Inside)) × IsReceipt self.now.kept.value (AllFrom n) log since }
        requires may { MayCallOn self.now.kept.value since }
        ensures one { (n : ℕ) (log : List (Event Inside)) → IsReceipt self.now.kept.value (AllFrom n) log since → IsReceipt self.now.kept.value (One n) log result.0 }
        ensures others { (n : ℕ) (log : List (Event Inside)) → IsReceipt self.now.kept.value (AllFrom n) log since
            → IsReceipt self.now.kept.value (AllFrom (n + 1)) log result.1 }
        ensures one_may { MayCallOn self.now.kept.value result.0 }
        ensures others_may { MayCallOn self.now.kept.value result.1 }
    {
        match self.shared() {
            Some(shared) => shared.parted(since),
            None => unreachable!(),
        }
    }
}

impl Shared {
    /// Two receipts of what one has seen: the first author's, and the others', from what a handle keeps.
    pub(crate) fn parted(&self, since: Receipt) -> (Receipt, Receipt)
        ensures one { (n : ℕ) (log : List (Event Inside)) → HasSeenLog self.now (AllFrom n) log since → HasSeenLog self.now (One n) log result.0 }
        ensures others { (n : ℕ) (log : List (Event Inside)) → HasSeenLog self.now (AllFrom n) log since → HasSeenLog self.now (AllFrom (n + 1)) log result.1 }
    {
        let mut hand = self.seen_by(since);
        let one = parted(&self.table.shared, &mut hand);
        (Receipt::of(one), Receipt::of(hand))
    }
}
