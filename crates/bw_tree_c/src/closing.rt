//! A tree is closed.
ghost use Rattle.std.specs.Prelude.{◌≡◌, ◌⊎◌, None, Some};
ghost use Rattle.bw_tree_c.specs.Closing.{HasClosed, IsBusy, IsClosed, IsClosedBy};
ghost use Rattle.bw_tree_c.specs.Handles.{MayCall, MayCallOn};
ghost use Rattle.bw_tree_c.specs.Shutting.{FromOpen, IsOpenClosing};

pub(crate) mod emptying;
pub(crate) mod pairs;
pub(crate) mod whole;

use crate::closing::emptying::Begun;
use crate::handle::TreeHandle;
use crate::handle::shared::Shared;
use crate::handle::slots::{Inside, SeatHand};
use crate::receipt::{Receipt, Told};
use crate::statuses::{BUSY, CLOSED, OK};

/// Closes the tree, and frees it, unless a call is inside a seat.
#[unsafe(no_mangle)]
pub extern "C" fn bwtree_raw_close(tree: &TreeHandle, since: Receipt) -> Told
    requires may { MayCallOn tree.now.kept.value since }
    ensures never { tree.now.kept.value ≡ None → result.status ≡ CLOSED }
    ensures told { (result.status ≡ OK) ⊎ (result.status ≡ CLOSED) ⊎ (result.status ≡ BUSY) }
    ensures ok { result.status ≡ OK → HasClosed tree.now.kept.value since result.receipt }
    ensures busy { result.status ≡ BUSY → IsBusy tree.now.kept.value since result.receipt }
    ensures closed { result.status ≡ CLOSED → IsClosed tree.now.kept.value since result.receipt }
    ensures may { MayCallOn tree.now.kept.value result.receipt }
{
    match tree.shared() {
        Some(shared) => shared.close(since),
        None => tree.refused(CLOSED, since),
    }
}

impl Shared {
    /// Closes the tree, or drops what it left.
    fn close(&self, since: Receipt) -> Told
        requires { MayCall self.now since }
        ensures told { (result.status ≡ OK) ⊎ (result.status ≡ CLOSED) ⊎ (result.status ≡ BUSY) }
        ensures ok { result.status ≡ OK → IsClosedBy self.now since result.receipt }
        ensures busy { result.status ≡ BUSY → IsBusy (Some self.now) since result.receipt }
        ensures closed { result.status ≡ CLOSED → IsClosed (Some self.now) since result.receipt }
    {
        let Begun { hand, inside } = match self.begin_closing(since) {
            Ok(begun) => begun,
            Err(told) => return told,
        };
        match inside {
            Inside::Nothing => self.close_open(hand),
            _ => self.empty(hand),
        }
    }

    /// Closes the tree, which is open: its last slot is out.
    fn close_open(&self, mut hand: SeatHand) -> Told
        requires { IsOpenClosing self.now hand }
        ensures told { (result.status ≡ OK) ⊎ (result.status ≡ BUSY) }
        ensures ok { result.status ≡ OK → FromOpen self.now hand (λ since. IsClosedBy self.now since result.receipt) }
        ensures busy { result.status ≡ BUSY → FromOpen self.now hand (λ since. IsBusy (Some self.now) since result.receipt) }
    {
        if let Err(_) = self.take_out(&mut hand, self.last(), false) {
            return self.stop(hand, BUSY);
        }
        self.drop_all(&mut hand);
        self.empty(hand)
    }
}
