//! A tree is opened with pairs.
ghost use Rattle.std.specs.Prelude.{◌≡◌, ◌↔◌, ◌⊎◌, [], IfErr, IfOk, IsSome, None, Some, map};
ghost use Rattle.bw_model.specs.declared.command.Reply.TheVariants as reply;
ghost use Rattle.running_tree.specs.Loaded.{KeysAscend};
ghost use Rattle.call_log.specs.declared.log.Authors.TheVariants.{AllFrom};
ghost use Rattle.bw_tree_c.specs.Handles.{IsReceipt, MayCallOn};
ghost use Rattle.bw_tree_c.specs.Loaded.{AreShort, HasOpenedWith, IsLoadedIn, IsUnloaded, StopsLoad, TellsUnloaded, given_pair};
ghost use Rattle.bw_tree_c.specs.Opened.{IsFirstNote};
ghost use Rattle.bw_tree_c.specs.Shown.{AreOpenable};

use crate::c_types::{Pair, TreeLimits, pairs_of};
use crate::handle::TreeHandle;
use crate::handle::shared::Shared;
use crate::handle::slots::SeatHand;
use crate::opening::shared_with_seats;
use crate::receipt::Told;
use crate::statuses::{BAD_LIMITS, BAD_ORDER, FULL, NO_MEMORY, OK, OPEN, SPENT, TOO_LONG};
use bw_model::Limits;
use running_tree::{Called, LoadError};
use seats::opened_from;
use std::alloc::Global;

/// Opens a tree with these pairs, whose keys ascend, in a handle that keeps nothing. Its receipt has all authors of the handle's log.
#[unsafe(no_mangle)]
pub extern "C" fn bwtree_raw_open_from(
    alloc: Global,
    limits: &TreeLimits,
    pairs: &[Pair],
    tree: &mut TreeHandle,
) -> Told
    ensures bad { (result.status ≡ BAD_LIMITS) ↔ (AreOpenable limits.now → ⊥) }
    ensures told { (result.status ≡ OK) ⊎ (result.status ≡ BAD_LIMITS) ⊎ (result.status ≡ OPEN) ⊎ TellsUnloaded result.status }
    ensures ok { result.status ≡ OK → HasOpenedWith limits.now pairs.now tree.new.kept.value }
    ensures authors { result.status ≡ OK → IsReceipt tree.new.kept.value (AllFrom 0) [] result.receipt }
    ensures may { result.status ≡ OK → MayCallOn tree.new.kept.value result.receipt }
    ensures open { result.status ≡ OPEN → IsSome tree.old.kept.value }
    ensures kept { AreOpenable limits.now → IsSome tree.old.kept.value → result.status ≡ OPEN }
    ensures over { result.status ≡ OK → tree.old.kept.value ≡ None }
    ensures long { result.status ≡ TOO_LONG → AreShort pairs.now → ⊥ }
    ensures order { result.status ≡ BAD_ORDER → KeysAscend (map given_pair pairs.now) → ⊥ }
    ensures full { result.status ≡ FULL → StopsLoad limits.now pairs.now (Called.Done reply.Full) }
    ensures spent { result.status ≡ SPENT → StopsLoad limits.now pairs.now Called.Spent }
    ensures same { (result.status ≡ OK → ⊥) → tree.new ≡ tree.old }
{
    let Some(limits) = limits.limits() else {
        return Told::alone(BAD_LIMITS);
    };
    if let Some(_) = tree.shared() {
        return Told::alone(OPEN);
    }
    match shared_with(alloc, limits, pairs) {
        Ok((shared, note)) => {
            *tree = TreeHandle::of(shared);
            Told::of(OK, note)
        }
        Err(told) => Told::alone(told),
    }
}

/// A tree with these pairs, with its seats in their slots, and what has all authors of its log; or the status that says why there is none.
fn shared_with(
    alloc: Global,
    limits: Limits,
    given: &[Pair],
) -> Result<(Box<Shared>, SeatHand), u32>
    ensures ok { IfOk result (λ made. IsLoadedIn limits (map given_pair given.now) made.0.value) }
    ensures authors { IfOk result (λ made. IsFirstNote made.0.value made.1) }
    ensures short { IfOk result (λ made. AreShort given.now) }
    ensures err { IfErr result (IsUnloaded limits given.now) }
    ensures told { IfErr result TellsUnloaded }
{
    let pairs = pairs_of(alloc, given)?;
    let (tree, seats) = match opened_from(alloc, limits, pairs.as_slice()) {
        Ok(opened) => opened,
        Err(LoadError::Order) => return Err(BAD_ORDER),
        Err(LoadError::Memory) => return Err(NO_MEMORY),
        Err(LoadError::Full) => return Err(FULL),
        Err(LoadError::Spent) => return Err(SPENT),
    };
    match shared_with_seats(alloc, limits, tree, seats) {
        Some(made) => Ok(made),
        None => Err(NO_MEMORY),
    }
}
