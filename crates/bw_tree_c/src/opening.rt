//! A tree is opened.
ghost use Rattle.std.specs.Prelude.{◌≡◌, ◌<◌, ◌⊎◌, ◌↔◌, [], IfSome, IsSome, None, Some, length};
ghost use Rattle.std.specs.Arc.{arc_value};
ghost use Rattle.tree_limits.specs.Room.{AreProposed, AreProposedLarge, AreProposedPairs};
ghost use Rattle.running_tree.specs.Trees.{AreSeatsOf, IsSeatOf};
ghost use Rattle.call_log.specs.declared.log.Authors.TheVariants.{AllFrom};
ghost use Rattle.call_log.specs.Rule.{all_of};
ghost use Rattle.bw_tree_c.specs.Closing.{IsInUse, IsVacant};
ghost use Rattle.bw_tree_c.specs.Handles.{IsReceipt, MayCall, MayCallOn};
ghost use Rattle.bw_tree_c.specs.Left.{HaveOneTree};
ghost use Rattle.bw_tree_c.specs.Opened.{HasOpened, IsFirstNote, IsOpenedIn, ProposesLargeLimits, ProposesLimits, ProposesPairLimits};
ghost use Rattle.bw_tree_c.specs.Shown.{AreOpenable};
ghost use Rattle.bw_tree_c.specs.Shutting.{HasBegunAs};
ghost use Rattle.bw_tree_c.specs.Slots.{HaveSeats};

use crate::c_types::TreeLimits;
use crate::closing::emptying::Begun;
use crate::handle::TreeHandle;
use crate::handle::shared::Shared;
use crate::handle::slots::{Inside, SeatHand};
use crate::place::Place;
use crate::receipt::{Receipt, Told};
use crate::statuses::{BAD_LIMITS, CLOSED, NO_MEMORY, OK, OPEN};
use bw_model::{Limits, Reply};
use running_tree::{BwSeat, Tree};
use seats::opened;
use std::alloc::Global;
use std::sync::Arc;

/// Limits for so many seats and keys.
#[unsafe(no_mangle)]
pub extern "C" fn bwtree_raw_limits_for_keys(actors: u64, keys: u64, limits: &mut TreeLimits) -> u32
    ensures ok { (result ≡ OK) ↔ AreProposed actors keys }
    ensures limits { result ≡ OK → ProposesLimits actors keys limits.new }
    ensures bad { (result ≡ OK → ⊥) → (result ≡ BAD_LIMITS) × (limits.new ≡ limits.old) }
{
    match Limits::for_keys(actors, keys) {
        Ok(proposed) => {
            limits.set(&proposed);
            OK
        }
        Err(_) => BAD_LIMITS,
    }
}

/// Limits of a large tree for so many seats and keys.
#[unsafe(no_mangle)]
pub extern "C" fn bwtree_raw_limits_for_many_keys(
    actors: u64,
    keys: u64,
    limits: &mut TreeLimits,
) -> u32
    ensures ok { (result ≡ OK) ↔ AreProposedLarge actors keys }
    ensures limits { result ≡ OK → ProposesLargeLimits actors keys limits.new }
    ensures bad { (result ≡ OK → ⊥) → (result ≡ BAD_LIMITS) × (limits.new ≡ limits.old) }
{
    match Limits::for_many_keys(actors, keys) {
        Ok(proposed) => {
            limits.set(&proposed);
            OK
        }
        Err(_) => BAD_LIMITS,
    }
}

/// Limits of a large tree for so many seats and pairs, whose keys and values have so many bytes at most.
#[unsafe(no_mangle)]
pub extern "C" fn bwtree_raw_limits_for_pairs(
    actors: u64,
    keys: u64,
    key_bytes: u64,
    value_bytes: u64,
    limits: &mut TreeLimits,
) -> u32
    ensures ok { (result ≡ OK) ↔ AreProposedPairs actors keys key_bytes value_bytes }
    ensures limits { result ≡ OK → ProposesPairLimits actors keys key_bytes value_bytes limits.new }
    ensures bad { (result ≡ OK → ⊥) → (result ≡ BAD_LIMITS) × (limits.new ≡ limits.old) }
{
    match Limits::for_pairs(actors, keys, key_bytes, value_bytes) {
        Ok(proposed) => {
            limits.set(&proposed);
            OK
        }
        Err(_) => BAD_LIMITS,
    }
}

/// Opens an empty tree, in a handle that keeps nothing. Its receipt has all authors of the handle's log.
#[unsafe(no_mangle)]
pub extern "C" fn bwtree_raw_open(alloc: Global, limits: &TreeLimits, tree: &mut TreeHandle) -> Told
    ensures bad { (result.status ≡ BAD_LIMITS) ↔ (AreOpenable limits.now → ⊥) }
    ensures told { (result.status ≡ OK) ⊎ (result.status ≡ BAD_LIMITS) ⊎ (result.status ≡ OPEN) ⊎ (result.status ≡ NO_MEMORY) }
    ensures ok { result.status ≡ OK → HasOpened limits.now tree.new.kept.value }
    ensures authors { result.status ≡ OK → IsReceipt tree.new.kept.value (AllFrom 0) [] result.receipt }
    ensures may { result.status ≡ OK → MayCallOn tree.new.kept.value result.receipt }
    ensures open { result.status ≡ OPEN → IsSome tree.old.kept.value }
    ensures kept { AreOpenable limits.now → IsSome tree.old.kept.value → result.status ≡ OPEN }
    ensures over { result.status ≡ OK → tree.old.kept.value ≡ None }
    ensures same { (result.status ≡ OK → ⊥) → tree.new ≡ tree.old }
{
    let Some(limits) = limits.limits() else {
        return Told::alone(BAD_LIMITS);
    };
    if let Some(_) = tree.shared() {
        return Told::alone(OPEN);
    }
    let Some((shared, note)) = shared_of(alloc, limits) else {
        return Told::alone(NO_MEMORY);
    };
    *tree = TreeHandle::of(shared);
    Told::of(OK, note)
}

/// Empties the handle of a tree that is closed and of which no pairs wait: it is then as one that was never opened.
#[unsafe(no_mangle)]
pub extern "C" fn bwtree_raw_vacate(tree: &mut TreeHandle, since: Receipt) -> Told
    requires may { MayCallOn tree.old.kept.value since }
    ensures told { (result.status ≡ OK) ⊎ (result.status ≡ OPEN) }
    ensures ok { result.status ≡ OK → tree.new.kept.value ≡ None }
    ensures vacant { result.status ≡ OK → IsVacant tree.old.kept.value since result.receipt }
    ensures open { result.status ≡ OPEN → IsInUse tree.old.kept.value since result.receipt }
    ensures same { result.status ≡ OPEN → tree.new ≡ tree.old }
    ensures may { MayCallOn tree.new.kept.value result.receipt }
{
    let told = tree.stage(since);
    if told.status == OK {
        *tree = TreeHandle::unopened();
    }
    told
}

impl TreeHandle {
    /// Whether it is vacant: OK, or OPEN of a tree that isn't closed, or whose pairs wait.
    fn stage(&self, since: Receipt) -> Told
        requires may { MayCallOn self.now.kept.value since }
        ensures told { (result.status ≡ OK) ⊎ (result.status ≡ OPEN) }
        ensures vacant { result.status ≡ OK → IsVacant self.now.kept.value since result.receipt }
        ensures open { result.status ≡ OPEN → IsInUse self.now.kept.value since result.receipt }
    {
        let Some(shared) = self.shared() else {
            return Told::refused(OK, since);
        };
        shared.stage(since)
    }
}

impl Shared {
    /// Whether the handle is vacant.
    fn stage(&self, since: Receipt) -> Told
        requires may { MayCall self.now since }
        ensures told { (result.status ≡ OK) ⊎ (result.status ≡ OPEN) }
        ensures vacant { result.status ≡ OK → IsVacant (Some self.now) since result.receipt }
        ensures open { result.status ≡ OPEN → IsInUse (Some self.now) since result.receipt }
    {
        match self.begin_closing(since) {
            Ok(Begun { hand, inside }) => self.put_back(hand, inside),
            Err(Told { status, receipt }) => {
                Told::refused(if status == CLOSED { OK } else { OPEN }, receipt)
            }
        }
    }

    /// Puts back what was in the last slot, which isn't vacant.
    fn put_back(&self, hand: SeatHand, inside: Inside) -> Told
        requires { (since : Receipt) × (may : MayCall self.now since) × HasBegunAs self.now since may inside hand }
        ensures told { result.status ≡ OPEN }
        ensures open { (since : Receipt) (may : MayCall self.now since) → HasBegunAs self.now since may inside hand → IsInUse (Some self.now) since result.receipt }
    {
        match inside {
            Inside::Nothing => self.stop(hand, OPEN),
            inside => self.keep(hand, inside, OPEN),
        }
    }
}

/// A new tree, with its seats in their slots, and what has all authors.
fn shared_of(alloc: Global, limits: Limits) -> Option<(Box<Shared>, SeatHand)>
    ensures opened { IfSome result (λ made. IsOpenedIn limits made.0.value) }
    ensures authors { IfSome result (λ made. IsFirstNote made.0.value made.1) }
{
    let Ok((tree, seats)) = opened(alloc, limits) else {
        return None;
    };
    let made = shared_with_seats(alloc, limits, tree, seats)?;
    Some(made)
}

/// What is shared of a tree with these seats, and what has all authors of its log, if there is memory for it.
pub(crate) fn shared_with_seats(
    alloc: Global,
    limits: Limits,
    tree: Tree,
    seats: Vec<BwSeat>,
) -> Option<(Box<Shared>, SeatHand)>
    requires own { AreSeatsOf tree seats.items }
    requires one { HaveOneTree limits seats.items }
    ensures items { IfSome result (λ made. HaveSeats made.0.value.table.shared.key.value.items seats.items) }
    ensures authors { IfSome result (λ made. IsFirstNote made.0.value made.1) }
{
    let Ok(tree) = Arc::new(alloc, tree) else {
        return None;
    };
    let slots = slots_of(alloc, &tree, seats)?;
    let (table, hand) = call_log::opened(alloc, slots)?;
    match Box::new(alloc, Shared::of(limits, table)) {
        Ok(shared) => Some((shared, hand)),
        Err(_) => None,
    }
}

/// A slot for each seat, in order, and the last one.
fn slots_of(alloc: Global, tree: &Arc<Tree>, seats: Vec<BwSeat>) -> Option<Vec<Inside>>
    requires own { AreSeatsOf (arc_value tree.now) seats.items }
    ensures { IfSome result (λ slots. HaveSeats slots.items seats.items) }
{
    let mut slots = Vec::with_capacity(alloc, seats.len()).ok()?;
    for seat in seats {
        slots.push(Inside::Seat(place_of(alloc, tree, seat)?)).ok()?;
    }
    slots.push(Inside::Nothing).ok()?;
    Some(slots)
}

/// A place with this seat.
fn place_of(alloc: Global, tree: &Arc<Tree>, seat: BwSeat) -> Option<Box<Place>>
    requires own { IsSeatOf (arc_value tree.now) seat }
    ensures { IfSome result (λ place. place.value.seat ≡ seat) }
{
    let tree = Arc::try_clone(tree).ok()?;
    let reply = Reply::None;
    Box::new(alloc, Place { tree, seat, reply }).ok()
}
