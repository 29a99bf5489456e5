//! Lists of a tree's seats.
ghost use Rattle.std.specs.Prelude.{◌≡◌, ◌≤◌, ◌↔◌, ◌++◌, ◌∷◌, [], IfErr, IfOk, IfSome, IsErrOf, MatchBool, None, OnErr, OnOk, option_to_list, vec_len};
ghost use Rattle.std.specs.Vec.{vec_capacity};
ghost use Rattle.bw_model.specs.declared.command.Reply.TheVariants as reply;
ghost use Rattle.running_tree.specs.Loaded.{AreLoaded, IsStopped, KeysAscend};
ghost use Rattle.running_tree.specs.Trees.{AreFresh, AreSeatsOf, HasBusy, IsSeatOf};
ghost use Rattle.seats.specs.Idle.{AreIdle};

use bw_model::{Key, Limits, OpenError, Value};
use running_tree::{BwSeat, Called, LOAD_BUDGET, LoadError, Tree};
use std::alloc::Allocator;

/// Opens an empty tree, with a list of its seats, one for each actor; `take_seat` takes the last one. It fails only if allocation does.
pub fn opened<A: Allocator + Copy>(
    alloc: A,
    limits: Limits,
) -> Result<(Tree<A>, Vec<BwSeat<A>, A>), OpenError>
    ensures limits { IfOk result (λ opened. opened.0.limits ≡ limits) }
    ensures fresh { IfOk result (λ opened. AreFresh opened.0 opened.1.items) }
    ensures own { IfOk result (λ opened. AreSeatsOf opened.0 opened.1.items) }
    ensures idle { IfOk result (λ opened. AreIdle opened.1.items) }
    ensures err { IfErr result (λ error. error ≡ OpenError.Memory) }
{
    Tree::<A>::open(alloc, limits)
}

/// Opens a tree with exactly these pairs, whose keys ascend, and a list of its seats, one for each actor. It fails as `Tree::open_from`
/// does.
pub fn opened_from<A: Allocator + Copy>(
    alloc: A,
    limits: Limits,
    pairs: &[(Key, Value)],
) -> Result<(Tree<A>, Vec<BwSeat<A>, A>), LoadError>
    ensures limits { IfOk result (λ opened. opened.0.limits ≡ limits) }
    ensures loaded { IfOk result (λ opened. AreLoaded opened.0 opened.1.items pairs.now) }
    ensures own { IfOk result (λ opened. AreSeatsOf opened.0 opened.1.items) }
    ensures idle { IfOk result (λ opened. AreIdle opened.1.items) }
    ensures order { IsErrOf result LoadError.Order ↔ (KeysAscend pairs.now → ⊥) }
    ensures full { IsErrOf result LoadError.Full → IsStopped limits pairs.now LOAD_BUDGET (Called.Done reply.Full) }
    ensures spent { IsErrOf result LoadError.Spent → IsStopped limits pairs.now LOAD_BUDGET Called.Spent }
{
    Tree::<A>::open_from(alloc, limits, pairs)
}

/// Takes the last seat of a list, if it has one.
pub fn take_seat(tree: &Tree, seats: &mut Vec<BwSeat>) -> Option<BwSeat>
    requires own { AreSeatsOf tree.now seats.old.items }
    ensures left { AreSeatsOf tree.now seats.new.items }
    ensures taken { IfSome result (IsSeatOf tree.now) }
    ensures last { seats.old.items ≡ seats.new.items ++ option_to_list result }
    ensures none { result ≡ None → vec_len seats.old ≡ 0 }
    ensures room { vec_capacity seats.new ≡ vec_capacity seats.old }
{
    let _ = tree;
    seats.pop()
}

/// Adds a seat to a list, as its last; returns it as the error if allocation fails.
pub fn give_seat(tree: &Tree, seats: &mut Vec<BwSeat>, seat: BwSeat) -> Result<(), BwSeat>
    requires own { AreSeatsOf tree.now seats.old.items }
    requires given { IsSeatOf tree.now seat }
    ensures own { AreSeatsOf tree.now seats.new.items }
    ensures ok { OnOk result (seats.new.items ≡ seats.old.items ++ seat ∷ []) }
    ensures err { OnErr result (seats.new.items ≡ seats.old.items) }
    ensures back { IfErr result (λ refused. refused ≡ seat) }
    ensures room { OnErr result (vec_capacity seats.old ≤ vec_len seats.old) }
    ensures capacity { vec_capacity seats.old ≤ vec_capacity seats.new }
{
    let _ = tree;
    match seats.push(seat) {
        Ok(()) => Ok(()),
        Err(failed) => Err(failed.value),
    }
}

/// Whether no seat of a list has an unfinished operation.
pub fn are_idle<A: Allocator>(seats: &[BwSeat<A>]) -> bool
    ensures { MatchBool result (AreIdle seats.now) (HasBusy seats.now) }
{
    running_tree::are_idle(seats)
}
