//! A tree is opened with pairs, as those of a closed tree.
ghost use Rattle.std.specs.Prelude.{◌≡◌, ◌↔◌, [], IfErr, IfOk, IsErrOf, MatchBool};
ghost use Rattle.bw_model.specs.declared.command.Reply.TheVariants as reply;
ghost use Rattle.running_tree.specs.Loaded.{AreLoaded, IsLoadStop, IsStopped, KeysAscend};
ghost use Rattle.running_tree.specs.Trees.{fresh_seat};
ghost use Rattle.table_rule.specs.Views.{dealt, other_parts};

use crate::called::{Called, LoadError, LoadStop};
use crate::dealing::{begun, dealt_out, gathered};
use crate::filling::LOAD_BUDGET;
use crate::seat::BwSeat;
use crate::tree::Tree;
use bw_model::{Key, Limits, Value};
use std::alloc::Allocator;
use table_rule::TableSeat;
use tree_law::own_lasts;

impl<A: Allocator + Copy> Tree<A> {
    /// A tree with exactly these pairs, whose keys ascend, and a seat for each actor, in order: seat 0 loads the pairs, as by `load`. If it
    /// is refused, there is no tree. It allocates what `open` does, and nothing for a pair.
    pub fn open_from(
        alloc: A,
        limits: Limits,
        pairs: &[(Key, Value)],
    ) -> Result<(Tree<A>, Vec<BwSeat<A>, A>), LoadError>
        ensures limits { IfOk result (λ loaded. loaded.0.limits ≡ limits) }
        ensures loaded { IfOk result (λ loaded. AreLoaded loaded.0 loaded.1.items pairs.now) }
        ensures order { IsErrOf result LoadError.Order ↔ (KeysAscend pairs.now → ⊥) }
        ensures full { IsErrOf result LoadError.Full → IsStopped limits pairs.now LOAD_BUDGET (Called.Done reply.Full) }
        ensures spent { IsErrOf result LoadError.Spent → IsStopped limits pairs.now LOAD_BUDGET Called.Spent }
    {
        if !keys_ascend(pairs) {
            return Err(LoadError::Order);
        }
        let Ok((tree, first, others)) = begun(alloc, limits) else {
            return Err(LoadError::Memory);
        };
        match loaded(alloc, &tree, first, others, pairs) {
            Ok(seats) => Ok((tree, seats)),
            Err(refusal) => Err(refusal),
        }
    }
}

/// Whether each key is below the next one.
fn keys_ascend(pairs: &[(Key, Value)]) -> bool
    ensures { MatchBool result (KeysAscend pairs.now) (KeysAscend pairs.now → ⊥) }
{
    for place in 1..pairs.len() {
        if !pairs[place - 1].0.cmp(&pairs[place].0).is_lt() {
            return false;
        }
    }
    true
}

/// Loads the pairs on the first seat, and deals all seats.
fn loaded<A: Allocator + Copy>(
    alloc: A,
    tree: &Tree<A>,
    first: BwSeat<A>,
    others: TableSeat,
    pairs: &[(Key, Value)],
) -> Result<Vec<BwSeat<A>, A>, LoadError>
    requires ascend { KeysAscend pairs.now }
    requires first { first ≡ fresh_seat tree.now 0 }
    requires table { others.table_id ≡ tree.now.table }
    requires others { others.me ≡ (other_parts (dealt tree.now.limits), []) }
    ensures loaded { IfOk result (λ seats. AreLoaded tree.now seats.items pairs.now) }
    ensures err { IfErr result (IsLoadStop tree.now.limits pairs.now LOAD_BUDGET) }
{
    own_lasts();
    let mut first = first;
    let load = tree.load(&mut first, pairs);
    let others = gathered(tree, &mut first, others);
    match load {
        Err(LoadStop::Full(_)) => return Err(LoadError::Full),
        Err(LoadStop::Spent(_)) => return Err(LoadError::Spent),
        Ok(()) => {}
    }
    match dealt_out(alloc, tree, first, others) {
        Ok(seats) => Ok(seats),
        Err(_) => Err(LoadError::Memory),
    }
}
