//! Laws of limbos: each function does nothing, and its contract is proved of all of them.
ghost use Rattle.std.specs.Prelude.{◌≡◌, ◌<◌, ◌≤◌, ◌↔◌, ◌+◌, ℕ, List, Option, None, Some, IsTrue, length, true};
ghost use Rattle.std.specs.List.{Contains};
ghost use Rattle.tree_limits.specs.declared.limits.Limits.{Limits};
ghost use Rattle.bw_model.specs.declared.step.Answer.{Answer};
ghost use Rattle.bw_model.specs.declared.step.Answer.TheVariants.{Number};
ghost use Rattle.bw_model.specs.declared.step.Step.TheVariants.{Epoch};
ghost use Rattle.traces.specs.chain.Chains.{IsChainFrom, chain_rows};
ghost use Rattle.traces.specs.discipline.Fitting.{AreOutOfLimbo, Fits};
ghost use Rattle.traces.specs.discipline.Knowledge.{Absent, Unstamped, Knowledge, is_on_walk, learn, nothing, taken_out};
ghost use Rattle.deltas.specs.Memory.{replaced_at};
ghost use Rattle.deltas.specs.declared.record.Record.{Record};
ghost use Rattle.epochs.specs.Limbo.{Limbo, with_item};
ghost use Rattle.epochs.specs.declared.item.Item.{Item};
ghost use Rattle.sweep.specs.Kept.{AreKept, empty_limbo};
ghost use Rattle.sweep.specs.Moves.{BeginsSweep, Moves};
ghost use Rattle.sweep.specs.Short.{GoesShort, IsClear, free_now, most_short, short_left};
ghost use Rattle.sweep.specs.Sweeps.{IsSoundState};
ghost use Rattle.sweep.specs.Taken.{IsTakenOut};
ghost use Rattle.sweep.specs.declared.sweep.State.{State};

use traces::chain_is_one;

/// A new limbo agrees with nothing being known, and a limbo agrees still where the epoch is read outside of a sweep.
pub fn limbos_are_kept()
    ensures new { (limits : Limits) (actor : ℕ) → AreKept limits actor (empty_limbo limits) nothing.limbo }
    ensures read { (limits : Limits) (actor epoch : ℕ) (limbo : Limbo) (k : Knowledge)
        → AreKept limits actor limbo k.limbo
        → Fits limits k Epoch (Number epoch)
        → AreKept limits actor limbo (learn k Epoch (Number epoch)).limbo }
{}

/// The rows of a chain that was read whole, and the PID of its page, may come into limbo, which then agrees with what is known
/// once they are out of the tree: these are the rows that are known to be out.
pub fn chains_go_to_limbo()
    ensures walk { (seen : ℕ → Option Record) (head row : ℕ) (chain : List Record)
        → IsChainFrom seen head chain
        → length chain ≤ 13
        → IsTrue (is_on_walk 13 seen (Some head) row) ↔ Contains (chain_rows head chain) row }
    ensures rows { (limits : Limits) (actor head : ℕ) (limbo : Limbo) (k : Knowledge) (chain : List Record)
        → AreKept limits actor limbo k.limbo
        → AreOutOfLimbo limits k head
        → IsChainFrom k.read.seen head chain
        → length chain ≤ 13
        → IsTakenOut limits actor limbo (chain_rows head chain) None (record k.limbo { rows = taken_out k.read.seen head k.limbo.rows }) }
    ensures page { (limits : Limits) (actor head page : ℕ) (limbo : Limbo) (k : Knowledge) (chain : List Record)
        → AreKept limits actor limbo k.limbo
        → AreOutOfLimbo limits k head
        → IsChainFrom k.read.seen head chain
        → length chain ≤ 13
        → 0 < page
        → page < limits.pids
        → k.limbo.pids page ≡ Absent
        → IsTakenOut limits actor limbo (chain_rows head chain) (Some page) (record k.limbo { rows = taken_out k.read.seen head k.limbo.rows; pids = replaced_at page Unstamped k.limbo.pids }) }
{
    chain_is_one();
}

/// A sweep of a large tree takes 129 steps at most, and one for each actor, however many items are in limbo, where nothing might be freed
/// before it: so it is at the opening, where an item comes, and after a sweep that has ended.
pub fn large_sweeps_are_short()
    ensures new { (limits : Limits) → free_now (empty_limbo limits) ≡ 0 }
    ensures comes { (item : Item) (limbo : Limbo) → free_now (with_item item limbo) ≡ free_now limbo }
    ensures begins { (limits : Limits) (limbo after : Limbo) (first : State)
        → limits.is_large ≡ true
        → free_now limbo ≡ 0
        → BeginsSweep limits limbo (Some first) after
        → IsClear first after × (short_left limits first after ≤ most_short limits) }
    ensures goes { (limits : Limits) (old : State) (next : Option State) (told : Answer Record) (limbo after : Limbo)
        → limits.is_large ≡ true
        → IsSoundState limits old
        → IsClear old limbo
        → Moves limits old limbo told next after
        → GoesShort limits (short_left limits old limbo) next after }
    ensures most { (limits : Limits) → most_short limits ≡ 129 + limits.actors }
{}
