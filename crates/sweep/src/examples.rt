//! Which limbos agree with what is known: each function does nothing, and its contract says it of a small limbo.
ghost use Rattle.std.specs.Prelude.{◌<◌};
ghost use Rattle.tree_limits.specs.declared.limits.Limits.{Limits};
ghost use Rattle.traces.specs.discipline.Knowledge.{Absent, Stamped, Unstamped};
ghost use Rattle.sweep.specs.Examples.{all_passed, known_with, none_passed, small_limbo};
ghost use Rattle.sweep.specs.Kept.{AreKept, empty_limbo};

/// What may be freed by the list all others have passed. Row 7 has no stamp in the list, and a known one, as the epoch was read
/// outside of a sweep.
pub fn small_limbo_is_kept()
    ensures { (limits : Limits) → AreKept limits 0 (small_limbo limits) (known_with (Stamped 3 all_passed)) }
{}

/// No limbo agrees with what is known that has an item which was freed, or lacks one which is out of the tree. Nor does one that calls
/// an item passed which has no stamp, or a later one, or which nobody has passed.
pub fn other_limbos_are_refused()
    ensures freed { (limits : Limits) → ¬ AreKept limits 0 (small_limbo limits) (known_with Absent) }
    ensures unstamped { (limits : Limits) → ¬ AreKept limits 0 (small_limbo limits) (known_with Unstamped) }
    ensures later { (limits : Limits) → ¬ AreKept limits 0 (small_limbo limits) (known_with (Stamped 4 all_passed)) }
    ensures unpassed { (limits : Limits) → 1 < limits.actors
        → ¬ AreKept limits 0 (small_limbo limits) (known_with (Stamped 3 none_passed)) }
    ensures missing { (limits : Limits) → ¬ AreKept limits 0 (empty_limbo limits) (known_with (Stamped 3 all_passed)) }
{}
