//! Worked examples: the function does nothing, and its contract computes the definitions.
ghost use Rattle.std.specs.Prelude.{[], ◌∷◌};
ghost use Rattle.tree_limits.specs.declared.limits.Limits.{Limits as LimitsSeen};
ghost use Rattle.table_rule.specs.Examples.{apart, heeded, moment, noted, together};
ghost use Rattle.table_rule.specs.Moments.{IsLater};
ghost use Rattle.table_rule.specs.Views.{alone};
ghost use Rattle.table_rule.specs.declared.view.Reach.TheVariants.{Idle};

use crate::rule::Law;

/// A seat of two actors is cut in two, a note is made of one, and the other takes it in: each moment is later than those before. A moment at which an
/// actor's view is lost is not.
pub fn moments_are_told<P: Law>()
    ensures cut { (limits : LimitsSeen) → IsLater P.law (together limits) (apart limits) }
    ensures noted { (limits : LimitsSeen) → IsLater P.law (together limits) (noted limits) }
    ensures heeded { (limits : LimitsSeen) → IsLater P.law (together limits) (heeded limits) }
    ensures lost { (limits : LimitsSeen) → IsLater P.law (apart limits) (moment (alone limits 1 [] Idle ∷ [])) → ⊥ }
{}
