//! The law of few steps: a trace of allowed steps is direct where each operation says how many steps it has left, and a cause
//! pays for whatever it takes beyond.
ghost use Rattle.tree_law.specs.Direct.{BeginsDirectly, DirectRuns, IsDirectState, StepsDirectly};
ghost use Rattle.tree_law.specs.TraceLaws.{Opens};

/// The empty trace is direct.
pub fn opens_directly()
    ensures { Opens IsDirectState }
{}

/// A begin keeps it, and the operation that begins can afford 2^18 steps before any cause.
pub fn begins_directly()
    ensures { BeginsDirectly }
{}

/// A step keeps it, and leaves its operation fewer steps, or is a cause, which is worth 2^18 more; never more than ten causes are worth.
pub fn steps_directly()
    ensures { StepsDirectly }
{}

/// A trace in which each actor obeys its discipline, and each operation says how many steps it has left, is direct: with c causes an
/// operation takes at most 2^18 (c + 1) steps.
pub fn runs_directly()
    ensures { DirectRuns }
{}
