//! Laws of the definitions: each function does nothing, and its contract is proved of all runs.
ghost use Rattle.std.specs.Prelude.{◌≡◌, ◌∷◌, ◌++◌, ℕ, suc, [], List, Bool, true, false, None, Some, if◌then◌else◌, length, slice_get, take, set};
ghost use Rattle.std.specs.Option.{option_map};
ghost use Rattle.tree_limits.specs.declared.limits.Limits.{Limits};
ghost use Rattle.bw_model.specs.declared.step.Step.{Step};
ghost use Rattle.bw_model.specs.declared.step.Step.TheVariants.{Enter, Leave};
ghost use Rattle.bw_model.specs.declared.step.Answer.{Answer};
ghost use Rattle.bw_model.specs.declared.step.Link.TheVariants.{Clear};
ghost use Rattle.bw_model.specs.Log.{Update, logged_value};
ghost use Rattle.base_page.specs.declared.item.Content.TheVariants.{Value};
ghost use Rattle.deltas.specs.declared.record.Record.{Record};
ghost use Rattle.deltas.specs.declared.record.Record.TheVariants.{Remove};
ghost use Rattle.deltas.specs.declared.record.Remove.{Remove as Removal};
ghost use Rattle.deltas.specs.Memory.{Memory};
ghost use Rattle.traces.specs.declared.trace.Entry.{Entry};
ghost use Rattle.traces.specs.chain.Chains.{IsChainOf, content_in, low_in, high_in, right_in};
ghost use Rattle.traces.specs.trace.Trace.{memory_of, IsStep};
ghost use Rattle.traces.specs.chain.Unheld.{IsUnheld};
ghost use Rattle.linearization.specs.Points.{updates_at, log_of, log_at};
ghost use Rattle.linearization.specs.Links.{Installs, Wins};
ghost use Rattle.linearization.specs.Quiet.{HasMapOf};
ghost use Rattle.linearization.specs.Faithful.{Disturbs, KnowsRow};
ghost use Rattle.linearization.specs.Phases.{Phase, MovesPhase, IsInPhase, KeepsPhases, cleared};

/// An entry adds to the log what it updates, if it is marked.
pub fn log_grows()
    ensures { (entries : List Entry) (points : List Bool) (entry : Entry) (marked : Bool)
        → length points ≡ length entries
        → log_of (entries ++ entry ∷ []) (points ++ marked ∷ []) ≡ (if marked then log_of entries points ++ updates_at entries entry (log_of entries points) else log_of entries points) }
{}

/// A mark at a step that updates nothing keeps the log.
pub fn late_mark_keeps_log()
    ensures { (entries : List Entry) (points : List Bool) (n : ℕ) (entry : Entry)
        → slice_get entries n ≡ Some entry
        → slice_get points n ≡ Some false
        → updates_at (take n entries) entry (log_at entries points n) ≡ []
        → log_of entries (set points n true) ≡ log_of entries points }
{}

/// A memory of one leaf has the map that the leaf's chain decides.
pub fn one_leaf_has_the_map()
    ensures { (memory : Memory) (log : List Update) (chain : List Record)
        → IsChainOf memory 1 chain
        → low_in chain ≡ []
        → high_in chain ≡ None
        → right_in chain ≡ None
        → ((key : List ℕ) → content_in chain key ≡ option_map Value (logged_value log key))
        → HasMapOf memory log }
{}

/// What an actor knows it keeps, unless it enters or leaves, or the row is disturbed.
pub fn knowledge_stays()
    ensures { (entries : List Entry) (last : Entry) (actor row : ℕ)
        → KnowsRow entries (length entries) actor row
        → ((epoch : ℕ) (answer : Answer Record) → ¬ IsStep last actor (Enter epoch) answer × ¬ IsStep last actor Leave answer)
        → ((other : ℕ) (step : Step Record) (answer : Answer Record) → IsStep last other step answer → ¬ Disturbs step answer row)
        → KnowsRow (entries ++ last ∷ []) (suc (length entries)) actor row }
{}

/// The phases are kept by an entry that moves each PID from the phase in which it is, and removes no page with a held term.
pub fn phases_grow()
    ensures { (limits : Limits) (entries : List Entry) (last : Entry)
        → KeepsPhases limits entries
        → ((pid : ℕ) (from to : Phase) → MovesPhase (memory_of limits entries) last pid from to → IsInPhase limits entries (length entries) pid from)
        → ((actor pid old : ℕ) → Wins (memory_of limits entries) last actor pid old 0 Clear → IsInPhase limits entries (length entries) pid cleared)
        → ((pid : ℕ) (remove : Removal) (chain : List Record) → Installs (memory_of limits entries) last pid (Remove remove) → IsChainOf (memory_of limits entries) pid chain → IsUnheld chain)
        → KeepsPhases limits (entries ++ last ∷ []) }
{}
