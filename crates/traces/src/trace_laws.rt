//! Laws of runs and chains: each function does nothing, and its contract is proved of all of them.
ghost use Rattle.std.specs.Prelude.{◌≡◌, ◌≤◌, ◌∷◌, ◌++◌, ℕ, [], List, length};
ghost use Rattle.tree_limits.specs.declared.limits.Limits.{Limits};
ghost use Rattle.bw_model.specs.declared.step.Step.TheVariants.{Leave};
ghost use Rattle.bw_model.specs.declared.step.Answer.{Answer};
ghost use Rattle.base_page.specs.Pages.{Page};
ghost use Rattle.base_page.specs.Rules.{IsRuled};
ghost use Rattle.deltas.specs.declared.record.Put.{Put};
ghost use Rattle.deltas.specs.declared.record.Delete.{Delete};
ghost use Rattle.deltas.specs.declared.record.Record.{Record};
ghost use Rattle.deltas.specs.declared.record.Record.TheVariants as kind;
ghost use Rattle.deltas.specs.Fits.{FitsPut, FitsDelete};
ghost use Rattle.deltas.specs.Memory.{Memory};
ghost use Rattle.deltas.specs.Spellable.{IsRow};
ghost use Rattle.traces.specs.declared.trace.Entry.{Entry};
ghost use Rattle.traces.specs.chain.Chains.{IsChainOf};
ghost use Rattle.traces.specs.chain.Fitted.{FitsOver, IsPageChain, Makes};
ghost use Rattle.traces.specs.discipline.Learnt.{HasLearnt};
ghost use Rattle.traces.specs.chain.SideChain.{LivePage, IsSideChainFrom};
ghost use Rattle.traces.specs.trace.Run.{IsNext, IsRun};
ghost use Rattle.traces.specs.trace.Trace.{memory_of, memory_at, memory_after_entry, command_of, commands_after, IsStep};

/// A run grows by an entry that may stand next.
pub fn run_grows()
    ensures { (limits : Limits) (entries : List Entry) (entry : Entry)
        → IsRun limits entries
        → IsNext limits entries entry
        → IsRun limits (entries ++ entry ∷ []) }
{}

/// A slot has one chain at most.
pub fn chain_is_one()
    ensures { (memory : Memory) (pid : ℕ) (one two : List Record)
        → IsChainOf memory pid one
        → IsChainOf memory pid two
        → one ≡ two }
{}

/// A page begins one side chain at most.
pub fn side_chain_is_one()
    ensures { (memory : Memory) (pid : ℕ) (one two : List LivePage)
        → IsSideChainFrom memory pid one
        → IsSideChainFrom memory pid two
        → one ≡ two }
{}

/// The beginning of a run is one, and its last entry may stand after it.
pub fn run_shrinks()
    ensures front { (limits : Limits) (entries : List Entry) (entry : Entry)
        → IsRun limits (entries ++ entry ∷ [])
        → IsRun limits entries }
    ensures last { (limits : Limits) (entries : List Entry) (entry : Entry)
        → IsRun limits (entries ++ entry ∷ [])
        → IsNext limits entries entry }
{}

/// One more entry changes the memory by its step, and keeps the memories before.
pub fn memory_grows()
    ensures after { (limits : Limits) (entries : List Entry) (entry : Entry)
        → memory_of limits (entries ++ entry ∷ []) ≡ memory_after_entry (memory_of limits entries) entry }
    ensures before { (limits : Limits) (entries more : List Entry) (n : ℕ)
        → n ≤ length entries
        → memory_at limits (entries ++ more) n ≡ memory_at limits entries n }
{}

/// One more entry begins or ends its actor's operation, or leaves it.
pub fn command_grows()
    ensures { (entries : List Entry) (entry : Entry)
        → command_of (entries ++ entry ∷ []) ≡ commands_after (command_of entries) entry }
{}

/// What an actor has learnt it keeps until it leaves.
pub fn learnt_stays()
    ensures { (entries : List Entry) (entry : Entry) (actor row : ℕ)
        → HasLearnt entries actor row
        → ((answer : Answer Record) → ¬ IsStep entry actor Leave answer)
        → HasLearnt (entries ++ entry ∷ []) actor row }
{}

/// A page's chain makes a page that keeps the rules.
pub fn chains_make_pages()
    ensures { (chain : List Record)
        → IsPageChain chain
        → (page : Page) × Makes chain page × IsRuled page }
{}

/// A put or a delete that fits the page of a chain makes of it one that keeps the rules, where that page does: over a row it fits the chain.
pub fn updates_fit()
    ensures put { (chain : List Record) (page : Page) (put : Put)
        → Makes chain page
        → IsRuled page
        → IsRow put.next
        → FitsPut page put
        → FitsOver chain (kind.Put put) }
    ensures delete { (chain : List Record) (page : Page) (delete : Delete)
        → Makes chain page
        → IsRuled page
        → IsRow delete.next
        → FitsDelete page delete
        → FitsOver chain (kind.Delete delete) }
{}
