//! Worked runs: each function does nothing, and its contract says what the definitions make of one run.
ghost use Rattle.std.specs.Prelude.{codes, ◌≡◌, ◌∷◌, [], map, replicate, true, false, Some};
ghost use Rattle.bw_model.specs.declared.step.Link.TheVariants as link;
ghost use Rattle.traces.specs.trace.Run.{IsRun};
ghost use Rattle.traces.specs.chain.SideChain.{IsWhole};
ghost use Rattle.traces.specs.trace.Trace.{memory_at, turn_of};
ghost use Rattle.linearization.specs.Examples.{small, lookup, insert_and_lookup, new_leaf, page_life, index_above, row_reuse, hurried_reuse, unnamed_read};
ghost use Rattle.linearization.specs.Examples.{two_puts, needless_base, nine_bases, taking_reader, claimed_insert, foreign_fill, many_takes, unmet_read};
ghost use Rattle.linearization.specs.Changes.{HasFewChanges};
ghost use Rattle.linearization.specs.Direct.{IsDirect};
ghost use Rattle.linearization.specs.Faithful.{IsFaithful};
ghost use Rattle.linearization.specs.Index.{IsLevel, HasTerm};
ghost use Rattle.linearization.specs.Linearized.{IsLinearized, IsOrderly};
ghost use Rattle.linearization.specs.Links.{link_of};
ghost use Rattle.linearization.specs.Phases.{MovesAt, free, owned, fresh, indexed, held, removed, merged, cleared};
ghost use Rattle.linearization.specs.Quiet.{IsQuiet};
ghost use Rattle.linearization.specs.Reuse.{IsFreedByRule};

/// A lookup in the opening tree.
pub fn lookup_is_linearized()
    ensures linearized { IsLinearized small (map turn_of lookup) lookup }
    ensures orderly { IsOrderly small lookup }
{}

/// An insert into the opening tree, and a lookup of its key.
pub fn insert_and_lookup_is_linearized()
    ensures { IsLinearized small (map turn_of insert_and_lookup) insert_and_lookup }
{}

/// The life of a page, each change of its phase with the link that makes it.
pub fn page_lives()
    ensures run { IsRun small page_life }
    ensures quiet { IsQuiet small page_life (replicate 26 false) }

    ensures taken { MovesAt small page_life 1 2 free owned }
    ensures split { MovesAt small page_life 13 2 owned fresh
        × (link_of (memory_at small page_life 13) 1 1 3 ≡ Some link.Split) }
    ensures rooted { MovesAt small page_life 16 3 owned indexed
        × (link_of (memory_at small page_life 16) 0 1 3 ≡ Some link.Root) }
    ensures indexed { MovesAt small page_life 16 2 fresh indexed }
    ensures held { MovesAt small page_life 18 2 indexed held
        × (link_of (memory_at small page_life 18) 3 4 5 ≡ Some link.Hold) }
    ensures removed { MovesAt small page_life 20 2 held removed
        × (link_of (memory_at small page_life 20) 2 2 6 ≡ Some link.Remove) }
    ensures merged { MovesAt small page_life 22 2 removed merged
        × (link_of (memory_at small page_life 22) 1 3 7 ≡ Some link.Merge) }
    ensures untermed { MovesAt small page_life 24 2 merged cleared
        × (link_of (memory_at small page_life 24) 3 5 8 ≡ Some link.Unterm) }
    ensures emptied { link_of (memory_at small page_life 25) 2 6 0 ≡ Some link.Clear }

    // Between its hold and its removal the index has the page's term, held.
    ensures level { IsLevel small page_life 19 1 (index_above ∷ []) }
    ensures whole { IsWhole (index_above ∷ []) }
    ensures term { HasTerm small page_life (index_above ∷ []) (codes "m") 2 true }
{}

/// A row is used again by the rule.
pub fn row_is_freed()
    ensures run { IsRun small row_reuse }
    ensures freed { IsFreedByRule small row_reuse }
{}

/// A row that is used again without a look at the other actor is not.
pub fn hurried_reuse_is_refused()
    ensures { ¬ IsFreedByRule small hurried_reuse }
{}

/// A record that is read without its row's name is not the one whose name was learnt.
pub fn unnamed_read_is_refused()
    ensures { ¬ IsFaithful small unnamed_read }
{}

/// An operation that links two puts is not direct, nor is one that puts a base over a base alone, nor a lookup that takes a row.
pub fn useless_links_are_refused()
    ensures twice { ¬ IsDirect small two_puts }
    ensures needless { ¬ IsDirect small needless_base }
    ensures reading { ¬ IsDirect small taking_reader }
{}

/// Nor is one that finds a row in the slot of a page that nobody has taken, or that fills the slot of one that it has not taken.
pub fn foreign_slots_are_refused()
    ensures reading { ¬ IsDirect small unmet_read }
    ensures filling { ¬ IsDirect small foreign_fill }
{}

/// One operation that changes the tree nine times is too many changes.
pub fn nine_changes_are_refused()
    ensures { ¬ HasFewChanges small nine_bases }
{}

/// One operation that takes 153 rows, and changes nothing, takes too many of 64 rows and 64 PIDs.
pub fn many_takes_are_refused()
    ensures { ¬ HasFewChanges small many_takes }
{}

/// An insert that replies that it inserted, and has exchanged nothing, has no linearization points.
pub fn claimed_insert_is_refused()
    ensures run { IsRun small claimed_insert }
    ensures refused { ¬ IsLinearized small (map turn_of claimed_insert) claimed_insert }
{}
