//! What small chains decide: each function does nothing, and its contract computes it.
ghost use Rattle.std.specs.Prelude.{codes, ◌≡◌, [], true, false, None, Some};
ghost use Rattle.bw_model.specs.declared.step.Answer.TheVariants.{Number, Content, Whether, Done};
ghost use Rattle.bw_model.specs.declared.step.Step.TheVariants.{Slot, Row, Exchange, TakeRow, Leave};
ghost use Rattle.base_page.specs.declared.item.Content.TheVariants.{Value, Child};
ghost use Rattle.traces.specs.chain.Chains.{content_in, high_in, right_in, is_removed, covers};
ghost use Rattle.traces.specs.chain.Examples.{put_leaf, deleted_leaf, split_leaf, removed_leaf, merged_leaf, leaf_chain, index_page, termed_page, held_page};
ghost use Rattle.traces.specs.chain.Examples.{untermed_page, index_chain, split_index, long_index, put_over_removal, put_outside, base_over_base, first_held};
ghost use Rattle.traces.specs.chain.Examples.{marked_base, unnamed_split, remove, one_held, four_held, index_of};
ghost use Rattle.traces.specs.chain.Fitted.{IsPageChain};
ghost use Rattle.traces.specs.chain.HeldBack.{HoldsBack, begins_at, has_held_neighbour};
ghost use Rattle.traces.specs.discipline.Recalled.{IsPaid, recall};
ghost use Rattle.traces.specs.discipline.Recollections.{after_bits, after_loss, after_miss, after_removal, after_split};

/// The newest record that names a key decides it; the base decides each other one.
pub fn leaves_decide()
    ensures put { content_in put_leaf (codes "a") ≡ Some (Value (codes "1")) }
    ensures elsewhere { content_in put_leaf (codes "b") ≡ None }
    ensures deleted { content_in deleted_leaf (codes "a") ≡ None }
    ensures removed { content_in removed_leaf (codes "k08") ≡ Some (Value (codes "v08")) }
    ensures mark { is_removed removed_leaf ≡ true }
    ensures unmarked { is_removed split_leaf ≡ false }
{}

/// A split cuts the keys at or above its separator off.
pub fn split_cuts()
    ensures below { content_in split_leaf (codes "k08") ≡ Some (Value (codes "v08")) }
    ensures at { content_in split_leaf (codes "k09") ≡ None }
    ensures high { high_in split_leaf ≡ Some (codes "k09") }
    ensures right { right_in split_leaf ≡ Some 2 }
    ensures range { covers split_leaf (codes "k09") ≡ false }
{}

/// A merge decides each key of its range, also those that it has no item of.
pub fn merge_adds()
    ensures below { content_in merged_leaf (codes "k08") ≡ Some (Value (codes "v08")) }
    ensures item { content_in merged_leaf (codes "k09") ≡ Some (Value (codes "w09")) }
    ensures absent { content_in merged_leaf (codes "k10") ≡ None }
    ensures high { high_in merged_leaf ≡ None }
    ensures right { right_in merged_leaf ≡ None }
    ensures range { covers merged_leaf (codes "k10") ≡ true }
{}

/// A term is posted, held, and taken out.
pub fn terms_come_and_go()
    ensures before { content_in index_page (codes "k09") ≡ None }
    ensures posted { content_in termed_page (codes "k09") ≡ Some (Child 2 false) }
    ensures held { content_in held_page (codes "k09") ≡ Some (Child 2 true) }
    ensures out { content_in untermed_page (codes "k09") ≡ None }
    ensures first { content_in untermed_page [] ≡ Some (Child 1 false) }
    ensures cut { content_in split_index (codes "k09") ≡ None }
    ensures merged { content_in long_index (codes "k09") ≡ Some (Child 5 true) }
{}

/// Each record of these fits what is under it.
pub fn chains_fit()
    ensures leaf { IsPageChain leaf_chain }
    ensures index { IsPageChain index_chain }
    ensures cut { IsPageChain split_index }
    ensures long { IsPageChain long_index }
{}

/// The newest record of these doesn't fit what is under it, makes a page that breaks a rule, or is one that no row can spell.
pub fn unfit_chains_are_refused()
    ensures removed { ¬ IsPageChain put_over_removal }
    ensures outside { ¬ IsPageChain put_outside }
    ensures base { ¬ IsPageChain base_over_base }
    ensures held { ¬ IsPageChain first_held }
    ensures marked { ¬ IsPageChain marked_base }
    ensures unnamed { ¬ IsPageChain unnamed_split }
{}

/// Which term is the first one, and which have a held neighbour.
pub fn held_neighbours_are_found()
    ensures first { begins_at [] one_held ≡ true }
    ensures later { begins_at (codes "a") one_held ≡ false }
    ensures none { begins_at [] [] ≡ false }
    ensures left { has_held_neighbour (codes "a") one_held ≡ true }
    ensures right { has_held_neighbour (codes "c") one_held ≡ true }
    ensures itself { has_held_neighbour (codes "b") one_held ≡ false }
    ensures apart { has_held_neighbour (codes "d") one_held ≡ false }
    ensures absent { has_held_neighbour (codes "bb") one_held ≡ false }
{}

/// Which pages these index pages keep from being removed: not the one that is held, none without a held neighbour unless four
/// are held, and none whose term isn't there.
pub fn pages_are_held_back()
    ensures first { HoldsBack (index_of one_held) 1 [] }
    ensures beside { HoldsBack (index_of one_held) 2 (codes "a") }
    ensures many { HoldsBack (index_of four_held) 10 (codes "i") }
    ensures held { ¬ HoldsBack (index_of one_held) 3 (codes "b") }
    ensures apart { ¬ HoldsBack (index_of one_held) 5 (codes "d") }
    ensures other { ¬ HoldsBack (index_of one_held) 3 (codes "a") }
{}

/// Which steps a cause pays for, after an operation's first reads.
pub fn paid_steps_are_told()
    ensures named { IsPaid after_split (Slot 2) (Number 0) }
    ensures unnamed { ¬ IsPaid after_split (Slot 3) (Number 0) }
    ensures again { ¬ IsPaid after_removal (Slot 2) (Number 0) }
    ensures won { IsPaid after_split (Exchange 1 5 7) (Whether true) }
    ensures lost { IsPaid after_split (Exchange 1 5 7) (Whether false) }
    ensures unrecalled { ¬ IsPaid after_loss (Exchange 1 5 7) (Whether false) }
    ensures ready { ¬ IsPaid after_split (Exchange 4 0 9) (Whether true) }
    ensures undo { ¬ IsPaid after_split (Exchange 4 9 0) (Whether true) }
    ensures removal { IsPaid after_split (Row 6) (Content (remove 4)) }
    ensures second { ¬ IsPaid after_removal (Row 8) (Content (remove 4)) }
    ensures round { IsPaid (recall after_removal (Slot 0) (Number 1)) (Row 8) (Content (remove 4)) }
    ensures outside { ¬ IsPaid (recall after_split Leave Done) (Row 6) (Content (remove 4)) }
    ensures missed { IsPaid after_bits (TakeRow 3) (Whether false) }
    ensures forgotten { ¬ IsPaid after_miss (TakeRow 3) (Whether false) }
{}
