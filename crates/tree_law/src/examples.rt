//! That the premises of the law can be met.
ghost use Rattle.std.specs.Prelude.{◌++◌};
ghost use Rattle.traces.specs.discipline.Disciplined.{IsDisciplined};
ghost use Rattle.tree_law.specs.AllLinks.{all_links};
ghost use Rattle.tree_law.specs.CursorPages.{back_page, last_page, upkeep};
ghost use Rattle.linearization.specs.Examples.{small};
ghost use Rattle.tree_law.specs.HelpedSplit.{helped_split};
ghost use Rattle.tree_law.specs.IndexRemoval.{index_removal};
ghost use Rattle.tree_law.specs.NoRoom.{no_room};
ghost use Rattle.tree_law.specs.Removal.{removal};
ghost use Rattle.tree_law.specs.Sweep.{sweep};

/// A run of one actor that makes each link.
pub fn all_links_are_disciplined()
    ensures { IsDisciplined small all_links }
{}

/// A run of two actors: one helps the other's split, whose own exchange for it loses.
pub fn helped_split_is_disciplined()
    ensures { IsDisciplined small helped_split }
{}

/// After the first run its actor frees what it took out of the tree, and takes it again.
pub fn sweep_is_disciplined()
    ensures { IsDisciplined small (all_links ++ sweep) }
{}

/// A run of two actors: one removes a leaf, from which the other replies, and then from the leaf on its right.
pub fn removal_is_disciplined()
    ensures { IsDisciplined small removal }
{}

/// A run of two actors: one splits the root, puts a root over both halves, and removes the upper one; the other goes round that one, and
/// through it to a leaf below it.
pub fn index_removal_is_disciplined()
    ensures { IsDisciplined small index_removal }
{}

/// A run of one actor that takes each row, and replies that nothing is free for its update.
pub fn no_room_is_disciplined()
    ensures { IsDisciplined small no_room }
{}

/// After the run with a removal the second actor shows a cursor page of the removed leaf, and posts the term of the leaf on its
/// right, at which then nothing is due; after the helped split it shows a cursor page with a pair, forward or backward.
pub fn pages_are_disciplined()
    ensures upkeep { IsDisciplined small (removal ++ upkeep) }
    ensures last_page { IsDisciplined small (helped_split ++ last_page) }
    ensures back_page { IsDisciplined small (helped_split ++ back_page) }
{}
