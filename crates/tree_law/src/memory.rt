//! What one memory of a run has: a walk that reads it while nobody changes it finds a whole tree.
ghost use Rattle.tree_law.specs.TraceLaws.{StatesHaveWholeTrees};

/// In a state the memory has a whole tree: each key is in the range of one page of each level, rights and terms lead where they say, and a
/// removed page has a held term, to the left of which is one that isn't held.
pub fn whole_trees()
    ensures { StatesHaveWholeTrees }
{}
