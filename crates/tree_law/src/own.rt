//! What is an actor's own, whatever the others do: for a tree that runs, where an actor sees its own entries alone.
ghost use Rattle.tree_law.specs.Own.{OwnLasts, RowsAreApart};

/// In a state, rows that actors have taken are apart from each other and from those that anyone has learnt.
pub fn rows_are_apart()
    ensures { RowsAreApart }
{}

/// What an actor knows and recalls, its command, and the steps that it can afford outlast the entries of others.
pub fn own_lasts()
    ensures { OwnLasts }
{}
