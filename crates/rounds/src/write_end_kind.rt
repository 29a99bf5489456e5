//! How a writer's round ends.

/// How a writer's round ends. The pages that an end is about stand in the round, and so does a change that is due.
#[derive(Clone, Copy)]
pub enum WriteEndKind {
    /// A page that was named isn't there: a new round begins.
    Again,
    /// The page in hand, which is on the way, is removed: a round to the left of it begins.
    Removed,
    /// The change that stands in the round is due, with what comes once it has won.
    Due,
    /// The page in hand is the leaf that has the key in its range, below the parent, where one is kept.
    Leaf,
    /// Nothing is due to the left of the removed page.
    Done,
}
