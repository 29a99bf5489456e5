//! What comes after a change of the tree's structure.

use crate::Unlinked;
use bw_model::Key;

/// What comes once a change of the tree's structure has won.
#[derive(Drop)]
pub enum After {
    /// A new round.
    Round,
    /// What the change has taken out of the tree goes into limbo, and then a new round begins.
    Limbo(Unlinked),
    /// A new round, with one errand more: the page that was split off begins at this key.
    Errand(Key),
}
