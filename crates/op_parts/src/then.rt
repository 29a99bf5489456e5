//! What comes after a change.

use crate::short_reply::ShortReply;
use structure_changes::After;

/// What comes once a change has won.
#[derive(Drop)]
pub enum Then {
    /// What follows a change of the tree's structure.
    After(After),
    /// The reply.
    Reply(ShortReply),
}
