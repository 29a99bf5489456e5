//! What a call has while it runs.
ghost use Rattle.std.specs.Arc.{arc_value};
ghost use Rattle.running_tree.specs.Trees.{IsSeatOf};

use bw_model::Reply;
use running_tree::{BwSeat, Tree};
use std::sync::Arc;

/// A seat, a share of its tree, and the place in which calls are told replies.
#[derive(Drop)]
pub struct Place {
    pub(crate) tree: Arc<Tree>,
    pub(crate) seat: BwSeat,
    pub(crate) reply: Reply,
    pub(crate) ghost own: { IsSeatOf (arc_value tree) seat },
}
