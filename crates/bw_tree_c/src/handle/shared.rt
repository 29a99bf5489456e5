//! What those who have a handle share.
ghost use Rattle.std.specs.Prelude.{◌≡◌, length};
ghost use Rattle.bw_tree_c.specs.Slots.{AreSlots};

use crate::handle::slots::SlotTable;
use bw_model::Limits;

/// A slot for each seat of a tree, one for what the tree leaves, and the log of all that is done with them. It stays in memory for good, so that a call
/// finds it however late it comes.
#[derive(Drop)]
pub struct Shared {
    pub(crate) limits: Limits,
    pub(crate) table: SlotTable,
    ghost words: { table.shared.table_id.words ≡ length table.shared.key.value.items },
    ghost own: { AreSlots limits table.shared.key.value.items },
}

impl Shared {
    /// What is shared of a tree of these limits.
    pub(crate) fn of(limits: Limits, table: SlotTable) -> Shared
        requires words { table.shared.table_id.words ≡ length table.shared.key.value.items }
        requires own { AreSlots limits table.shared.key.value.items }
        ensures limits { result.limits ≡ limits }
        ensures table { result.table ≡ table }
    {
        Shared { limits, table }
    }
}
