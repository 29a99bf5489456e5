//! Which rows a plan needs: how many, and how wide.
ghost use Rattle.std.specs.Prelude.{◌≡◌, ◌<◌, ◌%◌};
ghost use Rattle.change_machine.specs.Moves.{has_rows, lacks_lower, lower_from, upper_from, wanted_from};

use crate::Spares;
use bw_model::Limits;
use deltas::{base_row_from, link_row_from};
use structure_changes::Plan;

/// Whether there are rows enough, and the last ones have room.
pub(crate) fn has_rows(limits: &Limits, plan: &Plan, spares: &Spares) -> bool
    ensures { result ≡ has_rows limits.now plan.now spares.now.rows }
{
    spares.rows().len() >= plan.rows_needed()
        && u64::from(spares.last_row()) >= upper_from(limits, plan)
        && u64::from(spares.second_row()) >= lower_from(limits, plan)
}

/// The first row that will do as the next one to be taken.
pub(crate) fn wanted_from(limits: &Limits, plan: &Plan, spares: &Spares) -> u64
    ensures from { result ≡ wanted_from limits.now plan.now spares.now.rows }
    ensures there { result < limits.now.rows }
{
    if lacks_lower(limits, plan, spares) {
        lower_from(limits, plan)
    } else {
        upper_from(limits, plan)
    }
}

/// Whether two rows are needed, and there is none, or the last one has no room for a split's record.
fn lacks_lower(limits: &Limits, plan: &Plan, spares: &Spares) -> bool
    ensures { result ≡ lacks_lower limits.now plan.now spares.now.rows }
{
    spares.rows().len() + 1 < plan.rows_needed()
        || u64::from(spares.last_row()) < lower_from(limits, plan)
}

/// The first row that has room for the new page's base, or for the record where there is no new page.
fn upper_from(limits: &Limits, plan: &Plan) -> u64
    ensures from { result ≡ upper_from limits.now plan.now }
    ensures there { result < limits.now.rows }
{
    match plan {
        Plan::Install { content, .. } => content.row_from(limits),
        Plan::Split { plan, .. } => base_row_from(&plan.upper, limits),
        Plan::Root { root, .. } => base_row_from(root, limits),
        Plan::Unlink { unterm, .. } => link_row_from(&unterm.separator, limits),
    }
}

/// The first row that has room for a split's record beside its base.
fn lower_from(limits: &Limits, plan: &Plan) -> u64
    ensures from { result ≡ lower_from limits.now plan.now }
    ensures there { result < limits.now.rows }
{
    match plan {
        Plan::Split { plan, .. } => link_row_from(plan.upper.low(), limits),
        Plan::Install { .. } | Plan::Root { .. } | Plan::Unlink { .. } => 0,
    }
}
