//! How large a budget is enough: the function does nothing, and its contract is proved of all calls.
ghost use Rattle.map_laws.specs.Budgets.{LookupsAreDone};

/// A `Get`, a `Page` or a `Back` is done, and not `Spent`, if its budget is above M (c + 1) + 3 and the tree is changed at most c times meanwhile. M is what
/// one memory costs a reader, (4 + PIDs) (225 + 14 PIDs).
pub fn lookups_are_done()
    ensures { LookupsAreDone }
{}
