//! Calls of which it is known what they are to answer.
ghost use Rattle.running_tree.specs.Seats.{IsSame};
ghost use Rattle.running_tree.specs.Trees.{IsSeatOf};

use bw_model::{Command, Reply};
use running_tree::{BwSeat, Called, Tree};
use workers::{called, reply, resumed};

/// Whether a call answered this.
fn is_done(called: Option<Called>, wanted: Reply) -> bool {
    called == Some(Called::Done(wanted))
}

/// Whether a call has spent its steps.
fn is_spent(called: Option<Called>) -> bool {
    matches!(called, Some(Called::Spent))
}

/// Runs a command, and answers whether it has this reply.
pub(crate) fn replies(tree: &Tree, seat: &mut BwSeat, command: Command, wanted: Reply) -> bool
    requires own { IsSeatOf tree.now seat.old }
    ensures same { IsSame seat.old seat.new }
{
    reply(tree, seat, command) == Ok(wanted)
}

/// Runs a command, and answers whether it has this reply within so many steps.
pub(crate) fn ends_within(
    tree: &Tree,
    seat: &mut BwSeat,
    command: Command,
    budget: u32,
    wanted: Reply,
) -> bool
    requires own { IsSeatOf tree.now seat.old }
    ensures own { IsSeatOf tree.now seat.new }
{
    is_done(called(tree, seat, command, budget), wanted)
}

/// Begins a command, and answers whether so many steps are too few for it.
pub(crate) fn stops_after(tree: &Tree, seat: &mut BwSeat, command: Command, budget: u32) -> bool
    requires own { IsSeatOf tree.now seat.old }
    ensures own { IsSeatOf tree.now seat.new }
{
    is_spent(called(tree, seat, command, budget))
}

/// Goes on with a command, and answers whether so many steps are too few for it.
pub(crate) fn stops_again(tree: &Tree, seat: &mut BwSeat, budget: u32) -> bool
    requires own { IsSeatOf tree.now seat.old }
    ensures own { IsSeatOf tree.now seat.new }
{
    is_spent(resumed(tree, seat, budget))
}

/// Goes on with a command, and answers whether it has this reply within so many steps.
pub(crate) fn goes_to_its_end(tree: &Tree, seat: &mut BwSeat, budget: u32, wanted: Reply) -> bool
    requires own { IsSeatOf tree.now seat.old }
    ensures own { IsSeatOf tree.now seat.new }
{
    is_done(resumed(tree, seat, budget), wanted)
}

/// Begins a command, and answers whether it has this reply within so many steps; none where these are too few for it.
pub(crate) fn begins(
    tree: &Tree,
    seat: &mut BwSeat,
    command: Command,
    budget: u32,
    wanted: Reply,
) -> Option<bool>
    requires own { IsSeatOf tree.now seat.old }
    ensures own { IsSeatOf tree.now seat.new }
{
    match called(tree, seat, command, budget) {
        Some(Called::Done(reply)) => Some(reply == wanted),
        Some(Called::Spent) => None,
        None => Some(false),
    }
}
