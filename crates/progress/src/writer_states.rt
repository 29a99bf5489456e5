//! Writers of a run, entry by entry, beside removals.
ghost use Rattle.progress.specs.WriterStates.{IsWritersState, WritersGoOn};
ghost use Rattle.tree_law.specs.TraceLaws.{Opens};

use tree_law::{answers, opens, opens_directly};

/// In the empty run writers have met nothing.
pub fn opens_with_writers()
    ensures { Opens IsWritersState }
{
    opens();
    opens_directly();
}

/// A writer that begins is paid for by what it may meet in one memory; each of its meetings spends one of what is left, and each change of the tree,
/// its own or another actor's, pays for as many once more. So the changes since its begin pay for what it meets.
pub fn writers_go_on()
    ensures { WritersGoOn }
{
    answers();
}
