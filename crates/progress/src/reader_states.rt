//! Readers of a run, entry by entry, beside removals.
ghost use Rattle.progress.specs.ReaderStates.{IsReadersState, ReadersGoOn};
ghost use Rattle.tree_law.specs.TraceLaws.{Opens};

use tree_law::{opens, opens_directly};

/// In the empty run readers have taken no steps.
pub fn opens_with_readers()
    ensures { Opens IsReadersState }
{
    opens();
    opens_directly();
}

/// A reader that begins is paid for by what one memory costs; each of its reads spends one of what is left, and each change of the tree, which is
/// another actor's, pays for as much once more. So from whatever entry on, the changes since then pay for its steps.
pub fn readers_go_on()
    ensures { ReadersGoOn }
{}
