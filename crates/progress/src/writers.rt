//! Writers beside removals: how often one meets what is gone, and what follows for all operations.
ghost use Rattle.progress.specs.Writers.{RunsMakeProgress};
ghost use Rattle.progress.specs.WritersAmong.{WritersMeetFew};

/// While nobody changes the tree a writer that meets a removed page goes to the left of it, where it finds the change that is due: the page to
/// the left of one whose held term stands isn't removed, and what is due there was read as it is. So each further meeting needs a change.
pub fn writers_meet_few()
    ensures { WritersMeetFew }
{}

/// What an operation meets that is gone, and the exchanges that it loses, are then paid by changes of the tree, and what it misses by the
/// takes of others, so that they pay for all its steps, whatever was removed. From any later entry on those since then do: of all that it had
/// read before, one take may miss. As changes are few, it ends where it runs alone, and all together take few steps for each that was begun.
pub fn runs_make_progress()
    ensures { RunsMakeProgress }
{}
