//! A reader's rounds in one memory, which nobody changes meanwhile, beside pages that were removed.
ghost use Rattle.progress.specs.ReadersAmong.{ReadersEndAmongChanges};
ghost use Rattle.progress.specs.RoundsEnd.{LeftRoundsEnd, LookupsEnd, LookupsEndInStates, RoundsEndInStates, StaleRoundsEnd, StandingRoundsEnd};

/// In a memory with a whole tree a round that begins there finds each page that a term names, and to the left of a removed one a page that isn't. So
/// no such round ends for want of a page; it goes to the left of the removed leaf at which the one before it ended, and from there on comes to
/// removed leaves farther to the right alone. A round that began in an earlier memory reads each page twice at most, and may end so once.
pub fn rounds_end()
    ensures lookups { LookupsEnd }
    ensures left { LeftRoundsEnd }
    ensures stale { StaleRoundsEnd }
    ensures standing { StandingRoundsEnd }
{}

/// The memory of a state has a whole tree, and what an actor has read isn't false there: what it names is a place, and a removed page stays as
/// it was read. So a reader that runs alone ends, beside whatever others have left half done, wherever it stands.
pub fn readers_end_alone()
    ensures lookups { LookupsEndInStates }
    ensures rounds { RoundsEndInStates }
{}

/// From a change of the tree on the round stands in a new memory, and takes as many steps there at most. What changes nothing leaves each page of the
/// tree its slot and its chain, so that the round reads what it would read in that memory.
pub fn readers_end_among_changes()
    ensures { ReadersEndAmongChanges }
{}
