//! What the pairs of the leaves are.
ghost use Rattle.listing.specs.Listed.{PagesAreListed, PagesAreShown};

use traces::side_chain_is_one;
use tree_law::leaves_stand;

/// The pairs of the leaves, one leaf's after another's, are those of the trace's log.
pub fn pages_are_listed()
    ensures { PagesAreListed }
{
    leaves_stand();
    side_chain_is_one();
}

/// What a leaf has from a key on is a cursor page of the trace's log.
pub fn pages_are_shown()
    ensures { PagesAreShown }
{
    leaves_stand();
    side_chain_is_one();
}
