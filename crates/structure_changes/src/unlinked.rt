//! What a change takes out of the tree.
ghost use Rattle.std.specs.Prelude.{◌≡◌, ◌<◌, None, Some, length};
ghost use Rattle.traces.specs.chain.Chains.{chain_rows};

use crate::PageInHand;
use arrayvec::ArrayVec;
use row_chain::MAX_RECORDS;
use row_search::Rows;
use std::alloc::Allocator;

/// What a change takes out of the tree where it wins: the rows of a chain, and the page's PID where the page goes with it.
#[derive(Drop)]
pub struct Unlinked {
    pub rows: ArrayVec<u32, MAX_RECORDS>,
    pub pid: Option<u32>,
}

impl Unlinked {
    /// The chain of a page that stays.
    pub fn chain<R: Rows, A: Allocator>(page: &PageInHand<R, A>) -> Unlinked
        requires some { 0 < length page.now.chain }
        ensures rows { result.rows.items ≡ chain_rows page.now.head page.now.chain }
        ensures pid { result.pid ≡ None }
    {
        Unlinked {
            rows: page.chain().rows(),
            pid: None,
        }
    }

    /// A page with its chain.
    pub fn page<R: Rows, A: Allocator>(page: &PageInHand<R, A>) -> Unlinked
        requires some { 0 < length page.now.chain }
        ensures rows { result.rows.items ≡ chain_rows page.now.head page.now.chain }
        ensures pid { result.pid ≡ Some page.now.pid }
    {
        Unlinked {
            rows: page.chain().rows(),
            pid: Some(page.pid()),
        }
    }
}
