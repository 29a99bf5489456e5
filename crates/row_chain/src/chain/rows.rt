//! The numbers of a chain's rows.
ghost use Rattle.std.specs.Prelude.{◌≡◌, ◌<◌, length};
ghost use Rattle.traces.specs.chain.Chains.{chain_rows};

use crate::{Chain, MAX_RECORDS};
use arrayvec::ArrayVec;
use row_search::Rows;
use std::alloc::Allocator;

impl<R: Rows, A: Allocator> Chain<R, A> {
    /// The row of each record, the newest first.
    pub fn rows(&self) -> ArrayVec<u32, MAX_RECORDS>
        requires { 0 < length self.now.records }
        ensures { result.items ≡ chain_rows self.now.head self.now.records }
    {
        self.keeps_rules();
        let mut rows = ArrayVec::new();
        for record in self.part.as_slice() {
            rows.push(record.number());
        }
        rows
    }
}
