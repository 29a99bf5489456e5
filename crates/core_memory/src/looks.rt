//! The rows of a core's table, as searches look at them.

use crate::CoreTable;
use row_search::Rows;
use std::alloc::{Allocator, Global};
use std::marker::PhantomData;

/// The rows of a core's table. What looks at them is the table itself, which stays as it is; what stands in a row is what its memory has there.
#[derive(Drop)]
pub struct CoreRows<A: Allocator = Global> {
    of: PhantomData<A>,
}

impl<A: Allocator> CoreRows<A> {
    /// The rows of any table.
    pub fn new() -> CoreRows<A> {
        CoreRows { of: PhantomData }
    }
}

impl<A: Allocator> Rows for CoreRows<A> {
    ghost use Rattle.core_memory.specs.Looks.{StandsIn, or_some};
    ghost use Rattle.core_memory.specs.Tables.{memory_in};

    type Pass = CoreTable<A>;

    type Place = u32;

    ghost content = { λ table row. or_some ((memory_in table).rows row) };

    ghost has = { λ rows table row content. StandsIn (memory_in table) row content };

    ghost lies = { λ rows table row content. StandsIn (memory_in table) row content };

    fn place(&self, pass: &CoreTable<A>, row: u32, first: u64) -> u32 {
        // The trait hands both; a table of whole records finds one by its row alone.
        let _ = pass;
        let _ = first;
        row
    }

    fn look(&self, pass: &mut CoreTable<A>, place: u32, at: usize) -> u64 {
        pass.word(place, at)
    }
}
