//! A page's chain while it is read.
ghost use Rattle.std.specs.Prelude.{◌≡◌, ◌<◌, ◌++◌, ◌∷◌, [], IfOk, length};
ghost use Rattle.traces.specs.chain.Chains.{chain_rows};
ghost use Rattle.row_chain.specs.Placed.{AreFrom, contents};
ghost use Rattle.row_chain.specs.declared.chain_part.TheConstants.{MAX_RECORDS};

use row_search::{RowAt, Rows};
use std::alloc::{AllocError, Allocator, Global};
use std::marker::Model;

/// How many records a chain has at most: twelve deltas and a base.
pub const MAX_RECORDS: usize = 13;

/// The records of a page's chain that were read so far, the newest first, where they lie. There is room for as many as a chain has at
/// most, from the opening on.
pub struct ChainPart<R: Rows, A: Allocator = Global> {
    head: u32,
    rows: Vec<RowAt<R>, A>,
}

// Written out, here and in what is made of chains: so it is one call for whoever drops it (docs/DECISIONS.md, 78).
impl<R: Rows, A: Allocator> Drop for ChainPart<R, A> {
    fn drop(self) {
        let ChainPart { head: _, rows: _ } = self;
    }
}

impl<R: Rows, A: Allocator> Model for ChainPart<R, A> {
    ghost use Rattle.std.specs.Prelude.{◌≤◌, vec_capacity};
    ghost use Rattle.row_chain.specs.Placed.{AreFrom, PlacedChain, contents};
    ghost use Rattle.row_chain.specs.declared.chain_part.TheConstants.{MAX_RECORDS};

    ghost Value = { PlacedChain };

    ghost view = { λ p. record { head = p.head; records = contents p.rows.items } };

    ghost invariant = { λ p. (MAX_RECORDS ≤ vec_capacity p.rows) × AreFrom p.head p.rows.items };
}

impl<R: Rows, A: Allocator> ChainPart<R, A> {
    /// Nothing read yet, of a page that begins in row 1. Takes the memory for all records, 208 bytes; refused for want of it alone. No
    /// later call takes memory.
    pub fn new(alloc: A) -> Result<ChainPart<R, A>, AllocError>
        ensures { IfOk result (λ part. part ≡ record { head = 1; records = [] }) }
    {
        let rows = Vec::with_capacity(alloc, MAX_RECORDS)?;
        Ok(ChainPart { head: 1, rows })
    }

    /// Another page is read, from this row on.
    pub fn restart(&mut self, head: u32)
        ensures { self.new ≡ record { head = head; records = [] } }
    {
        self.head = head;
        self.rows.clear();
    }

    /// The row at which it begins.
    pub fn head(&self) -> u32
        ensures { result ≡ self.now.head }
    {
        self.head
    }

    /// How many records were read.
    pub fn len(&self) -> usize
        ensures { result ≡ length self.now.records }
    {
        self.rows.len()
    }

    /// Puts the record that was read next under the others: it was read in the row that the last of them names.
    pub fn push(&mut self, row: RowAt<R>)
        requires few { length self.old.records < MAX_RECORDS }
        requires next { chain_rows self.old.head (self.old.records ++ row.content ∷ []) ≡ chain_rows self.old.head self.old.records ++ row.row ∷ [] }
        ensures { self.new ≡ record self.old { records = self.old.records ++ row.content ∷ [] } }
    {
        self.rows.push_reserved(row);
    }

    /// The records in order, the newest first.
    pub fn as_slice(&self) -> &[RowAt<R>]
        ensures from { AreFrom self.now.head result.now }
        ensures records { contents result.now ≡ self.now.records }
    {
        self.rows.as_slice()
    }
}
