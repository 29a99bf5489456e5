//! Records that rows and entries own together.
ghost use Rattle.std.specs.Prelude.{◌≡◌, IfOk, slice_index};
ghost use Rattle.deltas.specs.Spellable.{IsSpellable};
ghost use Rattle.record_slots.specs.Spelling.{words_of};
ghost use Rattle.record_slots.specs.Spells.{HasSpelling};

use crate::rows::{used, write_row};
use deltas::Record;
use record_slots::{ROW_WORDS, read_words, to_words};
use std::alloc::{AllocError, Allocator, Global};
use std::marker::Model;
use std::rc::RcSlice;

/// A record with several owners: the row that it was placed in, and the entries that placed or read it. It is kept as the words of its
/// row, without the zeros at their end: 256 bytes or so for a put of short texts.
#[derive(Drop)]
pub struct SharedRecord<A: Allocator = Global> {
    words: RcSlice<u64, A>,
}

impl<A: Allocator> Model for SharedRecord<A> {
    ghost use Rattle.std.specs.Rc.{rc_slice_items};
    ghost use Rattle.deltas.specs.declared.record.Record.{Record};
    ghost use Rattle.record_slots.specs.Spells.{IsSpelling};
    ghost use Rattle.core_memory.specs.Shared.{record_of, whole};

    ghost Value = { Record };

    ghost view = { λ s. record_of (rc_slice_items s.words) };

    ghost invariant = { λ s. IsSpelling (record_of (rc_slice_items s.words)) (whole (rc_slice_items s.words)) };
}

impl<A: Allocator + Copy> SharedRecord<A> {
    /// The record with its first owner; refused for want of memory alone. Not inlined: few steps need room for its words.
    #[inline(never)]
    pub fn new(alloc: A, content: &Record) -> Result<SharedRecord<A>, AllocError>
        requires { IsSpellable content.now }
        ensures { IfOk result (λ shared. shared ≡ content.now) }
    {
        let row = to_words(content);
        let words = RcSlice::from_slice(alloc, used(&row))?;
        Ok(SharedRecord { words })
    }
}

impl<A: Allocator> SharedRecord<A> {
    /// One owner more; refused where there are as many as can be counted.
    pub fn try_clone(&self) -> Result<SharedRecord<A>, AllocError>
        ensures { IfOk result (λ shared. shared ≡ self.now) }
    {
        let words = self.words.clone()?;
        Ok(SharedRecord { words })
    }

    /// The record, decoded: about 6 KB. Not inlined: of a core's steps only an exchange that won needs it.
    #[inline(never)]
    pub fn record(&self) -> Record
        ensures { result ≡ self.now }
    {
        let mut row = [0; ROW_WORDS];
        write_row(&mut row, self.words.as_slice());
        read_words(&row).unwrap()
    }

    /// Shows that a row of words can spell it, at no cost.
    pub fn keeps_spelling(&self)
        ensures { HasSpelling self.now }
    {
        // Reading a field brings the invariant, of which the clause is a part.
        let _ = &self.words;
    }

    /// A word of its row; behind those that are kept it is 0.
    pub fn word(&self, at: usize) -> u64
        ensures { result ≡ slice_index (words_of self.now) at }
    {
        let words = self.words.as_slice();
        if at < words.len() { words[at] } else { 0 }
    }
}
