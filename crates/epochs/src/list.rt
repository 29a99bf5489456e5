//! The limbo list of one kind of numbers.
ghost use Rattle.std.specs.Prelude.{◌≡◌, ◌≤◌, ◌↔◌, [], IfOk, IsTrue, MatchOption};
ghost use Rattle.std.specs.List.{list_any};
ghost use Rattle.epochs.specs.Limbo.{IsLimboList, IsNew, with_entry, compared_with, first_restaged, is_in, is_unstamped, with_stages, stamped_by};
ghost use Rattle.epochs.specs.Words.{HandsNothingOn, HandsOn};

use crate::queue::Queue;
use crate::stages::{compare_first, first_unstamped, stamp_from};
use crate::words::{bits_of, first_word};
use crate::{Entry, Stage};
use std::alloc::{AllocError, Allocator, Global};
use std::marker::Model;

/// Numbers below a limit, each at most once, with their stages.
#[derive(Drop)]
pub(crate) struct LimboList<A: Allocator = Global> {
    limit: u64,
    /// How many of the first entries were compared: none of the others may be freed.
    compared: usize,
    entries: Queue<A>,
}

impl<A: Allocator> Model for LimboList<A> {
    ghost use Rattle.epochs.specs.Limbo.{LimboList};
    ghost use Rattle.epochs.specs.Queue.{IsKeptList};

    ghost Value = { LimboList };

    ghost view = { λ list. record { limit = list.limit; entries = list.entries.entries } };

    ghost invariant = { λ list. IsKeptList list.limit list.compared list.entries };
}

impl<A: Allocator> LimboList<A> {
    /// With room for all numbers below the limit, so that no later call takes memory.
    pub(crate) fn new(alloc: A, limit: u64) -> Result<LimboList<A>, AllocError>
        requires { limit ≤ 67108864 }
        ensures { IfOk result (λ list. list ≡ record { limit = limit; entries = [] }) }
    {
        Ok(LimboList {
            limit,
            compared: 0,
            entries: Queue::with_room(alloc, limit as usize)?,
        })
    }

    /// Whether the number may be added.
    pub(crate) fn accepts(&self, number: u32) -> bool
        ensures { IsTrue result ↔ IsNew self.now number }
    {
        u64::from(number) < self.limit && !self.contains(number)
    }

    /// Whether the number is in the list.
    fn contains(&self, number: u32) -> bool
        ensures { result ≡ is_in self.now number }
    {
        self.entries().iter().any(|entry| entry.number == number)
    }

    /// Adds a number, without a stamp.
    pub(crate) fn add(&mut self, number: u32)
        requires { IsNew self.old number }
        ensures { self.new ≡ with_entry number self.old }
    {
        self.entries.push(Entry {
            number,
            stage: Stage::Unstamped,
        });
    }

    /// Gives the stamp to all numbers that have none.
    pub(crate) fn stamp(&mut self, epoch: u64)
        ensures { self.new ≡ record self.old { entries = with_stages (stamped_by epoch) self.old.entries } }
    {
        let from = first_unstamped(self.entries.as_slice());
        stamp_from(&mut self.entries, from, epoch);
    }

    /// Finds out which numbers may be freed.
    pub(crate) fn compare(&mut self, announces: &[u64])
        ensures { self.new ≡ record self.old { entries = with_stages (compared_with announces.now) self.old.entries } }
    {
        let all = self.entries.as_slice().len();
        compare_first(&mut self.entries, all, announces);
        self.compared = all;
    }

    /// Finds out which of the first numbers may be freed, so many at most, and looks at no others.
    pub(crate) fn compare_first(&mut self, most: usize, announces: &[u64])
        ensures { self.new ≡ record self.old { entries = first_restaged most (compared_with announces.now) self.old.entries } }
    {
        let count = most.min(self.entries.as_slice().len());
        compare_first(&mut self.entries, count, announces);
        self.compared = self.compared.max(count);
    }

    /// Takes out the numbers of the first word with one that may be freed: the word's place, and their bits.
    pub(crate) fn next_word(&mut self) -> Option<(u32, u64)>
        ensures { MatchOption result (HandsNothingOn self.old self.new) (λ handed. HandsOn self.old handed.0 handed.1 self.new) }
    {
        let front = &self.entries.as_slice()[..self.compared];
        let word = first_word(front)?;
        let bits = bits_of(front, word);
        self.compared = self.entries.hand_on(self.compared, word);
        Some((word, bits))
    }

    /// Each number is there once, and is below the limit.
    pub(crate) fn has_each_once(&self)
        ensures { IsLimboList self.now }
    {
        let _ = &self.entries;
    }

    /// The numbers with their stages, in the order in which they came.
    pub(crate) fn entries(&self) -> &[Entry]
        ensures { result.now ≡ self.now.entries }
    {
        self.entries.as_slice()
    }

    /// Whether no number is left.
    pub(crate) fn is_empty(&self) -> bool
        ensures { IsTrue result ↔ (self.now.entries ≡ []) }
    {
        self.entries().is_empty()
    }

    /// Whether a number has no stamp.
    pub(crate) fn has_unstamped(&self) -> bool
        ensures { result ≡ list_any (λ entry. is_unstamped entry.stage) self.now.entries }
    {
        match self.entries.as_slice().last() {
            Some(entry) => entry.stage.is_unstamped(),
            None => false,
        }
    }
}
