//! The limbo lists of one actor.
ghost use Rattle.std.specs.Prelude.{◌≡◌, ◌||◌, ◌↔◌, [], IfErr, IfOk, IsTrue};
ghost use Rattle.std.specs.List.{list_any};
ghost use Rattle.epochs.specs.Limbo.{IsLimboList, IsNewItem, all_restaged, compared_with, firsts_restaged, is_unstamped, stamped_by, with_item};
ghost use Rattle.epochs.specs.Words.{IsHandedOn};

use crate::list::LimboList;
use crate::{Entry, Item, Reuse};
use std::alloc::{AllocError, Allocator, Global};
use std::marker::Model;
use tree_limits::{Limits, OpenError};

/// The rows and PIDs that an actor has taken out of the tree and not freed yet, each once.
pub struct Limbo<A: Allocator = Global> {
    rows: LimboList<A>,
    pids: LimboList<A>,
}

impl<A: Allocator> Drop for Limbo<A> {
    fn drop(self) {
        let Limbo { rows: _, pids: _ } = self;
    }
}

impl<A: Allocator> Model for Limbo<A> {
    ghost use Rattle.epochs.specs.Limbo.{Limbo};

    ghost Value = { Limbo };

    ghost view = { λ limbo. record { rows = limbo.rows; pids = limbo.pids } };
}

impl<A: Allocator + Copy> Limbo<A> {
    /// An empty limbo, with room for all rows and PIDs (24 bytes each), so that no later call takes memory. Refused only where
    /// memory was.
    pub fn new(alloc: A, limits: &Limits) -> Result<Limbo<A>, OpenError>
        ensures ok { IfOk result (λ limbo. limbo ≡ record { rows = record { limit = limits.now.rows; entries = [] }; pids = record { limit = limits.now.pids; entries = [] } }) }
        ensures err { IfErr result (λ error. error ≡ OpenError.Memory) }
    {
        match lists(alloc, limits) {
            Ok((rows, pids)) => Ok(Limbo { rows, pids }),
            Err(AllocError) => Err(OpenError::Memory),
        }
    }
}

impl<A: Allocator> Limbo<A> {
    /// Whether the item may come into limbo: its number is below the limit, and isn't there.
    pub fn accepts(&self, item: Item) -> bool
        ensures { IsTrue result ↔ IsNewItem self.now item }
    {
        match item {
            Item::Row(row) => self.rows.accepts(row),
            Item::Pid(pid) => self.pids.accepts(pid),
        }
    }

    /// The item was unlinked: it comes into limbo, without a stamp.
    pub fn unlinked(&mut self, item: Item)
        requires { IsNewItem self.old item }
        ensures { self.new ≡ with_item item self.old }
    {
        match item {
            Item::Row(row) => self.rows.add(row),
            Item::Pid(pid) => self.pids.add(pid),
        }
    }

    /// The epoch was read: it is the stamp of all items that have none.
    pub fn stamped(&mut self, epoch: u64)
        ensures { self.new ≡ all_restaged (stamped_by epoch) self.old }
    {
        self.rows.stamp(epoch);
        self.pids.stamp(epoch);
    }

    /// What all other actors announce was read, after the stamps. The items that may be freed are just those with a stamp
    /// that each of these actors has passed: it announced 0, or a later epoch.
    pub fn may_free(&mut self, announces: &[u64])
        ensures { self.new ≡ all_restaged (compared_with announces.now) self.old }
    {
        self.rows.compare(announces);
        self.pids.compare(announces);
    }

    /// As `may_free`, but for the first items of each list alone, so many at most: it takes time over these, however many there are.
    pub fn may_free_first(&mut self, most: usize, announces: &[u64])
        ensures { self.new ≡ firsts_restaged most (compared_with announces.now) self.old }
    {
        self.rows.compare_first(most, announces);
        self.pids.compare_first(most, announces);
    }

    /// The next step that frees items, if any may be freed: those of the first word that has any, rows before PIDs. They
    /// leave the limbo. It takes time over the items that were compared.
    pub fn next_word(&mut self) -> Option<Reuse>
        ensures { IsHandedOn self.old result self.new }
    {
        match self.rows.next_word() {
            Some((word, bits)) => Some(Reuse::Rows(word, bits)),
            None => match self.pids.next_word() {
                Some((word, bits)) => Some(Reuse::Pids(word, bits)),
                None => None,
            },
        }
    }

    /// Each item of a limbo is there once, and is a number of the tree: this does nothing, and its contract says so.
    pub fn has_each_once(&self)
        ensures rows { IsLimboList self.now.rows }
        ensures pids { IsLimboList self.now.pids }
    {
        self.rows.has_each_once();
        self.pids.has_each_once();
    }

    /// The rows with their stages, in the order in which they came.
    pub fn rows(&self) -> &[Entry]
        ensures { result.now ≡ self.now.rows.entries }
    {
        self.rows.entries()
    }

    /// The PIDs with their stages, in the order in which they came.
    pub fn pids(&self) -> &[Entry]
        ensures { result.now ≡ self.now.pids.entries }
    {
        self.pids.entries()
    }

    /// Whether nothing is in limbo.
    pub fn is_empty(&self) -> bool
        ensures { IsTrue result ↔ (self.now.rows.entries ≡ []) × (self.now.pids.entries ≡ []) }
    {
        self.rows.is_empty() && self.pids.is_empty()
    }

    /// Whether an item has no stamp, so that an epoch is to be read.
    pub fn has_unstamped(&self) -> bool
        ensures { result ≡ (list_any (λ entry. is_unstamped entry.stage) self.now.rows.entries || list_any (λ entry. is_unstamped entry.stage) self.now.pids.entries) }
    {
        self.rows.has_unstamped() || self.pids.has_unstamped()
    }
}

/// Both lists, empty.
fn lists<A: Allocator + Copy>(
    alloc: A,
    limits: &Limits,
) -> Result<(LimboList<A>, LimboList<A>), AllocError>
    ensures { IfOk result (λ lists. (lists.0 ≡ record { limit = limits.now.rows; entries = [] }) × (lists.1 ≡ record { limit = limits.now.pids; entries = [] })) }
{
    Ok((
        LimboList::new(alloc, limits.rows)?,
        LimboList::new(alloc, limits.pids)?,
    ))
}
