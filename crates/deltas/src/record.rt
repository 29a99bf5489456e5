//! The nine kinds of record that a page's chain is made of.
ghost use Rattle.std.specs.Prelude.{◌≡◌};
ghost use Rattle.deltas.specs.Links.{record_link};
ghost use Rattle.deltas.specs.Records.{next_row};

use base_page::{Items, Page};
use bw_model::{Key, Link, Value};
use std::alloc::AllocError;

/// A key of a leaf has a value. `next` is the row of the record under it, here and below.
#[derive(Drop)]
pub struct Put {
    pub next: u32,
    pub key: Key,
    pub value: Value,
}

/// A key of a leaf is absent.
#[derive(Drop)]
pub struct Delete {
    pub next: u32,
    pub key: Key,
}

/// The items at or above a separator went to a new page to the right.
#[derive(Drop)]
pub struct Split {
    pub level: u8,
    pub next: u32,
    pub separator: Key,
    pub page: u32,
}

/// An index page has a term: a separator and the child whose keys begin there.
#[derive(Drop)]
pub struct Term {
    pub level: u8,
    pub next: u32,
    pub separator: Key,
    pub child: u32,
}

/// The term of a separator is held: its child is about to be removed.
#[derive(Drop)]
pub struct Hold {
    pub level: u8,
    pub next: u32,
    pub separator: Key,
    pub child: u32,
}

/// The page is removed.
#[derive(Clone, Copy)]
pub struct Remove {
    pub level: u8,
    pub next: u32,
}

/// The range, the right and the items of a removed page came to its left page.
#[derive(Drop)]
pub struct Merge {
    pub level: u8,
    pub next: u32,
    pub low: Key,
    pub high: Option<Key>,
    pub right: Option<u32>,
    pub items: Items,
}

/// An index page has lost a term.
#[derive(Drop)]
pub struct Unterm {
    pub level: u8,
    pub next: u32,
    pub separator: Key,
    pub child: u32,
}

/// One record of a chain: a base with the whole page, or a delta over the record under it.
#[derive(Drop)]
pub enum Record {
    Base(Page),
    Put(Put),
    Delete(Delete),
    Split(Split),
    Term(Term),
    Hold(Hold),
    Remove(Remove),
    Merge(Merge),
    Unterm(Unterm),
}

impl Default for Record {
    ghost use Rattle.deltas.specs.declared.record.Record.TheVariants.{Remove};

    ghost is_default = { λ blank. blank ≡ Remove (record { level = 0; next = 0 }) };

    /// What stands where nothing was placed yet.
    fn default() -> Record {
        Record::Remove(Remove { level: 0, next: 0 })
    }
}

impl Clone for Record {
    ghost is_clone = { λ r other. other ≡ r };

    ghost is_infallible = { λ _. Unit {0} };

    fn clone(&self) -> Result<Self, AllocError> {
        Ok(self.copied())
    }
}

impl Record {
    /// The row of the record under this one; a base has none.
    pub fn next(&self) -> Option<u32>
        ensures { result ≡ next_row self.now }
    {
        match self {
            Record::Base(_) => None,
            Record::Put(put) => Some(put.next),
            Record::Delete(delete) => Some(delete.next),
            Record::Split(split) => Some(split.next),
            Record::Term(term) => Some(term.next),
            Record::Hold(hold) => Some(hold.next),
            Record::Remove(remove) => Some(remove.next),
            Record::Merge(merge) => Some(merge.next),
            Record::Unterm(unterm) => Some(unterm.next),
        }
    }

    /// What an exchange that links the record does.
    pub fn link(&self) -> Link
        ensures { result ≡ record_link self.now }
    {
        match self {
            Record::Base(_) => Link::Base,
            Record::Put(_) => Link::Put,
            Record::Delete(_) => Link::Delete,
            Record::Split(_) => Link::Split,
            Record::Term(_) => Link::Term,
            Record::Hold(_) => Link::Hold,
            Record::Remove(_) => Link::Remove,
            Record::Merge(_) => Link::Merge,
            Record::Unterm(_) => Link::Unterm,
        }
    }

    /// A copy, which takes no memory.
    pub fn copied(&self) -> Record
        ensures { result ≡ self.now }
    {
        match self {
            Record::Base(page) => Record::Base(page.copied()),
            Record::Put(put) => Record::Put(put.copied()),
            Record::Delete(delete) => Record::Delete(delete.copied()),
            Record::Split(split) => Record::Split(split.copied()),
            Record::Term(term) => Record::Term(term.copied()),
            Record::Hold(hold) => Record::Hold(hold.copied()),
            Record::Remove(remove) => Record::Remove(*remove),
            Record::Merge(merge) => Record::Merge(merge.copied()),
            Record::Unterm(unterm) => Record::Unterm(unterm.copied()),
        }
    }
}

impl Put {
    /// A copy, which takes no memory.
    pub fn copied(&self) -> Put
        ensures { result ≡ self.now }
    {
        Put {
            next: self.next,
            key: self.key.copied(),
            value: self.value.copied(),
        }
    }
}

impl Delete {
    /// A copy, which takes no memory.
    pub fn copied(&self) -> Delete
        ensures { result ≡ self.now }
    {
        Delete {
            next: self.next,
            key: self.key.copied(),
        }
    }
}

impl Split {
    /// A copy, which takes no memory.
    pub fn copied(&self) -> Split
        ensures { result ≡ self.now }
    {
        Split {
            level: self.level,
            next: self.next,
            separator: self.separator.copied(),
            page: self.page,
        }
    }
}

impl Term {
    /// A copy, which takes no memory.
    pub fn copied(&self) -> Term
        ensures { result ≡ self.now }
    {
        Term {
            level: self.level,
            next: self.next,
            separator: self.separator.copied(),
            child: self.child,
        }
    }
}

impl Hold {
    /// A copy, which takes no memory.
    pub fn copied(&self) -> Hold
        ensures { result ≡ self.now }
    {
        Hold {
            level: self.level,
            next: self.next,
            separator: self.separator.copied(),
            child: self.child,
        }
    }
}

impl Merge {
    /// A copy, which takes no memory.
    pub fn copied(&self) -> Merge
        ensures { result ≡ self.now }
    {
        Merge {
            level: self.level,
            next: self.next,
            low: self.low.copied(),
            high: match &self.high {
                None => None,
                Some(high) => Some(high.copied()),
            },
            right: self.right,
            items: self.items.copied(),
        }
    }
}

impl Unterm {
    /// A copy, which takes no memory.
    pub fn copied(&self) -> Unterm
        ensures { result ≡ self.now }
    {
        Unterm {
            level: self.level,
            next: self.next,
            separator: self.separator.copied(),
            child: self.child,
        }
    }
}
