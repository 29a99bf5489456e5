//! What C gives and reads: short lists of bytes, pairs, pages of pairs, limits and counts.
ghost use Rattle.std.specs.Prelude.{◌≡◌, ◌<◌, ◌≤◌, ◌⊎◌, IfErr, IfOk, MatchOption, length, map};
ghost use Rattle.bw_model.specs.declared.short_bytes.TheConstants.{MAX_LENGTH};
ghost use Rattle.bw_tree_c.specs.Loaded.{AreShort, IsShortPair, given_pair};
ghost use Rattle.bw_tree_c.specs.Shown.{AreOpenable, HaveWidths, ShowFirst, ShowsBytes, ShowsLimits, ShowsNext, ShowsPair, ShowsRoom, ShowsWholePage, bytes_in};

use crate::statuses::{NO_MEMORY, TOO_LONG};
use bw_model::{Key, Limits, Pairs, Value};
use running_tree::Room;
use std::alloc::Global;
use tree_limits::Widths;

/// At most 64 bytes: the first `length` of them count.
#[repr(C)]
#[derive(Drop)]
pub struct Bytes {
    pub(crate) length: u64,
    pub(crate) bytes: [u8; 64],
}

/// A key and its value.
#[repr(C)]
#[derive(Drop)]
pub struct Pair {
    pub(crate) key: Bytes,
    pub(crate) value: Bytes,
}

/// The pairs of a page of either direction, and the key from which the next page goes on, if there is more.
#[repr(C)]
#[derive(Drop)]
pub struct Page {
    pub(crate) count: u64,
    pub(crate) more: u64,
    pub(crate) next: Bytes,
    pub(crate) pairs: [Pair; 24],
}

/// How large a tree is.
#[repr(C)]
#[derive(Drop)]
pub struct TreeLimits {
    pub(crate) actors: u64,
    pub(crate) pids: u64,
    pub(crate) rows: u64,
    pub(crate) epoch: u64,
    /// 0 of a small tree, 1 of a large one whose rows are all wide, 2 of a large one with these widths.
    pub(crate) large: u64,
    pub(crate) narrow_rows: u64,
    pub(crate) wide_from: u64,
    pub(crate) narrow_words: u64,
    pub(crate) page_words: u64,
}

/// How many PIDs and rows are free.
#[repr(C)]
#[derive(Drop)]
pub struct FreeRoom {
    pub(crate) free_pids: u64,
    pub(crate) free_rows: u64,
}

impl Bytes {
    /// The bytes that count; none where they are more than there is room for.
    fn given(&self) -> Option<&[u8]>
        ensures { MatchOption result (MAX_LENGTH < self.now.length) (λ bytes. (self.now.length ≤ MAX_LENGTH) × (bytes.now ≡ bytes_in self.now)) }
    {
        if self.length > 64 {
            return None;
        }
        Some(&self.bytes[..self.length as usize])
    }

    /// These bytes from now on.
    pub(crate) fn set(&mut self, bytes: &[u8])
        requires { length bytes.now ≤ 64 }
        ensures { ShowsBytes bytes.now self.new }
    {
        self.bytes[..bytes.len()].copy_from_slice(bytes);
        self.length = bytes.len() as u64;
    }
}

impl Pair {
    /// The pair, if it is short.
    fn given(&self) -> Option<(Key, Value)>
        ensures { MatchOption result (IsShortPair self.now → ⊥) (λ pair. IsShortPair self.now × (pair ≡ given_pair self.now)) }
    {
        let key = Key::from_slice(self.key.given()?).ok()?;
        let value = Value::from_slice(self.value.given()?).ok()?;
        Some((key, value))
    }

    /// This pair from now on.
    fn set(&mut self, key: &Key, value: &Value)
        ensures { ShowsPair (key.now, value.now) self.new }
    {
        self.key.set(key.as_slice());
        self.value.set(value.as_slice());
    }
}

impl Page {
    /// These pairs from now on, and the key from which the next page goes on.
    pub(crate) fn set(&mut self, items: &Pairs, next: &Option<Key>)
        ensures { ShowsWholePage items.now next.now self.new }
    {
        let items = items.as_slice();
        set_pairs(&mut self.pairs, items);
        self.count = items.len() as u64;
        self.set_next(next);
    }

    /// The key from which the next page goes on, if there is one.
    fn set_next(&mut self, next: &Option<Key>)
        ensures pairs { self.new.pairs ≡ self.old.pairs }
        ensures count { self.new.count ≡ self.old.count }
        ensures next { ShowsNext next.now self.new }
    {
        match next {
            Some(key) => {
                self.more = 1;
                self.next.set(key.as_slice());
            }
            None => self.more = 0,
        }
    }
}

/// The first ones are these pairs from now on.
pub(crate) fn set_pairs(pairs: &mut [Pair], items: &[(Key, Value)])
    requires few { length items.now ≤ length pairs.old }
    ensures count { length pairs.new ≡ length pairs.old }
    ensures shows { ShowFirst (length items.now) items.now pairs.new }
{
    for place in 0..items.len() {
        let (key, value) = &items[place];
        pairs[place].set(key, value);
    }
}

/// The pairs that are given; or the status that says why not.
pub(crate) fn pairs_of(alloc: Global, given: &[Pair]) -> Result<Vec<(Key, Value)>, u32>
    ensures ok { IfOk result (λ pairs. pairs.items ≡ map given_pair given.now) }
    ensures short { IfOk result (λ pairs. AreShort given.now) }
    ensures err { IfErr result (λ told. (told ≡ NO_MEMORY) ⊎ ((told ≡ TOO_LONG) × (AreShort given.now → ⊥))) }
{
    let Ok(mut pairs) = Vec::with_capacity(alloc, given.len()) else {
        return Err(NO_MEMORY);
    };
    for one in given {
        let Some(pair) = one.given() else {
            return Err(TOO_LONG);
        };
        let Ok(()) = pairs.push(pair) else {
            return Err(NO_MEMORY);
        };
    }
    Ok(pairs)
}

impl TreeLimits {
    /// These limits from now on.
    pub(crate) fn set(&mut self, limits: &Limits)
        ensures { ShowsLimits limits.now self.new }
    {
        self.actors = limits.actors;
        self.pids = limits.pids;
        self.rows = limits.rows;
        self.epoch = limits.epoch;
        self.large = if !limits.is_large {
            0
        } else if limits.wide_from == 0 {
            1
        } else {
            2
        };
        self.narrow_rows = limits.narrow_rows;
        self.wide_from = limits.wide_from;
        self.narrow_words = limits.narrow_words;
        self.page_words = limits.page_words;
    }

    /// The limits that it shows, if they are limits.
    pub(crate) fn limits(&self) -> Option<Limits>
        ensures { MatchOption result (AreOpenable self.now → ⊥) (λ limits. ShowsLimits limits self.now) }
    {
        let (actors, pids, rows, epoch) = (self.actors, self.pids, self.rows, self.epoch);
        match self.large {
            0 => Limits::new(actors, pids, rows, epoch).ok(),
            1 => Limits::large(actors, pids, rows, epoch).ok(),
            2 => self.limits_with_widths(),
            _ => None,
        }
    }

    /// Those of a large tree with widths, if they are limits.
    fn limits_with_widths(&self) -> Option<Limits>
        requires kind { self.now.large ≡ 2 }
        ensures { MatchOption result (HaveWidths self.now → ⊥) (λ limits. ShowsLimits limits self.now) }
    {
        let widths = Widths {
            narrow_rows: self.narrow_rows,
            wide_from: self.wide_from,
            narrow_words: self.narrow_words,
            page_words: self.page_words,
        };
        if self.wide_from == 0 {
            return None;
        }
        Limits::with_widths(self.actors, self.pids, self.rows, self.epoch, widths).ok()
    }
}

impl FreeRoom {
    /// This room from now on.
    pub(crate) fn set(&mut self, room: &Room)
        ensures { ShowsRoom room.now self.new }
    {
        self.free_pids = room.free_pids as u64;
        self.free_rows = room.free_rows as u64;
    }
}
