//! The entries of a limbo list as a queue: they come at its end, and leave it near its front.
ghost use Rattle.std.specs.Prelude.{◌≡◌, ◌<◌, ◌≤◌, ◌+◌, ◌-◌, ◌++◌, ◌∷◌, [], IfOk, drop, length, slice_index_or, slice_set, take, vec_capacity, vec_len};
ghost use Rattle.epochs.specs.Queue.{without_first};
ghost use Rattle.epochs.specs.Words.{without};

use crate::{Entry, Stage};
use std::alloc::{AllocError, Allocator, Global};
use std::marker::Model;

/// The entries in the order in which they came. To take out some near the front moves none behind them.
#[derive(Drop)]
pub(crate) struct Queue<A: Allocator = Global> {
    /// Where the queue begins: what stands before was taken out.
    start: usize,
    entries: Vec<Entry, A>,
}

impl<A: Allocator> Model for Queue<A> {
    ghost use Rattle.std.specs.Prelude.{◌≤◌, drop, vec_capacity, vec_len};
    ghost use Rattle.epochs.specs.Queue.{Queue};

    ghost Value = { Queue };

    ghost view = { λ queue. record { room = vec_capacity queue.entries; entries = drop queue.start queue.entries.items } };

    ghost invariant = { λ queue. queue.start ≤ vec_len queue.entries };
}

impl<A: Allocator> Queue<A> {
    /// With room for so many entries, so that no later call takes memory.
    pub(crate) fn with_room(alloc: A, room: usize) -> Result<Queue<A>, AllocError>
        ensures { IfOk result (λ queue. queue ≡ record { room = room; entries = [] }) }
    {
        Ok(Queue {
            start: 0,
            entries: Vec::with_capacity(alloc, room)?,
        })
    }

    /// The entries.
    pub(crate) fn as_slice(&self) -> &[Entry]
        ensures { result.now ≡ self.now.entries }
    {
        &self.entries.as_slice()[self.start..]
    }

    /// One entry more, the last. Where the memory is full, all entries are moved once.
    pub(crate) fn push(&mut self, entry: Entry)
        requires { length self.old.entries < self.old.room }
        ensures { self.new ≡ record self.old { entries = self.old.entries ++ entry ∷ [] } }
    {
        if self.entries.len() == self.entries.capacity() {
            drop_first(&mut self.entries, self.start);
            self.start = 0;
        }
        self.entries.push_reserved(entry);
    }

    /// Gives the entry at a place another stage.
    pub(crate) fn restage(&mut self, place: usize, stage: Stage)
        requires { place < length self.old.entries }
        ensures { (d : Entry) → self.new ≡ record self.old { entries = slice_set self.old.entries place (record (slice_index_or self.old.entries place d) { stage = stage }) } }
    {
        self.entries[self.start + place].stage = stage;
    }

    /// Takes the numbers of a word that may be freed out of the first entries, so many, and tells how many of these are left.
    pub(crate) fn hand_on(&mut self, count: usize, word: u32) -> usize
        requires { count ≤ length self.old.entries }
        ensures rest { self.new ≡ record self.old { entries = without_first count word self.old.entries } }
        ensures left { result ≡ length (without word (take count self.old.entries)) }
    {
        let end = self.start + count;
        let kept = keep_at_end(&mut self.entries, self.start, end, word);
        self.start = kept;
        if kept > self.entries.len() / 2 {
            drop_first(&mut self.entries, self.start);
            self.start = 0;
        }
        end - kept
    }
}

/// Drops so many of the first entries, and moves the others to where the memory begins.
fn drop_first<A: Allocator>(entries: &mut Vec<Entry, A>, count: usize)
    requires { count ≤ vec_len entries.old }
    ensures items { entries.new.items ≡ drop count entries.old.items }
    ensures len { vec_len entries.new + count ≡ vec_len entries.old }
    ensures capacity { vec_capacity entries.new ≡ vec_capacity entries.old }
{
    let left = entries.len() - count;
    entries.copy_within(count.., 0);
    entries.truncate(left);
}

/// Moves the entries from one place to another, but those numbers of a word that may be freed, to the end of these places, and
/// tells where they begin then.
fn keep_at_end(entries: &mut [Entry], start: usize, end: usize, word: u32) -> usize
    requires order { start ≤ end }
    requires within { end ≤ length entries.old }
    ensures from { start ≤ result }
    ensures to { result ≤ end }
    ensures kept { drop result entries.new ≡ without word (take (end - start) (drop start entries.old)) ++ drop end entries.old }
    ensures left { end - result ≡ length (without word (take (end - start) (drop start entries.old))) }
    ensures len { length entries.new ≡ length entries.old }
{
    let mut kept = end;
    for place in (start..end).rev() {
        let entry = entries[place];
        if !entry.goes_with(word) {
            kept -= 1;
            entries[kept] = entry;
        }
    }
    kept
}
