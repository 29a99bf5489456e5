//! The chain of a page as it was read, where its records lie.
ghost use Rattle.std.specs.Prelude.{◌≡◌, ◌<◌, ◌+◌, [], IfOk, length};
ghost use Rattle.std.specs.List.{All};
ghost use Rattle.bw_model.specs.Bytes.{is_under};
ghost use Rattle.record_slots.specs.Parts.{row_of};
ghost use Rattle.traces.specs.chain.Chains.{covers, high_in, is_removed, level_in, low_in, right_in};
ghost use Rattle.traces.specs.chain.Fitted.{IsPageChain};
ghost use Rattle.row_chain.specs.Placed.{IsReadChain, contents};

mod count;
mod pages;
mod rows;
mod search;
mod walk;

use crate::ChainPart;
use bw_model::Key;
use row_search::{KeyWords, RowAt, Rows};
use std::alloc::{AllocError, Allocator, Global};
use std::marker::Model;
use std::mem;

/// The records of one page, each of which fits what is under it: at most twelve deltas, the newest first, over a base. Before the first
/// page was received there are none.
#[derive(Drop)]
pub struct Chain<R: Rows, A: Allocator = Global> {
    part: ChainPart<R, A>,
}

impl<R: Rows, A: Allocator> Model for Chain<R, A> {
    ghost use Rattle.std.specs.Prelude.{◌<◌, length};
    ghost use Rattle.traces.specs.chain.Fitted.{IsPageChain};
    ghost use Rattle.row_chain.specs.Placed.{PlacedChain};

    ghost Value = { PlacedChain };

    ghost view = { λ c. c.part };

    ghost invariant = { λ c. 0 < length c.part.records → IsPageChain c.part.records };
}

impl<R: Rows, A: Allocator> Chain<R, A> {
    /// No records yet, of a page that begins in row 1. Takes the memory for all, 208 bytes, and is refused for want of it alone. No later call takes memory.
    pub fn new(alloc: A) -> Result<Chain<R, A>, AllocError>
        ensures { IfOk result (λ chain. chain ≡ record { head = 1; records = [] }) }
    {
        Ok(Chain {
            part: ChainPart::<R, A>::new(alloc)?,
        })
    }

    /// Receives what was read as a page's whole chain, and gives the chain that it was: the two change hands, and no record is moved.
    pub fn receive(&mut self, part: &mut ChainPart<R, A>)
        requires { IsPageChain part.old.records }
        ensures chain { self.new ≡ part.old }
        ensures part { part.new ≡ self.old }
    {
        mem::swap(&mut self.part, part);
    }

    /// Shows that the chain keeps the rules of a page's chain, at no cost.
    pub fn keeps_rules(&self)
        requires { 0 < length self.now.records }
        ensures { IsPageChain self.now.records }
    {
        let _ = &self.part;
    }

    /// How many deltas stand over the base.
    pub fn deltas(&self) -> usize
        requires { 0 < length self.now.records }
        ensures { result + 1 ≡ length self.now.records }
    {
        self.part.len() - 1
    }

    /// The level: 0 for leaves, one more for each level above.
    pub fn level(&self) -> u8
        requires { 0 < length self.now.records }
        ensures { result ≡ level_in self.now.records }
    {
        self.base().level()
    }

    /// The lowest key that the page may have.
    pub fn low(&self, rows: &R, pass: &mut R::Pass) -> Key
        requires read { IsReadChain (R.has rows.now pass.old) self.now }
        ensures same { pass.new ≡ pass.old }
        ensures low { result ≡ low_in self.now.records }
    {
        self.base_read(rows, pass).first(rows, pass)
    }

    /// Whether the page is removed: nothing stands over a removal.
    pub fn is_removed(&self) -> bool
        requires { 0 < length self.now.records }
        ensures { result ≡ is_removed self.now.records }
    {
        self.keeps_rules();
        self.part.as_slice()[0].removes()
    }

    /// The base, which is the last record; no delta changes its level nor its lowest key.
    fn base(&self) -> &RowAt<R>
        requires { 0 < length self.now.records }
        ensures level { (row_of result.now.content).level ≡ level_in self.now.records }
        ensures low { (row_of result.now.content).first ≡ low_in self.now.records }
    {
        self.keeps_rules();
        &self.part.as_slice()[self.deltas()]
    }

    /// The base of a chain that was read, whose words may be looked at.
    fn base_read(&self, rows: &R, pass: &R::Pass) -> &RowAt<R>
        requires { IsReadChain (R.has rows.now pass.now) self.now }
        ensures there { R.has rows.now pass.now result.now.row result.now.content }
        ensures low { (row_of result.now.content).first ≡ low_in self.now.records }
    {
        self.was_read(rows, pass);
        self.keeps_rules();
        &self.as_read(rows, pass)[self.deltas()]
    }

    /// Shows that a chain that was read has a record, at no cost.
    pub fn was_read(&self, rows: &R, pass: &R::Pass)
        requires { IsReadChain (R.has rows.now pass.now) self.now }
        ensures { 0 < length self.now.records }
    {
        let _ = rows;
        let _ = pass;
    }

    /// Its records in order, the newest first: each may be looked at.
    pub fn as_read(&self, rows: &R, pass: &R::Pass) -> &[RowAt<R>]
        requires { IsReadChain (R.has rows.now pass.now) self.now }
        ensures records { contents result.now ≡ self.now.records }
        ensures there { All (λ placed. R.has rows.now pass.now placed.row placed.content) result.now }
    {
        let _ = rows;
        let _ = pass;
        self.part.as_slice()
    }

    /// The key from which on keys are in pages to the right, or none.
    pub fn high(&self, rows: &R, pass: &mut R::Pass) -> Option<Key>
        requires read { IsReadChain (R.has rows.now pass.old) self.now }
        ensures same { pass.new ≡ pass.old }
        ensures high { result ≡ high_in self.now.records }
    {
        for newest in self.as_read(rows, pass) {
            if newest.ends() {
                return newest.high(rows, pass);
            }
        }
        None
    }

    /// The PID of the next page to the right on the level, or none.
    pub fn right(&self, rows: &R, pass: &mut R::Pass) -> Option<u32>
        requires read { IsReadChain (R.has rows.now pass.old) self.now }
        ensures same { pass.new ≡ pass.old }
        ensures right { result ≡ right_in self.now.records }
    {
        for newest in self.as_read(rows, pass) {
            if newest.ends() {
                return newest.right(rows, pass);
            }
        }
        None
    }

    /// Whether the key is in the page's range.
    pub fn covers(&self, rows: &R, pass: &mut R::Pass, key: &KeyWords) -> bool
        requires read { IsReadChain (R.has rows.now pass.old) self.now }
        ensures same { pass.new ≡ pass.old }
        ensures covers { result ≡ covers self.now.records key.now }
    {
        if !self.base_read(rows, pass).begins_by(rows, pass, key) {
            return false;
        }
        self.ends_after(rows, pass, key)
    }

    /// Whether the key is below the page's end.
    pub fn ends_after(&self, rows: &R, pass: &mut R::Pass, key: &KeyWords) -> bool
        requires read { IsReadChain (R.has rows.now pass.old) self.now }
        ensures same { pass.new ≡ pass.old }
        ensures ends { result ≡ is_under key.now (high_in self.now.records) }
    {
        for newest in self.as_read(rows, pass) {
            if newest.ends() {
                return newest.ends_after(rows, pass, key);
            }
        }
        true
    }
}
