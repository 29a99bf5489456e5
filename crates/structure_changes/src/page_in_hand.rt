//! A page as it was read, in a place that stays.
ghost use Rattle.std.specs.Prelude.{◌≡◌, [], IfOk};
ghost use Rattle.deltas.specs.Spellable.{IsPid, IsRow};
ghost use Rattle.traces.specs.chain.Fitted.{IsPageChain};
ghost use Rattle.structure_changes.specs.Reads.{chain_of};

use row_chain::{Chain, ChainPart};
use row_search::Rows;
use std::alloc::{AllocError, Allocator, Global};
use std::marker::Model;

/// Which page was read, and the row that its slot had.
#[derive(Clone, Copy)]
pub struct Name {
    pub pid: u32,
    pub head: u32,
    pub ghost is_pid: { IsPid pid },
    pub ghost is_row: { IsRow head },
}

/// A page as it was read. Another page takes its place by changing hands with it.
#[derive(Drop)]
pub struct PageInHand<R: Rows, A: Allocator = Global> {
    name: Name,
    chain: Chain<R, A>,
}

impl<R: Rows, A: Allocator> Model for PageInHand<R, A> {
    ghost use Rattle.std.specs.Prelude.{◌≡◌};
    ghost use Rattle.structure_changes.specs.Versions.{Version};

    ghost Value = { Version };

    ghost view = { λ p. record { pid = p.name.pid; head = p.name.head; chain = p.chain.records; is_pid = p.name.is_pid; is_row = p.name.is_row } };

    ghost invariant = { λ p. p.chain.head ≡ p.name.head };
}

impl<R: Rows, A: Allocator> PageInHand<R, A> {
    /// A place for pages, before one was read: it has no records. Takes the memory for all records, 208 bytes, and is refused for want
    /// of it alone. No later call takes memory.
    pub fn new(alloc: A) -> Result<PageInHand<R, A>, AllocError>
        ensures { IfOk result (λ page. page.chain ≡ []) }
    {
        Ok(PageInHand {
            name: Name { pid: 1, head: 1 },
            chain: Chain::<R, A>::new(alloc)?,
        })
    }

    /// The page's PID.
    pub fn pid(&self) -> u32
        ensures { result ≡ self.now.pid }
    {
        self.name.pid
    }

    /// The row that its slot had.
    pub fn head(&self) -> u32
        ensures { result ≡ self.now.head }
    {
        self.name.head
    }

    /// The whole chain from that row on.
    pub fn chain(&self) -> &Chain<R, A>
        ensures { result.now ≡ chain_of self.now }
    {
        &self.chain
    }

    /// Receives a page that was read whole, and gives the records of the page that it was.
    pub fn receive(&mut self, pid: u32, part: &mut ChainPart<R, A>)
        requires pid { IsPid pid }
        requires head { IsRow part.old.head }
        requires chain { IsPageChain part.old.records }
        ensures pid { self.new.pid ≡ pid }
        ensures chain { chain_of self.new ≡ part.old }
        ensures part { part.new ≡ chain_of self.old }
    {
        let head = part.head();
        self.name = Name { pid, head };
        self.chain.receive(part);
    }
}
