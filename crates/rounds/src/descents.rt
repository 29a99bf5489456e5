//! The way from the root to a page, as far as a round goes on, in one place.
ghost use Rattle.std.specs.Prelude.{◌≡◌, ◌<◌, ℕ, [], IfOk};
ghost use Rattle.bw_model.specs.declared.step.Answer.TheVariants.{Content, Number};
ghost use Rattle.bw_model.specs.declared.step.Step.TheVariants as step;
ghost use Rattle.traces.specs.discipline.Discipline.{May};
ghost use Rattle.traces.specs.discipline.Knowledge.{Knowledge};
ghost use Rattle.round_model.specs.Descents.{Responds, Shows, descending, going_to, wanted_step};
ghost use Rattle.round_model.specs.Machines.{IsTold};
ghost use Rattle.round_model.specs.Visits.{ReadsWithin};
ghost use Rattle.round_model.specs.Descents as state;
ghost use Rattle.rounds.specs.Descents.{sight_of, placed_state, asked_step};

use crate::Asked;
use bw_model::Limits;
use row_chain::ChainPart;
use row_search::{RowAt, Rows};
use std::alloc::{AllocError, Allocator, Global};
use std::marker::Model;
use std::mem;
use structure_changes::PageInHand;

/// Where a descent stands: each state is named by what it reads, slot 0, a page's slot, or a row of a page, whose chain so far tells
/// where it begins.
#[derive(Clone, Copy)]
pub(crate) enum WayStateKind {
    Root,
    Slot { pid: u32 },
    Row { pid: u32, row: u32 },
}

/// What an answer has shown.
#[derive(Clone, Copy)]
pub(crate) enum SightKind {
    /// The descent reads on.
    More,
    /// The slot of the page holds 0.
    Empty,
    /// The page is whole: it is the page in hand.
    Whole,
}

/// A way from the root, page by page: slot 0 is read first, then the page that it names, and then each page to which its round
/// goes on. The records of the page that is read have places of their own, until it is whole and becomes the page in hand.
pub(crate) struct Descent<R: Rows, A: Allocator = Global> {
    limits: Limits,
    state: WayStateKind,
    part: ChainPart<R, A>,
    page: PageInHand<R, A>,
}

impl<R: Rows, A: Allocator> Drop for Descent<R, A> {
    fn drop(self) {
        let Descent {
            limits: _,
            state: _,
            part: _,
            page: _,
        } = self;
    }
}

impl<R: Rows, A: Allocator> Model for Descent<R, A> {
    ghost use Rattle.rounds.specs.Descents.{PlacedDescent, IsSoundAt, placed_state};

    ghost Value = { PlacedDescent };

    ghost view = { λ d. record { way = record { limits = d.limits; state = placed_state d.limits d.state d.part }; page = d.page } };

    ghost invariant = { λ d. IsSoundAt d.limits d.part.head d.state };
}

impl<R: Rows, A: Allocator + Copy> Descent<R, A> {
    /// A descent before its first step. Takes the memory for the records of two pages, 416 bytes, and is refused for want of it alone. No
    /// later call takes memory.
    pub(crate) fn new(alloc: A, limits: &Limits) -> Result<Descent<R, A>, AllocError>
        ensures { IfOk result (λ descent. descent.way ≡ record { limits = limits.now; state = state.Root }) }
    {
        Ok(Descent {
            limits: *limits,
            state: WayStateKind::Root,
            part: ChainPart::<R, A>::new(alloc)?,
            page: PageInHand::<R, A>::new(alloc)?,
        })
    }
}

impl<R: Rows, A: Allocator> Descent<R, A> {
    /// Goes back to the root.
    pub(crate) fn restart(&mut self)
        ensures { self.new ≡ record self.old { way = record self.old.way { state = state.Root } } }
    {
        self.state = WayStateKind::Root;
    }

    /// Goes back to the root of a tree of these limits.
    pub(crate) fn reset(&mut self, limits: &Limits)
        ensures { self.new ≡ record self.old { way = record { limits = limits.now; state = state.Root } } }
    {
        self.limits = *limits;
        self.state = WayStateKind::Root;
    }

    /// How large the tree is.
    pub(crate) fn limits(&self) -> &Limits
        ensures { result.now ≡ self.now.way.limits }
    {
        &self.limits
    }

    /// Goes on to a page.
    pub(crate) fn go_to(&mut self, pid: u32)
        requires some { 0 < pid }
        requires below { pid < self.old.way.limits.pids }
        ensures { self.new ≡ record self.old { way = going_to pid self.old.way } }
    {
        self.part.restart(1);
        self.state = WayStateKind::Slot { pid };
    }

    /// What the descent reads next.
    pub(crate) fn asks(&self) -> Asked
        ensures wanted { asked_step result ≡ wanted_step self.now.way }
        ensures within { ReadsWithin self.now.way.limits (asked_step result) }
        ensures may { (actor : ℕ) (k : Knowledge) → Shows self.now.way k → May actor k (asked_step result) }
    {
        match self.state {
            WayStateKind::Root => Asked::Slot(0),
            WayStateKind::Slot { pid } => Asked::Slot(pid),
            WayStateKind::Row { row, .. } => Asked::Row(row),
        }
    }

    /// The page in hand: the one that was read whole last, until another one changed places with it.
    pub(crate) fn page(&self) -> &PageInHand<R, A>
        ensures { result.now ≡ self.now.page }
    {
        &self.page
    }

    /// The page in hand and another one change places.
    pub(crate) fn swap_page(&mut self, other: &mut PageInHand<R, A>)
        ensures way { self.new.way ≡ self.old.way }
        ensures page { self.new.page ≡ other.old }
        ensures other { other.new ≡ self.old.page }
    {
        mem::swap(&mut self.page, other);
    }

    /// Takes the number that was read in the slot that the descent asked for.
    pub(crate) fn told(&mut self, number: u64) -> SightKind
        requires told { IsTold descending self.old.way (Number number) }
        ensures responds { Responds self.old.way (Number number) self.new.way (sight_of result self.new.page) }
        ensures limits { self.new.way.limits ≡ self.old.way.limits }
        ensures page { self.new.page ≡ self.old.page }
    {
        match self.state {
            WayStateKind::Root => {
                self.go_to(number as u32);
                SightKind::More
            }
            WayStateKind::Slot { .. } if number == 0 => SightKind::Empty,
            WayStateKind::Slot { pid } => {
                self.begin(pid, number as u32);
                SightKind::More
            }
            WayStateKind::Row { .. } => unreachable!(),
        }
    }

    /// Goes on to the newest record of the page's chain.
    fn begin(&mut self, pid: u32, head: u32)
        requires page { 0 < pid }
        requires page_below { pid < self.old.way.limits.pids }
        requires some { 0 < head }
        requires below { head < self.old.way.limits.rows }
        ensures { self.new ≡ record self.old { way = record self.old.way { state = placed_state self.old.way.limits (WayStateKind.Row pid head) (record { head = head; records = [] }) } } }
    {
        self.part.restart(head);
        self.state = WayStateKind::Row { pid, row: head };
    }

    /// Takes the record that was read in the row that the descent asked for. With the base the page is whole.
    #[inline(always)]
    pub(crate) fn take_record(&mut self, found: RowAt<R>, rows: &R, pass: &mut R::Pass) -> SightKind
        requires asked { wanted_step self.old.way ≡ step.Row found.row }
        requires told { IsTold descending self.old.way (Content found.content) }
        requires read { R.has rows.now pass.old found.row found.content }
        ensures responds { Responds self.old.way (Content found.content) self.new.way (sight_of result self.new.page) }
        ensures limits { self.new.way.limits ≡ self.old.way.limits }
        ensures looks { pass.new ≡ pass.old }
    {
        let WayStateKind::Row { pid, .. } = self.state else {
            unreachable!()
        };
        let next = found.next(rows, pass);
        self.part.push(found);
        match next {
            Some(row) => {
                self.state = WayStateKind::Row { pid, row };
                SightKind::More
            }
            None => {
                self.page.receive(pid, &mut self.part);
                // What has the part's place now are records of another page.
                self.state = WayStateKind::Root;
                SightKind::Whole
            }
        }
    }
}
