//! On which leg of its way a reader's round is, over a place for a page.
ghost use Rattle.std.specs.Prelude.{◌≡◌, None, Some, IfOk, false, true};
ghost use Rattle.round_model.specs.ReadLegs.{Down, IsPlain, Past, Round, above_of, below, level_on};
ghost use Rattle.rounds.specs.Legs.{IsPlainWithout};

use crate::Descent;
use row_search::Rows;
use std::alloc::{AllocError, Allocator, Global};
use std::marker::Model;
use structure_changes::PageInHand;

/// On which leg a round is.
#[derive(Clone, Copy, PartialEq, Eq)]
pub(crate) enum LegKind {
    /// Down, with no page above.
    Top,
    /// Down from the page above, which stands in the place.
    Below,
    /// Round the removed index page that stands in the place.
    Round,
    /// On from a removed index page, with no page above since.
    Past,
    /// On from a removed index page, down from the page above, which stands in the place.
    PastBelow,
}

/// The leg on which a round is, with a place for the page above, or for the removed page that the round goes round.
pub(crate) struct Leg<R: Rows, A: Allocator = Global> {
    kind: LegKind,
    page: PageInHand<R, A>,
}

impl<R: Rows, A: Allocator> Drop for Leg<R, A> {
    fn drop(self) {
        let Leg { kind: _, page: _ } = self;
    }
}

impl<R: Rows, A: Allocator> Model for Leg<R, A> {
    ghost use Rattle.rounds.specs.Legs.{PlacedLeg, leg_of};

    ghost Value = { PlacedLeg };

    ghost view = { λ l. record { leg = leg_of l.kind l.page; page = l.page } };
}

impl<R: Rows, A: Allocator + Copy> Leg<R, A> {
    /// Down, with no page above. Takes the memory for the records of a page, 208 bytes, and is refused for want of it alone. No later call
    /// takes memory.
    pub(crate) fn new(alloc: A) -> Result<Leg<R, A>, AllocError>
        ensures { IfOk result (λ leg. leg.leg ≡ Down None) }
    {
        Ok(Leg {
            kind: LegKind::Top,
            page: PageInHand::<R, A>::new(alloc)?,
        })
    }
}

impl<R: Rows, A: Allocator> Leg<R, A> {
    /// Begins again, with no page above.
    pub(crate) fn restart(&mut self)
        ensures { self.new ≡ record self.old { leg = Down None } }
    {
        self.kind = LegKind::Top;
    }

    /// The page that stands in the place.
    pub(crate) fn page(&self) -> &PageInHand<R, A>
        ensures { result.now ≡ self.now.page }
    {
        &self.page
    }

    /// Whether the round is on its way round the removed page that stands in the place.
    pub(crate) fn is_round(&self) -> bool
        ensures round { result ≡ true → self.now.leg ≡ Round self.now.page }
        ensures plain { result ≡ false → IsPlain self.now.leg }
    {
        self.kind == LegKind::Round
    }

    /// Whether the page above stands in the place.
    pub(crate) fn has_above(&self) -> bool
        ensures above { result ≡ true → above_of self.now.leg ≡ Some self.now.page }
        ensures none { result ≡ false → IsPlain self.now.leg → IsPlainWithout self.now.leg }
    {
        matches!(self.kind, LegKind::Below | LegKind::PastBelow)
    }

    /// Keeps the page in hand as the page above, from which the round goes down; it is no more on its way round a removed page.
    pub(crate) fn go_below(&mut self, descent: &mut Descent<R, A>)
        ensures plain { IsPlain self.old.leg → self.new.leg ≡ below descent.old.page self.old.leg }
        ensures round { self.old.leg ≡ Round self.old.page → self.new.leg ≡ Past (Some descent.old.page) }
        ensures way { descent.new.way ≡ descent.old.way }
    {
        self.kind = match self.kind {
            LegKind::Top | LegKind::Below => LegKind::Below,
            LegKind::Round | LegKind::Past | LegKind::PastBelow => LegKind::PastBelow,
        };
        descent.swap_page(&mut self.page);
    }

    /// Keeps no page above.
    pub(crate) fn stay_on_level(&mut self)
        ensures { self.new ≡ record self.old { leg = level_on self.old.leg } }
    {
        self.kind = match self.kind {
            LegKind::Top | LegKind::Below => LegKind::Top,
            LegKind::Round => LegKind::Round,
            LegKind::Past | LegKind::PastBelow => LegKind::Past,
        };
    }

    /// Goes round the page in hand, which is removed.
    pub(crate) fn go_round(&mut self, descent: &mut Descent<R, A>)
        ensures leg { self.new.leg ≡ Round descent.old.page }
        ensures way { descent.new.way ≡ descent.old.way }
    {
        self.kind = LegKind::Round;
        descent.swap_page(&mut self.page);
    }

    /// Goes on from the removed page, with no page above.
    pub(crate) fn pass(&mut self)
        ensures { self.new ≡ record self.old { leg = Past None } }
    {
        self.kind = LegKind::Past;
    }
}
