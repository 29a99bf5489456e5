//! What other actors have announced.
ghost use Rattle.std.specs.Prelude.{◌≡◌, ◌<◌};
ghost use Rattle.sweep.specs.Announced.{least_of, none_yet, with_next};

use std::marker::Model;

/// Of how many other actors, in ascending order, what they announced was read, and the least epoch of those that are inside; 0 where all
/// are outside. That is all that a comparison needs, so what a sweep keeps is as large for 62 others as for one.
#[derive(Drop)]
pub(crate) struct Announced {
    count: u8,
    least: u64,
}

impl Model for Announced {
    ghost use Rattle.sweep.specs.Announced.{Announced};

    ghost Value = { Announced };

    ghost view = { λ a. record { count = a.count; least = a.least } };
}

impl Announced {
    /// Nothing was read yet.
    pub(crate) fn none_yet() -> Announced
        ensures { result ≡ none_yet }
    {
        Announced { count: 0, least: 0 }
    }

    /// How many actors' epochs were read.
    pub(crate) fn count(&self) -> u8
        ensures { result ≡ self.now.count }
    {
        self.count
    }

    /// The least epoch that was read, or 0.
    pub(crate) fn least(&self) -> u64
        ensures { result ≡ self.now.least }
    {
        self.least
    }

    /// With what the next actor announced.
    pub(crate) fn with(self, epoch: u64) -> Announced
        requires { self.count < 62 }
        ensures { result ≡ with_next epoch self }
    {
        Announced {
            count: self.count + 1,
            least: least_of(self.least, epoch),
        }
    }
}

/// The lesser of two announced epochs, where 0 is none.
fn least_of(one: u64, other: u64) -> u64
    ensures { result ≡ least_of one other }
{
    if one == 0 {
        other
    } else if other == 0 {
        one
    } else if other < one {
        other
    } else {
        one
    }
}
