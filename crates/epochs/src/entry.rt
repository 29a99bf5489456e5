//! A number in limbo, and how far it is on its way to be used again.
ghost use Rattle.std.specs.Prelude.{◌≡◌, ◌<◌, ◌/◌, ◌==◌, ◌&&◌, ◌⊎◌, ◌↔◌, IsTrue};
ghost use Rattle.std.specs.List.{All};
ghost use Rattle.epochs.specs.Limbo.{compared_with, is_passed, is_unstamped, stamped_by};
ghost use Rattle.epochs.specs.Reclamation.{may_be_freed};

/// A number in a limbo list.
#[derive(Clone, Copy)]
pub struct Entry {
    pub number: u32,
    pub stage: Stage,
}

/// How far what was unlinked is on its way to be used again.
#[derive(Clone, Copy)]
pub enum Stage {
    /// It has no stamp.
    Unstamped,
    /// It has a stamp, an epoch that was read after it was unlinked.
    Stamped(u64),
    /// It has a stamp that each other actor has passed, so that it may be freed.
    Passed(u64),
}

impl Entry {
    /// Whether the number is one of this word, and may be freed.
    pub(crate) fn goes_with(self, word: u32) -> bool
        ensures { result ≡ ((self.number / 64 == word) && is_passed self.stage) }
    {
        self.number / 64 == word && self.stage.is_passed()
    }
}

impl Stage {
    /// Whether there is no stamp.
    pub(crate) fn is_unstamped(self) -> bool
        ensures { result ≡ is_unstamped self }
    {
        matches!(self, Stage::Unstamped)
    }

    /// Whether it may be freed.
    pub(crate) fn is_passed(self) -> bool
        ensures { result ≡ is_passed self }
    {
        matches!(self, Stage::Passed(_))
    }

    /// With this stamp, if there was none.
    pub(crate) fn stamped_by(self, epoch: u64) -> Stage
        ensures { result ≡ stamped_by epoch self }
    {
        match self {
            Stage::Unstamped => Stage::Stamped(epoch),
            Stage::Stamped(_) | Stage::Passed(_) => self,
        }
    }

    /// By what all other actors announced.
    pub(crate) fn compared_with(self, announces: &[u64]) -> Stage
        ensures { result ≡ compared_with announces.now self }
    {
        match self {
            Stage::Unstamped => Stage::Unstamped,
            Stage::Stamped(stamp) | Stage::Passed(stamp) => {
                if may_be_freed(stamp, announces) {
                    Stage::Passed(stamp)
                } else {
                    Stage::Stamped(stamp)
                }
            }
        }
    }
}

/// Whether each of these actors has passed the stamp: it announced 0, or a later epoch.
fn may_be_freed(stamp: u64, announces: &[u64]) -> bool
    ensures value { result ≡ may_be_freed stamp announces.now }
    ensures rule { IsTrue result ↔ All (λ announced. (announced ≡ 0) ⊎ (stamp < announced)) announces.now }
{
    announces
        .iter()
        .all(|&announced| announced == 0 || stamp < announced)
}
