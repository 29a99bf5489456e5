//! What an actor keeps between operations.
ghost use Rattle.std.specs.Prelude.{◌≡◌, ℕ, IfErr, IfOk};
ghost use Rattle.tree_limits.specs.declared.limits.Limits.{Limits as LimitsSeen};
ghost use Rattle.traces.specs.discipline.Knowledge.{Knowledge, Limbos};
ghost use Rattle.op_parts.specs.Hands.{Unlinks, empty_hand};
ghost use Rattle.sweep.specs.Kept.{AreKept};

use crate::then::Then;
use bw_model::{Limits, OpenError};
use change_machine::{End, Spares};
use epochs::Limbo;
use std::alloc::{Allocator, Global};
use std::marker::Model;
use structure_changes::After;
use sweep::{chains_go_to_limbo, take_out};

/// What an actor keeps between operations: the rows and the PID that it took and never linked, and what it took out of the tree and
/// has not freed.
pub struct Hand<A: Allocator = Global> {
    pub spares: Spares,
    pub limbo: Limbo<A>,
}

impl<A: Allocator> Drop for Hand<A> {
    fn drop(self) {
        let Hand {
            spares: _,
            limbo: _,
        } = self;
    }
}

impl<A: Allocator> Model for Hand<A> {
    ghost use Rattle.op_parts.specs.Hands.{Hand};

    ghost Value = { Hand };

    ghost view = { λ h. record { spares = h.spares; limbo = h.limbo } };
}

impl<A: Allocator + Copy> Hand<A> {
    /// A hand that holds nothing, with room for all rows and PIDs in its limbo, so that no later call takes memory. Refused only
    /// where memory was.
    pub fn new(alloc: A, limits: &Limits) -> Result<Hand<A>, OpenError>
        ensures ok { IfOk result (λ hand. hand ≡ empty_hand limits.now) }
        ensures err { IfErr result (λ error. error ≡ OpenError.Memory) }
    {
        Ok(Hand {
            spares: Spares::new(),
            limbo: Limbo::<A>::new(alloc, limits)?,
        })
    }
}

impl<A: Allocator> Hand<A> {
    /// What was taken and not linked.
    pub fn spares(&self) -> &Spares
        ensures { result.now ≡ self.now.spares }
    {
        &self.spares
    }

    /// What was taken out of the tree and is not freed.
    pub fn limbo(&self) -> &Limbo<A>
        ensures { result.now ≡ self.now.limbo }
    {
        &self.limbo
    }

    /// What a change has taken out of the tree, if it has won, comes into limbo.
    pub fn unlink(&mut self, end: End, then: &Then)
        requires due { (limits : LimitsSeen) × (actor : ℕ) × (k : Knowledge) × (after : Limbos) × AreKept limits actor self.old.limbo k.limbo × Unlinks limits k end then.now after }
        ensures keeps { (limits : LimitsSeen) (actor : ℕ) (k : Knowledge) (after : Limbos) → AreKept limits actor self.old.limbo k.limbo
            → Unlinks limits k end then.now after → AreKept limits actor self.new.limbo after }
        ensures spares { self.new.spares ≡ self.old.spares }
    {
        chains_go_to_limbo();
        if let (End::Won, Then::After(After::Limbo(unlinked))) = (end, then) {
            take_out(&mut self.limbo, unlinked.rows.as_slice(), unlinked.pid);
        }
    }
}
