//! A tree is opened.
ghost use Rattle.std.specs.Prelude.{◌≡◌, IfErr, IfOk};
ghost use Rattle.running_tree.specs.Trees.{AreFresh, IsRefusedAt, OpensAt};

use crate::dealing::{begun, dealt_out};
use crate::seat::BwSeat;
use crate::tree::Tree;
use bw_model::{Limits, OpenError};
use std::alloc::{AllocError, Allocator};

impl<A: Allocator + Copy> Tree<A> {
    /// Opens an empty tree, and returns it with a seat for each actor, in order. It fails only if allocation does. No later call on a seat
    /// allocates.
    pub fn open(alloc: A, limits: Limits) -> Result<(Tree<A>, Vec<BwSeat<A>, A>), OpenError>
        ensures limits { IfOk result (λ opened. opened.0.limits ≡ limits) }
        ensures seats { IfOk result (λ opened. AreFresh opened.0 opened.1.items) }
        ensures err { IfErr result (λ error. error ≡ OpenError.Memory) }
    {
        match Tree::<A>::opened(alloc, limits) {
            Ok(opened) => Ok(opened),
            Err(_) => Err(OpenError::Memory),
        }
    }

    /// Opens a tree as `open` does, but at another opening epoch, 1 to 2^62.
    pub fn open_at(
        alloc: A,
        limits: Limits,
        epoch: u64,
    ) -> Result<(Tree<A>, Vec<BwSeat<A>, A>), OpenError>
        ensures limits { IfOk result (λ opened. OpensAt limits epoch opened.0.limits) }
        ensures seats { IfOk result (λ opened. AreFresh opened.0 opened.1.items) }
        ensures err { IfErr result (λ error. IsRefusedAt epoch error) }
    {
        match limits.opening_at(epoch) {
            Ok(limits) => Tree::<A>::open(alloc, limits),
            Err(_) => Err(OpenError::BadEpoch),
        }
    }

    fn opened(alloc: A, limits: Limits) -> Result<(Tree<A>, Vec<BwSeat<A>, A>), AllocError>
        ensures limits { IfOk result (λ opened. opened.0.limits ≡ limits) }
        ensures seats { IfOk result (λ opened. AreFresh opened.0 opened.1.items) }
    {
        let (tree, first, others) = begun(alloc, limits)?;
        let seats = dealt_out(alloc, &tree, first, others)?;
        Ok((tree, seats))
    }
}
