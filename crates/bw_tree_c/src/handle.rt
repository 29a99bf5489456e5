//! The handle of a tree, which lies in the C program's memory.
ghost use Rattle.std.specs.Prelude.{◌≡◌, ◌↔◌, None, Some, IfSome, IsSome, MatchOption};
ghost use Rattle.bw_tree_c.specs.Handles.{MayCall, MayCallOn};

mod kept;
pub(crate) mod shared;
pub(crate) mod slots;

use crate::handle::kept::Kept;
use crate::handle::shared::Shared;
use crate::receipt::{Receipt, Told};

/// The handle of a tree: never opened, as where all its bytes are zero, or opened. All threads share it.
#[repr(C)]
#[derive(Drop)]
pub struct TreeHandle {
    held: u64,
    pub(crate) kept: Kept,
    ghost there: { (held ≡ 1) ↔ IsSome kept.value },
}

impl TreeHandle {
    /// One that was never opened.
    pub(crate) fn unopened() -> TreeHandle
        ensures { result.kept.value ≡ None }
    {
        TreeHandle {
            held: 0,
            kept: Kept::none(),
        }
    }

    /// The handle of an opened tree. That its type is `Send` and `Sync` is proved: threads of a C program share it.
    pub(crate) fn of(shared: Box<Shared>) -> TreeHandle
        ensures { result.kept.value ≡ Some shared.value }
    {
        let shared: &'static Shared = Box::leak(shared);
        sent(TreeHandle {
            held: 1,
            kept: Kept::of(shared),
        })
    }

    /// The status of a call that did nothing, and the caller's own receipt.
    pub(crate) fn refused(&self, status: u32, since: Receipt) -> Told
        requires may { MayCallOn self.now.kept.value since }
        ensures status { result.status ≡ status }
        ensures back { result.receipt ≡ since }
        ensures may { MayCallOn self.now.kept.value result.receipt }
    {
        Told::refused(status, since)
    }

    /// What is shared, if the tree was opened.
    pub(crate) fn shared(&self) -> Option<&'static Shared>
        ensures kept { MatchOption result (self.now.kept.value ≡ None) (λ shared. self.now.kept.value ≡ Some shared.now) }
        ensures may { (since : Receipt) → MayCallOn self.now.kept.value since → IfSome result (λ shared. MayCall shared.now since) }
    {
        if self.held == 1 {
            Some(self.kept.get())
        } else {
            None
        }
    }
}

/// This handle.
fn sent<T: Send + Sync>(handle: T) -> T
    ensures { result ≡ handle }
{
    handle
}
