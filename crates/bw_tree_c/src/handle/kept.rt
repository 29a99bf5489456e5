//! What a handle keeps: nothing, or what is shared.
ghost use Rattle.std.specs.Prelude.{◌≡◌, None, Some, IsSome, Option};
ghost use Rattle.bw_tree_c.specs.Kept.{maybe_lent};
ghost use Rattle.bw_tree_c.specs.declared.handle.shared.Shared.{Shared};
ghost use Rattle.bw_tree_c.specs.contracts.handle.shared.Shared.{the_row};

use crate::handle::shared::Shared;
use std::marker::Model;

/// Nothing, or what is shared for good, as its pointer.
#[repr(C)]
#[derive(Drop)]
pub struct Kept {
    at: *const u8,
    pub ghost value: { Option Shared },
}

impl Model for Kept {
    ghost also_owns = { λ k. maybe_lent the_row k.at k.value };
}

impl Kept {
    /// Nothing.
    pub fn none() -> Kept
        ensures { result.value ≡ None }
    {
        Kept {
            at: std::ptr::null(),
        }
    }

    /// What is shared for good.
    pub fn of(shared: &'static Shared) -> Kept
        ensures { result.value ≡ Some shared.now }
    {
        let at = shared as *const Shared;
        Kept {
            at: at as *const u8,
        }
    }

    /// What is shared, where there is something.
    pub fn get(&self) -> &'static Shared
        requires { IsSome self.now.value }
        ensures { self.now.value ≡ Some result.now }
    {
        let at = self.at as *const Shared;
        unsafe { &*at }
    }
}

unsafe impl Send for Kept {}

unsafe impl Sync for Kept {}
