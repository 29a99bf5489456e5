//! An allocator for tests, which refuses the Nth call.
//!
//! Look first at `Refusing`, its one type: it passes calls on to another allocator until so many have come, and refuses the next one.
//!
//! Called by the crates of tests, to show what want of memory leaves as it was. Its impl is `unsafe`, as each of `Allocator`. It knows
//! nothing of trees.
#![tactic(auto)]

use std::alloc::{AllocError, Allocator};
use std::sync::atomic::{AtomicU64, Ordering};

/// Passes calls for memory on to another allocator, until so many have come; then it refuses.
pub struct Refusing<B: Allocator> {
    inner: B,
    left: AtomicU64,
}

impl<B: Allocator> Refusing<B> {
    /// All calls are passed on, as long as there are fewer than 2^64.
    pub fn new(inner: B) -> Refusing<B> {
        Refusing {
            inner,
            left: AtomicU64::new(u64::MAX),
        }
    }

    /// From now on so many calls are passed on, and the next one is refused; those behind it are passed on again.
    pub fn set(&self, left: u64) {
        self.left.store(left, Ordering::SeqCst);
    }

    /// How many calls are passed on before one is refused.
    pub fn left(&self) -> u64 {
        self.left.load(Ordering::SeqCst)
    }
}

impl<B: Allocator> Drop for Refusing<B> {
    fn drop(self) {
        let Self { inner: _, left: _ } = self;
    }
}

/// Counts a call, and says whether it is the one to refuse.
fn refuses(left: &AtomicU64) -> bool {
    left.fetch_sub(1, Ordering::SeqCst) == 0
}

unsafe impl<B: Allocator> Allocator for Refusing<B> {
    ghost dealloc_token = { λ heap ty ptr. B.dealloc_token heap.inner ty ptr };

    fn allocate(&self, size: usize, align: usize) -> Result<*mut u8, AllocError> {
        if refuses(&self.left) {
            return Err(AllocError);
        }
        self.inner.allocate(size, align)
    }

    unsafe fn deallocate(&self, ptr: *mut u8, size: usize, align: usize) {
        self.inner.deallocate(ptr, size, align);
    }
}
