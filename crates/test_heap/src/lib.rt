//! An allocator for tests, which refuses requests for memory.
//!
//! A heap of a fixed size lets a small request through after it has refused a large one, so a test on it tries no second request of a
//! call. A [`TestHeap`] takes its memory from another allocator, refuses the one request that a test names, and goes on.
#![tactic(auto)]

mod refuser;

pub use refuser::Refusal;
use refuser::Refuser;
use std::alloc::{AllocError, Allocator};

/// The memory of another allocator, some requests for which are refused.
pub struct TestHeap<B: Allocator> {
    inner: B,
    refuser: Refuser,
}

impl<B: Allocator> TestHeap<B> {
    /// A heap that refuses nothing.
    pub fn new(inner: B) -> TestHeap<B> {
        TestHeap {
            inner,
            refuser: Refuser::new(),
        }
    }

    /// Refuses these requests from now on.
    pub fn refuse(&self, refusal: Refusal) {
        self.refuser.set(refusal);
    }

    /// How many requests it has refused.
    pub fn refused(&self) -> u64 {
        self.refuser.count()
    }
}

impl<B: Allocator> Drop for TestHeap<B> {
    fn drop(self) {
        let Self {
            inner: _,
            refuser: _,
        } = self;
    }
}

unsafe impl<B: Allocator> Allocator for TestHeap<B> {
    ghost dealloc_token = { λ heap ty ptr. B.dealloc_token heap.inner ty ptr };

    fn allocate(&self, size: usize, align: usize) -> Result<*mut u8, AllocError> {
        if self.refuser.refuses() {
            return Err(AllocError);
        }
        self.inner.allocate(size, align)
    }

    unsafe fn deallocate(&self, ptr: *mut u8, size: usize, align: usize) {
        self.inner.deallocate(ptr, size, align);
    }
}
