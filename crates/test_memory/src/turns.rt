//! Each request for memory refused in turn.

use std::alloc::Global;
use std::test::Fail;
use test_heap::{Refusal, TestHeap};

// No call here makes as many requests.
const MOST: u64 = 10_000;

/// The memory of a test.
pub(crate) type Memory<'h> = &'h TestHeap<Global>;

/// A call of which some requests for memory are refused.
pub(crate) trait Call {
    /// Makes ready what the call needs, refuses requests so from there on, and makes the call. Whether it answered out of memory; then
    /// all is as before it. Else its answer is that of ample memory.
    fn make(&self, heap: Memory<'_>, refusal: Refusal) -> Result<bool, Fail>;

    /// With how many of its requests refused it answers as with ample memory, since it goes on without what it asked for.
    fn spares(&self) -> u64;
}

/// Makes a call with its first request for memory refused, with its second and so on, until it meets no refusal. How often it answered
/// out of memory: after each refusal but those that it goes on without.
pub(crate) fn refuse_in_turn<C: Call>(alloc: Global, call: &C) -> Result<u64, Fail> {
    let mut short: u64 = 0;
    let mut spared: u64 = 0;
    for after in 0..MOST {
        let heap = TestHeap::new(alloc);
        let is_short = call.make(&heap, Refusal::Once { after })?;
        if heap.refused() == 0 {
            return if is_short {
                Err("out of memory, though none was refused".into())
            } else if spared != call.spares() {
                Err("it went on without memory that it asked for".into())
            } else {
                Ok(short)
            };
        }
        short = short.saturating_add(u64::from(is_short));
        spared = spared.saturating_add(u64::from(!is_short));
    }
    Err("a call without an end".into())
}
