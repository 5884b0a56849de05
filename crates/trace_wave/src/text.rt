//! Bytes that are added to a `Vec` that has places for them.
ghost use Rattle.std.specs.Prelude.{◌≡◌, ◌+◌, ◌≤◌, ◌++◌, length};
ghost use Rattle.std.specs.Vec.{vec_len, vec_capacity};

use std::alloc::Allocator;

/// Adds bytes.
#[inline(always)]
pub(crate) fn push_bytes<A: Allocator>(out: &mut Vec<u8, A>, bytes: &[u8])
    requires places { vec_len out.old + length bytes.now ≤ vec_capacity out.old }
    ensures value { out.new.items ≡ out.old.items ++ bytes.now }
    ensures len { vec_len out.new ≡ vec_len out.old + length bytes.now }
    ensures capacity { vec_capacity out.old ≤ vec_capacity out.new }
{
    let _ = out.extend_from_slice(bytes);
}
