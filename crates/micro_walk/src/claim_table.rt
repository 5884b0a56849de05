//! The table of what is known before each word, on the stack.
ghost use Rattle.std.specs.Prelude.{◌≡◌, ◌≤◌, ◌<◌, Option, None, length, replicate};
ghost use Rattle.micro_claims.specs.declared.state.State.{State};

use arrayvec::ArrayVec;
use micro_claims::State;

/// The most words of a text whose table is a small one.
pub(crate) const FEW_WORDS: usize = 64;

/// A table with a place for each of so many words: nothing is known yet before any of them.
pub(crate) fn nothing_known<const N: usize>(count: usize) -> ArrayVec<Option<State>, N>
    requires { count ≤ N }
    ensures { result.items ≡ replicate count None }
{
    let mut table = ArrayVec::new();
    for _word in 0..count {
        table.push(None);
    }
    table
}
