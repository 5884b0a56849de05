//! A fault of a trace.

use onfi_cycle::Forbidden;

/// An item of a trace that isn't permitted, counted from 0, and the first rule that it breaks.
#[derive(Clone, Copy, Debug, PartialEq, Eq)]
pub struct BrokenRule {
    pub item: usize,
    pub rule: Forbidden,
}
